//! A new store over a database that holds something, and the version and the size of a store.
use crate::stores::{NO_VOLUME, number};
use fuse_init::PlainProfile;
use fuse_rows::Origin;
use fuse_store::{StoreFault, StoreParts, TableKeeper};
use fuse_store_tables::{sum_sizes, try_store};
use fuse_store_tree::size_at_rest;
use fuse_wire::Moment;
use sqlite::{Connection, Error, MemStore};
use sqlite_disk::Memory;
use std::alloc::Global;

const START: Moment = Moment { secs: 0, nanos: 0 };

const TABLES: &str = "SELECT count(*) FROM sqlite_schema";

// A database with this statement run in it.
fn after(alloc: Global, statement: &str) -> Result<Connection<MemStore>, StoreFault> {
    let mut conn = Connection::open_in_memory(alloc)?;
    conn.execute(statement, &[])?;
    Ok(conn)
}

type Parts = StoreParts<MemStore, Memory>;

type Plain = TableKeeper<PlainProfile, MemStore, Memory>;

// A new plain store over a database.
fn create(alloc: Global, conn: Connection<MemStore>) -> Result<Plain, (StoreFault, Parts)> {
    let parts = StoreParts { conn, disk: None };
    TableKeeper::create(alloc, parts, NO_VOLUME, Origin::at(START))
}

// The fault of a new store over a database, and how much is listed there afterwards.
fn refused(alloc: Global, conn: Connection<MemStore>) -> Result<(StoreFault, i64), StoreFault> {
    match create(alloc, conn) {
        Ok(_) => Err(StoreFault::Damaged),
        Err((fault, mut parts)) => {
            let listed = number(&mut parts.conn, TABLES)?;
            Ok((fault, listed))
        }
    }
}

// Over a table `meta`, the error is that of its statement.
fn is_taken(alloc: Global) -> Result<bool, StoreFault> {
    let (fault, listed) = refused(alloc, after(alloc, "CREATE TABLE meta (k)")?)?;
    Ok(matches!(fault, StoreFault::Sql(Error::SqlInputError(_))) && listed == 1)
}

// Over another table, nothing is made.
fn is_alone(alloc: Global) -> Result<bool, StoreFault> {
    let (fault, listed) = refused(alloc, after(alloc, "CREATE TABLE other (k)")?)?;
    Ok(matches!(fault, StoreFault::Sql(_)) && listed == 1)
}

// Nor over two, beside which the statements of a new store run.
fn are_alone(alloc: Global) -> Result<bool, StoreFault> {
    let mut conn = after(alloc, "CREATE TABLE other (k)")?;
    conn.execute("CREATE TABLE another (k)", &[])?;
    let (fault, listed) = refused(alloc, conn)?;
    Ok(matches!(fault, StoreFault::Sql(Error::InvalidQuery)) && listed == 2)
}

// The statements alone, over nothing.
fn is_tried(alloc: Global) -> Result<bool, StoreFault> {
    let mut conn = Connection::open_in_memory(alloc)?;
    try_store(&mut conn, Origin::at(START))?;
    Ok(number(&mut conn, TABLES)? == 0)
}

#[test]
fn a_store_over_another(rt: HostRuntime) -> Result<(), StoreFault> {
    let alloc = rt.alloc();
    assert_eq!(rt;
        [
            is_taken(alloc)?,
            is_alone(alloc)?,
            are_alone(alloc)?,
            is_tried(alloc)?
        ],
        [true; 4]
    );
    Ok(())
}

// The size of all contents of a new store, and of one whose root has five bytes.
fn sizes(alloc: Global) -> Result<[u64; 4], StoreFault> {
    let conn = Connection::open_in_memory(alloc)?;
    let mut keeper = match create(alloc, conn) {
        Ok(keeper) => keeper,
        Err((fault, _)) => return Err(fault),
    };
    let none = keeper.content_size()?;
    let mut conn = keeper.into_parts().conn;
    conn.execute("UPDATE nodes SET size = 5", &[])?;
    let some = [sum_sizes(&mut conn)?, size_at_rest(&mut conn)?];
    conn.execute("DELETE FROM nodes", &[])?;
    Ok([none, some[0], some[1], sum_sizes(&mut conn)?])
}

#[test]
fn a_size(rt: HostRuntime) -> Result<(), StoreFault> {
    let alloc = rt.alloc();
    assert_eq!(rt; sizes(alloc)?, [0, 5, 5, 0]);
    Ok(())
}

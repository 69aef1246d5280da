//! Statements on a block of any length.
use crate::stores::number;
use fuse_keeper::StoreFault;
use fuse_rows::Origin;
use fuse_store_tables::{insert_block, make_store, write_block};
use fuse_wire::Moment;
use sqlite::{Connection, MemStore};
use std::alloc::Global;

const START: Moment = Moment { secs: 0, nanos: 0 };

// 100 times the number of blocks, plus the sum of their numbers.
const BLOCKS: &str =
    "SELECT 100 * count(*) + sum(block) FROM blocks WHERE node = 1 AND bytes = x'6f6e65'";

fn begun(alloc: Global) -> Result<Connection<MemStore>, StoreFault> {
    let mut conn = Connection::open_in_memory(alloc)?;
    make_store(&mut conn, None, Origin::at(START))?;
    fuse_store_tables::begin(&mut conn)?;
    Ok(conn)
}

fn insert(conn: &mut Connection<MemStore>) -> Result<(), StoreFault> {
    insert_block(conn, 1, 2, b"one")?;
    insert_block(conn, 1, 5, b"one")?;
    Ok(())
}

// In place of one that is there, and as a new one.
fn write(conn: &mut Connection<MemStore>) -> Result<(), StoreFault> {
    write_block(conn, 1, 2, b"two")?;
    write_block(conn, 1, 9, b"one")?;
    Ok(())
}

#[test]
fn a_block_is_written_over_or_added(rt: HostRuntime) -> Result<(), StoreFault> {
    let mut conn = begun(rt.alloc())?;
    insert(&mut conn)?;
    let both = number(&mut conn, BLOCKS)?;
    write(&mut conn)?;
    assert_eq!(rt; [both, number(&mut conn, BLOCKS)?], [207, 214]);
    Ok(())
}

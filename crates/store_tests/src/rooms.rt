//! Everyday stores: their room, and the nodes that go.
ghost use Rattle.std.specs.Prelude.{◌<◌, ◌≤◌, ◌^◌, IfSome};
ghost use Rattle.fuse_rows.specs.Bounds.{file_limit};
ghost use Rattle.fuse_rows.specs.Columns.{FitsNode, FitsHandle};
ghost use Rattle.fuse_store_tables.specs.Making.{IsVolume};

use crate::stores::number;
use fuse_init::Profile;
use fuse_keeper::StoreFault;
use fuse_rows::{HandleRow, NodeRow, Origin, Owner};
use fuse_store_tables::{
    NEXT_NODE, NothingMore, USED, Volume, begin_mount, delete_node, insert_handle, insert_node,
    make_store, select_handles_of, set_up, update_counter,
};
use fuse_wire::{AccessMode, Moment};
use sqlite::{Connection, MemStore};
use std::alloc::Global;

const START: Moment = Moment { secs: 0, nanos: 0 };

// The room of 30 blocks.
const OF_30: Volume = Volume {
    capacity: 30,
    number: 7,
};

// The rows of the room, as one number.
const ROOM: &str =
    "SELECT coalesce(sum(v * (10000 * (k = 12) + 100 * (k = 13) + (k = 14))), 0) FROM meta";

const NODES: &str = "SELECT count(*) FROM nodes";

fn made_for(
    alloc: Global,
    room: Option<Volume>,
    owner: Owner,
) -> Result<Connection<MemStore>, StoreFault>
    requires { IfSome room IsVolume }
{
    let mut conn = Connection::open_in_memory(alloc)?;
    make_store(&mut conn, room, Origin { owner, made: START })?;
    Ok(conn)
}

fn made(alloc: Global, room: Option<Volume>) -> Result<Connection<MemStore>, StoreFault>
    requires { IfSome room IsVolume }
{
    made_for(alloc, room, Owner::SUPERUSER)
}

// The owner of the root of a new store, as one number.
fn owner_in(alloc: Global, owner: Owner) -> Result<i64, StoreFault> {
    let mut conn = made_for(alloc, Some(OF_30), owner)?;
    Ok(number(&mut conn, "SELECT 10000000000 * uid + gid FROM nodes")?)
}

#[test]
fn an_owner(rt: HostRuntime) -> Result<(), StoreFault> {
    let owner = Owner {
        uid: 1000,
        gid: 4_294_967_295,
    };
    assert_eq!(rt; owner_in(rt.alloc(), owner)?, 10_004_294_967_295);
    Ok(())
}

// The profile and the room of a new store.
fn opened(alloc: Global, room: Option<Volume>) -> Result<(bool, i64), StoreFault>
    requires { IfSome room IsVolume }
{
    let mut conn = made(alloc, room)?;
    let is_everyday = match set_up(alloc, &mut conn, None, None, &mut NothingMore)? {
        Profile::Plain => false,
        Profile::Everyday => true,
    };
    Ok((is_everyday, number(&mut conn, ROOM)?))
}

#[test]
fn a_room(rt: HostRuntime) -> Result<(), StoreFault> {
    assert_eq!(rt; opened(rt.alloc(), None)?, (false, 0));
    assert_eq!(rt; opened(rt.alloc(), Some(OF_30))?, (true, 23000));
    Ok(())
}

// What an everyday store of version 2 has beside a plain one.
const ROOM_OF_SECOND: &str = "INSERT INTO meta (k, v) VALUES (12, 2), (13, 30), (14, 0)";

// An opening of an everyday store of version 2 after a change of `meta`.
fn reopened_second(alloc: Global, change: &str) -> Result<bool, StoreFault> {
    let mut conn = made(alloc, None)?;
    conn.execute(ROOM_OF_SECOND, &[])?;
    conn.execute(change, &[])?;
    Ok(set_up(alloc, &mut conn, None, Some(7), &mut NothingMore).is_ok())
}

// An opening after a change of `meta`.
fn reopened(alloc: Global, change: &str) -> Result<bool, StoreFault> {
    let mut conn = made(alloc, Some(OF_30))?;
    conn.execute(change, &[])?;
    Ok(set_up(alloc, &mut conn, None, None, &mut NothingMore).is_ok())
}

#[test]
fn a_damaged_room(rt: HostRuntime) -> Result<(), StoreFault> {
    let alloc = rt.alloc();
    assert!(rt; reopened(alloc, "UPDATE meta SET v = 30 WHERE k = 14")?);
    assert!(rt; !reopened(alloc, "UPDATE meta SET v = 31 WHERE k = 14")?);
    assert!(rt; !reopened(alloc, "UPDATE meta SET v = 3 WHERE k = 12")?);
    assert!(rt; !reopened(alloc, "DELETE FROM meta WHERE k = 12")?);
    assert!(rt; !reopened(alloc, "DELETE FROM meta WHERE k = 13")?);
    assert!(rt; !reopened(alloc, "DELETE FROM meta WHERE k > 12")?);
    assert!(rt; !reopened(alloc, "DELETE FROM meta WHERE k > 11")?);
    assert!(rt; !reopened(alloc, "DELETE FROM meta WHERE k = 15")?);
    Ok(())
}

// Without the rows of its room it is a plain store.
#[test]
fn a_damaged_room_of_version_two(rt: HostRuntime) -> Result<(), StoreFault> {
    let alloc = rt.alloc();
    assert!(rt; reopened_second(alloc, "UPDATE meta SET v = 30 WHERE k = 14")?);
    assert!(rt; !reopened_second(alloc, "UPDATE meta SET v = 31 WHERE k = 14")?);
    assert!(rt; !reopened_second(alloc, "UPDATE meta SET v = 3 WHERE k = 12")?);
    assert!(rt; !reopened_second(alloc, "DELETE FROM meta WHERE k = 12")?);
    assert!(rt; !reopened_second(alloc, "DELETE FROM meta WHERE k = 13")?);
    assert!(rt; !reopened_second(alloc, "DELETE FROM meta WHERE k > 12")?);
    assert!(rt; reopened_second(alloc, "DELETE FROM meta WHERE k > 11")?);
    Ok(())
}

fn node(number: u64, size: u64, written: u64) -> NodeRow
    requires number { number < 2 ^ 63 }
    requires size { size ≤ file_limit }
    requires written { written < 2 ^ 63 }
    ensures { FitsNode result }
{
    NodeRow {
        node: number,
        mode: 0o100644,
        uid: 0,
        gid: 0,
        rdev: 0,
        size,
        atime: START,
        mtime: START,
        ctime: START,
        up: 0,
        subdirs: 0,
        written: Some(written),
    }
}

// A store with two nodes without a name, in a transaction: of five blocks two are written, and none.
fn begun(alloc: Global) -> Result<Connection<MemStore>, StoreFault> {
    let mut conn = made(alloc, Some(OF_30))?;
    fuse_store_tables::begin(&mut conn)?;
    insert_node(&mut conn, &node(2, 20000, 2))?;
    insert_node(&mut conn, &node(3, 0, 0))?;
    update_counter(&mut conn, NEXT_NODE, 4)?;
    update_counter(&mut conn, USED, 5)?;
    Ok(conn)
}

#[test]
fn a_node_goes(rt: HostRuntime) -> Result<(), StoreFault> {
    let mut conn = begun(rt.alloc())?;
    delete_node(&mut conn, 2)?;
    delete_node(&mut conn, 7)?;
    assert_eq!(rt; number(&mut conn, NODES)?, 2);
    Ok(())
}

#[test]
fn the_blocks_of_a_mount(rt: HostRuntime) -> Result<(), StoreFault> {
    let mut conn = begun(rt.alloc())?;
    fuse_store_tables::commit(&mut conn)?;
    begin_mount(&mut conn)?;
    assert_eq!(rt;
        [number(&mut conn, NODES)?, number(&mut conn, ROOM)?],
        [1, 23003]
    );
    Ok(())
}

fn handle(fh: u64, node: u64) -> HandleRow
    requires fh { fh < 2 ^ 63 }
    requires node { node < 2 ^ 63 }
    ensures { FitsHandle result }
{
    HandleRow {
        fh,
        node,
        access: AccessMode::ReadOnly,
    }
}

#[test]
fn the_handles_of_a_node(rt: HostRuntime) -> Result<(), StoreFault> {
    let mut conn = begun(rt.alloc())?;
    insert_handle(&mut conn, &handle(1, 2))?;
    insert_handle(&mut conn, &handle(2, 3))?;
    insert_handle(&mut conn, &handle(3, 2))?;
    let all = select_handles_of(&mut conn, 2, 9)?.len();
    let first = select_handles_of(&mut conn, 2, 1)?.len();
    let none = select_handles_of(&mut conn, 1, 9)?.len();
    assert_eq!(rt; [all, first, none], [2, 1, 0]);
    Ok(())
}

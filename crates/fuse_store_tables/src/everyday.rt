// An everyday store of version 2 as one of version 3. Its rows are read, all tables are dropped, and
// those of version 3 are made as in a new store, and filled.
ghost use Rattle.std.specs.Prelude.{◌≡◌, ◌<◌, ◌^◌, ⊤, map, IfOk, IfErr};
ghost use Rattle.sqlite.specs.Held.{state};
ghost use Rattle.fuse_store_tables.specs.Content.{Content, Holds};
ghost use Rattle.fuse_store_tables.specs.Faults.{IsOutside, IsPlain};
ghost use Rattle.fuse_store_tables.specs.Layout.{no_schema, store_schema};
ghost use Rattle.fuse_store_tables.specs.Making.{IsBare};
ghost use Rattle.fuse_store_tables.specs.Migrating.{with_written, all_written, counting_written};
ghost use Rattle.fuse_store_tables.specs.Moves.{Makes, Takes};
ghost use Rattle.fuse_store_tables.specs.Opening.{IsSecond, IsToCount, IsEverydaySecond, HasRoomFor};
ghost use Rattle.fuse_store_tables.specs.declared.version.Layout.TheVariants.{Second, Third};
ghost use Rattle.fuse_store_tables.specs.inner.Columns.{given_node};
ghost use Rattle.fuse_store_tables.specs.inner.Copies.{copy_row, rows_in, added_of, no_rows};
ghost use Rattle.fuse_store_tables.specs.inner.Copies.{IsCopyOf, Filled, IsRead, marked_third};
ghost use Rattle.fuse_store_tables.specs.inner.Copies.{counters_copied, nodes_copied};
ghost use Rattle.fuse_store_tables.specs.inner.Copies.{entries_copied, blocks_copied};
ghost use Rattle.fuse_store_tables.specs.inner.Copies.{handles_copied, lots_copied, all_copied};
ghost use Rattle.fuse_store_tables.specs.inner.Dropping.{HasSchema};
ghost use Rattle.fuse_store_tables.specs.inner.Looking.{ReadsIf};
ghost use Rattle.fuse_store_tables.specs.inner.Performing.{IsSure, StaysWithin};
ghost use Rattle.fuse_store_tables.specs.inner.Steps.{HoldsIn};

use crate::copied::{Copied, insert_all, select_all};
use crate::counted_nodes::{Added, insert_nodes, read_all_added, select_nodes, sum_within};
use crate::counters::{CAPACITY, NUMBER, USED, VERSION, insert_counter, write_counter};
use crate::creation::make_meta;
use crate::dropping::drop_all;
use crate::numbers::value_in;
use crate::third::add_xattrs;
use fuse_keeper::StoreFault;
use sqlite::{Alter, Connection, Error, Row};
use std::alloc::Global;

/// The rows of version 2, and what is added to its nodes.
#[derive(Drop)]
pub(crate) struct Copies {
    counters: Vec<Row>,
    nodes: Vec<Row>,
    added: Vec<Added>,
    entries: Vec<Row>,
    blocks: Vec<Row>,
    handles: Vec<Row>,
    lots: Vec<Row>,
    records: Vec<Row>,
}

// All rows of two tables.
fn read_two<S: Alter>(
    conn: &mut Connection<S>,
    first: Copied,
    second: Copied,
) -> Result<(Vec<Row>, Vec<Row>), StoreFault>
    ensures { ReadsIf (λ _. ⊤) (λ c p. (p.0.items ≡ map (copy_row first) (rows_in first c))
        × (p.1.items ≡ map (copy_row second) (rows_in second c))) (state S.Store conn.old)
        (state S.Store conn.new) result }
{
    let some = select_all(conn, first)?;
    let others = select_all(conn, second)?;
    Ok((some, others))
}

// All nodes, and what is added to them.
fn read_nodes<S: Alter>(
    alloc: Global,
    conn: &mut Connection<S>,
) -> Result<(Vec<Row>, Vec<Added>), StoreFault>
    ensures { ReadsIf (λ _. ⊤) (λ c p. (p.0.items ≡ map (given_node Second) c.nodes)
        × (p.1.items ≡ map (λ n. added_of (with_written c.blocks n)) c.nodes))
        (state S.Store conn.old) (state S.Store conn.new) result }
{
    let nodes = select_nodes(conn)?;
    let added = read_all_added(alloc, conn, nodes.as_slice())?;
    Ok((nodes, added))
}

// The whole store.
fn read_store<S: Alter>(alloc: Global, conn: &mut Connection<S>) -> Result<Copies, StoreFault>
    ensures { ReadsIf (λ _. ⊤) (λ c s. IsCopyOf s c) (state S.Store conn.old)
        (state S.Store conn.new) result }
{
    let (counters, entries) = read_two(conn, Copied::Counters, Copied::Entries)?;
    let (blocks, handles) = read_two(conn, Copied::Blocks, Copied::Handles)?;
    let (lots, records) = read_two(conn, Copied::Lots, Copied::Records)?;
    let (nodes, added) = read_nodes(alloc, conn)?;
    Ok(Copies {
        counters,
        nodes,
        added,
        entries,
        blocks,
        handles,
        lots,
        records,
    })
}

// The tables of version 3, without a row.
fn make_empty<S: Alter>(conn: &mut Connection<S>) -> Result<(), Error>
    ensures { Takes (IsBare no_schema) (λ _. HoldsIn Third (no_rows Third))
        (state S.Store conn.old) (state S.Store conn.new) result }
{
    make_meta(conn)?;
    add_xattrs(conn)
}

// The same, in the place of those of version 2.
fn remake<S: Alter>(conn: &mut Connection<S>) -> Result<(), Error>
    ensures { Takes (HasSchema store_schema) (λ _. HoldsIn Third (no_rows Third))
        (state S.Store conn.old) (state S.Store conn.new) result }
{
    drop_all(conn)?;
    make_empty(conn)
}

fn copy_counters<S: Alter>(conn: &mut Connection<S>, copies: &Copies) -> Result<(), Error>
    ensures { Takes (Filled copies.now (λ _. no_rows Third)) (Filled copies.now counters_copied)
        (state S.Store conn.old) (state S.Store conn.new) result }
{
    insert_all(conn, Copied::Counters, copies.counters.as_slice())
}

fn copy_nodes<S: Alter>(conn: &mut Connection<S>, copies: &Copies) -> Result<(), Error>
    ensures { Takes (Filled copies.now (λ _. no_rows Third)) (Filled copies.now nodes_copied)
        (state S.Store conn.old) (state S.Store conn.new) result }
{
    copy_counters(conn, copies)?;
    insert_nodes(conn, copies.nodes.as_slice(), copies.added.as_slice())
}

fn copy_entries<S: Alter>(conn: &mut Connection<S>, copies: &Copies) -> Result<(), Error>
    ensures { Takes (Filled copies.now (λ _. no_rows Third)) (Filled copies.now entries_copied)
        (state S.Store conn.old) (state S.Store conn.new) result }
{
    copy_nodes(conn, copies)?;
    insert_all(conn, Copied::Entries, copies.entries.as_slice())
}

fn copy_blocks<S: Alter>(conn: &mut Connection<S>, copies: &Copies) -> Result<(), Error>
    ensures { Takes (Filled copies.now (λ _. no_rows Third)) (Filled copies.now blocks_copied)
        (state S.Store conn.old) (state S.Store conn.new) result }
{
    copy_entries(conn, copies)?;
    insert_all(conn, Copied::Blocks, copies.blocks.as_slice())
}

fn copy_handles<S: Alter>(conn: &mut Connection<S>, copies: &Copies) -> Result<(), Error>
    ensures { Takes (Filled copies.now (λ _. no_rows Third)) (Filled copies.now handles_copied)
        (state S.Store conn.old) (state S.Store conn.new) result }
{
    copy_blocks(conn, copies)?;
    insert_all(conn, Copied::Handles, copies.handles.as_slice())
}

fn copy_lots<S: Alter>(conn: &mut Connection<S>, copies: &Copies) -> Result<(), Error>
    ensures { Takes (Filled copies.now (λ _. no_rows Third)) (Filled copies.now lots_copied)
        (state S.Store conn.old) (state S.Store conn.new) result }
{
    copy_handles(conn, copies)?;
    insert_all(conn, Copied::Lots, copies.lots.as_slice())
}

// All of them.
fn copy_all<S: Alter>(conn: &mut Connection<S>, copies: &Copies) -> Result<(), Error>
    ensures { Takes (Filled copies.now (λ _. no_rows Third)) (Filled copies.now all_copied)
        (state S.Store conn.old) (state S.Store conn.new) result }
{
    copy_lots(conn, copies)?;
    insert_all(conn, Copied::Records, copies.records.as_slice())
}

// Puts these rows into new tables in the place of those of version 2.
fn refill<S: Alter>(conn: &mut Connection<S>, copies: &Copies) -> Result<(), Error>
    ensures { Takes (λ c d. IsCopyOf copies.now c × HoldsIn Second c d)
        (λ c. HoldsIn Third (all_copied c)) (state S.Store conn.old) (state S.Store conn.new)
        result }
{
    remake(conn)?;
    copy_all(conn, copies)
}

// Sets the version, the blocks in use, and the number of the store.
fn mark_third<S: Alter>(conn: &mut Connection<S>, used: u64, number: u64) -> Result<(), Error>
    requires used { used < 2 ^ 63 }
    requires number { number < 2 ^ 63 }
    ensures { Makes (marked_third used number) (state S.Store conn.old)
        (state S.Store conn.new) result }
{
    write_counter(conn, VERSION, 3)?;
    write_counter(conn, USED, used)?;
    insert_counter(conn, NUMBER, number)
}

// Puts what was read into the tables of version 3.
fn write_store<S: Alter>(
    conn: &mut Connection<S>,
    copies: &Copies,
    used: u64,
    number: u64,
) -> Result<(), Error>
    requires used { used < 2 ^ 63 }
    requires number { number < 2 ^ 63 }
    ensures { Takes (IsRead copies.now used) (λ c. Holds (counting_written number c))
        (state S.Store conn.old) (state S.Store conn.new) result }
{
    refill(conn, copies)?;
    mark_third(conn, used, number)
}

// The number of written blocks, which need room.
fn count_used(copies: &Copies) -> Result<u64, StoreFault>
    ensures value { IfOk result (λ used. (c : Content) → IsCopyOf copies.now c → IsEverydaySecond c
        → (used ≡ all_written c) × HasRoomFor c) }
    ensures small { IfOk result (λ used. used < 2 ^ 63) }
    ensures fault { IfErr result (λ f. (c : Content) → IsCopyOf copies.now c → IsEverydaySecond c
        → HasRoomFor c → IsOutside f) }
    ensures plain { IfErr result IsPlain }
{
    let capacity = value_in(copies.counters.as_slice(), CAPACITY)?;
    match sum_within(copies.added.as_slice(), capacity) {
        Some(used) => Ok(used),
        None => Err(StoreFault::Damaged),
    }
}

/// Brings an everyday store of version 2 to version 3, with this number.
pub(crate) fn to_third<S: Alter>(
    alloc: Global,
    conn: &mut Connection<S>,
    number: u64,
) -> Result<(), StoreFault>
    requires { number < 2 ^ 63 }
    ensures made { Takes IsToCount (λ c. IsSecond (counting_written number c))
        (state S.Store conn.old) (state S.Store conn.new) result }
    ensures fault { IsSure (λ c d. IsToCount c d × HasRoomFor c) (state S.Store conn.old)
        (state S.Store conn.new) result }
    ensures plain { IfErr result IsPlain }
    ensures within { StaysWithin (state S.Store conn.old) (state S.Store conn.new) result }
{
    let copies = read_store(alloc, conn)?;
    let used = count_used(&copies)?;
    Ok(write_store(conn, &copies, used, number)?)
}

// How many blocks of a node are written.
ghost use Rattle.std.specs.Prelude.{◌≡◌, ◌<◌, ◌≤◌, ◌^◌, ◌-◌, ℕ, List, Option, map, min, IfOk, IfErr};
ghost use Rattle.std.specs.Prelude.{OnOk, OnErr, filter, length};
ghost use Rattle.std.specs.Option.{is_some, option_to_list};
ghost use Rattle.fuse_rows.specs.Blocks.{numbers_from};
ghost use Rattle.fuse_store_tables.specs.Blocks.{Block, block_at, shown_block};
ghost use Rattle.sqlite.specs.State.{HasCleanDisk};
ghost use Rattle.sqlite.specs.Held.{state};
ghost use Rattle.fuse_store_tables.specs.Content.{Content};
ghost use Rattle.fuse_store_tables.specs.declared.version.Layout.TheVariants.{Second, Third};
ghost use Rattle.fuse_store_tables.specs.Faults.{IsOutside, IsPlain};
ghost use Rattle.fuse_store_tables.specs.Moves.{Inside, LookedInside, Stays};
ghost use Rattle.fuse_store_tree.specs.Pieces.{is_written_in};
ghost use Rattle.fuse_store_tree.specs.inner.Reading.{counted_between, one_if, IsSound};

use crate::bounds::END;
use crate::piece_reads::{find_last, find_piece};
use fuse_keeper::StoreFault;
use fuse_store_tables::{Layout, count_blocks, layout_of, select_block};
use sqlite::{Alter, Connection, Row};

// Whether the rows of a block show one.
fn is_there(rows: &[Row]) -> bool
    ensures { (o : Option Block) → rows.now ≡ map shown_block (option_to_list o)
        → result ≡ is_some o }
{
    !rows.is_empty()
}

// Whether a block is written: 1 or 0.
fn count_one<S: Alter>(conn: &mut Connection<S>, node: u64, block: u64) -> Result<u64, StoreFault>
    requires node { node < 2 ^ 63 }
    requires block { block < 2 ^ 63 }
    ensures looks { OnOk result (LookedInside (state S.Store conn.old) (state S.Store conn.new)) }
    ensures fails { OnErr result (Stays (state S.Store conn.old) (state S.Store conn.new)) }
    ensures value { HasCleanDisk (state S.Store conn.new) → IfOk result (λ n. (file : List ℕ)
        (c : Content) → Inside c (state S.Store conn.old) → IsSound file c
        → n ≡ one_if (is_written_in file c node block)) }
    ensures small { IfOk result (λ n. n ≤ 1) }
    ensures fault { HasCleanDisk (state S.Store conn.new) → IfErr result (λ f. (file : List ℕ)
        (c : Content) → Inside c (state S.Store conn.old) → IsSound file c → IsOutside f) }
    ensures plain { IfErr result IsPlain }
{
    let rows = select_block(conn, node, block)?;
    if is_there(rows.as_slice()) {
        return Ok(1);
    }
    match find_piece(conn, node, block) {
        Ok(Some(_)) => Ok(1),
        Ok(None) => Ok(0),
        Err(fault) => Err(fault),
    }
}

// Blocks from one on, and how many of them are written.
#[derive(Clone, Copy)]
struct Stretch {
    begin: u64,
    count: u64,
}

// The blocks of a range that have rows.
fn count_rows<S: Alter>(
    conn: &mut Connection<S>,
    node: u64,
    from: u64,
    end: u64,
) -> Result<Stretch, StoreFault>
    requires node { node < 2 ^ 63 }
    requires from { from < end }
    requires end { end < 2 ^ 63 }
    ensures looks { OnOk result (LookedInside (state S.Store conn.old) (state S.Store conn.new)) }
    ensures fails { OnErr result (Stays (state S.Store conn.old) (state S.Store conn.new)) }
    ensures value { HasCleanDisk (state S.Store conn.new) → IfOk result (λ s. (c : Content)
        → Inside c (state S.Store conn.old)
        → s.count ≡ length (filter (λ k. is_some (block_at node k c.blocks))
        (numbers_from from (end - from)))) }
    ensures begin { IfOk result (λ s. s.begin ≡ from) }
    ensures few { IfOk result (λ s. s.count ≤ end - from) }
    ensures fault { HasCleanDisk (state S.Store conn.new) → IfErr result (λ f. (c : Content)
        → Inside c (state S.Store conn.old) → IsOutside f) }
    ensures plain { IfErr result IsPlain }
{
    match count_blocks(conn, node, from, end) {
        // Whatever the disk returns, there are no more than blocks.
        Ok(count) => Ok(Stretch {
            begin: from,
            count: count.min(end - from),
        }),
        Err(fault) => Err(fault),
    }
}

// The last blocks of a range of which a piece has each, or no piece has any.
fn count_last<S: Alter>(
    conn: &mut Connection<S>,
    node: u64,
    from: u64,
    end: u64,
) -> Result<Stretch, StoreFault>
    requires node { node < 2 ^ 63 }
    requires from { from < end }
    requires end { end < 2 ^ 63 }
    ensures looks { OnOk result (LookedInside (state S.Store conn.old) (state S.Store conn.new)) }
    ensures fails { OnErr result (Stays (state S.Store conn.old) (state S.Store conn.new)) }
    ensures value { HasCleanDisk (state S.Store conn.new) → IfOk result (λ s. (file : List ℕ)
        (c : Content) → Inside c (state S.Store conn.old) → IsSound file c
        → s.count ≡ counted_between file c node s.begin end) }
    ensures begin { IfOk result (λ s. from ≤ s.begin) }
    ensures some { IfOk result (λ s. s.begin < end) }
    ensures few { IfOk result (λ s. s.count ≤ end - s.begin) }
    ensures fault { HasCleanDisk (state S.Store conn.new) → IfErr result (λ f. (file : List ℕ)
        (c : Content) → Inside c (state S.Store conn.old) → IsSound file c → IsOutside f) }
    ensures plain { IfErr result IsPlain }
{
    let piece = match find_last(conn, node, end - 1) {
        Ok(Some(piece)) => piece,
        Ok(None) => return count_rows(conn, node, from, end),
        Err(fault) => return Err(fault),
    };
    let past = piece.first + piece.count;
    if past < end {
        return count_rows(conn, node, past.max(from), end);
    }
    let begin = piece.first.max(from);
    Ok(Stretch {
        begin,
        count: end - begin,
    })
}

// Of a store of version 3. It takes a statement for each piece, and two for each run of rows.
fn count_all<S: Alter>(
    conn: &mut Connection<S>,
    node: u64,
    from: u64,
    to: u64,
) -> Result<u64, StoreFault>
    requires node { node < 2 ^ 63 }
    requires to { to < 2 ^ 63 }
    ensures looks { OnOk result (LookedInside (state S.Store conn.old) (state S.Store conn.new)) }
    ensures fails { OnErr result (Stays (state S.Store conn.old) (state S.Store conn.new)) }
    ensures value { HasCleanDisk (state S.Store conn.new) → IfOk result (λ count. (file : List ℕ)
        (c : Content) → Inside c (state S.Store conn.old) → IsSound file c
        → count ≡ counted_between file c node from to) }
    ensures few { IfOk result (λ count. count ≤ to - from) }
    ensures fault { HasCleanDisk (state S.Store conn.new) → IfErr result (λ f. (file : List ℕ)
        (c : Content) → Inside c (state S.Store conn.old) → IsSound file c → IsOutside f) }
    ensures plain { IfErr result IsPlain }
{
    let mut count = 0;
    let mut end = to;
    'parts: while from < end {
        match count_last(conn, node, from, end) {
            Ok(last) => {
                count += last.count;
                end = last.begin;
            }
            Err(fault) => return Err(fault),
        }
    }
    Ok(count)
}

// The same up to the highest number that a block can have, which no statement can name as an end.
fn count_to_end<S: Alter>(
    conn: &mut Connection<S>,
    node: u64,
    from: u64,
    to: u64,
) -> Result<u64, StoreFault>
    requires node { node < 2 ^ 63 }
    requires to { to ≤ 2 ^ 63 }
    ensures looks { OnOk result (LookedInside (state S.Store conn.old) (state S.Store conn.new)) }
    ensures fails { OnErr result (Stays (state S.Store conn.old) (state S.Store conn.new)) }
    ensures value { HasCleanDisk (state S.Store conn.new) → IfOk result (λ count. (file : List ℕ)
        (c : Content) → Inside c (state S.Store conn.old) → IsSound file c
        → count ≡ counted_between file c node from to) }
    ensures fault { HasCleanDisk (state S.Store conn.new) → IfErr result (λ f. (file : List ℕ)
        (c : Content) → Inside c (state S.Store conn.old) → IsSound file c → IsOutside f) }
    ensures plain { IfErr result IsPlain }
{
    if from >= to {
        return Ok(0);
    }
    if to < END {
        return count_all(conn, node, from, to);
    }
    let below = match count_all(conn, node, from, END - 1) {
        Ok(below) => below,
        Err(fault) => return Err(fault),
    };
    match count_one(conn, node, END - 1) {
        Ok(last) => Ok(below + last),
        Err(fault) => Err(fault),
    }
}

// The numbers of blocks are below `END`.
fn below_end(to: u64) -> u64
    ensures { result ≡ min to (2 ^ 63) }
{
    to.min(END)
}

// The same of any node.
fn count_third<S: Alter>(
    conn: &mut Connection<S>,
    node: u64,
    from: u64,
    to: u64,
) -> Result<u64, StoreFault>
    ensures looks { OnOk result (LookedInside (state S.Store conn.old) (state S.Store conn.new)) }
    ensures fails { OnErr result (Stays (state S.Store conn.old) (state S.Store conn.new)) }
    ensures value { HasCleanDisk (state S.Store conn.new) → IfOk result (λ count. (file : List ℕ)
        (c : Content) → Inside c (state S.Store conn.old) → IsSound file c
        → node < 2 ^ 63 → count ≡ counted_between file c node from (min to (2 ^ 63))) }
    // No node has such a number.
    ensures high { IfOk result (λ count. 2 ^ 63 ≤ node → count ≡ 0) }
    ensures fault { HasCleanDisk (state S.Store conn.new) → IfErr result (λ f. (file : List ℕ)
        (c : Content) → Inside c (state S.Store conn.old) → IsSound file c → IsOutside f) }
    ensures plain { IfErr result IsPlain }
{
    if node >= END {
        return Ok(0);
    }
    count_to_end(conn, node, from, below_end(to))
}

/// How many blocks of a node are written, from one on and below another. Version 2 counts none.
pub(crate) fn count_between<S: Alter>(
    conn: &mut Connection<S>,
    node: u64,
    from: u64,
    to: u64,
) -> Result<u64, StoreFault>
    ensures looks { OnOk result (LookedInside (state S.Store conn.old) (state S.Store conn.new)) }
    ensures fails { OnErr result (Stays (state S.Store conn.old) (state S.Store conn.new)) }
    ensures value { HasCleanDisk (state S.Store conn.new) → IfOk result (λ count. (file : List ℕ)
        (c : Content) → Inside c (state S.Store conn.old) → IsSound file c → c.layout ≡ Third
        → node < 2 ^ 63 → count ≡ counted_between file c node from (min to (2 ^ 63))) }
    ensures none { HasCleanDisk (state S.Store conn.new) → IfOk result (λ count. (c : Content)
        → Inside c (state S.Store conn.old) → c.layout ≡ Second → count ≡ 0) }
    // No node has such a number.
    ensures high { IfOk result (λ count. 2 ^ 63 ≤ node → count ≡ 0) }
    ensures fault { HasCleanDisk (state S.Store conn.new) → IfErr result (λ f. (file : List ℕ)
        (c : Content) → Inside c (state S.Store conn.old) → IsSound file c → IsOutside f) }
    ensures plain { IfErr result IsPlain }
{
    match layout_of(conn) {
        Layout::Second => Ok(0),
        Layout::Third => count_third(conn, node, from, to),
    }
}

// Deletion of the records of settled ids.
ghost use Rattle.std.specs.Prelude.{◌<◌, ◌≤◌, ◌^◌, ℕ, List, [], ◌∷◌, length, take, IsTrue};
ghost use Rattle.std.specs.Prelude.{IfOk, IfErr, OnOk, OnErr};
ghost use Rattle.sqlite.specs.Held.{state};
ghost use Rattle.fuse_keeper.specs.Group.{ids_of};
ghost use Rattle.fuse_store_tables.specs.Faults.{IsOutside, IsPlain};
ghost use Rattle.fuse_store_tree.specs.inner.Changing.{Turned};
ghost use Rattle.fuse_store_tree.specs.Group.{without_record, without_settled};
ghost use Rattle.fuse_store_tables.specs.Moves.{Stays};

use crate::bounds::END;
use fuse_keeper::StoreFault;
use fuse_store_tables::{delete_four_kept, delete_kept};
use fuse_wire::Id;
use sqlite::{Alter, Connection};

// Deletes the record of this id, if there is one.
fn forget<S: Alter>(conn: &mut Connection<S>, id: u64) -> Result<(), StoreFault>
    ensures turned { OnOk result ((file : List ℕ) → Turned file (without_record id) (state S.Store conn.old)
        (state S.Store conn.new)) }
    ensures fails { OnErr result (Stays (state S.Store conn.old) (state S.Store conn.new)) }
    ensures fault { IfErr result IsOutside }
    ensures plain { IfErr result IsPlain }
{
    if id >= END {
        return Ok(());
    }
    match delete_kept(conn, id) {
        Ok(()) => Ok(()),
        Err(error) => Err(StoreFault::from(error)),
    }
}

// The greatest distance of ids whose records go together: what lies between them is read.
const NEAR: u64 = 64;

// Whether four ids rise, are near each other, and are below the end.
fn are_near(first: u64, second: u64, third: u64, last: u64) -> bool
    ensures second { IsTrue result → first ≤ second }
    ensures third { IsTrue result → second ≤ third }
    ensures last { IsTrue result → third ≤ last }
    ensures small { IsTrue result → last < 2 ^ 63 }
{
    first <= second && second <= third && third <= last && last < END && last - first <= NEAR
}

// Deletes the records of four ids.
fn forget_four<S: Alter>(
    conn: &mut Connection<S>,
    first: u64,
    second: u64,
    third: u64,
    last: u64,
) -> Result<(), StoreFault>
    requires second { first ≤ second }
    requires third { second ≤ third }
    requires last { third ≤ last }
    requires small { last < 2 ^ 63 }
    ensures turned { OnOk result ((file : List ℕ) → Turned file (without_settled (first ∷ second ∷ third ∷ last ∷ []))
        (state S.Store conn.old) (state S.Store conn.new)) }
    ensures fails { OnErr result (Stays (state S.Store conn.old) (state S.Store conn.new)) }
    ensures fault { IfErr result IsOutside }
    ensures plain { IfErr result IsPlain }
{
    match delete_four_kept(conn, first, second, third, last) {
        Ok(()) => Ok(()),
        Err(error) => Err(StoreFault::from(error)),
    }
}

// Deletes the records of the first ids, four where they are near each other, and says of how many.
fn forget_first<S: Alter>(conn: &mut Connection<S>, ids: &[Id]) -> Result<usize, StoreFault>
    requires some { 1 ≤ length ids.now }
    ensures count { IfOk result (λ n. (1 ≤ n) × (n ≤ length ids.now)) }
    ensures turned { IfOk result (λ n. (file : List ℕ) → Turned file (without_settled (ids_of (take n ids.now)))
        (state S.Store conn.old) (state S.Store conn.new)) }
    ensures fails { OnErr result (Stays (state S.Store conn.old) (state S.Store conn.new)) }
    ensures fault { IfErr result IsOutside }
    ensures plain { IfErr result IsPlain }
{
    let first = ids[0].0;
    if ids.len() >= 4 && are_near(first, ids[1].0, ids[2].0, ids[3].0) {
        match forget_four(conn, first, ids[1].0, ids[2].0, ids[3].0) {
            Ok(()) => Ok(4),
            Err(fault) => Err(fault),
        }
    } else {
        match forget(conn, first) {
            Ok(()) => Ok(1),
            Err(fault) => Err(fault),
        }
    }
}

/// Deletes the records of these ids, where there are any.
pub(crate) fn settle<S: Alter>(conn: &mut Connection<S>, ids: &[Id]) -> Result<(), StoreFault>
    ensures turned { OnOk result ((file : List ℕ) → Turned file (without_settled (ids_of ids.now))
        (state S.Store conn.old) (state S.Store conn.new)) }
    ensures fails { OnErr result (Stays (state S.Store conn.old) (state S.Store conn.new)) }
    ensures fault { IfErr result IsOutside }
    ensures plain { IfErr result IsPlain }
{
    let mut done: usize = 0;
    'rest: while done < ids.len() {
        match forget_first(conn, &ids[done..]) {
            Ok(count) => done += count,
            Err(fault) => return Err(fault),
        }
    }
    Ok(())
}

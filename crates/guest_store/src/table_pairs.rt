// The pairs of a guest's store, as a guest is shown them.
ghost use Rattle.std.specs.Prelude.{◌≡◌, IfOk, map};
ghost use Rattle.guest_talk.specs.Showing.{owned_content};
ghost use Rattle.guest_tables.specs.Scanned.{owned_contents as stored_contents};

use fuse_keeper::StoreFault;
use guest_frames::Scan;
use guest_tables::{scan_pairs, select_pair};
use guest_talk::{OwnedPair, PairPage, PairSource};
use sqlite::{Alter, Connection};
use std::alloc::{AllocError, Global};

/// The pairs of a database. They are shown within a transaction.
#[derive(Drop)]
pub(crate) struct TablePairs<S: Alter> {
    pub(crate) conn: Connection<S>,
}

// The same pairs, as the talk lists them.
fn listed(alloc: Global, pairs: Vec<guest_tables::OwnedPair>) -> Result<Vec<OwnedPair>, AllocError>
    ensures { IfOk result (λ v. map owned_content v.items ≡ stored_contents pairs.items) }
{
    let mut listed = Vec::new(alloc);
    for pair in pairs {
        listed.push(OwnedPair {
            key: pair.key,
            value: pair.value,
        })?;
    }
    Ok(listed)
}

impl<S: Alter + Drop> PairSource for TablePairs<S> {
    ghost use Rattle.sqlite.specs.State.{HasCleanDisk};
    ghost use Rattle.sqlite.specs.Held.{state};
    ghost use Rattle.fuse_store_tables.specs.Faults.{IsOutside};
    ghost use Rattle.fuse_store_tables.specs.Moves.{Stays};
    ghost use Rattle.fuse_store_tables.specs.inner.Following.{earlier};
    ghost use Rattle.guest_tables.specs.Moves.{LookedInside};
    ghost use Rattle.guest_store.specs.inner.Showing.{ShowsPairs, looked_still, looked_then};
    ghost use Rattle.guest_store.specs.inner.Showing.{failed_then, shows_still};

    ghost shows = { λ t ps. ShowsPairs (state S.Store t.conn) ps };

    ghost is_honest = { λ t. HasCleanDisk (state S.Store t.conn) };

    ghost may_answer = { λ t f. IsOutside f };

    ghost looks = { λ a b. LookedInside (state S.Store a.conn) (state S.Store b.conn) };

    ghost fails = { λ a b. Stays (state S.Store a.conn) (state S.Store b.conn) };

    fn value(&mut self, alloc: Global, key: &[u8]) -> Result<Option<Vec<u8>>, StoreFault> {
        select_pair(&mut self.conn, key)
    }

    fn scan(&mut self, alloc: Global, scan: &Scan<'_>) -> Result<PairPage, StoreFault> {
        let page = scan_pairs(&mut self.conn, alloc, scan)?;
        Ok(PairPage {
            pairs: listed(alloc, page.pairs)?,
            more: page.more,
        })
    }

    ghost still = { λ a. looked_still _ };

    ghost and_then = { λ a b d p q. looked_then _ _ _ p q };

    ghost and_fails = { λ a b d p q. failed_then _ _ _ p q };

    ghost or_less = { λ a b p. p.stays };

    ghost was_honest = { λ a b p clean. earlier _ _ _ p.survives clean };

    ghost kept = { λ a b p clean ps shown. shows_still _ _ ps p clean shown };

    ghost may_stay = { λ a b p f may. may };
}

ghost use Rattle.std.specs.Prelude.{◌≡◌, IfOk, IfErr, OnOk, OnErr};
ghost use Rattle.std.specs.Option.{option_map};
ghost use Rattle.fuse_keeper.specs.declared.fault.StoreFault.{StoreFault as Fault};
ghost use Rattle.guest_frames.specs.Borrowed.{scan_content};
ghost use Rattle.fuse_guest.specs.Pairs.{Pairs, ArePairs, value_for};
ghost use Rattle.fuse_guest.specs.Telling.{scan_told};
ghost use Rattle.guest_talk.specs.Showing.{page_frame};

use crate::page::PairPage;
use fuse_keeper::StoreFault;
use guest_frames::Scan;
use std::alloc::Global;

/// Pairs, wherever they are kept.
///
/// Where its store is honest, an `Ok` is of the pairs that it shows, and they stay in view.
pub trait PairSource {
    /// It shows these pairs.
    ghost shows: { Self → Pairs → Type 0 };

    /// Its store has so far given back what was written.
    ghost is_honest: { Self → Type 0 };

    /// The faults that a look may answer where its store is honest and it shows pairs.
    ghost may_answer: { Self → Fault → Type 0 };

    /// Nothing but looks that went well lie between the two.
    ghost looks: { Self → Self → Type 0 };

    /// Nothing but looks lie between the two, of which the last may have failed.
    ghost fails: { Self → Self → Type 0 };

    /// The value of a key.
    fn value(&mut self, alloc: Global, key: &[u8]) -> Result<Option<Vec<u8>>, StoreFault>
        ensures value { is_honest self.new → (ps : Pairs) → ArePairs ps → shows self.old ps
            → IfOk result (λ v. option_map (λ x. x.items) v ≡ value_for ps key.now) }
        ensures fault { is_honest self.new → (ps : Pairs) → ArePairs ps → shows self.old ps
            → IfErr result (may_answer self.old) }
        ensures looks { OnOk result (looks self.old self.new) }
        ensures fails { OnErr result (fails self.old self.new) };

    /// The pairs that PAIRS lists for a SCAN: the first ones, as many as fit into its frame, and one
    /// at least if there is one.
    fn scan(&mut self, alloc: Global, scan: &Scan<'_>) -> Result<PairPage, StoreFault>
        ensures page { is_honest self.new → (ps : Pairs) → ArePairs ps → shows self.old ps
            → IfOk result (λ page. page_frame page ≡ scan_told ps (scan_content scan.now)) }
        ensures fault { is_honest self.new → (ps : Pairs) → ArePairs ps → shows self.old ps
            → IfErr result (may_answer self.old) }
        ensures looks { OnOk result (looks self.old self.new) }
        ensures fails { OnErr result (fails self.old self.new) };

    ghost still: { (a : Self) → looks a a };

    ghost and_then: { (a b d : Self) → looks a b → looks b d → looks a d };

    ghost and_fails: { (a b d : Self) → looks a b → fails b d → fails a d };

    /// A fault that isn't of a look comes after looks that went well.
    ghost or_less: { (a b : Self) → looks a b → fails a b };

    /// Looks that left its store honest found it honest.
    ghost was_honest: { (a b : Self) → fails a b → is_honest b → is_honest a };

    /// Looks change none of the pairs that it shows.
    ghost kept: { (a b : Self) → looks a b → is_honest b → (ps : Pairs) → shows a ps
        → shows b ps };

    /// No fault may come after looks that couldn't before.
    ghost may_stay: { (a b : Self) → looks a b → (f : Fault) → may_answer b f
        → may_answer a f };
}

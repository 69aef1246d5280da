//! Worked cases, computed by the definitions.
ghost use Rattle.fuse_tree.specs.inner.Vectors.{Inits, FirstRun, Refusals};
ghost use Rattle.fuse_tree.specs.inner.Vectors.{Blocks, Counted};

// INIT.
#[tactic(auto, unfolding(fuse_tree::specs::Do::done))]
fn inits()
    ensures { Inits }
{}

// The first run.
#[tactic(auto, unfolding(fuse_tree::specs::Do::done))]
fn first_run()
    ensures { FirstRun }
{}

// Refused requests.
#[tactic(auto, unfolding(fuse_tree::specs::Do::done))]
fn refusals()
    ensures { Refusals }
{}

// Written blocks.
fn blocks()
    ensures { Blocks }
{}

// What an everyday store counts.
#[tactic(auto, unfolding(fuse_tree::specs::Do::done))]
fn counted()
    ensures { Counted }
{}

#[test]
fn vectors() {
    inits();
    first_run();
    refusals();
    blocks();
    counted();
}

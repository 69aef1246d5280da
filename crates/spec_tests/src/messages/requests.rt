ghost use Rattle.spec_tests.specs.inner.RequestCases.{BodyFaults, Exchange, Faults, FirstRun};
ghost use Rattle.spec_tests.specs.inner.RequestCases.{MissingLookup};
ghost use Rattle.spec_tests.specs.inner.RequestCases.{RenameBytes, WriteBytes};

use fuse_request::*;
use std::test::*;

#[tactic(auto, unfolding(fuse_wire::specs::Bytes::number_of))]
fn faults()
    ensures { Faults }
{}

#[tactic(auto, unfolding(fuse_wire::specs::Bytes::number_of))]
fn body_faults()
    ensures { BodyFaults }
{}

fn missing_lookup()
    ensures { MissingLookup }
{
    canon_spells();
}

fn first_run()
    ensures { FirstRun }
{
    canon_spells();
}

fn rename_bytes()
    ensures { RenameBytes }
{
    canon_spells();
}

fn write_bytes()
    ensures { WriteBytes }
{
    canon_spells();
}

fn exchange()
    ensures { Exchange }
{
    canon_spells();
}

// The vectors, which the check computes.
#[test]
fn vectors() {
    message_bounds();
    faults();
    body_faults();
    rename_bytes();
    write_bytes();
    exchange();
    missing_lookup();
    first_run();
    one_cut();
    cut_joins();
    cut_steps();
    canon_spells();
    spelled_at();
}

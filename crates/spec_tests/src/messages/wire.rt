ghost use Rattle.spec_tests.specs.inner.WireCases.{LowestFirst, ReadBack, SameId};

use fuse_wire::*;
use std::test::*;

#[tactic(auto, unfolding(fuse_wire::specs::Bytes::le))]
fn lowest_first()
    ensures { LowestFirst }
{}

#[tactic(auto, unfolding(fuse_wire::specs::Bytes::number_of))]
fn read_back()
    ensures { ReadBack }
{}

fn same_id()
    ensures { SameId }
{}

#[test]
fn vectors() {
    lowest_first();
    read_back();
    same_id();
    opcode_numbers();
    errno_numbers();
    valid_numbers();
    init_flag_numbers();
    access_numbers();
    one_number();
    numbers_read();
    layouts_stand();
    names_end();
}

#[test]
fn a_signed_number_is_written(rt: HostRuntime) -> Result<(), Memory> {
    let mut out = Vec::from_slice(rt.alloc(), b"ab")?;
    put_i32(&mut out, -2)?;
    assert!(rt; out.as_slice() == b"ab\xfe\xff\xff\xff".as_slice());
    Ok(())
}

#[test]
fn want_of_memory_is_printed(rt: HostRuntime) -> Result<(), Fail> {
    let text = format!(in rt.alloc(); "{}", Memory)?;
    assert_eq!(rt; text.as_str(), "out of memory");
    Ok(())
}

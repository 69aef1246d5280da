//! Replays of streams in hexadecimal over a tree in memory.
use crate::hex::hex;
use crate::keepers::{AT_1000, TreeKeeper, new_keeper};
use crate::texts::INIT_AGREED;
use fuse_commands::{Ending, run_replay};
use fuse_keeper::Keeper;
use std::alloc::Global;
use std::io::{Read, Write};
use std::test::Fail;

// A new store after case init-agreed, with which the other cases begin.
fn begun(alloc: Global) -> Result<TreeKeeper, Fail> {
    let mut keeper = new_keeper(alloc)?;
    let init = hex(alloc, INIT_AGREED)?;
    let mut printed = Vec::new(alloc);
    if !keeper.failed() {
        run_replay(
            alloc,
            &mut keeper,
            init.as_slice(),
            &mut printed,
            AT_1000,
            false,
        );
    }
    Ok(keeper)
}

/// The ending of a replay after case init-agreed, with its output.
pub(crate) fn printed_to<R: Read + Drop, W: Write>(
    alloc: Global,
    reader: R,
    writer: &mut W,
) -> Result<Ending, Fail> {
    let mut keeper = begun(alloc)?;
    if keeper.failed() {
        return Err("the keeper failed".into());
    }
    Ok(run_replay(alloc, &mut keeper, reader, writer, AT_1000, false))
}

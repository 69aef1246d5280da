//! The values that a keeper returns, as bytes: keepers with the same bytes hold the same.
use crate::groups::perform;
use crate::requests::{IDS, questions};
use fuse_answer::Answer;
use fuse_init::Settings;
use fuse_keeper::{Done, Keeper, StoreFault};
use fuse_wire::Id;
use std::alloc::{AllocError, Global};

fn put_numbers(out: &mut Vec<u8>, numbers: &[u64]) -> Result<(), AllocError> {
    for number in numbers {
        out.extend_from_slice(&number.to_le_bytes())?;
    }
    Ok(())
}

fn put_answer(out: &mut Vec<u8>, answer: &Answer) -> Result<(), AllocError> {
    let body = answer.body.as_slice();
    put_numbers(out, &[answer.errno.0 as u64, body.len() as u64])?;
    out.extend_from_slice(body)
}

fn put_settings(out: &mut Vec<u8>, settings: Option<Settings>) -> Result<(), AllocError> {
    match settings {
        Some(agreed) => {
            let limits = [u64::from(agreed.minor), u64::from(agreed.max_readahead)];
            put_numbers(out, &limits)?;
            put_numbers(out, &[agreed.flags.0])
        }
        None => put_numbers(out, &[0]),
    }
}

fn put_done(out: &mut Vec<u8>, done: &Done) -> Result<(), AllocError> {
    put_numbers(out, &[u64::from(done.repeated)])?;
    put_answer(out, &done.answer)
}

fn put_record(out: &mut Vec<u8>, answer: Option<Answer>) -> Result<(), AllocError> {
    match answer {
        Some(answer) => put_answer(out, &answer),
        None => put_numbers(out, &[u64::MAX]),
    }
}

// The numbers of nodes, handles and records, and the settings.
fn put_counts<K: Keeper>(keeper: &mut K, out: &mut Vec<u8>) -> Result<(), StoreFault> {
    let counts = keeper.counts()?;
    put_numbers(out, &[counts.nodes, counts.handles, counts.records])?;
    let settings = keeper.settings()?;
    Ok(put_settings(out, settings)?)
}

fn put_record_of<K: Keeper>(keeper: &mut K, id: u64, out: &mut Vec<u8>) -> Result<(), StoreFault> {
    let answer = keeper.answer_of(Id(id))?;
    Ok(put_record(out, answer)?)
}

fn put_records<K: Keeper>(keeper: &mut K, out: &mut Vec<u8>) -> Result<(), StoreFault> {
    for id in IDS {
        put_record_of(keeper, id, out)?;
    }
    Ok(())
}

// The answers to the questions, which change the store.
fn put_answers<K: Keeper>(keeper: &mut K, out: &mut Vec<u8>) -> Result<(), StoreFault> {
    let dones = perform(keeper, &questions())?;
    for done in dones.as_slice() {
        put_done(out, done)?;
    }
    Ok(())
}

/// All values that a keeper returns.
pub(crate) fn observe<K: Keeper>(alloc: Global, keeper: &mut K) -> Result<Vec<u8>, StoreFault> {
    let mut out = Vec::new(alloc);
    put_counts(keeper, &mut out)?;
    put_records(keeper, &mut out)?;
    put_answers(keeper, &mut out)?;
    Ok(out)
}

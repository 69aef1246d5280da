//! Sessions of the run.
use super::*;
use crate::hex::{mark_resent, put_hex};
use crate::run::{MESSAGES, Pair, QUESTIONS, RUN};

// The size of each message of the run, and of each answer.
const LENGTHS: [usize; MESSAGES] = [104, 58, 48, 83, 80, 50, 52, 64];

const ANSWER_LENGTHS: [usize; MESSAGES] = [80, 144, 32, 24, 19, 144, 16, 16];

/// Each message in a group of its own, or all in one group.
#[derive(Clone, Copy, Debug)]
pub enum Grouping {
    Each,
    All,
}

/// The first messages in pieces, so that they form these groups.
pub(crate) fn put_pieces(
    arrivals: &mut Vec<Arrival>,
    grouping: Grouping,
    count: usize,
) -> Result<(), AllocError> {
    match grouping {
        Grouping::Each => put_each(arrivals, count)?,
        Grouping::All => arrivals.push(Arrival::Piece(size_of_first(&LENGTHS, count)))?,
    }
    Ok(())
}

fn first_of(lengths: &[usize], count: usize) -> &[usize] {
    lengths.get(..count).unwrap_or(lengths)
}

fn put_each(arrivals: &mut Vec<Arrival>, count: usize) -> Result<(), AllocError> {
    for len in first_of(&LENGTHS, count) {
        arrivals.push(Arrival::Piece(*len))?;
    }
    Ok(())
}

fn size_of_first(lengths: &[usize], count: usize) -> usize {
    let mut size: usize = 0;
    for len in first_of(lengths, count) {
        size = size.saturating_add(*len);
    }
    size
}

/// The size of the first answers of the run.
pub(crate) fn size_of_answers(count: usize) -> usize {
    size_of_first(&ANSWER_LENGTHS, count)
}

/// The run over this peer.
pub(crate) fn run(alloc: Global, peer: Peer) -> Result<Session, AllocError> {
    let mut input = Vec::new(alloc);
    let mut wanted = Vec::new(alloc);
    put_pairs(&mut input, &mut wanted, &RUN)?;
    Ok(Session {
        input,
        peer,
        wanted,
    })
}

// Appends a message or an answer with the resend bit.
fn put_resent(out: &mut Vec<u8>, text: &str) -> Result<(), AllocError> {
    let begin = out.len();
    put_hex(out, text)?;
    mark_resent(out.as_mut_slice(), begin);
    Ok(())
}

/// Appends messages and their answers.
pub(crate) fn put_pairs(
    input: &mut Vec<u8>,
    wanted: &mut Vec<u8>,
    pairs: &[Pair],
) -> Result<(), AllocError> {
    for (asked, answer) in pairs {
        put_hex(input, asked)?;
        put_hex(wanted, answer)?;
    }
    Ok(())
}

/// The session after the notice: the requests without an answer are resent, then the questions about
/// the tree follow.
pub(crate) fn resent_run(alloc: Global, answered: usize) -> Result<Session, AllocError> {
    let mut input = Vec::new(alloc);
    let mut wanted = NOTICE.to_vec(alloc)?;
    for (asked, answer) in RUN.iter().skip(answered) {
        put_resent(&mut input, asked)?;
        put_resent(&mut wanted, answer)?;
    }
    put_pairs(&mut input, &mut wanted, &QUESTIONS)?;
    Ok(plain(alloc, input, wanted))
}

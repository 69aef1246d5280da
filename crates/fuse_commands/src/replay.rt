ghost use Rattle.std.specs.Prelude.{◌≡◌, ◌≢◌, ◌⊎◌, ◌≤◌, ℕ, true, false, List, Some, IfSome, IfErr};
ghost use Rattle.std.specs.Prelude.{OnOk};
ghost use Rattle.std.specs.List.{AllByRecursion};
ghost use Rattle.fuse_request.specs.Stream.{joined};
ghost use Rattle.fuse_session.specs.Serving.{KeepsFirm};
ghost use Rattle.fuse_commands.specs.Endings.{status_of, IsOfStream};
ghost use Rattle.fuse_commands.specs.Replaying.{Replayed, Faulted, StandsForPrefix, Prints};
ghost use Rattle.fuse_commands.specs.Replaying.{PrintsAnswers};
ghost use Rattle.fuse_commands.specs.inner.Sending.{IsAnswer, SendsAnswers};

use crate::count_line::CountLine;
use crate::ending::Ending;
use crate::input::MAX_READS;
use crate::output::{write_answers, write_counts};
use fuse_answer::len_stands_first;
use fuse_keeper::{Keeper, said_fits};
use fuse_request::{cut_joins, cut_steps};
use fuse_session::{Fixed, SessionCounts, StreamPort, serve};
use fuse_wire::Moment;
use std::alloc::Global;
use std::io::{Read, Write};

// The answers, the counts and the ending of a session.
#[derive(Drop)]
struct Session {
    sent: Vec<u8>,
    counts: SessionCounts,
    ending: Ending,
}

// The counts of a session that has them.
fn counts_of(found: Option<SessionCounts>) -> SessionCounts
    ensures { IfSome found (λ counts. result ≡ counts) }
{
    match found {
        Some(counts) => counts,
        None => SessionCounts::NONE,
    }
}

// Serves the stream of a reader, with one moment for all requests.
fn serve_stream<K: Keeper, R: Read>(
    alloc: Global,
    keeper: &mut K,
    reader: &mut R,
    moment: Moment,
) -> Session
    requires going { (K.told keeper.old).has_failed ≡ false }
    requires serves { (K.told keeper.old).service ≡ K.model.service }
    ensures replayed { IsOfStream result.ending → (input : List ℕ)
        → R.remaining reader.old ≡ Some input
        → Replayed (K.told keeper.old) (K.told keeper.new) moment input result.ending
        (SendsAnswers result.sent.items result.counts) }
    ensures faulted { status_of result.ending ≡ 3 → (input : List ℕ)
        → R.remaining reader.old ≡ Some input
        → Faulted (K.told keeper.old) (K.told keeper.new) moment input result.ending
        (λ answers. result.sent.items ≡ joined answers) }
    ensures kept { (input : List ℕ) → R.remaining reader.old ≡ Some input
        → StandsForPrefix (K.told keeper.old) (K.told keeper.new)
        (K.performed keeper.old keeper.new) moment input }
    ensures firm { (K.told keeper.new).has_failed ≡ false
        → KeepsFirm (K.told keeper.old) (K.told keeper.new) }
    ensures medium { (K.told keeper.old).in_memory → (K.told keeper.new).in_memory }
    ensures store { status_of result.ending ≡ 3 → (K.told keeper.new).has_failed ≡ true }
    ensures failed { (K.told keeper.new).has_failed ≡ true → 3 ≤ status_of result.ending }
    ensures usage { status_of result.ending ≢ 2 }
{
    cut_joins();
    cut_steps();
    let mut port = StreamPort::new(reader, Vec::new(alloc), false);
    let served = serve(alloc, keeper, &mut port, &mut Fixed(moment), MAX_READS);
    Session {
        sent: port.into_writer(),
        counts: counts_of(served.counts),
        ending: Ending::of_session(served.ended),
    }
}

// Prints the answers, and the counts if the stream was served to its end or its first fault.
fn print_session<W: Write>(
    alloc: Global,
    writer: &mut W,
    session: &Session,
    shows_seen: bool,
) -> Result<(), Ending>
    ensures fault { (IsOfStream session.now.ending → ⊥) → OnOk result ((answers : List (List ℕ))
        → AllByRecursion IsAnswer answers → session.now.sent.items ≡ joined answers
        → PrintsAnswers (W.contents writer.old) (W.contents writer.new) answers) }
    ensures ok { IsOfStream session.now.ending → OnOk result ((answers : List (List ℕ))
        → AllByRecursion IsAnswer answers → session.now.sent.items ≡ joined answers
        → Prints shows_seen (W.contents writer.old) (W.contents writer.new) answers
        session.now.counts) }
    ensures err { IfErr result (λ ending. (ending ≡ Ending.PortFailed) ⊎ (ending ≡ Ending.Memory)) }
{
    write_answers(alloc, writer, session.sent.as_slice())?;
    if session.ending.is_of_stream() {
        let counts = CountLine {
            counts: session.counts,
            shows_seen,
        };
        write_counts(writer, counts)?;
    }
    writer.flush()?;
    Ok(())
}

/// Serves the stream of a reader, with one moment for all requests. Then prints the answers and, if
/// the stream was served to its end or its first fault, the counts, with the number of seen messages
/// where `shows_seen` is set.
pub fn run_replay<K: Keeper, R: Read + Drop, W: Write>(
    alloc: Global,
    keeper: &mut K,
    mut reader: R,
    writer: &mut W,
    moment: Moment,
    shows_seen: bool,
) -> Ending
    requires going { (K.told keeper.old).has_failed ≡ false }
    requires serves { (K.told keeper.old).service ≡ K.model.service }
    // Status 0 or 1: the processed messages of the input, the output, and the state of the keeper.
    ensures replayed { IsOfStream result → (input : List ℕ) → R.remaining reader ≡ Some input
        → Replayed (K.told keeper.old) (K.told keeper.new) moment input result
        (Prints shows_seen (W.contents writer.old) (W.contents writer.new)) }

    // Status 3: the keeper may return this fault. The answers before it are printed, and no counts.
    ensures faulted { status_of result ≡ 3 → (input : List ℕ) → R.remaining reader ≡ Some input
        → Faulted (K.told keeper.old) (K.told keeper.new) moment input result
        (PrintsAnswers (W.contents writer.old) (W.contents writer.new)) }
    // However it ends, the keeper was asked for a prefix of the messages and nothing else. It stands
    // for a prefix of these, and so does whatever a crash leaves.
    ensures kept { (input : List ℕ) → R.remaining reader ≡ Some input
        → StandsForPrefix (K.told keeper.old) (K.told keeper.new)
        (K.performed keeper.old keeper.new) moment input }
    // A keeper that has not failed is as firm as before.
    ensures firm { (K.told keeper.new).has_failed ≡ false
        → KeepsFirm (K.told keeper.old) (K.told keeper.new) }
    ensures medium { (K.told keeper.old).in_memory → (K.told keeper.new).in_memory }
    ensures store { status_of result ≡ 3 → (K.told keeper.new).has_failed ≡ true }
    ensures failed { (K.told keeper.new).has_failed ≡ true → 3 ≤ status_of result }
    ensures usage { status_of result ≢ 2 }
{
    len_stands_first();
    said_fits::<K>();
    let session = serve_stream(alloc, keeper, &mut reader, moment);
    match print_session(alloc, writer, &session, shows_seen) {
        Ok(()) => session.ending,
        Err(ending) => ending,
    }
}

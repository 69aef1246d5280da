// Taking a group of requests, over rows and records that stay unchanged meanwhile.
ghost use Rattle.std.specs.Prelude.{◌≡◌, ◌⊎◌, ℕ, true, List, Option};
ghost use Rattle.std.specs.Prelude.{Some, None, length, All, IfOk, IfErr, OnOk};
ghost use Rattle.std.specs.Prelude.{◌≤◌, vec_len};
ghost use Rattle.std.specs.HashMap.{spare};
ghost use Rattle.std.specs.Option.{option_copied};
ghost use Rattle.fuse_keeper.specs.History.{History, entry_id, is_in, ids_in, Includes};
ghost use Rattle.fuse_keeper.specs.History.{IsUnsettled, kept_one, kept_of};
ghost use Rattle.fuse_keeper.specs.Model.{IsOfGoodState};
ghost use Rattle.fuse_keeper.specs.Stands.{AreThese, Stands, PerformedBy, without};
ghost use Rattle.fuse_keeper.specs.Group.{entry_of, entries_of, IsPerformed, ids_of};
ghost use Rattle.fuse_keeper.specs.Taking.{Took, TakesAll};
ghost use Rattle.fuse_keeper.specs.Plain.{mapped};
ghost use Rattle.fuse_keeper.specs.inner.Overlay.{listed, over, record_ids};

use crate::fault::StoreFault;
use crate::file_system::FileSystem;
use crate::keeper::Done;
use fuse_answer::Answer;
use fuse_request::Request;
use fuse_wire::{Id, Moment};
use std::alloc::Global;
use std::collections::HashMap;

/// An answer under its request's id.
#[derive(Drop)]
pub(crate) struct Record {
    pub(crate) id: u64,
    pub(crate) answer: Answer,
}

// The recorded answer of an id.
fn recorded<'a>(records: &'a [Record], id: u64) -> Option<&'a Answer>
    ensures { option_copied result ≡ listed records.now id }
{
    for record in records {
        if record.id == id {
            return Some(&record.answer);
        }
    }
    None
}

// Whether an id is one of these.
fn is_among(ids: &[Id], id: u64) -> bool
    ensures { result ≡ is_in (ids_of ids.now) id }
{
    for one in ids {
        if one.0 == id {
            return true;
        }
    }
    false
}

// The recorded answer of an id, among those added and the records that aren't settled.
fn known<'a>(
    records: &'a HashMap<u64, Answer>,
    settled: &[Id],
    added: &'a [Record],
    id: u64,
) -> Option<&'a Answer>
    ensures { option_copied result ≡ over added.now
        (without (ids_of settled.now) (mapped records.now)) id }
{
    if let Some(answer) = recorded(added, id) {
        return Some(answer);
    }
    if is_among(settled, id) {
        return None;
    }
    records.get(&id)
}

/// The outcome of a group: the rows, and the records that it adds.
#[derive(Drop)]
pub(crate) struct Draft<F> {
    pub(crate) rows: F,
    pub(crate) added: Vec<Record>,
}

// Takes one request of a group.
fn take_one<F: FileSystem>(
    alloc: Global,
    records: &HashMap<u64, Answer>,
    settled: &[Id],
    draft: &mut Draft<F>,
    request: &Request<'_>,
    now: Moment,
) -> Result<Done, StoreFault>
    requires ready { F.is_ready draft.old.rows }
    requires performed { IsPerformed F.model.service (entry_of (request.now, now)) }
    ensures took { IfOk result (λ done. Took F.model
        (record {
          rows = F.held draft.old.rows;
          records = over draft.old.added.items
              (without (ids_of settled.now) (mapped records.now));
        })
        (entry_of (request.now, now))
        (record {
          rows = F.held draft.new.rows;
          records = over draft.new.added.items
              (without (ids_of settled.now) (mapped records.now));
        }) done) }
    ensures ready { OnOk result (F.is_ready draft.new.rows) }
    ensures ids { OnOk result ((i : ℕ) → is_in (record_ids draft.new.added.items) i ≡ true
        → (is_in (record_ids draft.old.added.items) i ≡ true)
        ⊎ (is_in (ids_in (kept_one F.model.service (entry_of (request.now, now)))) i ≡ true)) }
    ensures fault { IfErr result (λ f. IsOfGoodState F.model (F.held draft.old.rows)
        → f ≡ StoreFault.Memory) }
{
    if F::sees(request.op.opcode()) {
        return Ok(Done {
            answer: draft.rows.act(alloc, request, now)?,
            repeated: false,
        });
    }
    let id = Id::of(request.header.unique).0;
    if let Some(answer) = known(records, settled, draft.added.as_slice(), id) {
        return Ok(Done {
            answer: answer.to_copy(alloc)?,
            repeated: true,
        });
    }
    let answer = draft.rows.act(alloc, request, now)?;
    let copy = answer.to_copy(alloc)?;
    draft.added.push(Record { id, answer: copy })?;
    Ok(Done {
        answer,
        repeated: false,
    })
}

/// A group that is taken, and not yet kept.
#[derive(Drop)]
pub(crate) struct Taken<F> {
    pub(crate) draft: Draft<F>,
    pub(crate) dones: Vec<Done>,
}

/// Takes the requests of a group in order, over the records that aren't settled.
pub(crate) fn take_all<F: FileSystem>(
    alloc: Global,
    rows: &F,
    records: &HashMap<u64, Answer>,
    settled: &[Id],
    group: &[(Request<'_>, Moment)],
) -> Result<Taken<F>, StoreFault>
    requires { All (IsPerformed F.model.service) (entries_of group.now) }
    ensures performed { IfOk result (λ taken. (s : F.model.State) (h : History) (t : List ℕ)
        → Stands F.model (F.held rows.now) (without (ids_of settled.now) (mapped records.now)) s h t
        → All (IsUnsettled t) (kept_of F.model.service (entries_of group.now))
        → PerformedBy F.model (AreThese F.model (F.held taken.draft.rows)
        (over taken.draft.added.items (without (ids_of settled.now) (mapped records.now))))
        (record { state = s; history = h; settled = t })
        (entries_of group.now) taken.dones.items) }
    ensures taken { IfOk result (λ taken. TakesAll F.model
        (record {
          rows = F.held rows.now;
          records = without (ids_of settled.now) (mapped records.now);
        })
        (entries_of group.now)
        (record {
          rows = F.held taken.draft.rows;
          records = over taken.draft.added.items
              (without (ids_of settled.now) (mapped records.now));
        }) taken.dones.items) }
    ensures count { IfOk result (λ taken. length taken.dones.items ≡ length group.now) }
    ensures ready { IfOk result (λ taken. F.is_ready taken.draft.rows) }
    ensures ids { IfOk result (λ taken. Includes
        (ids_in (kept_of F.model.service (entries_of group.now)))
        (record_ids taken.draft.added.items)) }
    ensures rowed { IfOk result (λ taken. IsOfGoodState F.model (F.held rows.now)
        → IsOfGoodState F.model (F.held taken.draft.rows)) }
    ensures fault { IfErr result
        (λ f. IsOfGoodState F.model (F.held rows.now) → f ≡ StoreFault.Memory) }
{
    let mut draft = Draft {
        rows: rows.to_copy()?,
        added: Vec::new(alloc),
    };
    let mut dones = Vec::new(alloc);
    for one in group {
        let done = match take_one(alloc, records, settled, &mut draft, &one.0, one.1) {
            Ok(done) => done,
            Err(fault) => return Err(fault),
        };
        dones.push(done)?;
    }
    Ok(Taken { draft, dones })
}

/// Removes the records of settled ids, and adds these. It needs room for them.
pub(crate) fn settle(records: &mut HashMap<u64, Answer>, settled: &[Id], added: Vec<Record>)
    requires { vec_len added ≤ spare records.old }
    ensures { (i : ℕ) → mapped records.new i ≡ over added.items
        (without (ids_of settled.now) (mapped records.old)) i }
{
    for id in settled {
        records.remove(&id.0);
    }
    put_all(records, added);
}

// Puts these records, the first of an id where it has several.
fn put_all(records: &mut HashMap<u64, Answer>, added: Vec<Record>)
    requires { vec_len added ≤ spare records.old }
    ensures { (i : ℕ) → mapped records.new i ≡ over added.items (mapped records.old) i }
{
    let mut added = added;
    while let Some(record) = added.pop() {
        let placed: Result<_, _> = records.insert(record.id, record.answer);
        placed.unwrap();
    }
}

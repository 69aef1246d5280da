ghost use Rattle.std.specs.Prelude.{◌≡◌, true, None, IfOk, IfErr, OnErr};
ghost use Rattle.fuse_request.specs.Act.{asked, act, opcode_of};
ghost use Rattle.fuse_request.specs.AskedSize as sizes;
ghost use Rattle.fuse_answer.specs.Replies.{IsRead};
ghost use Rattle.fuse_tree.specs.State.{State, Tree};
ghost use Rattle.fuse_tree.specs.Rowed.{rowed};
ghost use Rattle.fuse_tree.specs.Do.{done};
ghost use Rattle.fuse_plan.specs.Plan.{Meets, look_fault};
ghost use Rattle.fuse_plan.specs.inner.Reading.{IsWithin, LooksUp, view};
ghost use Rattle.fuse_plan.specs.inner.Planning.{tells_name, plan_act, plan_of};

mod answers;
mod attributes;
mod create;
mod exchange;
mod fault;
mod finding;
mod fsync;
mod further;
mod getattr;
mod init;
mod lookup;
mod make;
mod mkdir;
mod mknod;
mod moving;
mod names;
mod open;
mod read;
mod read_dir;
mod read_dir_plus;
mod readlink;
mod release;
mod removal;
mod remove;
mod rename;
mod rmdir;
mod setattr;
mod space;
mod statfs;
mod symlink;
mod unlink;
mod walking;
mod write;

use crate::laws::answers_are_read;
use crate::planned::Planned;
use answers::{done_nothing, refused};
pub use fault::PlanFault;
use finding::{find_agreement, find_node, is_within};
use further::plan_further;
use fuse_request::{Op, Request};
use fuse_rows::NodeRow;
use fuse_tree::{Agreement, Look, open_flags};
use fuse_wire::{Errno, Moment};
use getattr::plan_getattr;
use init::plan_init;
use lookup::plan_lookup;
use make::{asked_node, asker};
use mkdir::plan_mkdir;
use mknod::plan_mknod;
use open::{plan_open, plan_open_dir};
use read::plan_read;
use read_dir::plan_read_dir;
use release::{plan_release, plan_release_dir};
use rename::{asking, plan_rename};
use rmdir::plan_rmdir;
use setattr::plan_setattr;
use std::alloc::Global;
use unlink::plan_unlink;
use write::plan_write;

/// The answer of the request in the tree that `look` sees, and the rows that it changes. Nothing is
/// changed. It is for a kept request: others get ENOSYS, where settings and node are there.
pub fn plan<L: Look>(
    alloc: Global,
    look: &mut L,
    request: &Request<'_>,
    now: Moment,
) -> Result<Planned, PlanFault>
    requires { L.fault look.old ≡ None }
    // Over the rows of a tree it agrees with `done`.
    ensures meets { L.is_clean look.new → (s : State) → Tree s → L.sees look.old (rowed s)
        → IfOk result (λ p. Meets s p (done s (asked request.now) now)) }
    // Its answer is read as one to the request.
    ensures read { L.is_clean look.new → (s : State) → Tree s → L.sees look.old (rowed s)
        → IfOk result (λ p. IsRead (opcode_of (act request.now.op))
        (sizes.size_asked (act request.now.op)) p.answer) }
    // `NotATree` comes only over rows of no tree.
    ensures not_a_tree { IfErr result (λ f. f ≡ PlanFault.NotATree → L.is_clean look.new
        → (s : State) → Tree s → L.sees look.old (rowed s) → ⊥) }
    // The look has the fault that is answered, and none where none is.
    ensures fault { L.fault look.new ≡ look_fault result }
    ensures looks { look_fault result ≡ None → L.looks look.old look.new }
    ensures fails { OnErr result (L.fails look.old look.new) }
{
    answers_are_read();
    plan_request(alloc, look, request, now)
}

// INIT is always answered, and other requests where settings are agreed on.
#[tactic(auto, using(crate::proofs::Agreeing::offers_nothing, crate::proofs::Agreeing::looks_at_node))]
fn plan_request<L: Look>(
    alloc: Global,
    look: &mut L,
    request: &Request<'_>,
    now: Moment,
) -> Result<Planned, PlanFault>
    requires { L.fault look.old ≡ None }
    ensures { LooksUp (view L.is_clean L.sees L.fault L.looks L.fails) look.old look.new result
        (plan_of (asked request.now) now) }
{
    let agreement = find_agreement(look)?;
    if let Op::Init(offer) = &request.op {
        return Ok(plan_init(alloc, agreement.profile, offer)?);
    }
    if agreement.settings.is_none() {
        return Ok(refused(alloc, Errno::EPROTO));
    }
    if let Op::Destroy = request.op {
        return Ok(done_nothing(alloc));
    }
    let Some(row) = find_node(look, request.header.nodeid)? else {
        return Ok(refused(alloc, Errno::ESTALE));
    };
    if !is_within(agreement.profile, &row) {
        return Err(PlanFault::NotATree);
    }
    plan_op(alloc, look, &agreement, request, now, &row)
}

// The operation, at the node of the header. The last line is of requests that are not performed.
fn plan_op<L: Look>(
    alloc: Global,
    look: &mut L,
    agreement: &Agreement,
    request: &Request<'_>,
    now: Moment,
    row: &NodeRow,
) -> Result<Planned, PlanFault>
    requires fault { L.fault look.old ≡ None }
    requires within { IsWithin row.now }
    ensures { LooksUp (view L.is_clean L.sees L.fault L.looks L.fails) look.old look.new result
        (plan_act agreement.now request.now.header (act request.now.op) now row.now) }
{
    match &request.op {
        Op::Getattr { .. } => Ok(plan_getattr(alloc, agreement, row)?),
        Op::Setattr(set) => plan_setattr(alloc, look, agreement, set, now, row),
        Op::OpenFile { flags, .. } => {
            plan_open(alloc, look, open_flags(agreement.profile), *flags, row)
        }
        Op::Read(asked) => plan_read(alloc, look, asked, row),
        Op::Write {
            fh,
            offset,
            payload,
            ..
        } => plan_write(
            alloc,
            look,
            agreement.profile,
            *fh,
            *offset,
            payload,
            now,
            row,
        ),
        Op::OpenDir { .. } => plan_open_dir(alloc, look, row),
        Op::ReadDir(asked) => plan_read_dir(alloc, look, asked, row),
        Op::Release(release) => plan_release(alloc, look, release.fh, row),
        Op::ReleaseDir(release) => plan_release_dir(alloc, look, release.fh, row),
        Op::Lookup { .. }
        | Op::Mkdir { .. }
        | Op::Mknod { .. }
        | Op::Unlink { .. }
        | Op::Rmdir { .. }
        | Op::Rename { .. }
        | Op::Rename2 { .. } => plan_named(alloc, look, agreement, request, now, row),
        Op::Further { opcode, body } => {
            plan_further(
                alloc,
                look,
                agreement,
                &asker(&request.header, now),
                *opcode,
                body,
                row,
            )
        }
        Op::Destroy
        | Op::Forget { .. }
        | Op::Init(_)
        | Op::Interrupt { .. }
        | Op::BatchForget { .. } => Ok(refused(alloc, Errno::ENOSYS)),
    }
}

// The operations on names in the node of the header.
fn plan_named<L: Look>(
    alloc: Global,
    look: &mut L,
    agreement: &Agreement,
    request: &Request<'_>,
    now: Moment,
    row: &NodeRow,
) -> Result<Planned, PlanFault>
    requires fault { L.fault look.old ≡ None }
    requires within { IsWithin row.now }
    requires named { tells_name (act request.now.op) ≡ true }
    ensures { LooksUp (view L.is_clean L.sees L.fault L.looks L.fails) look.old look.new result
        (plan_act agreement.now request.now.header (act request.now.op) now row.now) }
{
    match &request.op {
        Op::Lookup { name } => plan_lookup(alloc, look, agreement, name, row),
        Op::Mkdir { mode, name, .. } => {
            let asked = asked_node(&asker(&request.header, now), *mode, 0);
            plan_mkdir(alloc, look, agreement, &asked, name, row)
        }
        Op::Mknod {
            mode,
            rdev,
            name,
            ..
        } => {
            let asked = asked_node(&asker(&request.header, now), *mode, *rdev);
            plan_mknod(alloc, look, agreement, &asked, name, row)
        }
        Op::Unlink { name } => plan_unlink(alloc, look, agreement.profile, name, now, row),
        Op::Rmdir { name } => plan_rmdir(alloc, look, agreement.profile, name, now, row),
        Op::Rename {
            new_dir,
            old_name,
            new_name,
        } => {
            let asked = asking(*new_dir, 0, old_name, new_name, now);
            plan_rename(alloc, look, &asked, row)
        }
        Op::Rename2 {
            new_dir,
            flags,
            old_name,
            new_name,
        } => {
            let asked = asking(*new_dir, *flags, old_name, new_name, now);
            plan_rename(alloc, look, &asked, row)
        }
        _ => unreachable!(),
    }
}

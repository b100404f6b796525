//! The command `rerun`: what it stores, and what it writes out through a journal.

ghost use Rattle.std.specs.Prelude.{◌≡◌, ◌≤◌, ◌^◌, ◌++◌, ◌⊎◌, ℕ, List, None, Some, IfOk, IfSome};
ghost use Rattle.std.specs.Io.KnownBytes.{IsAtEnd};
ghost use Rattle.dur_outside.specs.Causes.{Rose};
ghost use Rattle.dur_outside.specs.World.{Leaves};
ghost use Rattle.dur_qos.specs.Good.{GoodPlan};
ghost use Rattle.dur_journal.specs.Opening.{IsKeptView};
ghost use Rattle.dur_hub.specs.Runs.{opening};
ghost use Rattle.dur_rerun.specs.Input.Prefix.{own_prefix};
ghost use Rattle.dur_rerun.specs.Rerun.Answer.{EndsCourse, OpensNot, ReadsAs, Reruns, RunsOn, HasCauses, IsComplete, NoneRose, ServesOn, open_status};
ghost use Rattle.dur_rerun.specs.Input.Whole.{IsWholeInput};
ghost use Rattle.dur_rerun.specs.Rerun.Services.{Begins, IsFoundFor};

mod course;
mod fitting;
mod laws;
pub(crate) mod nacks;
mod opening;
mod replays;
mod reply;
#[cfg(test)]
mod runs;
mod saying;
mod service;
mod session;
mod sheet;
mod storing;
#[cfg(test)]
mod tests;

use crate::input::plan::open_plan;
use crate::input::prefix::own_prefix;
use crate::status::{Ran, Status};
use course::answer_all;
use dur_base::OutOfMemory;
use dur_capture::Feed;
use dur_journal::{Journal, OpenFault, Opened as Found};
use dur_outside::{Rig, Source};
use dur_qos::Plan;
use dur_view::View;
use fitting::may_open;
pub use laws::kept_histories_stand_for_whole_ones;
use opening::open_hub;
use replays::Replays;
use service::Service;
use std::alloc::Global;

/// The status of an opening that failed.
fn open_status(fault: OpenFault) -> Status
    ensures { result ≡ open_status fault }
{
    match fault {
        OpenFault::Disk => Status::DiskFault,
        OpenFault::NotAJournal { file, at } => Status::NotAJournal(file, at),
        OpenFault::PlanDiffers(name) => Status::PlanDiffers(name),
        OpenFault::Worn => Status::Worn,
        OpenFault::Full(size) => Status::Full(size),
        OpenFault::OutOfMemory => Status::OutOfMemory,
    }
}

/// The service of a run, over the plan and the view with which its journal was opened.
fn begin(alloc: Global, plan: Plan, view: View, epoch: u32) -> Result<Service, OutOfMemory>
    requires good { GoodPlan plan }
    requires kept { IsKeptView plan view }
    ensures { IfOk result (λ s. Begins plan view epoch s) }
{
    if !may_open(&plan, &view) {
        // An opening hands out no such view; only a disk that tells nothing leaves that unknown.
        return Err(OutOfMemory);
    }
    let own = own_prefix(plan.prefix, epoch);
    let kept = plan.copy()?;
    let hub = open_hub(alloc, kept, view)?;
    Ok(Service {
        own,
        plan,
        hub,
        replays: Replays::new(alloc),
    })
}

/// Handles the records behind a plan, over a journal that was opened with it.
fn serve<S: Source, R: Rig>(
    alloc: Global,
    plan: Plan,
    found: Found<R>,
    feed: Feed,
    input: &mut S,
) -> Ran<R>
    requires good { GoodPlan plan }
    requires kept { IsKeptView plan found.view }
    requires none { found.journal.position ≡ 0 }
    requires fresh { (feed.before ≤ 2 ^ 40) × (feed.taken ≡ 0) × (feed.fault ≡ None) }
    requires ready { R.tells → IsFoundFor plan found.view found.epoch found.journal (R.world found.journal.disk) }
    ensures runs { ServesOn plan found.view found.epoch (λ rs. IfSome (S.left input.old) (λ tail.
        ReadsAs feed.before (feed.left ++ tail) rs result.status)) result.status
        R.tells (R.world found.journal.disk) (R.world result.rig) }
    ensures end { result.status ≡ Status.Done → IsAtEnd (S.left input.new) }
    ensures ends { EndsCourse result.status }
    ensures read { result.status ≡ Status.ReadFault → Rose (S.faults input.old) (S.faults input.new) }
    ensures write { result.status ≡ Status.WriteFault → Rose (R.sink_faults found.journal.disk) (R.sink_faults result.rig) }
    ensures disk { result.status ≡ Status.DiskFault → Rose (R.disk_faults found.journal.disk) (R.disk_faults result.rig) }
    ensures reads { S.faults input.old ≤ S.faults input.new }
    ensures writes { R.sink_faults found.journal.disk ≤ R.sink_faults result.rig }
    ensures disks { R.disk_faults found.journal.disk ≤ R.disk_faults result.rig }
{
    let Found {
        journal,
        view,
        epoch,
    } = found;
    let mut service = match begin(alloc, plan, view, epoch) {
        Ok(service) => service,
        Err(_) => {
            return Ran {
                status: Status::OutOfMemory,
                rig: journal.close(),
            };
        }
    };
    match answer_all(alloc, journal, &mut service, feed, input) {
        Ok(journal) => Ran {
            status: Status::Done,
            rig: journal.close(),
        },
        Err((status, rig)) => Ran { status, rig },
    }
}

/// Opens the journal over a plan, and then handles the records behind it.
fn run_plan<S: Source, R: Rig>(
    alloc: Global,
    plan: Plan,
    feed: Feed,
    input: &mut S,
    rig: R,
) -> Ran<R>
    requires good { GoodPlan plan }
    requires fresh { (feed.before ≤ 2 ^ 40) × (feed.taken ≡ 0) × (feed.fault ≡ None) }
    ensures runs { OpensNot plan result.status R.tells (R.world rig) (R.world result.rig)
        ⊎ RunsOn plan (λ rs. IfSome (S.left input.old) (λ tail. ReadsAs feed.before (feed.left ++ tail) rs result.status)) result.status
        R.tells (R.world rig) (R.world result.rig) }
    ensures end { result.status ≡ Status.Done → IsAtEnd (S.left input.new) }
    ensures read { result.status ≡ Status.ReadFault → Rose (S.faults input.old) (S.faults input.new) }
    ensures write { result.status ≡ Status.WriteFault → Rose (R.sink_faults rig) (R.sink_faults result.rig) }
    ensures disk { result.status ≡ Status.DiskFault → Rose (R.disk_faults rig) (R.disk_faults result.rig) }
    ensures reads { S.faults input.old ≤ S.faults input.new }
    ensures writes { R.sink_faults rig ≤ R.sink_faults result.rig }
    ensures disks { R.disk_faults rig ≤ R.disk_faults result.rig }
{
    match Journal::open(alloc, rig, &plan) {
        Ok(found) => serve(alloc, plan, found, feed, input),
        Err((fault, rig)) => Ran {
            status: open_status(fault),
            rig,
        },
    }
}

/// The command `rerun`: reads a plan, opens the journal of the rig's disk over it, and then handles
/// the records of the capture behind the plan, one after the other. What a record brings to persistent
/// topics is stored first; then its acknowledgements go out, and what its ACKNACKs ask replays for
/// (DDSI-RTPS 8.3.8, 8.7.9), each message as a record of a capture with the moment that was used last and
/// the record's port.
///
/// A fault of the plan comes before anything else; then what the opening answers; and then, record by
/// record, a read fault, a break of the capture, want of memory, a disk fault, a view that is too long or
/// no generation left, and a write fault. The first of them ends the run.
pub fn rerun<S: Source, R: Rig>(alloc: Global, input: &mut S, rig: R) -> Ran<R>
    ensures runs { Reruns (S.left input.old) result.status R.tells rig result.rig
        (R.world rig) (R.world result.rig) }
    ensures causes { HasCauses result.status (S.left input.new) (S.faults input.old) (S.faults input.new)
        (R.sink_faults rig) (R.sink_faults result.rig) (R.disk_faults rig) (R.disk_faults result.rig) }
    ensures complete { (bytes : List ℕ) → S.left input.old ≡ Some bytes → IsWholeInput bytes
        → NoneRose (S.faults input.old) (S.faults input.new) (R.sink_faults rig) (R.sink_faults result.rig)
        (R.disk_faults rig) (R.disk_faults result.rig)
        → IsComplete result.status }
{
    match open_plan(alloc, input) {
        Ok(opened) => run_plan(alloc, opened.plan, opened.feed, input, rig),
        Err(status) => Ran { status, rig },
    }
}

//! What handles the records of a run, one after the other.

ghost use Rattle.std.specs.Prelude.{◌≡◌, ◌≤◌, ℕ, IfOk, IfErr};
ghost use Rattle.dur_outside.specs.Causes.{Rose};
ghost use Rattle.dur_journal.specs.Journals.{IsReady};
ghost use Rattle.dur_qos.specs.Good.{GoodPlan};
ghost use Rattle.dur_rerun.specs.Rerun.Opening.{IsOver};
ghost use Rattle.dur_rerun.specs.Rerun.Courses.{place_at};
ghost use Rattle.dur_rerun.specs.Rerun.Services.{Answered, CutShort, EndsAnswering, EndsHandling, Handled, LeavesHandling, MayServe, ServesSome, StopsHandling, TakenIn, WhereServing, taken_rig};
ghost use Rattle.dur_rerun.specs.Rerun.Sending.{CutBy};
ghost use Rattle.dur_rerun.specs.Rerun.Stores.{EndsStoring, rig_of};

use crate::Status;
use crate::admit::{Brought, admit};
use crate::rerun::replays::Replays;
use crate::rerun::reply::{Cut, reply};
use crate::rerun::sheet::Sheet;
use crate::rerun::storing::store_all;
use dur_base::Prefix;
use dur_capture::Record;
use dur_hub::Hub;
use dur_journal::Journal;
use dur_outside::Rig;
use dur_qos::Plan;
use std::alloc::Global;

/// What handles the records of a run.
#[derive(Drop)]
pub(crate) struct Service {
    /// The service's own prefix in this run.
    pub(crate) own: Prefix,
    pub(crate) plan: Plan,
    pub(crate) hub: Hub,
    pub(crate) replays: Replays,
}

/// Receives a record, and stores what it brought.
fn take_in<R: Rig>(
    alloc: Global,
    journal: Journal<R>,
    service: &mut Service,
    datagram: &Record,
) -> Result<(Journal<R>, Brought), (Status, R)>
    requires ready { R.tells → MayServe service.old journal (R.world journal.disk) }
    requires serves { ServesSome service.old journal.position }
    ensures taken { IfOk result (λ r. WhereServing service.old journal.position (λ begun log.
        TakenIn R.tells begun log datagram.now service.old journal service.new r.0 r.1.reply.acks r.1.nacks.items
        (R.world journal.disk) (R.world r.0.disk))) }
    ensures run { R.tells → LeavesHandling service.old journal datagram.now (R.world journal.disk) (R.world (taken_rig result)) }
    ensures ends { IfErr result (λ e. EndsStoring e.0) }
    ensures full { R.tells → IfErr result (λ e. StopsHandling service.old journal datagram.now (R.world journal.disk) e.0) }
    ensures cause { IfErr result (λ e. e.0 ≡ Status.DiskFault → Rose (R.disk_faults journal.disk) (R.disk_faults e.1)) }
    ensures later { R.disk_faults journal.disk ≤ R.disk_faults (taken_rig result) }
    ensures keeps { R.sink_faults (taken_rig result) ≡ R.sink_faults journal.disk }
{
    let brought = match admit(alloc, &mut service.hub, service.own, datagram) {
        Ok(brought) => brought,
        Err(_) => return Err((Status::OutOfMemory, journal.close())),
    };
    match store_all(alloc, journal, &mut service.hub) {
        Ok(journal) => Ok((journal, brought)),
        Err(cut) => Err(cut),
    }
}

/// The status of an answer that was cut short.
fn cut_status(cut: Cut) -> Status
    ensures ends { EndsAnswering result }
    ensures cause { (before now : ℕ) → CutBy cut before now → result ≡ Status.WriteFault → Rose before now }
{
    match cut {
        Cut::Write => Status::WriteFault,
        Cut::OutOfMemory => Status::OutOfMemory,
    }
}

/// Writes out what a record that was taken in calls for.
fn answer<R: Rig>(
    alloc: Global,
    journal: Journal<R>,
    service: &mut Service,
    port: u16,
    brought: &Brought,
    sheet: &mut Sheet,
) -> Result<Journal<R>, (Status, R)>
    requires ready { R.tells → IsReady journal (R.world journal.disk) }
    requires over { IsOver service.old.plan service.old.hub }
    ensures answered { IfOk result (λ after. WhereServing service.old journal.position (λ begun log.
        Answered R.tells begun log port brought.now.reply.acks brought.now.nacks.items service.old journal service.new after
        (R.world journal.disk) (R.world after.disk))) }
    ensures cut { IfErr result (λ e. WhereServing service.old journal.position (λ begun log.
        CutShort R.tells service.old.own port brought.now.reply.acks brought.now.nacks.items
        (place_at begun log service.old.replays.begun.items) (R.world journal.disk) (R.world e.1))) }
    ensures ends { IfErr result (λ e. EndsAnswering e.0) }
    ensures cause { IfErr result (λ e. e.0 ≡ Status.WriteFault → Rose (R.sink_faults journal.disk) (R.sink_faults e.1)) }
    ensures later { R.sink_faults journal.disk ≤ R.sink_faults (rig_of result) }
    ensures keeps { R.disk_faults (rig_of result) ≡ R.disk_faults journal.disk }
{
    let mut journal = journal;
    let sent = reply(
        alloc,
        &mut journal,
        &mut service.hub,
        &mut service.replays,
        &service.plan,
        service.own,
        port,
        &brought.reply.acks,
        &brought.nacks,
        sheet,
    );
    match sent {
        Ok(()) => Ok(journal),
        Err(cut) => Err((cut_status(cut), journal.close())),
    }
}

/// Handles a record: receives it, stores what it brought, and then writes out what it calls for.
pub(crate) fn handle<R: Rig>(
    alloc: Global,
    journal: Journal<R>,
    service: &mut Service,
    datagram: &Record,
    sheet: &mut Sheet,
) -> Result<Journal<R>, (Status, R)>
    requires ready { R.tells → MayServe service.old journal (R.world journal.disk) }
    requires serves { ServesSome service.old journal.position }
    requires good { GoodPlan service.old.plan }
    ensures handled { IfOk result (λ after. WhereServing service.old journal.position (λ begun log.
        Handled R.tells begun log datagram.now service.old journal service.new after (R.world journal.disk) (R.world after.disk))) }
    ensures run { R.tells → LeavesHandling service.old journal datagram.now (R.world journal.disk) (R.world (rig_of result)) }
    ensures ends { IfErr result (λ e. EndsHandling e.0) }
    ensures full { R.tells → IfErr result (λ e. StopsHandling service.old journal datagram.now (R.world journal.disk) e.0) }
    ensures disk { IfErr result (λ e. e.0 ≡ Status.DiskFault → Rose (R.disk_faults journal.disk) (R.disk_faults e.1)) }
    ensures write { IfErr result (λ e. e.0 ≡ Status.WriteFault → Rose (R.sink_faults journal.disk) (R.sink_faults e.1)) }
    ensures disks { R.disk_faults journal.disk ≤ R.disk_faults (rig_of result) }
    ensures writes { R.sink_faults journal.disk ≤ R.sink_faults (rig_of result) }
{
    let (journal, brought) = match take_in(alloc, journal, service, datagram) {
        Ok(taken) => taken,
        Err(cut) => return Err(cut),
    };
    match answer(alloc, journal, service, datagram.port, &brought, sheet) {
        Ok(after) => Ok(after),
        Err(cut) => Err(cut),
    }
}

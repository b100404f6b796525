//! Storing what a hub hands out, batch by batch, before any of it is acknowledged.

ghost use Rattle.std.specs.Prelude.{◌≡◌, ◌<◌, ◌≤◌, ◌^◌, length, IfOk, IfErr};
ghost use Rattle.dur_outside.specs.Causes.{Rose};
ghost use Rattle.dur_outside.specs.World.{Leaves};
ghost use Rattle.dur_journal.specs.Kept.{IsOneOf};
ghost use Rattle.dur_journal.specs.Journals.{IsReady, Stands};
ghost use Rattle.dur_hub.specs.Legal.{run_after};
ghost use Rattle.dur_rerun.specs.Rerun.Stores.{HandsOut, IsSettledSome, IsStored, IsStoring, EndsStoring, FailsToStore, MayStore, PassesOn, StoreFails, StoresAll, WhereKeeping, WhereSettled, kept_next, next_batch, rig_of, stored_rig};

use crate::Status;
use dur_hub::Hub;
use dur_journal::{CommitFault, CompactFault, Journal, Receipt};
use dur_outside::Rig;
use std::alloc::Global;

/// From so many octets of records on a batch is stored by a view.
const COMPACT_FROM: u64 = 1 << 20;

/// Hands out the first entries that wait, and stores them as a record behind the others.
fn append<R: Rig>(
    alloc: Global,
    journal: Journal<R>,
    hub: &mut Hub,
) -> Result<(Journal<R>, Receipt), (Status, R)>
    requires ready { R.tells → IsReady journal (R.world journal.disk) }
    requires settled { IsSettledSome hub.old journal.position }
    requires small { journal.appended < 2 ^ 20 }
    ensures hands { IfOk result (λ r. WhereSettled hub.old journal.position (λ begun log.
        HandsOut begun log (next_batch journal.appended (run_after begun log)) hub.new r.0 r.1)) }
    ensures run { R.tells → WhereKeeping journal hub.old (R.world journal.disk) (λ plan k run.
        Leaves (R.world journal.disk) (R.world (stored_rig result)) (IsOneOf plan (R.world journal.disk).now k (kept_next k run))) }
    ensures kept { R.tells → WhereKeeping journal hub.old (R.world journal.disk) (λ plan k run.
        IfOk result (λ r. Stands plan (kept_next k run) r.0 (R.world r.0.disk))) }
    ensures fails { IfErr result (λ e. WhereSettled hub.old journal.position (λ begun log.
        StoreFails journal.appended journal.generation (run_after begun log) e.0)) }
    ensures cause { IfErr result (λ e. e.0 ≡ Status.DiskFault → Rose (R.disk_faults journal.disk) (R.disk_faults e.1)) }
    ensures later { R.disk_faults journal.disk ≤ R.disk_faults (stored_rig result) }
    ensures keeps { R.sink_faults (stored_rig result) ≡ R.sink_faults journal.disk }
{
    let batch = hub.take();
    match journal.commit(alloc, &batch) {
        Ok(stored) => Ok(stored),
        Err((CommitFault::Disk, rig)) => Err((Status::DiskFault, rig)),
        Err((CommitFault::OutOfMemory, rig)) => Err((Status::OutOfMemory, rig)),
    }
}

/// Hands out all that waits, and stores it by the view of all that is then stored, under the next generation.
fn compact<R: Rig>(
    alloc: Global,
    journal: Journal<R>,
    hub: &mut Hub,
) -> Result<(Journal<R>, Receipt), (Status, R)>
    requires ready { R.tells → IsReady journal (R.world journal.disk) }
    requires settled { IsSettledSome hub.old journal.position }
    requires large { 2 ^ 20 ≤ journal.appended }
    ensures hands { IfOk result (λ r. WhereSettled hub.old journal.position (λ begun log.
        HandsOut begun log (next_batch journal.appended (run_after begun log)) hub.new r.0 r.1)) }
    ensures run { R.tells → WhereKeeping journal hub.old (R.world journal.disk) (λ plan k run.
        Leaves (R.world journal.disk) (R.world (stored_rig result)) (IsOneOf plan (R.world journal.disk).now k (kept_next k run))) }
    ensures kept { R.tells → WhereKeeping journal hub.old (R.world journal.disk) (λ plan k run.
        IfOk result (λ r. Stands plan (kept_next k run) r.0 (R.world r.0.disk))) }
    ensures fails { IfErr result (λ e. WhereSettled hub.old journal.position (λ begun log.
        StoreFails journal.appended journal.generation (run_after begun log) e.0)) }
    ensures cause { IfErr result (λ e. e.0 ≡ Status.DiskFault → Rose (R.disk_faults journal.disk) (R.disk_faults e.1)) }
    ensures later { R.disk_faults journal.disk ≤ R.disk_faults (stored_rig result) }
    ensures keeps { R.sink_faults (stored_rig result) ≡ R.sink_faults journal.disk }
{
    let (batch, view) = match hub.take_view(alloc) {
        Ok(given) => given,
        Err(_) => return Err((Status::OutOfMemory, journal.close())),
    };
    let _count = batch.entries.len();
    match journal.compact(alloc, &batch, &view) {
        Ok(stored) => Ok(stored),
        Err((CompactFault::Disk, rig)) => Err((Status::DiskFault, rig)),
        Err((CompactFault::Full(size), rig)) => Err((Status::Full(size), rig)),
        Err((CompactFault::OutOfMemory, rig)) => Err((Status::OutOfMemory, rig)),
        Err((CompactFault::Worn, rig)) => Err((Status::Worn, rig)),
    }
}

/// Stores what waits next by one call of the journal, by the rule of compaction: as a record while the records have fewer
/// than 2^20 octets, else by the view.
fn store_next<R: Rig>(
    alloc: Global,
    journal: Journal<R>,
    hub: &mut Hub,
) -> Result<(Journal<R>, Receipt), (Status, R)>
    requires ready { R.tells → IsReady journal (R.world journal.disk) }
    requires settled { IsSettledSome hub.old journal.position }
    ensures hands { IfOk result (λ r. WhereSettled hub.old journal.position (λ begun log.
        HandsOut begun log (next_batch journal.appended (run_after begun log)) hub.new r.0 r.1)) }
    ensures run { R.tells → WhereKeeping journal hub.old (R.world journal.disk) (λ plan k run.
        Leaves (R.world journal.disk) (R.world (stored_rig result)) (IsOneOf plan (R.world journal.disk).now k (kept_next k run))) }
    ensures kept { R.tells → WhereKeeping journal hub.old (R.world journal.disk) (λ plan k run.
        IfOk result (λ r. Stands plan (kept_next k run) r.0 (R.world r.0.disk))) }
    ensures fails { IfErr result (λ e. WhereSettled hub.old journal.position (λ begun log.
        StoreFails journal.appended journal.generation (run_after begun log) e.0)) }
    ensures cause { IfErr result (λ e. e.0 ≡ Status.DiskFault → Rose (R.disk_faults journal.disk) (R.disk_faults e.1)) }
    ensures later { R.disk_faults journal.disk ≤ R.disk_faults (stored_rig result) }
    ensures keeps { R.sink_faults (stored_rig result) ≡ R.sink_faults journal.disk }
{
    if journal.appended() < COMPACT_FROM {
        append(alloc, journal, hub)
    } else {
        compact(alloc, journal, hub)
    }
}

/// Stores what waits next by one call of the journal, and marks it.
fn store_batch<R: Rig>(
    alloc: Global,
    journal: Journal<R>,
    hub: &mut Hub,
) -> Result<Journal<R>, (Status, R)>
    requires ready { R.tells → IsReady journal (R.world journal.disk) }
    requires settled { IsSettledSome hub.old journal.position }
    ensures passes { IfOk result (λ after. WhereSettled hub.old journal.position (λ begun log.
        PassesOn begun log (length (next_batch journal.appended (run_after begun log))) hub.new after.position)) }
    ensures run { R.tells → WhereKeeping journal hub.old (R.world journal.disk) (λ plan k run.
        Leaves (R.world journal.disk) (R.world (rig_of result)) (IsOneOf plan (R.world journal.disk).now k (kept_next k run))) }
    ensures kept { R.tells → WhereKeeping journal hub.old (R.world journal.disk) (λ plan k run.
        IfOk result (λ after. Stands plan (kept_next k run) after (R.world after.disk))) }
    ensures fails { IfErr result (λ e. WhereSettled hub.old journal.position (λ begun log.
        StoreFails journal.appended journal.generation (run_after begun log) e.0)) }
    ensures cause { IfErr result (λ e. e.0 ≡ Status.DiskFault → Rose (R.disk_faults journal.disk) (R.disk_faults e.1)) }
    ensures later { R.disk_faults journal.disk ≤ R.disk_faults (rig_of result) }
    ensures keeps { R.sink_faults (rig_of result) ≡ R.sink_faults journal.disk }
{
    match store_next(alloc, journal, hub) {
        Ok((journal, receipt)) => {
            hub.mark(receipt.upto());
            Ok(journal)
        }
        Err(cut) => Err(cut),
    }
}

/// Stores all that waits, batch by batch, and marks each.
pub(crate) fn store_all<R: Rig>(
    alloc: Global,
    journal: Journal<R>,
    hub: &mut Hub,
) -> Result<Journal<R>, (Status, R)>
    requires ready { R.tells → MayStore journal hub.old (R.world journal.disk) }
    requires settled { IsSettledSome hub.old journal.position }
    ensures passes { IfOk result (λ after. WhereSettled hub.old journal.position (λ begun log.
        StoresAll begun log hub.new after.position)) }
    ensures run { R.tells → WhereKeeping journal hub.old (R.world journal.disk) (λ plan k run.
        Leaves (R.world journal.disk) (R.world (rig_of result)) (IsStoring plan k.generation run (R.world journal.disk).now)) }
    ensures kept { R.tells → WhereKeeping journal hub.old (R.world journal.disk) (λ plan k run.
        IfOk result (λ after. IsStored plan k run after (R.world journal.disk) (R.world after.disk))) }
    ensures ends { IfErr result (λ e. EndsStoring e.0) }
    ensures fails { R.tells → WhereKeeping journal hub.old (R.world journal.disk) (λ plan k run.
        IfErr result (λ e. FailsToStore plan run e.0)) }
    ensures cause { IfErr result (λ e. e.0 ≡ Status.DiskFault → Rose (R.disk_faults journal.disk) (R.disk_faults e.1)) }
    ensures later { R.disk_faults journal.disk ≤ R.disk_faults (rig_of result) }
    ensures keeps { R.sink_faults (rig_of result) ≡ R.sink_faults journal.disk }
{
    let mut journal = journal;
    'batches: while hub.has_pending() {
        match store_batch(alloc, journal, hub) {
            Ok(after) => journal = after,
            Err(cut) => return Err(cut),
        }
    }
    Ok(journal)
}

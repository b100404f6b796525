//! The records of a run, one after the other.

ghost use Rattle.std.specs.Prelude.{◌≡◌, ◌≤◌, ◌^◌, ◌++◌, ℕ, List, [], None, IfSome};
ghost use Rattle.std.specs.Io.KnownBytes.{IsAtEnd};
ghost use Rattle.dur_capture.specs.declared.record.Record.{Record};
ghost use Rattle.dur_outside.specs.Causes.{Rose};
ghost use Rattle.dur_qos.specs.declared.plan.Plan.{Plan};
ghost use Rattle.dur_qos.specs.Good.{GoodPlan};
ghost use Rattle.dur_journal.specs.Kept.{Kept};
ghost use Rattle.dur_journal.specs.Journals.{Stands};
ghost use Rattle.dur_hub.specs.Runs.{Run};
ghost use Rattle.dur_rerun.specs.Rerun.Answer.{EndsCourse, ReadsAs, RunsOver};
ghost use Rattle.dur_rerun.specs.Rerun.Services.{Serves, StartsFrom, ended};
ghost use Rattle.dur_rerun.specs.Rerun.Stores.{IsKeeping, rig_of};

use crate::Status;
use crate::input::records::next_record;
use crate::rerun::service::{Service, handle};
use crate::rerun::sheet::Sheet;
use crate::rerun::storing::store_all;
use dur_capture::Feed;
use dur_journal::Journal;
use dur_outside::{Rig, Source};
use std::alloc::Global;

/// Handles each record of the rest of an input, behind a plan of `before` octets, of which `feed` has what has come; and
/// stores what is left. It fails where the capture breaks off, where the source, the sink or the disk failed, where nothing
/// more can be stored, and for want of memory.
pub(crate) fn answer_all<S: Source, R: Rig>(
    alloc: Global,
    journal: Journal<R>,
    service: &mut Service,
    feed: Feed,
    input: &mut S,
) -> Result<Journal<R>, (Status, R)>
    requires fresh { (feed.before ≤ 2 ^ 40) × (feed.taken ≡ 0) × (feed.fault ≡ None) }
    requires begins { (begun : Run) × Serves begun [] service.old journal.position }
    requires none { service.old.replays.begun.items ≡ [] }
    requires good { GoodPlan service.old.plan }
    requires ready { R.tells → StartsFrom service.old journal (R.world journal.disk) }
    ensures runs { (begun : Run) → Serves begun [] service.old journal.position → (records : List Record)
        × IfSome (S.left input.old) (λ tail. ReadsAs feed.before (feed.left ++ tail) records (ended result))
        × (R.tells → (plan : Plan) (k : Kept) → Stands plan k journal (R.world journal.disk) → IsKeeping plan k begun
        → RunsOver service.old.own plan k begun records (ended result) (R.world journal.disk) (R.world (rig_of result))) }
    ensures end { ended result ≡ Status.Done → IsAtEnd (S.left input.new) }
    ensures ends { EndsCourse (ended result) }
    ensures read { ended result ≡ Status.ReadFault → Rose (S.faults input.old) (S.faults input.new) }
    ensures write { ended result ≡ Status.WriteFault → Rose (R.sink_faults journal.disk) (R.sink_faults (rig_of result)) }
    ensures disk { ended result ≡ Status.DiskFault → Rose (R.disk_faults journal.disk) (R.disk_faults (rig_of result)) }
    ensures reads { S.faults input.old ≤ S.faults input.new }
    ensures writes { R.sink_faults journal.disk ≤ R.sink_faults (rig_of result) }
    ensures disks { R.disk_faults journal.disk ≤ R.disk_faults (rig_of result) }
{
    let mut journal = journal;
    let mut feed = feed;
    let mut sheet = Sheet::new();
    'records: loop {
        match next_record(&mut feed, input) {
            Ok(Some(datagram)) => match handle(alloc, journal, service, &datagram, &mut sheet) {
                Ok(after) => journal = after,
                Err(cut) => return Err(cut),
            },
            Ok(None) => return store_all(alloc, journal, &mut service.hub),
            Err(status) => return Err((status, journal.close())),
        }
    }
}

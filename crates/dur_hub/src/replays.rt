//! Which reader gets a snapshot, and the snapshot.

ghost use Rattle.std.specs.Prelude.{◌≡◌, ℕ};
ghost use Rattle.dur_hub.specs.declared.event.Event.TheVariants as call;
ghost use Rattle.dur_hub.specs.Leases.{is_among};
ghost use Rattle.dur_hub.specs.Replays.{reader_line, is_served_in, MayReplay};
ghost use Rattle.dur_hub.specs.Hubs.{Adds};

use crate::SnapFault;
use crate::hub::Hub;
use dur_base::{Guid, Ticks};
use dur_qos::{Plan, ReaderLine, served};
use dur_view::Snapshot;
use std::alloc::Global;

// The line of a reader, if the plan has one.
fn reader_line(plan: &Plan, reader: Guid) -> Option<ReaderLine>
    ensures { result ≡ reader_line plan.now reader }
{
    for line in plan.readers.as_slice() {
        if line.guid == reader {
            return Some(*line);
        }
    }
    None
}

// Whether a reader is served in its topic of the plan.
fn is_served(plan: &Plan, line: &ReaderLine) -> bool
    ensures { result ≡ is_served_in plan.now line.now }
{
    match plan.topics.as_slice().get(line.topic as usize) {
        Some(topic) => served(topic, line),
        None => false,
    }
}

// Whether a GUID is one of these.
fn is_among(guid: Guid, guids: &[Guid]) -> bool
    ensures { result ≡ is_among guid guids.now }
{
    guids.iter().any(|other| guid == *other)
}

// The topic whose changes a reader gets, or why it gets none, where these were given a snapshot.
fn topic_for(plan: &Plan, given: &[Guid], reader: Guid) -> Result<u32, SnapFault>
    ensures { MayReplay plan.now given.now reader result }
{
    let line = match reader_line(plan, reader) {
        Some(line) => line,
        None => return Err(SnapFault::Unknown),
    };
    if !is_served(plan, &line) {
        return Err(SnapFault::NotServed);
    }
    if is_among(reader, given) {
        return Err(SnapFault::Already);
    }
    Ok(line.topic)
}

impl Hub {
    /// The entitled changes of a reader's topic (DDS 2.2.3.4), after the lease step. It is refused as `Unknown` exactly
    /// where the plan has no such reader, else as `NotServed` exactly where its kind is not kept for it, else as `Already`
    /// exactly where it was given one in this run; these change nothing.
    pub fn snapshot(
        &mut self,
        alloc: Global,
        moment: Ticks,
        reader: Guid,
    ) -> Result<Snapshot, SnapFault>
        ensures { (lost : ℕ) × Adds self.old (call.Snapshot moment reader lost result) self.new }
    {
        let topic = match topic_for(&self.plan, &self.given, reader) {
            Ok(topic) => topic,
            Err(fault) => return Err(fault),
        };
        if !self.begin(moment) {
            return Err(SnapFault::OutOfMemory);
        }
        let snapshot = match self.changes(alloc, topic, self.moment) {
            Ok(snapshot) => snapshot,
            Err(_) => return Err(SnapFault::OutOfMemory),
        };
        match self.given.push(reader) {
            Ok(()) => Ok(snapshot),
            Err(_) => Err(SnapFault::OutOfMemory),
        }
    }
}

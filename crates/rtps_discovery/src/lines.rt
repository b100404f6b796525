//! The lines that a directory gives, entry by entry.

ghost use Rattle.std.specs.Prelude.{◌≡◌, ◌++◌, ◌-◌, ◌^◌, min, slice_get, IfOk};
ghost use Rattle.std.specs.BTreeMap.{IsOrdered};
ghost use Rattle.std.specs.Cmp.Lexicographic.{slice_cmp};
ghost use Rattle.std.specs.List.{filter_map};
ghost use Rattle.std.specs.Option.{option_copied};
ghost use Rattle.std.specs.Ordering.{nat_cmp};
ghost use Rattle.dur_qos.specs.Plan.{has_writer, has_reader};
ghost use Rattle.dur_qos.specs.Served.{rank};
ghost use Rattle.rtps_discovery.specs.Learnt.{seconds_of};
ghost use Rattle.rtps_discovery.specs.Lines.{is_within, lease_of, lease_at, lease_line, takes, writer_at, reader_at};

use crate::announcement::Announcement;
use crate::directory::Directory;
use crate::entry::Entry;
use crate::source::PARTICIPANT;
use dur_base::{Durability, Guid, List, OutOfMemory, TICKS_OF_A_SECOND, Ticks};
use dur_qos::{Plan, ReaderLine, Topic, WriterLine};
use std::alloc::Global;

/// The seconds of a lease, rounded up, at least 1, as far as 32 bits go.
fn seconds_of(ticks: Ticks) -> u32
    ensures { result ≡ min (seconds_of ticks) (2 ^ 32 - 1) }
{
    let whole = (ticks.0 / TICKS_OF_A_SECOND) as u32;
    if ticks.0 % TICKS_OF_A_SECOND > 0 {
        whole.saturating_add(1)
    } else if whole == 0 {
        1
    } else {
        whole
    }
}

/// The same of a lease that may be for ever.
fn lease_line(lease: Option<Ticks>) -> Option<u32>
    ensures { result ≡ lease_line lease }
{
    match lease {
        Some(ticks) => Some(seconds_of(ticks)),
        None => None,
    }
}

/// Whether a lease that began then holds still.
fn is_within(lease: Option<Ticks>, began: Ticks, now: Ticks) -> bool
    ensures { result ≡ is_within lease began now }
{
    match lease {
        Some(ticks) => now.0 <= began.0.saturating_add(ticks.0),
        None => true,
    }
}

/// A kind's place in their order.
fn rank(kind: Durability) -> u8
    ensures { result ≡ rank kind }
{
    match kind {
        Durability::Volatile => 0,
        Durability::TransientLocal => 1,
        Durability::Transient => 2,
        Durability::Persistent => 3,
    }
}

/// Whether the topic at that place takes a writer that offers that kind.
fn takes(topics: &[Topic], place: u32, kind: Durability) -> bool
    ensures { result ≡ takes (slice_get topics.now place) kind }
{
    match topics.get(place as usize) {
        Some(topic) => rank(topic.kind) <= rank(kind),
        None => false,
    }
}

/// Whether a writer's line names that GUID.
fn has_writer(writers: &[WriterLine], guid: Guid) -> bool
    ensures { result ≡ has_writer guid writers.now }
{
    let mut rest = writers;
    while let [line, later @ ..] = rest {
        if guid == line.guid {
            return true;
        }
        rest = later;
    }
    false
}

/// Whether a reader's line names that GUID.
fn has_reader(readers: &[ReaderLine], guid: Guid) -> bool
    ensures { result ≡ has_reader guid readers.now }
{
    let mut rest = readers;
    while let [line, later @ ..] = rest {
        if guid == line.guid {
            return true;
        }
        rest = later;
    }
    false
}

/// The lease of a participant that announced itself last, which holds still, and which did not leave after that place.
fn lease_of(entry: Option<&Entry>, place: u64, now: Ticks) -> Option<Option<Ticks>>
    ensures { result ≡ lease_of (option_copied entry.entry) place now }
{
    let entry = *entry?;
    let last = entry.last;
    let Announcement::Participant { lease, .. } = last else {
        return None;
    };
    if place < entry.farewell {
        None
    } else if is_within(lease, entry.moment, now) {
        Some(lease)
    } else {
        None
    }
}

impl Directory {
    /// The lease of the participant of an endpoint that was announced at that place, where it is alive and did not
    /// leave since.
    fn lease_at(&self, guid: Guid, place: u64, now: Ticks) -> Option<Option<Ticks>>
        ensures { result ≡ lease_at self.now guid place now }
    {
        let participant = Guid::of(guid.prefix(), PARTICIPANT);
        lease_of(self.entries.get(&participant.0), place, now)
    }

    /// The line of a writer, where the entry gives one.
    fn writer_at(&self, plan: &Plan, now: Ticks, entry: &Entry) -> Option<WriterLine>
        ensures { result ≡ writer_at plan.now self.now now entry.now }
    {
        match entry.last {
            Announcement::Writer { guid, topic, kind } => {
                if !takes(plan.topics.as_slice(), topic, kind) {
                    return None;
                }
                if has_writer(plan.writers.as_slice(), guid) {
                    return None;
                }
                let lease = lease_line(self.lease_at(guid, entry.place, now)?);
                Some(WriterLine { guid, topic, lease })
            }
            _ => None,
        }
    }

    /// The line of a reader, where the entry gives one.
    fn reader_at(&self, plan: &Plan, now: Ticks, entry: &Entry) -> Option<ReaderLine>
        ensures { result ≡ reader_at plan.now self.now now entry.now }
    {
        match entry.last {
            Announcement::Reader { guid, topic, kind } => {
                if has_reader(plan.readers.as_slice(), guid) {
                    return None;
                }
                self.lease_at(guid, entry.place, now)?;
                Some(ReaderLine { guid, topic, kind })
            }
            _ => None,
        }
    }

    /// The writers of the plan, and those that the entries give.
    pub fn writers(
        &self,
        alloc: Global,
        plan: &Plan,
        now: Ticks,
    ) -> Result<List<WriterLine>, OutOfMemory>
        ensures lines { IfOk result (λ l. l ≡ plan.now.writers ++ filter_map (λ e. writer_at plan.now self.now now e.1) self.now.entries.entries) }
        ensures ordered { IfOk result (λ l. IsOrdered (slice_cmp nat_cmp) self.now.entries) }
    {
        let mut lines = Vec::from_slice(alloc, plan.writers.as_slice())?;
        for (_, entry) in &self.entries {
            if let Some(line) = self.writer_at(plan, now, entry) {
                lines.push(line)?;
            }
        }
        Ok(List::of(lines))
    }

    /// The readers of the plan, and those that the entries give.
    pub fn readers(
        &self,
        alloc: Global,
        plan: &Plan,
        now: Ticks,
    ) -> Result<List<ReaderLine>, OutOfMemory>
        ensures lines { IfOk result (λ l. l ≡ plan.now.readers ++ filter_map (λ e. reader_at plan.now self.now now e.1) self.now.entries.entries) }
        ensures ordered { IfOk result (λ l. IsOrdered (slice_cmp nat_cmp) self.now.entries) }
    {
        let mut lines = Vec::from_slice(alloc, plan.readers.as_slice())?;
        for (_, entry) in &self.entries {
            if let Some(line) = self.reader_at(plan, now, entry) {
                lines.push(line)?;
            }
        }
        Ok(List::of(lines))
    }
}

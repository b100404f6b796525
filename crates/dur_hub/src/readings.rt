//! What a hub tells without a change.

ghost use Rattle.std.specs.Prelude.{◌≡◌, ℕ, List, IfOk, ◌<◌, ◌≤◌, length};
ghost use Rattle.dur_hub.specs.declared.event.Event.{Event};
ghost use Rattle.dur_hub.specs.Runs.{Run};
ghost use Rattle.dur_hub.specs.Legal.{run_after};
ghost use Rattle.dur_hub.specs.Readings.{counts, listed, last, has_pending};
ghost use Rattle.dur_hub.specs.Replays.{listing};
ghost use Rattle.dur_hub.specs.Hubs.{Stands, HubAt};

use crate::Counts;
use crate::hub::Hub;
use dur_base::{List, OutOfMemory, Ticks, later};
use dur_view::Snapshot;
use std::alloc::Global;

impl Hub {
    /// The last moment that was used, in ticks of 2^-32 s.
    pub fn last(&self) -> Ticks
        ensures { (start : Run) (log : List Event) → Stands start log self.now
            → result ≡ last (run_after start log) }
    {
        self.moment
    }

    /// What this run admitted, acknowledged, refused and replayed, modulo 2^64.
    pub fn counts(&self) -> Counts
        ensures { (start : Run) (log : List Event) → Stands start log self.now
            → result ≡ counts (run_after start log) }
    {
        Counts {
            entries: self.ledger.entries,
            acks: self.acks,
            refused: self.refused,
            replays: self.given.len() as u64,
        }
    }

    /// What is entitled in the topic at a place of the plan at a moment.
    pub(crate) fn changes(
        &self,
        alloc: Global,
        topic: u32,
        moment: Ticks,
    ) -> Result<Snapshot, OutOfMemory>
        ensures { IfOk result (λ s. (r : Run) → HubAt self.now r → topic < length r.plan.topics
            → r.moment ≤ moment → s.changes ≡ listing r topic moment) }
    {
        match self.places.as_slice().get(topic as usize) {
            Some(place) => {
                let snapshot = self.ledger.store.entitled(alloc, *place, moment)?;
                Ok(snapshot)
            }
            None => Ok(Snapshot {
                changes: List::new(alloc),
            }),
        }
    }

    /// The entitled changes of the topic at a place of the plan, at a moment or at the last one, whichever is later. It
    /// counts as no replay.
    pub fn listing(&self, alloc: Global, topic: u32, moment: Ticks) -> Result<Snapshot, OutOfMemory>
        ensures { IfOk result (λ s. (start : Run) (log : List Event) → Stands start log self.now
            → topic < length (run_after start log).plan.topics
            → s.changes ≡ listed (run_after start log) topic moment) }
    {
        self.changes(alloc, topic, later(moment, self.moment))
    }

    /// Whether `take` would hand out an entry.
    pub fn has_pending(&self) -> bool
        ensures { (start : Run) (log : List Event) → Stands start log self.now
            → result ≡ has_pending (run_after start log) }
    {
        self.ledger.queue.has_pending()
    }
}

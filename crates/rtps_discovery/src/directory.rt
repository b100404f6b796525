//! What was heard of each participant, writer and reader.

ghost use Rattle.std.specs.Prelude.{◌≡◌, ◌++◌, ◌∷◌, [], List, OnOk, OnErr};
ghost use Rattle.dur_qos.specs.declared.plan.Plan.{Plan};
ghost use Rattle.rtps_discovery.specs.declared.announcement.Told.{Told};
ghost use Rattle.rtps_discovery.specs.Announcing.{Announces};
ghost use Rattle.rtps_discovery.specs.Learnt.{heard};
ghost use Rattle.rtps_discovery.specs.Hearing.{Heard, Keeps, StandsForMore, StandsForSame};
ghost use Rattle.rtps_discovery.specs.Told.{IsOwn};

use crate::announcement::Told;
use crate::entry::{Entry, entry_after};
use crate::reading::told;
use crate::source::source_of;
use dur_base::{Fact, OutOfMemory, Ticks};
use dur_qos::Plan;
use std::alloc::Global;
use std::collections::BTreeMap;

/// What was heard of each participant, writer and reader. All calls of one directory are to be handed the same plan.
#[derive(Drop)]
pub struct Directory {
    /// What is kept of each GUID.
    pub entries: BTreeMap<[u8; 16], Entry>,
    /// How many announcements counted.
    pub count: u64,
}

impl Directory {
    /// A directory that heard nothing. It takes memory as it hears of a GUID for the first time.
    pub fn new(alloc: Global) -> Directory
        ensures { (plan : Plan) → Heard plan result [] }
    {
        Directory {
            entries: BTreeMap::new(alloc),
            count: 0,
        }
    }

    /// Notes an announcement, where it counts.
    fn note(&mut self, told: &Told) -> Result<(), OutOfMemory>
        ensures ok { OnOk result ((before : List Told) → IsOwn told.now → Keeps self.old before → Keeps self.new (before ++ told.now ∷ [])) }
        ensures err { OnErr result ((before : List Told) → Keeps self.old before → Keeps self.new before) }
    {
        let source = match source_of(told.writer.entity()) {
            Some(source) => source,
            None => return Ok(()),
        };
        let place = match self.count.checked_add(1) {
            Some(place) => place,
            None => return Err(OutOfMemory),
        };
        let key = told.what.guid().0;
        let old = self.entries.get(&key).copied();
        let entry = match entry_after(&old, source, told, place) {
            Some(entry) => entry,
            None => return Ok(()),
        };
        match self.entries.insert(key, entry) {
            Ok(_) => {
                self.count = place;
                Ok(())
            }
            Err(_) => Err(OutOfMemory),
        }
    }

    /// Hears what a fact announces, at this moment. Facts that announce nothing change nothing. On want of memory the
    /// directory is as it was; the announcement 2^64 that counts is refused as well.
    pub fn hear(&mut self, plan: &Plan, moment: Ticks, fact: &Fact) -> Result<(), OutOfMemory>
        // From then on it stands for this fact too.
        ensures ok { OnOk result (StandsForMore plan.now self.old self.new (heard moment fact.now)) }
        ensures err { OnErr result (StandsForSame self.old self.new) }
    {
        match told(plan, moment, fact) {
            Some(told) => self.note(&told),
            None => Ok(()),
        }
    }
}

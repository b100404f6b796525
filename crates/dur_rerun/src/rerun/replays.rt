//! The replays that began in a run.

ghost use Rattle.std.specs.Prelude.{◌≡◌, ◌<◌, ◌++◌, [], ◌∷◌, length, IfOk};
ghost use Rattle.dur_outside.specs.Causes.{HasCause};
ghost use Rattle.dur_journal.specs.Journals.{IsReady};
ghost use Rattle.dur_rerun.specs.Rerun.Sending.{GoOut, Stays};
ghost use Rattle.dur_rerun.specs.Rerun.Steps.{IsPlaceOf, IsRepliedAt, BeginsAt};

use crate::rerun::session::answer;
use crate::rerun::sheet::{Head, Sheet};
use dur_base::{Bits, Guid, OutOfMemory};
use dur_journal::Journal;
use dur_outside::{Failed, Rig};
use rel_writer::Session;
use std::alloc::Global;

/// A replay that began: its late reader, and its session.
#[derive(Drop)]
pub struct Replay {
    pub reader: Guid,
    pub session: Session,
}

/// The replays that began in a run, one for a late reader.
#[derive(Drop)]
pub struct Replays {
    begun: Vec<Replay>,
}

impl Replays {
    /// No replay yet.
    pub fn new(alloc: Global) -> Replays
        ensures { result.begun.items ≡ [] }
    {
        Replays {
            begun: Vec::new(alloc),
        }
    }

    /// The place of the replay to a reader, if one began.
    pub fn place(&self, reader: Guid) -> Option<usize>
        ensures { IsPlaceOf self.now.begun.items reader result }
    {
        let replays = self.begun.as_slice();
        for at in 0..replays.len() {
            if replays[at].reader == reader {
                return Some(at);
            }
        }
        None
    }

    /// Begins a replay, and says its place.
    pub fn begin(&mut self, reader: Guid, session: Session) -> Result<usize, OutOfMemory>
        ensures place { IfOk result (λ at. at ≡ length self.old.begun.items) }
        ensures begun { IfOk result (λ at. self.new.begun.items ≡ self.old.begun.items ++ record { reader = reader; session = session } ∷ []) }
    {
        let place = self.begun.len();
        self.begun.push(Replay { reader, session })?;
        Ok(place)
    }

    /// Writes out what the session at a place replies to an ACKNACK with this set.
    pub fn answer<R: Rig>(
        &mut self,
        journal: &mut Journal<R>,
        place: usize,
        set: &Bits,
        head: &Head,
        sheet: &mut Sheet,
    ) -> Result<(), Failed>
        requires ready { R.tells → IsReady journal.old (R.world journal.old.disk) }
        requires place { place < length self.old.begun.items }
        ensures goes { GoOut R.tells journal.old journal.new (R.world journal.old.disk) (R.world journal.new.disk)
            head.now.moment head.now.port result (IsRepliedAt self.old.begun.items place set.now self.new.begun.items) (BeginsAt self.old.begun.items place set.now) }
        ensures stays { Stays R.tells journal.old journal.new (R.world journal.new.disk)
            (R.disk_faults journal.old.disk) (R.disk_faults journal.new.disk) }
        ensures cause { HasCause (R.sink_faults journal.old.disk) (R.sink_faults journal.new.disk) result }
    {
        let replay = &mut self.begun[place];
        answer(journal, &mut replay.session, set, head, sheet)
    }
}

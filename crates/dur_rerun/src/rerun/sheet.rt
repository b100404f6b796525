//! Writing a message out as a record.

ghost use Rattle.std.specs.Prelude.{◌≡◌, ◌≤◌, [], ◌∷◌, take};
ghost use Rattle.dur_outside.specs.Causes.{HasCause};
ghost use Rattle.dur_journal.specs.Journals.{IsReady};
ghost use Rattle.dur_rerun.specs.Rerun.Saying.{Says};
ghost use Rattle.dur_rerun.specs.Rerun.Sending.{Stays};
ghost use Rattle.dur_rerun.specs.Rerun.Replies.{records_text};

use crate::rerun::saying::say_through;
use dur_base::Ticks;
use dur_capture::write_record;
use dur_journal::Journal;
use dur_outside::{Failed, LONGEST_DATAGRAM, Rig};

/// The moment and the port of the records that go out.
#[derive(Clone, Copy, Debug, Drop)]
pub struct Head {
    pub moment: Ticks,
    pub port: u16,
}

/// Where a message is made, and then its record.
#[derive(Drop)]
pub struct Sheet {
    pub message: [u8; LONGEST_DATAGRAM],
    pub record: [u8; LONGEST_DATAGRAM + 14],
}

impl Sheet {
    /// An empty sheet. It has all room that a record takes.
    pub fn new() -> Sheet {
        Sheet {
            message: [0; LONGEST_DATAGRAM],
            record: [0; LONGEST_DATAGRAM + 14],
        }
    }

    /// Writes the message at the front of the sheet out through a journal, as a record.
    pub fn send<R: Rig>(
        &mut self,
        journal: &mut Journal<R>,
        head: &Head,
        count: usize,
    ) -> Result<(), Failed>
        requires ready { R.tells → IsReady journal.old (R.world journal.old.disk) }
        requires count { count ≤ 65507 }
        ensures says { R.tells → Says journal.old journal.new (R.world journal.old.disk) (R.world journal.new.disk)
            (records_text head.now.moment head.now.port (take count self.old.message ∷ [])) result }
        ensures stays { Stays R.tells journal.old journal.new (R.world journal.new.disk)
            (R.disk_faults journal.old.disk) (R.disk_faults journal.new.disk) }
        ensures cause { HasCause (R.sink_faults journal.old.disk) (R.sink_faults journal.new.disk) result }
    {
        let size = write_record(
            head.moment,
            head.port,
            &self.message[..count],
            &mut self.record,
        );
        say_through(journal, &self.record[..size])
    }
}

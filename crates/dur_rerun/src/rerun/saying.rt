//! Writing all of a text out through a journal.

ghost use Rattle.std.specs.Prelude.{◌≡◌};
ghost use Rattle.dur_outside.specs.Causes.{HasCause};
ghost use Rattle.dur_journal.specs.Journals.{IsReady};
ghost use Rattle.dur_rerun.specs.Rerun.Saying.{Says};

use dur_journal::Journal;
use dur_outside::{Failed, Rig};

/// Writes all of a text out through a journal, or a front of it and then `Failed`, which comes only where the
/// sink's count of faults rose. What the journal keeps stays.
pub(crate) fn say_through<R: Rig>(journal: &mut Journal<R>, text: &[u8]) -> Result<(), Failed>
    requires ready { R.tells → IsReady journal.old (R.world journal.old.disk) }
    ensures says { R.tells → Says journal.old journal.new (R.world journal.old.disk) (R.world journal.new.disk) text.now result }
    ensures ready { R.tells → IsReady journal.new (R.world journal.new.disk) }
    ensures same { journal.new ≡ record journal.old { disk = journal.new.disk } }
    ensures cause { HasCause (R.sink_faults journal.old.disk) (R.sink_faults journal.new.disk) result }
    ensures keeps { R.disk_faults journal.new.disk ≡ R.disk_faults journal.old.disk }
{
    let mut rest = text;
    while !rest.is_empty() {
        let count = journal.put(rest)?;
        rest = rest.split_at(count).1;
    }
    Ok(())
}

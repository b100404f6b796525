//! What a session replies to an ACKNACK.

ghost use Rattle.std.specs.Prelude.{◌≡◌, ℕ, ◌+◌, ◌^◌, ◌<◌, ◌≤◌, ◌&&◌, nat_le, true};
ghost use Rattle.dur_base.specs.NumberSets.{names};
ghost use Rattle.dur_outside.specs.Causes.{HasCause};
ghost use Rattle.dur_journal.specs.Journals.{IsReady};
ghost use Rattle.rel_writer.specs.Sessions.{last_of};
ghost use Rattle.rel_writer.specs.Turns.{Replies as SessionReplies};
ghost use Rattle.dur_rerun.specs.Rerun.Replies.{SessionBegins};
ghost use Rattle.dur_rerun.specs.Rerun.Sending.{GoOut, Stays};
ghost use Rattle.dur_rerun.specs.Rerun.Steps.{IsDataIf, AreDataOf, BeginData, IsBeatIf};

use crate::rerun::sheet::{Head, Sheet};
use dur_base::{Bits, Number};
use dur_journal::Journal;
use dur_outside::{Failed, Rig};
use rel_writer::Session;

/// Whether the number i places above a set's base is in the set, and at most the last one.
fn is_asked(set: &Bits, i: u32, last: u64) -> bool
    requires { i < 256 }
    ensures { result ≡ (names set.now (set.now.base + i) && nat_le (set.now.base + i) last) }
{
    i < set.count() && set.has(i) && set.base().get() + i as u64 <= last
}

/// Writes the DATA of a number out, if it is asked for.
fn send_data<R: Rig>(
    journal: &mut Journal<R>,
    session: &Session,
    asked: bool,
    number: u64,
    head: &Head,
    sheet: &mut Sheet,
) -> Result<(), Failed>
    requires ready { R.tells → IsReady journal.old (R.world journal.old.disk) }
    requires number { asked ≡ true → (0 < number) × (number ≤ last_of session.now) }
    requires small { asked ≡ true → number < 2 ^ 63 }
    ensures goes { GoOut R.tells journal.old journal.new (R.world journal.old.disk) (R.world journal.new.disk)
        head.now.moment head.now.port result (IsDataIf asked session.now number) (IsDataIf asked session.now number) }
    ensures stays { Stays R.tells journal.old journal.new (R.world journal.new.disk)
        (R.disk_faults journal.old.disk) (R.disk_faults journal.new.disk) }
    ensures cause { HasCause (R.sink_faults journal.old.disk) (R.sink_faults journal.new.disk) result }
{
    if !asked {
        return Ok(());
    }
    let count = session.data(Number::at(number), &mut sheet.message);
    sheet.send(journal, head, count)
}

/// Writes the DATA of the numbers of a set that the session has out, in rising order.
fn send_numbers<R: Rig>(
    journal: &mut Journal<R>,
    session: &Session,
    numbers: &Bits,
    head: &Head,
    sheet: &mut Sheet,
) -> Result<(), Failed>
    requires ready { R.tells → IsReady journal.old (R.world journal.old.disk) }
    ensures goes { GoOut R.tells journal.old journal.new (R.world journal.old.disk) (R.world journal.new.disk)
        head.now.moment head.now.port result (AreDataOf session.now numbers.now 256) (BeginData session.now numbers.now) }
    ensures stays { Stays R.tells journal.old journal.new (R.world journal.new.disk)
        (R.disk_faults journal.old.disk) (R.disk_faults journal.new.disk) }
    ensures cause { HasCause (R.sink_faults journal.old.disk) (R.sink_faults journal.new.disk) result }
{
    let base = numbers.base().get();
    let last = session.last().get();
    for i in 0..256u32 {
        let asked = is_asked(numbers, i, last);
        send_data(journal, session, asked, base + i as u64, head, sheet)?;
    }
    Ok(())
}

/// Writes the next HEARTBEAT out, if it is asked for.
fn send_beat<R: Rig>(
    journal: &mut Journal<R>,
    session: &mut Session,
    asked: bool,
    head: &Head,
    sheet: &mut Sheet,
) -> Result<(), Failed>
    requires ready { R.tells → IsReady journal.old (R.world journal.old.disk) }
    ensures goes { GoOut R.tells journal.old journal.new (R.world journal.old.disk) (R.world journal.new.disk)
        head.now.moment head.now.port result (IsBeatIf asked session.old session.new) (IsBeatIf asked session.old session.new) }
    ensures stays { Stays R.tells journal.old journal.new (R.world journal.new.disk)
        (R.disk_faults journal.old.disk) (R.disk_faults journal.new.disk) }
    ensures cause { HasCause (R.sink_faults journal.old.disk) (R.sink_faults journal.new.disk) result }
{
    if !asked {
        return Ok(());
    }
    let count = session.beat(&mut sheet.message);
    sheet.send(journal, head, count)
}

/// Writes out what a session replies to an ACKNACK with this set (DDSI-RTPS 8.4.9.2).
pub fn answer<R: Rig>(
    journal: &mut Journal<R>,
    session: &mut Session,
    set: &Bits,
    head: &Head,
    sheet: &mut Sheet,
) -> Result<(), Failed>
    requires ready { R.tells → IsReady journal.old (R.world journal.old.disk) }
    ensures goes { GoOut R.tells journal.old journal.new (R.world journal.old.disk) (R.world journal.new.disk)
        head.now.moment head.now.port result (λ sent. SessionReplies session.old set.now sent session.new) (SessionBegins session.old set.now) }
    ensures stays { Stays R.tells journal.old journal.new (R.world journal.new.disk)
        (R.disk_faults journal.old.disk) (R.disk_faults journal.new.disk) }
    ensures cause { HasCause (R.sink_faults journal.old.disk) (R.sink_faults journal.new.disk) result }
{
    let asked = session.on_nack(set);
    send_numbers(journal, session, &asked.numbers, head, sheet)?;
    send_beat(journal, session, asked.beat, head, sheet)
}

//! The command `check`.

ghost use Rattle.std.specs.Prelude.{◌≡◌};
ghost use Rattle.dur_rerun.specs.Command.{GoesOut, status_of};
ghost use Rattle.dur_rerun.specs.Check.Answer.{CheckAnswers, HasCheckReason, IsComplete, found};
ghost use Rattle.dur_rerun.specs.Check.Looks.{first_broken};

mod laws;
mod line;
mod looks;
mod report;
#[cfg(test)]
mod tests;

use crate::output::print;
use crate::status::{Ran, Status, status_of};
use dur_outside::Rig;
pub use laws::one_answer;
use looks::{Looks, first_broken, look_at_both};
use report::text_of;
use std::alloc::Global;

/// What became of a run whose text was written.
fn verdict(looks: &Looks) -> Result<(), Status>
    ensures { status_of result ≡ found (first_broken looks.now) }
{
    match first_broken(looks) {
        None => Ok(()),
        Some((file, at)) => Err(Status::NotAJournal(file, at)),
    }
}

/// Looks at both files, and then prints what they are.
fn run<R: Rig>(alloc: Global, rig: &mut R) -> Result<(), Status>
    ensures reason { HasCheckReason (status_of result) (R.disk_faults rig.old) (R.disk_faults rig.new)
        (R.sink_faults rig.old) (R.sink_faults rig.new) }
    ensures out { R.tells → GoesOut CheckAnswers (R.world rig.old).now (status_of result) R.tells
        (R.world rig.old).now (R.world rig.new).now }
{
    let looks = look_at_both(alloc, rig)?;
    let text = text_of(alloc, &looks)?;
    print(rig, &text)?;
    verdict(&looks)
}

/// The command `check`: prints in two lines what the two files of the rig are, each by itself. Where no file is broken
/// and no two open files have equal generations, it then prints the changes that a journal over them would keep: topic by
/// topic, each as `list` prints it, and behind it the moment at which it arrived, in ticks of 2^-32 s, or `-` where that
/// is not known.
///
/// A broken file is `NotAJournal` with its place once the whole text is written: file 0 before file 1. A disk fault or
/// want of memory comes before anything is written. No file is changed, and no input is read.
pub fn check<R: Rig>(alloc: Global, rig: R) -> Ran<R>
    ensures reason { HasCheckReason result.status (R.disk_faults rig) (R.disk_faults result.rig)
        (R.sink_faults rig) (R.sink_faults result.rig) }
    ensures complete { R.tells → IsComplete (R.world rig).now result.status
        (R.disk_faults rig) (R.disk_faults result.rig) (R.sink_faults rig) (R.sink_faults result.rig) }
    ensures out { R.tells → GoesOut CheckAnswers (R.world rig).now result.status R.tells
        (R.world rig).now (R.world result.rig).now }
{
    let mut rig = rig;
    let ended = run(alloc, &mut rig);
    Ran {
        status: status_of(ended),
        rig,
    }
}

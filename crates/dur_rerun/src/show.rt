//! The command `show`.

ghost use Rattle.std.specs.Prelude.{◌≡◌, IfOk, IfSome};
ghost use Rattle.dur_rerun.specs.Command.{HasReason, Arrives, GoesOut, Keeps, status_of};
ghost use Rattle.dur_rerun.specs.Input.Prefix.{own_prefix};
ghost use Rattle.dur_rerun.specs.Show.Answer.{ShowAnswers, ShowEnds};
ghost use Rattle.dur_rerun.specs.Show.Printing.{IsFresh};

mod laws;
mod line;
mod printer;

use crate::input::plan::open_plan;
use crate::input::prefix::own_prefix;
use crate::status::{Ran, Status, status_of};
use dur_outside::{Rig, Source};
pub use laws::one_answer;
use printer::{Printer, print_rest};
use std::alloc::Global;

/// Reads a plan and a capture, and prints a line for each record.
fn run<S: Source, R: Rig>(
    alloc: Global,
    epoch: u32,
    input: &mut S,
    rig: &mut R,
) -> Result<(), Status>
    ensures reason { HasReason ShowEnds (status_of result) (S.left input.new)
        (S.faults input.old) (S.faults input.new) (R.sink_faults rig.old) (R.sink_faults rig.new) }
    ensures out { IfSome (S.left input.old) (λ bytes.
        GoesOut (ShowAnswers epoch) bytes (status_of result) R.tells (R.world rig.old).now (R.world rig.new).now) }
    ensures keeps { Keeps R.tells (R.world rig.old).now (R.world rig.new).now (R.disk_faults rig.old) (R.disk_faults rig.new) }
{
    let opened = open_plan(alloc, input)?;
    let own = own_prefix(opened.plan.prefix, epoch);
    let mut printer = Printer::new(alloc, own, opened.feed)?;
    print_rest(alloc, &mut printer, input, rig)
}

/// The command `show` under this epoch: reads a plan and a capture, and prints a line for each record.
/// Lines go out together, the next time at the latest when octets are read. Memory does not grow with the
/// capture.
///
/// A read fault, a fault of the plan or of the capture, want of memory or a write fault ends the run where
/// it comes first. A fault of the plan is that of its first line with a fault; one of the capture comes
/// once the lines of all records before it are printed.
pub fn show<S: Source, R: Rig>(alloc: Global, epoch: u32, input: &mut S, rig: R) -> Ran<R>
    ensures reason { HasReason ShowEnds result.status (S.left input.new)
        (S.faults input.old) (S.faults input.new) (R.sink_faults rig) (R.sink_faults result.rig) }
    ensures arrives { IfSome (S.left input.old) (λ bytes. Arrives (ShowAnswers epoch) bytes result.status
        (S.faults input.old) (S.faults input.new) (R.sink_faults rig) (R.sink_faults result.rig)) }
    ensures out { IfSome (S.left input.old) (λ bytes.
        GoesOut (ShowAnswers epoch) bytes result.status R.tells (R.world rig).now (R.world result.rig).now) }
    ensures keeps { Keeps R.tells (R.world rig).now (R.world result.rig).now (R.disk_faults rig) (R.disk_faults result.rig) }
{
    let mut rig = rig;
    let ended = run(alloc, epoch, input, &mut rig);
    Ran {
        status: status_of(ended),
        rig,
    }
}

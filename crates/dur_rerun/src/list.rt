//! The command `list`.

ghost use Rattle.std.specs.Prelude.{◌≡◌, [], IfOk, OnOk, IfErr, IfSome};
ghost use Rattle.std.specs.Io.KnownBytes.{IsAtEnd};
ghost use Rattle.dur_outside.specs.Causes.{Rose};
ghost use Rattle.dur_rerun.specs.Command.{HasReason, Arrives, GoesOut, Keeps, status_of};
ghost use Rattle.dur_rerun.specs.List.Answer.{Lists, ListAnswers, ListEnds, EndsUnwritten};

mod history;
mod laws;
pub(crate) mod line;
mod listing;

use crate::input::plan::open_plan;
use crate::input::prefix::own_prefix;
use crate::output::print;
use crate::status::{Ran, Status, status_of};
use dur_base::Ticks;
use dur_outside::{Rig, Source};
use history::admit_rest;
pub use laws::one_answer;
use listing::{open, text_of};
use std::alloc::Global;

/// The text of `list` for the input of a source, which is then read to its end; or the status that the
/// input ends with.
fn listing_of<S: Source>(
    alloc: Global,
    at: Ticks,
    epoch: u32,
    input: &mut S,
) -> Result<Vec<u8>, Status>
    ensures text { IfOk result (λ v. IfSome (S.left input.old) (λ bytes. Lists at epoch bytes v.items)) }
    ensures end { OnOk result (IsAtEnd (S.left input.new)) }
    ensures ends { IfErr result (λ s. EndsUnwritten s) }
    ensures answers { IfErr result (λ s. IfSome (S.left input.old) (λ bytes. ListAnswers at epoch bytes [] s)) }
    ensures read { IfErr result (λ s. s ≡ Status.ReadFault → Rose (S.faults input.old) (S.faults input.new)) }
{
    let opened = open_plan(alloc, input)?;
    let own = own_prefix(opened.plan.prefix, epoch);
    let plan = opened.plan.copy()?;
    let mut hub = open(alloc, opened.plan)?;
    admit_rest(alloc, &mut hub, own, opened.feed, input)?;
    let text = text_of(alloc, &hub, plan.topics.as_slice(), at)?;
    Ok(text)
}

/// Reads a plan and a capture to the end, and then prints what their history entitles a late reader to.
fn run<S: Source, R: Rig>(
    alloc: Global,
    at: Ticks,
    epoch: u32,
    input: &mut S,
    rig: &mut R,
) -> Result<(), Status>
    ensures reason { HasReason ListEnds (status_of result) (S.left input.new)
        (S.faults input.old) (S.faults input.new) (R.sink_faults rig.old) (R.sink_faults rig.new) }
    ensures out { IfSome (S.left input.old) (λ bytes.
        GoesOut (ListAnswers at epoch) bytes (status_of result) R.tells (R.world rig.old).now (R.world rig.new).now) }
    ensures keeps { Keeps R.tells (R.world rig.old).now (R.world rig.new).now (R.disk_faults rig.old) (R.disk_faults rig.new) }
{
    let text = listing_of(alloc, at, epoch, input)?;
    print(rig, &text)
}

/// The command `list` under this epoch: reads a plan and a capture to the end, and then prints, topic by topic in the
/// plan's order and a line for each change, what the history that the capture admits entitles a late reader to at this
/// moment, in ticks of 2^-32 s, or at the greatest one of the records where that is later.
///
/// Each record is one `receive` of a hub that began with nothing, of the facts of its datagram; of a datagram that is
/// not whole they are those before its fault. A persistent topic is listed as a transient one is, and nothing is stored.
/// A read fault, a fault of the plan or of the capture, want of memory or a write fault ends the run where it comes
/// first. A fault of the plan is that of its first line with a fault; one of the capture is its first break.
pub fn list<S: Source, R: Rig>(
    alloc: Global,
    at: Ticks,
    epoch: u32,
    input: &mut S,
    rig: R,
) -> Ran<R>
    ensures reason { HasReason ListEnds result.status (S.left input.new)
        (S.faults input.old) (S.faults input.new) (R.sink_faults rig) (R.sink_faults result.rig) }
    ensures arrives { IfSome (S.left input.old) (λ bytes. Arrives (ListAnswers at epoch) bytes result.status
        (S.faults input.old) (S.faults input.new) (R.sink_faults rig) (R.sink_faults result.rig)) }
    ensures out { IfSome (S.left input.old) (λ bytes.
        GoesOut (ListAnswers at epoch) bytes result.status R.tells (R.world rig).now (R.world result.rig).now) }
    ensures keeps { Keeps R.tells (R.world rig).now (R.world result.rig).now (R.disk_faults rig) (R.disk_faults result.rig) }
{
    let mut rig = rig;
    let ended = run(alloc, at, epoch, input, &mut rig);
    Ran {
        status: status_of(ended),
        rig,
    }
}

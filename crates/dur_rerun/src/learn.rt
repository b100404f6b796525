//! The command `learn`.

ghost use Rattle.std.specs.Prelude.{◌≡◌, [], IfOk, OnOk, IfErr, IfSome};
ghost use Rattle.std.specs.Io.KnownBytes.{IsAtEnd};
ghost use Rattle.dur_outside.specs.Causes.{Rose};
ghost use Rattle.dur_rerun.specs.Command.{HasReason, Arrives, GoesOut, Keeps, status_of};
ghost use Rattle.dur_rerun.specs.Learn.Answer.{LearnsText, LearnAnswers, LearnEnds, EndsUnlearnt};

mod facts;
mod fault;
mod laws;

use crate::input::plan::open_plan;
use crate::input::prefix::own_prefix;
use crate::output::print;
use crate::status::{Ran, Status, status_of};
use dur_base::{Octets, Ticks, later};
use dur_outside::{Rig, Source};
use dur_qos::write_plan;
use facts::hear_rest;
pub use laws::one_answer;
use rtps_discovery::Directory;
use std::alloc::Global;

/// The text of the plan that is learnt from the input of a source, which is then read to its end; or the
/// status that the input ends with.
fn text_of<S: Source>(alloc: Global, at: Ticks, epoch: u32, input: &mut S) -> Result<Octets, Status>
    ensures text { IfOk result (λ v. IfSome (S.left input.old) (λ bytes. LearnsText at epoch bytes v)) }
    ensures end { OnOk result (IsAtEnd (S.left input.new)) }
    ensures many { IfErr result (λ s. s ≡ Status.TooMany → IsAtEnd (S.left input.new)) }
    ensures ends { IfErr result (λ s. EndsUnlearnt s) }
    ensures answers { IfErr result (λ s. IfSome (S.left input.old)
        (λ bytes. LearnAnswers at epoch bytes [] s)) }
    ensures read { IfErr result (λ s. s ≡ Status.ReadFault → Rose (S.faults input.old) (S.faults input.new)) }
{
    let opened = open_plan(alloc, input)?;
    let feed = opened.feed;
    let plan = opened.plan;
    let own = own_prefix(plan.prefix, epoch);
    let mut directory = Directory::new(alloc);
    let last = hear_rest(alloc, &mut directory, &plan, own, feed, input)?;
    let learnt = directory.learn(alloc, &plan, later(at, last))?;
    let text = write_plan(alloc, &learnt)?;
    Ok(text)
}

/// Reads a plan and a capture to the end, and then prints the plan that is learnt from them.
fn run<S: Source, R: Rig>(
    alloc: Global,
    at: Ticks,
    epoch: u32,
    input: &mut S,
    rig: &mut R,
) -> Result<(), Status>
    ensures reason { HasReason LearnEnds (status_of result) (S.left input.new)
        (S.faults input.old) (S.faults input.new) (R.sink_faults rig.old) (R.sink_faults rig.new) }
    ensures many { status_of result ≡ Status.TooMany → IsAtEnd (S.left input.new) }
    ensures out { IfSome (S.left input.old) (λ bytes.
        GoesOut (LearnAnswers at epoch) bytes (status_of result) R.tells (R.world rig.old).now (R.world rig.new).now) }
    ensures keeps { Keeps R.tells (R.world rig.old).now (R.world rig.new).now (R.disk_faults rig.old) (R.disk_faults rig.new) }
{
    let text = text_of(alloc, at, epoch, input)?;
    print(rig, text.as_slice())
}

/// The command `learn` under this epoch: reads a plan and a capture to the end, and then prints the plan with a line for
/// each writer and reader more that the discovery traffic of the capture announces and that is alive at this moment, in
/// ticks of 2^-32 s, or at the greatest one of the records where that is later (DDSI-RTPS 8.5).
///
/// The facts of each record are heard at the greatest moment of the records up to and with it; of a datagram that is not
/// whole they are those before its fault. A read fault, a fault of the plan or of the capture, want of memory,
/// `TooMany` or a write fault ends the run where it comes first.
pub fn learn<S: Source, R: Rig>(
    alloc: Global,
    at: Ticks,
    epoch: u32,
    input: &mut S,
    rig: R,
) -> Ran<R>
    ensures reason { HasReason LearnEnds result.status (S.left input.new)
        (S.faults input.old) (S.faults input.new) (R.sink_faults rig) (R.sink_faults result.rig) }
    ensures many { result.status ≡ Status.TooMany → IsAtEnd (S.left input.new) }
    ensures arrives { IfSome (S.left input.old) (λ bytes. Arrives (LearnAnswers at epoch) bytes result.status
        (S.faults input.old) (S.faults input.new) (R.sink_faults rig) (R.sink_faults result.rig)) }
    ensures out { IfSome (S.left input.old) (λ bytes.
        GoesOut (LearnAnswers at epoch) bytes result.status R.tells (R.world rig).now (R.world result.rig).now) }
    ensures keeps { Keeps R.tells (R.world rig).now (R.world result.rig).now (R.disk_faults rig) (R.disk_faults result.rig) }
{
    let mut rig = rig;
    let ended = run(alloc, at, epoch, input, &mut rig);
    Ran {
        status: status_of(ended),
        rig,
    }
}

//! The top call: what the words ask for, over a source, a rig and a sink for the line of a fault.

ghost use Rattle.std.specs.Prelude.{◌≡◌, ◌⊎◌, map, string_bytes, IfSome};
ghost use Rattle.dur_outside.specs.Causes.{Rose};
ghost use Rattle.dur_rerun.specs.Command.{HasReason, Arrives, GoesOut, Keeps};
ghost use Rattle.dur_rerun.specs.Saying.{IsSaid, wrote};
ghost use Rattle.durability.specs.Calls.{IsOwn, IsOwnLine, answers_of, ends_of};
ghost use Rattle.durability.specs.Calls.{IsOfInput, IsInputLine, IsCheck, IsCheckLine, RunsCheck};
ghost use Rattle.durability.specs.Calls.{IsRerun, IsRerunLine, RunsRerun, CallsFiles, IsFileLine};
ghost use Rattle.durability.specs.Status.{fault_line};
ghost use Rattle.durability.specs.declared.words.Line.{Line};

use crate::status::say_fault;
use crate::words::{Line, WordsFault, read_words};
use dur_outside::{Rig, Sink, Source};
use dur_rerun::check::check;
use dur_rerun::learn::learn;
use dur_rerun::list::list;
use dur_rerun::rerun::rerun;
use dur_rerun::show::show;
use dur_rerun::{Ran, Status};
use std::alloc::Global;

/// Does what a command line asks for, where it is one of this call; `late` is `Usage` here.
fn run<S: Source, R: Rig>(alloc: Global, line: Line, input: &mut S, rig: R) -> Ran<R>
    ensures usage { (IsOwn line → ⊥) → result.status ≡ Status.Usage }
    ensures untouched { result.status ≡ Status.Usage → (input.new ≡ input.old) × (result.rig ≡ rig) }
    ensures reason { IsOfInput line → HasReason (ends_of line) result.status (S.left input.new)
        (S.faults input.old) (S.faults input.new) (R.sink_faults rig) (R.sink_faults result.rig) }
    ensures arrives { IsOfInput line → IfSome (S.left input.old) (λ bytes. Arrives (answers_of line) bytes result.status
        (S.faults input.old) (S.faults input.new) (R.sink_faults rig) (R.sink_faults result.rig)) }
    ensures out { IsOfInput line → IfSome (S.left input.old) (λ bytes.
        GoesOut (answers_of line) bytes result.status R.tells (R.world rig).now (R.world result.rig).now) }
    ensures checks { IsCheck line → RunsCheck R.tells result.status
        (R.world rig).now (R.world result.rig).now (R.disk_faults rig) (R.disk_faults result.rig)
        (R.sink_faults rig) (R.sink_faults result.rig) }
    ensures unread { IsCheck line → input.new ≡ input.old }
    ensures reruns { IsRerun line → RunsRerun (S.left input.old) (S.left input.new) result.status R.tells
        rig result.rig (R.world rig) (R.world result.rig) (S.faults input.old) (S.faults input.new)
        (R.sink_faults rig) (R.sink_faults result.rig) (R.disk_faults rig) (R.disk_faults result.rig) }
    ensures keeps { (CallsFiles line → ⊥)
        → Keeps R.tells (R.world rig).now (R.world result.rig).now
        (R.disk_faults rig) (R.disk_faults result.rig) }
{
    match line {
        Line::List { at, epoch } => list(alloc, at, epoch, input, rig),
        Line::Learn { at, epoch } => learn(alloc, at, epoch, input, rig),
        Line::Show { epoch } => show(alloc, epoch, input, rig),
        Line::Rerun { .. } => rerun(alloc, input, rig),
        Line::Check { .. } => check(alloc, rig),
        Line::Late { .. } => Ran {
            status: Status::Usage,
            rig,
        },
    }
}

/// Says a fault on `err`, and hands on what became of the run.
fn told<R: Rig, E: Sink>(ran: Ran<R>, err: &mut E) -> Ran<R>
    ensures same { result ≡ ran }
    ensures said { E.tells → IsSaid (fault_line ran.status) (E.world err.old).now (E.world err.new).now }
    ensures told { E.tells → (Rose (E.sink_faults err.old) (E.sink_faults err.new) → ⊥)
        → (E.world err.new).now ≡ wrote (fault_line ran.status) (E.world err.old).now }
{
    say_fault(err, &ran.status);
    ran
}

/// Does what the words after the program's name ask for, and hands the rig back.
///
/// `list` reads a plan and a capture, and prints what the history that they admit entitles a late
/// reader to. `learn` prints the plan that the discovery traffic of the capture teaches. `show` prints a line for each record of the capture. `rerun` handles the records one after the other over
/// the journal of the rig's two files: it stores what they bring to persistent topics, and writes out what they call for.
/// `check` reads no input: it prints what the two files of the rig are, and what a journal over them would keep. Other
/// words are `Usage`; those of `late` are, too, which is a call of its own. The status says what became of it, and a
/// status other than `Done` is said on `err` in one line; that `err` fails changes no status.
pub fn durability<S: Source, R: Rig, E: Sink>(
    alloc: Global,
    words: &[String],
    input: &mut S,
    rig: R,
    err: &mut E,
) -> Ran<R>
    // The words are no command line of this call.
    ensures usage { result.status ≡ Status.Usage
        → (line : Line) → IsOwnLine (map string_bytes words.now) line → ⊥ }
    ensures none { ((line : Line) → IsOwnLine (map string_bytes words.now) line → ⊥)
        → (result.status ≡ Status.Usage) ⊎ (result.status ≡ Status.OutOfMemory) }
    ensures untouched { result.status ≡ Status.Usage → (input.new ≡ input.old) × (result.rig ≡ rig) }
    // They are `list`, `learn` or `show`.
    ensures reason { (line : Line) → IsInputLine (map string_bytes words.now) line
        → HasReason (ends_of line) result.status (S.left input.new)
        (S.faults input.old) (S.faults input.new) (R.sink_faults rig) (R.sink_faults result.rig) }
    ensures arrives { (line : Line) → IsInputLine (map string_bytes words.now) line
        → IfSome (S.left input.old) (λ bytes. Arrives (answers_of line) bytes result.status
        (S.faults input.old) (S.faults input.new) (R.sink_faults rig) (R.sink_faults result.rig)) }
    ensures out { (line : Line) → IsInputLine (map string_bytes words.now) line
        → IfSome (S.left input.old) (λ bytes. GoesOut (answers_of line) bytes result.status R.tells
        (R.world rig).now (R.world result.rig).now) }
    // They are `check`.
    ensures checks { (line : Line) → IsCheckLine (map string_bytes words.now) line
        → RunsCheck R.tells result.status (R.world rig).now (R.world result.rig).now
        (R.disk_faults rig) (R.disk_faults result.rig) (R.sink_faults rig) (R.sink_faults result.rig) }
    ensures unread { (line : Line) → IsCheckLine (map string_bytes words.now) line
        → input.new ≡ input.old }
    // They are `rerun`.
    ensures reruns { (line : Line) → IsRerunLine (map string_bytes words.now) line
        → RunsRerun (S.left input.old) (S.left input.new) result.status R.tells
        rig result.rig (R.world rig) (R.world result.rig) (S.faults input.old) (S.faults input.new)
        (R.sink_faults rig) (R.sink_faults result.rig) (R.disk_faults rig) (R.disk_faults result.rig) }
    // They are neither.
    ensures keeps { ((line : Line) → IsFileLine (map string_bytes words.now) line → ⊥)
        → Keeps R.tells (R.world rig).now (R.world result.rig).now
        (R.disk_faults rig) (R.disk_faults result.rig) }
    // The line of a fault.
    ensures said { E.tells → IsSaid (fault_line result.status) (E.world err.old).now (E.world err.new).now }
    ensures told { E.tells → (Rose (E.sink_faults err.old) (E.sink_faults err.new) → ⊥)
        → (E.world err.new).now ≡ wrote (fault_line result.status) (E.world err.old).now }
{
    match read_words(alloc, words) {
        Ok(line) => told(run(alloc, line, input, rig), err),
        Err(WordsFault::Usage) => told(
            Ran {
                status: Status::Usage,
                rig,
            },
            err,
        ),
        Err(WordsFault::OutOfMemory) => told(
            Ran {
                status: Status::OutOfMemory,
                rig,
            },
            err,
        ),
    }
}

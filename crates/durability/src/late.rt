//! The top call of `late`: what the words ask for, over a link and a sink.

ghost use Rattle.std.specs.Prelude.{◌≡◌, ◌⊎◌, ℕ, map, string_bytes};
ghost use Rattle.rel_writer.specs.LateReaders.{Late};
ghost use Rattle.dur_rerun.specs.Command.{Keeps};
ghost use Rattle.dur_rerun.specs.Late.Answer.{TakesTurns, PrintsTaken, IsCaused, IsComplete};
ghost use Rattle.durability.specs.Calls.{AsksFor, IsOfLate, IsOwn};

mod status;

use crate::words::{Line, WordsFault, read_words};
use dur_outside::{Link, Sink};
use dur_rerun::late::{LateStatus, late as take_replay};
pub use status::{late_number, say_late_fault};
use std::alloc::Global;

/// Does what a line asks for, where it is one of `late`; every other line is `Usage` here.
fn run<L: Link, K: Sink>(alloc: Global, line: Line, link: &mut L, out: &mut K) -> LateStatus
    ensures usage { result ≡ LateStatus.Usage
        → (first : Late) (turns : ℕ) → IsOfLate line first turns → ⊥ }
    ensures none { IsOwn line → result ≡ LateStatus.Usage }
    ensures untouched { result ≡ LateStatus.Usage → (link.new ≡ link.old) × (out.new ≡ out.old) }
    ensures takes { (first : Late) (turns : ℕ) → IsOfLate line first turns → (l : Late)
        × TakesTurns first turns result L.tells
        (L.heard link.old) (L.heard link.new) (L.sent link.old) (L.sent link.new) l
        × PrintsTaken l result K.tells (K.world out.old).now (K.world out.new).now
        (K.sink_faults out.old) (K.sink_faults out.new) }
    ensures cause { IsCaused result (L.link_faults link.old) (L.link_faults link.new)
        (K.sink_faults out.old) (K.sink_faults out.new) }
    ensures complete { L.tells → (first : Late) (turns : ℕ) → IsOfLate line first turns
        → IsComplete first result (L.heard link.old) (L.heard link.new)
        (L.link_faults link.old) (L.link_faults link.new)
        (K.sink_faults out.old) (K.sink_faults out.new) }
    ensures keeps { Keeps K.tells (K.world out.old).now (K.world out.new).now
        (K.disk_faults out.old) (K.disk_faults out.new) }
{
    match line {
        Line::Late {
            reader,
            prefix,
            writer,
            turns,
            ..
        } => take_replay(alloc, reader, prefix, writer, turns, link, out),
        Line::List { .. }
        | Line::Learn { .. }
        | Line::Show { .. }
        | Line::Rerun { .. }
        | Line::Check { .. } => LateStatus::Usage,
    }
}

/// Does what the words after the program's name ask of `late`: a late reader takes a replay over the
/// link, and prints a line for each change that it took (DDSI-RTPS 8.4.12).
///
/// Words that are no line of `late` are `Usage`, and then nothing is received, sent or written. The
/// status says what became of the run, as it does for `dur_rerun::late::late`; no fault is said here,
/// which is left to the caller.
pub fn late<L: Link, K: Sink>(
    alloc: Global,
    words: &[String],
    link: &mut L,
    out: &mut K,
) -> LateStatus
    // The words are no line of `late`.
    ensures usage { result ≡ LateStatus.Usage
        → (first : Late) (turns : ℕ) → AsksFor (map string_bytes words.now) first turns → ⊥ }
    ensures none { ((first : Late) (turns : ℕ)
        → AsksFor (map string_bytes words.now) first turns → ⊥)
        → (result ≡ LateStatus.Usage) ⊎ (result ≡ LateStatus.OutOfMemory) }
    ensures untouched { result ≡ LateStatus.Usage → (link.new ≡ link.old) × (out.new ≡ out.old) }
    // They are one.
    ensures takes { (first : Late) (turns : ℕ)
        → AsksFor (map string_bytes words.now) first turns → (l : Late)
        × TakesTurns first turns result L.tells
        (L.heard link.old) (L.heard link.new) (L.sent link.old) (L.sent link.new) l
        × PrintsTaken l result K.tells (K.world out.old).now (K.world out.new).now
        (K.sink_faults out.old) (K.sink_faults out.new) }
    ensures complete { L.tells → (first : Late) (turns : ℕ)
        → AsksFor (map string_bytes words.now) first turns
        → IsComplete first result (L.heard link.old) (L.heard link.new)
        (L.link_faults link.old) (L.link_faults link.new)
        (K.sink_faults out.old) (K.sink_faults out.new) }
    // Whatever they are.
    ensures cause { IsCaused result (L.link_faults link.old) (L.link_faults link.new)
        (K.sink_faults out.old) (K.sink_faults out.new) }
    ensures keeps { Keeps K.tells (K.world out.old).now (K.world out.new).now
        (K.disk_faults out.old) (K.disk_faults out.new) }
{
    match read_words(alloc, words) {
        Ok(line) => run(alloc, line, link, out),
        Err(WordsFault::Usage) => LateStatus::Usage,
        Err(WordsFault::OutOfMemory) => LateStatus::OutOfMemory,
    }
}

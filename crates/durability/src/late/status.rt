//! The number that a process of `late` ends with, and the line of its fault.

ghost use Rattle.std.specs.Prelude.{◌≡◌};
ghost use Rattle.dur_outside.specs.Causes.{Rose};
ghost use Rattle.dur_rerun.specs.Saying.{IsSaid, wrote};
ghost use Rattle.durability.specs.LateStatus.{late_number, late_fault_line};

use crate::status::say_line;
use dur_outside::Sink;
use dur_rerun::late::LateStatus;

/// The number of a status, with which the process ends.
pub fn late_number(status: LateStatus) -> u8
    ensures { result ≡ late_number status }
{
    match status {
        LateStatus::Done => 0,
        LateStatus::Usage => 2,
        LateStatus::OutOfMemory => 3,
        LateStatus::WriteFault => 6,
        LateStatus::LinkFault => 12,
        LateStatus::Unfinished => 13,
    }
}

/// Says on `err` in one line what went wrong, as far as the sink takes it. `Done` has no line.
pub fn say_late_fault<E: Sink>(err: &mut E, status: LateStatus)
    ensures some { E.tells → IsSaid (late_fault_line status) (E.world err.old).now (E.world err.new).now }
    ensures all { E.tells → (Rose (E.sink_faults err.old) (E.sink_faults err.new) → ⊥)
        → (E.world err.new).now ≡ wrote (late_fault_line status) (E.world err.old).now }
{
    match status {
        LateStatus::Done => say_line(err, b""),
        LateStatus::Usage => say_line(err, b"durability: usage\n"),
        LateStatus::OutOfMemory => say_line(err, b"durability: out of memory\n"),
        LateStatus::WriteFault => say_line(err, b"durability: write fault\n"),
        LateStatus::LinkFault => say_line(err, b"durability: link fault\n"),
        LateStatus::Unfinished => say_line(err, b"durability: unfinished\n"),
    }
}

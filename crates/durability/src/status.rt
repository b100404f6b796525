//! The number that a process ends with, and the line of a fault.

ghost use Rattle.std.specs.Prelude.{◌≡◌, ◌+◌, ◌++◌, ◌≤◌, length};
ghost use Rattle.dur_outside.specs.Causes.{Rose};
ghost use Rattle.durability.specs.Status.{number_of, fault_line, input_line, plan_line, journal_line, differs_line, full_line, fault_name, plan_name};
ghost use Rattle.dur_rerun.specs.Saying.{IsSaid, wrote};

use arrayvec::ArrayVec;
use dur_base::Name;
use dur_capture::CapFault;
use dur_outside::{FileId, Sink};
use dur_qos::PlanKind;
use dur_rerun::{Status, digit_of, say};
use itoa::Buffer;

/// The number of a status, with which the process ends.
pub fn number(status: &Status) -> u8
    ensures { result ≡ number_of status.now }
{
    match status {
        Status::Done => 0,
        Status::Usage => 2,
        Status::OutOfMemory => 3,
        Status::Input(_, _) => 4,
        Status::ReadFault => 5,
        Status::WriteFault => 6,
        Status::DiskFault => 7,
        Status::Plan(_, _) => 8,
        Status::NotAJournal(_, _) | Status::PlanDiffers(_) => 9,
        Status::Full(_) | Status::Worn => 10,
        Status::TooMany => 15,
    }
}

/// Adds octets to a line, which has room for them.
fn put(line: &mut ArrayVec<u8, 96>, piece: &[u8])
    requires { length line.old.items + length piece.now ≤ 96 }
    ensures { line.new.items ≡ line.old.items ++ piece.now }
{
    let _ = line.try_extend_from_slice(piece);
}

/// The name of a fault of the capture.
fn fault_name(fault: CapFault) -> &'static [u8]
    ensures name { result.now ≡ fault_name fault }
    ensures short { length result.now ≤ 16 }
{
    match fault {
        CapFault::LongDatagram(_) => b"LongDatagram",
        CapFault::EndsInside(_) => b"EndsInside",
        CapFault::TooLong(_) => b"TooLong",
        CapFault::OutOfMemory => b"OutOfMemory",
    }
}

/// The name of what is wrong with a line of a plan.
fn plan_name(kind: PlanKind) -> &'static [u8]
    ensures name { result.now ≡ plan_name kind }
    ensures short { length result.now ≤ 16 }
{
    match kind {
        PlanKind::Word => b"Word",
        PlanKind::Number => b"Number",
        PlanKind::Twice => b"Twice",
        PlanKind::UnknownTopic => b"UnknownTopic",
        PlanKind::DepthAboveLimit => b"DepthAboveLimit",
        PlanKind::TooMany => b"TooMany",
        PlanKind::OutOfMemory => b"OutOfMemory",
    }
}

fn input_fault(place: u64, fault: CapFault) -> ArrayVec<u8, 96>
    ensures { result.items ≡ input_line place fault }
{
    let mut line = ArrayVec::new();
    let mut digits = Buffer::new();
    put(&mut line, b"durability: input ");
    put(&mut line, digits.format(place).as_bytes());
    put(&mut line, b" ");
    put(&mut line, fault_name(fault));
    put(&mut line, b"\n");
    line
}

fn plan_fault(number: u32, kind: PlanKind) -> ArrayVec<u8, 96>
    ensures { result.items ≡ plan_line number kind }
{
    let mut line = ArrayVec::new();
    let mut digits = Buffer::new();
    put(&mut line, b"durability: plan ");
    put(&mut line, digits.format(number).as_bytes());
    put(&mut line, b" ");
    put(&mut line, plan_name(kind));
    put(&mut line, b"\n");
    line
}

fn journal_fault(file: FileId, place: u64) -> ArrayVec<u8, 96>
    ensures { result.items ≡ journal_line file place }
{
    let mut line = ArrayVec::new();
    let mut digits = Buffer::new();
    put(&mut line, b"durability: not a journal ");
    put(&mut line, digit_of(file));
    put(&mut line, b" ");
    put(&mut line, digits.format(place).as_bytes());
    put(&mut line, b"\n");
    line
}

/// The octets of a name, which are few.
fn octets_of(name: &Name) -> &[u8]
    ensures value { result.now ≡ name.now }
    ensures short { length result.now ≤ 64 }
{
    name.as_slice()
}

fn differs_fault(name: &Name) -> ArrayVec<u8, 96>
    ensures { result.items ≡ differs_line name.now }
{
    let mut line = ArrayVec::new();
    put(&mut line, b"durability: plan differs ");
    put(&mut line, octets_of(name));
    put(&mut line, b"\n");
    line
}

fn full_fault(size: u64) -> ArrayVec<u8, 96>
    ensures { result.items ≡ full_line size }
{
    let mut line = ArrayVec::new();
    let mut digits = Buffer::new();
    put(&mut line, b"durability: full ");
    put(&mut line, digits.format(size).as_bytes());
    put(&mut line, b"\n");
    line
}

/// Says a line as far as the sink takes it.
pub fn say_line<E: Sink>(err: &mut E, line: &[u8])
    ensures some { E.tells → IsSaid line.now (E.world err.old).now (E.world err.new).now }
    ensures all { E.tells → (Rose (E.sink_faults err.old) (E.sink_faults err.new) → ⊥) → (E.world err.new).now ≡ wrote line.now (E.world err.old).now }
{
    match say(err, line) {
        Ok(()) => {}
        Err(_) => {}
    }
}

/// Says on `err` in one line what went wrong, as far as the sink takes it. `Done` has no line.
pub fn say_fault<E: Sink>(err: &mut E, status: &Status)
    ensures some { E.tells → IsSaid (fault_line status.now) (E.world err.old).now (E.world err.new).now }
    ensures all { E.tells → (Rose (E.sink_faults err.old) (E.sink_faults err.new) → ⊥) → (E.world err.new).now ≡ wrote (fault_line status.now) (E.world err.old).now }
{
    match status {
        Status::Done => say_line(err, b""),
        Status::Usage => say_line(err, b"durability: usage\n"),
        Status::OutOfMemory => say_line(err, b"durability: out of memory\n"),
        Status::ReadFault => say_line(err, b"durability: read fault\n"),
        Status::WriteFault => say_line(err, b"durability: write fault\n"),
        Status::DiskFault => say_line(err, b"durability: disk fault\n"),
        Status::Worn => say_line(err, b"durability: worn\n"),
        Status::TooMany => say_line(err, b"durability: too many\n"),
        Status::Input(place, fault) => say_line(err, &input_fault(*place, *fault)),
        Status::Plan(line, kind) => say_line(err, &plan_fault(*line, *kind)),
        Status::NotAJournal(file, place) => say_line(err, &journal_fault(*file, *place)),
        Status::PlanDiffers(name) => say_line(err, &differs_fault(name)),
        Status::Full(size) => say_line(err, &full_fault(*size)),
    }
}

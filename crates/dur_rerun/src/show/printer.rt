//! Printing the records of a capture. Their lines are held, and go out together.

ghost use Rattle.std.specs.Prelude.{◌≡◌, ◌<◌, ◌≤◌, ◌+◌, ◌++◌, ◌^◌, ℕ, List, [], None, true, length, IfOk, OnOk, IfErr, OnErr, IfSome};
ghost use Rattle.dur_outside.specs.Causes.{HasCause};
ghost use Rattle.dur_rerun.specs.Command.{HasReason, GoesOut, Keeps, status_of};
ghost use Rattle.dur_rerun.specs.Saying.{IsSaid, wrote};
ghost use Rattle.dur_rerun.specs.Show.Printing.{ShowsRest, EndsRest, HandsOn, IsCounted, IsFresh, HoldsLine, IsSame, Holds, HoldsWhole, EndsHolding};

use crate::Status;
use crate::input::records::refill;
use crate::output::print;
use crate::show::line::append_line;
use dur_base::{OutOfMemory, Prefix};
use dur_capture::{Feed, Record};
use dur_outside::{Sink, Source};
use rtps_message::facts_of;
use std::alloc::Global;

/// The octets of text that are held at most before they go out, but for the last line.
const FULL: usize = 65_024;

/// Room for what is held, with the longest line.
const ROOM: usize = 65_536;

/// What prints the records of a capture.
#[derive(Drop)]
pub struct Printer {
    /// The service's own prefix.
    pub own: Prefix,
    /// The octets that are not printed yet.
    pub feed: Feed,
    /// How many records were printed.
    pub count: u64,
    /// The lines that are held.
    pub held: Vec<u8>,
    /// Room for the next line.
    pub line: Vec<u8>,
}

impl Printer {
    /// What prints the records of this feed, and has printed none. It takes the room for lines.
    pub fn new(alloc: Global, own: Prefix, feed: Feed) -> Result<Printer, OutOfMemory>
        ensures own { IfOk result (λ p. p.own ≡ own) }
        ensures feed { IfOk result (λ p. p.feed ≡ feed) }
        ensures none { IfOk result (λ p. (p.count ≡ 0) × (p.held.items ≡ [])) }
    {
        let held = Vec::with_capacity(alloc, ROOM)?;
        let line = Vec::with_capacity(alloc, ROOM - FULL)?;
        Ok(Printer {
            own,
            feed,
            count: 0,
            held,
            line,
        })
    }
}

/// Holds the line of a record that was handed out.
fn hold_record(alloc: Global, printer: &mut Printer, datagram: &Record) -> Result<(), OutOfMemory>
    requires { printer.old.count + 1 < 2 ^ 64 }
    ensures ok { OnOk result (HoldsLine printer.old datagram.now printer.new) }
    ensures err { OnErr result (IsSame printer.old printer.new) }
{
    let index = printer.count + 1;
    let heard = facts_of(alloc, &datagram.bytes, printer.own)?;
    printer.line.clear();
    append_line(&mut printer.line, index, datagram, &heard)?;
    printer.held.extend_from_slice(&printer.line)?;
    printer.count = index;
    Ok(())
}

/// Holds the lines of the records that are whole, and answers whether the room for them is full.
fn hold_records(alloc: Global, printer: &mut Printer, ended: bool) -> Result<bool, Status>
    requires { IsCounted printer.old }
    ensures counted { OnOk result (IsCounted printer.new) }
    ensures holds { (own : List ℕ) (before : ℕ) (octets sent : List ℕ) → Holds own before octets sent printer.old
        → HoldsWhole own before octets sent ended result printer.new }
    ensures hands { IfOk result (λ full. HandsOn printer.old.feed printer.new.feed full) }
    ensures ends { IfErr result (λ s. EndsHolding s) }
    ensures own { printer.new.own ≡ printer.old.own }
{
    'records: loop {
        match printer.feed.next(ended)? {
            Some(datagram) => hold_record(alloc, printer, &datagram)?,
            None => return Ok(false),
        }
        if printer.held.len() >= FULL {
            return Ok(true);
        }
    }
}

/// Lets the lines out that are held.
fn send_held<K: Sink>(printer: &mut Printer, out: &mut K) -> Result<(), Status>
    ensures all { K.tells → OnOk result ((K.world out.new).now ≡ wrote printer.old.held.items (K.world out.old).now) }
    ensures some { K.tells → IsSaid printer.old.held.items (K.world out.old).now (K.world out.new).now }
    ensures more { OnErr result (0 < length printer.old.held.items) }
    ensures fault { IfErr result (λ s. s ≡ Status.WriteFault) }
    ensures sent { OnOk result (printer.new.held.items ≡ []) }
    ensures rest { (printer.new.own ≡ printer.old.own) × (printer.new.feed ≡ printer.old.feed) × (printer.new.count ≡ printer.old.count) }
    ensures cause { HasCause (K.sink_faults out.old) (K.sink_faults out.new) result }
    ensures keeps { K.disk_faults out.new ≡ K.disk_faults out.old }
{
    print(out, &printer.held)?;
    printer.held.clear();
    Ok(())
}

/// Prints the records of the rest of the input as they come, to its end. Beside a failure of the source
/// and of the sink, it ends early where the capture first breaks off, and for want of memory.
pub fn print_rest<S: Source, K: Sink>(
    alloc: Global,
    printer: &mut Printer,
    input: &mut S,
    out: &mut K,
) -> Result<(), Status>
    requires { IsFresh printer.old }
    ensures reason { HasReason EndsRest (status_of result) (S.left input.new)
        (S.faults input.old) (S.faults input.new) (K.sink_faults out.old) (K.sink_faults out.new) }
    ensures out { IfSome (S.left input.old) (λ tail. GoesOut (ShowsRest printer.old.own printer.old.feed.before)
        (printer.old.feed.left ++ tail) (status_of result) K.tells (K.world out.old).now (K.world out.new).now) }
    ensures keeps { Keeps K.tells (K.world out.old).now (K.world out.new).now (K.disk_faults out.old) (K.disk_faults out.new) }
{
    let mut ended = false;
    'pieces: loop {
        let held = hold_records(alloc, printer, ended);
        send_held(printer, out)?;
        let full = held?;
        if !full {
            if ended {
                return Ok(());
            }
            ended = !refill(&mut printer.feed, input)?;
        }
    }
}

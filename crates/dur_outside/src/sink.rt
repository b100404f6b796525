//! A sink in memory, and one that keeps nothing.

ghost use Rattle.std.specs.Prelude.{◌≡◌, ◌<◌, ◌≤◌, ◌++◌, ◌∷◌, [], true, length, reverse, IfOk, OnOk, OnErr, IsOk, is_err};
ghost use Rattle.dur_outside.specs.Causes.{HasCause};
ghost use Rattle.dur_outside.specs.Calls.{no_calls, IsListed, Counts};
ghost use Rattle.dur_outside.specs.World.{Sends, nothing};
ghost use Rattle.dur_outside.specs.Memory.{world_of};
ghost use Rattle.dur_outside.specs.declared.change.Change.TheVariants.{Sent};

use crate::calls::Calls;
use crate::{Change, Failed, Machine, Sink};
use dur_base::{List, Octets, OutOfMemory};
use std::marker::Model;

/// A sink in memory, of which those calls fail that are set to.
#[derive(Drop)]
pub struct MemSink {
    written: Octets,
    changes: Vec<Change>,
    calls: Calls,
}

impl Model for MemSink {
    ghost use Rattle.std.specs.Prelude.{reverse};
    ghost use Rattle.dur_outside.specs.Given.{GivenSink};

    ghost Value = { GivenSink };

    ghost view = { λ s. record { written = s.written; past = reverse s.changes.items; calls = s.calls } };
}

impl MemSink {
    /// A sink to which nothing was written. `fails` has the numbers, from 0, of the calls that fail.
    pub fn new(fails: List<u64>) -> MemSink
        ensures { result ≡ record { written = []; past = []; calls = no_calls fails } }
    {
        MemSink {
            written: Octets::new(fails.alloc()),
            changes: Vec::new(fails.alloc()),
            calls: Calls::new(fails),
        }
    }

    /// What was written.
    pub fn written(&self) -> &Octets
        ensures { result.now ≡ self.now.written }
    {
        &self.written
    }

    /// How many calls failed for want of memory. The count stays at 2^64 - 1.
    pub fn starved(&self) -> u64
        ensures { result ≡ self.now.calls.starved }
    {
        self.calls.starved()
    }

    // Counts a call for which a rig finds no memory.
    pub(crate) fn refuse(&mut self) -> Failed
        ensures calls { Counts (IsListed self.old.calls) true self.old.calls self.new.calls }
        ensures same { self.new ≡ record self.old { calls = self.new.calls } }
    {
        self.calls.refuse()
    }
}

// Notes and appends a piece, or does neither.
fn append_noted(
    written: &mut Octets,
    changes: &mut Vec<Change>,
    piece: &[u8],
) -> Result<(), OutOfMemory>
    ensures written { OnOk result (written.new ≡ written.old ++ piece.now) }
    ensures noted { OnOk result (reverse changes.new.items ≡ Sent (length piece.now) ∷ reverse changes.old.items) }
    ensures none { OnErr result ((written.new ≡ written.old) × (changes.new.items ≡ changes.old.items)) }
{
    if changes.push(Change::Sent(piece.len() as u64)).is_err() {
        return Err(OutOfMemory);
    }
    if written.append(piece).is_err() {
        changes.pop();
        return Err(OutOfMemory);
    }
    Ok(())
}

impl Machine for MemSink {
    ghost tells = { Unit {0} };

    ghost world = { λ s. world_of (record { zero = []; one = []; written = s.written }) s.past };

    ghost disk_faults = { λ _. 0 };

    ghost sink_faults = { λ s. s.calls.faults };
}

impl Sink for MemSink {
    /// It takes the whole piece, or fails.
    fn write(&mut self, piece: &[u8]) -> Result<usize, Failed>
        requires { 0 < length piece.now }
        ensures least { IfOk result (λ n. 0 < n) }
        ensures most { IfOk result (λ n. n ≤ length piece.now) }
        ensures sends { Unit {0} → Sends piece.now result
            (world_of (record { zero = []; one = []; written = self.old.written }) self.old.past)
            (world_of (record { zero = []; one = []; written = self.new.written }) self.new.past) }
        ensures cause { HasCause self.old.calls.faults self.new.calls.faults result }

        ensures whole { IfOk result (λ n. n ≡ length piece.now) }
        ensures done { OnOk result ((self.new.written ≡ self.old.written ++ piece.now)
            × (self.new.past ≡ Sent (length piece.now) ∷ self.old.past)) }
        ensures none { OnErr result ((self.new.written ≡ self.old.written) × (self.new.past ≡ self.old.past)) }
        ensures counts { Counts (IsListed self.old.calls) (is_err result) self.old.calls self.new.calls }
    {
        if self.calls.is_listed() {
            return Err(self.calls.fail());
        }
        match append_noted(&mut self.written, &mut self.changes, piece) {
            Ok(()) => {
                self.calls.succeed();
                Ok(piece.len())
            }
            Err(_) => Err(self.calls.starve()),
        }
    }
}

/// A sink that keeps nothing and never fails.
#[derive(Clone, Copy, Debug, Drop)]
pub struct NoSink;

impl Machine for NoSink {
    ghost tells = { ⊥ };

    ghost world = { λ _. nothing };

    ghost disk_faults = { λ _. 0 };

    ghost sink_faults = { λ _. 0 };
}

impl Sink for NoSink {
    /// It takes the whole piece.
    fn write(&mut self, piece: &[u8]) -> Result<usize, Failed>
        ensures whole { IfOk result (λ n. n ≡ length piece.now) }
        ensures never { IsOk result }
    {
        Ok(piece.len())
    }
}

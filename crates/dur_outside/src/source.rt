//! Octets in memory as a source.

ghost use Rattle.std.specs.Prelude.{◌≡◌, ◌<◌, ◌≤◌, ◌++◌, [], length, take, drop, IsOk, OnErr, is_err, Some};
ghost use Rattle.std.specs.Io.{ReadsAtMost};
ghost use Rattle.std.specs.Io.KnownBytes.{ReadConsumes};
ghost use Rattle.dur_outside.specs.Causes.{HasCause};
ghost use Rattle.dur_outside.specs.Calls.{no_calls, IsListed, Counts};

use crate::calls::Calls;
use crate::{Failed, Source};
use dur_base::{List, Octets};
use std::marker::Model;

/// Octets in memory, of which those calls fail that are set to.
#[derive(Drop)]
pub struct MemSource {
    bytes: Octets,
    at: usize,
    calls: Calls,
}

impl Model for MemSource {
    ghost use Rattle.std.specs.Prelude.{◌≤◌, length, drop};
    ghost use Rattle.dur_outside.specs.Given.{GivenSource};

    ghost Value = { GivenSource };

    ghost view = { λ s. record { left = drop s.at s.bytes; calls = s.calls } };

    ghost invariant = { λ s. s.at ≤ length s.bytes };
}

impl MemSource {
    /// A source of these octets. `fails` has the numbers, from 0, of the calls that fail.
    pub fn new(bytes: Octets, fails: List<u64>) -> MemSource
        ensures { result ≡ record { left = bytes; calls = no_calls fails } }
    {
        MemSource {
            bytes,
            at: 0,
            calls: Calls::new(fails),
        }
    }
}

// Copies what fits of `from` to the front of `into`, and says how much.
fn give(from: &[u8], into: &mut [u8]) -> usize
    ensures most { result ≤ length from.now }
    ensures bound { result ≤ length into.new }
    ensures taken { from.now ≡ take result into.new ++ drop result from.now }
    ensures none { result ≡ 0 → 0 < length into.new → from.now ≡ [] }
{
    let count = from.len().min(into.len());
    into[..count].copy_from_slice(&from[..count]);
    count
}

impl Source for MemSource {
    ghost left = { λ s. Some s.left };

    ghost faults = { λ s. s.calls.faults };

    /// It takes no memory, so it fails only where it is set to.
    fn read(&mut self, into: &mut [u8]) -> Result<usize, Failed>
        requires { 0 < length into.old }
        ensures bound { ReadsAtMost result into.new }
        ensures bytes { ReadConsumes (Some self.old.left) (Some self.new.left) result into.new }
        ensures cause { HasCause self.old.calls.faults self.new.calls.faults result }
        ensures counts { Counts (IsListed self.old.calls) (is_err result) self.old.calls self.new.calls }
        ensures fails_only { OnErr result (IsListed self.old.calls) }
    {
        if self.calls.is_listed() {
            return Err(self.calls.fail());
        }
        self.calls.succeed();
        let count = give(&self.bytes.as_slice()[self.at..], into);
        self.at += count;
        Ok(count)
    }
}

/// Octets in memory, of which no call fails.
#[derive(Drop)]
pub struct SureSource {
    bytes: Octets,
    at: usize,
}

impl Model for SureSource {
    ghost use Rattle.std.specs.Prelude.{ℕ, List, ◌≤◌, length, drop};

    ghost Value = { List ℕ };

    ghost view = { λ s. drop s.at s.bytes };

    ghost invariant = { λ s. s.at ≤ length s.bytes };
}

impl SureSource {
    /// A source of these octets.
    pub fn new(bytes: Octets) -> SureSource
        ensures { result ≡ bytes }
    {
        SureSource { bytes, at: 0 }
    }
}

impl Source for SureSource {
    ghost left = { λ s. Some s };

    ghost faults = { λ _. 0 };

    /// It never fails.
    fn read(&mut self, into: &mut [u8]) -> Result<usize, Failed>
        requires { 0 < length into.old }
        ensures bound { ReadsAtMost result into.new }
        ensures bytes { ReadConsumes (Some self.old) (Some self.new) result into.new }
        ensures cause { HasCause 0 0 result }
        ensures never { IsOk result }
    {
        let count = give(&self.bytes.as_slice()[self.at..], into);
        self.at += count;
        Ok(count)
    }
}

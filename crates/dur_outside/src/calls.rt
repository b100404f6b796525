//! The calls of an object in memory: which of them are set to fail, and how many failed.

ghost use Rattle.std.specs.Prelude.{◌≡◌, ◌≤◌, true, IsTrue, ◌↔◌};
ghost use Rattle.dur_outside.specs.Calls.{no_calls, IsListed, after_success, after_fault, after_want, Counts};

use crate::Failed;
use dur_base::List;
use std::alloc::Global;
use std::marker::Model;

/// The calls of an object in memory. Its counts stay at 2^64 - 1.
#[derive(Drop)]
pub(crate) struct Calls {
    fails: List<u64>,
    made: u64,
    faults: u64,
    starved: u64,
}

impl Model for Calls {
    ghost use Rattle.dur_outside.specs.Calls.{GivenCalls};

    ghost Value = { GivenCalls };

    ghost view = { λ c. record { fails = c.fails; made = c.made; faults = c.faults; starved = c.starved } };
}

impl Calls {
    /// No call came yet. `fails` has the numbers, from 0, of those that are to fail.
    pub(crate) fn new(fails: List<u64>) -> Calls
        ensures { result ≡ no_calls fails }
    {
        Calls {
            fails,
            made: 0,
            faults: 0,
            starved: 0,
        }
    }

    /// The memory that the object takes its room from.
    pub(crate) fn alloc(&self) -> Global {
        self.fails.alloc()
    }

    /// How many calls found no memory.
    pub(crate) fn starved(&self) -> u64
        ensures { result ≡ self.now.starved }
    {
        self.starved
    }

    /// Whether the next call is in the list.
    pub(crate) fn is_listed(&self) -> bool
        ensures { IsTrue result ↔ IsListed self.now }
    {
        self.fails.as_slice().contains(&self.made)
    }

    /// Counts a call that does what it is asked.
    pub(crate) fn succeed(&mut self)
        ensures { self.new ≡ after_success self.old }
    {
        self.made = self.made.saturating_add(1);
    }

    /// Counts a call that fails.
    pub(crate) fn fail(&mut self) -> Failed
        ensures count { self.new ≡ after_fault self.old }
        ensures later { self.old.faults ≤ self.new.faults }
    {
        self.made = self.made.saturating_add(1);
        self.faults = self.faults.saturating_add(1);
        Failed
    }

    /// Counts a call that finds no memory.
    pub(crate) fn starve(&mut self) -> Failed
        ensures count { self.new ≡ after_want self.old }
        ensures later { self.old.faults ≤ self.new.faults }
    {
        self.starved = self.starved.saturating_add(1);
        self.fail()
    }

    /// Counts a call that finds no memory, if it is not in the list anyway.
    pub(crate) fn refuse(&mut self) -> Failed
        ensures { Counts (IsListed self.old) true self.old self.new }
    {
        if self.is_listed() {
            self.fail()
        } else {
            self.starve()
        }
    }
}

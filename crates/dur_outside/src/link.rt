//! A link in memory.

ghost use Rattle.std.specs.Prelude.{◌≡◌, ℕ, ◌≤◌, [], ◌∷◌, ◌++◌, length, take, get_or, None, IfOk, IfSome, OnOk, OnErr, is_err, option_map};
ghost use Rattle.dur_outside.specs.Causes.{HasCause};
ghost use Rattle.dur_outside.specs.Calls.{no_calls, IsListed, Counts};
ghost use Rattle.dur_outside.specs.Given.{heard_of, IsWithin};

use crate::calls::Calls;
use crate::{Failed, LONGEST_DATAGRAM, Link};
use dur_base::{List, Octets, OutOfMemory};
use std::marker::Model;

/// A link in memory: it hears what it is given and then nothing, and those calls fail that are set to.
#[derive(Drop)]
pub struct MemLink {
    given: List<Option<Octets>>,
    answers: u64,
    sent: List<Octets>,
    calls: Calls,
}

impl Model for MemLink {
    ghost use Rattle.std.specs.Prelude.{ℕ, get_or, None};
    ghost use Rattle.dur_outside.specs.Given.{GivenLink, IsWithin};

    ghost Value = { GivenLink };

    ghost view = { λ l. record { given = l.given; answers = l.answers; sent = l.sent; calls = l.calls } };

    ghost invariant = { λ l. (i : ℕ) → IsWithin 65507 (get_or l.given i None) };
}

impl MemLink {
    /// A link that is given these datagrams, each no longer than the longest one. `fails` has the
    /// numbers, from 0, of the calls that fail: `receive` and `send` are counted together.
    pub fn new(given: List<Option<Octets>>, fails: List<u64>) -> MemLink
        requires { (i : ℕ) → IsWithin 65507 (get_or given i None) }
        ensures { result ≡ record { given = given; answers = 0; sent = []; calls = no_calls fails } }
    {
        MemLink {
            given,
            answers: 0,
            sent: List::new(fails.alloc()),
            calls: Calls::new(fails),
        }
    }

    /// What was sent, in order.
    pub fn sent(&self) -> &List<Octets>
        ensures { result.now ≡ self.now.sent }
    {
        &self.sent
    }

    /// How many calls failed for want of memory. The count stays at 2^64 - 1.
    pub fn starved(&self) -> u64
        ensures { result ≡ self.now.calls.starved }
    {
        self.calls.starved()
    }
}

// Copies all of `from` to the front of `into`.
fn put_whole(from: &[u8], into: &mut [u8]) -> usize
    requires { length from.now ≤ length into.old }
    ensures count { result ≡ length from.now }
    ensures bytes { take result into.new ≡ from.now }
{
    into.split_at_mut(from.len()).0.copy_from_slice(from);
    from.len()
}

// The limit is a variable here: a proof with the number in its place takes too many steps.
fn answer_at(given: &[Option<Octets>], at: u64, into: &mut [u8], most: usize) -> Option<usize>
    requires room { most ≤ length into.old }
    requires fits { (i : ℕ) → IsWithin most (get_or given.now i None) }
    ensures bound { IfSome result (λ n. n ≤ most) }
    ensures answer { option_map (λ n. take n into.new) result ≡ get_or given.now at None }
{
    if at >= given.len() as u64 {
        return None;
    }
    match &given[at as usize] {
        Some(octets) => Some(put_whole(octets.as_slice(), into)),
        None => None,
    }
}

fn keep_sent(sent: &mut List<Octets>, bytes: &[u8]) -> Result<(), OutOfMemory>
    ensures ok { OnOk result (sent.new ≡ sent.old ++ bytes.now ∷ []) }
    ensures err { OnErr result (sent.new ≡ sent.old) }
{
    let mut octets = Octets::new(sent.alloc());
    octets.append(bytes)?;
    sent.push(octets)
}

impl Link for MemLink {
    ghost tells = { Unit {0} };

    ghost heard = { λ l. heard_of l.given l.answers };

    ghost sent = { λ l. l.sent };

    ghost link_faults = { λ l. l.calls.faults };

    /// After 2^64 - 1 answers it has no room to count one more, which fails as want of memory does.
    #[tactic(auto, using(crate::proofs::Hears::heard_next))]
    fn receive(&mut self, into: &mut [u8]) -> Result<Option<usize>, Failed>
        requires { 65507 ≤ length into.old }
        ensures bound { IfOk result (λ got. IfSome got (λ n. n ≤ 65507)) }
        ensures heard { Unit {0} → IfOk result (λ got. heard_of self.new.given self.new.answers
            ≡ heard_of self.old.given self.old.answers ++ option_map (λ n. take n into.new) got ∷ []) }
        ensures unheard { Unit {0} → OnErr result (heard_of self.new.given self.new.answers
            ≡ heard_of self.old.given self.old.answers) }
        ensures unsent { Unit {0} → self.new.sent ≡ self.old.sent }
        ensures cause { HasCause self.old.calls.faults self.new.calls.faults result }

        ensures given { self.new.given ≡ self.old.given }
        ensures counts { Counts (IsListed self.old.calls) (is_err result) self.old.calls self.new.calls }
    {
        if self.calls.is_listed() {
            return Err(self.calls.fail());
        }
        if self.answers == u64::MAX {
            return Err(self.calls.starve());
        }
        self.calls.succeed();
        let got = answer_at(self.given.as_slice(), self.answers, into, LONGEST_DATAGRAM);
        self.answers += 1;
        Ok(got)
    }

    fn send(&mut self, bytes: &[u8]) -> Result<(), Failed>
        ensures sent { Unit {0} → OnOk result (self.new.sent ≡ self.old.sent ++ bytes.now ∷ []) }
        ensures unsent { Unit {0} → OnErr result (self.new.sent ≡ self.old.sent) }
        ensures unheard { Unit {0} → heard_of self.new.given self.new.answers
            ≡ heard_of self.old.given self.old.answers }
        ensures cause { HasCause self.old.calls.faults self.new.calls.faults result }

        ensures given { (self.new.given ≡ self.old.given) × (self.new.answers ≡ self.old.answers) }
        ensures counts { Counts (IsListed self.old.calls) (is_err result) self.old.calls self.new.calls }
    {
        if self.calls.is_listed() {
            return Err(self.calls.fail());
        }
        match keep_sent(&mut self.sent, bytes) {
            Ok(()) => {
                self.calls.succeed();
                Ok(())
            }
            Err(_) => Err(self.calls.starve()),
        }
    }
}

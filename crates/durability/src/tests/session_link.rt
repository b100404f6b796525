//! A link in memory whose other end is a session of a replay, which answers each datagram at once.

ghost use Rattle.std.specs.Prelude.{◌≡◌, ◌≤◌, [], length, IfOk, IfSome, is_err};
ghost use Rattle.dur_outside.specs.Causes.{HasCause, Rose, faults_after, one_more};

use dur_base::{Fact, List, Number, Octets, OutOfMemory, Prefix};
use dur_outside::{Failed, LONGEST_DATAGRAM, Link};
use dur_view::{Change, Snapshot};
use rel_writer::{Asked, Ids, Session, are_sendable};
use rtps_message::facts;
use std::alloc::Global;
use std::marker::Model;

/// What befalls the session's answers on their way.
#[derive(Clone, Copy, Debug, PartialEq, Eq, Drop)]
pub enum Way {
    /// Each comes once, in order.
    Straight,
    /// Every third one is lost.
    Lossy,
    /// Each comes twice.
    Twice,
    /// Every second one overtakes the one before it.
    Swapped,
}

/// The session at the other end, and its answers that wait for the late reader.
#[derive(Drop)]
struct Service {
    alloc: Global,
    own: Prefix,
    session: Session,
    way: Way,
    waiting: Vec<Octets>,
    // Where they are written.
    out: Vec<u8>,
    answers: u64,
}

fn copy_of(alloc: Global, bytes: &[u8]) -> Result<Octets, OutOfMemory> {
    let mut copy = Octets::new(alloc);
    copy.append(bytes)?;
    Ok(copy)
}

impl Service {
    // The datagram of so many octets that was written is on its way.
    fn put(&mut self, count: usize) -> Result<(), OutOfMemory> {
        let front = &self.out[..count.min(self.out.len())];
        let copy = copy_of(self.alloc, front)?;
        self.answers = self.answers.wrapping_add(1);
        match self.way {
            Way::Straight => self.waiting.push(copy)?,
            Way::Lossy => if self.answers % 3 != 0 {
                self.waiting.push(copy)?;
            },
            Way::Twice => {
                let again = copy_of(self.alloc, copy.as_slice())?;
                self.waiting.push(copy)?;
                self.waiting.push(again)?;
            }
            Way::Swapped => {
                let before = (self.answers % 2) as usize;
                let place = self.waiting.len().saturating_sub(before);
                self.waiting.insert(place, copy)?;
            }
        }
        Ok(())
    }

    // Sends the DATA of that number, if there is one.
    fn send_data(&mut self, number: Number) -> Result<(), OutOfMemory> {
        if number.get() <= self.session.last().get() && LONGEST_DATAGRAM <= self.out.len() {
            let count = self.session.data(number, self.out.as_mut_slice());
            self.put(count)?;
        }
        Ok(())
    }

    fn send_beat(&mut self) -> Result<(), OutOfMemory> {
        if LONGEST_DATAGRAM <= self.out.len() {
            let count = self.session.beat(self.out.as_mut_slice());
            self.put(count)?;
        }
        Ok(())
    }

    // Sends what an ACKNACK asks for.
    fn reply(&mut self, asked: Asked) -> Result<(), OutOfMemory> {
        let base = asked.numbers.base().get();
        for i in 0..asked.numbers.count() {
            if asked.numbers.has(i)
                && let Some(number) = Number::new(base.saturating_add(i as u64))
            {
                self.send_data(number)?;
            }
        }
        if asked.beat {
            self.send_beat()?;
        }
        Ok(())
    }

    // A datagram reaches the session.
    fn hear(&mut self, bytes: &[u8]) -> Result<(), OutOfMemory> {
        let heard = facts(self.alloc, bytes, self.own)?;
        for fact in heard.facts.into_vec() {
            if let Fact::Nack { set, .. } = fact {
                let asked = self.session.on_nack(&set);
                self.reply(asked)?;
            }
        }
        Ok(())
    }

    // The next answer that waits.
    fn next(&mut self) -> Option<Octets> {
        if self.waiting.is_empty() {
            return None;
        }
        Some(self.waiting.remove(0))
    }
}

/// A link to a session. The calls with the numbers in `fails` fail, counted from 0.
#[derive(Drop)]
pub struct SessionLink {
    service: Service,
    receives: u64,
    calls: u64,
    fails: List<u64>,
    faults: u64,
}

impl Model for SessionLink {
    ghost use Rattle.std.specs.Prelude.{ℕ};

    ghost Value = { ℕ };

    ghost view = { λ l. l.faults };
}

impl SessionLink {
    /// A link to a new session of these changes; or None where they cannot be sent, or for want of
    /// memory.
    pub fn new(
        alloc: Global,
        changes: List<Change>,
        ids: Ids,
        way: Way,
        fails: List<u64>,
    ) -> Option<SessionLink> {
        if !are_sendable(changes.as_slice(), ids.keyed) {
            return None;
        }
        let Ok(out) = Vec::from_elem(alloc, 0u8, LONGEST_DATAGRAM) else {
            return None;
        };
        Some(SessionLink {
            service: Service {
                alloc,
                own: ids.own,
                session: Session::new(Snapshot { changes }, ids),
                way,
                waiting: Vec::new(alloc),
                out,
                answers: 0,
            },
            receives: 0,
            calls: 0,
            fails,
            faults: 0,
        })
    }

    /// Whether the late reader acknowledged all of the replay.
    pub fn complete(&self) -> bool {
        self.service.session.complete()
    }

    /// How often the late reader received.
    pub fn receives(&self) -> u64 {
        self.receives
    }

    // Counts a call, and says whether it is to fail.
    fn call_fails(&mut self) -> bool
        ensures { self.new ≡ self.old }
    {
        let number = self.calls;
        self.calls = number.saturating_add(1);
        self.fails.as_slice().iter().any(|fails| *fails == number)
    }

    // Counts a fault.
    fn fail(&mut self) -> Failed
        ensures count { self.new ≡ one_more self.old }
        ensures later { self.old ≤ self.new }
        ensures rose { Rose self.old self.new }
    {
        self.faults = self.faults.saturating_add(1);
        Failed
    }
}

// The limit is a variable here: a proof with the number in its place takes too many steps.
fn put_front(from: &[u8], into: &mut [u8], most: usize) -> usize
    requires { most ≤ length into.old }
    ensures { result ≤ most }
{
    let count = from.len().min(most);
    into.split_at_mut(count)
        .0
        .copy_from_slice(from.split_at(count).0);
    count
}

impl Link for SessionLink {
    ghost tells = { ⊥ };

    ghost heard = { λ _. [] };

    ghost sent = { λ _. [] };

    ghost link_faults = { λ l. l };

    fn receive(&mut self, into: &mut [u8]) -> Result<Option<usize>, Failed>
        requires { 65507 ≤ length into.old }
        ensures bound { IfOk result (λ got. IfSome got (λ n. n ≤ 65507)) }
        ensures cause { HasCause self.old self.new result }
        ensures count { self.new ≡ faults_after (is_err result) self.old }
    {
        self.receives = self.receives.saturating_add(1);
        if self.call_fails() {
            return Err(self.fail());
        }
        match self.service.next() {
            Some(answer) => Ok(Some(put_front(answer.as_slice(), into, LONGEST_DATAGRAM))),
            None => Ok(None),
        }
    }

    fn send(&mut self, bytes: &[u8]) -> Result<(), Failed>
        ensures cause { HasCause self.old self.new result }
        ensures count { self.new ≡ faults_after (is_err result) self.old }
    {
        if self.call_fails() {
            return Err(self.fail());
        }
        match self.service.hear(bytes) {
            Ok(()) => Ok(()),
            Err(_) => Err(self.fail()),
        }
    }
}

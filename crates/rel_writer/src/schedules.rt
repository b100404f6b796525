//! Random schedules of lost, repeated and reordered datagrams of two sessions, and what a late
//! reader has taken in each state.

use crate::examples::{OTHER, OWN, WRITER, change, data, late, number, session};
use crate::{Asked, LateReader, Session};
use dur_base::{Fact, Guid, List, Prefix, SetMark};
use dur_view::Change;
use rtps_message::facts;
use std::alloc::Global;
use std::process::Abort;

/// The service's second epoch.
const NEXT: Prefix = Prefix(*b"\x01\x02\x03\x04\x05\x06\x07\x08\0\0\0\x02");

/// Numbers that look random, and are the same at each run.
#[derive(Drop)]
struct Dice(u64);

impl Dice {
    /// One of the numbers below `sides`.
    fn roll(&mut self, sides: usize) -> usize {
        self.0 = self
            .0
            .wrapping_mul(6_364_136_223_846_793_005)
            .wrapping_add(1_442_695_040_888_963_407);
        ((self.0 >> 33) as usize) % sides.max(1)
    }
}

/// Where the set of each change begins, from 1 on, or 0 where it is of none: sets of one to four
/// members.
fn sets(alloc: Global, rt: &impl Abort, dice: &mut Dice, count: usize) -> Vec<u64> {
    let mut sets = Vec::new(alloc);
    let mut left = 0;
    let mut first = 0;
    for place in 0..count {
        if left == 0 {
            left = dice.roll(5);
            first = if left == 0 { 0 } else { place as u64 + 1 };
        }
        left = left.saturating_sub(1);
        sets.push(first).expect(rt, "memory");
    }
    sets
}

/// The changes of a writer: the one at the place k from 1 on has the number k + 10.
fn changes(alloc: Global, rt: &impl Abort, writer: Guid, sets: &[u64]) -> List<Change> {
    let mut changes = List::new(alloc);
    let mut value: u64 = 10;
    for first in sets {
        value = value.saturating_add(1);
        let set = if *first == 0 {
            0
        } else {
            first.saturating_add(10)
        };
        let one = change(alloc, rt, writer, number(value), set);
        changes.push(one).expect(rt, "memory");
    }
    changes
}

/// The datagrams that wait for the late reader.
#[derive(Drop)]
struct Pool {
    dice: Dice,
    waiting: Vec<Vec<u8>>,
    // Where they are written.
    out: Vec<u8>,
}

impl Pool {
    /// The datagram of so many octets that was written waits. Where the pool is full, another one
    /// is lost.
    fn put(&mut self, alloc: Global, rt: &impl Abort, len: usize) {
        let mut copy = Vec::new(alloc);
        copy.extend_from_slice(&self.out[..len.min(self.out.len())])
            .expect(rt, "memory");
        let place = self.dice.roll(600);
        if place < self.waiting.len() {
            self.waiting[place] = copy;
        } else {
            self.waiting.push(copy).expect(rt, "memory");
        }
    }

    fn beat(&mut self, alloc: Global, rt: &impl Abort, session: &mut Session) {
        if 65507 <= self.out.len() {
            let len = session.beat(self.out.as_mut_slice());
            self.put(alloc, rt, len);
        }
    }

    fn send(&mut self, alloc: Global, rt: &impl Abort, session: &Session, at: u64) {
        if 65507 <= self.out.len() {
            let len = data(session, at, self.out.as_mut_slice());
            self.put(alloc, rt, len);
        }
    }

    /// What an ACKNACK asks for, of which each one is lost by the throw of one in `sides`.
    fn reply(
        &mut self,
        alloc: Global,
        rt: &impl Abort,
        session: &mut Session,
        asked: Asked,
        sides: usize,
    ) {
        let base = asked.numbers.base().get();
        for i in 0..asked.numbers.count() {
            if asked.numbers.has(i) && self.dice.roll(sides) != 0 {
                self.send(alloc, rt, session, base.saturating_add(i as u64));
            }
        }
        if asked.beat && self.dice.roll(sides) != 0 {
            self.beat(alloc, rt, session);
        }
    }

    /// An ACKNACK reaches the session under that prefix.
    fn answer(
        &mut self,
        alloc: Global,
        rt: &impl Abort,
        session: &mut Session,
        own: Prefix,
        nack: &[u8],
        sides: usize,
    ) {
        let heard = facts(alloc, nack, own).expect(rt, "memory");
        for fact in heard.facts.into_vec() {
            if let Fact::Nack { set, .. } = fact {
                let asked = session.on_nack(&set);
                self.reply(alloc, rt, session, asked, sides);
            }
        }
    }

    /// One of the datagrams reaches the late reader, and may come again.
    fn come(&mut self, rt: &impl Abort, late: &mut LateReader) {
        let place = self.dice.roll(self.waiting.len());
        if place < self.waiting.len() {
            let _ = late.on_datagram(&self.waiting[place]).expect(rt, "memory");
        }
    }

    /// All of them reach the late reader, in an order that looks random.
    fn come_all(&mut self, rt: &impl Abort, late: &mut LateReader) {
        for _ in 0..self.waiting.len() {
            let place = self.dice.roll(self.waiting.len());
            if place < self.waiting.len() {
                let datagram = self.waiting.swap_remove(place);
                let _ = late.on_datagram(&datagram).expect(rt, "memory");
            }
        }
    }
}

/// A late reader, and the sessions of two epochs.
#[derive(Drop)]
struct World {
    sets: Vec<u64>,
    first: Session,
    second: Session,
    late: LateReader,
    pool: Pool,
    // So many of those that were taken are as they should be.
    seen: usize,
}

fn new_world(alloc: Global, rt: &impl Abort, count: usize) -> World {
    let mut dice = Dice(count as u64);
    let sets = sets(alloc, rt, &mut dice, count);
    let first = session(rt, OWN, changes(alloc, rt, WRITER, &sets));
    let second = session(rt, NEXT, changes(alloc, rt, OTHER, &sets));
    World {
        sets,
        first,
        second,
        late: late(alloc, rt),
        pool: Pool {
            dice,
            waiting: Vec::new(alloc),
            out: vec![in alloc; 0u8; 65507].expect(rt, "memory"),
        },
        seen: 0,
    }
}

/// Whether a set's mark is that of the set that begins there, or none where that is 0.
fn is_mark(mark: SetMark, first: u64) -> bool {
    match mark {
        SetMark::Of(set) => set.get() == first,
        _ => first == 0,
    }
}

/// Whether the change at a place, from 0 on, is taken as it is sent by one of the sessions.
fn is_as_sent(late: &LateReader, sets: &[u64], place: usize) -> bool {
    let taken = late.taken();
    if place >= taken.len() || place >= sets.len() {
        return false;
    }
    let one = &taken[place];
    one.original == taken[0].original
        && one.number.get() == (place as u64).saturating_add(11)
        && is_mark(one.sample.set, sets[place])
}

impl World {
    /// What was taken is a front of the replay, of whole sets alone, and is all of it once the late
    /// reader is done. A session is complete once all of its changes are taken.
    fn is_right(&mut self) -> bool {
        let count = self.late.taken().len();
        if count < self.seen || (self.late.done() && count != self.sets.len()) {
            return false;
        }
        for place in self.seen..count {
            if !is_as_sent(&self.late, &self.sets, place) {
                return false;
            }
        }
        self.seen = count;
        if 0 < count && count < self.sets.len() && self.sets[count] == self.sets[count - 1] {
            return self.sets[count] == 0;
        }
        let both = self.first.complete() && self.second.complete();
        !both && (self.late.done() || (!self.first.complete() && !self.second.complete()))
    }

    /// The late reader asks, and what it says comes to both sessions.
    fn ask(&mut self, alloc: Global, rt: &impl Abort, sides: usize) {
        let mut out = [0; 65507];
        let len = self.late.nack(&mut out);
        let nack = &out[..len];
        self.pool
            .answer(alloc, rt, &mut self.first, OWN, nack, sides);
        self.pool
            .answer(alloc, rt, &mut self.second, NEXT, nack, sides);
    }

    /// One step of the world, by a throw of the dice.
    fn step(&mut self, alloc: Global, rt: &impl Abort) {
        let place = self.pool.dice.roll(self.sets.len().saturating_add(1)) as u64;
        match self.pool.dice.roll(16) {
            0 => self.pool.beat(alloc, rt, &mut self.first),
            1 => self.pool.beat(alloc, rt, &mut self.second),
            2 => self
                .pool
                .send(alloc, rt, &self.first, place.saturating_add(1)),
            3 => self
                .pool
                .send(alloc, rt, &self.second, place.saturating_add(1)),
            4 => self.ask(alloc, rt, 3),
            _ => self.pool.come(rt, &mut self.late),
        }
    }
}

#[test]
fn what_was_taken_is_a_front_of_the_replay_in_each_state(rt: HostRuntime) {
    for count in [0, 1, 2, 7, 40, 255, 256, 257, 400, 600] {
        let mut world = new_world(rt.alloc(), &rt, count);
        for _ in 0..1000usize {
            world.step(rt.alloc(), &rt);
            assert!(rt; world.is_right());
        }
        // Nothing is lost from here on.
        for _ in 0..6usize {
            world.ask(rt.alloc(), &rt, usize::MAX);
            world.pool.come_all(&rt, &mut world.late);
            assert!(rt; world.is_right());
        }
        world.ask(rt.alloc(), &rt, usize::MAX);
        assert!(rt; world.late.done() && world.late.taken().len() == count);
        assert!(rt; world.first.complete() || world.second.complete());
        assert!(rt; world.is_right());
    }
}

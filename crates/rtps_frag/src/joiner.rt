//! The open samples.

ghost use Rattle.std.specs.Prelude.{◌≡◌, ◌+◌, ◌<◌, ◌≤◌, [], ◌∷◌, set, ◌++◌, Some, None, OnOk, if◌then◌else◌, take, drop, length, get_or, IfOk, IfSome};
ghost use Rattle.std.specs.List.{remove};
ghost use Rattle.rtps_message.specs.Facts.{IsGoodFact};
ghost use Rattle.rtps_frag.specs.Bodies.{brings, Fits};
ghost use Rattle.rtps_frag.specs.Samples.{Opened, opening, is_alike, is_whole, joined, with_fragments};
ghost use Rattle.rtps_frag.specs.Joining.{After, place_from, settled, again, anew, with_room, with_pieces, asked_in};

use crate::asks::{FragAsk, asked};
use crate::body::{FragBeat, FragSub};
use crate::sample::Slot;
use dur_base::{Fact, Guid, LONGEST_PAYLOAD, List, Number, OutOfMemory, Ticks};
use rtps_message::End;
use std::alloc::Global;
use std::marker::Model;

/// At most so many samples are open.
const MOST_OPEN: usize = 64;

/// What a datagram tells, with the samples that its fragments complete.
#[derive(Drop)]
pub struct Joined {
    /// The facts, in the order of their submessages.
    pub facts: List<Fact>,
    /// How the message ends.
    pub end: End,
    /// The fragments to be asked for, in the order of the HEARTBEAT_FRAGs.
    pub asks: List<FragAsk>,
}

/// The samples that are open: 64 at most, each of 65,344 octets at most. The open ones stand first, in the
/// order of their opening.
#[derive(Drop)]
pub struct Joiner {
    slots: Vec<Slot>,
    count: usize,
}

impl Model for Joiner {
    ghost use Rattle.rtps_frag.specs.Samples.{Opened};
    ghost use Rattle.std.specs.Prelude.{◌≡◌, ◌≤◌, List, take, length};

    ghost Value = { List Opened };

    ghost view = { λ j. take j.count j.slots.items };

    ghost invariant = { λ j. (j.count ≤ 64) × (length j.slots.items ≡ 64) };
}

/// The place of a sample among open ones.
fn place_of(slots: &[Slot], writer: Guid, number: Number) -> Option<usize>
    ensures value { result ≡ place_from 0 writer number slots.now }
    ensures within { IfSome result (λ i. i < length slots.now) }
{
    let mut rest = slots;
    let mut k = 0;
    while let [slot, later @ ..] = rest {
        if slot.is(writer, number) {
            return Some(k);
        }
        rest = later;
        k += 1;
    }
    None
}

/// Places for all samples that may be open, with their memory.
fn places(alloc: Global) -> Result<Vec<Slot>, OutOfMemory>
    ensures { IfOk result (λ v. length v.items ≡ 64) }
{
    let mut slots = Vec::with_capacity(alloc, MOST_OPEN)?;
    while slots.len() < MOST_OPEN {
        slots.push(Slot::new(alloc)?)?;
    }
    Ok(slots)
}

/// Moves the sample at a place behind all others.
fn rotate(slots: &mut [Slot], i: usize)
    requires { i < length slots.old }
    ensures after { slots.new ≡ remove slots.old i ++ take 1 (drop i slots.old) }
    ensures len { length slots.new ≡ length slots.old }
{
    let (_, rest) = slots.split_at_mut(i);
    rest.rotate_left(1);
}

/// Moves the sample at a place behind all others.
fn to_the_end(slots: &mut Vec<Slot>, i: usize)
    requires { i < length slots.old.items }
    ensures after { slots.new.items ≡ remove slots.old.items i ++ take 1 (drop i slots.old.items) }
    ensures len { length slots.new.items ≡ length slots.old.items }
{
    rotate(slots.as_mut_slice(), i);
}

/// Takes fragments of the sample at a place, where it is one of theirs. It says whether it is.
fn put_in(slots: &mut [Slot], i: usize, time: Option<Ticks>, sub: &FragSub<'_>) -> bool
    requires within { i < length slots.old }
    requires fits { Fits (brings sub.now) }
    ensures same { (d : Opened) → result ≡ is_alike (get_or slots.old i d) (brings sub.now) }
    ensures new { (d : Opened) → slots.new ≡ (if result then set slots.old i (with_fragments time (brings sub.now) (get_or slots.old i d)) else slots.old) }
    ensures len { length slots.new ≡ length slots.old }
{
    if !slots[i].is_alike(sub) {
        return false;
    }
    slots[i].put(time, sub);
    true
}

/// Takes fragments of the sample at a place, where it is one of theirs. It says whether it is.
fn put_among(slots: &mut Vec<Slot>, i: usize, time: Option<Ticks>, sub: &FragSub<'_>) -> bool
    requires within { i < length slots.old.items }
    requires fits { Fits (brings sub.now) }
    ensures same { (d : Opened) → result ≡ is_alike (get_or slots.old.items i d) (brings sub.now) }
    ensures new { (d : Opened) → slots.new.items ≡ (if result then set slots.old.items i (with_fragments time (brings sub.now) (get_or slots.old.items i d)) else slots.old.items) }
    ensures len { length slots.new.items ≡ length slots.old.items }
{
    put_in(slots.as_mut_slice(), i, time, sub)
}

/// What a sample tells where it is whole.
fn told(slot: &Slot, alloc: Global) -> Result<Option<Fact>, OutOfMemory>
    ensures value { IfOk result (λ f. f ≡ (if is_whole slot.now then Some (joined slot.now) else None)) }
    ensures good { IfOk result (λ f. IfSome f IsGoodFact) }
{
    if !slot.is_whole() {
        return Ok(None);
    }
    Ok(Some(slot.joined(alloc)?))
}

impl Joiner {
    /// A joiner with the memory of its buffers, in which no sample is open. `OutOfMemory` is want of memory
    /// alone.
    pub fn new(alloc: Global) -> Result<Joiner, OutOfMemory>
        ensures { IfOk result (λ j. j ≡ []) }
    {
        let slots = places(alloc)?;
        Ok(Joiner { slots, count: 0 })
    }

    /// How many samples are open, at most 64. It takes no memory.
    pub fn open(&self) -> usize
        ensures value { result ≡ length self.now }
        ensures bound { result ≤ 64 }
    {
        self.count
    }

    /// Gives up every open sample.
    pub fn give_up(&mut self)
        ensures { self.new ≡ [] }
    {
        self.count = 0;
    }

    /// The open samples.
    fn samples(&self) -> &[Slot]
        ensures { result.now ≡ self.now }
    {
        self.slots.as_slice().split_at(self.count).0
    }

    /// Closes the sample at a place.
    fn close(&mut self, i: usize)
        requires { i < length self.old }
        ensures { self.new ≡ remove self.old i }
    {
        to_the_end(&mut self.slots, i);
        self.count -= 1;
    }

    /// Closes the sample at a place and tells it, where it is whole.
    fn settle(&mut self, alloc: Global, i: usize) -> Result<Option<Fact>, OutOfMemory>
        requires { i < length self.old }
        ensures does { IfOk result (λ f. (d : Opened) → record { samples = self.new; fact = f } ≡ settled (get_or self.old i d) (remove self.old i) self.old) }
        ensures good { IfOk result (λ f. IfSome f IsGoodFact) }
    {
        match told(&self.slots[i], alloc)? {
            Some(fact) => {
                self.close(i);
                Ok(Some(fact))
            }
            None => Ok(None),
        }
    }

    /// Takes fragments of the sample at a place, where it is one of theirs. It says whether it is.
    fn put_at(&mut self, i: usize, time: Option<Ticks>, sub: &FragSub<'_>) -> bool
        requires within { i < length self.old }
        requires fits { Fits (brings sub.now) }
        ensures same { (d : Opened) → result ≡ is_alike (get_or self.old i d) (brings sub.now) }
        ensures new { (d : Opened) → self.new ≡ (if result then set self.old i (with_fragments time (brings sub.now) (get_or self.old i d)) else self.old) }
        ensures len { length self.new ≡ length self.old }
    {
        put_among(&mut self.slots, i, time, sub)
    }

    /// Takes fragments of the sample at a place.
    fn again(
        &mut self,
        alloc: Global,
        i: usize,
        time: Option<Ticks>,
        sub: &FragSub<'_>,
    ) -> Result<Option<Fact>, OutOfMemory>
        requires within { i < length self.old }
        requires fits { Fits (brings sub.now) }
        ensures does { IfOk result (λ f. (d : Opened) → record { samples = self.new; fact = f } ≡ again time (brings sub.now) (get_or self.old i d) i self.old) }
        ensures good { IfOk result (λ f. IfSome f IsGoodFact) }
    {
        if !self.put_at(i, time, sub) {
            return Ok(None);
        }
        self.settle(alloc, i)
    }

    /// Takes fragments of a sample that is not open, and opens it.
    fn anew(
        &mut self,
        alloc: Global,
        writer: Guid,
        time: Option<Ticks>,
        sub: &FragSub<'_>,
    ) -> Result<Option<Fact>, OutOfMemory>
        requires { Fits (brings sub.now) }
        ensures does { IfOk result (λ f. record { samples = self.new; fact = f } ≡ anew writer time (brings sub.now) self.old) }
        ensures good { IfOk result (λ f. IfSome f IsGoodFact) }
    {
        if sub.head.size as usize > LONGEST_PAYLOAD {
            return Ok(Some(Fact::Unreadable {
                writer,
                reader: sub.head.reader,
                number: sub.head.number,
            }));
        }
        self.make_room();
        self.add(writer, time, sub)?;
        let last = self.open() - 1;
        self.settle(alloc, last)
    }

    /// Gives up the sample that was opened first, where 64 are open.
    fn make_room(&mut self)
        ensures room { self.new ≡ with_room self.old }
        ensures less { length self.new < 64 }
    {
        if self.open() == MOST_OPEN {
            self.close(0);
        }
    }

    /// Opens a sample behind the others, and takes fragments of it.
    #[tactic(auto, unfolding(crate::specs::Samples::opening))]
    fn add(
        &mut self,
        writer: Guid,
        time: Option<Ticks>,
        sub: &FragSub<'_>,
    ) -> Result<(), OutOfMemory>
        requires fits { Fits (brings sub.now) }
        requires small { sub.now.head.size ≤ 65344 }
        requires room { length self.old < 64 }
        ensures { OnOk result (self.new ≡ self.old ++ with_fragments time (brings sub.now) (opening writer (brings sub.now)) ∷ []) }
    {
        let slot = &mut self.slots[self.count];
        slot.open(writer, sub)?;
        slot.put(time, sub);
        self.count += 1;
        Ok(())
    }

    /// Takes the fragments of a DATA_FRAG.
    #[tactic(auto, unfolding(crate::specs::Joining::with_pieces))]
    pub fn take(
        &mut self,
        alloc: Global,
        writer: Guid,
        time: Option<Ticks>,
        sub: &FragSub<'_>,
    ) -> Result<Option<Fact>, OutOfMemory>
        requires { Fits (brings sub.now) }
        ensures does { IfOk result (λ f. record { samples = self.new; fact = f } ≡ with_pieces writer time (brings sub.now) self.old) }
        ensures good { IfOk result (λ f. IfSome f IsGoodFact) }
    {
        match place_of(self.samples(), writer, sub.head.number) {
            Some(i) => self.again(alloc, i, time, sub),
            None => self.anew(alloc, writer, time, sub),
        }
    }

    /// Which fragments a HEARTBEAT_FRAG asks for.
    #[tactic(auto, unfolding(crate::specs::Joining::asked_in))]
    pub fn asked(&self, writer: Guid, beat: &FragBeat) -> Option<FragAsk>
        ensures { result ≡ asked_in writer beat.now self.now }
    {
        let samples = self.samples();
        match place_of(samples, writer, beat.number) {
            Some(i) => asked(writer, beat.number, samples[i].came(), beat.last),
            None => None,
        }
    }
}

//! Kept changes in the order of effect, each with the place of the next one of its instance.

ghost use Rattle.std.specs.Prelude.{◌≡◌, ℕ, ◌+◌, ◌<◌, ◌≤◌, ◌++◌, [], ◌∷◌, not, ◌&&◌, filter, length, Some, Ok, vec_len, vec_capacity, if◌then◌else◌, IfOk, OnOk};
ghost use Rattle.std.specs.HashMap.{spare};
ghost use Rattle.dur_view.specs.Identities.{Key as KeyOctets};
ghost use Rattle.dur_view.specs.Words.{is_key};
ghost use Rattle.dur_instances.specs.Layout.{is_change_of, is_gone_in};
ghost use Rattle.dur_instances.specs.Places.{is_past, kept_in, found, first_in, last_in, linked, first_with, Chain, Sinks};

use crate::cells::Sorted;
use crate::changes::Change;
use crate::links::{Place, count_kept, empty_past, sweep};
use crate::within::push_within;
use dur_base::{Key, OutOfMemory, Ticks};
use std::alloc::Global;
use std::collections::HashMap;
use std::marker::Model;

/// The places of an instance.
#[derive(Clone, Copy, Drop)]
pub struct Ends {
    /// One before which none is kept. There is none where none is kept at all.
    pub first: Option<usize>,
    /// The last one.
    pub last: usize,
}

/// Kept changes, in the order of effect.
#[derive(Drop)]
pub struct Changes {
    alloc: Global,
    places: Vec<Place>,
    ends: HashMap<[u8; 16], Ends>,
}

impl Model for Changes {
    ghost use Rattle.std.specs.Prelude.{◌-◌, min, vec_len, vec_capacity};
    ghost use Rattle.std.specs.HashMap.{spare};
    ghost use Rattle.dur_instances.specs.Places.{ChangesNow, changes_code, kept_in, IsLinked};

    ghost Value = { ChangesNow };

    ghost coded = { changes_code };

    ghost view = { λ s. record { items = kept_in s.places.items; room = min (vec_capacity s.places - vec_len s.places) (spare s.ends) } };

    ghost invariant = { λ s. IsLinked s.ends s.places.items };
}

fn ends_of(ends: &HashMap<[u8; 16], Ends>, key: Key) -> Option<Ends>
    ensures { result ≡ found ends.now key }
{
    ends.get(&key.0).copied()
}

// Notes the places of an instance.
fn note_ends(ends: &mut HashMap<[u8; 16], Ends>, key: Key, of: Ends)
    requires { 0 < spare ends.old }
    ensures found { (k : KeyOctets) → found ends.new k ≡ (if is_key key k then Some of else found ends.old k) }
    ensures spare { spare ends.old ≤ spare ends.new + 1 }
{
    match ends.insert(key.0, of) {
        Ok(_) => {}
        Err(_) => {}
    }
}

// Says of a place which one is the next.
fn set_next(place: &mut Place, next: usize)
    ensures { place.new ≡ record place.old { next = Some next } }
{
    place.next = Some(next);
}

// Links the last place of an instance with this one, where it has a first one, and gives the first one.
fn link(places: &mut Vec<Place>, first: Option<usize>, last: usize, place: usize) -> usize
    requires { (i : ℕ) → first ≡ Some i → last < vec_len places.old }
    ensures items { places.new.items ≡ linked first last place places.old.items }
    ensures len { vec_len places.new ≡ vec_len places.old }
    ensures capacity { vec_capacity places.new ≡ vec_capacity places.old }
    ensures first { result ≡ first_with first place }
{
    match first {
        Some(first) => {
            set_next(&mut places[last], place);
            first
        }
        None => place,
    }
}

fn first_of(ends: Option<Ends>) -> Option<usize>
    ensures { result ≡ first_in ends }
{
    match ends {
        Some(ends) => ends.first,
        None => None,
    }
}

fn last_of(ends: Option<Ends>) -> usize
    ensures { result ≡ last_in ends }
{
    match ends {
        Some(ends) => ends.last,
        None => 0,
    }
}

// Adds the changes that are kept at the places.
fn gather(changes: &mut Changes, places: &[Place]) -> Result<(), OutOfMemory>
    requires { length (kept_in places.now) ≤ changes.old.room }
    ensures items { OnOk result (changes.new.items ≡ changes.old.items ++ kept_in places.now) }
    ensures room { OnOk result (changes.old.room ≤ changes.new.room + length (kept_in places.now)) }
{
    for place in places {
        match &place.change {
            Some(change) => changes.push(change.copy()?),
            None => {}
        }
    }
    Ok(())
}

impl Changes {
    /// None yet.
    pub fn new(alloc: Global) -> Changes
        ensures items { result.items ≡ [] }
    {
        Changes {
            alloc,
            places: Vec::new(alloc),
            ends: HashMap::new(alloc),
        }
    }

    /// The places of the kept changes, in the order of effect.
    pub fn places(&self) -> &[Place]
        ensures { kept_in result.now ≡ self.now.items }
    {
        &self.places
    }

    // More places at the end.
    fn widen(&mut self, more: usize) -> Result<(), OutOfMemory>
        ensures items { self.new.items ≡ self.old.items }
        ensures room { OnOk result (more ≤ self.new.room) }
        ensures enough { more ≤ self.old.room → result ≡ Ok tt }
        ensures stays { self.old.room ≤ self.new.room }
    {
        match self.places.reserve(more) {
            Ok(()) => {}
            Err(_) => return Err(OutOfMemory),
        }
        match self.ends.reserve(more) {
            Ok(()) => Ok(()),
            Err(_) => Err(OutOfMemory),
        }
    }

    // Places for these and so many more, without those at which none is kept.
    fn renew(&mut self, more: usize) -> Result<(), OutOfMemory>
        requires { self.old.room ≤ more }
        ensures items { self.new.items ≡ self.old.items }
        ensures room { OnOk result (more ≤ self.new.room) }
        ensures stays { self.old.room ≤ self.new.room }
    {
        let all = match count_kept(&self.places).checked_add(more) {
            Some(all) => all,
            None => return Err(OutOfMemory),
        };
        let mut fresh = Changes::new(self.alloc);
        fresh.widen(all)?;
        gather(&mut fresh, &self.places)?;
        *self = fresh;
        Ok(())
    }

    /// Makes places for so many more. On want of memory the changes are as they were. Where there is room
    /// there is no want of memory.
    pub fn reserve(&mut self, more: usize) -> Result<(), OutOfMemory>
        ensures items { self.new.items ≡ self.old.items }
        ensures room { OnOk result (more ≤ self.new.room) }
        ensures enough { more ≤ self.old.room → result ≡ Ok tt }
        ensures stays { self.old.room ≤ self.new.room }
    {
        let left = self.places.capacity() - self.places.len();
        if left < more && count_kept(&self.places) <= self.places.len() / 2 {
            self.renew(more)
        } else {
            self.widen(more)
        }
    }

    /// Forgets the changes that are expired or purged at the moment.
    pub fn sweep(&mut self, cells: &Sorted, longest: u64, now: Ticks)
        ensures items { self.new.items ≡ filter (λ c. not (is_gone_in cells.now longest now c)) self.old.items }
        ensures room { self.new.room ≡ self.old.room }
    {
        sweep(&mut self.places, cells, longest, now);
    }

    /// Adds a change at the end.
    pub fn push(&mut self, change: Change)
        requires { 0 < self.old.room }
        ensures items { self.new.items ≡ self.old.items ++ change ∷ [] }
        ensures room { self.old.room ≤ self.new.room + 1 }
    {
        self.add(change, None, 0);
    }

    /// Adds a change at the end. Those of its instance that are then past the depth are forgotten, where the counter is
    /// raised to this.
    pub fn add(&mut self, change: Change, depth: Option<u32>, count: u32)
        requires room { 0 < self.old.room }
        requires sinks { Sinks change.sample.key depth count (self.old.items ++ change ∷ []) }
        ensures items { self.new.items ≡ filter (λ c. not (is_change_of change.sample.key c && is_past depth count c)) (self.old.items ++ change ∷ []) }
        ensures room { self.old.room ≤ self.new.room + 1 }
    {
        let key = change.key();
        let ends = ends_of(&self.ends, key);
        let last = self.places.len();
        let first = link(&mut self.places, first_of(ends), last_of(ends), last);
        push_within(&mut self.places, Place::of(change));
        let first = empty_past(&mut self.places, key, Some(first), last, depth, count);
        note_ends(&mut self.ends, key, Ends { first, last });
    }
}

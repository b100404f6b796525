//! The open sets of all writers.

ghost use Rattle.std.specs.Prelude.{◌≡◌, ℕ, Some, None, List, All, length, map, unwrap_or, IfOk, slice_get};
ghost use Rattle.std.proofs.Math.ListN.{set as set_at};
ghost use Rattle.dur_base.specs.declared.sample.Sample.{Sample};
ghost use Rattle.dur_base.specs.declared.entry.Entry.TheVariants.{Took as Takes, Skip as Skips, Lost as Loses};
ghost use Rattle.dur_view.specs.declared.data.KeptWriter.{KeptWriter as Line};
ghost use Rattle.dur_view.specs.declared.data.Held.{Held as Member};
ghost use Rattle.dur_view.specs.History.{History, Start, ◌▸◌, start, next, held};
ghost use Rattle.dur_view.specs.IsSound.{IsSound, IsHistory, FollowEachOther};
ghost use Rattle.dur_sets.specs.Open.{opened};
ghost use Rattle.dur_sets.specs.Tells.{Tells};
ghost use Rattle.dur_sets.specs.Stands.{StandFor};

use crate::effect::{Effect, Open, effect_of, open_after};
use dur_base::{Number, OutOfMemory, SetMark};
use dur_view::{Held, KeptWriter, View};
use std::alloc::Global;

/// The open coherent sets (DDS 2.2.3.6) of all writers of a history, by the place of the writer in its start, from 0.
/// No call but `new` takes memory.
#[derive(Drop)]
pub struct Sets {
    sets: Vec<Option<Open>>,
}

impl Sets {
    /// The open sets of a view.
    pub fn new(alloc: Global, view: &View) -> Result<Sets, OutOfMemory>
        requires { IsSound view.now }
        ensures { IfOk result (λ s. StandFor s (Start view.now)) }
    {
        let sets = open_sets(alloc, view.writers.as_slice())?;
        Ok(Sets { sets })
    }

    /// What becomes of the next sample of the writer at a place, of its next number and this mark, and of its open set.
    /// Nothing is changed.
    pub fn effect(&self, writer: u32, number: Number, set: SetMark) -> Effect
        ensures { (h : History) (line : Line) → StandFor self.now h → IsHistory h → slice_get (start h).writers writer ≡ Some line → number ≡ next h line.guid → Tells (held h line.guid) number set result }
    {
        effect_of(&open_at(&self.sets, writer), number, &set)
    }

    /// Carries that out, and answers it.
    pub fn step(&mut self, writer: u32, number: Number, set: SetMark) -> Effect
        ensures tells { (h : History) (line : Line) → StandFor self.old h → IsHistory h → slice_get (start h).writers writer ≡ Some line → number ≡ next h line.guid → Tells (held h line.guid) number set result }
        ensures stands { (h : History) (line : Line) (moment : ℕ) (s : Sample) → StandFor self.old h → IsHistory h → slice_get (start h).writers writer ≡ Some line → number ≡ next h line.guid → s.set ≡ set → StandFor self.new (h ▸ Takes moment line.guid number s) }
    {
        let kept = open_at(&self.sets, writer);
        put(&mut self.sets, writer, open_after(&kept, number, &set));
        effect_of(&kept, number, &set)
    }

    /// The writer at a place is lost: its open set is broken. The answer is how many members that held.
    pub fn lost(&mut self, writer: u32) -> usize
        ensures count { (h : History) (line : Line) → StandFor self.old h → slice_get (start h).writers writer ≡ Some line → result ≡ length (held h line.guid) }
        ensures stands { (h : History) (line : Line) (moment : ℕ) → StandFor self.old h → IsHistory h → slice_get (start h).writers writer ≡ Some line → StandFor self.new (h ▸ Loses moment line.guid) }
    {
        let count = count_of(&open_at(&self.sets, writer));
        put(&mut self.sets, writer, None);
        count
    }

    /// Numbers of the writer at a place are passed over: its open set is broken. The answer is how many members that
    /// held.
    pub fn skip(&mut self, writer: u32) -> usize
        ensures count { (h : History) (line : Line) → StandFor self.old h → slice_get (start h).writers writer ≡ Some line → result ≡ length (held h line.guid) }
        ensures stands { (h : History) (line : Line) (moment from to : ℕ) → StandFor self.old h → IsHistory h → slice_get (start h).writers writer ≡ Some line → StandFor self.new (h ▸ Skips moment line.guid from to) }
    {
        let count = count_of(&open_at(&self.sets, writer));
        put(&mut self.sets, writer, None);
        count
    }
}

// The open set of the writer at a place.
fn open_at(sets: &[Option<Open>], writer: u32) -> Option<Open>
    ensures { result ≡ unwrap_or (slice_get sets.now writer) None }
{
    match sets.get(writer as usize) {
        Some(Some(kept)) => Some(Open {
            first: kept.first,
            last: kept.last,
        }),
        _ => None,
    }
}

// The writer at a place, if there is one, has this open set.
fn put(sets: &mut Vec<Option<Open>>, writer: u32, kept: Option<Open>)
    ensures { sets.new.items ≡ set_at sets.old.items writer kept }
{
    let place = writer as usize;
    if place < sets.len() {
        sets[place] = kept;
    }
}

// How many members the set has.
fn count_of(kept: &Option<Open>) -> usize
    ensures { (members : List Member) → kept.now ≡ opened members → result ≡ length members }
{
    match kept {
        Some(kept) => kept.count(),
        None => 0,
    }
}

// The set of these members.
fn open_of(members: &[Held], next: Number) -> Option<Open>
    requires { FollowEachOther next members.now }
    ensures { result ≡ opened members.now }
{
    match (members.first(), members.last()) {
        (Some(first), Some(last)) => Some(Open {
            first: first.number,
            last: last.number,
        }),
        _ => None,
    }
}

// The open sets of the writers.
fn open_sets(alloc: Global, writers: &[KeptWriter]) -> Result<Vec<Option<Open>>, OutOfMemory>
    requires { All (λ line. FollowEachOther line.next line.held) writers.now }
    ensures { IfOk result (λ sets. sets.items ≡ map (λ line. opened line.held) writers.now) }
{
    let mut sets = Vec::new(alloc);
    for line in writers {
        match sets.push(open_of(line.held.as_slice(), line.next)) {
            Ok(()) => {}
            Err(_) => return Err(OutOfMemory),
        }
    }
    Ok(sets)
}

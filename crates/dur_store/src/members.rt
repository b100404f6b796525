//! The held members of a writer, whose samples lie side by side.

ghost use Rattle.std.specs.Prelude.{◌≡◌, ◌+◌, ◌^◌, ◌<◌, ◌≤◌, ◌++◌, [], ◌∷◌, None, Ok, length, map, reverse as reversed, option_to_list, vec_len, vec_capacity, IfOk, IfErr, IsOk, OnOk};
ghost use Rattle.dur_sets.specs.Tells.{closed, if_now};
ghost use Rattle.dur_store.specs.Taking.{IsWhole};
ghost use Rattle.dur_store.specs.Members.{members_of, IsPassed};

use dur_base::{List, Number, OutOfMemory, Sample, Ticks};
use dur_instances::Instances;
use dur_sets::{Before, Effect, Now};
use dur_view::{Held, Limit};
use std::alloc::Global;
use std::marker::Model;
use std::slice::from_ref;

/// When a member was taken in, and under which number.
#[derive(Clone, Copy, Drop)]
pub struct Taken {
    pub number: Number,
    pub moment: Ticks,
}

/// The members of an open coherent set (DDS 2.2.3.6), in the order of their numbers.
#[derive(Drop)]
pub struct Members {
    samples: Vec<Sample>,
    taken: Vec<Taken>,
}

impl Model for Members {
    ghost use Rattle.std.specs.Prelude.{◌≡◌, ◌-◌, min, vec_len, vec_capacity};
    ghost use Rattle.dur_store.specs.Members.{MembersNow, members_code, members_of};

    ghost Value = { MembersNow };

    ghost coded = { members_code };

    ghost view = { λ s. record { items = members_of s.samples.items s.taken.items; room = min (vec_capacity s.samples - vec_len s.samples) (vec_capacity s.taken - vec_len s.taken) } };

    ghost invariant = { λ s. vec_len s.taken ≡ vec_len s.samples };
}

// Adds an item at the end, where there is room for it.
fn push_within<T: Drop>(items: &mut Vec<T>, item: T)
    requires { vec_len items.old < vec_capacity items.old }
    ensures items { items.new.items ≡ items.old.items ++ item ∷ [] }
    ensures len { vec_len items.new ≡ vec_len items.old + 1 }
    ensures capacity { vec_capacity items.old ≤ vec_capacity items.new }
{
    match items.push(item) {
        Ok(()) => {}
        Err(_) => {}
    }
}

// Copies of the members.
fn listed(alloc: Global, samples: &[Sample], taken: &[Taken]) -> Result<List<Held>, OutOfMemory>
    requires { length taken.now ≡ length samples.now }
    ensures { IfOk result (λ l. l ≡ members_of samples.now taken.now) }
{
    let mut members = List::new(alloc);
    for (at, sample) in samples.iter().enumerate() {
        let taken = taken[at];
        members.push(Held {
            number: taken.number,
            moment: taken.moment,
            sample: sample.copy()?,
        })?;
    }
    Ok(members)
}

// The first limit that the topic passes when these samples took effect, and this one after them. It is handed back.
fn would_with(
    samples: &mut Vec<Sample>,
    topic: &Instances,
    moment: Ticks,
    sample: Sample,
) -> Result<(Option<Limit>, Sample), Sample>
    requires { topic.now.last ≤ moment }
    ensures limit { IfOk result (λ a.
        IsPassed topic.now moment (samples.old.items ++ sample ∷ []) a.0) }
    ensures ok { IfOk result (λ a. a.1 ≡ sample) }
    ensures err { IfErr result (λ back. back ≡ sample) }
    ensures items { samples.new.items ≡ samples.old.items }
    ensures len { vec_len samples.new ≡ vec_len samples.old }
    ensures capacity { vec_capacity samples.old ≤ vec_capacity samples.new }
    ensures enough { vec_len samples.old < vec_capacity samples.old → IsOk result }
{
    let last = samples.len();
    match samples.push(sample) {
        Ok(()) => {}
        Err(refused) => return Err(refused.value),
    }
    let limit = topic.would(samples.as_slice(), moment);
    Ok((limit, samples.remove(last)))
}

impl Members {
    /// None yet.
    pub fn new(alloc: Global) -> Members
        ensures items { result.items ≡ [] }
    {
        Members {
            samples: Vec::new(alloc),
            taken: Vec::new(alloc),
        }
    }

    /// The members of a list.
    pub fn of_list(alloc: Global, list: List<Held>) -> Result<Members, OutOfMemory>
        ensures { IfOk result (λ m. m.items ≡ list) }
    {
        let mut members = Members::new(alloc);
        for member in list.into_vec() {
            members.reserve(1)?;
            members.push(member);
        }
        Ok(members)
    }

    /// How many there are.
    pub fn len(&self) -> usize
        ensures count { result ≡ length self.now.items }
        ensures bound { result < 2 ^ 63 }
    {
        self.samples.len()
    }

    /// Copies of them.
    pub fn list(&self, alloc: Global) -> Result<List<Held>, OutOfMemory>
        ensures { IfOk result (λ l. l ≡ self.now.items) }
    {
        listed(alloc, &self.samples, &self.taken)
    }

    /// Makes places for so many more. Where there is room for them there is no want of memory.
    pub fn reserve(&mut self, more: usize) -> Result<(), OutOfMemory>
        ensures items { self.new.items ≡ self.old.items }
        ensures room { OnOk result (more ≤ self.new.room) }
        ensures enough { more ≤ self.old.room → result ≡ Ok tt }
        ensures stays { self.old.room ≤ self.new.room }
    {
        match self.samples.reserve(more) {
            Ok(()) => {}
            Err(_) => return Err(OutOfMemory),
        }
        match self.taken.reserve(more) {
            Ok(()) => Ok(()),
            Err(_) => Err(OutOfMemory),
        }
    }

    /// Adds a member at the end.
    pub fn push(&mut self, member: Held)
        requires { 0 < self.old.room }
        ensures items { self.new.items ≡ self.old.items ++ member ∷ [] }
        ensures room { self.old.room ≤ self.new.room + 1 }
    {
        let taken = Taken {
            number: member.number,
            moment: member.moment,
        };
        push_within(&mut self.samples, member.sample);
        push_within(&mut self.taken, taken);
    }

    /// Takes the last one away.
    pub fn pop(&mut self) -> Option<Held>
        ensures items { self.old.items ≡ self.new.items ++ option_to_list result }
        ensures none { result ≡ None → self.old.items ≡ [] }
        ensures room { self.old.room ≤ self.new.room }
    {
        let Some(sample) = self.samples.pop() else {
            return None;
        };
        match self.taken.pop() {
            Some(taken) => Some(Held {
                number: taken.number,
                moment: taken.moment,
                sample,
            }),
            None => None,
        }
    }

    /// The last one is then the first.
    pub fn reverse(&mut self)
        ensures items { self.new.items ≡ reversed self.old.items }
        ensures room { self.new.room ≡ self.old.room }
    {
        self.samples.reverse();
        self.taken.reverse();
    }

    /// None is held then.
    pub fn clear(&mut self)
        ensures items { self.new.items ≡ [] }
        ensures room { self.old.room ≤ self.new.room }
    {
        self.samples.clear();
        self.taken.clear();
    }

    /// The first limit that the topic passes when those members took effect that a sample closes, and then the sample
    /// itself where it takes effect. It is handed back.
    pub fn would(
        &mut self,
        topic: &Instances,
        moment: Ticks,
        effect: &Effect,
        sample: Sample,
    ) -> Result<(Option<Limit>, Sample), Sample>
        requires { topic.now.last ≤ moment }
        ensures limit { IfOk result (λ a. IsWhole effect.entry.now.before self.old.items
            → IsPassed topic.now moment
            (map (λ x. x.sample) (closed effect.entry.now.before self.old.items)
            ++ if_now effect.entry.now.now sample) a.0) }
        ensures ok { IfOk result (λ a. a.1 ≡ sample) }
        ensures err { IfErr result (λ back. back ≡ sample) }
        ensures items { self.new.items ≡ self.old.items }
        ensures room { self.old.room ≤ self.new.room }
        ensures enough { 0 < self.old.room → IsOk result }
    {
        match (&effect.before, &effect.now) {
            (Before::Close(_), Now::Now) => { would_with(&mut self.samples, topic, moment, sample) }
            (Before::Close(_), Now::Hold) => {
                Ok((topic.would(self.samples.as_slice(), moment), sample))
            }
            (Before::Close(_), Now::Drop) => {
                Ok((topic.would(self.samples.as_slice(), moment), sample))
            }
            (Before::Nothing, Now::Now) => Ok((topic.would(from_ref(&sample), moment), sample)),
            (Before::Nothing, Now::Hold) => Ok((topic.would(&[], moment), sample)),
            (Before::Nothing, Now::Drop) => Ok((topic.would(&[], moment), sample)),
        }
    }
}

//! The samples that a late reader handled, and how many of them it hands out.

ghost use Rattle.std.specs.Prelude.{◌≡◌, ◌+◌, ◌-◌, ◌<◌, ◌≤◌, ◌++◌, ◌∷◌, [], List, length, map, ◌||◌, if◌then◌else◌, is_some, OnOk, OnErr, vec_len, vec_capacity};
ghost use Rattle.dur_base.specs.declared.sample.Sample.{Sample};
ghost use Rattle.rel_writer.specs.Sets.{handed, any_marker, is_marker, is_same_set, marks, set_of};
ghost use Rattle.rel_writer.specs.Standing.{Holds, replayed};

use crate::choices::{either, pick};
use dur_base::{Act, Guid, Number, OutOfMemory, Sample, SetMark};
use std::alloc::Global;

/// One change of a replay, as the late reader got it.
#[derive(Drop)]
pub struct Replayed {
    /// Who wrote it first.
    pub original: Guid,
    /// As which number.
    pub number: Number,
    /// The sample. A set's number is here one of the replay.
    pub sample: Sample,
}

/// The samples that were handled, in the order of their numbers. Those of a set that may go on lie
/// behind those that are handed out, so that nothing moves once they are.
#[derive(Drop)]
pub struct Taken {
    // All but markers.
    samples: Vec<Replayed>,
    // So many of them are handed out: the others are of a set that has not ended.
    closed: usize,
    // The set of the last one that was handled.
    set: Option<Number>,
    // Whether one of them was a marker.
    done: bool,
}

/// Whether it is the act of a marker.
fn marks(act: Act) -> bool
    ensures { result ≡ marks act }
{
    match act {
        Act::Marker => true,
        _ => false,
    }
}

/// The set that a sample is of.
fn set_of(sample: &Sample) -> Option<Number>
    ensures { result ≡ set_of sample.now }
{
    if marks(sample.act) {
        return None;
    }
    match sample.set {
        SetMark::Of(first) => Some(first),
        SetMark::NoSet | SetMark::End => None,
    }
}

/// Whether both are of one set.
fn is_same_set(a: Option<Number>, b: Option<Number>) -> bool
    ensures { result ≡ is_same_set a b }
{
    match (a, b) {
        (Some(a), Some(b)) => a == b,
        _ => false,
    }
}

fn count(samples: &Vec<Replayed>) -> usize
    ensures { result ≡ length samples.now.items }
{
    samples.len()
}

/// A sample with its original. Each that is handled has one.
fn with_original(sample: Sample) -> Replayed
    ensures { result ≡ replayed sample }
{
    let (original, number) = sample.original.unwrap_or((Guid([0; 16]), Number::one()));
    Replayed {
        original,
        number,
        sample,
    }
}

/// Adds a sample that is no marker. There is room for it.
fn keep(samples: &mut Vec<Replayed>, sample: Sample)
    requires { vec_len samples.old < vec_capacity samples.old }
    ensures items { samples.new.items ≡ (if is_marker sample then samples.old.items
        else samples.old.items ++ replayed sample ∷ []) }
    ensures room { vec_capacity samples.old ≤ vec_capacity samples.new }
    ensures len { vec_len samples.new ≤ vec_len samples.old + 1 }
{
    if marks(sample.act) {
        return;
    }
    match samples.push(with_original(sample)) {
        Ok(()) => {}
        Err(_) => unreachable!(),
    }
}

impl Taken {
    /// Nothing yet.
    pub fn new(alloc: Global) -> Taken
        ensures { Holds result [] }
    {
        Taken {
            samples: Vec::new(alloc),
            closed: 0,
            set: None,
            done: false,
        }
    }

    /// The memory that it takes its room from.
    pub fn alloc(&self) -> Global {
        *self.samples.allocator()
    }

    /// Makes room for so many samples more.
    pub fn reserve(&mut self, more: usize) -> Result<(), OutOfMemory>
        ensures held { (xs : List Sample) → Holds self.old xs → Holds self.new xs }
        ensures ok { OnOk result
            (vec_len self.new.samples + more ≤ vec_capacity self.new.samples) }
    {
        self.samples.reserve(more)?;
        Ok(())
    }

    /// For how many samples there is room.
    pub fn room(&self) -> usize
        ensures { result ≡ vec_capacity self.now.samples - vec_len self.now.samples }
    {
        self.samples.capacity() - self.samples.len()
    }

    /// What is handed out.
    pub fn handed(&self) -> &[Replayed]
        ensures { (xs : List Sample) → Holds self.now xs → result.now ≡ map replayed (handed xs) }
    {
        let samples = self.samples.as_slice();
        samples.split_at(self.closed.min(samples.len())).0
    }

    /// Whether a marker was handled.
    pub fn done(&self) -> bool
        ensures { (xs : List Sample) → Holds self.now xs → result ≡ any_marker xs }
    {
        self.done
    }

    /// One sample more was handled. What is no member of the set of the sample before it ends that
    /// set.
    pub fn add(&mut self, sample: Sample)
        requires { vec_len self.old.samples < vec_capacity self.old.samples }
        ensures held { (xs : List Sample) → Holds self.old xs → Holds self.new (xs ++ sample ∷ []) }
        ensures room { vec_capacity self.old.samples ≤ vec_capacity self.new.samples }
        ensures len { vec_len self.new.samples ≤ vec_len self.old.samples + 1 }
    {
        let set = set_of(&sample);
        let before = pick(
            is_same_set(self.set, set),
            self.closed,
            count(&self.samples),
        );
        self.set = set;
        self.done = either(self.done, marks(sample.act));
        keep(&mut self.samples, sample);
        self.closed = pick(set.is_some(), before, count(&self.samples));
    }
}

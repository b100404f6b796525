//! What becomes of a sample, and of the set that was open before it.

ghost use Rattle.std.specs.Prelude.{◌≡◌, ◌+◌, ◌-◌};
ghost use Rattle.dur_sets.specs.Open.{goes_on_with};
ghost use Rattle.dur_sets.specs.Answers.{before_of, now_of, answer_of, open_by};

use dur_base::{Number, SetMark};

/// What becomes of a sample, and of the set that was open before it (DDS 2.2.3.6).
#[derive(Clone, Copy, Debug, PartialEq, Eq, Drop)]
pub struct Effect {
    /// What it does to the open set of its writer.
    pub before: Before,
    /// What becomes of the sample itself.
    pub now: Now,
}

/// What a sample does to the open set of its writer.
#[derive(Clone, Copy, Debug, PartialEq, Eq, Drop)]
pub enum Before {
    /// Nothing: none is open, or the sample is one more member of it.
    Nothing,
    /// It closes the set: so many held members take effect before the sample.
    Close(usize),
}

/// What becomes of a sample itself.
#[derive(Clone, Copy, Debug, PartialEq, Eq, Drop)]
pub enum Now {
    /// It takes effect.
    Now,
    /// It is held, as a member of the set that is then open.
    Hold,
    /// It never takes effect: its mark names a set of which it is no member.
    Drop,
}

/// The open set of a writer: the numbers of its first and its last member.
#[derive(Drop)]
pub struct Open {
    pub first: Number,
    pub last: Number,
}

impl Open {
    /// How many members it has.
    pub fn count(&self) -> usize
        ensures { result ≡ self.now.last + 1 - self.now.first }
    {
        (self.last.get() + 1).saturating_sub(self.first.get()) as usize
    }
}

/// Whether a sample is one more member of the open set.
fn goes_on(kept: &Option<Open>, mark: &SetMark) -> bool
    ensures { result ≡ goes_on_with kept.now mark.now }
{
    match (kept, mark) {
        (Some(kept), SetMark::Of(first)) => *first == kept.first,
        _ => false,
    }
}

// What a sample does to the open set that it goes on with, or not.
fn before_of(kept: &Option<Open>, goes_on: bool) -> Before
    ensures { result ≡ before_of kept.now goes_on }
{
    match kept {
        Some(kept) => if goes_on {
            Before::Nothing
        } else {
            Before::Close(kept.count())
        },
        None => Before::Nothing,
    }
}

// What becomes of a sample that goes on with the open set, or not.
fn now_of(number: Number, mark: &SetMark, goes_on: bool) -> Now
    ensures { result ≡ now_of number mark.now goes_on }
{
    match mark {
        SetMark::NoSet | SetMark::End => Now::Now,
        SetMark::Of(first) => if *first == number || goes_on {
            Now::Hold
        } else {
            Now::Drop
        },
    }
}

/// What becomes of the writer's next sample, of this number and mark, where this set is open.
pub fn effect_of(kept: &Option<Open>, number: Number, mark: &SetMark) -> Effect
    ensures { result ≡ answer_of kept.now number mark.now }
{
    let goes_on = goes_on(kept, mark);
    Effect {
        before: before_of(kept, goes_on),
        now: now_of(number, mark, goes_on),
    }
}

/// The set that is open after that sample.
pub fn open_after(kept: &Option<Open>, number: Number, mark: &SetMark) -> Option<Open>
    ensures { result ≡ open_by kept.now number mark.now }
{
    let goes_on = goes_on(kept, mark);
    match mark {
        SetMark::NoSet | SetMark::End => None,
        SetMark::Of(first) => if *first == number {
            Some(Open {
                first: number,
                last: number,
            })
        } else if goes_on {
            Some(Open {
                first: *first,
                last: number,
            })
        } else {
            None
        },
    }
}

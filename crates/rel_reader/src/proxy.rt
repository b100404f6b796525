//! The reader's proxy of one writer (DDSI-RTPS 8.4.10.4): its window of 256 numbers, and what each message tells of them.

ghost use Rattle.std.specs.Prelude.{◌≡◌, ℕ, ◌+◌, ◌-◌, ◌<◌, ◌≤◌, ◌^◌, ◌==◌, ◌&&◌, ◌||◌, ◌↔◌, IfOk, IsTrue, IsSome, IfSome, Some, None, length, not, nat_lt, nat_le, true, false};
ghost use Rattle.rel_reader.specs.Places.{place_at};
ghost use Rattle.rel_reader.specs.Knowledge.{is_irrelevant, is_unknown, is_with, or_else};
ghost use Rattle.rel_reader.specs.Stories.{Story, Begin, ◌▸◌, Data, Gap, Beat, Handled, Refused, next};
ghost use Rattle.rel_reader.specs.KnownNumbers.{known};
ghost use Rattle.rel_reader.specs.Skips.{IsSkip};
ghost use Rattle.rel_reader.specs.MissingNumbers.{is_missing};
ghost use Rattle.rel_reader.specs.declared.known.Known.TheVariants.{Unknown, Irrelevant, With};
ghost use Rattle.rel_reader.specs.Windows.{known_in, Fits, Shows, HasSample};
ghost use Rattle.rel_reader.specs.Steps.{with_floor, with_known, is_open, said, said_to, said_named, said_one, past_next, said_between};
ghost use Rattle.dur_base.specs.NumberSets.{names};

use crate::{Known, Ready, ring};
use dur_base::{Bits, Number, OutOfMemory, Sample};
use std::alloc::Global;
use std::marker::Model;

/// The first number of which nothing is ever known.
const LAST: u64 = 0x7fff_ffff_ffff_ffff;

/// What a reader knows of one writer's numbers from the next one on: a window of 256 numbers, and a floor below which all
/// others are irrelevant. Contracts tell it by the story of all that came since `new` (`Fits`). Once it is made, no call
/// takes memory.
#[derive(Drop)]
pub struct Proxy {
    // The next number.
    next: u64,
    // Numbers below it are irrelevant where no place speaks of them.
    floor: u64,
    // No place is filled for a number from this one on, so that no scan goes farther.
    top: u64,
    // The next number was refused, and nothing came of it since: it is not known in spite of the floor.
    refused: bool,
    // A ring with a place for each number of the window.
    places: Vec<Known>,
}

impl Model for Proxy {
    ghost use Rattle.rel_reader.specs.Windows.{Window, IsWindow, coded_window};

    ghost Value = { Window };

    ghost coded = { coded_window };

    ghost view = { λ p. record { next = p.next; floor = p.floor; top = p.top; refused = p.refused; places = p.places.items } };

    ghost invariant = { λ p. IsWindow (record { next = p.next; floor = p.floor; top = p.top; refused = p.refused; places = p.places.items }) };
}

/// Puts the number `base + i` into a set, above all others, if it is missing.
fn push_if(set: &mut Bits, i: u32, missing: bool)
    requires above { set.old.count ≤ i }
    requires within { i < 256 }
    ensures base { set.new.base ≡ set.old.base }
    ensures count { set.new.count ≤ i + 1 }
    ensures names { (k : ℕ) → names set.new k ≡ (names set.old k || (missing && (k == set.old.base + i))) }
{
    if missing {
        set.push(i);
    }
}

impl Proxy {
    /// The proxy of a writer of whose numbers, from this one on, nothing is known. It takes the window's memory, and
    /// answers `OutOfMemory` only where there is none.
    pub fn new(alloc: Global, next: Number) -> Result<Proxy, OutOfMemory>
        ensures { IfOk result (λ p. Fits p (Begin next)) }
    {
        let places = ring::empty(alloc)?;
        let next = next.get();
        Ok(Proxy {
            next,
            floor: next,
            top: next,
            refused: false,
            places,
        })
    }

    /// The next number: the first one that is not handled.
    pub fn next(&self) -> Number
        ensures { result ≡ self.now.next }
    {
        Number::at(self.next)
    }

    /// A DATA came with this number. None is an unreadable sample. It tells nothing where the number is not in the window or
    /// is known already (DDSI-RTPS 8.4.10.4).
    pub fn on_data(&mut self, number: Number, sample: Option<Sample>)
        ensures { (h : Story) → Fits self.old h → Fits self.new (h ▸ Data number sample) }
    {
        let known = Known::read(sample);
        self.learn(number.get(), known);
    }

    /// A HEARTBEAT came: all numbers below its first available one are irrelevant (DDSI-RTPS 8.3.8.6).
    pub fn on_beat(&mut self, first: Number)
        ensures { (h : Story) → Fits self.old h → Fits self.new (h ▸ Beat first) }
    {
        self.raise(first.get());
    }

    /// A GAP came: the numbers from its start to below the set's base, and those of the set, are irrelevant (DDSI-RTPS
    /// 8.3.8.4). They count where they are in the window, and those below its base at once where its start is not above the
    /// next number.
    pub fn on_gap(&mut self, start: Number, set: &Bits)
        ensures { (h : Story) → Fits self.old h → Fits self.new (h ▸ Gap start set.now) }
    {
        let start = start.get();
        let base = set.base().get();
        self.pass_below(start, base);
        self.pass_named(set);
    }

    /// What a GAP tells of the numbers below its base.
    fn pass_below(&mut self, start: u64, base: u64)
        requires { base < 2 ^ 63 }
        ensures { (n : ℕ) (f : ℕ → Known) → Shows self.old n f → Shows self.new n (λ k. or_else (f k) (said_to n start base k)) }
    {
        if start <= self.next {
            self.raise(base);
        } else {
            self.pass_between(start, base);
        }
    }

    /// Those of the numbers from one up to below another that are in the window are irrelevant.
    fn pass_between(&mut self, from: u64, to: u64)
        requires { to < 2 ^ 63 }
        ensures { (n : ℕ) (f : ℕ → Known) → Shows self.old n f
            → Shows self.new n (λ k. or_else (f k) (said_between n from to k)) }
    {
        let end = from.max(to.min(self.next + 256));
        for k in from..end {
            self.learn(k, Known::Irrelevant);
        }
    }

    /// What a GAP tells of the numbers of its set.
    fn pass_named(&mut self, set: &Bits)
        ensures { (n : ℕ) (f : ℕ → Known) → Shows self.old n f → Shows self.new n (λ k. or_else (f k) (said_named n set.now set.now.count k)) }
    {
        for i in 0..set.count() {
            self.pass_one(set, i);
        }
    }

    /// What one bit of a GAP's set tells.
    fn pass_one(&mut self, set: &Bits, i: u32)
        requires { i < 256 }
        ensures { (n : ℕ) (f : ℕ → Known) → Shows self.old n f → Shows self.new n (λ k. or_else (f k) (said_one n set.now i k)) }
    {
        if set.has(i) {
            let base = set.base().get();
            self.learn(base + i as u64, Known::Irrelevant);
        }
    }

    /// All below a number is irrelevant.
    fn raise(&mut self, first: u64)
        requires { first < 2 ^ 63 }
        ensures { self.new ≡ with_floor self.old first }
    {
        self.refused &= first <= self.next;
        self.floor = self.floor.max(first);
    }

    /// Takes what is told of a number, if it is in the window and nothing is known of it.
    fn learn(&mut self, number: u64, known: Known)
        requires { is_unknown known ≡ false }
        ensures { (n : ℕ) (f : ℕ → Known) → Shows self.old n f → Shows self.new n (λ k. or_else (f k) (said n number known k)) }
    {
        if self.is_open(number) {
            self.write(number, known);
        }
    }

    /// Writes what is now known of a number of the window.
    fn write(&mut self, number: u64, known: Known)
        requires { (self.old.next ≤ number) × (number < self.old.next + 256) × (number < 2 ^ 63 - 1) }
        ensures after { self.new ≡ with_known self.old number known }
        ensures size { length self.old.places ≡ 256 }
    {
        self.refused &= number != self.next;
        self.top = self.top.max(number + 1);
        let _before = ring::put(self.places.as_mut_slice(), number, known);
    }

    /// Whether a number is in the window and nothing is known of it.
    fn is_open(&self, number: u64) -> bool
        ensures value { result ≡ is_open self.now number }
        ensures range { IsTrue result → (self.now.next ≤ number) × (number < self.now.next + 256) × (number < 2 ^ 63 - 1) }
    {
        self.next <= number && number < self.next + 256 && number < LAST && self.is_unknown(number)
    }

    /// Whether the floor makes a number irrelevant.
    fn is_below_floor(&self, number: u64) -> bool
        ensures { result ≡ (nat_lt number self.now.floor && not (self.now.refused && (number == self.now.next))) }
    {
        number < self.floor && !(self.refused && number == self.next)
    }

    /// Whether nothing is known of a number from next on.
    fn is_unknown(&self, number: u64) -> bool
        ensures { result ≡ is_unknown (known_in self.now number) }
    {
        if number < self.next + 256 {
            let kept = ring::place(self.places.as_slice(), number);
            if !kept.is_unknown() {
                return false;
            }
        }
        !self.is_below_floor(number)
    }

    /// Whether a number from next on is known without a sample.
    fn is_irrelevant(&self, number: u64) -> bool
        ensures { result ≡ is_irrelevant (known_in self.now number) }
    {
        if number < self.next + 256 {
            let kept = ring::place(self.places.as_slice(), number);
            if !kept.is_unknown() {
                return kept.is_irrelevant();
            }
        }
        self.is_below_floor(number)
    }

    /// What stands at the next number. `Nothing` comes exactly where it is not known. A skip is the longest range of
    /// irrelevant numbers from the next one on, and ends below 2^63 - 1 where it begins there.
    pub fn ready(&self) -> Ready
        ensures sample { (h : Story) → Fits self.now h → ((result ≡ Ready.Sample) ↔ (is_with (known h (next h)) ≡ true)) }
        ensures skip { (h : Story) → Fits self.now h → (from to : ℕ) → result ≡ Ready.Skip from to → (from ≡ next h) × IsSkip h (to + 1) }
        ensures nothing { (h : Story) → Fits self.now h → ((result ≡ Ready.Nothing) ↔ (known h (next h) ≡ Unknown)) }
        ensures has { (result ≡ Ready.Sample) ↔ HasSample self.now }
        ensures some { (result ≡ Ready.Nothing)
            ↔ (is_unknown (known_in self.now self.now.next) ≡ true) }
        ensures short { (from to : ℕ) → result ≡ Ready.Skip from to
            → self.now.next < 2 ^ 63 - 1 → to < 2 ^ 63 - 1 }
    {
        if self.is_unknown(self.next) {
            Ready::Nothing
        } else if self.is_irrelevant(self.next) {
            let end = self.end_of_skip();
            Ready::Skip(Number::at(self.next), Number::at(end - 1))
        } else {
            Ready::Sample
        }
    }

    /// The first number from next on that is not irrelevant. It looks at the places below the top alone.
    fn end_of_skip(&self) -> u64
        requires { is_irrelevant (known_in self.now self.now.next) ≡ true }
        ensures range { (self.now.next < result) × (result ≤ 2 ^ 63) }
        ensures low { self.now.next < 2 ^ 63 - 1 → result < 2 ^ 63 }
        ensures each { (k : ℕ) → self.now.next ≤ k → k < result → known_in self.now k ≡ Irrelevant }
        ensures ends { is_irrelevant (known_in self.now result) ≡ false }
    {
        let limit = (self.next + 256).min(self.top);
        let mut end = self.next + 1;
        while end < limit {
            if !self.is_irrelevant(end) {
                return end;
            }
            end += 1;
        }
        end.max(self.floor)
    }

    /// The sample at the next number, under the condition that `ready` is `Sample`.
    pub fn sample(&self) -> &Sample
        requires { HasSample self.now }
        ensures kept { known_in self.now self.now.next ≡ With result.now }
        ensures sample { (h : Story) → Fits self.now h → known h (next h) ≡ With result.now }
    {
        match ring::place(self.places.as_slice(), self.next) {
            Known::With(sample) => sample,
            _ => unreachable!(),
        }
    }

    /// Moves past what is ready, a sample or a whole skip, and hands back the sample: the next number rises. Where
    /// nothing is ready it changes nothing and answers None.
    pub fn handled(&mut self) -> Option<Sample>
        ensures sample { (h : Story) (s : Sample) → Fits self.old h → known h (next h) ≡ With s → (result ≡ Some s) × Fits self.new (h ▸ Handled (next h + 1)) }
        ensures skip { (h : Story) → Fits self.old h → known h (next h) ≡ Irrelevant → (result ≡ None) × ((to : ℕ) × (IsSkip h to × Fits self.new (h ▸ Handled to))) }
        ensures nothing { (h : Story) → Fits self.old h → known h (next h) ≡ Unknown → (result ≡ None) × Fits self.new h }
        ensures rises { is_unknown (known_in self.old self.old.next) ≡ false
            → self.old.next < 2 ^ 63 - 1
            → (self.old.next < self.new.next) × (self.new.next < 2 ^ 63) }
    {
        if self.next >= LAST || self.is_unknown(self.next) {
            return None;
        }
        if self.is_irrelevant(self.next) {
            let end = self.end_of_skip();
            self.move_to(end);
            return None;
        }
        self.pull()
    }

    /// Moves past irrelevant numbers.
    fn move_to(&mut self, to: u64)
        requires rises { self.old.next < to }
        requires small { to < 2 ^ 63 }
        ensures shows { (n : ℕ) (f : ℕ → Known) → Shows self.old n f → Shows self.new to f }
        ensures next { self.new.next ≡ to }
    {
        ring::clear(self.places.as_mut_slice(), self.next, to, self.top);
        self.next = to;
        self.refused = false;
    }

    /// Moves past a sample, and hands it back.
    fn pull(&mut self) -> Option<Sample>
        requires small { self.old.next < 2 ^ 63 - 1 }
        requires has { HasSample self.old }
        ensures value { IfSome result (λ s. known_in self.old self.old.next ≡ With s) }
        ensures some { IsSome result }
        ensures after { self.new ≡ past_next self.old }
        ensures size { length self.old.places ≡ 256 }
    {
        let kept = ring::put(self.places.as_mut_slice(), self.next, Known::Unknown);
        self.next += 1;
        self.refused = false;
        kept.into_sample()
    }

    /// Drops the sample at the next number, under the condition that `ready` is `Sample`. Nothing is known of that number
    /// from then on, also where a GAP or a HEARTBEAT covered it, and it stays the next one.
    pub fn refuse(&mut self)
        requires { HasSample self.old }
        ensures { (h : Story) → Fits self.old h → Fits self.new (h ▸ Refused) }
    {
        let _refused = ring::put(self.places.as_mut_slice(), self.next, Known::Unknown);
        self.refused = true;
    }

    /// The set of an ACKNACK that answers a HEARTBEAT with this last number: its base is `durable`, which acknowledges all
    /// below it, and its numbers are the missing ones, those from the next number to the lesser of `last` and `durable + 255`
    /// that are not known (DDSI-RTPS 8.3.8.1). A set has one form, so base and numbers tell it whole. The condition is that
    /// `durable` is at most the next number.
    pub fn acknack(&self, durable: Number, last: u64) -> Bits
        requires { durable ≤ self.now.next }
        ensures base { result.base ≡ durable }
        ensures missing { (h : Story) → Fits self.now h → (k : ℕ) → names result k ≡ is_missing h durable last k }
    {
        let base = durable.get();
        let start = self.next;
        let end = start.max(last.min(base + 255) + 1);
        let mut set = Bits::empty(durable);
        for k in start..end {
            push_if(&mut set, (k - base) as u32, self.is_unknown(k));
        }
        set
    }
}

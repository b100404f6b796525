//! The store beside the definitions' own program (`WholeHistory`), over the same random histories.

ghost use Rattle.std.specs.Prelude.{IfOk, IfSome, ◌<◌, ◌^◌, ◌-◌};
ghost use Rattle.dur_qos.specs.Good.{GoodPlan};
ghost use Rattle.dur_view.specs.History.{HasShortNumber};

use crate::{Refuse, Store};
use bytes::Bytes;
use dur_base::{
    Act, Entry, Form, Guid, Key, Number, Payload, Sample, SetMark, TICKS_OF_A_SECOND, Ticks,
};
use dur_qos::{Plan, PlanFault, PlanReader};
use dur_view::{Change, Limit, View, WholeHistory, blank_views_are_sound};
use std::alloc::Global;
use std::test::*;

const ENTRIES: u32 = 60;

const FIRST: Guid = Guid([
    0xa1, 0xa1, 0xa1, 0xa1, 0xa1, 0xa1, 0xa1, 0xa1, 0xa1, 0xa1, 0xa1, 0xa1, 0, 0, 1, 2,
]);

const SECOND: Guid = Guid([
    0xb2, 0xb2, 0xb2, 0xb2, 0xb2, 0xb2, 0xb2, 0xb2, 0xb2, 0xb2, 0xb2, 0xb2, 0, 0, 1, 2,
]);

const THIRD: Guid = Guid([
    0xc3, 0xc3, 0xc3, 0xc3, 0xc3, 0xc3, 0xc3, 0xc3, 0xc3, 0xc3, 0xc3, 0xc3, 0, 0, 1, 2,
]);

// Numbers that look random, the same ones in each run (xorshift).
#[derive(Drop)]
struct Dice(u64);

impl Dice {
    fn roll(&mut self, sides: u64) -> u64
        requires { 0 < sides }
        ensures { result < sides }
    {
        self.0 ^= self.0 << 13;
        self.0 ^= self.0 >> 7;
        self.0 ^= self.0 << 17;
        self.0 % sides
    }

    fn is_one_of(&mut self, sides: u64) -> bool
        requires { 0 < sides }
    {
        self.roll(sides) == 0
    }

    // Two writers share the first topic.
    fn writer(&mut self) -> Guid {
        match self.roll(3) {
            0 => FIRST,
            1 => SECOND,
            _ => THIRD,
        }
    }

    fn act(&mut self) -> Act {
        match self.roll(8) {
            0 => Act::Dispose,
            1 => Act::Unregister,
            2 => Act::DisposeUnregister,
            _ => Act::Write,
        }
    }

    // A set that begins with this number, or that began one or two before it; none; or the end of one.
    fn set(&mut self, number: Number) -> SetMark {
        match self.roll(8) {
            0 | 1 => SetMark::Of(number),
            2 | 3 => SetMark::Of(before(number, 1)),
            4 => SetMark::Of(before(number, 2)),
            5 => SetMark::End,
            _ => SetMark::NoSet,
        }
    }

    fn sample(&mut self, moment: u64, number: Number) -> Sample {
        let act = self.act();
        let original = if self.is_one_of(4) {
            Some((self.writer(), Number::at(self.roll(50) + 1)))
        } else {
            None
        };
        Sample {
            key: Key([self.roll(3) as u8; 16]),
            act,
            stamp: Ticks(moment),
            lifespan: if self.is_one_of(3) {
                Some(Ticks(TICKS_OF_A_SECOND))
            } else {
                None
            },
            set: self.set(number),
            original,
            form: if act == Act::Write {
                Form::Data
            } else {
                Form::Nothing
            },
            payload: Payload::of(Bytes::new()),
        }
    }

    // The next entry of a writer whose next number this is.
    fn entry(&mut self, moment: u64, writer: Guid, number: Number) -> Entry
        requires { number < 2 ^ 63 - 1 }
        ensures { HasShortNumber result }
    {
        match self.roll(12) {
            0 => Entry::Lost {
                moment: Ticks(moment),
                writer,
            },
            1 => Entry::Skip {
                moment: Ticks(moment),
                writer,
                from: number,
                to: number,
            },
            _ => Entry::Took {
                moment: Ticks(moment),
                writer,
                number,
                sample: self.sample(moment, number),
            },
        }
    }

    // None, a tick, half a second or two seconds later.
    fn later(&mut self, moment: u64) -> u64 {
        let passed = match self.roll(6) {
            0 => 1,
            1 => TICKS_OF_A_SECOND / 2,
            2 => 2 * TICKS_OF_A_SECOND,
            _ => 0,
        };
        moment.wrapping_add(passed)
    }
}

// The number so many before, or the first.
fn before(number: Number, passed: u64) -> Number {
    Number::at(number.get().saturating_sub(passed).max(1))
}

fn read(alloc: Global, topics: &[u8]) -> Result<Plan, PlanFault>
    ensures { IfOk result (λ p. GoodPlan p) }
{
    let mut reader = PlanReader::new(alloc);
    reader.push(b"prefix 0102030405060708\n")?;
    reader.push(topics)?;
    reader.push(b"writer a1a1a1a1a1a1a1a1a1a1a1a100000102 T -\n")?;
    reader.push(b"writer b2b2b2b2b2b2b2b2b2b2b2b200000102 T -\n")?;
    reader.push(b"writer c3c3c3c3c3c3c3c3c3c3c3c300000102 U -\nend\n")?;
    reader.finish()
}

// Both over what the plan declares.
fn begun(alloc: Global, plan: &Plan) -> Option<(Store, WholeHistory)>
    requires { GoodPlan plan.now }
{
    blank_views_are_sound();
    let store = Store::of_view(alloc, plan, View::blank(plan).ok()?).ok()?;
    let whole = WholeHistory::of_view(alloc, View::blank(plan).ok()?);
    Some((store, whole))
}

fn is_same_sample(one: &Sample, other: &Sample) -> bool {
    one.key == other.key
        && one.act == other.act
        && one.stamp == other.stamp
        && one.lifespan == other.lifespan
        && one.set == other.set
        && one.original == other.original
        && one.form == other.form
}

fn is_same_change(one: &Change, other: &Change) -> bool {
    one.original == other.original
        && one.number == other.number
        && one.writer == other.writer
        && is_same_sample(&one.sample, &other.sample)
}

fn are_same_changes(some: &[Change], others: &[Change]) -> bool {
    some.len() == others.len()
        && some
            .iter()
            .zip(others.iter())
            .all(|(one, other)| is_same_change(one, other))
}

// Whether both entitle to the same changes of the topic at a place.
fn entitle_to_the_same(
    alloc: Global,
    store: &Store,
    whole: &WholeHistory,
    topic: u32,
    moment: u64,
) -> Option<bool> {
    if topic as usize >= whole.start().topics.len() {
        return None;
    }
    let by_store = store.entitled(alloc, topic, Ticks(moment)).ok()?;
    let by_whole = whole.entitled(alloc, topic, Ticks(moment)).ok()?;
    Some(are_same_changes(by_store.changes.as_slice(), by_whole.changes.as_slice()))
}

// The same of both topics, now and for a while, whatever expires and is purged until then.
fn agree_on_what_is_owed(
    alloc: Global,
    store: &Store,
    whole: &WholeHistory,
    moment: u64,
) -> Option<bool> {
    for passed in [0, TICKS_OF_A_SECOND, 3 * TICKS_OF_A_SECOND] {
        let moment = moment.wrapping_add(passed);
        if !entitle_to_the_same(alloc, store, whole, 0, moment)?
            || !entitle_to_the_same(alloc, store, whole, 1, moment)?
        {
            return Some(false);
        }
    }
    Some(true)
}

// What the store says where the plain program says this.
fn refuse_of(refuse: dur_view::Refuse) -> Refuse {
    match refuse {
        dur_view::Refuse::Limit(Limit::Instances) => Refuse::Instances,
        dur_view::Refuse::Limit(Limit::PerInstance) => Refuse::PerInstance,
        dur_view::Refuse::Limit(Limit::Samples) => Refuse::Samples,
        dur_view::Refuse::Limit(Limit::Held) => Refuse::Held,
        dur_view::Refuse::OutOfMemory => Refuse::OutOfMemory,
    }
}

// Hands both an entry, and says whether both answer the same.
fn admit_the_same(
    alloc: Global,
    store: &mut Store,
    whole: &mut WholeHistory,
    entry: Entry,
) -> Option<bool>
    requires { HasShortNumber entry }
{
    store.reserve().ok()?;
    let by_whole = whole.admit(alloc, entry.copy().ok()?);
    match (store.admit(entry), by_whole) {
        (Ok(()), Ok(())) => Some(true),
        (Err((one, _)), Err((other, _))) => Some(one == refuse_of(other)),
        _ => Some(false),
    }
}

// Whether both answer the same about one entry, and after it.
fn agree_on_the_next(
    alloc: Global,
    store: &mut Store,
    whole: &mut WholeHistory,
    dice: &mut Dice,
    moment: u64,
) -> Option<bool> {
    let writer = dice.writer();
    let number = whole.next(writer);
    if number != store.next(writer) || number.get() > 1_000_000 {
        return Some(false);
    }
    let entry = dice.entry(moment, writer, number);
    let is_same = admit_the_same(alloc, store, whole, entry)?
        && store.next(writer) == whole.next(writer)
        && store.last() == whole.last();
    Some(is_same && agree_on_what_is_owed(alloc, store, whole, moment)?)
}

// Whether both agree over a whole history of topics that the plan declares so. None is want of memory.
fn agree(alloc: Global, topics: &[u8], seed: u64) -> Option<bool> {
    let plan = read(alloc, topics).ok()?;
    let (mut store, mut whole) = begun(alloc, &plan)?;
    let mut dice = Dice(seed);
    let mut moment = 0;
    for _ in 0..ENTRIES {
        moment = dice.later(moment);
        if !agree_on_the_next(alloc, &mut store, &mut whole, &mut dice, moment)? {
            return Some(false);
        }
    }
    Some(true)
}

#[test]
fn a_depth_and_a_cleanup_delay(rt: HostRuntime) {
    let topics = b"topic T transient hash 1 - - - - 1\ntopic U persistent hash 2 - - - - 0\n";
    assert!(rt; agree(rt.alloc(), topics, 1) == Some(true));
    assert!(rt; agree(rt.alloc(), topics, 2) == Some(true));
}

#[test]
fn all_changes_under_limits(rt: HostRuntime) {
    let topics = b"topic T transient hash all 9 - 4 - 0\ntopic U persistent hash all - 2 3 - 1\n";
    assert!(rt; agree(rt.alloc(), topics, 3) == Some(true));
    assert!(rt; agree(rt.alloc(), topics, 4) == Some(true));
}

#[test]
fn a_depth_under_limits(rt: HostRuntime) {
    let topics = b"topic T persistent hash 3 6 2 3 3 1\ntopic U transient hash 2 4 - - 1 0\n";
    assert!(rt; agree(rt.alloc(), topics, 5) == Some(true));
    assert!(rt; agree(rt.alloc(), topics, 6) == Some(true));
}

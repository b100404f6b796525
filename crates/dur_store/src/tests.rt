//! Small histories through the store: what is admitted, refused and entitled.

ghost use Rattle.std.specs.Prelude.{IfOk, IfSome, ◌<◌, ◌^◌, ◌-◌};
ghost use Rattle.dur_qos.specs.Good.{GoodPlan};
ghost use Rattle.dur_view.specs.History.{Start, HasShortNumber};
ghost use Rattle.dur_view.specs.Full.{blank};
ghost use Rattle.dur_store.specs.Keeps.{Keeps};

use crate::{Refuse, Store};
use bytes::Bytes;
use dur_base::{
    Act, Entry, Form, Guid, Key, List, Number, Payload, Sample, SetMark, TICKS_OF_A_SECOND, Ticks,
};
use dur_qos::{Plan, PlanFault, PlanReader};
use dur_view::{View, blank_views_are_sound};
use std::alloc::Global;
use std::test::*;

const W: Guid = Guid([
    0xa1, 0xa1, 0xa1, 0xa1, 0xa1, 0xa1, 0xa1, 0xa1, 0xa1, 0xa1, 0xa1, 0xa1, 0, 0, 1, 2,
]);

const V: Guid = Guid([
    0xb2, 0xb2, 0xb2, 0xb2, 0xb2, 0xb2, 0xb2, 0xb2, 0xb2, 0xb2, 0xb2, 0xb2, 0, 0, 1, 2,
]);

const AA: Key = Key([0xaa; 16]);

const BB: Key = Key([0xbb; 16]);

fn read(alloc: Global, text: &[u8]) -> Result<Plan, PlanFault>
    ensures { IfOk result (λ p. GoodPlan p) }
{
    let mut reader = PlanReader::new(alloc);
    match reader.push(text) {
        Ok(_) => reader.finish(),
        Err(fault) => Err(fault),
    }
}

// A store of the topic with these settings behind its name, with two writers.
fn store(alloc: Global, topic: &[u8]) -> Option<Store> {
    let mut text = Vec::new(alloc);
    text.extend_from_slice(b"prefix 0102030405060708\ntopic T ")
        .ok()?;
    text.extend_from_slice(topic).ok()?;
    text.extend_from_slice(b"\nwriter a1a1a1a1a1a1a1a1a1a1a1a100000102 T -")
        .ok()?;
    text.extend_from_slice(b"\nwriter b2b2b2b2b2b2b2b2b2b2b2b200000102 T -\nend\n")
        .ok()?;
    match read(alloc, text.as_slice()) {
        Ok(plan) => over(alloc, &plan),
        Err(_) => None,
    }
}

fn over(alloc: Global, plan: &Plan) -> Option<Store>
    requires { GoodPlan plan.now }
{
    blank_views_are_sound();
    match View::blank(plan) {
        Ok(view) => Store::of_view(alloc, plan, view).ok(),
        Err(_) => None,
    }
}

// A store that begins with all that the plan declares.
fn begun(alloc: Global, plan: &Plan) -> Option<Store>
    requires { GoodPlan plan.now }
    ensures { IfSome result (λ s. Keeps s (Start (blank plan.now))) }
{
    let nothing = View {
        last: Ticks(0),
        topics: List::new(alloc),
        writers: List::new(alloc),
        instances: List::new(alloc),
        kept: List::new(alloc),
    };
    match Store::of_view(alloc, plan, nothing) {
        Ok(store) => Some(store),
        Err(_) => None,
    }
}

// The number of topics that outlive the process, and where the plan's topics stand.
fn outlives(alloc: Global, plan: &Plan) -> Option<(usize, List<u32>)>
    requires { GoodPlan plan.now }
{
    blank_views_are_sound();
    match begun(alloc, plan) {
        Some(store) => match (store.view(alloc, Ticks(3)), store.places(plan)) {
            (Ok(view), Ok(places)) => Some((view.topics.len(), places)),
            _ => None,
        },
        None => None,
    }
}

// What a small history is made of: each at a moment, under a number.
#[derive(Clone, Copy, Drop)]
enum Step {
    Write(Key),
    // With a lifespan of a second.
    Short(Key),
    End(Key),
    Of(Number),
    Skip,
    Lose,
}

fn sample(step: Step) -> Sample {
    let (key, act, set) = match step {
        Step::Write(key) | Step::Short(key) => (key, Act::Write, SetMark::NoSet),
        Step::End(key) => (key, Act::DisposeUnregister, SetMark::NoSet),
        Step::Of(first) => (AA, Act::Write, SetMark::Of(first)),
        Step::Skip | Step::Lose => (AA, Act::Write, SetMark::NoSet),
    };
    let short = matches!(&step, Step::Short(_));
    Sample {
        key,
        act,
        stamp: Ticks(0),
        lifespan: if short {
            Some(Ticks(TICKS_OF_A_SECOND))
        } else {
            None
        },
        set,
        original: None,
        form: if act == Act::Write {
            Form::Data
        } else {
            Form::Nothing
        },
        payload: Payload::of(Bytes::new()),
    }
}

fn entry(moment: u64, writer: Guid, number: Number, step: Step) -> Entry
    requires { number < 2 ^ 63 - 1 }
    ensures { HasShortNumber result }
{
    let moment = Ticks(moment);
    match step {
        Step::Skip => Entry::Skip {
            moment,
            writer,
            from: number,
            to: number,
        },
        Step::Lose => Entry::Lost { moment, writer },
        _ => Entry::Took {
            moment,
            writer,
            number,
            sample: sample(step),
        },
    }
}

// What an entry is refused for, or None where it is admitted.
fn admit(
    alloc: Global,
    store: &mut Store,
    moment: u64,
    number: Number,
    step: Step,
) -> Option<Refuse>
    requires { number < 2 ^ 63 - 1 }
{
    admit_of(alloc, store, moment, W, number, step)
}

// The same of a writer.
fn admit_of(
    alloc: Global,
    store: &mut Store,
    moment: u64,
    writer: Guid,
    number: Number,
    step: Step,
) -> Option<Refuse>
    requires { number < 2 ^ 63 - 1 }
{
    match store.reserve() {
        Ok(()) => {}
        Err(_) => return Some(Refuse::OutOfMemory),
    }
    match store.admit(entry(moment, writer, number, step)) {
        Ok(()) => None,
        Err((refuse, _)) => Some(refuse),
    }
}

// Whether these numbers are entitled at a moment.
fn lists(alloc: Global, store: &Store, moment: u64, numbers: &[u64]) -> bool {
    match store.entitled(alloc, 0, Ticks(moment)) {
        Ok(snapshot) => {
            let listed = snapshot.changes.as_slice();
            listed.len() == numbers.len()
                && listed
                    .iter()
                    .zip(numbers.iter())
                    .all(|(change, number)| change.number.get() == *number)
        }
        Err(_) => false,
    }
}

#[test]
fn a_topic_keeps_no_more_samples_than_it_may(rt: HostRuntime) {
    let alloc = rt.alloc();
    let mut store = store(alloc, b"transient hash all 2 - - - 0").expect(&rt, "a store");
    assert!(rt; admit(alloc, &mut store, 0, Number::at(1), Step::Short(AA)).is_none());
    assert!(rt; admit(alloc, &mut store, 0, Number::at(2), Step::Write(AA)).is_none());
    let third = admit(alloc, &mut store, 0, Number::at(3), Step::Write(AA));
    assert!(rt; third == Some(Refuse::Samples));
    assert!(rt; store.next(W).get() == 3 && lists(alloc, &store, 0, &[1, 2]));
    // When the first is a second old it has expired, and the third comes again.
    let later = TICKS_OF_A_SECOND;
    assert!(rt; admit(alloc, &mut store, later, Number::at(3), Step::Write(AA)).is_none());
    assert!(rt; store.last() == Ticks(later) && lists(alloc, &store, later, &[2, 3]));
}

#[test]
fn an_instance_is_counted_until_it_is_purged(rt: HostRuntime) {
    let alloc = rt.alloc();
    let mut store = store(alloc, b"transient hash 1 - 1 - - 0").expect(&rt, "a store");
    assert!(rt; admit(alloc, &mut store, 5, Number::at(1), Step::Write(AA)).is_none());
    assert!(rt; admit(alloc, &mut store, 5, Number::at(2), Step::End(AA)).is_none());
    let third = admit(alloc, &mut store, 5, Number::at(3), Step::Write(BB));
    assert!(rt; third == Some(Refuse::Instances));
    assert!(rt; admit(alloc, &mut store, 6, Number::at(3), Step::Write(BB)).is_none());
    assert!(rt; lists(alloc, &store, 6, &[3]));
}

#[test]
fn a_displaced_sample_stays_displaced(rt: HostRuntime) {
    let alloc = rt.alloc();
    let mut store = store(alloc, b"transient hash 1 - - - - 0").expect(&rt, "a store");
    assert!(rt; admit(alloc, &mut store, 0, Number::at(1), Step::Write(AA)).is_none());
    assert!(rt; admit(alloc, &mut store, 0, Number::at(2), Step::Short(AA)).is_none());
    assert!(rt; lists(alloc, &store, 0, &[2]) && lists(alloc, &store, TICKS_OF_A_SECOND, &[]));
}

#[test]
fn a_set_takes_effect_whole_or_never(rt: HostRuntime) {
    let alloc = rt.alloc();
    let one = Number::at(1);
    let mut whole = store(alloc, b"transient hash 10 - - - - 0").expect(&rt, "a store");
    assert!(rt; admit(alloc, &mut whole, 5, one, Step::Of(one)).is_none());
    assert!(rt; admit(alloc, &mut whole, 5, Number::at(2), Step::Of(one)).is_none());
    assert!(rt; lists(alloc, &whole, 5, &[]));
    assert!(rt; admit(alloc, &mut whole, 5, Number::at(3), Step::Write(AA)).is_none());
    assert!(rt; lists(alloc, &whole, 5, &[1, 2, 3]));
    let mut broken = store(alloc, b"transient hash 10 - - - - 0").expect(&rt, "a store");
    assert!(rt; admit(alloc, &mut broken, 5, one, Step::Of(one)).is_none());
    assert!(rt;
        broken
            .restore(entry(5, W, Number::at(2), Step::Skip))
            .is_ok()
    );
    assert!(rt; admit(alloc, &mut broken, 5, Number::at(3), Step::Write(AA)).is_none());
    assert!(rt; lists(alloc, &broken, 5, &[3]));
}

#[test]
fn held_members_and_those_of_a_closer_count(rt: HostRuntime) {
    let alloc = rt.alloc();
    let one = Number::at(1);
    let mut held = store(alloc, b"transient hash 10 - - - 1 0").expect(&rt, "a store");
    assert!(rt; admit(alloc, &mut held, 5, one, Step::Of(one)).is_none());
    let second = admit(alloc, &mut held, 5, Number::at(2), Step::Of(one));
    assert!(rt; second == Some(Refuse::Held) && lists(alloc, &held, 5, &[]));
    let mut closed = store(alloc, b"transient hash all 2 - - - 0").expect(&rt, "a store");
    assert!(rt; admit(alloc, &mut closed, 5, one, Step::Of(one)).is_none());
    assert!(rt; admit(alloc, &mut closed, 5, Number::at(2), Step::Of(one)).is_none());
    let closer = admit(alloc, &mut closed, 5, Number::at(3), Step::Write(AA));
    assert!(rt; closer == Some(Refuse::Samples) && lists(alloc, &closed, 5, &[]));
    // Without that number the set is broken, and stays away.
    assert!(rt; admit(alloc, &mut closed, 5, Number::at(3), Step::Skip).is_none());
    assert!(rt; lists(alloc, &closed, 5, &[]));
}

#[test]
fn members_of_all_writers_of_a_topic_count(rt: HostRuntime) {
    let alloc = rt.alloc();
    let one = Number::at(1);
    let mut held = store(alloc, b"transient hash 10 - - - 1 0").expect(&rt, "a store");
    assert!(rt; admit(alloc, &mut held, 5, one, Step::Of(one)).is_none());
    let other = admit_of(alloc, &mut held, 5, V, one, Step::Of(one));
    assert!(rt; other == Some(Refuse::Held) && held.next(V).get() == 1);
    // A lost writer holds none, and what it held never takes effect.
    assert!(rt; admit(alloc, &mut held, 5, one, Step::Lose).is_none());
    assert!(rt; admit_of(alloc, &mut held, 5, V, one, Step::Of(one)).is_none());
    assert!(rt; admit(alloc, &mut held, 5, Number::at(2), Step::Write(AA)).is_none());
    assert!(rt; lists(alloc, &held, 5, &[2]));
}

#[test]
fn an_instance_keeps_no_more_samples_than_it_may(rt: HostRuntime) {
    let alloc = rt.alloc();
    let mut store = store(alloc, b"transient hash all - - 1 - 0").expect(&rt, "a store");
    assert!(rt; admit(alloc, &mut store, 5, Number::at(1), Step::Write(AA)).is_none());
    assert!(rt; admit(alloc, &mut store, 5, Number::at(2), Step::Write(BB)).is_none());
    let third = admit_of(alloc, &mut store, 5, V, Number::at(1), Step::Write(AA));
    assert!(rt; third == Some(Refuse::PerInstance) && lists(alloc, &store, 5, &[1, 2]));
}

#[test]
fn persistent_topics_outlive_the_process(rt: HostRuntime) {
    let alloc = rt.alloc();
    let text =
        b"prefix 0102030405060708\ntopic T transient hash 1 - - - - 0\ntopic P persistent hash 1 - - - - 0\nend\n";
    match read(alloc, text) {
        Ok(plan) => match outlives(alloc, &plan) {
            Some((topics, places)) => assert!(rt;
                topics == 1 && places.as_slice() == [0, 1].as_slice()
            ),
            None => assert!(rt; false),
        },
        Err(_) => assert!(rt; false),
    }
}

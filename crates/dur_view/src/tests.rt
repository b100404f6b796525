//! Small histories, from the plan to what they entitle to and what is viewed of them.

ghost use Rattle.std.specs.Prelude.{◌≡◌, ℕ, true, IfOk, IfSome, IsTrue, OnOk, ◌+◌, ◌<◌, ◌^◌};
ghost use Rattle.dur_qos.specs.Good.{GoodPlan};
ghost use Rattle.dur_view.specs.History.{HasShortNumber};
ghost use Rattle.dur_view.specs.Identities.{Key as Octets};
ghost use Rattle.dur_view.specs.Words.{stands, topic_of, is_key_of};
ghost use Rattle.dur_view.specs.MayAdd.{MayAdd};

use crate::{Limit, Refuse, View, WholeHistory};
use bytes::Bytes;
use dur_base::{
    Act, Entry, Form, Guid, Key, Number, OutOfMemory, Payload, Sample, SetMark, Shape, Ticks,
};
use dur_qos::{Plan, PlanFault, PlanReader};
use std::alloc::Global;

const W: Guid = Guid([
    0xa1, 0xa1, 0xa1, 0xa1, 0xa1, 0xa1, 0xa1, 0xa1, 0xa1, 0xa1, 0xa1, 0xa1, 0, 0, 1, 2,
]);

const AA: Key = Key([0xaa; 16]);

const BB: Key = Key([0xbb; 16]);

fn read(alloc: Global, text: &[u8]) -> Result<Plan, PlanFault>
    ensures { IfOk result (λ p. GoodPlan p) }
{
    let mut reader = PlanReader::new(alloc);
    match reader.push(text) {
        Ok(_) => reader.finish(),
        Err(fault) => Err(fault),
    }
}

fn blank(alloc: Global) -> Option<View> {
    let text =
        b"prefix 0102030405060708\ntopic T transient hash 1 - - - - 0\nwriter a1a1a1a1a1a1a1a1a1a1a1a100000102 T -\nend\n";
    match read(alloc, text) {
        Ok(plan) => View::blank(&plan).ok(),
        Err(_) => None,
    }
}

fn took(alloc: Global, number: Number, set: SetMark) -> Option<Entry>
    requires { number + 1 < 2 ^ 63 }
    ensures { IfSome result (λ e. HasShortNumber e) }
{
    let payload = Bytes::copy_from_slice(alloc, b"\0\x01\0\0*\0\0\0").ok()?;
    Some(Entry::Took {
        moment: Ticks(5),
        writer: W,
        number,
        sample: Sample {
            key: AA,
            act: Act::Write,
            stamp: Ticks(5),
            lifespan: None,
            set,
            original: None,
            form: Form::Data,
            payload: Payload::of(payload),
        },
    })
}

#[test]
fn a_blank_view_has_what_the_plan_declares(rt: HostRuntime) {
    let view = blank(rt.alloc()).expect(&rt, "memory");
    assert!(rt; view.last == Ticks(0) && view.topics.len() == 1);
    let copy = view.copy().expect(&rt, "memory");
    match copy.writers.as_slice() {
        [line] => assert!(rt; line.guid == W && line.topic == 0 && line.next.get() == 1),
        _ => assert!(rt; false),
    }
}

#[test]
fn the_newest_of_depth_one_is_entitled(rt: HostRuntime) {
    let view = blank(rt.alloc()).expect(&rt, "memory");
    assert!(rt; view.topics.len() == 1);
    let mut store = WholeHistory::of_view(rt.alloc(), view);
    let first = took(rt.alloc(), Number::at(1), SetMark::NoSet).expect(&rt, "memory");
    store.restore(first).expect(&rt, "memory");
    let second = took(rt.alloc(), Number::at(2), SetMark::NoSet).expect(&rt, "memory");
    store.restore(second).expect(&rt, "memory");
    assert!(rt; store.next(W).get() == 3);
    let snapshot = store
        .entitled(rt.alloc(), 0, Ticks(5))
        .expect(&rt, "memory");
    match snapshot.changes.as_slice() {
        [change] => {
            assert!(rt; change.original == W && change.number.get() == 2 && change.writer == W);
        }
        _ => assert!(rt; false),
    }
}

#[test]
fn an_open_set_has_no_effect(rt: HostRuntime) {
    let view = blank(rt.alloc()).expect(&rt, "memory");
    assert!(rt; view.topics.len() == 1);
    let mut store = WholeHistory::of_view(rt.alloc(), view);
    let first = took(rt.alloc(), Number::at(1), SetMark::Of(Number::at(1))).expect(&rt, "memory");
    store.restore(first).expect(&rt, "memory");
    let open = store
        .entitled(rt.alloc(), 0, Ticks(5))
        .expect(&rt, "memory");
    assert!(rt; open.changes.len() == 0);
    let closer = took(rt.alloc(), Number::at(2), SetMark::End).expect(&rt, "memory");
    store.restore(closer).expect(&rt, "memory");
    let whole = store
        .entitled(rt.alloc(), 0, Ticks(5))
        .expect(&rt, "memory");
    assert!(rt; whole.changes.len() == 1);
}

// Whether the view has one topic, whose keys are hashed, and this writer of it.
fn is_keyed(view: &View, writer: Guid) -> bool
    ensures known { IsTrue result → stands view.now writer ≡ true }
    ensures keyed { IsTrue result → (k : Octets) → is_key_of view.now.topics (topic_of view.now writer) k ≡ true }
{
    match view.topics.as_slice() {
        [topic] => match view.writers.as_slice() {
            [line] => line.guid == writer && line.topic == 0 && topic.shape == Shape::Hash,
            _ => false,
        },
        _ => false,
    }
}

// The blank history of a plan with one topic, of depth 2, and this writer.
fn begin(alloc: Global, writer: Guid) -> Option<WholeHistory>
    ensures { IfSome result (λ s. MayAdd s writer 5) }
{
    let text =
        b"prefix 0102030405060708\ntopic T transient hash 2 - - - - 10\nwriter a1a1a1a1a1a1a1a1a1a1a1a100000102 T -\nend\n";
    let plan = match read(alloc, text) {
        Ok(plan) => plan,
        Err(_) => return None,
    };
    let view = match View::blank(&plan) {
        Ok(view) => view,
        Err(_) => return None,
    };
    if !is_keyed(&view, writer) {
        return None;
    }
    Some(WholeHistory::of_view(alloc, view))
}

fn sample(alloc: Global, key: Key, act: Act, set: SetMark) -> Option<Sample> {
    let payload = Bytes::copy_from_slice(alloc, b"\0\x01\0\0*\0\0\0").ok()?;
    Some(Sample {
        key,
        act,
        stamp: Ticks(5),
        lifespan: None,
        set,
        original: None,
        form: Form::Data,
        payload: Payload::of(payload),
    })
}

// Takes in the writer's next sample at moment 5.
fn take_in(
    store: &mut WholeHistory,
    alloc: Global,
    writer: Guid,
    key: Key,
    act: Act,
    set: SetMark,
) -> Result<(), OutOfMemory>
    requires { MayAdd store.old writer 5 }
    ensures { OnOk result (MayAdd store.new writer 5) }
{
    let number = store.next(writer);
    let sample = sample(alloc, key, act, set).ok_or(OutOfMemory)?;
    if number.get() > 100 || !sample.is_good() {
        return Err(OutOfMemory);
    }
    store.restore(Entry::Took {
        moment: Ticks(5),
        writer,
        number,
        sample,
    })
}

#[test]
fn the_view_has_open_sets_quiet_instances_and_new_ordinals(rt: HostRuntime) {
    let mut store = begin(rt.alloc(), W).expect(&rt, "memory");
    take_in(&mut store, rt.alloc(), W, AA, Act::Write, SetMark::NoSet).expect(&rt, "memory");
    take_in(&mut store, rt.alloc(), W, AA, Act::Write, SetMark::NoSet).expect(&rt, "memory");
    take_in(&mut store, rt.alloc(), W, BB, Act::Write, SetMark::NoSet).expect(&rt, "memory");
    take_in(&mut store, rt.alloc(), W, AA, Act::Write, SetMark::NoSet).expect(&rt, "memory");
    take_in(
        &mut store,
        rt.alloc(),
        W,
        BB,
        Act::DisposeUnregister,
        SetMark::NoSet,
    )
    .expect(&rt, "memory");
    let open = SetMark::Of(Number::at(6));
    take_in(&mut store, rt.alloc(), W, BB, Act::Write, open).expect(&rt, "memory");
    let view = store.view(rt.alloc(), Ticks(5)).expect(&rt, "memory");
    assert!(rt; view.last == Ticks(5) && view.topics.len() == 1);
    match view.writers.as_slice() {
        [line] => assert!(rt; line.guid == W && line.next.get() == 7 && line.held.len() == 1),
        _ => assert!(rt; false),
    }
    match view.instances.as_slice() {
        [a, b] => {
            assert!(rt; a.key == AA && !a.disposed && a.quiet == None && a.changes == 2);
            assert!(rt; b.key == BB && b.disposed && b.quiet == Some(Ticks(5)) && b.changes == 2);
            assert!(rt; a.registered.len() == 1 && b.registered.len() == 0);
        }
        _ => assert!(rt; false),
    }
    match view.kept.as_slice() {
        [a, b, c, d] => {
            assert!(rt; a.instance == 0 && a.ordinal == 1 && a.number.get() == 2);
            assert!(rt; a.arrived == Some(Ticks(5)));
            assert!(rt; b.instance == 1 && b.ordinal == 1 && b.number.get() == 3);
            assert!(rt; c.instance == 0 && c.ordinal == 2 && c.number.get() == 4);
            assert!(rt; d.instance == 1 && d.ordinal == 2 && d.number.get() == 5);
        }
        _ => assert!(rt; false),
    }
}

const OF_TWO_TOPICS: &[u8] =
    b"prefix 0102030405060708\ntopic T transient hash 1 - - - - 0\ntopic P persistent hash 1 - - - - 0\nwriter a1a1a1a1a1a1a1a1a1a1a1a100000102 P -\nend\n";

#[test]
fn a_persistent_part_is_filled_by_the_plan(rt: HostRuntime) {
    let plan = read(rt.alloc(), OF_TWO_TOPICS).ok().expect(&rt, "memory");
    let view = View::blank(&plan).expect(&rt, "memory");
    let part = view.persistent().expect(&rt, "memory");
    assert!(rt; part.topics.len() == 1 && part.writers.len() == 1);
    let full = part.full(&plan).expect(&rt, "memory");
    match full.writers.as_slice() {
        [line] => assert!(rt; full.topics.len() == 2 && line.guid == W && line.topic == 0),
        _ => assert!(rt; false),
    }
}

const OF_ONE_SAMPLE: &[u8] =
    b"prefix 0102030405060708\ntopic T transient hash all 1 - - - 0\nwriter a1a1a1a1a1a1a1a1a1a1a1a100000102 T -\nend\n";

#[test]
fn a_sample_above_the_limit_is_handed_back(rt: HostRuntime) {
    let plan = read(rt.alloc(), OF_ONE_SAMPLE).ok().expect(&rt, "memory");
    let view = View::blank(&plan).expect(&rt, "memory");
    let mut history = WholeHistory::of_view(rt.alloc(), view);
    let first = took(rt.alloc(), Number::at(1), SetMark::NoSet).expect(&rt, "memory");
    assert!(rt; history.admit(rt.alloc(), first).is_ok());
    let second = took(rt.alloc(), Number::at(2), SetMark::NoSet).expect(&rt, "memory");
    match history.admit(rt.alloc(), second) {
        Err((refuse, _)) => assert!(rt; refuse == Refuse::Limit(Limit::Samples)),
        Ok(()) => assert!(rt; false),
    }
}

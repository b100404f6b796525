//! Datagrams in hard orders, with what a hub makes of them worked out by hand.

ghost use Rattle.dur_hub.specs.Hubs.{StandsForSome};

use crate::Hub;
use crate::examples::{
    AA, BB, EVERYBODY, KEEP_3, PERSISTENT, W, ack_of, beat, data, end_of, gap, hears, in_set_1,
    is_refused, number, opened, raw, read, short_lived, told,
};
use crate::left_behind::{Leaver, left_behind};
use dur_base::{Bits, EntityId, Entry, Ticks};
use dur_view::Limit;
use std::alloc::Global;
use std::collections::VecDeque;

// Those that the first lease step has to lose, under a plan without writers over the view that a hub hands out.
fn left_after(hub: &mut Hub, alloc: Global) -> Option<VecDeque<Leaver>>
    requires { StandsForSome hub.old }
{
    let text = b"prefix 0102030405060708\ntopic T persistent hash 10 - - - - 0\nend\n";
    match (read(alloc, text), hub.take_view(alloc)) {
        (Ok(plan), Ok((_, view))) => left_behind(alloc, &plan, &view).ok(),
        _ => None,
    }
}

#[test]
fn samples_are_admitted_in_order_each_once(rt: HostRuntime) {
    let alloc = rt.alloc();
    let mut hub = opened(alloc, KEEP_3).expect(&rt, "memory");
    for (moment, value) in [(5, 3), (6, 1), (7, 2), (8, 1)] {
        let reply = hears(&mut hub, alloc, moment, data(value, AA)).expect(&rt, "memory");
        assert!(rt; reply.handled == 1 && !reply.stopped && reply.acks.len() == 0);
    }
    assert!(rt; hub.counts().entries == 3 && hub.last() == Ticks(8));
    let listed = hub.listing(alloc, 0, Ticks(8)).expect(&rt, "memory");
    match listed.changes.as_slice() {
        [a, b, c] => {
            assert!(rt; a.number == number(1) && b.number == number(2) && c.number == number(3));
            assert!(rt; a.sample.stamp.0 == 6 && b.sample.stamp.0 == 7 && c.sample.stamp.0 == 5);
        }
        _ => assert!(rt; false),
    }
}

#[test]
fn what_is_missing_is_asked_for(rt: HostRuntime) {
    let alloc = rt.alloc();
    let mut hub = opened(alloc, KEEP_3).expect(&rt, "memory");
    for value in [1, 3] {
        let _reply = hears(&mut hub, alloc, 5, data(value, AA)).expect(&rt, "memory");
    }
    let ack = ack_of(hears(&mut hub, alloc, 6, beat(1, 3))).expect(&rt, "an acknowledgement");
    assert!(rt; ack.set == Bits::of(number(2), [0x8000_0000, 0, 0, 0, 0, 0, 0, 0]));
    assert!(rt; ack.writer == W && ack.reader == EntityId([0, 0, 1, 7]));
    assert!(rt; ack.is_final && ack.count == 1 && hub.counts().acks == 1);
}

#[test]
fn what_lies_beyond_the_window_is_not_known(rt: HostRuntime) {
    let alloc = rt.alloc();
    let mut hub = opened(alloc, KEEP_3).expect(&rt, "memory");
    for value in [257, 256] {
        let _reply = hears(&mut hub, alloc, 5, data(value, AA)).expect(&rt, "memory");
    }
    let ack = ack_of(hears(&mut hub, alloc, 6, beat(1, 257))).expect(&rt, "an acknowledgement");
    let all = 0xffff_ffff;
    assert!(rt; ack.set == Bits::of(number(1), [all, all, all, all, all, all, all, 0xffff_fffe]));
}

#[test]
fn numbers_that_are_no_longer_there_are_one_skip(rt: HostRuntime) {
    let alloc = rt.alloc();
    let mut hub = opened(alloc, KEEP_3).expect(&rt, "memory");
    let far = 1 << 40;
    let ack = ack_of(hears(&mut hub, alloc, 6, beat(far, far - 1))).expect(
        &rt,
        "an acknowledgement",
    );
    assert!(rt; hub.counts().entries == 1);
    assert!(rt; ack.set == Bits::empty(number(far)) && ack.is_final);
}

#[test]
fn a_silent_writer_is_lost_after_its_lease(rt: HostRuntime) {
    let alloc = rt.alloc();
    let text =
        b"prefix 0102030405060708\ntopic T transient hash 1 - 1 - - 0\nwriter a1a1a1a1a1a1a1a1a1a1a1a100000102 T 2\nend\n";
    let mut hub = opened(alloc, text).expect(&rt, "memory");
    let _reply = hears(&mut hub, alloc, 0, data(1, AA)).expect(&rt, "memory");
    let _reply = hears(&mut hub, alloc, 1, end_of(2, 1)).expect(&rt, "memory");
    let _reply = hears(&mut hub, alloc, 8_589_934_593, beat(3, 2)).expect(&rt, "memory");
    assert!(rt; hub.counts().entries == 2);
    let late = 17_179_869_186;
    for _ in 0..2 {
        let reply = hub.tick(alloc, Ticks(late));
        assert!(rt; !reply.stopped && reply.handled == 0 && hub.counts().entries == 3);
    }
    // The key that it disposed of is quiet from now on, and exists at this moment.
    assert!(rt;
        is_refused(
            hears(&mut hub, alloc, late, data(3, BB)),
            3,
            Limit::Instances
        )
    );
    let reply = hears(&mut hub, alloc, late + 1, data(3, BB)).expect(&rt, "memory");
    assert!(rt; reply.refused.len() == 0 && hub.counts().entries == 4);
}

// A writer of which 2 s are counted from its last datagram, before it was lost and after it.
#[test]
fn a_lease_counts_from_the_last_datagram(rt: HostRuntime) {
    let alloc = rt.alloc();
    let text =
        b"prefix 0102030405060708\ntopic T transient hash 3 - - - - 0\nwriter a1a1a1a1a1a1a1a1a1a1a1a100000102 T 2\nend\n";
    let mut hub = opened(alloc, text).expect(&rt, "memory");
    let _reply = hears(&mut hub, alloc, 0, data(1, AA)).expect(&rt, "memory");
    // At the end of its lease it is heard, which moves the end; the moment after that is past the old one.
    let _reply = hears(&mut hub, alloc, 8_589_934_592, data(2, AA)).expect(&rt, "memory");
    for (moment, entries) in [
        (8_589_934_593, 2),
        (17_179_869_184, 2),
        (17_179_869_185, 3),
        (25_769_803_777, 3),
    ] {
        let reply = hub.tick(alloc, Ticks(moment));
        assert!(rt; !reply.stopped && hub.counts().entries == entries);
    }
    // It is there again, and has a lease again.
    let _reply = hears(&mut hub, alloc, 30_000_000_000, data(3, AA)).expect(&rt, "memory");
    for (moment, entries) in [(38_589_934_592, 4), (38_589_934_593, 5)] {
        let reply = hub.tick(alloc, Ticks(moment));
        assert!(rt; !reply.stopped && hub.counts().entries == entries);
    }
}

#[test]
fn a_writer_that_is_left_behind_is_lost_first(rt: HostRuntime) {
    let alloc = rt.alloc();
    let mut hub = opened(alloc, PERSISTENT).expect(&rt, "memory");
    let _reply = hears(&mut hub, alloc, 5, in_set_1(1)).expect(&rt, "memory");
    // A plan that no longer has the writer, over what is kept of its open set.
    let leaving = left_after(&mut hub, alloc).expect(&rt, "memory");
    assert!(rt; leaving.len() == 1);
    let mut hub = opened(alloc, PERSISTENT).expect(&rt, "memory");
    hub.leaving = leaving;
    for _ in 0..2 {
        let reply = hub.tick(alloc, Ticks(7));
        assert!(rt; !reply.stopped && hub.counts().entries == 1);
    }
    match hub.take().entries.as_slice() {
        [Entry::Lost { moment, writer }] => assert!(rt; *moment == Ticks(7) && *writer == W),
        _ => assert!(rt; false),
    }
}

#[test]
fn those_that_work_are_told_to_end(rt: HostRuntime) {
    let mut hub = opened(rt.alloc(), KEEP_3).expect(&rt, "memory");
    hub.leave();
    hub.stop();
    let state = hub.state();
    assert!(rt; state.working == 0 && state.stopped);
}

#[test]
fn a_refused_sample_is_asked_for_again(rt: HostRuntime) {
    let alloc = rt.alloc();
    let text =
        b"prefix 0102030405060708\ntopic T transient hash all 2 - - - 0\nwriter a1a1a1a1a1a1a1a1a1a1a1a100000102 T -\nend\n";
    let mut hub = opened(alloc, text).expect(&rt, "memory");
    let _reply = hears(&mut hub, alloc, 0, short_lived(1)).expect(&rt, "memory");
    let _reply = hears(&mut hub, alloc, 0, data(2, AA)).expect(&rt, "memory");
    assert!(rt; is_refused(hears(&mut hub, alloc, 0, data(3, AA)), 3, Limit::Samples));
    let ack = ack_of(hears(&mut hub, alloc, 0, beat(1, 3))).expect(&rt, "an acknowledgement");
    assert!(rt; ack.set == Bits::of(number(3), [0x8000_0000, 0, 0, 0, 0, 0, 0, 0]));
    let reply = hears(&mut hub, alloc, 0x1_0000_0000, data(3, AA)).expect(&rt, "memory");
    assert!(rt; reply.refused.len() == 0 && hub.counts().entries == 3 && hub.counts().refused == 1);
}

#[test]
fn an_instance_that_is_there_counts(rt: HostRuntime) {
    let alloc = rt.alloc();
    let text =
        b"prefix 0102030405060708\ntopic T transient hash 1 - 1 - - 0\nwriter a1a1a1a1a1a1a1a1a1a1a1a100000102 T -\nend\n";
    let mut hub = opened(alloc, text).expect(&rt, "memory");
    let _reply = hears(&mut hub, alloc, 5, data(1, AA)).expect(&rt, "memory");
    let _reply = hears(&mut hub, alloc, 5, end_of(2, 3)).expect(&rt, "memory");
    assert!(rt; is_refused(hears(&mut hub, alloc, 5, data(3, BB)), 3, Limit::Instances));
    let reply = hears(&mut hub, alloc, 6, data(3, BB)).expect(&rt, "memory");
    assert!(rt; reply.refused.len() == 0 && hub.counts().entries == 3);
}

#[test]
fn a_gap_breaks_a_set(rt: HostRuntime) {
    let alloc = rt.alloc();
    let mut hub = opened(alloc, KEEP_3).expect(&rt, "memory");
    let _reply = hears(&mut hub, alloc, 5, in_set_1(1)).expect(&rt, "memory");
    let _reply = hears(&mut hub, alloc, 5, gap(2)).expect(&rt, "memory");
    let _reply = hears(&mut hub, alloc, 5, data(3, AA)).expect(&rt, "memory");
    let listed = hub.listing(alloc, 0, Ticks(5)).expect(&rt, "memory");
    match listed.changes.as_slice() {
        [change] => assert!(rt; change.number == number(3)),
        _ => assert!(rt; false),
    }
    let ack = ack_of(hears(&mut hub, alloc, 6, beat(1, 3))).expect(&rt, "an acknowledgement");
    assert!(rt; ack.set == Bits::empty(number(4)));
}

#[test]
fn what_another_reader_is_told_is_not_heard(rt: HostRuntime) {
    let alloc = rt.alloc();
    let mut hub = opened(alloc, KEEP_3).expect(&rt, "memory");
    let fact = told(1, EntityId([0, 0, 2, 7]), raw(AA));
    let reply = hears(&mut hub, alloc, 5, fact).expect(&rt, "memory");
    assert!(rt; reply.handled == 1 && hub.counts().entries == 0);
}

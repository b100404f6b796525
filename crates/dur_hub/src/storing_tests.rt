//! What is handed out, marked and replayed, and what stands where memory is wanting.

ghost use Rattle.std.specs.Prelude.{IfSome};
ghost use Rattle.rtps_message.specs.Facts.{AreGood};

use crate::examples::{
    AA, PERSISTENT, R, VALUE, W, ack_of, beat, data, gap, hears, in_set_1, number, opened, valued,
};
use crate::{Hub, SnapFault};
use dur_base::{Bits, Fact, List, Ticks};
use dur_view::Change;
use std::alloc::Global;

// Whether a change is the writer's first one, with its payload, as it came at 5.
fn is_first_of(change: &Change) -> bool {
    change.original == W
        && change.number == number(1)
        && change.sample.key == AA
        && change.sample.stamp == Ticks(5)
        && change.sample.payload.as_slice() == VALUE
}

#[test]
fn nothing_is_acknowledged_before_its_mark(rt: HostRuntime) {
    let alloc = rt.alloc();
    let mut hub = opened(alloc, PERSISTENT).expect(&rt, "memory");
    let _reply = hears(&mut hub, alloc, 5, data(1, AA)).expect(&rt, "memory");
    let ack = ack_of(hears(&mut hub, alloc, 5, beat(1, 1))).expect(&rt, "an acknowledgement");
    assert!(rt; ack.set == Bits::empty(number(1)) && !ack.is_final && ack.count == 1);
    assert!(rt; hub.has_pending());
    let batch = hub.take();
    assert!(rt; batch.from == 0 && batch.entries.len() == 1 && !hub.has_pending());
    let _reply = hears(&mut hub, alloc, 6, data(2, AA)).expect(&rt, "memory");
    hub.mark(1);
    let ack = ack_of(hears(&mut hub, alloc, 6, beat(1, 2))).expect(&rt, "an acknowledgement");
    assert!(rt; ack.set == Bits::empty(number(2)) && !ack.is_final && ack.count == 2);
    let batch = hub.take();
    assert!(rt; batch.from == 1 && batch.entries.len() == 1);
}

#[test]
fn a_reader_is_served_once(rt: HostRuntime) {
    let alloc = rt.alloc();
    let mut hub = opened(alloc, PERSISTENT).expect(&rt, "memory");
    let _reply = hears(&mut hub, alloc, 5, valued(1)).expect(&rt, "memory");
    let ack = ack_of(hears(&mut hub, alloc, 5, beat(1, 1))).expect(&rt, "an acknowledgement");
    assert!(rt; ack.set == Bits::empty(number(1)) && !ack.is_final && ack.count == 1);
    let _batch = hub.take();
    hub.mark(1);
    let ack = ack_of(hears(&mut hub, alloc, 6, beat(1, 1))).expect(&rt, "an acknowledgement");
    assert!(rt; ack.set == Bits::empty(number(2)) && ack.is_final && ack.count == 2);
    match hub.snapshot(alloc, Ticks(7), R) {
        Ok(snapshot) => match snapshot.changes.as_slice() {
            [change] => assert!(rt; is_first_of(change)),
            _ => assert!(rt; false),
        },
        Err(_) => assert!(rt; false),
    }
    assert!(rt; hub.snapshot(alloc, Ticks(8), R).err() == Some(SnapFault::Already));
    assert!(rt; hub.snapshot(alloc, Ticks(8), W).err() == Some(SnapFault::Unknown));
    assert!(rt; hub.last() == Ticks(7) && hub.counts().replays == 1);
}

#[test]
fn a_view_keeps_the_members_of_an_open_set(rt: HostRuntime) {
    let alloc = rt.alloc();
    let mut hub = opened(alloc, PERSISTENT).expect(&rt, "memory");
    let _reply = hears(&mut hub, alloc, 5, in_set_1(1)).expect(&rt, "memory");
    let _reply = hears(&mut hub, alloc, 5, in_set_1(2)).expect(&rt, "memory");
    match hub.take_view(alloc) {
        Ok((batch, view)) => match view.writers.as_slice() {
            [line] => assert!(rt;
                batch.entries.len() == 2 && line.held.len() == 2 && line.next == number(3)
            ),
            _ => assert!(rt; false),
        },
        Err(_) => assert!(rt; false),
    }
}

#[test]
fn a_reader_of_more_than_is_kept_is_not_served(rt: HostRuntime) {
    let alloc = rt.alloc();
    let text =
        b"prefix 0102030405060708\ntopic T transient hash 3 - - - - 0\nreader b2b2b2b2b2b2b2b2b2b2b2b200000107 T persistent\nend\n";
    let mut hub = opened(alloc, text).expect(&rt, "memory");
    assert!(rt; hub.snapshot(alloc, Ticks(7), R).err() == Some(SnapFault::NotServed));
}

#[test]
fn a_mark_of_a_part_moves_the_base_so_far(rt: HostRuntime) {
    let alloc = rt.alloc();
    let mut hub = opened(alloc, PERSISTENT).expect(&rt, "memory");
    for value in [1, 2] {
        let _reply = hears(&mut hub, alloc, 5, data(value, AA)).expect(&rt, "memory");
    }
    let batch = hub.take();
    assert!(rt; batch.entries.len() == 2);
    for (upto, base) in [(1, 2), (2, 3)] {
        hub.mark(upto);
        let ack = ack_of(hears(&mut hub, alloc, 6, beat(1, 2))).expect(&rt, "an acknowledgement");
        assert!(rt; ack.set == Bits::empty(number(base)) && ack.is_final == (base == 3));
    }
}

#[test]
fn a_batch_has_4096_entries_at_most(rt: HostRuntime) {
    let alloc = rt.alloc();
    let mut hub = opened(alloc, PERSISTENT).expect(&rt, "memory");
    for value in 1..4098 {
        let _reply = hears(&mut hub, alloc, 5, gap(value)).expect(&rt, "memory");
    }
    for (from, len) in [(0, 4096), (4096, 1)] {
        assert!(rt; hub.has_pending());
        let batch = hub.take();
        assert!(rt; batch.from == from && batch.entries.len() == len);
    }
    assert!(rt; !hub.has_pending());
    hub.mark(4097);
    let ack = ack_of(hears(&mut hub, alloc, 6, beat(1, 4097))).expect(&rt, "an acknowledgement");
    assert!(rt; ack.set == Bits::empty(number(4098)) && ack.is_final);
}

// A sample and a HEARTBEAT in one datagram.
fn two_facts(alloc: Global) -> Option<List<Fact>>
    ensures { IfSome result (λ facts. AreGood facts) }
{
    let mut facts = List::new(alloc);
    match facts.push(data(2, AA)) {
        Ok(()) => {}
        Err(_) => return None,
    }
    match facts.push(beat(1, 2)) {
        Ok(()) => Some(facts),
        Err(_) => None,
    }
}

// Tells both again until there is memory, at most three times. True: each was heard once, and what was told before stands.
fn tells_on(hub: &mut Hub, alloc: Global) -> bool {
    for _ in 0..3 {
        let before = hub.counts().entries;
        let reply = match two_facts(alloc) {
            Some(facts) => hub.receive(alloc, Ticks(6), facts),
            None => continue,
        };
        if reply.stopped != (reply.handled < 2) || hub.counts().entries < before {
            return false;
        }
        if !reply.stopped {
            return reply.acks.len() == 1 && hub.counts().entries == 2;
        }
    }
    false
}

// `tests/hub_memory.sh` runs this with each allocation refused in turn. What was heard before it stands.
#[test]
fn what_was_told_stands_where_memory_is_wanting(rt: HostRuntime) {
    let alloc = rt.alloc();
    if let Some(mut hub) = opened(alloc, PERSISTENT) {
        let first = match hears(&mut hub, alloc, 5, valued(1)) {
            Some(reply) => !reply.stopped,
            None => false,
        };
        if first {
            assert!(rt; tells_on(&mut hub, alloc));
            assert!(rt; hub.take().entries.len() == 2);
            let served = hub.snapshot(alloc, Ticks(7), R).is_ok();
            assert!(rt; served || hub.snapshot(alloc, Ticks(7), R).is_ok());
        }
    }
}

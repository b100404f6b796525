//! Replays whose octets were laid out by hand from the standard's tables.

use crate::examples::{
    LATE, OTHER, OWN, WRITER, change, changes, data, has, late, number, session,
};
use crate::{Asked, LateReader, Session};
use dur_base::{Act, Bits, Fact, Guid, List, Number};
use dur_view::Change;
use rtps_message::facts;
use std::alloc::Global;
use std::process::Abort;

/// The header of the service's first epoch, and INFO_DST of the late reader's participant.
const FRONT: &[u8] =
    b"RTPS\x02\x05\0\0\x01\x02\x03\x04\x05\x06\x07\x08\0\0\0\x01\x0e\x01\x0c\0\xb2\xb2\xb2\xb2\xb2\xb2\xb2\xb2\xb2\xb2\xb2\xb2";

#[test]
fn a_replay_of_nothing_is_a_marker(rt: HostRuntime) {
    let mut session = session(&rt, OWN, List::new(rt.alloc()));
    let mut out = [0; 65507];
    let len = session.beat(&mut out);
    assert!(rt; len == 68 && has(&out, 0, FRONT));
    assert!(rt;
        has(
            &out,
            36,
            b"\x07\x01\x1c\0\0\0\x01\x07\x01\0\x01\x02\0\0\0\0\x01\0\0\0\0\0\0\0\x01\0\0\0\x01\0\0\0"
        )
    );
    let asked = session.on_nack(&Bits::of(number(1), [0x8000_0000, 0, 0, 0, 0, 0, 0, 0]));
    assert!(rt; asked.numbers.has(0) && asked.numbers.count() == 1 && asked.beat);
    let len = data(&session, 1, &mut out);
    assert!(rt; len == 76 && has(&out, 0, FRONT));
    assert!(rt;
        has(
            &out,
            36,
            b"\x15\x03\x24\0\0\0\x10\0\0\0\x01\x07\x01\0\x01\x02\0\0\0\0\x01\0\0\0\x56\0\x08\0\xff\xff\xff\xff\0\0\0\0\x01\0\0\0"
        )
    );
    let len = session.beat(&mut out);
    assert!(rt; len == 68 && has(&out, 64, b"\x02\0\0\0"));
    let asked = session.on_nack(&Bits::empty(number(2)));
    assert!(rt; asked.numbers.count() == 0 && !asked.beat && session.complete());
}

#[test]
fn a_change_is_sent_with_its_original(rt: HostRuntime) {
    let mut session = session(&rt, OWN, changes(rt.alloc(), &rt, &[(1, 0)]));
    let mut out = [0; 65507];
    assert!(rt; session.last() == number(2));
    let len = data(&session, 1, &mut out);
    assert!(rt; len == 136 && has(&out, 0, FRONT));
    assert!(rt;
        has(
            &out,
            36,
            b"\x09\x01\x08\0\0\0\0\0\x05\0\0\0\x15\x07\x54\0\0\0\x10\0\0\0\x01\x07\x01\0\x01\x02\0\0\0\0\x01\0\0\0\x70\0\x10\0\xaa\xaa\xaa\xaa\xaa\xaa\xaa\xaa\xaa\xaa\xaa\xaa\xaa\xaa\xaa\xaa\x61\0\x1c\0\xa1\xa1\xa1\xa1\xa1\xa1\xa1\xa1\xa1\xa1\xa1\xa1\0\0\x01\x02\0\0\0\0\x01\0\0\0\x01\0\0\0\x01\0\0\0\0\x01\0\0*\0\0\0"
        )
    );
    let len = session.beat(&mut out);
    assert!(rt; len == 68 && has(&out, 48, b"\0\0\0\0\x01\0\0\0\0\0\0\0\x02\0\0\0\x01\0\0\0"));
}

/// Whether the DATA of that number has so many octets, and is of the set of that number, or of
/// none.
fn is_of_set(session: &Session, at: u64, len: usize, set: &[u8]) -> bool {
    let mut out = [0; 65507];
    data(session, at, &mut out) == len && has(&out, 124, set)
}

#[test]
fn a_replayed_set_has_the_number_of_its_first_member(rt: HostRuntime) {
    let session = session(
        &rt,
        OWN,
        changes(rt.alloc(), &rt, &[(2, 2), (3, 2), (4, 0)]),
    );
    let set = b"\x56\0\x08\0\0\0\0\0\x01\0\0\0\x01\0\0\0";
    assert!(rt; is_of_set(&session, 1, 148, set) && is_of_set(&session, 2, 148, set));
    assert!(rt; is_of_set(&session, 3, 136, b"\x01\0\0\0"));
    assert!(rt; session.last() == number(4));
}

#[test]
fn sets_of_two_writers_are_two(rt: HostRuntime) {
    let mut three = changes(rt.alloc(), &rt, &[(7, 7)]);
    let other = change(rt.alloc(), &rt, OTHER, number(7), 7);
    three.push(other).expect(&rt, "memory");
    let again = change(rt.alloc(), &rt, OTHER, number(8), 7);
    three.push(again).expect(&rt, "memory");
    let session = session(&rt, OWN, three);
    let second = b"\x56\0\x08\0\0\0\0\0\x02\0\0\0\x01\0\0\0";
    assert!(rt; is_of_set(&session, 1, 148, b"\x56\0\x08\0\0\0\0\0\x01\0\0\0"));
    assert!(rt; is_of_set(&session, 2, 148, second) && is_of_set(&session, 3, 148, second));
}

#[test]
fn a_set_is_handed_out_once_it_has_ended(rt: HostRuntime) {
    let mut session = session(
        &rt,
        OWN,
        changes(rt.alloc(), &rt, &[(2, 2), (3, 2), (4, 0)]),
    );
    let mut late = late(rt.alloc(), &rt);
    let mut out = [0; 65507];
    let len = session.beat(&mut out);
    assert!(rt; late.on_datagram(&out[..len]).expect(&rt, "memory"));
    let len = data(&session, 1, &mut out);
    assert!(rt; !late.on_datagram(&out[..len]).expect(&rt, "memory"));
    let len = data(&session, 2, &mut out);
    assert!(rt; !late.on_datagram(&out[..len]).expect(&rt, "memory"));
    assert!(rt; late.taken().is_empty());
    let len = data(&session, 3, &mut out);
    assert!(rt; !late.on_datagram(&out[..len]).expect(&rt, "memory"));
    let taken = late.taken();
    assert!(rt; taken.len() == 3 && !late.done());
    assert!(rt; taken[2].number == number(4) && taken[2].original == WRITER);
}

#[test]
fn a_dispose_goes_without_its_unregister(rt: HostRuntime) {
    let mut one = change(rt.alloc(), &rt, WRITER, number(1), 0);
    one.sample.act = Act::DisposeUnregister;
    let mut changes = List::new(rt.alloc());
    changes.push(one).expect(&rt, "memory");
    let session = session(&rt, OWN, changes);
    let mut out = [0; 65507];
    let len = data(&session, 1, &mut out);
    assert!(rt; len == 144 && has(&out, 92, b"\x71\0\x04\0\0\0\0\x01"));
}

/// What waits for the late reader, and the session that sends it.
#[derive(Drop)]
struct Link {
    session: Session,
    queue: Vec<Vec<u8>>,
}

fn copy(alloc: Global, rt: &impl Abort, bytes: &[u8]) -> Vec<u8> {
    let mut copy = Vec::new(alloc);
    copy.extend_from_slice(bytes).expect(rt, "memory");
    copy
}

impl Link {
    fn send(&mut self, alloc: Global, rt: &impl Abort, bytes: &[u8]) {
        let heard = facts(alloc, bytes, OWN).expect(rt, "memory");
        for fact in heard.facts.into_vec() {
            if let Fact::Nack { set, .. } = fact {
                let asked = self.session.on_nack(&set);
                self.answer(alloc, rt, asked);
            }
        }
    }

    fn answer(&mut self, alloc: Global, rt: &impl Abort, asked: Asked) {
        let mut out = [0; 65507];
        let base = asked.numbers.base().get();
        for i in 0..asked.numbers.count() {
            if asked.numbers.has(i) {
                let len = data(&self.session, base.saturating_add(i as u64), &mut out);
                self.queue
                    .push(copy(alloc, rt, &out[..len]))
                    .expect(rt, "memory");
            }
        }
        if asked.beat {
            let len = self.session.beat(&mut out);
            self.queue
                .push(copy(alloc, rt, &out[..len]))
                .expect(rt, "memory");
        }
    }

    /// One turn of a late reader: it receives once, and asks where nothing waited, where it is
    /// asked to, or where it is done.
    fn turn(&mut self, alloc: Global, rt: &impl Abort, late: &mut LateReader) {
        let mut out = [0; 65507];
        let mut asks = true;
        if !self.queue.is_empty() {
            let bytes = self.queue.remove(0);
            asks = late.on_datagram(&bytes).expect(rt, "memory");
        }
        if asks || late.done() {
            let len = late.nack(&mut out);
            self.send(alloc, rt, &out[..len]);
        }
    }
}

#[test]
fn a_late_reader_of_three_changes_is_done_in_turn_six(rt: HostRuntime) {
    let mut link = Link {
        session: session(
            &rt,
            OWN,
            changes(rt.alloc(), &rt, &[(2, 2), (3, 2), (4, 0)]),
        ),
        queue: Vec::new(rt.alloc()),
    };
    let mut late = late(rt.alloc(), &rt);
    for _ in 0..5usize {
        link.turn(rt.alloc(), &rt, &mut late);
    }
    assert!(rt; !late.done() && late.taken().len() == 3 && !link.session.complete());
    link.turn(rt.alloc(), &rt, &mut late);
    assert!(rt; late.done() && late.taken().len() == 3 && link.session.complete());
}

#[test]
fn a_late_reader_asks_everybody_first(rt: HostRuntime) {
    let mut late = late(rt.alloc(), &rt);
    let mut out = [0; 65507];
    let len = late.nack(&mut out);
    assert!(rt; len == 64 && has(&out, 8, &LATE.0[..12]));
    assert!(rt; has(&out, 20, b"\x0e\x01\x0c\0\0\0\0\0\0\0\0\0\0\0\0\0"));
    assert!(rt;
        has(
            &out,
            36,
            b"\x06\x01\x18\0\0\0\x01\x07\x01\0\x01\x02\0\0\0\0\x01\0\0\0\0\0\0\0\x01\0\0\0"
        )
    );
}

/// A datagram comes. Where it is refused, nothing has changed, and it comes again.
fn comes(late: &mut LateReader, bytes: &[u8]) -> bool {
    let taken = late.taken().len();
    let done = late.done();
    match late.on_datagram(bytes) {
        Ok(_) => true,
        Err(_) => {
            late.taken().len() == taken && late.done() == done && late.on_datagram(bytes).is_ok()
        }
    }
}

#[test]
fn a_refused_datagram_changes_nothing(rt: HostRuntime) {
    let mut session = session(
        &rt,
        OWN,
        changes(rt.alloc(), &rt, &[(2, 2), (3, 2), (4, 0)]),
    );
    let mut late = late(rt.alloc(), &rt);
    let mut out = [0; 65507];
    let len = session.beat(&mut out);
    assert!(rt; comes(&mut late, &out[..len]));
    // The last one first, so that the one with the number 1 makes three of them ready.
    for at in [4, 3, 2, 1] {
        let len = data(&session, at, &mut out);
        assert!(rt; comes(&mut late, &out[..len]));
    }
    assert!(rt; late.done() && late.taken().len() == 3);
}

//! What the tests replay, and to whom.

ghost use Rattle.std.specs.Prelude.{◌≤◌, length};

use crate::{Ids, LateReader, Session, are_sendable};
use bytes::Bytes;
use dur_base::{
    Act, EntityId, Form, Guid, Key, List, Number, Payload, Prefix, Sample, SetMark, Ticks,
};
use dur_view::{Change, Snapshot};
use std::alloc::Global;
use std::process::Abort;

pub(crate) const OWN: Prefix = Prefix(*b"\x01\x02\x03\x04\x05\x06\x07\x08\0\0\0\x01");

pub(crate) const SERVICE: [u8; 8] = *b"\x01\x02\x03\x04\x05\x06\x07\x08";

pub(crate) const REPLAY: EntityId = EntityId(*b"\x01\0\x01\x02");

pub(crate) const LATE: Guid = Guid(
    *b"\xb2\xb2\xb2\xb2\xb2\xb2\xb2\xb2\xb2\xb2\xb2\xb2\0\0\x01\x07",
);

pub(crate) const WRITER: Guid = Guid(
    *b"\xa1\xa1\xa1\xa1\xa1\xa1\xa1\xa1\xa1\xa1\xa1\xa1\0\0\x01\x02",
);

pub(crate) const OTHER: Guid = Guid(
    *b"\xc3\xc3\xc3\xc3\xc3\xc3\xc3\xc3\xc3\xc3\xc3\xc3\0\0\x01\x02",
);

pub(crate) fn number(value: u64) -> Number {
    match Number::new(value) {
        Some(number) => number,
        None => Number::one(),
    }
}

fn mark(set: u64) -> SetMark {
    match Number::new(set) {
        Some(first) => SetMark::Of(first),
        None => SetMark::NoSet,
    }
}

/// A change of this writer, with a payload of the value 42. The set 0 is none.
pub(crate) fn change(
    alloc: Global,
    rt: &impl Abort,
    writer: Guid,
    number: Number,
    set: u64,
) -> Change {
    let payload = Bytes::copy_from_slice(alloc, b"\0\x01\0\0*\0\0\0").expect(rt, "memory");
    Change {
        original: writer,
        number,
        writer,
        sample: Sample {
            key: Key([0xaa; 16]),
            act: Act::Write,
            stamp: Ticks(5),
            lifespan: None,
            set: mark(set),
            original: Some((writer, number)),
            form: Form::Data,
            payload: Payload::of(payload),
        },
    }
}

/// Changes of one writer: of each two the number and the set.
pub(crate) fn changes(alloc: Global, rt: &impl Abort, numbers: &[(u64, u64)]) -> List<Change> {
    let mut changes = List::new(alloc);
    for (value, set) in numbers {
        let one = change(alloc, rt, WRITER, number(*value), *set);
        changes.push(one).expect(rt, "memory");
    }
    changes
}

/// A session of these changes under that prefix.
pub(crate) fn session(rt: &impl Abort, own: Prefix, changes: List<Change>) -> Session {
    let ids = Ids {
        own,
        writer: REPLAY,
        reader: LATE,
        keyed: true,
    };
    assert!(rt; are_sendable(changes.as_slice(), true));
    Session::new(Snapshot { changes }, ids)
}

pub(crate) fn late(alloc: Global, rt: &impl Abort) -> LateReader {
    LateReader::new(alloc, LATE, SERVICE, REPLAY).expect(rt, "memory")
}

/// Whether these octets stand at a place.
pub(crate) fn has(out: &[u8], at: usize, want: &[u8]) -> bool {
    if at > out.len() {
        return false;
    }
    let rest = out.split_at(at).1;
    rest.len() >= want.len() && rest[..want.len()] == want[..]
}

/// Writes the DATA of that number, if there is one, and says how many octets it takes.
pub(crate) fn data(session: &Session, at: u64, out: &mut [u8]) -> usize
    requires { 65507 ≤ length out.old }
    ensures { result ≤ length out.new }
{
    let at = number(at);
    if at.get() <= session.last().get() {
        session.data(at, out)
    } else {
        0
    }
}

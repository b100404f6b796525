//! Messages whose octets were laid out by hand from the standard's tables.
use super::*;
use bytes::Bytes;
use dur_base::{
    Act, Bits, EntityId, Fact, Form, Guid, Key, Number, Payload, Prefix, Raw, Sample, SetMark,
    Shape, Ticks,
};
use rtps_params::ListKind;
use rtps_submsg::{Sub, SubKind};
use std::alloc::Global;

/// The prefix of the service.
const OWN: Prefix = Prefix([1, 2, 3, 4, 5, 6, 7, 8, 0, 0, 0, 1]);

/// A reader of the service.
const READER: Guid = Guid([1, 2, 3, 4, 5, 6, 7, 8, 0, 0, 0, 1, 0, 0, 1, 7]);

/// Another participant's writer.
const WRITER: Guid = Guid([
    0xa1, 0xa1, 0xa1, 0xa1, 0xa1, 0xa1, 0xa1, 0xa1, 0xa1, 0xa1, 0xa1, 0xa1, 0, 0, 1, 2,
]);

/// A late reader.
const LATE: Guid = Guid([
    0xb2, 0xb2, 0xb2, 0xb2, 0xb2, 0xb2, 0xb2, 0xb2, 0xb2, 0xb2, 0xb2, 0xb2, 0, 0, 1, 7,
]);

/// The writer of its replay.
const REPLAY: EntityId = EntityId([1, 0, 1, 2]);

/// 255 bits.
const EVERY: [u32; 8] = [
    0xffff_ffff,
    0xffff_ffff,
    0xffff_ffff,
    0xffff_ffff,
    0xffff_ffff,
    0xffff_ffff,
    0xffff_ffff,
    0xffff_fffe,
];

fn stopped(at: usize, kind: SubKind) -> End {
    End::Stopped { at, kind }
}

/// Whether the message tells nothing and ends so.
fn tells_nothing(alloc: Global, bytes: &[u8], end: End) -> bool {
    match facts(alloc, bytes, OWN) {
        Ok(heard) => heard.facts.len() == 0 && heard.end == end,
        Err(_) => false,
    }
}

#[test]
fn malformed_datagrams(rt: HostRuntime) {
    let table: [(&[u8], End); 14] = [
        (
            b"RTPS\x02\x05\0\0\xa1\xa1\xa1\xa1\xa1\xa1\xa1\xa1\xa1\xa1\xa1\xa1",
            End::Whole,
        ),
        (
            b"RTPS\x02\x05\0\0\xa1\xa1\xa1\xa1\xa1\xa1\xa1\xa1\xa1\xa1\xa1\xa1\x15\x07",
            stopped(20, SubKind::Cut),
        ),
        (
            b"RTPS\x02\x05\0\0\xa1\xa1\xa1\xa1\xa1\xa1\xa1\xa1\xa1\xa1\xa1\xa1\x15\x0f\x34\0\0\0\x10\0\0\0\0\0\0\0\x01\x02\0\0\0\0\x01\0\0\0p\0\x10\0\xaa\xaa\xaa\xaa\xaa\xaa\xaa\xaa\xaa\xaa\xaa\xaa\xaa\xaa\xaa\xaa\x01\0\0\0\0\x01\0\0*\0\0\0",
            stopped(21, SubKind::BothDataAndKey),
        ),
        (
            b"RTPS\x02\x05\0\0\xa1\xa1\xa1\xa1\xa1\xa1\xa1\xa1\xa1\xa1\xa1\xa1\x15\x07\x38\0\0\0\x10\0\0\0\0\0\0\0\x01\x02\0\0\0\0\x01\0\0\0p\0\x10\0\xaa\xaa\xaa\xaa\xaa\xaa\xaa\xaa\xaa\xaa\xaa\xaa\xaa\xaa\xaa\xaa\x01\0\0\0\0\x01\0\0*\0\0\0",
            stopped(24, SubKind::Cut),
        ),
        (
            b"RTPS\x02\x05\0\0\xa1\xa1\xa1\xa1\xa1\xa1\xa1\xa1\xa1\xa1\xa1\xa1\x15\x07\x34\0\0\0\x0f\0\0\0\0\0\0\0\x01\x02\0\0\0\0\x01\0\0\0p\0\x10\0\xaa\xaa\xaa\xaa\xaa\xaa\xaa\xaa\xaa\xaa\xaa\xaa\xaa\xaa\xaa\xaa\x01\0\0\0\0\x01\0\0*\0\0\0",
            stopped(26, SubKind::BadOffset),
        ),
        (
            b"RTPS\x02\x05\0\0\xa1\xa1\xa1\xa1\xa1\xa1\xa1\xa1\xa1\xa1\xa1\xa1\x15\x07\x34\0\0\0\x10\0\0\0\0\0\0\0\x01\x02\0\0\0\0\0\0\0\0p\0\x10\0\xaa\xaa\xaa\xaa\xaa\xaa\xaa\xaa\xaa\xaa\xaa\xaa\xaa\xaa\xaa\xaa\x01\0\0\0\0\x01\0\0*\0\0\0",
            stopped(36, SubKind::BadNumber),
        ),
        (
            b"RTPS\x02\x05\0\0\xa1\xa1\xa1\xa1\xa1\xa1\xa1\xa1\xa1\xa1\xa1\xa1\x15\x07\x34\0\0\0\x10\0\0\0\0\0\0\0\x01\x02\0\0\0\0\x01\0\0\0p\0\x0e\0\xaa\xaa\xaa\xaa\xaa\xaa\xaa\xaa\xaa\xaa\xaa\xaa\xaa\xaa\xaa\xaa\x01\0\0\0\0\x01\0\0*\0\0\0",
            stopped(44, SubKind::List(ListKind::OddLength)),
        ),
        (
            b"RTPS\x02\x05\0\0\xa1\xa1\xa1\xa1\xa1\xa1\xa1\xa1\xa1\xa1\xa1\xa1\x15\x07\x34\0\0\0\x10\0\0\0\0\0\0\0\x01\x02\0\0\0\0\x01\0\0\0p\0\x0c\0\xaa\xaa\xaa\xaa\xaa\xaa\xaa\xaa\xaa\xaa\xaa\xaa\xaa\xaa\xaa\xaa\x01\0\0\0\0\x01\0\0*\0\0\0",
            stopped(44, SubKind::List(ListKind::BadValue(0x70))),
        ),
        (
            b"RTPS\x02\x05\0\0\xa1\xa1\xa1\xa1\xa1\xa1\xa1\xa1\xa1\xa1\xa1\xa1\x15\x07\x34\0\0\0\x10\0\0\0\0\0\0\0\x01\x02\0\0\0\0\x01\0\0\0p\0\x10\0\xaa\xaa\xaa\xaa\xaa\xaa\xaa\xaa\xaa\xaa\xaa\xaa\xaa\xaa\xaa\xaa\0\0\0\0\0\x01\0\0*\0\0\0",
            stopped(76, SubKind::List(ListKind::Cut)),
        ),
        (
            b"RTPS\x02\x05\0\0\xa1\xa1\xa1\xa1\xa1\xa1\xa1\xa1\xa1\xa1\xa1\xa1\x07\x01\x1c\0\0\0\0\0\0\0\x01\x02\0\0\0\0\0\0\0\0\0\0\0\0\0\0\0\0\x01\0\0\0",
            stopped(32, SubKind::BadNumber),
        ),
        (
            b"RTPS\x02\x05\0\0\xa1\xa1\xa1\xa1\xa1\xa1\xa1\xa1\xa1\xa1\xa1\xa1\x07\x01\x1c\0\0\0\0\0\0\0\x01\x02\0\0\0\0\x03\0\0\0\0\0\0\0\x01\0\0\0\x01\0\0\0",
            stopped(40, SubKind::BadRange),
        ),
        (
            b"RTPS\x02\x05\0\0\xb2\xb2\xb2\xb2\xb2\xb2\xb2\xb2\xb2\xb2\xb2\xb2\x0e\x01\x0c\0\0\0\0\0\0\0\0\0\0\0\0\0\x06\x01\x18\0\0\0\x01\x07\x01\0\x01\x02\0\0\0\0\0\0\0\0\x01\0\0\0\x01\0\0\0",
            stopped(48, SubKind::BadSet),
        ),
        (
            b"RTPS\x02\x05\0\0\xb2\xb2\xb2\xb2\xb2\xb2\xb2\xb2\xb2\xb2\xb2\xb2\x0e\x01\x0c\0\0\0\0\0\0\0\0\0\0\0\0\0\x06\x01\x18\0\0\0\x01\x07\x01\0\x01\x02\0\0\0\0\x01\0\0\0\x01\x01\0\0\x01\0\0\0",
            stopped(56, SubKind::BadSet),
        ),
        (
            b"RTPS\x03\x05\0\0\xa1\xa1\xa1\xa1\xa1\xa1\xa1\xa1\xa1\xa1\xa1\xa1\x15\x07\x34\0\0\0\x10\0\0\0\0\0\0\0\x01\x02\0\0\0\0\x01\0\0\0p\0\x10\0\xaa\xaa\xaa\xaa\xaa\xaa\xaa\xaa\xaa\xaa\xaa\xaa\xaa\xaa\xaa\xaa\x01\0\0\0\0\x01\0\0*\0\0\0",
            End::BadHeader,
        ),
    ];
    for (bytes, end) in table {
        assert!(rt; tells_nothing(rt.alloc(), bytes, end));
    }
}

/// A fact's letter and its stamp's seconds, or those of no stamp.
fn letter(fact: &Fact) -> (char, u64) {
    match fact {
        Fact::Data { raw, .. } => match raw.stamp {
            Some(ticks) => ('d', ticks.0 >> 32),
            None => ('d', 0),
        },
        Fact::Unreadable { .. } => ('u', 0),
        Fact::Gap { .. } => ('g', 0),
        Fact::Beat { .. } => ('b', 0),
        Fact::Nack { .. } => ('n', 0),
    }
}

fn tells(alloc: Global, bytes: &[u8], want: &[(char, u64)]) -> bool {
    match facts(alloc, bytes, OWN) {
        Ok(heard) => {
            let told = heard.facts.as_slice();
            if heard.end != End::Whole || told.len() != want.len() {
                return false;
            }
            told.iter()
                .zip(want.iter())
                .all(|(fact, one)| letter(fact) == *one)
        }
        Err(_) => false,
    }
}

#[test]
fn source_destination_and_time(rt: HostRuntime) {
    // A time and the own prefix, a DATA; another source, a DATA; for another one, a HEARTBEAT; for
    // everybody, an ACKNACK.
    let message =
        b"RTPS\x02\x05\0\0\xa1\xa1\xa1\xa1\xa1\xa1\xa1\xa1\xa1\xa1\xa1\xa1\x09\x01\x08\0\x0a\0\0\0\0\0\0\0\x0e\x01\x0c\0\x01\x02\x03\x04\x05\x06\x07\x08\0\0\0\x01\x15\x07\x34\0\0\0\x10\0\0\0\0\0\0\0\x01\x02\0\0\0\0\x01\0\0\0p\0\x10\0\xaa\xaa\xaa\xaa\xaa\xaa\xaa\xaa\xaa\xaa\xaa\xaa\xaa\xaa\xaa\xaa\x01\0\0\0\0\x01\0\0*\0\0\0\x0c\x01\x14\0\0\0\0\0\x02\x05\0\0\xb2\xb2\xb2\xb2\xb2\xb2\xb2\xb2\xb2\xb2\xb2\xb2\x15\x07\x34\0\0\0\x10\0\0\0\0\0\0\0\x01\x02\0\0\0\0\x01\0\0\0p\0\x10\0\xaa\xaa\xaa\xaa\xaa\xaa\xaa\xaa\xaa\xaa\xaa\xaa\xaa\xaa\xaa\xaa\x01\0\0\0\0\x01\0\0*\0\0\0\x0e\x01\x0c\0\xc3\xc3\xc3\xc3\xc3\xc3\xc3\xc3\xc3\xc3\xc3\xc3\x07\x01\x1c\0\0\0\0\0\0\0\x01\x02\0\0\0\0\x01\0\0\0\0\0\0\0\x01\0\0\0\x01\0\0\0\x0e\x01\x0c\0\0\0\0\0\0\0\0\0\0\0\0\0\x06\x01\x18\0\0\0\x01\x07\x01\0\x01\x02\0\0\0\0\x01\0\0\0\0\0\0\0\x01\0\0\0";
    assert!(rt; tells(rt.alloc(), message, &[('d', 10), ('d', 0), ('n', 0)]));
    one_hearing(message);
}

/// The key of a sample with that payload and no hash.
fn key_of(alloc: Global, shape: Shape, form: Form, payload: &[u8]) -> Option<(Key, Act)> {
    let payload = Payload::of(Bytes::copy_from_slice(alloc, payload).ok()?);
    let raw = Raw {
        hash: None,
        status: 0,
        stamp: None,
        lifespan: None,
        set: SetMark::NoSet,
        original: None,
        form,
        payload,
    };
    if !raw.is_good() {
        return None;
    }
    let sample = sample_of(shape, Ticks(9), raw)?;
    Some((sample.key, sample.act))
}

#[test]
fn keys(rt: HostRuntime) {
    changes_read_again();
    markers_read_again();
    let seven = Key([0, 0, 0, 7, 0, 0, 0, 0, 0, 0, 0, 0, 0, 0, 0, 0]);
    let red = Key([
        0xe5, 0xbe, 0x94, 0xcc, 0x34, 0x74, 0x11, 0x1a, 0x79, 0x94, 0xc7, 0xe8, 0x9e, 0x6b, 0xec,
        0x3d,
    ]);
    let table: [(Shape, Form, &[u8], Option<(Key, Act)>); 7] = [
        (
            Shape::U32,
            Form::Data,
            b"\0\0\0\0\0\0\0\x07",
            Some((seven, Act::Write)),
        ),
        (
            Shape::U32,
            Form::Data,
            b"\0\x01\0\0\x07\0\0\0",
            Some((seven, Act::Write)),
        ),
        (
            Shape::Text,
            Form::Data,
            b"\0\x01\0\0\x04\0\0\0red\0",
            Some((red, Act::Write)),
        ),
        (Shape::Hash, Form::Data, b"\0\0\0\0\0\0\0\x07", None),
        (Shape::Hash, Form::Data, b"\0\x01\0\0\x04\0\0\0red\0", None),
        (Shape::U32, Form::KeyOnly, b"\0\0\0\0\0\0\0\x07", None),
        (
            Shape::Hash,
            Form::Nothing,
            b"",
            Some((Key([0; 16]), Act::Marker)),
        ),
    ];
    for (shape, form, payload, want) in table {
        assert!(rt; key_of(rt.alloc(), shape, form, payload) == want);
    }
}

fn begins(out: &[u8], want: &[u8]) -> bool {
    out.len() >= want.len() && out[..want.len()] == want[..]
}

fn bits(base: u64, words: [u32; 8]) -> Bits {
    match Number::new(base) {
        Some(base) => Bits::of(base, words),
        None => Bits::empty(Number::one()),
    }
}

#[test]
fn acknacks_are_written(rt: HostRuntime) {
    let mut out = [0; 65507];
    let len = write_acknack(
        READER,
        WRITER,
        &bits(2, [0x8000_0000, 0, 0, 0, 0, 0, 0, 0]),
        true,
        1,
        &mut out,
    );
    assert!(rt;
        len == 68
            && begins(
                &out,
                b"RTPS\x02\x05\0\0\x01\x02\x03\x04\x05\x06\x07\x08\0\0\0\x01\x0e\x01\x0c\0\xa1\xa1\xa1\xa1\xa1\xa1\xa1\xa1\xa1\xa1\xa1\xa1\x06\x03\x1c\0\0\0\x01\x07\0\0\x01\x02\0\0\0\0\x02\0\0\0\x01\0\0\0\0\0\0\x80\x01\0\0\0"
            )
    );
    let len = write_acknack(READER, WRITER, &bits(1, EVERY), true, 1, &mut out);
    assert!(rt;
        len == 96
            && begins(
                &out,
                b"RTPS\x02\x05\0\0\x01\x02\x03\x04\x05\x06\x07\x08\0\0\0\x01\x0e\x01\x0c\0\xa1\xa1\xa1\xa1\xa1\xa1\xa1\xa1\xa1\xa1\xa1\xa1\x06\x03\x38\0\0\0\x01\x07\0\0\x01\x02\0\0\0\0\x01\0\0\0\xff\0\0\0\xff\xff\xff\xff\xff\xff\xff\xff\xff\xff\xff\xff\xff\xff\xff\xff\xff\xff\xff\xff\xff\xff\xff\xff\xff\xff\xff\xff\xfe\xff\xff\xff\x01\0\0\0"
            )
    );
    let len = write_acknack(
        READER,
        WRITER,
        &bits(0x100_0000_0000, [0; 8]),
        true,
        1,
        &mut out,
    );
    assert!(rt;
        len == 64
            && begins(
                &out,
                b"RTPS\x02\x05\0\0\x01\x02\x03\x04\x05\x06\x07\x08\0\0\0\x01\x0e\x01\x0c\0\xa1\xa1\xa1\xa1\xa1\xa1\xa1\xa1\xa1\xa1\xa1\xa1\x06\x03\x18\0\0\0\x01\x07\0\0\x01\x02\0\x01\0\0\0\0\0\0\0\0\0\0\x01\0\0\0"
            )
    );
    let len = write_acknack(READER, WRITER, &bits(1, [0; 8]), false, 1, &mut out);
    assert!(rt;
        len == 64
            && begins(
                &out,
                b"RTPS\x02\x05\0\0\x01\x02\x03\x04\x05\x06\x07\x08\0\0\0\x01\x0e\x01\x0c\0\xa1\xa1\xa1\xa1\xa1\xa1\xa1\xa1\xa1\xa1\xa1\xa1\x06\x01\x18\0\0\0\x01\x07\0\0\x01\x02\0\0\0\0\x01\0\0\0\0\0\0\0\x01\0\0\0"
            )
    );
    let len = write_acknack(READER, WRITER, &bits(2, [0; 8]), true, 2, &mut out);
    assert!(rt;
        len == 64
            && begins(
                &out,
                b"RTPS\x02\x05\0\0\x01\x02\x03\x04\x05\x06\x07\x08\0\0\0\x01\x0e\x01\x0c\0\xa1\xa1\xa1\xa1\xa1\xa1\xa1\xa1\xa1\xa1\xa1\xa1\x06\x03\x18\0\0\0\x01\x07\0\0\x01\x02\0\0\0\0\x02\0\0\0\0\0\0\0\x02\0\0\0"
            )
    );
}

#[test]
fn a_heartbeat_and_a_marker_are_written(rt: HostRuntime) {
    let mut out = [0; 65507];
    let len = write_heartbeat(OWN, LATE, REPLAY, Number::one(), 1, &mut out);
    assert!(rt;
        len == 68
            && begins(
                &out,
                b"RTPS\x02\x05\0\0\x01\x02\x03\x04\x05\x06\x07\x08\0\0\0\x01\x0e\x01\x0c\0\xb2\xb2\xb2\xb2\xb2\xb2\xb2\xb2\xb2\xb2\xb2\xb2\x07\x01\x1c\0\0\0\x01\x07\x01\0\x01\x02\0\0\0\0\x01\0\0\0\0\0\0\0\x01\0\0\0\x01\0\0\0"
            )
    );
    let len = write_marker(OWN, LATE, REPLAY, Number::one(), &mut out);
    assert!(rt;
        len == 76
            && begins(
                &out,
                b"RTPS\x02\x05\0\0\x01\x02\x03\x04\x05\x06\x07\x08\0\0\0\x01\x0e\x01\x0c\0\xb2\xb2\xb2\xb2\xb2\xb2\xb2\xb2\xb2\xb2\xb2\xb2\x15\x03$\0\0\0\x10\0\0\0\x01\x07\x01\0\x01\x02\0\0\0\0\x01\0\0\0V\0\x08\0\xff\xff\xff\xff\0\0\0\0\x01\0\0\0"
            )
    );
}

#[test]
fn a_change_is_written(rt: HostRuntime) {
    let payload = Bytes::copy_from_slice(rt.alloc(), b"\0\x01\0\0*\0\0\0").expect(&rt, "memory");
    let mut sample = Sample {
        key: Key([0xaa; 16]),
        act: Act::Write,
        stamp: Ticks(5),
        lifespan: None,
        set: SetMark::NoSet,
        original: Some((WRITER, Number::one())),
        form: Form::Data,
        payload: Payload::of(payload),
    };
    let mut out = [0; 65507];
    assert!(rt; sample.is_good());
    let len = write_data(OWN, LATE, REPLAY, Number::one(), &sample, true, &mut out);
    assert!(rt;
        len == 136
            && begins(
                &out,
                b"RTPS\x02\x05\0\0\x01\x02\x03\x04\x05\x06\x07\x08\0\0\0\x01\x0e\x01\x0c\0\xb2\xb2\xb2\xb2\xb2\xb2\xb2\xb2\xb2\xb2\xb2\xb2\x09\x01\x08\0\0\0\0\0\x05\0\0\0\x15\x07T\0\0\0\x10\0\0\0\x01\x07\x01\0\x01\x02\0\0\0\0\x01\0\0\0p\0\x10\0\xaa\xaa\xaa\xaa\xaa\xaa\xaa\xaa\xaa\xaa\xaa\xaa\xaa\xaa\xaa\xaaa\0\x1c\0\xa1\xa1\xa1\xa1\xa1\xa1\xa1\xa1\xa1\xa1\xa1\xa1\0\0\x01\x02\0\0\0\0\x01\0\0\0\x01\0\0\0\x01\0\0\0\0\x01\0\0*\0\0\0"
            )
    );
    // The mark of a set stands behind the original.
    sample.set = SetMark::Of(Number::one());
    assert!(rt; sample.is_good());
    let len = write_data(OWN, LATE, REPLAY, Number::one(), &sample, true, &mut out);
    assert!(rt;
        len == 148
            && begins(
                &out[124..],
                b"V\0\x08\0\0\0\0\0\x01\0\0\0\x01\0\0\0\0\x01\0\0*\0\0\0"
            )
    );
}

#[test]
fn a_message_is_written(rt: HostRuntime) {
    let mut out = [7; 26];
    let len = write_message(OWN, &[Sub::InfoTs(None)], &mut out);
    assert!(rt; len == 24);
    assert!(rt;
        out == *b"RTPS\x02\x05\0\0\x01\x02\x03\x04\x05\x06\x07\x08\0\0\0\x01\x09\x03\0\0\x07\x07"
    );
}

//! Messages whose octets were laid out by hand from the standard's tables.
use super::*;
use dur_base::{Fact, Guid, Key, Number, Prefix};
use rtps_message::End;
use rtps_params::ListKind;
use rtps_submsg::SubKind;
use std::alloc::Global;

/// The prefix of the service.
const OWN: Prefix = Prefix([1, 2, 3, 4, 5, 6, 7, 8, 0, 0, 0, 1]);

/// A reader of the service.
const READER: Guid = Guid([1, 2, 3, 4, 5, 6, 7, 8, 0, 0, 0, 1, 0, 0, 1, 7]);

/// Another participant's writer.
const WRITER: Guid = Guid([
    0xa1, 0xa1, 0xa1, 0xa1, 0xa1, 0xa1, 0xa1, 0xa1, 0xa1, 0xa1, 0xa1, 0xa1, 0, 0, 1, 2,
]);

/// Fragment 1 of a sample of 20 octets in fragments of 8.
const FIRST: &[u8] =
    b"RTPS\x02\x05\0\0\xa1\xa1\xa1\xa1\xa1\xa1\xa1\xa1\xa1\xa1\xa1\xa1\x16\x03@\0\0\0\x1c\0\0\0\0\0\0\0\x01\x02\0\0\0\0\x01\0\0\0\x01\0\0\0\x01\0\x08\0\x14\0\0\0p\0\x10\0\xaa\xaa\xaa\xaa\xaa\xaa\xaa\xaa\xaa\xaa\xaa\xaa\xaa\xaa\xaa\xaa\x01\0\0\0\0\x01\0\0abcd";

/// Fragment 2.
const SECOND: &[u8] =
    b"RTPS\x02\x05\0\0\xa1\xa1\xa1\xa1\xa1\xa1\xa1\xa1\xa1\xa1\xa1\xa1\x16\x03@\0\0\0\x1c\0\0\0\0\0\0\0\x01\x02\0\0\0\0\x01\0\0\0\x02\0\0\0\x01\0\x08\0\x14\0\0\0p\0\x10\0\xaa\xaa\xaa\xaa\xaa\xaa\xaa\xaa\xaa\xaa\xaa\xaa\xaa\xaa\xaa\xaa\x01\0\0\0efghijkl";

/// Fragment 2 with other octets.
const OTHER_SECOND: &[u8] =
    b"RTPS\x02\x05\0\0\xa1\xa1\xa1\xa1\xa1\xa1\xa1\xa1\xa1\xa1\xa1\xa1\x16\x03@\0\0\0\x1c\0\0\0\0\0\0\0\x01\x02\0\0\0\0\x01\0\0\0\x02\0\0\0\x01\0\x08\0\x14\0\0\0p\0\x10\0\xaa\xaa\xaa\xaa\xaa\xaa\xaa\xaa\xaa\xaa\xaa\xaa\xaa\xaa\xaa\xaa\x01\0\0\0XXXXXXXX";

/// Fragment 3, of 4 octets.
const THIRD: &[u8] =
    b"RTPS\x02\x05\0\0\xa1\xa1\xa1\xa1\xa1\xa1\xa1\xa1\xa1\xa1\xa1\xa1\x16\x03<\0\0\0\x1c\0\0\0\0\0\0\0\x01\x02\0\0\0\0\x01\0\0\0\x03\0\0\0\x01\0\x08\0\x14\0\0\0p\0\x10\0\xaa\xaa\xaa\xaa\xaa\xaa\xaa\xaa\xaa\xaa\xaa\xaa\xaa\xaa\xaa\xaa\x01\0\0\0mnop";

/// Fragments 2 and 3.
const LAST_TWO: &[u8] =
    b"RTPS\x02\x05\0\0\xa1\xa1\xa1\xa1\xa1\xa1\xa1\xa1\xa1\xa1\xa1\xa1\x16\x03D\0\0\0\x1c\0\0\0\0\0\0\0\x01\x02\0\0\0\0\x01\0\0\0\x02\0\0\0\x02\0\x08\0\x14\0\0\0p\0\x10\0\xaa\xaa\xaa\xaa\xaa\xaa\xaa\xaa\xaa\xaa\xaa\xaa\xaa\xaa\xaa\xaa\x01\0\0\0efghijklmnop";

/// All of them.
const EVERY: &[u8] =
    b"RTPS\x02\x05\0\0\xa1\xa1\xa1\xa1\xa1\xa1\xa1\xa1\xa1\xa1\xa1\xa1\x16\x03L\0\0\0\x1c\0\0\0\0\0\0\0\x01\x02\0\0\0\0\x01\0\0\0\x01\0\0\0\x03\0\x08\0\x14\0\0\0p\0\x10\0\xaa\xaa\xaa\xaa\xaa\xaa\xaa\xaa\xaa\xaa\xaa\xaa\xaa\xaa\xaa\xaa\x01\0\0\0\0\x01\0\0abcdefghijklmnop";

/// Fragment 1 of 4 octets.
const WIDER: &[u8] =
    b"RTPS\x02\x05\0\0\xa1\xa1\xa1\xa1\xa1\xa1\xa1\xa1\xa1\xa1\xa1\xa1\x16\x03<\0\0\0\x1c\0\0\0\0\0\0\0\x01\x02\0\0\0\0\x01\0\0\0\x01\0\0\0\x01\0\x04\0\x14\0\0\0p\0\x10\0\xaa\xaa\xaa\xaa\xaa\xaa\xaa\xaa\xaa\xaa\xaa\xaa\xaa\xaa\xaa\xaa\x01\0\0\0\0\x01\0\0";

/// Fragment 3 without a key hash.
const THIRD_WITHOUT_HASH: &[u8] =
    b"RTPS\x02\x05\0\0\xa1\xa1\xa1\xa1\xa1\xa1\xa1\xa1\xa1\xa1\xa1\xa1\x16\x03(\0\0\0\x1c\0\0\0\0\0\0\0\x01\x02\0\0\0\0\x01\0\0\0\x03\0\0\0\x01\0\x08\0\x14\0\0\0\x01\0\0\0mnop";

/// All of them, with a parameter that must be understood.
const STRANGE: &[u8] =
    b"RTPS\x02\x05\0\0\xa1\xa1\xa1\xa1\xa1\xa1\xa1\xa1\xa1\xa1\xa1\xa1\x16\x03<\0\0\0\x1c\0\0\0\0\0\0\0\x01\x02\0\0\0\0\x01\0\0\0\x01\0\0\0\x03\0\x08\0\x14\0\0\x004@\0\0\x01\0\0\0\0\x01\0\0abcdefghijklmnop";

/// All of them and a HEARTBEAT_FRAG, for another participant.
const FOR_OTHERS: &[u8] =
    b"RTPS\x02\x05\0\0\xa1\xa1\xa1\xa1\xa1\xa1\xa1\xa1\xa1\xa1\xa1\xa1\x0e\x01\x0c\0\xb2\xb2\xb2\xb2\xb2\xb2\xb2\xb2\xb2\xb2\xb2\xb2\x16\x03L\0\0\0\x1c\0\0\0\0\0\0\0\x01\x02\0\0\0\0\x01\0\0\0\x01\0\0\0\x03\0\x08\0\x14\0\0\0p\0\x10\0\xaa\xaa\xaa\xaa\xaa\xaa\xaa\xaa\xaa\xaa\xaa\xaa\xaa\xaa\xaa\xaa\x01\0\0\0\0\x01\0\0abcdefghijklmnop\x13\x01\x18\0\0\0\0\0\0\0\x01\x02\0\0\0\0\x01\0\0\0\x03\0\0\0\x01\0\0\0";

/// A sample of 65,345 octets.
const TOO_LONG: &[u8] =
    b"RTPS\x02\x05\0\0\xa1\xa1\xa1\xa1\xa1\xa1\xa1\xa1\xa1\xa1\xa1\xa1\x16\x03@\0\0\0\x1c\0\0\0\0\0\0\0\x01\x02\0\0\0\0\x01\0\0\0\x01\0\0\0\x01\0\x08\0A\xff\0\0p\0\x10\0\xaa\xaa\xaa\xaa\xaa\xaa\xaa\xaa\xaa\xaa\xaa\xaa\xaa\xaa\xaa\xaa\x01\0\0\0\0\x01\0\0abcd";

/// A HEARTBEAT_FRAG of three fragments.
const BEAT: &[u8] =
    b"RTPS\x02\x05\0\0\xa1\xa1\xa1\xa1\xa1\xa1\xa1\xa1\xa1\xa1\xa1\xa1\x13\x01\x18\0\0\0\0\0\0\0\x01\x02\0\0\0\0\x01\0\0\0\x03\0\0\0\x01\0\0\0";

/// A HEARTBEAT_FRAG of nine fragments.
const HIGH_BEAT: &[u8] =
    b"RTPS\x02\x05\0\0\xa1\xa1\xa1\xa1\xa1\xa1\xa1\xa1\xa1\xa1\xa1\xa1\x13\x01\x18\0\0\0\0\0\0\0\x01\x02\0\0\0\0\x01\0\0\0\x09\0\0\0\x01\0\0\0";

/// A NACK_FRAG.
const NACK: &[u8] =
    b"RTPS\x02\x05\0\0\xa1\xa1\xa1\xa1\xa1\xa1\xa1\xa1\xa1\xa1\xa1\xa1\x12\x01 \0\0\0\x01\x07\0\0\x01\x02\0\0\0\0\x01\0\0\0\x02\0\0\0\x01\0\0\0\0\0\0\x80\x01\0\0\0";

/// How many facts and asks it tells, or None for want of memory.
fn told(alloc: Global, joiner: &mut Joiner, bytes: &[u8]) -> Option<(usize, usize)> {
    match joiner.hear(alloc, bytes, OWN) {
        Ok(heard) => Some((heard.facts.len(), heard.asks.len())),
        Err(_) => None,
    }
}

/// Whether the datagram tells just the sample, with its key hash and its 20 octets.
fn completes(alloc: Global, joiner: &mut Joiner, bytes: &[u8]) -> bool {
    match joiner.hear(alloc, bytes, OWN) {
        Ok(heard) => match heard.facts.as_slice() {
            [Fact::Data { writer, raw, .. }] => {
                *writer == WRITER
                    && raw.hash == Some(Key([0xaa; 16]))
                    && raw.payload.as_slice() == b"\0\x01\0\0abcdefghijklmnop".as_slice()
            }
            _ => false,
        },
        Err(_) => false,
    }
}

#[test]
fn fragments_come_in_any_order(rt: HostRuntime) {
    let mut joiner = Joiner::new(rt.alloc()).expect(&rt, "memory");
    for bytes in [THIRD, SECOND, OTHER_SECOND, THIRD, WIDER, SECOND] {
        assert!(rt; told(rt.alloc(), &mut joiner, bytes) == Some((0, 0)));
    }
    assert!(rt; joiner.open() == 1);
    assert!(rt; completes(rt.alloc(), &mut joiner, FIRST));
    assert!(rt; joiner.open() == 0);
    // It opens anew; the key hash is that of fragment 1, and a submessage may bring several.
    assert!(rt; told(rt.alloc(), &mut joiner, FIRST) == Some((0, 0)));
    assert!(rt; told(rt.alloc(), &mut joiner, SECOND) == Some((0, 0)));
    assert!(rt; completes(rt.alloc(), &mut joiner, THIRD_WITHOUT_HASH));
    assert!(rt; told(rt.alloc(), &mut joiner, FIRST) == Some((0, 0)));
    assert!(rt; completes(rt.alloc(), &mut joiner, LAST_TWO));
    assert!(rt; completes(rt.alloc(), &mut joiner, EVERY));
    assert!(rt; joiner.open() == 0);
}

#[test]
fn what_tells_no_sample(rt: HostRuntime) {
    let mut joiner = Joiner::new(rt.alloc()).expect(&rt, "memory");
    assert!(rt; told(rt.alloc(), &mut joiner, FOR_OTHERS) == Some((0, 0)));
    assert!(rt; told(rt.alloc(), &mut joiner, NACK) == Some((0, 0)));
    assert!(rt; told(rt.alloc(), &mut joiner, BEAT) == Some((0, 0)));
    assert!(rt; joiner.open() == 0);
    for bytes in [TOO_LONG, STRANGE] {
        match joiner.hear(rt.alloc(), bytes, OWN) {
            Ok(heard) => assert!(rt; matches!(heard.facts.as_slice(), [Fact::Unreadable { .. }])),
            Err(_) => assert!(rt; false),
        }
    }
    assert!(rt; joiner.open() == 0);
}

fn begins(out: &[u8], want: &[u8]) -> bool {
    out.len() >= want.len() && out[..want.len()] == want[..]
}

/// Whether the datagram asks for fragment 2 alone.
fn asks_for_the_second(alloc: Global, joiner: &mut Joiner, bytes: &[u8]) -> bool {
    match joiner.hear(alloc, bytes, OWN) {
        Ok(heard) => match heard.asks.as_slice() {
            [ask] => {
                ask.writer == WRITER
                    && (ask.base == 2 && ask.count == 1)
                    && ask.words == [0x8000_0000, 0, 0, 0, 0, 0, 0, 0]
            }
            _ => false,
        },
        Err(_) => false,
    }
}

#[test]
fn the_missing_ones_are_asked_for(rt: HostRuntime) {
    let mut joiner = Joiner::new(rt.alloc()).expect(&rt, "memory");
    assert!(rt; told(rt.alloc(), &mut joiner, FIRST) == Some((0, 0)));
    assert!(rt; told(rt.alloc(), &mut joiner, THIRD) == Some((0, 0)));
    assert!(rt; asks_for_the_second(rt.alloc(), &mut joiner, BEAT));
    assert!(rt; asks_for_the_second(rt.alloc(), &mut joiner, HIGH_BEAT));
}

#[test]
fn a_nack_frag_is_written(rt: HostRuntime) {
    let ask = FragAsk {
        writer: WRITER,
        number: Number::one(),
        base: 2,
        count: 1,
        words: [0x8000_0000, 0, 0, 0, 0, 0, 0, 0],
    };
    let mut out = [0; 65507];
    let len = write_nack_frag(READER, WRITER, &ask, 1, &mut out);
    assert!(rt;
        len == 72
            && begins(
                &out,
                b"RTPS\x02\x05\0\0\x01\x02\x03\x04\x05\x06\x07\x08\0\0\0\x01\x0e\x01\x0c\0\xa1\xa1\xa1\xa1\xa1\xa1\xa1\xa1\xa1\xa1\xa1\xa1\x12\x01 \0\0\0\x01\x07\0\0\x01\x02\0\0\0\0\x01\0\0\0\x02\0\0\0\x01\0\0\0\0\0\0\x80\x01\0\0\0"
            )
    );
}

#[test]
fn the_sample_opened_first_is_given_up(rt: HostRuntime) {
    let mut joiner = Joiner::new(rt.alloc()).expect(&rt, "memory");
    let mut bytes =
        *b"RTPS\x02\x05\0\0\xa1\xa1\xa1\xa1\xa1\xa1\xa1\xa1\xa1\xa1\xa1\xa1\x16\x03@\0\0\0\x1c\0\0\0\0\0\0\0\x01\x02\0\0\0\0\x01\0\0\0\x01\0\0\0\x01\0\x08\0\x14\0\0\0p\0\x10\0\xaa\xaa\xaa\xaa\xaa\xaa\xaa\xaa\xaa\xaa\xaa\xaa\xaa\xaa\xaa\xaa\x01\0\0\0\0\x01\0\0abcd";
    for number in 1..=65 {
        bytes[40] = number;
        assert!(rt; told(rt.alloc(), &mut joiner, &bytes) == Some((0, 0)));
    }
    assert!(rt; joiner.open() == 64);
    // Sample 1 opens anew behind sample 65, and sample 2 is given up.
    assert!(rt; told(rt.alloc(), &mut joiner, LAST_TWO) == Some((0, 0)));
    assert!(rt; completes(rt.alloc(), &mut joiner, FIRST));
    assert!(rt; joiner.open() == 63);
}

/// Whether the message tells nothing, opens nothing and ends so.
fn stops(alloc: Global, joiner: &mut Joiner, bytes: &[u8], at: usize, kind: SubKind) -> bool {
    match joiner.hear(alloc, bytes, OWN) {
        Ok(heard) => {
            heard.facts.len() == 0
                && heard.asks.len() == 0
                && heard.end == (End::Stopped { at, kind })
        }
        Err(_) => false,
    }
}

#[test]
fn malformed_fragments(rt: HostRuntime) {
    let table: [(&[u8], usize, SubKind); 22] = [
        (
            b"RTPS\x02\x05\0\0\xa1\xa1\xa1\xa1\xa1\xa1\xa1\xa1\xa1\xa1\xa1\xa1\x16\x01\x01\0\0",
            24,
            SubKind::Cut,
        ),
        (
            b"RTPS\x02\x05\0\0\xa1\xa1\xa1\xa1\xa1\xa1\xa1\xa1\xa1\xa1\xa1\xa1\x16\x01\x02\0\0\0",
            26,
            SubKind::Cut,
        ),
        (
            b"RTPS\x02\x05\0\0\xa1\xa1\xa1\xa1\xa1\xa1\xa1\xa1\xa1\xa1\xa1\xa1\x16\x01(\0\0\0\x1b\0\0\0\0\0\0\0\x01\x02\0\0\0\0\x01\0\0\0\x01\0\0\0\x01\0\x08\0\x14\0\0\0\0\x01\0\0abcd",
            26,
            SubKind::BadOffset,
        ),
        (
            b"RTPS\x02\x05\0\0\xa1\xa1\xa1\xa1\xa1\xa1\xa1\xa1\xa1\xa1\xa1\xa1\x16\x01\x1f\0\0\0\x1c\0\0\0\0\0\0\0\x01\x02\0\0\0\0\x01\0\0\0\x01\0\0\0\x01\0\x08\0\x14\0\0",
            26,
            SubKind::BadOffset,
        ),
        (
            b"RTPS\x02\x05\0\0\xa1\xa1\xa1\xa1\xa1\xa1\xa1\xa1\xa1\xa1\xa1\xa1\x16\x01(\0\0\0\x1c\0\0\0\0\0\0\0\x01\x02\0\0\0\0\0\0\0\0\x01\0\0\0\x01\0\x08\0\x14\0\0\0\0\x01\0\0abcd",
            36,
            SubKind::BadNumber,
        ),
        (
            b"RTPS\x02\x05\0\0\xa1\xa1\xa1\xa1\xa1\xa1\xa1\xa1\xa1\xa1\xa1\xa1\x16\x01(\0\0\0\x1c\0\0\0\0\0\0\0\x01\x02\0\0\0\0\x01\0\0\0\0\0\0\0\x01\0\x08\0\x14\0\0\0\0\x01\0\0abcd",
            44,
            SubKind::BadRange,
        ),
        (
            b"RTPS\x02\x05\0\0\xa1\xa1\xa1\xa1\xa1\xa1\xa1\xa1\xa1\xa1\xa1\xa1\x16\x01(\0\0\0\x1c\0\0\0\0\0\0\0\x01\x02\0\0\0\0\x01\0\0\0\x01\0\0\0\0\0\x08\0\x14\0\0\0\0\x01\0\0abcd",
            48,
            SubKind::BadRange,
        ),
        (
            b"RTPS\x02\x05\0\0\xa1\xa1\xa1\xa1\xa1\xa1\xa1\xa1\xa1\xa1\xa1\xa1\x16\x01(\0\0\0\x1c\0\0\0\0\0\0\0\x01\x02\0\0\0\0\x01\0\0\0\x01\0\0\0\x01\0\0\0\x14\0\0\0\0\x01\0\0abcd",
            50,
            SubKind::BadRange,
        ),
        (
            b"RTPS\x02\x05\0\0\xa1\xa1\xa1\xa1\xa1\xa1\xa1\xa1\xa1\xa1\xa1\xa1\x16\x01(\0\0\0\x1c\0\0\0\0\0\0\0\x01\x02\0\0\0\0\x01\0\0\0\x01\0\0\0\x01\0\x08\0\0\0\0\0\0\x01\0\0abcd",
            52,
            SubKind::BadRange,
        ),
        (
            b"RTPS\x02\x05\0\0\xa1\xa1\xa1\xa1\xa1\xa1\xa1\xa1\xa1\xa1\xa1\xa1\x16\x01(\0\0\0\x1c\0\0\0\0\0\0\0\x01\x02\0\0\0\0\x01\0\0\0\x04\0\0\0\x01\0\x08\0\x14\0\0\0\0\x01\0\0abcd",
            52,
            SubKind::BadRange,
        ),
        (
            b"RTPS\x02\x05\0\0\xa1\xa1\xa1\xa1\xa1\xa1\xa1\xa1\xa1\xa1\xa1\xa1\x16\x01(\0\0\0\x1c\0\0\0\0\0\0\0\x01\x02\0\0\0\0\x01\0\0\0\x03\0\0\0\x02\0\x08\0\x14\0\0\0\0\x01\0\0abcd",
            52,
            SubKind::BadRange,
        ),
        (
            b"RTPS\x02\x05\0\0\xa1\xa1\xa1\xa1\xa1\xa1\xa1\xa1\xa1\xa1\xa1\xa1\x16\x03>\0\0\0\x1c\0\0\0\0\0\0\0\x01\x02\0\0\0\0\x01\0\0\0\x01\0\0\0\x01\0\x08\0\x14\0\0\0p\0\x0e\0\xaa\xaa\xaa\xaa\xaa\xaa\xaa\xaa\xaa\xaa\xaa\xaa\xaa\xaa\x01\0\0\0\0\x01\0\0abcd",
            56,
            SubKind::List(ListKind::OddLength),
        ),
        (
            b"RTPS\x02\x05\0\0\xa1\xa1\xa1\xa1\xa1\xa1\xa1\xa1\xa1\xa1\xa1\xa1\x16\x01'\0\0\0\x1c\0\0\0\0\0\0\0\x01\x02\0\0\0\0\x01\0\0\0\x01\0\0\0\x01\0\x08\0\x14\0\0\0\0\x01\0\0abc",
            56,
            SubKind::Cut,
        ),
        (
            b"RTPS\x02\x05\0\0\xa1\xa1\xa1\xa1\xa1\xa1\xa1\xa1\xa1\xa1\xa1\xa1\x16\x03G\0\0\0\x1c\0\0\0\0\0\0\0\x01\x02\0\0\0\0\x01\0\0\0\x01\0\0\0\x02\0\x08\0\x14\0\0\0p\0\x10\0\xaa\xaa\xaa\xaa\xaa\xaa\xaa\xaa\xaa\xaa\xaa\xaa\xaa\xaa\xaa\xaa\x01\0\0\0\0\x01\0\0abcdefghijk",
            80,
            SubKind::Cut,
        ),
        (
            b"RTPS\x02\x05\0\0\xa1\xa1\xa1\xa1\xa1\xa1\xa1\xa1\xa1\xa1\xa1\xa1\x16\x01#\0\0\0\x1c\0\0\0\0\0\0\0\x01\x02\0\0\0\0\x01\0\0\0\x03\0\0\0\x01\0\x08\0\x14\0\0\0mno",
            56,
            SubKind::Cut,
        ),
        (
            b"RTPS\x02\x05\0\0\xa1\xa1\xa1\xa1\xa1\xa1\xa1\xa1\xa1\xa1\xa1\xa1\x13\x01\x03\0\0\0\0",
            24,
            SubKind::Cut,
        ),
        (
            b"RTPS\x02\x05\0\0\xa1\xa1\xa1\xa1\xa1\xa1\xa1\xa1\xa1\xa1\xa1\xa1\x13\x01\x07\0\0\0\0\0\0\0\x01",
            28,
            SubKind::Cut,
        ),
        (
            b"RTPS\x02\x05\0\0\xa1\xa1\xa1\xa1\xa1\xa1\xa1\xa1\xa1\xa1\xa1\xa1\x13\x01\x0f\0\0\0\0\0\0\0\x01\x02\0\0\0\0\x01\0\0",
            32,
            SubKind::Cut,
        ),
        (
            b"RTPS\x02\x05\0\0\xa1\xa1\xa1\xa1\xa1\xa1\xa1\xa1\xa1\xa1\xa1\xa1\x13\x01\x18\0\0\0\0\0\0\0\x01\x02\0\0\0\0\0\0\0\0\x03\0\0\0\x01\0\0\0",
            32,
            SubKind::BadNumber,
        ),
        (
            b"RTPS\x02\x05\0\0\xa1\xa1\xa1\xa1\xa1\xa1\xa1\xa1\xa1\xa1\xa1\xa1\x13\x01\x13\0\0\0\0\0\0\0\x01\x02\0\0\0\0\x01\0\0\0\x03\0\0",
            40,
            SubKind::Cut,
        ),
        (
            b"RTPS\x02\x05\0\0\xa1\xa1\xa1\xa1\xa1\xa1\xa1\xa1\xa1\xa1\xa1\xa1\x13\x01\x18\0\0\0\0\0\0\0\x01\x02\0\0\0\0\x01\0\0\0\0\0\0\0\x01\0\0\0",
            40,
            SubKind::BadRange,
        ),
        (
            b"RTPS\x02\x05\0\0\xa1\xa1\xa1\xa1\xa1\xa1\xa1\xa1\xa1\xa1\xa1\xa1\x13\x01\x17\0\0\0\0\0\0\0\x01\x02\0\0\0\0\x01\0\0\0\x03\0\0\0\x01\0\0",
            44,
            SubKind::Cut,
        ),
    ];
    let mut joiner = Joiner::new(rt.alloc()).expect(&rt, "memory");
    for (bytes, at, kind) in table {
        assert!(rt; stops(rt.alloc(), &mut joiner, bytes, at, kind));
    }
    assert!(rt; joiner.open() == 0);
}

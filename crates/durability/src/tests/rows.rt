//! Listings of samples of one writer: in another order, refused, expired, disposed and in coherent sets.

ghost use Rattle.std.specs.Prelude.{◌≤◌};

use crate::run::durability;
use crate::tests::words_of;
use dur_base::{List, Octets};
use dur_outside::{MemDisk, MemRig, MemSink, MemSource};
use dur_rerun::Status;
use std::alloc::Global;

/// The header of the writer's messages.
const HEADER: &[u8] = b"RTPS\x02\x05\x00\x00\xa1\xa1\xa1\xa1\xa1\xa1\xa1\xa1\xa1\xa1\xa1\xa1";

/// An inline lifespan of one second.
const SECOND: &[u8] = b"\x2b\x00\x08\x00\x01\x00\x00\x00\x00\x00\x00\x00";

/// An inline coherent set, which begins at number 1.
const SET: &[u8] = b"\x56\x00\x08\x00\x00\x00\x00\x00\x01\x00\x00\x00";

/// An INFO_TS of ten seconds.
const TEN_SECONDS: &[u8] = b"\x09\x01\x08\x00\x0a\x00\x00\x00\x00\x00\x00\x00";

/// The record of a GAP of number 2 at moment 5.
const GAP: &[u8] = b"\x05\x00\x00\x00\x00\x00\x00\x00\x00\x00\x34\x00\x00\x00RTPS\x02\x05\x00\x00\
\xa1\xa1\xa1\xa1\xa1\xa1\xa1\xa1\xa1\xa1\xa1\xa1\x08\x01\x1c\x00\x00\x00\x00\x00\x00\x00\x01\x02\
\x00\x00\x00\x00\x02\x00\x00\x00\x00\x00\x00\x00\x03\x00\x00\x00\x00\x00\x00\x00";

/// The record of number 2 at moment 5: a dispose and unregister of the key aa.
const DISPOSE: &[u8] =
    b"\x05\x00\x00\x00\x00\x00\x00\x00\x00\x00\x4c\x00\x00\x00RTPS\x02\x05\x00\x00\
\xa1\xa1\xa1\xa1\xa1\xa1\xa1\xa1\xa1\xa1\xa1\xa1\x15\x03\x34\x00\x00\x00\x10\x00\x00\x00\x00\x00\
\x00\x00\x01\x02\x00\x00\x00\x00\x02\x00\x00\x00\x70\x00\x10\x00\xaa\xaa\xaa\xaa\xaa\xaa\xaa\xaa\
\xaa\xaa\xaa\xaa\xaa\xaa\xaa\xaa\x71\x00\x04\x00\x00\x00\x00\x03\x01\x00\x00\x00";

/// The octets of a submessage or of a parameter, if it is there.
fn size_of(part: &[u8]) -> u8
    ensures { result ≤ 12 }
{
    if part.is_empty() { 0 } else { 12 }
}

/// Adds the record of a write of the instance with this key, with a submessage in front of it and a parameter in its
/// inline QoS, each of 12 octets or none.
fn write(capture: &mut Octets, moment: u64, number: u8, key: u8, front: &[u8], inline: &[u8]) {
    let size = size_of(inline) + 52;
    let _ = capture.append(&moment.to_le_bytes());
    let _ = capture.append(&[0, 0, size_of(front) + size + 24, 0, 0, 0]);
    let _ = capture.append(HEADER);
    let _ = capture.append(front);
    let _ = capture.append(&[0x15, 7, size, 0]);
    let _ = capture.append(b"\x00\x00\x10\x00\x00\x00\x00\x00\x00\x00\x01\x02\x00\x00\x00\x00");
    let _ = capture.append(&[number, 0, 0, 0]);
    let _ = capture.append(b"\x70\x00\x10\x00");
    let _ = capture.append(&[key; 16]);
    let _ = capture.append(inline);
    let _ = capture.append(b"\x01\x00\x00\x00\x00\x01\x00\x00\x2a\x00\x00\x00");
}

/// Whether `list`, with these words behind it, prints this of a capture with a topic of these settings.
fn lists(alloc: Global, words: &[&str], settings: &[u8], capture: &Octets, out: &[u8]) -> bool {
    let mut bytes = Octets::new(alloc);
    let _ = bytes.append(b"prefix 0102030405060708\ntopic T ");
    let _ = bytes.append(settings);
    let _ = bytes.append(b"\nwriter a1a1a1a1a1a1a1a1a1a1a1a100000102 T -\nend\n");
    let _ = bytes.append(capture.as_slice());
    let Ok(words) = words_of(alloc, words) else {
        return false;
    };
    let mut input = MemSource::new(bytes, List::new(alloc));
    let mut err = MemSink::new(List::new(alloc));
    let disk = MemDisk::new(Octets::new(alloc), Octets::new(alloc), List::new(alloc));
    let rig = MemRig::new(disk, MemSink::new(List::new(alloc)));
    let ran = durability(alloc, &words, &mut input, rig, &mut err);
    let (_, sink) = ran.rig.parts();
    matches!(&ran.status, Status::Done) && sink.written().as_slice() == out
}

const LIST: &[&str] = &["list"];

const DEEP: &[u8] = b"transient hash 10 - - - - 0";

/// Numbers 1 to 3 of the key aa at moment 5.
const THREE: &[u8] =
    b"T a1a1a1a1a1a1a1a1a1a1a1a100000102 1 aaaaaaaaaaaaaaaaaaaaaaaaaaaaaaaa write 5 000100002a000000\n\
T a1a1a1a1a1a1a1a1a1a1a1a100000102 2 aaaaaaaaaaaaaaaaaaaaaaaaaaaaaaaa write 5 000100002a000000\n\
T a1a1a1a1a1a1a1a1a1a1a1a100000102 3 aaaaaaaaaaaaaaaaaaaaaaaaaaaaaaaa write 5 000100002a000000\n";

#[test]
fn samples_are_listed_in_the_order_of_their_numbers(rt: HostRuntime) {
    let alloc = rt.alloc();
    let mut capture = Octets::new(alloc);
    write(&mut capture, 5, 3, 0xaa, b"", b"");
    write(&mut capture, 6, 1, 0xaa, b"", b"");
    write(&mut capture, 7, 2, 0xaa, b"", b"");
    write(&mut capture, 8, 1, 0xaa, b"", b"");
    let out =
        b"T a1a1a1a1a1a1a1a1a1a1a1a100000102 1 aaaaaaaaaaaaaaaaaaaaaaaaaaaaaaaa write 6 000100002a000000\n\
T a1a1a1a1a1a1a1a1a1a1a1a100000102 2 aaaaaaaaaaaaaaaaaaaaaaaaaaaaaaaa write 7 000100002a000000\n\
T a1a1a1a1a1a1a1a1a1a1a1a100000102 3 aaaaaaaaaaaaaaaaaaaaaaaaaaaaaaaa write 5 000100002a000000\n";
    assert!(rt;
        lists(
            alloc,
            LIST,
            b"persistent hash 3 - - - - 0",
            &capture,
            out.as_slice()
        )
    );
}

#[test]
fn a_refused_sample_is_taken_once_another_expired(rt: HostRuntime) {
    let alloc = rt.alloc();
    let mut capture = Octets::new(alloc);
    write(&mut capture, 0, 1, 0xaa, b"", SECOND);
    write(&mut capture, 0, 2, 0xaa, b"", b"");
    write(&mut capture, 0, 3, 0xaa, b"", b"");
    write(&mut capture, 4294967296, 3, 0xaa, b"", b"");
    let out =
        b"T a1a1a1a1a1a1a1a1a1a1a1a100000102 2 aaaaaaaaaaaaaaaaaaaaaaaaaaaaaaaa write 0 000100002a000000\n\
T a1a1a1a1a1a1a1a1a1a1a1a100000102 3 aaaaaaaaaaaaaaaaaaaaaaaaaaaaaaaa write 4294967296 000100002a000000\n";
    assert!(rt;
        lists(
            alloc,
            LIST,
            b"transient hash all 2 - - - 0",
            &capture,
            out.as_slice()
        )
    );
}

#[test]
fn an_instance_makes_room_once_it_is_gone(rt: HostRuntime) {
    let alloc = rt.alloc();
    let mut capture = Octets::new(alloc);
    write(&mut capture, 5, 1, 0xaa, b"", b"");
    let _ = capture.append(DISPOSE);
    write(&mut capture, 5, 3, 0xbb, b"", b"");
    let settings = b"transient hash 1 - 1 - - 0";
    let disposed =
        b"T a1a1a1a1a1a1a1a1a1a1a1a100000102 2 aaaaaaaaaaaaaaaaaaaaaaaaaaaaaaaa dispose 5 -\n";
    assert!(rt; lists(alloc, LIST, settings, &capture, disposed));
    write(&mut capture, 6, 3, 0xbb, b"", b"");
    let written =
        b"T a1a1a1a1a1a1a1a1a1a1a1a100000102 3 bbbbbbbbbbbbbbbbbbbbbbbbbbbbbbbb write 6 000100002a000000\n";
    assert!(rt; lists(alloc, LIST, settings, &capture, written.as_slice()));
}

#[test]
fn a_sample_expires_and_stays_displaced(rt: HostRuntime) {
    let alloc = rt.alloc();
    let newest = b"transient hash 1 - - - - 0";
    let mut capture = Octets::new(alloc);
    write(&mut capture, 5, 1, 0xaa, TEN_SECONDS, SECOND);
    let before = ["list", "--at", "47244640255"];
    let out =
        b"T a1a1a1a1a1a1a1a1a1a1a1a100000102 1 aaaaaaaaaaaaaaaaaaaaaaaaaaaaaaaa write 42949672960 000100002a000000\n";
    assert!(rt; lists(alloc, before.as_slice(), newest, &capture, out.as_slice()));
    let then = ["list", "--at", "47244640256"];
    assert!(rt; lists(alloc, then.as_slice(), newest, &capture, b""));
    let mut capture = Octets::new(alloc);
    write(&mut capture, 0, 1, 0xaa, b"", b"");
    write(&mut capture, 0, 2, 0xaa, b"", SECOND);
    let then = ["list", "--at=4294967296"];
    assert!(rt; lists(alloc, then.as_slice(), newest, &capture, b""));
}

#[test]
fn a_coherent_set_is_listed_once_it_has_ended(rt: HostRuntime) {
    let alloc = rt.alloc();
    let mut capture = Octets::new(alloc);
    write(&mut capture, 5, 1, 0xaa, b"", SET);
    write(&mut capture, 5, 2, 0xaa, b"", SET);
    assert!(rt; lists(alloc, LIST, DEEP, &capture, b""));
    write(&mut capture, 5, 3, 0xaa, b"", b"");
    assert!(rt; lists(alloc, LIST, DEEP, &capture, THREE));
}

#[test]
fn a_broken_coherent_set_is_never_listed(rt: HostRuntime) {
    let alloc = rt.alloc();
    let mut capture = Octets::new(alloc);
    write(&mut capture, 5, 1, 0xaa, b"", SET);
    let _ = capture.append(GAP);
    write(&mut capture, 5, 3, 0xaa, b"", b"");
    let out =
        b"T a1a1a1a1a1a1a1a1a1a1a1a100000102 3 aaaaaaaaaaaaaaaaaaaaaaaaaaaaaaaa write 5 000100002a000000\n";
    assert!(rt; lists(alloc, LIST, DEEP, &capture, out.as_slice()));
}

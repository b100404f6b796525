//! A plan learnt from what a participant announces: a writer, up to the end of its lease.

use crate::run::durability;
use crate::tests::{line_of, words_of};
use crate::words::Line;
use dur_base::{List, Octets, Ticks};
use dur_outside::{MemDisk, MemRig, MemSink, MemSource};
use dur_rerun::{Status, learn};
use std::alloc::Global;

const TOPICS: &[u8] = b"prefix 0102030405060708\ntopic T transient hash 1 - - - - 0\nend\n";

const LEARNT: &[u8] = b"prefix 0102030405060708\ntopic T transient hash 1 - - - - 0\n\
writer a1a1a1a1a1a1a1a1a1a1a1a100000102 T 10\nend\n";

/// Moment 5: the participant, with a lease of ten seconds.
const PARTICIPANT: &[u8] =
    b"\x05\x00\x00\x00\x00\x00\x00\x00\x00\x00\x54\x00\x00\x00RTPS\x02\x05\x00\x00\
\xa1\xa1\xa1\xa1\xa1\xa1\xa1\xa1\xa1\xa1\xa1\xa1\x15\x05\x3c\x00\x00\x00\x10\x00\x00\x00\x00\x00\
\x00\x01\x00\xc2\x00\x00\x00\x00\x01\x00\x00\x00\x00\x03\x00\x00\x50\x00\x10\x00\xa1\xa1\xa1\xa1\
\xa1\xa1\xa1\xa1\xa1\xa1\xa1\xa1\x00\x00\x01\xc1\x02\x00\x08\x00\x0a\x00\x00\x00\x00\x00\x00\x00\
\x01\x00\x00\x00";

/// Moment 6: a writer of `T`, which offers TRANSIENT.
const WRITER: &[u8] =
    b"\x06\x00\x00\x00\x00\x00\x00\x00\x00\x00\x5c\x00\x00\x00RTPS\x02\x05\x00\x00\
\xa1\xa1\xa1\xa1\xa1\xa1\xa1\xa1\xa1\xa1\xa1\xa1\x15\x05\x44\x00\x00\x00\x10\x00\x00\x00\x00\x00\
\x00\x00\x03\xc2\x00\x00\x00\x00\x01\x00\x00\x00\x00\x03\x00\x00\x5a\x00\x10\x00\xa1\xa1\xa1\xa1\
\xa1\xa1\xa1\xa1\xa1\xa1\xa1\xa1\x00\x00\x01\x02\x05\x00\x08\x00\x02\x00\x00\x00T\x00\x00\x00\
\x1d\x00\x04\x00\x02\x00\x00\x00\x01\x00\x00\x00";

/// Whether `learn` writes this plan for that moment.
fn learns(alloc: Global, at: &'static str, out: &[u8]) -> bool {
    let mut bytes = Octets::new(alloc);
    let _ = bytes.append(TOPICS);
    let _ = bytes.append(PARTICIPANT);
    let _ = bytes.append(WRITER);
    let Ok(words) = words_of(alloc, ["learn", "--at", at].as_slice()) else {
        return false;
    };
    let mut input = MemSource::new(bytes, List::new(alloc));
    let mut err = MemSink::new(List::new(alloc));
    let disk = MemDisk::new(Octets::new(alloc), Octets::new(alloc), List::new(alloc));
    let rig = MemRig::new(disk, MemSink::new(List::new(alloc)));
    let ran = durability(alloc, &words, &mut input, rig, &mut err);
    let (_, sink) = ran.rig.parts();
    matches!(&ran.status, Status::Done) && sink.written().as_slice() == out
}

#[test]
fn a_writer_has_a_line_until_its_lease_has_passed(rt: HostRuntime) {
    let alloc = rt.alloc();
    assert!(rt; learns(alloc, "42949672965", LEARNT));
    assert!(rt; learns(alloc, "42949672966", TOPICS));
    learn::one_answer();
}

#[test]
fn options_of_learn_are_those_of_list(rt: HostRuntime) {
    let alloc = rt.alloc();
    let line = line_of(alloc, ["learn", "--epoch", "3", "--at=7"].as_slice());
    assert!(rt;
        matches!(
            &line,
            Ok(Line::Learn {
                at: Ticks(7),
                epoch: 3
            })
        )
    );
}

//! Runs over objects in memory: what goes out, which status ends a run, and what a second run finds.

use crate::rerun::{kept_histories_stand_for_whole_ones, rerun};
use crate::{Ran, Status};
use dur_base::{List, Octets};
use dur_capture::CapFault;
use dur_outside::{FileId, MemDisk, MemRig, MemSink, MemSource};
use std::alloc::Global;

const TRANSIENT: &[u8] = b"prefix 0102030405060708\ntopic T transient hash 1 - - - - 0\n\
writer a1a1a1a1a1a1a1a1a1a1a1a100000102 T -\nend\n";

const PERSISTENT: &[u8] = b"prefix 0102030405060708\ntopic T persistent hash 1 - - - - 0\n\
writer a1a1a1a1a1a1a1a1a1a1a1a100000102 T -\nend\n";

const DEEPER: &[u8] = b"prefix 0102030405060708\ntopic T persistent hash 2 - - - - 0\n\
writer a1a1a1a1a1a1a1a1a1a1a1a100000102 T -\nend\n";

/// The topic is persistent, and so is what the reader requests.
const READ: &[u8] = b"prefix 0102030405060708\ntopic T persistent hash 1 - - - - 0\n\
writer a1a1a1a1a1a1a1a1a1a1a1a100000102 T -\nreader b2b2b2b2b2b2b2b2b2b2b2b200000107 T persistent\nend\n";

/// The topic is transient, but the reader requests persistent samples.
const UNSERVED: &[u8] = b"prefix 0102030405060708\ntopic T transient hash 1 - - - - 0\n\
writer a1a1a1a1a1a1a1a1a1a1a1a100000102 T -\nreader b2b2b2b2b2b2b2b2b2b2b2b200000107 T persistent\nend\n";

/// Ten samples of an instance are kept.
const DEEP: &[u8] = b"prefix 0102030405060708\ntopic T transient hash 10 - - - - 0\n\
writer a1a1a1a1a1a1a1a1a1a1a1a100000102 T -\nend\n";

/// The same of a persistent topic, with a late reader.
const DEEP_READ: &[u8] = b"prefix 0102030405060708\ntopic T persistent hash 10 - - - - 0\n\
writer a1a1a1a1a1a1a1a1a1a1a1a100000102 T -\nreader b2b2b2b2b2b2b2b2b2b2b2b200000107 T persistent\nend\n";

/// Number 1 of the key aa, with 42, in the coherent set 1.
const IN_SET: &[u8; 88] =
    b"RTPS\x02\x05\0\0\xa1\xa1\xa1\xa1\xa1\xa1\xa1\xa1\xa1\xa1\xa1\xa1\x15\x07\x40\0\0\0\x10\0\0\0\0\0\
\0\0\x01\x02\0\0\0\0\x01\0\0\0\x70\0\x10\0\xaa\xaa\xaa\xaa\xaa\xaa\xaa\xaa\xaa\xaa\xaa\xaa\xaa\xaa\xaa\xaa\
\x56\0\x08\0\0\0\0\0\x01\0\0\0\x01\0\0\0\0\x01\0\0\x2a\0\0\0";

/// A GAP of number 2.
const GAP: &[u8] =
    b"RTPS\x02\x05\0\0\xa1\xa1\xa1\xa1\xa1\xa1\xa1\xa1\xa1\xa1\xa1\xa1\x08\x01\x1c\0\0\0\0\0\
\0\0\x01\x02\0\0\0\0\x02\0\0\0\0\0\0\0\x03\0\0\0\0\0\0\0";

/// An ACKNACK of the late reader that asks for the numbers 1 to 4.
const ASK_ALL: &[u8] =
    b"RTPS\x02\x05\0\0\xb2\xb2\xb2\xb2\xb2\xb2\xb2\xb2\xb2\xb2\xb2\xb2\x0e\x01\x0c\0\0\0\0\0\0\0\0\0\0\0\0\0\
\x06\x03\x1c\0\0\0\x01\x07\x01\0\x01\x02\0\0\0\0\x01\0\0\0\x04\0\0\0\0\0\0\xf0\x01\0\0\0";

/// Number 1 of the key aa, with 42, in a DATA.
const DATA: &[u8; 76] =
    b"RTPS\x02\x05\0\0\xa1\xa1\xa1\xa1\xa1\xa1\xa1\xa1\xa1\xa1\xa1\xa1\x15\x07\x34\0\0\0\x10\0\0\0\0\0\
\0\0\x01\x02\0\0\0\0\x01\0\0\0\x70\0\x10\0\xaa\xaa\xaa\xaa\xaa\xaa\xaa\xaa\xaa\xaa\xaa\xaa\xaa\xaa\xaa\xaa\x01\0\0\0\0\x01\0\0\x2a\0\0\0";

/// A HEARTBEAT of 1 to 0.
const BEAT: &[u8; 52] =
    b"RTPS\x02\x05\0\0\xa1\xa1\xa1\xa1\xa1\xa1\xa1\xa1\xa1\xa1\xa1\xa1\x07\x01\x1c\0\0\0\0\0\
\0\0\x01\x02\0\0\0\0\x01\0\0\0\0\0\0\0\0\0\0\0\x01\0\0\0";

/// An ACKNACK of the late reader that asks for nothing.
const JOIN: &[u8] =
    b"RTPS\x02\x05\0\0\xb2\xb2\xb2\xb2\xb2\xb2\xb2\xb2\xb2\xb2\xb2\xb2\x0e\x01\x0c\0\0\0\0\0\0\0\0\0\0\0\0\0\
\x06\x01\x18\0\0\0\x01\x07\x01\0\x01\x02\0\0\0\0\x01\0\0\0\0\0\0\0\x01\0\0\0";

/// One that asks for number 1.
const ASK: &[u8] =
    b"RTPS\x02\x05\0\0\xb2\xb2\xb2\xb2\xb2\xb2\xb2\xb2\xb2\xb2\xb2\xb2\x0e\x01\x0c\0\0\0\0\0\0\0\0\0\0\0\0\0\
\x06\x03\x1c\0\0\0\x01\x07\x01\0\x01\x02\0\0\0\0\x01\0\0\0\x01\0\0\0\0\0\0\x80\x01\0\0\0";

/// The first record of a replay of number 1, at moment 7 and port 1 of the epoch 1.
const REPLAYED: &[u8; 150] =
    b"\x07\0\0\0\0\0\0\0\x01\0\x88\0\0\0RTPS\x02\x05\0\0\x01\x02\x03\x04\x05\x06\x07\x08\0\0\0\x01\
\x0e\x01\x0c\0\xb2\xb2\xb2\xb2\xb2\xb2\xb2\xb2\xb2\xb2\xb2\xb2\x09\x01\x08\0\0\0\0\0\x05\0\0\0\x15\x07\x54\0\0\0\x10\0\0\0\x01\x07\
\x01\0\x01\x02\0\0\0\0\x01\0\0\0\x70\0\x10\0\xaa\xaa\xaa\xaa\xaa\xaa\xaa\xaa\xaa\xaa\xaa\xaa\xaa\xaa\xaa\xaa\
\x61\0\x1c\0\xa1\xa1\xa1\xa1\xa1\xa1\xa1\xa1\xa1\xa1\xa1\xa1\0\0\x01\x02\0\0\0\0\x01\0\0\0\x01\0\0\0\x01\0\0\0\0\x01\0\0\x2a\0\0\0";

/// An acknowledgement of all below a base as a record: its moment, the epoch, the flags, the base and the count.
fn ack(moment: u8, epoch: u8, flags: u8, base: u8, count: u8) -> [u8; 78] {
    let mut bytes =
        *b"\0\0\0\0\0\0\0\0\0\0\x40\0\0\0RTPS\x02\x05\0\0\x01\x02\x03\x04\x05\x06\x07\x08\0\0\0\0\
\x0e\x01\x0c\0\xa1\xa1\xa1\xa1\xa1\xa1\xa1\xa1\xa1\xa1\xa1\xa1\x06\x01\x18\0\0\0\x01\x07\0\0\x01\x02\0\0\0\0\x01\0\0\0\0\0\0\0\x01\0\0\0";
    bytes[0] = moment;
    bytes[33] = epoch;
    bytes[51] = flags;
    bytes[66] = base;
    bytes[74] = count;
    bytes
}

/// A DATA of that number.
fn data(number: u8) -> [u8; 76] {
    let mut bytes = *DATA;
    bytes[40] = number;
    bytes
}

/// The same in the coherent set 1.
fn in_set(number: u8) -> [u8; 88] {
    let mut bytes = *IN_SET;
    bytes[40] = number;
    bytes
}

/// The record of a replay of that number, of that moment, in the epoch 2.
fn replayed(number: u8, stamp: u8) -> [u8; 150] {
    let mut bytes = *REPLAYED;
    bytes[33] = 2;
    bytes[58] = stamp;
    bytes[82] = number;
    bytes[130] = number;
    bytes
}

/// A HEARTBEAT of 1 to that number.
fn beat(last: u8) -> [u8; 52] {
    let mut bytes = *BEAT;
    bytes[44] = last;
    bytes
}

/// Adds a record of a message in two parts.
fn record(input: &mut Octets, moment: u8, port: u8, first: &[u8], second: &[u8]) {
    let size = (first.len() as u64)
        .wrapping_add(second.len() as u64)
        .to_le_bytes();
    let _ = input.append(&[moment, 0, 0, 0, 0, 0, 0, 0, port, 0]);
    let _ = input.append(&size[..4]);
    let _ = input.append(first);
    let _ = input.append(second);
}

fn input(alloc: Global, plan: &[u8]) -> Octets {
    let mut bytes = Octets::new(alloc);
    let _ = bytes.append(plan);
    bytes
}

fn empty(alloc: Global) -> MemDisk {
    MemDisk::new(Octets::new(alloc), Octets::new(alloc), List::new(alloc))
}

/// Runs over that disk.
fn run(alloc: Global, input: Octets, disk: MemDisk) -> (Status, MemDisk, MemSink) {
    let mut source = MemSource::new(input, List::new(alloc));
    let rig = MemRig::new(disk, MemSink::new(List::new(alloc)));
    let Ran { status, rig } = rerun(alloc, &mut source, rig);
    let (disk, out) = rig.parts();
    (status, disk, out)
}

/// Number 1 and a HEARTBEAT in one datagram, and a HEARTBEAT in the next.
fn told_twice(alloc: Global) -> Octets {
    let mut told = input(alloc, PERSISTENT);
    record(&mut told, 5, 0, DATA, &beat(1)[20..]);
    record(&mut told, 6, 0, &beat(1), b"");
    told
}

#[test]
fn a_missing_number_is_asked_for(rt: HostRuntime) {
    let alloc = rt.alloc();
    let mut told = input(alloc, TRANSIENT);
    record(&mut told, 5, 0, &data(1), b"");
    record(&mut told, 5, 0, &data(3), b"");
    record(&mut told, 6, 0, &beat(3), b"");
    let (status, _, out) = run(alloc, told, empty(alloc));
    assert!(rt; matches!(status, Status::Done));
    assert!(rt;
        out.written().as_slice()
            == b"\x06\0\0\0\0\0\0\0\0\0\x44\0\0\0RTPS\x02\x05\0\0\x01\x02\x03\x04\x05\x06\x07\x08\0\0\0\x01\
\x0e\x01\x0c\0\xa1\xa1\xa1\xa1\xa1\xa1\xa1\xa1\xa1\xa1\xa1\xa1\x06\x03\x1c\0\0\0\x01\x07\0\0\x01\x02\0\0\0\0\x02\0\0\0\x01\0\0\0\0\0\0\x80\x01\0\0\0"
                .as_slice()
    );
}

#[test]
fn a_gap_in_a_set_is_passed_over(rt: HostRuntime) {
    let alloc = rt.alloc();
    let mut told = input(alloc, DEEP);
    record(&mut told, 5, 0, &in_set(1), b"");
    record(&mut told, 5, 0, GAP, b"");
    record(&mut told, 5, 0, &data(3), &beat(3)[20..]);
    let (status, _, out) = run(alloc, told, empty(alloc));
    assert!(rt; matches!(status, Status::Done));
    assert!(rt; out.written().as_slice() == ack(5, 1, 3, 4, 1).as_slice());
}

#[test]
fn an_open_set_outlives_the_run(rt: HostRuntime) {
    let alloc = rt.alloc();
    let mut told = input(alloc, DEEP_READ);
    record(&mut told, 5, 0, &in_set(1), b"");
    record(&mut told, 5, 0, &in_set(2), b"");
    let (status, disk, out) = run(alloc, told, empty(alloc));
    assert!(rt; matches!(status, Status::Done) && out.written().len() == 0);
    let mut told = input(alloc, DEEP_READ);
    record(&mut told, 6, 0, &data(3), b"");
    record(&mut told, 7, 1, ASK_ALL, b"");
    let (status, _, out) = run(alloc, told, disk);
    let written = out.written().as_slice();
    assert!(rt; matches!(status, Status::Done));
    // The two of the set have its mark.
    assert!(rt; written.len() == 162 + 162 + 150 + 90 + 82);
    let (first, rest) = written.split_at(162);
    let (second, rest) = rest.split_at(162);
    let (third, rest) = rest.split_at(150);
    assert!(rt; first[33] == 2 && first[82] == 1 && first[130] == 1);
    assert!(rt; second[33] == 2 && second[82] == 2 && second[130] == 2);
    // The marker has no original.
    assert!(rt; rest[33] == 2 && rest[70] == 4);
    assert!(rt; third == replayed(3, 6).as_slice());
}

#[test]
fn a_break_ends_a_run_behind_its_answers(rt: HostRuntime) {
    let alloc = rt.alloc();
    let mut told = input(alloc, TRANSIENT);
    record(&mut told, 5, 0, BEAT, b"");
    let _ = told.append(b"\0\0\0\0\0");
    let (status, _, out) = run(alloc, told, empty(alloc));
    assert!(rt; matches!(status, Status::Input(66, CapFault::EndsInside(66))));
    assert!(rt; out.written().as_slice() == ack(5, 1, 3, 1, 1).as_slice());
    kept_histories_stand_for_whole_ones();
}

#[test]
fn what_is_acknowledged_was_stored_before(rt: HostRuntime) {
    let alloc = rt.alloc();
    let (status, disk, out) = run(alloc, told_twice(alloc), empty(alloc));
    assert!(rt; matches!(status, Status::Done));
    let written = out.written().as_slice();
    assert!(rt; written.len() == 156);
    let (first, second) = written.split_at(78);
    assert!(rt; first == ack(5, 1, 1, 1, 1).as_slice() && second == ack(6, 1, 3, 2, 2).as_slice());
    let mut asked = input(alloc, PERSISTENT);
    record(&mut asked, 7, 0, &beat(1), b"");
    let (status, _, out) = run(alloc, asked, disk);
    assert!(rt; matches!(status, Status::Done));
    assert!(rt; out.written().as_slice() == ack(7, 2, 3, 2, 1).as_slice());
}

#[test]
fn a_late_reader_is_replayed_what_it_asks_for(rt: HostRuntime) {
    let alloc = rt.alloc();
    let mut told = input(alloc, READ);
    record(&mut told, 5, 0, DATA, &beat(1)[20..]);
    record(&mut told, 7, 1, ASK, b"");
    let (status, _, out) = run(alloc, told, empty(alloc));
    assert!(rt; matches!(status, Status::Done));
    let written = out.written().as_slice();
    assert!(rt; written.len() == 78 + 150 + 82);
    let (replay, _) = written.split_at(78).1.split_at(150);
    assert!(rt; replay == REPLAYED.as_slice());
}

#[test]
fn a_reader_that_is_not_served_is_answered_with_nothing(rt: HostRuntime) {
    let alloc = rt.alloc();
    let mut told = input(alloc, UNSERVED);
    record(&mut told, 9, 1, JOIN, b"");
    let (status, _, out) = run(alloc, told, empty(alloc));
    assert!(rt; matches!(status, Status::Done) && out.written().len() == 0);
}

#[test]
fn an_opening_that_fails_is_named(rt: HostRuntime) {
    let alloc = rt.alloc();
    let (status, disk, _) = run(alloc, input(alloc, PERSISTENT), empty(alloc));
    assert!(rt; matches!(status, Status::Done));
    let (status, _, _) = run(alloc, input(alloc, DEEPER), disk);
    assert!(rt; matches!(status, Status::PlanDiffers(_)));
    let broken = input(alloc, b"\0\0\0\0\0\0\0\0\0\0");
    let disk = MemDisk::new(broken, Octets::new(alloc), List::new(alloc));
    let (status, _, _) = run(alloc, input(alloc, PERSISTENT), disk);
    assert!(rt; matches!(status, Status::NotAJournal(FileId::Zero, 0)));
    let mut last = input(
        alloc,
        b"DDSJRNL1\x01\x01\0\0\0\xff\xff\xff\xff\x20\0\0\0\0\0\0\0",
    );
    let _ = last.append(&[0; 33]);
    let disk = MemDisk::new(last, Octets::new(alloc), List::new(alloc));
    let (status, _, _) = run(alloc, input(alloc, TRANSIENT), disk);
    assert!(rt; matches!(status, Status::Worn));
}

/// Whether a run that is stopped at that changing call of the disk loses what it acknowledged: its files are what that number
/// picks of what a crash may leave, and a second run is asked.
fn loses(alloc: Global, calls: u64, pick: u64) -> bool {
    let mut disk = empty(alloc);
    disk.fail_from(calls);
    let (_, disk, out) = run(alloc, told_twice(alloc), disk);
    let Ok(disk) = disk.crash(pick) else {
        return true;
    };
    let mut asked = input(alloc, PERSISTENT);
    record(&mut asked, 7, 0, &beat(1), b"");
    let (status, _, again) = run(alloc, asked, disk);
    let acknowledged = out.written().len() == 156;
    let kept = match again.written().as_slice().get(66) {
        Some(base) => *base >= 2,
        None => false,
    };
    !matches!(status, Status::Done) || (acknowledged && !kept)
}

#[test]
fn a_stop_at_any_call_loses_nothing_acknowledged(rt: HostRuntime) {
    let alloc = rt.alloc();
    for calls in 0..14 {
        for pick in 0..6 {
            assert!(rt; !loses(alloc, calls, pick));
        }
    }
}

/// The status of a run of which that call of the source, the disk and the sink fails, each alone.
fn failed(alloc: Global, call: u64) -> (Status, Status, Status) {
    let mut fails = List::new(alloc);
    let _ = fails.push(call);
    let mut source = MemSource::new(told_twice(alloc), fails);
    let rig = MemRig::new(empty(alloc), MemSink::new(List::new(alloc)));
    let read = rerun(alloc, &mut source, rig);
    let mut fails = List::new(alloc);
    let _ = fails.push(call);
    let disk = MemDisk::new(Octets::new(alloc), Octets::new(alloc), fails);
    let (kept, _, _) = run(alloc, told_twice(alloc), disk);
    let mut fails = List::new(alloc);
    let _ = fails.push(call);
    let mut source = MemSource::new(told_twice(alloc), List::new(alloc));
    let rig = MemRig::new(empty(alloc), MemSink::new(fails));
    let wrote = rerun(alloc, &mut source, rig);
    (read.status, kept, wrote.status)
}

#[test]
fn a_call_that_fails_ends_the_run(rt: HostRuntime) {
    let alloc = rt.alloc();
    let (read, kept, wrote) = failed(alloc, 0);
    assert!(rt;
        matches!(read, Status::ReadFault)
            && matches!(kept, Status::DiskFault)
            && matches!(wrote, Status::WriteFault)
    );
    let (read, kept, wrote) = failed(alloc, 1);
    assert!(rt;
        matches!(read, Status::ReadFault)
            && matches!(kept, Status::DiskFault)
            && matches!(wrote, Status::WriteFault)
    );
    for call in 2..16 {
        let (read, kept, _) = failed(alloc, call);
        assert!(rt; matches!(read, Status::Done) && matches!(kept, Status::DiskFault));
    }
}

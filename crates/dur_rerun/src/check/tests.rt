//! Files octet by octet, one damaged in each place, and each call of the outside failing.

ghost use Rattle.std.specs.Prelude.{IfOk, IfSome};
ghost use Rattle.dur_qos.specs.Good.{GoodPlan};

use crate::Status;
use crate::check::{check, one_answer};
use dur_base::{List, Octets};
use dur_journal::{Journal, OpenFault};
use dur_outside::{FileId, MemDisk, MemRig, MemSink};
use dur_qos::{Plan, PlanFault, PlanReader};
use std::alloc::Global;
use std::test::*;

/// An open file of version 2 and generation 1 that keeps nothing.
const EMPTY: &[u8] = b"DDSJRNL1\x01\x02\x00\x00\x00\x01\x00\x00\x00\x20\x00\x00\x00\x00\x00\x00\x00\
\x00\x00\x00\x00\x00\x00\x00\x00\x00\x00\x00\x00\x00\x00\x00\x00\x00\x00\x00\x00\
\x00\x00\x00\x00\x00\x00\x00\x00\x00\x00\x00\x00\x00\x00";

/// Up to the topic's depth: the last moment 6, and one topic T with a key hash.
const TOPIC: &[u8] = b"\x06\x00\x00\x00\x00\x00\x00\x00\x01\x00\x00\x00\x01T\x01";

/// Up to the kept change's number: no limits, the writer with next number 2, the instance aa with one change, and the
/// ordinal 1.
const BEHIND_DEPTH: &[u8] =
    b"\x00\x00\x00\x00\x00\x00\x00\x00\x00\x00\x00\x00\x00\x00\x00\x00\x00\x00\x00\x00\
\x01\x00\x00\x00\xa1\xa1\xa1\xa1\xa1\xa1\xa1\xa1\xa1\xa1\xa1\xa1\x00\x00\x01\x02\
\x00\x00\x00\x00\x02\x00\x00\x00\x00\x00\x00\x00\x00\x00\x00\x00\x00\x00\x00\x00\
\x01\x00\x00\x00\x00\x00\x00\x00\x00\x00\x00\x00\xaa\xaa\xaa\xaa\xaa\xaa\xaa\xaa\
\xaa\xaa\xaa\xaa\xaa\xaa\xaa\xaa\x00\x00\x01\x00\x00\x00\x00\x00\x00\x00\x01\x00\x00\x00\x00\x00\x00\x00\
\x01\x00\x00\x00\x00\x00\x00\x00\x00\x00\x00\x00\x00\x00\x00\x00\x01\x00\x00\x00\x00\x00\x00\x00\
\xa1\xa1\xa1\xa1\xa1\xa1\xa1\xa1\xa1\xa1\xa1\xa1\x00\x00\x01\x02\x01\x00\x00\x00\x00\x00\x00\x00";

/// Up to the payload's length: a write of the key aa with the stamp 5, without a lifespan, a set or an original.
const SAMPLE: &[u8] = b"\x00\x01\xaa\xaa\xaa\xaa\xaa\xaa\xaa\xaa\xaa\xaa\xaa\xaa\xaa\xaa\xaa\xaa\
\x05\x00\x00\x00\x00\x00\x00\x00\x00\x00\x00";

/// Its payload behind the length.
const PAYLOAD: &[u8] = b"\x00\x01\x00\x00\x2a\x00\x00\x00";

/// A record behind its open gate: number 2 of the key aa, taken at moment 9, with 43; and a closed gate.
const RECORD: &[u8] =
    b"\x4e\x00\x00\x00\x01\x09\x00\x00\x00\x00\x00\x00\x00\xa1\xa1\xa1\xa1\xa1\xa1\xa1\xa1\xa1\xa1\xa1\xa1\x00\x00\x01\x02\
\x02\x00\x00\x00\x00\x00\x00\x00\x00\x01\xaa\xaa\xaa\xaa\xaa\xaa\xaa\xaa\xaa\xaa\xaa\xaa\xaa\xaa\xaa\xaa\
\x09\x00\x00\x00\x00\x00\x00\x00\x00\x00\x00\x08\x00\x00\x00\x00\x00\x00\x00\x00\x01\x00\x00\x2b\x00\x00\x00\x00";

/// The text of a view that keeps number 1, whose arrival version 1 does not have and version 2 does not know.
fn base(alloc: Global, version: u8, depth: u8) -> Octets {
    let mut text = Octets::new(alloc);
    let _ = text.append(TOPIC);
    let _ = text.append(&[depth, 0, 0, 0]);
    let _ = text.append(BEHIND_DEPTH);
    if version == 2 {
        let _ = text.append(&[0]);
    }
    let _ = text.append(SAMPLE);
    let _ = text.append(&[8, 0, 0, 0]);
    if version == 2 {
        let _ = text.append(&[0, 0, 0, 0]);
    }
    let _ = text.append(PAYLOAD);
    text
}

/// An open file that keeps number 1, up to the gate behind its base.
fn file(alloc: Global, version: u8, generation: u8, depth: u8) -> Octets {
    let base = base(alloc, version, depth);
    let mut octets = Octets::new(alloc);
    let _ = octets.append(b"DDSJRNL1\x01");
    let _ = octets.append(&[version, 0, 0, 0, generation, 0, 0, 0]);
    let _ = octets.append(&(base.len() as u64).to_le_bytes());
    let _ = octets.append(base.as_slice());
    octets
}

/// File 0 of version 1 and generation 3.
fn older(alloc: Global, depth: u8) -> Octets {
    let mut octets = file(alloc, 1, 3, depth);
    let _ = octets.append(&[0]);
    octets
}

/// File 1 of version 2 and generation 4, with a record.
fn newer(alloc: Global) -> Octets {
    let mut octets = file(alloc, 2, 4, 2);
    let _ = octets.append(&[1]);
    let _ = octets.append(RECORD);
    octets
}

/// The calls of an object that are to fail: that one, if any.
fn failing(alloc: Global, call: Option<u64>) -> List<u64> {
    let mut calls = List::new(alloc);
    if let Some(number) = call {
        let _ = calls.push(number);
    }
    calls
}

/// What became of a run: its status, what went out, and the files.
#[derive(Drop)]
struct Outcome {
    status: Status,
    out: MemSink,
    disk: MemDisk,
}

fn octets_of(alloc: Global, bytes: &[u8]) -> Octets {
    let mut octets = Octets::new(alloc);
    let _ = octets.append(bytes);
    octets
}

/// A run over two files, of which that call of the disk and that one of the sink fail.
fn run(
    alloc: Global,
    zero: &[u8],
    one: &[u8],
    disk_call: Option<u64>,
    sink_call: Option<u64>,
) -> Outcome {
    let disk = MemDisk::new(
        octets_of(alloc, zero),
        octets_of(alloc, one),
        failing(alloc, disk_call),
    );
    let sink = MemSink::new(failing(alloc, sink_call));
    let ran = check(alloc, MemRig::new(disk, sink));
    let (disk, out) = ran.rig.parts();
    Outcome {
        status: ran.status,
        out,
        disk,
    }
}

/// Whether neither file is broken, and this is printed.
fn prints(alloc: Global, zero: &[u8], one: &[u8], text: &[u8]) -> bool {
    let done = run(alloc, zero, one, None, None);
    matches!(&done.status, Status::Done) && done.out.written().as_slice() == text
}

/// The first broken file and its place, where one is broken and this is printed.
fn breaks(alloc: Global, zero: &[u8], one: &[u8], text: &[u8]) -> Option<(FileId, u64)> {
    let done = run(alloc, zero, one, None, None);
    match &done.status {
        Status::NotAJournal(file, at) => if done.out.written().as_slice() == text {
            Some((*file, *at))
        } else {
            None
        },
        _ => None,
    }
}

/// These octets with another one at a place.
fn damaged(alloc: Global, bytes: &[u8], place: usize, octet: u8) -> Octets {
    let mut octets = Octets::new(alloc);
    for (at, old) in bytes.iter().enumerate() {
        let _ = octets.append(&[if at == place { octet } else { *old }]);
    }
    octets
}

/// Whether file 0, with this octet at a place, breaks there beside a blank one.
fn breaks_at(alloc: Global, place: usize, octet: u8, at: u64, text: &[u8]) -> bool {
    let zero = damaged(alloc, EMPTY, place, octet);
    breaks(alloc, zero.as_slice(), b"", text) == Some((FileId::Zero, at))
}

#[test]
fn a_damaged_file_is_named_with_its_place(rt: HostRuntime) {
    let alloc = rt.alloc();
    one_answer();
    assert!(rt; prints(alloc, EMPTY, b"", b"file 0 open 1 0\nfile 1 blank\n"));
    assert!(rt; breaks_at(alloc, 3, 0, 3, b"file 0 broken 3\nfile 1 blank\n"));
    let closed = damaged(alloc, EMPTY, 8, 0);
    assert!(rt;
        prints(
            alloc,
            closed.as_slice(),
            b"",
            b"file 0 closed\nfile 1 blank\n"
        )
    );
    assert!(rt; breaks_at(alloc, 9, 3, 9, b"file 0 broken 9\nfile 1 blank\n"));
    let cut = breaks(
        alloc,
        &EMPTY[..41],
        b"",
        b"file 0 broken 41\nfile 1 blank\n",
    );
    assert!(rt; cut == Some((FileId::Zero, 41)));
    assert!(rt; breaks_at(alloc, 57, 1, 58, b"file 0 broken 58\nfile 1 blank\n"));
}

#[test]
fn the_first_broken_file_counts(rt: HostRuntime) {
    let alloc = rt.alloc();
    assert!(rt; prints(alloc, b"", b"", b"file 0 blank\nfile 1 blank\n"));
    let both = breaks(
        alloc,
        &[0; 10],
        &[0; 12],
        b"file 0 broken 0\nfile 1 broken 0\n",
    );
    assert!(rt; both == Some((FileId::Zero, 0)));
    let second = breaks(
        alloc,
        EMPTY,
        b"DDSJRNL2\x01\x01",
        b"file 0 open 1 0\nfile 1 broken 7\n",
    );
    assert!(rt; second == Some((FileId::One, 7)));
    // Two open files of one generation are not broken, and nothing is listed.
    let one = older(alloc, 1);
    assert!(rt;
        prints(
            alloc,
            one.as_slice(),
            one.as_slice(),
            b"file 0 open 3 0\nfile 1 open 3 0\n"
        )
    );
}

fn read_plan(alloc: Global, text: &[u8]) -> Result<Plan, PlanFault>
    ensures { IfOk result (λ p. GoodPlan p) }
{
    let mut reader = PlanReader::new(alloc);
    match reader.push(text) {
        Ok(_) => reader.finish(),
        Err(fault) => Err(fault),
    }
}

fn plan_of(alloc: Global, text: &[u8]) -> Option<Plan>
    ensures { IfSome result (λ p. GoodPlan p) }
{
    match read_plan(alloc, text) {
        Ok(plan) => Some(plan),
        Err(_) => None,
    }
}

const ONE_DEEP: &[u8] = b"prefix 0102030405060708\ntopic T persistent hash 1 - - - - 0\n\
writer a1a1a1a1a1a1a1a1a1a1a1a100000102 T -\nend\n";

const TWO_DEEP: &[u8] = b"prefix 0102030405060708\ntopic T persistent hash 2 - - - - 0\n\
writer a1a1a1a1a1a1a1a1a1a1a1a100000102 T -\nend\n";

/// Opens a journal over these files, and then checks them. None: it is refused.
fn opened(alloc: Global, zero: &[u8], one: &[u8], text: &[u8]) -> Option<Outcome> {
    let plan = plan_of(alloc, text)?;
    let disk = MemDisk::new(
        octets_of(alloc, zero),
        octets_of(alloc, one),
        List::new(alloc),
    );
    let rig = MemRig::new(disk, MemSink::new(List::new(alloc)));
    match Journal::open(alloc, rig, &plan) {
        Ok(opened) => {
            let ran = check(alloc, opened.journal.close());
            let (disk, out) = ran.rig.parts();
            Some(Outcome {
                status: ran.status,
                out,
                disk,
            })
        }
        Err(_) => None,
    }
}

#[test]
fn a_change_of_version_1_has_no_moment_of_arrival(rt: HostRuntime) {
    let alloc = rt.alloc();
    let zero = older(alloc, 1);
    let out = b"file 0 open 3 0\nfile 1 open 4 0\n\
T a1a1a1a1a1a1a1a1a1a1a1a100000102 1 aaaaaaaaaaaaaaaaaaaaaaaaaaaaaaaa write 5 000100002a000000 -\n";
    match opened(alloc, zero.as_slice(), b"", ONE_DEEP) {
        Some(done) => {
            assert!(rt; matches!(&done.status, Status::Done));
            assert!(rt; done.out.written().as_slice() == out.as_slice());
        }
        None => assert!(rt; false),
    }
    let alone = b"file 0 open 3 0\nfile 1 blank\n\
T a1a1a1a1a1a1a1a1a1a1a1a100000102 1 aaaaaaaaaaaaaaaaaaaaaaaaaaaaaaaa write 5 000100002a000000 -\n";
    assert!(rt; prints(alloc, zero.as_slice(), b"", alone.as_slice()));
}

#[test]
fn a_change_of_a_record_arrived_at_its_moment(rt: HostRuntime) {
    let alloc = rt.alloc();
    let zero = older(alloc, 2);
    let one = newer(alloc);
    let out = b"file 0 open 3 0\nfile 1 open 4 1\n\
T a1a1a1a1a1a1a1a1a1a1a1a100000102 1 aaaaaaaaaaaaaaaaaaaaaaaaaaaaaaaa write 5 000100002a000000 -\n\
T a1a1a1a1a1a1a1a1a1a1a1a100000102 2 aaaaaaaaaaaaaaaaaaaaaaaaaaaaaaaa write 9 000100002b000000 9\n";
    assert!(rt; prints(alloc, zero.as_slice(), one.as_slice(), out.as_slice()));
    // The files are as they were.
    let done = run(alloc, zero.as_slice(), one.as_slice(), None, None);
    let again = check(
        alloc,
        MemRig::new(done.disk, MemSink::new(List::new(alloc))),
    );
    let (_, sink) = again.rig.parts();
    assert!(rt; sink.written().as_slice() == out.as_slice());
}

#[test]
fn each_call_fails_in_turn(rt: HostRuntime) {
    let alloc = rt.alloc();
    for call in 0..4u64 {
        let done = run(alloc, EMPTY, EMPTY, Some(call), None);
        assert!(rt; matches!(&done.status, Status::DiskFault));
        assert!(rt; done.out.written().as_slice() == b"".as_slice());
    }
    let done = run(alloc, EMPTY, b"", Some(4), None);
    assert!(rt; matches!(&done.status, Status::Done));
    // A write fault comes before a broken file.
    let done = run(alloc, &[0; 10], b"", None, Some(0));
    assert!(rt; matches!(&done.status, Status::WriteFault));
    let done = run(alloc, &[0; 10], b"", None, Some(1));
    assert!(rt; matches!(&done.status, Status::NotAJournal(FileId::Zero, 0)));
}

#[test]
fn nothing_is_written_for_want_of_memory(rt: HostRuntime) {
    let alloc = rt.alloc();
    let one = newer(alloc);
    let done = run(alloc, EMPTY, one.as_slice(), None, None);
    let none = done.out.written().as_slice().is_empty();
    // With an allocation that fails, the run may be cut short; it is said, and nothing goes out.
    assert!(rt;
        matches!(
            &done.status,
            Status::OutOfMemory | Status::DiskFault | Status::WriteFault
        ) == none
    );
}

/// The first break of these files, where a journal is refused for it.
fn refusal(alloc: Global, zero: &[u8], one: &[u8]) -> Option<(FileId, u64)> {
    let plan = plan_of(alloc, TWO_DEEP)?;
    let disk = MemDisk::new(
        octets_of(alloc, zero),
        octets_of(alloc, one),
        List::new(alloc),
    );
    match Journal::open(alloc, disk, &plan) {
        Ok(opened) => {
            let _ = opened.epoch;
            None
        }
        Err((OpenFault::NotAJournal { file, at }, disk)) => {
            let _ = disk.starved();
            Some((file, at))
        }
        Err((_, disk)) => {
            let _ = disk.starved();
            None
        }
    }
}

/// Whether the status is that of no fault of the outside, and names the break for which a journal is refused, if any.
fn agrees(alloc: Global, zero: &[u8], one: &[u8]) -> bool {
    let done = run(alloc, zero, one, None, None);
    match (refusal(alloc, zero, one), &done.status) {
        (None, Status::Done) | (None, Status::NotAJournal(_, _)) => true,
        (Some(first), Status::NotAJournal(file, at)) => first == (*file, *at),
        // Equal generations refuse a journal, and break no file.
        (Some(first), Status::Done) => first == (FileId::One, 13),
        _ => false,
    }
}

#[test]
fn each_damaged_octet_is_named_as_a_journal_names_it(rt: HostRuntime) {
    let alloc = rt.alloc();
    let zero = older(alloc, 2);
    let one = newer(alloc);
    let zero = zero.as_slice();
    let one = one.as_slice();
    for place in 0..one.len() {
        for octet in [0u8, 1, 3, 0xff] {
            let other = damaged(alloc, one, place, octet);
            assert!(rt; agrees(alloc, zero, other.as_slice()));
            assert!(rt; agrees(alloc, other.as_slice(), zero));
        }
        assert!(rt; agrees(alloc, zero, &one[..place]));
    }
}

//! Records with a whole message, a faulty one and one that is too short.

use crate::list::list;
use crate::show::show;
use crate::{Status, list as listing, show as showing};
use dur_base::{List, Octets, Ticks};
use dur_capture::CapFault;
use dur_outside::{MemDisk, MemRig, MemSink, MemSource};
use dur_qos::PlanKind;
use std::alloc::Global;

const PLAN: &[u8] = b"prefix 0102030405060708\ntopic T transient hash 1 - - - - 0\n\
writer a1a1a1a1a1a1a1a1a1a1a1a100000102 T -\nend\n";

/// Moment 6, port 0: a heartbeat of 1 to 0, and a DATA that has data and a key.
const BOTH: &[u8] = b"\x06\x00\x00\x00\x00\x00\x00\x00\x00\x00\x50\x00\x00\x00RTPS\x02\x05\x00\x00\
\xa1\xa1\xa1\xa1\xa1\xa1\xa1\xa1\xa1\xa1\xa1\xa1\x07\x01\x1c\x00\x00\x00\x00\x00\x00\x00\x01\x02\
\x00\x00\x00\x00\x01\x00\x00\x00\x00\x00\x00\x00\x00\x00\x00\x00\x01\x00\x00\x00\
\x15\x0d\x18\x00\x00\x00\x10\x00\x00\x00\x00\x00\x00\x00\x01\x02\x00\x00\x00\x00\x01\x00\x00\x00\
\x00\x00\x00\x00";

/// Moment 7, port 0: 19 octets.
const SHORT: &[u8] = b"\x07\x00\x00\x00\x00\x00\x00\x00\x00\x00\x13\x00\x00\x00RTPS\x02\x05\x00\x00\
\xa1\xa1\xa1\xa1\xa1\xa1\xa1\xa1\xa1\xa1\xa1";

/// Moment 9: number 1 of the key aa, with 42.
const WRITTEN: &[u8] =
    b"\x09\x00\x00\x00\x00\x00\x00\x00\x00\x00\x4c\x00\x00\x00RTPS\x02\x05\x00\x00\
\xa1\xa1\xa1\xa1\xa1\xa1\xa1\xa1\xa1\xa1\xa1\xa1\x15\x07\x34\x00\x00\x00\x10\x00\x00\x00\x00\x00\
\x00\x00\x01\x02\x00\x00\x00\x00\x01\x00\x00\x00\x70\x00\x10\x00\xaa\xaa\xaa\xaa\xaa\xaa\xaa\xaa\
\xaa\xaa\xaa\xaa\xaa\xaa\xaa\xaa\x01\x00\x00\x00\x00\x01\x00\x00\x2a\x00\x00\x00";

/// A source of a plan and two records.
fn source(alloc: Global, plan: &[u8], first: &[u8], second: &[u8]) -> MemSource {
    let mut bytes = Octets::new(alloc);
    let _ = bytes.append(plan);
    let _ = bytes.append(first);
    let _ = bytes.append(second);
    MemSource::new(bytes, List::new(alloc))
}

fn rig(alloc: Global) -> MemRig {
    let disk = MemDisk::new(Octets::new(alloc), Octets::new(alloc), List::new(alloc));
    MemRig::new(disk, MemSink::new(List::new(alloc)))
}

/// A run of `show` over these octets: its status, and what went out.
fn run(alloc: Global, plan: &[u8], first: &[u8], second: &[u8]) -> (Status, MemSink) {
    let mut input = source(alloc, plan, first, second);
    let rig = rig(alloc);
    let ran = show(alloc, 0, &mut input, rig);
    let (_, out) = ran.rig.parts();
    (ran.status, out)
}

#[test]
fn each_record_has_its_line(rt: HostRuntime) {
    let (status, out) = run(rt.alloc(), PLAN, BOTH, SHORT);
    assert!(rt; matches!(&status, Status::Done));
    assert!(rt;
        out.written().as_slice()
            == b"1 6 0 1 stopped 53 BothDataAndKey\n2 7 0 0 badheader\n".as_slice()
    );
}

#[test]
fn what_breaks_first_is_named(rt: HostRuntime) {
    let alloc = rt.alloc();
    let (status, _) = run(alloc, b"prefix 0102030405060708\n", b"end", b"");
    assert!(rt; matches!(&status, Status::Plan(2, PlanKind::Word)));
    let (status, out) = run(alloc, PLAN, SHORT, b"\x00\x00\x00\x00\x00");
    assert!(rt; matches!(&status, Status::Input(33, CapFault::EndsInside(33))));
    assert!(rt; out.written().as_slice() == b"1 7 0 0 badheader\n".as_slice());
}

#[test]
fn a_written_sample_is_listed(rt: HostRuntime) {
    let alloc = rt.alloc();
    let mut input = source(alloc, PLAN, WRITTEN, b"");
    let ran = list(alloc, Ticks(0), 0, &mut input, rig(alloc));
    let (_, out) = ran.rig.parts();
    assert!(rt; matches!(&ran.status, Status::Done));
    assert!(rt;
        out.written().as_slice()
            == b"T a1a1a1a1a1a1a1a1a1a1a1a100000102 1 aaaaaaaaaaaaaaaaaaaaaaaaaaaaaaaa write 9 000100002a000000\n".as_slice()
    );
    listing::one_answer();
    showing::one_answer();
}

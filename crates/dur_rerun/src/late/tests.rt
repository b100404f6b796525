//! A replay of one change in one datagram, and a link on which nothing comes.

ghost use Rattle.std.specs.Prelude.{◌≡◌, IfOk};

use crate::late::{LateStatus, late, turns_end, turns_go_one_way};
use dur_base::{EntityId, Guid, List, Octets, OutOfMemory};
use dur_outside::{MemLink, MemSink};
use std::alloc::Global;

const READER: Guid = Guid(*b"\xb2\xb2\xb2\xb2\xb2\xb2\xb2\xb2\xb2\xb2\xb2\xb2\0\0\x01\x07");

const SERVICE: [u8; 8] = *b"\x01\x02\x03\x04\x05\x06\x07\x08";

const WRITER: EntityId = EntityId(*b"\x01\0\x01\x02");

/// A HEARTBEAT of 1 to 2, number 1 with 42, and the marker.
const REPLAY: &[u8] =
    b"RTPS\x02\x05\0\0\x01\x02\x03\x04\x05\x06\x07\x08\0\0\0\x01\x0e\x01\x0c\0\xb2\xb2\xb2\xb2\xb2\xb2\xb2\xb2\xb2\xb2\xb2\xb2\
\x07\x01\x1c\0\0\0\x01\x07\x01\0\x01\x02\0\0\0\0\x01\0\0\0\0\0\0\0\x02\0\0\0\x01\0\0\0\
\x09\x01\x08\0\0\0\0\0\x05\0\0\0\x15\x07\x54\0\0\0\x10\0\0\0\x01\x07\x01\0\x01\x02\0\0\0\0\x01\0\0\0\x70\0\x10\0\xaa\xaa\xaa\xaa\xaa\xaa\xaa\xaa\xaa\xaa\xaa\xaa\xaa\xaa\xaa\xaa\x61\0\x1c\0\xa1\xa1\xa1\xa1\xa1\xa1\xa1\xa1\xa1\xa1\xa1\xa1\0\0\x01\x02\0\0\0\0\x01\0\0\0\x01\0\0\0\x01\0\0\0\0\x01\0\0*\0\0\0\
\x15\x03\x24\0\0\0\x10\0\0\0\x01\x07\x01\0\x01\x02\0\0\0\0\x02\0\0\0\x56\0\x08\0\xff\xff\xff\xff\0\0\0\0\x01\0\0\0";

const LINE: &[u8] =
    b"a1a1a1a1a1a1a1a1a1a1a1a100000102 1 aaaaaaaaaaaaaaaaaaaaaaaaaaaaaaaa write 5 000100002a000000\n";

fn octets_of(alloc: Global, bytes: &[u8]) -> Result<Octets, OutOfMemory>
    ensures { IfOk result (λ o. o ≡ bytes.now) }
{
    let mut octets = Octets::new(alloc);
    octets.append(bytes)?;
    Ok(octets)
}

#[test]
fn a_replay_is_taken_and_acknowledged(rt: HostRuntime) {
    let alloc = rt.alloc();
    let mut given = List::new(alloc);
    let replay = octets_of(alloc, REPLAY).expect(&rt, "memory");
    given.push(Some(replay)).expect(&rt, "memory");
    let mut link = MemLink::new(given, List::new(alloc));
    let mut out = MemSink::new(List::new(alloc));
    let status = late(alloc, READER, SERVICE, WRITER, 9, &mut link, &mut out);
    assert!(rt; status == LateStatus::Done && out.written().as_slice() == LINE);
    assert!(rt; link.sent().len() == 1);
    let status = late(alloc, READER, SERVICE, WRITER, 2, &mut link, &mut out);
    assert!(rt; status == LateStatus::Unfinished && out.written().as_slice() == LINE);
    assert!(rt; link.sent().len() == 3);
    turns_go_one_way();
    turns_end();
}

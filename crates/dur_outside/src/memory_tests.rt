//! The objects in memory: each call once, and crashes by images that were worked out by hand.

ghost use Rattle.std.specs.Prelude.{◌≡◌, IfSome};

use crate::{
    Clock, Disk, Failed, FileId, LONGEST_DATAGRAM, Link, MemClock, MemDisk, MemLink, MemRig,
    MemSink, MemSource, NoSink, Sink, Source, SureSource,
};
use dur_base::{List, Octets, Ticks};
use std::alloc::Global;

fn list_of(alloc: Global, call: u64) -> List<u64> {
    let mut list = List::new(alloc);
    let _ = list.push(call);
    list
}

fn octets_of(alloc: Global, bytes: &[u8]) -> Option<Octets>
    ensures { IfSome result (λ octets. octets ≡ bytes.now) }
{
    Some(Octets::of(Vec::from_slice(alloc, bytes).ok()?))
}

// The first file was written over at its front twice, the second cut, and nothing synced.
fn crashed(alloc: Global, pick: u64) -> Option<MemDisk> {
    let zero = octets_of(alloc, b"abcdefgh")?;
    let one = octets_of(alloc, b"other")?;
    let mut disk = MemDisk::new(zero, one, List::new(alloc));
    disk.write_at(FileId::Zero, 0, b"ABCD").ok()?;
    disk.write_at(FileId::Zero, 0, b"12").ok()?;
    disk.cut(FileId::One, 0).ok()?;
    disk.crash(pick).ok()
}

// The first file was written and synced, the second written and not synced.
fn crashed_later(alloc: Global, pick: u64) -> Option<MemDisk> {
    let mut disk = MemDisk::new(Octets::new(alloc), Octets::new(alloc), List::new(alloc));
    disk.write_at(FileId::Zero, 0, b"kept").ok()?;
    disk.sync(FileId::Zero).ok()?;
    disk.write_at(FileId::One, 0, b"lost").ok()?;
    disk.crash(pick).ok()
}

#[test]
fn a_crash_leaves_what_the_number_picks(rt: HostRuntime) {
    let disk = crashed(rt.alloc(), 0).expect(&rt, "memory");
    assert!(rt; disk.octets(FileId::Zero) == b"abcdefgh".as_slice());
    assert!(rt; disk.octets(FileId::One) == b"".as_slice());

    // The second write leaves 67 / 3 % 3 = 1 octet from 67 % 3 = 1 on, the first, by 67 / 3 / 3 = 7, as many
    // as 7 / 5 from 7 % 5 on, and the cut 67 % 6 octets.
    let disk = crashed(rt.alloc(), 67).expect(&rt, "memory");
    assert!(rt; disk.octets(FileId::Zero) == b"a2Cdefgh".as_slice());
    assert!(rt; disk.octets(FileId::One) == b"o".as_slice());

    // 186 % 3 = 0, 186 / 3 % 3 = 2, 186 / 3 / 3 = 20, 20 % 5 = 0, 20 / 5 = 4, and 186 % 6 = 0.
    let disk = crashed(rt.alloc(), 186).expect(&rt, "memory");
    assert!(rt; disk.octets(FileId::Zero) == b"12CDefgh".as_slice());
    assert!(rt; disk.octets(FileId::One) == b"".as_slice());
}

#[test]
fn a_crash_keeps_what_was_synced(rt: HostRuntime) {
    let disk = crashed_later(rt.alloc(), 0).expect(&rt, "memory");
    assert!(rt; disk.octets(FileId::Zero) == b"kept".as_slice());
    assert!(rt; disk.octets(FileId::One) == b"".as_slice());
    // The write leaves 20 / 5 = 4 of its octets from 20 % 5 = 0 on.
    let disk = crashed_later(rt.alloc(), 20).expect(&rt, "memory");
    assert!(rt; disk.octets(FileId::Zero) == b"kept".as_slice());
    assert!(rt; disk.octets(FileId::One) == b"lost".as_slice());
}

#[test]
fn a_disk_is_read_and_fails_where_it_is_set_to(rt: HostRuntime) {
    let alloc = rt.alloc();
    let zero = octets_of(alloc, b"abcd").expect(&rt, "memory");
    let mut disk = MemDisk::new(zero, Octets::new(alloc), list_of(alloc, 0));
    assert!(rt; disk.len(FileId::Zero) == Err(Failed));
    assert!(rt; disk.len(FileId::Zero) == Ok(4));
    let mut into = [0u8; 2];
    assert!(rt; disk.read(FileId::Zero, 1, &mut into) == Ok(()));
    assert!(rt; into == *b"bc");
    disk.fail_from(1);
    assert!(rt; disk.sync(FileId::Zero) == Ok(()));
    assert!(rt; disk.sync(FileId::Zero) == Err(Failed));
    assert!(rt; disk.len(FileId::Zero) == Ok(4));
    assert!(rt; disk.starved() == 0);
}

#[test]
fn a_rig_has_both(rt: HostRuntime) {
    let alloc = rt.alloc();
    let disk = MemDisk::new(Octets::new(alloc), Octets::new(alloc), List::new(alloc));
    let mut rig = MemRig::new(disk, MemSink::new(List::new(alloc)));
    assert!(rt; rig.write_at(FileId::One, 0, b"one") == Ok(()));
    assert!(rt; rig.write(b"out") == Ok(3));
    let (disk, sink) = rig.parts();
    assert!(rt; disk.octets(FileId::One) == b"one".as_slice());
    assert!(rt; sink.written().as_slice() == b"out".as_slice());
}

#[test]
fn sinks_take_what_they_are_given(rt: HostRuntime) {
    let mut sink = MemSink::new(list_of(rt.alloc(), 1));
    assert!(rt; sink.write(b"ab") == Ok(2));
    assert!(rt; sink.write(b"cd") == Err(Failed));
    assert!(rt; sink.write(b"ef") == Ok(2));
    assert!(rt; sink.written().as_slice() == b"abef".as_slice());
    assert!(rt; sink.starved() == 0);
    assert!(rt; NoSink.write(b"x") == Ok(1));
}

#[test]
fn sources_give_what_they_have(rt: HostRuntime) {
    let alloc = rt.alloc();
    let mut into = [0u8; 4];
    let bytes = octets_of(alloc, b"abcdef").expect(&rt, "memory");
    let mut source = MemSource::new(bytes, list_of(alloc, 1));
    assert!(rt; source.read(&mut into) == Ok(4));
    assert!(rt; source.read(&mut into) == Err(Failed));
    assert!(rt; source.read(&mut into) == Ok(2));
    assert!(rt; into == *b"efcd");
    let bytes = octets_of(alloc, b"xy").expect(&rt, "memory");
    let mut source = SureSource::new(bytes);
    assert!(rt; source.read(&mut into) == Ok(2));
    assert!(rt; source.read(&mut into) == Ok(0));
}

#[test]
fn a_link_hears_and_keeps_what_it_sends(rt: HostRuntime) {
    let alloc = rt.alloc();
    let mut given = List::new(alloc);
    let heard = octets_of(alloc, b"heard").expect(&rt, "memory");
    given.push(Some(heard)).expect(&rt, "memory");
    let mut link = MemLink::new(given, list_of(alloc, 2));
    let mut into = Vec::from_elem(alloc, 0u8, LONGEST_DATAGRAM).expect(&rt, "memory");
    assert!(rt; link.receive(&mut into) == Ok(Some(5)));
    assert!(rt; into[0] == b'h' && into[4] == b'd');
    assert!(rt; link.receive(&mut into) == Ok(None));
    assert!(rt; link.send(b"lost") == Err(Failed));
    assert!(rt; link.send(b"sent") == Ok(()));
    let sent = link.sent().as_slice();
    assert!(rt; sent.len() == 1 && sent[0].as_slice() == b"sent".as_slice());
    assert!(rt; link.starved() == 0);
}

#[test]
fn a_clock_stands_still(rt: HostRuntime) {
    assert!(rt; MemClock::new(Ticks(7)).now() == Ticks(7));
}

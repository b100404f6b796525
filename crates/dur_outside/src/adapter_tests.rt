//! The adapters, each once, on real files, sockets and streams.

use crate::{
    Clock, Disk, Failed, FileDisk, FileId, FileRig, Gate, LONGEST_DATAGRAM, Link, MemLink, NoGate,
    OutputRig, Place, Rig, Sink, Source, StdSink, StdSource, UdpLink, WallClock,
};
use dur_base::{List, Ticks};
use std::fs::{File, OpenOptions};
use std::io::{ErrorKind, Read, Write};
use std::net::UdpSocket;
use std::time::Duration;
use std::{env, fs, io, process};

// A file without a name: it is gone with its handle.
fn scratch_file(rt: &HostRuntime, label: &str) -> io::Result<File> {
    let name = format!(in rt.alloc(); "durability-{}-{label}", process::id(rt.process()))?;
    let path = env::temp_dir(rt)?.join(rt.alloc(), name.as_str())?;
    let mut options = OpenOptions::new();
    options.read(true).write(true).create(true).truncate(true);
    let file = options.open(rt, &path)?;
    fs::remove_file(rt, &path)?;
    Ok(file)
}

#[test]
fn real_files_are_written_synced_cut_and_read(rt: HostRuntime) {
    let zero = scratch_file(&rt, "zero").expect(&rt, "file 0");
    let one = scratch_file(&rt, "one").expect(&rt, "file 1");
    let mut disk = FileDisk::new(zero, one);
    assert!(rt; disk.write_at(FileId::Zero, 0, b"hello") == Ok(()));
    assert!(rt; disk.sync(FileId::Zero) == Ok(()));
    assert!(rt; disk.cut(FileId::Zero, 3) == Ok(()));
    assert!(rt; disk.len(FileId::Zero) == Ok(3));
    assert!(rt; disk.len(FileId::One) == Ok(0));
    let mut into = [0u8; 2];
    assert!(rt; disk.read(FileId::Zero, 1, &mut into) == Ok(()));
    assert!(rt; into == *b"el");
    assert!(rt; disk.read(FileId::Zero, 2, &mut into) == Err(Failed));
}

// One body over any rig.
fn run_once<R: Rig>(rig: &mut R) -> (Result<usize, Failed>, Result<u64, Failed>) {
    (rig.write(b"out"), rig.len(FileId::One))
}

#[test]
fn rigs_write_with_files_or_without(rt: HostRuntime) {
    let zero = scratch_file(&rt, "rig-zero").expect(&rt, "file 0");
    let one = scratch_file(&rt, "rig-one").expect(&rt, "file 1");
    let sink = StdSink::new(Vec::new(rt.alloc()));
    let mut rig = FileRig::new(FileDisk::new(zero, one), sink);
    assert!(rt; run_once(&mut rig) == (Ok(3), Ok(0)));
    assert!(rt; rig.write_at(FileId::One, 0, b"one") == Ok(()));
    assert!(rt; rig.sync(FileId::One) == Ok(()));
    assert!(rt; rig.cut(FileId::One, 2) == Ok(()));
    let mut into = [0u8; 2];
    assert!(rt; rig.read(FileId::One, 0, &mut into) == Ok(()));
    assert!(rt; into == *b"on");
    let mut rig = OutputRig::new(StdSink::new(Vec::new(rt.alloc())));
    assert!(rt; run_once(&mut rig) == (Ok(3), Err(Failed)));
    assert!(rt; rig.sync(FileId::One) == Err(Failed));
}

#[derive(Drop)]
struct BrokenReader;

impl Read for BrokenReader {
    fn read(&mut self, _into: &mut [u8]) -> io::Result<usize> {
        Err(io::Error::from(ErrorKind::Other))
    }
}

#[test]
fn streams_end_and_fail(rt: HostRuntime) {
    let mut into = [0u8; 4];
    let mut source = StdSource::new(b"abcdef".as_slice());
    assert!(rt; source.read(&mut into) == Ok(4));
    assert!(rt; source.read(&mut into) == Ok(2));
    assert!(rt; into == *b"efcd");
    assert!(rt; source.read(&mut into) == Ok(0));
    assert!(rt; StdSource::new(BrokenReader).read(&mut into) == Err(Failed));

    let mut room = [0u8; 3];
    let mut sink = StdSink::new(room.as_mut_slice());
    assert!(rt; sink.write(b"ab") == Ok(2));
    assert!(rt; sink.write(b"cd") == Ok(1));
    assert!(rt; sink.write(b"d") == Err(Failed));
    assert!(rt; room == *b"abc");
}

// Of each two calls a signal interrupts the first.
#[derive(Drop)]
struct Interrupted<T> {
    inner: T,
    due: bool,
}

impl<T> Interrupted<T> {
    fn comes(&mut self) -> bool {
        self.due = !self.due;
        !self.due
    }
}

impl<R: Read> Read for Interrupted<R> {
    fn read(&mut self, into: &mut [u8]) -> io::Result<usize> {
        if self.comes() {
            return Err(io::Error::from(ErrorKind::Interrupted));
        }
        self.inner.read(into)
    }
}

impl<W: Write> Write for Interrupted<W> {
    fn write(&mut self, piece: &[u8]) -> io::Result<usize> {
        if self.comes() {
            return Err(io::Error::from(ErrorKind::Interrupted));
        }
        self.inner.write(piece)
    }

    fn flush(&mut self) -> io::Result<()> {
        Ok(())
    }
}

#[test]
fn what_a_signal_interrupts_is_done_again(rt: HostRuntime) {
    let mut into = [0u8; 4];
    let mut source = StdSource::new(Interrupted {
        inner: b"abcdef".as_slice(),
        due: true,
    });
    assert!(rt; source.read(&mut into) == Ok(4));
    assert!(rt; source.read(&mut into) == Ok(2));
    assert!(rt; source.read(&mut into) == Ok(0));
    let mut room = [0u8; 3];
    let mut sink = StdSink::new(Interrupted {
        inner: room.as_mut_slice(),
        due: true,
    });
    assert!(rt; sink.write(b"ab") == Ok(2));
    assert!(rt; sink.write(b"c") == Ok(1));
    assert!(rt; sink.write(b"d") == Err(Failed));
    assert!(rt; room == *b"abc");
}

#[test]
fn sockets_carry_datagrams(rt: HostRuntime) {
    let first = UdpSocket::bind(&rt, "127.0.0.1:0").expect(&rt, "a socket");
    let second = UdpSocket::bind(&rt, "127.0.0.1:0").expect(&rt, "a socket");
    let wait = Some(Duration::from_millis(500));
    first.set_read_timeout(wait).expect(&rt, "a timeout");
    second.set_read_timeout(wait).expect(&rt, "a timeout");
    let there = second.local_addr().expect(&rt, "an address");
    let mut near = UdpLink::new(first, there);
    // Its fixed peer is itself, so its answer shows that it goes by the last datagram.
    let mut far = UdpLink::new(second, there);
    let mut into = Vec::from_elem(rt.alloc(), 0u8, LONGEST_DATAGRAM).expect(&rt, "memory");
    assert!(rt; near.send(b"ask") == Ok(()));
    assert!(rt; far.receive(&mut into) == Ok(Some(3)));
    assert!(rt; far.send(b"answer") == Ok(()));
    assert!(rt; near.receive(&mut into) == Ok(Some(6)));
    assert!(rt; near.receive(&mut into) == Ok(None));
    assert!(rt; near.send(&[0u8; 65_508]) == Err(Failed));
}

#[test]
fn the_wall_clock_is_past_2020(rt: HostRuntime) {
    let year_2020 = Ticks(1_577_836_800 << 32);
    assert!(rt; year_2020 < WallClock::new(&rt).now());
    NoGate.hold(Place::Storing);
}

fn is_send_and_sync<T: Send + Sync>(_value: &T) {}

#[test]
fn threads_may_have_them(rt: HostRuntime) {
    let alloc = rt.alloc();
    is_send_and_sync(&MemLink::new(List::new(alloc), List::new(alloc)));
    is_send_and_sync(&UdpLink::new(
        UdpSocket::bind(&rt, "127.0.0.1:0").expect(&rt, "a socket"),
        std::net::SocketAddr::from(([127, 0, 0, 1], 9)),
    ));
    let zero = scratch_file(&rt, "send-zero").expect(&rt, "file 0");
    let one = scratch_file(&rt, "send-one").expect(&rt, "file 1");
    is_send_and_sync(&FileDisk::new(zero, one));
    is_send_and_sync(&WallClock::new(&rt));
}

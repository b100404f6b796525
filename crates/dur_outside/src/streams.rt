//! Any reader as a source, any writer as a sink, and a rig that has a writer and no files.

ghost use Rattle.std.specs.Prelude.{◌≡◌, ◌<◌, ◌≤◌, length, IfOk, IsErr, is_err};
ghost use Rattle.std.specs.Io.{ReadsAtMost};
ghost use Rattle.std.specs.Io.KnownBytes.{ReadConsumes};
ghost use Rattle.dur_outside.specs.Causes.{HasCause, Rose, faults_after, one_more};
ghost use Rattle.dur_outside.specs.World.{nothing};

use crate::again::{read_again, write_again};
use crate::{Disk, Failed, FileId, Machine, Rig, Sink, Source};
use std::io::{Read, Write};
use std::marker::Model;

/// A reader as a source. What is left is told as far as the reader tells it.
#[derive(Drop)]
pub struct StdSource<R: Read> {
    inner: R,
    faults: u64,
}

impl<R: Read> Model for StdSource<R> {
    ghost use Rattle.dur_outside.specs.Given.{GivenReader};

    ghost Value = { GivenReader };

    ghost view = { λ s. record { left = R.remaining s.inner; faults = s.faults } };
}

impl<R: Read> StdSource<R> {
    /// A source that reads from this reader.
    pub fn new(inner: R) -> StdSource<R>
        ensures { result ≡ record { left = R.remaining inner; faults = 0 } }
    {
        StdSource { inner, faults: 0 }
    }
}

impl<R: Read> Source for StdSource<R> {
    ghost left = { λ s. s.left };

    ghost faults = { λ s. s.faults };

    /// It fails exactly where the reader does, but a read that a signal interrupts is made again.
    fn read(&mut self, into: &mut [u8]) -> Result<usize, Failed>
        ensures bound { ReadsAtMost result into.new }
        ensures bytes { ReadConsumes self.old.left self.new.left result into.new }
        ensures cause { HasCause self.old.faults self.new.faults result }
        ensures count { self.new.faults ≡ faults_after (is_err result) self.old.faults }
    {
        match read_again(&mut self.inner, into) {
            Ok(count) => Ok(count),
            Err(_) => {
                self.faults = self.faults.saturating_add(1);
                Err(Failed)
            }
        }
    }
}

/// A writer as a sink, of which nothing is told but the faults.
#[derive(Drop)]
pub struct StdSink<W> {
    inner: W,
    faults: u64,
}

impl<W> Model for StdSink<W> {
    ghost use Rattle.std.specs.Prelude.{ℕ};

    ghost Value = { ℕ };

    ghost view = { λ s. s.faults };
}

impl<W: Write> StdSink<W> {
    /// A sink that writes to this writer. It does not flush, so take a writer that needs no flush.
    pub fn new(inner: W) -> StdSink<W>
        ensures { result ≡ 0 }
    {
        StdSink { inner, faults: 0 }
    }
}

impl<W: Write> Machine for StdSink<W> {
    ghost tells = { ⊥ };

    ghost world = { λ _. nothing };

    ghost disk_faults = { λ _. 0 };

    ghost sink_faults = { λ s. s };
}

impl<W: Write> Sink for StdSink<W> {
    /// It fails exactly where the writer does or takes nothing, but a write that a signal interrupts is made
    /// again.
    fn write(&mut self, piece: &[u8]) -> Result<usize, Failed>
        ensures least { IfOk result (λ n. 0 < n) }
        ensures most { IfOk result (λ n. n ≤ length piece.now) }
        ensures cause { HasCause self.old self.new result }
        ensures count { self.new ≡ faults_after (is_err result) self.old }
    {
        match write_again(&mut self.inner, piece) {
            Ok(count) if count > 0 => Ok(count),
            _ => {
                self.faults = self.faults.saturating_add(1);
                Err(Failed)
            }
        }
    }
}

/// A writer and no files: the rig of a run that keeps nothing. Each call on its disk fails.
#[derive(Drop)]
pub struct OutputRig<W> {
    sink: StdSink<W>,
    faults: u64,
}

impl<W> Model for OutputRig<W> {
    ghost use Rattle.dur_outside.specs.Given.{GivenFaults};

    ghost Value = { GivenFaults };

    ghost view = { λ r. record { disk = r.faults; sink = r.sink } };
}

impl<W: Write> OutputRig<W> {
    /// A rig that writes to this sink.
    pub fn new(sink: StdSink<W>) -> OutputRig<W>
        ensures { result ≡ record { disk = 0; sink = sink } }
    {
        OutputRig { sink, faults: 0 }
    }

    // Counts a call on a disk that is not there.
    fn no_disk(&mut self) -> Failed
        ensures count { self.new ≡ record self.old { disk = one_more self.old.disk } }
        ensures later { self.old.disk ≤ self.new.disk }
        ensures rose { Rose self.old.disk self.new.disk }
    {
        self.faults = self.faults.saturating_add(1);
        Failed
    }
}

impl<W: Write> Machine for OutputRig<W> {
    ghost tells = { ⊥ };

    ghost world = { λ _. nothing };

    ghost disk_faults = { λ r. r.disk };

    ghost sink_faults = { λ r. r.sink };
}

impl<W: Write> Disk for OutputRig<W> {
    ghost sound = { λ none. absurd none };

    fn len(&mut self, _file: FileId) -> Result<u64, Failed>
        ensures cause { HasCause self.old.disk self.new.disk result }
        ensures fails { IsErr result }
        ensures count { self.new ≡ record self.old { disk = one_more self.old.disk } }
    {
        Err(self.no_disk())
    }

    fn read(&mut self, _file: FileId, _at: u64, into: &mut [u8]) -> Result<(), Failed>
        ensures cause { HasCause self.old.disk self.new.disk result }
        ensures fails { IsErr result }
        ensures count { self.new ≡ record self.old { disk = one_more self.old.disk } }
        ensures into { into.new ≡ into.old }
    {
        Err(self.no_disk())
    }

    fn write_at(&mut self, _file: FileId, _at: u64, _bytes: &[u8]) -> Result<(), Failed>
        ensures cause { HasCause self.old.disk self.new.disk result }
        ensures fails { IsErr result }
        ensures count { self.new ≡ record self.old { disk = one_more self.old.disk } }
    {
        Err(self.no_disk())
    }

    fn cut(&mut self, _file: FileId, _end: u64) -> Result<(), Failed>
        ensures cause { HasCause self.old.disk self.new.disk result }
        ensures fails { IsErr result }
        ensures count { self.new ≡ record self.old { disk = one_more self.old.disk } }
    {
        Err(self.no_disk())
    }

    fn sync(&mut self, _file: FileId) -> Result<(), Failed>
        ensures cause { HasCause self.old.disk self.new.disk result }
        ensures fails { IsErr result }
        ensures count { self.new ≡ record self.old { disk = one_more self.old.disk } }
    {
        Err(self.no_disk())
    }
}

impl<W: Write> Sink for OutputRig<W> {
    fn write(&mut self, piece: &[u8]) -> Result<usize, Failed>
        ensures least { IfOk result (λ n. 0 < n) }
        ensures most { IfOk result (λ n. n ≤ length piece.now) }
        ensures cause { HasCause self.old.sink self.new.sink result }
        ensures count { self.new ≡ record self.old { sink = faults_after (is_err result) self.old.sink } }
    {
        self.sink.write(piece)
    }
}

impl<W: Write> Rig for OutputRig<W> {}

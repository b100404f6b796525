//! Two files of the system as a disk, and with a writer as a rig. Of both nothing is told but their faults.

ghost use Rattle.std.specs.Prelude.{◌≡◌, ◌<◌, ◌≤◌, length, IfOk, is_err};
ghost use Rattle.dur_outside.specs.Causes.{HasCause, faults_after};
ghost use Rattle.dur_outside.specs.Given.{file_of, files_after};
ghost use Rattle.dur_outside.specs.World.{nothing};

use crate::{Disk, Failed, FileId, Machine, Rig, Sink, StdSink};
use std::fs::File;
use std::io;
use std::io::Write;
use std::marker::Model;
use std::os::unix::fs::FileExt;

/// Two files of the system. A sync is that of the file with its length; the folder's own entry for a file
/// that was just made is not synced here.
#[derive(Drop)]
pub struct FileDisk {
    zero: File,
    one: File,
    faults: u64,
}

impl Model for FileDisk {
    ghost use Rattle.dur_outside.specs.Given.{GivenFiles};

    ghost Value = { GivenFiles };

    ghost view = { λ d. record { zero = d.zero; one = d.one; faults = d.faults } };
}

impl FileDisk {
    /// A disk of these files, which are open for reading and writing, and not for appending.
    pub fn new(zero: File, one: File) -> FileDisk
        ensures { result ≡ record { zero = zero; one = one; faults = 0 } }
    {
        FileDisk {
            zero,
            one,
            faults: 0,
        }
    }

    fn file(&self, file: FileId) -> &File
        ensures { result.now ≡ file_of file self.now }
    {
        match file {
            FileId::Zero => &self.zero,
            FileId::One => &self.one,
        }
    }
}

// Counts a fault where a call of the system failed.
fn counted<T: Drop>(faults: &mut u64, answer: io::Result<T>) -> Result<T, Failed>
    ensures cause { HasCause faults.old faults.new result }
    ensures count { faults.new ≡ faults_after (is_err result) faults.old }
    ensures failed { is_err result ≡ is_err answer }
{
    match answer {
        Ok(value) => Ok(value),
        Err(_) => {
            *faults = faults.saturating_add(1);
            Err(Failed)
        }
    }
}

fn length_of(file: &File) -> io::Result<u64> {
    Ok(file.metadata()?.len())
}

impl Machine for FileDisk {
    ghost tells = { ⊥ };

    ghost world = { λ _. nothing };

    ghost disk_faults = { λ d. d.faults };

    ghost sink_faults = { λ _. 0 };
}

impl Disk for FileDisk {
    ghost sound = { λ none. absurd none };

    fn len(&mut self, file: FileId) -> Result<u64, Failed>
        ensures cause { HasCause self.old.faults self.new.faults result }
        ensures count { self.new ≡ files_after (is_err result) self.old }
    {
        let length = length_of(self.file(file));
        counted(&mut self.faults, length)
    }

    fn read(&mut self, file: FileId, at: u64, into: &mut [u8]) -> Result<(), Failed>
        ensures cause { HasCause self.old.faults self.new.faults result }
        ensures count { self.new ≡ files_after (is_err result) self.old }
    {
        let done = self.file(file).read_exact_at(into, at);
        counted(&mut self.faults, done)
    }

    fn write_at(&mut self, file: FileId, at: u64, bytes: &[u8]) -> Result<(), Failed>
        ensures cause { HasCause self.old.faults self.new.faults result }
        ensures count { self.new ≡ files_after (is_err result) self.old }
    {
        let done = self.file(file).write_all_at(bytes, at);
        counted(&mut self.faults, done)
    }

    fn cut(&mut self, file: FileId, end: u64) -> Result<(), Failed>
        ensures cause { HasCause self.old.faults self.new.faults result }
        ensures count { self.new ≡ files_after (is_err result) self.old }
    {
        let done = self.file(file).set_len(end);
        counted(&mut self.faults, done)
    }

    fn sync(&mut self, file: FileId) -> Result<(), Failed>
        ensures cause { HasCause self.old.faults self.new.faults result }
        ensures count { self.new ≡ files_after (is_err result) self.old }
    {
        let done = self.file(file).sync_all();
        counted(&mut self.faults, done)
    }
}

/// Two files of the system and a writer.
#[derive(Drop)]
pub struct FileRig<W> {
    disk: FileDisk,
    sink: StdSink<W>,
}

impl<W> Model for FileRig<W> {
    ghost use Rattle.dur_outside.specs.Given.{GivenFileRig};

    ghost Value = { GivenFileRig };

    ghost view = { λ r. record { disk = r.disk; sink = r.sink } };
}

impl<W: Write> FileRig<W> {
    /// A rig of this disk and this sink.
    pub fn new(disk: FileDisk, sink: StdSink<W>) -> FileRig<W>
        ensures { result ≡ record { disk = disk; sink = sink } }
    {
        FileRig { disk, sink }
    }
}

impl<W: Write> Machine for FileRig<W> {
    ghost tells = { ⊥ };

    ghost world = { λ _. nothing };

    ghost disk_faults = { λ r. r.disk.faults };

    ghost sink_faults = { λ r. r.sink };
}

impl<W: Write> Disk for FileRig<W> {
    ghost sound = { λ none. absurd none };

    fn len(&mut self, file: FileId) -> Result<u64, Failed>
        ensures cause { HasCause self.old.disk.faults self.new.disk.faults result }
        ensures count { self.new ≡ record self.old { disk = files_after (is_err result) self.old.disk } }
    {
        self.disk.len(file)
    }

    fn read(&mut self, file: FileId, at: u64, into: &mut [u8]) -> Result<(), Failed>
        ensures cause { HasCause self.old.disk.faults self.new.disk.faults result }
        ensures count { self.new ≡ record self.old { disk = files_after (is_err result) self.old.disk } }
    {
        self.disk.read(file, at, into)
    }

    fn write_at(&mut self, file: FileId, at: u64, bytes: &[u8]) -> Result<(), Failed>
        ensures cause { HasCause self.old.disk.faults self.new.disk.faults result }
        ensures count { self.new ≡ record self.old { disk = files_after (is_err result) self.old.disk } }
    {
        self.disk.write_at(file, at, bytes)
    }

    fn cut(&mut self, file: FileId, end: u64) -> Result<(), Failed>
        ensures cause { HasCause self.old.disk.faults self.new.disk.faults result }
        ensures count { self.new ≡ record self.old { disk = files_after (is_err result) self.old.disk } }
    {
        self.disk.cut(file, end)
    }

    fn sync(&mut self, file: FileId) -> Result<(), Failed>
        ensures cause { HasCause self.old.disk.faults self.new.disk.faults result }
        ensures count { self.new ≡ record self.old { disk = files_after (is_err result) self.old.disk } }
    {
        self.disk.sync(file)
    }
}

impl<W: Write> Sink for FileRig<W> {
    fn write(&mut self, piece: &[u8]) -> Result<usize, Failed>
        ensures least { IfOk result (λ n. 0 < n) }
        ensures most { IfOk result (λ n. n ≤ length piece.now) }
        ensures cause { HasCause self.old.sink self.new.sink result }
        ensures count { self.new ≡ record self.old { sink = faults_after (is_err result) self.old.sink } }
    {
        self.sink.write(piece)
    }
}

impl<W: Write> Rig for FileRig<W> {}

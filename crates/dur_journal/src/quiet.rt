//! A disk in memory of which nothing is told, for tests.

ghost use Rattle.std.specs.Prelude.{◌≤◌, ◌+◌, IsTrue, length};
ghost use Rattle.dur_outside.specs.Causes.{HasCause};
ghost use Rattle.dur_outside.specs.Memory.{octets_of};
ghost use Rattle.dur_outside.specs.World.{nothing};

use dur_base::{List, Octets};
use dur_outside::{Disk, Failed, FileId, Machine, MemDisk};
use std::alloc::Global;

/// A disk in memory of which nothing is told, as of one of the system.
#[derive(Drop)]
pub(crate) struct Quiet {
    pub(crate) disk: MemDisk,
    pub(crate) faults: u64,
}

fn counted<T: Drop>(faults: &mut u64, answer: Result<T, Failed>) -> Result<T, Failed>
    ensures { HasCause faults.old faults.new result }
{
    match answer {
        Ok(value) => Ok(value),
        Err(_) => {
            *faults = faults.saturating_add(1);
            Err(Failed)
        }
    }
}

// Whether so many octets from that place on stand within the file.
fn is_within(disk: &mut MemDisk, file: FileId, at: u64, count: u64) -> bool
    ensures { IsTrue result → at + count ≤ length (octets_of file disk.new) }
{
    match disk.len(file) {
        Ok(length) => at <= length && count <= length - at,
        Err(_) => false,
    }
}

impl Machine for Quiet {
    ghost tells = { ⊥ };

    ghost world = { λ _. nothing };

    ghost disk_faults = { λ d. d.faults };

    ghost sink_faults = { λ _. 0 };
}

impl Disk for Quiet {
    ghost sound = { λ none. absurd none };

    fn len(&mut self, file: FileId) -> Result<u64, Failed> {
        let answer = self.disk.len(file);
        counted(&mut self.faults, answer)
    }

    fn read(&mut self, file: FileId, at: u64, into: &mut [u8]) -> Result<(), Failed> {
        let answer = if is_within(&mut self.disk, file, at, into.len() as u64) {
            self.disk.read(file, at, into)
        } else {
            Err(Failed)
        };
        counted(&mut self.faults, answer)
    }

    fn write_at(&mut self, file: FileId, at: u64, bytes: &[u8]) -> Result<(), Failed> {
        let answer = if is_within(&mut self.disk, file, at, 0) {
            self.disk.write_at(file, at, bytes)
        } else {
            Err(Failed)
        };
        counted(&mut self.faults, answer)
    }

    fn cut(&mut self, file: FileId, end: u64) -> Result<(), Failed> {
        let answer = if is_within(&mut self.disk, file, end, 0) {
            self.disk.cut(file, end)
        } else {
            Err(Failed)
        };
        counted(&mut self.faults, answer)
    }

    fn sync(&mut self, file: FileId) -> Result<(), Failed> {
        let answer = self.disk.sync(file);
        counted(&mut self.faults, answer)
    }
}

pub(crate) fn disk_of(alloc: Global, zero: &[u8], one: &[u8]) -> Option<Quiet> {
    let zero = Octets::of(Vec::from_slice(alloc, zero).ok()?);
    let one = Octets::of(Vec::from_slice(alloc, one).ok()?);
    Some(Quiet {
        disk: MemDisk::new(zero, one, List::new(alloc)),
        faults: 0,
    })
}

// What a file holds.
pub(crate) fn octets(alloc: Global, disk: &mut Quiet, file: FileId) -> Option<Vec<u8>> {
    let length = disk.len(file).ok()?;
    let mut octets = Vec::new(alloc);
    octets.resize(length as usize, 0).ok()?;
    disk.read(file, 0, &mut octets).ok()?;
    Some(octets)
}

// The disk after a crash.
pub(crate) fn crashed(disk: Quiet, pick: u64) -> Option<Quiet> {
    let Quiet { disk, .. } = disk;
    let disk = disk.crash(pick).ok()?;
    Some(Quiet { disk, faults: 0 })
}

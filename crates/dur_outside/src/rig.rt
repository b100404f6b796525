//! A disk and a sink in memory as one rig.

ghost use Rattle.std.specs.Prelude.{◌≡◌, ◌<◌, ◌≤◌, ◌++◌, ◌∷◌, ◌+◌, true, false, length, take, drop, IfOk, OnOk, OnErr, is_err};
ghost use Rattle.dur_outside.specs.Causes.{HasCause};
ghost use Rattle.dur_outside.specs.Calls.{IsListed, Counts};
ghost use Rattle.dur_outside.specs.World.{Reads, Writes, Cuts, Syncs, Sends, content};
ghost use Rattle.dur_outside.specs.Memory.{image, disk_world, IsSet, left_after, KeepsFiles};
ghost use Rattle.dur_outside.specs.Sound.{sound};
ghost use Rattle.dur_outside.specs.declared.change.Change.TheVariants.{Sent};

use crate::{Disk, Failed, FileId, Machine, MemDisk, MemSink, Rig, Sink};
use std::marker::Model;

/// A disk and a sink in memory, under the disk's clock. A call that is to fail is set at the part that it
/// belongs to, and is counted there.
#[derive(Drop)]
pub struct MemRig {
    disk: MemDisk,
    sink: MemSink,
}

impl Model for MemRig {
    ghost use Rattle.dur_outside.specs.Given.{GivenRig};

    ghost Value = { GivenRig };

    ghost view = { λ r. record { disk = r.disk; sink = r.sink } };
}

impl MemRig {
    /// A rig of this disk and this sink.
    pub fn new(disk: MemDisk, sink: MemSink) -> MemRig
        ensures { result ≡ record { disk = disk; sink = sink } }
    {
        MemRig { disk, sink }
    }

    /// Both, handed back.
    pub fn parts(self) -> (MemDisk, MemSink)
        ensures disk { result.0 ≡ self.disk }
        ensures sink { result.1 ≡ self.sink }
    {
        let MemRig { disk, sink } = self;
        (disk, sink)
    }
}

impl Machine for MemRig {
    ghost tells = { Unit {0} };

    ghost world = { λ r. disk_world r.sink.written r.disk };

    ghost disk_faults = { λ r. r.disk.calls.faults };

    ghost sink_faults = { λ r. r.sink.calls.faults };
}

impl Disk for MemRig {
    ghost sound = { λ _ r. sound (image r.sink.written r.disk) r.disk.past };

    #[tactic(auto, using(crate::proofs::Worlds::reads, crate::proofs::Worlds::octets_are, crate::proofs::Counting::has_cause))]
    fn len(&mut self, file: FileId) -> Result<u64, Failed>
        ensures length { Unit {0} → IfOk result
            (λ n. n ≡ length (content file (image self.old.sink.written self.old.disk))) }
        ensures reads { Unit {0} → Reads
            (disk_world self.old.sink.written self.old.disk)
            (disk_world self.new.sink.written self.new.disk) }
        ensures cause { HasCause self.old.disk.calls.faults self.new.disk.calls.faults result }
        ensures files { KeepsFiles self.old.disk self.new.disk }
        ensures sink { self.new.sink ≡ self.old.sink }
        ensures left { self.new.disk.left ≡ self.old.disk.left }
        ensures counts { Counts (IsSet false self.old.disk) (is_err result) self.old.disk.calls self.new.disk.calls }
    {
        self.disk.len_told(file)
    }

    #[tactic(auto, using(crate::proofs::Worlds::reads, crate::proofs::Worlds::octets_are, crate::proofs::Counting::has_cause))]
    fn read(&mut self, file: FileId, at: u64, into: &mut [u8]) -> Result<(), Failed>
        requires { Unit {0} → at + length into.old
            ≤ length (content file (image self.old.sink.written self.old.disk)) }
        ensures bytes { Unit {0} → OnOk result (into.new ≡ take (length into.old)
            (drop at (content file (image self.old.sink.written self.old.disk)))) }
        ensures reads { Unit {0} → Reads
            (disk_world self.old.sink.written self.old.disk)
            (disk_world self.new.sink.written self.new.disk) }
        ensures cause { HasCause self.old.disk.calls.faults self.new.disk.calls.faults result }
        ensures files { KeepsFiles self.old.disk self.new.disk }
        ensures sink { self.new.sink ≡ self.old.sink }
        ensures left { self.new.disk.left ≡ self.old.disk.left }
        ensures counts { Counts (IsSet false self.old.disk) (is_err result) self.old.disk.calls self.new.disk.calls }
    {
        self.disk.read_told(file, at, into)
    }

    #[tactic(auto, using(crate::proofs::Worlds::octets_are, crate::proofs::Counting::has_cause))]
    fn write_at(&mut self, file: FileId, at: u64, bytes: &[u8]) -> Result<(), Failed>
        requires { Unit {0} → at ≤ length (content file (image self.old.sink.written self.old.disk)) }
        ensures writes { Unit {0} → Writes file at bytes.now result
            (disk_world self.old.sink.written self.old.disk)
            (disk_world self.new.sink.written self.new.disk) }
        ensures cause { HasCause self.old.disk.calls.faults self.new.disk.calls.faults result }
        ensures none { OnErr result (KeepsFiles self.old.disk self.new.disk) }
        ensures sink { self.new.sink ≡ self.old.sink }
        ensures left { self.new.disk.left ≡ left_after true self.old.disk.left }
        ensures counts { Counts (IsSet true self.old.disk) (is_err result) self.old.disk.calls self.new.disk.calls }
    {
        self.disk.write_told(file, at, bytes)
    }

    #[tactic(auto, using(crate::proofs::Worlds::octets_are, crate::proofs::Counting::has_cause))]
    fn cut(&mut self, file: FileId, end: u64) -> Result<(), Failed>
        requires { Unit {0} → end ≤ length (content file (image self.old.sink.written self.old.disk)) }
        ensures cuts { Unit {0} → Cuts file end result
            (disk_world self.old.sink.written self.old.disk)
            (disk_world self.new.sink.written self.new.disk) }
        ensures cause { HasCause self.old.disk.calls.faults self.new.disk.calls.faults result }
        ensures none { OnErr result (KeepsFiles self.old.disk self.new.disk) }
        ensures sink { self.new.sink ≡ self.old.sink }
        ensures left { self.new.disk.left ≡ left_after true self.old.disk.left }
        ensures counts { Counts (IsSet true self.old.disk) (is_err result) self.old.disk.calls self.new.disk.calls }
    {
        self.disk.cut_told(file, end)
    }

    #[tactic(auto, using(crate::proofs::Counting::has_cause))]
    fn sync(&mut self, file: FileId) -> Result<(), Failed>
        ensures syncs { Unit {0} → Syncs file result
            (disk_world self.old.sink.written self.old.disk)
            (disk_world self.new.sink.written self.new.disk) }
        ensures cause { HasCause self.old.disk.calls.faults self.new.disk.calls.faults result }
        ensures none { OnErr result (KeepsFiles self.old.disk self.new.disk) }
        ensures sink { self.new.sink ≡ self.old.sink }
        ensures left { self.new.disk.left ≡ left_after true self.old.disk.left }
        ensures counts { Counts (IsSet true self.old.disk) (is_err result) self.old.disk.calls self.new.disk.calls }
    {
        self.disk.sync_told(file)
    }
}

impl Sink for MemRig {
    /// It takes the whole piece, or fails.
    #[tactic(auto, using(crate::proofs::Worlds::sends, crate::proofs::Counting::has_cause))]
    fn write(&mut self, piece: &[u8]) -> Result<usize, Failed>
        requires { 0 < length piece.now }
        ensures least { IfOk result (λ n. 0 < n) }
        ensures most { IfOk result (λ n. n ≤ length piece.now) }
        ensures sends { Unit {0} → Sends piece.now result
            (disk_world self.old.sink.written self.old.disk)
            (disk_world self.new.sink.written self.new.disk) }
        ensures cause { HasCause self.old.sink.calls.faults self.new.sink.calls.faults result }

        ensures whole { IfOk result (λ n. n ≡ length piece.now) }
        ensures done { OnOk result (self.new.sink.written ≡ self.old.sink.written ++ piece.now) }
        ensures none { OnErr result (self.new.sink.written ≡ self.old.sink.written) }
        ensures noted { OnOk result (self.new.disk
            ≡ record self.old.disk { past = Sent (length piece.now) ∷ self.old.disk.past }) }
        ensures unnoted { OnErr result (self.new.disk ≡ self.old.disk) }
        ensures counts { Counts (IsListed self.old.sink.calls) (is_err result) self.old.sink.calls self.new.sink.calls }
    {
        if self.disk.note_sent(piece.len() as u64).is_err() {
            return Err(self.sink.refuse());
        }
        match self.sink.write(piece) {
            Ok(count) => Ok(count),
            Err(_) => {
                self.disk.forget_last();
                Err(Failed)
            }
        }
    }
}

impl Rig for MemRig {}

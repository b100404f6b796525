//! A disk in memory: two files as they read, and what each change took away, so that a crash can undo it.

ghost use Rattle.std.specs.Prelude.{◌≡◌, ◌≤◌, ◌∷◌, ◌+◌, ◌⊎◌, [], true, false, None, Some, length, take, drop, reverse, IfOk, OnOk, OnErr, is_err, IsTrue, ◌↔◌};
ghost use Rattle.dur_outside.specs.Causes.{HasCause};
ghost use Rattle.dur_outside.specs.Calls.{no_calls, after_fault, Counts};
ghost use Rattle.dur_outside.specs.World.{Reads, Writes, Cuts, Syncs, over, content};
ghost use Rattle.dur_outside.specs.Memory.{image, IsImage, disk_world, octets_of, IsSet, left_after, KeepsFiles, KeepsCalls, Edits};
ghost use Rattle.dur_outside.specs.Picked.{pick_of};
ghost use Rattle.dur_outside.specs.Sound.{sound};
ghost use Rattle.dur_outside.specs.declared.values.FileId.TheVariants.{Zero, One};
ghost use Rattle.dur_outside.specs.declared.change.Change.TheVariants.{Made, Sent};
ghost use Rattle.dur_outside.specs.declared.change.Edit.TheVariants.{Wrote, Shortened, Synced};

use crate::calls::Calls;
use crate::note::{note_cut, note_write};
use crate::pick::image_of;
use crate::{Change, Disk, Edit, Failed, FileId, Machine};
use dur_base::{List, Octets, OutOfMemory};
use std::alloc::{AllocError, Global};
use std::marker::Model;

/// Two files in memory, of which those calls fail that are set to: by a list of their numbers, or from some
/// changing call on. What a change takes away is kept until the disk goes, for the memory of what was
/// overwritten and cut off.
#[derive(Drop)]
pub struct MemDisk {
    zero: Vec<u8>,
    one: Vec<u8>,
    changes: Vec<Change>,
    left: Option<u64>,
    calls: Calls,
}

impl Model for MemDisk {
    ghost use Rattle.std.specs.Prelude.{reverse};
    ghost use Rattle.dur_outside.specs.Memory.{GivenDisk};

    ghost Value = { GivenDisk };

    ghost view = { λ d. record {
      zero = d.zero.items;
      one = d.one.items;
      past = reverse d.changes.items;
      left = d.left;
      calls = d.calls;
    } };
}

fn pick_both(
    alloc: Global,
    zero: &mut Vec<u8>,
    one: &mut Vec<u8>,
    changes: &[Change],
    pick: u64,
) -> Result<(), AllocError>
    ensures zero { OnOk result (zero.new.items ≡ pick_of (reverse changes.now) Zero pick zero.old.items) }
    ensures one { OnOk result (one.new.items ≡ pick_of (reverse changes.now) One pick one.old.items) }
{
    image_of(alloc, FileId::Zero, zero, changes, pick)?;
    image_of(alloc, FileId::One, one, changes, pick)
}

fn one_less(left: Option<u64>) -> Option<u64>
    ensures { result ≡ left_after true left }
{
    match left {
        Some(count) => Some(count.saturating_sub(1)),
        None => None,
    }
}

impl MemDisk {
    /// A disk of these files with nothing pending. `fails` has the numbers, from 0, of the calls that fail:
    /// all five calls are counted together.
    pub fn new(zero: Octets, one: Octets, fails: List<u64>) -> MemDisk
        ensures { result ≡ record { zero = zero; one = one; past = []; left = None; calls = no_calls fails } }
    {
        MemDisk {
            zero: zero.into_vec(),
            one: one.into_vec(),
            changes: Vec::new(fails.alloc()),
            left: None,
            calls: Calls::new(fails),
        }
    }

    /// After so many further calls of `write_at`, `cut` and `sync`, each such call fails.
    pub fn fail_from(&mut self, calls: u64)
        ensures { self.new ≡ record self.old { left = Some calls } }
    {
        self.left = Some(calls);
    }

    /// A disk with nothing pending and no failing calls, whose files are those that the number picks of
    /// what a crash may leave now. The same disk and number give the same files.
    ///
    /// Of each file the latest edit since its last sync takes its part of the number first. A write of n
    /// octets leaves `pick / (n + 1) % (n + 1)` of them, from `pick % (n + 1)` on, and a cut that took n octets
    /// leaves `pick % (n + 1)` of these; the edit before goes on with `pick / (n + 1) / (n + 1)`. So 0 loses
    /// each write and makes each cut. It needs a frame of the stack for each of these edits.
    #[tactic(auto, using(crate::proofs::Picks::picked_may))]
    pub fn crash(self, pick: u64) -> Result<MemDisk, OutOfMemory>
        ensures image { IfOk result (λ d. IsImage (image [] self) self.past (image [] d)) }
        ensures picked { IfOk result (λ d. (d.zero ≡ pick_of self.past Zero pick self.zero)
            × (d.one ≡ pick_of self.past One pick self.one)) }
        ensures clean { IfOk result (λ d. d ≡ record d { past = []; left = None; calls = no_calls [] }) }
    {
        let MemDisk {
            mut zero,
            mut one,
            changes,
            calls,
            ..
        } = self;
        let alloc = calls.alloc();
        match pick_both(alloc, &mut zero, &mut one, changes.as_slice(), pick) {
            Ok(()) => Ok(MemDisk::new(Octets::of(zero), Octets::of(one), List::new(alloc))),
            Err(_) => Err(OutOfMemory),
        }
    }

    /// How many calls failed for want of memory. The count stays at 2^64 - 1.
    pub fn starved(&self) -> u64
        ensures { result ≡ self.now.calls.starved }
    {
        self.calls.starved()
    }

    fn is_set(&self, changing: bool) -> bool
        ensures { IsTrue result ↔ IsSet changing self.now }
    {
        let listed = self.calls.is_listed();
        listed || (changing && self.left == Some(0))
    }

    // Counts down, and fails the call where it is set to.
    fn begin(&mut self, changing: bool) -> Result<(), Failed>
        ensures files { KeepsFiles self.old self.new }
        ensures left { self.new.left ≡ left_after changing self.old.left }
        ensures later { self.old.calls.faults ≤ self.new.calls.faults }
        ensures goes_on { OnOk result ((IsSet changing self.old → ⊥) × (self.new.calls ≡ self.old.calls)) }
        ensures fails { OnErr result (IsSet changing self.old × (self.new.calls ≡ after_fault self.old.calls)) }
    {
        let set = self.is_set(changing);
        if changing {
            self.left = one_less(self.left);
        }
        if set {
            return Err(self.calls.fail());
        }
        Ok(())
    }

    fn make_write(&mut self, file: FileId, at: u64, bytes: &[u8]) -> Result<(), AllocError>
        requires { at ≤ length (octets_of file self.old) }
        ensures done { OnOk result (Edits file
            (Wrote at (length bytes.now) (take (length bytes.now) (drop at (octets_of file self.old))))
            (over at bytes.now (octets_of file self.old)) self.old self.new) }
        ensures none { OnErr result (KeepsFiles self.old self.new) }
        ensures calls { KeepsCalls self.old self.new }
    {
        match file {
            FileId::Zero => note_write(&mut self.zero, &mut self.changes, file, at, bytes),
            FileId::One => note_write(&mut self.one, &mut self.changes, file, at, bytes),
        }
    }

    fn make_cut(&mut self, file: FileId, end: u64) -> Result<(), AllocError>
        requires { end ≤ length (octets_of file self.old) }
        ensures done { OnOk result (Edits file (Shortened end (drop end (octets_of file self.old)))
            (take end (octets_of file self.old)) self.old self.new) }
        ensures none { OnErr result (KeepsFiles self.old self.new) }
        ensures calls { KeepsCalls self.old self.new }
    {
        match file {
            FileId::Zero => note_cut(&mut self.zero, &mut self.changes, file, end),
            FileId::One => note_cut(&mut self.one, &mut self.changes, file, end),
        }
    }

    fn make_sync(&mut self, file: FileId) -> Result<(), AllocError>
        ensures done { OnOk result (Edits file Synced (octets_of file self.old) self.old self.new) }
        ensures none { OnErr result (KeepsFiles self.old self.new) }
        ensures calls { KeepsCalls self.old self.new }
    {
        match self.changes.push(Change::Made(file, Edit::Synced)) {
            Ok(()) => Ok(()),
            Err(_) => Err(AllocError),
        }
    }

    /// What that file reads as.
    pub(crate) fn octets(&self, file: FileId) -> &[u8]
        ensures { result.now ≡ octets_of file self.now }
    {
        match file {
            FileId::Zero => self.zero.as_slice(),
            FileId::One => self.one.as_slice(),
        }
    }

    /// Notes an output of so many octets: that of a rig goes by the disk's clock.
    pub(crate) fn note_sent(&mut self, count: u64) -> Result<(), AllocError>
        ensures done { OnOk result (self.new ≡ record self.old { past = Sent count ∷ self.old.past }) }
        ensures none { OnErr result (self.new ≡ self.old) }
    {
        match self.changes.push(Change::Sent(count)) {
            Ok(()) => Ok(()),
            Err(_) => Err(AllocError),
        }
    }

    /// Takes the latest note back.
    pub(crate) fn forget_last(&mut self)
        ensures { (change : _) (past : _) → self.old.past ≡ change ∷ past
            → self.new ≡ record self.old { past = past } }
    {
        self.changes.pop();
    }

    // The five calls by what they do to the disk alone. A rig adds what its sink wrote out.

    #[tactic(auto, using(crate::proofs::Counting::octets_same, crate::proofs::Counting::succeeded, crate::proofs::Counting::was_set))]
    pub(crate) fn len_told(&mut self, file: FileId) -> Result<u64, Failed>
        ensures length { IfOk result (λ n. n ≡ length (octets_of file self.old)) }
        ensures files { KeepsFiles self.old self.new }
        ensures left { self.new.left ≡ self.old.left }
        ensures counts { Counts (IsSet false self.old) (is_err result) self.old.calls self.new.calls }
    {
        self.begin(false)?;
        self.calls.succeed();
        Ok(self.octets(file).len() as u64)
    }

    #[tactic(auto, using(crate::proofs::Counting::octets_same, crate::proofs::Counting::succeeded, crate::proofs::Counting::was_set))]
    pub(crate) fn read_told(&mut self, file: FileId, at: u64, into: &mut [u8]) -> Result<(), Failed>
        requires { at + length into.old ≤ length (octets_of file self.old) }
        ensures bytes { OnOk result (into.new ≡ take (length into.old) (drop at (octets_of file self.old))) }
        ensures files { KeepsFiles self.old self.new }
        ensures left { self.new.left ≡ self.old.left }
        ensures counts { Counts (IsSet false self.old) (is_err result) self.old.calls self.new.calls }
    {
        self.begin(false)?;
        self.calls.succeed();
        let rest = self.octets(file).split_at(at as usize).1;
        into.copy_from_slice(rest.split_at(into.len()).0);
        Ok(())
    }

    #[tactic(auto, using(crate::proofs::Counting::wrote_after, crate::proofs::Counting::succeeded, crate::proofs::Counting::starved, crate::proofs::Counting::was_set, crate::proofs::Counting::files_after))]
    pub(crate) fn write_told(&mut self, file: FileId, at: u64, bytes: &[u8]) -> Result<(), Failed>
        requires { at ≤ length (octets_of file self.old) }
        ensures done { OnOk result (Edits file
            (Wrote at (length bytes.now) (take (length bytes.now) (drop at (octets_of file self.old))))
            (over at bytes.now (octets_of file self.old)) self.old self.new) }
        ensures none { OnErr result (KeepsFiles self.old self.new) }
        ensures left { self.new.left ≡ left_after true self.old.left }
        ensures counts { Counts (IsSet true self.old) (is_err result) self.old.calls self.new.calls }
    {
        self.begin(true)?;
        match self.make_write(file, at, bytes) {
            Ok(()) => {
                self.calls.succeed();
                Ok(())
            }
            Err(_) => Err(self.calls.starve()),
        }
    }

    #[tactic(auto, using(crate::proofs::Counting::cut_after, crate::proofs::Counting::succeeded, crate::proofs::Counting::starved, crate::proofs::Counting::was_set, crate::proofs::Counting::files_after))]
    pub(crate) fn cut_told(&mut self, file: FileId, end: u64) -> Result<(), Failed>
        requires { end ≤ length (octets_of file self.old) }
        ensures done { OnOk result (Edits file (Shortened end (drop end (octets_of file self.old)))
            (take end (octets_of file self.old)) self.old self.new) }
        ensures none { OnErr result (KeepsFiles self.old self.new) }
        ensures left { self.new.left ≡ left_after true self.old.left }
        ensures counts { Counts (IsSet true self.old) (is_err result) self.old.calls self.new.calls }
    {
        self.begin(true)?;
        match self.make_cut(file, end) {
            Ok(()) => {
                self.calls.succeed();
                Ok(())
            }
            Err(_) => Err(self.calls.starve()),
        }
    }

    #[tactic(auto, using(crate::proofs::Counting::synced_after, crate::proofs::Counting::succeeded, crate::proofs::Counting::starved, crate::proofs::Counting::was_set, crate::proofs::Counting::files_after))]
    pub(crate) fn sync_told(&mut self, file: FileId) -> Result<(), Failed>
        ensures done { OnOk result (Edits file Synced (octets_of file self.old) self.old self.new) }
        ensures none { OnErr result (KeepsFiles self.old self.new) }
        ensures left { self.new.left ≡ left_after true self.old.left }
        ensures counts { Counts (IsSet true self.old) (is_err result) self.old.calls self.new.calls }
    {
        self.begin(true)?;
        match self.make_sync(file) {
            Ok(()) => {
                self.calls.succeed();
                Ok(())
            }
            Err(_) => Err(self.calls.starve()),
        }
    }
}

impl Machine for MemDisk {
    ghost tells = { Unit {0} };

    ghost world = { disk_world [] };

    ghost disk_faults = { λ d. d.calls.faults };

    ghost sink_faults = { λ _. 0 };
}

// A call that fails changes no file here, though a disk may.
impl Disk for MemDisk {
    ghost sound = { λ _ d. sound (image [] d) d.past };

    #[tactic(auto, using(crate::proofs::Worlds::reads, crate::proofs::Worlds::octets_are, crate::proofs::Counting::has_cause))]
    fn len(&mut self, file: FileId) -> Result<u64, Failed>
        ensures length { Unit {0} → IfOk result (λ n. n ≡ length (content file (image [] self.old))) }
        ensures reads { Unit {0} → Reads (disk_world [] self.old) (disk_world [] self.new) }
        ensures cause { HasCause self.old.calls.faults self.new.calls.faults result }

        ensures files { KeepsFiles self.old self.new }
        ensures left { self.new.left ≡ self.old.left }
        ensures counts { Counts (IsSet false self.old) (is_err result) self.old.calls self.new.calls }
    {
        self.len_told(file)
    }

    #[tactic(auto, using(crate::proofs::Worlds::reads, crate::proofs::Worlds::octets_are, crate::proofs::Counting::has_cause))]
    fn read(&mut self, file: FileId, at: u64, into: &mut [u8]) -> Result<(), Failed>
        requires { Unit {0} → at + length into.old ≤ length (content file (image [] self.old)) }
        ensures bytes { Unit {0} → OnOk result
            (into.new ≡ take (length into.old) (drop at (content file (image [] self.old)))) }
        ensures reads { Unit {0} → Reads (disk_world [] self.old) (disk_world [] self.new) }
        ensures cause { HasCause self.old.calls.faults self.new.calls.faults result }

        ensures files { KeepsFiles self.old self.new }
        ensures left { self.new.left ≡ self.old.left }
        ensures counts { Counts (IsSet false self.old) (is_err result) self.old.calls self.new.calls }
    {
        self.read_told(file, at, into)
    }

    #[tactic(auto, using(crate::proofs::Worlds::octets_are, crate::proofs::Counting::has_cause))]
    fn write_at(&mut self, file: FileId, at: u64, bytes: &[u8]) -> Result<(), Failed>
        requires { Unit {0} → at ≤ length (content file (image [] self.old)) }
        ensures writes { Unit {0} → Writes file at bytes.now result (disk_world [] self.old) (disk_world [] self.new) }
        ensures cause { HasCause self.old.calls.faults self.new.calls.faults result }

        ensures none { OnErr result (KeepsFiles self.old self.new) }
        ensures left { self.new.left ≡ left_after true self.old.left }
        ensures counts { Counts (IsSet true self.old) (is_err result) self.old.calls self.new.calls }
    {
        self.write_told(file, at, bytes)
    }

    #[tactic(auto, using(crate::proofs::Worlds::octets_are, crate::proofs::Counting::has_cause))]
    fn cut(&mut self, file: FileId, end: u64) -> Result<(), Failed>
        requires { Unit {0} → end ≤ length (content file (image [] self.old)) }
        ensures cuts { Unit {0} → Cuts file end result (disk_world [] self.old) (disk_world [] self.new) }
        ensures cause { HasCause self.old.calls.faults self.new.calls.faults result }

        ensures none { OnErr result (KeepsFiles self.old self.new) }
        ensures left { self.new.left ≡ left_after true self.old.left }
        ensures counts { Counts (IsSet true self.old) (is_err result) self.old.calls self.new.calls }
    {
        self.cut_told(file, end)
    }

    #[tactic(auto, using(crate::proofs::Counting::has_cause))]
    fn sync(&mut self, file: FileId) -> Result<(), Failed>
        ensures syncs { Unit {0} → Syncs file result (disk_world [] self.old) (disk_world [] self.new) }
        ensures cause { HasCause self.old.calls.faults self.new.calls.faults result }

        ensures none { OnErr result (KeepsFiles self.old self.new) }
        ensures left { self.new.left ≡ left_after true self.old.left }
        ensures counts { Counts (IsSet true self.old) (is_err result) self.old.calls self.new.calls }
    {
        self.sync_told(file)
    }
}

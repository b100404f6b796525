//! Storing batches: by an appended record, or by a view in the place of all that stood there.

ghost use Rattle.std.specs.Prelude.{◌≡◌, ◌≢◌, ◌+◌, ◌*◌, ◌%◌, ◌^◌, ◌<◌, ◌≤◌, [], length, Some, Ok, IfOk, IfErr};
ghost use Rattle.dur_outside.specs.Causes.{HasCause, Rose};
ghost use Rattle.dur_outside.specs.World.{Leaves, Sends};
ghost use Rattle.dur_outside.specs.Memory.{disk_world};
ghost use Rattle.std.specs.List.{AllByRecursion};
ghost use Rattle.dur_qos.specs.declared.plan.Plan.{Plan};
ghost use Rattle.dur_view.specs.History.{History, AllFollow};
ghost use Rattle.dur_record.specs.declared.version.Version.TheVariants.{Two};
ghost use Rattle.dur_record.specs.Entries.{IsGoodEntry};
ghost use Rattle.dur_record.specs.Texts.{entries_text};
ghost use Rattle.dur_journal.specs.Histories.{IsBase, IsWhole};
ghost use Rattle.dur_journal.specs.Texts.{entries_in};
ghost use Rattle.dur_journal.specs.Kept.{Kept, IsOneOf, extended, renewed};
ghost use Rattle.dur_journal.specs.Steps.{record_text};
ghost use Rattle.dur_journal.specs.Journals.{IsReady, Stands};
ghost use Rattle.dur_journal.specs.Stores.{CompactAnswers, committed_disk, compacted_disk};

use crate::front::{FRONT, Front};
use crate::journal::{Unwritten, new_file};
use crate::opening::other_file;
use crate::state::{Journal, Receipt};
use crate::steps::{append, write_file};
use dur_base::{Entry, List, Octets, OutOfMemory, u32_octets};
use dur_outside::{Disk, Failed, MemDisk, Rig};
use dur_record::write_entries;
use dur_view::{Batch, View};
use std::alloc::{AllocError, Global};
use thiserror::Error;

/// Why a batch was not appended.
#[derive(Clone, Copy, Debug, PartialEq, Eq, Drop, Error)]
pub enum CommitFault {
    /// A call of the disk failed.
    #[error("a call of the disk failed")]
    Disk,
    /// There is not enough memory.
    #[error("out of memory")]
    OutOfMemory,
}

/// Why a batch was not stored by a view.
#[derive(Clone, Copy, Debug, PartialEq, Eq, Drop, Error)]
pub enum CompactFault {
    /// A call of the disk failed.
    #[error("a call of the disk failed")]
    Disk,
    /// The view's text has that many octets, more than 2^30.
    #[error("the view's text has {0} octets, more than 2^30")]
    Full(u64),
    /// There is not enough memory.
    #[error("out of memory")]
    OutOfMemory,
    /// There is no generation left.
    #[error("there is no generation left")]
    Worn,
}

/// The text of entries.
#[tactic(auto, using(crate::proofs::TextReadings::entries_spelt, crate::proofs::Sizes::entries_most))]
fn body_text(alloc: Global, entries: &List<Entry>) -> Result<Octets, OutOfMemory>
    requires { AllByRecursion IsGoodEntry entries.now }
    ensures text { IfOk result (λ text. text ≡ entries_text entries.now) }
    ensures again { (h : History) → AllFollow h entries.now
        → IfOk result (λ text. entries_in Two h (entries_text entries.now) ≡ Ok entries.now) }
    ensures bound { IfOk result (λ text. length (entries_text entries.now) ≤ 65454 * length entries.now) }
{
    let mut text = Octets::new(alloc);
    write_entries(&mut text, entries)?;
    Ok(text)
}

/// A record's length and body, and a new closed gate.
#[tactic(auto, unfolding(crate::specs::Steps::record_text), using(std::proofs::lemmas::List::append_assoc))]
fn record_text_of(alloc: Global, body: &[u8]) -> Result<Vec<u8>, AllocError>
    requires { length body.now ≤ 2 ^ 28 }
    ensures { IfOk result (λ v. v.items ≡ record_text body.now) }
{
    let mut text = Vec::new(alloc);
    text.extend_from_slice(&u32_octets(body.len() as u32, true))?;
    text.extend_from_slice(body)?;
    text.push(0)?;
    Ok(text)
}

impl<D: Disk> Journal<D> {
    /// How many entries were stored in this run, modulo 2^64.
    pub fn position(&self) -> u64
        ensures { result ≡ self.now.position }
    {
        self.position
    }

    /// The octets of all records in the live file.
    pub fn appended(&self) -> u64
        ensures { result ≡ self.now.appended }
    {
        self.appended
    }

    /// The disk.
    pub fn close(self) -> D
        ensures { result ≡ self.disk }
    {
        let Journal { disk, .. } = self;
        disk
    }

    /// Stores a batch as a record behind the others. All memory is taken before the first call of the disk.
    pub fn commit(
        self,
        alloc: Global,
        batch: &Batch,
    ) -> Result<(Journal<D>, Receipt), (CommitFault, D)>
        requires ready { D.tells → IsReady self (D.world self.disk) }
        requires from { batch.now.from ≡ self.position }
        requires count { length batch.now.entries ≤ 4096 }
        requires room { self.appended < 2 ^ 20 }
        requires good { AllByRecursion IsGoodEntry batch.now.entries }
        // Each crash state since keeps what was kept, or that and the batch, under one generation.
        ensures run { D.tells → (plan : Plan) (k : Kept) → Stands plan k self (D.world self.disk) → AllFollow k.history batch.now.entries
            → Leaves (D.world self.disk) (D.world (committed_disk result)) (IsOneOf plan (D.world self.disk).now k (extended batch.now.entries k)) }
        ensures ok { D.tells → (plan : Plan) (k : Kept) → Stands plan k self (D.world self.disk) → AllFollow k.history batch.now.entries
            → IfOk result (λ r. Stands plan (extended batch.now.entries k) r.0 (D.world r.0.disk)) }
        ensures appended { IfOk result (λ r. r.0.appended ≡ self.appended + (5 + length (entries_text batch.now.entries))) }
        ensures position { IfOk result (λ r. r.0.position ≡ (self.position + length batch.now.entries) % 2 ^ 64) }
        ensures receipt { IfOk result (λ r. r.1 ≡ r.0.position) }
        ensures untouched { IfErr result (λ e. e.0 ≡ CommitFault.OutOfMemory → e.1 ≡ self.disk) }
        ensures cause { IfErr result (λ e. e.0 ≡ CommitFault.Disk → Rose (D.disk_faults self.disk) (D.disk_faults e.1)) }
        ensures later { D.disk_faults self.disk ≤ D.disk_faults (committed_disk result) }
        ensures keeps { D.sink_faults (committed_disk result) ≡ D.sink_faults self.disk }
    {
        let Journal {
            mut disk,
            live,
            spare,
            generation,
            base,
            appended,
            position,
        } = self;
        let Ok(body) = body_text(alloc, &batch.entries) else {
            return Err((CommitFault::OutOfMemory, disk));
        };
        let size = body.len() as u64;
        let Ok(text) = record_text_of(alloc, body.as_slice()) else {
            return Err((CommitFault::OutOfMemory, disk));
        };
        let gate = FRONT as u64 + base + appended;
        if append(&mut disk, live, gate, &text).is_err() {
            return Err((CommitFault::Disk, disk));
        }
        let upto = position.wrapping_add(batch.entries.len() as u64);
        let journal = Journal {
            disk,
            live,
            spare,
            generation,
            base,
            appended: appended + 5 + size,
            position: upto,
        };
        Ok((journal, Receipt { upto }))
    }

    /// Stores a batch by the view of all that is then stored, in a new file under the next generation. All
    /// memory is taken before the first call of the disk.
    pub fn compact(
        self,
        alloc: Global,
        batch: &Batch,
        view: &View,
    ) -> Result<(Journal<D>, Receipt), (CompactFault, D)>
        requires ready { D.tells → IsReady self (D.world self.disk) }
        requires from { batch.now.from ≡ self.position }
        requires base { IsBase view.now }
        // Each crash state since keeps what was kept, or the view and no entries under the next generation.
        ensures run { D.tells → (plan : Plan) (k : Kept) → Stands plan k self (D.world self.disk) → IsWhole plan view.now
            → Leaves (D.world self.disk) (D.world (compacted_disk result)) (IsOneOf plan (D.world self.disk).now k (renewed view.now k)) }
        ensures ok { D.tells → (plan : Plan) (k : Kept) → Stands plan k self (D.world self.disk) → IsWhole plan view.now
            → IfOk result (λ r. Stands plan (renewed view.now k) r.0 (D.world r.0.disk)) }
        ensures appended { IfOk result (λ r. r.0.appended ≡ 0) }
        ensures position { IfOk result (λ r. r.0.position ≡ (self.position + length batch.now.entries) % 2 ^ 64) }
        ensures receipt { IfOk result (λ r. r.1 ≡ r.0.position) }
        ensures answers { IfErr result (λ e. CompactAnswers self.generation view.now e.0) }
        ensures untouched { IfErr result (λ e. (e.0 ≡ CompactFault.Disk → ⊥) → e.1 ≡ self.disk) }
        ensures cause { IfErr result (λ e. e.0 ≡ CompactFault.Disk → Rose (D.disk_faults self.disk) (D.disk_faults e.1)) }
        ensures later { D.disk_faults self.disk ≤ D.disk_faults (compacted_disk result) }
        ensures keeps { D.sink_faults (compacted_disk result) ≡ D.sink_faults self.disk }
    {
        let Journal {
            mut disk,
            live,
            spare,
            generation,
            position,
            ..
        } = self;
        if generation == u32::MAX {
            return Err((CompactFault::Worn, disk));
        }
        let new = match new_file(alloc, generation + 1, view) {
            Ok(new) => new,
            Err(Unwritten::Full(size)) => return Err((CompactFault::Full(size), disk)),
            Err(Unwritten::OutOfMemory) => return Err((CompactFault::OutOfMemory, disk)),
        };
        let file = other_file(live);
        if write_file(&mut disk, file, spare, &new.text).is_err() {
            return Err((CompactFault::Disk, disk));
        }
        let upto = position.wrapping_add(batch.entries.len() as u64);
        let journal = Journal {
            disk,
            live: file,
            spare: Front::Open(generation),
            generation: generation + 1,
            base: new.base,
            appended: 0,
            position: upto,
        };
        Ok((journal, Receipt { upto }))
    }
}

impl<R: Rig> Journal<R> {
    /// Appends a front of `piece` to what was written out. What the journal keeps stays.
    pub fn put(&mut self, piece: &[u8]) -> Result<usize, Failed>
        requires { 0 < length piece.now }
        ensures sends { R.tells → Sends piece.now result (R.world self.old.disk) (R.world self.new.disk) }
        ensures least { IfOk result (λ n. 0 < n) }
        ensures most { IfOk result (λ n. n ≤ length piece.now) }
        ensures stands { R.tells → (plan : Plan) (k : Kept) → Stands plan k self.old (R.world self.old.disk) → Stands plan k self.new (R.world self.new.disk) }
        ensures same { self.new ≡ record self.old { disk = self.new.disk } }
        ensures cause { HasCause (R.sink_faults self.old.disk) (R.sink_faults self.new.disk) result }
        ensures keeps { R.disk_faults self.new.disk ≡ R.disk_faults self.old.disk }
    {
        self.disk.write(piece)
    }
}

impl Journal<MemDisk> {
    /// After so many further calls of the disk that change or sync a file, each such call fails. What the
    /// journal keeps stays.
    pub fn fail_from(&mut self, calls: u64)
        ensures disk { self.new ≡ record self.old { disk = record self.old.disk { left = Some calls } } }
        ensures stands { (plan : Plan) (k : Kept) → Stands plan k self.old (disk_world [] self.old.disk)
            → Stands plan k self.new (disk_world [] self.new.disk) }
    {
        self.disk.fail_from(calls);
    }
}

//! The journal.

ghost use Rattle.std.specs.Prelude.{◌≡◌, ◌≢◌, ◌+◌, ◌*◌, ◌%◌, ◌^◌, ◌<◌, ◌≤◌, ◌⊎◌, ℕ, List, length, Some, None, Ok, Err, IfOk, IfErr};
ghost use Rattle.dur_outside.specs.Causes.{HasCause, Rose};
ghost use Rattle.dur_outside.specs.World.{World, Leaves, IsClean, Sends, content};
ghost use Rattle.dur_qos.specs.Good.{GoodPlan};
ghost use Rattle.dur_record.specs.declared.version.Version.TheVariants.{Two};
ghost use Rattle.dur_record.specs.WholeTexts.{view_text};
ghost use Rattle.dur_journal.specs.Histories.{IsBase, view_of};
ghost use Rattle.dur_journal.specs.Texts.{view_in};
ghost use Rattle.dur_journal.specs.Kept.{Keeps, IsOneOf, extended, other, renewed};
ghost use Rattle.dur_journal.specs.Steps.{file_text, record_text};
ghost use Rattle.dur_journal.specs.Opening.{IsDisk, IsKeptView};
ghost use Rattle.dur_journal.specs.Journals.{IsNext, IsPrepared, IsReady, OpenAnswers, OpenLeaves, Opens, RenderFault, Stands, Untouched, UnwrittenBy, opened_disk};

use crate::front::{Front, LONGEST_BASE};
use crate::opening::{Loaded, OpenFault, load, settle};
use crate::state::{Journal, Opened};
use crate::steps::write_file;
use dur_base::{Octets, OutOfMemory, u32_octets, u64_octets};
use dur_outside::{Disk, FileId};
use dur_qos::Plan;
use dur_record::write_view;
use dur_view::View;
use std::alloc::{AllocError, Global};

/// Why a text was not made.
#[derive(Clone, Copy, Drop)]
pub(crate) enum Unwritten {
    /// It has that many octets.
    Full(u64),
    OutOfMemory,
}

/// The text of a new file.
#[derive(Drop)]
pub(crate) struct NewFile {
    /// What stands behind its gate.
    pub(crate) text: Vec<u8>,
    /// The octets of its base.
    pub(crate) base: u64,
}

/// The text of a new file behind its gate.
#[tactic(auto, unfolding(crate::specs::Steps::file_text), using(std::proofs::lemmas::List::append_assoc))]
fn file_text_of(alloc: Global, generation: u32, base: &[u8]) -> Result<Vec<u8>, AllocError>
    ensures { IfOk result (λ v. v.items ≡ file_text generation base.now) }
{
    let mut text = Vec::new(alloc);
    text.extend_from_slice(&u32_octets(2, true))?;
    text.extend_from_slice(&u32_octets(generation, true))?;
    text.extend_from_slice(&u64_octets(base.len() as u64, true))?;
    text.extend_from_slice(base)?;
    text.push(0)?;
    Ok(text)
}

/// The text of a view.
#[tactic(auto, using(crate::proofs::TextReadings::view_spelt))]
fn base_text(alloc: Global, view: &View) -> Result<Octets, OutOfMemory>
    requires { IsBase view.now }
    ensures text { IfOk result (λ text. text ≡ view_text view.now) }
    ensures again { IfOk result (λ text. view_in Two (view_text view.now) ≡ Ok view.now) }
{
    let mut text = Octets::new(alloc);
    write_view(&mut text, view)?;
    Ok(text)
}

/// The text of a new file with that view as its base.
pub(crate) fn new_file(alloc: Global, generation: u32, view: &View) -> Result<NewFile, Unwritten>
    requires { IsBase view.now }
    ensures text { IfOk result (λ new. new.text.items ≡ file_text generation (view_text view.now)) }
    ensures again { IfOk result (λ new. view_in Two (view_text view.now) ≡ Ok view.now) }
    ensures base { IfOk result (λ new. new.base ≡ length (view_text view.now)) }
    ensures bound { IfOk result (λ new. new.base ≤ 2 ^ 30) }
    ensures err { IfErr result (UnwrittenBy view.now) }
{
    let Ok(base) = base_text(alloc, view) else {
        return Err(Unwritten::OutOfMemory);
    };
    let size = base.len() as u64;
    if size > LONGEST_BASE {
        return Err(Unwritten::Full(size));
    }
    match file_text_of(alloc, generation, base.as_slice()) {
        Ok(text) => Ok(NewFile { text, base: size }),
        Err(_) => Err(Unwritten::OutOfMemory),
    }
}

/// What an opening writes, and where.
#[derive(Drop)]
struct Next {
    file: FileId,
    /// What that file is.
    front: Front,
    /// What the other one is.
    spare: Front,
    view: View,
    new: NewFile,
    generation: u32,
}

/// The new file of a disk that was read.
fn render(alloc: Global, loaded: Loaded) -> Result<Next, OpenFault>
    requires { IsBase loaded.view }
    ensures ok { IfOk result (IsNext loaded) }
    ensures err { IfErr result (RenderFault loaded.generation loaded.view) }
{
    if loaded.generation == u32::MAX {
        return Err(OpenFault::Worn);
    }
    let generation = loaded.generation + 1;
    match new_file(alloc, generation, &loaded.view) {
        Ok(new) => Ok(Next {
            file: loaded.file,
            front: loaded.front,
            spare: loaded.spare,
            view: loaded.view,
            new,
            generation,
        }),
        Err(Unwritten::Full(size)) => Err(OpenFault::Full(size)),
        Err(Unwritten::OutOfMemory) => Err(OpenFault::OutOfMemory),
    }
}

/// Syncs and reads both files, and makes the text that is written next.
fn prepare<D: Disk>(alloc: Global, disk: &mut D, plan: &Plan) -> Result<Next, OpenFault>
    requires { GoodPlan plan.now }
    ensures kept { IfOk result (λ next. IsKeptView plan.now next.view) }
    ensures ok { D.tells → IfOk result (IsPrepared plan.now (D.world disk.old).now) }
    ensures err { D.tells → IfErr result (OpenAnswers plan.now (D.world disk.old).now) }
    ensures bound { IfOk result (λ next. next.new.base ≤ 2 ^ 30) }
    ensures run { D.tells → Leaves (D.world disk.old) (D.world disk.new) (D.world disk.old).may }
    ensures same { D.tells → (D.world disk.new).now ≡ (D.world disk.old).now }
    ensures clean { D.tells → IfOk result (λ next. IsClean (D.world disk.new)) }
    ensures cause { IfErr result (λ e. IsDisk e → Rose (D.disk_faults disk.old) (D.disk_faults disk.new)) }
    ensures later { D.disk_faults disk.old ≤ D.disk_faults disk.new }
    ensures keeps { D.sink_faults disk.new ≡ D.sink_faults disk.old }
{
    if settle(disk).is_err() {
        return Err(OpenFault::Disk);
    }
    match load(alloc, disk, plan) {
        Ok(loaded) => render(alloc, loaded),
        Err(fault) => Err(fault),
    }
}

impl<D: Disk> Journal<D> {
    /// Opens the journal of a disk: syncs and reads both files, and writes what they keep into the file that
    /// is not live, under the next generation.
    pub fn open(alloc: Global, disk: D, plan: &Plan) -> Result<Opened<D>, (OpenFault, D)>
        requires { GoodPlan plan.now }
        // Each crash state since is an image that the disk had, or keeps the same history: the old one, or
        // its view under the next generation.
        ensures run { D.tells → Leaves (D.world disk) (D.world (opened_disk result)) (OpenLeaves plan.now (D.world disk)) }
        ensures ok { D.tells → IfOk result (λ o. Opens plan.now (D.world disk).now o (D.world o.journal.disk)) }
        ensures view { IfOk result (λ o. IsKeptView plan.now o.view) }
        ensures position { IfOk result (λ o. o.journal.position ≡ 0) }
        ensures appended { IfOk result (λ o. o.journal.appended ≡ 0) }
        ensures answers { D.tells → IfErr result (λ e. OpenAnswers plan.now (D.world disk).now e.0) }
        // Any other answer than a fault of the disk leaves nothing new.
        ensures untouched { D.tells → IfErr result (λ e. (IsDisk e.0 → ⊥) → Untouched (D.world disk) (D.world e.1)) }
        ensures cause { IfErr result (λ e. IsDisk e.0 → Rose (D.disk_faults disk) (D.disk_faults e.1)) }
        ensures later { D.disk_faults disk ≤ D.disk_faults (opened_disk result) }
        ensures keeps { D.sink_faults (opened_disk result) ≡ D.sink_faults disk }
    {
        let mut disk = disk;
        let next = match prepare(alloc, &mut disk, plan) {
            Ok(next) => next,
            Err(fault) => return Err((fault, disk)),
        };
        if write_file(&mut disk, next.file, next.front, &next.new.text).is_err() {
            return Err((OpenFault::Disk, disk));
        }
        let journal = Journal {
            disk,
            live: next.file,
            spare: next.spare,
            generation: next.generation,
            base: next.new.base,
            appended: 0,
            position: 0,
        };
        Ok(Opened {
            journal,
            view: next.view,
            epoch: next.generation,
        })
    }
}

//! Opening: both files are read in the order of their breaks, and what they keep is written anew.

ghost use Rattle.std.specs.Prelude.{◌≡◌, ◌≤◌, ◌⊎◌, ℕ, List, length, min, Some, None, Ok, Err, IfOk, IfErr, MatchResult, OnOk};
ghost use Rattle.dur_outside.specs.Causes.{HasCause, Rose};
ghost use Rattle.dur_outside.specs.World.{World, Leaves, IsClean, content};
ghost use Rattle.dur_journal.specs.File.{front_in};
ghost use Rattle.dur_journal.specs.Kept.{generation_of, live_in, newest, other, target};
ghost use Rattle.dur_qos.specs.Good.{GoodPlan};
ghost use Rattle.dur_journal.specs.Histories.{Agreeing, completed, view_of};
ghost use Rattle.dur_journal.specs.Reading.{IsRead, IsSoundRead, history_of};
ghost use Rattle.dur_journal.specs.Opening.{FrontFault, IsDisk, IsFound, IsKeptView, IsLoaded, IsOutside, LiveFault, LoadFault, NewestFault, PlanFault, TextFaultAt, front_by};

use crate::agreement::differing;
use crate::front::{FRONT, Front, front_of};
use crate::part::{first_view, kept_view};
use crate::reading::{FileHistory, Unread, text_of};
use bytes::Bytes;
use dur_base::Name;
use dur_outside::{Disk, Failed, FileId};
use dur_qos::Plan;
use dur_view::View;
use std::alloc::Global;
use thiserror::Error;

/// Why a journal was not opened.
#[derive(Debug, Drop, Error)]
pub enum OpenFault {
    /// A call of the disk failed.
    #[error("a call of the disk failed")]
    Disk,
    /// The files are no journal's: the file and the place of the first break.
    #[error("the files are no journal's: the first break is at octet {at}")]
    NotAJournal {
        /// The file that breaks.
        file: FileId,
        /// The first octet of the first field that does not spell.
        at: u64,
    },
    /// The plan has no equal persistent topic of that name, or declares a writer of it under another topic.
    #[error("the plan differs by a topic that is kept")]
    PlanDiffers(Name),
    /// There is no generation left.
    #[error("there is no generation left")]
    Worn,
    /// The text of what is kept has that many octets, more than 2^30.
    #[error("the text of what is kept has {0} octets, more than 2^30")]
    Full(u64),
    /// There is not enough memory.
    #[error("out of memory")]
    OutOfMemory,
}

/// Both files by their first octets.
#[derive(Clone, Copy, Drop)]
pub(crate) struct Found {
    pub(crate) zero: Front,
    pub(crate) one: Front,
    /// The live file and its generation, if any file is open.
    pub(crate) live: Option<(FileId, u32)>,
}

impl Found {
    /// What that file is.
    fn front(self, file: FileId) -> Front
        ensures { result ≡ front_by file self }
    {
        match file {
            FileId::Zero => self.zero,
            FileId::One => self.one,
        }
    }
}

/// What a disk keeps, and the file that is written next.
#[derive(Drop)]
pub(crate) struct Loaded {
    pub(crate) file: FileId,
    /// What that file is.
    pub(crate) front: Front,
    /// What the other one is.
    pub(crate) spare: Front,
    /// The view of what the disk keeps, at its last moment.
    pub(crate) view: View,
    /// The live generation, or 0.
    pub(crate) generation: u32,
}

pub(crate) fn other_file(file: FileId) -> FileId
    ensures { result ≡ other file }
{
    match file {
        FileId::Zero => FileId::One,
        FileId::One => FileId::Zero,
    }
}

/// Syncs both files: a disk may have writes pending.
pub(crate) fn settle<D: Disk>(disk: &mut D) -> Result<(), Failed>
    ensures run { D.tells → Leaves (D.world disk.old) (D.world disk.new) (D.world disk.old).may }
    ensures same { D.tells → (D.world disk.new).now ≡ (D.world disk.old).now }
    ensures clean { D.tells → OnOk result (IsClean (D.world disk.new)) }
    ensures cause { HasCause (D.disk_faults disk.old) (D.disk_faults disk.new) result }
    ensures keeps { D.sink_faults disk.new ≡ D.sink_faults disk.old }
{
    disk.sync(FileId::Zero)?;
    disk.sync(FileId::One)
}

/// What a file is by its first octets, which are read into `into`.
#[tactic(auto, using(crate::proofs::Fronts::front_min))]
fn front_at<D: Disk>(disk: &mut D, file: FileId, into: &mut [u8]) -> Result<Front, OpenFault>
    requires { D.tells → length into.old ≡ min 25 (length (content file (D.world disk.old).now)) }
    ensures ok { D.tells → IfOk result (λ front. front_in (content file (D.world disk.old).now) ≡ Ok front) }
    ensures err { D.tells → IfErr result (FrontFault file (front_in (content file (D.world disk.old).now))) }
    ensures run { D.tells → Leaves (D.world disk.old) (D.world disk.new) (D.world disk.old).may }
    ensures same { D.tells → (D.world disk.new).now ≡ (D.world disk.old).now }
    ensures clean { D.tells → IsClean (D.world disk.old) → IsClean (D.world disk.new) }
    ensures cause { IfErr result (λ e. IsDisk e → Rose (D.disk_faults disk.old) (D.disk_faults disk.new)) }
    ensures later { D.disk_faults disk.old ≤ D.disk_faults disk.new }
    ensures keeps { D.sink_faults disk.new ≡ D.sink_faults disk.old }
{
    if disk.read(file, 0, into).is_err() {
        return Err(OpenFault::Disk);
    }
    match front_of(into) {
        Ok(front) => Ok(front),
        Err(at) => Err(OpenFault::NotAJournal { file, at }),
    }
}

/// What a file is by its first octets.
fn read_front<D: Disk>(disk: &mut D, file: FileId) -> Result<Front, OpenFault>
    ensures ok { D.tells → IfOk result (λ front. front_in (content file (D.world disk.old).now) ≡ Ok front) }
    ensures err { D.tells → IfErr result (FrontFault file (front_in (content file (D.world disk.old).now))) }
    ensures run { D.tells → Leaves (D.world disk.old) (D.world disk.new) (D.world disk.old).may }
    ensures same { D.tells → (D.world disk.new).now ≡ (D.world disk.old).now }
    ensures clean { D.tells → IsClean (D.world disk.old) → IsClean (D.world disk.new) }
    ensures cause { IfErr result (λ e. IsDisk e → Rose (D.disk_faults disk.old) (D.disk_faults disk.new)) }
    ensures later { D.disk_faults disk.old ≤ D.disk_faults disk.new }
    ensures keeps { D.sink_faults disk.new ≡ D.sink_faults disk.old }
{
    let Ok(length) = disk.len(file) else {
        return Err(OpenFault::Disk);
    };
    let mut octets = [0_u8; FRONT];
    let count = if length < FRONT as u64 {
        length as usize
    } else {
        FRONT
    };
    front_at(disk, file, &mut octets[..count])
}

/// The file with the greatest generation, if any file is open.
fn newest_of(zero: Front, one: Front) -> Result<Option<(FileId, u32)>, OpenFault>
    ensures ok { IfOk result (λ live. newest (generation_of zero) (generation_of one) ≡ Ok live) }
    ensures err { IfErr result (NewestFault (newest (generation_of zero) (generation_of one))) }
{
    match (zero, one) {
        (Front::Open(a), Front::Open(b)) => {
            if a == b {
                Err(OpenFault::NotAJournal {
                    file: FileId::One,
                    at: 13,
                })
            } else if a < b {
                Ok(Some((FileId::One, b)))
            } else {
                Ok(Some((FileId::Zero, a)))
            }
        }
        (Front::Open(a), _) => Ok(Some((FileId::Zero, a))),
        (_, Front::Open(b)) => Ok(Some((FileId::One, b))),
        (_, _) => Ok(None),
    }
}

/// Reads the first octets of both files, file 0 first.
pub(crate) fn find<D: Disk>(disk: &mut D) -> Result<Found, OpenFault>
    ensures ok { D.tells → IfOk result (IsFound (D.world disk.old).now) }
    ensures err { D.tells → IfErr result (LiveFault (live_in (D.world disk.old).now)) }
    ensures run { D.tells → Leaves (D.world disk.old) (D.world disk.new) (D.world disk.old).may }
    ensures same { D.tells → (D.world disk.new).now ≡ (D.world disk.old).now }
    ensures clean { D.tells → IsClean (D.world disk.old) → IsClean (D.world disk.new) }
    ensures cause { IfErr result (λ e. IsDisk e → Rose (D.disk_faults disk.old) (D.disk_faults disk.new)) }
    ensures later { D.disk_faults disk.old ≤ D.disk_faults disk.new }
    ensures keeps { D.sink_faults disk.new ≡ D.sink_faults disk.old }
{
    let zero = match read_front(disk, FileId::Zero) {
        Ok(front) => front,
        Err(fault) => return Err(fault),
    };
    let one = match read_front(disk, FileId::One) {
        Ok(front) => front,
        Err(fault) => return Err(fault),
    };
    match newest_of(zero, one) {
        Ok(live) => Ok(Found { zero, one, live }),
        Err(fault) => Err(fault),
    }
}

/// A file, read whole.
pub(crate) fn read_file<D: Disk>(
    alloc: Global,
    disk: &mut D,
    file: FileId,
) -> Result<Bytes<Global>, OpenFault>
    ensures ok { D.tells → IfOk result (λ x. x ≡ content file (D.world disk.old).now) }
    ensures err { IfErr result IsOutside }
    ensures run { D.tells → Leaves (D.world disk.old) (D.world disk.new) (D.world disk.old).may }
    ensures same { D.tells → (D.world disk.new).now ≡ (D.world disk.old).now }
    ensures clean { D.tells → IsClean (D.world disk.old) → IsClean (D.world disk.new) }
    ensures cause { IfErr result (λ e. IsDisk e → Rose (D.disk_faults disk.old) (D.disk_faults disk.new)) }
    ensures later { D.disk_faults disk.old ≤ D.disk_faults disk.new }
    ensures keeps { D.sink_faults disk.new ≡ D.sink_faults disk.old }
{
    let Ok(length) = disk.len(file) else {
        return Err(OpenFault::Disk);
    };
    let mut octets = Vec::new(alloc);
    if octets.resize(length as usize, 0).is_err() {
        return Err(OpenFault::OutOfMemory);
    }
    if disk.read(file, 0, &mut octets).is_err() {
        return Err(OpenFault::Disk);
    }
    match Bytes::from_vec(octets) {
        Ok(bytes) => Ok(bytes),
        Err(_) => Err(OpenFault::OutOfMemory),
    }
}

/// What the live file has.
fn read_live<D: Disk>(alloc: Global, disk: &mut D, live: FileId) -> Result<FileHistory, OpenFault>
    ensures ok { D.tells → (g : ℕ) → front_in (content live (D.world disk.old).now) ≡ Ok (Front.Open g)
        → IfOk result (IsRead (content live (D.world disk.old).now) g) }
    ensures sound { IfOk result IsSoundRead }
    ensures err { D.tells → (g : ℕ) → front_in (content live (D.world disk.old).now) ≡ Ok (Front.Open g)
        → IfErr result (TextFaultAt live (content live (D.world disk.old).now)) }
    ensures run { D.tells → Leaves (D.world disk.old) (D.world disk.new) (D.world disk.old).may }
    ensures same { D.tells → (D.world disk.new).now ≡ (D.world disk.old).now }
    ensures clean { D.tells → IsClean (D.world disk.old) → IsClean (D.world disk.new) }
    ensures cause { IfErr result (λ e. IsDisk e → Rose (D.disk_faults disk.old) (D.disk_faults disk.new)) }
    ensures later { D.disk_faults disk.old ≤ D.disk_faults disk.new }
    ensures keeps { D.sink_faults disk.new ≡ D.sink_faults disk.old }
{
    let octets = match read_file(alloc, disk, live) {
        Ok(octets) => octets,
        Err(fault) => return Err(fault),
    };
    match text_of(alloc, octets) {
        Ok(read) => Ok(read),
        Err(Unread::Breaks(at)) => Err(OpenFault::NotAJournal {
            file: live,
            at: at as u64,
        }),
        Err(Unread::OutOfMemory) => Err(OpenFault::OutOfMemory),
    }
}

/// The view of what a file keeps with all that the plan declares, if the plan agrees with it.
fn fit(alloc: Global, plan: &Plan, read: FileHistory) -> Result<View, OpenFault>
    requires plan { GoodPlan plan.now }
    requires sound { IsSoundRead read }
    ensures view { IfOk result (λ v. v ≡ view_of (completed plan.now (history_of read))) }
    ensures kept { IfOk result (IsKeptView plan.now) }
    ensures agrees { IfOk result (λ v. Agreeing plan.now read.start) }
    ensures err { IfErr result (PlanFault plan.now read.start) }
{
    if let Some(name) = differing(plan, &read.start) {
        return Err(OpenFault::PlanDiffers(name));
    }
    match kept_view(alloc, plan, read.start, read.entries) {
        Ok(view) => Ok(view),
        Err(_) => Err(OpenFault::OutOfMemory),
    }
}

/// What a disk without a live file keeps.
fn load_none(alloc: Global, plan: &Plan, found: Found) -> Result<Loaded, OpenFault>
    requires { GoodPlan plan.now }
    ensures ok { (c : _) → IsFound c found → found.live ≡ None → IfOk result (IsLoaded plan.now c) }
    ensures kept { IfOk result (λ r. IsKeptView plan.now r.view) }
    ensures err { IfErr result (λ e. e ≡ OpenFault.OutOfMemory) }
{
    match first_view(alloc, plan) {
        Ok(view) => Ok(Loaded {
            file: FileId::Zero,
            front: found.zero,
            spare: found.one,
            view,
            generation: 0,
        }),
        Err(_) => Err(OpenFault::OutOfMemory),
    }
}

/// What a disk keeps whose live file is that one.
fn load_live<D: Disk>(
    alloc: Global,
    disk: &mut D,
    plan: &Plan,
    found: Found,
    live: FileId,
    generation: u32,
) -> Result<Loaded, OpenFault>
    requires plan { GoodPlan plan.now }
    requires found { D.tells → IsFound (D.world disk.old).now found }
    requires live { D.tells → found.live ≡ Some (live, generation) }
    ensures ok { D.tells → IfOk result (IsLoaded plan.now (D.world disk.old).now) }
    ensures kept { IfOk result (λ r. IsKeptView plan.now r.view) }
    ensures err { D.tells → IfErr result (LoadFault plan.now (D.world disk.old).now) }
    ensures run { D.tells → Leaves (D.world disk.old) (D.world disk.new) (D.world disk.old).may }
    ensures same { D.tells → (D.world disk.new).now ≡ (D.world disk.old).now }
    ensures clean { D.tells → IsClean (D.world disk.old) → IsClean (D.world disk.new) }
    ensures cause { IfErr result (λ e. IsDisk e → Rose (D.disk_faults disk.old) (D.disk_faults disk.new)) }
    ensures later { D.disk_faults disk.old ≤ D.disk_faults disk.new }
    ensures keeps { D.sink_faults disk.new ≡ D.sink_faults disk.old }
{
    let read = match read_live(alloc, disk, live) {
        Ok(read) => read,
        Err(fault) => return Err(fault),
    };
    let view = match fit(alloc, plan, read) {
        Ok(view) => view,
        Err(fault) => return Err(fault),
    };
    Ok(Loaded {
        file: other_file(live),
        front: found.front(other_file(live)),
        spare: found.front(live),
        view,
        generation,
    })
}

/// What a disk keeps: both files by their first octets, and then the live one whole.
pub(crate) fn load<D: Disk>(alloc: Global, disk: &mut D, plan: &Plan) -> Result<Loaded, OpenFault>
    requires { GoodPlan plan.now }
    ensures ok { D.tells → IfOk result (IsLoaded plan.now (D.world disk.old).now) }
    ensures kept { IfOk result (λ r. IsKeptView plan.now r.view) }
    ensures err { D.tells → IfErr result (LoadFault plan.now (D.world disk.old).now) }
    ensures run { D.tells → Leaves (D.world disk.old) (D.world disk.new) (D.world disk.old).may }
    ensures same { D.tells → (D.world disk.new).now ≡ (D.world disk.old).now }
    ensures clean { D.tells → IsClean (D.world disk.old) → IsClean (D.world disk.new) }
    ensures cause { IfErr result (λ e. IsDisk e → Rose (D.disk_faults disk.old) (D.disk_faults disk.new)) }
    ensures later { D.disk_faults disk.old ≤ D.disk_faults disk.new }
    ensures keeps { D.sink_faults disk.new ≡ D.sink_faults disk.old }
{
    let found = match find(disk) {
        Ok(found) => found,
        Err(fault) => return Err(fault),
    };
    match found.live {
        None => load_none(alloc, plan, found),
        Some((live, generation)) => load_live(alloc, disk, plan, found, live, generation),
    }
}

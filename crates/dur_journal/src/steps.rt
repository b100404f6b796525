//! The calls with which a file is written and a record appended. No gate is opened by the write that
//! carries what it guards.

ghost use Rattle.std.specs.Prelude.{◌≡◌, ◌⊎◌, ◌+◌, ◌<◌, ◌≤◌, ◌^◌, ◌++◌, ◌∷◌, [], length, take, OnOk, Ok};
ghost use Rattle.dur_outside.specs.Causes.{HasCause};
ghost use Rattle.dur_outside.specs.World.{World, Leaves, Changed, IsClean, content, over, put};
ghost use Rattle.dur_journal.specs.File.{front_in};
ghost use Rattle.dur_journal.specs.Steps.{IsAppending, IsFilling, IsHead, IsIdle, IsRewriting, Swayed, gated};

use crate::front::Front;
use dur_outside::{Disk, Failed, FileId};

/// Where a file's gate stands.
const GATE: u64 = 8;

/// The eight octets and a closed gate.
const HEAD: [u8; 9] = [0x44, 0x44, 0x53, 0x4a, 0x52, 0x4e, 0x4c, 0x31, 0];

/// Empties a file that is not live, down to the eight octets and a closed gate: the first of the calls that
/// write a file.
#[tactic(auto, using(crate::proofs::Gates::blank_idle, crate::proofs::Gates::closed_idle, crate::proofs::Gates::open_idle, crate::proofs::Gates::blank_head, crate::proofs::Gates::closed_head, crate::proofs::Gates::open_head, crate::proofs::Fronts::closed_long, crate::proofs::Fronts::open_long))]
fn close_gate<D: Disk>(disk: &mut D, file: FileId, front: Front) -> Result<(), Failed>
    requires clean { D.tells → IsClean (D.world disk.old) }
    requires front { D.tells → front_in (content file (D.world disk.old).now) ≡ Ok front }
    ensures run { D.tells → Leaves (D.world disk.old) (D.world disk.new)
        (Changed file (IsIdle (content file (D.world disk.old).now)) (D.world disk.old).now) }
    ensures images { D.tells → (c : _) → (D.world disk.new).may c
        → Changed file (IsIdle (content file (D.world disk.old).now)) (D.world disk.old).now c }
    ensures done { D.tells → OnOk result
        (Changed file (λ x. IsHead (take 9 x)) (D.world disk.old).now (D.world disk.new).now) }
    ensures cause { HasCause (D.disk_faults disk.old) (D.disk_faults disk.new) result }
    ensures keeps { D.sink_faults disk.new ≡ D.sink_faults disk.old }
{
    match front {
        Front::Blank => disk.write_at(file, 0, &HEAD),
        Front::Closed => disk.cut(file, GATE + 1),
        Front::Open(_) => disk.write_at(file, GATE, &[0]),
    }
}

/// Closes the gate of a file that is not live, and makes that outlast a crash.
fn shut<D: Disk>(disk: &mut D, file: FileId, front: Front) -> Result<(), Failed>
    requires clean { D.tells → IsClean (D.world disk.old) }
    requires front { D.tells → front_in (content file (D.world disk.old).now) ≡ Ok front }
    ensures run { D.tells → Leaves (D.world disk.old) (D.world disk.new)
        (Changed file (IsIdle (content file (D.world disk.old).now)) (D.world disk.old).now) }
    ensures clean { D.tells → OnOk result (IsClean (D.world disk.new)) }
    ensures done { D.tells → OnOk result
        (Changed file (λ x. IsHead (take 9 x)) (D.world disk.old).now (D.world disk.new).now) }
    ensures cause { HasCause (D.disk_faults disk.old) (D.disk_faults disk.new) result }
    ensures keeps { D.sink_faults disk.new ≡ D.sink_faults disk.old }
{
    close_gate(disk, file, front)?;
    disk.sync(file)
}

/// The first three of the calls that write a file, which is not live: it is emptied down to the eight octets
/// and a closed gate.
#[tactic(auto, using(crate::proofs::Gates::cut_front, crate::proofs::Calls::head_long))]
fn empty<D: Disk>(disk: &mut D, file: FileId, front: Front) -> Result<(), Failed>
    requires clean { D.tells → IsClean (D.world disk.old) }
    requires front { D.tells → front_in (content file (D.world disk.old).now) ≡ Ok front }
    ensures run { D.tells → Leaves (D.world disk.old) (D.world disk.new)
        (Changed file (IsIdle (content file (D.world disk.old).now)) (D.world disk.old).now) }
    ensures images { D.tells → OnOk result ((c : _) → (D.world disk.new).may c
        → Changed file (λ x. take 9 x ≡ content file (D.world disk.new).now) (D.world disk.new).now c) }
    ensures done { D.tells → OnOk result (Changed file IsHead (D.world disk.old).now (D.world disk.new).now) }
    ensures cause { HasCause (D.disk_faults disk.old) (D.disk_faults disk.new) result }
    ensures keeps { D.sink_faults disk.new ≡ D.sink_faults disk.old }
{
    shut(disk, file, front)?;
    disk.cut(file, GATE + 1)
}

/// Opens the gate at that place, and makes it outlast a crash.
#[tactic(auto, using(crate::proofs::Gates::torn_octet))]
fn open_gate<D: Disk>(disk: &mut D, file: FileId, at: u64) -> Result<(), Failed>
    requires clean { D.tells → IsClean (D.world disk.old) }
    requires within { D.tells → at < length (content file (D.world disk.old).now) }
    ensures run { D.tells → Leaves (D.world disk.old) (D.world disk.new)
        (Changed file (Swayed at (content file (D.world disk.old).now)) (D.world disk.old).now) }
    ensures clean { D.tells → OnOk result (IsClean (D.world disk.new)) }
    ensures done { D.tells → OnOk result
        ((D.world disk.new).now ≡ put file (over at (1 ∷ []) (content file (D.world disk.old).now)) (D.world disk.old).now) }
    ensures cause { HasCause (D.disk_faults disk.old) (D.disk_faults disk.new) result }
    ensures keeps { D.sink_faults disk.new ≡ D.sink_faults disk.old }
{
    disk.write_at(file, at, &[1])?;
    disk.sync(file)
}

/// Writes a text behind the closed gate, and makes it outlast a crash.
#[tactic(auto, using(crate::proofs::Gates::behind_head))]
fn write_text<D: Disk>(disk: &mut D, file: FileId, text: &[u8]) -> Result<(), Failed>
    requires images { D.tells → (c : _) → (D.world disk.old).may c
        → Changed file (λ x. take 9 x ≡ content file (D.world disk.old).now) (D.world disk.old).now c }
    requires head { D.tells → IsHead (content file (D.world disk.old).now) }
    ensures run { D.tells → Leaves (D.world disk.old) (D.world disk.new)
        (Changed file (λ x. take 9 x ≡ content file (D.world disk.old).now) (D.world disk.old).now) }
    ensures clean { D.tells → OnOk result (IsClean (D.world disk.new)) }
    ensures done { D.tells → OnOk result ((D.world disk.new).now
        ≡ put file (content file (D.world disk.old).now ++ text.now) (D.world disk.old).now) }
    ensures cause { HasCause (D.disk_faults disk.old) (D.disk_faults disk.new) result }
    ensures keeps { D.sink_faults disk.new ≡ D.sink_faults disk.old }
{
    disk.write_at(file, GATE + 1, text)?;
    disk.sync(file)
}

/// The other four of the calls that write a file: its text behind the closed gate, and then the gate.
fn fill<D: Disk>(disk: &mut D, file: FileId, text: &[u8]) -> Result<(), Failed>
    requires images { D.tells → (c : _) → (D.world disk.old).may c
        → Changed file (λ x. take 9 x ≡ content file (D.world disk.old).now) (D.world disk.old).now c }
    requires head { D.tells → IsHead (content file (D.world disk.old).now) }
    ensures run { D.tells → Leaves (D.world disk.old) (D.world disk.new)
        (Changed file (IsFilling text.now) (D.world disk.old).now) }
    ensures clean { D.tells → OnOk result (IsClean (D.world disk.new)) }
    ensures done { D.tells → OnOk result
        ((D.world disk.new).now ≡ put file (gated 1 text.now) (D.world disk.old).now) }
    ensures cause { HasCause (D.disk_faults disk.old) (D.disk_faults disk.new) result }
    ensures keeps { D.sink_faults disk.new ≡ D.sink_faults disk.old }
{
    write_text(disk, file, text)?;
    open_gate(disk, file, GATE)
}

/// Writes a file that is not live, in seven calls. It takes no memory.
pub(crate) fn write_file<D: Disk>(
    disk: &mut D,
    file: FileId,
    front: Front,
    text: &[u8],
) -> Result<(), Failed>
    requires clean { D.tells → IsClean (D.world disk.old) }
    requires front { D.tells → front_in (content file (D.world disk.old).now) ≡ Ok front }
    ensures run { D.tells → Leaves (D.world disk.old) (D.world disk.new)
        (Changed file (IsRewriting (content file (D.world disk.old).now) text.now) (D.world disk.old).now) }
    ensures clean { D.tells → OnOk result (IsClean (D.world disk.new)) }
    ensures done { D.tells → OnOk result
        ((D.world disk.new).now ≡ put file (gated 1 text.now) (D.world disk.old).now) }
    ensures cause { HasCause (D.disk_faults disk.old) (D.disk_faults disk.new) result }
    ensures keeps { D.sink_faults disk.new ≡ D.sink_faults disk.old }
{
    empty(disk, file, front)?;
    fill(disk, file, text)
}

/// Writes behind the closed gate at a file's end, and makes that outlast a crash.
#[tactic(auto, using(crate::proofs::Gates::behind_end, crate::proofs::Gates::torn_end))]
fn write_end<D: Disk>(disk: &mut D, file: FileId, end: u64, text: &[u8]) -> Result<(), Failed>
    requires clean { D.tells → IsClean (D.world disk.old) }
    requires end { D.tells → end ≡ length (content file (D.world disk.old).now) }
    ensures run { D.tells → Leaves (D.world disk.old) (D.world disk.new)
        (Changed file (λ x. take end x ≡ content file (D.world disk.old).now) (D.world disk.old).now) }
    ensures clean { D.tells → OnOk result (IsClean (D.world disk.new)) }
    ensures done { D.tells → OnOk result ((D.world disk.new).now
        ≡ put file (content file (D.world disk.old).now ++ text.now) (D.world disk.old).now) }
    ensures cause { HasCause (D.disk_faults disk.old) (D.disk_faults disk.new) result }
    ensures keeps { D.sink_faults disk.new ≡ D.sink_faults disk.old }
{
    disk.write_at(file, end, text)?;
    disk.sync(file)
}

/// Appends a record to a file that ends with its closed gate, in four calls. It takes no memory.
pub(crate) fn append<D: Disk>(
    disk: &mut D,
    file: FileId,
    gate: u64,
    text: &[u8],
) -> Result<(), Failed>
    requires small { gate < 2 ^ 63 }
    requires clean { D.tells → IsClean (D.world disk.old) }
    requires end { D.tells → gate + 1 ≡ length (content file (D.world disk.old).now) }
    ensures run { D.tells → Leaves (D.world disk.old) (D.world disk.new)
        (Changed file (IsAppending gate (content file (D.world disk.old).now) text.now) (D.world disk.old).now) }
    ensures clean { D.tells → OnOk result (IsClean (D.world disk.new)) }
    ensures done { D.tells → OnOk result ((D.world disk.new).now
        ≡ put file (over gate (1 ∷ []) (content file (D.world disk.old).now ++ text.now)) (D.world disk.old).now) }
    ensures cause { HasCause (D.disk_faults disk.old) (D.disk_faults disk.new) result }
    ensures keeps { D.sink_faults disk.new ≡ D.sink_faults disk.old }
{
    write_end(disk, file, gate + 1, text)?;
    open_gate(disk, file, gate)
}

//! Looking at one file by itself.

ghost use Rattle.std.specs.Prelude.{◌≡◌, ◌≤◌, IfOk, IfErr};
ghost use Rattle.dur_outside.specs.Causes.{Rose};
ghost use Rattle.dur_outside.specs.World.{IsClean, Leaves, content};
ghost use Rattle.dur_journal.specs.Histories.{view_of};
ghost use Rattle.dur_journal.specs.Reading.{IsSoundRead, history_of};
ghost use Rattle.dur_journal.specs.Looks.{LooksLike};

use crate::front::{Front, front_of};
use crate::opening::{OpenFault, read_file};
use crate::reading::{FileHistory, Unread, text_of};
use crate::seen::{Look, LookFault};
use bytes::Bytes;
use dur_base::OutOfMemory;
use dur_outside::{Disk, FileId};
use dur_view::{View, WholeHistory};
use std::alloc::Global;

/// The view of a file's history at its last moment.
fn last_view(alloc: Global, read: FileHistory) -> Result<View, OutOfMemory>
    requires { IsSoundRead read }
    ensures { IfOk result (λ v. v ≡ view_of (history_of read)) }
{
    let mut history = WholeHistory::of_view(alloc, read.start);
    for entry in read.entries.into_vec() {
        history.restore(entry)?;
    }
    let last = history.last();
    history.view(alloc, last)
}

/// What these octets of a file are.
fn look_at(alloc: Global, bytes: Bytes<Global>) -> Result<Look, LookFault>
    ensures ok { IfOk result (LooksLike bytes) }
    ensures err { IfErr result (λ e. e ≡ LookFault.OutOfMemory) }
{
    let generation = match front_of(bytes.as_slice()) {
        Ok(Front::Blank) => return Ok(Look::Blank),
        Ok(Front::Closed) => return Ok(Look::Closed),
        Ok(Front::Open(generation)) => generation,
        Err(at) => return Ok(Look::Broken(at)),
    };
    let read = match text_of(alloc, bytes) {
        Ok(read) => read,
        Err(Unread::Breaks(at)) => return Ok(Look::Broken(at as u64)),
        Err(Unread::OutOfMemory) => return Err(LookFault::OutOfMemory),
    };
    let records = read.records;
    match last_view(alloc, read) {
        Ok(view) => Ok(Look::Open {
            generation,
            records,
            view,
        }),
        Err(_) => Err(LookFault::OutOfMemory),
    }
}

/// Reads one file by itself. It neither writes, cuts nor syncs.
pub fn look<D: Disk>(alloc: Global, disk: &mut D, file: FileId) -> Result<Look, LookFault>
    ensures ok { D.tells → IfOk result (LooksLike (content file (D.world disk.old).now)) }
    ensures run { D.tells → Leaves (D.world disk.old) (D.world disk.new) (D.world disk.old).may }
    ensures same { D.tells → (D.world disk.new).now ≡ (D.world disk.old).now }
    ensures clean { D.tells → IsClean (D.world disk.old) → IsClean (D.world disk.new) }
    ensures keeps { D.sink_faults disk.new ≡ D.sink_faults disk.old }
    ensures cause { IfErr result (λ e. e ≡ LookFault.Disk → Rose (D.disk_faults disk.old) (D.disk_faults disk.new)) }
    ensures later { D.disk_faults disk.old ≤ D.disk_faults disk.new }
{
    match read_file(alloc, disk, file) {
        Ok(octets) => look_at(alloc, octets),
        Err(OpenFault::Disk) => Err(LookFault::Disk),
        Err(_) => Err(LookFault::OutOfMemory),
    }
}

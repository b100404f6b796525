//! Which octets a number picks of those that a crash may leave in a file: its edits are undone from the latest
//! on, and then of each some part is made again.

ghost use Rattle.std.specs.Prelude.{◌≡◌, ◌<◌, ◌≤◌, ◌++◌, ◌∷◌, ◌+◌, ◌/◌, ◌%◌, ℕ, List, length, take, drop, reverse, IfOk, OnOk, MatchOption, IsTrue, ◌↔◌};
ghost use Rattle.dur_outside.specs.Memory.{octets_before};
ghost use Rattle.dur_outside.specs.Picked.{tear, edit_pick, made_by, next_pick, pick_of};
ghost use Rattle.dur_outside.specs.declared.change.Change.TheVariants.{Made};
ghost use Rattle.dur_outside.specs.declared.change.Edit.TheVariants.{Synced};

use crate::note::{front_of, write_over};
use crate::{Change, Edit, FileId};
use dur_base::Octets;
use std::alloc::{AllocError, Global};

// What stands behind that place.
#[tactic(auto, using(std::proofs::lemmas::List::drop_min))]
fn back_of(octets: &[u8], at: u64) -> &[u8]
    ensures { result.now ≡ drop at octets.now }
{
    let place = (octets.len() as u64).min(at) as usize;
    octets.split_at(place).1
}

// Makes the octets what they were before that edit.
#[tactic(auto, using(crate::proofs::Overs::undone_parts))]
fn undo(alloc: Global, octets: &mut Vec<u8>, edit: &Edit) -> Result<(), AllocError>
    ensures { OnOk result (octets.new.items ≡ octets_before edit.now octets.old.items) }
{
    match edit {
        Edit::Wrote { at, count, gone } => {
            let mut front = front_of(alloc, octets, *at as usize)?.into_vec();
            front.extend_from_slice(gone.as_slice())?;
            front.extend_from_slice(back_of(back_of(octets, *at), *count))?;
            *octets = front;
            Ok(())
        }
        Edit::Shortened { gone, .. } => octets.extend_from_slice(gone.as_slice()),
        Edit::Synced => Ok(()),
    }
}

// The octets that stand there since that edit.
fn made_since(alloc: Global, octets: &[u8], edit: &Edit) -> Result<Octets, AllocError>
    ensures { IfOk result (λ o. o ≡ made_by edit.now octets.now) }
{
    match edit {
        Edit::Wrote { at, count, .. } => front_of(alloc, back_of(octets, *at), *count as usize),
        Edit::Shortened { gone, .. } => Ok(Octets::of(gone.as_slice().to_vec(alloc)?)),
        Edit::Synced => Ok(Octets::new(alloc)),
    }
}

// Writes some part of what was written there.
fn tear_by(
    alloc: Global,
    octets: &mut Vec<u8>,
    at: u64,
    made: &[u8],
    pick: u64,
) -> Result<(), AllocError>
    ensures { OnOk result (octets.new.items ≡ tear at pick made.now octets.old.items) }
{
    let most = made.len() as u64 + 1;
    let skip = pick % most;
    let count = pick / most % most;
    if at > octets.len() as u64 || at + skip > octets.len() as u64 {
        return Ok(());
    }
    let part = front_of(alloc, back_of(made, skip), count as usize)?;
    write_over(octets, (at + skip) as usize, part.as_slice())
}

// The edit, where the change is of that file.
fn edit_of(change: &Change, file: FileId) -> Option<&Edit>
    ensures { MatchOption result
        ((past : _) (pick : _) (x : _)
        → pick_of (change.now ∷ past) file pick x ≡ pick_of past file pick x)
        (λ edit. change.now ≡ Made file edit.now) }
{
    match (change, file) {
        (Change::Made(FileId::Zero, edit), FileId::Zero) => Some(edit),
        (Change::Made(FileId::One, edit), FileId::One) => Some(edit),
        _ => None,
    }
}

fn is_sync(edit: &Edit) -> bool
    ensures { IsTrue result ↔ (edit.now ≡ Synced) }
{
    match edit {
        Edit::Synced => true,
        _ => false,
    }
}

// What is left of the number for the edits before.
fn next_of(made: &[u8], pick: u64) -> u64
    ensures { result ≡ pick / (length made.now + 1) / (length made.now + 1) }
{
    let most = made.len() as u64 + 1;
    pick / most / most
}

// Makes again what the crash leaves of that edit.
fn leave(
    alloc: Global,
    octets: &mut Vec<u8>,
    edit: &Edit,
    made: &[u8],
    pick: u64,
) -> Result<(), AllocError>
    requires { edit.now ≡ Synced → ⊥ }
    ensures { OnOk result ((x : _) → made.now ≡ made_by edit.now x
        → octets.new.items ≡ edit_pick edit.now pick x octets.old.items) }
{
    match edit {
        Edit::Wrote { at, .. } => tear_by(alloc, octets, *at, made, pick),
        Edit::Shortened { end, .. } => {
            let more = pick % (made.len() as u64 + 1);
            octets.truncate(end.saturating_add(more) as usize);
            Ok(())
        }
        Edit::Synced => Ok(()),
    }
}

// Without the changes at the end that are not of that file: the recursion below is one step for each that is.
fn up_to_own(changes: &[Change], file: FileId) -> &[Change]
    ensures same { (pick : _) (x : _) → pick_of (reverse changes.now) file pick x
        ≡ pick_of (reverse result.now) file pick x }
    ensures shorter { length result.now ≤ length changes.now }
{
    let mut own = changes;
    while let Some((change, past)) = own.split_last() {
        if edit_of(change, file).is_some() {
            return own;
        }
        own = past;
    }
    own
}

/// What the number picks of the octets that a crash may leave in that file, from what it reads as.
#[tactic(auto, using(crate::proofs::Picks::picked_here))]
pub(crate) fn image_of(
    alloc: Global,
    file: FileId,
    octets: &mut Vec<u8>,
    changes: &[Change],
    pick: u64,
) -> Result<(), AllocError>
    ensures { OnOk result (octets.new.items ≡ pick_of (reverse changes.now) file pick octets.old.items) }
{
    let own = up_to_own(changes, file);
    let Some((change, past)) = own.split_last() else {
        return Ok(());
    };
    let Some(edit) = edit_of(change, file) else {
        return image_of(alloc, file, octets, past, pick);
    };
    if is_sync(edit) {
        return Ok(());
    }
    let made = made_since(alloc, octets, edit)?;
    undo(alloc, octets, edit)?;
    image_of(alloc, file, octets, past, next_of(made.as_slice(), pick))?;
    leave(alloc, octets, edit, made.as_slice(), pick)
}

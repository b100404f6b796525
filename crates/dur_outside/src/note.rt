//! Edits of a file's octets in memory, each noted with what it took away. One that finds no memory changes
//! nothing.

ghost use Rattle.std.specs.Prelude.{◌≡◌, ◌≤◌, ◌∷◌, length, take, drop, reverse, IfOk, OnOk, OnErr};
ghost use Rattle.dur_outside.specs.World.{over};
ghost use Rattle.dur_outside.specs.declared.change.Change.TheVariants.{Made};
ghost use Rattle.dur_outside.specs.declared.change.Edit.TheVariants.{Wrote, Shortened};

use crate::{Change, Edit, FileId};
use dur_base::Octets;
use std::alloc::{AllocError, Global};

/// The front of these octets, at most so many.
pub(crate) fn front_of(alloc: Global, octets: &[u8], most: usize) -> Result<Octets, AllocError>
    ensures { IfOk result (λ o. o ≡ take most octets.now) }
{
    let count = octets.len().min(most);
    Ok(Octets::of(octets.split_at(count).0.to_vec(alloc)?))
}

/// Writes over what stands at that place, and puts what reaches past the end behind it.
pub(crate) fn write_over(octets: &mut Vec<u8>, at: usize, bytes: &[u8]) -> Result<(), AllocError>
    requires { at ≤ length octets.old.items }
    ensures ok { OnOk result (octets.new.items ≡ over at bytes.now octets.old.items) }
    ensures err { OnErr result (octets.new.items ≡ octets.old.items) }
{
    let inside = bytes.len().min(octets.len() - at);
    let (front, behind) = bytes.split_at(inside);
    octets.extend_from_slice(behind)?;
    octets[at..at + inside].copy_from_slice(front);
    Ok(())
}

/// Writes these octets at that place of the file.
pub(crate) fn note_write(
    octets: &mut Vec<u8>,
    changes: &mut Vec<Change>,
    file: FileId,
    at: u64,
    bytes: &[u8],
) -> Result<(), AllocError>
    requires { at ≤ length octets.old.items }
    ensures done { OnOk result (octets.new.items ≡ over at bytes.now octets.old.items) }
    ensures noted { OnOk result (reverse changes.new.items ≡ Made file (Wrote at (length bytes.now)
        (take (length bytes.now) (drop at octets.old.items))) ∷ reverse changes.old.items) }
    ensures none { OnErr result ((octets.new.items ≡ octets.old.items) × (changes.new.items ≡ changes.old.items)) }
{
    let alloc = *octets.allocator();
    let gone = front_of(alloc, octets.split_at(at as usize).1, bytes.len())?;
    let count = bytes.len() as u64;
    let edit = Edit::Wrote { at, count, gone };
    if changes.push(Change::Made(file, edit)).is_err() {
        return Err(AllocError);
    }
    if write_over(octets, at as usize, bytes).is_err() {
        changes.pop();
        return Err(AllocError);
    }
    Ok(())
}

/// Cuts the file off at that place.
pub(crate) fn note_cut(
    octets: &mut Vec<u8>,
    changes: &mut Vec<Change>,
    file: FileId,
    end: u64,
) -> Result<(), AllocError>
    requires { end ≤ length octets.old.items }
    ensures done { OnOk result (octets.new.items ≡ take end octets.old.items) }
    ensures noted { OnOk result (reverse changes.new.items
        ≡ Made file (Shortened end (drop end octets.old.items)) ∷ reverse changes.old.items) }
    ensures none { OnErr result ((octets.new.items ≡ octets.old.items) × (changes.new.items ≡ changes.old.items)) }
{
    let alloc = *octets.allocator();
    let gone = Octets::of(octets.split_at(end as usize).1.to_vec(alloc)?);
    let edit = Edit::Shortened { end, gone };
    if changes.push(Change::Made(file, edit)).is_err() {
        return Err(AllocError);
    }
    octets.truncate(end as usize);
    Ok(())
}

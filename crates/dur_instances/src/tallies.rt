//! What is left of each instance at a moment, counted beside the instances in one pass over the kept changes.

ghost use Rattle.std.specs.Prelude.{◌≡◌, ℕ, ◌+◌, ◌<◌, ◌^◌, ◌++◌, [], ◌∷◌, List, Some, is_some, if◌then◌else◌, length, slice_get, vec_len, IfOk};
ghost use Rattle.std.specs.Option.{option_copied};
ghost use Rattle.dur_instances.specs.declared.changes.Change.{Change as Kept};
ghost use Rattle.dur_instances.specs.declared.tallies.Tally.{Tally as Counted};
ghost use Rattle.dur_instances.specs.Layout.{left_of};
ghost use Rattle.dur_instances.specs.Places.{kept_in};
ghost use Rattle.dur_instances.specs.Listing.{left_at, with_end, tallies_of, spots_of};

use crate::cells::{Cell, Listed, Sorted, is_at, place_of, raised};
use crate::changes::{Change, is_gone, is_long};
use crate::links::Place;
use crate::within::push;
use dur_base::{OutOfMemory, Ticks};
use std::alloc::Global;

/// What is left of an instance.
#[derive(Drop)]
pub struct Tally {
    /// How many later changes the first one has that is left.
    pub first: Option<u32>,
    /// How many are left.
    pub count: usize,
}

/// The change that is kept there and left at the moment.
pub fn left_at<'a>(place: &'a Place, cells: &Sorted, longest: u64, now: Ticks) -> Option<&'a Change>
    ensures { option_copied result ≡ left_at cells.now longest now place.now.change }
{
    match &place.change {
        Some(change) => if is_gone(cells, longest, now, change) {
            None
        } else {
            Some(change)
        },
        None => None,
    }
}

/// Nothing counted yet, for each of the instances.
pub fn blank(alloc: Global, cells: &[Cell]) -> Result<Vec<Tally>, OutOfMemory>
    ensures { IfOk result (λ t. t.items ≡ tallies_of cells.now []) }
{
    let mut tallies = Vec::new(alloc);
    for _ in cells {
        let none = Tally {
            first: None,
            count: 0,
        };
        push(&mut tallies, none)?;
    }
    Ok(tallies)
}

// Counts one more, which has so many later ones.
fn add(tally: &mut Tally, later: u32)
    requires { tally.old.count + 1 < 2 ^ 64 }
    ensures { tally.new ≡ record { first = (if is_some tally.old.first then tally.old.first else Some later); count = tally.old.count + 1 } }
{
    if tally.first.is_none() {
        tally.first = Some(later);
    }
    tally.count += 1;
}

/// Counts one change more.
pub fn count_change(tallies: &mut Vec<Tally>, cells: &Listed, change: &Change)
    requires len { vec_len tallies.old ≡ length cells.now }
    requires few { (i : ℕ) (t : Counted) → slice_get tallies.old.items i ≡ Some t → t.count + 1 < 2 ^ 64 }
    ensures { (left : List Kept) → tallies.old.items ≡ tallies_of cells.now left → tallies.new.items ≡ tallies_of cells.now (left ++ change.now ∷ []) }
{
    let cells = cells.as_slice();
    let at = place_of(cells, change.sample.key);
    if is_at(cells, at, change.sample.key) {
        add(&mut tallies[at], raised(change.at, cells[at].count));
    }
}

// Counts the change that is kept there, if it is left at the moment.
fn count_place(tallies: &mut Vec<Tally>, cells: &Listed, place: &Place, longest: u64, now: Ticks)
    requires len { vec_len tallies.old ≡ length cells.now }
    requires few { (i : ℕ) (t : Counted) → slice_get tallies.old.items i ≡ Some t → t.count + 1 < 2 ^ 64 }
    ensures { (left : List Kept) → tallies.old.items ≡ tallies_of cells.now left → tallies.new.items ≡ tallies_of cells.now (with_end left (left_at cells.now longest now place.now.change)) }
{
    match left_at(place, &cells.sorted(), longest, now) {
        Some(change) => count_change(tallies, cells, change),
        None => {}
    }
}

/// What is left of each instance at the moment.
pub fn tallies_over(
    alloc: Global,
    cells: &Listed,
    places: &[Place],
    longest: u64,
    now: Ticks,
) -> Result<Vec<Tally>, OutOfMemory>
    ensures { IfOk result (λ t. t.items ≡ tallies_of cells.now (left_of cells.now longest now (kept_in places.now))) }
{
    let mut tallies = blank(alloc, cells.as_slice())?;
    for place in places {
        count_place(&mut tallies, cells, place, longest, now);
    }
    Ok(tallies)
}

/// How many instances that exist at the moment come before each.
pub fn spots_over(
    alloc: Global,
    cells: &[Cell],
    longest: u64,
    now: Ticks,
) -> Result<Vec<usize>, OutOfMemory>
    ensures { IfOk result (λ s. s.items ≡ spots_of longest now 0 cells.now) }
{
    let mut spots = Vec::new(alloc);
    let mut spot = 0;
    for cell in cells {
        push(&mut spots, spot)?;
        if !is_long(cell.quiet, longest, now) {
            spot += 1;
        }
    }
    Ok(spots)
}

//! What a view says of the instances at a moment.

ghost use Rattle.std.specs.Prelude.{◌≡◌, ℕ, ◌≤◌, ◌<◌, ◌+◌, ◌^◌, ◌++◌, [], ◌∷◌, List, Some, true, false, is_some, not, filter, map, length, slice_get, IfOk, OnOk};
ghost use Rattle.dur_view.specs.Fates.{is_long};
ghost use Rattle.dur_instances.specs.declared.changes.Change.{Change as Item};
ghost use Rattle.dur_instances.specs.declared.tallies.Tally.{Tally as Counted};
ghost use Rattle.dur_instances.specs.Layout.{is_gone_in, left_of, cell_in, shown_count, line_shown, shown_ordinal, kept_shown, all_shown, cells_there, EachChange, InOrder};
ghost use Rattle.dur_instances.specs.Places.{kept_in};
ghost use Rattle.dur_instances.specs.Listing.{line_told, kept_told, tallies_of, spots_of};

use crate::cells::{Cell, Listed, place_of, raised};
use crate::changes::{Change, is_long};
use crate::links::Place;
use crate::registered::{Registered, places_of};
use crate::tallies::{Tally, blank, count_change, left_at, spots_over, tallies_over};
use dur_base::{List, OutOfMemory, Ticks};
use dur_view::{Instance, Kept};
use std::alloc::Global;

fn shown_count(depth: Option<u32>, first: Option<u32>, left: usize) -> u64
    ensures { result ≡ shown_count depth first left }
{
    match depth {
        None => left as u64,
        Some(_) => match first {
            None => 0,
            Some(later) => later as u64 + 1,
        },
    }
}

fn line_of(
    alloc: Global,
    topic: u32,
    depth: Option<u32>,
    list: &[Registered],
    tally: &Tally,
    cell: &Cell,
) -> Result<Instance, OutOfMemory>
    requires { InOrder list.now }
    ensures { IfOk result (λ i. i ≡ line_told topic depth list.now cell.now tally.now) }
{
    let registered = places_of(alloc, list, cell.key)?;
    Ok(Instance {
        topic,
        key: cell.key,
        disposed: cell.disposed,
        quiet: cell.quiet,
        registered,
        changes: shown_count(depth, tally.first, tally.count),
    })
}

/// What a view says at the moment of the instances of the topic at a place of it, by key.
pub fn lines_over(
    alloc: Global,
    topic: u32,
    depth: Option<u32>,
    cells: &Listed,
    list: &[Registered],
    places: &[Place],
    longest: u64,
    now: Ticks,
) -> Result<List<Instance>, OutOfMemory>
    requires { InOrder list.now }
    ensures { IfOk result (λ l. l ≡ map (line_shown topic depth cells.now list.now (left_of cells.now longest now (kept_in places.now))) (filter (λ c. not (is_long c.quiet longest now)) cells.now)) }
{
    let tallies = tallies_over(alloc, cells, places, longest, now)?;
    let mut lines = List::new(alloc);
    for (i, cell) in cells.as_slice().iter().enumerate() {
        if !is_long(cell.quiet, longest, now) {
            lines.push(line_of(alloc, topic, depth, list, &tallies[i], cell)?)?;
        }
    }
    Ok(lines)
}

fn shown_ordinal(depth: Option<u32>, first: Option<u32>, later: u32, before: usize) -> u64
    requires { before + 1 < 2 ^ 64 }
    ensures { result ≡ shown_ordinal depth first later before }
{
    match depth {
        None => before as u64 + 1,
        Some(_) => match first {
            None => 0,
            Some(first) => (first as u64 + 1).saturating_sub(later as u64),
        },
    }
}

// What a view says of the change, of which this is told: how many instances come before its own, the first one of those of
// its instance that are left, and how many come before it.
fn kept_of(
    depth: Option<u32>,
    spot: usize,
    first: Option<u32>,
    later: u32,
    before: usize,
    change: &Change,
) -> Result<Kept, OutOfMemory>
    requires { before + 1 < 2 ^ 64 }
    ensures { IfOk result (λ k. k ≡ kept_told depth spot first later before change.now) }
{
    let sample = change.sample.copy()?;
    Ok(Kept {
        instance: spot as u64,
        ordinal: shown_ordinal(depth, first, later, before),
        writer: change.writer,
        number: change.number,
        arrived: change.arrived,
        sample,
    })
}

// Adds what a view says of the change.
fn show(
    list: &mut List<Kept>,
    depth: Option<u32>,
    cells: &Listed,
    spots: &[usize],
    all: &[Tally],
    before: &[Tally],
    change: &Change,
) -> Result<(), OutOfMemory>
    requires known { is_some (cell_in cells.now change.now.sample.key) ≡ true }
    requires spots { length spots.now ≡ length cells.now }
    requires all { length all.now ≡ length cells.now }
    requires before { length before.now ≡ length cells.now }
    requires few { (i : ℕ) (t : Counted) → slice_get before.now i ≡ Some t → t.count + 1 < 2 ^ 64 }
    ensures { (longest now : ℕ) (left earlier : List Item) → spots.now ≡ spots_of longest now 0 cells.now → all.now ≡ tallies_of cells.now left → before.now ≡ tallies_of cells.now earlier → is_gone_in cells.now longest now change.now ≡ false → OnOk result (list.new ≡ list.old ++ kept_shown depth cells.now (cells_there cells.now longest now) left earlier change.now ∷ []) }
{
    let cells = cells.as_slice();
    let at = place_of(cells, change.sample.key);
    let later = raised(change.at, cells[at].count);
    list.push(kept_of(
        depth,
        spots[at],
        all[at].first,
        later,
        before[at].count,
        change,
    )?)
}

/// What a view says at the moment of the kept changes, in the order of effect, beside the instances that exist then.
pub fn kept_over(
    alloc: Global,
    depth: Option<u32>,
    cells: &Listed,
    places: &[Place],
    longest: u64,
    now: Ticks,
) -> Result<List<Kept>, OutOfMemory>
    requires { EachChange (λ c. is_some (cell_in cells.now c.sample.key) ≡ true) (kept_in places.now) }
    ensures { IfOk result (λ l. l ≡ all_shown depth cells.now (cells_there cells.now longest now) (left_of cells.now longest now (kept_in places.now)) [] (left_of cells.now longest now (kept_in places.now))) }
{
    let all = tallies_over(alloc, cells, places, longest, now)?;
    let spots = spots_over(alloc, cells.as_slice(), longest, now)?;
    let mut before = blank(alloc, cells.as_slice())?;
    let mut list = List::new(alloc);
    for place in places {
        match left_at(place, &cells.sorted(), longest, now) {
            Some(change) => {
                show(&mut list, depth, cells, &spots, &all, &before, change)?;
                count_change(&mut before, cells, change);
            }
            None => {}
        }
    }
    Ok(list)
}

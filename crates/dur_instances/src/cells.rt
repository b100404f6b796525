//! Instances by key.

ghost use Rattle.std.specs.Prelude.{◌≡◌, ◌≢◌, ℕ, false, ◌<◌, ◌≤◌, Some, length, option_map, unwrap_or, slice_get};
ghost use Rattle.std.specs.declared.cmp.Ordering.TheVariants.{Greater};
ghost use Rattle.dur_view.specs.Sound.{Ascending};
ghost use Rattle.dur_view.specs.Words.{is_key};
ghost use Rattle.dur_view.specs.Fates.{key_cmp};
ghost use Rattle.dur_instances.specs.declared.cells.Cell.{Cell as Item};
ghost use Rattle.dur_instances.specs.Layout.{keys_of, cell_in, count_in, raised, count_after, is_purged_in};

use crate::table::Cells;
use dur_base::{Key, Ticks};
use std::cmp::Ordering;
use std::marker::Model;

/// An instance.
#[derive(Drop)]
pub struct Cell {
    pub key: Key,
    /// Whether its last change disposes it.
    pub disposed: bool,
    /// When its quiet stretch began, where it is quiet: disposed, with no writer registered.
    pub quiet: Option<Ticks>,
    /// A counter of its changes, which goes back to 0 after 2^32 - 1. It goes on only where the topic is deep.
    pub count: u32,
}

/// Instances, seen in the order of their keys.
#[derive(Drop)]
pub struct Sorted<'a> {
    cells: &'a Cells,
}

impl<'a> Model for Sorted<'a> {
    ghost use Rattle.std.specs.Prelude.{List};
    ghost use Rattle.dur_instances.specs.declared.cells.Cell.{Cell as Item};

    ghost Value = { List Item };

    ghost view = { λ s. s.cells.now.list };
}

impl<'a> Sorted<'a> {
    /// These instances.
    pub fn of(cells: &'a Cells) -> Sorted<'a>
        ensures { result ≡ cells.now.list }
    {
        Sorted { cells }
    }

    /// The instances, by a hash of their keys.
    pub fn cells(&self) -> &'a Cells
        ensures { result.now.list ≡ self.now }
    {
        self.cells
    }
}

/// Instances, and a list of them in the order of their keys.
#[derive(Drop)]
pub struct Listed<'a> {
    cells: &'a Cells,
    list: &'a [Cell],
}

impl<'a> Model for Listed<'a> {
    ghost use Rattle.std.specs.Prelude.{◌≡◌, List};
    ghost use Rattle.dur_view.specs.Sound.{Ascending};
    ghost use Rattle.dur_instances.specs.declared.cells.Cell.{Cell as Item};
    ghost use Rattle.dur_instances.specs.Layout.{keys_of};

    ghost Value = { List Item };

    ghost view = { λ s. s.list.now };

    ghost invariant = { λ s. (s.cells.now.list ≡ s.list.now) × Ascending (keys_of s.list.now) };
}

impl<'a> Listed<'a> {
    /// These instances, and the list of them.
    pub fn of(cells: &'a Cells, list: &'a [Cell]) -> Listed<'a>
        requires list { cells.now.list ≡ list.now }
        requires order { Ascending (keys_of list.now) }
        ensures { result ≡ list.now }
    {
        Listed { cells, list }
    }

    /// The list of the instances.
    pub fn as_slice(&self) -> &'a [Cell]
        ensures value { result.now ≡ self.now }
        ensures order { Ascending (keys_of self.now) }
    {
        self.list
    }

    /// The instances without the list.
    pub fn sorted(&self) -> Sorted<'a>
        ensures { result ≡ self.now }
    {
        Sorted::of(self.cells)
    }
}

/// The instance of the key.
pub fn find(cells: &Sorted, key: Key) -> Option<Cell>
    ensures { result ≡ cell_in cells.now key }
{
    cells.cells().find(key)
}

/// The place at which the key's instance stands or belongs.
pub fn place_of(cells: &[Cell], key: Key) -> usize
    requires { Ascending (keys_of cells.now) }
    ensures bound { result ≤ length cells.now }
    ensures before { (k : ℕ) (x : Item) → k < result → slice_get cells.now k ≡ Some x → key_cmp key x.key ≡ Greater }
    ensures after { (x : Item) → slice_get cells.now result ≡ Some x → key_cmp key x.key ≢ Greater }
{
    let mut low = 0;
    let mut high = cells.len();
    while low < high {
        let middle = low + (high - low) / 2;
        if key.cmp(&cells[middle].key) == Ordering::Greater {
            low = middle + 1;
        } else {
            high = middle;
        }
    }
    low
}

/// Whether the key's instance stands there.
pub fn is_at(cells: &[Cell], at: usize, key: Key) -> bool
    ensures { result ≡ unwrap_or (option_map (λ x. is_key x.key key) (slice_get cells.now at)) false }
{
    match cells.get(at) {
        Some(cell) => cell.key == key,
        None => false,
    }
}

/// The counter of the key's instance, or 0.
pub fn count_of(cells: &Sorted, key: Key) -> u32
    ensures { result ≡ count_in cells.now key }
{
    cells.cells().count_of(key)
}

/// How often a counter was raised from `a` to `b`.
pub fn raised(a: u32, b: u32) -> u32
    ensures { result ≡ raised a b }
{
    if a <= b { b - a } else { u32::MAX - a + b + 1 }
}

/// The counter after one more change.
pub fn count_after(depth: Option<u32>, count: u32) -> u32
    ensures { result ≡ count_after depth count }
{
    match depth {
        None => count,
        Some(_) => if count == u32::MAX { 0 } else { count + 1 },
    }
}

/// Whether the instance of the key is purged at the moment.
pub fn is_purged(cells: &Sorted, longest: u64, now: Ticks, key: Key) -> bool
    ensures { result ≡ is_purged_in cells.now longest now key }
{
    cells.cells().is_purged(longest, now, key)
}

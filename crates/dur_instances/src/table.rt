//! Instances by key, found by a hash of it.

ghost use Rattle.std.specs.Prelude.{◌≡◌, ◌+◌, ◌<◌, ◌≤◌, [], true, not, filter, map, length, Ok, OnOk, IfOk};
ghost use Rattle.dur_view.specs.Sound.{Ascending};
ghost use Rattle.dur_view.specs.Fates.{is_long, is_nobody};
ghost use Rattle.indexmap.specs.IndexMap.{values};
ghost use Rattle.dur_instances.specs.Layout.{InOrder, places, cell_in, keys_of, with_cell, count_in, is_purged_in, cells_there, settled, settled_at, quiet_in};
ghost use Rattle.dur_instances.specs.Due.{due_cells};
ghost use Rattle.dur_instances.specs.Table.{cell_by, cells_by, Distinct, quiet_by, settled_by};

use crate::cells::Cell;
use crate::changes::is_long;
use crate::due::{earlier, purged_from};
use crate::registered::{Registered, is_nobody};
use crate::within::push;
use dur_base::{Key, OutOfMemory, Ticks};
use indexmap::IndexMap;
use indexmap::map::Slice;
use std::alloc::Global;
use std::marker::Model;

/// What is known of an instance beside its key.
#[derive(Clone, Copy, Drop)]
pub struct State {
    pub disposed: bool,
    pub quiet: Option<Ticks>,
    pub count: u32,
}

/// Instances, which are seen in the order of their keys.
#[derive(Drop)]
pub struct Cells {
    map: IndexMap<[u8; 16], State>,
}

impl Model for Cells {
    ghost use Rattle.std.specs.HashMap.{spare};
    ghost use Rattle.dur_instances.specs.Table.{CellsNow, cells_code, cells_by, Distinct};

    ghost Value = { CellsNow };

    ghost coded = { cells_code };

    ghost view = { λ s. record { list = cells_by s.map.entries; room = spare s.map } };

    ghost invariant = { λ s. Distinct s.map.entries };
}

/// The instance of the key with this state.
pub fn cell_of(key: Key, state: &State) -> Cell
    ensures { result ≡ cell_by (key, state.now) }
{
    Cell {
        key,
        disposed: state.disposed,
        quiet: state.quiet,
        count: state.count,
    }
}

// When an instance is quiet from, after registrations ended, where nobody may be registered with it.
fn quiet_by(state: &State, nobody: bool, moment: Ticks) -> Option<Ticks>
    ensures { result ≡ quiet_by nobody moment state.now }
{
    if !state.disposed || !nobody {
        return None;
    }
    match state.quiet {
        Some(since) => Some(since),
        None => Some(moment),
    }
}

// Begins the quiet stretch of the instance, if it has become quiet, and gives since when it is quiet.
fn settle_state(state: &mut State, nobody: bool, moment: Ticks) -> Option<Ticks>
    ensures state { state.new ≡ settled_by nobody moment state.old }
    ensures quiet { result ≡ state.new.quiet }
{
    state.quiet = quiet_by(state, nobody, moment);
    state.quiet
}

// The first moment at which an instance is purged, or the last moment.
fn due_by(longest: u64, entries: &Slice<'_, [u8; 16], State>) -> u64
    ensures { result ≡ due_cells longest (map cell_by entries.now) }
{
    let mut due = u64::MAX;
    for i in 0..entries.len() {
        match entries.get_index(i) {
            Some((_, state)) => due = earlier(due, purged_from(longest, state.quiet)),
            None => {}
        }
    }
    due
}

// How many instances are not purged at the moment.
fn count_awake(map: &IndexMap<[u8; 16], State>, longest: u64, now: Ticks) -> usize
    ensures { result ≡ length (filter (λ s. not (is_long s.quiet longest now)) (values map.now)) }
{
    map.values()
        .filter(|s| !is_long(s.quiet, longest, now))
        .count()
}

// The instances, in the order of the entries.
fn cells_of(alloc: Global, entries: &Slice<'_, [u8; 16], State>) -> Result<Vec<Cell>, OutOfMemory>
    ensures { IfOk result (λ l. l.items ≡ map cell_by entries.now) }
{
    let mut cells = Vec::new(alloc);
    for i in 0..entries.len() {
        match entries.get_index(i) {
            Some((key, state)) => push(&mut cells, cell_of(Key(*key), state))?,
            None => {}
        }
    }
    Ok(cells)
}

impl Cells {
    /// None yet.
    pub fn new(alloc: Global) -> Cells
        ensures { result.list ≡ [] }
    {
        Cells {
            map: IndexMap::new(alloc),
        }
    }

    /// Makes places for so many more. On want of memory the instances are as they were. Where there is room
    /// there is no want of memory.
    pub fn reserve(&mut self, more: usize) -> Result<(), OutOfMemory>
        ensures list { self.new.list ≡ self.old.list }
        ensures room { OnOk result (more ≤ self.new.room) }
        ensures enough { more ≤ self.old.room → result ≡ Ok tt }
        ensures stays { self.old.room ≤ self.new.room }
    {
        match self.map.reserve(more) {
            Ok(()) => Ok(()),
            Err(_) => Err(OutOfMemory),
        }
    }

    /// How many instances there are.
    pub fn len(&self) -> usize
        ensures { result ≡ length self.now.list }
    {
        self.map.len()
    }

    /// The instance of the key.
    pub fn find(&self, key: Key) -> Option<Cell>
        ensures { result ≡ cell_in self.now.list key }
    {
        match self.map.get(&key.0) {
            Some(state) => Some(cell_of(key, state)),
            None => None,
        }
    }

    /// The counter of the key's instance, or 0.
    pub fn count_of(&self, key: Key) -> u32
        ensures { result ≡ count_in self.now.list key }
    {
        match self.map.get(&key.0) {
            Some(state) => state.count,
            None => 0,
        }
    }

    /// Whether the instance of the key is purged at the moment.
    pub fn is_purged(&self, longest: u64, now: Ticks, key: Key) -> bool
        ensures { result ≡ is_purged_in self.now.list longest now key }
    {
        match self.map.get(&key.0) {
            Some(state) => is_long(state.quiet, longest, now),
            None => false,
        }
    }

    /// Puts an instance in the place of its key's.
    pub fn put(&mut self, cell: Cell)
        requires { 0 < self.old.room }
        ensures list { self.new.list ≡ with_cell cell self.old.list }
        ensures room { self.old.room ≤ self.new.room + 1 }
    {
        let state = State {
            disposed: cell.disposed,
            quiet: cell.quiet,
            count: cell.count,
        };
        match self.map.insert(cell.key.0, state) {
            Ok(_) => {}
            Err(_) => {}
        }
    }

    /// Forgets the instances that are purged at the moment.
    pub fn sweep(&mut self, longest: u64, now: Ticks)
        ensures list { self.new.list ≡ cells_there self.old.list longest now }
        ensures room { self.old.room ≤ self.new.room }
    {
        self.map.retain(
            |_key: &[u8; 16], state: &mut State| -> bool
                ensures { (result ≡ not (is_long state.old.quiet longest now))
                    × (state.new ≡ state.old) }
            { !is_long(state.quiet, longest, now) },
        );
    }

    /// Begins the quiet stretches of the instances that have become quiet at the moment, for want of registered writers.
    pub fn settle(&mut self, list: &[Registered], moment: Ticks)
        requires { InOrder list.now }
        ensures list { self.new.list ≡ map (settled list.now moment) self.old.list }
        ensures room { self.old.room ≤ self.new.room }
    {
        self.map.retain(
            |key: &[u8; 16], state: &mut State| -> bool
                requires { InOrder list.now }
                ensures { (result ≡ true)
                    × (state.new ≡ settled_by (is_nobody (places list.entry.now key.now)) moment state.old) }
            {
                let quiet = quiet_by(state, is_nobody(list, Key(*key)), moment);
                state.quiet = quiet;
                true
            },
        );
    }

    /// Begins the quiet stretch of the key's instance, if it has become quiet at the moment for want of registered writers,
    /// and gives since when it is quiet.
    pub fn settle_one(&mut self, list: &[Registered], key: Key, moment: Ticks) -> Option<Ticks>
        requires { InOrder list.now }
        ensures list { self.new.list ≡ map (settled_at key list.now moment) self.old.list }
        ensures quiet { result ≡ quiet_in self.new.list key }
        ensures room { self.old.room ≤ self.new.room }
    {
        let nobody = is_nobody(list, key);
        match self.map.get_mut(&key.0) {
            Some(state) => settle_state(state, nobody, moment),
            None => None,
        }
    }

    /// The entries of the instances, in no order.
    pub fn entries(&self) -> Slice<'_, [u8; 16], State>
        ensures list { cells_by result ≡ self.now.list }
        ensures distinct { Distinct result }
    {
        self.map.as_slice()
    }

    /// The first moment at which an instance is purged, or the last moment.
    pub fn due(&self, longest: u64) -> u64
        ensures { result ≡ due_cells longest self.now.list }
    {
        due_by(longest, &self.entries())
    }

    /// How many instances exist at the moment.
    pub fn count_there(&self, longest: u64, now: Ticks) -> usize
        ensures { result ≡ length (cells_there self.now.list longest now) }
    {
        count_awake(&self.map, longest, now)
    }

    /// The instances in the order of their keys.
    pub fn listed(&self, alloc: Global) -> Result<Vec<Cell>, OutOfMemory>
        ensures list { IfOk result (λ l. l.items ≡ self.now.list) }
        ensures order { Ascending (keys_of self.now.list) }
    {
        let mut cells = cells_of(alloc, &self.entries())?;
        match cells.sort_by_key(|c| c.key) {
            Ok(()) => Ok(cells),
            Err(_) => Err(OutOfMemory),
        }
    }

    /// These instances, which stand in the order of their keys.
    pub fn of_list(alloc: Global, list: &[Cell]) -> Result<Cells, OutOfMemory>
        requires { Ascending (keys_of list.now) }
        ensures { IfOk result (λ c. c.list ≡ list.now) }
    {
        let mut cells = Cells::new(alloc);
        cells.reserve(list.len())?;
        for cell in list {
            cells.put(Cell {
                key: cell.key,
                disposed: cell.disposed,
                quiet: cell.quiet,
                count: cell.count,
            });
        }
        Ok(cells)
    }
}

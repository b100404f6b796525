//! What is kept of a topic in a view.

ghost use Rattle.std.specs.Prelude.{◌≡◌, ◌++◌, [], map, OnOk, IfOk};
ghost use Rattle.dur_instances.specs.Layout.{InOrder};
ghost use Rattle.dur_instances.specs.FromView.{cell_of_line, lines_in, with_all, with_lines, start_at, gap, change_by, counted_in, changes_in};

use crate::cells::Cell;
use crate::changes::Change;
use crate::order::Changes;
use crate::registered::{Registered, register};
use crate::within::push;
use dur_base::{Key, OutOfMemory};
use dur_view::{Instance, Kept};
use std::alloc::Global;

fn cell_of(line: &Instance) -> Cell
    ensures { result ≡ cell_of_line line.now }
{
    Cell {
        key: line.key,
        disposed: line.disposed,
        quiet: line.quiet,
        count: 0,
    }
}

/// The instances of the topic at a place of the view.
pub fn cells_of(alloc: Global, at: u32, lines: &[Instance]) -> Result<Vec<Cell>, OutOfMemory>
    ensures { IfOk result (λ l. l.items ≡ map cell_of_line (lines_in at lines.now)) }
{
    let mut cells = Vec::new(alloc);
    for line in lines {
        if line.topic == at {
            push(&mut cells, cell_of(line))?;
        }
    }
    Ok(cells)
}

// Registers the writers at these places with the instance.
fn register_all(list: &mut Vec<Registered>, key: Key, places: &[u32]) -> Result<(), OutOfMemory>
    requires { InOrder list.old.items }
    ensures items { OnOk result (list.new.items ≡ with_all key places.now list.old.items) }
    ensures order { OnOk result (InOrder list.new.items) }
{
    for by in places {
        if list.reserve(1).is_err() {
            return Err(OutOfMemory);
        }
        register(list, Registered { key, by: *by });
    }
    Ok(())
}

/// The registrations with the instances of the topic at a place of the view.
pub fn registered_of(
    alloc: Global,
    at: u32,
    lines: &[Instance],
) -> Result<Vec<Registered>, OutOfMemory>
    ensures { IfOk result (λ l. l.items ≡ with_lines (lines_in at lines.now) []) }
{
    let mut list = Vec::new(alloc);
    for line in lines {
        if line.topic == at {
            register_all(&mut list, line.key, line.registered.as_slice())?;
        }
    }
    Ok(list)
}

// How many later changes are to be counted.
fn gap(depth: Option<u32>, changes: u64, ordinal: u64) -> u64
    ensures { result ≡ gap depth changes ordinal }
{
    match depth {
        None => 0,
        Some(_) => changes.saturating_sub(ordinal),
    }
}

// The counter after which so many changes raise it to 0.
fn start_at(later: u64) -> u32
    ensures { result ≡ start_at later }
{
    if later == 0 || later >= 4_294_967_296 {
        0
    } else {
        (4_294_967_296 - later) as u32
    }
}

fn change_of(depth: Option<u32>, changes: u64, kept: &Kept) -> Result<Change, OutOfMemory>
    ensures { IfOk result (λ c. c ≡ change_by depth changes kept.now) }
{
    let sample = kept.sample.copy()?;
    Ok(Change {
        at: start_at(gap(depth, changes, kept.ordinal)),
        writer: kept.writer,
        number: kept.number,
        arrived: kept.arrived,
        sample,
    })
}

// How many changes the instance of the kept change had, if it is one of the topic.
fn counted(lines: &[Instance], at: u32, kept: &Kept) -> Option<u64>
    ensures { result ≡ counted_in at lines.now kept.now }
{
    match lines.get(kept.instance as usize) {
        Some(line) => if line.topic == at {
            Some(line.changes)
        } else {
            None
        },
        None => None,
    }
}

/// The kept changes of the topic at a place of the view.
pub fn changes_of(
    alloc: Global,
    depth: Option<u32>,
    at: u32,
    lines: &[Instance],
    kept: &[Kept],
) -> Result<Changes, OutOfMemory>
    ensures { IfOk result (λ l. l.items ≡ changes_in depth at lines.now kept.now) }
{
    let mut list = Changes::new(alloc);
    for one in kept {
        match counted(lines, at, one) {
            Some(changes) => {
                list.reserve(1)?;
                list.push(change_of(depth, changes, one)?);
            }
            None => {}
        }
    }
    Ok(list)
}

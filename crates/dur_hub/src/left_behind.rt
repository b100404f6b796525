//! Kept writers that the plan does not declare: the first lease step loses those that are there.

ghost use Rattle.std.specs.Prelude.{◌≡◌, ℕ, ◌<◌, ◌||◌, ◌&&◌, ◌==◌, not, true, false, length, slice_index_or, IfOk};
ghost use Rattle.std.specs.List.{list_any};
ghost use Rattle.dur_qos.specs.Plan.{has_writer};
ghost use Rattle.dur_view.specs.Persistent.{is_persistent, passes_at};
ghost use Rattle.dur_hub.specs.Leases.{is_empty};
ghost use Rattle.dur_base.specs.declared.entry.Entry.TheVariants.{Lost};
ghost use Rattle.dur_view.specs.History.{History, ◌▸◌, start, Follows};
ghost use Rattle.dur_hub.specs.Queues.{LedgerAt};
ghost use Rattle.dur_hub.specs.LeftBehind.{leaver_of, is_registered_in, left_from, LosesLeft};

use crate::ledger::Ledger;
use dur_base::{Durability, Entry, Guid, OutOfMemory, Ticks};
use dur_qos::Plan;
use dur_view::{KeptWriter, View};
use std::alloc::Global;
use std::collections::VecDeque;

/// A kept writer that the plan does not declare, and that is there: it is registered with a key, or has an open set.
#[derive(Clone, Copy, Drop)]
pub struct Leaver {
    pub guid: Guid,
    /// Whether its topic is persistent.
    pub stored: bool,
}

// Loses one of them. False: there was no memory for it.
fn lose_one(ledger: &mut Ledger, leaver: Leaver, moment: Ticks) -> bool
    ensures lost { result ≡ true → (h : History) (t d : ℕ) → LedgerAt ledger.old h t d
        → leaver ≡ leaver_of (start h) leaver.guid → Follows h (Lost moment leaver.guid)
        → LedgerAt ledger.new (h ▸ Lost moment leaver.guid) t d }
    ensures stopped { result ≡ false → (h : History) (t d : ℕ) → LedgerAt ledger.old h t d
        → LedgerAt ledger.new h t d }
{
    let Leaver { guid, stored } = leaver;
    match ledger.admit(
        Entry::Lost {
            moment,
            writer: guid,
        },
        stored,
    ) {
        Ok(()) => true,
        Err(_) => false,
    }
}

/// Loses them, in order. False: there was no memory for one, and those from it on are left.
pub fn lose_left(ledger: &mut Ledger, leaving: &mut VecDeque<Leaver>, moment: Ticks) -> bool
    ensures { LosesLeft ledger.old leaving.old.items moment result ledger.new leaving.new.items }
{
    while let Some(leaver) = leaving.front() {
        let next = *leaver;
        if !lose_one(ledger, next, moment) {
            return false;
        }
        let _lost = leaving.pop_front();
    }
    true
}

// Notes the places that are registered.
fn note_places(flags: &mut [bool], places: &[u32])
    ensures { (i : ℕ) → i < length flags.old
        → slice_index_or flags.new i false ≡ (slice_index_or flags.old i false || list_any (λ r. r == i) places.now) }
{
    for place in places {
        let place = *place as usize;
        if place < flags.len() {
            flags[place] = true;
        }
    }
}

// Which of a view's writers are registered with a key, by their places.
fn registered_writers(alloc: Global, view: &View) -> Result<Vec<bool>, OutOfMemory>
    ensures { IfOk result (λ flags. (i : ℕ) → i < length view.now.writers
        → slice_index_or flags.items i false ≡ is_registered_in view.now i) }
{
    let mut flags = Vec::from_elem(alloc, false, view.writers.len())?;
    for instance in view.instances.as_slice() {
        note_places(&mut flags, instance.registered.as_slice());
    }
    Ok(flags)
}

// Whether the plan declares a writer.
fn has_writer(plan: &Plan, guid: Guid) -> bool
    ensures { result ≡ has_writer guid plan.now.writers }
{
    for line in plan.writers.as_slice() {
        if guid == line.guid {
            return true;
        }
    }
    false
}

// Whether a kept writer is left behind, where this says whether it is registered with a key.
fn is_left(plan: &Plan, writer: &KeptWriter, is_registered: bool) -> bool
    ensures { result ≡ (not (has_writer writer.now.guid plan.now.writers) && (is_registered || not (is_empty writer.now.held))) }
{
    (is_registered || writer.held.len() > 0) && !has_writer(plan, writer.guid)
}

// Whether the topic at a place of a view is persistent.
fn is_persistent_at(view: &View, topic: u32) -> bool
    ensures { result ≡ passes_at is_persistent view.now.topics topic }
{
    match view.topics.as_slice().get(topic as usize) {
        Some(topic) => matches!(topic.kind, Durability::Persistent),
        None => false,
    }
}

// Whether a flag is set.
fn is_set(flags: &[bool], place: usize) -> bool
    ensures { result ≡ slice_index_or flags.now place false }
{
    match flags.get(place) {
        Some(flag) => *flag,
        None => false,
    }
}

/// The kept writers of a view that are left behind.
pub fn left_behind(alloc: Global, plan: &Plan, view: &View) -> Result<VecDeque<Leaver>, OutOfMemory>
    ensures { IfOk result (λ leaving. leaving.items ≡ left_from plan.now view.now 0 view.now.writers) }
{
    let flags = registered_writers(alloc, view)?;
    let mut leaving = VecDeque::new(alloc);
    for (place, writer) in view.writers.as_slice().iter().enumerate() {
        if is_left(plan, writer, is_set(&flags, place)) {
            let leaver = Leaver {
                guid: writer.guid,
                stored: is_persistent_at(view, writer.topic),
            };
            leaving.push_back(leaver)?;
        }
    }
    Ok(leaving)
}

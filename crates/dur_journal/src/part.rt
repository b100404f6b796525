//! What a plan declares of persistent topics, and the view that is kept with all of it.

ghost use Rattle.std.specs.Prelude.{◌≡◌, ◌≤◌, ◌^◌, [], All, IfOk, filter, map, length, List as Sequence};
ghost use Rattle.dur_base.specs.declared.entry.Entry.{Entry};
ghost use Rattle.dur_qos.specs.Good.{GoodPlan};
ghost use Rattle.std.specs.List.{AllByRecursion};
ghost use Rattle.dur_view.specs.History.{History, Start, ◌+>◌, HasShortNumber, AllFollow};
ghost use Rattle.dur_view.specs.Full.{nothing};
ghost use Rattle.dur_view.specs.Persistent.{is_persistent, passes_at, persistent_plan, place_among, reader_line_among, writer_line_among};
ghost use Rattle.dur_store.specs.Keeps.{Keeps};
ghost use Rattle.dur_journal.specs.Histories.{IsBase, blank_of, completed, view_of};
ghost use Rattle.dur_journal.specs.Opening.{CanComplete, IsKeptView};

use dur_base::{Durability, Entry, List, OutOfMemory, Ticks};
use dur_qos::{Plan, ReaderLine, Topic, WriterLine};
use dur_store::Store;
use dur_view::View;
use std::alloc::Global;

fn is_persistent(topic: &Topic) -> bool
    ensures { result ≡ is_persistent topic.now }
{
    topic.kind == Durability::Persistent
}

/// Whether the topic at a place outlives the process.
fn stays(plan: &Plan, place: u32) -> bool
    ensures { result ≡ passes_at is_persistent plan.now.topics place }
{
    match plan.topics.as_slice().get(place as usize) {
        Some(topic) => is_persistent(topic),
        None => false,
    }
}

fn topics_of(alloc: Global, plan: &Plan) -> Result<List<Topic>, OutOfMemory>
    ensures { IfOk result (λ l. l ≡ filter is_persistent plan.now.topics) }
{
    let mut list = List::new(alloc);
    for topic in plan.topics.as_slice() {
        if is_persistent(topic) {
            list.push(topic.copy())?;
        }
    }
    Ok(list)
}

/// How many of these outlive the process.
fn persistent_count(topics: &[Topic]) -> u32
    requires { length topics.now ≤ 1024 }
    ensures { result ≡ length (filter is_persistent topics.now) }
{
    let mut count = 0_u32;
    for topic in topics {
        if is_persistent(topic) {
            count += 1;
        }
    }
    count
}

/// The place among the persistent topics of the one at a place among all.
#[tactic(auto, using(std::proofs::lemmas::List::take_all))]
fn place_among(plan: &Plan, place: u32) -> u32
    requires { length plan.now.topics ≤ 1024 }
    ensures { result ≡ place_among is_persistent plan.now.topics place }
{
    let topics = plan.topics.as_slice();
    let place = place as usize;
    if place < topics.len() {
        persistent_count(&topics[..place])
    } else {
        persistent_count(topics)
    }
}

fn writers_of(alloc: Global, plan: &Plan) -> Result<List<WriterLine>, OutOfMemory>
    requires { length plan.now.topics ≤ 1024 }
    ensures { IfOk result (λ l. l ≡ map (writer_line_among plan.now)
        (filter (λ w. passes_at is_persistent plan.now.topics w.topic) plan.now.writers)) }
{
    let mut list = List::new(alloc);
    for writer in plan.writers.as_slice() {
        if stays(plan, writer.topic) {
            list.push(WriterLine {
                guid: writer.guid,
                topic: place_among(plan, writer.topic),
                lease: writer.lease,
            })?;
        }
    }
    Ok(list)
}

fn readers_of(alloc: Global, plan: &Plan) -> Result<List<ReaderLine>, OutOfMemory>
    requires { length plan.now.topics ≤ 1024 }
    ensures { IfOk result (λ l. l ≡ map (reader_line_among plan.now)
        (filter (λ r. passes_at is_persistent plan.now.topics r.topic) plan.now.readers)) }
{
    let mut list = List::new(alloc);
    for reader in plan.readers.as_slice() {
        if stays(plan, reader.topic) {
            list.push(ReaderLine {
                guid: reader.guid,
                topic: place_among(plan, reader.topic),
                kind: reader.kind,
            })?;
        }
    }
    Ok(list)
}

/// The persistent topics of a plan, with their writers and readers.
fn part_of(alloc: Global, plan: &Plan) -> Result<Plan, OutOfMemory>
    requires { length plan.now.topics ≤ 1024 }
    ensures { IfOk result (λ p. p ≡ persistent_plan plan.now) }
{
    let topics = topics_of(alloc, plan)?;
    let writers = writers_of(alloc, plan)?;
    let readers = readers_of(alloc, plan)?;
    Ok(Plan {
        prefix: plan.prefix,
        topics,
        writers,
        readers,
    })
}

/// The store with these entries, which follow, after all others.
fn restored(store: Store, entries: List<Entry>) -> Result<Store, OutOfMemory>
    requires { AllByRecursion HasShortNumber entries }
    ensures { IfOk result (λ s. (h : History) → Keeps store h → AllFollow h entries
        → Keeps s (h +> entries)) }
{
    let mut store = store;
    for entry in entries.into_vec() {
        store.restore(entry)?;
    }
    Ok(store)
}

/// The view at its end of the history over a view and these entries, with all that the plan declares of persistent
/// topics.
pub(crate) fn kept_view(
    alloc: Global,
    plan: &Plan,
    start: View,
    entries: List<Entry>,
) -> Result<View, OutOfMemory>
    requires { CanComplete plan.now start entries }
    ensures view { IfOk result (λ v. v ≡ view_of (completed plan.now (Start start +> entries))) }
    ensures kept { IfOk result (IsKeptView plan.now) }
{
    let Ok(part) = part_of(alloc, plan) else {
        return Err(OutOfMemory);
    };
    let Ok(first) = Store::of_view(alloc, &part, start) else {
        return Err(OutOfMemory);
    };
    let Ok(store) = restored(first, entries) else {
        return Err(OutOfMemory);
    };
    let last = store.last();
    store.view(alloc, last)
}

/// The view of nothing.
fn nothing_of(alloc: Global) -> View
    ensures { result ≡ nothing }
{
    View {
        last: Ticks(0),
        topics: List::new(alloc),
        writers: List::new(alloc),
        instances: List::new(alloc),
        kept: List::new(alloc),
    }
}

/// The view of a disk that keeps nothing yet.
pub(crate) fn first_view(alloc: Global, plan: &Plan) -> Result<View, OutOfMemory>
    requires { GoodPlan plan.now }
    ensures view { IfOk result (λ v. v ≡ view_of (Start (blank_of plan.now))) }
    ensures kept { IfOk result (IsKeptView plan.now) }
{
    let nothing = nothing_of(alloc);
    let none = List::new(alloc);
    kept_view(alloc, plan, nothing, none)
}

//! What takes effect of the entries after a start, in the order of effect (DDS 2.2.3.6, PRESENTATION).

ghost use Rattle.std.specs.Prelude.{◌≡◌, ℕ, if◌then◌else◌, ◌++◌, [], ◌∷◌, length, map, OnOk, IfOk};
ghost use Rattle.std.specs.Option.{option_copied};
ghost use Rattle.dur_view.specs.Words.{writer_line, topic_of, place_in};
ghost use Rattle.dur_view.specs.History.{Start, ◌+>◌, Effect, joined, opens, goes_on, held, held_by, writer_of, itself, brings, effects};
ghost use Rattle.dur_view.specs.Entitled.{brings_over};

use crate::copies::copy_held;
use crate::{Held, KeptWriter, TopicEvent, View};
use dur_base::{Entry, Guid, List, Number, OutOfMemory, Sample, SetMark, Ticks};
use std::alloc::Global;

// Whether a sample with this mark is one more member of the set that these are the members of.
fn goes_on(mark: SetMark, members: &List<Held>) -> bool
    ensures { result ≡ goes_on mark members.now }
{
    match mark {
        SetMark::Of(set) => match members.as_slice().first() {
            Some(first) => set == first.number,
            None => false,
        },
        SetMark::NoSet | SetMark::End => false,
    }
}

fn opens(mark: SetMark, number: Number) -> bool
    ensures { result ≡ opens mark number }
{
    match mark {
        SetMark::Of(set) => set == number,
        _ => false,
    }
}

fn with_sample(
    members: List<Held>,
    number: Number,
    moment: Ticks,
    sample: &Sample,
) -> Result<List<Held>, OutOfMemory>
    ensures { IfOk result (λ l. l ≡ members ++ record { number = number; moment = moment; sample = sample.now } ∷ []) }
{
    let sample = sample.copy()?;
    let mut more = members;
    more.push(Held {
        number,
        moment,
        sample,
    })?;
    Ok(more)
}

// The members of the open set after one more sample: it opens a set, goes on with the open one, or neither.
fn join(
    alloc: Global,
    number: Number,
    moment: Ticks,
    sample: &Sample,
    members: &List<Held>,
) -> Result<List<Held>, OutOfMemory>
    ensures { IfOk result (λ l. l ≡ joined sample.now.set record { number = number; moment = moment; sample = sample.now } members.now) }
{
    if opens(sample.set, number) {
        return with_sample(List::new(alloc), number, moment, sample);
    }
    if goes_on(sample.set, members) {
        return with_sample(
            copy_held(alloc, members.as_slice())?,
            number,
            moment,
            sample,
        );
    }
    Ok(List::new(alloc))
}

// The members of the writer's open set after an entry.
pub fn held_after(
    alloc: Global,
    entry: &Entry,
    writer: Guid,
    members: List<Held>,
) -> Result<List<Held>, OutOfMemory>
    ensures { IfOk result (λ l. l ≡ held_by entry.now writer members) }
{
    match entry {
        Entry::Took {
            moment,
            writer: by,
            number,
            sample,
        } => {
            if *by != writer {
                return Ok(members);
            }
            join(alloc, *number, *moment, sample, &members)
        }
        Entry::Skip { writer: by, .. } => Ok(if *by == writer {
            List::new(alloc)
        } else {
            members
        }),
        Entry::Lost { writer: by, .. } => Ok(if *by == writer {
            List::new(alloc)
        } else {
            members
        }),
    }
}

fn line_of<'a>(start: &'a View, writer: Guid) -> Option<&'a KeptWriter>
    ensures { option_copied result ≡ writer_line start.now.writers writer }
{
    for line in start.writers.as_slice() {
        if line.guid == writer {
            return Some(line);
        }
    }
    None
}

fn first_held(alloc: Global, start: &View, writer: Guid) -> Result<List<Held>, OutOfMemory>
    ensures { IfOk result (λ l. l ≡ held (Start start.now) writer) }
{
    match line_of(start, writer) {
        Some(line) => copy_held(alloc, line.held.as_slice()),
        None => Ok(List::new(alloc)),
    }
}

/// The members of the writer's open set after the entries.
pub fn held_over(
    alloc: Global,
    start: &View,
    entries: &[Entry],
    writer: Guid,
) -> Result<List<Held>, OutOfMemory>
    ensures { IfOk result (λ l. l ≡ held (Start start.now +> entries.now) writer) }
{
    let mut members = first_held(alloc, start, writer)?;
    for entry in entries {
        members = held_after(alloc, entry, writer, members)?;
    }
    Ok(members)
}

pub fn topic_of(start: &View, writer: Guid) -> u32
    ensures { result ≡ topic_of start.now writer }
{
    match line_of(start, writer) {
        Some(line) => line.topic,
        None => 0,
    }
}

fn place_of(start: &View, writer: Guid) -> usize
    ensures { result ≡ place_in start.now.writers writer }
{
    let mut place = 0;
    for line in start.writers.as_slice() {
        if line.guid == writer {
            return place;
        }
        place += 1;
    }
    place
}

fn writer_of(entry: &Entry) -> Guid
    ensures { result ≡ writer_of entry.now }
{
    match entry {
        Entry::Took { writer, .. } => *writer,
        Entry::Skip { writer, .. } => *writer,
        Entry::Lost { writer, .. } => *writer,
    }
}

// The members of a whole set take effect, in their order.
fn add_members(
    events: &mut List<TopicEvent>,
    moment: Ticks,
    by: usize,
    writer: Guid,
    members: &[Held],
) -> Result<(), OutOfMemory>
    ensures { OnOk result (events.new ≡ events.old ++ map (λ x. Effect moment by writer x.number x.moment x.sample) members.now) }
{
    for member in members {
        let sample = member.sample.copy()?;
        events.push(TopicEvent::Effect {
            moment,
            by,
            writer,
            number: member.number,
            arrived: member.moment,
            sample,
        })?;
    }
    Ok(())
}

// A sample with this mark makes the set whole, unless it is one more member.
fn add_closed(
    events: &mut List<TopicEvent>,
    moment: Ticks,
    by: usize,
    writer: Guid,
    mark: SetMark,
    members: &List<Held>,
) -> Result<(), OutOfMemory>
    ensures { OnOk result (events.new ≡ events.old ++ (if goes_on mark members.now then [] else map (λ x. Effect moment by writer x.number x.moment x.sample) members.now)) }
{
    if goes_on(mark, members) {
        return Ok(());
    }
    add_members(events, moment, by, writer, members.as_slice())
}

// The sample itself takes effect where it has no mark, or the one that ends a set.
fn add_itself(
    events: &mut List<TopicEvent>,
    moment: Ticks,
    by: usize,
    writer: Guid,
    number: Number,
    sample: &Sample,
) -> Result<(), OutOfMemory>
    ensures { OnOk result (events.new ≡ events.old ++ itself moment by writer number sample.now sample.now.set) }
{
    match sample.set {
        SetMark::Of(_) => Ok(()),
        _ => {
            let sample = sample.copy()?;
            events.push(TopicEvent::Effect {
                moment,
                by,
                writer,
                number,
                arrived: moment,
                sample,
            })
        }
    }
}

// What an entry brings, over the members of its writer's open set.
fn add_brought(
    events: &mut List<TopicEvent>,
    by: usize,
    members: &List<Held>,
    entry: &Entry,
) -> Result<(), OutOfMemory>
    ensures { OnOk result (events.new ≡ events.old ++ brings by members.now entry.now) }
{
    match entry {
        Entry::Took {
            moment,
            writer,
            number,
            sample,
        } => {
            add_closed(events, *moment, by, *writer, sample.set, members)?;
            add_itself(events, *moment, by, *writer, *number, sample)
        }
        Entry::Skip { .. } => Ok(()),
        Entry::Lost { moment, .. } => events.push(TopicEvent::Gone {
            moment: *moment,
            by,
        }),
    }
}

// Adds what an entry brings to the topic after the entries before it.
pub fn add_entry(
    alloc: Global,
    events: &mut List<TopicEvent>,
    start: &View,
    topic: u32,
    before: &[Entry],
    entry: &Entry,
) -> Result<(), OutOfMemory>
    ensures { OnOk result (events.new ≡ events.old ++ brings_over topic start.now before.now entry.now) }
{
    let writer = writer_of(entry);
    if topic_of(start, writer) != topic {
        return Ok(());
    }
    let members = held_over(alloc, start, before, writer)?;
    add_brought(events, place_of(start, writer), &members, entry)
}

/// What takes effect of the entries in the topic at a place of the start.
pub fn effects_over(
    alloc: Global,
    start: &View,
    topic: u32,
    entries: &[Entry],
) -> Result<List<TopicEvent>, OutOfMemory>
    ensures { IfOk result (λ l. l ≡ effects topic (Start start.now +> entries.now)) }
{
    let mut events = List::new(alloc);
    for (at, entry) in entries.iter().enumerate() {
        add_entry(alloc, &mut events, start, topic, &entries[..at], entry)?;
    }
    Ok(events)
}

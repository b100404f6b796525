//! What a view says of a topic's instances.

ghost use Rattle.std.specs.Prelude.{◌≡◌, ◌<◌, ◌≤◌, ◌+◌, ◌^◌, ◌++◌, [], ◌∷◌, All, if◌then◌else◌, find, count_by, option_map, length, OnOk, IfOk};
ghost use Rattle.dur_view.specs.Past.{past_over};
ghost use Rattle.dur_view.specs.Fates.{is_purged, living};
ghost use Rattle.dur_view.specs.View.{is_made_of, counted, line_of, lines_at};
ghost use Rattle.dur_view.specs.Living.{all_made, counted_from, counted_in, line_from, IsInRange};

use crate::fates::{line_over, settings_of};
use crate::living::Living;
use crate::state::{InstanceState, is_long};
use crate::view_keys::keys_over;
use crate::{Instance, TopicEvent, View};
use dur_base::{Key, List, OutOfMemory, Ticks};
use std::alloc::Global;

/// The ordinal of the first of the changes that is of the key.
pub fn first_ordinal(living: &[Living], key: Key) -> Option<u128>
    ensures { result ≡ option_map (λ c. c.ordinal) (find (is_made_of key) (all_made living.now)) }
{
    for change in living {
        if change.sample.key == key {
            return Some(change.ordinal);
        }
    }
    None
}

/// How many of the changes are of the key.
pub fn count_of(living: &[Living], key: Key) -> usize
    ensures count { result ≡ count_by (is_made_of key) (all_made living.now) }
    ensures bound { result ≤ length living.now }
{
    let mut count = 0;
    for change in living {
        if change.sample.key == key {
            count += 1;
        }
    }
    count
}

/// An ordinal, counted from the first kept change under KEEP_LAST, or else the place among the kept changes.
pub fn counted(depth: Option<u32>, first: Option<u128>, ordinal: u128, before: usize) -> u64
    requires { counted_from depth first ordinal before < 2 ^ 64 }
    ensures { result ≡ counted_from depth first ordinal before }
{
    match depth {
        None => before as u64,
        Some(_) => match first {
            None => 0,
            Some(first) => if ordinal < first {
                0
            } else {
                (ordinal - first + 1) as u64
            },
        },
    }
}

fn places_of(alloc: Global, places: &[usize]) -> Result<List<u32>, OutOfMemory>
    requires { All (λ r. r < 2 ^ 32) places.now }
    ensures { IfOk result (λ l. l ≡ places.now) }
{
    let mut list = List::new(alloc);
    for place in places {
        list.push(*place as u32)?;
    }
    Ok(list)
}

// What is said of an instance after all events.
fn instance_of(
    alloc: Global,
    topic: u32,
    depth: Option<u32>,
    changes: &[Living],
    key: Key,
    line: &InstanceState,
) -> Result<Instance, OutOfMemory>
    requires places { All (λ r. r < 2 ^ 32) line.now.registered }
    requires count { counted_in depth (all_made changes.now) key line.now.changes (count_by (is_made_of key) (all_made changes.now)) < 2 ^ 64 }
    ensures { IfOk result (λ i. i ≡ line_from topic depth (all_made changes.now) key line.now) }
{
    let first = first_ordinal(changes, key);
    let count = count_of(changes, key);
    let registered = places_of(alloc, line.registered.as_slice())?;
    Ok(Instance {
        topic,
        key,
        disposed: line.disposed,
        quiet: line.quiet,
        registered,
        changes: counted(depth, first, line.changes, count),
    })
}

// Adds what is said of the instance, unless it is purged.
fn add_line(
    alloc: Global,
    list: &mut List<Instance>,
    start: &View,
    topic: u32,
    events: &[TopicEvent],
    now: Ticks,
    changes: &[Living],
    key: Key,
) -> Result<(), OutOfMemory>
    requires there { topic < length start.now.topics }
    requires range { IsInRange (past_over start.now topic events.now) }
    requires changes { all_made changes.now ≡ living (past_over start.now topic events.now) now }
    requires few { length changes.now < 2 ^ 64 }
    ensures { OnOk result (list.new ≡ list.old ++ (if is_purged (past_over start.now topic events.now) key now then [] else line_of (past_over start.now topic events.now) topic now key ∷ [])) }
{
    let settings = settings_of(start, topic);
    let longest = settings.delay as u64 * 4_294_967_296;
    let line = line_over(alloc, start, topic, events, key)?;
    if is_long(line.quiet, longest, now) {
        return Ok(());
    }
    list.push(instance_of(alloc, topic, settings.depth, changes, key, &line)?)
}

/// Adds what is said of the instances of the topic at a place of the start that exist at a moment, by their keys.
pub fn add_lines(
    alloc: Global,
    list: &mut List<Instance>,
    start: &View,
    topic: u32,
    events: &[TopicEvent],
    now: Ticks,
    changes: &[Living],
) -> Result<(), OutOfMemory>
    requires there { topic < length start.now.topics }
    requires range { IsInRange (past_over start.now topic events.now) }
    requires changes { all_made changes.now ≡ living (past_over start.now topic events.now) now }
    requires few { length changes.now < 2 ^ 64 }
    ensures { OnOk result (list.new ≡ list.old ++ lines_at topic (past_over start.now topic events.now) now) }
{
    let keys = keys_over(alloc, start, topic, events)?;
    for key in keys.as_slice() {
        add_line(alloc, list, start, topic, events, now, changes, *key)?;
    }
    Ok(())
}

//! Which limit an entry would pass, over a start and the entries after it.

ghost use Rattle.std.specs.Prelude.{◌≡◌, ℕ, ◌<◌, ◌==◌, if◌then◌else◌, length, map, sum_by, IfOk};
ghost use Rattle.std.specs.List.{list_any};
ghost use Rattle.dur_view.specs.History.{Start, ◌▸◌, ◌+>◌, held};
ghost use Rattle.dur_view.specs.Past.{past_over};
ghost use Rattle.dur_view.specs.Fates.{is_purged, existing, told};
ghost use Rattle.dur_view.specs.Living.{all_made};
ghost use Rattle.dur_view.specs.Refused.{is_over, of_key, passed, limit_of, refused};

use crate::effects::{add_entry, effects_over, held_after, held_over, topic_of};
use crate::fates::{line_over, settings_of};
use crate::living::{Living, living_over};
use crate::state::is_long;
use crate::view_keys::keys_over;
use crate::view_lines::count_of;
use crate::{KeptWriter, Limit, TopicEvent, View};
use dur_base::{Entry, Key, List, OutOfMemory, Ticks};
use dur_qos::Topic;
use std::alloc::Global;

fn is_over(limit: Option<u32>, count: u128) -> bool
    ensures { result ≡ is_over limit count }
{
    match limit {
        None => false,
        Some(limit) => count > limit as u128,
    }
}

fn is_purged(
    alloc: Global,
    start: &View,
    topic: u32,
    events: &[TopicEvent],
    key: Key,
    now: Ticks,
) -> Result<bool, OutOfMemory>
    requires { topic < length start.now.topics }
    ensures { IfOk result (λ b. b ≡ is_purged (past_over start.now topic events.now) key now) }
{
    let settings = settings_of(start, topic);
    let longest = settings.delay as u64 * 4_294_967_296;
    let line = line_over(alloc, start, topic, events, key)?;
    Ok(is_long(line.quiet, longest, now))
}

// The keys of the instances that exist.
fn existing_over(
    alloc: Global,
    start: &View,
    topic: u32,
    events: &[TopicEvent],
    now: Ticks,
) -> Result<List<Key>, OutOfMemory>
    requires { topic < length start.now.topics }
    ensures { IfOk result (λ l. l ≡ existing (past_over start.now topic events.now) now) }
{
    let keys = keys_over(alloc, start, topic, events)?;
    let mut list = List::new(alloc);
    for key in keys.as_slice() {
        if !is_purged(alloc, start, topic, events, *key, now)? {
            list.push(*key)?;
        }
    }
    Ok(list)
}

fn has_many(living: &[Living], key: Key, limit: Option<u32>) -> bool
    ensures { result ≡ is_over limit (of_key key (map told (all_made living.now))) }
{
    is_over(limit, count_of(living, key) as u128)
}

fn some_have_many(living: &[Living], keys: &[Key], limit: Option<u32>) -> bool
    ensures { result ≡ list_any (λ k. is_over limit (of_key k (map told (all_made living.now)))) keys.now }
{
    keys.iter().any(|key| has_many(living, *key, limit))
}

// How many members the writer's open set has after the entry, if it is one of the topic.
fn held_of(
    alloc: Global,
    start: &View,
    topic: u32,
    entries: &[Entry],
    entry: &Entry,
    line: &KeptWriter,
) -> Result<usize, OutOfMemory>
    ensures { IfOk result (λ n. n ≡ (if line.now.topic == topic then length (held ((Start start.now +> entries.now) ▸ entry.now) line.now.guid) else 0)) }
{
    if line.topic != topic {
        return Ok(0);
    }
    let before = held_over(alloc, start, entries, line.guid)?;
    let members = held_after(alloc, entry, line.guid, before)?;
    Ok(members.len())
}

// How many members the topic's open sets have after the entry.
fn held_in(
    alloc: Global,
    start: &View,
    topic: u32,
    entries: &[Entry],
    entry: &Entry,
) -> Result<u128, OutOfMemory>
    ensures { IfOk result (λ n. n ≡ sum_by (λ line. if line.topic == topic then length (held ((Start start.now +> entries.now) ▸ entry.now) line.guid) else 0) start.now.writers) }
{
    let mut count = 0;
    for line in start.writers.as_slice() {
        count += held_of(alloc, start, topic, entries, entry, line)? as u128;
    }
    Ok(count)
}

// The first limit of the topic that these pass.
fn passed(topic: &Topic, keys: &[Key], living: &[Living], members: u128) -> Option<Limit>
    ensures { result ≡ passed topic.now keys.now (map told (all_made living.now)) members }
{
    if is_over(topic.max_instances, keys.len() as u128) {
        return Some(Limit::Instances);
    }
    if some_have_many(living, keys, topic.max_per_instance) {
        return Some(Limit::PerInstance);
    }
    if is_over(topic.max_samples, living.len() as u128) {
        return Some(Limit::Samples);
    }
    if is_over(topic.max_held, members) {
        return Some(Limit::Held);
    }
    None
}

// The first limit that a topic at a place of the start passes with the entry.
fn limit_of(
    alloc: Global,
    start: &View,
    entries: &[Entry],
    entry: &Entry,
    topic: u32,
    now: Ticks,
) -> Result<Option<Limit>, OutOfMemory>
    requires { topic < length start.now.topics }
    ensures { IfOk result (λ l. l ≡ limit_of ((Start start.now +> entries.now) ▸ entry.now) topic now) }
{
    let mut effects = effects_over(alloc, start, topic, entries)?;
    add_entry(alloc, &mut effects, start, topic, entries, entry)?;
    let events = effects.as_slice();
    let living = living_over(alloc, start, topic, events, now)?;
    let keys = existing_over(alloc, start, topic, events, now)?;
    let members = held_in(alloc, start, topic, entries, entry)?;
    let settings = settings_of(start, topic);
    Ok(passed(settings, keys.as_slice(), living.as_slice(), members))
}

/// The first limit that an entry would pass after the entries, in its topic.
pub fn refused(
    alloc: Global,
    start: &View,
    entries: &[Entry],
    entry: &Entry,
) -> Result<Option<Limit>, OutOfMemory>
    ensures { IfOk result (λ l. l ≡ refused (Start start.now +> entries.now) entry.now) }
{
    match entry {
        Entry::Took { moment, writer, .. } => {
            let topic = topic_of(start, *writer);
            if topic as usize >= start.topics.len() {
                return Ok(None);
            }
            limit_of(alloc, start, entries, entry, topic, *moment)
        }
        Entry::Skip { .. } => Ok(None),
        Entry::Lost { .. } => Ok(None),
    }
}

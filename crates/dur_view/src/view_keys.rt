//! The keys of a topic's instances in order, over a start and the events after it.

ghost use Rattle.std.specs.Prelude.{◌≡◌, ◌≢◌, ℕ, ◌<◌, ◌≤◌, Some, false, length, option_map, unwrap_or, slice_get, OnOk, IfOk};
ghost use Rattle.std.specs.declared.cmp.Ordering.TheVariants.{Greater};
ghost use Rattle.dur_view.specs.Identities.{Key as Octets};
ghost use Rattle.dur_view.specs.Words.{is_key};
ghost use Rattle.dur_view.specs.Past.{Begin, part, past_over};
ghost use Rattle.dur_view.specs.Fates.{key_cmp, with_key, keys_by, keys};

use crate::state::changes;
use crate::{TopicEvent, View};
use dur_base::{Key, OutOfMemory};
use std::alloc::Global;
use std::cmp::Ordering;

// The place at which a key belongs among keys in order.
fn place_of(keys: &[Key], key: Key) -> usize
    ensures bound { result ≤ length keys.now }
    ensures before { (k : ℕ) (x : Octets) → k < result → slice_get keys.now k ≡ Some x → key_cmp key x ≡ Greater }
    ensures after { (x : Octets) → slice_get keys.now result ≡ Some x → key_cmp key x ≢ Greater }
{
    for (at, x) in keys.iter().enumerate() {
        if key.cmp(x) != Ordering::Greater {
            return at;
        }
    }
    keys.len()
}

fn is_at(keys: &[Key], at: usize, key: Key) -> bool
    ensures { result ≡ unwrap_or (option_map (λ x. is_key x key) (slice_get keys.now at)) false }
{
    match keys.get(at) {
        Some(x) => *x == key,
        None => false,
    }
}

// Adds a key to keys in order.
fn put(keys: &mut Vec<Key>, key: Key) -> Result<(), OutOfMemory>
    ensures { OnOk result (keys.new.items ≡ with_key key keys.old.items) }
{
    let at = place_of(keys, key);
    if is_at(keys, at, key) {
        return Ok(());
    }
    match keys.insert(at, key) {
        Ok(()) => Ok(()),
        Err(_) => Err(OutOfMemory),
    }
}

// The keys of the instances that the start has of the topic.
fn first_keys(alloc: Global, start: &View, topic: u32) -> Result<Vec<Key>, OutOfMemory>
    ensures { IfOk result (λ v. v.items ≡ keys (Begin (part start.now topic))) }
{
    let mut keys = Vec::new(alloc);
    for line in start.instances.as_slice() {
        if line.topic == topic {
            match keys.push(line.key) {
                Ok(()) => {}
                Err(_) => return Err(OutOfMemory),
            }
        }
    }
    Ok(keys)
}

// Adds the key of an event that is a change.
fn add_key(keys: &mut Vec<Key>, event: &TopicEvent) -> Result<(), OutOfMemory>
    ensures { OnOk result (keys.new.items ≡ keys_by event.now keys.old.items) }
{
    match event {
        TopicEvent::Effect { sample, .. } => if changes(sample.act) {
            put(keys, sample.key)
        } else {
            Ok(())
        },
        TopicEvent::Gone { .. } => Ok(()),
    }
}

/// The keys of the instances that were ever there in the topic at a place of the start.
pub fn keys_over(
    alloc: Global,
    start: &View,
    topic: u32,
    events: &[TopicEvent],
) -> Result<Vec<Key>, OutOfMemory>
    ensures { IfOk result (λ v. v.items ≡ keys (past_over start.now topic events.now)) }
{
    let mut keys = first_keys(alloc, start, topic)?;
    for event in events {
        add_key(&mut keys, event)?;
    }
    Ok(keys)
}

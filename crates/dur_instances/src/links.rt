//! Places of kept changes, each with the next one of its instance.

ghost use Rattle.std.specs.Prelude.{◌≡◌, ℕ, ◌+◌, ◌<◌, ◌≤◌, ◌++◌, [], ◌∷◌, not, filter, map, length, IfOk, Some, None, vec_len, vec_capacity, ◌&&◌};
ghost use Rattle.std.specs.declared.option.Option.{Option as Maybe};
ghost use Rattle.dur_view.specs.Identities.{Key as KeyOctets};
ghost use Rattle.dur_instances.specs.Layout.{is_change_of};
ghost use Rattle.dur_instances.specs.Places.{is_past, goes, thinned, kept_in, past_at, Chain, Sinks, IsOwn};

use crate::cells::Sorted;
use crate::changes::{Change, is_gone, is_past};
use dur_base::{Key, Ticks};

/// A place for a change of the instance of the key.
#[derive(Drop)]
pub struct Place {
    pub key: Key,
    /// The next place for one of the instance.
    pub next: Option<usize>,
    /// The change, while it is kept.
    pub change: Option<Change>,
}

impl Place {
    /// A place for the change, the last one of its instance.
    pub fn of(change: Change) -> Place
        ensures { result ≡ record { key = change.sample.key; next = None; change = Some change } }
    {
        let key = change.key();
        Place {
            key,
            next: None,
            change: Some(change),
        }
    }
}

// The place, if nothing is kept there that is to stay.
fn past_at(places: &[Place], at: Option<usize>, depth: Option<u32>, count: u32) -> Option<usize>
    ensures { result ≡ past_at depth count places.now at }
{
    let place = at?;
    match &places.get(place)?.change {
        Some(change) => if is_past(depth, count, change) {
            Some(place)
        } else {
            None
        },
        None => Some(place),
    }
}

// Empties the place, and gives the next one.
fn empty(place: &mut Place) -> Option<usize>
    ensures next { result ≡ place.old.next }
    ensures place { place.new ≡ record place.old { change = None } }
{
    place.change = None;
    place.next
}

/// Empties the places of an instance whose changes are past the depth, from this one on, and gives the first one that is
/// left.
pub fn empty_past(
    places: &mut Vec<Place>,
    key: Key,
    first: Option<usize>,
    last: usize,
    depth: Option<u32>,
    count: u32,
) -> Option<usize>
    requires chain { Chain key 0 first last places.old.items }
    requires own { IsOwn places.old.items }
    requires sinks { Sinks key depth count (kept_in places.old.items) }
    ensures items { kept_in places.new.items ≡ filter (λ c. not (is_change_of key c && is_past depth count c)) (kept_in places.old.items) }
    ensures chain { Chain key 0 result last places.new.items }
    ensures others { (k : KeyOctets) (f : Maybe ℕ) (l : ℕ) → Chain k 0 f l places.old.items → Chain k 0 f l places.new.items }
    ensures own { IsOwn places.new.items }
    ensures len { vec_len places.new ≡ vec_len places.old }
    ensures capacity { vec_capacity places.new ≡ vec_capacity places.old }
{
    let mut at = first;
    while let Some(place) = past_at(places, at, depth, count) {
        at = empty(&mut places[place]);
    }
    at
}

// Whether nothing stands there that is left at the moment.
fn goes(change: &Option<Change>, cells: &Sorted, longest: u64, now: Ticks) -> bool
    ensures { result ≡ goes cells.now longest now change.now }
{
    match change {
        Some(change) => is_gone(cells, longest, now, change),
        None => true,
    }
}

fn thin(place: &mut Place, cells: &Sorted, longest: u64, now: Ticks)
    ensures { place.new ≡ thinned cells.now longest now place.old }
{
    if goes(&place.change, cells, longest, now) {
        place.change = None;
    }
}

/// Empties the places of the changes that are expired or purged at the moment.
pub fn sweep(places: &mut Vec<Place>, cells: &Sorted, longest: u64, now: Ticks)
    ensures items { places.new.items ≡ map (thinned cells.now longest now) places.old.items }
    ensures len { vec_len places.new ≡ vec_len places.old }
    ensures capacity { vec_capacity places.new ≡ vec_capacity places.old }
{
    for at in 0..places.len() {
        thin(&mut places[at], cells, longest, now);
    }
}

/// How many changes are kept.
pub fn count_kept(places: &[Place]) -> usize
    ensures { result ≡ length (kept_in places.now) }
{
    let mut count = 0;
    for place in places {
        if place.change.is_some() {
            count += 1;
        }
    }
    count
}

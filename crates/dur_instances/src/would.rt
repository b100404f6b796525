//! The limits that samples would pass.

ghost use Rattle.std.specs.Prelude.{◌≡◌, ℕ, ◌+◌, ◌*◌, ◌^◌, ◌≤◌, not, filter, length, count_by, ◌&&◌, ◌||◌, Some, None};
ghost use Rattle.std.specs.List.{list_any};
ghost use Rattle.dur_view.specs.Words.{is_change};
ghost use Rattle.dur_view.specs.Fates.{is_long};
ghost use Rattle.dur_view.specs.Refused.{is_over};
ghost use Rattle.dur_instances.specs.Layout.{late_of, cells_there};
ghost use Rattle.dur_instances.specs.Places.{kept_in};
ghost use Rattle.dur_instances.specs.Would.{is_left_at, later_in, is_left, fresh_of, left_after, is_asked, count_asked, is_there_in, new_keys, any_there, passed_after};

use crate::cells::{Cell, Sorted, count_of, find, raised};
use crate::changes::{Change, is_gone, is_long, is_over as is_expired};
use crate::links::Place;
use crate::table::cell_of;
use dur_base::{Act, Key, Sample, Ticks};
use dur_qos::Topic;
use dur_view::Limit;

fn is_change(act: Act) -> bool
    ensures { result ≡ is_change act }
{
    !matches!(act, Act::Unregister | Act::Marker)
}

fn reaches(depth: Option<u32>, later: u128) -> bool
    ensures { result ≡ Rattle.dur_view.specs.Fates.reaches depth later }
{
    match depth {
        None => false,
        Some(most) => later >= most as u128,
    }
}

fn is_over(limit: Option<u32>, count: u128) -> bool
    ensures { result ≡ is_over limit count }
{
    match limit {
        None => false,
        Some(limit) => count > limit as u128,
    }
}

fn is_asked(of: &Option<Key>, key: Key) -> bool
    ensures { result ≡ is_asked of.now key }
{
    match *of {
        None => true,
        Some(one) => key == one,
    }
}

// How many of the samples are changes of the instance.
fn later_in(samples: &[Sample], key: Key) -> usize
    ensures count { result ≡ later_in key samples.now }
    ensures bound { result ≤ length samples.now }
{
    let mut count = 0;
    for sample in samples {
        if sample.key == key && is_change(sample.act) {
            count += 1;
        }
    }
    count
}

// Whether the kept change is left when the samples took effect at the moment.
fn is_left(
    cells: &Sorted,
    depth: Option<u32>,
    longest: u64,
    now: Ticks,
    samples: &[Sample],
    change: &Change,
) -> bool
    ensures { result ≡ is_left cells.now depth longest now samples.now change.now }
{
    let key = change.sample.key;
    let later = raised(change.at, count_of(cells, key));
    !is_gone(cells, longest, now, change)
        && !reaches(depth, later as u128 + later_in(samples, key) as u128)
}

// Whether a change of the instance, or of all, is kept there and left.
fn is_left_at(
    cells: &Sorted,
    kept: &Option<Change>,
    depth: Option<u32>,
    longest: u64,
    now: Ticks,
    samples: &[Sample],
    of: &Option<Key>,
) -> bool
    ensures { result ≡ is_left_at cells.now depth longest now samples.now of.now kept.now }
{
    match kept {
        Some(change) => is_asked(of, change.sample.key)
            && is_left(cells, depth, longest, now, samples, change),
        None => false,
    }
}

// How many kept changes of the instance, or of all, are left.
fn kept_left(
    cells: &Sorted,
    places: &[Place],
    depth: Option<u32>,
    longest: u64,
    now: Ticks,
    samples: &[Sample],
    of: &Option<Key>,
) -> usize
    ensures { result ≡ count_by (λ c. is_asked of.now c.sample.key) (filter (is_left cells.now depth longest now samples.now) (kept_in places.now)) }
{
    let mut count = 0;
    for place in places {
        if is_left_at(cells, &place.change, depth, longest, now, samples, of) {
            count += 1;
        }
    }
    count
}

// Whether the sample is left when it and the later ones took effect at the moment.
fn is_fresh(depth: Option<u32>, now: Ticks, sample: &Sample, later: &[Sample]) -> bool
    ensures { result ≡ (is_change sample.now.act && not (Rattle.dur_view.specs.Fates.is_over_by sample.now.lifespan sample.now.stamp now || Rattle.dur_view.specs.Fates.reaches depth (later_in sample.now.key later.now))) }
{
    is_change(sample.act)
        && !is_expired(sample, now)
        && !reaches(depth, later_in(later, sample.key) as u128)
}

// How many of the samples are left, of the instance or of all.
fn fresh_left(depth: Option<u32>, now: Ticks, samples: &[Sample], of: &Option<Key>) -> usize
    ensures { result ≡ count_asked of.now (fresh_of depth now samples.now) }
{
    let mut count = 0;
    for (i, sample) in samples.iter().enumerate() {
        if is_asked(of, sample.key) && is_fresh(depth, now, sample, &samples[i + 1..]) {
            count += 1;
        }
    }
    count
}

// How many changes of the instance, or of all, are left when the samples took effect at the moment.
fn count_left(
    cells: &Sorted,
    places: &[Place],
    depth: Option<u32>,
    longest: u64,
    now: Ticks,
    samples: &[Sample],
    of: &Option<Key>,
) -> u128
    ensures { result ≡ count_asked of.now (left_after cells.now (kept_in places.now) depth longest now samples.now) }
{
    let kept = kept_left(cells, places, depth, longest, now, samples, of);
    kept as u128 + fresh_left(depth, now, samples, of) as u128
}

fn is_there(cells: &Sorted, longest: u64, now: Ticks, key: Key) -> bool
    ensures { result ≡ is_there_in cells.now longest now key }
{
    match find(cells, key) {
        None => false,
        Some(cell) => !is_long(cell.quiet, longest, now),
    }
}

fn count_there(cells: &Sorted, longest: u64, now: Ticks) -> usize
    ensures { result ≡ length (cells_there cells.now longest now) }
{
    cells.cells().count_there(longest, now)
}

// How many instances the samples bring: each is counted at its last change.
fn count_new(cells: &Sorted, longest: u64, now: Ticks, samples: &[Sample]) -> usize
    ensures { result ≡ new_keys (is_there_in cells.now longest now) samples.now }
{
    let mut count = 0;
    for (i, sample) in samples.iter().enumerate() {
        if is_change(sample.act)
            && !is_there(cells, longest, now, sample.key)
            && later_in(&samples[i + 1..], sample.key) == 0
        {
            count += 1;
        }
    }
    count
}

// Whether the instance exists and has more changes left than the limit.
fn has_more(
    limit: Option<u32>,
    cells: &Sorted,
    places: &[Place],
    depth: Option<u32>,
    longest: u64,
    now: Ticks,
    samples: &[Sample],
    cell: &Cell,
) -> bool
    ensures { result ≡ (not (is_long cell.now.quiet longest now) && is_over limit (count_asked (Some cell.now.key) (left_after cells.now (kept_in places.now) depth longest now samples.now))) }
{
    !is_long(cell.quiet, longest, now)
        && is_over(
            limit,
            count_left(cells, places, depth, longest, now, samples, &Some(cell.key)),
        )
}

// Whether an instance that exists has more changes left than the limit.
fn any_kept_over(
    limit: Option<u32>,
    cells: &Sorted,
    places: &[Place],
    depth: Option<u32>,
    longest: u64,
    now: Ticks,
    samples: &[Sample],
) -> bool
    ensures { result ≡ list_any (λ c. not (is_long c.quiet longest now) && is_over limit (count_asked (Some c.key) (left_after cells.now (kept_in places.now) depth longest now samples.now))) cells.now }
{
    let entries = cells.cells().entries();
    for i in 0..entries.len() {
        match entries.get_index(i) {
            Some((key, state)) => {
                let cell = cell_of(Key(*key), state);
                if has_more(limit, cells, places, depth, longest, now, samples, &cell) {
                    return true;
                }
            }
            None => {}
        }
    }
    false
}

// Whether the sample is a change of an instance that has more changes left than the limit.
fn brings_more(
    limit: Option<u32>,
    cells: &Sorted,
    places: &[Place],
    depth: Option<u32>,
    longest: u64,
    now: Ticks,
    samples: &[Sample],
    sample: &Sample,
) -> bool
    ensures { result ≡ (is_change sample.now.act && is_over limit (count_asked (Some sample.now.key) (left_after cells.now (kept_in places.now) depth longest now samples.now))) }
{
    is_change(sample.act)
        && is_over(
            limit,
            count_left(
                cells,
                places,
                depth,
                longest,
                now,
                samples,
                &Some(sample.key),
            ),
        )
}

// Whether an instance that the samples change has more changes left than the limit.
fn any_new_over(
    limit: Option<u32>,
    cells: &Sorted,
    places: &[Place],
    depth: Option<u32>,
    longest: u64,
    now: Ticks,
    samples: &[Sample],
) -> bool
    ensures { result ≡ list_any (λ s. is_change s.act && is_over limit (count_asked (Some s.key) (left_after cells.now (kept_in places.now) depth longest now samples.now))) samples.now }
{
    for sample in samples {
        if brings_more(limit, cells, places, depth, longest, now, samples, sample) {
            return true;
        }
    }
    false
}

// Whether more instances exist than the limit, when the samples took effect. None are counted where no count could be over.
fn are_instances_over(
    limit: Option<u32>,
    cells: &Sorted,
    longest: u64,
    now: Ticks,
    samples: &[Sample],
) -> bool
    ensures { result ≡ is_over limit (length (cells_there cells.now longest now) + new_keys (is_there_in cells.now longest now) samples.now) }
{
    let most = cells.cells().len() as u128 + samples.len() as u128;
    if !is_over(limit, most) {
        return false;
    }
    let there = count_there(cells, longest, now) as u128;
    is_over(
        limit,
        there + count_new(cells, longest, now, samples) as u128,
    )
}

// Whether an instance that exists when the samples took effect has more changes left than the limit. None are counted where
// no count could be over.
fn is_any_over(
    limit: Option<u32>,
    cells: &Sorted,
    places: &[Place],
    depth: Option<u32>,
    longest: u64,
    now: Ticks,
    samples: &[Sample],
) -> bool
    ensures { result ≡ any_there cells.now longest now samples.now (λ k. is_over limit (count_asked (Some k) (left_after cells.now (kept_in places.now) depth longest now samples.now))) }
{
    if !is_over(limit, places.len() as u128 + samples.len() as u128) {
        return false;
    }
    any_kept_over(limit, cells, places, depth, longest, now, samples)
        || any_new_over(limit, cells, places, depth, longest, now, samples)
}

// Whether more changes are left than the limit, when the samples took effect. None are counted where no count could be over.
fn are_changes_over(
    limit: Option<u32>,
    cells: &Sorted,
    places: &[Place],
    depth: Option<u32>,
    longest: u64,
    now: Ticks,
    samples: &[Sample],
) -> bool
    ensures { result ≡ is_over limit (count_asked None (left_after cells.now (kept_in places.now) depth longest now samples.now)) }
{
    if !is_over(limit, places.len() as u128 + samples.len() as u128) {
        return false;
    }
    is_over(
        limit,
        count_left(cells, places, depth, longest, now, samples, &None),
    )
}

/// The first limit that is passed when the samples took effect at the moment.
pub fn would_over(
    topic: &Topic,
    cells: &Sorted,
    places: &[Place],
    now: Ticks,
    samples: &[Sample],
) -> Option<Limit>
    ensures { result ≡ passed_after topic.now cells.now (kept_in places.now) (topic.now.delay * 2 ^ 32) now samples.now }
{
    let longest = topic.delay as u64 * 4_294_967_296;
    let depth = topic.depth;
    if are_instances_over(topic.max_instances, cells, longest, now, samples) {
        Some(Limit::Instances)
    } else if is_any_over(
        topic.max_per_instance,
        cells,
        places,
        depth,
        longest,
        now,
        samples,
    ) {
        Some(Limit::PerInstance)
    } else if are_changes_over(
        topic.max_samples,
        cells,
        places,
        depth,
        longest,
        now,
        samples,
    ) {
        Some(Limit::Samples)
    } else {
        None
    }
}

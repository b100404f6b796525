//! When something that is kept falls due.

ghost use Rattle.std.specs.Prelude.{◌≡◌, min, nat_lt};
ghost use Rattle.dur_instances.specs.Places.{kept_in};
ghost use Rattle.dur_instances.specs.Due.{due_at, purged_from, expired_from, due_changes, due_of, due_with, due_by};

use crate::changes::Change;
use crate::links::Place;
use crate::table::Cells;
use dur_base::{Sample, Ticks};

/// Whether a moment comes before another.
pub fn is_before(a: Ticks, b: Ticks) -> bool
    ensures { result ≡ nat_lt a b }
{
    a.0 < b.0
}

/// The earlier of two moments.
pub fn earlier(a: u64, b: u64) -> u64
    ensures { result ≡ min a b }
{
    if a <= b { a } else { b }
}

/// The first moment at which the instance is purged, or the last moment.
pub fn purged_from(longest: u64, quiet: Option<Ticks>) -> u64
    ensures { result ≡ purged_from longest quiet }
{
    match quiet {
        None => u64::MAX,
        Some(began) => began.0.saturating_add(longest).saturating_add(1),
    }
}

// The first moment at which the change is expired, or the last moment.
fn expired_from(lifespan: Option<Ticks>, stamp: Ticks) -> u64
    ensures { result ≡ expired_from lifespan stamp }
{
    match lifespan {
        None => u64::MAX,
        Some(lifespan) => stamp.0.saturating_add(lifespan.0),
    }
}

// The first moment at which the change that is kept there is expired, or the last moment.
fn due_at(change: &Option<Change>) -> u64
    ensures { result ≡ due_at change.now }
{
    match change {
        Some(change) => expired_from(change.sample.lifespan, change.sample.stamp),
        None => u64::MAX,
    }
}

fn due_changes(places: &[Place]) -> u64
    ensures { result ≡ due_changes (kept_in places.now) }
{
    let mut due = u64::MAX;
    for place in places {
        due = earlier(due, due_at(&place.change));
    }
    due
}

/// The moment, or an earlier one at which an instance that is quiet from this one on is purged.
pub fn due_with(longest: u64, quiet: &Option<Ticks>, due: Ticks) -> Ticks
    ensures { result ≡ due_with longest quiet.now due }
{
    Ticks(earlier(due.0, purged_from(longest, *quiet)))
}

/// The moment, or an earlier one at which the sample is expired.
pub fn due_by(sample: &Sample, due: Ticks) -> Ticks
    ensures { result ≡ due_by sample.now.lifespan sample.now.stamp due }
{
    Ticks(earlier(due.0, expired_from(sample.lifespan, sample.stamp)))
}

/// The least moment at which an instance is purged or a change expires.
pub fn due_of(longest: u64, cells: &Cells, places: &[Place]) -> Ticks
    ensures { result ≡ due_of longest cells.now.list (kept_in places.now) }
{
    Ticks(earlier(cells.due(longest), due_changes(places)))
}

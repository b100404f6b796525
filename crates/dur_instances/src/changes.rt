//! Kept changes, in the order of effect.

ghost use Rattle.std.specs.Prelude.{◌≡◌, IfOk};
ghost use Rattle.dur_view.specs.Fates.{is_long, is_over_by, reaches};
ghost use Rattle.dur_instances.specs.Layout.{is_gone_in};
ghost use Rattle.dur_instances.specs.Places.{is_past};

use crate::cells::{Sorted, is_purged, raised};
use dur_base::{Guid, Key, Number, OutOfMemory, Sample, Ticks};

/// A kept change.
#[derive(Drop)]
pub struct Change {
    /// What the counter of its instance was raised to by it.
    pub at: u32,
    pub writer: Guid,
    pub number: Number,
    pub arrived: Option<Ticks>,
    pub sample: Sample,
}

impl Change {
    /// The key of its instance.
    pub fn key(&self) -> Key
        ensures { result ≡ self.now.sample.key }
    {
        self.sample.key
    }

    /// The change, whose payload shares its octets.
    pub fn copy(&self) -> Result<Change, OutOfMemory>
        ensures { IfOk result (λ c. c ≡ self.now) }
    {
        let sample = self.sample.copy()?;
        Ok(Change {
            at: self.at,
            writer: self.writer,
            number: self.number,
            arrived: self.arrived,
            sample,
        })
    }
}

/// Whether a quiet stretch that began then is longer than the delay, in ticks of 2^-32 s.
pub fn is_long(since: Option<Ticks>, longest: u64, now: Ticks) -> bool
    ensures { result ≡ is_long since longest now }
{
    match since {
        None => false,
        Some(began) => now.0.saturating_sub(began.0) > longest,
    }
}

/// Whether the sample is expired at the moment.
pub fn is_over(sample: &Sample, now: Ticks) -> bool
    ensures { result ≡ is_over_by sample.now.lifespan sample.now.stamp now }
{
    match sample.lifespan {
        None => false,
        Some(lifespan) => sample.stamp.0 as u128 + lifespan.0 as u128 <= now.0 as u128,
    }
}

fn reaches(depth: Option<u32>, later: u32) -> bool
    ensures { result ≡ reaches depth later }
{
    match depth {
        None => false,
        Some(most) => later >= most,
    }
}

/// Whether the change is expired or purged at the moment.
pub fn is_gone(cells: &Sorted, longest: u64, now: Ticks, change: &Change) -> bool
    ensures { result ≡ is_gone_in cells.now longest now change.now }
{
    is_over(&change.sample, now) || is_purged(cells, longest, now, change.sample.key)
}

/// Whether as many later ones came as the topic is deep, where the counter of its instance is this.
pub fn is_past(depth: Option<u32>, count: u32, change: &Change) -> bool
    ensures { result ≡ is_past depth count change.now }
{
    reaches(depth, raised(change.at, count))
}

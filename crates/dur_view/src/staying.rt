//! Which items of a list stay, and at which places among those that do.

ghost use Rattle.std.specs.Prelude.{◌≡◌, IfOk};
ghost use Rattle.dur_view.specs.Staying.{counted, stays_at, place_at};

use dur_base::{List, OutOfMemory};
use std::alloc::Global;

/// For each item whether it stays, and how many before it do.
#[derive(Drop)]
pub struct Staying {
    pub stays: List<bool>,
    pub counts: List<usize>,
    /// How many stay.
    pub count: usize,
}

impl Staying {
    /// Counts those that stay.
    pub fn of(alloc: Global, stays: List<bool>) -> Result<Staying, OutOfMemory>
        ensures { IfOk result (λ s. s ≡ counted stays) }
    {
        let mut counts = List::new(alloc);
        let mut count = 0;
        let mut rest = stays.as_slice();
        while let [stay, later @ ..] = rest {
            counts.push(count)?;
            if *stay {
                count += 1;
            }
            rest = later;
        }
        Ok(Staying {
            stays,
            counts,
            count,
        })
    }

    /// Whether what stands at a place stays.
    pub fn has(&self, place: usize) -> bool
        ensures { result ≡ stays_at self.now place }
    {
        match self.stays.as_slice().get(place) {
            Some(stay) => *stay,
            None => false,
        }
    }

    /// The place among those that stay of what stands at a place among all.
    pub fn place(&self, place: usize) -> usize
        ensures { result ≡ place_at self.now place }
    {
        match self.counts.as_slice().get(place) {
            Some(count) => *count,
            None => self.count,
        }
    }
}

//! A ring of 256 places. The number k has the place k % 256.

ghost use Rattle.std.specs.Prelude.{◌≡◌, ℕ, ◌+◌, ◌<◌, ◌≤◌, ◌^◌, ◌%◌, length, slice_set, IfOk};
ghost use Rattle.rel_reader.specs.Places.{place_at};
ghost use Rattle.rel_reader.specs.declared.known.Known.TheVariants.{Unknown};

use crate::Known;
use dur_base::OutOfMemory;
use std::alloc::Global;

/// What stands at the place of a number.
pub(crate) fn place(places: &[Known], number: u64) -> &Known
    requires { length places.now ≡ 256 }
    ensures { result.now ≡ place_at places.now number }
{
    &places[(number % 256) as usize]
}

/// Writes the place of a number, and hands back what stood there.
pub(crate) fn put(places: &mut [Known], number: u64, known: Known) -> Known
    requires { length places.old ≡ 256 }
    ensures before { result ≡ place_at places.old number }
    ensures after { places.new ≡ slice_set places.old (number % 256) known }
{
    std::mem::replace(&mut places[(number % 256) as usize], known)
}

/// Empties the places of the numbers from one up to below another, so that the window may begin there. From the top on
/// all are empty.
pub(crate) fn clear(places: &mut [Known], from: u64, to: u64, top: u64)
    requires length { length places.old ≡ 256 }
    requires small { from < 2 ^ 63 }
    requires rises { from ≤ to }
    requires above { (k : ℕ) → from ≤ k → top ≤ k → k < from + 256 → place_at places.old k ≡ Unknown }
    // What stands in both windows stays.
    ensures stays { (k : ℕ) → to ≤ k → k < from + 256 → place_at places.new k ≡ place_at places.old k }
    // The numbers that come into the window have empty places.
    ensures comes { (k : ℕ) → to ≤ k → from + 256 ≤ k → k < to + 256 → place_at places.new k ≡ Unknown }
{
    let end = from.max(to.min(from + 256).min(top));
    for k in from..end {
        let _before = put(places, k, Known::Unknown);
    }
}

/// A ring of empty places.
pub(crate) fn empty(alloc: Global) -> Result<Vec<Known>, OutOfMemory>
    ensures { IfOk result (λ v. (length v.items ≡ 256) × ((k : ℕ) → place_at v.items k ≡ Unknown)) }
{
    let mut places = match Vec::with_capacity(alloc, 256) {
        Ok(places) => places,
        Err(_) => return Err(OutOfMemory),
    };
    for _i in 0..256usize {
        match places.push(Known::Unknown) {
            Ok(()) => {}
            Err(_) => return Err(OutOfMemory),
        }
    }
    Ok(places)
}

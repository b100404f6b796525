//! What is listed of the kept changes at a moment.

ghost use Rattle.std.specs.Prelude.{◌≡◌, not, filter, map, IfOk};
ghost use Rattle.dur_view.specs.Snapshot.{change_of};
ghost use Rattle.dur_instances.specs.Layout.{is_gone_in, told_of};
ghost use Rattle.dur_instances.specs.Places.{kept_in};

use crate::cells::Sorted;
use crate::changes::Change;
use crate::links::Place;
use crate::tallies::left_at;
use dur_base::{List, OutOfMemory, Ticks};
use dur_view::Change as Sent;
use std::alloc::Global;

// The change as it is sent: its sample carries the original.
fn sent(change: &Change) -> Result<Sent, OutOfMemory>
    ensures { IfOk result (λ c. c ≡ change_of (told_of change.now)) }
{
    let (original, number) = change
        .sample
        .original
        .unwrap_or((change.writer, change.number));
    let mut sample = change.sample.copy()?;
    sample.original = Some((original, number));
    Ok(Sent {
        original,
        number,
        writer: change.writer,
        sample,
    })
}

/// The changes that are neither expired nor purged at the moment, as they are sent.
pub fn entitled_over(
    alloc: Global,
    places: &[Place],
    cells: &Sorted,
    longest: u64,
    now: Ticks,
) -> Result<List<Sent>, OutOfMemory>
    ensures { IfOk result (λ l. l ≡ map (λ c. change_of (told_of c)) (filter (λ c. not (is_gone_in cells.now longest now c)) (kept_in places.now))) }
{
    let mut list = List::new(alloc);
    for place in places {
        match left_at(place, cells, longest, now) {
            Some(change) => list.push(sent(change)?)?,
            None => {}
        }
    }
    Ok(list)
}

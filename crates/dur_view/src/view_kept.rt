//! What a view says of a topic's kept changes.

ghost use Rattle.std.specs.Prelude.{◌≡◌, ◌<◌, ◌≤◌, ◌+◌, ◌^◌, ◌++◌, [], count_by, length, OnOk, IfOk};
ghost use Rattle.dur_view.specs.View.{is_made_of, key_place};
ghost use Rattle.dur_view.specs.Living.{made_living, all_made, counted_in, kept_one, kept_with, AreCounted};

use crate::living::Living;
use crate::view_lines::{count_of, counted, first_ordinal};
use crate::{Instance, Kept};
use dur_base::{Key, List, OutOfMemory};

// The place of the key's line.
fn place_of(lines: &[Instance], key: Key) -> usize
    ensures place { result ≡ key_place lines.now key }
    ensures bound { result ≤ length lines.now }
{
    let mut place = 0;
    for line in lines {
        if line.key == key {
            return place;
        }
        place += 1;
    }
    place
}

// What is said of a change of a topic whose lines begin at a place. These changes are kept before it.
fn kept_of(
    at: usize,
    depth: Option<u32>,
    lines: &[Instance],
    changes: &[Living],
    before: &[Living],
    change: &Living,
) -> Result<Kept, OutOfMemory>
    requires places { at + length lines.now < 2 ^ 64 }
    requires few { length before.now + 1 < 2 ^ 64 }
    requires ordinal { counted_in depth (all_made changes.now) change.now.sample.key change.now.ordinal (count_by (is_made_of change.now.sample.key) (all_made before.now) + 1) < 2 ^ 64 }
    ensures { IfOk result (λ k. k ≡ kept_one at depth lines.now (all_made changes.now) (all_made before.now) (made_living change.now)) }
{
    let key = change.sample.key;
    let first = first_ordinal(changes, key);
    let count = count_of(before, key) + 1;
    let sample = change.sample.copy()?;
    Ok(Kept {
        instance: (at + place_of(lines, key)) as u64,
        ordinal: counted(depth, first, change.ordinal, count),
        writer: change.writer,
        number: change.number,
        arrived: change.arrived,
        sample,
    })
}

/// Adds what is said of the changes without a fate of a topic whose lines begin at a place.
pub fn add_kept(
    list: &mut List<Kept>,
    at: usize,
    depth: Option<u32>,
    lines: &[Instance],
    changes: &[Living],
) -> Result<(), OutOfMemory>
    requires places { at + length lines.now < 2 ^ 64 }
    requires few { length changes.now < 2 ^ 64 }
    requires ordinals { AreCounted depth (all_made changes.now) }
    ensures { OnOk result (list.new ≡ list.old ++ kept_with at depth lines.now (all_made changes.now) [] (all_made changes.now)) }
{
    for (i, change) in changes.iter().enumerate() {
        list.push(kept_of(at, depth, lines, changes, &changes[..i], change)?)?;
    }
    Ok(())
}

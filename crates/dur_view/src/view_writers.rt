//! What a view says of its writers after a history.

ghost use Rattle.std.specs.Prelude.{◌≡◌, All, map, IfOk};
ghost use Rattle.dur_view.specs.History.{Start, ◌+>◌, HasShortNumber};
ghost use Rattle.dur_view.specs.View.{line_after};

use crate::effects::held_over;
use crate::whole_history::next_over;
use crate::{KeptWriter, View};
use dur_base::{Entry, List, OutOfMemory};
use std::alloc::Global;

fn writer_after(
    alloc: Global,
    start: &View,
    entries: &[Entry],
    line: &KeptWriter,
) -> Result<KeptWriter, OutOfMemory>
    requires { All HasShortNumber entries.now }
    ensures { IfOk result (λ w. w ≡ line_after (Start start.now +> entries.now) line.now) }
{
    let held = held_over(alloc, start, entries, line.guid)?;
    Ok(KeptWriter {
        guid: line.guid,
        topic: line.topic,
        next: next_over(start, entries, line.guid),
        held,
    })
}

/// The writers of the start after the entries.
pub fn writers_after(
    alloc: Global,
    start: &View,
    entries: &[Entry],
) -> Result<List<KeptWriter>, OutOfMemory>
    requires { All HasShortNumber entries.now }
    ensures { IfOk result (λ l. l ≡ map (line_after (Start start.now +> entries.now)) start.now.writers) }
{
    let mut lines = List::new(alloc);
    for line in start.writers.as_slice() {
        lines.push(writer_after(alloc, start, entries, line)?)?;
    }
    Ok(lines)
}

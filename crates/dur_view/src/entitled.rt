//! The entitled changes of a topic, over a start and the events after it.

ghost use Rattle.std.specs.Prelude.{◌≡◌, ◌<◌, length, IfOk};
ghost use Rattle.dur_view.specs.Past.{past_over};
ghost use Rattle.dur_view.specs.Fates.{told};
ghost use Rattle.dur_view.specs.Snapshot.{change_of, snap};
ghost use Rattle.dur_view.specs.Living.{made_living};

use crate::living::{Living, living_over};
use crate::{Change, TopicEvent, View};
use dur_base::{List, OutOfMemory, Ticks};
use std::alloc::Global;

// The change as it is sent: its sample carries the original.
fn sent(change: &Living) -> Result<Change, OutOfMemory>
    ensures { IfOk result (λ c. c ≡ change_of (told (made_living change.now))) }
{
    let (original, number) = change
        .sample
        .original
        .unwrap_or((change.writer, change.number));
    let mut sample = change.sample.copy()?;
    sample.original = Some((original, number));
    Ok(Change {
        original,
        number,
        writer: change.writer,
        sample,
    })
}

/// The entitled changes of the topic at a place of the start at a moment, after the events, in the order of effect.
pub fn entitled_over(
    alloc: Global,
    start: &View,
    topic: u32,
    events: &[TopicEvent],
    now: Ticks,
) -> Result<List<Change>, OutOfMemory>
    requires { topic < length start.now.topics }
    ensures { IfOk result (λ l. l ≡ snap (past_over start.now topic events.now) now) }
{
    let living = living_over(alloc, start, topic, events, now)?;
    let mut list = List::new(alloc);
    for change in living.as_slice() {
        list.push(sent(change)?)?;
    }
    Ok(list)
}

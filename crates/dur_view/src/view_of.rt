//! The view of a history at a moment.

ghost use Rattle.std.specs.Prelude.{◌≡◌, ◌<◌, ◌++◌, All, length, OnOk, IfOk};
ghost use Rattle.dur_view.specs.History.{Start, ◌+>◌, HasShortNumber};
ghost use Rattle.dur_view.specs.Past.{past};
ghost use Rattle.dur_view.specs.IsSound.{IsHistory};
ghost use Rattle.dur_view.specs.View.{lines_at, kept_of, view};

use crate::copies::copy_topics;
use crate::effects::effects_over;
use crate::fates::settings_of;
use crate::living::living_over;
use crate::view_kept::add_kept;
use crate::view_lines::add_lines;
use crate::view_writers::writers_after;
use crate::{Instance, Kept, View};
use dur_base::{Entry, List, OutOfMemory, Ticks};
use std::alloc::Global;

// Adds what is said of a topic's instances and of its kept changes.
fn add_topic(
    alloc: Global,
    instances: &mut List<Instance>,
    kept: &mut List<Kept>,
    start: &View,
    entries: &[Entry],
    topic: u32,
    moment: Ticks,
) -> Result<(), OutOfMemory>
    requires there { topic < length start.now.topics }
    requires history { IsHistory (Start start.now +> entries.now) }
    ensures instances { OnOk result (instances.new ≡ instances.old ++ lines_at topic (past topic (Start start.now +> entries.now)) moment) }
    ensures kept { OnOk result (kept.new ≡ kept.old ++ kept_of (length instances.old) topic (past topic (Start start.now +> entries.now)) moment) }
{
    let effects = effects_over(alloc, start, topic, entries)?;
    let events = effects.as_slice();
    let living = living_over(alloc, start, topic, events, moment)?;
    let changes = living.as_slice();
    let at = instances.len();
    add_lines(alloc, instances, start, topic, events, moment, changes)?;
    let depth = settings_of(start, topic).depth;
    add_kept(kept, at, depth, &instances.as_slice()[at..], changes)?;
    Ok(())
}

/// The view at a moment of a start and the entries after it.
pub fn view_over(
    alloc: Global,
    start: &View,
    entries: &[Entry],
    moment: Ticks,
) -> Result<View, OutOfMemory>
    requires history { IsHistory (Start start.now +> entries.now) }
    requires short { All HasShortNumber entries.now }
    ensures { IfOk result (λ v. v ≡ view (Start start.now +> entries.now) moment) }
{
    let topics = copy_topics(alloc, start.topics.as_slice())?;
    let writers = writers_after(alloc, start, entries)?;
    let mut instances = List::new(alloc);
    let mut kept = List::new(alloc);
    for topic in 0..start.topics.len() {
        add_topic(
            alloc,
            &mut instances,
            &mut kept,
            start,
            entries,
            topic as u32,
            moment,
        )?;
    }
    Ok(View {
        last: moment,
        topics,
        writers,
        instances,
        kept,
    })
}

//! What takes effect in a topic.

ghost use Rattle.std.specs.Prelude.{◌≡◌, ◌<◌, ◌≤◌, ◌+◌, [], length, map};
ghost use Rattle.dur_view.specs.Past.{Past, ◌▹◌, ◌▹▹◌};
ghost use Rattle.dur_view.specs.declared.change.TopicEvent.TheVariants.{Effect};
ghost use Rattle.dur_instances.specs.Stands.{Stands};
ghost use Rattle.dur_sets.specs.Tells.{takes_effect};

use crate::members::Members;
use dur_base::{Act, Guid, Number, Sample, Ticks};
use dur_instances::Instances;

/// A sample of the writer at a place takes effect.
pub fn bring(
    topic: &mut Instances,
    moment: Ticks,
    by: u32,
    writer: Guid,
    number: Number,
    arrived: Ticks,
    sample: Sample,
)
    requires room { 0 < topic.old.room }
    requires late { topic.old.last ≤ moment }
    ensures stands { (p : Past) → Stands topic.old p
        → Stands topic.new (p ▹ Effect moment by writer number arrived sample) }
    ensures last { topic.new.last ≡ moment }
    ensures room { topic.old.room ≤ topic.new.room + 1 }
{
    match sample.act {
        Act::Write | Act::Dispose | Act::DisposeUnregister => {
            topic.apply(moment, by, number, writer, arrived, sample);
        }
        Act::Unregister => topic.unregister(moment, by, sample.key),
        Act::Marker => topic.marker(moment),
    }
}

/// The members of a whole set take effect, in their order, and are held no longer.
pub fn bring_all(topic: &mut Instances, moment: Ticks, by: u32, writer: Guid, members: &mut Members)
    requires room { length members.old.items ≤ topic.old.room }
    requires late { topic.old.last ≤ moment }
    ensures stands { (p : Past) → Stands topic.old p
        → Stands topic.new (p ▹▹ map (takes_effect moment by writer) members.old.items) }
    ensures last { topic.new.last ≤ moment }
    ensures room { topic.old.room ≤ topic.new.room + length members.old.items }
    ensures none { members.new.items ≡ [] }
    ensures spare { members.old.room ≤ members.new.room }
{
    members.reverse();
    while let Some(member) = members.pop() {
        bring(
            topic,
            moment,
            by,
            writer,
            member.number,
            member.moment,
            member.sample,
        );
    }
}

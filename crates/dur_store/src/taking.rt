//! A sample is taken in: its writer's open set, and what takes effect in its topic.

ghost use Rattle.std.specs.Prelude.{◌≡◌, ◌+◌, ◌-◌, ◌<◌, ◌≤◌, ◌^◌, ◌++◌, length, map, OnOk, OnErr, IfErr, IsOk};
ghost use Rattle.dur_view.specs.declared.change.TopicEvent.TheVariants.{Effect as Event};
ghost use Rattle.dur_view.specs.Past.{Past, ◌▹▹◌};
ghost use Rattle.dur_instances.specs.Stands.{Stands};
ghost use Rattle.dur_sets.specs.Tells.{Tells, closed, left, if_now, if_held, takes_effect};
ghost use Rattle.dur_store.specs.Parts.{line_of};
ghost use Rattle.dur_store.specs.Taking.{IsWhole, TakesIn};

use crate::events::{bring, bring_all};
use crate::writer::Writer;
use dur_base::{Number, Sample, Ticks};
use dur_instances::Instances;
use dur_sets::{Before, Effect, Now};
use dur_view::Held;

// The members of the set that is closed, if one is, take effect: they are held no longer.
fn close(writer: &mut Writer, topic: &mut Instances, place: u32, moment: Ticks, before: &Before)
    requires room { length writer.old.held.items ≤ topic.old.room }
    requires late { topic.old.last ≤ moment }
    ensures line { line_of writer.new
        ≡ record (line_of writer.old) { held = writer.new.held.items } }
    ensures left { IsWhole before.now writer.old.held.items
        → writer.new.held.items ≡ left before.now writer.old.held.items }
    ensures spare { writer.old.held.room ≤ writer.new.held.room }
    ensures stands { IsWhole before.now writer.old.held.items → (p : Past) → Stands topic.old p
        → Stands topic.new (p ▹▹ map (takes_effect moment place writer.old.guid)
        (closed before.now writer.old.held.items)) }
    ensures last { topic.new.last ≤ moment }
    ensures room { topic.old.room ≤ topic.new.room + length writer.old.held.items }
{
    match before {
        Before::Nothing => {}
        Before::Close(_) => bring_all(topic, moment, place, writer.guid, &mut writer.held),
    }
}

// The sample itself takes effect, is held, or is dropped.
fn settle(
    writer: &mut Writer,
    topic: &mut Instances,
    place: u32,
    moment: Ticks,
    number: Number,
    now: &Now,
    sample: Sample,
)
    requires room { 0 < topic.old.room }
    requires spare { 0 < writer.old.held.room }
    requires late { topic.old.last ≤ moment }
    ensures line { line_of writer.new ≡ record (line_of writer.old) {
      held = writer.old.held.items
          ++ if_held now.now record { number = number; moment = moment; sample = sample };
    } }
    ensures stands { (p : Past) → Stands topic.old p
        → Stands topic.new (p ▹▹ if_now now.now
        (Event moment place writer.old.guid number moment sample)) }
    ensures last { topic.new.last ≤ moment }
    ensures room { topic.old.room ≤ topic.new.room + 1 }
{
    match now {
        Now::Now => bring(topic, moment, place, writer.guid, number, moment, sample),
        Now::Hold => writer.held.push(Held {
            number,
            moment,
            sample,
        }),
        Now::Drop => {}
    }
}

/// The writer at a place takes a sample in, of its next number: the members of a set that it closes take effect, and then
/// the sample itself takes effect, is held, or is dropped. On want of memory the sample is handed back, and nothing
/// changed but for more room.
pub fn take_in(
    writer: &mut Writer,
    topic: &mut Instances,
    place: u32,
    moment: Ticks,
    number: Number,
    effect: &Effect,
    sample: Sample,
) -> Result<(), Sample>
    requires late { topic.old.last ≤ moment }
    requires short { number < 2 ^ 63 - 1 }
    ensures ok { OnOk result (Tells writer.old.held.items number sample.set effect.entry.now
        → TakesIn place moment number sample writer.old writer.new topic.old topic.new) }
    ensures enough { length writer.old.held.items < topic.old.room → 0 < writer.old.held.room
        → IsOk result }
    ensures back { IfErr result (λ back. back ≡ sample) }
    ensures writer { OnErr result (line_of writer.new ≡ line_of writer.old) }
    ensures topic { OnErr result (topic.new ≡ record topic.old { room = topic.new.room }) }
    ensures spare { OnErr result (writer.old.held.room ≤ writer.new.held.room) }
    ensures room { OnErr result (topic.old.room ≤ topic.new.room) }
{
    match topic.reserve(writer.held.len() + 1) {
        Ok(()) => {}
        Err(_) => return Err(sample),
    }
    match writer.held.reserve(1) {
        Ok(()) => {}
        Err(_) => return Err(sample),
    }
    close(writer, topic, place, moment, &effect.before);
    settle(writer, topic, place, moment, number, &effect.now, sample);
    writer.next = number.next();
    Ok(())
}

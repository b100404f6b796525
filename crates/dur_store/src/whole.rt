//! The instances and kept changes of all topics, as a view tells them.

ghost use Rattle.std.specs.Prelude.{◌≡◌, ◌++◌, ◌+◌, ◌≤◌, All, length, map, OnOk, IfOk};
ghost use Rattle.dur_view.specs.History.{History};
ghost use Rattle.dur_store.specs.Parts.{moved, IsTopic, AreTopics, AreAll};

use dur_base::{List, OutOfMemory, Ticks};
use dur_instances::Instances;
use dur_view::{Instance, Kept};
use std::alloc::Global;

fn append_lines(all: &mut List<Instance>, lines: List<Instance>) -> Result<(), OutOfMemory>
    ensures { OnOk result (all.new ≡ all.old ++ lines) }
{
    for line in lines.into_vec() {
        all.push(line)?;
    }
    Ok(())
}

// Kept changes whose instances stand behind so many others.
fn append_kept(all: &mut List<Kept>, kept: List<Kept>, base: u64) -> Result<(), OutOfMemory>
    ensures { OnOk result (all.new ≡ all.old ++ map (moved base) kept) }
{
    for change in kept.into_vec() {
        all.push(Kept {
            instance: base.wrapping_add(change.instance),
            ordinal: change.ordinal,
            writer: change.writer,
            number: change.number,
            arrived: change.arrived,
            sample: change.sample,
        })?;
    }
    Ok(())
}

// What a view says of one topic more.
fn append_topic(
    alloc: Global,
    instances: &mut List<Instance>,
    kept: &mut List<Kept>,
    at: u32,
    topic: &Instances,
    moment: Ticks,
) -> Result<(), OutOfMemory>
    requires { topic.now.last ≤ moment }
    ensures { OnOk result ((h : History) → IsTopic at h topic.now → AreAll at h moment instances.old kept.old → AreAll (at + 1) h moment instances.new kept.new) }
{
    let base = instances.len() as u64;
    append_lines(instances, topic.instances(alloc, at, moment)?)?;
    append_kept(kept, topic.kept(alloc, moment)?, base)?;
    let _bound = instances.len();
    Ok(())
}

/// What a view says at a moment of the instances and kept changes of all topics.
pub fn parts_of(
    alloc: Global,
    topics: &[Instances],
    moment: Ticks,
) -> Result<(List<Instance>, List<Kept>), OutOfMemory>
    requires early { All (λ x. x.last ≤ moment) topics.now }
    requires few { length topics.now ≤ 1024 }
    ensures { IfOk result (λ p. (h : History) → AreTopics topics.now h → AreAll (length topics.now) h moment p.0 p.1) }
{
    let mut instances = List::new(alloc);
    let mut kept = List::new(alloc);
    for (at, topic) in topics.iter().enumerate() {
        append_topic(alloc, &mut instances, &mut kept, at as u32, topic, moment)?;
    }
    Ok((instances, kept))
}

//! Topics' lines in a draft.

ghost use Rattle.std.specs.Prelude.{◌≡◌, ◌<◌, ◌+◌, ◌⊎◌, ◌++◌, ◌∷◌, [], length, None, OnOk, OnErr, IfOk, IfErr, Ok, Err};
ghost use Rattle.dur_qos.specs.Plan.{add_topic, is_above, place_of, total};
ghost use Rattle.dur_qos.specs.Index.{IsIndexed};

use crate::draft::Draft;
use crate::index::{note_name, place};
use crate::{PlanKind, Topic};
use std::alloc::Global;

/// The most topics of a plan.
const MOST: usize = 1024;

// Whether the depth is above the limit, where both are there.
fn above(depth: Option<u32>, limit: Option<u32>) -> bool
    ensures { result ≡ is_above depth limit }
{
    match depth {
        Some(depth) => match limit {
            Some(limit) => depth > limit,
            None => false,
        },
        None => false,
    }
}

// The place that the topic gets, or its first fault.
#[tactic(auto, unfolding(crate::specs::Plan::add_topic))]
fn topic_place(draft: &Draft, topic: &Topic) -> Result<u32, PlanKind>
    requires { IsIndexed draft.now }
    ensures ok { IfOk result (λ place. (place ≡ length draft.now.plan.topics) × (place < 1024) × (place_of topic.now.name draft.now.plan.topics ≡ None) × (add_topic draft.now.plan topic.now ≡ Ok (record draft.now.plan { topics = draft.now.plan.topics ++ topic.now ∷ [] }))) }
    ensures err { IfErr result (λ k. add_topic draft.now.plan topic.now ≡ Err k) }
{
    let count = draft.plan.topics.len();
    if place(&draft.names, topic.name.as_slice()).is_some() {
        return Err(PlanKind::Twice);
    }
    if above(topic.depth, topic.max_per_instance) {
        return Err(PlanKind::DepthAboveLimit);
    }
    if count >= MOST {
        return Err(PlanKind::TooMany);
    }
    Ok(count as u32)
}

/// Adds a topic's line.
pub fn take_topic(alloc: Global, draft: &mut Draft, topic: Topic) -> Result<(), PlanKind>
    requires { IsIndexed draft.old }
    ensures ok { OnOk result (add_topic draft.old.plan topic ≡ Ok draft.new.plan) }
    ensures indexed { OnOk result (IsIndexed draft.new) }
    ensures more { OnOk result (total draft.new.plan ≡ total draft.old.plan + 1) }
    ensures same { OnErr result (draft.new.plan ≡ draft.old.plan) }
    ensures err { IfErr result (λ k. (k ≡ PlanKind.OutOfMemory) ⊎ (add_topic draft.old.plan topic ≡ Err k)) }
{
    let place = match topic_place(draft, &topic) {
        Ok(place) => place,
        Err(kind) => return Err(kind),
    };
    match note_name(alloc, &mut draft.names, topic.name.as_slice(), place) {
        Ok(()) => {}
        Err(_) => return Err(PlanKind::OutOfMemory),
    }
    match draft.plan.topics.push(topic) {
        Ok(()) => Ok(()),
        Err(_) => Err(PlanKind::OutOfMemory),
    }
}

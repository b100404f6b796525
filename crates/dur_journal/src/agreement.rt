//! Whether a plan and a view that was kept agree.

ghost use Rattle.std.specs.Prelude.{◌≡◌, ◌↔◌, IsTrue, IfSome, IfNone, All};
ghost use Rattle.dur_view.specs.IsSound.{IsSound};
ghost use Rattle.dur_journal.specs.Histories.{Agreeing, Differing, Has, IsElsewhere, IsMoved, IsStrange, name_at};

use dur_base::Name;
use dur_qos::{Plan, Topic};
use dur_view::{KeptWriter, View};

fn same_limits(a: &Topic, b: &Topic) -> bool
    ensures { IsTrue result ↔ ((a.now.depth ≡ b.now.depth) × (a.now.max_samples ≡ b.now.max_samples)
        × (a.now.max_instances ≡ b.now.max_instances) × (a.now.max_per_instance ≡ b.now.max_per_instance)
        × (a.now.max_held ≡ b.now.max_held) × (a.now.delay ≡ b.now.delay)) }
{
    a.depth == b.depth
        && a.max_samples == b.max_samples
        && a.max_instances == b.max_instances
        && a.max_per_instance == b.max_per_instance
        && a.max_held == b.max_held
        && a.delay == b.delay
}

/// Whether two topics have one name and equal settings.
fn same_topic(a: &Topic, b: &Topic) -> bool
    ensures { IsTrue result ↔ (a.now ≡ b.now) }
{
    a.name.as_slice() == b.name.as_slice()
        && a.kind == b.kind
        && a.shape == b.shape
        && same_limits(a, b)
}

/// Whether the plan has this topic.
#[tactic(auto, unfolding(crate::specs::Histories::Has))]
fn has_topic(plan: &Plan, topic: &Topic) -> bool
    ensures { IsTrue result ↔ Has plan.now topic.now }
{
    for other in plan.topics.as_slice() {
        if same_topic(other, topic) {
            return true;
        }
    }
    false
}

/// The place of the first topic of the view that the plan does not have.
fn strange_topic(plan: &Plan, view: &View) -> Option<usize>
    ensures strange { IfSome result (IsStrange plan.now view.now) }
    ensures none { IfNone result (All (Has plan.now) view.now.topics) }
{
    for (place, topic) in view.topics.as_slice().iter().enumerate() {
        if !has_topic(plan, topic) {
            return Some(place);
        }
    }
    None
}

/// The octets of the name of the topic at a place.
fn name_at(topics: &[Topic], place: u32) -> &[u8]
    ensures { result.now ≡ name_at topics.now place }
{
    match topics.get(place as usize) {
        Some(topic) => topic.name.as_slice(),
        None => &[],
    }
}

/// Whether the plan declares the writer under another topic than the view.
fn is_elsewhere(plan: &Plan, view: &View, writer: &KeptWriter) -> bool
    ensures { IsTrue result ↔ IsElsewhere plan.now view.now writer.now }
{
    let name = name_at(view.topics.as_slice(), writer.topic);
    for line in plan.writers.as_slice() {
        if line.guid == writer.guid && name_at(plan.topics.as_slice(), line.topic) != name {
            return true;
        }
    }
    false
}

/// The place of the first writer of the view that the plan declares under another topic.
fn moved_writer(plan: &Plan, view: &View) -> Option<usize>
    ensures moved { IfSome result (IsMoved plan.now view.now) }
    ensures none { IfNone result (All (λ w. IsElsewhere plan.now view.now w → ⊥) view.now.writers) }
{
    for (place, writer) in view.writers.as_slice().iter().enumerate() {
        if is_elsewhere(plan, view, writer) {
            return Some(place);
        }
    }
    None
}

/// The topic of a view by which a plan differs from it, if it does.
pub(crate) fn differing(plan: &Plan, view: &View) -> Option<Name>
    requires { IsSound view.now }
    ensures differs { IfSome result (Differing plan.now view.now) }
    ensures agrees { IfNone result (Agreeing plan.now view.now) }
{
    let topics = view.topics.as_slice();
    if let Some(place) = strange_topic(plan, view) {
        return Some(topics[place].name.copy());
    }
    match moved_writer(plan, view) {
        Some(place) => {
            let writer = &view.writers.as_slice()[place];
            Some(topics[writer.topic as usize].name.copy())
        }
        None => None,
    }
}

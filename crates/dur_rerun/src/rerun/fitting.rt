//! Whether a hub over a plan may be opened with a view that a journal kept.

ghost use Rattle.std.specs.Prelude.{◌≡◌, ◌<◌, ◌≤◌, ◌↔◌, IsTrue, All, length};
ghost use Rattle.std.specs.Option.{option_copied};
ghost use Rattle.dur_qos.specs.Good.{GoodPlan};
ghost use Rattle.dur_view.specs.IsSound.{IsSound};
ghost use Rattle.dur_view.specs.Words.{writer_line};
ghost use Rattle.dur_journal.specs.Histories.{Has};
ghost use Rattle.dur_hub.specs.Openings.{HasOneTopic, MayOpen};

use dur_base::Guid;
use dur_qos::{Plan, Topic, WriterLine};
use dur_view::{KeptWriter, View};

/// How many writers a view has at most.
const MOST_WRITERS: usize = 67_108_864;

fn same_limits(a: &Topic, b: &Topic) -> bool
    ensures { IsTrue result ↔ ((a.now.depth ≡ b.now.depth) × (a.now.max_samples ≡ b.now.max_samples)
        × (a.now.max_instances ≡ b.now.max_instances) × (a.now.max_per_instance ≡ b.now.max_per_instance)
        × (a.now.max_held ≡ b.now.max_held) × (a.now.delay ≡ b.now.delay)) }
{
    a.depth == b.depth
        && a.max_samples == b.max_samples
        && a.max_instances == b.max_instances
        && a.max_per_instance == b.max_per_instance
        && a.max_held == b.max_held
        && a.delay == b.delay
}

/// Whether two topics have one name and equal settings.
fn same_topic(a: &Topic, b: &Topic) -> bool
    ensures { IsTrue result ↔ (a.now ≡ b.now) }
{
    a.name.as_slice() == b.name.as_slice()
        && a.kind == b.kind
        && a.shape == b.shape
        && same_limits(a, b)
}

#[tactic(auto, unfolding(dur_journal::specs::Histories::Has))]
fn has_topic(plan: &Plan, topic: &Topic) -> bool
    ensures { IsTrue result → Has plan.now topic.now }
{
    for other in plan.topics.as_slice() {
        if same_topic(other, topic) {
            return true;
        }
    }
    false
}

/// Whether the plan has each topic of the view.
fn has_topics(plan: &Plan, view: &View) -> bool
    ensures { IsTrue result → All (Has plan.now) view.now.topics }
{
    for topic in view.topics.as_slice() {
        if !has_topic(plan, topic) {
            return false;
        }
    }
    true
}

/// The line of a writer, if the view keeps it.
fn line_of<'a>(view: &'a View, writer: Guid) -> Option<&'a KeptWriter>
    ensures { option_copied result ≡ writer_line view.now.writers writer }
{
    for line in view.writers.as_slice() {
        if line.guid == writer {
            return Some(line);
        }
    }
    None
}

/// Whether a writer that the plan declares has the same topic there as in the view, if that keeps it.
fn has_one_topic(plan: &Plan, view: &View, writer: &WriterLine) -> bool
    ensures { IsTrue result → HasOneTopic plan.now view.now writer.now }
{
    let Some(line) = line_of(view, writer.guid) else {
        return true;
    };
    let Some(kept) = view.topics.as_slice().get(line.topic as usize) else {
        return false;
    };
    let Some(declared) = plan.topics.as_slice().get(writer.topic as usize) else {
        return false;
    };
    same_topic(kept, declared)
}

fn have_one_topic(plan: &Plan, view: &View) -> bool
    ensures { IsTrue result → All (HasOneTopic plan.now view.now) plan.now.writers }
{
    for writer in plan.writers.as_slice() {
        if !has_one_topic(plan, view, writer) {
            return false;
        }
    }
    true
}

/// Whether a hub over the plan may be opened with the view. Each view that an opening over the plan hands out is such; where
/// the disk tells nothing of what it keeps nobody could know that.
#[tactic(auto, using(crate::proofs::Fitting::opens_so))]
pub(crate) fn may_open(plan: &Plan, view: &View) -> bool
    requires plan { GoodPlan plan.now }
    requires view { IsSound view.now }
    ensures { IsTrue result → MayOpen plan.now view.now }
{
    if view.writers.len() + plan.writers.len() > MOST_WRITERS {
        return false;
    }
    has_topics(plan, view) && have_one_topic(plan, view)
}

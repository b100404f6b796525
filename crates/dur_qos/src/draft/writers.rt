//! Writers' lines in a draft.

ghost use Rattle.std.specs.Prelude.{◌≡◌, ◌<◌, ◌+◌, ◌⊎◌, ◌++◌, ◌∷◌, [], ℕ, length, OnOk, OnErr, IfOk, IfErr, Ok, Err};
ghost use Rattle.std.specs.declared.option.Option.{Option};
ghost use Rattle.dur_qos.specs.Plan.{add_writer, total};
ghost use Rattle.dur_qos.specs.Index.{IsIndexed};

use crate::draft::Draft;
use crate::index::{is_noted, note_guid, place};
use crate::{PlanKind, WriterLine};
use dur_base::{Guid, Name};

/// The most writers of a plan.
const MOST: usize = 4096;

// The place of the writer's topic, or the line's first fault.
#[tactic(auto, unfolding(crate::specs::Plan::add_writer))]
fn writer_topic(draft: &Draft, guid: Guid, topic: &[u8]) -> Result<u32, PlanKind>
    requires { IsIndexed draft.now }
    ensures room { OnOk result (length draft.now.plan.writers < 4096) }
    ensures ok { (lease : Option ℕ) → IfOk result (λ i. add_writer draft.now.plan guid topic.now lease ≡ Ok (record draft.now.plan { writers = draft.now.plan.writers ++ record { guid = guid; topic = i; lease = lease } ∷ [] })) }
    ensures err { (lease : Option ℕ) → IfErr result (λ k. add_writer draft.now.plan guid topic.now lease ≡ Err k) }
{
    if is_noted(&draft.writers, guid.0) {
        return Err(PlanKind::Twice);
    }
    match place(&draft.names, topic) {
        None => Err(PlanKind::UnknownTopic),
        Some(place) => {
            if draft.plan.writers.len() >= MOST {
                return Err(PlanKind::TooMany);
            }
            Ok(place)
        }
    }
}

/// Adds a writer's line.
pub fn take_writer(
    draft: &mut Draft,
    guid: Guid,
    topic: Name,
    lease: Option<u32>,
) -> Result<(), PlanKind>
    requires { IsIndexed draft.old }
    ensures ok { OnOk result (add_writer draft.old.plan guid topic lease ≡ Ok draft.new.plan) }
    ensures indexed { OnOk result (IsIndexed draft.new) }
    ensures more { OnOk result (total draft.new.plan ≡ total draft.old.plan + 1) }
    ensures same { OnErr result (draft.new.plan ≡ draft.old.plan) }
    ensures err { IfErr result (λ k. (k ≡ PlanKind.OutOfMemory) ⊎ (add_writer draft.old.plan guid topic lease ≡ Err k)) }
{
    let topic = match writer_topic(draft, guid, topic.as_slice()) {
        Ok(topic) => topic,
        Err(kind) => return Err(kind),
    };
    match note_guid(&mut draft.writers, guid.0) {
        Ok(()) => {}
        Err(_) => return Err(PlanKind::OutOfMemory),
    }
    match draft.plan.writers.push(WriterLine { guid, topic, lease }) {
        Ok(()) => Ok(()),
        Err(_) => Err(PlanKind::OutOfMemory),
    }
}

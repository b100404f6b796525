//! Readers' lines in a draft.

ghost use Rattle.std.specs.Prelude.{◌≡◌, ◌<◌, ◌+◌, ◌⊎◌, ◌++◌, ◌∷◌, [], length, OnOk, OnErr, IfOk, IfErr, Ok, Err};
ghost use Rattle.dur_base.specs.declared.kinds.Durability.{Durability};
ghost use Rattle.dur_qos.specs.Plan.{add_reader, total};
ghost use Rattle.dur_qos.specs.Index.{IsIndexed};

use crate::draft::Draft;
use crate::index::{is_noted, note_guid, place};
use crate::{PlanKind, ReaderLine};
use dur_base::{Durability, Guid, Name};

/// The most readers of a plan.
const MOST: usize = 1024;

// The place of the reader's topic, or the line's first fault.
#[tactic(auto, unfolding(crate::specs::Plan::add_reader))]
fn reader_topic(draft: &Draft, guid: Guid, topic: &[u8]) -> Result<u32, PlanKind>
    requires { IsIndexed draft.now }
    ensures room { OnOk result (length draft.now.plan.readers < 1024) }
    ensures ok { (kind : Durability) → IfOk result (λ i. add_reader draft.now.plan guid topic.now kind ≡ Ok (record draft.now.plan { readers = draft.now.plan.readers ++ record { guid = guid; topic = i; kind = kind } ∷ [] })) }
    ensures err { (kind : Durability) → IfErr result (λ k. add_reader draft.now.plan guid topic.now kind ≡ Err k) }
{
    if is_noted(&draft.readers, guid.0) {
        return Err(PlanKind::Twice);
    }
    match place(&draft.names, topic) {
        None => Err(PlanKind::UnknownTopic),
        Some(place) => {
            if draft.plan.readers.len() >= MOST {
                return Err(PlanKind::TooMany);
            }
            Ok(place)
        }
    }
}

/// Adds a reader's line.
pub fn take_reader(
    draft: &mut Draft,
    guid: Guid,
    topic: Name,
    kind: Durability,
) -> Result<(), PlanKind>
    requires { IsIndexed draft.old }
    ensures ok { OnOk result (add_reader draft.old.plan guid topic kind ≡ Ok draft.new.plan) }
    ensures indexed { OnOk result (IsIndexed draft.new) }
    ensures more { OnOk result (total draft.new.plan ≡ total draft.old.plan + 1) }
    ensures same { OnErr result (draft.new.plan ≡ draft.old.plan) }
    ensures err { IfErr result (λ k. (k ≡ PlanKind.OutOfMemory) ⊎ (add_reader draft.old.plan guid topic kind ≡ Err k)) }
{
    let topic = match reader_topic(draft, guid, topic.as_slice()) {
        Ok(topic) => topic,
        Err(kind) => return Err(kind),
    };
    match note_guid(&mut draft.readers, guid.0) {
        Ok(()) => {}
        Err(_) => return Err(PlanKind::OutOfMemory),
    }
    match draft.plan.readers.push(ReaderLine { guid, topic, kind }) {
        Ok(()) => Ok(()),
        Err(_) => Err(PlanKind::OutOfMemory),
    }
}

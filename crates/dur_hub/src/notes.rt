//! What a `receive` notes for its answer, and of leases.

ghost use Rattle.std.specs.Prelude.{◌≡◌, ℕ, ◌++◌, ◌<◌, OnOk, vec_len, vec_capacity};
ghost use Rattle.dur_hub.specs.Handed.{ack_of};
ghost use Rattle.dur_hub.specs.Hearings.{refusal_at};

use crate::{Ack, End, Refusal};
use dur_base::{Guid, OutOfMemory};

/// The acknowledgements and the refusals so far, and up to when no lease ends.
#[derive(Drop)]
pub struct Notes {
    pub acks: Vec<Ack>,
    pub refused: Vec<Refusal>,
    pub due: Option<u128>,
}

/// Makes room for one acknowledgement and one refusal.
pub fn make_room(notes: &mut Notes) -> Result<(), OutOfMemory>
    ensures acks { notes.new.acks.items ≡ notes.old.acks.items }
    ensures refused { notes.new.refused.items ≡ notes.old.refused.items }
    ensures due { notes.new.due ≡ notes.old.due }
    ensures room { OnOk result (vec_len notes.new.acks < vec_capacity notes.new.acks) }
    ensures space { OnOk result (vec_len notes.new.refused < vec_capacity notes.new.refused) }
{
    notes.acks.reserve(1)?;
    notes.refused.reserve(1)?;
    Ok(())
}

/// Notes how a fact of the writer was handled. There is room for it.
pub fn note(notes: &mut Notes, writer: Guid, end: End, ack: Option<Ack>)
    requires room { vec_len notes.old.acks < vec_capacity notes.old.acks }
    requires space { vec_len notes.old.refused < vec_capacity notes.old.refused }
    ensures acks { notes.new.acks.items ≡ notes.old.acks.items ++ ack_of ack }
    ensures refused { notes.new.refused.items ≡ notes.old.refused.items ++ refusal_at writer end }
    ensures due { notes.new.due ≡ notes.old.due }
{
    if let End::Refuses { number, limit } = end {
        match notes.refused.push(Refusal {
            writer,
            number,
            limit,
        }) {
            Ok(()) => {}
            Err(_) => unreachable!(),
        }
    }
    if let Some(ack) = ack {
        match notes.acks.push(ack) {
            Ok(()) => {}
            Err(_) => unreachable!(),
        }
    }
}

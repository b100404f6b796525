//! The ACKNACKs of a datagram.

ghost use Rattle.std.specs.Prelude.{◌≡◌, ℕ, ◌<◌, ◌++◌, length, IfOk, OnOk, IsTrue, IsFalse};
ghost use Rattle.dur_qos.specs.Good.{GoodPlan};
ghost use Rattle.dur_rerun.specs.Rerun.Replies.{IsFor, nack_of, nacks};

use dur_base::{Bits, EntityId, Fact, Guid, List, OutOfMemory};
use dur_qos::{Plan, replay_id};
use std::alloc::Global;

/// An ACKNACK of a late reader (DDSI-RTPS 8.3.8.1).
#[derive(Clone, Copy, Debug, PartialEq, Eq, Drop)]
pub struct Nack {
    /// Who asks.
    pub reader: Guid,
    /// Whom it asks: a writer of the service.
    pub writer: EntityId,
    /// What it asks for.
    pub set: Bits,
}

/// Adds what a fact tells, if it is an ACKNACK.
fn add(some: &mut Vec<Nack>, fact: &Fact) -> Result<(), OutOfMemory>
    ensures { OnOk result (some.new.items ≡ some.old.items ++ nack_of fact.now) }
{
    if let Fact::Nack {
        reader,
        writer,
        set,
        ..
    } = fact
    {
        some.push(Nack {
            reader: *reader,
            writer: *writer,
            set: *set,
        })?;
    }
    Ok(())
}

/// The ACKNACKs among facts, in their order.
pub fn nacks_of(alloc: Global, facts: &List<Fact>) -> Result<Vec<Nack>, OutOfMemory>
    ensures { IfOk result (λ some. some.items ≡ nacks facts.now) }
{
    let mut some = Vec::new(alloc);
    let mut rest = facts.as_slice();
    while let [fact, later @ ..] = rest {
        add(&mut some, fact)?;
        rest = later;
    }
    Ok(some)
}

/// Whether an ACKNACK comes from the late reader at a place of the plan, and is for the writer that replays to it.
fn is_for(plan: &Plan, nack: &Nack, at: usize) -> bool
    requires good { GoodPlan plan.now }
    requires place { at < length plan.now.readers }
    ensures yes { IsTrue result → IsFor plan.now nack.now at }
    ensures no { IsFalse result → IsFor plan.now nack.now at → ⊥ }
{
    let line = plan.readers.as_slice()[at];
    let id = replay_id(plan, at as u32);
    line.guid == nack.reader && id == nack.writer
}

/// Whether an ACKNACK comes from a late reader of the plan, and is for the writer that replays to it.
pub fn is_for_replay(plan: &Plan, nack: &Nack) -> bool
    requires { GoodPlan plan.now }
    ensures some { IsTrue result → (at : ℕ) × IsFor plan.now nack.now at }
    ensures none { IsFalse result → (at : ℕ) → IsFor plan.now nack.now at → ⊥ }
{
    for at in 0..plan.readers.len() {
        if is_for(plan, nack, at) {
            return true;
        }
    }
    false
}

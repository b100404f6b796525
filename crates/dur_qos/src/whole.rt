//! The text of a plan as a whole.

ghost use Rattle.std.specs.Prelude.{◌≡◌, ◌⊎◌, ℕ, IfOk, IfErr};
ghost use Rattle.std.specs.List.{flat_map};
ghost use Rattle.dur_qos.specs.declared.fault.PlanFault.{PlanFault};
ghost use Rattle.dur_qos.specs.declared.plan.Plan.{Plan};
ghost use Rattle.dur_qos.specs.Good.{GoodPlan};
ghost use Rattle.dur_qos.specs.Text.{PlanText, IsFault};

use crate::{Plan, PlanFault, PlanKind, PlanReader};
use std::alloc::Global;

/// The plan whose text comes in these pieces. What follows the line feed of `end` is not looked at.
pub fn read_plan(alloc: Global, pieces: &[Vec<u8>]) -> Result<Plan, PlanFault>
    // What is read is the plan of the text, and no other plan is.
    ensures plan { IfOk result (λ p. (n : ℕ) × PlanText (flat_map (λ x. x.items) pieces.now) p n) }
    ensures only { IfOk result (λ p. (q : Plan) (n : ℕ) → PlanText (flat_map (λ x. x.items) pieces.now) q n → p ≡ q) }
    ensures good { IfOk result (λ p. GoodPlan p) }
    // The text of a plan is read, unless memory runs out.
    ensures read { (q : Plan) (n : ℕ) → PlanText (flat_map (λ x. x.items) pieces.now) q n → IfErr result (λ e. e.kind ≡ PlanKind.OutOfMemory) }
    // A fault that is told is what is wrong with the text, and nothing else is.
    ensures fault { IfErr result (λ e. (e.kind ≡ PlanKind.OutOfMemory) ⊎ IsFault (flat_map (λ x. x.items) pieces.now) e) }
    ensures told { (f : PlanFault) → IsFault (flat_map (λ x. x.items) pieces.now) f → IfErr result (λ e. (e.kind ≡ PlanKind.OutOfMemory) ⊎ (e ≡ f)) }
    ensures sound { (f : PlanFault) → IsFault (flat_map (λ x. x.items) pieces.now) f → IfOk result (λ p. ⊥) }
{
    let mut reader = PlanReader::new(alloc);
    let mut rest = pieces;
    while let [piece, later @ ..] = rest {
        match reader.push(piece.as_slice()) {
            Ok(_) => {}
            Err(fault) => return Err(fault),
        }
        rest = later;
    }
    reader.finish()
}

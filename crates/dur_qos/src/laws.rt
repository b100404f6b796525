//! What the reading of a plan's text comes to.

ghost use Rattle.std.specs.Prelude.{◌≡◌, ◌++◌, ◌+◌, ◌⊎◌, [], ℕ, List, Some, None, true, false, length};
ghost use Rattle.dur_qos.specs.declared.fault.PlanFault.{PlanFault};
ghost use Rattle.dur_qos.specs.declared.plan.Plan.{Plan};
ghost use Rattle.dur_qos.specs.Good.{GoodPlan};
ghost use Rattle.dur_qos.specs.Reading.{Reading, start, after, taken};
ghost use Rattle.dur_qos.specs.Text.{PlanText, BreaksAt, Unfinished};

/// Over pieces a reading is one reading. Each text is the text of a plan, breaks at a line, or is unfinished; the first
/// is read, up to the line feed of `end` and no octet further, and its plan is good; the first break is told; and an
/// unfinished text leaves the reader at the line in which it ends.
pub fn readings()
    ensures pieces { (r : Reading) (xs ys : List ℕ) → after r (xs ++ ys) ≡ after (after r xs) ys }
    ensures octets { (r : Reading) (xs ys : List ℕ) → taken r (xs ++ ys) ≡ taken r xs + taken (after r xs) ys }
    ensures read { (bytes : List ℕ) (plan : Plan) (n : ℕ) (t : PlanText bytes plan n) → after start bytes ≡ record { plan = Some plan; part = []; line = t.count + 1 + 1; ended = true; fault = None } }
    ensures no_further { (bytes : List ℕ) (plan : Plan) (n : ℕ) → PlanText bytes plan n → taken start bytes ≡ n }
    ensures good { (bytes : List ℕ) (plan : Plan) (n : ℕ) → PlanText bytes plan n → GoodPlan plan }
    ensures told { (bytes : List ℕ) (fault : PlanFault) → BreaksAt bytes fault → (after start bytes).fault ≡ Some fault }
    ensures unfinished { (bytes : List ℕ) (line : ℕ) → Unfinished bytes line → ((after start bytes).fault ≡ None) × ((after start bytes).ended ≡ false) × ((after start bytes).line ≡ line) × (taken start bytes ≡ length bytes) }
    ensures each { (bytes : List ℕ) → ((plan : Plan) × (n : ℕ) × PlanText bytes plan n) ⊎ (((fault : PlanFault) × BreaksAt bytes fault) ⊎ ((line : ℕ) × Unfinished bytes line)) }
{}

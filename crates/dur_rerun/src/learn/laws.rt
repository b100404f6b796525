//! The law about `learn`: a public function whose contract is the law, and which does nothing.

ghost use Rattle.std.specs.Prelude.{ℕ};
ghost use Rattle.dur_rerun.specs.Command.{IsFunction};
ghost use Rattle.dur_rerun.specs.Learn.Answer.{LearnAnswers};

/// An input has one answer of `learn` at most: one plan, which is good or passes a limit, a break of its capture or a
/// break of its plan.
pub fn one_answer()
    ensures { (at epoch : ℕ) → IsFunction (LearnAnswers at epoch) }
{}

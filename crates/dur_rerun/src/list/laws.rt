//! The law about `list`: a public function whose contract is the law, and which does nothing.

ghost use Rattle.std.specs.Prelude.{ℕ};
ghost use Rattle.dur_rerun.specs.Command.{IsFunction};
ghost use Rattle.dur_rerun.specs.List.Answer.{ListAnswers};

/// An input has one answer of `list` at most: one listing, a break of its capture or a break of its plan.
pub fn one_answer()
    ensures { (at epoch : ℕ) → IsFunction (ListAnswers at epoch) }
{}

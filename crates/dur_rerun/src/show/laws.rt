//! The law about `show`: a public function whose contract is the law, and which does nothing.

ghost use Rattle.std.specs.Prelude.{ℕ};
ghost use Rattle.dur_rerun.specs.Command.{IsFunction};
ghost use Rattle.dur_rerun.specs.Show.Answer.{ShowAnswers};

/// An input has one answer of `show` at most: the lines of all records, those before a break of its capture,
/// or a break of its plan.
pub fn one_answer()
    ensures { (epoch : ℕ) → IsFunction (ShowAnswers epoch) }
{}

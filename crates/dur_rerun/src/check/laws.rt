//! The law about `check`: a public function whose contract is the law, and which does nothing.

ghost use Rattle.std.specs.Prelude.{◌≡◌, ℕ, List};
ghost use Rattle.dur_outside.specs.World.{Image};
ghost use Rattle.dur_rerun.specs.Command.{IsTold};
ghost use Rattle.dur_rerun.specs.Check.Answer.{CheckAnswers};
ghost use Rattle.dur_rerun.specs.declared.status.Status.{Status};

/// Two files have one answer of `check`: one text, and one status.
pub fn one_answer()
    ensures { (files : Image) (t u : List ℕ) (s r : Status) → IsTold s → IsTold r
        → CheckAnswers files t s → CheckAnswers files u r → (t ≡ u) × (s ≡ r) }
{}

//! What holds of every story, whatever a proxy does.

ghost use Rattle.std.specs.Prelude.{◌≡◌, ℕ};
ghost use Rattle.rel_reader.specs.Stories.{Story};
ghost use Rattle.rel_reader.specs.Skips.{IsSkip};

/// A story has one skip at most. So the one that `ready` answers is the one that `handled` passes.
pub fn skips_have_one_end()
    ensures { (h : Story) (a b : ℕ) → IsSkip h a → IsSkip h b → a ≡ b }
{}

//! What the words of the contracts come to.

ghost use Rattle.std.specs.Prelude.{◌≡◌, ◌↔◌, ℕ, ◌-◌, List, length, Some, Ok, Err};
ghost use Rattle.dur_outside.specs.declared.values.FileId.{FileId};
ghost use Rattle.dur_outside.specs.World.{Image};
ghost use Rattle.dur_view.specs.History.{History};
ghost use Rattle.dur_qos.specs.declared.plan.Plan.{Plan};
ghost use Rattle.dur_view.specs.declared.data.View.{View};
ghost use Rattle.dur_base.specs.declared.entry.Entry.{Entry};
ghost use Rattle.dur_record.specs.declared.version.Version.{Version};
ghost use Rattle.dur_record.specs.Grammar.{Break};
ghost use Rattle.dur_record.specs.Entries.{BreaksEntries, SpellsEntries};
ghost use Rattle.dur_record.specs.Views.{BreaksView, SpellsView};
ghost use Rattle.dur_journal.specs.Texts.{entries_in, view_in};
ghost use Rattle.dur_journal.specs.File.{FileText, Stored, TextBreaks};
ghost use Rattle.dur_journal.specs.Kept.{IsBroken, Kept, Keeps};

/// The octets of an open file spell one text or break at one place, and never both. The files of a disk keep
/// one state or have one first break, and never both.
pub fn one_reading()
    ensures one_text { (x : List ℕ) (g n : ℕ) (v u : View) (rs ss : List Stored) (h k : History) → FileText x g v rs h → FileText x n u ss k
        → (g ≡ n) × (v ≡ u) × (rs ≡ ss) × (h ≡ k) }
    ensures never_both { (x : List ℕ) (g : ℕ) (v : View) (rs : List Stored) (h : History) (at : ℕ) → FileText x g v rs h → TextBreaks x at → ⊥ }
    ensures one_place { (x : List ℕ) (a b : ℕ) → TextBreaks x a → TextBreaks x b → a ≡ b }
    ensures one_state { (plan : Plan) (c : Image) (k j : Kept) → Keeps plan c k → Keeps plan c j → k ≡ j }
    ensures kept_or_broken { (plan : Plan) (c : Image) (k : Kept) (file : FileId) (at : ℕ) → Keeps plan c k → IsBroken c file at → ⊥ }
    ensures one_break { (c : Image) (file other : FileId) (a b : ℕ) → IsBroken c file a → IsBroken c other b → (file ≡ other) × (a ≡ b) }
{}

/// What a base and a body are read as is what the grammar of the texts says of them, and they break where it
/// says. A body is read after the history that stands before it.
pub fn texts_are_read_by_the_grammar()
    ensures base { (version : Version) (x : List ℕ) (v : View) → (view_in version x ≡ Ok v) ↔ SpellsView version x v }
    ensures base_breaks { (version : Version) (x : List ℕ) (b : Break) → BreaksView version x b → view_in version x ≡ Err (length x - b.left) }
    ensures body { (version : Version) (h : History) (x : List ℕ) (es : List Entry) → (entries_in version h x ≡ Ok es) ↔ SpellsEntries version (Some h) x es }
    ensures body_breaks { (version : Version) (h : History) (x : List ℕ) (b : Break) → BreaksEntries version (Some h) x b → entries_in version h x ≡ Err (length x - b.left) }
{}

//! The law about what is kept: a public function whose contract is the law, and which does nothing.

ghost use Rattle.std.specs.Prelude.{◌≡◌, ◌≤◌, ℕ, true};
ghost use Rattle.dur_journal.specs.Histories.{view_of};
ghost use Rattle.dur_view.specs.History.{History, moment, next, start};
ghost use Rattle.dur_view.specs.Identities.{Guid};
ghost use Rattle.dur_view.specs.IsSound.{IsHistory};
ghost use Rattle.dur_view.specs.View.{view};
ghost use Rattle.dur_view.specs.Words.{stands};
ghost use Rattle.dur_rerun.specs.Rerun.Kept.{IsCutOf};

/// What is kept with its first entries replaced by their view leaves the same views as the whole history, and has the same next
/// numbers; and the view with which it is opened again is that of the whole history.
pub fn kept_histories_stand_for_whole_ones()
    ensures view { (kept whole : History) (now : ℕ) → IsHistory whole → IsCutOf kept whole → moment kept ≤ now → moment whole ≤ now
        → view kept now ≡ view whole now }
    ensures next { (kept whole : History) (w : Guid) → IsHistory whole → IsCutOf kept whole → stands (start whole) w ≡ true
        → next kept w ≡ next whole w }
    ensures opened { (kept whole : History) → IsHistory whole → IsCutOf kept whole → view_of kept ≡ view whole (moment kept) }
{}

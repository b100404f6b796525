//! What every legal list of calls keeps.

ghost use Rattle.std.specs.Prelude.{◌≡◌, ℕ, List, [], ◌∷◌, ◌++◌, ◌+◌, length, take};
ghost use Rattle.dur_qos.specs.declared.plan.Plan.{Plan};
ghost use Rattle.dur_qos.specs.Good.{GoodPlan};
ghost use Rattle.dur_view.specs.Full.{blank};
ghost use Rattle.dur_hub.specs.Openings.{MayOpen};
ghost use Rattle.dur_view.specs.History.{start};
ghost use Rattle.dur_view.specs.IsSound.{IsHistory};
ghost use Rattle.dur_hub.specs.declared.event.Event.{Event};
ghost use Rattle.dur_hub.specs.declared.event.Event.TheVariants.{State};
ghost use Rattle.dur_hub.specs.declared.reply.HubState.{HubState};
ghost use Rattle.dur_view.specs.Stored.{stored};
ghost use Rattle.dur_hub.specs.Runs.{Run};
ghost use Rattle.dur_hub.specs.Legal.{Legal, run_after};
ghost use Rattle.dur_hub.specs.Handed.{handed, acks_in, Covered};
ghost use Rattle.dur_hub.specs.GoodRuns.{IsGoodRun};
ghost use Rattle.dur_hub.specs.Alike.{AreAlike};
ghost use Rattle.dur_hub.specs.Readings.{refusals_in};
ghost use Rattle.dur_hub.specs.Workers.{Works, IsQuiet, calls_of, EachLeavesLast};

/// A hub may be opened over the blank view of a good plan.
pub fn hubs_open_over_blank_views()
    ensures { (plan : Plan) → GoodPlan plan → MayOpen plan (blank plan) }
{}

/// What a legal list of calls admits is a history over its start: each entry follows those before it.
pub fn admitted_entries_follow()
    ensures history { (r : Run) (es : List Event) → IsGoodRun r → Legal r es
        → IsHistory (run_after r es).history }
    ensures start { (r : Run) (es : List Event) → start (run_after r es).history ≡ start r.history }
    ensures good { (r : Run) (es : List Event) → IsGoodRun r → Legal r es
        → IsGoodRun (run_after r es) }
{}

/// What was handed out begins the persistent entries, in order; and what was acknowledged of a persistent topic is durable.
pub fn acknowledged_is_durable()
    ensures handed { (r : Run) (es : List Event) → IsGoodRun r → Legal r es
        → take r.taken (stored r.history) ++ handed es ≡ take (run_after r es).taken (stored (run_after r es).history) }
    ensures durable { (r : Run) (es : List Event) → IsGoodRun r → Legal r es
        → Covered (run_after r es).history (run_after r es).durable (acks_in es) }
{}

/// Whole `receive`s of the same moments and facts lead to the same run: so they admit the same entries.
pub fn receives_have_one_outcome()
    ensures { (r : Run) (es fs : List Event) → Legal r es → Legal r fs → AreAlike es fs
        → run_after r es ≡ run_after r fs }
{}

/// Where a `state` says that nobody works, no call behind it is one of those that work: provided that as many work at first as the
/// run says, that those that work alone receive, ask for snapshots and leave, and that who leaves works no more.
pub fn nobody_works_after_all_left()
    ensures { (r : Run) (ps : List ℕ) (before behind : List (ℕ × Event)) (p : ℕ) (s : HubState)
        → r.working ≡ length ps → Works ps (before ++ (p, State s) ∷ behind)
        → Legal r (calls_of (before ++ (p, State s) ∷ behind)) → s.working ≡ 0 → IsQuiet behind }
{}

/// Where the `leave` of each of those that work is its last call, and the others neither receive nor ask for snapshots nor leave,
/// who leaves works no more.
pub fn who_leaves_last_works_no_more()
    ensures { (ps : List ℕ) (es : List (ℕ × Event)) → EachLeavesLast ps es → Works ps es }
{}

/// What a run counts are the acknowledgements and the refusals that its calls answered.
pub fn runs_count_their_answers()
    ensures acks { (r : Run) (es : List Event)
        → (run_after r es).acks ≡ r.acks + length (acks_in es) }
    ensures refused { (r : Run) (es : List Event)
        → (run_after r es).refused ≡ r.refused + length (refusals_in es) }
{}

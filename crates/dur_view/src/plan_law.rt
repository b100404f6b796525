//! Laws on plans and the views that they begin.

ghost use Rattle.std.specs.Prelude.{◌≡◌, ◌≤◌, All, Contains, List, length};
ghost use Rattle.dur_base.specs.declared.entry.Entry.{Entry};
ghost use Rattle.dur_view.specs.History.{Start, AllFollow};
ghost use Rattle.dur_qos.specs.declared.plan.Plan.{Plan};
ghost use Rattle.dur_qos.specs.Good.{GoodPlan};
ghost use Rattle.dur_view.specs.IsSound.{IsSound, GoodTopics};
ghost use Rattle.dur_view.specs.Full.{blank, full};
ghost use Rattle.dur_view.specs.Persistent.{persistent_plan, persistent_view, HasPersistentPart};
ghost use Rattle.dur_view.specs.declared.data.View.{View};

/// The topics of a good plan are those that a sound view may have.
pub fn good_plans_have_good_topics()
    ensures { (plan : Plan) → GoodPlan plan → GoodTopics plan.topics }
{}

/// The blank view of a good plan is sound, so that it may begin a history.
pub fn blank_views_are_sound()
    ensures { (plan : Plan) → GoodPlan plan → IsSound (blank plan) }
{}

/// The full view of a sound view is sound, where it has no more topics and writers than a view may have. Of a view whose topics
/// stand in the plan it has no more topics than the plan.
pub fn full_views_are_sound()
    ensures count { (plan : Plan) (v : View) → GoodPlan plan → IsSound v → All (Contains plan.topics) v.topics → length (full plan v).topics ≤ 1024 }
    ensures sound { (plan : Plan) (v : View) → GoodPlan plan → IsSound v → length (full plan v).topics ≤ 1024 → length (full plan v).writers ≤ 67108864 → IsSound (full plan v) }
{}

/// Entries that follow a sound view follow its full view.
pub fn entries_follow_full_views()
    ensures { (plan : Plan) (v : View) (x : List Entry) → IsSound v → AllFollow (Start v) x → AllFollow (Start (full plan v)) x }
{}

/// The persistent part of a good plan is good.
pub fn persistent_plans_are_good()
    ensures { (plan : Plan) → GoodPlan plan → GoodPlan (persistent_plan plan) }
{}

/// The persistent part of the full view of a start that has all of the plan's persistent part, and nothing else, is that start.
pub fn persistent_parts_stay_in_full_views()
    ensures { (plan : Plan) (v : View) → GoodPlan plan → IsSound v → HasPersistentPart plan v → persistent_view (full plan v) ≡ v }
{}

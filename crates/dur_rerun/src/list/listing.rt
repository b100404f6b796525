//! The listing of all topics, from a hub.

ghost use Rattle.std.specs.Prelude.{◌≡◌, ◌≤◌, [], IfOk, length};
ghost use Rattle.dur_qos.specs.Good.{GoodPlan};
ghost use Rattle.dur_view.specs.Full.{blank};
ghost use Rattle.dur_hub.specs.Hubs.{Stands};
ghost use Rattle.dur_hub.specs.Runs.{opening};
ghost use Rattle.dur_rerun.specs.List.Listing.{IsListing};

use crate::list::line::append_topic;
use dur_base::{OutOfMemory, Ticks};
use dur_hub::{Hub, hubs_open_over_blank_views};
use dur_qos::{Plan, Topic};
use dur_view::View;
use std::alloc::Global;

/// A hub that keeps what a plan declares and has heard nothing. Nobody works there, and nothing is stored.
pub fn open(alloc: Global, plan: Plan) -> Result<Hub, OutOfMemory>
    requires { GoodPlan plan }
    ensures { IfOk result (λ hub. Stands (opening plan (blank plan) 0) [] hub) }
{
    let view = View::blank(&plan)?;
    hubs_open_over_blank_views();
    Hub::new(alloc, plan, view, 0)
}

/// The lines of what is entitled in each topic of the plan, in its order, at this moment or at the last one of the hub,
/// whichever is later.
pub fn text_of(
    alloc: Global,
    hub: &Hub,
    topics: &[Topic],
    moment: Ticks,
) -> Result<Vec<u8>, OutOfMemory>
    requires { length topics.now ≤ 1024 }
    ensures { IfOk result (λ text. IsListing hub.now topics.now moment text.items) }
{
    let mut out = Vec::new(alloc);
    let mut place = 0;
    let mut rest = topics;
    while let [topic, later @ ..] = rest {
        let snapshot = hub.listing(alloc, place, moment)?;
        append_topic(
            alloc,
            &mut out,
            topic.name.as_slice(),
            snapshot.changes.as_slice(),
        )?;
        place += 1;
        rest = later;
    }
    Ok(out)
}

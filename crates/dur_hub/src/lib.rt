//! One hub: what each writer told, leases, acknowledgements, replays, and what is handed out to be stored.
#![tactic(auto)]

mod batches;
mod drain;
mod due;
mod event;
mod hearing;
mod heeding;
mod hub;
mod law;
mod lease;
mod ledger;
mod left_behind;
mod line;
mod marking;
mod notes;
mod places;
mod queue;
mod readings;
mod receiving;
mod replays;
mod reply;
mod telling;
mod workers;

pub use event::{End, Event, Step};
pub use hub::Hub;
pub use law::{
    acknowledged_is_durable, admitted_entries_follow, hubs_open_over_blank_views,
    nobody_works_after_all_left, receives_have_one_outcome, runs_count_their_answers,
    who_leaves_last_works_no_more,
};
pub use reply::{Ack, Counts, HubState, Received, Refusal, SnapFault};

#[cfg(test)]
mod examples;
#[cfg(test)]
mod storing_tests;
#[cfg(test)]
mod tests;

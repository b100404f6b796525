//! Replays: a session sends the changes of a snapshot as a reliable writer, and a late reader takes
//! them (DDSI-RTPS 8.4.9, 8.4.12).
#![tactic(auto)]

mod asked;
mod choices;
mod hearing;
mod ids;
mod late;
mod laws;
mod members;
mod sendable;
mod session;
mod taken;

pub use asked::Asked;
pub use ids::Ids;
pub use late::LateReader;
pub use laws::{
    each_reader_takes_the_replay, late_readers_ask_in_one_way, late_readers_end,
    late_readers_hear_in_one_way, sets_go_under_their_first_member,
};
pub use sendable::are_sendable;
pub use session::Session;
pub use taken::Replayed;

#[cfg(test)]
mod examples;
#[cfg(test)]
mod schedules;
#[cfg(test)]
mod tests;

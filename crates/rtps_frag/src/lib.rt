//! Samples that come in fragments (DDSI-RTPS 8.3.8.3, 8.4.14.1): DATA_FRAG joined, and the fragments that are missing
//! asked for.
#![tactic(auto)]

mod arrived;
mod asks;
mod body;
mod hearing;
mod joiner;
mod laws;
mod sample;

pub use asks::{FragAsk, write_nack_frag};
pub use joiner::{Joined, Joiner};
pub use laws::{bits_in_place, told_as_data, whole_where_all_came};

#[cfg(test)]
mod tests;

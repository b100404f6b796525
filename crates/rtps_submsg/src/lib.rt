//! Submessages of DDSI-RTPS (8.3, 9.4): exact reading and writing of every kind, in either byte order.
#![tactic(auto)]

mod body;
mod data;
mod field;
mod laws;
mod reading;
mod set;
mod sub;
mod writing;

pub use laws::{bits_in_place, one_reading};
pub use reading::read_sub;
pub use sub::{DataSub, Sub, SubFault, SubKind};
pub use writing::write_sub;

#[cfg(test)]
mod tests;

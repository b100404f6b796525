//! Parameter lists (DDSI-RTPS 9.4.2.11), as a DATA carries them for its inline QoS: exact reading and
//! writing, in either byte order.
#![tactic(auto)]

mod inline;
mod laws;
mod parameter;
mod reading;
mod writing;

pub use inline::Inline;
pub use laws::one_reading;
pub use parameter::{LAST_NUMBER, ListKind};
pub use reading::{ListFault, read_list};
pub use writing::{Short, list_octets, write_list};

#[cfg(test)]
mod tests;

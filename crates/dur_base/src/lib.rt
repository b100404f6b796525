//! The values that every crate of the service shares: identities, numbers, names, samples, facts and
//! the entries of a history.
#![tactic(auto)]

mod bits;
mod entry;
mod fact;
mod fields;
mod kinds;
mod limits;
mod lists;
mod memory;
mod names;
mod numbers;
mod octets;
mod sample;
#[cfg(test)]
mod tests;

pub use bits::{Bits, sets_have_one_form};
pub use entry::Entry;
pub use fact::Fact;
pub use fields::{
    octets_of_sequence, sequence_of, u16_octets, u16_of, u32_octets, u32_of, u64_octets, u64_of,
};
pub use kinds::{Durability, Shape};
pub use limits::{GREATEST_NUMBER, LONGEST_PAYLOAD, TICKS_OF_A_SECOND};
pub use lists::List;
pub use memory::OutOfMemory;
pub use names::{Name, is_a_name};
pub use numbers::{EntityId, Guid, Key, Number, Prefix, Ticks, later};
pub use octets::{Octets, Payload};
pub use sample::{Act, Form, Raw, Sample, SetMark};

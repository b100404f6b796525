//! One store of all topics: entries in, limits tested, what is entitled and views out.
#![tactic(auto)]

mod begin;
mod events;
mod index;
mod limits;
mod members;
#[cfg(test)]
mod random;
mod refuse;
mod room;
mod store;
mod taking;
#[cfg(test)]
mod tests;
mod whole;
mod writer;

pub use refuse::Refuse;
pub use store::Store;

//! Coherent sets: which of a history's are open, and what becomes of a writer's next sample.
#![tactic(auto)]

mod effect;
mod sets;
#[cfg(test)]
mod tests;

pub use effect::{Before, Effect, Now};
pub use sets::Sets;

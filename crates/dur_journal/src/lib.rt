//! The journal: the history of persistent topics in two files, of which a crash at any moment leaves the
//! old state or the new one.
#![tactic(auto)]

mod agreement;
mod front;
mod journal;
mod laws;
mod looking;
mod opening;
mod part;
mod reading;
mod seen;
mod state;
mod steps;
mod storing;

pub use front::Front;
pub use laws::{one_reading, texts_are_read_by_the_grammar};
pub use looking::look;
pub use opening::OpenFault;
pub use seen::{Look, LookFault};
pub use state::{Journal, Opened, Receipt};
pub use storing::{CommitFault, CompactFault};

#[cfg(test)]
mod quiet;
#[cfg(test)]
mod stops;
#[cfg(test)]
mod tests;

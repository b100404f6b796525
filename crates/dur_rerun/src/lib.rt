//! The commands of the service over a source and a rig: what became of a run; `show`, which prints what each record
//! of a capture tells; `list`, which prints what a capture's history entitles a late reader to; `learn`, which prints the plan that a
//! capture's discovery traffic teaches; `rerun`, which handles
//! a capture over the journal of two files; and `check`, which prints what these files are. And `late`, a late reader
//! over a link.
#![tactic(auto)]

mod admit;
pub mod check;
mod input;
pub mod late;
pub mod learn;
pub mod list;
mod output;
pub mod rerun;
pub mod show;
mod status;
mod text;

pub use output::say;
pub use status::{Ran, Status};
pub use text::digit_of;

#[cfg(test)]
mod tests;

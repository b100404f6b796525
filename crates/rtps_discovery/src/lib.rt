//! What captured discovery traffic announces (DDSI-RTPS 8.5), and the plan that is learnt from it.
#![tactic(auto)]

mod announcement;
mod directory;
mod entry;
mod fault;
mod learning;
mod lines;
mod list;
mod parameter;
mod payload;
mod reading;
mod source;

pub use announcement::Announcement;
pub use directory::Directory;
pub use fault::LearnFault;
pub use reading::read_announcement;

#[cfg(test)]
mod tests;

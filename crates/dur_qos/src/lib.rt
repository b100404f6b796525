//! The text of a plan: topics, writers and readers; and which readers are served, under which ids.
#![tactic(auto)]

mod digits;
mod draft;
mod fault;
mod fields;
mod index;
mod laws;
mod line;
mod plan;
mod reader;
mod serving;
mod values;
mod whole;
mod word;
mod writing;

pub use fault::{PlanFault, PlanKind};
pub use laws::readings;
pub use line::{Line, line_of};
pub use plan::{Plan, ReaderLine, Topic, WriterLine};
pub use reader::PlanReader;
pub use serving::{reader_id, replay_id, served};
pub use whole::read_plan;
pub use writing::write_plan;

#[cfg(test)]
mod tests;

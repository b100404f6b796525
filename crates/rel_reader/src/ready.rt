//! What stands at a writer's next number.

use dur_base::Number;

/// What stands at a writer's next number, and is to be handled.
#[derive(Clone, Copy, Debug, PartialEq, Eq, Drop)]
pub enum Ready {
    /// A sample.
    Sample,
    /// Irrelevant numbers alone, from the next one to the last one of this longest range.
    Skip(Number, Number),
    /// Nothing: the next number is not known.
    Nothing,
}

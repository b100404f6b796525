//! What calls of the outside name and answer.

use thiserror::Error;

/// A call of the outside failed, and its count of faults rose. Why it failed is not told.
#[derive(Clone, Copy, Debug, PartialEq, Eq, Drop, Error)]
#[error("a call of the outside failed")]
pub struct Failed;

/// One of the two files of a disk.
#[derive(Clone, Copy, Debug, PartialEq, Eq, Drop)]
pub enum FileId {
    Zero,
    One,
}

/// Where a gate may hold a job.
#[derive(Clone, Copy, Debug, PartialEq, Eq, Drop)]
pub enum Place {
    /// A batch was taken, and is about to be stored.
    Storing,
    /// The acknowledgements of one turn of a receiver were sent.
    Answered,
}

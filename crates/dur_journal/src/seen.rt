//! What one file is by itself.

use dur_view::View;
use thiserror::Error;

/// What one file is.
#[derive(Drop)]
pub enum Look {
    Blank,
    Closed,
    /// It is open, with that generation and so many records; the view is that of its base and their entries.
    Open {
        generation: u32,
        records: u64,
        view: View,
    },
    /// It breaks at that place.
    Broken(u64),
}

/// Why a file was not looked at.
#[derive(Clone, Copy, Debug, PartialEq, Eq, Drop, Error)]
pub enum LookFault {
    /// A call of the disk failed.
    #[error("a call of the disk failed")]
    Disk,
    /// There is not enough memory.
    #[error("out of memory")]
    OutOfMemory,
}

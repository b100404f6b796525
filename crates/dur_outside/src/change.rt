//! What a disk or a sink in memory keeps of each change: enough to undo it.

use crate::FileId;
use dur_base::Octets;

/// What a call did to a file, with what it took away. Places and counts are in octets.
#[derive(Debug, Drop)]
pub enum Edit {
    /// It wrote so many octets at that place, where these stood.
    Wrote { at: u64, count: u64, gone: Octets },
    /// It cut the file to that length, and these octets went.
    Shortened { end: u64, gone: Octets },
    /// It synced the file: no crash undoes an earlier edit.
    Synced,
}

/// What a call changed.
#[derive(Debug, Drop)]
pub enum Change {
    /// A file, by that edit.
    Made(FileId, Edit),
    /// What was written out: it grew by so many octets.
    Sent(u64),
}

//! What became of a run.

ghost use Rattle.std.specs.Prelude.{◌≡◌};
ghost use Rattle.dur_rerun.specs.declared.status.Status.TheVariants as status;
ghost use Rattle.dur_rerun.specs.Command.{status_of};

use dur_base::{Name, OutOfMemory};
use dur_capture::CapFault;
use dur_outside::FileId;
use dur_qos::PlanKind;

/// What became of a run.
#[derive(Debug, Drop)]
pub enum Status {
    /// The input was read to its end, and all of the text was written.
    Done,
    /// The words are no command line.
    Usage,
    /// There was not enough memory.
    OutOfMemory,
    /// The capture first breaks off with this fault, which is never `OutOfMemory`. The number is its place
    /// in octets, counted from the capture's first octet.
    Input(u64, CapFault),
    /// The source failed.
    ReadFault,
    /// The sink for output failed.
    WriteFault,
    /// The plan's text first breaks in the line with this number, from 1, with this fault, which is never
    /// `OutOfMemory`.
    Plan(u32, PlanKind),
    /// A call on a file failed.
    DiskFault,
    /// That file is no journal. The number is the place in octets at which it first breaks.
    NotAJournal(FileId, u64),
    /// The plan differs from the journal by the topic of that name.
    PlanDiffers(Name),
    /// The journal's next text is longer than a file may be. The number is its length in octets.
    Full(u64),
    /// No generation is left for the journal's next file.
    Worn,
    /// A plan that is learnt has more writers or readers than a plan may have.
    TooMany,
}

impl From<OutOfMemory> for Status {
    ghost from_gives = { λ _ s. s ≡ status.OutOfMemory };

    fn from(_: OutOfMemory) -> Status {
        Status::OutOfMemory
    }
}

/// A status, and the rig that was handed in.
#[derive(Drop)]
pub struct Ran<R> {
    /// What became of the run.
    pub status: Status,
    /// The rig.
    pub rig: R,
}

/// What became of a run that ends early by an error.
pub fn status_of(ended: Result<(), Status>) -> Status
    ensures { result ≡ status_of ended }
{
    match ended {
        Ok(()) => Status::Done,
        Err(status) => status,
    }
}

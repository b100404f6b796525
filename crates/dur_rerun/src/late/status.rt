//! What became of a run of `late`.

ghost use Rattle.std.specs.Prelude.{◌≡◌};
ghost use Rattle.dur_rerun.specs.declared.late.status.LateStatus.TheVariants as status;

use dur_base::OutOfMemory;

/// What became of a run of `late`.
#[derive(Clone, Copy, Debug, PartialEq, Eq, Drop)]
pub enum LateStatus {
    /// The late reader is done, and all lines were written.
    Done,
    /// The words are no command line of `late`.
    Usage,
    /// There was not enough memory.
    OutOfMemory,
    /// The late reader is done, and the sink for output failed.
    WriteFault,
    /// The link failed.
    LinkFault,
    /// All turns were taken, and the late reader is not done.
    Unfinished,
}

impl From<OutOfMemory> for LateStatus {
    ghost from_gives = { λ _ s. s ≡ status.OutOfMemory };

    fn from(_: OutOfMemory) -> LateStatus {
        LateStatus::OutOfMemory
    }
}

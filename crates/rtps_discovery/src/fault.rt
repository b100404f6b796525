//! Why no plan is learnt.

ghost use Rattle.std.specs.Prelude.{◌≡◌};
ghost use Rattle.rtps_discovery.specs.declared.fault.LearnFault.TheVariants as fault;

use dur_base::OutOfMemory;
use thiserror::Error;

/// Why no plan is learnt.
#[derive(Clone, Copy, Debug, PartialEq, Eq, Drop, Error)]
pub enum LearnFault {
    /// The learnt plan would have more than 4,096 writers or 1,024 readers.
    #[error("too many")]
    TooMany,
    /// There was not enough memory.
    #[error("out of memory")]
    OutOfMemory,
}

impl From<OutOfMemory> for LearnFault {
    ghost from_gives = { λ _ e. e ≡ fault.OutOfMemory };

    fn from(_: OutOfMemory) -> LearnFault {
        LearnFault::OutOfMemory
    }
}

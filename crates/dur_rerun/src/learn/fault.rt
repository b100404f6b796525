//! The statuses with which nothing is learnt.

ghost use Rattle.std.specs.Prelude.{◌≡◌};
ghost use Rattle.dur_rerun.specs.Learn.Faults.{learn_status};

use crate::Status;
use rtps_discovery::LearnFault;

impl From<LearnFault> for Status {
    ghost from_gives = { λ fault s. s ≡ learn_status fault };

    fn from(fault: LearnFault) -> Status {
        match fault {
            LearnFault::TooMany => Status::TooMany,
            LearnFault::OutOfMemory => Status::OutOfMemory,
        }
    }
}

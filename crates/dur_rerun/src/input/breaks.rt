//! The statuses of the faults of an input.

ghost use Rattle.std.specs.Prelude.{◌≡◌};
ghost use Rattle.dur_rerun.specs.Input.Breaks.{capture_status, plan_status};

use crate::Status;
use dur_capture::CapFault;
use dur_qos::{PlanFault, PlanKind};

impl From<PlanFault> for Status {
    ghost from_gives = { λ fault s. s ≡ plan_status fault };

    fn from(fault: PlanFault) -> Status {
        match fault.kind {
            PlanKind::OutOfMemory => Status::OutOfMemory,
            PlanKind::Word => Status::Plan(fault.line, PlanKind::Word),
            PlanKind::Number => Status::Plan(fault.line, PlanKind::Number),
            PlanKind::Twice => Status::Plan(fault.line, PlanKind::Twice),
            PlanKind::UnknownTopic => Status::Plan(fault.line, PlanKind::UnknownTopic),
            PlanKind::DepthAboveLimit => Status::Plan(fault.line, PlanKind::DepthAboveLimit),
            PlanKind::TooMany => Status::Plan(fault.line, PlanKind::TooMany),
        }
    }
}

impl From<CapFault> for Status {
    ghost from_gives = { λ fault s. s ≡ capture_status fault };

    fn from(fault: CapFault) -> Status {
        match fault {
            CapFault::OutOfMemory => Status::OutOfMemory,
            CapFault::LongDatagram(place) => Status::Input(place, fault),
            CapFault::EndsInside(place) => Status::Input(place, fault),
            CapFault::TooLong(place) => Status::Input(place, fault),
        }
    }
}

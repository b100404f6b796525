//! Why a text is not read.

ghost use Rattle.std.specs.Prelude.{◌≡◌, ◌-◌, ◌≤◌, Err};
ghost use Rattle.dur_record.specs.Faults.{fault_of, LeftWithin};

use crate::field::{Kind, Stop};
use dur_base::OutOfMemory;

/// Why a text is not read. A place counts from the text's first octet.
#[derive(Clone, Copy, Debug, PartialEq, Eq, Drop)]
pub enum TextFault {
    /// The text ends inside the field that begins there.
    Cut(usize),
    /// The tag there is that of no entry.
    BadTag(usize),
    /// The field there is out of its range or order, or octets follow the view from there on.
    BadField(usize),
    /// There is not enough memory.
    OutOfMemory,
}

impl From<OutOfMemory> for TextFault {
    ghost use Rattle.dur_record.specs.declared.fault.TextFault.TheVariants.{OutOfMemory};

    ghost from_gives = { λ _ e. e ≡ OutOfMemory };

    fn from(_: OutOfMemory) -> TextFault {
        TextFault::OutOfMemory
    }
}

/// The fault of a text of that many octets.
pub fn fault_of(stop: Stop, len: usize) -> TextFault
    requires { LeftWithin stop len }
    ensures { result ≡ fault_of len stop }
{
    match stop {
        Stop::Broken { left, kind } => match kind {
            Kind::Cut => TextFault::Cut(len - left),
            Kind::BadTag => TextFault::BadTag(len - left),
            Kind::BadField => TextFault::BadField(len - left),
        },
        Stop::OutOfMemory => TextFault::OutOfMemory,
    }
}

//! Where a capture breaks off.

ghost use Rattle.std.specs.Prelude.{◌≡◌};
ghost use Rattle.dur_capture.specs.declared.fault.CapFault.TheVariants as fault;

use dur_base::OutOfMemory;
use thiserror::Error;

/// Why no record is handed out. The number is the place in octets, counted from the capture's first octet.
#[derive(Clone, Copy, Debug, PartialEq, Eq, Drop, Error)]
pub enum CapFault {
    /// The length field at this place is above 65,507, the most octets of a UDP datagram. It comes as soon as
    /// the field is whole.
    #[error("the length at octet {0} is above 65,507")]
    LongDatagram(u64),
    /// The input ends inside the record whose first octet is at this place.
    #[error("the input ends inside the record at octet {0}")]
    EndsInside(u64),
    /// 2^40 octets of input came before this place, and more came. Those are part of no record.
    #[error("more than 2^40 octets of input came, the first of them at octet {0}")]
    TooLong(u64),
    /// There was not enough memory. Nothing changed.
    #[error("out of memory")]
    OutOfMemory,
}

impl From<OutOfMemory> for CapFault {
    ghost from_gives = { λ _ e. e ≡ fault.OutOfMemory };

    fn from(_: OutOfMemory) -> CapFault {
        CapFault::OutOfMemory
    }
}

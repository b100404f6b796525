//! What a feed answers next.

ghost use Rattle.std.specs.Prelude.{◌≡◌, ◌+◌, ◌≤◌, ◌^◌, take, None};
ghost use Rattle.dur_capture.specs.Look.{Sees};

use crate::CapFault;
use crate::front::{Front, Head, front_of};

/// The most octets of input.
const LIMIT: u64 = 0x100_0000_0000;

/// What comes next.
#[derive(Clone, Copy, Drop)]
pub enum Seen {
    /// A record with this head stands at the front.
    Record(Head),
    /// No record yet.
    Waits,
    /// No record.
    Fault(CapFault),
}

fn within<'a>(left: &'a [u8], room: u64) -> &'a [u8]
    ensures { result.now ≡ take room left.now }
{
    if left.len() as u64 > room {
        left.split_at(room as usize).0
    } else {
        left
    }
}

/// What comes next of the octets that are left, after so many of input and of records.
pub fn look_at(before: u64, taken: u64, left: &[u8], ended: bool) -> Seen
    requires { before + taken ≤ 2 ^ 40 }
    ensures { Sees (record { before = before; taken = taken; left = left.now; fault = None }) ended result }
{
    let room = LIMIT - (before + taken);
    match front_of(within(left, room)) {
        Front::Whole(head) => Seen::Record(head),
        Front::Long => Seen::Fault(CapFault::LongDatagram(taken + 10)),
        Front::Part => {
            if left.len() as u64 > room {
                Seen::Fault(CapFault::TooLong(LIMIT - before))
            } else if ended && !left.is_empty() {
                Seen::Fault(CapFault::EndsInside(taken))
            } else {
                Seen::Waits
            }
        }
    }
}

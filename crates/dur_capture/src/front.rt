//! The fields of the record at the front of octets.

ghost use Rattle.std.specs.Prelude.{◌≡◌, ◌≤◌, length};
ghost use Rattle.dur_capture.specs.Capture.{count_at};
ghost use Rattle.dur_capture.specs.Front.{IsFront};

use dur_base::Ticks;

/// The most octets of a datagram.
const LONGEST: usize = 65507;

/// What stands in front of a record's octets.
#[derive(Clone, Copy, Drop)]
pub struct Head {
    pub moment: Ticks,
    pub port: u16,
    /// How many octets follow.
    pub count: usize,
}

/// What stands at the front of octets.
#[derive(Clone, Copy, Drop)]
pub enum Front {
    Whole(Head),
    Long,
    Part,
}

#[tactic(auto, unfolding(crate::specs::Capture::count_at))]
fn count_of(bytes: &[u8]) -> usize
    requires { 14 ≤ length bytes.now }
    ensures { result ≡ count_at bytes.now }
{
    u32::from_le_bytes([bytes[10], bytes[11], bytes[12], bytes[13]]) as usize
}

/// What stands at the front, by the places of its fields.
pub fn front_of(bytes: &[u8]) -> Front
    ensures { IsFront bytes.now result }
{
    if bytes.len() < 14 {
        return Front::Part;
    }
    let count = count_of(bytes);
    if count > LONGEST {
        return Front::Long;
    }
    if bytes.len() < 14 + count {
        return Front::Part;
    }
    Front::Whole(Head {
        moment: Ticks(u64::from_le_bytes([
            bytes[0], bytes[1], bytes[2], bytes[3], bytes[4], bytes[5], bytes[6], bytes[7],
        ])),
        port: u16::from_le_bytes([bytes[8], bytes[9]]),
        count,
    })
}

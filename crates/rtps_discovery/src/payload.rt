//! The payload of a DATA of discovery.

ghost use Rattle.std.specs.Prelude.{◌≡◌, Some, IfSome};
ghost use Rattle.rtps_discovery.specs.declared.list.Listed.{Listed};
ghost use Rattle.rtps_discovery.specs.Fits.{FitsListed};
ghost use Rattle.rtps_discovery.specs.Lists.{PayloadTells, order_of};

use crate::list::{Listed, read_list};
use dur_qos::Topic;

/// Whether the byte order of a representation is little-endian, or None where it is none of a parameter list.
fn order_of(representation: &[u8]) -> Option<bool>
    ensures { result ≡ order_of representation.now }
{
    match representation {
        [0, 2] => Some(false),
        [0, 3] => Some(true),
        _ => None,
    }
}

/// What a payload tells: a representation, two octets of options, and a parameter list in the representation's byte
/// order. None where it has another representation or its list breaks (DDSI-RTPS 9.4.2.12). It takes no memory.
pub fn read_payload(topics: &[Topic], payload: &[u8]) -> Option<Listed>
    ensures some { IfSome result (λ l. PayloadTells topics.now payload.now l) }
    ensures fits { IfSome result (FitsListed topics.now) }
    ensures all { (l : Listed) → PayloadTells topics.now payload.now l → result ≡ Some l }
{
    if payload.len() < 4 {
        return None;
    }
    let (representation, rest) = payload.split_at(2);
    let (_, list) = rest.split_at(2);
    let little = order_of(representation)?;
    read_list(topics, list, little)
}

//! What holds of all octets.

ghost use Rattle.std.specs.Prelude.{◌≡◌, ℕ, ◌<◌, ◌&&◌, Bool, List, nat_lt};
ghost use Rattle.dur_base.specs.NumberSets.{has_bit};
ghost use Rattle.rtps_submsg.specs.OneReading.{HasOneReading};
ghost use Rattle.rtps_submsg.specs.Sets.{words_of, bit_in};

use crate::reading::read_sub;

/// Any octets either spell a submessage at their front or break at a first place, and never both: what
/// it tells, its length, the place and the kind of the fault are determined. A payload is compared by its
/// octets.
pub fn one_reading(bytes: &[u8])
    ensures { HasOneReading bytes.now }
{
    let _ = read_sub(bytes);
}

/// Of the words of a set exactly the bits below numBits are read, each from its place: bit i is the mask
/// `1 << (31 - i % 32)` of word `i / 32` (DDSI-RTPS 9.4.2.6).
pub fn bits_in_place()
    ensures { (little : Bool) (bits : ℕ) (octets : List ℕ) (i : ℕ) → i < 256 → has_bit (words_of little bits octets) i ≡ (nat_lt i bits && bit_in little octets i) }
{}

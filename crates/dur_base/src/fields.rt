//! Numbers as fields of a text, in either byte order.

ghost use Rattle.std.specs.Prelude.{◌≡◌, ◌≤◌, length};
ghost use Rattle.std.specs.Int.{w16, w32, w64};
ghost use Rattle.dur_base.specs.Fields.{number, octets, sequence, sequence_octets};

/// The number that two octets spell.
#[tactic(auto, unfolding(crate::specs::Fields::number))]
pub fn u16_of(bytes: &[u8], little: bool) -> u16
    requires { length bytes.now ≡ 2 }
    ensures { result ≡ number little w16 bytes.now }
{
    let bytes = [bytes[0], bytes[1]];
    if little {
        u16::from_le_bytes(bytes)
    } else {
        u16::from_be_bytes(bytes)
    }
}

/// The number that four octets spell.
#[tactic(auto, unfolding(crate::specs::Fields::number))]
pub fn u32_of(bytes: &[u8], little: bool) -> u32
    requires { length bytes.now ≡ 4 }
    ensures { result ≡ number little w32 bytes.now }
{
    let bytes = [bytes[0], bytes[1], bytes[2], bytes[3]];
    if little {
        u32::from_le_bytes(bytes)
    } else {
        u32::from_be_bytes(bytes)
    }
}

/// The number that eight octets spell as one field.
#[tactic(auto, unfolding(crate::specs::Fields::number))]
pub fn u64_of(bytes: &[u8], little: bool) -> u64
    requires { length bytes.now ≡ 8 }
    ensures { result ≡ number little w64 bytes.now }
{
    let bytes = [
        bytes[0], bytes[1], bytes[2], bytes[3], bytes[4], bytes[5], bytes[6], bytes[7],
    ];
    if little {
        u64::from_le_bytes(bytes)
    } else {
        u64::from_be_bytes(bytes)
    }
}

/// The sequence number whose high and low halves are the first eight octets (DDSI-RTPS 9.3.2.10).
/// A negative one is 2^63 or more here.
#[tactic(auto, unfolding(crate::specs::Fields::sequence))]
pub fn sequence_of(bytes: &[u8], little: bool) -> u64
    requires { 8 ≤ length bytes.now }
    ensures { result ≡ sequence little bytes.now }
{
    let (high, rest) = bytes.split_at(4);
    let (low, _) = rest.split_at(4);
    u64::from(u32_of(high, little)) * 0x1_0000_0000 + u64::from(u32_of(low, little))
}

/// The octets of a number of 16 bits.
#[tactic(auto, unfolding(crate::specs::Fields::octets))]
pub fn u16_octets(number: u16, little: bool) -> [u8; 2]
    ensures { result ≡ octets little w16 number }
{
    if little {
        number.to_le_bytes()
    } else {
        number.to_be_bytes()
    }
}

/// The octets of a number of 32 bits.
#[tactic(auto, unfolding(crate::specs::Fields::octets))]
pub fn u32_octets(number: u32, little: bool) -> [u8; 4]
    ensures { result ≡ octets little w32 number }
{
    if little {
        number.to_le_bytes()
    } else {
        number.to_be_bytes()
    }
}

/// The octets of a number of 64 bits that is one field.
#[tactic(auto, unfolding(crate::specs::Fields::octets))]
pub fn u64_octets(number: u64, little: bool) -> [u8; 8]
    ensures { result ≡ octets little w64 number }
{
    if little {
        number.to_le_bytes()
    } else {
        number.to_be_bytes()
    }
}

/// The octets of a sequence number: its high and then its low half.
#[tactic(auto, unfolding(crate::specs::Fields::sequence_octets))]
pub fn octets_of_sequence(number: u64, little: bool) -> [u8; 8]
    ensures { result ≡ sequence_octets little number }
{
    let mut out = [0; 8];
    let (high, low) = out.split_at_mut(4);
    high.copy_from_slice(&u32_octets((number / 0x1_0000_0000) as u32, little));
    low.copy_from_slice(&u32_octets((number % 0x1_0000_0000) as u32, little));
    out
}

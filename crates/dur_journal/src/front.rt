//! What a file is by its first octets.

ghost use Rattle.std.specs.Prelude.{◌≡◌, ◌<◌, ◌≤◌, ◌==◌, ◌||◌, length, IfSome};
ghost use Rattle.dur_journal.specs.Texts.{version_of};
ghost use Rattle.dur_journal.specs.File.{difference, front_in, header_in};

use dur_base::{u32_of, u64_of};
use dur_record::Version;

/// The octets with which a file begins.
pub(crate) const MAGIC: [u8; 8] = [0x44, 0x44, 0x53, 0x4a, 0x52, 0x4e, 0x4c, 0x31];

/// The octets in front of a base: the eight octets, the gate, and the header.
pub(crate) const FRONT: usize = 25;

/// The most octets of a base.
pub(crate) const LONGEST_BASE: u64 = 1 << 30;

/// What a file is by its first octets.
#[derive(Clone, Copy, Debug, PartialEq, Eq, Drop)]
pub enum Front {
    /// It has at most 9 octets.
    Blank,
    /// Its gate is closed.
    Closed,
    /// Its gate is open, and it has that generation.
    Open(u32),
}

/// The first place at which octets do not begin with these.
fn difference_of(begin: &[u8], bytes: &[u8]) -> Option<usize>
    ensures place { result ≡ difference begin.now bytes.now }
    ensures within { IfSome result (λ at. at < length begin.now) }
{
    match begin {
        [] => None,
        [first, begin @ ..] => match bytes {
            [] => Some(0),
            [byte, bytes @ ..] => {
                if byte != first {
                    return Some(0);
                }
                match difference_of(begin, bytes) {
                    Some(at) => Some(at + 1),
                    None => None,
                }
            }
        },
    }
}

/// Whether a file of that version can be read.
fn is_known(version: u32) -> bool
    ensures { result ≡ (version == 1 || version == 2) }
{
    version == 1 || version == 2
}

/// The version of an open file's texts.
#[tactic(auto, unfolding(crate::specs::Texts::version_of, crate::specs::Texts::version_in))]
pub(crate) fn version_of(bytes: &[u8]) -> Version
    requires { 13 ≤ length bytes.now }
    ensures { result ≡ version_of bytes.now }
{
    if u32_of(&bytes[9..13], true) == 1 {
        Version::One
    } else {
        Version::Two
    }
}

/// The header of an open file, or where it breaks.
#[tactic(auto, unfolding(crate::specs::File::header_in, crate::specs::Texts::version_in, crate::specs::File::generation_in, crate::specs::File::base_length))]
fn header_of(bytes: &[u8]) -> Result<Front, u64>
    ensures { result ≡ header_in bytes.now }
{
    if bytes.len() < 13 || !is_known(u32_of(&bytes[9..13], true)) {
        return Err(9);
    }
    if bytes.len() < 17 {
        return Err(13);
    }
    if bytes.len() < 25 || u64_of(&bytes[17..25], true) > LONGEST_BASE {
        return Err(17);
    }
    Ok(Front::Open(u32_of(&bytes[13..17], true)))
}

/// What a file is by its first octets, or where these break.
#[tactic(auto, unfolding(crate::specs::File::front_in))]
pub(crate) fn front_of(bytes: &[u8]) -> Result<Front, u64>
    ensures { result ≡ front_in bytes.now }
{
    if bytes.len() <= 9 {
        return Ok(Front::Blank);
    }
    match difference_of(&MAGIC, bytes) {
        Some(at) => Err(at as u64),
        None => {
            if bytes[8] == 1 {
                header_of(bytes)
            } else {
                Ok(Front::Closed)
            }
        }
    }
}

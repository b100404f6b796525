//! The key of a sample's instance (DDSI-RTPS 9.6.4.8).

ghost use Rattle.std.specs.Prelude.{◌≡◌, ◌≤◌, ◌++◌, length, drop, take, false, OnSome};
ghost use Rattle.std.specs.Int.{w32};
ghost use Rattle.md5.specs.Md5.{md5};
ghost use Rattle.dur_base.specs.Fields.{octets};
ghost use Rattle.rtps_message.specs.Samples.{is_little, u32_key, text_key, payload_key, key_of};

use dur_base::{Key, Shape, u32_octets, u32_of};
use md5::{Digest, Md5};

/// The byte order of a CDR payload, or None where it is no such payload.
#[tactic(auto, unfolding(crate::specs::Samples::is_little))]
fn is_little(payload: &[u8]) -> Option<bool>
    ensures order { result ≡ is_little payload.now }
    ensures long { OnSome result (4 ≤ length payload.now) }
{
    if payload.len() < 4 {
        return None;
    }
    if payload[0] == 0 && payload[1] == 0 {
        Some(false)
    } else if payload[0] == 0 && payload[1] == 1 {
        Some(true)
    } else {
        None
    }
}

/// The key of four octets: their big-endian form and twelve zeros.
#[tactic(auto, unfolding(crate::specs::Samples::u32_key))]
fn u32_key(text: &[u8], little: bool) -> Option<Key>
    ensures { result ≡ u32_key little text.now }
{
    if text.len() < 4 {
        return None;
    }
    let number = u32_of(text.split_at(4).0, little);
    let mut key = [0; 16];
    let (front, _) = key.split_at_mut(4);
    front.copy_from_slice(&u32_octets(number, false));
    Some(Key(key))
}

/// The digest of a text's big-endian length and its octets.
fn digest(len: u32, text: &[u8]) -> Key
    ensures { result ≡ md5 (octets false w32 len ++ text.now) }
{
    let mut hasher = Md5::new();
    hasher.update(&u32_octets(len, false));
    hasher.update(text);
    Key(hasher.finalize())
}

/// The key of a text: the MD5 of its big-endian length and its octets, of which the last is 00.
#[tactic(auto, unfolding(crate::specs::Samples::text_key))]
fn text_key(text: &[u8], little: bool) -> Option<Key>
    ensures { result ≡ text_key little text.now }
{
    if text.len() < 4 {
        return None;
    }
    let (front, rest) = text.split_at(4);
    let len = u32_of(front, little);
    let count = len as usize;
    if count < 1 || rest.len() < count || rest[count - 1] != 0 {
        return None;
    }
    Some(digest(len, rest.split_at(count).0))
}

/// The key that stands in a payload.
fn payload_key(shape: Shape, payload: &[u8]) -> Option<Key>
    ensures { result ≡ payload_key shape payload.now }
{
    match shape {
        Shape::None => Some(Key([0; 16])),
        Shape::Hash => None,
        Shape::U32 => match is_little(payload) {
            Some(little) => u32_key(payload.split_at(4).1, little),
            None => None,
        },
        Shape::Text => match is_little(payload) {
            Some(little) => text_key(payload.split_at(4).1, little),
            None => None,
        },
    }
}

/// The key of a sample of an instance, or None where it cannot be found.
pub fn key_of(shape: Shape, hash: Option<Key>, payload: &[u8]) -> Option<Key>
    ensures { result ≡ key_of shape hash payload.now }
{
    match (shape, hash) {
        (Shape::None, _) => Some(Key([0; 16])),
        (_, Some(hash)) => Some(hash),
        (_, None) => payload_key(shape, payload),
    }
}

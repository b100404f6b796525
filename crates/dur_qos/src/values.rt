//! What a word says.

ghost use Rattle.std.specs.Prelude.{◌≡◌};
ghost use Rattle.dur_qos.specs.Lines.{topic_kind_of, reader_kind_of, shape_of, positive, history_of, limit_of, name_of};

use crate::digits::number;
use dur_base::{Durability, Name, Shape, is_a_name};

/// `transient` or `persistent`.
pub fn topic_kind(word: &[u8]) -> Option<Durability>
    ensures { result ≡ topic_kind_of word.now }
{
    if word == b"transient".as_slice() {
        Some(Durability::Transient)
    } else if word == b"persistent".as_slice() {
        Some(Durability::Persistent)
    } else {
        None
    }
}

/// `volatile`, `transient_local`, `transient` or `persistent`.
pub fn reader_kind(word: &[u8]) -> Option<Durability>
    ensures { result ≡ reader_kind_of word.now }
{
    if word == b"volatile".as_slice() {
        Some(Durability::Volatile)
    } else if word == b"transient_local".as_slice() {
        Some(Durability::TransientLocal)
    } else {
        topic_kind(word)
    }
}

/// `none`, `hash`, `u32` or `text`.
pub fn shape(word: &[u8]) -> Option<Shape>
    ensures { result ≡ shape_of word.now }
{
    if word == b"none".as_slice() {
        Some(Shape::None)
    } else if word == b"hash".as_slice() {
        Some(Shape::Hash)
    } else if word == b"u32".as_slice() {
        Some(Shape::U32)
    } else if word == b"text".as_slice() {
        Some(Shape::Text)
    } else {
        None
    }
}

// A number from 1.
fn from_one(value: Option<u32>) -> Option<Option<u32>>
    ensures { result ≡ positive value }
{
    match value {
        None => None,
        Some(value) => { if value > 0 { Some(Some(value)) } else { None } }
    }
}

/// `all`, which is None, or a depth.
pub fn history(word: &[u8]) -> Option<Option<u32>>
    ensures { result ≡ history_of word.now }
{
    if word == b"all".as_slice() {
        Some(None)
    } else {
        from_one(number(word))
    }
}

/// `-`, which is None, or a number from 1.
pub fn limit(word: &[u8]) -> Option<Option<u32>>
    ensures { result ≡ limit_of word.now }
{
    if word == b"-".as_slice() {
        Some(None)
    } else {
        from_one(number(word))
    }
}

/// A topic's name.
pub fn name(word: &[u8]) -> Option<Name>
    ensures { result ≡ name_of word.now }
{
    if is_a_name(word) {
        Some(Name::of(word))
    } else {
        None
    }
}

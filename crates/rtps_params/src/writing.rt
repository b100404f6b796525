//! Writing the one text of what is told: what is present, in a fixed order.

ghost use Rattle.std.specs.Prelude.{◌≡◌, ◌≤◌, ◌+◌, ◌<◌, ◌++◌, ◌↔◌, None, List, ℕ, length, drop, take, IsErr, IfOk, IfErr, OnErr};
ghost use Rattle.std.specs.Int.{w16, w32};
ghost use Rattle.dur_base.specs.Fields.{octets, sequence_octets};
ghost use Rattle.rtps_params.specs.Lists.{ListSpells};
ghost use Rattle.rtps_params.specs.Writing.{parameter_text, sentinel_text, hash_text, status_text, original_text, lifespan_text, set_text, list_text, IsWholeKey, IsWholeOriginal, IsMarkOfNumber, IsWritable};

use crate::inline::Inline;
use crate::parameter::{
    COHERENT_SET, KEY_HASH, LIFESPAN, ORIGINAL_WRITER_INFO, SENTINEL, STATUS_INFO, UNKNOWN,
};
use arrayvec::ArrayVec;
use dur_base::{Guid, Key, Number, SetMark, Ticks, octets_of_sequence, u16_octets};

/// The text is longer than the place for it.
#[derive(Clone, Copy, Debug, PartialEq, Eq, Drop)]
pub struct Short;

/// Adds octets to the text.
fn put(text: &mut ArrayVec<u8, 96>, bytes: &[u8])
    requires { length text.old.items + length bytes.now ≤ 96 }
    ensures { text.new.items ≡ text.old.items ++ bytes.now }
{
    match text.try_extend_from_slice(bytes) {
        Ok(()) => {}
        Err(_) => {}
    }
}

/// Adds a parameter: its id, the length of its value, its value.
#[tactic(auto, unfolding(crate::specs::Writing::parameter_text))]
fn put_parameter(text: &mut ArrayVec<u8, 96>, id: u16, value: &[u8], little: bool)
    requires room { length text.old.items + length value.now + 4 ≤ 96 }
    ensures text { text.new.items ≡ text.old.items ++ parameter_text little id value.now }
    ensures len { length text.new.items ≡ length text.old.items + length value.now + 4 }
{
    put(text, &u16_octets(id, little));
    put(text, &u16_octets(value.len() as u16, little));
    put(text, value);
}

/// Adds the key hash, where there is one.
fn put_hash(text: &mut ArrayVec<u8, 96>, hash: Option<Key>, little: bool)
    requires room { length text.old.items + 20 ≤ 96 }
    ensures text { text.new.items ≡ text.old.items ++ hash_text little hash }
    ensures len { length text.new.items ≤ length text.old.items + 20 }
    ensures key { IsWholeKey hash }
{
    if let Some(key) = hash {
        put_parameter(text, KEY_HASH, &key.0, little);
    }
}

/// Adds the status, where it is not 0.
fn put_status(text: &mut ArrayVec<u8, 96>, status: u8, little: bool)
    requires room { length text.old.items + 8 ≤ 96 }
    ensures text { text.new.items ≡ text.old.items ++ status_text little status }
    ensures len { length text.new.items ≤ length text.old.items + 8 }
{
    if status != 0 {
        put_parameter(text, STATUS_INFO, &[0, 0, 0, status], little);
    }
}

/// The sentinel, with the length 0.
#[tactic(auto, unfolding(crate::specs::Writing::parameter_text))]
fn sentinel(little: bool) -> [u8; 4]
    ensures { result ≡ sentinel_text little }
{
    let mut out = [0; 4];
    let (id, len) = out.split_at_mut(2);
    id.copy_from_slice(&u16_octets(SENTINEL, little));
    len.copy_from_slice(&u16_octets(0, little));
    out
}

/// The value of an original writer info: the GUID, the number and a list of one sentinel.
fn original_value(guid: Guid, number: Number, little: bool) -> [u8; 28]
    ensures { result ≡ guid ++ (sequence_octets little number ++ sentinel_text little) }
{
    let mut out = [0; 28];
    let (front, rest) = out.split_at_mut(16);
    let (middle, end) = rest.split_at_mut(8);
    front.copy_from_slice(&guid.0);
    middle.copy_from_slice(&octets_of_sequence(number.get(), little));
    end.copy_from_slice(&sentinel(little));
    out
}

/// Adds the original, where there is one.
fn put_original(text: &mut ArrayVec<u8, 96>, original: Option<(Guid, Number)>, little: bool)
    requires room { length text.old.items + 32 ≤ 96 }
    ensures text { text.new.items ≡ text.old.items ++ original_text little original }
    ensures len { length text.new.items ≤ length text.old.items + 32 }
    ensures whole { IsWholeOriginal original }
{
    if let Some((guid, number)) = original {
        let value = original_value(guid, number, little);
        put_parameter(text, ORIGINAL_WRITER_INFO, &value, little);
    }
}

/// Adds the lifespan, where it is finite. Its seconds and fraction are the halves of its ticks.
fn put_lifespan(text: &mut ArrayVec<u8, 96>, lifespan: Option<Ticks>, little: bool)
    requires room { length text.old.items + 12 ≤ 96 }
    ensures text { text.new.items ≡ text.old.items ++ lifespan_text little lifespan }
    ensures len { length text.new.items ≤ length text.old.items + 12 }
{
    if let Some(ticks) = lifespan {
        let value = octets_of_sequence(ticks.0, little);
        put_parameter(text, LIFESPAN, &value, little);
    }
}

/// Adds the coherent set, where the mark says one.
fn put_set(text: &mut ArrayVec<u8, 96>, set: SetMark, little: bool)
    requires room { length text.old.items + 12 ≤ 96 }
    ensures text { text.new.items ≡ text.old.items ++ set_text little set }
    ensures len { length text.new.items ≤ length text.old.items + 12 }
    ensures mark { IsMarkOfNumber set }
{
    let number = match set {
        SetMark::NoSet => return,
        SetMark::End => UNKNOWN,
        SetMark::Of(number) => number.get(),
    };
    let value = octets_of_sequence(number, little);
    put_parameter(text, COHERENT_SET, &value, little);
}

/// The text of what is told, at most 88 octets: what `write_list` writes.
#[tactic(auto, unfolding(crate::specs::Writing::list_text))]
pub fn list_octets(inline: &Inline, little: bool) -> ArrayVec<u8, 96>
    ensures text { result.items ≡ list_text little inline.now }
    ensures len { length result.items ≤ 88 }
    // What the types of the fields know.
    ensures key { IsWholeKey inline.now.hash }
    ensures whole { IsWholeOriginal inline.now.original }
    ensures mark { IsMarkOfNumber inline.now.set }
{
    let mut text = ArrayVec::new();
    put_hash(&mut text, inline.hash, little);
    put_status(&mut text, inline.status, little);
    put_original(&mut text, inline.original, little);
    put_lifespan(&mut text, inline.lifespan, little);
    put_set(&mut text, inline.set, little);
    put(&mut text, &sentinel(little));
    text
}

/// Writes the text of what is told to the front of `out`, and says how many octets it takes: key hash,
/// status, original, lifespan, set, each where it is present, and the sentinel. It is `Short`, and `out`
/// unchanged, exactly where the text is longer than `out`. Condition: nothing strange is told. Where what is
/// told lies in the ranges of a list, reading the text gives it back, whatever follows (DDSI-RTPS 9.4.2.11,
/// 9.6.4).
pub fn write_list(inline: &Inline, little: bool, out: &mut [u8]) -> Result<usize, Short>
    requires { inline.now.strange ≡ None }
    ensures ok { IfOk result (λ n. n ≡ length (list_text little inline.now)) }
    ensures text { IfOk result (λ n. out.new ≡ list_text little inline.now ++ drop n out.old) }
    ensures short { IsErr result ↔ (length out.old < length (list_text little inline.now)) }
    ensures unchanged { OnErr result (out.new ≡ out.old) }
    ensures back { IsWritable inline.now → IfOk result (λ n. (rest : List ℕ) → ListSpells (take n out.new ++ rest) little inline.now n) }
{
    let text = list_octets(inline, little);
    let len = text.len();
    if out.len() < len {
        return Err(Short);
    }
    let (front, _) = out.split_at_mut(len);
    front.copy_from_slice(text.as_slice());
    Ok(len)
}

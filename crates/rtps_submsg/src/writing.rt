//! Writing the one text of a submessage.

ghost use Rattle.std.specs.Prelude.{◌≡◌, ◌≤◌, ◌<◌, ◌+◌, ◌*◌, ◌/◌, ◌++◌, ◌↔◌, [], ◌∷◌, List, ℕ, length, drop, take, IsErr, IfOk, OnErr};
ghost use Rattle.std.specs.Int.{w16};
ghost use Rattle.dur_base.specs.Fields.{octets};
ghost use Rattle.rtps_submsg.specs.Subs.{SubSpells};
ghost use Rattle.rtps_submsg.specs.Writing.{set_text, data_text, heartbeat_text, acknack_text, gap_text, body_text, payload_text, id_of, own_flags, flag, form_flag, header_text, sub_text, HasText, IsKnown, IsInRange, IsTyped, IsNumberSet, IsEntities, IsDataTyped, IsHeartbeatTyped, IsAckNackTyped, IsGapTyped};

use crate::sub::{DataSub, Sub};
use arrayvec::ArrayVec;
use dur_base::{Bits, EntityId, Form, Number, octets_of_sequence, u16_octets, u32_octets};
use rtps_params::{Short, list_octets};

fn put(text: &mut ArrayVec<u8, 128>, bytes: &[u8])
    requires { length text.old.items + length bytes.now ≤ 128 }
    ensures { text.new.items ≡ text.old.items ++ bytes.now }
{
    match text.try_extend_from_slice(bytes) {
        Ok(()) => {}
        Err(_) => {}
    }
}

#[tactic(auto, unfolding(crate::specs::Writing::set_text))]
fn put_set(text: &mut ArrayVec<u8, 128>, set: &Bits, little: bool)
    requires room { length text.old.items + 44 ≤ 128 }
    ensures text { text.new.items ≡ text.old.items ++ set_text little set.now }
    ensures len { length text.new.items ≤ length text.old.items + 44 }
    ensures typed { IsNumberSet set.now }
{
    put(text, &octets_of_sequence(set.base().get(), little));
    put(text, &u32_octets(set.count(), little));
    let words = set.to_words();
    let (used, _) = words.split_at(set.count().div_ceil(32) as usize);
    for word in used {
        put(text, &u32_octets(*word, little));
    }
}

#[tactic(auto, unfolding(crate::specs::Writing::data_text))]
fn data_octets(d: &DataSub, little: bool) -> ArrayVec<u8, 128>
    ensures text { result.items ≡ data_text little d.now }
    ensures typed { IsDataTyped d.now }
{
    let mut text = ArrayVec::new();
    put(&mut text, &u16_octets(0, little));
    put(&mut text, &u16_octets(16, little));
    put(&mut text, &d.reader.0);
    put(&mut text, &d.writer.0);
    put(&mut text, &octets_of_sequence(d.number.get(), little));
    let list = list_octets(&d.inline, little);
    put(&mut text, list.as_slice());
    text
}

#[tactic(auto, unfolding(crate::specs::Writing::heartbeat_text))]
fn heartbeat_octets(
    reader: EntityId,
    writer: EntityId,
    first: Number,
    last: u64,
    count: u32,
    little: bool,
) -> ArrayVec<u8, 128>
    ensures text { result.items ≡ heartbeat_text little reader writer first last count }
    ensures typed { IsHeartbeatTyped reader writer first count }
{
    let mut text = ArrayVec::new();
    put(&mut text, &reader.0);
    put(&mut text, &writer.0);
    put(&mut text, &octets_of_sequence(first.get(), little));
    put(&mut text, &octets_of_sequence(last, little));
    put(&mut text, &u32_octets(count, little));
    text
}

#[tactic(auto, unfolding(crate::specs::Writing::acknack_text))]
fn acknack_octets(
    reader: EntityId,
    writer: EntityId,
    set: &Bits,
    count: u32,
    little: bool,
) -> ArrayVec<u8, 128>
    ensures text { result.items ≡ acknack_text little reader writer set.now count }
    ensures typed { IsAckNackTyped reader writer set.now count }
{
    let mut text = ArrayVec::new();
    put(&mut text, &reader.0);
    put(&mut text, &writer.0);
    put_set(&mut text, set, little);
    put(&mut text, &u32_octets(count, little));
    text
}

#[tactic(auto, unfolding(crate::specs::Writing::gap_text))]
fn gap_octets(
    reader: EntityId,
    writer: EntityId,
    start: Number,
    set: &Bits,
    little: bool,
) -> ArrayVec<u8, 128>
    ensures text { result.items ≡ gap_text little reader writer start set.now }
    ensures typed { IsGapTyped reader writer start set.now }
{
    let mut text = ArrayVec::new();
    put(&mut text, &reader.0);
    put(&mut text, &writer.0);
    put(&mut text, &octets_of_sequence(start.get(), little));
    put_set(&mut text, set, little);
    text
}

fn of(bytes: &[u8]) -> ArrayVec<u8, 128>
    requires { length bytes.now ≤ 128 }
    ensures { result.items ≡ bytes.now }
{
    let mut text = ArrayVec::new();
    put(&mut text, bytes);
    text
}

fn info_src_octets(prefix: &[u8; 12]) -> ArrayVec<u8, 128>
    ensures { result.items ≡ (0 ∷ 0 ∷ 0 ∷ 0 ∷ 2 ∷ 5 ∷ 0 ∷ 0 ∷ []) ++ prefix.now }
{
    let mut text = of(&[0, 0, 0, 0, 2, 5, 0, 0]);
    put(&mut text, prefix);
    text
}

fn body_octets(sub: &Sub, little: bool) -> ArrayVec<u8, 128>
    requires { IsKnown sub.now }
    ensures text { result.items ≡ body_text little sub.now }
    ensures typed { IsTyped sub.now }
{
    match sub {
        Sub::Pad | Sub::InfoTs(None) | Sub::Other(_) => ArrayVec::new(),
        Sub::InfoTs(Some(ticks)) => of(&octets_of_sequence(ticks.0, little)),
        Sub::InfoDst(prefix) => of(&prefix.0),
        Sub::InfoSrc(prefix) => info_src_octets(&prefix.0),
        Sub::Data(data) => data_octets(data, little),
        Sub::Heartbeat {
            reader,
            writer,
            first,
            last,
            count,
            ..
        } => { heartbeat_octets(*reader, *writer, *first, *last, *count, little) }
        Sub::AckNack {
            reader,
            writer,
            set,
            count,
            ..
        } => { acknack_octets(*reader, *writer, set, *count, little) }
        Sub::Gap {
            reader,
            writer,
            start,
            set,
        } => { gap_octets(*reader, *writer, *start, set, little) }
    }
}

fn id(sub: &Sub) -> u8
    ensures { result ≡ id_of sub.now }
{
    match sub {
        Sub::Pad => 0x01,
        Sub::AckNack { .. } => 0x06,
        Sub::Heartbeat { .. } => 0x07,
        Sub::Gap { .. } => 0x08,
        Sub::InfoTs(_) => 0x09,
        Sub::InfoSrc(_) => 0x0c,
        Sub::InfoDst(_) => 0x0e,
        Sub::Data(_) => 0x15,
        Sub::Other(id) => *id,
    }
}

fn flag_if(holds: bool, bit: u8) -> u8
    ensures { result ≡ flag holds bit }
{
    if holds { bit } else { 0 }
}

fn form_octet(form: Form) -> u8
    ensures value { result ≡ form_flag form }
    ensures bound { result ≤ 8 }
{
    match form {
        Form::Nothing => 0,
        Form::Data => 0x04,
        Form::KeyOnly => 0x08,
    }
}

fn flags(sub: &Sub) -> u8
    ensures value { result ≡ own_flags sub.now }
    ensures bound { result ≤ 10 }
{
    match sub {
        Sub::InfoTs(None) => 0x02,
        Sub::Data(d) => 0x02 + form_octet(d.form),
        Sub::Heartbeat {
            is_final,
            liveliness,
            ..
        } => flag_if(*is_final, 0x02) + flag_if(*liveliness, 0x04),
        Sub::AckNack { is_final, .. } => flag_if(*is_final, 0x02),
        _ => 0,
    }
}

fn payload<'a>(sub: &Sub<'a>) -> &'a [u8]
    ensures { result.now ≡ payload_text sub.now }
{
    match sub {
        Sub::Data(d) => d.payload,
        _ => &[],
    }
}

fn header(sub: &Sub, len: u16, little: bool) -> [u8; 4]
    ensures { result ≡ (id_of sub.now ∷ (own_flags sub.now + flag little 0x01) ∷ []) ++ octets little w16 len }
{
    let mut out = [id(sub), flags(sub) + flag_if(little, 0x01), 0, 0];
    let (_, place) = out.split_at_mut(2);
    place.copy_from_slice(&u16_octets(len, little));
    out
}

/// Writes three pieces to the front.
fn place(out: &mut [u8], header: &[u8; 4], body: &[u8], payload: &[u8])
    requires { 4 + (length body.now + length payload.now) ≤ length out.old }
    ensures { out.new ≡ (header.now ++ (body.now ++ payload.now)) ++ drop (4 + (length body.now + length payload.now)) out.old }
{
    let (front, rest) = out.split_at_mut(4);
    let (middle, rest) = rest.split_at_mut(body.len());
    let (end, _) = rest.split_at_mut(payload.len());
    front.copy_from_slice(header);
    middle.copy_from_slice(body);
    end.copy_from_slice(payload);
}

/// Writes the one text of the submessage to the front of `out`, and says how many octets it takes: a DATA
/// with extraFlags 0, octetsToInlineQos 16 and a list, also an empty one; an INFO_SRC of version 2.5 and
/// vendor 0000; zeros where nothing is said. It is `Short`, and `out` unchanged, exactly where the text is
/// longer than `out`. Conditions: it is not `Other`, and its body has at most 65,535 octets. Where its
/// fields lie in the ranges of the table, the text reads again as it and takes exactly its octets,
/// whatever follows (DDSI-RTPS 9.4).
#[tactic(auto, using(crate::proofs::Text::length_sub), unfolding(crate::specs::Writing::sub_text))]
pub fn write_sub(sub: &Sub, little: bool, out: &mut [u8]) -> Result<usize, Short>
    requires { HasText little sub.now }
    ensures ok { IfOk result (λ n. n ≡ length (sub_text little sub.now)) }
    ensures text { IfOk result (λ n. out.new ≡ sub_text little sub.now ++ drop n out.old) }
    ensures short { IsErr result ↔ (length out.old < length (sub_text little sub.now)) }
    ensures unchanged { OnErr result (out.new ≡ out.old) }
    ensures back { IsInRange sub.now → IfOk result (λ n. (rest : List ℕ) → SubSpells (take n out.new ++ rest) sub.now n) }
{
    let body = body_octets(sub, little);
    let payload = payload(sub);
    let len = body.len() + payload.len();
    if out.len() < 4 + len {
        return Err(Short);
    }
    let header = header(sub, len as u16, little);
    place(out, &header, body.as_slice(), payload);
    Ok(4 + len)
}

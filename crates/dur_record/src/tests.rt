//! The texts octet by octet, and each kind of fault once.

ghost use Rattle.std.specs.Prelude.{Some};
ghost use Rattle.dur_view.specs.History.{History};
ghost use Rattle.dur_record.specs.Past.{IsPast};

use crate::{
    Past, TextFault, Version, entries_have_one_reading, past_of, read_entries, read_entries_1,
    read_following, read_view, read_view_1, views_have_one_reading, write_entries, write_view,
};
use bytes::Bytes;
use dur_base::{Entry, Guid, List, Number, Octets, OutOfMemory, Ticks, u64_octets};
use dur_view::View;
use std::alloc::Global;
use std::test::*;

const W: Guid = Guid([0xa1; 16]);

// A view with one of each part, up to the length of its held member's payload.
const HEAD: &[u8] = b"\x09\0\0\0\0\0\0\0\
\x01\0\0\0\x01t\x01\x03\0\0\0\0\0\0\0\0\0\0\0\x04\0\0\0\0\0\0\0\x05\0\0\0\
\x01\0\0\0\xa1\xa1\xa1\xa1\xa1\xa1\xa1\xa1\xa1\xa1\xa1\xa1\xa1\xa1\xa1\xa1\0\0\0\0\x07\0\0\0\0\0\0\0\x01\0\0\0\0\0\0\0\
\x06\0\0\0\0\0\0\0\x08\0\0\0\0\0\0\0\0\x01kkkkkkkkkkkkkkkk\x03\0\0\0\0\0\0\0\x01\x05\0\0\0\0\0\0\0\x02\x06\0\0\0\0\0\0\0\x01gggggggggggggggg\x02\0\0\0\0\0\0\0";

// That payload, and the rest up to the arrival of the kept change.
const MIDDLE: &[u8] = b"pq\
\x02\0\0\0\0\0\0\0\0\0\0\0iiiiiiiiiiiiiiii\x01\x01\x04\0\0\0\0\0\0\0\0\0\0\0\0\0\0\0\0\0\0\0\
\0\0\0\0jjjjjjjjjjjjjjjj\0\0\x01\0\0\0\0\0\0\0\x01\0\0\0\0\0\0\0\
\x01\0\0\0\0\0\0\0\x01\0\0\0\0\0\0\0\x01\0\0\0\0\0\0\0\xa1\xa1\xa1\xa1\xa1\xa1\xa1\xa1\xa1\xa1\xa1\xa1\xa1\xa1\xa1\xa1\x05\0\0\0\0\0\0\0";

// The sample of the kept change, up to the length of its payload.
const SAMPLE: &[u8] = b"\x01\0jjjjjjjjjjjjjjjj\0\0\0\0\0\0\0\0\0\x01\0";

// The place of the kept change's arrival in version 2.
const ARRIVAL: usize = 310;

// A view with one of each part.
fn view_text(alloc: Global, version: Version) -> Result<Octets, OutOfMemory> {
    let width = if version == Version::Two { 8 } else { 4 };
    let mut out = Octets::new(alloc);
    out.append(HEAD)?;
    out.append(&u64_octets(2, true)[..width])?;
    out.append(MIDDLE)?;
    if version == Version::Two {
        out.append(b"\x01\x09\0\0\0\0\0\0\0")?;
    }
    out.append(SAMPLE)?;
    out.append(&u64_octets(0, true)[..width])?;
    Ok(out)
}

// Octets as a text that can be shared.
fn shared(alloc: Global, octets: &[u8]) -> Result<Bytes<Global>, OutOfMemory> {
    match Bytes::copy_from_slice(alloc, octets) {
        Ok(text) => Ok(text),
        Err(_) => Err(OutOfMemory),
    }
}

fn view_fault(alloc: Global, octets: &[u8]) -> Option<TextFault> {
    let text = shared(alloc, octets).ok()?;
    read_view(alloc, text).err()
}

fn entries_fault(alloc: Global, octets: &[u8]) -> Option<TextFault> {
    let text = shared(alloc, octets).ok()?;
    read_entries(alloc, text).err()
}

// The fault of a text with one octet changed.
fn changed(alloc: Global, octets: &[u8], place: usize, octet: u8) -> Option<TextFault> {
    let mut text = Vec::from_slice(alloc, octets).ok()?;
    if place < text.len() {
        text[place] = octet;
    }
    view_fault(alloc, text.as_slice())
}

#[test]
fn the_empty_view_is_32_zeros(rt: HostRuntime) {
    let alloc = rt.alloc();
    match read_view(alloc, shared(alloc, &[0; 32]).expect(&rt, "memory")) {
        Ok(view) => {
            assert!(rt; view.last.0 == 0 && view.topics.len() == 0 && view.kept.len() == 0);
            let mut out = Octets::new(alloc);
            assert!(rt; out.append(b"x").is_ok() && write_view(&mut out, &view).is_ok());
            assert!(rt; out.len() == 33 && out.as_slice()[1..] == [0; 32]);
        }
        Err(_) => assert!(rt; false),
    }
    assert!(rt; view_fault(alloc, &[0; 33]) == Some(TextFault::BadField(32)));
    assert!(rt; view_fault(alloc, &[0; 31]) == Some(TextFault::Cut(24)));
    views_have_one_reading(&[0; 31], Version::One);
}

#[test]
fn a_view_with_each_part(rt: HostRuntime) {
    let alloc = rt.alloc();
    let text = view_text(alloc, Version::Two).expect(&rt, "memory");
    match read_view(alloc, shared(alloc, text.as_slice()).expect(&rt, "memory")) {
        Ok(view) => {
            assert!(rt;
                view.topics.len() == 1 && view.writers.len() == 1 && view.instances.len() == 2
            );
            match view.kept.as_slice() {
                [change] => {
                    assert!(rt; change.arrived == Some(Ticks(9)) && change.number.get() == 5);
                    assert!(rt; change.writer == W);
                }
                _ => assert!(rt; false),
            }
            let mut out = Octets::new(alloc);
            assert!(rt; write_view(&mut out, &view).is_ok() && out.as_slice() == text.as_slice());
        }
        Err(_) => assert!(rt; false),
    }
}

#[test]
fn a_view_of_version_1_tells_no_arrivals(rt: HostRuntime) {
    let alloc = rt.alloc();
    let text = view_text(alloc, Version::One).expect(&rt, "memory");
    match read_view_1(alloc, shared(alloc, text.as_slice()).expect(&rt, "memory")) {
        Ok(view) => match (view.kept.as_slice(), view.writers.as_slice()) {
            ([change], [writer]) => {
                assert!(rt; change.arrived.is_none() && change.number.get() == 5);
                match writer.held.as_slice() {
                    [member] => assert!(rt; member.sample.payload.as_slice() == b"pq".as_slice()),
                    _ => assert!(rt; false),
                }
            }
            _ => assert!(rt; false),
        },
        Err(_) => assert!(rt; false),
    }
    // As a text of version 2 its held payload is too long.
    let place = HEAD.len();
    assert!(rt; view_fault(alloc, text.as_slice()) == Some(TextFault::BadField(place)));
}

#[test]
fn rules_of_a_view_break_at_their_fields(rt: HostRuntime) {
    let alloc = rt.alloc();
    let text = view_text(alloc, Version::Two).expect(&rt, "memory");
    let text = text.as_slice();
    assert!(rt; view_fault(alloc, text).is_none());
    // The shape, max_per_instance below the depth, and the topic of the writer.
    assert!(rt; changed(alloc, text, 14, 4) == Some(TextFault::BadField(14)));
    assert!(rt; changed(alloc, text, 27, 2) == Some(TextFault::BadField(27)));
    assert!(rt; changed(alloc, text, 59, 1) == Some(TextFault::BadField(59)));
    // The held number, its moment, and the tag of its set.
    assert!(rt; changed(alloc, text, 79, 5) == Some(TextFault::BadField(79)));
    assert!(rt; changed(alloc, text, 87, 10) == Some(TextFault::BadField(87)));
    assert!(rt; changed(alloc, text, 130, 1) == Some(TextFault::BadField(130)));
    // An arrival after the last moment.
    assert!(rt; changed(alloc, text, ARRIVAL + 1, 10) == Some(TextFault::BadField(ARRIVAL + 1)));
    // An act that is no change, and a key that is not the instance's.
    assert!(rt; changed(alloc, text, ARRIVAL + 9, 2) == Some(TextFault::BadField(ARRIVAL + 9)));
    assert!(rt;
        changed(alloc, text, ARRIVAL + 11, b'i') == Some(TextFault::BadField(ARRIVAL + 11))
    );
    // The mark of the change's set.
    assert!(rt; changed(alloc, text, ARRIVAL + 36, 3) == Some(TextFault::BadField(ARRIVAL + 36)));
}

#[test]
fn faults_of_entries(rt: HostRuntime) {
    let alloc = rt.alloc();
    assert!(rt; entries_fault(alloc, b"").is_none());
    assert!(rt; entries_fault(alloc, b"\x04") == Some(TextFault::BadTag(0)));
    assert!(rt; entries_fault(alloc, b"\x03\0\0") == Some(TextFault::Cut(1)));
    // A skip from 3 to 2, cut inside its last number and whole.
    let skip = b"\x02\x01\0\0\0\0\0\0\0gggggggggggggggg\x03\0\0\0\0\0\0\0\x02\0\0\0\0\0\0\0";
    assert!(rt; entries_fault(alloc, &skip[..40]) == Some(TextFault::Cut(33)));
    assert!(rt; entries_fault(alloc, skip) == Some(TextFault::BadField(33)));
    entries_have_one_reading(skip, Version::Two);
}

#[test]
fn both_versions_of_a_payload(rt: HostRuntime) {
    let alloc = rt.alloc();
    let one =
        b"\x01\x01\0\0\0\0\0\0\0gggggggggggggggg\x03\0\0\0\0\0\0\0\0\x01kkkkkkkkkkkkkkkk\0\0\0\0\0\0\0\0\0\0\0\x02\0\0\0pq";
    let two =
        b"\x01\x01\0\0\0\0\0\0\0gggggggggggggggg\x03\0\0\0\0\0\0\0\0\x01kkkkkkkkkkkkkkkk\0\0\0\0\0\0\0\0\0\0\0\x02\0\0\0\0\0\0\0pq";
    assert!(rt; read_entries_1(alloc, shared(alloc, one).expect(&rt, "memory")).is_ok());
    assert!(rt; entries_fault(alloc, two).is_none());
    assert!(rt; entries_fault(alloc, one) == Some(TextFault::Cut(62)));
}

#[test]
fn entries_are_written_and_read(rt: HostRuntime) {
    let alloc = rt.alloc();
    let mut entries = List::new(alloc);
    let skip = Entry::Skip {
        moment: Ticks(1),
        writer: W,
        from: Number::at(7),
        to: Number::at(9),
    };
    assert!(rt; entries.push(skip).is_ok());
    let mut out = Octets::new(alloc);
    assert!(rt; write_entries(&mut out, &entries).is_ok() && out.len() == 41);
    assert!(rt; entries_fault(alloc, out.as_slice()).is_none());
}

// The text of a skip over 14 numbers.
fn skip(alloc: Global, moment: u8, writer: u8, from: u8) -> Result<Octets, OutOfMemory> {
    let mut text = Octets::new(alloc);
    text.append(&[2])?;
    text.append(&u64_octets(u64::from(moment), true))?;
    text.append(&[writer; 16])?;
    text.append(&u64_octets(u64::from(from), true))?;
    text.append(&u64_octets(u64::from(from) + 13, true))?;
    Ok(text)
}

// The fault of a text after a view.
fn following(alloc: Global, view: &View, octets: &[u8]) -> Option<TextFault> {
    let text = shared(alloc, octets).ok()?;
    match past_of(alloc, view) {
        Ok(mut past) => read_following(alloc, text, Version::Two, &mut past).err(),
        Err(_) => None,
    }
}

// The fault of a skip after a view.
fn after(alloc: Global, view: &View, moment: u8, writer: u8, from: u8) -> Option<TextFault> {
    let text = skip(alloc, moment, writer, from).ok()?;
    following(alloc, view, text.as_slice())
}

// The fault of one text after a history, or of another behind it.
fn both(
    alloc: Global,
    past: &mut Past,
    one: Bytes<Global>,
    other: Bytes<Global>,
) -> Option<TextFault>
    requires { (h : History) × IsPast past.old (Some h) }
{
    match read_following(alloc, one, Version::Two, past) {
        Ok(_) => read_following(alloc, other, Version::Two, past).err(),
        Err(fault) => Some(fault),
    }
}

// The fault of a skip after a view and the text of a skip from 7 to 20 at moment 10.
fn after_one(alloc: Global, view: &View, moment: u8, from: u8) -> Option<TextFault> {
    let one = skip(alloc, 10, 0xa1, 7).ok()?;
    let one = shared(alloc, one.as_slice()).ok()?;
    let other = skip(alloc, moment, 0xa1, from).ok()?;
    let other = shared(alloc, other.as_slice()).ok()?;
    match past_of(alloc, view) {
        Ok(mut past) => both(alloc, &mut past, one, other),
        Err(_) => None,
    }
}

#[test]
fn each_rule_of_following_at_its_field(rt: HostRuntime) {
    let alloc = rt.alloc();
    let text = view_text(alloc, Version::Two).expect(&rt, "memory");
    match read_view(alloc, shared(alloc, text.as_slice()).expect(&rt, "memory")) {
        Ok(view) => {
            assert!(rt; after(alloc, &view, 9, 0xa1, 7).is_none());
            assert!(rt; after(alloc, &view, 8, 0xa1, 7) == Some(TextFault::BadField(1)));
            assert!(rt; after(alloc, &view, 9, 0xa2, 7) == Some(TextFault::BadField(9)));
            assert!(rt; after(alloc, &view, 9, 0xa1, 8) == Some(TextFault::BadField(25)));
            // One record behind another: the second goes on behind 20, and at the first one's moment or later.
            assert!(rt; after_one(alloc, &view, 10, 21).is_none());
            assert!(rt; after_one(alloc, &view, 9, 21) == Some(TextFault::BadField(1)));
            assert!(rt; after_one(alloc, &view, 10, 7) == Some(TextFault::BadField(25)));
        }
        Err(_) => assert!(rt; false),
    }
}

#[test]
fn a_key_of_a_topic_without_keys_is_zero(rt: HostRuntime) {
    let alloc = rt.alloc();
    // The same view, but of shape none, with no instances and no kept changes; its held key is then zero.
    let mut text = Vec::from_slice(alloc, HEAD).expect(&rt, "memory");
    text[14] = 0;
    for place in 97..113 {
        text[place] = 0;
    }
    assert!(rt;
        text.extend_from_slice(b"\x02\0\0\0\0\0\0\0pq\0\0\0\0\0\0\0\0\0\0\0\0\0\0\0\0")
            .is_ok()
    );
    match read_view(alloc, shared(alloc, text.as_slice()).expect(&rt, "memory")) {
        Ok(view) => {
            let took =
                b"\x01\x09\0\0\0\0\0\0\0\xa1\xa1\xa1\xa1\xa1\xa1\xa1\xa1\xa1\xa1\xa1\xa1\xa1\xa1\xa1\xa1\x07\0\0\0\0\0\0\0\0\x01kkkkkkkkkkkkkkkk\0\0\0\0\0\0\0\0\0\0\0\0\0\0\0\0\0\0\0";
            let fault = following(alloc, &view, took);
            assert!(rt; fault == Some(TextFault::BadField(35)));
        }
        Err(_) => assert!(rt; false),
    }
}

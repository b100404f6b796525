//! Each public call on its happy path, with values worked out by hand.

use crate::{
    Act, Bits, EntityId, Entry, Form, Guid, Key, List, Name, Number, Octets, OutOfMemory, Payload,
    Prefix, Raw, Sample, SetMark, Ticks, is_a_name, later, octets_of_sequence, sequence_of,
    sets_have_one_form, u16_octets, u16_of, u32_octets, u32_of, u64_octets, u64_of,
};
use bytes::Bytes;
use std::alloc::Global;

fn sample(alloc: Global) -> Option<Sample> {
    let payload = Bytes::copy_from_slice(alloc, b"\0\x01\0\0*\0\0\0").ok()?;
    Some(Sample {
        key: Key([0xaa; 16]),
        act: Act::Write,
        stamp: Ticks(6),
        lifespan: Some(Ticks(0x7fff_fffe_ffff_ffff)),
        set: SetMark::Of(Number::one()),
        original: Some((Guid([0xa1; 16]), Number::one())),
        form: Form::Data,
        payload: Payload::of(payload),
    })
}

#[test]
fn numbers_and_identities(rt: HostRuntime) {
    let guid = Guid::of(Prefix([0xa1; 12]), EntityId([0, 0, 1, 2]));
    assert!(rt; guid.0[11] == 0xa1 && guid.0[12] == 0 && guid.0[15] == 2);
    assert!(rt; guid.prefix() == Prefix([0xa1; 12]) && guid.entity() == EntityId([0, 0, 1, 2]));
    assert!(rt; Number::new(0).is_none() && Number::new(0x8000_0000_0000_0000).is_none());
    assert!(rt; Number::at(7).next().get() == 8 && later(Ticks(5), Ticks(6)) == Ticks(6));
}

#[test]
fn want_of_memory_has_a_text(rt: HostRuntime) {
    let text = OutOfMemory.to_string(rt.alloc()).expect(&rt, "memory");
    assert!(rt; text.as_str() == "out of memory");
}

#[test]
fn fields_in_both_orders(rt: HostRuntime) {
    assert!(rt; u16_of(&u16_octets(0x0102, false), true) == 0x0201);
    assert!(rt; u32_of(&u32_octets(0x0102_0304, true), false) == 0x0403_0201);
    assert!(rt; u64_of(&u64_octets(0x0102_0304_0506_0708, true), false) == 0x0807_0605_0403_0201);
    assert!(rt; octets_of_sequence(0x1_0000_0002, true) == [1, 0, 0, 0, 2, 0, 0, 0]);
    assert!(rt; sequence_of(&[0, 0, 0, 1, 0, 0, 0, 2], false) == 0x1_0000_0002);
}

#[test]
fn a_set_has_one_form(rt: HostRuntime) {
    sets_have_one_form();
    let mut set = Bits::empty(Number::at(2));
    set.push(0);
    set.push(33);
    let same = Bits::of(Number::at(2), [0x8000_0000, 0x4000_0000, 0, 0, 0, 0, 0, 0]);
    assert!(rt; set == same && set.count() == 34 && set.base().get() == 2);
    assert!(rt; set.has(33) && !set.has(32) && set.words()[1] == set.to_words()[1]);
}

#[test]
fn lists_octets_and_names(rt: HostRuntime) {
    let alloc = rt.alloc();
    let mut list = List::new(alloc);
    assert!(rt; list.push(4u64).is_ok() && list.len() == 1 && list.as_slice()[0] == 4);
    let again = List::of(list.into_vec());
    let mut octets = Octets::new(again.alloc());
    assert!(rt; octets.append(b"ab").is_ok() && octets.append(b"c").is_ok() && octets.len() == 3);
    let again = Octets::of(octets.into_vec());
    assert!(rt; again.as_slice() == b"abc".as_slice());
    assert!(rt; is_a_name(b"a/B_9") && !is_a_name(b"") && !is_a_name(b"a b"));
    assert!(rt; Name::of(b"T").copy().as_slice() == b"T".as_slice());
}

#[test]
fn samples_are_copied_and_judged(rt: HostRuntime) {
    let sample = sample(rt.alloc()).expect(&rt, "memory");
    assert!(rt; sample.is_good());
    let entry = Entry::Took {
        moment: Ticks(6),
        writer: Guid([0xa1; 16]),
        number: Number::one(),
        sample,
    };
    match entry.copy().expect(&rt, "memory") {
        Entry::Took { sample, .. } => {
            assert!(rt; sample.payload.len() == 8);
            let part = sample.payload.part(4, 5).expect(&rt, "memory");
            assert!(rt; part.as_slice() == b"*".as_slice());
            assert!(rt; sample.key == Key([0xaa; 16]) && sample.act == Act::Write);
        }
        Entry::Skip { .. } | Entry::Lost { .. } => assert!(rt; false),
    }
}

#[test]
fn a_small_part_of_much_is_kept_by_itself(rt: HostRuntime) {
    let much = Bytes::copy_from_slice(rt.alloc(), &[0xaa; 1200]).expect(&rt, "memory");
    let mut sample = sample(rt.alloc()).expect(&rt, "memory");
    sample.payload = Payload::of(much).part(3, 7).expect(&rt, "memory");
    let kept = sample.to_keep(rt.alloc()).expect(&rt, "memory");
    assert!(rt; kept.payload.as_slice() == [0xaa; 4].as_slice());
    let again = kept.to_keep(rt.alloc()).expect(&rt, "memory");
    assert!(rt; again.payload.as_slice() == [0xaa; 4].as_slice());
}

#[test]
fn a_status_above_three_is_not_good(rt: HostRuntime) {
    let raw = Raw {
        hash: None,
        status: 4,
        stamp: None,
        lifespan: None,
        set: SetMark::NoSet,
        original: None,
        form: Form::Nothing,
        payload: Payload::of(Bytes::copy_from_slice(rt.alloc(), b"").expect(&rt, "memory")),
    };
    assert!(rt; !raw.is_good());
}

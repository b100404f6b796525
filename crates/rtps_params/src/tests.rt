//! Lists whose octets were laid out by hand from the standard's tables.
use super::*;
use dur_base::{Guid, Key, Number, SetMark, Ticks};
use std::test::*;

const NOTHING: Inline = Inline {
    hash: None,
    status: 0,
    lifespan: None,
    set: SetMark::NoSet,
    original: None,
    strange: None,
};

const GUID: Guid = Guid(*b"AAAAAAAAAAAA\0\0\x01\x02");

#[test]
fn each_id_is_read(rt: HostRuntime) {
    let hash = Inline {
        hash: Some(Key(*b"aaaaaaaaaaaaaaaa")),
        ..NOTHING
    };
    let status = Inline {
        status: 3,
        ..NOTHING
    };
    let lifespan = Inline {
        lifespan: Some(Ticks(0x2_0000_0003)),
        ..NOTHING
    };
    let end = Inline {
        set: SetMark::End,
        ..NOTHING
    };
    let set = Inline {
        set: SetMark::Of(Number::one()),
        ..NOTHING
    };
    let original = Inline {
        original: Some((GUID, Number::one())),
        ..NOTHING
    };
    let strange = Inline {
        strange: Some(0xc101),
        ..NOTHING
    };
    let table: [(&[u8], bool, Inline); 9] = [
        (b"\x70\0\x10\0aaaaaaaaaaaaaaaa\x01\0\0\0", true, hash),
        (b"\0\x71\0\x04\xff\xff\xff\xff\0\x01\0\0", false, status),
        (
            b"\x2b\0\x08\0\x02\0\0\0\x03\0\0\0\x01\0\0\0",
            true,
            lifespan,
        ),
        (
            b"\0\x2b\0\x08\x7f\xff\xff\xff\0\0\0\x03\0\x01\0\0",
            false,
            NOTHING,
        ),
        (b"\x56\0\x08\0\xff\xff\xff\xff\0\0\0\0\x01\0\0\0", true, end),
        (b"\0\x56\0\x08\0\0\0\0\0\0\0\x01\0\x01\0\0", false, set),
        (
            b"\0\x61\0\x18AAAAAAAAAAAA\0\0\x01\x02\0\0\0\0\0\0\0\x01\0\x01\0\0",
            false,
            original,
        ),
        (b"\0\0\x04\0zzzz\x01\x80\0\0\x01\0\x07\0", true, NOTHING),
        (b"\xc1\x01\0\0\x40\x02\0\0\0\x01\0\0", false, strange),
    ];
    for (bytes, little, want) in table {
        assert!(rt; read_list(bytes, little) == Ok((want, bytes.len())));
    }
}

#[test]
fn each_fault_has_its_place(rt: HostRuntime) {
    let table: [(&[u8], bool, usize, ListKind); 8] = [
        (
            b"\x70\0\x10\0aaaaaaaaaaaaaaaa\x01\0",
            true,
            20,
            ListKind::Cut,
        ),
        (
            b"\0\x70\0\x10aaaaaaaaaaaaaaaa\0\x01\0",
            false,
            20,
            ListKind::Cut,
        ),
        (b"\0\0\0\0\x70\0\x10\0aaaa", true, 4, ListKind::Cut),
        (b"\0\0\0\0\0\x70\0\x10aaaa", false, 4, ListKind::Cut),
        (b"\x70\0\x0e\0aaaa", true, 0, ListKind::OddLength),
        (b"\0\x70\0\x0eaaaa", false, 0, ListKind::OddLength),
        (
            b"\x56\0\x08\0\0\0\0\0\0\0\0\0\x01\0\0\0",
            true,
            0,
            ListKind::BadValue(0x56),
        ),
        (
            b"\0\x2b\0\x08\x80\0\0\0\0\0\0\0\0\x01\0\0",
            false,
            0,
            ListKind::BadValue(0x2b),
        ),
    ];
    for (bytes, little, at, kind) in table {
        assert!(rt; read_list(bytes, little) == Err(ListFault { at, kind }));
    }
}

#[test]
fn a_repeated_parameter_counts_the_last_time(rt: HostRuntime) {
    let bytes = b"\x71\0\x04\0\0\0\0\x01\x71\0\x04\0\0\0\0\x02\x01\0\0\0more";
    let want = Inline {
        status: 2,
        ..NOTHING
    };
    assert!(rt; read_list(bytes, true) == Ok((want, 20)));
}

// An original whose own list is one sentinel, and the sentinel.
const ORIGINAL: &[u8] =
    b"\x61\0\x1c\0AAAAAAAAAAAA\0\0\x01\x02\0\0\0\0\x01\0\0\0\x01\0\0\0\x01\0\0\0";

#[test]
fn an_original_as_it_is_replayed(rt: HostRuntime) {
    let inline = Inline {
        original: Some((GUID, Number::one())),
        ..NOTHING
    };
    let mut out = [0; 36];
    let mut small = [0; 35];
    assert!(rt; write_list(&inline, true, &mut out) == Ok(36));
    assert!(rt; out.as_slice() == ORIGINAL);
    assert!(rt; write_list(&inline, true, &mut small) == Err(Short));
}

//! Submessages whose octets were laid out by hand from the standard's tables.
use super::*;
use dur_base::Prefix;
use rtps_params::{ListKind, Short};
use std::test::*;

/// What a table says of a submessage: its id, two of its values, and how many octets it takes.
#[derive(Clone, Copy, Debug, PartialEq, Eq, Drop)]
struct Seen(u8, u64, u64, usize);

fn seen_of(sub: &Sub, len: usize) -> Seen {
    match sub {
        Sub::Pad => Seen(0x01, 0, 0, len),
        Sub::AckNack { set, .. } => { Seen(0x06, set.base().get(), u64::from(set.words()[0]), len) }
        Sub::Heartbeat { first, last, .. } => Seen(0x07, first.get(), *last, len),
        Sub::Gap { start, set, .. } => Seen(0x08, start.get(), u64::from(set.words()[0]), len),
        Sub::InfoTs(Some(ticks)) => Seen(0x09, ticks.0, 0, len),
        Sub::InfoTs(None) => Seen(0x09, 0, 1, len),
        Sub::InfoSrc(prefix) => Seen(0x0c, u64::from(prefix.0[0]), u64::from(prefix.0[11]), len),
        Sub::InfoDst(prefix) => Seen(0x0e, u64::from(prefix.0[0]), u64::from(prefix.0[11]), len),
        Sub::Data(data) => Seen(0x15, data.number.get(), data.payload.len() as u64, len),
        Sub::Other(id) => Seen(*id, 0, 0, len),
    }
}

/// What is read, or None for a fault.
fn look(bytes: &[u8]) -> Option<Seen> {
    match read_sub(bytes) {
        Ok((sub, len)) => {
            let mut found = None;
            for sub in &[sub] {
                found = Some(seen_of(sub, len));
            }
            found
        }
        Err(_) => None,
    }
}

#[test]
fn each_id_in_both_orders(rt: HostRuntime) {
    let table: [(&[u8], Seen); 20] = [
        (b"\x01\x01\0\0\x07", Seen(0x01, 0, 0, 4)),
        (b"\x01\0\0\x01\x07", Seen(0x01, 0, 0, 5)),
        (
            b"\x06\x01\x1c\0rrrrwwww\0\0\0\0\x02\0\0\0\x03\0\0\0\xff\xff\xff\xbf\x01\0\0\0",
            Seen(0x06, 2, 0xa000_0000, 32),
        ),
        (
            b"\x06\x02\0\x1crrrrwwww\0\0\0\0\0\0\0\x02\0\0\0\x03\xbf\xff\xff\xff\0\0\0\x01",
            Seen(0x06, 2, 0xa000_0000, 32),
        ),
        (
            b"\x07\x01\x1c\0rrrrwwww\0\0\0\0\x03\0\0\0\0\0\0\0\x02\0\0\0\x01\0\0\0",
            Seen(0x07, 3, 2, 32),
        ),
        (
            b"\x07\x06\0\x1crrrrwwww\0\0\0\0\0\0\0\x03\0\0\0\x01\0\0\0\x04\0\0\0\x01",
            Seen(0x07, 3, 0x1_0000_0004, 32),
        ),
        (
            b"\x08\x01\x20\0rrrrwwww\0\0\0\0\x03\0\0\0\0\0\0\0\x05\0\0\0\x01\0\0\0\0\0\0\x80",
            Seen(0x08, 3, 0x8000_0000, 36),
        ),
        (
            b"\x08\0\0\x20rrrrwwww\0\0\0\0\0\0\0\x03\0\0\0\0\0\0\0\x05\0\0\0\x01\x80\0\0\0",
            Seen(0x08, 3, 0x8000_0000, 36),
        ),
        (
            b"\x09\x01\x08\0\x05\0\0\0\x01\0\0\0",
            Seen(0x09, 0x5_0000_0001, 0, 12),
        ),
        (
            b"\x09\0\0\x08\0\0\0\x05\0\0\0\x01",
            Seen(0x09, 0x5_0000_0001, 0, 12),
        ),
        (b"\x09\x03\0\0\x07", Seen(0x09, 0, 1, 4)),
        (b"\x09\x02\0\0\x07", Seen(0x09, 0, 1, 4)),
        (
            b"\x0c\x01\x14\0\0\0\0\0\x02\x05\0\0ppppppppppqr",
            Seen(0x0c, 0x70, 0x72, 24),
        ),
        (
            b"\x0c\0\0\x14\0\0\0\0\x02\x05\0\0ppppppppppqr",
            Seen(0x0c, 0x70, 0x72, 24),
        ),
        (b"\x0e\x01\x0c\0ppppppppppqr", Seen(0x0e, 0x70, 0x72, 16)),
        (b"\x0e\0\0\x0cppppppppppqr", Seen(0x0e, 0x70, 0x72, 16)),
        (
            b"\x15\x07\x1c\0\0\0\x10\0rrrrwwww\0\0\0\0\x01\0\0\0\x01\0\0\0data",
            Seen(0x15, 1, 4, 32),
        ),
        (
            b"\x15\x04\0\0\0\0\0\x12rrrrwwww\0\0\0\0\0\0\0\x01zzdata",
            Seen(0x15, 1, 4, 30),
        ),
        (b"\x80\x01\0\0\x07", Seen(0x80, 0, 0, 5)),
        (b"\x80\0\0\x01\x07\x07", Seen(0x80, 0, 0, 5)),
    ];
    for (bytes, want) in table {
        assert!(rt; look(bytes) == Some(want));
    }
}

fn faulty(bytes: &[u8], at: usize, kind: SubKind) -> bool {
    match read_sub(bytes) {
        Ok(_) => false,
        Err(fault) => fault.at == at && fault.kind == kind,
    }
}

#[test]
fn each_fault_has_its_place(rt: HostRuntime) {
    let table: [(&[u8], usize, SubKind); 14] = [
        (b"\x15\x07", 0, SubKind::Cut),
        (b"\x09\x01\x08\0\x05", 4, SubKind::Cut),
        (b"\x09\0\0\x06\0\0\0\x05\0\0", 8, SubKind::Cut),
        (
            b"\x06\x01\x18\0rrrrwwww\0\0\0\0\x02\0\0\0\x21\0\0\0\xff\xff\xff\xff",
            28,
            SubKind::Cut,
        ),
        (b"\x15\x0f\0\0", 1, SubKind::BothDataAndKey),
        (b"\x15\x05\x04\0\0\0\x0f\0", 6, SubKind::BadOffset),
        (
            b"\x15\x05\x14\0\0\0\x10\0rrrrwwww\0\0\0\0\0\0\0\0",
            16,
            SubKind::BadNumber,
        ),
        (
            b"\x07\0\0\x1crrrrwwww\x80\0\0\0\0\0\0\x03\0\0\0\0\0\0\0\x04\0\0\0\x01",
            12,
            SubKind::BadNumber,
        ),
        (
            b"\x08\x01\x20\0rrrrwwww\0\0\0\0\x03\0\0\0\0\0\0\0\0\0\0\0\x01\0\0\0\0\0\0\x80",
            20,
            SubKind::BadSet,
        ),
        (
            b"\x06\0\0\x1crrrrwwww\0\0\0\0\0\0\0\0\0\0\0\x01\xff\xff\xff\xff\0\0\0\x01",
            12,
            SubKind::BadSet,
        ),
        (
            b"\x06\x01\x1c\0rrrrwwww\0\0\0\0\x02\0\0\0\x01\x01\0\0\xff\xff\xff\xff\x01\0\0\0",
            20,
            SubKind::BadSet,
        ),
        (
            b"\x07\x01\x1c\0rrrrwwww\0\0\0\0\x03\0\0\0\0\0\0\0\x01\0\0\0\x01\0\0\0",
            20,
            SubKind::BadRange,
        ),
        (
            b"\x15\x03\x18\0\0\0\x10\0rrrrwwww\0\0\0\0\x01\0\0\0\x70\0\x0e\0",
            24,
            SubKind::List(ListKind::OddLength),
        ),
        (
            b"\x15\x02\0\x1c\0\0\0\x10rrrrwwww\0\0\0\0\0\0\0\x01\0\0\0\0\0\x71\0\0",
            28,
            SubKind::List(ListKind::BadValue(0x71)),
        ),
    ];
    for (bytes, at, kind) in table {
        assert!(rt; faulty(bytes, at, kind));
    }
}

#[test]
fn a_destination_is_written(rt: HostRuntime) {
    let subs = [Sub::InfoDst(Prefix(*b"PPPPPPPPPPPP"))];
    let mut out = [0; 17];
    let mut small = [0; 15];
    for sub in &subs {
        assert!(rt; write_sub(sub, true, &mut out) == Ok(16));
        assert!(rt; write_sub(sub, true, &mut small) == Err(Short));
    }
    assert!(rt; out == *b"\x0e\x01\x0c\0PPPPPPPPPPPP\0");
}

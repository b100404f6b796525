//! Captures that were written by hand, with the places where they break.

use crate::{CapFault, Feed, one_reading, read_capture, write_record};
use dur_base::Ticks;

// A heartbeat's record: moment 5, port 7412, 52 octets.
fn heartbeat() -> [u8; 66] {
    let mut text = [0u8; 66];
    let _ = write_record(Ticks(5), 7412, &[7; 52], &mut text);
    text
}

#[test]
fn a_record_is_written_and_reads_back(rt: HostRuntime) {
    let mut out = [9u8; 18];
    let count = write_record(Ticks(0x0102), 7412, &[0xaa, 0xbb], &mut out);
    assert!(rt; count == 16);
    assert!(rt;
        out == [
            2, 1, 0, 0, 0, 0, 0, 0, 0xf4, 0x1c, 2, 0, 0, 0, 0xaa, 0xbb, 9, 9
        ]
    );
    let mut feed = Feed::new(rt.alloc(), 0);
    assert!(rt; feed.push(&out).is_ok());
    match feed.next(true) {
        Ok(Some(record)) => {
            assert!(rt; record.moment == Ticks(0x0102) && record.port == 7412);
            assert!(rt; record.bytes.as_slice() == [0xaa, 0xbb].as_slice());
        }
        _ => assert!(rt; false),
    }
    assert!(rt; matches!(feed.next(true), Err(CapFault::EndsInside(16))));
}

#[test]
fn a_record_comes_in_single_octets(rt: HostRuntime) {
    let mut feed = Feed::new(rt.alloc(), 0);
    for octet in heartbeat() {
        assert!(rt; matches!(feed.next(false), Ok(None)));
        assert!(rt; feed.push(&[octet]).is_ok());
    }
    match feed.next(false) {
        Ok(Some(record)) => {
            assert!(rt; record.moment == Ticks(5) && record.port == 7412);
            assert!(rt; record.bytes.as_slice() == [7; 52].as_slice());
        }
        _ => assert!(rt; false),
    }
    assert!(rt; matches!(feed.next(true), Ok(None)));
}

#[test]
fn an_end_inside_a_record_is_told_at_its_first_octet(rt: HostRuntime) {
    let mut feed = Feed::new(rt.alloc(), 0);
    assert!(rt; feed.push(&heartbeat()).is_ok());
    assert!(rt; feed.push(&[0, 0, 0, 0, 0]).is_ok());
    assert!(rt; matches!(feed.next(true), Ok(Some(_))));
    assert!(rt; matches!(feed.next(true), Err(CapFault::EndsInside(66))));
    assert!(rt; matches!(feed.next(false), Err(CapFault::EndsInside(66))));
}

#[test]
fn a_long_datagram_is_told_at_its_length(rt: HostRuntime) {
    let mut feed = Feed::new(rt.alloc(), 0);
    assert!(rt;
        feed.push(&[0, 0, 0, 0, 0, 0, 0, 0, 0, 0, 0xe4, 0xff, 0])
            .is_ok()
    );
    assert!(rt; matches!(feed.next(false), Ok(None)));
    assert!(rt; feed.push(&[0]).is_ok());
    assert!(rt; matches!(feed.next(false), Err(CapFault::LongDatagram(10))));
}

#[test]
fn octets_past_the_limit_are_part_of_no_record(rt: HostRuntime) {
    let mut feed = Feed::new(rt.alloc(), 0x100_0000_0000 - 3);
    assert!(rt; feed.push(&[0, 0, 0]).is_ok());
    assert!(rt; matches!(feed.next(false), Ok(None)));
    assert!(rt; feed.push(&[0]).is_ok());
    assert!(rt; matches!(feed.next(true), Err(CapFault::TooLong(3))));
}

// Two records, of which the first is empty.
const TWO: [u8; 30] = [
    1, 0, 0, 0, 0, 0, 0, 0, 0, 0, 0, 0, 0, 0, 5, 0, 0, 0, 0, 0, 0, 0, 0, 0, 2, 0, 0, 0, 0xaa, 0xbb,
];

#[test]
fn a_capture_reads_the_same_wherever_it_is_cut(rt: HostRuntime) {
    one_reading(0, &TWO);
    let alloc = rt.alloc();
    for at in 0..31 {
        let (front, back) = TWO.as_slice().split_at(at);
        let front = Vec::from_slice(alloc, front).expect(&rt, "memory");
        let back = Vec::from_slice(alloc, back).expect(&rt, "memory");
        let pieces = vec![in alloc; front, back].expect(&rt, "memory");
        match read_capture(alloc, 0, &pieces) {
            Ok(records) => match records.as_slice() {
                [first, second] => {
                    assert!(rt; first.moment == Ticks(1) && first.bytes.len() == 0);
                    assert!(rt; second.moment == Ticks(5) && second.port == 0);
                    assert!(rt; second.bytes.as_slice() == [0xaa, 0xbb].as_slice());
                }
                _ => assert!(rt; false),
            },
            Err(_) => assert!(rt; false),
        }
    }
}

//! Plans that were written by hand, with the lines where they break.

ghost use Rattle.std.specs.Prelude.{IfOk};
ghost use Rattle.dur_qos.specs.Good.{GoodPlan};

use crate::{
    Plan, PlanFault, PlanKind, PlanReader, read_plan, reader_id, replay_id, served, write_plan,
};
use dur_base::{Durability, EntityId, Shape};
use std::alloc::Global;

fn read(alloc: Global, text: &[u8]) -> Result<Plan, PlanFault>
    ensures { IfOk result (λ p. GoodPlan p) }
{
    let mut reader = PlanReader::new(alloc);
    match reader.push(text) {
        Ok(_) => reader.finish(),
        Err(fault) => Err(fault),
    }
}

fn fault_of(alloc: Global, text: &[u8]) -> Option<PlanFault> {
    match read(alloc, text) {
        Ok(_) => None,
        Err(fault) => Some(fault),
    }
}

// Four good lines, after which a fifth one is tried.
const FOUR: &[u8] =
    b"prefix 0102030405060708\ntopic T transient hash 1 - - - - 0\nwriter a1a1a1a1a1a1a1a1a1a1a1a100000102 T -\nreader b2b2b2b2b2b2b2b2b2b2b2b200000107 T transient\n";

// What is wrong with this fifth line.
fn fifth(alloc: Global, line: &[u8]) -> Option<PlanKind> {
    let mut reader = PlanReader::new(alloc);
    let _ = reader.push(FOUR);
    match reader.push(line) {
        Err(PlanFault { line: 5, kind }) => Some(kind),
        _ => None,
    }
}

#[test]
fn a_plan_is_read_octet_by_octet(rt: HostRuntime) {
    let mut reader = PlanReader::new(rt.alloc());
    for octet in FOUR {
        assert!(rt; matches!(reader.push(&[*octet]), Ok(1)));
    }
    assert!(rt; matches!(reader.push(b"end\nx"), Ok(4)));
    assert!(rt; matches!(reader.push(b"x"), Ok(0)));
    match reader.finish() {
        Ok(plan) => {
            assert!(rt; plan.prefix == [1, 2, 3, 4, 5, 6, 7, 8]);
            match plan.topics.as_slice() {
                [topic] => {
                    assert!(rt; topic.name.as_slice() == b"T".as_slice());
                    assert!(rt; topic.kind == Durability::Transient && topic.shape == Shape::Hash);
                    assert!(rt; topic.depth == Some(1) && topic.max_held.is_none());
                }
                _ => assert!(rt; false),
            }
            assert!(rt; plan.writers.len() == 1 && plan.readers.len() == 1);
        }
        Err(_) => assert!(rt; false),
    }
}

#[test]
fn a_plan_is_read_from_two_pieces(rt: HostRuntime) {
    let alloc = rt.alloc();
    let front = Vec::from_slice(alloc, FOUR).expect(&rt, "memory");
    let back = Vec::from_slice(alloc, b"end\nx").expect(&rt, "memory");
    let pieces = vec![in alloc; front, back].expect(&rt, "memory");
    match read_plan(alloc, &pieces) {
        Ok(plan) => assert!(rt; plan.topics.len() == 1 && plan.readers.len() == 1),
        Err(_) => assert!(rt; false),
    }
}

#[test]
fn a_plan_is_written_by_topics_writers_and_readers(rt: HostRuntime) {
    let alloc = rt.alloc();
    let text =
        b"prefix 010203040506070f\ntopic T transient hash 1 - 20 300 - 0\nreader b2b2b2b2b2b2b2b2b2b2b2b200000107 T transient_local\nwriter a1a1a1a1a1a1a1a1a1a1a1a100000103 T 2147483647\ntopic N/_9 persistent none all 4 - - 1 60\nwriter a1a1a1a1a1a1a1a1a1a1a1a100000102 N/_9 -\nend\n";
    let written =
        b"prefix 010203040506070f\ntopic T transient hash 1 - 20 300 - 0\ntopic N/_9 persistent none all 4 - - 1 60\nwriter a1a1a1a1a1a1a1a1a1a1a1a100000103 T 2147483647\nwriter a1a1a1a1a1a1a1a1a1a1a1a100000102 N/_9 -\nreader b2b2b2b2b2b2b2b2b2b2b2b200000107 T transient_local\nend\n";
    match read(alloc, text) {
        Ok(plan) => match write_plan(alloc, &plan) {
            Ok(text) => assert!(rt; text.as_slice() == written.as_slice()),
            Err(_) => assert!(rt; false),
        },
        Err(_) => assert!(rt; false),
    }
}

#[test]
fn the_first_fault_is_told_with_its_line(rt: HostRuntime) {
    let alloc = rt.alloc();
    let cases: [(&[u8], u32, PlanKind); 8] = [
        (
            b"prefix 0102030405060708\ntopic T transient hash 3 - - 2 - 0\n",
            2,
            PlanKind::DepthAboveLimit,
        ),
        (
            b"prefix 0102030405060708\ntopic T transient hash 1 - - - - 0\nwriter a1a1a1a1a1a1a1a1a1a1a1a100000102 T -\nwriter a1a1a1a1a1a1a1a1a1a1a1a100000102 T -\n",
            4,
            PlanKind::Twice,
        ),
        (
            b"prefix 0102030405060708\ntopic T transient hash 01 - - - - 0\nx\n",
            2,
            PlanKind::Number,
        ),
        (
            b"prefix 0102030405060708\ntopic T transient hash 1 - - - - 0\nwriter a1a1a1a1a1a1a1a1a1a1a1a100000102 T -\n",
            4,
            PlanKind::Word,
        ),
        (
            b"prefix 0102030405060708\ntopic T transient hash 1 - - - - 0\nwriter a1a1a1a1a1a1a1a1a1a1a1a100000102 T -\nend",
            4,
            PlanKind::Word,
        ),
        (b"prefix 010203040506070A\n", 1, PlanKind::Word),
        (b"end\n", 1, PlanKind::Word),
        (b"", 1, PlanKind::Word),
    ];
    for (text, line, kind) in cases {
        assert!(rt; fault_of(alloc, text) == Some(PlanFault { line, kind }));
    }
}

#[test]
fn each_kind_of_line_has_its_faults(rt: HostRuntime) {
    let alloc = rt.alloc();
    let cases: [(&[u8], PlanKind); 20] = [
        (b"prefix 0102030405060708\n", PlanKind::Twice),
        (b"prefix 01020304050607\n", PlanKind::Word),
        (b"topic T transient hash 1 - - - - 0\n", PlanKind::Twice),
        (b"topic U volatile hash 1 - - - - 0\n", PlanKind::Word),
        (b"topic U transient key 1 - - - - 0\n", PlanKind::Word),
        (b"topic U! transient hash 1 - - - - 0\n", PlanKind::Word),
        (b"topic U transient hash 0 - - - - 0\n", PlanKind::Number),
        (b"topic U transient hash  - - - - 0\n", PlanKind::Number),
        (b"topic U transient hash 1 - - - - -\n", PlanKind::Number),
        (b"topic U transient hash 1 - - - -\n", PlanKind::Word),
        (b"topic U transient hash 1 - - - - 0 0\n", PlanKind::Word),
        (
            b"topic U transient hash 3 - - 2 - 0\n",
            PlanKind::DepthAboveLimit,
        ),
        (
            b"writer a1a1a1a1a1a1a1a1a1a1a1a100000102 U -\n",
            PlanKind::Twice,
        ),
        (
            b"writer a2a1a1a1a1a1a1a1a1a1a1a100000102 U -\n",
            PlanKind::UnknownTopic,
        ),
        (
            b"writer a2a1a1a1a1a1a1a1a1a1a1a100000102 T 0\n",
            PlanKind::Number,
        ),
        (
            b"writer a2a1a1a1a1a1a1a1a1a1a1a1000001 T -\n",
            PlanKind::Word,
        ),
        (
            b"reader b2b2b2b2b2b2b2b2b2b2b2b200000107 U transient\n",
            PlanKind::Twice,
        ),
        (
            b"reader b3b2b2b2b2b2b2b2b2b2b2b200000107 U transient\n",
            PlanKind::UnknownTopic,
        ),
        (
            b"reader b3b2b2b2b2b2b2b2b2b2b2b200000107 T forever\n",
            PlanKind::Word,
        ),
        (b"end end\n", PlanKind::Word),
    ];
    for (line, kind) in cases {
        assert!(rt; fifth(alloc, line) == Some(kind));
    }
}

#[test]
fn numbers_and_names_go_to_their_limits(rt: HostRuntime) {
    let alloc = rt.alloc();
    let good: [&[u8]; 3] = [
        b"topic U persistent text 2147483647 1 1 2147483647 1 2147483647\n",
        b"topic 0123456789012345678901234567890123456789012345678901234567890123 transient u32 all - - - - 0\n",
        b"writer a2a1a1a1a1a1a1a1a1a1a1a100000102 T 2147483647\n",
    ];
    for line in good {
        assert!(rt; fifth(alloc, line).is_none());
    }
    let bad: [(&[u8], PlanKind); 4] = [
        (
            b"topic U persistent text 2147483648 - - - - 0\n",
            PlanKind::Number,
        ),
        (
            b"topic U persistent text 1 - - - - 2147483648\n",
            PlanKind::Number,
        ),
        (
            b"topic 01234567890123456789012345678901234567890123456789012345678901234 transient u32 all - - - - 0\n",
            PlanKind::Word,
        ),
        (
            b"writer a2a1a1a1a1a1a1a1a1a1a1a100000102 T 2147483648\n",
            PlanKind::Number,
        ),
    ];
    for (line, kind) in bad {
        assert!(rt; fifth(alloc, line) == Some(kind));
    }
}

// A line whose bad number makes it so long.
fn long_line(alloc: Global, zeros: u32) -> Option<PlanKind> {
    let mut reader = PlanReader::new(alloc);
    let _ = reader.push(FOUR);
    let _ = reader.push(b"topic U transient hash ");
    for _ in 0..zeros {
        let _ = reader.push(b"0");
    }
    match reader.push(b" - - - - 0\n") {
        Err(PlanFault { line: 5, kind }) => Some(kind),
        _ => None,
    }
}

#[test]
fn a_line_has_at_most_512_octets(rt: HostRuntime) {
    // 23 octets stand before the number and 10 after it.
    assert!(rt; long_line(rt.alloc(), 479) == Some(PlanKind::Number));
    assert!(rt; long_line(rt.alloc(), 480) == Some(PlanKind::Word));
}

// How many lines of this beginning and end are taken, with three hex digits between that tell them apart, and what is
// wrong with the next.
fn many(alloc: Global, before: &[u8], after: &[u8]) -> (usize, Option<PlanKind>) {
    let mut reader = PlanReader::new(alloc);
    let _ = reader.push(FOUR);
    let digits = *b"0123456789abcdef";
    for i in 0..65536usize {
        let name = [
            digits[i / 4096 % 16],
            digits[i / 256 % 16],
            digits[i / 16 % 16],
            digits[i % 16],
        ];
        let _ = reader.push(before);
        let _ = reader.push(&name);
        match reader.push(after) {
            Ok(_) => {}
            Err(fault) => return (i, Some(fault.kind)),
        }
    }
    (65536, None)
}

#[test]
fn a_plan_has_at_most_so_many_lines_of_each_kind(rt: HostRuntime) {
    let alloc = rt.alloc();
    // One topic, one writer and one reader stand already.
    let (topics, kind) = many(alloc, b"topic U", b" transient none all - - - - 0\n");
    assert!(rt; topics == 1023 && kind == Some(PlanKind::TooMany));
    let (writers, kind) = many(alloc, b"writer b1b1b1b1b1b1b1b1b1b1b1b10000", b" T -\n");
    assert!(rt; writers == 4095 && kind == Some(PlanKind::TooMany));
    let (readers, kind) = many(
        alloc,
        b"reader c1c1c1c1c1c1c1c1c1c1c1c10000",
        b" T volatile\n",
    );
    assert!(rt; readers == 1023 && kind == Some(PlanKind::TooMany));
}

#[test]
fn readers_are_served_by_the_kinds_and_under_their_ids(rt: HostRuntime) {
    let text =
        b"prefix 0102030405060708\ntopic T transient hash 1 - - - - 0\ntopic N persistent none all - - - - 0\nreader b2b2b2b2b2b2b2b2b2b2b2b200000107 T persistent\nreader b3b2b2b2b2b2b2b2b2b2b2b200000107 N persistent\nend\n";
    match read(rt.alloc(), text) {
        Ok(plan) => match plan.copy() {
            Ok(copy) => match copy.topics.as_slice() {
                [keyed, keyless] => match copy.readers.as_slice() {
                    [first, second] => {
                        assert!(rt; !served(keyed, first) && served(keyless, second));
                        assert!(rt; second.topic == 1);
                        assert!(rt; reader_id(&copy, 0) == EntityId([0, 0, 1, 7]));
                        assert!(rt; reader_id(&copy, 1) == EntityId([0, 0, 2, 4]));
                        assert!(rt; replay_id(&copy, 0) == EntityId([1, 0, 1, 2]));
                        assert!(rt; replay_id(&copy, 1) == EntityId([1, 0, 2, 3]));
                    }
                    _ => assert!(rt; false),
                },
                _ => assert!(rt; false),
            },
            Err(_) => assert!(rt; false),
        },
        Err(_) => assert!(rt; false),
    }
}

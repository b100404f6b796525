//! What goes out to acknowledgements and to ACKNACKs, over a journal and a sink in memory.

ghost use Rattle.std.specs.Prelude.{IfOk, IfSome};
ghost use Rattle.dur_outside.specs.Memory.{disk_world};
ghost use Rattle.dur_qos.specs.Good.{GoodPlan};
ghost use Rattle.dur_journal.specs.Journals.{IsReady};
ghost use Rattle.dur_rerun.specs.Rerun.Opening.{IsOver};

use crate::rerun::nacks::{Nack, nacks_of};
use crate::rerun::opening::open_hub;
use crate::rerun::replays::Replays;
use crate::rerun::reply::{Cut, reply};
use crate::rerun::sheet::Sheet;
use dur_base::{Bits, EntityId, Fact, Guid, List, Number, Octets, Prefix};
use dur_hub::{Ack, Hub, hubs_open_over_blank_views};
use dur_journal::Journal;
use dur_outside::{MemDisk, MemRig, MemSink};
use dur_qos::{Plan, PlanFault, PlanReader};
use dur_view::View;
use std::alloc::Global;

const OWN: Prefix = Prefix(*b"\x01\x02\x03\x04\x05\x06\x07\x08\0\0\0\x01");

const WRITER: Guid = Guid(*b"\xa1\xa1\xa1\xa1\xa1\xa1\xa1\xa1\xa1\xa1\xa1\xa1\0\0\x01\x02");

const LATE: Guid = Guid(*b"\xb2\xb2\xb2\xb2\xb2\xb2\xb2\xb2\xb2\xb2\xb2\xb2\0\0\x01\x07");

/// The ids of the writers that replay to the first reader and to the second.
const FIRST: EntityId = EntityId(*b"\x01\0\x01\x02");

const SECOND: EntityId = EntityId(*b"\x01\0\x02\x02");

const SERVED: &[u8] = b"prefix 0102030405060708\ntopic T persistent hash 10 - - - - 0\n\
writer a1a1a1a1a1a1a1a1a1a1a1a100000102 T -\nreader b2b2b2b2b2b2b2b2b2b2b2b200000107 T transient\n\
reader c3c3c3c3c3c3c3c3c3c3c3c300000107 T transient\nend\n";

/// The reader requests more than the topic offers.
const REFUSED: &[u8] = b"prefix 0102030405060708\ntopic T transient hash 10 - - - - 0\n\
writer a1a1a1a1a1a1a1a1a1a1a1a100000102 T -\nreader b2b2b2b2b2b2b2b2b2b2b2b200000107 T persistent\nend\n";

/// The ACKNACK from 00000107 with base 2 and no number asked for, at moment 0 and port 7400.
const ACKED: &[u8] =
    b"\0\0\0\0\0\0\0\0\xe8\x1c\x40\0\0\0RTPS\x02\x05\0\0\x01\x02\x03\x04\x05\x06\x07\x08\0\0\0\x01\
\x0e\x01\x0c\0\xa1\xa1\xa1\xa1\xa1\xa1\xa1\xa1\xa1\xa1\xa1\xa1\
\x06\x03\x18\0\0\0\x01\x07\0\0\x01\x02\0\0\0\0\x02\0\0\0\0\0\0\0\x01\0\0\0";

/// The marker as number 1, and a HEARTBEAT of 1 to 1 with the count 1.
const REPLAY: &[u8] =
    b"\0\0\0\0\0\0\0\0\xe8\x1c\x4c\0\0\0RTPS\x02\x05\0\0\x01\x02\x03\x04\x05\x06\x07\x08\0\0\0\x01\
\x0e\x01\x0c\0\xb2\xb2\xb2\xb2\xb2\xb2\xb2\xb2\xb2\xb2\xb2\xb2\
\x15\x03\x24\0\0\0\x10\0\0\0\x01\x07\x01\0\x01\x02\0\0\0\0\x01\0\0\0\x56\0\x08\0\xff\xff\xff\xff\0\0\0\0\x01\0\0\0\
\0\0\0\0\0\0\0\0\xe8\x1c\x44\0\0\0RTPS\x02\x05\0\0\x01\x02\x03\x04\x05\x06\x07\x08\0\0\0\x01\
\x0e\x01\x0c\0\xb2\xb2\xb2\xb2\xb2\xb2\xb2\xb2\xb2\xb2\xb2\xb2\
\x07\x01\x1c\0\0\0\x01\x07\x01\0\x01\x02\0\0\0\0\x01\0\0\0\0\0\0\0\x01\0\0\0\x01\0\0\0";

/// A HEARTBEAT with the count 2.
const BEAT: &[u8] =
    b"\0\0\0\0\0\0\0\0\xe8\x1c\x44\0\0\0RTPS\x02\x05\0\0\x01\x02\x03\x04\x05\x06\x07\x08\0\0\0\x01\
\x0e\x01\x0c\0\xb2\xb2\xb2\xb2\xb2\xb2\xb2\xb2\xb2\xb2\xb2\xb2\
\x07\x01\x1c\0\0\0\x01\x07\x01\0\x01\x02\0\0\0\0\x01\0\0\0\0\0\0\0\x01\0\0\0\x02\0\0\0";

fn plan_of(alloc: Global, text: &[u8]) -> Result<Plan, PlanFault>
    ensures { IfOk result (λ p. GoodPlan p) }
{
    let mut reader = PlanReader::new(alloc);
    match reader.push(text) {
        Ok(_) => reader.finish(),
        Err(fault) => Err(fault),
    }
}

fn hub_of(alloc: Global, plan: &Plan) -> Option<Hub>
    requires { GoodPlan plan.now }
    ensures { IfSome result (λ hub. IsOver plan.now hub) }
{
    let copy = plan.copy().ok()?;
    let view = View::blank(&copy).ok()?;
    hubs_open_over_blank_views();
    open_hub(alloc, copy, view).ok()
}

/// A journal over two empty files, and a sink of which these calls fail.
fn journal_of(alloc: Global, plan: &Plan, fails: List<u64>) -> Option<Journal<MemRig>>
    requires { GoodPlan plan.now }
    ensures { IfSome result (λ j. IsReady j (disk_world j.disk.sink.written j.disk.disk)) }
{
    let disk = MemDisk::new(Octets::new(alloc), Octets::new(alloc), List::new(alloc));
    match Journal::open(alloc, MemRig::new(disk, MemSink::new(fails)), plan) {
        Ok(opened) => Some(opened.journal),
        Err(_) => None,
    }
}

/// What goes out to these under a plan, and how the reply ends; these calls of the sink fail.
fn run(
    alloc: Global,
    text: &[u8],
    acks: &List<Ack>,
    nacks: &[Nack],
    fails: List<u64>,
) -> Option<(Result<(), Cut>, MemSink)> {
    let plan = match plan_of(alloc, text) {
        Ok(plan) => plan,
        Err(_) => return None,
    };
    let mut hub = hub_of(alloc, &plan)?;
    let mut journal = journal_of(alloc, &plan, fails)?;
    let mut replays = Replays::new(alloc);
    let mut sheet = Sheet::new();
    let ended = reply(
        alloc,
        &mut journal,
        &mut hub,
        &mut replays,
        &plan,
        OWN,
        7400,
        acks,
        nacks,
        &mut sheet,
    );
    let (_, sink) = journal.close().parts();
    Some((ended, sink))
}

fn number(value: u64) -> Number {
    match Number::new(value) {
        Some(number) => number,
        None => Number::one(),
    }
}

/// An ACKNACK of the late reader to a writer, with this base, that asks for it or for nothing.
fn nack(writer: EntityId, base: u64, asks: bool) -> Nack {
    let word = if asks { 0x8000_0000 } else { 0 };
    Nack {
        reader: LATE,
        writer,
        set: Bits::of(number(base), [word, 0, 0, 0, 0, 0, 0, 0]),
    }
}

fn ack() -> Ack {
    Ack {
        writer: WRITER,
        reader: EntityId(*b"\0\0\x01\x07"),
        set: Bits::empty(number(2)),
        is_final: true,
        count: 1,
    }
}

#[test]
fn acknowledgements_go_out_before_replays(rt: HostRuntime) {
    let alloc = rt.alloc();
    let mut acks = List::new(alloc);
    acks.push(ack()).expect(&rt, "memory");
    let nacks = [
        nack(FIRST, 1, true),
        nack(FIRST, 1, false),
        nack(FIRST, 2, false),
    ];
    let (ended, sink) = run(alloc, SERVED, &acks, &nacks, List::new(alloc)).expect(&rt, "memory");
    assert!(rt; ended == Ok(()));
    let out = sink.written().as_slice();
    assert!(rt; out.len() == 78 + 172 + 82);
    let (first, rest) = out.split_at(78);
    let (second, third) = rest.split_at(172);
    assert!(rt; first == ACKED && second == REPLAY && third == BEAT);
}

#[test]
fn nobody_replies_to_others(rt: HostRuntime) {
    let alloc = rt.alloc();
    let acks = List::new(alloc);
    let (ended, sink) = run(
        alloc,
        SERVED,
        &acks,
        &[nack(SECOND, 1, true)],
        List::new(alloc),
    )
    .expect(&rt, "memory");
    assert!(rt; ended == Ok(()) && sink.written().len() == 0);
    let (ended, sink) = run(
        alloc,
        REFUSED,
        &acks,
        &[nack(FIRST, 1, true)],
        List::new(alloc),
    )
    .expect(&rt, "memory");
    assert!(rt; ended == Ok(()) && sink.written().len() == 0);
}

#[test]
fn a_failed_write_leaves_a_front(rt: HostRuntime) {
    let alloc = rt.alloc();
    let mut acks = List::new(alloc);
    acks.push(ack()).expect(&rt, "memory");
    let nacks = [nack(FIRST, 1, true)];
    for failing in 0..3u64 {
        let mut fails = List::new(alloc);
        fails.push(failing).expect(&rt, "memory");
        let (ended, sink) = run(alloc, SERVED, &acks, &nacks, fails).expect(&rt, "memory");
        let size = match failing {
            0 => 0,
            1 => 78,
            _ => 168,
        };
        assert!(rt; ended == Err(Cut::Write) && sink.written().len() == size);
    }
}

#[test]
fn the_acknacks_of_facts_are_found(rt: HostRuntime) {
    let alloc = rt.alloc();
    let asked = nack(FIRST, 1, true);
    let mut facts = List::new(alloc);
    facts
        .push(Fact::Unreadable {
            writer: WRITER,
            reader: EntityId([0; 4]),
            number: number(1),
        })
        .expect(&rt, "memory");
    facts
        .push(Fact::Nack {
            reader: LATE,
            writer: FIRST,
            set: asked.set,
            is_final: false,
        })
        .expect(&rt, "memory");
    let found = nacks_of(alloc, &facts).expect(&rt, "memory");
    assert!(rt; found.as_slice() == [asked].as_slice());
}

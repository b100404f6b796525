//! Journals over files in memory: each call once, and files octet by octet.

ghost use Rattle.std.specs.Prelude.{◌≡◌, ◌≤◌, ◌-◌, ◌^◌, IfOk, IfSome, length};
ghost use Rattle.std.specs.List.{AllByRecursion};
ghost use Rattle.dur_qos.specs.Good.{GoodPlan};
ghost use Rattle.dur_record.specs.Entries.{IsGoodEntry};

use crate::quiet::{Quiet, disk_of, octets};
use crate::{
    CommitFault, Journal, Look, OpenFault, Opened, look, one_reading, texts_are_read_by_the_grammar,
};
use bytes::Bytes;
use dur_base::{
    Act, Entry, Form, Guid, Key, List, Number, Octets, Payload, Sample, SetMark, Ticks,
};
use dur_outside::{FileId, MemDisk, MemRig, MemSink};
use dur_qos::{Plan, PlanFault, PlanReader};
use dur_view::Batch;
use std::alloc::Global;
use std::test::*;

const W: Guid = Guid([
    0xa1, 0xa1, 0xa1, 0xa1, 0xa1, 0xa1, 0xa1, 0xa1, 0xa1, 0xa1, 0xa1, 0xa1, 0, 0, 1, 2,
]);

pub(crate) const PERSISTENT: &[u8] = b"topic T persistent hash 9 - - - - 0";

const SHALLOW: &[u8] = b"topic T persistent hash 2 - - - - 0";

const TRANSIENT: &[u8] = b"topic T transient hash 9 - - - - 0";

// A file whose base is the view of nothing, behind its gate: version 2 and generation 1.
const EMPTY: &[u8] =
    b"DDSJRNL1\x01\x02\0\0\0\x01\0\0\0\x20\0\0\0\0\0\0\0\0\0\0\0\0\0\0\0\0\0\0\0\0\0\0\0\0\0\0\0\0\0\0\0\0\0\0\0\0\0\0\0\0";

fn read_plan(alloc: Global, text: &[u8]) -> Result<Plan, PlanFault>
    ensures { IfOk result (λ p. GoodPlan p) }
{
    let mut reader = PlanReader::new(alloc);
    match reader.push(text) {
        Ok(_) => reader.finish(),
        Err(fault) => Err(fault),
    }
}

// A plan of this topic and one writer.
pub(crate) fn plan_of(alloc: Global, topic: &[u8]) -> Option<Plan>
    ensures { IfSome result (λ p. GoodPlan p) }
{
    let mut text = Vec::new(alloc);
    text.extend_from_slice(b"prefix 0102030405060708\n").ok()?;
    text.extend_from_slice(topic).ok()?;
    text.extend_from_slice(b"\nwriter a1a1a1a1a1a1a1a1a1a1a1a100000102 T -\nend\n")
        .ok()?;
    match read_plan(alloc, text.as_slice()) {
        Ok(plan) => Some(plan),
        Err(_) => None,
    }
}

pub(crate) fn open(
    alloc: Global,
    disk: Quiet,
    topic: &[u8],
) -> Option<Result<Opened<Quiet>, (OpenFault, Quiet)>> {
    let plan = plan_of(alloc, topic)?;
    Some(Journal::open(alloc, disk, &plan))
}

fn entry(number: Number) -> Entry
    requires { number ≤ 2 ^ 63 - 2 }
    ensures { IsGoodEntry result }
{
    Entry::Took {
        moment: Ticks(number.get()),
        writer: W,
        number,
        sample: Sample {
            key: Key([0xaa; 16]),
            act: Act::Write,
            stamp: Ticks(0),
            lifespan: None,
            set: SetMark::NoSet,
            original: None,
            form: Form::Data,
            payload: Payload::of(Bytes::new()),
        },
    }
}

// Entries of these numbers, from the first on, behind as many entries.
pub(crate) fn batch(alloc: Global, from: u64, first: Number) -> Option<Batch>
    requires { first ≤ 2 ^ 63 - 2 }
    ensures { IfSome result (λ b. (b.from ≡ from) × (length b.entries ≤ 4096) × AllByRecursion IsGoodEntry b.entries) }
{
    let mut entries = List::new(alloc);
    entries.push(entry(first)).ok()?;
    Some(Batch { from, entries })
}

// Appends an entry of that number.
pub(crate) fn commit(
    alloc: Global,
    journal: Journal<Quiet>,
    number: u64,
) -> Option<Result<Journal<Quiet>, (CommitFault, Quiet)>>
    requires { (1 ≤ number) × (number ≤ 2 ^ 63 - 2) }
{
    let batch = batch(alloc, journal.position(), Number::at(number))?;
    if journal.appended() >= 1 << 20 {
        return None;
    }
    match journal.commit(alloc, &batch) {
        Ok((journal, receipt)) => {
            if receipt.upto() == journal.position() {
                Some(Ok(journal))
            } else {
                None
            }
        }
        Err(refused) => Some(Err(refused)),
    }
}

// The journal of a fresh disk, with entries 1 and 2 in two records.
pub(crate) fn with_records(alloc: Global) -> Option<Journal<Quiet>> {
    let opened = open(alloc, disk_of(alloc, b"", b"")?, PERSISTENT)?.ok()?;
    let journal = commit(alloc, opened.journal, 1)?.ok()?;
    commit(alloc, journal, 2)?.ok()
}

// How many entries of the writer an opening finds handled, and under which generation it goes on.
pub(crate) fn found(alloc: Global, disk: Quiet) -> Option<(u64, u32)> {
    match open(alloc, disk, PERSISTENT)? {
        Ok(opened) => match opened.view.writers.as_slice() {
            [writer] => Some((writer.next.get() - 1, opened.epoch)),
            _ => None,
        },
        Err(_) => None,
    }
}

#[test]
fn what_is_stored_is_opened_again(rt: HostRuntime) {
    let alloc = rt.alloc();
    one_reading();
    texts_are_read_by_the_grammar();
    let journal = with_records(alloc).expect(&rt, "a journal");
    assert!(rt; journal.position() == 2 && journal.appended() == 2 * (5 + 70));
    let mut disk = journal.close();
    match look(alloc, &mut disk, FileId::Zero) {
        Ok(
            Look::Open {
                generation,
                records,
                view,
            },
        ) => assert!(rt; generation == 1 && records == 2 && view.last == Ticks(2)),
        _ => assert!(rt; false),
    }
    match look(alloc, &mut disk, FileId::One) {
        Ok(Look::Blank) => {}
        _ => assert!(rt; false),
    }
    match open(alloc, disk, PERSISTENT).expect(&rt, "a plan") {
        Ok(opened) => {
            assert!(rt; opened.epoch == 2 && opened.view.last == Ticks(2));
            assert!(rt; opened.view.kept.len() == 2 && opened.journal.appended() == 0);
        }
        Err(_) => assert!(rt; false),
    }
}

#[test]
fn a_new_file_octet_by_octet(rt: HostRuntime) {
    let alloc = rt.alloc();
    let disk = disk_of(alloc, b"", b"").expect(&rt, "memory");
    match open(alloc, disk, TRANSIENT).expect(&rt, "a plan") {
        Ok(opened) => {
            assert!(rt; opened.epoch == 1);
            let mut disk = opened.journal.close();
            let zero = octets(alloc, &mut disk, FileId::Zero).expect(&rt, "octets");
            let one = octets(alloc, &mut disk, FileId::One).expect(&rt, "octets");
            assert!(rt; zero.as_slice() == EMPTY && one.len() == 0);
        }
        Err(_) => assert!(rt; false),
    }
}

// The fault with which a disk is not opened.
fn refusal(alloc: Global, disk: Quiet, topic: &[u8]) -> Option<OpenFault> {
    let plan = plan_of(alloc, topic)?;
    match Journal::open(alloc, disk, &plan) {
        Ok(opened) => {
            let _ = opened.epoch;
            None
        }
        Err((fault, disk)) => {
            let _ = disk.faults;
            Some(fault)
        }
    }
}

// The fault with which a file 0 of these octets, beside a blank one, is not opened.
fn fault(alloc: Global, zero: &[u8], topic: &[u8]) -> Option<OpenFault> {
    refusal(alloc, disk_of(alloc, zero, b"")?, topic)
}

// The place at which a file of these octets breaks.
fn broken(alloc: Global, zero: &[u8]) -> Option<u64> {
    match look(alloc, &mut disk_of(alloc, zero, b"")?, FileId::Zero) {
        Ok(Look::Broken(at)) => match fault(alloc, zero, TRANSIENT) {
            Some(OpenFault::NotAJournal { file, at: place }) => {
                if file == FileId::Zero && place == at {
                    Some(at)
                } else {
                    None
                }
            }
            _ => None,
        },
        _ => None,
    }
}

// A file with one octet changed.
fn damaged(alloc: Global, place: usize, octet: u8) -> Option<u64> {
    let mut file = Vec::from_slice(alloc, EMPTY).ok()?;
    if place < file.len() {
        file[place] = octet;
    }
    broken(alloc, file.as_slice())
}

#[test]
fn a_damaged_file_breaks_at_its_place(rt: HostRuntime) {
    let alloc = rt.alloc();
    assert!(rt; broken(alloc, EMPTY).is_none());
    assert!(rt; damaged(alloc, 3, 0) == Some(3));
    assert!(rt; damaged(alloc, 8, 0).is_none());
    assert!(rt; damaged(alloc, 9, 3) == Some(9));
    assert!(rt; broken(alloc, &EMPTY[..41]) == Some(41));
    assert!(rt; damaged(alloc, 57, 1) == Some(58));
    assert!(rt; broken(alloc, &[0; 10]) == Some(0));
}

#[test]
fn the_last_generation_is_worn(rt: HostRuntime) {
    let alloc = rt.alloc();
    let mut file = Vec::from_slice(alloc, EMPTY).expect(&rt, "memory");
    for place in 13..17 {
        file[place] = 0xff;
    }
    match fault(alloc, file.as_slice(), TRANSIENT) {
        Some(OpenFault::Worn) => {}
        _ => assert!(rt; false),
    }
}

#[test]
fn a_plan_may_differ_from_what_is_kept(rt: HostRuntime) {
    let alloc = rt.alloc();
    let disk = with_records(alloc).expect(&rt, "a journal").close();
    match refusal(alloc, disk, SHALLOW) {
        Some(OpenFault::PlanDiffers(name)) => {
            assert!(rt; name.as_slice() == b"T".as_slice());
        }
        _ => assert!(rt; false),
    }
}

// The octet at a place.
fn octet(octets: &[u8], place: usize) -> Option<u8> {
    octets.get(place).copied()
}

// A file of version 1 with the view of nothing.
fn version_1(alloc: Global) -> Option<Vec<u8>> {
    let mut file = Vec::from_slice(alloc, EMPTY).ok()?;
    file[9] = 1;
    Some(file)
}

#[test]
fn a_file_of_version_1_stays_until_it_is_written_over(rt: HostRuntime) {
    let alloc = rt.alloc();
    let old = version_1(alloc).expect(&rt, "memory");
    let disk = disk_of(alloc, old.as_slice(), b"").expect(&rt, "memory");
    match open(alloc, disk, TRANSIENT).expect(&rt, "a plan") {
        Ok(opened) => {
            let mut disk = opened.journal.close();
            let zero = octets(alloc, &mut disk, FileId::Zero).expect(&rt, "octets");
            let one = octets(alloc, &mut disk, FileId::One).expect(&rt, "octets");
            assert!(rt;
                zero.as_slice() == old.as_slice()
                    && octet(&one, 9) == Some(2)
                    && octet(&one, 13) == Some(2)
            );
            match open(alloc, disk, TRANSIENT).expect(&rt, "a plan") {
                Ok(again) => {
                    let mut disk = again.journal.close();
                    let zero = octets(alloc, &mut disk, FileId::Zero).expect(&rt, "octets");
                    assert!(rt; again.epoch == 3 && octet(&zero, 9) == Some(2));
                }
                Err(_) => assert!(rt; false),
            }
        }
        Err(_) => assert!(rt; false),
    }
}

#[test]
fn calls_fail_from_one_on(rt: HostRuntime) {
    let alloc = rt.alloc();
    let plan = plan_of(alloc, PERSISTENT).expect(&rt, "a plan");
    let disk = MemDisk::new(Octets::new(alloc), Octets::new(alloc), List::new(alloc));
    match Journal::open(alloc, disk, &plan) {
        Ok(opened) => {
            let mut journal = opened.journal;
            journal.fail_from(0);
            match Journal::open(alloc, journal.close(), &plan) {
                Err((OpenFault::Disk, _)) => {}
                _ => assert!(rt; false),
            }
        }
        Err(_) => assert!(rt; false),
    }
}

#[test]
fn a_piece_is_written_by_the_rig(rt: HostRuntime) {
    let alloc = rt.alloc();
    let plan = plan_of(alloc, PERSISTENT).expect(&rt, "a plan");
    let disk = MemDisk::new(Octets::new(alloc), Octets::new(alloc), List::new(alloc));
    let rig = MemRig::new(disk, MemSink::new(List::new(alloc)));
    match Journal::open(alloc, rig, &plan) {
        Ok(opened) => {
            let mut journal = opened.journal;
            assert!(rt; journal.put(b"acknowledged") == Ok(12));
        }
        Err(_) => assert!(rt; false),
    }
}

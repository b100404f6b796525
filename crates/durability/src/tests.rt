//! Command lines, what breaks an input, and each of a run's objects failing.

mod files;
mod late;
mod learnt;
mod rows;
mod session_link;

use crate::run::durability;
use crate::status::{number, say_fault};
use crate::words::{Line, WordsFault, read_words};
use dur_base::{List, Name, Octets, OutOfMemory, Ticks, is_a_name};
use dur_capture::CapFault;
use dur_outside::{FileId, MemDisk, MemRig, MemSink, MemSource};
use dur_qos::PlanKind;
use dur_rerun::{Status, list, show};
use std::alloc::Global;

const PLAN: &[u8] = b"prefix 0102030405060708\ntopic T transient hash 1 - - - - 0\n\
writer a1a1a1a1a1a1a1a1a1a1a1a100000102 T -\nend\n";

/// Moment 5: number 1 of the key aa, with 42.
const FIRST: &[u8] = b"\x05\x00\x00\x00\x00\x00\x00\x00\x00\x00\x4c\x00\x00\x00\x52\x54\x50\x53\x02\
\x05\x00\x00\xa1\xa1\xa1\xa1\xa1\xa1\xa1\xa1\xa1\xa1\xa1\xa1\x15\x07\x34\x00\
\x00\x00\x10\x00\x00\x00\x00\x00\x00\x00\x01\x02\x00\x00\x00\x00\x01\x00\x00\
\x00\x70\x00\x10\x00\xaa\xaa\xaa\xaa\xaa\xaa\xaa\xaa\xaa\xaa\xaa\xaa\xaa\xaa\
\xaa\xaa\x01\x00\x00\x00\x00\x01\x00\x00\x2a\x00\x00\x00";

/// Moment 6: number 2 of the key aa, with 43.
const SECOND: &[u8] =
    b"\x06\x00\x00\x00\x00\x00\x00\x00\x00\x00\x4c\x00\x00\x00\x52\x54\x50\x53\x02\
\x05\x00\x00\xa1\xa1\xa1\xa1\xa1\xa1\xa1\xa1\xa1\xa1\xa1\xa1\x15\x07\x34\x00\
\x00\x00\x10\x00\x00\x00\x00\x00\x00\x00\x01\x02\x00\x00\x00\x00\x02\x00\x00\
\x00\x70\x00\x10\x00\xaa\xaa\xaa\xaa\xaa\xaa\xaa\xaa\xaa\xaa\xaa\xaa\xaa\xaa\
\xaa\xaa\x01\x00\x00\x00\x00\x01\x00\x00\x2b\x00\x00\x00";

/// Moment 5: a datagram of ten octets.
const SHORT: &[u8] = b"\x05\x00\x00\x00\x00\x00\x00\x00\x00\x00\x0a\x00\x00\x00\x00\x00\x00\x00\x00\
\x00\x00\x00\x00\x00";

const LINE: &[u8] = b"T a1a1a1a1a1a1a1a1a1a1a1a100000102 2 aaaaaaaaaaaaaaaaaaaaaaaaaaaaaaaa \
write 6 000100002b000000\n";

/// Which calls of each object fail.
#[derive(Drop)]
struct Fails {
    source: List<u64>,
    sink: List<u64>,
    err: List<u64>,
}

fn none(alloc: Global) -> Fails {
    Fails {
        source: List::new(alloc),
        sink: List::new(alloc),
        err: List::new(alloc),
    }
}

fn call(alloc: Global, number: u64) -> List<u64> {
    let mut calls = List::new(alloc);
    let _ = calls.push(number);
    calls
}

/// What became of a run: its status, what went out, and what was said.
#[derive(Drop)]
struct Outcome {
    status: Status,
    out: MemSink,
    err: MemSink,
}

/// A run of one word over a plan and one or two records.
fn run(alloc: Global, word: &str, first: &[u8], second: &[u8], fails: Fails) -> Outcome {
    let mut bytes = Octets::new(alloc);
    let _ = bytes.append(PLAN);
    let _ = bytes.append(first);
    let _ = bytes.append(second);
    let mut words = Vec::new(alloc);
    if let Ok(word) = String::from_str(alloc, word) {
        let _ = words.push(word);
    }
    let mut input = MemSource::new(bytes, fails.source);
    let mut err = MemSink::new(fails.err);
    let disk = MemDisk::new(Octets::new(alloc), Octets::new(alloc), List::new(alloc));
    let rig = MemRig::new(disk, MemSink::new(fails.sink));
    let ran = durability(alloc, &words, &mut input, rig, &mut err);
    let (_, out) = ran.rig.parts();
    Outcome {
        status: ran.status,
        out,
        err,
    }
}

/// A run of these words over no input.
fn run_words(alloc: Global, words: &[String]) -> Outcome {
    let mut input = MemSource::new(Octets::new(alloc), List::new(alloc));
    let mut err = MemSink::new(List::new(alloc));
    let disk = MemDisk::new(Octets::new(alloc), Octets::new(alloc), List::new(alloc));
    let rig = MemRig::new(disk, MemSink::new(List::new(alloc)));
    let ran = durability(alloc, words, &mut input, rig, &mut err);
    let (_, out) = ran.rig.parts();
    Outcome {
        status: ran.status,
        out,
        err,
    }
}

/// A run with this status, output and line.
fn gives(done: &Outcome, status: &Status, out: &[u8], err: &[u8]) -> bool {
    number(&done.status) == number(status)
        && done.out.written().as_slice() == out
        && done.err.written().as_slice() == err
}

#[test]
fn the_newest_of_a_key_is_listed(rt: HostRuntime) {
    let alloc = rt.alloc();
    let done = run(alloc, "list", FIRST, SECOND, none(alloc));
    assert!(rt; gives(&done, &Status::Done, LINE, b""));
    let done = run(alloc, "list", SHORT, b"", none(alloc));
    assert!(rt; gives(&done, &Status::Done, b"", b""));
    list::one_answer();
    show::one_answer();
}

#[test]
fn other_words_are_refused(rt: HostRuntime) {
    let alloc = rt.alloc();
    let done = run(alloc, "lists", FIRST, b"", none(alloc));
    assert!(rt; gives(&done, &Status::Usage, b"", b"durability: usage\n"));
}

/// The words after the program's name.
fn words_of(alloc: Global, texts: &[&str]) -> Result<Vec<String>, OutOfMemory> {
    let mut words = Vec::new(alloc);
    for text in texts {
        words.push(String::from_str(alloc, text)?)?;
    }
    Ok(words)
}

/// The command line that these words are.
fn line_of(alloc: Global, texts: &[&str]) -> Result<Line, WordsFault> {
    match words_of(alloc, texts) {
        Ok(words) => read_words(alloc, &words),
        Err(_) => Err(WordsFault::OutOfMemory),
    }
}

/// Whether these words are no command line.
fn is_usage(alloc: Global, texts: &[&str]) -> bool {
    matches!(&line_of(alloc, texts), Err(WordsFault::Usage))
}

#[test]
fn options_are_read_in_both_spellings(rt: HostRuntime) {
    let alloc = rt.alloc();
    let line = line_of(alloc, ["list", "--at", "7", "--epoch=3"].as_slice());
    assert!(rt;
        matches!(
            &line,
            Ok(Line::List {
                at: Ticks(7),
                epoch: 3
            })
        )
    );
    let line = line_of(alloc, ["show", "--epoch=4294967295"].as_slice());
    assert!(rt; matches!(&line, Ok(Line::Show { epoch: 0xffff_ffff })));
    assert!(rt; is_usage(alloc, ["list", "--epoch=1", "--epoch", "1"].as_slice()));
    assert!(rt; is_usage(alloc, ["list", "--at", "07"].as_slice()));
    assert!(rt; is_usage(alloc, ["list", "--"].as_slice()));
}

/// A heartbeat at moment 5: its record has 66 octets.
const BEAT: &[u8] = b"\x05\x00\x00\x00\x00\x00\x00\x00\x00\x00\x34\x00\x00\x00RTPS\x02\x05\x00\x00\
\xa1\xa1\xa1\xa1\xa1\xa1\xa1\xa1\xa1\xa1\xa1\xa1\x07\x01\x1c\x00\x00\x00\x00\x00\x00\x00\x01\x02\
\x00\x00\x00\x00\x01\x00\x00\x00\x00\x00\x00\x00\x00\x00\x00\x00\x01\x00\x00\x00";

#[test]
fn nothing_is_listed_where_the_capture_breaks(rt: HostRuntime) {
    let alloc = rt.alloc();
    let done = run(alloc, "list", FIRST, b"\x00\x00\x00\x00\x00", none(alloc));
    assert!(rt;
        gives(
            &done,
            &Status::Input(90, CapFault::EndsInside(90)),
            b"",
            b"durability: input 90 EndsInside\n"
        )
    );
}

#[test]
fn records_are_shown_up_to_a_break(rt: HostRuntime) {
    let alloc = rt.alloc();
    let done = run(alloc, "show", BEAT, b"", none(alloc));
    assert!(rt; gives(&done, &Status::Done, b"1 5 0 1 whole\n", b""));
    let done = run(alloc, "show", BEAT, b"\x00\x00\x00\x00\x00", none(alloc));
    assert!(rt;
        gives(
            &done,
            &Status::Input(66, CapFault::EndsInside(66)),
            b"1 5 0 1 whole\n",
            b"durability: input 66 EndsInside\n"
        )
    );
    assert!(rt; number(&done.status) == 4);
}

/// The head of a record of 65,508 octets.
const LONG: &[u8] = b"\x05\x00\x00\x00\x00\x00\x00\x00\x00\x00\xe4\xff\x00\x00";

#[test]
fn a_datagram_is_no_longer_than_udp_has_it(rt: HostRuntime) {
    let alloc = rt.alloc();
    let done = run(alloc, "show", LONG, b"", none(alloc));
    assert!(rt;
        gives(
            &done,
            &Status::Input(10, CapFault::LongDatagram(10)),
            b"",
            b"durability: input 10 LongDatagram\n"
        )
    );
}

/// A run of one word over a plan whose second and third line are these.
fn over_plan(alloc: Global, word: &str, second: &[u8], third: &[u8]) -> Status {
    let mut bytes = Octets::new(alloc);
    let _ = bytes.append(b"prefix 0102030405060708\n");
    let _ = bytes.append(second);
    let _ = bytes.append(third);
    let mut words = Vec::new(alloc);
    if let Ok(word) = String::from_str(alloc, word) {
        let _ = words.push(word);
    }
    let mut input = MemSource::new(bytes, List::new(alloc));
    let mut err = MemSink::new(List::new(alloc));
    let disk = MemDisk::new(Octets::new(alloc), Octets::new(alloc), List::new(alloc));
    let rig = MemRig::new(disk, MemSink::new(List::new(alloc)));
    durability(alloc, &words, &mut input, rig, &mut err).status
}

const TOPIC: &[u8] = b"topic T transient hash 1 - - - - 0\n";

const WRITER: &[u8] = b"writer a1a1a1a1a1a1a1a1a1a1a1a100000102 T -\n";

const OTHER: &[u8] = b"writer a1a1a1a1a1a1a1a1a1a1a1a100000102 U -\n";

#[test]
fn a_plan_is_told_where_it_breaks(rt: HostRuntime) {
    let alloc = rt.alloc();
    let deep = b"topic T transient hash 3 - - 2 - 0\n";
    assert!(rt;
        matches!(
            &over_plan(alloc, "list", deep, WRITER),
            Status::Plan(2, PlanKind::DepthAboveLimit)
        )
    );
    let zero = b"topic T transient hash 01 - - - - 0\n";
    assert!(rt;
        matches!(
            &over_plan(alloc, "show", zero, WRITER),
            Status::Plan(2, PlanKind::Number)
        )
    );
    assert!(rt;
        matches!(
            &over_plan(alloc, "show", TOPIC, TOPIC),
            Status::Plan(3, PlanKind::Twice)
        )
    );
    assert!(rt;
        matches!(
            &over_plan(alloc, "show", TOPIC, OTHER),
            Status::Plan(3, PlanKind::UnknownTopic)
        )
    );
    assert!(rt;
        matches!(
            &over_plan(alloc, "show", TOPIC, WRITER),
            Status::Plan(4, PlanKind::Word)
        )
    );
    assert!(rt;
        matches!(
            &over_plan(alloc, "list", TOPIC, WRITER),
            Status::Plan(4, PlanKind::Word)
        )
    );
    let reader = b"reader b2b2b2b2b2b2b2b2b2b2b2b200000107 T transient\nend\n";
    assert!(rt; matches!(&over_plan(alloc, "list", TOPIC, reader), Status::Done));
}

#[test]
fn a_failing_source_is_a_read_fault(rt: HostRuntime) {
    let alloc = rt.alloc();
    for number in 0..2u64 {
        let mut fails = none(alloc);
        fails.source = call(alloc, number);
        let done = run(alloc, "list", FIRST, SECOND, fails);
        assert!(rt; gives(&done, &Status::ReadFault, b"", b"durability: read fault\n"));
    }
}

#[test]
fn a_failing_sink_is_a_write_fault(rt: HostRuntime) {
    let alloc = rt.alloc();
    let mut fails = none(alloc);
    fails.sink = call(alloc, 0);
    let done = run(alloc, "list", FIRST, SECOND, fails);
    assert!(rt;
        gives(
            &done,
            &Status::WriteFault,
            b"",
            b"durability: write fault\n"
        )
    );
    let mut fails = none(alloc);
    fails.sink = call(alloc, 1);
    let done = run(alloc, "list", FIRST, SECOND, fails);
    assert!(rt; gives(&done, &Status::Done, LINE, b""));
}

#[test]
fn a_failing_err_changes_no_status(rt: HostRuntime) {
    let alloc = rt.alloc();
    let mut fails = none(alloc);
    fails.err = call(alloc, 0);
    let done = run(alloc, "lists", FIRST, b"", fails);
    assert!(rt; gives(&done, &Status::Usage, b"", b""));
    let mut fails = none(alloc);
    fails.err = call(alloc, 1);
    let done = run(alloc, "lists", FIRST, b"", fails);
    assert!(rt; gives(&done, &Status::Usage, b"", b"durability: usage\n"));
}

/// Whether this is what is said of a status.
fn says(alloc: Global, status: &Status, line: &[u8]) -> bool {
    let mut err = MemSink::new(List::new(alloc));
    say_fault(&mut err, status);
    err.written().as_slice() == line
}

#[test]
fn the_faults_of_files_have_their_lines(rt: HostRuntime) {
    let alloc = rt.alloc();
    let journal = Status::NotAJournal(FileId::One, 13);
    assert!(rt; says(alloc, &Status::DiskFault, b"durability: disk fault\n"));
    assert!(rt; says(alloc, &journal, b"durability: not a journal 1 13\n"));
    assert!(rt;
        says(
            alloc,
            &Status::Full(1073741825),
            b"durability: full 1073741825\n"
        )
    );
    assert!(rt; says(alloc, &Status::Worn, b"durability: worn\n"));
    assert!(rt; number(&Status::DiskFault) == 7 && number(&journal) == 9);
    assert!(rt; number(&Status::Full(0)) == 10 && number(&Status::Worn) == 10);
}

#[test]
fn the_longest_name_has_room_in_its_line(rt: HostRuntime) {
    let alloc = rt.alloc();
    let longest = [b'N'; 64];
    assert!(rt; is_a_name(&longest));
    if is_a_name(&longest) {
        let mut line = Octets::new(alloc);
        let _ = line.append(b"durability: plan differs ");
        let _ = line.append(&longest);
        let _ = line.append(b"\n");
        let status = Status::PlanDiffers(Name::of(&longest));
        assert!(rt; number(&status) == 9 && says(alloc, &status, line.as_slice()));
    }
}

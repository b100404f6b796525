//! `check` and `rerun`: their words, and two files in memory through the top call.

use crate::run::durability;
use crate::tests::{FIRST, Outcome, call, gives, is_usage, line_of, words_of};
use crate::words::Line;
use dur_base::{List, Octets};
use dur_outside::{FileId, MemDisk, MemRig, MemSink, MemSource};
use dur_rerun::{Status, check, rerun};
use std::alloc::Global;

/// Whether these words are `check` over a folder of that name.
fn checks(alloc: Global, texts: &[&str], name: &str) -> bool {
    match line_of(alloc, texts) {
        Ok(Line::Check { dir }) => dir.text() == name,
        _ => false,
    }
}

/// Whether these words are `rerun` over a folder of that name.
fn reruns(alloc: Global, texts: &[&str], name: &str) -> bool {
    match line_of(alloc, texts) {
        Ok(Line::Rerun { dir }) => dir.text() == name,
        _ => false,
    }
}

#[test]
fn a_folder_is_named_in_both_spellings(rt: HostRuntime) {
    let alloc = rt.alloc();
    assert!(rt; checks(alloc, ["check", "--dir", "a b/c"].as_slice(), "a b/c"));
    assert!(rt; checks(alloc, ["check", "--dir=a b/c"].as_slice(), "a b/c"));
    assert!(rt; checks(alloc, ["check", "--dir=a=-b"].as_slice(), "a=-b"));
    assert!(rt; reruns(alloc, ["rerun", "--dir", "a b/c"].as_slice(), "a b/c"));
    assert!(rt; reruns(alloc, ["rerun", "--dir=a b/c"].as_slice(), "a b/c"));
}

/// Whether words that name no folder, or not one folder alone, are refused behind this subcommand.
fn wants_a_folder(alloc: Global, word: &str) -> bool {
    is_usage(alloc, [word].as_slice())
        && is_usage(alloc, [word, "--dir"].as_slice())
        && is_usage(alloc, [word, "--dir", ""].as_slice())
        && is_usage(alloc, [word, "--dir="].as_slice())
        && is_usage(alloc, [word, "--dir", "-"].as_slice())
        && is_usage(alloc, [word, "--dir=-a"].as_slice())
        && is_usage(alloc, [word, "--dir", "a", "--dir=a"].as_slice())
        && is_usage(alloc, [word, "--dir", "a", "--epoch", "1"].as_slice())
        && is_usage(alloc, [word, "--dir", "a", "b"].as_slice())
        && is_usage(alloc, [word, "a"].as_slice())
        && is_usage(alloc, [word, "--di", "a"].as_slice())
}

#[test]
fn one_folder_is_wanted(rt: HostRuntime) {
    let alloc = rt.alloc();
    assert!(rt; wants_a_folder(alloc, "rerun"));
    assert!(rt; wants_a_folder(alloc, "check"));
    assert!(rt; is_usage(alloc, ["checks", "--dir", "a"].as_slice()));
    assert!(rt; is_usage(alloc, ["list", "--dir", "a"].as_slice()));
}

/// An open file of generation 1 that keeps nothing.
const OPEN: &[u8] = b"DDSJRNL1\x01\x02\0\0\0\x01\0\0\0\x20\0\0\0\0\0\0\0\
\0\0\0\0\0\0\0\0\0\0\0\0\0\0\0\0\0\0\0\0\0\0\0\0\0\0\0\0\0\0\0\0\0";

/// A disk with these two files, of which the calls with these numbers fail.
fn disk_of(alloc: Global, zero: &[u8], one: &[u8], fails: List<u64>) -> MemDisk {
    let mut first = Octets::new(alloc);
    let _ = first.append(zero);
    let mut second = Octets::new(alloc);
    let _ = second.append(one);
    MemDisk::new(first, second, fails)
}

/// Which calls of the sink and of the sink for faults fail.
#[derive(Drop)]
struct Fails {
    sink: List<u64>,
    err: List<u64>,
}

fn none(alloc: Global) -> Fails {
    Fails {
        sink: List::new(alloc),
        err: List::new(alloc),
    }
}

/// A run of this subcommand over an input and a disk, which is handed back.
fn run(
    alloc: Global,
    word: &str,
    input: &mut MemSource,
    disk: MemDisk,
    fails: Fails,
) -> (Outcome, MemDisk) {
    let words = match words_of(alloc, [word, "--dir", "a"].as_slice()) {
        Ok(words) => words,
        Err(_) => Vec::new(alloc),
    };
    let mut err = MemSink::new(fails.err);
    let rig = MemRig::new(disk, MemSink::new(fails.sink));
    let ran = durability(alloc, &words, input, rig, &mut err);
    let (disk, out) = ran.rig.parts();
    let done = Outcome {
        status: ran.status,
        out,
        err,
    };
    (done, disk)
}

/// A run of `check` over a disk and an input whose first read would fail.
fn checked(alloc: Global, disk: MemDisk, fails: Fails) -> Outcome {
    let mut input = MemSource::new(Octets::new(alloc), call(alloc, 0));
    run(alloc, "check", &mut input, disk, fails).0
}

#[test]
fn the_two_files_are_told(rt: HostRuntime) {
    let alloc = rt.alloc();
    let disk = disk_of(alloc, b"", b"DDSJRNL1\x01", List::new(alloc));
    let done = checked(alloc, disk, none(alloc));
    let blank = b"file 0 blank\nfile 1 blank\n";
    assert!(rt; gives(&done, &Status::Done, blank, b""));
    let disk = disk_of(alloc, OPEN, b"", List::new(alloc));
    let done = checked(alloc, disk, none(alloc));
    let open = b"file 0 open 1 0\nfile 1 blank\n";
    assert!(rt; gives(&done, &Status::Done, open, b""));
    check::one_answer();
}

#[test]
fn a_broken_file_is_told_behind_the_text(rt: HostRuntime) {
    let alloc = rt.alloc();
    let broken = Status::NotAJournal(FileId::One, 0);
    let out = b"file 0 open 1 0\nfile 1 broken 0\n";
    let said = b"durability: not a journal 1 0\n";
    let disk = disk_of(alloc, OPEN, &[0; 10], List::new(alloc));
    let done = checked(alloc, disk, none(alloc));
    assert!(rt; gives(&done, &broken, out, said));
    // That `err` fails changes nothing else.
    let disk = disk_of(alloc, OPEN, &[0; 10], List::new(alloc));
    let mut fails = none(alloc);
    fails.err = call(alloc, 0);
    let done = checked(alloc, disk, fails);
    assert!(rt; gives(&done, &broken, out, b""));
}

#[test]
fn a_failing_disk_and_a_failing_sink_are_told(rt: HostRuntime) {
    let alloc = rt.alloc();
    for number in 0..4u64 {
        let disk = disk_of(alloc, OPEN, OPEN, call(alloc, number));
        let done = checked(alloc, disk, none(alloc));
        assert!(rt; gives(&done, &Status::DiskFault, b"", b"durability: disk fault\n"));
    }
    let disk = disk_of(alloc, OPEN, b"", List::new(alloc));
    let mut fails = none(alloc);
    fails.sink = call(alloc, 0);
    let done = checked(alloc, disk, fails);
    let said = b"durability: write fault\n";
    assert!(rt; gives(&done, &Status::WriteFault, b"", said));
}

/// A plan of a persistent topic and one sample of it.
fn told(alloc: Global) -> MemSource {
    let mut bytes = Octets::new(alloc);
    let _ = bytes.append(
        b"prefix 0102030405060708\ntopic T persistent hash 1 - - - - 0\n\
writer a1a1a1a1a1a1a1a1a1a1a1a100000102 T -\nend\n",
    );
    let _ = bytes.append(FIRST);
    MemSource::new(bytes, List::new(alloc))
}

/// A run of `rerun` over that input and a disk, which is handed back.
fn rerun_over(alloc: Global, disk: MemDisk) -> (Outcome, MemDisk) {
    run(alloc, "rerun", &mut told(alloc), disk, none(alloc))
}

#[test]
fn what_rerun_stores_is_what_check_finds(rt: HostRuntime) {
    let alloc = rt.alloc();
    let (done, disk) = rerun_over(alloc, disk_of(alloc, b"", b"", List::new(alloc)));
    assert!(rt; gives(&done, &Status::Done, b"", b""));
    let done = checked(alloc, disk, none(alloc));
    let out = b"file 0 open 1 1\nfile 1 blank\n\
T a1a1a1a1a1a1a1a1a1a1a1a100000102 1 aaaaaaaaaaaaaaaaaaaaaaaaaaaaaaaa write 5 000100002a000000 5\n";
    assert!(rt; gives(&done, &Status::Done, out, b""));
    rerun::kept_histories_stand_for_whole_ones();
}

#[test]
fn rerun_ends_where_there_is_no_journal(rt: HostRuntime) {
    let alloc = rt.alloc();
    let broken = Status::NotAJournal(FileId::Zero, 0);
    let disk = disk_of(alloc, &[0; 10], b"", List::new(alloc));
    let (done, disk) = rerun_over(alloc, disk);
    assert!(rt; gives(&done, &broken, b"", b"durability: not a journal 0 0\n"));
    // The file is as it was.
    let done = checked(alloc, disk, none(alloc));
    let out = b"file 0 broken 0\nfile 1 blank\n";
    assert!(rt; gives(&done, &broken, out, b"durability: not a journal 0 0\n"));
    let (done, _) = rerun_over(alloc, disk_of(alloc, b"", b"", call(alloc, 0)));
    assert!(rt; gives(&done, &Status::DiskFault, b"", b"durability: disk fault\n"));
}

//! `late`: its words, and replays of 0 to 300 changes over a link to a session.

use crate::late::{late, late_number, say_late_fault};
use crate::tests::session_link::{SessionLink, Way};
use crate::tests::{call, gives, run_words, words_of};
use crate::words::{Line, WordsFault, read_words};
use bytes::Bytes;
use dur_base::{
    Act, EntityId, Form, Guid, Key, List, Number, OutOfMemory, Payload, Prefix, Sample, SetMark,
    Ticks,
};
use dur_outside::{MemLink, MemSink};
use dur_rerun::Status;
use dur_rerun::late::LateStatus;
use dur_view::Change;
use rel_writer::Ids;
use std::alloc::Global;

const READER: Guid = Guid(*b"\xb2\xb2\xb2\xb2\xb2\xb2\xb2\xb2\xb2\xb2\xb2\xb2\0\0\x01\x07");

const WRITER: Guid = Guid(*b"\xa1\xa1\xa1\xa1\xa1\xa1\xa1\xa1\xa1\xa1\xa1\xa1\0\0\x01\x02");

const IDS: Ids = Ids {
    own: Prefix(*b"\x01\x02\x03\x04\x05\x06\x07\x08\0\0\0\x01"),
    writer: EntityId(*b"\x01\0\x01\x02"),
    reader: READER,
    keyed: true,
};

/// The options of `late` and their values, without the turns.
const OPTIONS: &[(&str, &str)] = &[
    ("--reader", "b2b2b2b2b2b2b2b2b2b2b2b200000107"),
    ("--prefix", "0102030405060708"),
    ("--writer", "01000102"),
    ("--peer", "127.0.0.1:7400"),
    ("--turns", "11"),
];

/// The words of `late` with these options, spelled as `--name=value` where they are joined.
fn spelled(
    alloc: Global,
    options: &[(&str, &str)],
    joined: bool,
) -> Result<Vec<String>, OutOfMemory> {
    let mut words = words_of(alloc, ["late"].as_slice())?;
    for (name, value) in options {
        if joined {
            words.push(format!(in alloc; "{name}={value}")?)?;
        } else {
            words.push(String::from_str(alloc, name)?)?;
            words.push(String::from_str(alloc, value)?)?;
        }
    }
    Ok(words)
}

/// The line that these options make.
fn read(alloc: Global, options: &[(&str, &str)], joined: bool) -> Result<Line, WordsFault> {
    match spelled(alloc, options, joined) {
        Ok(words) => read_words(alloc, &words),
        Err(_) => Err(WordsFault::OutOfMemory),
    }
}

/// The options with this value at one of them.
fn changed(
    alloc: Global,
    name: &'static str,
    value: &'static str,
) -> Result<Vec<(&'static str, &'static str)>, OutOfMemory> {
    let mut options = Vec::new(alloc);
    for (other, given) in OPTIONS {
        options.push((*other, if *other == name { value } else { *given }))?;
    }
    Ok(options)
}

/// Whether a value is refused at an option, in both spellings.
fn is_refused(alloc: Global, name: &'static str, value: &'static str) -> bool {
    let Ok(options) = changed(alloc, name, value) else {
        return false;
    };
    matches!(&read(alloc, &options, false), Err(WordsFault::Usage))
        && matches!(&read(alloc, &options, true), Err(WordsFault::Usage))
}

/// Whether that is the line of the options.
fn is_whole(line: &Result<Line, WordsFault>) -> bool {
    match line {
        Ok(
            Line::Late {
                reader,
                prefix,
                writer,
                peer,
                turns,
            },
        ) => {
            *reader == READER
                && *prefix == *b"\x01\x02\x03\x04\x05\x06\x07\x08"
                && *writer == IDS.writer
                && peer.text() == "127.0.0.1:7400"
                && *turns == 11
        }
        _ => false,
    }
}

#[test]
fn options_of_late_are_read_in_both_spellings(rt: HostRuntime) {
    let alloc = rt.alloc();
    assert!(rt; is_whole(&read(alloc, OPTIONS, false)));
    assert!(rt; is_whole(&read(alloc, OPTIONS, true)));
    let most = changed(alloc, "--turns", "4294967295").expect(&rt, "memory");
    assert!(rt;
        matches!(
            &read(alloc, &most, true),
            Ok(Line::Late {
                turns: 0xffff_ffff,
                ..
            })
        )
    );
}

#[test]
fn each_option_of_late_is_refused_where_it_is_wrong(rt: HostRuntime) {
    let alloc = rt.alloc();
    assert!(rt; is_refused(alloc, "--reader", "B2b2b2b2b2b2b2b2b2b2b2b200000107"));
    assert!(rt; is_refused(alloc, "--reader", "b2b2b2b2b2b2b2b2b2b2b2b20000010"));
    assert!(rt; is_refused(alloc, "--reader", "b2b2b2b2b2b2b2b2b2b2b2b2000001070"));
    assert!(rt; is_refused(alloc, "--prefix", "010203040506070g"));
    assert!(rt; is_refused(alloc, "--prefix", ""));
    assert!(rt; is_refused(alloc, "--writer", "0100010203"));
    assert!(rt; is_refused(alloc, "--peer", ""));
    assert!(rt; is_refused(alloc, "--peer", "-"));
    assert!(rt; is_refused(alloc, "--turns", "0"));
    assert!(rt; is_refused(alloc, "--turns", "011"));
    assert!(rt; is_refused(alloc, "--turns", "4294967296"));
}

/// Whether the options are refused without one of them, and with it twice.
fn is_wanted_once(alloc: Global, place: usize) -> Result<bool, OutOfMemory> {
    let mut without = Vec::new(alloc);
    let mut twice = Vec::new(alloc);
    for (at, option) in OPTIONS.iter().enumerate() {
        twice.push(*option)?;
        if at == place {
            twice.push(*option)?;
        } else {
            without.push(*option)?;
        }
    }
    Ok(
        matches!(&read(alloc, &without, false), Err(WordsFault::Usage))
            && matches!(&read(alloc, &twice, false), Err(WordsFault::Usage)),
    )
}

#[test]
fn each_option_of_late_is_wanted_once(rt: HostRuntime) {
    for place in 0..OPTIONS.len() {
        assert!(rt; is_wanted_once(rt.alloc(), place).expect(&rt, "memory"));
    }
}

/// A change of the writer with that number.
fn change(alloc: Global, number: Number) -> Result<Change, OutOfMemory> {
    Ok(Change {
        original: WRITER,
        number,
        writer: WRITER,
        sample: Sample {
            key: Key([0xaa; 16]),
            act: Act::Write,
            stamp: Ticks(5),
            lifespan: None,
            set: SetMark::NoSet,
            original: Some((WRITER, number)),
            form: Form::Data,
            payload: Payload::of(Bytes::copy_from_slice(alloc, b"\0\x01\0\0*\0\0\0")?),
        },
    })
}

/// Changes with the numbers 1 to `count`.
fn changes(alloc: Global, count: u64) -> Result<List<Change>, OutOfMemory> {
    let mut changes = List::new(alloc);
    for number in 0..count {
        if let Some(number) = Number::new(number + 1) {
            changes.push(change(alloc, number)?)?;
        }
    }
    Ok(changes)
}

/// Their lines.
fn lines(alloc: Global, count: u64) -> Result<String, OutOfMemory> {
    let mut lines = String::new(alloc);
    for number in 0..count {
        let number = number + 1;
        let line = format!(in alloc;
            "a1a1a1a1a1a1a1a1a1a1a1a100000102 {number} \
aaaaaaaaaaaaaaaaaaaaaaaaaaaaaaaa write 5 000100002a000000\n"
        )?;
        lines.push_str(&line)?;
    }
    Ok(lines)
}

/// What became of a run of `late`.
#[derive(Drop)]
struct Outcome {
    status: LateStatus,
    out: MemSink,
    link: SessionLink,
}

/// A run over a session of so many changes. The calls of the link and of the sink with these numbers
/// fail.
fn run(
    alloc: Global,
    count: u64,
    turns: &'static str,
    way: Way,
    link_fails: List<u64>,
    sink_fails: List<u64>,
) -> Option<Outcome> {
    let options = changed(alloc, "--turns", turns).ok()?;
    let words = spelled(alloc, &options, false).ok()?;
    let changes = changes(alloc, count).ok()?;
    let mut link = SessionLink::new(alloc, changes, IDS, way, link_fails)?;
    let mut out = MemSink::new(sink_fails);
    let status = late(alloc, &words, &mut link, &mut out);
    Some(Outcome { status, out, link })
}

/// Whether a run with no failing call ends so, with all lines, after so many turns at most.
fn replays(alloc: Global, count: u64, way: Way, most: u64) -> bool {
    let none = List::new(alloc);
    let Some(ran) = run(alloc, count, "6000", way, none, List::new(alloc)) else {
        return false;
    };
    let Ok(lines) = lines(alloc, count) else {
        return false;
    };
    ran.status == LateStatus::Done
        && ran.out.written().as_slice() == lines.as_bytes()
        && ran.link.complete()
        && ran.link.receives() <= most
}

#[test]
fn replays_of_0_to_300_changes_are_taken(rt: HostRuntime) {
    for count in [0, 1, 3, 300] {
        assert!(rt; replays(rt.alloc(), count, Way::Straight, 3 + 2 * (count + 1)));
    }
}

#[test]
fn replays_are_taken_over_a_bad_way(rt: HostRuntime) {
    for count in [0, 1, 3, 300] {
        assert!(rt; replays(rt.alloc(), count, Way::Lossy, 6000));
        assert!(rt; replays(rt.alloc(), count, Way::Twice, 6000));
        assert!(rt; replays(rt.alloc(), count, Way::Swapped, 6000));
    }
}

/// A run over a session of 3 changes.
fn run_of_three(
    alloc: Global,
    turns: &'static str,
    link_fails: List<u64>,
    sink_fails: List<u64>,
) -> Option<Outcome> {
    run(alloc, 3, turns, Way::Straight, link_fails, sink_fails)
}

#[test]
fn three_changes_are_taken_in_six_turns(rt: HostRuntime) {
    let alloc = rt.alloc();
    let lines = lines(alloc, 3).expect(&rt, "memory");
    let ran = run_of_three(alloc, "11", List::new(alloc), List::new(alloc)).expect(&rt, "memory");
    assert!(rt; ran.status == LateStatus::Done && ran.link.receives() == 6);
    assert!(rt; ran.out.written().as_slice() == lines.as_bytes());
    let ran = run_of_three(alloc, "5", List::new(alloc), List::new(alloc)).expect(&rt, "memory");
    assert!(rt; ran.status == LateStatus::Unfinished && ran.link.receives() == 5);
    assert!(rt; ran.out.written().as_slice() == lines.as_bytes());
}

#[test]
fn each_failing_call_of_the_link_is_told(rt: HostRuntime) {
    let alloc = rt.alloc();
    for number in 0..9u64 {
        let fails = call(alloc, number);
        let ran = run_of_three(alloc, "11", fails, List::new(alloc)).expect(&rt, "memory");
        assert!(rt; ran.status == LateStatus::LinkFault && ran.out.written().len() == 0);
    }
    let ran = run_of_three(alloc, "11", call(alloc, 9), List::new(alloc)).expect(&rt, "memory");
    assert!(rt; ran.status == LateStatus::Done);
}

#[test]
fn a_failing_write_is_told_where_late_is_done(rt: HostRuntime) {
    let alloc = rt.alloc();
    let ran = run_of_three(alloc, "11", List::new(alloc), call(alloc, 0)).expect(&rt, "memory");
    assert!(rt; ran.status == LateStatus::WriteFault && ran.out.written().len() == 0);
    let ran = run_of_three(alloc, "5", List::new(alloc), call(alloc, 0)).expect(&rt, "memory");
    assert!(rt; ran.status == LateStatus::Unfinished && ran.out.written().len() == 0);
}

#[test]
fn other_words_are_no_line_of_late(rt: HostRuntime) {
    let alloc = rt.alloc();
    let mut link = MemLink::new(List::new(alloc), List::new(alloc));
    let mut out = MemSink::new(List::new(alloc));
    for word in ["list", "lates", "late"] {
        let words = words_of(alloc, [word].as_slice()).expect(&rt, "memory");
        assert!(rt; late(alloc, &words, &mut link, &mut out) == LateStatus::Usage);
    }
    assert!(rt; link.sent().len() == 0 && out.written().len() == 0);
}

#[test]
fn late_is_no_line_of_durability(rt: HostRuntime) {
    let alloc = rt.alloc();
    let words = spelled(alloc, OPTIONS, false).expect(&rt, "memory");
    let ran = run_words(alloc, &words);
    assert!(rt; gives(&ran, &Status::Usage, b"", b"durability: usage\n"));
}

/// Whether a status has that number, and that is said of it.
fn says(alloc: Global, status: LateStatus, number: u8, line: &[u8]) -> bool {
    let mut err = MemSink::new(List::new(alloc));
    say_late_fault(&mut err, status);
    late_number(status) == number && err.written().as_slice() == line
}

#[test]
fn each_status_of_late_has_its_line(rt: HostRuntime) {
    let alloc = rt.alloc();
    assert!(rt; says(alloc, LateStatus::Done, 0, b""));
    assert!(rt; says(alloc, LateStatus::Usage, 2, b"durability: usage\n"));
    assert!(rt;
        says(
            alloc,
            LateStatus::OutOfMemory,
            3,
            b"durability: out of memory\n"
        )
    );
    assert!(rt;
        says(
            alloc,
            LateStatus::WriteFault,
            6,
            b"durability: write fault\n"
        )
    );
    assert!(rt;
        says(
            alloc,
            LateStatus::LinkFault,
            12,
            b"durability: link fault\n"
        )
    );
    assert!(rt;
        says(
            alloc,
            LateStatus::Unfinished,
            13,
            b"durability: unfinished\n"
        )
    );
}

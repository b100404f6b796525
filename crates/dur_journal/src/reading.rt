//! Reading the text of an open file.

ghost use Rattle.std.specs.Prelude.{◌≡◌, ◌+◌, ◌++◌, ◌≤◌, ◌^◌, ℕ, List as Sequence, length, take, drop, IfOk, IfErr, OnOk, Some, Ok, Err};
ghost use Rattle.std.specs.Int.{w32};
ghost use Rattle.dur_base.specs.Fields.{number};
ghost use Rattle.dur_view.specs.History.{History, Start, ◌+>◌, AllFollow};
ghost use Rattle.dur_record.specs.Past.{IsPast};
ghost use Rattle.dur_record.specs.Readers.{AnswersView, GoesOn};
ghost use Rattle.dur_journal.specs.Histories.{IsBase, more};
ghost use Rattle.dur_journal.specs.Texts.{entries_in, version_of, view_in};
ghost use Rattle.dur_journal.specs.File.{base_length, break_of, front_in, record_break};
ghost use Rattle.dur_journal.specs.Reading.{BreaksAt, BreaksBy, BreaksInside, BreaksText, Ends, IsInside, IsRead, IsRecord, IsSoundRead, unread_of};

use crate::front::{FRONT, Front, LONGEST_BASE, version_of};
use bytes::Bytes;
use dur_base::{Entry, List, OutOfMemory, u32_of, u64_of};
use dur_record::{Past, TextFault, Version, past_of, read_following, read_view, read_view_1};
use dur_view::View;
use std::alloc::Global;

/// The most octets of a record's body.
const LONGEST_BODY: u32 = 1 << 28;

/// Why octets were not read.
#[derive(Clone, Copy, Debug, PartialEq, Eq, Drop)]
pub(crate) enum Unread {
    /// They break at that place.
    Breaks(usize),
    OutOfMemory,
}

/// What an open file has.
#[derive(Drop)]
pub(crate) struct FileHistory {
    pub(crate) version: Version,
    /// The view of the base.
    pub(crate) start: View,
    /// The entries of the records.
    pub(crate) entries: List<Entry>,
    /// How many records there are.
    pub(crate) records: u64,
    /// The octets of the base.
    pub(crate) base: u64,
    /// The octets of the records.
    pub(crate) appended: u64,
}

/// The records that were read.
#[derive(Drop)]
struct Records {
    entries: List<Entry>,
    count: u64,
    /// Their octets.
    size: usize,
}

/// Why a text was not read.
fn unread_of(fault: TextFault) -> Unread
    ensures { result ≡ unread_of fault }
{
    match fault {
        TextFault::Cut(at) | TextFault::BadTag(at) | TextFault::BadField(at) => Unread::Breaks(at),
        TextFault::OutOfMemory => Unread::OutOfMemory,
    }
}

/// The view that a text of a version is.
fn read_base(alloc: Global, bytes: Bytes<Global>, version: Version) -> Result<View, TextFault>
    ensures { AnswersView version bytes result }
{
    match version {
        Version::One => read_view_1(alloc, bytes),
        Version::Two => read_view(alloc, bytes),
    }
}

/// The view that a text of a version is, or where it breaks.
#[tactic(auto, using(crate::proofs::TextReadings::view_read, crate::proofs::TextReadings::view_unread))]
fn view_of_text(alloc: Global, bytes: Bytes<Global>, version: Version) -> Result<View, Unread>
    ensures ok { IfOk result (λ view. view_in version bytes ≡ Ok view) }
    ensures err { IfErr result (BreaksAt (view_in version bytes)) }
    ensures within { IfErr result (IsInside (length bytes)) }
{
    match read_base(alloc, bytes, version) {
        Ok(view) => Ok(view),
        Err(fault) => Err(unread_of(fault)),
    }
}

/// The view that the base of that length is, at the front of these octets, and what follows it.
#[tactic(auto, unfolding(crate::specs::File::break_of))]
fn base_of(
    alloc: Global,
    bytes: Bytes<Global>,
    version: Version,
    size: u64,
) -> Result<(View, Bytes<Global>), Unread>
    ensures whole { IfOk result (λ r. size ≤ length bytes) }
    ensures ok { IfOk result (λ r. view_in version (take size bytes) ≡ Ok r.0) }
    ensures rest { IfOk result (λ r. r.1 ≡ drop size bytes) }
    ensures err { IfErr result (BreaksBy (break_of (view_in version) size bytes)) }
    ensures within { IfErr result (IsInside (length bytes)) }
{
    let left = bytes.len();
    if size > left as u64 {
        return match view_of_text(alloc, bytes, version) {
            Ok(_) => Err(Unread::Breaks(left)),
            Err(unread) => Err(unread),
        };
    }
    let mut rest = bytes;
    let Ok(base) = rest.split_to(size as usize) else {
        return Err(Unread::OutOfMemory);
    };
    match view_of_text(alloc, base, version) {
        Ok(view) => Ok((view, rest)),
        Err(unread) => Err(unread),
    }
}

/// The entries that a text of a version is after the history of the past, or where it breaks.
fn entries_of_text(
    alloc: Global,
    bytes: Bytes<Global>,
    version: Version,
    past: &mut Past,
) -> Result<List<Entry>, Unread>
    requires { (h : History) × IsPast past.old (Some h) }
    ensures ok { (h : History) → IsPast past.old (Some h) → IfOk result (λ es. entries_in version h bytes ≡ Ok es) }
    ensures past { (h : History) → IsPast past.old (Some h) → IfOk result (λ es. IsPast past.new (Some (more h es))) }
    ensures err { (h : History) → IsPast past.old (Some h) → IfErr result (BreaksAt (entries_in version h bytes)) }
    ensures within { IfErr result (IsInside (length bytes)) }
{
    match read_following(alloc, bytes, version, past) {
        Ok(entries) => Ok(entries),
        Err(fault) => Err(unread_of(fault)),
    }
}

/// The entries of a record's body of that length, at the front of these octets, and what follows it.
#[tactic(auto, unfolding(crate::specs::File::break_of))]
fn body_of(
    alloc: Global,
    bytes: Bytes<Global>,
    version: Version,
    past: &mut Past,
    size: usize,
) -> Result<(List<Entry>, Bytes<Global>), Unread>
    requires { (h : History) × IsPast past.old (Some h) }
    ensures whole { IfOk result (λ r. size ≤ length bytes) }
    ensures ok { (h : History) → IsPast past.old (Some h) → IfOk result (λ r. entries_in version h (take size bytes) ≡ Ok r.0) }
    ensures past { (h : History) → IsPast past.old (Some h) → IfOk result (λ r. IsPast past.new (Some (more h r.0))) }
    ensures rest { IfOk result (λ r. r.1 ≡ drop size bytes) }
    ensures err { (h : History) → IsPast past.old (Some h)
        → IfErr result (BreaksBy (break_of (entries_in version h) size bytes)) }
    ensures within { IfErr result (IsInside (length bytes)) }
{
    let left = bytes.len();
    if size > left {
        return match entries_of_text(alloc, bytes, version, past) {
            Ok(_) => Err(Unread::Breaks(left)),
            Err(unread) => Err(unread),
        };
    }
    let mut rest = bytes;
    let Ok(body) = rest.split_to(size) else {
        return Err(Unread::OutOfMemory);
    };
    match entries_of_text(alloc, body, version, past) {
        Ok(entries) => Ok((entries, rest)),
        Err(unread) => Err(unread),
    }
}

/// The entries of the record whose gate stands open in front of these octets, how many octets its body has, and
/// what follows it.
#[tactic(auto, unfolding(crate::specs::File::record_break))]
fn record_of(
    alloc: Global,
    bytes: Bytes<Global>,
    version: Version,
    past: &mut Past,
) -> Result<(List<Entry>, usize, Bytes<Global>), Unread>
    requires { (h : History) × IsPast past.old (Some h) }
    ensures ok { (h : History) → IsPast past.old (Some h) → IfOk result (λ r. IsRecord version h bytes r.1 r.0) }
    ensures past { (h : History) → IsPast past.old (Some h) → IfOk result (λ r. IsPast past.new (Some (more h r.0))) }
    ensures rest { IfOk result (λ r. r.2 ≡ drop (4 + r.1) bytes) }
    ensures err { (h : History) → IsPast past.old (Some h) → IfErr result (BreaksBy (record_break version h bytes)) }
    ensures within { IfErr result (IsInside (length bytes)) }
{
    if bytes.len() < 4 {
        return Err(Unread::Breaks(0));
    }
    let size = u32_of(&bytes.as_slice()[..4], true);
    if size > LONGEST_BODY {
        return Err(Unread::Breaks(0));
    }
    let size = size as usize;
    let mut body = bytes;
    body.advance(4);
    match body_of(alloc, body, version, past, size) {
        Ok((entries, rest)) => Ok((entries, size, rest)),
        Err(Unread::Breaks(at)) => Err(Unread::Breaks(at + 4)),
        Err(Unread::OutOfMemory) => Err(Unread::OutOfMemory),
    }
}

/// Adds entries at the end.
fn add_all(all: &mut Vec<Entry>, entries: List<Entry>) -> Result<(), OutOfMemory>
    ensures { OnOk result (all.new.items ≡ all.old.items ++ entries) }
{
    let mut entries = entries.into_vec();
    all.append(&mut entries)?;
    Ok(())
}

/// The records behind a base, up to the first closed gate. `bytes` are the octets behind the base.
fn records_of(
    alloc: Global,
    start: &View,
    version: Version,
    bytes: Bytes<Global>,
) -> Result<Records, Unread>
    ensures ok { IfOk result (λ r. Ends version (Start start.now) bytes (Start start.now +> r.entries) r.count r.size) }
    ensures follow { IfOk result (λ r. AllFollow (Start start.now) r.entries) }
    ensures err { IfErr result (BreaksInside version (Start start.now) bytes) }
    ensures within { IfErr result (IsInside (length bytes)) }
{
    let Ok(mut past) = past_of(alloc, start) else {
        return Err(Unread::OutOfMemory);
    };
    let whole = bytes.len();
    let mut all = Vec::new(alloc);
    let mut rest = bytes;
    let mut count = 0_u64;
    'records: loop {
        let size = whole - rest.len();
        let Some(gate) = rest.as_slice().first() else {
            return Err(Unread::Breaks(size));
        };
        if *gate != 1 {
            return Ok(Records {
                entries: List::of(all),
                count,
                size,
            });
        }
        rest.advance(1);
        match record_of(alloc, rest, version, &mut past) {
            Ok((entries, _, next)) => {
                if add_all(&mut all, entries).is_err() {
                    return Err(Unread::OutOfMemory);
                }
                rest = next;
                count += 1;
            }
            Err(Unread::Breaks(inside)) => return Err(Unread::Breaks(size + 1 + inside)),
            Err(Unread::OutOfMemory) => return Err(Unread::OutOfMemory),
        }
    }
}

/// What an open file has, read whole. Condition: its first octets are those of an open file.
pub(crate) fn text_of(alloc: Global, bytes: Bytes<Global>) -> Result<FileHistory, Unread>
    ensures ok { (g : ℕ) → front_in bytes ≡ Ok (Front.Open g) → IfOk result (IsRead bytes g) }
    ensures sound { IfOk result IsSoundRead }
    ensures err { (g : ℕ) → front_in bytes ≡ Ok (Front.Open g) → IfErr result (BreaksText bytes) }
{
    if bytes.len() < FRONT {
        return Err(Unread::Breaks(0));
    }
    let version = version_of(bytes.as_slice());
    let base = u64_of(&bytes.as_slice()[17..25], true);
    if base > LONGEST_BASE {
        return Err(Unread::Breaks(17));
    }
    let mut rest = bytes;
    rest.advance(FRONT);
    let (start, rest) = match base_of(alloc, rest, version, base) {
        Ok(read) => read,
        Err(Unread::Breaks(at)) => return Err(Unread::Breaks(FRONT + at)),
        Err(Unread::OutOfMemory) => return Err(Unread::OutOfMemory),
    };
    match records_of(alloc, &start, version, rest) {
        Ok(records) => Ok(FileHistory {
            version,
            start,
            entries: records.entries,
            records: records.count,
            base,
            appended: records.size as u64,
        }),
        Err(Unread::Breaks(at)) => Err(Unread::Breaks(FRONT + base as usize + at)),
        Err(Unread::OutOfMemory) => Err(Unread::OutOfMemory),
    }
}

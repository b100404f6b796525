//! Lists of entries: their text read.

ghost use Rattle.std.specs.Prelude.{Option, Some, None, length, IfOk, IfErr};
ghost use Rattle.dur_view.specs.History.{History};
ghost use Rattle.dur_record.specs.Entries.{with_entries, SpellsEntries, BreaksEntries};
ghost use Rattle.dur_record.specs.Faults.{IsFault};
ghost use Rattle.dur_record.specs.Past.{IsPast};
ghost use Rattle.dur_record.specs.Readers.{AnswersEntries, GoesOn};

use crate::fault::{TextFault, fault_of};
use crate::field::Text;
use crate::past::Past;
use crate::version::Version;
use bytes::Bytes;
use dur_base::{Entry, List};
use std::alloc::Global;

// The entries that all of a text is. The past is then that of the history with them.
fn all_entries(
    alloc: Global,
    text: &mut Text,
    version: Version,
    past: &mut Past,
) -> Result<List<Entry>, TextFault>
    requires { (h : Option History) × IsPast past.old h }
    ensures ok { (h : Option History) → IsPast past.old h → IfOk result (SpellsEntries version h text.old.rest) }
    ensures past { (h : Option History) → IsPast past.old h → IfOk result (λ es. IsPast past.new (with_entries h es)) }
    ensures err { (h : Option History) → IsPast past.old h → IfErr result (IsFault (BreaksEntries version h text.old.rest) (length text.old.rest)) }
{
    let len = text.rest.len();
    let mut entries = List::new(alloc);
    'text: while !text.rest.is_empty() {
        match text.entry(version, past) {
            Ok(entry) => {
                past.take(&entry)?;
                entries.push(entry)?;
            }
            Err(stop) => return Err(fault_of(stop, len)),
        }
    }
    Ok(entries)
}

/// The entries of a text of version 2. Their payloads share the text's octets.
///
/// `Cut`, `BadTag` and `BadField` come exactly at the first place where the text breaks.
pub fn read_entries(alloc: Global, bytes: Bytes<Global>) -> Result<List<Entry>, TextFault>
    ensures { AnswersEntries Version.Two None bytes result }
{
    let mut past = Past::none(alloc);
    all_entries(alloc, &mut Text { rest: bytes }, Version::Two, &mut past)
}

/// The entries of a text of version 1. Their payloads share the text's octets.
///
/// `Cut`, `BadTag` and `BadField` come exactly at the first place where the text breaks.
pub fn read_entries_1(alloc: Global, bytes: Bytes<Global>) -> Result<List<Entry>, TextFault>
    ensures { AnswersEntries Version.One None bytes result }
{
    let mut past = Past::none(alloc);
    all_entries(alloc, &mut Text { rest: bytes }, Version::One, &mut past)
}

/// The entries of a text of a version, which follow the history of the past: an entry that does not follow breaks at
/// the field that breaks it. The past is then that of the history with them. Their payloads share the text's octets.
///
/// `Cut`, `BadTag` and `BadField` come exactly at the first place where the text breaks. After a fault the past may be
/// that of any part of the entries.
pub fn read_following(
    alloc: Global,
    bytes: Bytes<Global>,
    version: Version,
    past: &mut Past,
) -> Result<List<Entry>, TextFault>
    requires { (h : History) × IsPast past.old (Some h) }
    ensures { (h : History) → IsPast past.old (Some h) → GoesOn version h bytes past.new result }
{
    all_entries(alloc, &mut Text { rest: bytes }, version, past)
}

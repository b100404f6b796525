//! The lines of `check`: one for each file, and one for each kept change.

ghost use Rattle.std.specs.Prelude.{◌≡◌, ◌++◌, OnOk, codes};
ghost use Rattle.std.specs.Fmt.{decimal};
ghost use Rattle.dur_view.specs.IsSound.{topic_at};
ghost use Rattle.dur_journal.specs.Histories.{name_at};
ghost use Rattle.dur_rerun.specs.Check.Line.{arrival_text, file_line, kept_line, kept_text, look_text, original_of};

use crate::list::line::append_change_words;
use crate::text::{append, append_number, digit_of};
use dur_base::{Guid, Number, OutOfMemory, Ticks};
use dur_journal::Look;
use dur_outside::FileId;
use dur_qos::Topic;
use dur_view::{Kept, View};
use std::alloc::Global;

fn append_open(out: &mut Vec<u8>, generation: u32, records: u64) -> Result<(), OutOfMemory>
    ensures { OnOk result (out.new.items ≡ out.old.items
        ++ codes "open " ++ decimal generation ++ codes " " ++ decimal records) }
{
    append(out, b"open ")?;
    append_number(out, generation as u64)?;
    append(out, b" ")?;
    append_number(out, records)
}

fn append_broken(out: &mut Vec<u8>, at: u64) -> Result<(), OutOfMemory>
    ensures { OnOk result (out.new.items ≡ out.old.items ++ codes "broken " ++ decimal at) }
{
    append(out, b"broken ")?;
    append_number(out, at)
}

fn append_look(out: &mut Vec<u8>, look: &Look) -> Result<(), OutOfMemory>
    ensures { OnOk result (out.new.items ≡ out.old.items ++ look_text look.now) }
{
    match look {
        Look::Blank => append(out, b"blank"),
        Look::Closed => append(out, b"closed"),
        Look::Open {
            generation,
            records,
            ..
        } => append_open(out, *generation, *records),
        Look::Broken(at) => append_broken(out, *at),
    }
}

/// Appends the line of a file.
pub fn append_file(out: &mut Vec<u8>, file: FileId, look: &Look) -> Result<(), OutOfMemory>
    ensures { OnOk result (out.new.items ≡ out.old.items ++ file_line file look.now) }
{
    append(out, b"file ")?;
    append(out, digit_of(file))?;
    append(out, b" ")?;
    append_look(out, look)?;
    append(out, b"\n")
}

/// The place of a kept change's topic.
fn topic_at(view: &View, kept: &Kept) -> u32
    ensures { result ≡ topic_at view.now kept.now }
{
    match view.instances.as_slice().get(kept.instance as usize) {
        Some(instance) => instance.topic,
        None => 0,
    }
}

/// The octets of the name of the topic at a place.
fn name_at(topics: &[Topic], place: u32) -> &[u8]
    ensures { result.now ≡ name_at topics.now place }
{
    match topics.get(place as usize) {
        Some(topic) => topic.name.as_slice(),
        None => &[],
    }
}

/// The original that its sample came with, or else its writer and its number.
fn original_of(kept: &Kept) -> (Guid, Number)
    ensures { result ≡ original_of kept.now }
{
    kept.sample.original.unwrap_or((kept.writer, kept.number))
}

fn append_arrival(out: &mut Vec<u8>, arrived: Option<Ticks>) -> Result<(), OutOfMemory>
    ensures { OnOk result (out.new.items ≡ out.old.items ++ arrival_text arrived) }
{
    match arrived {
        None => append(out, b"-"),
        Some(moment) => append_number(out, moment.0),
    }
}

/// Appends the line of a change that a view keeps.
#[tactic(auto, unfolding(crate::specs::Check::Line::kept_line))]
fn append_kept(
    alloc: Global,
    out: &mut Vec<u8>,
    view: &View,
    kept: &Kept,
) -> Result<(), OutOfMemory>
    ensures { OnOk result (out.new.items ≡ out.old.items ++ kept_line view.now kept.now) }
{
    let topic = name_at(view.topics.as_slice(), topic_at(view, kept));
    let (original, number) = original_of(kept);
    append(out, topic)?;
    append(out, b" ")?;
    append_change_words(alloc, out, original, number, &kept.sample)?;
    append(out, b" ")?;
    append_arrival(out, kept.arrived)?;
    append(out, b"\n")
}

/// Appends the lines of the changes that a view keeps, in their order.
pub fn append_view(alloc: Global, out: &mut Vec<u8>, view: &View) -> Result<(), OutOfMemory>
    ensures { OnOk result (out.new.items ≡ out.old.items ++ kept_text view.now) }
{
    let mut rest = view.kept.as_slice();
    while let [kept, later @ ..] = rest {
        append_kept(alloc, out, view, kept)?;
        rest = later;
    }
    Ok(())
}

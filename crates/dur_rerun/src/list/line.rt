//! What `list` prints of a topic: a line for each entitled change.

ghost use Rattle.std.specs.Prelude.{◌≡◌, ◌∷◌, ◌++◌, [], OnOk};
ghost use Rattle.hex.specs.Hex.{encode_lower};
ghost use Rattle.dur_rerun.specs.List.Line.{act_text, payload_text, change_words, change_text, list_line, topic_text};

use crate::text::{append, append_number};
use dur_base::{Act, Guid, Number, OutOfMemory, Sample};
use dur_view::Change;
use std::alloc::Global;

fn append_hex(alloc: Global, out: &mut Vec<u8>, octets: &[u8]) -> Result<(), OutOfMemory>
    ensures { OnOk result (out.new.items ≡ out.old.items ++ encode_lower octets.now) }
{
    let text = hex::encode(alloc, octets)?;
    append(out, text.as_bytes())
}

fn append_act(out: &mut Vec<u8>, act: Act) -> Result<(), OutOfMemory>
    ensures { OnOk result (out.new.items ≡ out.old.items ++ act_text act) }
{
    match act {
        Act::Write => append(out, b" write "),
        Act::Dispose | Act::Unregister | Act::DisposeUnregister | Act::Marker => {
            append(out, b" dispose ")
        }
    }
}

fn append_payload(alloc: Global, out: &mut Vec<u8>, octets: &[u8]) -> Result<(), OutOfMemory>
    ensures { OnOk result (out.new.items ≡ out.old.items ++ payload_text octets.now) }
{
    match octets {
        [] => append(out, b"-"),
        [_, ..] => append_hex(alloc, out, octets),
    }
}

/// Appends what a line says of a change behind its topic.
#[tactic(auto, unfolding(crate::specs::List::Line::change_words))]
pub fn append_change_words(
    alloc: Global,
    out: &mut Vec<u8>,
    original: Guid,
    number: Number,
    sample: &Sample,
) -> Result<(), OutOfMemory>
    ensures { OnOk result (out.new.items ≡ out.old.items ++ change_words original number sample.now) }
{
    append_hex(alloc, out, &original.0)?;
    append(out, b" ")?;
    append_number(out, number.get())?;
    append(out, b" ")?;
    append_hex(alloc, out, &sample.key.0)?;
    append_act(out, sample.act)?;
    append_number(out, sample.stamp.0)?;
    append(out, b" ")?;
    append_payload(alloc, out, sample.payload.as_slice())
}

/// Appends what a line says of a change behind its topic, and the line's end.
#[tactic(auto, unfolding(crate::specs::List::Line::change_text))]
pub fn append_words(
    alloc: Global,
    out: &mut Vec<u8>,
    original: Guid,
    number: Number,
    sample: &Sample,
) -> Result<(), OutOfMemory>
    ensures { OnOk result (out.new.items ≡ out.old.items ++ change_text original number sample.now) }
{
    append_change_words(alloc, out, original, number, sample)?;
    append(out, b"\n")
}

#[tactic(auto, unfolding(crate::specs::List::Line::list_line))]
fn append_change(
    alloc: Global,
    out: &mut Vec<u8>,
    topic: &[u8],
    change: &Change,
) -> Result<(), OutOfMemory>
    ensures { OnOk result (out.new.items ≡ out.old.items ++ list_line topic.now change.now) }
{
    append(out, topic)?;
    append(out, b" ")?;
    append_words(alloc, out, change.original, change.number, &change.sample)
}

/// Appends the lines of the changes of a topic, in their order.
pub fn append_topic(
    alloc: Global,
    out: &mut Vec<u8>,
    topic: &[u8],
    changes: &[Change],
) -> Result<(), OutOfMemory>
    ensures { OnOk result (out.new.items ≡ out.old.items ++ topic_text topic.now changes.now) }
{
    let mut rest = changes;
    while let [change, later @ ..] = rest {
        append_change(alloc, out, topic, change)?;
        rest = later;
    }
    Ok(())
}

//! The text of a plan, written.

ghost use Rattle.std.specs.Prelude.{◌≡◌, ◌≤◌, ◌<◌, ◌++◌, ◌∷◌, [], length, OnOk, IfOk};
ghost use Rattle.std.specs.List.{AllByRecursion};
ghost use Rattle.std.specs.Fmt.{decimal};
ghost use Rattle.hex.specs.Hex.{encode_lower};
ghost use Rattle.dur_qos.specs.Good.{GoodPlan};
ghost use Rattle.dur_qos.specs.Text.{line_text, PlanText};
ghost use Rattle.dur_qos.specs.Written.{kind_word, shape_word, history_word, limit_word, topic_word, limit_words, behind, prefix_written, topic_written, writer_written, reader_written, topics_text, writers_text, readers_text, plan_text, IsOctets, IsTypedPlan};

use crate::{Plan, ReaderLine, Topic, WriterLine};
use dur_base::{Durability, Guid, Octets, OutOfMemory, Shape};
use itoa::Buffer;
use std::alloc::Global;

fn put_word(out: &mut Octets, word: &[u8]) -> Result<(), OutOfMemory>
    ensures { OnOk result (out.new ≡ out.old ++ 32 ∷ word.now) }
{
    out.append(b" ")?;
    out.append(word)
}

fn put_number(out: &mut Octets, number: u32) -> Result<(), OutOfMemory>
    ensures { OnOk result (out.new ≡ out.old ++ 32 ∷ decimal number) }
{
    let mut digits = Buffer::new();
    put_word(out, digits.format(number).as_bytes())
}

fn put_history(out: &mut Octets, depth: Option<u32>) -> Result<(), OutOfMemory>
    ensures { OnOk result (out.new ≡ out.old ++ 32 ∷ history_word depth) }
{
    match depth {
        None => put_word(out, b"all"),
        Some(depth) => put_number(out, depth),
    }
}

fn put_limit(out: &mut Octets, limit: Option<u32>) -> Result<(), OutOfMemory>
    ensures { OnOk result (out.new ≡ out.old ++ 32 ∷ limit_word limit) }
{
    match limit {
        None => put_word(out, b"-"),
        Some(limit) => put_number(out, limit),
    }
}

fn put_kind(out: &mut Octets, kind: Durability) -> Result<(), OutOfMemory>
    ensures { OnOk result (out.new ≡ out.old ++ 32 ∷ kind_word kind) }
{
    match kind {
        Durability::Volatile => put_word(out, b"volatile"),
        Durability::TransientLocal => put_word(out, b"transient_local"),
        Durability::Transient => put_word(out, b"transient"),
        Durability::Persistent => put_word(out, b"persistent"),
    }
}

fn put_shape(out: &mut Octets, shape: Shape) -> Result<(), OutOfMemory>
    ensures { OnOk result (out.new ≡ out.old ++ 32 ∷ shape_word shape) }
{
    match shape {
        Shape::None => put_word(out, b"none"),
        Shape::Hash => put_word(out, b"hash"),
        Shape::U32 => put_word(out, b"u32"),
        Shape::Text => put_word(out, b"text"),
    }
}

// Writes at most sixteen octets, each as two hex digits in lower case.
fn put_hex(out: &mut Octets, octets: &[u8]) -> Result<(), OutOfMemory>
    requires { length octets.now ≤ 16 }
    ensures { OnOk result (out.new ≡ out.old ++ 32 ∷ encode_lower octets.now) }
{
    let mut room = [0; 32];
    let digits = room.split_at_mut(2 * octets.len()).0;
    let _ = hex::encode_to_slice(octets, digits);
    put_word(out, digits)
}

fn put_guid(out: &mut Octets, guid: Guid) -> Result<(), OutOfMemory>
    ensures text { OnOk result (out.new ≡ out.old ++ 32 ∷ encode_lower guid) }
    ensures typed { IsOctets 16 guid }
{
    put_hex(out, &guid.0)
}

fn put_topic_name(out: &mut Octets, topics: &[Topic], place: u32) -> Result<(), OutOfMemory>
    requires { place < length topics.now }
    ensures { OnOk result (out.new ≡ out.old ++ 32 ∷ topic_word topics.now place) }
{
    put_word(out, topics[place as usize].name.as_slice())
}

#[tactic(auto, unfolding(crate::specs::Written::prefix_written))]
fn put_prefix(out: &mut Octets, prefix: [u8; 8]) -> Result<(), OutOfMemory>
    ensures text { OnOk result (out.new ≡ out.old ++ line_text (prefix_written prefix)) }
    ensures typed { IsOctets 8 prefix }
{
    out.append(b"prefix")?;
    put_hex(out, &prefix)?;
    out.append(b"\n")
}

fn put_limits(out: &mut Octets, topic: &Topic) -> Result<(), OutOfMemory>
    ensures { OnOk result (out.new ≡ out.old ++ behind (limit_words topic.now)) }
{
    put_limit(out, topic.max_samples)?;
    put_limit(out, topic.max_instances)?;
    put_limit(out, topic.max_per_instance)?;
    put_limit(out, topic.max_held)?;
    put_number(out, topic.delay)
}

#[tactic(auto, unfolding(crate::specs::Written::topic_written))]
fn put_topic(out: &mut Octets, topic: &Topic) -> Result<(), OutOfMemory>
    ensures { OnOk result (out.new ≡ out.old ++ line_text (topic_written topic.now)) }
{
    out.append(b"topic")?;
    put_word(out, topic.name.as_slice())?;
    put_kind(out, topic.kind)?;
    put_shape(out, topic.shape)?;
    put_history(out, topic.depth)?;
    put_limits(out, topic)?;
    out.append(b"\n")
}

#[tactic(auto, unfolding(crate::specs::Written::writer_written))]
fn put_writer(out: &mut Octets, topics: &[Topic], writer: &WriterLine) -> Result<(), OutOfMemory>
    requires { writer.now.topic < length topics.now }
    ensures text { OnOk result
        (out.new ≡ out.old ++ line_text (writer_written topics.now writer.now)) }
    ensures typed { OnOk result (IsOctets 16 writer.now.guid) }
{
    out.append(b"writer")?;
    put_guid(out, writer.guid)?;
    put_topic_name(out, topics, writer.topic)?;
    put_limit(out, writer.lease)?;
    out.append(b"\n")
}

#[tactic(auto, unfolding(crate::specs::Written::reader_written))]
fn put_reader(out: &mut Octets, topics: &[Topic], reader: &ReaderLine) -> Result<(), OutOfMemory>
    requires { reader.now.topic < length topics.now }
    ensures text { OnOk result
        (out.new ≡ out.old ++ line_text (reader_written topics.now reader.now)) }
    ensures typed { OnOk result (IsOctets 16 reader.now.guid) }
{
    out.append(b"reader")?;
    put_guid(out, reader.guid)?;
    put_topic_name(out, topics, reader.topic)?;
    put_kind(out, reader.kind)?;
    out.append(b"\n")
}

fn put_topics(out: &mut Octets, topics: &[Topic]) -> Result<(), OutOfMemory>
    ensures { OnOk result (out.new ≡ out.old ++ topics_text topics.now) }
{
    let mut rest = topics;
    while let [topic, later @ ..] = rest {
        put_topic(out, topic)?;
        rest = later;
    }
    Ok(())
}

fn put_writers(
    out: &mut Octets,
    topics: &[Topic],
    writers: &[WriterLine],
) -> Result<(), OutOfMemory>
    requires { AllByRecursion (λ w. w.topic < length topics.now) writers.now }
    ensures text { OnOk result (out.new ≡ out.old ++ writers_text topics.now writers.now) }
    ensures typed { OnOk result (AllByRecursion (λ w. IsOctets 16 w.guid) writers.now) }
{
    let mut rest = writers;
    while let [writer, later @ ..] = rest {
        put_writer(out, topics, writer)?;
        rest = later;
    }
    Ok(())
}

fn put_readers(
    out: &mut Octets,
    topics: &[Topic],
    readers: &[ReaderLine],
) -> Result<(), OutOfMemory>
    requires { AllByRecursion (λ r. r.topic < length topics.now) readers.now }
    ensures text { OnOk result (out.new ≡ out.old ++ readers_text topics.now readers.now) }
    ensures typed { OnOk result (AllByRecursion (λ r. IsOctets 16 r.guid) readers.now) }
{
    let mut rest = readers;
    while let [reader, later @ ..] = rest {
        put_reader(out, topics, reader)?;
        rest = later;
    }
    Ok(())
}

#[tactic(auto, unfolding(crate::specs::Written::plan_text))]
fn put_plan(out: &mut Octets, plan: &Plan) -> Result<(), OutOfMemory>
    requires writers { AllByRecursion (λ w. w.topic < length plan.now.topics) plan.now.writers }
    requires readers { AllByRecursion (λ r. r.topic < length plan.now.topics) plan.now.readers }
    ensures text { OnOk result (out.new ≡ out.old ++ plan_text plan.now) }
    ensures typed { OnOk result (IsTypedPlan plan.now) }
{
    let topics = plan.topics.as_slice();
    put_prefix(out, plan.prefix)?;
    put_topics(out, topics)?;
    put_writers(out, topics, plan.writers.as_slice())?;
    put_readers(out, topics, plan.readers.as_slice())?;
    out.append(b"end\n")
}

/// The text of a plan: its prefix line, its topics, writers and readers, each kind in its order, and
/// `end`. It is read back as that plan, to its last octet.
pub fn write_plan(alloc: Global, plan: &Plan) -> Result<Octets, OutOfMemory>
    requires { GoodPlan plan.now }
    ensures text { IfOk result (λ out. out ≡ plan_text plan.now) }
    ensures back { IfOk result (λ out. PlanText out plan.now (length out)) }
{
    let mut out = Octets::new(alloc);
    put_plan(&mut out, plan)?;
    Ok(out)
}

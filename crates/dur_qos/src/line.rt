//! What a line says.

ghost use Rattle.std.specs.Prelude.{◌≡◌};
ghost use Rattle.dur_qos.specs.Words.{last};
ghost use Rattle.dur_qos.specs.Lines.{prefix_line, topic_line, writer_line, reader_line, line_by, line_at};

use crate::fields::{
    take_delay, take_guid, take_history, take_limit, take_name, take_prefix, take_reader_kind,
    take_shape, take_topic_kind,
};
use crate::word::Words;
use crate::{PlanKind, Topic};
use dur_base::{Durability, Guid, Name};

/// What a line says, whatever the lines before it said.
#[derive(Drop)]
pub enum Line {
    Prefix([u8; 8]),
    Topic(Topic),
    Writer {
        guid: Guid,
        topic: Name,
        lease: Option<u32>,
    },
    Reader {
        guid: Guid,
        topic: Name,
        kind: Durability,
    },
    End,
}

// ---- the kinds of lines, after their first word

#[tactic(auto, unfolding(crate::specs::Lines::writer_line))]
fn writer<'a>(words: Words<'a>) -> Result<Line, PlanKind>
    ensures { result ≡ writer_line words.entry }
{
    let (guid, rest) = take_guid(words)?;
    let (topic, rest) = take_name(rest)?;
    let (lease, rest) = take_limit(rest)?;
    if !rest.is_empty() {
        return Err(PlanKind::Word);
    }
    Ok(Line::Writer { guid, topic, lease })
}

#[tactic(auto, unfolding(crate::specs::Lines::prefix_line))]
fn prefix<'a>(words: Words<'a>) -> Result<Line, PlanKind>
    ensures { result ≡ prefix_line words.entry }
{
    let (octets, rest) = take_prefix(words)?;
    if !rest.is_empty() {
        return Err(PlanKind::Word);
    }
    Ok(Line::Prefix(octets))
}

#[tactic(auto, unfolding(crate::specs::Lines::topic_line))]
fn topic<'a>(words: Words<'a>) -> Result<Line, PlanKind>
    ensures { result ≡ topic_line words.entry }
{
    let (name, rest) = take_name(words)?;
    let (kind, rest) = take_topic_kind(rest)?;
    let (shape, rest) = take_shape(rest)?;
    let (depth, rest) = take_history(rest)?;
    let (max_samples, rest) = take_limit(rest)?;
    let (max_instances, rest) = take_limit(rest)?;
    let (max_per_instance, rest) = take_limit(rest)?;
    let (max_held, rest) = take_limit(rest)?;
    let (delay, rest) = take_delay(rest)?;
    if !rest.is_empty() {
        return Err(PlanKind::Word);
    }
    Ok(Line::Topic(Topic {
        name,
        kind,
        shape,
        depth,
        max_samples,
        max_instances,
        max_per_instance,
        max_held,
        delay,
    }))
}

#[tactic(auto, unfolding(crate::specs::Lines::reader_line))]
fn reader<'a>(words: Words<'a>) -> Result<Line, PlanKind>
    ensures { result ≡ reader_line words.entry }
{
    let (guid, rest) = take_guid(words)?;
    let (topic, rest) = take_name(rest)?;
    let (kind, rest) = take_reader_kind(rest)?;
    if !rest.is_empty() {
        return Err(PlanKind::Word);
    }
    Ok(Line::Reader { guid, topic, kind })
}

fn end<'a>(words: Words<'a>) -> Result<Line, PlanKind>
    ensures { result ≡ last Line.End words.entry }
{
    if words.is_empty() {
        Ok(Line::End)
    } else {
        Err(PlanKind::Word)
    }
}

fn by_first<'a>(first: &[u8], words: Words<'a>) -> Result<Line, PlanKind>
    ensures { result ≡ line_by first.now words.entry }
{
    if first == b"topic".as_slice() {
        topic(words)
    } else if first == b"writer".as_slice() {
        writer(words)
    } else if first == b"reader".as_slice() {
        reader(words)
    } else if first == b"prefix".as_slice() {
        prefix(words)
    } else if first == b"end".as_slice() {
        end(words)
    } else {
        Err(PlanKind::Word)
    }
}

/// What a line says, or the fault of its first bad word.
#[tactic(auto, unfolding(crate::specs::Lines::line_at))]
pub fn line_of(text: &[u8]) -> Result<Line, PlanKind>
    ensures { result ≡ line_at text.now }
{
    let (first, rest) = Words::of(text).next()?;
    by_first(first, rest)
}

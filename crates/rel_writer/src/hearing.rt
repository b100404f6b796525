//! What a late reader makes of the facts of a datagram.

ghost use Rattle.std.specs.Prelude.{◌≡◌, ◌≤◌, Some};
ghost use Rattle.std.specs.List.{sum_by};
ghost use Rattle.dur_base.specs.Goodness.{IsGoodRaw};
ghost use Rattle.rel_writer.specs.LateReaders.{beat_of, is_from, is_of_replay, keeps, read_of, shape_of, usable};
ghost use Rattle.rel_writer.specs.Room.{brings};

use dur_base::{Act, EntityId, Fact, Guid, Prefix, Raw, Sample, Shape, Ticks};
use rtps_message::sample_of;

/// Whether a prefix and an id make up that writer.
fn is_writer(prefix: Prefix, id: EntityId, writer: Guid) -> bool
    ensures { result ≡ is_from (Some prefix) id writer }
{
    writer.prefix().0 == prefix.0 && writer.entity().0 == id.0
}

/// Whether a writer is the one that is heard.
pub(crate) fn is_from(kept: Option<Prefix>, id: EntityId, writer: Guid) -> bool
    ensures { result ≡ is_from kept id writer }
{
    match kept {
        Some(prefix) => is_writer(prefix, id, writer),
        None => false,
    }
}

/// The prefix that is kept to after a HEARTBEAT of this writer.
pub(crate) fn keeps(
    service: [u8; 8],
    id: EntityId,
    kept: Option<Prefix>,
    writer: Guid,
) -> Option<Prefix>
    ensures { result ≡ keeps service id kept writer }
{
    match kept {
        Some(prefix) => Some(prefix),
        None => {
            if writer.0[..8] == service[..] && writer.entity().0 == id.0 {
                Some(writer.prefix())
            } else {
                None
            }
        }
    }
}

/// The shape that a replay's samples are read by: its writer's id ends in 02 where the topic has
/// keys (DDSI-RTPS 9.3.1.2).
fn shape_of(id: EntityId) -> Shape
    ensures { result ≡ shape_of id }
{
    if id.0[3..] == [2][..] {
        Shape::Hash
    } else {
        Shape::None
    }
}

/// Whether a replay has such a sample: a marker, or a change with its original.
fn is_of_replay(act: Act, signed: bool) -> bool
    ensures { result ≡ is_of_replay act signed }
{
    match act {
        Act::Marker => true,
        Act::Unregister => false,
        Act::Write | Act::Dispose | Act::DisposeUnregister => signed,
    }
}

/// The sample, if a replay has such a one.
fn usable(sample: Option<Sample>) -> Option<Sample>
    ensures { result ≡ usable sample }
{
    match sample {
        Some(sample) => {
            if is_of_replay(sample.act, sample.original.is_some()) {
                Some(sample)
            } else {
                None
            }
        }
        None => None,
    }
}

/// The sample of a DATA, or None where it is unreadable. One without a time has the stamp 0.
pub(crate) fn read_of(id: EntityId, raw: Raw) -> Option<Sample>
    requires { IsGoodRaw raw }
    ensures { result ≡ read_of id raw }
{
    usable(sample_of(shape_of(id), Ticks(0), raw))
}

/// Who sent a HEARTBEAT, its last number, and whether it is final.
pub(crate) fn beat_of(fact: &Fact) -> Option<(Guid, u64, bool)>
    ensures { result ≡ beat_of fact.now }
{
    match fact {
        Fact::Beat {
            writer,
            last,
            is_final,
            ..
        } => Some((*writer, *last, *is_final)),
        _ => None,
    }
}

/// How many samples a fact brings: one where it is a DATA.
fn brings(fact: &Fact) -> usize
    ensures value { result ≡ brings fact.now }
    ensures one { result ≤ 1 }
{
    match fact {
        Fact::Data { .. } => 1,
        _ => 0,
    }
}

/// How many samples these facts bring.
pub(crate) fn brought(facts: &[Fact]) -> usize
    ensures { result ≡ sum_by brings facts.now }
{
    let mut count = 0;
    for fact in facts {
        count += brings(fact);
    }
    count
}

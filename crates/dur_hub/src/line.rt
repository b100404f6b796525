//! What the hub keeps of a writer of the plan.

ghost use Rattle.std.specs.Prelude.{◌≡◌, ◌<◌, IfOk, length, map};
ghost use Rattle.std.specs.List.{AllByRecursion};
ghost use Rattle.dur_qos.specs.Good.{GoodPlan};
ghost use Rattle.dur_view.specs.declared.data.View.{View};
ghost use Rattle.dur_view.specs.History.{Start};
ghost use Rattle.dur_view.specs.Persistent.{is_persistent};
ghost use Rattle.dur_store.specs.Keeps.{Keeps};
ghost use Rattle.dur_hub.specs.Runs.{first_writer};
ghost use Rattle.dur_hub.specs.Openings.{WriterStands};
ghost use Rattle.dur_hub.specs.Lines.{LineFits, LinesFit};

use dur_base::{Durability, EntityId, Guid, Number, OutOfMemory, Shape, Ticks};
use dur_qos::{Plan, Topic, WriterLine, reader_id};
use dur_store::Store;
use rel_reader::Proxy;
use std::alloc::Global;

/// What the hub keeps of a writer of the plan.
#[derive(Drop)]
pub struct Line {
    pub guid: Guid,
    /// Where the key of its topic's samples is found.
    pub shape: Shape,
    /// The id of the service's reader of its topic.
    pub reader: EntityId,
    /// How many seconds it counts as alive after its last sign.
    pub lease: Option<u32>,
    /// Whether its topic is persistent.
    pub stored: bool,
    /// What is known of its numbers.
    pub proxy: Proxy,
    /// When it was heard last.
    pub heard: Ticks,
    pub lost: bool,
    /// How many acknowledgements it was given, modulo 2^32.
    pub acks: u32,
    /// The number after its last durable one, where its topic is persistent.
    pub durable: Number,
}

// Whether the topic's kind is PERSISTENT.
fn is_persistent(topic: &Topic) -> bool
    ensures { result ≡ is_persistent topic.now }
{
    matches!(topic.kind, Durability::Persistent)
}

// The line of a writer of which nothing came yet.
fn line_of(
    alloc: Global,
    plan: &Plan,
    store: &Store,
    writer: &WriterLine,
) -> Result<Line, OutOfMemory>
    requires good { GoodPlan plan.now }
    requires place { writer.now.topic < length plan.now.topics }
    ensures { IfOk result (λ line. (v : View) → Keeps store.now (Start v) → WriterStands plan.now v writer.now
        → LineFits plan.now (Start v) 0 line (first_writer v writer.now)) }
{
    let topic = &plan.topics.as_slice()[writer.topic as usize];
    let next = store.next(writer.guid);
    let proxy = Proxy::new(alloc, next)?;
    Ok(Line {
        guid: writer.guid,
        shape: topic.shape,
        reader: reader_id(plan, writer.topic),
        lease: writer.lease,
        stored: is_persistent(topic),
        proxy,
        heard: Ticks(0),
        lost: false,
        acks: 0,
        durable: next,
    })
}

/// The lines of the plan's writers, of which nothing came yet.
pub fn lines_of(alloc: Global, plan: &Plan, store: &Store) -> Result<Vec<Line>, OutOfMemory>
    requires { GoodPlan plan.now }
    ensures { IfOk result (λ lines. (v : View) → Keeps store.now (Start v)
        → AllByRecursion (WriterStands plan.now v) plan.now.writers
        → LinesFit plan.now (Start v) 0 lines.items (map (first_writer v) plan.now.writers)) }
{
    let mut lines = Vec::new(alloc);
    for writer in plan.writers.as_slice() {
        let line = line_of(alloc, plan, store, writer)?;
        lines.push(line)?;
    }
    Ok(lines)
}

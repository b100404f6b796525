//! What is kept of a writer.

ghost use Rattle.std.specs.Prelude.{◌≡◌, ◌+◌, ◌-◌, ◌^◌, ◌<◌, ◌≤◌, ◌++◌, [], map, IfOk, IfErr, IsOk, OnOk};
ghost use Rattle.dur_sets.specs.Tells.{closed, if_now};
ghost use Rattle.dur_store.specs.Members.{IsPassed};
ghost use Rattle.dur_store.specs.Taking.{IsWhole};
ghost use Rattle.dur_store.specs.Parts.{line_of};

use crate::members::Members;
use dur_base::{Guid, List, Number, OutOfMemory, Sample, Ticks};
use dur_instances::Instances;
use dur_sets::Effect;
use dur_view::{KeptWriter, Limit};
use std::alloc::Global;

/// What is kept of a writer.
#[derive(Drop)]
pub struct Writer {
    pub guid: Guid,
    /// The place of its topic, from 0.
    pub topic: u32,
    /// The number after its last handled one.
    pub next: Number,
    /// The members of its open coherent set (DDS 2.2.3.6).
    pub held: Members,
}

/// The writers of a view.
pub fn writers_of(alloc: Global, lines: List<KeptWriter>) -> Result<Vec<Writer>, OutOfMemory>
    ensures { IfOk result (λ ws. map line_of ws.items ≡ lines) }
{
    let mut writers = Vec::new(alloc);
    for line in lines.into_vec() {
        let writer = Writer {
            guid: line.guid,
            topic: line.topic,
            next: line.next,
            held: Members::of_list(alloc, line.held)?,
        };
        match writers.push(writer) {
            Ok(()) => {}
            Err(_) => return Err(OutOfMemory),
        }
    }
    Ok(writers)
}

fn line_of(alloc: Global, writer: &Writer) -> Result<KeptWriter, OutOfMemory>
    ensures { IfOk result (λ l. l ≡ line_of writer.now) }
{
    Ok(KeptWriter {
        guid: writer.guid,
        topic: writer.topic,
        next: writer.next,
        held: writer.held.list(alloc)?,
    })
}

/// The writers, as a view tells them.
pub fn lines_of(alloc: Global, writers: &[Writer]) -> Result<List<KeptWriter>, OutOfMemory>
    ensures { IfOk result (λ l. l ≡ map line_of writers.now) }
{
    let mut lines = List::new(alloc);
    for writer in writers {
        lines.push(line_of(alloc, writer)?)?;
    }
    Ok(lines)
}

/// The writer has room for one member more.
pub fn spare(writer: &mut Writer) -> Result<(), OutOfMemory>
    ensures line { line_of writer.new ≡ line_of writer.old }
    ensures room { OnOk result (0 < writer.new.held.room) }
    ensures stays { writer.old.held.room ≤ writer.new.held.room }
    ensures enough { 0 < writer.old.held.room → IsOk result }
{
    writer.held.reserve(1)
}

/// Numbers of the writer are passed over, up to one: it holds no member then.
pub fn pass_over(writer: &mut Writer, to: Number)
    requires { to < 2 ^ 63 - 1 }
    ensures line { line_of writer.new ≡ record (line_of writer.old) { next = to + 1; held = [] } }
    ensures room { writer.old.held.room ≤ writer.new.held.room }
{
    writer.held.clear();
    writer.next = to.next();
}

/// The writer holds no member then.
pub fn let_go(writer: &mut Writer)
    ensures line { line_of writer.new ≡ record (line_of writer.old) { held = [] } }
    ensures room { writer.old.held.room ≤ writer.new.held.room }
{
    writer.held.clear();
}

/// The first limit that the topic passes when what the writer's next sample brings took effect, with no member held. The
/// sample is handed back, and nothing changed but room.
pub fn would_pass(
    writer: &mut Writer,
    topic: &Instances,
    moment: Ticks,
    effect: &Effect,
    sample: Sample,
) -> Result<(Option<Limit>, Sample), Sample>
    requires { topic.now.last ≤ moment }
    ensures limit { IfOk result (λ a. IsWhole effect.entry.now.before writer.old.held.items
        → IsPassed topic.now moment
        (map (λ x. x.sample) (closed effect.entry.now.before writer.old.held.items)
        ++ if_now effect.entry.now.now sample) a.0) }
    ensures ok { IfOk result (λ a. a.1 ≡ sample) }
    ensures err { IfErr result (λ back. back ≡ sample) }
    ensures enough { 0 < writer.old.held.room → IsOk result }
    ensures line { line_of writer.new ≡ line_of writer.old }
    ensures room { writer.old.held.room ≤ writer.new.held.room }
{
    writer.held.would(topic, moment, effect, sample)
}

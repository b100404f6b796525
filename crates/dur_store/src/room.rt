//! Room for what comes next.

ghost use Rattle.std.specs.Prelude.{◌≡◌, ◌≢◌, ℕ, ◌^◌, ◌<◌, ◌≤◌, Some, map, length, get_or, slice_get, IfOk, IsOk, OnOk};
ghost use Rattle.dur_instances.specs.Trimmed.{Trimmed};
ghost use Rattle.dur_store.specs.declared.writer.Writer.{Writer as Told};
ghost use Rattle.dur_store.specs.Parts.{line_of};
ghost use Rattle.dur_store.specs.Spare.{HaveSpare, HaveRoom, AreNeeded, HadWriters, GotRoom};

use crate::writer::{Writer, spare};
use dur_base::OutOfMemory;
use dur_instances::Instances;
use std::alloc::Global;

/// The topic at a place needs room for one change more than so many, or for more.
pub fn need(needed: &mut Vec<usize>, topic: usize, held: usize)
    requires { held < 2 ^ 63 }
    ensures own { topic < length needed.old.items → held < get_or needed.new.items topic 0 }
    ensures stays { (t : ℕ) → get_or needed.old.items t 0 ≤ get_or needed.new.items t 0 }
    ensures others { (t : ℕ) → t ≢ topic
        → get_or needed.new.items t 0 ≡ get_or needed.old.items t 0 }
    ensures count { length needed.new.items ≡ length needed.old.items }
{
    if topic >= needed.len() {
        return;
    }
    let most = needed[topic].max(held + 1);
    needed[topic] = most;
}

/// For how many changes each topic needs room.
pub fn needed_of(
    alloc: Global,
    writers: &[Writer],
    topics: usize,
) -> Result<Vec<usize>, OutOfMemory>
    ensures { IfOk result (λ ns. AreNeeded ns.items topics writers.now) }
{
    let mut needed = match vec![in alloc; 0; topics] {
        Ok(needed) => needed,
        Err(_) => return Err(OutOfMemory),
    };
    for writer in writers {
        need(&mut needed, writer.topic as usize, writer.held.len());
    }
    Ok(needed)
}

/// For how many changes the topic at a place needs room.
pub fn needed_at(needed: &[usize], topic: usize) -> usize
    ensures { result ≡ get_or needed.now topic 0 }
{
    if topic < needed.len() {
        needed[topic]
    } else {
        0
    }
}

/// The writer at a place has room for one member more.
pub fn spare_at(writers: &mut Vec<Writer>, at: usize) -> Result<(), OutOfMemory>
    ensures lines { map line_of writers.new.items ≡ map line_of writers.old.items }
    ensures stays { HadWriters writers.old.items writers.new.items }
    ensures room { OnOk result ((w : Told) → slice_get writers.new.items at ≡ Some w
        → 0 < w.held.room) }
    ensures enough { ((w : Told) → slice_get writers.old.items at ≡ Some w → 0 < w.held.room)
        → IsOk result }
{
    if at >= writers.len() {
        return Ok(());
    }
    spare(&mut writers[at])
}

/// The topic at a place has room for so many changes more.
pub fn room_at(topics: &mut Vec<Instances>, at: usize, more: usize) -> Result<(), OutOfMemory>
    ensures rest { GotRoom topics.old.items topics.new.items }
    ensures room { OnOk result ((x : Trimmed) → slice_get topics.new.items at ≡ Some x
        → more ≤ x.room) }
    ensures enough { ((x : Trimmed) → slice_get topics.old.items at ≡ Some x → more ≤ x.room)
        → IsOk result }
{
    if at >= topics.len() {
        return Ok(());
    }
    topics[at].reserve(more)
}

/// Each writer has room for one member more, or those before the first that finds no memory.
pub fn spare_all(writers: &mut Vec<Writer>) -> Result<(), OutOfMemory>
    ensures lines { map line_of writers.new.items ≡ map line_of writers.old.items }
    ensures room { OnOk result (HaveSpare writers.new.items) }
{
    for at in 0..writers.len() {
        spare_at(writers, at)?;
    }
    Ok(())
}

/// Each topic has the room that it needs, or those before the first that finds no memory.
pub fn make_room(topics: &mut Vec<Instances>, needed: &[usize]) -> Result<(), OutOfMemory>
    ensures rest { GotRoom topics.old.items topics.new.items }
    ensures room { OnOk result (HaveRoom needed.now topics.new.items) }
{
    for at in 0..topics.len() {
        let more = needed_at(needed, at);
        room_at(topics, at, more)?;
    }
    Ok(())
}

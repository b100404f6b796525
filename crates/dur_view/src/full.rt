//! A view with all that a plan declares.

ghost use Rattle.std.specs.Prelude.{◌≡◌, ℕ, ◌<◌, ◌≤◌, ◌+◌, ◌^◌, ◌++◌, List as Sequence, length, is_some, IfOk, OnOk, if◌then◌else◌, true, not};
ghost use Rattle.std.specs.Str.{bytes_eq};
ghost use Rattle.dur_qos.specs.Plan.{place_of};
ghost use Rattle.dur_qos.specs.Index.{holds};
ghost use Rattle.dur_view.specs.Words.{stands, writer_line};
ghost use Rattle.dur_view.specs.Full.{more_topics, more_writers, topic_place, places_of, new_writer, full};

use crate::copies::{copy_instances, copy_kept, copy_topics, copy_writers};
use crate::{KeptWriter, View};
use dur_base::{Guid, List, Name, Number, OutOfMemory};
use dur_qos::{Plan, Topic, WriterLine};
use std::alloc::Global;
use std::collections::HashSet;

// The place of the topic of this name.
fn place_of(name: &Name, topics: &[Topic]) -> Option<u32>
    requires { length topics.now < 2 ^ 32 }
    ensures { result ≡ place_of name.now topics.now }
{
    for (place, topic) in topics.iter().enumerate() {
        if name.as_slice() == topic.name.as_slice() {
            return Some(place as u32);
        }
    }
    None
}

// These topics, and those of the plan that they lack.
fn all_topics(alloc: Global, plan: &Plan, topics: &[Topic]) -> Result<List<Topic>, OutOfMemory>
    requires { length topics.now < 2 ^ 32 }
    ensures { IfOk result (λ l. l ≡ topics.now ++ more_topics plan.now topics.now) }
{
    let mut all = copy_topics(alloc, topics)?;
    for topic in plan.topics.as_slice() {
        if place_of(&topic.name, topics).is_none() {
            all.push(topic.copy())?;
        }
    }
    Ok(all)
}

// The place among the topics of the one that stands at a place in the plan.
fn topic_place(plan: &Plan, topics: &[Topic], place: u32) -> u32
    requires { length topics.now < 2 ^ 32 }
    ensures { result ≡ topic_place plan.now topics.now place }
{
    match plan.topics.as_slice().get(place as usize) {
        Some(topic) => place_of(&topic.name, topics).unwrap_or(0),
        None => 0,
    }
}

fn new_writer(alloc: Global, plan: &Plan, topics: &[Topic], writer: &WriterLine) -> KeptWriter
    requires { length topics.now < 2 ^ 32 }
    ensures { result ≡ new_writer plan.now topics.now writer.now }
{
    KeptWriter {
        guid: writer.guid,
        topic: topic_place(plan, topics, writer.topic),
        next: Number::one(),
        held: List::new(alloc),
    }
}

fn note(guids: &mut HashSet<[u8; 16]>, guid: Guid) -> Result<(), OutOfMemory>
    ensures { OnOk result ((q : Sequence ℕ) → holds guids.new q ≡ (if bytes_eq q guid then true else holds guids.old q)) }
{
    match guids.insert(guid.0) {
        Ok(_) => Ok(()),
        Err(_) => Err(OutOfMemory),
    }
}

// The GUIDs of the writers.
fn guids_of(alloc: Global, writers: &[KeptWriter]) -> Result<HashSet<[u8; 16]>, OutOfMemory>
    ensures { IfOk result (λ s. (q : Sequence ℕ) → holds s q ≡ is_some (writer_line writers.now q)) }
{
    let mut guids = HashSet::new(alloc);
    for writer in writers {
        note(&mut guids, writer.guid)?;
    }
    Ok(guids)
}

fn is_noted(guids: &HashSet<[u8; 16]>, guid: Guid) -> bool
    ensures { result ≡ holds guids.now guid }
{
    guids.contains(&guid.0)
}

// Whether the view, whose writers have these GUIDs, lacks the writer.
fn is_new(view: &View, guids: &HashSet<[u8; 16]>, writer: &WriterLine) -> bool
    requires { (q : Sequence ℕ) → holds guids.now q ≡ is_some (writer_line view.now.writers q) }
    ensures { result ≡ not (stands view.now writer.now.guid) }
{
    !is_noted(guids, writer.guid)
}

// The writers of the view, and those of the plan that it lacks, whose topics stand among these.
fn all_writers(
    alloc: Global,
    plan: &Plan,
    view: &View,
    topics: &[Topic],
) -> Result<List<KeptWriter>, OutOfMemory>
    requires { length topics.now < 2 ^ 32 }
    ensures { IfOk result (λ l. l ≡ view.now.writers ++ more_writers plan.now topics.now view.now) }
{
    let guids = guids_of(alloc, view.writers.as_slice())?;
    let mut all = copy_writers(alloc, view.writers.as_slice())?;
    for writer in plan.writers.as_slice() {
        if is_new(view, &guids, writer) {
            all.push(new_writer(alloc, plan, topics, writer))?;
        }
    }
    Ok(all)
}

impl View {
    /// Where the topics of the plan stand in the view, in the plan's order, or 0. Topics are one where their names are.
    pub fn places(&self, plan: &Plan) -> Result<List<u32>, OutOfMemory>
        requires { length self.now.topics < 2 ^ 32 }
        ensures { IfOk result (λ l. l ≡ places_of plan.now self.now.topics) }
    {
        let mut places = List::new(self.topics.alloc());
        for topic in plan.topics.as_slice() {
            places.push(place_of(&topic.name, self.topics.as_slice()).unwrap_or(0))?;
        }
        Ok(places)
    }

    /// The view with the topics and then the writers of the plan that it lacks, at the end and in the plan's order. The
    /// next number of a new writer is 1. Topics are one where their names are.
    pub fn full(&self, plan: &Plan) -> Result<View, OutOfMemory>
        requires plan { length plan.now.topics ≤ 1024 }
        requires view { length self.now.topics ≤ 1024 }
        ensures { IfOk result (λ v. v ≡ full plan.now self.now) }
    {
        let alloc = self.topics.alloc();
        let topics = all_topics(alloc, plan, self.topics.as_slice())?;
        let writers = all_writers(alloc, plan, self, topics.as_slice())?;
        Ok(View {
            last: self.last,
            topics,
            writers,
            instances: copy_instances(alloc, self.instances.as_slice())?,
            kept: copy_kept(alloc, self.kept.as_slice())?,
        })
    }
}

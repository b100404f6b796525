//! The part of a view that outlives the process.

ghost use Rattle.std.specs.Prelude.{◌≡◌, IfOk, map, filter};
ghost use Rattle.dur_view.specs.Persistent.{is_persistent, writer_stays, instance_stays, kept_stays, writer_among, instance_among, kept_among, passes_at, place_among, persistent_view};
ghost use Rattle.dur_view.specs.Staying.{AreStaying};

use crate::staying::Staying;
use crate::{Instance, Kept, KeptWriter, View};
use dur_base::{Durability, List, OutOfMemory};
use dur_qos::Topic;
use std::alloc::Global;

fn is_persistent(topic: &Topic) -> bool
    ensures { result ≡ is_persistent topic.now }
{
    topic.kind == Durability::Persistent
}

fn topics_stay(alloc: Global, topics: &[Topic]) -> Result<List<bool>, OutOfMemory>
    ensures { IfOk result (λ l. l ≡ map is_persistent topics.now) }
{
    let mut stays = List::new(alloc);
    for topic in topics {
        stays.push(is_persistent(topic))?;
    }
    Ok(stays)
}

// Which topics of a view stay.
fn topics_staying(alloc: Global, view: &View) -> Result<Staying, OutOfMemory>
    ensures { IfOk result (AreStaying is_persistent view.now.topics) }
{
    Staying::of(alloc, topics_stay(alloc, view.topics.as_slice())?)
}

fn stays_in(view: &View, topics: &Staying, topic: u32) -> bool
    requires { AreStaying is_persistent view.now.topics topics.now }
    ensures { result ≡ passes_at is_persistent view.now.topics topic }
{
    topics.has(topic as usize)
}

fn topic_among(view: &View, topics: &Staying, topic: u32) -> u32
    requires { AreStaying is_persistent view.now.topics topics.now }
    ensures { result ≡ place_among is_persistent view.now.topics topic }
{
    topics.place(topic as usize) as u32
}

fn writers_stay(alloc: Global, view: &View, topics: &Staying) -> Result<List<bool>, OutOfMemory>
    requires { AreStaying is_persistent view.now.topics topics.now }
    ensures { IfOk result (λ l. l ≡ map (writer_stays view.now) view.now.writers) }
{
    let mut stays = List::new(alloc);
    for writer in view.writers.as_slice() {
        stays.push(stays_in(view, topics, writer.topic))?;
    }
    Ok(stays)
}

// Which writers of a view stay.
fn writers_staying(alloc: Global, view: &View, topics: &Staying) -> Result<Staying, OutOfMemory>
    requires { AreStaying is_persistent view.now.topics topics.now }
    ensures { IfOk result (AreStaying (writer_stays view.now) view.now.writers) }
{
    Staying::of(alloc, writers_stay(alloc, view, topics)?)
}

fn place_of_writer(view: &View, writers: &Staying, place: u32) -> u32
    requires { AreStaying (writer_stays view.now) view.now.writers writers.now }
    ensures { result ≡ place_among (writer_stays view.now) view.now.writers place }
{
    writers.place(place as usize) as u32
}

fn instances_stay(alloc: Global, view: &View, topics: &Staying) -> Result<List<bool>, OutOfMemory>
    requires { AreStaying is_persistent view.now.topics topics.now }
    ensures { IfOk result (λ l. l ≡ map (instance_stays view.now) view.now.instances) }
{
    let mut stays = List::new(alloc);
    for instance in view.instances.as_slice() {
        stays.push(stays_in(view, topics, instance.topic))?;
    }
    Ok(stays)
}

// Which instances of a view stay.
fn instances_staying(alloc: Global, view: &View, topics: &Staying) -> Result<Staying, OutOfMemory>
    requires { AreStaying is_persistent view.now.topics topics.now }
    ensures { IfOk result (AreStaying (instance_stays view.now) view.now.instances) }
{
    Staying::of(alloc, instances_stay(alloc, view, topics)?)
}

fn kept_stays(view: &View, instances: &Staying, kept: &Kept) -> bool
    requires { AreStaying (instance_stays view.now) view.now.instances instances.now }
    ensures { result ≡ kept_stays view.now kept.now }
{
    instances.has(kept.instance as usize)
}

fn place_of_instance(view: &View, instances: &Staying, place: u64) -> u64
    requires { AreStaying (instance_stays view.now) view.now.instances instances.now }
    ensures { result ≡ place_among (instance_stays view.now) view.now.instances place }
{
    instances.place(place as usize) as u64
}

fn topics_of(alloc: Global, topics: &[Topic]) -> Result<List<Topic>, OutOfMemory>
    ensures { IfOk result (λ l. l ≡ filter is_persistent topics.now) }
{
    let mut list = List::new(alloc);
    for topic in topics {
        if is_persistent(topic) {
            list.push(topic.copy())?;
        }
    }
    Ok(list)
}

fn writer_among(
    view: &View,
    topics: &Staying,
    writer: &KeptWriter,
) -> Result<KeptWriter, OutOfMemory>
    requires { AreStaying is_persistent view.now.topics topics.now }
    ensures { IfOk result (λ w. w ≡ writer_among view.now writer.now) }
{
    let mut copy = writer.copy()?;
    copy.topic = topic_among(view, topics, writer.topic);
    Ok(copy)
}

fn writers_of(alloc: Global, view: &View, topics: &Staying) -> Result<List<KeptWriter>, OutOfMemory>
    requires { AreStaying is_persistent view.now.topics topics.now }
    ensures { IfOk result (λ l. l ≡ map (writer_among view.now) (filter (writer_stays view.now) view.now.writers)) }
{
    let mut list = List::new(alloc);
    for writer in view.writers.as_slice() {
        if stays_in(view, topics, writer.topic) {
            list.push(writer_among(view, topics, writer)?)?;
        }
    }
    Ok(list)
}

fn places_of(
    alloc: Global,
    view: &View,
    writers: &Staying,
    places: &[u32],
) -> Result<List<u32>, OutOfMemory>
    requires { AreStaying (writer_stays view.now) view.now.writers writers.now }
    ensures { IfOk result (λ l. l ≡ map (place_among (writer_stays view.now) view.now.writers) places.now) }
{
    let mut list = List::new(alloc);
    for place in places {
        list.push(place_of_writer(view, writers, *place))?;
    }
    Ok(list)
}

fn instance_among(
    alloc: Global,
    view: &View,
    topics: &Staying,
    writers: &Staying,
    instance: &Instance,
) -> Result<Instance, OutOfMemory>
    requires topics { AreStaying is_persistent view.now.topics topics.now }
    requires writers { AreStaying (writer_stays view.now) view.now.writers writers.now }
    ensures { IfOk result (λ i. i ≡ instance_among view.now instance.now) }
{
    let registered = places_of(alloc, view, writers, instance.registered.as_slice())?;
    Ok(Instance {
        topic: topic_among(view, topics, instance.topic),
        key: instance.key,
        disposed: instance.disposed,
        quiet: instance.quiet,
        registered,
        changes: instance.changes,
    })
}

fn instances_of(
    alloc: Global,
    view: &View,
    topics: &Staying,
    writers: &Staying,
) -> Result<List<Instance>, OutOfMemory>
    requires topics { AreStaying is_persistent view.now.topics topics.now }
    requires writers { AreStaying (writer_stays view.now) view.now.writers writers.now }
    ensures { IfOk result (λ l. l ≡ map (instance_among view.now) (filter (instance_stays view.now) view.now.instances)) }
{
    let mut list = List::new(alloc);
    for instance in view.instances.as_slice() {
        if stays_in(view, topics, instance.topic) {
            list.push(instance_among(alloc, view, topics, writers, instance)?)?;
        }
    }
    Ok(list)
}

fn kept_among(view: &View, instances: &Staying, kept: &Kept) -> Result<Kept, OutOfMemory>
    requires { AreStaying (instance_stays view.now) view.now.instances instances.now }
    ensures { IfOk result (λ c. c ≡ kept_among view.now kept.now) }
{
    let mut copy = kept.copy()?;
    copy.instance = place_of_instance(view, instances, kept.instance);
    Ok(copy)
}

fn kept_of(alloc: Global, view: &View, instances: &Staying) -> Result<List<Kept>, OutOfMemory>
    requires { AreStaying (instance_stays view.now) view.now.instances instances.now }
    ensures { IfOk result (λ l. l ≡ map (kept_among view.now) (filter (kept_stays view.now) view.now.kept)) }
{
    let mut list = List::new(alloc);
    for kept in view.kept.as_slice() {
        if kept_stays(view, instances, kept) {
            list.push(kept_among(view, instances, kept)?)?;
        }
    }
    Ok(list)
}

impl View {
    /// Its persistent topics (DDS 2.2.3.4, DURABILITY), with their writers, instances and kept changes.
    pub fn persistent(&self) -> Result<View, OutOfMemory>
        ensures { IfOk result (λ v. v ≡ persistent_view self.now) }
    {
        let alloc = self.topics.alloc();
        let topics = topics_staying(alloc, self)?;
        let writers = writers_staying(alloc, self, &topics)?;
        let instances = instances_staying(alloc, self, &topics)?;
        Ok(View {
            last: self.last,
            topics: topics_of(alloc, self.topics.as_slice())?,
            writers: writers_of(alloc, self, &topics)?,
            instances: instances_of(alloc, self, &topics, &writers)?,
            kept: kept_of(alloc, self, &instances)?,
        })
    }
}

//! The text of the instances of a view.

ghost use Rattle.std.specs.Prelude.{◌≡◌, ◌&&◌, ◌||◌, ◌==◌, nat_lt, nat_le, [], length};
ghost use Rattle.std.specs.Ordering.{is_lt};
ghost use Rattle.dur_view.specs.Fates.{key_cmp};
ghost use Rattle.dur_view.specs.Words.{at_most};
ghost use Rattle.dur_record.specs.Grammar.{items};
ghost use Rattle.dur_record.specs.Run.{run, Reads};
ghost use Rattle.dur_record.specs.Views.{after, is_later, is_writer_of, depth_at, place_row, instance_topic_row, instance_key_row, quiet_row, changes_row, count_row, instance_row};

use crate::field::{Stop, Text};
use crate::sample::is_asked_key;
use crate::writer::key_asked;
use dur_base::{Key, List, Ticks};
use dur_qos::Topic;
use dur_view::{Instance, KeptWriter};
use std::alloc::Global;
use std::cmp::Ordering;

/// Whether the writer at a place is there and of the topic.
fn is_writer_of(writers: &[KeptWriter], topic: u32, place: u32) -> bool
    ensures { result ≡ is_writer_of writers.now topic place }
{
    match writers.get(place as usize) {
        Some(writer) => writer.topic == topic,
        None => false,
    }
}

/// Whether a place is after those before it.
fn rises(seen: &[u32], place: u32) -> bool
    ensures { result ≡ after seen.now (λ before. nat_lt before place) }
{
    match seen.last() {
        Some(before) => *before < place,
        None => true,
    }
}

/// Whether a topic is not before those of the instances before it.
fn is_in_order(seen: &[Instance], topic: u32) -> bool
    ensures { result ≡ after seen.now (λ before. nat_le before.topic topic) }
{
    match seen.last() {
        Some(before) => before.topic <= topic,
        None => true,
    }
}

/// Whether a topic and key are after that of an instance, where the topic is not before it.
fn is_later(before: &Instance, topic: u32, key: Key) -> bool
    ensures { result ≡ is_later topic key before.now }
{
    before.topic < topic || before.key.cmp(&key) == Ordering::Less
}

/// Whether a topic and key are after those of the instances before, where the topic is not before them.
fn is_after(seen: &[Instance], topic: u32, key: Key) -> bool
    ensures { result ≡ after seen.now (is_later topic key) }
{
    match seen.last() {
        Some(before) => is_later(before, topic, key),
        None => true,
    }
}

/// Whether an instance of the topic may have had that many changes from its first kept one on.
fn are_few(topics: &[Topic], topic: u32, changes: u64) -> bool
    ensures { result ≡ at_most (depth_at topics.now topic) changes }
{
    match topics.get(topic as usize) {
        Some(topic) => match topic.depth {
            Some(depth) => changes <= u64::from(depth),
            None => true,
        },
        None => true,
    }
}

impl Text {
    /// The place of a registered writer.
    #[tactic(auto, unfolding(crate::specs::Views::place_row), using(crate::proofs::Steps::u32_is))]
    fn place(&mut self, writers: &[KeptWriter], topic: u32, seen: &[u32]) -> Result<u32, Stop>
        ensures { Reads result self.new.rest (run (place_row writers.now topic seen.now) self.old.rest) }
    {
        let bad = self.bad();
        let place = self.u32()?;
        if !is_writer_of(writers, topic, place) || !rises(seen, place) {
            return Err(bad);
        }
        Ok(place)
    }

    /// The places of that many registered writers.
    #[tactic(auto, using(crate::proofs::Items::one_more, crate::proofs::Items::stops))]
    fn registered(
        &mut self,
        alloc: Global,
        writers: &[KeptWriter],
        topic: u32,
        count: u32,
    ) -> Result<List<u32>, Stop>
        ensures { Reads result self.new.rest (run (items count (place_row writers.now topic) []) self.old.rest) }
    {
        let mut places = List::new(alloc);
        for index in 0..count {
            let place = self.place(writers, topic, places.as_slice())?;
            places.push(place)?;
        }
        Ok(places)
    }

    /// The place of an instance's topic.
    #[tactic(auto, unfolding(crate::specs::Views::instance_topic_row), using(crate::proofs::Steps::u32_is))]
    fn instance_topic(&mut self, topics: &[Topic], seen: &[Instance]) -> Result<u32, Stop>
        ensures { Reads result self.new.rest (run (instance_topic_row topics.now seen.now) self.old.rest) }
    {
        let bad = self.bad();
        let topic = self.u32()?;
        if topic as usize >= topics.len() || !is_in_order(seen, topic) {
            return Err(bad);
        }
        Ok(topic)
    }

    /// The key of an instance.
    #[tactic(auto, unfolding(crate::specs::Views::instance_key_row), using(crate::proofs::Steps::octets_is))]
    fn instance_key(&mut self, topics: &[Topic], seen: &[Instance], topic: u32) -> Result<Key, Stop>
        ensures { Reads result self.new.rest (run (instance_key_row topics.now seen.now topic) self.old.rest) }
    {
        let bad = self.bad();
        let key = self.key()?;
        if !is_asked_key(key_asked(topics, topic), key) || !is_after(seen, topic, key) {
            return Err(bad);
        }
        Ok(key)
    }

    /// When a quiet stretch began.
    #[tactic(auto, unfolding(crate::specs::Views::quiet_row))]
    fn quiet(&mut self, last: Ticks) -> Result<Option<Ticks>, Stop>
        ensures { Reads result self.new.rest (run (quiet_row last) self.old.rest) }
    {
        if self.is_there()? {
            let moment = self.moment(last)?;
            Ok(Some(moment))
        } else {
            Ok(None)
        }
    }

    /// How many changes an instance had.
    #[tactic(auto, unfolding(crate::specs::Views::changes_row), using(crate::proofs::Steps::u64_is))]
    fn changes(&mut self, topics: &[Topic], topic: u32) -> Result<u64, Stop>
        ensures { Reads result self.new.rest (run (changes_row topics.now topic) self.old.rest) }
    {
        let bad = self.bad();
        let changes = self.u64()?;
        if !are_few(topics, topic, changes) {
            return Err(bad);
        }
        Ok(changes)
    }

    /// How many writers are registered.
    #[tactic(auto, unfolding(crate::specs::Views::count_row), using(crate::proofs::Steps::u32_is))]
    fn registered_count(&mut self, disposed: bool, is_quiet: bool) -> Result<u32, Stop>
        ensures { Reads result self.new.rest (run (count_row disposed is_quiet) self.old.rest) }
    {
        let bad = self.bad();
        let count = self.u32()?;
        if is_quiet != (disposed && count == 0) {
            return Err(bad);
        }
        Ok(count)
    }

    /// An instance.
    #[tactic(auto, unfolding(crate::specs::Views::instance_row))]
    fn instance(
        &mut self,
        alloc: Global,
        last: Ticks,
        topics: &[Topic],
        writers: &[KeptWriter],
        seen: &[Instance],
    ) -> Result<Instance, Stop>
        ensures { Reads result self.new.rest (run (instance_row last topics.now writers.now seen.now) self.old.rest) }
    {
        let topic = self.instance_topic(topics, seen)?;
        let key = self.instance_key(topics, seen, topic)?;
        let disposed = self.is_there()?;
        let quiet = self.quiet(last)?;
        let changes = self.changes(topics, topic)?;
        let count = self.registered_count(disposed, quiet.is_some())?;
        let registered = self.registered(alloc, writers, topic, count)?;
        Ok(Instance {
            topic,
            key,
            disposed,
            quiet,
            registered,
            changes,
        })
    }

    /// That many instances.
    #[tactic(auto, using(crate::proofs::Items::one_more, crate::proofs::Items::stops))]
    pub fn instances(
        &mut self,
        alloc: Global,
        last: Ticks,
        topics: &[Topic],
        writers: &[KeptWriter],
        count: u64,
    ) -> Result<List<Instance>, Stop>
        ensures { Reads result self.new.rest (run (items count (instance_row last topics.now writers.now) []) self.old.rest) }
    {
        let mut instances = List::new(alloc);
        for place in 0..count {
            let instance = self.instance(alloc, last, topics, writers, instances.as_slice())?;
            instances.push(instance)?;
        }
        Ok(instances)
    }
}

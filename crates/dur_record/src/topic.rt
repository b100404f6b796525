//! The text of a topic.

ghost use Rattle.std.specs.Prelude.{◌≡◌, ◌≤◌, ◌&&◌, not, [], length, IfOk};
ghost use Rattle.std.specs.List.{list_all};
ghost use Rattle.std.specs.Str.{bytes_eq};
ghost use Rattle.dur_qos.specs.Plan.{is_above};
ghost use Rattle.dur_record.specs.Grammar.{items};
ghost use Rattle.dur_record.specs.Run.{run, Reads};
ghost use Rattle.dur_record.specs.Views.{octets_of_name, name_row, shape_row, limit_of, limit_if, any_limit, delay_row, topic_row};

use crate::field::{Kind, Stop, Text};
use dur_base::{Durability, List, Name, Shape, is_a_name};
use dur_qos::Topic;
use std::alloc::Global;

/// The greatest limit and delay.
const GREATEST: u32 = 0x7fff_ffff;

fn differs(topic: &Topic, name: &[u8]) -> bool
    ensures { result ≡ not (bytes_eq topic.now.name name.now) }
{
    topic.name.as_slice() != name
}

/// Whether none of the topics has the name.
fn is_new(topics: &[Topic], name: &[u8]) -> bool
    ensures { result ≡ list_all (λ t. not (bytes_eq t.name name.now)) topics.now }
{
    topics.iter().all(|topic| differs(topic, name))
}

/// Whether a depth is above a limit, where both are there.
fn is_above(depth: Option<u32>, limit: Option<u32>) -> bool
    ensures { result ≡ is_above depth limit }
{
    match (depth, limit) {
        (Some(depth), Some(limit)) => limit < depth,
        _ => false,
    }
}

/// What a limit says: 0 is none.
fn limit_of(value: u32) -> Option<u32>
    ensures { result ≡ limit_of value }
{
    if value == 0 { None } else { Some(value) }
}

impl Text {
    /// That many octets, which are a name and none of those before it.
    #[tactic(auto, unfolding(crate::specs::Views::octets_of_name, crate::specs::Fields::octets_if))]
    fn octets_of_name(&mut self, seen: &[Topic], len: usize) -> Result<Name, Stop>
        ensures { Reads result self.new.rest (run (octets_of_name seen.now len) self.old.rest) }
    {
        if self.rest.len() < len {
            return Err(self.breaks(Kind::Cut));
        }
        let octets = &self.rest.as_slice()[..len];
        if !is_a_name(octets) || !is_new(seen, octets) {
            return Err(self.bad());
        }
        let name = Name::of(octets);
        self.rest.advance(len);
        Ok(name)
    }

    /// A name that is none of those before it.
    #[tactic(auto, unfolding(crate::specs::Views::name_row), using(crate::proofs::Steps::u8_is))]
    fn name(&mut self, seen: &[Topic]) -> Result<Name, Stop>
        ensures { Reads result self.new.rest (run (name_row seen.now) self.old.rest) }
    {
        let bad = self.bad();
        let len = self.u8()?;
        if len == 0 || len > 64 {
            return Err(bad);
        }
        self.octets_of_name(seen, usize::from(len))
    }

    /// Where the key of a topic's samples is found.
    #[tactic(auto, unfolding(crate::specs::Views::shape_row), using(crate::proofs::Steps::u8_is))]
    fn shape(&mut self) -> Result<Shape, Stop>
        ensures { Reads result self.new.rest (run shape_row self.old.rest) }
    {
        let bad = self.bad();
        match self.u8()? {
            0 => Ok(Shape::None),
            1 => Ok(Shape::Hash),
            2 => Ok(Shape::U32),
            3 => Ok(Shape::Text),
            _ => Err(bad),
        }
    }

    /// A limit.
    #[tactic(auto, unfolding(crate::specs::Views::limit_if), using(crate::proofs::Steps::u32_is))]
    fn limit(&mut self) -> Result<Option<u32>, Stop>
        ensures { Reads result self.new.rest (run (limit_if any_limit) self.old.rest) }
    {
        let bad = self.bad();
        let value = self.u32()?;
        if value > GREATEST {
            return Err(bad);
        }
        Ok(limit_of(value))
    }

    /// A limit that is not below the depth.
    #[tactic(auto, unfolding(crate::specs::Views::limit_if), using(crate::proofs::Steps::u32_is))]
    fn limit_over(&mut self, depth: Option<u32>) -> Result<Option<u32>, Stop>
        ensures { Reads result self.new.rest (run (limit_if (λ limit. not (is_above depth limit))) self.old.rest) }
    {
        let bad = self.bad();
        let value = self.u32()?;
        if value > GREATEST || is_above(depth, limit_of(value)) {
            return Err(bad);
        }
        Ok(limit_of(value))
    }

    /// A cleanup delay in seconds.
    #[tactic(auto, unfolding(crate::specs::Views::delay_row), using(crate::proofs::Steps::u32_is))]
    fn delay(&mut self) -> Result<u32, Stop>
        ensures { Reads result self.new.rest (run delay_row self.old.rest) }
    {
        let bad = self.bad();
        let value = self.u32()?;
        if value > GREATEST {
            return Err(bad);
        }
        Ok(value)
    }

    /// A topic.
    #[tactic(auto, unfolding(crate::specs::Views::topic_row))]
    fn topic(&mut self, seen: &[Topic]) -> Result<Topic, Stop>
        ensures { Reads result self.new.rest (run (topic_row seen.now) self.old.rest) }
    {
        let name = self.name(seen)?;
        let shape = self.shape()?;
        let depth = self.limit()?;
        let max_samples = self.limit()?;
        let max_instances = self.limit()?;
        let max_per_instance = self.limit_over(depth)?;
        let max_held = self.limit()?;
        let delay = self.delay()?;
        Ok(Topic {
            name,
            kind: Durability::Persistent,
            shape,
            depth,
            max_samples,
            max_instances,
            max_per_instance,
            max_held,
            delay,
        })
    }

    /// That many topics.
    #[tactic(auto, using(crate::proofs::Items::one_more, crate::proofs::Items::stops))]
    pub fn topics(&mut self, alloc: Global, count: u32) -> Result<List<Topic>, Stop>
        ensures { Reads result self.new.rest (run (items count topic_row []) self.old.rest) }
    {
        let mut topics = List::new(alloc);
        for place in 0..count {
            let topic = self.topic(topics.as_slice())?;
            topics.push(topic)?;
        }
        Ok(topics)
    }
}

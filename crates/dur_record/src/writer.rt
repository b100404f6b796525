//! The text of the writers of a view.

ghost use Rattle.std.specs.Prelude.{◌≡◌, ℕ, ◌-◌, ◌≤◌, not, [], length, IfOk, IfSome, None, List as Sequence};
ghost use Rattle.std.specs.List.{list_all};
ghost use Rattle.dur_view.specs.Words.{is_same, is_keyless};
ghost use Rattle.dur_view.specs.declared.data.KeptWriter.{KeptWriter as WriterLine};
ghost use Rattle.dur_record.specs.Grammar.{items};
ghost use Rattle.dur_record.specs.Run.{run, Reads};
ghost use Rattle.dur_record.specs.Index.{IsIndexed, found};
ghost use Rattle.dur_record.specs.Views.{key_asked, set_number, moment_row, member_row, held_row, guid_row, topic_in_row, next_row, writer_row};

use crate::field::{Stop, Text};
use crate::index::{note, place};
use crate::sample::{Asks, LAST_NUMBER};
use crate::version::Version;
use dur_base::{Guid, Key, List, Number, Shape, Ticks};
use dur_qos::Topic;
use dur_view::{Held, KeptWriter};
use std::alloc::Global;
use std::collections::HashMap;

/// What the members of a writer's open set have to be.
#[derive(Drop)]
struct OpenSet {
    version: Version,
    /// The view's last moment.
    last: Ticks,
    /// The key that the topic asks for.
    key: Option<Key>,
    /// The writer's next number.
    next: Number,
    /// How many members there are.
    count: u64,
}

/// Whether the topic at a place has no key.
pub fn is_keyless(topics: &[Topic], place: u32) -> bool
    ensures { result ≡ is_keyless topics.now place }
{
    match topics.get(place as usize) {
        Some(topic) => topic.shape == Shape::None,
        None => false,
    }
}

/// The key that samples of a topic have to have, if any.
pub fn key_asked(topics: &[Topic], place: u32) -> Option<Key>
    ensures { result ≡ key_asked topics.now place }
{
    if is_keyless(topics, place) {
        Some(Key([0; 16]))
    } else {
        None
    }
}

/// The number of a set: that of its first member.
fn set_number(seen: &[Held], number: Number) -> Number
    ensures { result ≡ set_number seen.now number }
{
    match seen {
        [first, ..] => first.number,
        [] => number,
    }
}

impl Text {
    /// A moment that is not after the last one.
    #[tactic(auto, unfolding(crate::specs::Views::moment_row), using(crate::proofs::Steps::u64_is))]
    pub fn moment(&mut self, last: Ticks) -> Result<Ticks, Stop>
        ensures { Reads result self.new.rest (run (moment_row last) self.old.rest) }
    {
        let bad = self.bad();
        let moment = self.u64()?;
        if moment > last.0 {
            return Err(bad);
        }
        Ok(Ticks(moment))
    }

    /// The number of the next member of a set.
    #[tactic(auto, unfolding(crate::specs::Views::member_row), using(crate::proofs::Steps::u64_is))]
    fn member(&mut self, next: Number, count: u64, seen: usize) -> Result<Number, Stop>
        ensures { Reads result self.new.rest (run (member_row next count seen) self.old.rest) }
    {
        let bad = self.bad();
        let number = self.u64()?;
        if number == 0 || number > LAST_NUMBER {
            return Err(bad);
        }
        // The sums may pass 2^64.
        if u128::from(number) + u128::from(count) != u128::from(next.get()) + seen as u128 {
            return Err(bad);
        }
        Ok(Number::at(number))
    }

    /// A member of an open set.
    #[tactic(auto, unfolding(crate::specs::Views::held_row))]
    fn held(&mut self, set: &OpenSet, seen: &[Held]) -> Result<Held, Stop>
        ensures { Reads result self.new.rest (run (held_row set.now.version set.now.last set.now.key set.now.next set.now.count seen.now) self.old.rest) }
    {
        let number = self.member(set.next, set.count, seen.len())?;
        let moment = self.moment(set.last)?;
        let asks = Asks {
            change: false,
            key: set.key,
            set: Some(set_number(seen, number)),
        };
        let sample = self.sample(set.version, &asks)?;
        Ok(Held {
            number,
            moment,
            sample,
        })
    }

    /// The members of an open set.
    #[tactic(auto, using(crate::proofs::Items::one_more, crate::proofs::Items::stops))]
    fn members(&mut self, alloc: Global, set: &OpenSet) -> Result<List<Held>, Stop>
        ensures { Reads result self.new.rest (run (items set.now.count (held_row set.now.version set.now.last set.now.key set.now.next set.now.count) []) self.old.rest) }
    {
        let mut held = List::new(alloc);
        for place in 0..set.count {
            let member = self.held(set, held.as_slice())?;
            held.push(member)?;
        }
        Ok(held)
    }

    /// A GUID that is none of those before it.
    #[tactic(auto, unfolding(crate::specs::Views::guid_row), using(crate::proofs::Steps::octets_is, crate::proofs::Places::is_new))]
    fn new_guid(&mut self, guids: &HashMap<[u8; 16], u32>) -> Result<Guid, Stop>
        ensures new { IfOk result (λ g. found guids.now g ≡ None) }
        ensures reads { (seen : Sequence WriterLine) → IsIndexed guids.now seen → Reads result self.new.rest (run (guid_row seen) self.old.rest) }
    {
        let bad = self.bad();
        let guid = self.guid()?;
        match place(guids, guid.0) {
            Some(_) => Err(bad),
            None => Ok(guid),
        }
    }

    /// The place of a topic.
    #[tactic(auto, unfolding(crate::specs::Views::topic_in_row), using(crate::proofs::Steps::u32_is))]
    fn topic_in(&mut self, topics: &[Topic]) -> Result<u32, Stop>
        ensures { Reads result self.new.rest (run (topic_in_row topics.now) self.old.rest) }
    {
        let bad = self.bad();
        let place = self.u32()?;
        if place as usize >= topics.len() {
            return Err(bad);
        }
        Ok(place)
    }

    /// The number after a writer's last handled one.
    #[tactic(auto, unfolding(crate::specs::Views::next_row), using(crate::proofs::Steps::u64_is))]
    fn next(&mut self) -> Result<Number, Stop>
        ensures { Reads result self.new.rest (run next_row self.old.rest) }
    {
        let bad = self.bad();
        match Number::new(self.u64()?) {
            Some(next) => Ok(next),
            None => Err(bad),
        }
    }

    /// A writer.
    #[tactic(auto, unfolding(crate::specs::Views::writer_row))]
    fn writer(
        &mut self,
        alloc: Global,
        version: Version,
        last: Ticks,
        topics: &[Topic],
        guids: &HashMap<[u8; 16], u32>,
    ) -> Result<KeptWriter, Stop>
        ensures new { IfOk result (λ w. found guids.now w.guid ≡ None) }
        ensures reads { (seen : Sequence WriterLine) → IsIndexed guids.now seen → Reads result self.new.rest (run (writer_row version last topics.now seen) self.old.rest) }
    {
        let guid = self.new_guid(guids)?;
        let topic = self.topic_in(topics)?;
        let next = self.next()?;
        let count = self.u64()?;
        let set = OpenSet {
            version,
            last,
            key: key_asked(topics, topic),
            next,
            count,
        };
        let held = self.members(alloc, &set)?;
        Ok(KeptWriter {
            guid,
            topic,
            next,
            held,
        })
    }

    /// That many writers, and where each of them stands.
    #[tactic(auto, using(crate::proofs::Items::one_more, crate::proofs::Items::stops, crate::proofs::Places::one_more_place))]
    pub fn writers(
        &mut self,
        alloc: Global,
        version: Version,
        last: Ticks,
        topics: &[Topic],
        count: u32,
        guids: &mut HashMap<[u8; 16], u32>,
    ) -> Result<List<KeptWriter>, Stop>
        requires { IsIndexed guids.old [] }
        ensures reads { Reads result self.new.rest (run (items count (writer_row version last topics.now) []) self.old.rest) }
        ensures indexed { IfOk result (λ ws. IsIndexed guids.new ws) }
    {
        let mut writers = List::new(alloc);
        for place in 0..count {
            let writer = self.writer(alloc, version, last, topics, guids)?;
            note(guids, writer.guid.0, place)?;
            writers.push(writer)?;
        }
        Ok(writers)
    }
}

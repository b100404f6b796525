//! The text of the kept changes of a view.

ghost use Rattle.std.specs.Prelude.{◌≡◌, ◌<◌, ◌==◌, ◌&&◌, nat_lt, nat_le, [], length, slice_index, slice_set, slice_get, vec_len, ℕ, option_map, IfOk, List as Sequence};
ghost use Rattle.dur_view.specs.declared.data.Kept.{Kept as Change};
ghost use Rattle.dur_view.specs.IsSound.{first_open};
ghost use Rattle.dur_view.specs.Words.{writer_line};
ghost use Rattle.dur_record.specs.Grammar.{items};
ghost use Rattle.dur_record.specs.Run.{run, Reads};
ghost use Rattle.dur_record.specs.Index.{IsIndexed, IsNumbered, IsCounted};
ghost use Rattle.dur_record.specs.Views.{after, goes_on, topic_in, is_by, any_writer, last_ordinal, instance_place_row, ordinal_row, kept_writer_row, kept_number_row, arrived_row, change_row, kept_row};

use crate::field::{Stop, Text};
use crate::index::{note_number, number_of, place};
use crate::sample::{Asks, LAST_NUMBER};
use crate::version::Version;
use dur_base::{Guid, List, Number, OutOfMemory, Ticks};
use dur_view::{Instance, Kept, KeptWriter};
use std::alloc::Global;
use std::collections::HashMap;

/// Where a kept change stands.
#[derive(Drop)]
struct Around {
    version: Version,
    /// The view's last moment.
    last: Ticks,
    /// The place of its instance.
    place: u64,
    /// The ordinal of the instance's change before it, or 0.
    before: u64,
}

/// The topic of the instance at a place.
fn topic_in(instances: &[Instance], place: u64) -> u32
    ensures { result ≡ topic_in instances.now place }
{
    match instances.get(place as usize) {
        Some(instance) => instance.topic,
        None => 0,
    }
}

/// Whether the instance at a place is of a topic that is not before those of the changes before.
fn is_in_order(instances: &[Instance], seen: &[Kept], place: u64) -> bool
    ensures { result ≡ after seen.now (λ c. nat_le (topic_in instances.now c.instance) (topic_in instances.now place)) }
{
    match seen.last() {
        Some(before) => topic_in(instances, before.instance) <= topic_in(instances, place),
        None => true,
    }
}

/// Whether an ordinal goes on from the one before it, which is 0 for none.
fn goes_on(before: u64, ordinal: u64) -> bool
    ensures { result ≡ goes_on before ordinal }
{
    if before == 0 {
        ordinal == 1
    } else {
        before < ordinal
    }
}

/// The ordinal of an instance's last kept change, or 0.
fn ordinal_at(ordinals: &[u64], place: u64) -> u64
    ensures { result ≡ slice_index ordinals.now place }
{
    match ordinals.get(place as usize) {
        Some(ordinal) => *ordinal,
        None => 0,
    }
}

/// No ordinals yet.
fn zeros(alloc: Global, count: usize) -> Result<Vec<u64>, OutOfMemory>
    ensures len { IfOk result (λ v. vec_len v ≡ count) }
    ensures zero { IfOk result (λ v. (i : ℕ) → slice_index v.items i ≡ 0) }
{
    let mut ordinals = Vec::new(alloc);
    for place in 0..count {
        match ordinals.push(0) {
            Ok(()) => {}
            Err(_) => return Err(OutOfMemory),
        }
    }
    Ok(ordinals)
}

/// Notes the ordinal of an instance's last kept change.
fn note_ordinal(ordinals: &mut Vec<u64>, place: u64, ordinal: u64)
    requires { place < vec_len ordinals.old }
    ensures { ordinals.new.items ≡ slice_set ordinals.old.items place ordinal }
{
    ordinals[place as usize] = ordinal;
}

/// The number of a writer's first held sample, or its next.
fn first_open(writer: &KeptWriter) -> u64
    ensures { result ≡ first_open writer.now }
{
    match writer.held.as_slice() {
        [first, ..] => first.number.get(),
        [] => writer.next.get(),
    }
}

/// The topic of the writer at a place, and where its open set begins.
fn line_at(writers: &[KeptWriter], place: u32) -> Option<(u32, u64)>
    ensures { result ≡ option_map (λ w. (w.topic, first_open w)) (slice_get writers.now place) }
{
    match writers.get(place as usize) {
        Some(writer) => Some((writer.topic, first_open(writer))),
        None => None,
    }
}

/// The topic of a writer, and where its open set begins.
#[tactic(auto, using(crate::proofs::Places::writer_found))]
fn line_of(
    writers: &[KeptWriter],
    guids: &HashMap<[u8; 16], u32>,
    guid: [u8; 16],
) -> Option<(u32, u64)>
    requires { IsIndexed guids.now writers.now }
    ensures { result ≡ option_map (λ w. (w.topic, first_open w)) (writer_line writers.now guid) }
{
    match place(guids, guid) {
        Some(place) => line_at(writers, place),
        None => None,
    }
}

/// Whether a writer stands there and is of the topic.
fn is_by(writers: &[KeptWriter], guids: &HashMap<[u8; 16], u32>, topic: u32, guid: [u8; 16]) -> bool
    requires { IsIndexed guids.now writers.now }
    ensures { result ≡ is_by writers.now topic guid any_writer }
{
    match line_of(writers, guids, guid) {
        Some(line) => line.0 == topic,
        None => false,
    }
}

/// Whether a writer stands there, is of the topic, and has its open set and its next after the number.
fn is_past(
    writers: &[KeptWriter],
    guids: &HashMap<[u8; 16], u32>,
    topic: u32,
    guid: [u8; 16],
    number: u64,
) -> bool
    requires { IsIndexed guids.now writers.now }
    ensures { result ≡ is_by writers.now topic guid (λ w. nat_lt number (first_open w)) }
{
    match line_of(writers, guids, guid) {
        Some(line) => line.0 == topic && number < line.1,
        None => false,
    }
}

impl Text {
    /// The place of a kept change's instance.
    #[tactic(auto, unfolding(crate::specs::Views::instance_place_row), using(crate::proofs::Steps::u64_is))]
    fn instance_place(&mut self, instances: &[Instance], seen: &[Kept]) -> Result<u64, Stop>
        ensures reads { Reads result self.new.rest (run (instance_place_row instances.now seen.now) self.old.rest) }
        ensures within { IfOk result (λ i. i < length instances.now) }
    {
        let bad = self.bad();
        let place = self.u64()?;
        if place >= instances.len() as u64 || !is_in_order(instances, seen, place) {
            return Err(bad);
        }
        Ok(place)
    }

    /// An ordinal.
    #[tactic(auto, unfolding(crate::specs::Views::ordinal_row), using(crate::proofs::Steps::u64_is))]
    fn ordinal(&mut self, changes: u64, before: u64) -> Result<u64, Stop>
        ensures { Reads result self.new.rest (run (ordinal_row changes before) self.old.rest) }
    {
        let bad = self.bad();
        let ordinal = self.u64()?;
        if ordinal > changes || !goes_on(before, ordinal) {
            return Err(bad);
        }
        Ok(ordinal)
    }

    /// The writer of a kept change.
    #[tactic(auto, unfolding(crate::specs::Views::kept_writer_row), using(crate::proofs::Steps::octets_is))]
    fn kept_writer(
        &mut self,
        writers: &[KeptWriter],
        guids: &HashMap<[u8; 16], u32>,
        topic: u32,
    ) -> Result<Guid, Stop>
        requires { IsIndexed guids.now writers.now }
        ensures { Reads result self.new.rest (run (kept_writer_row writers.now topic) self.old.rest) }
    {
        let bad = self.bad();
        let guid = self.guid()?;
        if !is_by(writers, guids, topic, guid.0) {
            return Err(bad);
        }
        Ok(guid)
    }

    /// The number of a kept change.
    #[tactic(auto, unfolding(crate::specs::Views::kept_number_row), using(crate::proofs::Steps::u64_is))]
    fn kept_number(
        &mut self,
        writers: &[KeptWriter],
        guids: &HashMap<[u8; 16], u32>,
        topic: u32,
        guid: Guid,
        before: u64,
    ) -> Result<Number, Stop>
        requires { IsIndexed guids.now writers.now }
        ensures { Reads result self.new.rest (run (kept_number_row writers.now topic guid before) self.old.rest) }
    {
        let bad = self.bad();
        let number = self.u64()?;
        if number == 0 || number > LAST_NUMBER || number <= before {
            return Err(bad);
        }
        if !is_past(writers, guids, topic, guid.0, number) {
            return Err(bad);
        }
        Ok(Number::at(number))
    }

    /// When a kept change arrived.
    #[tactic(auto, unfolding(crate::specs::Views::arrived_row))]
    fn arrived(&mut self, version: Version, last: Ticks) -> Result<Option<Ticks>, Stop>
        ensures { Reads result self.new.rest (run (arrived_row version last) self.old.rest) }
    {
        match version {
            Version::One => Ok(None),
            Version::Two => {
                if !self.is_there()? {
                    return Ok(None);
                }
                let moment = self.moment(last)?;
                Ok(Some(moment))
            }
        }
    }

    /// What follows the place of a kept change's instance. The marks tell what came before.
    #[tactic(auto, unfolding(crate::specs::Views::change_row))]
    fn change(
        &mut self,
        around: &Around,
        writers: &[KeptWriter],
        guids: &HashMap<[u8; 16], u32>,
        instance: &Instance,
        numbers: &HashMap<[u8; 16], u64>,
    ) -> Result<Kept, Stop>
        requires { IsIndexed guids.now writers.now }
        ensures place { IfOk result (λ c. c.instance ≡ around.now.place) }
        ensures reads { (seen : Sequence Change) → around.now.before ≡ last_ordinal around.now.place seen → IsNumbered numbers.now seen → Reads result self.new.rest (run (change_row around.now.version around.now.last writers.now seen around.now.place instance.now) self.old.rest) }
    {
        let ordinal = self.ordinal(instance.changes, around.before)?;
        let writer = self.kept_writer(writers, guids, instance.topic)?;
        let before = number_of(numbers, writer.0);
        let number = self.kept_number(writers, guids, instance.topic, writer, before)?;
        let arrived = self.arrived(around.version, around.last)?;
        let asks = Asks {
            change: true,
            key: Some(instance.key),
            set: None,
        };
        let sample = self.sample(around.version, &asks)?;
        Ok(Kept {
            instance: around.place,
            ordinal,
            writer,
            number,
            arrived,
            sample,
        })
    }

    /// A kept change. The marks tell what came before.
    #[tactic(auto, unfolding(crate::specs::Views::kept_row))]
    fn kept(
        &mut self,
        version: Version,
        last: Ticks,
        writers: &[KeptWriter],
        guids: &HashMap<[u8; 16], u32>,
        instances: &[Instance],
        seen: &[Kept],
        ordinals: &[u64],
        numbers: &HashMap<[u8; 16], u64>,
    ) -> Result<Kept, Stop>
        requires indexed { IsIndexed guids.now writers.now }
        requires counted { IsCounted ordinals.now seen.now }
        requires count { length ordinals.now ≡ length instances.now }
        requires numbered { IsNumbered numbers.now seen.now }
        ensures within { IfOk result (λ c. c.instance < length instances.now) }
        ensures reads { Reads result self.new.rest (run (kept_row version last writers.now instances.now seen.now) self.old.rest) }
    {
        let bad = self.bad();
        let place = self.instance_place(instances, seen)?;
        let around = Around {
            version,
            last,
            place,
            before: ordinal_at(ordinals, place),
        };
        match instances.get(place as usize) {
            Some(instance) => self.change(&around, writers, guids, instance, numbers),
            None => Err(bad),
        }
    }

    /// That many kept changes.
    #[tactic(auto, using(crate::proofs::Items::one_more, crate::proofs::Items::stops))]
    pub fn kept_changes(
        &mut self,
        alloc: Global,
        version: Version,
        last: Ticks,
        writers: &[KeptWriter],
        guids: &HashMap<[u8; 16], u32>,
        instances: &[Instance],
        count: u64,
    ) -> Result<List<Kept>, Stop>
        requires { IsIndexed guids.now writers.now }
        ensures { Reads result self.new.rest (run (items count (kept_row version last writers.now instances.now) []) self.old.rest) }
    {
        let mut ordinals = zeros(alloc, instances.len())?;
        let mut numbers = HashMap::new(alloc);
        let mut kept = List::new(alloc);
        for index in 0..count {
            let change = self.kept(
                version,
                last,
                writers,
                guids,
                instances,
                kept.as_slice(),
                ordinals.as_slice(),
                &numbers,
            )?;
            note_ordinal(&mut ordinals, change.instance, change.ordinal);
            note_number(&mut numbers, change.writer.0, change.number.get())?;
            kept.push(change)?;
        }
        Ok(kept)
    }
}

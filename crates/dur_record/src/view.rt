//! A view: its text read.

ghost use Rattle.std.specs.Prelude.{◌≡◌, length, None, IfOk, IfErr};
ghost use Rattle.std.specs.List.{AllByRecursion};
ghost use Rattle.dur_record.specs.Run.{run, Reads};
ghost use Rattle.dur_record.specs.Views.{topic_count_row, writer_count_row, view_row, SpellsView, BreaksView};
ghost use Rattle.dur_view.specs.IsSound.{IsSound};
ghost use Rattle.dur_record.specs.Faults.{IsFault};
ghost use Rattle.dur_record.specs.Readers.{AnswersView};

use crate::fault::{TextFault, fault_of};
use crate::field::{Stop, Text};
use crate::version::Version;
use bytes::Bytes;
use dur_base::Ticks;
use dur_view::View;
use std::alloc::Global;
use std::collections::HashMap;

/// The most topics of a view.
const MOST_TOPICS: u32 = 1024;

/// The most writers of a view.
const MOST_WRITERS: u32 = 67_108_864;

impl Text {
    /// How many topics there are.
    #[tactic(auto, unfolding(crate::specs::Views::topic_count_row), using(crate::proofs::Steps::u32_is))]
    fn topic_count(&mut self) -> Result<u32, Stop>
        ensures { Reads result self.new.rest (run topic_count_row self.old.rest) }
    {
        let bad = self.bad();
        let count = self.u32()?;
        if count > MOST_TOPICS {
            return Err(bad);
        }
        Ok(count)
    }

    /// How many writers there are.
    #[tactic(auto, unfolding(crate::specs::Views::writer_count_row), using(crate::proofs::Steps::u32_is))]
    fn writer_count(&mut self) -> Result<u32, Stop>
        ensures { Reads result self.new.rest (run writer_count_row self.old.rest) }
    {
        let bad = self.bad();
        let count = self.u32()?;
        if count > MOST_WRITERS {
            return Err(bad);
        }
        Ok(count)
    }

    /// A view.
    #[tactic(auto, unfolding(crate::specs::Views::view_row), using(crate::proofs::Places::empty_index))]
    fn view(&mut self, alloc: Global, version: Version) -> Result<View, Stop>
        ensures { Reads result self.new.rest (run (view_row version) self.old.rest) }
    {
        let last = Ticks(self.u64()?);
        let count = self.topic_count()?;
        let topics = self.topics(alloc, count)?;
        let count = self.writer_count()?;
        let mut guids = HashMap::new(alloc);
        let writers = self.writers(alloc, version, last, topics.as_slice(), count, &mut guids)?;
        let count = self.u64()?;
        let instances = self.instances(alloc, last, topics.as_slice(), writers.as_slice(), count)?;
        let count = self.u64()?;
        let kept = self.kept_changes(
            alloc,
            version,
            last,
            writers.as_slice(),
            &guids,
            instances.as_slice(),
            count,
        )?;
        Ok(View {
            last,
            topics,
            writers,
            instances,
            kept,
        })
    }
}

// The view that all of a text is.
fn whole_view(alloc: Global, text: &mut Text, version: Version) -> Result<View, TextFault>
    ensures ok { IfOk result (SpellsView version text.old.rest) }
    ensures sound { IfOk result IsSound }
    ensures err { IfErr result (IsFault (BreaksView version text.old.rest) (length text.old.rest)) }
{
    let len = text.rest.len();
    match text.view(alloc, version) {
        Ok(view) => {
            if text.rest.is_empty() {
                Ok(view)
            } else {
                Err(TextFault::BadField(len - text.rest.len()))
            }
        }
        Err(stop) => Err(fault_of(stop, len)),
    }
}

/// The view that a text of version 2 is. Its payloads share the text's octets.
///
/// `Cut`, `BadTag` and `BadField` come exactly at the first place where the text breaks.
pub fn read_view(alloc: Global, bytes: Bytes<Global>) -> Result<View, TextFault>
    ensures { AnswersView Version.Two bytes result }
{
    whole_view(alloc, &mut Text { rest: bytes }, Version::Two)
}

/// The view that a text of version 1 is, which does not tell when its changes arrived. Its payloads share the text's
/// octets.
///
/// `Cut`, `BadTag` and `BadField` come exactly at the first place where the text breaks.
pub fn read_view_1(alloc: Global, bytes: Bytes<Global>) -> Result<View, TextFault>
    ensures view { AnswersView Version.One bytes result }
    ensures unknown { IfOk result (λ v. AllByRecursion (λ c. c.arrived ≡ None) v.kept) }
{
    whole_view(alloc, &mut Text { rest: bytes }, Version::One)
}

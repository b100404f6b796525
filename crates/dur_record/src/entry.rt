//! The text of an entry.

ghost use Rattle.std.specs.Prelude.{◌≡◌, ◌==◌, Option, length, IfOk};
ghost use Rattle.dur_view.specs.History.{History};
ghost use Rattle.dur_record.specs.Run.{run, Reads, ReadsAs};
ghost use Rattle.dur_record.specs.Entries.{least_moment, entry_number_row, entry_moment_row, known_row, wanted, took_row, skip_row, tag_row, entry_row};
ghost use Rattle.dur_record.specs.Past.{IsPast};
ghost use Rattle.dur_record.specs.Samples.{is_asked};

use crate::field::{Kind, Stop, Text};
use crate::past::{Past, Wanted};
use crate::sample::{Asks, LAST_NUMBER};
use crate::version::Version;
use dur_base::{Entry, Guid, Number, Ticks};

/// Whether it is the number that is asked for, if one is.
fn is_asked_number(asked: Option<u64>, number: u64) -> bool
    ensures { result ≡ is_asked (λ m k. m == k) asked number }
{
    match asked {
        Some(asked) => asked == number,
        None => true,
    }
}

impl Text {
    /// The tag of an entry.
    #[tactic(auto, unfolding(crate::specs::Entries::tag_row), using(crate::proofs::Steps::tag_is))]
    fn tag(&mut self) -> Result<u8, Stop>
        ensures { Reads result self.new.rest (run tag_row self.old.rest) }
    {
        let bad = self.breaks(Kind::BadTag);
        let tag = self.u8()?;
        if tag == 0 || tag > 3 {
            return Err(bad);
        }
        Ok(tag)
    }

    /// The moment of an entry.
    #[tactic(auto, unfolding(crate::specs::Entries::entry_moment_row), using(crate::proofs::Steps::u64_is))]
    fn entry_moment(&mut self, last: Ticks) -> Result<Ticks, Stop>
        ensures { (past : Option History) → last ≡ least_moment past → Reads result self.new.rest (run (entry_moment_row past) self.old.rest) }
    {
        let bad = self.bad();
        let moment = self.u64()?;
        if moment < last.0 {
            return Err(bad);
        }
        Ok(Ticks(moment))
    }

    /// The writer of an entry, and what is asked of it.
    #[tactic(auto, unfolding(crate::specs::Entries::known_row), using(crate::proofs::Steps::octets_is))]
    fn known(&mut self, past: &Past) -> Result<(Guid, Wanted), Stop>
        ensures reads { (h : Option History) → IsPast past.now h → ReadsAs (λ x. x.0) result self.new.rest (run (known_row h) self.old.rest) }
        ensures wanted { (h : Option History) → IsPast past.now h → IfOk result (λ x. x.1 ≡ wanted h x.0) }
    {
        let bad = self.bad();
        let writer = self.guid()?;
        match past.wanted(writer) {
            Some(wanted) => Ok((writer, wanted)),
            None => Err(bad),
        }
    }

    /// The number of an entry, or the first of those that it passes over.
    #[tactic(auto, unfolding(crate::specs::Entries::entry_number_row), using(crate::proofs::Steps::u64_is))]
    fn entry_number(&mut self, asked: &Wanted) -> Result<Number, Stop>
        ensures { Reads result self.new.rest (run (entry_number_row asked.now) self.old.rest) }
    {
        let bad = self.bad();
        let value = self.u64()?;
        if value == 0 || value > LAST_NUMBER || !is_asked_number(asked.next, value) {
            return Err(bad);
        }
        Ok(Number::at(value))
    }

    /// What follows the writer where a sample was taken in.
    #[tactic(auto, unfolding(crate::specs::Entries::took_row))]
    fn took(
        &mut self,
        version: Version,
        asked: &Wanted,
        moment: Ticks,
        writer: Guid,
    ) -> Result<Entry, Stop>
        ensures { Reads result self.new.rest (run (took_row version asked.now moment writer) self.old.rest) }
    {
        let number = self.entry_number(asked)?;
        let asks = Asks {
            change: false,
            key: asked.key,
            set: None,
        };
        let sample = self.sample(version, &asks)?;
        Ok(Entry::Took {
            moment,
            writer,
            number,
            sample,
        })
    }

    /// What follows the writer where numbers are passed over.
    #[tactic(auto, unfolding(crate::specs::Entries::skip_row), using(crate::proofs::Steps::u64_is))]
    fn skip(&mut self, asked: &Wanted, moment: Ticks, writer: Guid) -> Result<Entry, Stop>
        ensures { Reads result self.new.rest (run (skip_row asked.now moment writer) self.old.rest) }
    {
        let from = self.entry_number(asked)?;
        let bad = self.bad();
        let to = self.u64()?;
        if to < from.get() || to > LAST_NUMBER {
            return Err(bad);
        }
        Ok(Entry::Skip {
            moment,
            writer,
            from,
            to: Number::at(to),
        })
    }

    /// An entry. The past tells what is asked of it.
    #[tactic(auto, unfolding(crate::specs::Entries::entry_row))]
    pub fn entry(&mut self, version: Version, past: &Past) -> Result<Entry, Stop>
        ensures { (h : Option History) → IsPast past.now h → Reads result self.new.rest (run (entry_row version h) self.old.rest) }
    {
        let tag = self.tag()?;
        let moment = self.entry_moment(past.last)?;
        let (writer, asked) = self.known(past)?;
        match tag {
            1 => self.took(version, &asked, moment, writer),
            2 => self.skip(&asked, moment, writer),
            _ => Ok(Entry::Lost { moment, writer }),
        }
    }
}

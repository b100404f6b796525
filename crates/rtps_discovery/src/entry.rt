//! What is kept of one participant, writer or reader.

ghost use Rattle.std.specs.Prelude.{◌≡◌};
ghost use Rattle.rtps_discovery.specs.Entries.{no_numbers, number_of, with_number, numbers_in, farewell_in, is_gone, entry_after};

use crate::announcement::{Announcement, Told};
use crate::source::Source;
use dur_base::Ticks;

/// The greatest number with which each builtin writer announced it, or 0 where it did not.
#[derive(Clone, Copy, Debug, PartialEq, Eq, Drop)]
pub struct Numbers {
    participants: u64,
    publications: u64,
    subscriptions: u64,
}

/// What is kept of one GUID. A place counts the announcements that count, from 1.
#[derive(Clone, Copy, Debug, PartialEq, Eq, Drop)]
pub struct Entry {
    pub numbers: Numbers,
    /// The last announcement that counts.
    pub last: Announcement,
    /// When it was heard.
    pub moment: Ticks,
    /// Its place.
    pub place: u64,
    /// The place of the last farewell that counts, or 0 where there is none.
    pub farewell: u64,
}

impl Numbers {
    fn none() -> Numbers
        ensures { result ≡ no_numbers }
    {
        Numbers {
            participants: 0,
            publications: 0,
            subscriptions: 0,
        }
    }

    fn of(&self, source: Source) -> u64
        ensures { result ≡ number_of source self.now }
    {
        match source {
            Source::Participants => self.participants,
            Source::Publications => self.publications,
            Source::Subscriptions => self.subscriptions,
        }
    }

    fn with(&self, source: Source, number: u64) -> Numbers
        ensures { result ≡ with_number source number self.now }
    {
        match source {
            Source::Participants => Numbers {
                participants: number,
                ..*self
            },
            Source::Publications => Numbers {
                publications: number,
                ..*self
            },
            Source::Subscriptions => Numbers {
                subscriptions: number,
                ..*self
            },
        }
    }
}

fn numbers_in(entry: &Option<Entry>) -> Numbers
    ensures { result ≡ numbers_in entry.now }
{
    match entry {
        Some(entry) => entry.numbers,
        None => Numbers::none(),
    }
}

fn farewell_in(entry: &Option<Entry>) -> u64
    ensures { result ≡ farewell_in entry.now }
{
    match entry {
        Some(entry) => entry.farewell,
        None => 0,
    }
}

fn is_gone(what: &Announcement) -> bool
    ensures { result ≡ is_gone what.now }
{
    matches!(what, Announcement::Gone(_))
}

/// What is kept of a GUID after an announcement of it from that builtin writer, at this place where it counts; None
/// where it does not count.
pub fn entry_after(old: &Option<Entry>, source: Source, told: &Told, place: u64) -> Option<Entry>
    ensures { result ≡ entry_after old.now source told.now place }
{
    let numbers = numbers_in(old);
    let number = told.number.get();
    if number < numbers.of(source) {
        return None;
    }
    let farewell = if is_gone(&told.what) {
        place
    } else {
        farewell_in(old)
    };
    Some(Entry {
        numbers: numbers.with(source, number),
        last: told.what,
        moment: told.moment,
        place,
        farewell,
    })
}

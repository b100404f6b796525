//! The store of all topics.

ghost use Rattle.std.specs.Prelude.{◌≡◌, ℕ, ◌-◌, ◌^◌, ◌<◌, ◌≤◌, length, OnOk, OnErr, IfOk, IfErr, IsOk};
ghost use Rattle.dur_base.specs.declared.entry.Entry.TheVariants.{Took as Takes, Skip as Skips, Lost as Loses};
ghost use Rattle.dur_qos.specs.Good.{GoodPlan};
ghost use Rattle.dur_view.specs.History.{History, Start, ◌▸◌, start, moment as last_moment, next, HasShortNumber, Follows};
ghost use Rattle.dur_view.specs.Full.{full, places_of};
ghost use Rattle.dur_view.specs.IsSound.{IsSound, IsHistory};
ghost use Rattle.dur_view.specs.View.{view};
ghost use Rattle.dur_view.specs.Persistent.{persistent};
ghost use Rattle.dur_view.specs.Past.{past};
ghost use Rattle.dur_view.specs.Snapshot.{snap};
ghost use Rattle.dur_view.specs.Refused.{refused};
ghost use Rattle.dur_store.specs.Keeps.{Keeps};
ghost use Rattle.dur_store.specs.Room.{HasRoom};
ghost use Rattle.dur_store.specs.Admitting.{Admitting, WhereRoom};

use crate::Refuse;
use crate::begin::topics_of;
use crate::index::{index_of, place_of};
use crate::limits::{is_held_over, limit_with, max_held_of};
use crate::room::{make_room, need, needed_at, needed_of, room_at, spare_all, spare_at};
use crate::taking::take_in;
use crate::whole::parts_of;
use crate::writer::{Writer, let_go, lines_of, pass_over, would_pass, writers_of};
use dur_base::{Entry, Guid, List, Number, OutOfMemory, Sample, SetMark, Ticks, later};
use dur_instances::Instances;
use dur_qos::Plan;
use dur_sets::Sets;
use dur_view::{Limit, Snapshot, View, full_views_are_sound};
use std::alloc::Global;
use std::collections::HashMap;

// As many topics and writers as a view has at most.
const MOST_TOPICS: usize = 1024;

const MOST_WRITERS: usize = 67_108_864;

/// One store of all topics. Contracts tell it by the history that it stands for (`Keeps`): of that it keeps what later
/// entitlement, limits and numbers need, and no entry.
#[derive(Drop)]
pub struct Store {
    // The last moment and the topics.
    outline: View,
    writers: Vec<Writer>,
    index: HashMap<[u8; 16], u32>,
    sets: Sets,
    topics: Vec<Instances>,
    // For how many changes each topic needs room: more than the members that any writer of it holds.
    needed: Vec<usize>,
    // The places of the writer and of the topic whose room the last entry used up.
    used_writer: usize,
    used_topic: usize,
}

impl Store {
    /// A store that stands for the view with all that the plan declares, and no entries. The place of a topic in the
    /// store is that in this full view: the view's topics, and behind them those of the plan that the view lacks. There
    /// is no memory for more than 1,024 topics and 67,108,864 writers.
    pub fn of_view(alloc: Global, plan: &Plan, view: View) -> Result<Store, OutOfMemory>
        requires plan { GoodPlan plan.now }
        requires view { IsSound view }
        ensures { IfOk result (λ s. Keeps s (Start (full plan.now view))) }
    {
        let full = view.full(plan)?;
        if full.topics.len() > MOST_TOPICS || full.writers.len() > MOST_WRITERS {
            return Err(OutOfMemory);
        }
        full_views_are_sound();
        Store::over(alloc, full)
    }

    /// A store that stands for the view as it is, and no entries.
    fn over(alloc: Global, view: View) -> Result<Store, OutOfMemory>
        requires { IsSound view }
        ensures { IfOk result (λ s. Keeps s (Start view)) }
    {
        let sets = Sets::new(alloc, &view)?;
        let index = index_of(alloc, view.writers.as_slice())?;
        let mut topics = topics_of(alloc, &view)?;
        let View {
            last,
            topics: declared,
            writers,
            ..
        } = view;
        let outline = View {
            last,
            topics: declared,
            writers: List::new(alloc),
            instances: List::new(alloc),
            kept: List::new(alloc),
        };
        let mut writers = writers_of(alloc, writers)?;
        spare_all(&mut writers)?;
        let needed = needed_of(alloc, &writers, topics.len())?;
        make_room(&mut topics, &needed)?;
        Ok(Store {
            outline,
            writers,
            index,
            sets,
            topics,
            needed,
            used_writer: 0,
            used_topic: 0,
        })
    }

    /// Makes room for the next entry, whichever it is, in place of what the last one used up. Where there is room, memory
    /// is not wanted.
    pub fn reserve(&mut self) -> Result<(), OutOfMemory>
        ensures ok { OnOk result ((h : History) → Keeps self.old h → HasRoom self.new) }
        ensures enough { HasRoom self.old → IsOk result }
        ensures keeps { (h : History) → Keeps self.old h → Keeps self.new h }
    {
        spare_at(&mut self.writers, self.used_writer)?;
        let more = needed_at(&self.needed, self.used_topic);
        room_at(&mut self.topics, self.used_topic, more)
    }

    /// Appends the entry, unless it would pass a limit of its topic at its moment: then it is refused for the first of
    /// them and handed back. A skip and a loss pass none. Refused or on want of memory, the store is as it was. Where
    /// there is room, as `reserve` makes it, memory is not wanted.
    pub fn admit(&mut self, entry: Entry) -> Result<(), (Refuse, Entry)>
        requires { HasShortNumber entry }
        ensures { Admitting self.old entry self.new result }
    {
        match entry {
            Entry::Took {
                moment,
                writer,
                number,
                sample,
            } => self.admit_sample(moment, writer, number, sample),
            Entry::Skip {
                moment,
                writer,
                from,
                to,
            } => match self.skip(moment, writer, to) {
                Ok(()) => Ok(()),
                Err(_) => Err((
                    Refuse::OutOfMemory,
                    Entry::Skip {
                        moment,
                        writer,
                        from,
                        to,
                    },
                )),
            },
            Entry::Lost { moment, writer } => match self.lose(moment, writer) {
                Ok(()) => Ok(()),
                Err(_) => Err((Refuse::OutOfMemory, Entry::Lost { moment, writer })),
            },
        }
    }

    // The same of a sample, the next of its writer.
    fn admit_sample(
        &mut self,
        moment: Ticks,
        writer: Guid,
        number: Number,
        sample: Sample,
    ) -> Result<(), (Refuse, Entry)>
        requires { number < 2 ^ 63 - 1 }
        ensures { Admitting self.old (Takes moment writer number sample) self.new result }
    {
        match self.limit_of(moment, writer, number, sample) {
            Ok((None, sample)) => match self.take(moment, writer, number, sample) {
                Ok(()) => Ok(()),
                Err(sample) => Err((Refuse::OutOfMemory, took(moment, writer, number, sample))),
            },
            Ok((Some(limit), sample)) => Err((
                Refuse::for_limit(limit),
                took(moment, writer, number, sample),
            )),
            Err(sample) => Err((Refuse::OutOfMemory, took(moment, writer, number, sample))),
        }
    }

    // The first limit of its topic that the next sample of a writer would pass. The sample is handed back.
    fn limit_of(
        &mut self,
        moment: Ticks,
        writer: Guid,
        number: Number,
        sample: Sample,
    ) -> Result<(Option<Limit>, Sample), Sample>
        ensures limit { IfOk result (λ a. (h : History) → Keeps self.old h
            → Follows h (Takes moment writer number sample)
            → a.0 ≡ refused h (Takes moment writer number sample)) }
        ensures ok { IfOk result (λ a. a.1 ≡ sample) }
        ensures err { IfErr result (λ back. back ≡ sample) }
        ensures keeps { (h : History) → Keeps self.old h → Keeps self.new h }
        ensures room { HasRoom self.old → HasRoom self.new }
        ensures memory { WhereRoom self.old (Takes moment writer number sample) (IsOk result) }
    {
        let Some(place) = place_of(&self.index, writer) else {
            return Err(sample);
        };
        let at = place as usize;
        if at >= self.writers.len() {
            return Err(sample);
        }
        let topic = self.writers[at].topic as usize;
        if topic >= self.topics.len() {
            return Err(sample);
        }
        let effect = self.sets.effect(place, number, mark_of(&sample));
        let max_held = max_held_of(&self.outline, topic);
        let is_over = is_held_over(max_held, &self.writers, &self.writers[at], &effect);
        let taken = later(moment, self.topics[topic].last());
        match would_pass(
            &mut self.writers[at],
            &self.topics[topic],
            taken,
            &effect,
            sample,
        ) {
            Ok((limit, sample)) => Ok((limit_with(limit, is_over), sample)),
            Err(sample) => Err(sample),
        }
    }

    /// Appends the entry, whatever the limits say. On want of memory the store is as it was. Where there is room, memory
    /// is not wanted.
    pub fn restore(&mut self, entry: Entry) -> Result<(), OutOfMemory>
        requires { HasShortNumber entry }
        ensures ok { OnOk result ((h : History) → Keeps self.old h → Follows h entry
            → Keeps self.new (h ▸ entry)) }
        ensures err { OnErr result ((h : History) → Keeps self.old h → Keeps self.new h) }
        ensures memory { WhereRoom self.old entry (IsOk result) }
    {
        match entry {
            Entry::Took {
                moment,
                writer,
                number,
                sample,
            } => match self.take(moment, writer, number, sample) {
                Ok(()) => Ok(()),
                Err(_) => Err(OutOfMemory),
            },
            Entry::Skip {
                moment,
                writer,
                to,
                ..
            } => self.skip(moment, writer, to),
            Entry::Lost { moment, writer } => self.lose(moment, writer),
        }
    }

    // The next sample of a writer is taken in. On want of memory it is handed back, and the store is as it was.
    fn take(
        &mut self,
        moment: Ticks,
        writer: Guid,
        number: Number,
        sample: Sample,
    ) -> Result<(), Sample>
        requires { number < 2 ^ 63 - 1 }
        ensures ok { OnOk result ((h : History) → Keeps self.old h
            → Follows h (Takes moment writer number sample)
            → Keeps self.new (h ▸ Takes moment writer number sample)) }
        ensures err { OnErr result ((h : History) → Keeps self.old h → Keeps self.new h) }
        ensures back { IfErr result (λ back. back ≡ sample) }
        ensures memory { WhereRoom self.old (Takes moment writer number sample) (IsOk result) }
    {
        let Ok(()) = self.reserve() else {
            return Err(sample);
        };
        let Some(place) = place_of(&self.index, writer) else {
            return Err(sample);
        };
        let at = place as usize;
        if at >= self.writers.len() {
            return Err(sample);
        }
        let topic = self.writers[at].topic as usize;
        if topic >= self.topics.len() {
            return Err(sample);
        }
        let effect = self.sets.effect(place, number, mark_of(&sample));
        let mark = mark_of(&sample);
        let taken = later(moment, self.topics[topic].last());
        take_in(
            &mut self.writers[at],
            &mut self.topics[topic],
            place,
            taken,
            number,
            &effect,
            sample,
        )?;
        need(&mut self.needed, topic, self.writers[at].held.len());
        self.used_writer = at;
        self.used_topic = topic;
        self.sets.step(place, number, mark);
        stamp(&mut self.outline, moment);
        Ok(())
    }

    // Numbers of a writer are passed over, up to one: its open set is broken.
    fn skip(&mut self, moment: Ticks, writer: Guid, to: Number) -> Result<(), OutOfMemory>
        requires { to < 2 ^ 63 - 1 }
        ensures ok { OnOk result ((h : History) (from : ℕ) → Keeps self.old h
            → Follows h (Skips moment writer from to)
            → Keeps self.new (h ▸ Skips moment writer from to)) }
        ensures err { OnErr result ((h : History) → Keeps self.old h → Keeps self.new h) }
        ensures memory { (h : History) (from : ℕ) → Keeps self.old h
            → Follows h (Skips moment writer from to) → IsOk result }
    {
        let Some(place) = place_of(&self.index, writer) else {
            return Err(OutOfMemory);
        };
        let at = place as usize;
        if at >= self.writers.len() {
            return Err(OutOfMemory);
        }
        pass_over(&mut self.writers[at], to);
        self.sets.skip(place);
        stamp(&mut self.outline, moment);
        Ok(())
    }

    // A writer is lost: its registrations end, and its open set is broken.
    fn lose(&mut self, moment: Ticks, writer: Guid) -> Result<(), OutOfMemory>
        ensures ok { OnOk result ((h : History) → Keeps self.old h
            → Follows h (Loses moment writer)
            → Keeps self.new (h ▸ Loses moment writer)) }
        ensures err { OnErr result ((h : History) → Keeps self.old h → Keeps self.new h) }
        ensures memory { (h : History) → Keeps self.old h → Follows h (Loses moment writer)
            → IsOk result }
    {
        let Some(place) = place_of(&self.index, writer) else {
            return Err(OutOfMemory);
        };
        let at = place as usize;
        if at >= self.writers.len() {
            return Err(OutOfMemory);
        }
        let topic = self.writers[at].topic as usize;
        if topic >= self.topics.len() {
            return Err(OutOfMemory);
        }
        let taken = later(moment, self.topics[topic].last());
        self.topics[topic].lost(taken, place);
        let_go(&mut self.writers[at]);
        self.sets.lost(place);
        stamp(&mut self.outline, moment);
        Ok(())
    }

    /// The number after the writer's last handled one.
    pub fn next(&self, writer: Guid) -> Number
        ensures { (h : History) → Keeps self.now h → result ≡ next h writer }
    {
        let Some(place) = place_of(&self.index, writer) else {
            return Number::one();
        };
        match self.writers.get(place as usize) {
            Some(line) => line.next,
            None => Number::one(),
        }
    }

    /// The moment of the last entry, or the start's, in ticks of 2^-32 s.
    pub fn last(&self) -> Ticks
        ensures { (h : History) → Keeps self.now h → result ≡ last_moment h }
    {
        self.outline.last
    }

    /// Where the topics of a plan stand in the store, in the plan's order: a plan's topic and a store's are one where
    /// their names are.
    pub fn places(&self, plan: &Plan) -> Result<List<u32>, OutOfMemory>
        requires { (h : History) × Keeps self.now h × length (start h).topics ≤ 1024 }
        ensures { IfOk result (λ l. (h : History) → Keeps self.now h → l ≡ places_of plan.now (start h).topics) }
    {
        self.outline.places(plan)
    }

    /// What a late reader of the topic at a place is owed at a moment, in the order of effect (DDS 2.2.3.4, DURABILITY).
    /// Of a place without a topic that is nothing. What was owed before the last moment is not kept.
    pub fn entitled(
        &self,
        alloc: Global,
        topic: u32,
        moment: Ticks,
    ) -> Result<Snapshot, OutOfMemory>
        ensures { IfOk result (λ s. (h : History) → Keeps self.now h → topic < length (start h).topics
            → last_moment h ≤ moment → s.changes ≡ snap (past topic h) moment) }
    {
        match self.topics.get(topic as usize) {
            Some(topic) => topic.entitled(alloc, later(moment, topic.last())),
            None => Ok(Snapshot {
                changes: List::new(alloc),
            }),
        }
    }

    /// The view of the persistent topics at a moment that is none before the last one: what outlives the process.
    pub fn view(&self, alloc: Global, moment: Ticks) -> Result<View, OutOfMemory>
        requires { (h : History) × Keeps self.now h × IsHistory h × last_moment h ≤ moment }
        ensures { IfOk result (λ v. (h : History) → Keeps self.now h → v ≡ view (persistent h) moment) }
    {
        let whole = self.whole(alloc, moment)?;
        whole.persistent()
    }

    // The view of all topics.
    fn whole(&self, alloc: Global, moment: Ticks) -> Result<View, OutOfMemory>
        requires { (h : History) × Keeps self.now h × last_moment h ≤ moment }
        ensures { IfOk result (λ v. (h : History) → Keeps self.now h → v ≡ view h moment) }
    {
        let outline = self.outline.copy()?;
        let writers = lines_of(alloc, &self.writers)?;
        let (instances, kept) = parts_of(alloc, &self.topics, moment)?;
        Ok(View {
            last: moment,
            topics: outline.topics,
            writers,
            instances,
            kept,
        })
    }
}

// The entry of a sample.
fn took(moment: Ticks, writer: Guid, number: Number, sample: Sample) -> Entry
    ensures { result ≡ Takes moment writer number sample }
{
    Entry::Took {
        moment,
        writer,
        number,
        sample,
    }
}

// The mark of a sample.
fn mark_of(sample: &Sample) -> SetMark
    ensures { result ≡ sample.now.set }
{
    sample.set
}

// The last moment is this one.
fn stamp(outline: &mut View, moment: Ticks)
    ensures { outline.new ≡ record outline.old { last = moment } }
{
    outline.last = moment;
}

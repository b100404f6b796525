//! The instances and kept changes of one topic.

ghost use Rattle.std.specs.Prelude.{◌≡◌, ℕ, ◌+◌, ◌*◌, ◌^◌, ◌<◌, ◌≤◌, ◌&&◌, true, false, Some, None, Ok, if◌then◌else◌, List, slice_get, OnOk, IfOk};
ghost use Rattle.dur_base.specs.declared.sample.Sample.{Sample as Told};
ghost use Rattle.dur_base.specs.declared.sample.Act.TheVariants.{Unregister as Unregisters, Marker as Marks};
ghost use Rattle.dur_view.specs.Identities.{Guid as Octets, Key as KeyOctets};
ghost use Rattle.dur_view.specs.Words.{is_change};
ghost use Rattle.dur_view.specs.declared.change.TopicEvent.{TopicEvent};
ghost use Rattle.dur_view.specs.declared.change.TopicEvent.TheVariants.{Effect, Gone};
ghost use Rattle.dur_view.specs.Past.{Past, Begin, part, ◌▹◌, ◌▹▹◌};
ghost use Rattle.dur_view.specs.IsSound.{IsSound};
ghost use Rattle.dur_instances.specs.Layout.{places, InOrder};
ghost use Rattle.dur_view.specs.Fates.{is_long, is_nobody, disposes, settings, existing, entitled};
ghost use Rattle.dur_view.specs.Refused.{passed};
ghost use Rattle.dur_instances.specs.Trimmed.{row_at, blank};
ghost use Rattle.dur_view.specs.Snapshot.{snap};
ghost use Rattle.dur_view.specs.View.{lines_at, kept_of};
ghost use Rattle.dur_instances.specs.Stands.{Stands};
ghost use Rattle.dur_instances.specs.Kept.{NoneIsOver};
ghost use Rattle.dur_instances.specs.Would.{TakeEffect};

use crate::cells::{Cell, Listed, Sorted, count_after};
use crate::changes::Change;
use crate::due::{due_by, due_of, due_with, is_before};
use crate::from_view::{cells_of, changes_of, registered_of};
use crate::lines::{kept_over, lines_over};
use crate::listing::entitled_over;
use crate::order::Changes;
use crate::registered::{Registered, enroll, is_nobody, leave, leave_all};
use crate::table::Cells;
use crate::would::would_over;
use dur_base::{Act, Guid, Key, List, Number, OutOfMemory, Sample, Ticks};
use dur_qos::Topic;
use dur_view::{Instance, Kept, Limit, Snapshot, View};
use std::alloc::Global;
use std::marker::Model;

/// The instances and kept changes of one topic.
#[derive(Drop)]
pub struct Instances {
    topic: Topic,
    last: Ticks,
    due: Ticks,
    cells: Cells,
    registered: Vec<Registered>,
    changes: Changes,
}

impl Model for Instances {
    ghost use Rattle.std.specs.Prelude.{◌≤◌, ◌-◌, ◌*◌, ◌^◌, min, vec_len, vec_capacity};
    ghost use Rattle.dur_instances.specs.Due.{due_of};
    ghost use Rattle.dur_instances.specs.Trimmed.{Trimmed, trimmed_code};
    ghost use Rattle.dur_instances.specs.Layout.{rows_of, lates_of, IsLaid};

    ghost Value = { Trimmed };

    ghost coded = { trimmed_code };

    ghost view = { λ s. record { settings = s.topic; last = s.last; rows = rows_of s.cells.list s.registered.items; kept = lates_of s.cells.list s.changes.items; room = min s.cells.room (min (vec_capacity s.registered - vec_len s.registered) s.changes.room) } };

    ghost invariant = { λ s. IsLaid s.topic s.cells.list s.registered.items s.changes.items × (s.due ≤ due_of (s.topic.delay * 2 ^ 32) s.cells.list s.changes.items) };
}

impl Instances {
    /// Nothing took effect yet.
    pub fn new(alloc: Global, topic: &Topic) -> Instances
        ensures { result ≡ blank topic.now }
    {
        Instances {
            topic: topic.copy(),
            last: Ticks(0),
            due: Ticks(u64::MAX),
            cells: Cells::new(alloc),
            registered: Vec::new(alloc),
            changes: Changes::new(alloc),
        }
    }

    /// What a view keeps of the topic at a place of it. It stands for the past that begins with the view.
    pub fn of_view(
        alloc: Global,
        topic: &Topic,
        at: u32,
        view: &View,
    ) -> Result<Instances, OutOfMemory>
        requires sound { IsSound view.now }
        requires topic { slice_get view.now.topics at ≡ Some topic.now }
        ensures last { IfOk result (λ i. i.last ≡ view.now.last) }
        ensures stands { IfOk result (λ i. Stands i (Begin (part view.now at))) }
    {
        let lines = view.instances.as_slice();
        let list = cells_of(alloc, at, lines)?;
        let cells = Cells::of_list(alloc, &list)?;
        let registered = registered_of(alloc, at, lines)?;
        let changes = changes_of(alloc, topic.depth, at, lines, view.kept.as_slice())?;
        let longest = topic.delay as u64 * 4_294_967_296;
        Ok(Instances {
            topic: topic.copy(),
            last: view.last,
            due: due_of(longest, &cells, changes.places()),
            cells,
            registered,
            changes,
        })
    }

    /// The moment up to which events took effect, in ticks of 2^-32 s.
    pub fn last(&self) -> Ticks
        ensures { result ≡ self.now.last }
    {
        self.last
    }

    /// Makes places for so many changes more. On want of memory what is kept is as it was. Where there is room for
    /// them there is no want of memory.
    pub fn reserve(&mut self, more: usize) -> Result<(), OutOfMemory>
        ensures room { OnOk result (more ≤ self.new.room) }
        ensures enough { more ≤ self.old.room → result ≡ Ok tt }
        ensures stays { self.old.room ≤ self.new.room }
        ensures rest { self.new ≡ record self.old { room = self.new.room } }
    {
        self.cells.reserve(more)?;
        match self.registered.reserve(more) {
            Ok(()) => {}
            Err(_) => return Err(OutOfMemory),
        }
        self.changes.reserve(more)
    }

    /// Forgets what is expired or purged at the moment: nothing, where the moment is before the first at which anything is.
    pub fn sweep(&mut self, moment: Ticks)
        requires { self.old.last ≤ moment }
        ensures stands { (p : Past) → Stands self.old p → Stands self.new p }
        ensures trimmed { NoneIsOver moment self.new.kept }
        ensures awake { (k : KeyOctets) → is_long (row_at self.new.rows k).quiet (self.new.settings.delay * 2 ^ 32) moment ≡ false }
        ensures settings { self.new.settings ≡ self.old.settings }
        ensures last { self.new.last ≡ moment }
        ensures room { self.old.room ≤ self.new.room }
    {
        if is_before(moment, self.due) {
            self.last = moment;
            return;
        }
        let longest = self.topic.delay as u64 * 4_294_967_296;
        self.changes
            .sweep(&Sorted::of(&self.cells), longest, moment);
        self.cells.sweep(longest, moment);
        self.due = due_of(longest, &self.cells, self.changes.places());
        self.last = moment;
    }

    /// A change of the writer at a place of the view, from 0, takes effect.
    pub fn apply(
        &mut self,
        moment: Ticks,
        writer: u32,
        number: Number,
        guid: Guid,
        arrived: Ticks,
        sample: Sample,
    )
        requires room { 0 < self.old.room }
        requires late { self.old.last ≤ moment }
        requires change { is_change sample.act ≡ true }
        ensures stands { (p : Past) → Stands self.old p → Stands self.new (p ▹ Effect moment writer guid number arrived sample) }
        ensures settings { self.new.settings ≡ self.old.settings }
        ensures last { self.new.last ≡ moment }
        ensures room { self.old.room ≤ self.new.room + 1 }
    {
        self.sweep(moment);
        let due = due_by(&sample, self.due);
        let key = sample.key;
        let act = sample.act;
        let depth = self.topic.depth;
        enroll(&mut self.registered, act, Registered { key, by: writer });
        let disposed = disposes(act);
        let quiet = quiet_from(disposed, &self.registered, key, moment);
        let longest = self.topic.delay as u64 * 4_294_967_296;
        let due = due_with(longest, &quiet, due);
        let count = count_after(depth, self.cells.count_of(key));
        let cell = Cell {
            key,
            disposed,
            quiet,
            count,
        };
        self.cells.put(cell);
        let change = Change {
            at: count,
            writer: guid,
            number,
            arrived: Some(arrived),
            sample,
        };
        self.changes.add(change, depth, count);
        self.due = due;
    }

    /// An unregister of the writer at a place of the view, from 0, takes effect.
    pub fn unregister(&mut self, moment: Ticks, writer: u32, key: Key)
        requires { self.old.last ≤ moment }
        ensures stands { (p : Past) (w : Octets) (n a : ℕ) (s : Told) → s.act ≡ Unregisters → s.key ≡ key → Stands self.old p → Stands self.new (p ▹ Effect moment writer w n a s) }
        ensures settings { self.new.settings ≡ self.old.settings }
        ensures last { self.new.last ≡ moment }
        ensures room { self.old.room ≤ self.new.room }
    {
        self.sweep(moment);
        leave(&mut self.registered, &Registered { key, by: writer });
        let quiet = self.cells.settle_one(&self.registered, key, moment);
        let longest = self.topic.delay as u64 * 4_294_967_296;
        self.due = due_with(longest, &quiet, self.due);
    }

    /// A marker takes effect: it speaks of no instance, so what is kept stays as it is.
    pub fn marker(&mut self, moment: Ticks)
        requires { self.old.last ≤ moment }
        ensures stands { (p : Past) (by : ℕ) (w : Octets) (n a : ℕ) (s : Told) → s.act ≡ Marks
            → Stands self.old p → Stands self.new (p ▹ Effect moment by w n a s) }
        ensures settings { self.new.settings ≡ self.old.settings }
        ensures last { self.new.last ≡ moment }
        ensures room { self.old.room ≤ self.new.room }
    {
        self.sweep(moment);
        self.last = moment;
    }

    /// The writer at a place of the view, from 0, is lost.
    pub fn lost(&mut self, moment: Ticks, writer: u32)
        requires { self.old.last ≤ moment }
        ensures stands { (p : Past) → Stands self.old p → Stands self.new (p ▹ Gone moment writer) }
        ensures settings { self.new.settings ≡ self.old.settings }
        ensures last { self.new.last ≡ moment }
        ensures room { self.old.room ≤ self.new.room }
    {
        self.sweep(moment);
        leave_all(&mut self.registered, writer);
        self.cells.settle(&self.registered, moment);
        let longest = self.topic.delay as u64 * 4_294_967_296;
        self.due = due_with(longest, &Some(moment), self.due);
    }

    /// The first limit of the topic that is passed when these samples take effect at the moment, if any. Nothing is forgotten.
    pub fn would(&self, changes: &[Sample], moment: Ticks) -> Option<Limit>
        requires { self.now.last ≤ moment }
        ensures { (p : Past) (es : List TopicEvent) → Stands self.now p → TakeEffect moment changes.now es → result ≡ passed (settings p) (existing (p ▹▹ es) moment) (entitled (p ▹▹ es) moment) 0 }
    {
        would_over(
            &self.topic,
            &Sorted::of(&self.cells),
            self.changes.places(),
            moment,
            changes,
        )
    }

    /// The entitled changes at a moment, in the order of effect, as they are sent.
    pub fn entitled(&self, alloc: Global, moment: Ticks) -> Result<Snapshot, OutOfMemory>
        requires { self.now.last ≤ moment }
        ensures { IfOk result (λ s. (p : Past) → Stands self.now p → s.changes ≡ snap p moment) }
    {
        let longest = self.topic.delay as u64 * 4_294_967_296;
        let cells = Sorted::of(&self.cells);
        let changes = entitled_over(alloc, self.changes.places(), &cells, longest, moment)?;
        Ok(Snapshot { changes })
    }

    /// What a view says at a moment of the instances of the topic at a place of it, by key.
    pub fn instances(
        &self,
        alloc: Global,
        at: u32,
        moment: Ticks,
    ) -> Result<List<Instance>, OutOfMemory>
        requires { self.now.last ≤ moment }
        ensures { IfOk result (λ l. (p : Past) → Stands self.now p → l ≡ lines_at at p moment) }
    {
        let longest = self.topic.delay as u64 * 4_294_967_296;
        let depth = self.topic.depth;
        let list = self.cells.listed(alloc)?;
        let lines = lines_over(
            alloc,
            at,
            depth,
            &Listed::of(&self.cells, &list),
            &self.registered,
            self.changes.places(),
            longest,
            moment,
        )?;
        Ok(lines)
    }

    /// What a view says at a moment of the kept changes, in the order of effect. Their instances are counted from 0.
    pub fn kept(&self, alloc: Global, moment: Ticks) -> Result<List<Kept>, OutOfMemory>
        requires { self.now.last ≤ moment }
        ensures { IfOk result (λ l. (p : Past) (topic : ℕ) → Stands self.now p → l ≡ kept_of 0 topic p moment) }
    {
        let longest = self.topic.delay as u64 * 4_294_967_296;
        let depth = self.topic.depth;
        let list = self.cells.listed(alloc)?;
        let kept = kept_over(
            alloc,
            depth,
            &Listed::of(&self.cells, &list),
            self.changes.places(),
            longest,
            moment,
        )?;
        Ok(kept)
    }
}

fn disposes(act: Act) -> bool
    ensures { result ≡ disposes act }
{
    matches!(act, Act::Dispose | Act::DisposeUnregister)
}

// When an instance becomes quiet at the moment, if it does.
fn quiet_from(disposed: bool, list: &[Registered], key: Key, moment: Ticks) -> Option<Ticks>
    requires { InOrder list.now }
    ensures { result ≡ (if disposed && is_nobody (places list.now key) then Some moment else None) }
{
    if disposed && is_nobody(list, key) {
        Some(moment)
    } else {
        None
    }
}

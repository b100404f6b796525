//! What waits to be handed out to be stored, and what waits to be marked as durable.

ghost use Rattle.std.specs.Prelude.{◌≡◌, ℕ, ◌+◌, ◌<◌, ◌≤◌, ◌%◌, ◌^◌, List, [], ◌∷◌, ◌++◌, length, take, drop, nat_lt, Some, OnOk, OnErr, IfOk, vec_len, vec_capacity};
ghost use Rattle.std.specs.VecDeque.{deque_len, deque_capacity};
ghost use Rattle.dur_base.specs.declared.entry.Entry.{Entry};
ghost use Rattle.dur_view.specs.History.{HasShortNumber};
ghost use Rattle.dur_hub.specs.Marks.{IsAt};
ghost use Rattle.dur_hub.specs.Queues.{passed_by, joined, Lined, Queued, HasRoom, SameMarks, FirstTaken, TakenAll};

use dur_base::{Entry, Guid, List, Number, OutOfMemory};
use dur_view::Batch;
use std::alloc::Global;
use std::collections::VecDeque;
use std::mem;

/// How many entries a batch has at most.
const BATCH: usize = 4096;

/// What an entry makes durable: its writer's numbers before this one. None: it has no number.
#[derive(Clone, Copy, Drop)]
pub struct Passed {
    pub writer: Guid,
    pub next: Option<Number>,
}

/// The entries of persistent topics that were not handed out yet, in lists of 4096 and a last one, so that handing out a batch
/// takes no memory; and what those that are not marked yet will make durable.
#[derive(Drop)]
pub struct Queue {
    pub full: VecDeque<List<Entry>>,
    pub last: Vec<Entry>,
    pub unmarked: VecDeque<Passed>,
    /// How many entries were handed out, modulo 2^64.
    pub taken: u64,
    /// How many are durable, modulo 2^64.
    pub durable: u64,
}

/// What an entry makes durable.
pub fn passed_by(entry: &Entry) -> Passed
    requires { HasShortNumber entry.now }
    ensures { result ≡ passed_by entry.now }
{
    match entry {
        Entry::Took { writer, number, .. } => Passed {
            writer: *writer,
            next: Some(number.next()),
        },
        Entry::Skip { writer, to, .. } => Passed {
            writer: *writer,
            next: Some(to.next()),
        },
        Entry::Lost { writer, .. } => Passed {
            writer: *writer,
            next: None,
        },
    }
}

// Adds copies of entries at the end of a list.
fn copy_into(entries: &mut Vec<Entry>, list: &[Entry]) -> Result<(), OutOfMemory>
    ensures { OnOk result (entries.new.items ≡ entries.old.items ++ list.now) }
{
    for entry in list {
        let copy = entry.copy()?;
        entries.push(copy)?;
    }
    Ok(())
}

// Adds copies of the entries of lists at the end of a list.
fn copy_lists(entries: &mut Vec<Entry>, lists: &[List<Entry>]) -> Result<(), OutOfMemory>
    ensures { OnOk result (entries.new.items ≡ entries.old.items ++ joined lists.now) }
{
    for list in lists {
        copy_into(entries, list.as_slice())?;
    }
    Ok(())
}

impl Queue {
    /// The queue of no entries.
    pub fn new(alloc: Global) -> Queue
        ensures { Queued result 0 0 [] }
    {
        Queue {
            full: VecDeque::new(alloc),
            last: Vec::new(alloc),
            unmarked: VecDeque::new(alloc),
            taken: 0,
            durable: 0,
        }
    }

    /// The memory that it takes its room from.
    pub fn alloc(&self) -> Global {
        *self.last.allocator()
    }

    /// Makes room for one entry more.
    pub fn reserve(&mut self) -> Result<(), OutOfMemory>
        ensures same { (self.new.full.items ≡ self.old.full.items)
            × (self.new.last.items ≡ self.old.last.items) × SameMarks self.old self.new }
        ensures room { OnOk result (HasRoom self.new) }
    {
        self.last.reserve(1)?;
        self.full.reserve(1)?;
        self.unmarked.reserve(1)?;
        Ok(())
    }

    /// Moves the last list to the full ones once it is full.
    fn close_last(&mut self)
        requires { deque_len self.old.full < deque_capacity self.old.full }
        ensures { (t d : ℕ) (es : List Entry) → length self.old.last.items ≤ 4096
            → Lined self.old t d es → Queued self.new t d es }
    {
        if self.last.len() < BATCH {
            return;
        }
        let next = Vec::new(*self.last.allocator());
        let whole = mem::replace(&mut self.last, next);
        match self.full.push_back(List::of(whole)) {
            Ok(()) => {}
            Err(_) => unreachable!(),
        }
    }

    /// Adds an entry, for which there is room.
    pub fn push(&mut self, entry: Entry)
        requires room { HasRoom self.old }
        requires short { HasShortNumber entry }
        ensures { (t d : ℕ) (es : List Entry) → Queued self.old t d es
            → Queued self.new t d (es ++ entry ∷ []) }
    {
        let passed = passed_by(&entry);
        match self.unmarked.push_back(passed) {
            Ok(()) => {}
            Err(_) => unreachable!(),
        }
        match self.last.push(entry) {
            Ok(()) => {}
            Err(_) => unreachable!(),
        }
        self.close_last();
    }

    /// Whether `take` would hand out an entry.
    pub fn has_pending(&self) -> bool
        ensures { (t d : ℕ) (es : List Entry) → Queued self.now t d es
            → result ≡ nat_lt t (length es) }
    {
        self.full.len() > 0 || self.last.len() > 0
    }

    // Takes the first list out.
    fn first(&mut self) -> List<Entry>
        ensures first { (t d : ℕ) (es : List Entry) → Queued self.old t d es
            → FirstTaken self.old self.new result t es }
        ensures same { SameMarks self.old self.new }
    {
        match self.full.pop_front() {
            Some(list) => list,
            None => {
                let next = Vec::new(*self.last.allocator());
                List::of(mem::replace(&mut self.last, next))
            }
        }
    }

    /// Hands out the first 4096 entries that were not handed out, or all where they are fewer.
    pub fn take(&mut self) -> Batch
        ensures from { (t d : ℕ) (es : List Entry) → Queued self.old t d es
            → result.from ≡ t % 2 ^ 64 }
        ensures entries { (t d : ℕ) (es : List Entry) → Queued self.old t d es
            → result.entries ≡ take 4096 (drop t es) }
        ensures after { (t d : ℕ) (es : List Entry) → Queued self.old t d es
            → Queued self.new (t + length result.entries) d es }
    {
        let from = self.taken;
        let entries = self.first();
        self.taken = self.taken.wrapping_add(entries.len() as u64);
        Batch { from, entries }
    }

    // Copies of all entries that were not handed out, which share their payloads.
    fn pending(&self, alloc: Global) -> Result<Vec<Entry>, OutOfMemory>
        ensures { IfOk result (λ v. v.items ≡ joined self.now.full.items ++ self.now.last.items) }
    {
        let mut entries = Vec::new(alloc);
        let (front, back) = self.full.as_slices();
        copy_lists(&mut entries, front)?;
        copy_lists(&mut entries, back)?;
        copy_into(&mut entries, self.last.as_slice())?;
        Ok(entries)
    }

    // The lists without the entries that were not handed out.
    fn clear(&mut self)
        ensures pending { (self.new.full.items ≡ []) × (self.new.last.items ≡ []) }
        ensures same { SameMarks self.old self.new }
    {
        self.full.clear();
        self.last.clear();
    }

    /// Hands out all entries that were not handed out. On want of memory none is.
    pub fn take_all(&mut self, alloc: Global) -> Result<Batch, OutOfMemory>
        ensures ok { IfOk result (λ b. (t d : ℕ) (es : List Entry) → Queued self.old t d es → TakenAll self.old self.new b t d es) }
        ensures err { OnErr result (self.new ≡ self.old) }
    {
        let entries = self.pending(alloc)?;
        let from = self.taken;
        self.clear();
        self.taken = self.taken.wrapping_add(entries.len() as u64);
        Ok(Batch {
            from,
            entries: List::of(entries),
        })
    }

    /// Notes that one more entry is durable, and says what it makes so.
    pub fn pop(&mut self) -> Option<Passed>
        ensures { (t d : ℕ) (es : List Entry) → Queued self.old t d es → d < t
            → (e : Entry) × IsAt es d e × (result ≡ Some (passed_by e))
            × Queued self.new t (d + 1) es }
    {
        self.durable = self.durable.wrapping_add(1);
        self.unmarked.pop_front()
    }
}

//! The store, and what of it waits to be handed out.

ghost use Rattle.std.specs.Prelude.{◌≡◌, ℕ, List, [], ◌∷◌, ◌++◌, Err, OnOk, OnErr, IfErr};
ghost use Rattle.dur_view.specs.declared.data.View.{View};
ghost use Rattle.dur_store.specs.Keeps.{Keeps};
ghost use Rattle.dur_view.specs.History.{History, Start, ◌▸◌, start, writer_of, HasShortNumber, Follows};
ghost use Rattle.dur_view.specs.declared.limit.Limit.{Limit};
ghost use Rattle.dur_view.specs.Refused.{refused};
ghost use Rattle.dur_store.specs.Refusals.{refusal_for};
ghost use Rattle.dur_view.specs.Stored.{is_stored};
ghost use Rattle.dur_hub.specs.Queues.{LedgerAt};

use crate::queue::Queue;
use dur_base::Entry;
use dur_store::{Refuse, Store};
use dur_view::Limit;
use std::alloc::Global;

/// Why an entry is not admitted.
#[derive(Clone, Copy, Drop)]
pub enum Refused {
    /// It would pass this limit, which is the first one.
    Limit(Limit),
    /// There was no memory.
    OutOfMemory,
}

// What a refusal of the store says.
fn refused_for(refuse: Refuse) -> Refused
    ensures { (limit : Limit) → result ≡ Refused.Limit limit → refuse ≡ refusal_for limit }
{
    match refuse {
        Refuse::Instances => Refused::Limit(Limit::Instances),
        Refuse::PerInstance => Refused::Limit(Limit::PerInstance),
        Refuse::Samples => Refused::Limit(Limit::Samples),
        Refuse::Held => Refused::Limit(Limit::Held),
        Refuse::OutOfMemory => Refused::OutOfMemory,
    }
}

// The store gets room for its next entry, which then needs no memory, and stands for the same history.
fn make_room(store: &mut Store) -> Result<(), Refused>
    ensures keeps { (h : History) → Keeps store.old h → Keeps store.new h }
    ensures memory { IfErr result (λ refused. refused ≡ Refused.OutOfMemory) }
{
    match store.reserve() {
        Ok(()) => Ok(()),
        Err(_) => Err(Refused::OutOfMemory),
    }
}

/// The store of all topics, and the queue of the entries of persistent ones.
#[derive(Drop)]
pub struct Ledger {
    pub store: Store,
    pub queue: Queue,
    /// How many entries were admitted, modulo 2^64.
    pub entries: u64,
}

impl Ledger {
    /// A store that stands for its start, with nothing to be handed out.
    pub fn new(alloc: Global, store: Store) -> Ledger
        ensures { (v : View) → Keeps store (Start v) → LedgerAt result (Start v) 0 0 }
    {
        Ledger {
            store,
            queue: Queue::new(alloc),
            entries: 0,
        }
    }

    /// Admits an entry, or answers the first limit that it would pass. `stored` says whether its topic is persistent.
    pub fn admit(&mut self, entry: Entry, stored: bool) -> Result<(), Refused>
        requires { HasShortNumber entry }
        ensures ok { OnOk result ((h : History) (t d : ℕ) → LedgerAt self.old h t d
            → stored ≡ is_stored (start h) (writer_of entry) → Follows h entry
            → LedgerAt self.new (h ▸ entry) t d × (refused h entry ≡ None)) }
        ensures err { OnErr result ((h : History) (t d : ℕ) → LedgerAt self.old h t d
            → LedgerAt self.new h t d) }
        ensures limit { (limit : Limit) → result ≡ Err (Refused.Limit limit)
            → (h : History) (t d : ℕ) → LedgerAt self.old h t d → Follows h entry
            → refused h entry ≡ Some limit }
    {
        make_room(&mut self.store)?;
        if !stored {
            return match self.store.admit(entry) {
                Ok(()) => {
                    self.entries = self.entries.wrapping_add(1);
                    Ok(())
                }
                Err((refuse, _entry)) => Err(refused_for(refuse)),
            };
        }
        let copy = match entry.copy() {
            Ok(copy) => copy,
            Err(_) => return Err(Refused::OutOfMemory),
        };
        match self.queue.reserve() {
            Ok(()) => {}
            Err(_) => return Err(Refused::OutOfMemory),
        }
        match self.store.admit(entry) {
            Ok(()) => {
                self.queue.push(copy);
                self.entries = self.entries.wrapping_add(1);
                Ok(())
            }
            Err((refuse, _entry)) => Err(refused_for(refuse)),
        }
    }
}

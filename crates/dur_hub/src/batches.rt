//! What a hub hands out to be stored, and what of it is durable.

ghost use Rattle.std.specs.Prelude.{◌≡◌, ℕ, List, [], ◌∷◌, ◌++◌};
ghost use Rattle.dur_hub.specs.declared.event.Event.{Event};
ghost use Rattle.dur_hub.specs.declared.event.Event.TheVariants.{Take, TakeView, Mark};
ghost use Rattle.dur_hub.specs.Runs.{Run};
ghost use Rattle.dur_hub.specs.Legal.{LegalAt, run_after};
ghost use Rattle.dur_hub.specs.Hubs.{Stands, StandsForSome, Adds};

use crate::hub::Hub;
use crate::marking::pass_all;
use dur_base::OutOfMemory;
use dur_view::{Batch, View};
use std::alloc::Global;

impl Hub {
    /// Hands out the first 4096 entries of persistent topics that were not handed out, or all where they are fewer. It
    /// takes no memory.
    pub fn take(&mut self) -> Batch
        ensures { Adds self.old (Take result) self.new }
    {
        self.ledger.queue.take()
    }

    /// Hands out all entries of persistent topics that were not handed out, and adds the view of the persistent part after
    /// them, at the last moment. On want of memory nothing is handed out. Condition: the hub stands for some list of calls,
    /// as each does that `new` made.
    pub fn take_view(&mut self, alloc: Global) -> Result<(Batch, View), OutOfMemory>
        requires { StandsForSome self.old }
        ensures { Adds self.old (TakeView result) self.new }
    {
        let view = match self.ledger.store.view(alloc, self.moment) {
            Ok(view) => view,
            Err(e) => return Err(e),
        };
        match self.ledger.queue.take_all(alloc) {
            Ok(batch) => Ok((batch, view)),
            Err(e) => Err(e),
        }
    }

    /// Notes that all entries up to this count, modulo 2^64, are durable. Condition: it is one from that of the last
    /// `mark`, or 0, to that of the entries handed out. It takes no memory.
    pub fn mark(&mut self, upto: u64)
        ensures { (start : Run) (log : List Event) → Stands start log self.old
            → LegalAt (run_after start log) (Mark upto)
            → Stands start (log ++ Mark upto ∷ []) self.new }
    {
        let count = upto.wrapping_sub(self.ledger.queue.durable);
        pass_all(&mut self.ledger.queue, &mut self.lines, &self.index, count);
    }
}

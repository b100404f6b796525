//! The plan that a directory teaches.

ghost use Rattle.std.specs.Prelude.{◌≡◌, ◌<◌, ◌⊎◌, ◌↔◌, IsTrue, length, IfOk, IfErr};
ghost use Rattle.rtps_discovery.specs.Hearing.{IsLearntBy, WouldPass};

use crate::directory::Directory;
use crate::fault::LearnFault;
use dur_base::{List, Ticks};
use dur_qos::{Plan, ReaderLine, WriterLine};
use std::alloc::Global;

/// The most writers of a plan.
const MOST_WRITERS: usize = 4_096;

/// The most readers of a plan.
const MOST_READERS: usize = 1_024;

/// Whether these are too many for a plan.
fn passes_limit(writers: &List<WriterLine>, readers: &List<ReaderLine>) -> bool
    ensures { IsTrue result ↔ ((4096 < length writers.now) ⊎ (1024 < length readers.now)) }
{
    writers.len() > MOST_WRITERS || readers.len() > MOST_READERS
}

impl Directory {
    /// The plan that follows at this moment from all that was heard (DDSI-RTPS 8.5): the plan, and a line for each
    /// writer and reader that is alive and that no line of its kind names, by rising GUID. A writer has a line where it
    /// offers at least the kind of its topic, with the lease of its participant. `TooMany` comes exactly where that
    /// plan passes a limit of a plan.
    pub fn learn(&self, alloc: Global, plan: &Plan, moment: Ticks) -> Result<Plan, LearnFault>
        ensures ok { IfOk result (IsLearntBy plan.now self.now moment) }
        ensures too_many { IfErr result (λ e. e ≡ LearnFault.TooMany → WouldPass plan.now self.now moment) }
    {
        let writers = self.writers(alloc, plan, moment)?;
        let readers = self.readers(alloc, plan, moment)?;
        if passes_limit(&writers, &readers) {
            return Err(LearnFault::TooMany);
        }
        let copy = plan.copy()?;
        Ok(Plan {
            prefix: plan.prefix,
            topics: copy.topics,
            writers,
            readers,
        })
    }
}

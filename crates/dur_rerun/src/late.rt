//! The command `late`.

ghost use Rattle.std.specs.Prelude.{◌≡◌, ℕ, List, IfSome};
ghost use Rattle.dur_outside.specs.Causes.{HasCause};
ghost use Rattle.rel_writer.specs.LateReaders.{Late, fresh};
ghost use Rattle.rel_writer.specs.Standing.{Stands};
ghost use Rattle.dur_rerun.specs.Command.{Keeps};
ghost use Rattle.dur_rerun.specs.Late.Answer.{TakesTurns, PrintsTaken, IsCaused, IsComplete};
ghost use Rattle.dur_rerun.specs.Late.Steps.{Finishes, ended_as};

mod laws;
mod line;
mod status;
#[cfg(test)]
mod tests;
mod turns;

use crate::output::say;
use dur_base::{EntityId, Guid};
use dur_outside::{Failed, Link, Sink};
pub use laws::{turns_end, turns_go_one_way};
use line::text_of;
use rel_writer::LateReader;
pub use status::LateStatus;
use std::alloc::Global;
use turns::take_turns;

/// What became of a run whose lines were said, or not all of them.
fn ended(done: bool, said: Result<(), Failed>) -> LateStatus
    ensures { result ≡ ended_as done said }
{
    match (done, said) {
        (false, _) => LateStatus::Unfinished,
        (true, Ok(())) => LateStatus::Done,
        (true, Err(Failed)) => LateStatus::WriteFault,
    }
}

/// Prints the lines of what the late reader took, and says what became of the run.
#[tactic(auto, using(crate::proofs::LateRuns::finishes_so, crate::proofs::LateRuns::prints_so, crate::proofs::LateRuns::prints_none, crate::proofs::Commands::keeps_said, crate::proofs::Commands::keeps_same))]
fn finish<K: Sink>(alloc: Global, late: &LateReader, out: &mut K) -> LateStatus
    ensures finishes { (l : Late) → Stands late.now l → Finishes l result (K.sink_faults out.old) (K.sink_faults out.new) }
    ensures prints { (l : Late) → Stands late.now l → PrintsTaken l result K.tells
        (K.world out.old).now (K.world out.new).now (K.sink_faults out.old) (K.sink_faults out.new) }
    ensures keeps { Keeps K.tells (K.world out.old).now (K.world out.new).now (K.disk_faults out.old) (K.disk_faults out.new) }
{
    match text_of(alloc, late.taken()) {
        Ok(text) => {
            let said = say(out, &text);
            ended(late.done(), said)
        }
        Err(_) => LateStatus::OutOfMemory,
    }
}

/// The command `late`: a late reader with this GUID takes the replay of the service whose prefixes begin with these
/// octets, from the writer with this id (DDSI-RTPS 8.4.12). It takes at most so many turns, and prints a line for each
/// change that it took.
///
/// In a turn it receives once. It sends one ACKNACK where nothing was waiting, where the datagram asks for one, or where
/// it became done; and then that turn is the last one. Where all turns are taken and it is not done, the run is
/// `Unfinished`, and the lines are written all the same. `LinkFault` comes only where the link's count of faults rose,
/// `WriteFault` only where the output's did and the late reader is done, and want of memory ends the run where it comes.
#[tactic(auto, using(crate::proofs::LateRuns::caused_all, crate::proofs::LateRuns::caused_some, crate::proofs::LateRuns::caused_none, crate::proofs::Commands::keeps_same))]
pub fn late<L: Link, K: Sink>(
    alloc: Global,
    reader: Guid,
    service: [u8; 8],
    writer: EntityId,
    turns: u32,
    link: &mut L,
    out: &mut K,
) -> LateStatus
    ensures takes { (l : Late) × TakesTurns (fresh reader service writer) turns result L.tells
        (L.heard link.old) (L.heard link.new) (L.sent link.old) (L.sent link.new) l
        × PrintsTaken l result K.tells (K.world out.old).now (K.world out.new).now
        (K.sink_faults out.old) (K.sink_faults out.new) }
    ensures cause { IsCaused result (L.link_faults link.old) (L.link_faults link.new)
        (K.sink_faults out.old) (K.sink_faults out.new) }
    ensures complete { L.tells → IsComplete (fresh reader service writer) result (L.heard link.old) (L.heard link.new)
        (L.link_faults link.old) (L.link_faults link.new) (K.sink_faults out.old) (K.sink_faults out.new) }
    ensures keeps { Keeps K.tells (K.world out.old).now (K.world out.new).now (K.disk_faults out.old) (K.disk_faults out.new) }
{
    match LateReader::new(alloc, reader, service, writer) {
        Ok(late) => {
            let mut late = late;
            match take_turns(&mut late, turns, link) {
                Ok(()) => finish(alloc, &late, out),
                Err(status) => status,
            }
        }
        Err(_) => LateStatus::OutOfMemory,
    }
}

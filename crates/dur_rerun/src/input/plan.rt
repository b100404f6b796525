//! Reading the plan in front of a capture.

ghost use Rattle.std.specs.Prelude.{◌≡◌, ◌≤◌, ◌^◌, ◌+◌, ℕ, List, length, drop, Some, None, true, IfOk, OnOk, IfErr, IfSome};
ghost use Rattle.std.specs.Io.KnownBytes.{Consumes};
ghost use Rattle.dur_outside.specs.Causes.{Rose};
ghost use Rattle.dur_rerun.specs.Input.Breaks.{EndsPlan, StopsPlan};
ghost use Rattle.dur_rerun.specs.Input.Plan.{begun, Opens, EndsReading};

use crate::Status;
use crate::input::records::read_some;
use dur_capture::Feed;
use dur_outside::Source;
use dur_qos::{Plan, PlanReader};
use std::alloc::Global;

/// The octets of input that count, but for the last piece: no plan has so many.
const MOST: u64 = 0x100_0000_0000 - 4096;

/// A plan, and what came behind it.
#[derive(Drop)]
pub struct Opened {
    /// The plan.
    pub plan: Plan,
    /// The octets that came behind it.
    pub feed: Feed,
}

/// What a reading of a plan ends with, of which so many octets of the last piece were taken.
fn begin(
    alloc: Global,
    reader: PlanReader,
    before: u64,
    piece: &[u8],
    taken: usize,
) -> Result<Opened, Status>
    requires within { taken ≤ length piece.now }
    requires small { before + taken ≤ 2 ^ 40 }
    ensures ok { IfOk result (λ o. (reader.plan ≡ Some o.plan) × (o.feed ≡ begun (before + taken) (drop taken piece.now))) }
    ensures ended { OnOk result ((reader.fault ≡ None) × (reader.ended ≡ true)) }
    ensures err { IfErr result (λ s. EndsReading reader s) }
{
    let plan = reader.finish()?;
    let mut feed = Feed::new(alloc, before + taken as u64);
    feed.push(piece.split_at(taken).1)?;
    Ok(Opened { plan, feed })
}

/// Reads the plan in front of a capture. What was read behind the plan is left in its feed.
pub fn open_plan<S: Source>(alloc: Global, input: &mut S) -> Result<Opened, Status>
    ensures opens { IfOk result (λ o. (seen : List ℕ) × Consumes (S.left input.old) (S.left input.new) seen × Opens seen o) }
    ensures ends { IfErr result (λ s. EndsPlan s) }
    ensures stops { IfErr result (λ s. IfSome (S.left input.old) (λ bytes. StopsPlan bytes s)) }
    ensures read { IfErr result (λ s. s ≡ Status.ReadFault → Rose (S.faults input.old) (S.faults input.new)) }
    ensures later { S.faults input.old ≤ S.faults input.new }
{
    let mut reader = PlanReader::new(alloc);
    let mut before = 0;
    let mut piece = [0; 4096];
    'pieces: while before <= MOST {
        let count = read_some(input, &mut piece)?;
        if count == 0 {
            return begin(alloc, reader, before, b"", 0);
        }
        let taken = reader.push(&piece[..count])?;
        if taken < count {
            // The reading has ended: only memory can be short.
            return match begin(alloc, reader, before, &piece[..count], taken) {
                Ok(opened) => Ok(opened),
                Err(_) => Err(Status::OutOfMemory),
            };
        }
        before += count as u64;
    }
    Err(Status::OutOfMemory)
}

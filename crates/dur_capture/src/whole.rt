//! A capture as a whole.

ghost use Rattle.std.specs.Prelude.{◌≡◌, ◌++◌, ◌≤◌, ◌^◌, ◌⊎◌, [], List as Sequence, ℕ, false, true, IfOk, IfErr, OnOk, OnErr};
ghost use Rattle.std.specs.List.{flat_map};
ghost use Rattle.dur_capture.specs.declared.fault.CapFault.{CapFault};
ghost use Rattle.dur_capture.specs.Feeding.{Waits};
ghost use Rattle.dur_capture.specs.Whole.{Feeds, CaptureWithin, BreaksAt, IsFault};

use crate::{CapFault, Feed, Record};
use dur_base::List;
use std::alloc::Global;

// Takes what records are whole.
fn take_all(feed: &mut Feed, ended: bool, records: &mut List<Record>) -> Result<(), CapFault>
    ensures fed { (before : ℕ) (octets : Sequence ℕ) → Feeds before octets records.old feed.old → OnOk result (Feeds before octets records.new feed.new) }
    ensures waits { OnOk result (Waits feed.new ended) }
    ensures fault { (before : ℕ) (octets : Sequence ℕ) → Feeds before octets records.old feed.old → IfErr result (λ e. IsFault before octets ended e) }
{
    loop {
        match feed.next(ended) {
            Ok(Some(record)) => match records.push(record) {
                Ok(()) => {}
                Err(_) => return Err(CapFault::OutOfMemory),
            },
            Ok(None) => return Ok(()),
            Err(fault) => return Err(fault),
        }
    }
}

// Takes the next octets, and what records are whole.
fn take_piece(feed: &mut Feed, piece: &[u8], records: &mut List<Record>) -> Result<(), CapFault>
    ensures fed { (before : ℕ) (octets : Sequence ℕ) → Feeds before octets records.old feed.old → OnOk result (Feeds before (octets ++ piece.now) records.new feed.new) }
    ensures fault { (before : ℕ) (octets : Sequence ℕ) → Feeds before octets records.old feed.old → IfErr result (λ e. IsFault before (octets ++ piece.now) false e) }
{
    feed.push(piece)?;
    take_all(feed, false, records)
}

/// The records of a capture that comes in these pieces, after so many octets of input.
pub fn read_capture(
    alloc: Global,
    before: u64,
    pieces: &[Vec<u8>],
) -> Result<List<Record>, CapFault>
    requires { before ≤ 2 ^ 40 }
    // What is read is the capture.
    ensures records { IfOk result (λ rs. CaptureWithin before (flat_map (λ p. p.items) pieces.now) rs) }
    // No other records spell it, however it was cut into pieces.
    ensures only { IfOk result (λ rs. (others : Sequence Record) → CaptureWithin before (flat_map (λ p. p.items) pieces.now) others → rs ≡ others) }
    // A capture is read, unless memory runs out.
    ensures read { (records : Sequence Record) → CaptureWithin before (flat_map (λ p. p.items) pieces.now) records → IfErr result (λ e. e ≡ CapFault.OutOfMemory) }
    // A capture that breaks off is not read, and its one first break is told, unless memory runs out.
    ensures broken { IfOk result (λ rs. (fault : CapFault) → BreaksAt before (flat_map (λ p. p.items) pieces.now) true fault → ⊥) }
    ensures told { (fault : CapFault) → BreaksAt before (flat_map (λ p. p.items) pieces.now) true fault → IfErr result (λ e. (e ≡ fault) ⊎ (e ≡ CapFault.OutOfMemory)) }
    // Each fault that is told is a break.
    ensures fault { IfErr result (λ e. IsFault before (flat_map (λ p. p.items) pieces.now) true e) }
{
    let mut feed = Feed::new(alloc, before);
    let mut records = List::new(alloc);
    let mut rest = pieces;
    while let [piece, later @ ..] = rest {
        match take_piece(&mut feed, piece.as_slice(), &mut records) {
            Ok(()) => {}
            Err(fault) => return Err(fault),
        }
        rest = later;
    }
    match take_all(&mut feed, true, &mut records) {
        Ok(()) => Ok(records),
        Err(fault) => Err(fault),
    }
}

//! The records of a capture, read from a source as they are asked for.

ghost use Rattle.std.specs.Prelude.{◌≡◌, ◌<◌, ◌≤◌, length, IfOk, IfErr, IfSome, IfNone};
ghost use Rattle.std.specs.Io.{ReadsAtMost};
ghost use Rattle.std.specs.Io.KnownBytes.{ReadConsumes};
ghost use Rattle.dur_outside.specs.Causes.{HasCause, Rose};
ghost use Rattle.dur_rerun.specs.Input.Breaks.{EndsRecords, EndsRefill};
ghost use Rattle.dur_rerun.specs.Input.Records.{Refills, HandsOut, Ends, StopsRecords};

use crate::Status;
use dur_capture::{Feed, Record};
use dur_outside::{Failed, Source};

/// Reads some octets to the front of `into`, as a source does; a failure is `ReadFault`.
pub fn read_some<S: Source>(input: &mut S, into: &mut [u8]) -> Result<usize, Status>
    requires { 0 < length into.old }
    ensures bound { ReadsAtMost result into.new }
    ensures bytes { ReadConsumes (S.left input.old) (S.left input.new) result into.new }
    ensures fault { IfErr result (λ s. s ≡ Status.ReadFault) }
    ensures cause { HasCause (S.faults input.old) (S.faults input.new) result }
{
    match input.read(into) {
        Ok(count) => Ok(count),
        Err(Failed) => Err(Status::ReadFault),
    }
}

/// Gives the feed the next piece of the source, or answers false at its end.
pub fn refill<S: Source>(feed: &mut Feed, input: &mut S) -> Result<bool, Status>
    ensures refills { IfOk result (λ more. Refills (S.left input.old) (S.left input.new) feed.old feed.new more) }
    ensures ends { IfErr result (λ s. EndsRefill s) }
    ensures read { IfErr result (λ s. s ≡ Status.ReadFault → Rose (S.faults input.old) (S.faults input.new)) }
    ensures later { S.faults input.old ≤ S.faults input.new }
{
    let mut piece = [0; 65_536];
    let count = read_some(input, &mut piece)?;
    feed.push(&piece[..count])?;
    Ok(count > 0)
}

/// The next record of the feed and the source behind it, or None at the end of both. It fails where the
/// source failed, where the capture breaks off, and for want of memory.
pub fn next_record<S: Source>(feed: &mut Feed, input: &mut S) -> Result<Option<Record>, Status>
    ensures some { IfOk result (λ o. IfSome o (λ r. HandsOut (S.left input.old) (S.left input.new) feed.old r feed.new)) }
    ensures none { IfOk result (λ o. IfNone o (Ends (S.left input.old) (S.left input.new) feed.old feed.new)) }
    ensures ends { IfErr result (λ s. EndsRecords s) }
    ensures stops { IfErr result (λ s. StopsRecords (S.left input.old) (S.left input.new) feed.old s) }
    ensures read { IfErr result (λ s. s ≡ Status.ReadFault → Rose (S.faults input.old) (S.faults input.new)) }
    ensures later { S.faults input.old ≤ S.faults input.new }
{
    'pieces: loop {
        match feed.next(false)? {
            Some(datagram) => return Ok(Some(datagram)),
            None => {}
        }
        if !refill(feed, input)? {
            let last = feed.next(true)?;
            return Ok(last);
        }
    }
}

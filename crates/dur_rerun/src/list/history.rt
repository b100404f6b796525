//! What the records of a capture bring to a hub, up to the end of the input.

ghost use Rattle.std.specs.Prelude.{◌≡◌, ◌≤◌, ◌^◌, ◌++◌, None, OnOk, IfErr, IfSome};
ghost use Rattle.std.specs.Io.KnownBytes.{IsAtEnd};
ghost use Rattle.dur_outside.specs.Causes.{Rose};
ghost use Rattle.dur_rerun.specs.Input.Breaks.{EndsRecords, StopsRest};
ghost use Rattle.dur_rerun.specs.List.History.{TakesWhole};

use crate::Status;
use crate::admit::admit;
use crate::input::records::next_record;
use dur_base::Prefix;
use dur_capture::Feed;
use dur_hub::Hub;
use dur_outside::Source;
use std::alloc::Global;

/// Hands each record of the rest of an input to the hub, behind a plan of `before` octets, of which `feed` has what has
/// come. It fails where the capture breaks off, where the source failed, and for want of memory.
pub fn admit_rest<S: Source>(
    alloc: Global,
    hub: &mut Hub,
    own: Prefix,
    feed: Feed,
    input: &mut S,
) -> Result<(), Status>
    requires { (feed.before ≤ 2 ^ 40) × (feed.taken ≡ 0) × (feed.fault ≡ None) }
    ensures takes { OnOk result (IfSome (S.left input.old)
        (λ tail. TakesWhole own feed.before (feed.left ++ tail) hub.old hub.new)) }
    ensures end { OnOk result (IsAtEnd (S.left input.new)) }
    ensures ends { IfErr result (λ s. EndsRecords s) }
    ensures stops { IfErr result (λ s. IfSome (S.left input.old)
        (λ tail. StopsRest feed.before (feed.left ++ tail) s)) }
    ensures read { IfErr result (λ s. s ≡ Status.ReadFault → Rose (S.faults input.old) (S.faults input.new)) }
    ensures later { S.faults input.old ≤ S.faults input.new }
{
    let mut feed = feed;
    'records: loop {
        match next_record(&mut feed, input)? {
            Some(datagram) => {
                admit(alloc, hub, own, &datagram)?;
            }
            None => return Ok(()),
        }
    }
}

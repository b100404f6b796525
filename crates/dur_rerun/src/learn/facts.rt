//! What the records of a capture tell to a directory, up to the end of the input.

ghost use Rattle.std.specs.Prelude.{◌≡◌, ◌≤◌, ◌^◌, ◌++◌, List, None, IfOk, OnOk, IfErr, IfSome};
ghost use Rattle.rtps_discovery.specs.Learnt.{HeardFact};
ghost use Rattle.std.specs.Io.KnownBytes.{IsAtEnd};
ghost use Rattle.dur_outside.specs.Causes.{Rose};
ghost use Rattle.dur_rerun.specs.Input.Breaks.{EndsRecords, StopsRest};
ghost use Rattle.dur_rerun.specs.Learn.Facts.{heard_at, HearsMore, HearsRecord, HearsAll};

use crate::Status;
use crate::input::records::next_record;
use dur_base::{Fact, OutOfMemory, Prefix, Ticks, later};
use dur_capture::{Feed, Record};
use dur_outside::Source;
use dur_qos::Plan;
use rtps_discovery::Directory;
use rtps_message::facts_of;
use std::alloc::Global;

/// Hears facts, in their order, at this moment. On want of memory the directory may have heard a first part of them.
fn hear_facts(
    directory: &mut Directory,
    plan: &Plan,
    moment: Ticks,
    facts: &[Fact],
) -> Result<(), OutOfMemory>
    ensures { OnOk result (HearsMore plan.now directory.old (heard_at moment facts.now) directory.new) }
{
    let mut rest = facts;
    while let [fact, later @ ..] = rest {
        directory.hear(plan, moment, fact)?;
        rest = later;
    }
    Ok(())
}

/// Hears the facts of a record's datagram at this moment. Of a datagram that is not whole they are those before its
/// fault (DDSI-RTPS 8.3.4.1).
fn hear_record(
    alloc: Global,
    directory: &mut Directory,
    plan: &Plan,
    own: Prefix,
    moment: Ticks,
    datagram: &Record,
) -> Result<(), OutOfMemory>
    ensures { OnOk result (HearsRecord plan.now own moment datagram.now directory.old directory.new) }
{
    let heard = facts_of(alloc, &datagram.bytes, own)?;
    hear_facts(directory, plan, moment, heard.facts.as_slice())
}

/// Hears each record of the rest of an input behind a plan of `before` octets, of which `feed` has what has come, and
/// answers the greatest moment of the records, or 0. It fails where the capture breaks off, where the source failed, and
/// for want of memory.
pub fn hear_rest<S: Source>(
    alloc: Global,
    directory: &mut Directory,
    plan: &Plan,
    own: Prefix,
    feed: Feed,
    input: &mut S,
) -> Result<Ticks, Status>
    requires { (feed.before ≤ 2 ^ 40) × (feed.taken ≡ 0) × (feed.fault ≡ None) }
    ensures hears { IfOk result (λ last. IfSome (S.left input.old)
        (λ tail. HearsAll plan.now own feed.before (feed.left ++ tail) directory.old directory.new last)) }
    ensures more { OnOk result ((facts : List HeardFact) × HearsMore plan.now directory.old facts directory.new) }
    ensures end { OnOk result (IsAtEnd (S.left input.new)) }
    ensures ends { IfErr result (λ s. EndsRecords s) }
    ensures stops { IfErr result (λ s. IfSome (S.left input.old)
        (λ tail. StopsRest feed.before (feed.left ++ tail) s)) }
    ensures read { IfErr result (λ s. s ≡ Status.ReadFault → Rose (S.faults input.old) (S.faults input.new)) }
    ensures later { S.faults input.old ≤ S.faults input.new }
{
    let mut feed = feed;
    let mut last = Ticks(0);
    'records: loop {
        match next_record(&mut feed, input)? {
            Some(datagram) => {
                last = later(last, datagram.moment);
                hear_record(alloc, directory, plan, own, last, &datagram)?;
            }
            None => return Ok(last),
        }
    }
}

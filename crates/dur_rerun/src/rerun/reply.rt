//! What a record calls for, written out: its acknowledgements, and what replays send to its ACKNACKs.

ghost use Rattle.std.specs.Prelude.{◌≡◌, ◌≤◌, ◌<◌, ◌+◌, ◌-◌, ◌^◌, length, None, IfOk, IfErr, IfSome};
ghost use Rattle.dur_outside.specs.Causes.{HasCause};
ghost use Rattle.dur_journal.specs.Journals.{IsReady};
ghost use Rattle.rel_writer.specs.LateReaders.{shape_of};
ghost use Rattle.rtps_message.specs.Sent.{is_keyed};
ghost use Rattle.dur_hub.specs.declared.event.Event.{Event};
ghost use Rattle.dur_hub.specs.Runs.{Run};
ghost use Rattle.dur_hub.specs.Hubs.{Stands};
ghost use Rattle.dur_rerun.specs.declared.rerun.reply.Cut.TheVariants as cut;
ghost use Rattle.dur_rerun.specs.Rerun.Opening.{IsOver, HasReader};
ghost use Rattle.dur_rerun.specs.Rerun.Replies.{ids_of, session_for};
ghost use Rattle.dur_rerun.specs.Rerun.Reply.{Replied};
ghost use Rattle.dur_rerun.specs.Rerun.Sending.{CutBy, GoOut, Stays};
ghost use Rattle.dur_rerun.specs.Rerun.Steps.{OpensWherever, Starts, IsAck, AreAcks, BeginAcks, IsNackReplied, BeginsNack, AreReplied, BeginNacks};

use crate::rerun::nacks::{Nack, is_for_replay};
use crate::rerun::replays::Replays;
use crate::rerun::sheet::{Head, Sheet};
use dur_base::{EntityId, Guid, List, OutOfMemory, Prefix};
use dur_hub::{Ack, Hub, SnapFault};
use dur_journal::Journal;
use dur_outside::{Failed, Rig};
use dur_qos::Plan;
use dur_view::Change;
use rel_writer::{Ids, Session};
use rtps_message::write_acknack;
use std::alloc::Global;

/// Why not all was written out.
#[derive(Clone, Copy, Debug, PartialEq, Eq, Drop)]
pub enum Cut {
    /// A write failed.
    Write,
    /// There was not enough memory.
    OutOfMemory,
}

impl From<Failed> for Cut {
    ghost from_gives = { λ _ c. c ≡ cut.Write };

    fn from(_: Failed) -> Cut {
        Cut::Write
    }
}

impl From<OutOfMemory> for Cut {
    ghost from_gives = { λ _ c. c ≡ cut.OutOfMemory };

    fn from(_: OutOfMemory) -> Cut {
        Cut::OutOfMemory
    }
}

/// Whether a writer's id says that its topic has keys (DDSI-RTPS 9.3.1.2).
fn is_keyed(writer: EntityId) -> bool
    ensures { result ≡ is_keyed (shape_of writer) }
{
    writer.0[3..] == [2][..]
}

/// Who replays to an ACKNACK's reader.
fn ids_of(own: Prefix, nack: &Nack) -> Ids
    ensures { result ≡ ids_of own nack.now }
{
    Ids {
        own,
        writer: nack.writer,
        reader: nack.reader,
        keyed: is_keyed(nack.writer),
    }
}

/// What the type knows: changes stand in memory, so there are fewer than 2^63 - 2 of them.
fn count(changes: &[Change])
    ensures { length changes.now + 1 < 2 ^ 63 - 1 }
{
    let _count = changes.len();
}

/// The session of what the hub's snapshot has for an ACKNACK's reader, or None where the hub refuses it one.
fn start(
    alloc: Global,
    hub: &mut Hub,
    own: Prefix,
    nack: &Nack,
) -> Result<Option<Session>, OutOfMemory>
    requires reader { HasReader nack.now hub.old }
    ensures { IfOk result (λ got. (start : Run) (log : List Event) → Stands start log hub.old
        → Starts own nack.now start log hub.new got) }
{
    let moment = hub.last();
    match hub.snapshot(alloc, moment, nack.reader) {
        Ok(snapshot) => {
            count(snapshot.changes.as_slice());
            Ok(Some(Session::new(snapshot, ids_of(own, nack))))
        }
        Err(SnapFault::OutOfMemory) => Err(OutOfMemory),
        Err(_) => Ok(None),
    }
}

/// Begins the replay to an ACKNACK's reader, and says its place. None where the hub refuses it a snapshot.
fn begin(
    alloc: Global,
    hub: &mut Hub,
    replays: &mut Replays,
    own: Prefix,
    nack: &Nack,
) -> Result<Option<usize>, OutOfMemory>
    requires reader { HasReader nack.now hub.old }
    requires new { session_for replays.old.begun.items nack.now.reader ≡ None }
    ensures within { IfOk result (λ got. IfSome got (λ at. at < length replays.new.begun.items)) }
    ensures opens { IfOk result (λ got. OpensWherever own nack.now hub.old replays.old.begun.items
        hub.new replays.new.begun.items got) }
{
    match start(alloc, hub, own, nack)? {
        Some(session) => {
            let place = replays.begin(nack.reader, session)?;
            Ok(Some(place))
        }
        None => Ok(None),
    }
}

/// The place of the session that replies to an ACKNACK: that of its reader, which may begin with it. None where the hub
/// refuses the reader a snapshot.
fn open(
    alloc: Global,
    hub: &mut Hub,
    replays: &mut Replays,
    own: Prefix,
    nack: &Nack,
) -> Result<Option<usize>, OutOfMemory>
    requires reader { HasReader nack.now hub.old }
    ensures within { IfOk result (λ got. IfSome got (λ at. at < length replays.new.begun.items)) }
    ensures opens { IfOk result (λ got. OpensWherever own nack.now hub.old replays.old.begun.items
        hub.new replays.new.begun.items got) }
{
    match replays.place(nack.reader) {
        Some(place) => Ok(Some(place)),
        None => begin(alloc, hub, replays, own, nack),
    }
}

/// What the type knows: a prefix has 12 octets.
fn prefix_size(prefix: Prefix)
    ensures { length prefix ≡ 12 }
{
    let _ = prefix.0;
}

/// Writes an acknowledgement out, as an ACKNACK of the service's reader (DDSI-RTPS 8.3.8.1).
fn send_ack<R: Rig>(
    journal: &mut Journal<R>,
    own: Prefix,
    ack: &Ack,
    head: &Head,
    sheet: &mut Sheet,
) -> Result<(), Failed>
    requires ready { R.tells → IsReady journal.old (R.world journal.old.disk) }
    ensures goes { GoOut R.tells journal.old journal.new (R.world journal.old.disk) (R.world journal.new.disk)
        head.now.moment head.now.port result (IsAck own ack.now) (IsAck own ack.now) }
    ensures stays { Stays R.tells journal.old journal.new (R.world journal.new.disk)
        (R.disk_faults journal.old.disk) (R.disk_faults journal.new.disk) }
    ensures cause { HasCause (R.sink_faults journal.old.disk) (R.sink_faults journal.new.disk) result }
{
    prefix_size(own);
    let from = Guid::of(own, ack.reader);
    let count = write_acknack(
        from,
        ack.writer,
        &ack.set,
        ack.is_final,
        ack.count,
        &mut sheet.message,
    );
    sheet.send(journal, head, count)
}

/// Writes acknowledgements out, in their order.
fn send_acks<R: Rig>(
    journal: &mut Journal<R>,
    own: Prefix,
    acks: &[Ack],
    head: &Head,
    sheet: &mut Sheet,
) -> Result<(), Failed>
    requires ready { R.tells → IsReady journal.old (R.world journal.old.disk) }
    ensures goes { GoOut R.tells journal.old journal.new (R.world journal.old.disk) (R.world journal.new.disk)
        head.now.moment head.now.port result (AreAcks own acks.now) (BeginAcks own acks.now) }
    ensures stays { Stays R.tells journal.old journal.new (R.world journal.new.disk)
        (R.disk_faults journal.old.disk) (R.disk_faults journal.new.disk) }
    ensures cause { HasCause (R.sink_faults journal.old.disk) (R.sink_faults journal.new.disk) result }
{
    for at in 0..acks.len() {
        send_ack(journal, own, &acks[at], head, sheet)?;
    }
    Ok(())
}

/// Writes out what an ACKNACK calls for: nothing where it is for none of the plan's replays, or where the hub refuses its
/// reader a snapshot, and else what the reader's session replies.
fn answer_nack<R: Rig>(
    alloc: Global,
    journal: &mut Journal<R>,
    hub: &mut Hub,
    replays: &mut Replays,
    plan: &Plan,
    own: Prefix,
    nack: &Nack,
    head: &Head,
    sheet: &mut Sheet,
) -> Result<(), Cut>
    requires ready { R.tells → IsReady journal.old (R.world journal.old.disk) }
    requires over { IsOver plan.now hub.old }
    ensures goes { GoOut R.tells journal.old journal.new (R.world journal.old.disk) (R.world journal.new.disk)
        head.now.moment head.now.port result
        (IsNackReplied plan.now own nack.now hub.old replays.old.begun.items hub.new replays.new.begun.items)
        (BeginsNack plan.now own nack.now hub.old replays.old.begun.items) }
    ensures stays { Stays R.tells journal.old journal.new (R.world journal.new.disk)
        (R.disk_faults journal.old.disk) (R.disk_faults journal.new.disk) }
    ensures later { R.sink_faults journal.old.disk ≤ R.sink_faults journal.new.disk }
    ensures cut { IfErr result (λ why. CutBy why (R.sink_faults journal.old.disk) (R.sink_faults journal.new.disk)) }
{
    if !is_for_replay(plan, nack) {
        return Ok(());
    }
    match open(alloc, hub, replays, own, nack)? {
        Some(place) => {
            replays.answer(journal, place, &nack.set, head, sheet)?;
            Ok(())
        }
        None => Ok(()),
    }
}

/// Writes out what ACKNACKs call for, in their order.
fn answer_nacks<R: Rig>(
    alloc: Global,
    journal: &mut Journal<R>,
    hub: &mut Hub,
    replays: &mut Replays,
    plan: &Plan,
    own: Prefix,
    nacks: &[Nack],
    head: &Head,
    sheet: &mut Sheet,
) -> Result<(), Cut>
    requires ready { R.tells → IsReady journal.old (R.world journal.old.disk) }
    requires over { IsOver plan.now hub.old }
    ensures goes { GoOut R.tells journal.old journal.new (R.world journal.old.disk) (R.world journal.new.disk)
        head.now.moment head.now.port result
        (AreReplied plan.now own nacks.now hub.old replays.old.begun.items hub.new replays.new.begun.items)
        (BeginNacks plan.now own nacks.now hub.old replays.old.begun.items) }
    ensures stays { Stays R.tells journal.old journal.new (R.world journal.new.disk)
        (R.disk_faults journal.old.disk) (R.disk_faults journal.new.disk) }
    ensures later { R.sink_faults journal.old.disk ≤ R.sink_faults journal.new.disk }
    ensures cut { IfErr result (λ why. CutBy why (R.sink_faults journal.old.disk) (R.sink_faults journal.new.disk)) }
{
    for at in 0..nacks.len() {
        answer_nack(
            alloc, journal, hub, replays, plan, own, &nacks[at], head, sheet,
        )?;
    }
    Ok(())
}

/// Writes out what a record calls for: the acknowledgements of its datagram as ACKNACKs, in their order, and then what each
/// ACKNACK in it calls for. The first one of a late reader begins its replay by a snapshot of the hub, at the moment that
/// the hub used last; where the hub refuses that, nobody replies. A session replies with the DATA of the numbers that are
/// asked for, in rising order, and then one HEARTBEAT where one is asked for. Each message is a record with the moment
/// that the hub used last and this port.
///
/// The hub stands for calls over an opening of the plan, so what a snapshot of it has may be sent as it is.
///
/// It fails where a write did, or for want of memory, which only a replay that begins takes; then a front of that went out.
pub fn reply<R: Rig>(
    alloc: Global,
    journal: &mut Journal<R>,
    hub: &mut Hub,
    replays: &mut Replays,
    plan: &Plan,
    own: Prefix,
    port: u16,
    acks: &List<Ack>,
    nacks: &[Nack],
    sheet: &mut Sheet,
) -> Result<(), Cut>
    requires ready { R.tells → IsReady journal.old (R.world journal.old.disk) }
    requires over { IsOver plan.now hub.old }
    ensures replied { Replied R.tells own port acks.now nacks.now plan.now hub.old hub.new
        replays.old.begun.items replays.new.begun.items journal.old journal.new
        (R.world journal.old.disk) (R.world journal.new.disk) result }
    ensures stays { Stays R.tells journal.old journal.new (R.world journal.new.disk)
        (R.disk_faults journal.old.disk) (R.disk_faults journal.new.disk) }
    ensures later { R.sink_faults journal.old.disk ≤ R.sink_faults journal.new.disk }
    ensures cut { IfErr result (λ why. CutBy why (R.sink_faults journal.old.disk) (R.sink_faults journal.new.disk)) }
{
    let head = Head {
        moment: hub.last(),
        port,
    };
    send_acks(journal, own, acks.as_slice(), &head, sheet)?;
    answer_nacks(alloc, journal, hub, replays, plan, own, nacks, &head, sheet)
}

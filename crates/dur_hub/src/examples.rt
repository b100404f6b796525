//! What the tests' hubs are told, and what they answer.

ghost use Rattle.std.specs.Prelude.{◌≡◌, ◌≤◌, [], IfOk, IfSome};
ghost use Rattle.dur_base.specs.Goodness.{IsGoodRaw};
ghost use Rattle.dur_base.specs.declared.sample.Form.TheVariants.{Data};
ghost use Rattle.dur_qos.specs.Good.{GoodPlan};
ghost use Rattle.rtps_message.specs.Facts.{IsGoodFact};
ghost use Rattle.dur_hub.specs.Hubs.{StandsForSome};

use crate::{Ack, Hub, Received, hubs_open_over_blank_views};
use bytes::Bytes;
use dur_base::{Bits, EntityId, Fact, Form, Guid, Key, List, Number, Payload, Raw, SetMark, Ticks};
use dur_qos::{Plan, PlanFault, PlanReader};
use dur_view::{Limit, View};
use std::alloc::Global;

pub(crate) const W: Guid = Guid([
    0xa1, 0xa1, 0xa1, 0xa1, 0xa1, 0xa1, 0xa1, 0xa1, 0xa1, 0xa1, 0xa1, 0xa1, 0, 0, 1, 2,
]);

pub(crate) const R: Guid = Guid([
    0xb2, 0xb2, 0xb2, 0xb2, 0xb2, 0xb2, 0xb2, 0xb2, 0xb2, 0xb2, 0xb2, 0xb2, 0, 0, 1, 7,
]);

pub(crate) const AA: Key = Key([0xaa; 16]);

pub(crate) const BB: Key = Key([0xbb; 16]);

pub(crate) const EVERYBODY: EntityId = EntityId([0; 4]);

pub(crate) const KEEP_3: &[u8] =
    b"prefix 0102030405060708\ntopic T transient hash 3 - - - - 0\nwriter a1a1a1a1a1a1a1a1a1a1a1a100000102 T -\nend\n";

pub(crate) const PERSISTENT: &[u8] =
    b"prefix 0102030405060708\ntopic T persistent hash 10 - - - - 0\nwriter a1a1a1a1a1a1a1a1a1a1a1a100000102 T -\nreader b2b2b2b2b2b2b2b2b2b2b2b200000107 T transient\nend\n";

pub(crate) fn read(alloc: Global, text: &[u8]) -> Result<Plan, PlanFault>
    ensures { IfOk result (λ p. GoodPlan p) }
{
    let mut reader = PlanReader::new(alloc);
    match reader.push(text) {
        Ok(_) => reader.finish(),
        Err(fault) => Err(fault),
    }
}

pub(crate) fn opened(alloc: Global, text: &[u8]) -> Option<Hub>
    ensures { IfSome result (λ hub. StandsForSome hub) }
{
    let plan = match read(alloc, text) {
        Ok(plan) => plan,
        Err(_) => return None,
    };
    let view = match View::blank(&plan) {
        Ok(view) => view,
        Err(_) => return None,
    };
    hubs_open_over_blank_views();
    match Hub::new(alloc, plan, view, 1) {
        Ok(hub) => Some(hub),
        Err(_) => None,
    }
}

pub(crate) fn number(value: u64) -> Number {
    match Number::new(value) {
        Some(number) => number,
        None => Number::one(),
    }
}

pub(crate) fn raw(key: Key) -> Raw
    ensures good { IsGoodRaw result }
    ensures form { result.form ≡ Data }
    ensures payload { result.payload ≡ [] }
{
    Raw {
        hash: Some(key),
        status: 0,
        stamp: None,
        lifespan: None,
        set: SetMark::NoSet,
        original: None,
        form: Form::Data,
        payload: Payload::of(Bytes::new()),
    }
}

pub(crate) fn told(value: u64, reader: EntityId, raw: Raw) -> Fact
    requires { IsGoodRaw raw }
    ensures { IsGoodFact result }
{
    Fact::Data {
        writer: W,
        reader,
        number: number(value),
        raw,
    }
}

pub(crate) fn data(value: u64, key: Key) -> Fact
    ensures { IsGoodFact result }
{
    told(value, EVERYBODY, raw(key))
}

// The payload of `valued`.
pub(crate) const VALUE: &[u8] = b"\x01\x00\x00\x00\x00\x01\x00\x00\x2a\x00\x00\x00";

// A sample with a payload.
pub(crate) fn valued(value: u64) -> Fact
    ensures { IsGoodFact result }
{
    let mut raw = raw(AA);
    raw.payload = Payload::of(Bytes::from_static(
        b"\x01\x00\x00\x00\x00\x01\x00\x00\x2a\x00\x00\x00",
    ));
    told(value, EVERYBODY, raw)
}

// A sample of the set that begins at number 1.
pub(crate) fn in_set_1(value: u64) -> Fact
    ensures { IsGoodFact result }
{
    let mut raw = raw(AA);
    raw.set = SetMark::Of(Number::one());
    told(value, EVERYBODY, raw)
}

// A sample that lives for a second.
pub(crate) fn short_lived(value: u64) -> Fact
    ensures { IsGoodFact result }
{
    let mut raw = raw(AA);
    raw.lifespan = Some(Ticks(0x1_0000_0000));
    told(value, EVERYBODY, raw)
}

// A change of the instance's state: 1 disposes of it, 3 unregisters from it too.
pub(crate) fn end_of(value: u64, status: u8) -> Fact
    requires { status ≤ 3 }
    ensures { IsGoodFact result }
{
    let mut raw = raw(AA);
    raw.status = status;
    raw.form = Form::Nothing;
    told(value, EVERYBODY, raw)
}

// The number is no longer there.
pub(crate) fn gap(value: u64) -> Fact
    ensures { IsGoodFact result }
{
    Fact::Gap {
        writer: W,
        reader: EVERYBODY,
        start: number(value),
        set: Bits::empty(number(value.saturating_add(1))),
    }
}

pub(crate) fn beat(first: u64, last: u64) -> Fact
    ensures { IsGoodFact result }
{
    Fact::Beat {
        writer: W,
        reader: EVERYBODY,
        first: number(first),
        last,
        is_final: false,
    }
}

pub(crate) fn hears(hub: &mut Hub, alloc: Global, moment: u64, fact: Fact) -> Option<Received>
    requires { IsGoodFact fact }
    ensures { StandsForSome hub.old → StandsForSome hub.new }
{
    let mut facts = List::new(alloc);
    match facts.push(fact) {
        Ok(()) => Some(hub.receive(alloc, Ticks(moment), facts)),
        Err(_) => None,
    }
}

// Whether the one sample of a datagram was refused at this number for this limit.
pub(crate) fn is_refused(reply: Option<Received>, value: u64, limit: Limit) -> bool {
    match reply {
        Some(reply) => match reply.refused.as_slice() {
            [refusal] => refusal.writer == W
                && refusal.number == number(value)
                && refusal.limit == limit,
            _ => false,
        },
        None => false,
    }
}

// The acknowledgement of a reply that has one.
pub(crate) fn ack_of(reply: Option<Received>) -> Option<Ack> {
    match reply {
        Some(reply) => match reply.acks.as_slice() {
            [ack] => Some(*ack),
            _ => None,
        },
        None => None,
    }
}

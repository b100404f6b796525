//! One parameter of a payload: its id, and what its value tells (DDSI-RTPS 9.6.3).

ghost use Rattle.std.specs.Prelude.{◌≡◌, ◌<◌, length, List, IfSome};
ghost use Rattle.rtps_discovery.specs.Table.{place_at, lease_at, topic_at, kind_of, kind_at, parameter_at, guid_at, within_32};
ghost use Rattle.dur_qos.specs.declared.plan.Topic.{Topic as TopicLine};
ghost use Rattle.dur_qos.specs.Plan.{place_of};
ghost use Rattle.rtps_discovery.specs.Fits.{FitsParameter, IsPlace};

use dur_base::{Durability, Guid, TICKS_OF_A_SECOND, Ticks, u32_of};
use dur_qos::Topic;

/// PID_SENTINEL, which ends a list.
pub const SENTINEL: u16 = 0x0001;

/// PID_PARTICIPANT_LEASE_DURATION.
const LEASE: u16 = 0x0002;

/// PID_TOPIC_NAME.
const TOPIC_NAME: u16 = 0x0005;

/// PID_DURABILITY.
const DURABILITY: u16 = 0x001d;

/// PID_PARTICIPANT_GUID.
const PARTICIPANT_GUID: u16 = 0x0050;

/// PID_ENDPOINT_GUID.
const ENDPOINT_GUID: u16 = 0x005a;

/// The seconds of an infinite lease.
const INFINITE: u32 = 0x7fff_ffff;

/// What a parameter tells.
#[derive(Clone, Copy, Debug, PartialEq, Eq, Drop)]
pub enum Parameter {
    /// How long a participant counts as there. None is for ever.
    Lease(Option<Ticks>),
    /// The place of the topic of that name in the plan, or None where the plan has none.
    Topic(Option<u32>),
    /// The kind that is offered or requested.
    Kind(Durability),
    /// The GUID of a participant.
    Participant(Guid),
    /// The GUID of a writer or reader.
    Endpoint(Guid),
    /// Nothing that is looked at.
    Passed,
}

/// The place of the topic with that name.
fn place_in(topics: &[Topic], name: &[u8]) -> Option<usize>
    ensures value { result ≡ place_of name.now topics.now }
    ensures within { IfSome result (λ i. i < length topics.now) }
{
    let mut rest = topics;
    let mut place = 0;
    while let [topic, later @ ..] = rest {
        if name == topic.name.as_slice() {
            return Some(place);
        }
        place += 1;
        rest = later;
    }
    None
}

/// The same as 32 bits, as a plan's lines have it.
fn place_of(topics: &[Topic], name: &[u8]) -> Option<u32>
    ensures value { result ≡ place_at topics.now name.now }
    ensures within { IsPlace topics.now result }
{
    let place = place_in(topics, name)?;
    u32::try_from(place).ok()
}

/// What a lease duration tells, or None where it is too short or below 0.
#[tactic(auto, unfolding(crate::specs::Table::lease_at))]
fn lease_of(value: &[u8], little: bool) -> Option<Parameter>
    ensures value { result ≡ lease_at little value.now }
    ensures fits { IfSome result (λ p. (topics : List TopicLine) → FitsParameter topics p) }
{
    if value.len() < 8 {
        return None;
    }
    let (seconds, rest) = value.split_at(4);
    let (fraction, _) = rest.split_at(4);
    let seconds = u32_of(seconds, little);
    if seconds > INFINITE {
        return None;
    }
    if seconds == INFINITE {
        return Some(Parameter::Lease(None));
    }
    let ticks = u64::from(seconds) * TICKS_OF_A_SECOND + u64::from(u32_of(fraction, little));
    Some(Parameter::Lease(Some(Ticks(ticks))))
}

/// What a topic name tells, or None where it does not fit or has no closing zero.
#[tactic(auto, unfolding(crate::specs::Table::topic_at))]
fn topic_of(topics: &[Topic], value: &[u8], little: bool) -> Option<Parameter>
    ensures value { result ≡ topic_at topics.now little value.now }
    ensures fits { IfSome result (FitsParameter topics.now) }
{
    if value.len() < 4 {
        return None;
    }
    let (front, text) = value.split_at(4);
    let len = u32_of(front, little) as usize;
    if len == 0 || text.len() < len {
        return None;
    }
    if text[len - 1] != 0 {
        return None;
    }
    let (name, _) = text.split_at(len - 1);
    Some(Parameter::Topic(place_of(topics, name)))
}

/// The kind of that number.
fn kind_of(number: u32) -> Option<Durability>
    ensures { result ≡ kind_of number }
{
    match number {
        0 => Some(Durability::Volatile),
        1 => Some(Durability::TransientLocal),
        2 => Some(Durability::Transient),
        3 => Some(Durability::Persistent),
        _ => None,
    }
}

/// What a durability tells, or None where it is too short or no kind.
#[tactic(auto, unfolding(crate::specs::Table::kind_at))]
fn durability_of(value: &[u8], little: bool) -> Option<Parameter>
    ensures value { result ≡ kind_at little value.now }
    ensures fits { IfSome result (λ p. (topics : List TopicLine) → FitsParameter topics p) }
{
    if value.len() < 4 {
        return None;
    }
    let kind = kind_of(u32_of(value.split_at(4).0, little))?;
    Some(Parameter::Kind(kind))
}

/// The GUID that a value tells, or None where it is too short.
fn guid_of(value: &[u8]) -> Option<Guid>
    ensures { result ≡ guid_at value.now }
{
    if value.len() < 16 {
        return None;
    }
    let mut octets = [0; 16];
    octets.copy_from_slice(value.split_at(16).0);
    Some(Guid(octets))
}

/// What the parameter tells, or None where its value is bad. Ids are compared whole.
#[tactic(auto, unfolding(crate::specs::Table::parameter_at))]
pub fn parameter_of(topics: &[Topic], id: u16, value: &[u8], little: bool) -> Option<Parameter>
    ensures value { result ≡ parameter_at topics.now little id value.now }
    ensures fits { IfSome result (FitsParameter topics.now) }
{
    match id {
        LEASE => lease_of(value, little),
        TOPIC_NAME => topic_of(topics, value, little),
        DURABILITY => durability_of(value, little),
        PARTICIPANT_GUID => Some(Parameter::Participant(guid_of(value)?)),
        ENDPOINT_GUID => Some(Parameter::Endpoint(guid_of(value)?)),
        _ => Some(Parameter::Passed),
    }
}

//! Who is served, and under which ids.

ghost use Rattle.std.specs.Prelude.{◌≡◌, ◌↔◌, ◌<◌, IsTrue, length};
ghost use Rattle.dur_qos.specs.Good.{GoodPlan};
ghost use Rattle.dur_qos.specs.Served.{IsServed, reader_id_of, replay_id_of};

use crate::{Plan, ReaderLine, Topic};
use dur_base::{Durability, EntityId, Shape};

/// Whether the reader gets what is kept of the topic: it requests TRANSIENT or PERSISTENT, and the topic's kind is at
/// least the requested one (DDS 2.2.3.4). It takes no memory.
pub fn served(topic: &Topic, reader: &ReaderLine) -> bool
    ensures { IsTrue result ↔ IsServed topic.now reader.now }
{
    match reader.kind {
        Durability::Transient => matches!(
            topic.kind,
            Durability::Transient | Durability::Persistent
        ),
        Durability::Persistent => matches!(topic.kind, Durability::Persistent),
        _ => false,
    }
}

/// The id of the service's reader of the topic at this place, from 0: `00`, the place from 1 as two octets, and `07`,
/// or `04` where the topic has no key (DDSI-RTPS 9.3.1.2). It takes no memory.
pub fn reader_id(plan: &Plan, topic: u32) -> EntityId
    requires good { GoodPlan plan.now }
    requires place { topic < length plan.now.topics }
    ensures { result ≡ reader_id_of plan.now topic }
{
    let place = (topic + 1) as u16;
    let [high, low] = place.to_be_bytes();
    let last = match plan.topics.as_slice()[topic as usize].shape {
        Shape::None => 4,
        _ => 7,
    };
    EntityId([0, high, low, last])
}

/// The id of the service's writer that replays to the reader at this place, from 0: `01`, the place from 1 as two
/// octets, and `02`, or `03` where the reader's topic has no key (DDSI-RTPS 9.3.1.2). It takes no memory.
pub fn replay_id(plan: &Plan, reader: u32) -> EntityId
    requires good { GoodPlan plan.now }
    requires place { reader < length plan.now.readers }
    ensures { result ≡ replay_id_of plan.now reader }
{
    let place = (reader + 1) as u16;
    let [high, low] = place.to_be_bytes();
    let topic = plan.readers.as_slice()[reader as usize].topic;
    let last = match plan.topics.as_slice()[topic as usize].shape {
        Shape::None => 3,
        _ => 2,
    };
    EntityId([1, high, low, last])
}

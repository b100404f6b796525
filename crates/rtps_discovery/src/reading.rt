//! What a DATA announces.

ghost use Rattle.std.specs.Prelude.{◌≡◌, ℕ, List, Some, IfSome};
ghost use Rattle.rtps_discovery.specs.declared.announcement.Announcement.{Announcement};
ghost use Rattle.rtps_discovery.specs.declared.announcement.Told.{Told};
ghost use Rattle.dur_qos.specs.declared.plan.Topic.{Topic as TopicLine};
ghost use Rattle.rtps_discovery.specs.Fits.{Fits, FitsListed};
ghost use Rattle.rtps_discovery.specs.Learnt.{IsTold};
ghost use Rattle.rtps_discovery.specs.Announcing.{Announces, Says, Leaves, subject, participant, present};

use crate::announcement::{Announcement, Told};
use crate::list::Listed;
use crate::payload::read_payload;
use crate::source::{PARTICIPANT, Source, source_of};
use dur_base::{Fact, Guid, Raw, Ticks};
use dur_qos::{Plan, Topic};

/// The participant of that GUID, or None where it is no participant's.
fn participant(guid: Guid, listed: &Listed) -> Option<Announcement>
    ensures value { result ≡ participant (Some guid) listed.now.lease }
    ensures fits { (topics : List TopicLine) → FitsListed topics listed.now → IfSome result (Fits topics) }
{
    if guid.entity() == PARTICIPANT {
        Some(Announcement::Participant {
            guid,
            lease: listed.lease,
        })
    } else {
        None
    }
}

/// What a payload says to be there.
fn present(source: Source, listed: &Listed) -> Option<Announcement>
    ensures value { result ≡ present source listed.now }
    ensures fits { (topics : List TopicLine) → FitsListed topics listed.now → IfSome result (Fits topics) }
{
    match source {
        Source::Participants => participant(listed.participant?, listed),
        Source::Publications => Some(Announcement::Writer {
            guid: listed.endpoint?,
            topic: listed.topic?,
            kind: listed.kind,
        }),
        Source::Subscriptions => Some(Announcement::Reader {
            guid: listed.endpoint?,
            topic: listed.topic?,
            kind: listed.kind,
        }),
    }
}

/// The GUID that a payload is about.
fn subject(source: Source, listed: &Listed) -> Option<Guid>
    ensures { result ≡ subject source listed.now }
{
    match source {
        Source::Participants => listed.participant,
        Source::Publications | Source::Subscriptions => listed.endpoint,
    }
}

/// The GUID of what leaves: the key hash, or else what the payload is about.
fn leaving(topics: &[Topic], source: Source, raw: &Raw) -> Option<Guid>
    ensures some { IfSome result (λ g. Leaves topics.now source raw.now.hash raw.now.payload g) }
    ensures all { (g : List ℕ) → Leaves topics.now source raw.now.hash raw.now.payload g → result ≡ Some g }
{
    match raw.hash {
        Some(key) => Some(Guid(key.0)),
        None => subject(source, &read_payload(topics, raw.payload.as_slice())?),
    }
}

/// What a DATA of that builtin writer says, of whomever.
fn said(topics: &[Topic], source: Source, raw: &Raw) -> Option<Announcement>
    ensures some { IfSome result (λ a. Says topics.now source raw.now a) }
    ensures fits { IfSome result (Fits topics.now) }
    ensures all { (a : Announcement) → Says topics.now source raw.now a → result ≡ Some a }
{
    if raw.status == 0 {
        present(source, &read_payload(topics, raw.payload.as_slice())?)
    } else {
        Some(Announcement::Gone(leaving(topics, source, raw)?))
    }
}

/// What a DATA with that writer announces (DDSI-RTPS 8.5.3, 8.5.4), or None where it announces nothing: it has another
/// writer than a builtin one, it is about another participant than its own, its list breaks or a value of it is out of
/// range, it names no GUID, or an endpoint without a topic of the plan. A status other than 0 is the farewell of the
/// inline key hash, or else of the GUID in the payload. It takes no memory.
pub fn read_announcement(plan: &Plan, writer: Guid, raw: &Raw) -> Option<Announcement>
    // What is answered is announced.
    ensures some { IfSome result (λ a. Announces plan.now writer raw.now a) }
    // Whatever is announced is the answer; so None comes where nothing is.
    ensures all { (a : Announcement) → Announces plan.now writer raw.now a → result ≡ Some a }
    // Its lease ends below 7fffffff seconds, or never, and its topic is one of the plan.
    ensures fits { IfSome result (Fits plan.now.topics) }
{
    let source = source_of(writer.entity())?;
    let announcement = said(plan.topics.as_slice(), source, raw)?;
    if announcement.guid().prefix() == writer.prefix() {
        Some(announcement)
    } else {
        None
    }
}

/// What a fact announces, heard at this moment, or None where it announces nothing.
pub fn told(plan: &Plan, moment: Ticks, fact: &Fact) -> Option<Told>
    ensures some { IfSome result (λ t. IsTold plan.now moment fact.now t) }
    ensures fits { IfSome result (λ t. Fits plan.now.topics t.what) }
    ensures all { (t : Told) → IsTold plan.now moment fact.now t → result ≡ Some t }
{
    match fact {
        Fact::Data {
            writer,
            number,
            raw,
            ..
        } => match read_announcement(plan, *writer, raw) {
            Some(what) => Some(Told {
                writer: *writer,
                number: *number,
                moment,
                what,
            }),
            None => None,
        },
        Fact::Unreadable { .. } => None,
        Fact::Gap { .. } => None,
        Fact::Beat { .. } => None,
        Fact::Nack { .. } => None,
    }
}

//! Reading the parameter list of a payload from left to right (DDSI-RTPS 9.4.2.11).

ghost use Rattle.std.specs.Prelude.{◌≡◌, List, [], Some, IfSome};
ghost use Rattle.dur_qos.specs.declared.plan.Topic.{Topic as TopicLine};
ghost use Rattle.rtps_discovery.specs.Fits.{FitsParameter, FitsListed};
ghost use Rattle.rtps_discovery.specs.declared.list.Listed.{Listed};
ghost use Rattle.rtps_discovery.specs.Meaning.{listed_of, with_parameter};
ghost use Rattle.rtps_discovery.specs.Lists.{ListTells};
ghost use Rattle.rtps_discovery.specs.Reading.{Gives, next_at};

use crate::parameter::{Parameter, SENTINEL, parameter_of};
use dur_base::{Durability, Guid, TICKS_OF_A_SECOND, Ticks, u16_of};
use dur_qos::Topic;

/// What a parameter list tells.
#[derive(Clone, Copy, Debug, PartialEq, Eq, Drop)]
pub struct Listed {
    /// How long a participant counts as there: 100 seconds where the list does not say. None is for ever.
    pub lease: Option<Ticks>,
    /// The place of the named topic in the plan, or None where the plan has none of that name or none is named.
    pub topic: Option<u32>,
    /// The kind that is offered or requested: VOLATILE where the list does not say.
    pub kind: Durability,
    /// The GUID of a participant.
    pub participant: Option<Guid>,
    /// The GUID of a writer or reader.
    pub endpoint: Option<Guid>,
}

impl Listed {
    /// What a list without parameters tells.
    #[tactic(auto, unfolding(crate::specs::Meaning::listed_of))]
    fn nothing() -> Listed
        ensures value { result ≡ listed_of [] }
        ensures fits { (topics : List TopicLine) → FitsListed topics result }
    {
        Listed {
            lease: Some(Ticks(100 * TICKS_OF_A_SECOND)),
            topic: None,
            kind: Durability::Volatile,
            participant: None,
            endpoint: None,
        }
    }

    /// The same after one parameter more.
    fn with(self, parameter: Parameter) -> Listed
        ensures value { result ≡ with_parameter self parameter }
        ensures fits { (topics : List TopicLine) → FitsListed topics self → FitsParameter topics parameter → FitsListed topics result }
    {
        match parameter {
            Parameter::Lease(lease) => Listed { lease, ..self },
            Parameter::Topic(topic) => Listed { topic, ..self },
            Parameter::Kind(kind) => Listed { kind, ..self },
            Parameter::Participant(guid) => Listed {
                participant: Some(guid),
                ..self
            },
            Parameter::Endpoint(guid) => Listed {
                endpoint: Some(guid),
                ..self
            },
            Parameter::Passed => self,
        }
    }
}

/// The parameter at the front and what follows it, None in it at the sentinel, or None where the list breaks.
#[tactic(auto, unfolding(crate::specs::Reading::next_at))]
fn next_of<'a>(
    topics: &[Topic],
    bytes: &'a [u8],
    little: bool,
) -> Option<Option<(Parameter, &'a [u8])>>
    ensures gives { Gives result (next_at topics.now little bytes.now) }
    ensures fits { IfSome result (λ o. IfSome o (λ x. FitsParameter topics.now x.0)) }
{
    if bytes.len() < 4 {
        return None;
    }
    let (id, rest) = bytes.split_at(2);
    let (len, rest) = rest.split_at(2);
    let id = u16_of(id, little);
    if id == SENTINEL {
        return Some(None);
    }
    let len = usize::from(u16_of(len, little));
    if len % 4 != 0 || rest.len() < len {
        return None;
    }
    let (value, rest) = rest.split_at(len);
    match parameter_of(topics, id, value, little) {
        Some(parameter) => Some(Some((parameter, rest))),
        None => None,
    }
}

/// What the list at the front tells, or None where it breaks. Octets after the list are not looked at. It takes no
/// memory (DDSI-RTPS 9.4.2.11).
pub fn read_list(topics: &[Topic], bytes: &[u8], little: bool) -> Option<Listed>
    ensures some { IfSome result (λ l. ListTells topics.now little bytes.now l) }
    ensures fits { IfSome result (FitsListed topics.now) }
    ensures all { (l : Listed) → ListTells topics.now little bytes.now l → result ≡ Some l }
{
    let mut listed = Listed::nothing();
    let mut rest = bytes;
    'parameters: loop {
        match next_of(topics, rest, little) {
            Some(Some((parameter, after))) => {
                listed = listed.with(parameter);
                rest = after;
            }
            Some(None) => return Some(listed),
            None => return None,
        }
    }
}

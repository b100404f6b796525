//! The builtin writers that announce.

ghost use Rattle.std.specs.Prelude.{◌≡◌};
ghost use Rattle.rtps_discovery.specs.Sources.{source_of};

use dur_base::EntityId;

/// A builtin writer of discovery (DDSI-RTPS 8.5.3, 8.5.4).
#[derive(Clone, Copy, Debug, PartialEq, Eq, Drop)]
pub enum Source {
    /// SPDP's writer, which announces its participant.
    Participants,
    /// SEDP's writer of publications, which announces writers.
    Publications,
    /// SEDP's writer of subscriptions, which announces readers.
    Subscriptions,
}

/// The last octets of a participant's GUID, ENTITYID_PARTICIPANT.
pub const PARTICIPANT: EntityId = EntityId([0, 0, 1, 0xc1]);

/// The builtin writer with that id, or None where it is another writer (DDSI-RTPS 9.3.1.3).
pub fn source_of(id: EntityId) -> Option<Source>
    ensures { result ≡ source_of id }
{
    match id.0 {
        [0, 1, 0, 0xc2] => Some(Source::Participants),
        [0, 0, 3, 0xc2] => Some(Source::Publications),
        [0, 0, 4, 0xc2] => Some(Source::Subscriptions),
        _ => None,
    }
}

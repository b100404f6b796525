//! Who replays to whom.

use dur_base::{EntityId, Guid, Prefix};

/// Who replays to whom (DDSI-RTPS 8.2.4).
#[derive(Clone, Copy, Debug, PartialEq, Eq, Drop)]
pub struct Ids {
    /// The prefix of the service in this epoch.
    pub own: Prefix,
    /// The id of the replay's writer.
    pub writer: EntityId,
    /// The late reader.
    pub reader: Guid,
    /// Whether the topic has keys.
    pub keyed: bool,
}

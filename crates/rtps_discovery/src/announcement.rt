//! What one DATA of discovery announces.

ghost use Rattle.std.specs.Prelude.{◌≡◌};
ghost use Rattle.rtps_discovery.specs.Announcing.{guid_of};

use dur_base::{Durability, Guid, Number, Ticks};

/// What one DATA of a builtin writer announces (DDSI-RTPS 8.5.3, 8.5.4).
#[derive(Clone, Copy, Debug, PartialEq, Eq, Drop)]
pub enum Announcement {
    /// A participant is there.
    Participant {
        guid: Guid,
        /// How long it counts as there after this, in ticks of 2^-32 s. None is for ever.
        lease: Option<Ticks>,
    },
    /// A writer is there.
    Writer {
        guid: Guid,
        /// The place of its topic in the plan, from 0.
        topic: u32,
        /// The kind that it offers.
        kind: Durability,
    },
    /// A reader is there.
    Reader {
        guid: Guid,
        /// The place of its topic in the plan, from 0.
        topic: u32,
        /// The kind that it requests.
        kind: Durability,
    },
    /// A participant, writer or reader has left.
    Gone(Guid),
}

/// An announcement, and how it was heard.
#[derive(Clone, Copy, Debug, PartialEq, Eq, Drop)]
pub struct Told {
    /// The builtin writer that announced it.
    pub writer: Guid,
    /// The number of the DATA.
    pub number: Number,
    /// When it was heard.
    pub moment: Ticks,
    pub what: Announcement,
}

impl Announcement {
    /// Whom it is about.
    pub fn guid(&self) -> Guid
        ensures { result ≡ guid_of self.now }
    {
        match self {
            Announcement::Participant { guid, .. } => *guid,
            Announcement::Writer { guid, .. } => *guid,
            Announcement::Reader { guid, .. } => *guid,
            Announcement::Gone(guid) => *guid,
        }
    }
}

//! Identities of participants, entities and instances, moments, and sequence numbers.

ghost use Rattle.std.specs.Prelude.{◌≡◌, ◌++◌, ◌<◌, ◌≤◌, ◌+◌, ◌^◌, ◌↔◌, IsSome, IfSome, max, take, drop, length};

use crate::GREATEST_NUMBER;
use std::marker::Model;

/// A participant's GUID prefix, 12 octets (DDSI-RTPS 9.3.1.5).
#[derive(Clone, Copy, Debug, PartialEq, Eq, PartialOrd, Ord, Drop)]
pub struct Prefix(pub [u8; 12]);

impl Model for Prefix {
    ghost use Rattle.std.specs.Prelude.{ℕ, List};

    ghost Value = { List ℕ };

    ghost view = { λ p. p.0 };

    ghost inverse = { λ p. record { 0 = p } };
}

/// The id of an entity of a participant, 4 octets (DDSI-RTPS 9.3.1.2).
#[derive(Clone, Copy, Debug, PartialEq, Eq, PartialOrd, Ord, Drop)]
pub struct EntityId(pub [u8; 4]);

impl Model for EntityId {
    ghost use Rattle.std.specs.Prelude.{ℕ, List};

    ghost Value = { List ℕ };

    ghost view = { λ e. e.0 };

    ghost inverse = { λ e. record { 0 = e } };
}

/// A writer or reader: its participant's prefix, then its entity id (DDSI-RTPS 9.3.1).
#[derive(Clone, Copy, Debug, PartialEq, Eq, PartialOrd, Ord, Drop)]
pub struct Guid(pub [u8; 16]);

impl Model for Guid {
    ghost use Rattle.std.specs.Prelude.{ℕ, List};

    ghost Value = { List ℕ };

    ghost view = { λ g. g.0 };

    ghost inverse = { λ g. record { 0 = g } };
}

impl Guid {
    /// The entity of that id of the participant with that prefix.
    pub fn of(prefix: Prefix, entity: EntityId) -> Guid
        ensures { result ≡ prefix ++ entity }
    {
        let mut octets = [0; 16];
        let (front, back) = octets.split_at_mut(12);
        front.copy_from_slice(&prefix.0);
        back.copy_from_slice(&entity.0);
        Guid(octets)
    }

    /// The prefix of its participant.
    pub fn prefix(self) -> Prefix
        ensures { result ≡ take 12 self }
    {
        let mut octets = [0; 12];
        octets.copy_from_slice(self.0.as_slice().split_at(12).0);
        Prefix(octets)
    }

    /// Its id within its participant.
    pub fn entity(self) -> EntityId
        ensures { result ≡ drop 12 self }
    {
        let mut octets = [0; 4];
        octets.copy_from_slice(self.0.as_slice().split_at(12).1);
        EntityId(octets)
    }
}

/// The key of an instance, 16 octets (DDSI-RTPS 9.6.4.8).
#[derive(Clone, Copy, Debug, PartialEq, Eq, PartialOrd, Ord, Drop)]
pub struct Key(pub [u8; 16]);

impl Model for Key {
    ghost use Rattle.std.specs.Prelude.{ℕ, List};

    ghost Value = { List ℕ };

    ghost view = { λ k. k.0 };

    ghost inverse = { λ k. record { 0 = k } };
}

/// A moment since the Unix epoch, or a length of time, in ticks of 2^-32 seconds.
#[derive(Clone, Copy, Debug, PartialEq, Eq, PartialOrd, Ord, Drop)]
pub struct Ticks(pub u64);

impl Model for Ticks {
    ghost use Rattle.std.specs.Prelude.{ℕ};

    ghost Value = { ℕ };

    ghost view = { λ t. t.0 };

    ghost inverse = { λ t. record { 0 = t } };
}

/// The later of two moments.
pub fn later(a: Ticks, b: Ticks) -> Ticks
    ensures { result ≡ max a b }
{
    Ticks(a.0.max(b.0))
}

/// A sequence number of a writer, from 1 to 2^63 - 1 (DDSI-RTPS 8.3.5.4).
#[derive(Clone, Copy, Debug, PartialEq, Eq, PartialOrd, Ord, Drop)]
pub struct Number {
    value: u64,
}

impl Model for Number {
    ghost use Rattle.std.specs.Prelude.{ℕ, ◌<◌, ◌^◌};

    ghost Value = { ℕ };

    ghost view = { λ n. n.value };

    ghost invariant = { λ n. (0 < n.value) × (n.value < 2 ^ 63) };

    ghost inverse = { λ n. record { value = n } };
}

impl Number {
    /// The first number of a writer.
    pub fn one() -> Number
        ensures { result ≡ 1 }
    {
        Number { value: 1 }
    }

    /// The number of that value, or None exactly where it is not from 1 to 2^63 - 1.
    pub fn new(value: u64) -> Option<Number>
        ensures some { IfSome result (λ n. n ≡ value) }
        ensures within { IsSome result ↔ ((0 < value) × (value < 2 ^ 63)) }
    {
        if 0 < value && value <= GREATEST_NUMBER {
            Some(Number { value })
        } else {
            None
        }
    }

    /// The number of a value that is known to be in the range.
    pub fn at(value: u64) -> Number
        requires { (0 < value) × (value < 2 ^ 63) }
        ensures { result ≡ value }
    {
        Number { value }
    }

    /// Its value.
    pub fn get(self) -> u64
        ensures value { result ≡ self }
        ensures range { (0 < result) × (result < 2 ^ 63) }
    {
        self.value
    }

    /// The number after it, under the condition that it is at most 2^63 - 2.
    pub fn next(self) -> Number
        requires { self + 1 < 2 ^ 63 }
        ensures { result ≡ self + 1 }
    {
        Number {
            value: self.value + 1,
        }
    }
}

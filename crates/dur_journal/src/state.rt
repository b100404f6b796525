//! The journal between two calls.

ghost use Rattle.std.specs.Prelude.{◌≡◌, ◌≤◌, ◌^◌};

use crate::front::Front;
use dur_outside::FileId;
use dur_view::View;
use std::marker::Model;

/// Two files, of which one is live and the other is written next.
#[derive(Drop)]
pub struct Journal<D> {
    pub(crate) disk: D,
    pub(crate) live: FileId,
    /// What the other file is.
    pub(crate) spare: Front,
    pub(crate) generation: u32,
    /// The octets of the live file's base.
    pub(crate) base: u64,
    /// The octets of the live file's records.
    pub(crate) appended: u64,
    /// How many entries were stored in this run, modulo 2^64.
    pub(crate) position: u64,
    ghost small: { base ≤ 2 ^ 30 },
}

/// A journal that was opened, the view that it keeps, and the generation of this run.
#[derive(Drop)]
pub struct Opened<D> {
    pub journal: Journal<D>,
    pub view: View,
    pub epoch: u32,
}

/// That the entries up to a position are stored. Only a journal makes one.
#[derive(Drop)]
pub struct Receipt {
    pub(crate) upto: u64,
}

impl Model for Receipt {
    ghost use Rattle.std.specs.Prelude.{ℕ};

    ghost Value = { ℕ };

    ghost view = { λ r. r.upto };
}

impl Receipt {
    /// How many entries were stored in that run, modulo 2^64.
    pub fn upto(&self) -> u64
        ensures { result ≡ self.now }
    {
        self.upto
    }
}

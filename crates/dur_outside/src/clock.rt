//! A clock that stands still, the system's clock, and the gate that holds nothing.

ghost use Rattle.std.specs.Prelude.{◌≡◌, ◌*◌, ◌/◌, ◌-◌, ◌^◌, min, Some, None};
ghost use Rattle.std.specs.Duration.{as_nanos};

use crate::{Clock, Gate, Place};
use dur_base::Ticks;
use std::marker::Model;
use std::time::{Clock as SystemClock, Duration};

/// A clock that stands still.
#[derive(Clone, Copy, Debug, Drop)]
pub struct MemClock {
    moment: Ticks,
}

impl Model for MemClock {
    ghost use Rattle.std.specs.Prelude.{ℕ};

    ghost Value = { ℕ };

    ghost view = { λ c. c.moment };

    ghost inverse = { λ moment. record { moment = moment } };
}

impl MemClock {
    /// A clock that always answers this moment.
    pub fn new(moment: Ticks) -> MemClock
        ensures { result ≡ moment }
    {
        MemClock { moment }
    }
}

impl Clock for MemClock {
    ghost told = { λ c. Some c };

    fn now(&self) -> Ticks {
        self.moment
    }
}

/// The system's clock, from the Unix epoch on. It answers 0 where that cannot be read or lies before the
/// epoch, and 2^64 - 1 from 2^32 seconds on.
#[derive(Clone, Copy, Debug, Drop)]
pub struct WallClock<C> {
    clock: C,
}

impl<C> Model for WallClock<C> {
    ghost Value = { C };

    ghost view = { λ w. w.clock };

    ghost inverse = { λ clock. record { clock = clock } };
}

impl<C: SystemClock> WallClock<C> {
    /// The time as this handle of the system tells it.
    pub fn new(clock: C) -> WallClock<C>
        ensures { result ≡ clock }
    {
        WallClock { clock }
    }
}

// In ticks of 2^-32 seconds, rounded down.
fn ticks_of(time: Duration) -> Ticks
    ensures { result ≡ min (as_nanos time * 2 ^ 32 / 1_000_000_000) (2 ^ 64 - 1) }
{
    let ticks = time.as_nanos() * (1 << 32) / 1_000_000_000;
    Ticks(u64::try_from(ticks).unwrap_or(u64::MAX))
}

impl<C: SystemClock> Clock for WallClock<C> {
    ghost told = { λ _. None };

    fn now(&self) -> Ticks {
        match self.clock.since_1970() {
            Ok(time) => ticks_of(time),
            Err(_) => Ticks(0),
        }
    }
}

/// The program's gate, which does nothing.
#[derive(Clone, Copy, Debug, Drop)]
pub struct NoGate;

impl Gate for NoGate {
    fn hold(&self, _place: Place) {}
}

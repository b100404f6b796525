//! A desk: every pass puts, and the lone pass alone takes and marks.
ghost use Rattle.std.specs.Prelude.{◌≡◌, ◌++◌, ◌∷◌, [], List};
ghost use Rattle.dur_turn.specs.Passes.{IsPassOf, IsLonePass};
ghost use Rattle.turn_uses.specs.declared.desk.Event.TheVariants.{Took, Marked};

use dur_turn::{Call, Pass, Stands, Turn};
use std::sync::Wait;

/// How many were put, and how many of them were taken, each modulo 2^64.
#[derive(Drop)]
pub struct Desk {
    pub put: u64,
    pub taken: u64,
}

/// What a list has of one call on a desk. No value of it is made.
pub enum Event {
    Put,
    /// All were taken up to this one.
    Took(u64),
    /// What was taken up to this one is done with.
    Marked(u64),
}

impl Stands for Desk {
    ghost use Rattle.std.specs.Prelude.{◌≡◌, refl};
    ghost use Rattle.turn_uses.specs.Storing.{put_after, taken_after, IsLegal, is_lone};

    type Event = Event;

    ghost stands = { λ start log v. (v.put ≡ put_after start.put log) × (v.taken ≡ taken_after start.taken log) × IsLegal start.put start.taken log };

    ghost is_lone = { is_lone };

    ghost alone = { λ v. (refl, refl, tt) };
}

/// Puts one more.
#[derive(Drop)]
pub struct PutOne;

impl Call<Desk> for PutOne {
    ghost use Rattle.std.specs.Prelude.{◌≡◌, false};
    ghost use Rattle.std.proofs.Common.{ap};
    ghost use Rattle.turn_uses.specs.declared.desk.Event.TheVariants.{Put};
    ghost use Rattle.turn_uses.specs.Storing.{is_lone};

    type Reply = ();

    ghost lone = { λ _. false };

    ghost asks = { λ _ _ _. Unit {0} };

    ghost told = { λ _ _ e. e ≡ Put };

    ghost lone_told = { λ c r e h. ap is_lone h };

    fn run(self, value: &mut Desk) {
        value.put = value.put.wrapping_add(1);
    }
}

/// Takes all that was put, and answers up to which one.
#[derive(Drop)]
pub struct TakeAll;

impl Call<Desk> for TakeAll {
    ghost use Rattle.std.specs.Prelude.{◌≡◌, true};
    ghost use Rattle.std.proofs.Common.{ap};
    ghost use Rattle.turn_uses.specs.declared.desk.Event.TheVariants.{Took};
    ghost use Rattle.turn_uses.specs.Storing.{is_lone};

    type Reply = u64;

    ghost lone = { λ _. true };

    ghost asks = { λ _ _ _. Unit {0} };

    ghost told = { λ _ reply e. e ≡ Took reply };

    ghost lone_told = { λ c r e h. ap is_lone h };

    fn run(self, value: &mut Desk) -> u64 {
        value.taken = value.put;
        value.put
    }
}

/// Marks what was taken as done with. Asks that it names just what was taken.
#[derive(Drop)]
pub struct Mark(pub u64);

impl Call<Desk> for Mark {
    ghost use Rattle.std.specs.Prelude.{◌≡◌, true};
    ghost use Rattle.std.proofs.Common.{ap};
    ghost use Rattle.turn_uses.specs.declared.desk.Event.TheVariants.{Marked};
    ghost use Rattle.turn_uses.specs.Storing.{is_lone, taken_after};

    type Reply = ();

    ghost lone = { λ _. true };

    ghost asks = { λ call start log. call.0 ≡ taken_after start.taken log };

    ghost told = { λ call _ e. e ≡ Marked call.0 };

    ghost lone_told = { λ c r e h. ap is_lone h };

    fn run(self, _value: &mut Desk) {}
}

/// Takes all, and then marks what was taken, whatever other passes put in between.
pub fn take_and_mark<R: Wait>(rt: &R, turn: &Turn<Desk>, pass: &mut Pass<Desk>) -> u64
    requires own { IsPassOf turn.now pass.old }
    requires lone { IsLonePass pass.old }
    ensures own { IsPassOf turn.now pass.new × IsLonePass pass.new }
    ensures mine { pass.new.mine ≡ (pass.old.mine ++ Took result ∷ []) ++ Marked result ∷ [] }
{
    let upto = turn.with(rt, pass, TakeAll);
    turn.with(rt, pass, Mark(upto));
    upto
}

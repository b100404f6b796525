//! Laws about `late`: public functions whose contracts are the laws, and which do nothing.

ghost use Rattle.std.specs.Prelude.{ℕ, List};
ghost use Rattle.dur_view.specs.declared.change.Change.{Change};
ghost use Rattle.rel_writer.specs.declared.ids.Ids.{Ids};
ghost use Rattle.rel_writer.specs.LateReaders.{Late};
ghost use Rattle.dur_rerun.specs.Late.Sessions.{EndsBefore};
ghost use Rattle.dur_rerun.specs.Late.Turns.{GoOneWay};

/// What came over a link calls for one list of turns: it determines the ACKNACKs, turn by turn, and what was taken.
pub fn turns_go_one_way()
    ensures { (l : Late) → GoOneWay l }
{}

/// Over a session of n changes that answers each datagram at once, a late reader that is not done after some turns
/// took fewer than 3 + 2 (n + 1).
pub fn turns_end()
    ensures { (service : List ℕ) (ids : Ids) (changes : List Change) → EndsBefore service ids changes }
{}

//! What holds of every replay.

ghost use Rattle.std.specs.Prelude.{◌≡◌, ℕ, List, Some, true};
ghost use Rattle.dur_view.specs.declared.change.Change.{Change};
ghost use Rattle.rel_writer.specs.declared.ids.Ids.{Ids};
ghost use Rattle.rel_writer.specs.Sessions.{Sending};
ghost use Rattle.rel_writer.specs.Worlds.{World, Event, Steps, start};
ghost use Rattle.dur_base.specs.declared.fact.Fact.{Fact};
ghost use Rattle.rel_writer.specs.LateReaders.{Late};
ghost use Rattle.rel_writer.specs.Law.{TakesReplay, HasTakenAll, HearsOneWay, AsksOneWay};
ghost use Rattle.rel_writer.specs.Together.{GoUnderTheirFirst};
ghost use Rattle.rel_writer.specs.Turns.{EndsInTime};

/// Whatever datagrams come, again and in any order, of whichever session: what the late reader has
/// taken is a front of what the session sends that it keeps to, and all of it once the late reader
/// is done. A session is complete only once the late reader has taken all that it sends.
pub fn each_reader_takes_the_replay()
    ensures front { (reader service writer : List ℕ) (events : List Event) (w : World)
        → Steps (start reader service writer) events w → TakesReplay w }
    ensures complete { (reader service writer : List ℕ) (events : List Event) (w : World)
        (s : Sending) → Steps (start reader service writer) events w
        → w.session ≡ Some s → s.complete ≡ true → HasTakenAll w s }
{}

/// Over a link whose other end is a session of n changes that answers each datagram at once, a late
/// reader that takes turns is done within 3 + 2 (n + 1) of them.
pub fn late_readers_end()
    ensures { (service : List ℕ) (ids : Ids) (changes : List Change)
        → EndsInTime service ids changes }
{}

/// Where the members of each set stand together, a set is sent under the least place of its
/// members.
pub fn sets_go_under_their_first_member()
    ensures { (changes : List Change) → GoUnderTheirFirst changes }
{}

/// What a late reader makes of a datagram, and whether it is to send an ACKNACK, is determined by what
/// the datagram tells.
pub fn late_readers_hear_in_one_way()
    ensures { (l : Late) (facts : List Fact) → HearsOneWay l facts }
{}

/// What a late reader asks is determined by all that came: it has one next ACKNACK.
pub fn late_readers_ask_in_one_way()
    ensures { (l : Late) → AsksOneWay l }
{}

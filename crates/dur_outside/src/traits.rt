//! The traits of the outside. Each has a count of faults that does not fall, and answers `Failed` only
//! where that count rose in the same call; an adapter's count stays at 2^64 - 1 and then counts as risen.
//! Clauses on content hold where the content is told: in memory it is, by the adapters to the system it
//! is not.

ghost use Rattle.std.specs.Prelude.{◌≡◌, ℕ, ◌<◌, ◌≤◌, ◌+◌, List, [], ◌∷◌, ◌++◌, length, take, drop, IfOk, IfSome, OnOk, OnErr, option_map};
ghost use Rattle.std.specs.declared.option.Option.{Option};
ghost use Rattle.std.specs.Io.{ReadsAtMost};
ghost use Rattle.std.specs.Io.KnownBytes.{ReadConsumes};
ghost use Rattle.dur_outside.specs.Causes.{HasCause};
ghost use Rattle.dur_outside.specs.World.{World, IsSound, Reads, Writes, Cuts, Syncs, Sends, content};

use crate::{Failed, FileId, Place};
use dur_base::Ticks;

/// Where octets come from.
pub trait Source {
    /// The octets that reads are still to give, where that is told.
    ghost left: { Self → Option (List ℕ) };

    /// How many calls failed.
    ghost faults: { Self → ℕ };

    /// Reads some octets to the front of `into`, which is not empty, and answers how many. 0 is the end
    /// of input: where the content is told, it comes exactly where nothing is left. `Failed` comes only
    /// where the count of faults rose in this call, and then what is left is as it was.
    fn read(&mut self, into: &mut [u8]) -> Result<usize, Failed>
        requires { 0 < length into.old }
        ensures bound { ReadsAtMost result into.new }
        ensures bytes { ReadConsumes (left self.old) (left self.new) result into.new }
        ensures cause { HasCause (faults self.old) (faults self.new) result };
}

/// What stands outside at a moment, under one clock: two files, what was written out, what a crash may
/// leave of them, and how often each part failed. It has no calls of its own. A call of one part leaves the
/// other part's count as it is.
pub trait Machine {
    /// Whether the content is told.
    ghost tells: { Type 0 };

    /// The world at this moment. Where there are no files they are empty.
    ghost world: { Self → World };

    /// How many calls on the files failed: 0 where there are none.
    ghost disk_faults: { Self → ℕ };

    /// How many writes failed: 0 where nothing is written out.
    ghost sink_faults: { Self → ℕ };
}

/// Where octets go.
pub trait Sink: Machine {
    /// Appends a front of `piece`, which is not empty, and answers how many octets went out, at least
    /// one: a sink that takes nothing counts a fault. `Failed` comes only where the sink's count of faults
    /// rose in this call, and then what was written out is as it was. What a crash may leave of the files
    /// stays, and so does their count of faults.
    fn write(&mut self, piece: &[u8]) -> Result<usize, Failed>
        requires { 0 < length piece.now }
        ensures least { IfOk result (λ n. 0 < n) }
        ensures most { IfOk result (λ n. n ≤ length piece.now) }
        ensures sends { Self.tells → Sends piece.now result (Self.world self.old) (Self.world self.new) }
        ensures cause { HasCause (Self.sink_faults self.old) (Self.sink_faults self.new) result }
        ensures keeps { Self.disk_faults self.new ≡ Self.disk_faults self.old };
}

/// Two files, which nobody else writes. Places are counted in octets from a file's start.
///
/// Each call answers `Failed` only where the files' count of faults rose in that call. A call on one file
/// leaves the other, what was written out, and the sink's count as they are.
///
/// Between two syncs of a file each written range, and everything past the old end, may hold any octets
/// after a crash, and the length may be any between the old and the new one. Other octets stay, and so
/// does what was written out.
pub trait Disk: Machine {
    /// Answers the length of that file.
    fn len(&mut self, file: FileId) -> Result<u64, Failed>
        ensures length { Self.tells → IfOk result (λ n. n ≡ length (content file (Self.world self.old).now)) }
        ensures reads { Self.tells → Reads (Self.world self.old) (Self.world self.new) }
        ensures cause { HasCause (Self.disk_faults self.old) (Self.disk_faults self.new) result }
        ensures keeps { Self.sink_faults self.new ≡ Self.sink_faults self.old };

    /// Fills `into` with the octets from that place on, all of which stand within the file. After `Failed`
    /// `into` may hold anything.
    fn read(&mut self, file: FileId, at: u64, into: &mut [u8]) -> Result<(), Failed>
        requires { Self.tells → at + length into.old ≤ length (content file (Self.world self.old).now) }
        ensures bytes { Self.tells → OnOk result
            (into.new ≡ take (length into.old) (drop at (content file (Self.world self.old).now))) }
        ensures reads { Self.tells → Reads (Self.world self.old) (Self.world self.new) }
        ensures cause { HasCause (Self.disk_faults self.old) (Self.disk_faults self.new) result }
        ensures keeps { Self.sink_faults self.new ≡ Self.sink_faults self.old };

    /// Writes these octets at a place within the file or at its end, over what stands there. After
    /// `Failed` any part of the range may have been written.
    fn write_at(&mut self, file: FileId, at: u64, bytes: &[u8]) -> Result<(), Failed>
        requires { Self.tells → at ≤ length (content file (Self.world self.old).now) }
        ensures writes { Self.tells → Writes file at bytes.now result (Self.world self.old) (Self.world self.new) }
        ensures cause { HasCause (Self.disk_faults self.old) (Self.disk_faults self.new) result }
        ensures keeps { Self.sink_faults self.new ≡ Self.sink_faults self.old };

    /// Cuts the file off at a place within it or at its end. After `Failed` it may end anywhere from
    /// there on.
    fn cut(&mut self, file: FileId, end: u64) -> Result<(), Failed>
        requires { Self.tells → end ≤ length (content file (Self.world self.old).now) }
        ensures cuts { Self.tells → Cuts file end result (Self.world self.old) (Self.world self.new) }
        ensures cause { HasCause (Self.disk_faults self.old) (Self.disk_faults self.new) result }
        ensures keeps { Self.sink_faults self.new ≡ Self.sink_faults self.old };

    /// Makes what was changed in that file outlast a crash. After `Failed` it may not.
    fn sync(&mut self, file: FileId) -> Result<(), Failed>
        ensures syncs { Self.tells → Syncs file result (Self.world self.old) (Self.world self.new) }
        ensures cause { HasCause (Self.disk_faults self.old) (Self.disk_faults self.new) result }
        ensures keeps { Self.sink_faults self.new ≡ Self.sink_faults self.old };

    /// A disk as it reads is one of the images that a crash may leave.
    ghost sound: { Self.tells → (d : Self) → IsSound (Self.world d) };
}

/// The disk and the output of a run, under one clock: a crash leaves two files, and the octets written
/// out by then.
pub trait Rig: Disk + Sink {}

/// The most octets of a datagram over UDP and IPv4.
pub const LONGEST_DATAGRAM: usize = 65_507;

/// Where datagrams come from and go to.
pub trait Link {
    /// Whether the content is told.
    ghost tells: { Type 0 };

    /// What `receive` answered, in order. None: nothing was waiting.
    ghost heard: { Self → List (Option (List ℕ)) };

    /// What was sent, in order.
    ghost sent: { Self → List (List ℕ) };

    /// How many calls failed.
    ghost link_faults: { Self → ℕ };

    /// Puts the next datagram to the front of `into`, which has room for the longest, and answers its
    /// length. None: nothing was waiting. `Failed` comes only where the count of faults rose in this call.
    fn receive(&mut self, into: &mut [u8]) -> Result<Option<usize>, Failed>
        requires { 65507 ≤ length into.old }
        ensures bound { IfOk result (λ got. IfSome got (λ n. n ≤ 65507)) }
        ensures heard { Self.tells → IfOk result
            (λ got. heard self.new ≡ heard self.old ++ option_map (λ n. take n into.new) got ∷ []) }
        ensures unheard { Self.tells → OnErr result (heard self.new ≡ heard self.old) }
        ensures unsent { Self.tells → sent self.new ≡ sent self.old }
        ensures cause { HasCause (link_faults self.old) (link_faults self.new) result };

    /// Sends one datagram. `Failed` comes only where the count of faults rose in this call, and then it was
    /// not sent.
    fn send(&mut self, bytes: &[u8]) -> Result<(), Failed>
        ensures sent { Self.tells → OnOk result (sent self.new ≡ sent self.old ++ bytes.now ∷ []) }
        ensures unsent { Self.tells → OnErr result (sent self.new ≡ sent self.old) }
        ensures unheard { Self.tells → heard self.new ≡ heard self.old }
        ensures cause { HasCause (link_faults self.old) (link_faults self.new) result };
}

/// What the time is.
pub trait Clock {
    /// The one moment that it always answers, where that is told.
    ghost told: { Self → Option ℕ };

    /// The time in ticks of 2^-32 seconds. It cannot fail.
    fn now(&self) -> Ticks
        ensures { IfSome (told self.now) (λ moment. result ≡ moment) };
}

/// Where a test can hold a job of the service.
pub trait Gate {
    /// Called by a job that has come to that place.
    fn hold(&self, place: Place);
}

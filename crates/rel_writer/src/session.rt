//! A session: the replay of a snapshot to one late reader.

ghost use Rattle.std.specs.Prelude.{◌≡◌, ℕ, ◌-◌, ◌≤◌, length, take};
ghost use Rattle.dur_base.specs.NumberSets.{names};
ghost use Rattle.rel_writer.specs.Replays.{AreSendable, sent};
ghost use Rattle.rel_writer.specs.Sessions.{IsBeat, IsData, Writes, answered, asks_beat, beaten, is_asked, last_of, opened};

use crate::asked::up_to;
use crate::choices::either;
use crate::members::mark_all;
use crate::{Asked, Ids};
use dur_base::{Bits, Number};
use dur_view::{Change, Snapshot};
use rtps_message::{write_data, write_heartbeat, write_marker};
use std::marker::Model;

/// The replay of a snapshot to one late reader, as a stateful writer with one reader (DDSI-RTPS
/// 8.4.9). It shares the payloads of the snapshot, and no call of it takes memory.
#[derive(Drop)]
pub struct Session {
    ids: Ids,
    // With their samples as they are sent.
    changes: Vec<Change>,
    // How many HEARTBEATs it sent, modulo 2^32.
    beats: u32,
    complete: bool,
}

impl Model for Session {
    ghost use Rattle.std.specs.Prelude.{map};
    ghost use Rattle.rel_writer.specs.Sessions.{Sending, IsSending};

    ghost Value = { Sending };

    ghost view = { λ s. record {
      ids = s.ids;
      samples = map (λ c. c.sample) s.changes.items;
      beats = s.beats;
      complete = s.complete;
    } };

    ghost invariant = { λ s. IsSending (record {
      ids = s.ids;
      samples = map (λ c. c.sample) s.changes.items;
      beats = s.beats;
      complete = s.complete;
    }) };
}

impl Session {
    /// A session that has sent nothing yet. Its numbers are 1 to n + 1 for n changes, and n + 1 is
    /// that of the marker. Conditions, which `are_sendable` tests: the samples are good and carry
    /// their originals, their acts are those of changes, and their keys are zero where the topic
    /// has none.
    pub fn new(snapshot: Snapshot, ids: Ids) -> Session
        requires { AreSendable ids.keyed snapshot.changes }
        ensures { result ≡ opened ids (sent snapshot.changes) }
    {
        let mut changes = snapshot.changes.into_vec();
        mark_all(changes.as_mut_slice());
        Session {
            ids,
            changes,
            beats: 0,
            complete: false,
        }
    }

    /// The number of the marker.
    pub fn last(&self) -> Number
        ensures { result ≡ last_of self.now }
    {
        Number::at(self.changes.len() as u64 + 1)
    }

    /// An ACKNACK with this set came. It asks for the set's numbers up to the marker's, and for a
    /// HEARTBEAT unless its base is above the marker: then the session is complete (DDSI-RTPS
    /// 8.4.9.2).
    pub fn on_nack(&mut self, set: &Bits) -> Asked
        ensures after { self.new ≡ answered self.old set.now }
        ensures base { result.numbers.base ≡ set.now.base }
        ensures numbers { (k : ℕ) → names result.numbers k ≡ is_asked self.old set.now k }
        ensures beat { result.beat ≡ asks_beat self.old set.now }
    {
        let last = self.last().get();
        let beat = set.base().get() <= last;
        self.complete = either(self.complete, last < set.base().get());
        Asked {
            numbers: up_to(set, last),
            beat,
        }
    }

    /// Writes the DATA of that number, and says how many octets it takes. Conditions: the number is
    /// at most the marker's, and `out` has 65,507 octets (DDSI-RTPS 9.4.5.3).
    pub fn data(&self, number: Number, out: &mut [u8]) -> usize
        requires number { number ≤ last_of self.now }
        requires room { 65507 ≤ length out.old }
        ensures data { IsData self.now (number - 1) (take result out.new) }
        ensures writes { Writes out.old out.new result }
    {
        let ids = self.ids;
        match self.changes.as_slice().get((number.get() - 1) as usize) {
            Some(change) => write_data(
                ids.own,
                ids.reader,
                ids.writer,
                number,
                &change.sample,
                ids.keyed,
                out,
            ),
            None => write_marker(ids.own, ids.reader, ids.writer, number, out),
        }
    }

    /// Writes the next HEARTBEAT, and says how many octets it takes. Condition: `out` has 65,507
    /// octets (DDSI-RTPS 9.4.5.7).
    pub fn beat(&mut self, out: &mut [u8]) -> usize
        requires { 65507 ≤ length out.old }
        ensures after { self.new ≡ beaten self.old }
        ensures beat { IsBeat self.old (take result out.new) }
        ensures writes { Writes out.old out.new result }
    {
        self.beats = self.beats.wrapping_add(1);
        let ids = self.ids;
        write_heartbeat(
            ids.own,
            ids.reader,
            ids.writer,
            self.last(),
            self.beats,
            out,
        )
    }

    /// Whether the late reader said that it has all, the marker too.
    pub fn complete(&self) -> bool
        ensures { result ≡ self.now.complete }
    {
        self.complete
    }
}

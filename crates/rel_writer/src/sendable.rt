//! Whether changes can be replayed: the test that goes with the condition of `Session::new`.

ghost use Rattle.std.specs.Prelude.{◌≡◌, ◌+◌, ◌-◌, ◌<◌, ◌^◌, ◌↔◌, IsTrue, Some, false, length};
ghost use Rattle.dur_base.specs.Goodness.{zero_key};
ghost use Rattle.rtps_message.specs.Written.{IsChange};
ghost use Rattle.rel_writer.specs.Replays.{AreSendable, IsSendable};

use dur_base::{Act, Guid, Key, Number};
use dur_view::Change;

/// Whether it is the act of a change.
fn is_change(act: Act) -> bool
    ensures { IsTrue result ↔ IsChange act }
{
    match act {
        Act::Write | Act::Dispose | Act::DisposeUnregister => true,
        Act::Unregister | Act::Marker => false,
    }
}

/// Whether a sample carries this original.
fn carries(original: Option<(Guid, Number)>, guid: Guid, number: Number) -> bool
    ensures { IsTrue result ↔ (original ≡ Some (guid, number)) }
{
    match original {
        Some((own, own_number)) => own.0 == guid.0 && own_number.get() == number.get(),
        None => false,
    }
}

/// Whether a key is zero where the topic has none.
fn fits_topic(keyed: bool, key: Key) -> bool
    ensures { IsTrue result ↔ (keyed ≡ false → key ≡ zero_key) }
{
    keyed || key.0 == [0; 16]
}

fn is_sendable(change: &Change, keyed: bool) -> bool
    ensures { IsTrue result ↔ IsSendable keyed change.now }
{
    let sample = &change.sample;
    sample.is_good()
        && is_change(sample.act)
        && carries(sample.original, change.original, change.number)
        && fits_topic(keyed, sample.key)
}

/// Whether a session takes these changes, and its marker still has a number of a sample.
pub fn are_sendable(changes: &[Change], keyed: bool) -> bool
    ensures { IsTrue result ↔ AreSendable keyed changes.now }
{
    for change in changes {
        if !is_sendable(change, keyed) {
            return false;
        }
    }
    (changes.len() as u64) < 0x7fff_ffff_ffff_fffe
}

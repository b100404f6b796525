//! The sample that a DATA stands for.

ghost use Rattle.std.specs.Prelude.{◌≡◌, ◌≤◌, IfSome};
ghost use Rattle.dur_base.specs.Goodness.{IsGood, IsGoodRaw};
ghost use Rattle.rtps_message.specs.Samples.{act_of, key_for, reads};

use crate::key::key_of;
use dur_base::{Act, Form, Key, Raw, Sample, Shape, Ticks};

/// What it does to its instance, or None where a key alone comes without a status.
fn act_of(form: Form, status: u8) -> Option<Act>
    ensures { result ≡ act_of form status }
{
    match (status, form) {
        (0, Form::Nothing) => Some(Act::Marker),
        (0, Form::Data) => Some(Act::Write),
        (0, Form::KeyOnly) => None,
        (1, _) => Some(Act::Dispose),
        (2, _) => Some(Act::Unregister),
        _ => Some(Act::DisposeUnregister),
    }
}

/// Its key; that of a marker is zero.
fn key_for(act: Act, shape: Shape, hash: Option<Key>, payload: &[u8]) -> Option<Key>
    ensures { result ≡ key_for act shape hash payload.now }
{
    match act {
        Act::Marker => Some(Key([0; 16])),
        _ => key_of(shape, hash, payload),
    }
}

/// The sample of a DATA in a topic of that shape, or None exactly where it is unreadable: a key alone with
/// status 0, or a key that is to be found neither in an inline hash nor in the payload. Its stamp is the time
/// that it was sent with, or else `moment`. It takes no memory. Condition: the raw one is good; then so is the
/// sample (DDSI-RTPS 9.6.4.8, 9.6.4.9).
pub fn sample_of(shape: Shape, moment: Ticks, raw: Raw) -> Option<Sample>
    requires { IsGoodRaw raw }
    ensures sample { result ≡ reads shape moment raw }
    ensures good { IfSome result (λ s. IsGood s) }
{
    let act = act_of(raw.form, raw.status)?;
    let key = key_for(act, shape, raw.hash, raw.payload.as_slice())?;
    Some(Sample {
        key,
        act,
        stamp: raw.stamp.unwrap_or(moment),
        lifespan: raw.lifespan,
        set: raw.set,
        original: raw.original,
        form: raw.form,
        payload: raw.payload,
    })
}

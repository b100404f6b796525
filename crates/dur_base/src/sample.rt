//! Samples: as a DATA tells them, and as a history keeps them.

ghost use Rattle.std.specs.Prelude.{◌≡◌, ◌≤◌, ◌<◌, ◌+◌, ◌*◌, ◌^◌, ◌↔◌, IfOk, IfSome, IsTrue, [], length};
ghost use Rattle.dur_base.specs.Goodness.{IsGood, IsGoodRaw, IsLifespan, IsMark, IsOriginal, IsPayload, IsAct};

use crate::{GREATEST_NUMBER, Guid, Key, LONGEST_PAYLOAD, Number, OutOfMemory, Payload, Ticks};
use std::alloc::Global;

/// What a sample does to its instance.
#[derive(Clone, Copy, Debug, PartialEq, Eq, Drop)]
pub enum Act {
    /// It gives the instance a value.
    Write,
    /// It disposes the instance (DDS 2.2.2.4.2.13).
    Dispose,
    /// It ends the writer's registration with the instance (DDS 2.2.2.4.2.7).
    Unregister,
    /// Both at once.
    DisposeUnregister,
    /// It ends a replay, and speaks of no instance.
    Marker,
}

/// What the payload of a DATA holds (DDSI-RTPS 8.3.8.2).
#[derive(Clone, Copy, Debug, PartialEq, Eq, Drop)]
pub enum Form {
    /// There is none.
    Nothing,
    /// A sample's data.
    Data,
    /// A key alone.
    KeyOnly,
}

/// Which coherent set a sample is of (DDSI-RTPS 9.6.4.2).
#[derive(Clone, Copy, Debug, PartialEq, Eq, Drop)]
pub enum SetMark {
    /// None.
    NoSet,
    /// None, and it says so: what came before it is whole.
    End,
    /// The set that begins at that number.
    Of(Number),
}

/// A sample as a DATA tells it, before its key is read.
#[derive(Drop)]
pub struct Raw {
    /// The inline key hash.
    pub hash: Option<Key>,
    /// 1 where the instance is disposed, and 2 more where it is unregistered.
    pub status: u8,
    /// The time of an INFO_TS before it, in ticks of 2^-32 s.
    pub stamp: Option<Ticks>,
    /// How long it lives, in ticks of 2^-32 s. None is for ever.
    pub lifespan: Option<Ticks>,
    /// Its coherent set.
    pub set: SetMark,
    /// Who wrote it first, and as which number.
    pub original: Option<(Guid, Number)>,
    /// What its payload holds.
    pub form: Form,
    /// Its payload, as it came.
    pub payload: Payload,
}

/// A sample as a history keeps it.
#[derive(Drop)]
pub struct Sample {
    /// The key of its instance.
    pub key: Key,
    /// What it does to its instance.
    pub act: Act,
    /// Its source timestamp, in ticks of 2^-32 s.
    pub stamp: Ticks,
    /// How long it lives from its stamp on, in ticks of 2^-32 s (DDS 2.2.3.16). None is for ever.
    pub lifespan: Option<Ticks>,
    /// Its coherent set.
    pub set: SetMark,
    /// Who wrote it first, and as which number.
    pub original: Option<(Guid, Number)>,
    /// What its payload holds.
    pub form: Form,
    /// Its payload, as it came.
    pub payload: Payload,
}

impl Raw {
    /// Whether it is good: what every call that takes one asks of it.
    pub fn is_good(&self) -> bool
        ensures { IsTrue result ↔ IsGoodRaw self.now }
    {
        if self.status > 3 || !is_lifespan(self.lifespan) || !is_mark(self.set) {
            return false;
        }
        is_original(self.original) && is_payload(self.form, &self.payload)
    }
}

impl Sample {
    /// An equal sample, which shares the payload's octets.
    pub fn copy(&self) -> Result<Sample, OutOfMemory>
        ensures { IfOk result (λ s. s ≡ self.now) }
    {
        let payload = self.payload.share()?;
        Ok(self.with(payload))
    }

    /// An equal sample that may be kept for long: its payload does not hold a datagram many times its size
    /// (`Payload::to_keep`).
    pub fn to_keep(&self, alloc: Global) -> Result<Sample, OutOfMemory>
        ensures { IfOk result (λ s. s ≡ self.now) }
    {
        let payload = self.payload.to_keep(alloc)?;
        Ok(self.with(payload))
    }

    // The sample over an equal payload.
    fn with(&self, payload: Payload) -> Sample
        requires { payload ≡ self.now.payload }
        ensures { result ≡ self.now }
    {
        Sample {
            key: self.key,
            act: self.act,
            stamp: self.stamp,
            lifespan: self.lifespan,
            set: self.set,
            original: self.original,
            form: self.form,
            payload,
        }
    }

    /// Whether it is good: what every call that takes one asks of it.
    pub fn is_good(&self) -> bool
        ensures { IsTrue result ↔ IsGood self.now }
    {
        if !is_lifespan(self.lifespan) || !is_mark(self.set) || !is_original(self.original) {
            return false;
        }
        is_payload(self.form, &self.payload) && is_act(self.act, self.form, &self.key)
    }
}

fn is_lifespan(lifespan: Option<Ticks>) -> bool
    ensures { IsTrue result ↔ IsLifespan lifespan }
{
    match lifespan {
        Some(ticks) => ticks.0 < 0x7fff_ffff_0000_0000,
        None => true,
    }
}

fn is_mark(set: SetMark) -> bool
    ensures { IsTrue result ↔ IsMark set }
{
    match set {
        SetMark::Of(number) => number.get() < GREATEST_NUMBER,
        SetMark::NoSet | SetMark::End => true,
    }
}

fn is_original(original: Option<(Guid, Number)>) -> bool
    ensures { IsTrue result ↔ IsOriginal original }
{
    match original {
        Some((_, number)) => number.get() < GREATEST_NUMBER,
        None => true,
    }
}

fn is_payload(form: Form, payload: &Payload) -> bool
    ensures { IsTrue result ↔ IsPayload form payload.now }
{
    match form {
        Form::Nothing => payload.len() == 0,
        Form::Data | Form::KeyOnly => payload.len() <= LONGEST_PAYLOAD,
    }
}

fn is_act(act: Act, form: Form, key: &Key) -> bool
    ensures { IsTrue result ↔ IsAct act form key.now }
{
    match act {
        Act::Write => form == Form::Data,
        Act::Marker => form == Form::Nothing && key.0 == [0; 16],
        Act::Dispose | Act::Unregister | Act::DisposeUnregister => true,
    }
}

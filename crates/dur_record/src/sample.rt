//! The text of a sample.

ghost use Rattle.std.specs.Prelude.{◌≡◌, length, IfOk};
ghost use Rattle.dur_record.specs.Run.{run, Reads, ReadsAs};
ghost use Rattle.dur_record.specs.Samples.{act_row, form_row, key_row, is_form_of, is_marked_key, is_asked, is_there_row, lifespan_row, mark_row, set_row, original_row, length_row, is_length, payload_row, sample_row};
ghost use Rattle.dur_record.specs.Fields.{number_row};
ghost use Rattle.dur_view.specs.Words.{is_change};
ghost use Rattle.std.specs.Str.{bytes_eq};

use crate::field::{Stop, Text};
use crate::version::Version;
use dur_base::{Act, Form, Guid, Key, Number, Payload, Sample, SetMark, Ticks};

/// The greatest number of a sample, 2^63 - 2.
pub const LAST_NUMBER: u64 = 0x7fff_ffff_ffff_fffe;

/// What the place of a sample asks of it.
#[derive(Clone, Copy, Drop)]
pub struct Asks {
    /// Its act is that of a change.
    pub change: bool,
    /// Its key is this one.
    pub key: Option<Key>,
    /// It is of the set with this number.
    pub set: Option<Number>,
}

/// Whether a sample of this act is a change.
fn is_change(act: Act) -> bool
    ensures { result ≡ is_change act }
{
    match act {
        Act::Write | Act::Dispose | Act::DisposeUnregister => true,
        Act::Unregister | Act::Marker => false,
    }
}

/// Whether a sample of this act may have this form.
fn fits(act: Act, form: Form) -> bool
    ensures { result ≡ is_form_of act form }
{
    match act {
        Act::Write => form == Form::Data,
        Act::Marker => form == Form::Nothing,
        Act::Dispose | Act::Unregister | Act::DisposeUnregister => true,
    }
}

/// Whether a payload of this form may have that many octets.
fn is_len(form: Form, len: u64) -> bool
    ensures { result ≡ is_length form len }
{
    match form {
        Form::Nothing => len == 0,
        Form::Data | Form::KeyOnly => len <= 65_344,
    }
}

/// Whether the key is that of a marker, or the act none.
fn is_marked(act: Act, key: Key) -> bool
    ensures { result ≡ is_marked_key act key }
{
    match act {
        Act::Marker => key.0 == [0; 16],
        Act::Write | Act::Dispose | Act::Unregister | Act::DisposeUnregister => true,
    }
}

/// Whether it is the key that is asked for, if one is.
pub fn is_asked_key(asked: Option<Key>, key: Key) -> bool
    ensures { result ≡ is_asked bytes_eq asked key }
{
    match asked {
        Some(asked) => asked.0 == key.0,
        None => true,
    }
}

impl Text {
    /// An act.
    #[tactic(auto, unfolding(crate::specs::Samples::act_row), using(crate::proofs::Steps::u8_is))]
    fn act(&mut self, asks: &Asks) -> Result<Act, Stop>
        ensures { Reads result self.new.rest (run (act_row asks.now) self.old.rest) }
    {
        let bad = self.bad();
        let act = match self.u8()? {
            0 => Act::Write,
            1 => Act::Dispose,
            2 => Act::Unregister,
            3 => Act::DisposeUnregister,
            4 => Act::Marker,
            _ => return Err(bad),
        };
        if asks.change && !is_change(act) {
            return Err(bad);
        }
        Ok(act)
    }

    /// A form that fits the act.
    #[tactic(auto, unfolding(crate::specs::Samples::form_row), using(crate::proofs::Steps::u8_is))]
    fn form(&mut self, act: Act) -> Result<Form, Stop>
        ensures { Reads result self.new.rest (run (form_row act) self.old.rest) }
    {
        let bad = self.bad();
        let form = match self.u8()? {
            0 => Form::Nothing,
            1 => Form::Data,
            2 => Form::KeyOnly,
            _ => return Err(bad),
        };
        if !fits(act, form) {
            return Err(bad);
        }
        Ok(form)
    }

    /// The key of a sample.
    #[tactic(auto, unfolding(crate::specs::Samples::key_row), using(crate::proofs::Steps::octets_is))]
    fn sample_key(&mut self, asks: &Asks, act: Act) -> Result<Key, Stop>
        ensures { Reads result self.new.rest (run (key_row asks.now act) self.old.rest) }
    {
        let bad = self.bad();
        let key = self.key()?;
        if !is_marked(act, key) || !is_asked_key(asks.key, key) {
            return Err(bad);
        }
        Ok(key)
    }

    /// Whether a value follows: 00 or 01.
    #[tactic(auto, unfolding(crate::specs::Samples::is_there_row), using(crate::proofs::Steps::u8_is))]
    pub fn is_there(&mut self) -> Result<bool, Stop>
        ensures { Reads result self.new.rest (run is_there_row self.old.rest) }
    {
        let bad = self.bad();
        match self.u8()? {
            0 => Ok(false),
            1 => Ok(true),
            _ => Err(bad),
        }
    }

    /// A lifespan.
    #[tactic(auto, unfolding(crate::specs::Samples::lifespan_row), using(crate::proofs::Steps::u64_is))]
    fn lifespan(&mut self) -> Result<Option<Ticks>, Stop>
        ensures { Reads result self.new.rest (run lifespan_row self.old.rest) }
    {
        if !self.is_there()? {
            return Ok(None);
        }
        let bad = self.bad();
        let ticks = self.u64()?;
        if ticks >= 0x7fff_ffff_0000_0000 {
            return Err(bad);
        }
        Ok(Some(Ticks(ticks)))
    }

    /// The number of a sample, from 1 to 2^63 - 2.
    #[tactic(auto, unfolding(crate::specs::Fields::number_row), using(crate::proofs::Steps::u64_is))]
    pub fn number(&mut self) -> Result<Number, Stop>
        ensures reads { Reads result self.new.rest (run number_row self.old.rest) }
    {
        let bad = self.bad();
        let value = self.u64()?;
        if value == 0 || value > LAST_NUMBER {
            return Err(bad);
        }
        Ok(Number::at(value))
    }

    /// The mark of the set that is asked for.
    #[tactic(auto, unfolding(crate::specs::Samples::mark_row), using(crate::proofs::Steps::u64_is))]
    fn mark(&mut self, asked: Option<Number>) -> Result<SetMark, Stop>
        ensures { Reads result self.new.rest (run (mark_row asked) self.old.rest) }
    {
        let bad = self.bad();
        let value = self.u64()?;
        if value == 0 || value > LAST_NUMBER {
            return Err(bad);
        }
        match asked {
            Some(first) if first.get() != value => Err(bad),
            _ => Ok(SetMark::Of(Number::at(value))),
        }
    }

    /// A mark of a set.
    #[tactic(auto, unfolding(crate::specs::Samples::set_row), using(crate::proofs::Steps::u8_is))]
    fn set(&mut self, asks: &Asks) -> Result<SetMark, Stop>
        ensures { Reads result self.new.rest (run (set_row asks.now) self.old.rest) }
    {
        let bad = self.bad();
        let tag = self.u8()?;
        if tag > 2 || (asks.set.is_some() && tag != 2) {
            return Err(bad);
        }
        match tag {
            0 => Ok(SetMark::NoSet),
            1 => Ok(SetMark::End),
            _ => self.mark(asks.set),
        }
    }

    /// Who wrote a sample first, and as which number.
    #[tactic(auto, unfolding(crate::specs::Samples::original_row), using(crate::proofs::Steps::u64_is))]
    fn original(&mut self) -> Result<Option<(Guid, Number)>, Stop>
        ensures { Reads result self.new.rest (run original_row self.old.rest) }
    {
        if !self.is_there()? {
            return Ok(None);
        }
        let guid = self.guid()?;
        let number = self.number()?;
        Ok(Some((guid, number)))
    }

    /// The length of a payload.
    #[tactic(auto, using(crate::proofs::Steps::u32_is, crate::proofs::Steps::u64_is))]
    fn payload_len(&mut self, version: Version, form: Form) -> Result<u64, Stop>
        ensures { Reads result self.new.rest (run (length_row version (is_length form)) self.old.rest) }
    {
        let bad = self.bad();
        let len = match version {
            Version::One => u64::from(self.u32()?),
            Version::Two => self.u64()?,
        };
        if !is_len(form, len) {
            return Err(bad);
        }
        Ok(len)
    }

    /// A payload, which shares the text's octets.
    #[tactic(auto, unfolding(crate::specs::Samples::payload_row), using(crate::proofs::Steps::u64_is))]
    fn payload(&mut self, version: Version, form: Form) -> Result<Payload, Stop>
        ensures { Reads result self.new.rest (run (payload_row version form) self.old.rest) }
    {
        let len = self.payload_len(version, form)?;
        Ok(Payload::of(self.octets(len as usize)?))
    }

    /// A sample.
    #[tactic(auto, unfolding(crate::specs::Samples::sample_row))]
    pub fn sample(&mut self, version: Version, asks: &Asks) -> Result<Sample, Stop>
        ensures { Reads result self.new.rest (run (sample_row version asks.now) self.old.rest) }
    {
        let act = self.act(asks)?;
        let form = self.form(act)?;
        let key = self.sample_key(asks, act)?;
        let stamp = Ticks(self.u64()?);
        let lifespan = self.lifespan()?;
        let set = self.set(asks)?;
        let original = self.original()?;
        let payload = self.payload(version, form)?;
        Ok(Sample {
            key,
            act,
            stamp,
            lifespan,
            set,
            original,
            form,
            payload,
        })
    }
}

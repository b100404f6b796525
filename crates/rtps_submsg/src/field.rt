//! The fields of a body, one after the other. A fault says how many octets are left where the field
//! begins: so no place is carried along, and no sum can be too large.

ghost use Rattle.std.specs.Prelude.{◌≡◌, ◌≤◌, length, IfOk, IfErr};
ghost use Rattle.rtps_submsg.specs.FieldSteps.{Reads, field_at, u16_at, u32_at, sequence_at, number_at, sample_number_at};
ghost use Rattle.rtps_submsg.specs.Rows.{has};

use crate::sub::SubKind;
use dur_base::{EntityId, Number, Prefix, sequence_of, u16_of, u32_of};
use rtps_params::LAST_NUMBER;

/// A field that breaks.
#[derive(Clone, Copy, Debug, PartialEq, Eq, Drop)]
pub struct Broken {
    /// The octets from the field's first one on.
    pub left: usize,
    /// What is wrong with it.
    pub kind: SubKind,
}

/// What is left of a body.
#[derive(Drop)]
pub struct Body<'a> {
    /// The octets that no field has taken.
    pub rest: &'a [u8],
}

/// Whether a flag is set.
pub fn has(flags: u8, flag: u8) -> bool
    ensures { result ≡ has flags flag }
{
    flags & flag != 0
}

impl<'a> Body<'a> {
    /// That the field which begins here breaks.
    pub fn breaks(&self, kind: SubKind) -> Broken
        ensures { result ≡ record { left = length self.now.rest.now; kind = kind } }
    {
        Broken {
            left: self.rest.len(),
            kind,
        }
    }

    /// The octets of a field.
    #[tactic(auto, unfolding(crate::specs::FieldSteps::field_at))]
    pub fn field(&mut self, width: usize) -> Result<&'a [u8], Broken>
        ensures reads { Reads (λ x. x.now) result self.new.rest.now (field_at width self.old.rest.now) }
        ensures shrinks { length self.new.rest.now ≤ length self.old.rest.now }
        ensures left { IfErr result (λ e. e.left ≤ length self.old.rest.now) }
        ensures width { IfOk result (λ x. length x.now ≡ width) }
    {
        if self.rest.len() < width {
            return Err(self.breaks(SubKind::Cut));
        }
        let (octets, rest) = self.rest.split_at(width);
        self.rest = rest;
        Ok(octets)
    }

    /// An entity id.
    pub fn entity(&mut self) -> Result<EntityId, Broken>
        ensures reads { Reads (λ x. x) result self.new.rest.now (field_at 4 self.old.rest.now) }
        ensures shrinks { length self.new.rest.now ≤ length self.old.rest.now }
        ensures left { IfErr result (λ e. e.left ≤ length self.old.rest.now) }
    {
        let octets = self.field(4)?;
        let mut out = [0; 4];
        out.copy_from_slice(octets);
        Ok(EntityId(out))
    }

    /// A prefix.
    pub fn prefix(&mut self) -> Result<Prefix, Broken>
        ensures reads { Reads (λ x. x) result self.new.rest.now (field_at 12 self.old.rest.now) }
        ensures shrinks { length self.new.rest.now ≤ length self.old.rest.now }
        ensures left { IfErr result (λ e. e.left ≤ length self.old.rest.now) }
    {
        let octets = self.field(12)?;
        let mut out = [0; 12];
        out.copy_from_slice(octets);
        Ok(Prefix(out))
    }

    /// A number of 16 bits.
    #[tactic(auto, unfolding(crate::specs::FieldSteps::u16_at))]
    pub fn half(&mut self, little: bool) -> Result<u16, Broken>
        ensures reads { Reads (λ x. x) result self.new.rest.now (u16_at little self.old.rest.now) }
        ensures shrinks { length self.new.rest.now ≤ length self.old.rest.now }
        ensures left { IfErr result (λ e. e.left ≤ length self.old.rest.now) }
    {
        let octets = self.field(2)?;
        Ok(u16_of(octets, little))
    }

    /// A number of 32 bits.
    #[tactic(auto, unfolding(crate::specs::FieldSteps::u32_at))]
    pub fn word(&mut self, little: bool) -> Result<u32, Broken>
        ensures reads { Reads (λ x. x) result self.new.rest.now (u32_at little self.old.rest.now) }
        ensures shrinks { length self.new.rest.now ≤ length self.old.rest.now }
        ensures left { IfErr result (λ e. e.left ≤ length self.old.rest.now) }
    {
        let octets = self.field(4)?;
        Ok(u32_of(octets, little))
    }

    /// A sequence number of any value. A negative one is 2^63 or more.
    #[tactic(auto, unfolding(crate::specs::FieldSteps::sequence_at))]
    pub fn sequence(&mut self, little: bool) -> Result<u64, Broken>
        ensures reads { Reads (λ x. x) result self.new.rest.now (sequence_at little self.old.rest.now) }
        ensures shrinks { length self.new.rest.now ≤ length self.old.rest.now }
        ensures left { IfErr result (λ e. e.left ≤ length self.old.rest.now) }
    {
        let octets = self.field(8)?;
        Ok(sequence_of(octets, little))
    }

    /// A sequence number from 1 on.
    #[tactic(auto, unfolding(crate::specs::FieldSteps::number_at))]
    pub fn number(&mut self, little: bool) -> Result<Number, Broken>
        ensures reads { Reads (λ x. x) result self.new.rest.now (number_at little self.old.rest.now) }
        ensures shrinks { length self.new.rest.now ≤ length self.old.rest.now }
        ensures left { IfErr result (λ e. e.left ≤ length self.old.rest.now) }
    {
        let bad = self.breaks(SubKind::BadNumber);
        let value = self.sequence(little)?;
        match Number::new(value) {
            Some(number) => Ok(number),
            None => Err(bad),
        }
    }

    /// The number of a sample, from 1 to 2^63 - 2.
    #[tactic(auto, unfolding(crate::specs::FieldSteps::sample_number_at))]
    pub fn sample_number(&mut self, little: bool) -> Result<Number, Broken>
        ensures reads { Reads (λ x. x) result self.new.rest.now (sample_number_at little self.old.rest.now) }
        ensures shrinks { length self.new.rest.now ≤ length self.old.rest.now }
        ensures left { IfErr result (λ e. e.left ≤ length self.old.rest.now) }
    {
        let bad = self.breaks(SubKind::BadNumber);
        let number = self.number(little)?;
        if number.get() > LAST_NUMBER {
            return Err(bad);
        }
        Ok(number)
    }
}

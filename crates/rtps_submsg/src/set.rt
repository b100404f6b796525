//! Sets of numbers, as ACKNACK and GAP carry them (DDSI-RTPS 9.4.2.6).

ghost use Rattle.std.specs.Prelude.{◌≡◌, ◌≤◌, ◌<◌, ◌+◌, ◌*◌, ◌/◌, ◌^◌, length, take, drop, IfOk, IfErr};
ghost use Rattle.rtps_submsg.specs.FieldSteps.{Reads};
ghost use Rattle.rtps_submsg.specs.Sets.{clipped, word_at, words_of};
ghost use Rattle.rtps_submsg.specs.SetSteps.{words_at, base_at, set_at};

use crate::field::{Body, Broken};
use crate::sub::SubKind;
use dur_base::{Bits, GREATEST_NUMBER, Number, u32_of};

/// The highest `bits` bits of a word.
#[tactic(auto, unfolding(crate::specs::Sets::clipped))]
fn clip(bits: u32, word: u32) -> u32
    ensures { result ≡ clipped bits word }
{
    if bits >= 32 {
        return word;
    }
    let unit = 1_u64 << (32 - bits);
    word - (u64::from(word) % unit) as u32
}

/// Word i, with the bits past the count 0.
#[tactic(auto, unfolding(crate::specs::Sets::word_at))]
fn word(octets: &[u8], bits: u32, i: u32, little: bool) -> u32
    requires small { i ≤ 7 }
    requires whole { length octets.now ≡ 4 * ((bits + 31) / 32) }
    ensures { result ≡ word_at little bits octets.now i }
{
    if bits <= 32 * i {
        return 0;
    }
    let (_, from) = octets.split_at(4 * i as usize);
    let (octets, _) = from.split_at(4);
    clip(bits - 32 * i, u32_of(octets, little))
}

/// The words, with the bits past the count 0.
fn words(octets: &[u8], bits: u32, little: bool) -> [u32; 8]
    requires { length octets.now ≡ 4 * ((bits + 31) / 32) }
    ensures { result ≡ words_of little bits octets.now }
{
    [
        word(octets, bits, 0, little),
        word(octets, bits, 1, little),
        word(octets, bits, 2, little),
        word(octets, bits, 3, little),
        word(octets, bits, 4, little),
        word(octets, bits, 5, little),
        word(octets, bits, 6, little),
        word(octets, bits, 7, little),
    ]
}

impl<'a> Body<'a> {
    /// The octets of as many words as hold that many bits. Each word is a field.
    #[tactic(auto, unfolding(crate::specs::SetSteps::words_at))]
    fn words(&mut self, bits: u32) -> Result<&'a [u8], Broken>
        requires { bits ≤ 256 }
        ensures reads { Reads (λ x. x.now) result self.new.rest.now (words_at bits self.old.rest.now) }
        ensures shrinks { length self.new.rest.now ≤ length self.old.rest.now }
        ensures left { IfErr result (λ e. e.left ≤ length self.old.rest.now) }
        ensures whole { IfOk result (λ x. length x.now ≡ 4 * ((bits + 31) / 32)) }
    {
        let width = 4 * (bits as usize).div_ceil(32);
        if self.rest.len() < width {
            return Err(Broken {
                left: self.rest.len() % 4,
                kind: SubKind::Cut,
            });
        }
        let (octets, rest) = self.rest.split_at(width);
        self.rest = rest;
        Ok(octets)
    }

    /// A base from 1 on; that of an ACKNACK may be 0.
    #[tactic(auto, unfolding(crate::specs::SetSteps::base_at))]
    fn base(&mut self, little: bool, is_ack: bool) -> Result<u64, Broken>
        ensures reads { Reads (λ x. x) result self.new.rest.now (base_at little is_ack self.old.rest.now) }
        ensures shrinks { length self.new.rest.now ≤ length self.old.rest.now }
        ensures left { IfErr result (λ e. e.left ≤ length self.old.rest.now) }
        ensures range { IfOk result (λ x. x < 2 ^ 63) }
    {
        let bad = self.breaks(SubKind::BadSet);
        let base = self.sequence(little)?;
        if base == 0 && is_ack {
            return Ok(base);
        }
        if base == 0 || base > GREATEST_NUMBER {
            return Err(bad);
        }
        Ok(base)
    }

    /// A set. That of an ACKNACK may have base 0 where it has no bits, and reads as base 1.
    #[tactic(auto, unfolding(crate::specs::SetSteps::set_at))]
    pub fn set(&mut self, little: bool, is_ack: bool) -> Result<Bits, Broken>
        ensures reads { Reads (λ x. x) result self.new.rest.now (set_at little is_ack self.old.rest.now) }
        ensures shrinks { length self.new.rest.now ≤ length self.old.rest.now }
        ensures left { IfErr result (λ e. e.left ≤ length self.old.rest.now) }
    {
        let bad_base = self.breaks(SubKind::BadSet);
        let base = self.base(little, is_ack)?;
        let bad_bits = self.breaks(SubKind::BadSet);
        let bits = self.word(little)?;
        match Number::new(base) {
            Some(base) => {
                if bits > 256 {
                    return Err(bad_bits);
                }
                let octets = self.words(bits)?;
                Ok(Bits::of(base, words(octets, bits, little)))
            }
            None => {
                if bits != 0 {
                    return Err(bad_base);
                }
                Ok(Bits::of(Number::one(), words(&[], 0, little)))
            }
        }
    }
}

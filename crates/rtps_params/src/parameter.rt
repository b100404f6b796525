//! One parameter: its id, and what its value tells (DDSI-RTPS 9.6.4).

ghost use Rattle.std.specs.Prelude.{◌≡◌, ◌≤◌, length, take};
ghost use Rattle.rtps_params.specs.Table.{sample_number_of, hash_at, status_at, lifespan_at, set_at, original_at, parameter_at};

use dur_base::{Guid, Key, Number, SetMark, TICKS_OF_A_SECOND, Ticks, sequence_of, u32_of};

/// PID_SENTINEL, which ends a list.
pub const SENTINEL: u16 = 0x0001;

/// PID_LIFESPAN.
pub const LIFESPAN: u16 = 0x002b;

/// PID_COHERENT_SET.
pub const COHERENT_SET: u16 = 0x0056;

/// PID_ORIGINAL_WRITER_INFO.
pub const ORIGINAL_WRITER_INFO: u16 = 0x0061;

/// PID_KEY_HASH.
pub const KEY_HASH: u16 = 0x0070;

/// PID_STATUS_INFO.
pub const STATUS_INFO: u16 = 0x0071;

/// Set in the id of a parameter that must be understood.
const MUST_UNDERSTAND: u16 = 0x4000;

/// SEQUENCENUMBER_UNKNOWN: high -1, low 0.
pub const UNKNOWN: u64 = 0xffff_ffff_0000_0000;

/// The greatest number of a sample, 2^63 - 2: there is one after it.
pub const LAST_NUMBER: u64 = 0x7fff_ffff_ffff_fffe;

/// The seconds of an infinite lifespan.
const INFINITE: u32 = 0x7fff_ffff;

/// What is wrong with a parameter. The kinds are tested in the order `OddLength`, `Cut` of the value,
/// `BadValue`.
#[derive(Clone, Copy, Debug, PartialEq, Eq, Drop)]
pub enum ListKind {
    /// The four octets of id and length do not fit, or the value does not. So a list without a sentinel
    /// is cut.
    Cut,
    /// The length is not a multiple of 4.
    OddLength,
    /// The value of the parameter with this id is too short or out of range.
    BadValue(u16),
}

/// What a parameter tells.
#[derive(Clone, Copy, Debug, PartialEq, Eq, Drop)]
pub enum Parameter {
    /// The key of the instance.
    Hash(Key),
    /// Whether the instance is disposed or unregistered.
    Status(u8),
    /// How long the sample lives. None is for ever.
    Lifespan(Option<Ticks>),
    /// The coherent set.
    Set(SetMark),
    /// Who wrote the sample first, and as which number.
    Original(Guid, Number),
    /// Its id is unknown, and it must be understood.
    Strange(u16),
    /// It is padding, or may be passed over.
    Passed,
}

/// The first 16 octets.
fn first_16(bytes: &[u8]) -> [u8; 16]
    requires { 16 ≤ length bytes.now }
    ensures { result ≡ take 16 bytes.now }
{
    let mut out = [0; 16];
    out.copy_from_slice(bytes.split_at(16).0);
    out
}

/// The number of a sample, or None where it is none.
#[tactic(auto, unfolding(crate::specs::Table::sample_number_of))]
fn sample_number(value: u64) -> Option<Number>
    ensures { result ≡ sample_number_of value }
{
    if value > LAST_NUMBER {
        return None;
    }
    Number::new(value)
}

/// The key that a key hash tells, or None where it is too short.
#[tactic(auto, unfolding(crate::specs::Table::hash_at))]
fn hash_of(value: &[u8]) -> Option<Parameter>
    ensures { result ≡ hash_at value.now }
{
    if value.len() < 16 {
        return None;
    }
    Some(Parameter::Hash(Key(first_16(value))))
}

/// What a status info tells, or None where it is too short.
#[tactic(auto, unfolding(crate::specs::Table::status_at))]
fn status_of(value: &[u8]) -> Option<Parameter>
    ensures { result ≡ status_at value.now }
{
    if value.len() < 4 {
        return None;
    }
    Some(Parameter::Status(value[3] % 4))
}

/// What a lifespan tells, or None where it is too short or below 0.
#[tactic(auto, unfolding(crate::specs::Table::lifespan_at))]
fn lifespan_of(value: &[u8], little: bool) -> Option<Parameter>
    ensures { result ≡ lifespan_at little value.now }
{
    if value.len() < 8 {
        return None;
    }
    let (seconds, rest) = value.split_at(4);
    let (fraction, _) = rest.split_at(4);
    let seconds = u32_of(seconds, little);
    if seconds > INFINITE {
        return None;
    }
    if seconds == INFINITE {
        return Some(Parameter::Lifespan(None));
    }
    let ticks = u64::from(seconds) * TICKS_OF_A_SECOND + u64::from(u32_of(fraction, little));
    Some(Parameter::Lifespan(Some(Ticks(ticks))))
}

/// What a coherent set tells, or None where it is too short or no number of a sample.
#[tactic(auto, unfolding(crate::specs::Table::set_at))]
fn set_of(value: &[u8], little: bool) -> Option<Parameter>
    ensures { result ≡ set_at little value.now }
{
    if value.len() < 8 {
        return None;
    }
    let number = sequence_of(value, little);
    if number == UNKNOWN {
        return Some(Parameter::Set(SetMark::End));
    }
    let first = sample_number(number)?;
    Some(Parameter::Set(SetMark::Of(first)))
}

/// What an original writer info tells, or None where it is too short or names no number of a sample.
#[tactic(auto, unfolding(crate::specs::Table::original_at))]
fn original_of(value: &[u8], little: bool) -> Option<Parameter>
    ensures { result ≡ original_at little value.now }
{
    if value.len() < 24 {
        return None;
    }
    let (guid, rest) = value.split_at(16);
    let number = sample_number(sequence_of(rest, little))?;
    Some(Parameter::Original(Guid(first_16(guid)), number))
}

/// What the parameter tells, or None where its value is bad. Ids are compared whole.
#[tactic(auto, unfolding(crate::specs::Table::parameter_at))]
pub fn parameter_of(id: u16, value: &[u8], little: bool) -> Option<Parameter>
    ensures { result ≡ parameter_at little id value.now }
{
    match id {
        LIFESPAN => lifespan_of(value, little),
        COHERENT_SET => set_of(value, little),
        ORIGINAL_WRITER_INFO => original_of(value, little),
        KEY_HASH => hash_of(value),
        STATUS_INFO => status_of(value),
        _ if id & MUST_UNDERSTAND != 0 => Some(Parameter::Strange(id)),
        _ => Some(Parameter::Passed),
    }
}

//! Reading a list from left to right.

ghost use Rattle.std.specs.Prelude.{◌≡◌, ◌≤◌, ℕ, List, length, IfOk, IfErr, Ok, Err, option_map};
ghost use Rattle.std.specs.Int.{w16};
ghost use Rattle.dur_base.specs.Fields.{number};
ghost use Rattle.rtps_params.specs.Lists.{ListSpells, ListBreaks};
ghost use Rattle.rtps_params.specs.Reading.{Gives, field_at, next_at};

use crate::inline::Inline;
use crate::parameter::{ListKind, Parameter, SENTINEL, parameter_of};
use dur_base::u16_of;

/// The first fault of a list.
#[derive(Clone, Copy, Debug, PartialEq, Eq, Drop)]
pub struct ListFault {
    /// The first octet of the faulty parameter, counted from the list's first.
    pub at: usize,
    /// What is wrong with it.
    pub kind: ListKind,
}

/// The field of two octets at the front, and what follows it.
#[tactic(auto, unfolding(crate::specs::Reading::field_at))]
fn field_of(bytes: &[u8], little: bool) -> Result<(u16, &[u8]), ListKind>
    ensures { Gives (λ x. (x.0, x.1.now)) result (field_at little bytes.now) }
{
    if bytes.len() < 2 {
        return Err(ListKind::Cut);
    }
    let (front, rest) = bytes.split_at(2);
    Ok((u16_of(front, little), rest))
}

/// The parameter at the front and what follows it, or None at the sentinel.
#[tactic(auto, unfolding(crate::specs::Reading::next_at))]
fn next_of(bytes: &[u8], little: bool) -> Result<Option<(Parameter, &[u8])>, ListKind>
    ensures { Gives (λ o. option_map (λ x. (x.0, x.1.now)) o) result (next_at little bytes.now) }
{
    let (id, rest) = field_of(bytes, little)?;
    let (len, rest) = field_of(rest, little)?;
    if id == SENTINEL {
        return Ok(None);
    }
    if len % 4 != 0 {
        return Err(ListKind::OddLength);
    }
    let len = usize::from(len);
    if rest.len() < len {
        return Err(ListKind::Cut);
    }
    let (value, rest) = rest.split_at(len);
    match parameter_of(id, value, little) {
        Some(parameter) => Ok(Some((parameter, rest))),
        None => Err(ListKind::BadValue(id)),
    }
}

/// The list at the front, and how many octets it takes with its sentinel; else its first fault. Octets
/// after the list are not looked at. It takes no memory (DDSI-RTPS 9.4.2.11, 9.6.4).
pub fn read_list(bytes: &[u8], little: bool) -> Result<(Inline, usize), ListFault>
    // What is answered is spelled so, and a fault is the first break.
    ensures ok { IfOk result (λ r. ListSpells bytes.now little r.0 r.1) }
    ensures err { IfErr result (λ f. ListBreaks bytes.now little f.at f.kind) }
    // Whatever the octets spell, and wherever they break, is the answer.
    ensures spelt { (i : Inline) (n : ℕ) → ListSpells bytes.now little i n → result ≡ Ok (i, n) }
    ensures broken { (at : ℕ) (kind : ListKind) → ListBreaks bytes.now little at kind → result ≡ Err (record { at = at; kind = kind }) }
    ensures within { IfOk result (λ r. r.1 ≤ length bytes.now) }
    ensures place { IfErr result (λ f. f.at ≤ length bytes.now) }
{
    let mut inline = Inline::nothing();
    let mut rest = bytes;
    'parameters: loop {
        let at = bytes.len() - rest.len();
        match next_of(rest, little) {
            Ok(Some((parameter, after))) => {
                inline = inline.with(parameter);
                rest = after;
            }
            Ok(None) => return Ok((inline, at + 4)),
            Err(kind) => return Err(ListFault { at, kind }),
        }
    }
}

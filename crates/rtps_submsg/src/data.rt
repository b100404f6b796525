//! DATA: its head, its inline QoS and its payload (DDSI-RTPS 9.4.5.3).

ghost use Rattle.std.specs.Prelude.{◌≡◌, ◌≤◌, length, IfOk, IfErr, Result, Ok, Err};
ghost use Rattle.rtps_submsg.specs.FieldSteps.{Reads};
ghost use Rattle.rtps_submsg.specs.Rows.{has};
ghost use Rattle.rtps_submsg.specs.DataSteps.{GivesHead, offset_at, head_at};
ghost use Rattle.rtps_submsg.specs.Data.{InlineSpells, InlineBreaks, form_of, payload_of, DataSpells, DataBreaks};

use crate::field::{Body, Broken, has};
use crate::sub::{DataSub, SubKind};
use dur_base::{EntityId, Form, Number};
use rtps_params::{Inline, read_list};

/// The flag D: a payload.
pub const DATA: u8 = 0x04;

/// The flag K: a payload of the key alone.
pub const KEY: u8 = 0x08;

/// The flag Q: an inline QoS.
const INLINE: u8 = 0x02;

/// What stands before the inline QoS.
#[derive(Drop)]
struct Head<'a> {
    reader: EntityId,
    writer: EntityId,
    number: Number,
    /// The octets from the place that octetsToInlineQos names.
    behind: &'a [u8],
}

/// The fields before the inline QoS.
#[tactic(auto, unfolding(crate::specs::DataSteps::head_at))]
fn read_head<'a>(body: &'a [u8], little: bool) -> Result<Head<'a>, Broken>
    ensures gives { GivesHead result (head_at little body.now) }
    ensures behind { IfOk result (λ h. length h.behind.now ≤ length body.now) }
    ensures left { IfErr result (λ e. e.left ≤ length body.now) }
{
    let mut body = Body { rest: body };
    body.field(2)?;
    let offset = body.offset(little)?;
    let (_, behind) = body.rest.split_at(usize::from(offset));
    let reader = body.entity()?;
    let writer = body.entity()?;
    let number = body.sample_number(little)?;
    Ok(Head {
        reader,
        writer,
        number,
        behind,
    })
}

impl<'a> Body<'a> {
    /// An octetsToInlineQos, at least 16 and not past the body.
    #[tactic(auto, unfolding(crate::specs::DataSteps::offset_at))]
    fn offset(&mut self, little: bool) -> Result<u16, Broken>
        ensures reads { Reads (λ x. x) result self.new.rest.now (offset_at little self.old.rest.now) }
        ensures shrinks { length self.new.rest.now ≤ length self.old.rest.now }
        ensures left { IfErr result (λ e. e.left ≤ length self.old.rest.now) }
        ensures inside { IfOk result (λ x. x ≤ length self.new.rest.now) }
    {
        let bad = self.breaks(SubKind::BadOffset);
        let offset = self.half(little)?;
        if offset < 16 || usize::from(offset) > self.rest.len() {
            return Err(bad);
        }
        Ok(offset)
    }

    /// The inline QoS, where there is one.
    fn inline(&mut self, is_there: bool, little: bool) -> Result<Inline, Broken>
        ensures ok { IfOk result (λ i. InlineSpells is_there little self.old.rest.now i self.new.rest.now) }
        ensures err { IfErr result (λ e. InlineBreaks is_there little self.old.rest.now e) }
        ensures left { IfErr result (λ e. e.left ≤ length self.old.rest.now) }
    {
        if !is_there {
            return Ok(Inline::nothing());
        }
        match read_list(self.rest, little) {
            Ok((inline, len)) => {
                self.rest = self.rest.split_at(len).1;
                Ok(inline)
            }
            Err(fault) => Err(Broken {
                left: self.rest.len() - fault.at,
                kind: SubKind::List(fault.kind),
            }),
        }
    }
}

/// What the flags say of the payload.
fn form(flags: u8) -> Form
    ensures { result ≡ form_of flags }
{
    if has(flags, DATA) {
        Form::Data
    } else if has(flags, KEY) {
        Form::KeyOnly
    } else {
        Form::Nothing
    }
}

/// The payload, which is what is left of the body, where the form has one.
fn payload<'a>(form: Form, rest: &'a [u8]) -> &'a [u8]
    ensures { result.now ≡ payload_of form rest.now }
{
    match form {
        Form::Nothing => &[],
        Form::Data | Form::KeyOnly => rest,
    }
}

/// A DATA.
#[tactic(auto, using(crate::proofs::Found::head_spells, crate::proofs::Found::head_breaks))]
pub fn data<'a>(body: &'a [u8], flags: u8, little: bool) -> Result<DataSub<'a>, Broken>
    ensures ok { IfOk result (λ d. DataSpells little flags body.now d) }
    ensures err { IfErr result (λ e. DataBreaks little flags body.now e) }
    ensures left { IfErr result (λ e. e.left ≤ length body.now) }
{
    match read_head(body, little) {
        Err(broken) => Err(broken),
        Ok(head) => {
            let mut behind = Body { rest: head.behind };
            let inline = behind.inline(has(flags, INLINE), little)?;
            let form = form(flags);
            Ok(DataSub {
                reader: head.reader,
                writer: head.writer,
                number: head.number,
                inline,
                form,
                payload: payload(form, behind.rest),
            })
        }
    }
}

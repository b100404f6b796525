//! The submessage at the front of the rest of a message.

ghost use Rattle.std.specs.Prelude.{◌≡◌, ◌≤◌, ◌+◌, ℕ, length, IfOk, IfErr, IsOkAnd, IsErrAnd};
ghost use Rattle.rtps_submsg.specs.FieldSteps.{Gives};
ghost use Rattle.rtps_submsg.specs.Rows.{has};
ghost use Rattle.rtps_submsg.specs.RowSteps.{plain_at};
ghost use Rattle.rtps_submsg.specs.Headers.{extent, Frames, HeadBreaks};
ghost use Rattle.rtps_submsg.specs.HeaderSteps.{GivesFrame, framed_at};
ghost use Rattle.rtps_submsg.specs.Subs.{BodySpells, BodyBreaks, SubSpells, SubBreaks, SameSub};

use crate::body::{acknack, gap, heartbeat, info_dst, info_src, info_ts};
use crate::data::{DATA, KEY, data};
use crate::field::{Broken, has};
use crate::sub::{Sub, SubFault, SubKind};
use dur_base::u16_of;

const ID_PAD: u8 = 0x01;

const ID_ACKNACK: u8 = 0x06;

const ID_HEARTBEAT: u8 = 0x07;

const ID_GAP: u8 = 0x08;

const ID_INFO_TS: u8 = 0x09;

const ID_INFO_SRC: u8 = 0x0c;

const ID_INFO_DST: u8 = 0x0e;

const ID_DATA: u8 = 0x15;

/// The flag of a submessage that is little-endian.
const LITTLE: u8 = 0x01;

/// A header and the body that belongs to it.
#[derive(Drop)]
struct Frame<'a> {
    id: u8,
    flags: u8,
    body: &'a [u8],
}

/// How many octets the body has: octetsToNextHeader, but where that is 0.
fn body_len(id: u8, len: u16, left: usize) -> usize
    ensures { result ≡ extent id len left }
{
    match (len, id) {
        (0, ID_PAD | ID_INFO_TS) => 0,
        (0, _) => left,
        _ => usize::from(len),
    }
}

/// The header and the body.
#[tactic(auto, unfolding(crate::specs::HeaderSteps::framed_at))]
fn frame_at<'a>(bytes: &'a [u8]) -> Result<Frame<'a>, SubFault>
    ensures gives { GivesFrame result (framed_at bytes.now) }
    ensures within { IfOk result (λ f. 4 + length f.body.now ≤ length bytes.now) }
{
    if bytes.len() < 4 {
        return Err(SubFault {
            at: 0,
            kind: SubKind::Cut,
        });
    }
    let id = bytes[0];
    let flags = bytes[1];
    let (front, rest) = bytes.split_at(4);
    let (_, len) = front.split_at(2);
    if id == ID_DATA && has(flags, DATA) && has(flags, KEY) {
        return Err(SubFault {
            at: 1,
            kind: SubKind::BothDataAndKey,
        });
    }
    let len = body_len(id, u16_of(len, has(flags, LITTLE)), rest.len());
    if rest.len() < len {
        return Err(SubFault {
            at: 4,
            kind: SubKind::Cut,
        });
    }
    let (body, _) = rest.split_at(len);
    Ok(Frame { id, flags, body })
}

/// A body of any id but DATA's.
#[tactic(auto, unfolding(crate::specs::RowSteps::plain_at))]
fn plain<'a>(id: u8, flags: u8, body: &'a [u8]) -> Result<Sub<'a>, Broken>
    ensures gives { Gives result (plain_at (has flags 0x01) flags id body.now) }
    ensures left { IfErr result (λ e. e.left ≤ length body.now) }
{
    let little = has(flags, LITTLE);
    match id {
        ID_PAD => Ok(Sub::Pad),
        ID_ACKNACK => acknack(body, flags, little),
        ID_HEARTBEAT => heartbeat(body, flags, little),
        ID_GAP => gap(body, little),
        ID_INFO_TS => info_ts(body, flags, little),
        ID_INFO_SRC => info_src(body),
        ID_INFO_DST => info_dst(body),
        _ => Ok(Sub::Other(id)),
    }
}

/// A body of any id.
#[tactic(auto, using(crate::proofs::Found::plain_spells, crate::proofs::Found::plain_breaks))]
fn read_body<'a>(id: u8, flags: u8, body: &'a [u8]) -> Result<Sub<'a>, Broken>
    ensures ok { IfOk result (λ s. BodySpells (record { id = id; flags = flags; body = body.now }) s) }
    ensures err { IfErr result (λ e. BodyBreaks (record { id = id; flags = flags; body = body.now }) e) }
    ensures left { IfErr result (λ e. e.left ≤ length body.now) }
{
    if id == ID_DATA {
        match data(body, flags, has(flags, LITTLE)) {
            Ok(data) => Ok(Sub::Data(data)),
            Err(broken) => Err(broken),
        }
    } else {
        match plain(id, flags, body) {
            Ok(sub) => Ok(sub),
            Err(broken) => Err(broken),
        }
    }
}

/// The submessage at the front, or its first fault.
fn sub_at<'a>(bytes: &'a [u8]) -> Result<(Sub<'a>, usize), SubFault>
    ensures ok { IfOk result (λ r. SubSpells bytes.now r.0 r.1) }
    ensures err { IfErr result (λ f. SubBreaks bytes.now f.at f.kind) }
    ensures within { IfOk result (λ r. r.1 ≤ length bytes.now) }
{
    match frame_at(bytes) {
        Err(fault) => Err(fault),
        Ok(frame) => {
            let len = frame.body.len();
            match read_body(frame.id, frame.flags, frame.body) {
                Ok(sub) => Ok((sub, 4 + len)),
                Err(broken) => Err(SubFault {
                    at: 4 + (len - broken.left),
                    kind: broken.kind,
                }),
            }
        }
    }
}

/// The submessage at the front, and how many octets it takes.
pub fn read_sub<'a>(bytes: &'a [u8]) -> Result<(Sub<'a>, usize), SubFault>
    ensures ok { IfOk result (λ r. SubSpells bytes.now r.0 r.1) }
    ensures err { IfErr result (λ f. SubBreaks bytes.now f.at f.kind) }
    ensures within { IfOk result (λ r. r.1 ≤ length bytes.now) }
    ensures spelt { (s : Sub) (n : ℕ) → SubSpells bytes.now s n → IsOkAnd result (λ r. (r.1 ≡ n) × SameSub r.0 s) }
    ensures broken { (at : ℕ) (kind : SubKind) → SubBreaks bytes.now at kind → IsErrAnd result (λ f. (f.at ≡ at) × (f.kind ≡ kind)) }
{
    sub_at(bytes)
}

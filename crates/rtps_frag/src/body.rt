//! The bodies of DATA_FRAG and HEARTBEAT_FRAG (DDSI-RTPS 9.4.5).

ghost use Rattle.std.specs.Prelude.{◌≡◌, ◌≤◌, ◌+◌, ◌-◌, ◌*◌, ◌<◌, ◌^◌, [], true, length, take, drop, min, IfOk, IfErr};
ghost use Rattle.rtps_frag.specs.Bodies.{Fragments, part, head_at, beat_at, octets_of, FragmentsSpell, FragmentsBreak, brings, Fits, IsGoodHead};
ghost use Rattle.rtps_message.proofs.Good.{IsInside};
ghost use Rattle.rtps_submsg.specs.Data.{InlineSpells};
ghost use Rattle.rtps_params.specs.Lists.{ListBreaks};
ghost use Rattle.rtps_params.specs.Meaning.{inline_of};
ghost use Rattle.rtps_submsg.specs.Rows.{has};

use dur_base::{EntityId, Number, sequence_of, u16_of, u32_of};
use rtps_params::{Inline, LAST_NUMBER, ListFault, read_list};
use rtps_submsg::{SubFault, SubKind};

/// The flag of a submessage that is little-endian.
const LITTLE: u8 = 0x01;

/// The flag Q: an inline QoS.
const INLINE: u8 = 0x02;

/// The flag K: the sample is a key alone.
const KEY: u8 = 0x04;

/// What a DATA_FRAG says before its inline QoS (DDSI-RTPS 9.4.5.4).
#[derive(Clone, Copy, Drop)]
pub struct Head {
    /// How many octets stand between octetsToInlineQos and the inline QoS.
    pub offset: u16,
    /// Whom it is for, or zeros for every reader.
    pub reader: EntityId,
    /// Who wrote it.
    pub writer: EntityId,
    /// The sample's number, at most 2^63 - 2.
    pub number: Number,
    /// The number of the first fragment, from 1 on.
    pub first: u32,
    /// How many fragments it brings, at least 1.
    pub count: u16,
    /// The octets of a fragment, at least 1.
    pub width: u16,
    /// The octets of the sample, at least 1.
    pub size: u32,
}

/// What a HEARTBEAT_FRAG says (DDSI-RTPS 9.4.5.8).
#[derive(Clone, Copy, Drop)]
pub struct FragBeat {
    /// Who wrote the sample.
    pub writer: EntityId,
    /// The sample's number, at most 2^63 - 2.
    pub number: Number,
    /// The number of the last fragment that can be had, from 1 on.
    pub last: u32,
}

/// A DATA_FRAG, which borrows its fragments.
#[derive(Drop)]
pub struct FragSub<'a> {
    /// What stands before the inline QoS.
    pub head: Head,
    /// Whether the sample is a key alone.
    pub is_key: bool,
    /// What the inline QoS tells.
    pub inline: Inline,
    /// The octets of the fragments, one after the other.
    pub octets: &'a [u8],
}

/// The octets of a field.
fn part<'a>(body: &'a [u8], at: usize, width: usize) -> &'a [u8]
    requires { at + width ≤ length body.now }
    ensures value { result.now ≡ part at width body.now }
    ensures len { length result.now ≡ width }
{
    body.split_at(at).1.split_at(width).0
}

fn entity(octets: &[u8]) -> EntityId
    requires { length octets.now ≡ 4 }
    ensures { result ≡ octets.now }
{
    let mut out = [0; 4];
    out.copy_from_slice(octets);
    EntityId(out)
}

fn fault(at: usize, kind: SubKind) -> SubFault
    ensures { result ≡ record { at = at; kind = kind } }
{
    SubFault { at, kind }
}

/// What a DATA_FRAG says before its inline QoS, or its first fault there.
#[tactic(auto, unfolding(crate::specs::Bodies::head_at))]
fn read_head(body: &[u8], little: bool) -> Result<Head, SubFault>
    ensures value { result ≡ head_at little body.now }
    ensures within { IfOk result (λ h. 4 + h.offset ≤ length body.now) }
    ensures good { IfOk result (λ h. IsGoodHead h) }
    ensures place { IfErr result (λ e. e.at ≤ 32) }
{
    if body.len() < 2 {
        return Err(fault(4, SubKind::Cut));
    }
    if body.len() < 4 {
        return Err(fault(6, SubKind::Cut));
    }
    let offset = u16_of(part(body, 2, 2), little);
    if offset < 28 || body.len() - 4 < usize::from(offset) {
        return Err(fault(6, SubKind::BadOffset));
    }
    let number = sequence_of(part(body, 12, 8), little);
    let first = u32_of(part(body, 20, 4), little);
    let count = u16_of(part(body, 24, 2), little);
    let width = u16_of(part(body, 26, 2), little);
    let size = u32_of(part(body, 28, 4), little);
    if number == 0 || number > LAST_NUMBER {
        return Err(fault(16, SubKind::BadNumber));
    }
    if first == 0 {
        return Err(fault(24, SubKind::BadRange));
    }
    if count == 0 {
        return Err(fault(28, SubKind::BadRange));
    }
    if width == 0 {
        return Err(fault(30, SubKind::BadRange));
    }
    let last = u64::from(first) + u64::from(count) - 2;
    if size == 0 || last * u64::from(width) >= u64::from(size) {
        return Err(fault(32, SubKind::BadRange));
    }
    Ok(Head {
        offset,
        reader: entity(part(body, 4, 4)),
        writer: entity(part(body, 8, 4)),
        number: Number::at(number),
        first,
        count,
        width,
        size,
    })
}

/// What a HEARTBEAT_FRAG says, or its first fault.
#[tactic(auto, unfolding(crate::specs::Bodies::beat_at))]
pub fn read_beat(body: &[u8], little: bool) -> Result<FragBeat, SubFault>
    ensures value { result ≡ beat_at little body.now }
    ensures place { IfErr result (λ e. e.at ≤ 32) }
{
    if body.len() < 4 {
        return Err(fault(4, SubKind::Cut));
    }
    if body.len() < 8 {
        return Err(fault(8, SubKind::Cut));
    }
    if body.len() < 16 {
        return Err(fault(12, SubKind::Cut));
    }
    let number = sequence_of(part(body, 8, 8), little);
    if number == 0 || number > LAST_NUMBER {
        return Err(fault(12, SubKind::BadNumber));
    }
    if body.len() < 20 {
        return Err(fault(20, SubKind::Cut));
    }
    let last = u32_of(part(body, 16, 4), little);
    if last == 0 {
        return Err(fault(20, SubKind::BadRange));
    }
    if body.len() < 24 {
        return Err(fault(24, SubKind::Cut));
    }
    Ok(FragBeat {
        writer: entity(part(body, 4, 4)),
        number: Number::at(number),
        last,
    })
}

/// Whether a flag is set.
pub fn has(flags: u8, flag: u8) -> bool
    ensures { result ≡ has flags flag }
{
    flags & flag != 0
}

/// How many octets the fragments have.
fn octets_of(head: &Head) -> usize
    requires { 0 < head.now.first }
    ensures { result ≡ octets_of head.now }
{
    let width = u64::from(head.width);
    let all = u64::from(head.count) * width;
    let left = u64::from(head.size).saturating_sub((u64::from(head.first) - 1) * width);
    all.min(left) as usize
}

/// The inline QoS, where there is one, and how many octets it takes.
fn list_at(behind: &[u8], is_there: bool, little: bool) -> Result<(Inline, usize), ListFault>
    ensures ok { IfOk result (λ r. InlineSpells is_there little behind.now r.0 (drop r.1 behind.now)) }
    ensures inside { IfOk result (λ r. IsInside r.0) }
    ensures within { IfOk result (λ r. r.1 ≤ length behind.now) }
    ensures there { IfErr result (λ f. is_there ≡ true) }
    ensures err { IfErr result (λ f. ListBreaks behind.now little f.at f.kind) }
    ensures place { IfErr result (λ f. f.at ≤ length behind.now) }
{
    if !is_there {
        return Ok((Inline::nothing(), 0));
    }
    read_list(behind, little)
}

/// A DATA_FRAG, or its first fault.
pub fn read_fragments<'a>(body: &'a [u8], flags: u8) -> Result<FragSub<'a>, SubFault>
    ensures ok { IfOk result (λ f. FragmentsSpell flags body.now (brings f)) }
    ensures fits { IfOk result (λ f. Fits (brings f)) }
    ensures err { IfErr result (λ e. FragmentsBreak flags body.now e.at e.kind) }
    ensures place { IfErr result (λ e. e.at ≤ 32 + length body.now) }
{
    let little = has(flags, LITTLE);
    let head = match read_head(body, little) {
        Ok(head) => head,
        Err(fault) => return Err(fault),
    };
    let (_, behind) = body.split_at(4 + usize::from(head.offset));
    match list_at(behind, has(flags, INLINE), little) {
        Err(list) => Err(SubFault {
            at: 8 + usize::from(head.offset) + list.at,
            kind: SubKind::List(list.kind),
        }),
        Ok((inline, len)) => {
            let (_, rest) = behind.split_at(len);
            let need = octets_of(&head);
            if rest.len() < need {
                return Err(fault(4 + (body.len() - rest.len()), SubKind::Cut));
            }
            Ok(FragSub {
                head,
                is_key: has(flags, KEY),
                inline,
                octets: rest.split_at(need).0,
            })
        }
    }
}

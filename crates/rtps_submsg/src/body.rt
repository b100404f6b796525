//! The bodies of submessages but DATA (DDSI-RTPS 9.4.5): their fields in order.

ghost use Rattle.std.specs.Prelude.{◌≡◌, ◌≤◌, length, IfErr};
ghost use Rattle.rtps_submsg.specs.FieldSteps.{Reads, Gives};
ghost use Rattle.rtps_submsg.specs.RowSteps.{acknack_at, last_at, heartbeat_at, gap_at, info_ts_at, info_src_at, info_dst_at};

use crate::field::{Body, Broken, has};
use crate::sub::{Sub, SubKind};
use dur_base::{GREATEST_NUMBER, Number, TICKS_OF_A_SECOND, Ticks};

/// The flag F: no answer is asked for.
const FINAL: u8 = 0x02;

/// The flag L: the writer lives.
const LIVELINESS: u8 = 0x04;

/// The flag I: there is no time.
const INVALIDATE: u8 = 0x02;

/// An ACKNACK.
#[tactic(auto, unfolding(crate::specs::RowSteps::acknack_at))]
pub fn acknack<'a>(body: &'a [u8], flags: u8, little: bool) -> Result<Sub<'a>, Broken>
    ensures gives { Gives result (acknack_at little flags body.now) }
    ensures left { IfErr result (λ e. e.left ≤ length body.now) }
{
    let mut body = Body { rest: body };
    let reader = body.entity()?;
    let writer = body.entity()?;
    let set = body.set(little, true)?;
    let count = body.word(little)?;
    Ok(Sub::AckNack {
        reader,
        writer,
        set,
        count,
        is_final: has(flags, FINAL),
    })
}

impl<'a> Body<'a> {
    /// A lastSN, which is not below firstSN - 1.
    #[tactic(auto, unfolding(crate::specs::RowSteps::last_at))]
    fn last(&mut self, first: Number, little: bool) -> Result<u64, Broken>
        ensures reads { Reads (λ x. x) result self.new.rest.now (last_at little first self.old.rest.now) }
        ensures shrinks { length self.new.rest.now ≤ length self.old.rest.now }
        ensures left { IfErr result (λ e. e.left ≤ length self.old.rest.now) }
    {
        let bad = self.breaks(SubKind::BadRange);
        let last = self.sequence(little)?;
        if last > GREATEST_NUMBER || last + 1 < first.get() {
            return Err(bad);
        }
        Ok(last)
    }
}

/// A HEARTBEAT.
#[tactic(auto, unfolding(crate::specs::RowSteps::heartbeat_at))]
pub fn heartbeat<'a>(body: &'a [u8], flags: u8, little: bool) -> Result<Sub<'a>, Broken>
    ensures gives { Gives result (heartbeat_at little flags body.now) }
    ensures left { IfErr result (λ e. e.left ≤ length body.now) }
{
    let mut body = Body { rest: body };
    let reader = body.entity()?;
    let writer = body.entity()?;
    let first = body.number(little)?;
    let last = body.last(first, little)?;
    let count = body.word(little)?;
    Ok(Sub::Heartbeat {
        reader,
        writer,
        first,
        last,
        count,
        is_final: has(flags, FINAL),
        liveliness: has(flags, LIVELINESS),
    })
}

/// A GAP.
#[tactic(auto, unfolding(crate::specs::RowSteps::gap_at))]
pub fn gap<'a>(body: &'a [u8], little: bool) -> Result<Sub<'a>, Broken>
    ensures gives { Gives result (gap_at little body.now) }
    ensures left { IfErr result (λ e. e.left ≤ length body.now) }
{
    let mut body = Body { rest: body };
    let reader = body.entity()?;
    let writer = body.entity()?;
    let start = body.number(little)?;
    let set = body.set(little, false)?;
    Ok(Sub::Gap {
        reader,
        writer,
        start,
        set,
    })
}

/// An INFO_TS.
#[tactic(auto, unfolding(crate::specs::RowSteps::info_ts_at))]
pub fn info_ts<'a>(body: &'a [u8], flags: u8, little: bool) -> Result<Sub<'a>, Broken>
    ensures gives { Gives result (info_ts_at little flags body.now) }
    ensures left { IfErr result (λ e. e.left ≤ length body.now) }
{
    let mut body = Body { rest: body };
    if has(flags, INVALIDATE) {
        return Ok(Sub::InfoTs(None));
    }
    let seconds = body.word(little)?;
    let fraction = body.word(little)?;
    let ticks = u64::from(seconds) * TICKS_OF_A_SECOND + u64::from(fraction);
    Ok(Sub::InfoTs(Some(Ticks(ticks))))
}

/// An INFO_SRC.
#[tactic(auto, unfolding(crate::specs::RowSteps::info_src_at))]
pub fn info_src<'a>(body: &'a [u8]) -> Result<Sub<'a>, Broken>
    ensures gives { Gives result (info_src_at body.now) }
    ensures left { IfErr result (λ e. e.left ≤ length body.now) }
{
    let mut body = Body { rest: body };
    body.field(4)?;
    body.field(2)?;
    body.field(2)?;
    Ok(Sub::InfoSrc(body.prefix()?))
}

/// An INFO_DST.
#[tactic(auto, unfolding(crate::specs::RowSteps::info_dst_at))]
pub fn info_dst<'a>(body: &'a [u8]) -> Result<Sub<'a>, Broken>
    ensures gives { Gives result (info_dst_at body.now) }
    ensures left { IfErr result (λ e. e.left ≤ length body.now) }
{
    let mut body = Body { rest: body };
    Ok(Sub::InfoDst(body.prefix()?))
}

//! The turns of a late reader over a link.

ghost use Rattle.std.specs.Prelude.{◌≡◌, ◌+◌, ◌≤◌, ◌++◌, ◌∷◌, [], length, take, true, false, option_map, is_err, IfOk, IfErr, IfSome, OnOk, OnErr};
ghost use Rattle.dur_outside.specs.Causes.{HasCause};
ghost use Rattle.rel_writer.specs.LateReaders.{Late};
ghost use Rattle.rel_writer.specs.Sets.{any_marker};
ghost use Rattle.rel_writer.specs.Standing.{Stands};
ghost use Rattle.dur_rerun.specs.Late.Steps.{CutBy, HearsOf, SendsOf, TakesOf, IsCutShort, GoesTo, StopsIn};

use crate::late::status::LateStatus;
use dur_outside::{Failed, LONGEST_DATAGRAM, Link};
use rel_writer::LateReader;

/// Receives once, as a link does; a failure is `LinkFault`.
fn receive<L: Link>(link: &mut L, into: &mut [u8]) -> Result<Option<usize>, LateStatus>
    requires { 65507 ≤ length into.old }
    ensures bound { IfOk result (λ got. IfSome got (λ n. n ≤ 65507)) }
    ensures room { length into.new ≡ length into.old }
    ensures heard { L.tells → IfOk result (λ got. L.heard link.new ≡ L.heard link.old ++ option_map (λ n. take n into.new) got ∷ []) }
    ensures unheard { L.tells → OnErr result (L.heard link.new ≡ L.heard link.old) }
    ensures unsent { L.tells → L.sent link.new ≡ L.sent link.old }
    ensures later { L.link_faults link.old ≤ L.link_faults link.new }
    ensures cut { IfErr result (λ s. CutBy s (L.link_faults link.old) (L.link_faults link.new)) }
{
    match link.receive(into) {
        Ok(got) => Ok(got),
        Err(Failed) => Err(LateStatus::LinkFault),
    }
}

/// Sends a datagram, as a link does; a failure is `LinkFault`.
fn send<L: Link>(link: &mut L, bytes: &[u8]) -> Result<(), LateStatus>
    ensures sent { L.tells → OnOk result (L.sent link.new ≡ L.sent link.old ++ bytes.now ∷ []) }
    ensures unsent { L.tells → OnErr result (L.sent link.new ≡ L.sent link.old) }
    ensures unheard { L.tells → L.heard link.new ≡ L.heard link.old }
    ensures later { L.link_faults link.old ≤ L.link_faults link.new }
    ensures cut { IfErr result (λ s. CutBy s (L.link_faults link.old) (L.link_faults link.new)) }
{
    match link.send(bytes) {
        Ok(()) => Ok(()),
        Err(Failed) => Err(LateStatus::LinkFault),
    }
}

/// That came, as the front of these octets, or nothing was waiting. It says whether an ACKNACK is to be sent: nothing was
/// waiting, the datagram asks, or the late reader is done.
fn hear(late: &mut LateReader, got: Option<usize>, octets: &[u8]) -> Result<bool, LateStatus>
    requires { IfSome got (λ n. n ≤ length octets.now) }
    ensures hears { IfOk result (λ asks. (l : Late) → Stands late.old l
        → HearsOf l (option_map (λ n. take n octets.now) got) asks late.new) }
    ensures memory { IfErr result (λ s. s ≡ LateStatus.OutOfMemory) }
{
    match got {
        None => Ok(true),
        Some(count) => {
            let shown = late.on_datagram(&octets[..count])?;
            let done = late.done();
            Ok(shown || done)
        }
    }
}

/// Sends the next ACKNACK, if one is to be sent. It is written to the front of these octets.
fn send_if<L: Link>(
    asks: bool,
    late: &mut LateReader,
    link: &mut L,
    octets: &mut [u8],
) -> Result<(), LateStatus>
    requires { 65507 ≤ length octets.old }
    ensures room { length octets.new ≡ length octets.old }
    ensures sends { OnOk result ((l : Late) → Stands late.old l
        → SendsOf l asks late.new L.tells (L.sent link.old) (L.sent link.new)) }
    ensures unsent { L.tells → OnErr result (L.sent link.new ≡ L.sent link.old) }
    ensures unheard { L.tells → L.heard link.new ≡ L.heard link.old }
    ensures later { L.link_faults link.old ≤ L.link_faults link.new }
    ensures cut { IfErr result (λ s. CutBy s (L.link_faults link.old) (L.link_faults link.new)) }
{
    if !asks {
        return Ok(());
    }
    let count = late.nack(octets);
    send(link, &octets[..count])
}

/// Takes one turn: receives once, and sends an ACKNACK where the rule asks.
fn take_turn<L: Link>(
    late: &mut LateReader,
    link: &mut L,
    octets: &mut [u8],
) -> Result<(), LateStatus>
    requires { 65507 ≤ length octets.old }
    ensures room { length octets.new ≡ length octets.old }
    ensures takes { OnOk result ((l : Late) → Stands late.old l → TakesOf l late.new L.tells
        (L.heard link.old) (L.heard link.new) (L.sent link.old) (L.sent link.new)) }
    ensures stops { OnErr result (IsCutShort L.tells
        (L.heard link.old) (L.heard link.new) (L.sent link.old) (L.sent link.new)) }
    ensures later { L.link_faults link.old ≤ L.link_faults link.new }
    ensures cut { IfErr result (λ s. CutBy s (L.link_faults link.old) (L.link_faults link.new)) }
{
    let got = receive(link, octets)?;
    let asks = hear(late, got, octets)?;
    send_if(asks, late, link, octets)
}

/// Takes turns until the late reader is done, at most so many. It fails where the link does, and for want of memory.
pub fn take_turns<L: Link>(
    late: &mut LateReader,
    turns: u32,
    link: &mut L,
) -> Result<(), LateStatus>
    ensures goes { OnOk result ((l : Late) → Stands late.old l → any_marker l.handled ≡ false
        → GoesTo l turns late.new L.tells
        (L.heard link.old) (L.heard link.new) (L.sent link.old) (L.sent link.new)) }
    ensures stops { OnErr result ((l : Late) → Stands late.old l → any_marker l.handled ≡ false
        → StopsIn l turns L.tells
        (L.heard link.old) (L.heard link.new) (L.sent link.old) (L.sent link.new)) }
    ensures later { L.link_faults link.old ≤ L.link_faults link.new }
    ensures cut { IfErr result (λ s. CutBy s (L.link_faults link.old) (L.link_faults link.new)) }
{
    let mut octets = [0; LONGEST_DATAGRAM];
    for taken in 0..turns {
        take_turn(late, link, &mut octets)?;
        if late.done() {
            return Ok(());
        }
    }
    Ok(())
}

//! The lease step: writers of the plan that were not heard for longer than their lease are lost (DDS 2.2.3.11).

ghost use Rattle.std.specs.Prelude.{◌≡◌, ℕ, true, false, List, map};
ghost use Rattle.dur_hub.specs.Leases.{is_past, heard_now};
ghost use Rattle.dur_hub.specs.Looks.{is_late, Leases, StepsLease};
ghost use Rattle.dur_qos.specs.declared.plan.Plan.{Plan};
ghost use Rattle.dur_hub.specs.Runs.{Writer};
ghost use Rattle.dur_hub.specs.Lines.{LinesFit};
ghost use Rattle.dur_base.specs.declared.entry.Entry.TheVariants.{Lost};
ghost use Rattle.dur_view.specs.History.{History, ◌▸◌, start, Follows};
ghost use Rattle.dur_view.specs.Stored.{is_stored};
ghost use Rattle.dur_hub.specs.Queues.{LedgerAt};

use crate::ledger::Ledger;
use crate::left_behind::{Leaver, lose_left};
use crate::line::Line;
use dur_base::{Entry, TICKS_OF_A_SECOND, Ticks};
use std::collections::VecDeque;

// Whether more than the lease has passed.
fn is_past(lease: Option<u32>, heard: Ticks, now: Ticks) -> bool
    ensures { result ≡ is_past lease heard now }
{
    match lease {
        None => false,
        Some(lease) => {
            let ticks = u64::from(lease) * TICKS_OF_A_SECOND;
            ticks < now.0 && heard.0 < now.0 - ticks
        }
    }
}

// Whether a writer is to be lost.
fn is_overdue(line: &Line, now: Ticks) -> bool
    ensures { result ≡ is_late line.now now }
{
    !line.lost && is_past(line.lease, line.heard, now)
}

// Loses the line's writer where it is overdue. False: there was no memory for it.
fn look(ledger: &mut Ledger, line: &mut Line, moment: Ticks) -> bool
    ensures less { is_late line.old moment ≡ false
        → (result ≡ true) × (ledger.new ≡ ledger.old) × (line.new ≡ line.old) }
    ensures more { is_late line.old moment ≡ true → result ≡ true
        → (line.new ≡ record line.old { lost = true })
        × ((h : History) (t d : ℕ) → LedgerAt ledger.old h t d → line.old.stored ≡ is_stored (start h) line.old.guid → Follows h (Lost moment line.old.guid) → LedgerAt ledger.new (h ▸ Lost moment line.old.guid) t d) }
    ensures stopped { result ≡ false
        → (is_late line.old moment ≡ true) × (line.new ≡ line.old)
        × ((h : History) (t d : ℕ) → LedgerAt ledger.old h t d → LedgerAt ledger.new h t d) }
{
    if !is_overdue(line, moment) {
        return true;
    }
    let writer = line.guid;
    match ledger.admit(Entry::Lost { moment, writer }, line.stored) {
        Ok(()) => {
            line.lost = true;
            true
        }
        Err(_) => false,
    }
}

/// Loses the writers that are overdue, in order. False: there was no memory for one.
pub fn lose_overdue(ledger: &mut Ledger, lines: &mut [Line], moment: Ticks) -> bool
    ensures { Leases ledger.old lines.old moment result ledger.new lines.new }
{
    for i in 0..lines.len() {
        if !look(ledger, &mut lines[i], moment) {
            return false;
        }
    }
    true
}

// Notes that the lines' writers count as heard now.
fn hear_lines(lines: &mut [Line], moment: Ticks)
    ensures { (plan : Plan) (h : History) (d : ℕ) (ws : List Writer)
        → LinesFit plan h d lines.old ws → LinesFit plan h d lines.new (map (heard_now moment) ws) }
{
    for i in 0..lines.len() {
        let line = &mut lines[i];
        line.heard = moment;
    }
}

/// The lease step; false where there was no memory for one of its losses. In the first one all writers of the plan
/// count as heard, and the kept writers that are left behind are lost.
pub fn lease_step(
    ledger: &mut Ledger,
    lines: &mut [Line],
    begun: bool,
    leaving: &mut VecDeque<Leaver>,
    moment: Ticks,
) -> bool
    ensures { StepsLease ledger.old lines.old leaving.old.items moment begun result ledger.new lines.new leaving.new.items }
{
    if begun {
        return lose_overdue(ledger, lines, moment);
    }
    hear_lines(lines, moment);
    lose_left(ledger, leaving, moment)
}

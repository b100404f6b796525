//! Up to when no lease ends, in ticks. None: none ever does.

ghost use Rattle.std.specs.Prelude.{◌≡◌, ℕ, ◌||◌};
ghost use Rattle.std.specs.List.{list_any};
ghost use Rattle.dur_hub.specs.Looks.{is_late};
ghost use Rattle.dur_hub.specs.Dues.{is_after};

use crate::line::Line;
use dur_base::{TICKS_OF_A_SECOND, Ticks};

/// Whether a moment is after this one.
pub fn is_after(due: Option<u128>, now: Ticks) -> bool
    ensures { result ≡ is_after due now }
{
    match due {
        Some(due) => due < now.0 as u128,
        None => false,
    }
}

/// The earlier of two.
pub fn earlier(one: Option<u128>, other: Option<u128>) -> Option<u128>
    ensures { (now : ℕ) → is_after result now ≡ (is_after one now || is_after other now) }
{
    match (one, other) {
        (Some(one), Some(other)) => Some(one.min(other)),
        (Some(one), None) => Some(one),
        (None, other) => other,
    }
}

/// The last moment at which the line's writer is not overdue: its lease after it was heard. It may be after each moment
/// that there is.
pub fn lease_end(line: &Line) -> Option<u128>
    ensures { (now : ℕ) → is_after result now ≡ is_late line.now now }
{
    if line.lost {
        return None;
    }
    match line.lease {
        Some(lease) => {
            let ticks = u64::from(lease) * TICKS_OF_A_SECOND;
            Some(line.heard.0 as u128 + ticks as u128)
        }
        None => None,
    }
}

/// The last moment at which no line's writer is overdue.
pub fn first_end(lines: &[Line]) -> Option<u128>
    ensures { (now : ℕ) → is_after result now ≡ list_any (λ line. is_late line now) lines.now }
{
    let mut due = None;
    for line in lines {
        due = earlier(due, lease_end(line));
    }
    due
}

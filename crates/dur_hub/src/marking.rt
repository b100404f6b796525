//! What is durable is marked.

ghost use Rattle.std.specs.Prelude.{◌≡◌, ℕ, ◌+◌, ◌<◌, ◌≤◌, List, Some, length};
ghost use Rattle.dur_base.specs.declared.entry.Entry.{Entry};
ghost use Rattle.dur_qos.specs.declared.plan.Plan.{Plan};
ghost use Rattle.dur_view.specs.History.{History};
ghost use Rattle.dur_view.specs.Stored.{stored};
ghost use Rattle.dur_hub.specs.Runs.{Writer};
ghost use Rattle.dur_hub.specs.GoodRuns.{Apart};
ghost use Rattle.dur_hub.specs.Lines.{LineFits, LinesFit};
ghost use Rattle.dur_hub.specs.Places.{guids_of, found, IsIndex};
ghost use Rattle.dur_hub.specs.Queues.{passed_by, Queued};
ghost use Rattle.dur_hub.specs.Marks.{IsAt, passed_number};

use crate::line::Line;
use crate::places::place_of;
use crate::queue::{Passed, Queue};
use dur_base::Number;
use std::collections::HashMap;

// The number after a pair, or that before it where it is none of the writer.
fn passed_number(is_own: bool, next: Option<Number>, before: Number) -> Number
    ensures { result ≡ passed_number is_own next before }
{
    match next {
        Some(next) => if is_own { next } else { before },
        None => before,
    }
}

// Notes in a line that one more entry is durable.
fn pass_line(line: &mut Line, passed: &Passed)
    ensures { (plan : Plan) (h : History) (d : ℕ) (e : Entry) (w : Writer) → IsAt (stored h) d e
        → passed.now ≡ passed_by e → LineFits plan h d line.old w
        → LineFits plan h (d + 1) line.new w }
{
    line.durable = passed_number(passed.writer == line.guid, passed.next, line.durable);
}

// Notes in the lines that one more entry is durable.
fn pass_one(lines: &mut [Line], index: &HashMap<[u8; 16], usize>, passed: &Passed)
    ensures { (plan : Plan) (h : History) (d : ℕ) (e : Entry) (ws : List Writer)
        → IsAt (stored h) d e → passed.now ≡ passed_by e → Apart ws
        → IsIndex (found index.now) (guids_of ws)
        → LinesFit plan h d lines.old ws → LinesFit plan h (d + 1) lines.new ws }
{
    if let Some(place) = place_of(lines, index, passed.writer) {
        pass_line(&mut lines[place], passed);
    }
}

/// Notes that the next `count` entries are durable.
pub fn pass_all(queue: &mut Queue, lines: &mut [Line], index: &HashMap<[u8; 16], usize>, count: u64)
    ensures { (plan : Plan) (h : History) (t d : ℕ) (ws : List Writer)
        → Queued queue.old t d (stored h) → d + count ≤ t → Apart ws
        → IsIndex (found index.now) (guids_of ws)
        → LinesFit plan h d lines.old ws
        → Queued queue.new t (d + count) (stored h) × LinesFit plan h (d + count) lines.new ws }
{
    for _ in 0..count {
        match queue.pop() {
            Some(passed) => pass_one(lines, index, &passed),
            None => return,
        }
    }
}

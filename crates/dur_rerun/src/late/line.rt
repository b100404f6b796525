//! What `late` prints: a line for each change that the late reader took.

ghost use Rattle.std.specs.Prelude.{◌≡◌, ◌++◌, IfOk, OnOk};
ghost use Rattle.dur_rerun.specs.Late.Line.{late_line, lines};

use crate::list::line::append_words;
use dur_base::OutOfMemory;
use rel_writer::Replayed;
use std::alloc::Global;

#[tactic(auto, unfolding(crate::specs::Late::Line::late_line))]
fn append_change(alloc: Global, out: &mut Vec<u8>, change: &Replayed) -> Result<(), OutOfMemory>
    ensures { OnOk result (out.new.items ≡ out.old.items ++ late_line change.now) }
{
    append_words(alloc, out, change.original, change.number, &change.sample)
}

/// The lines of these changes, in their order.
pub fn text_of(alloc: Global, changes: &[Replayed]) -> Result<Vec<u8>, OutOfMemory>
    ensures { IfOk result (λ v. v.items ≡ lines changes.now) }
{
    let mut out = Vec::new(alloc);
    let mut rest = changes;
    while let [change, later @ ..] = rest {
        append_change(alloc, &mut out, change)?;
        rest = later;
    }
    Ok(out)
}

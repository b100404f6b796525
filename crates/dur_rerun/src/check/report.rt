//! The whole text of `check`.

ghost use Rattle.std.specs.Prelude.{◌≡◌, ◌++◌, IfOk};
ghost use Rattle.dur_outside.specs.declared.values.FileId.TheVariants.{Zero, One};
ghost use Rattle.dur_rerun.specs.Check.Line.{file_line, live_text};
ghost use Rattle.dur_rerun.specs.Check.Looks.{live_view};

use crate::check::line::{append_file, append_view};
use crate::check::looks::{Looks, live_view};
use dur_base::OutOfMemory;
use dur_outside::FileId;
use std::alloc::Global;

/// The text for two files of which this was seen.
pub fn text_of(alloc: Global, looks: &Looks) -> Result<Vec<u8>, OutOfMemory>
    ensures { IfOk result (λ t. t.items ≡ file_line Zero looks.now.zero ++ file_line One looks.now.one
        ++ live_text (live_view looks.now)) }
{
    let mut out = Vec::new(alloc);
    append_file(&mut out, FileId::Zero, &looks.zero)?;
    append_file(&mut out, FileId::One, &looks.one)?;
    match live_view(looks) {
        Some(view) => {
            append_view(alloc, &mut out, view)?;
            Ok(out)
        }
        None => Ok(out),
    }
}

//! The line of a record.

ghost use Rattle.std.specs.Prelude.{◌≡◌, ◌∷◌, ◌++◌, [], OnOk};
ghost use Rattle.std.specs.Fmt.{decimal};
ghost use Rattle.dur_rerun.specs.Show.Line.{kind_name, end_text, line};

use crate::text::{append, append_number};
use dur_base::OutOfMemory;
use dur_capture::Record;
use rtps_message::{End, Heard};
use rtps_params::ListKind;
use rtps_submsg::SubKind;

fn append_kind(out: &mut Vec<u8>, kind: SubKind) -> Result<(), OutOfMemory>
    ensures { OnOk result (out.new.items ≡ out.old.items ++ kind_name kind) }
{
    match kind {
        SubKind::Cut => append(out, b"Cut"),
        SubKind::BothDataAndKey => append(out, b"BothDataAndKey"),
        SubKind::BadNumber => append(out, b"BadNumber"),
        SubKind::BadSet => append(out, b"BadSet"),
        SubKind::BadRange => append(out, b"BadRange"),
        SubKind::List(ListKind::Cut) => append(out, b"ListCut"),
        SubKind::List(ListKind::OddLength) => append(out, b"ListOddLength"),
        SubKind::List(ListKind::BadValue(_)) => append(out, b"ListBadValue"),
        SubKind::BadOffset => append(out, b"BadOffset"),
    }
}

fn append_stop(out: &mut Vec<u8>, at: u64, kind: SubKind) -> Result<(), OutOfMemory>
    ensures { OnOk result (out.new.items ≡ out.old.items ++ (115 ∷ 116 ∷ 111 ∷ 112 ∷ 112 ∷ 101 ∷ 100 ∷ 32 ∷ []) ++ decimal at ++ 32 ∷ [] ++ kind_name kind) }
{
    append(out, b"stopped ")?;
    append_number(out, at)?;
    append(out, b" ")?;
    append_kind(out, kind)
}

fn append_end(out: &mut Vec<u8>, end: End) -> Result<(), OutOfMemory>
    ensures { OnOk result (out.new.items ≡ out.old.items ++ end_text end) }
{
    match end {
        End::Whole => append(out, b"whole"),
        End::BadHeader => append(out, b"badheader"),
        End::Stopped { at, kind } => append_stop(out, at as u64, kind),
    }
}

/// Appends the line of the record with this index, of which that was heard.
#[tactic(auto, unfolding(crate::specs::Show::Line::line))]
pub fn append_line(
    out: &mut Vec<u8>,
    index: u64,
    datagram: &Record,
    heard: &Heard,
) -> Result<(), OutOfMemory>
    ensures { OnOk result (out.new.items ≡ out.old.items ++ line index datagram.now heard.now) }
{
    append_number(out, index)?;
    append(out, b" ")?;
    append_number(out, datagram.moment.0)?;
    append(out, b" ")?;
    append_number(out, datagram.port as u64)?;
    append(out, b" ")?;
    append_number(out, heard.facts.len() as u64)?;
    append(out, b" ")?;
    append_end(out, heard.end)?;
    append(out, b"\n")
}

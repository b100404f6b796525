//! The texts of samples and entries, written in version 2.

ghost use Rattle.std.specs.Prelude.{◌≡◌, [], ◌++◌, Some, None, OnOk, IfOk};
ghost use Rattle.dur_record.specs.Texts.{long, act_code, form_code, option_text, set_text, original_text, sample_text, entry_text, entries_text, IsTypedMark, IsTypedOriginal, IsTypedSample, IsTypedEntry};
ghost use Rattle.std.specs.List.{AllByRecursion};
ghost use Rattle.dur_view.specs.History.{History, AllFollow};
ghost use Rattle.dur_record.specs.Entries.{IsGoodEntry, SpellsEntries};

use crate::version::Version;
use dur_base::{
    Act, Entry, Form, Guid, List, Number, Octets, OutOfMemory, Sample, SetMark, Ticks, u64_octets,
};

fn act_code(act: Act) -> u8
    ensures { result ≡ act_code act }
{
    match act {
        Act::Write => 0,
        Act::Dispose => 1,
        Act::Unregister => 2,
        Act::DisposeUnregister => 3,
        Act::Marker => 4,
    }
}

fn form_code(form: Form) -> u8
    ensures { result ≡ form_code form }
{
    match form {
        Form::Nothing => 0,
        Form::Data => 1,
        Form::KeyOnly => 2,
    }
}

#[tactic(auto, unfolding(crate::specs::Texts::long))]
pub fn put_long(out: &mut Octets, number: u64) -> Result<(), OutOfMemory>
    ensures { OnOk result (out.new ≡ out.old ++ long number) }
{
    out.append(&u64_octets(number, true))?;
    Ok(())
}

#[tactic(auto, unfolding(crate::specs::Texts::option_text))]
pub fn put_lifespan(out: &mut Octets, lifespan: Option<Ticks>) -> Result<(), OutOfMemory>
    ensures { OnOk result (out.new ≡ out.old ++ option_text lifespan) }
{
    match lifespan {
        None => out.append(&[0]),
        Some(ticks) => {
            out.append(&[1])?;
            put_long(out, ticks.0)
        }
    }
}

#[tactic(auto, unfolding(crate::specs::Texts::set_text))]
fn put_set(out: &mut Octets, set: SetMark) -> Result<(), OutOfMemory>
    ensures text { OnOk result (out.new ≡ out.old ++ set_text set) }
    ensures typed { OnOk result (IsTypedMark set) }
{
    match set {
        SetMark::NoSet => out.append(&[0]),
        SetMark::End => out.append(&[1]),
        SetMark::Of(number) => {
            out.append(&[2])?;
            put_long(out, number.get())
        }
    }
}

#[tactic(auto, unfolding(crate::specs::Texts::original_text))]
fn put_original(out: &mut Octets, original: Option<(Guid, Number)>) -> Result<(), OutOfMemory>
    ensures text { OnOk result (out.new ≡ out.old ++ original_text original) }
    ensures typed { OnOk result (IsTypedOriginal original) }
{
    match original {
        None => out.append(&[0]),
        Some((guid, number)) => {
            out.append(&[1])?;
            out.append(&guid.0)?;
            put_long(out, number.get())
        }
    }
}

#[tactic(auto, unfolding(crate::specs::Texts::sample_text))]
pub fn put_sample(out: &mut Octets, sample: &Sample) -> Result<(), OutOfMemory>
    ensures text { OnOk result (out.new ≡ out.old ++ sample_text sample.now) }
    ensures typed { OnOk result (IsTypedSample sample.now) }
{
    out.append(&[act_code(sample.act), form_code(sample.form)])?;
    out.append(&sample.key.0)?;
    put_long(out, sample.stamp.0)?;
    put_lifespan(out, sample.lifespan)?;
    put_set(out, sample.set)?;
    put_original(out, sample.original)?;
    put_long(out, sample.payload.len() as u64)?;
    out.append(sample.payload.as_slice())?;
    Ok(())
}

#[tactic(auto, unfolding(crate::specs::Texts::entry_text))]
fn put_entry(out: &mut Octets, entry: &Entry) -> Result<(), OutOfMemory>
    ensures text { OnOk result (out.new ≡ out.old ++ entry_text entry.now) }
    ensures typed { OnOk result (IsTypedEntry entry.now) }
{
    match entry {
        Entry::Took {
            moment,
            writer,
            number,
            sample,
        } => {
            out.append(&[1])?;
            put_long(out, moment.0)?;
            out.append(&writer.0)?;
            put_long(out, number.get())?;
            put_sample(out, sample)
        }
        Entry::Skip {
            moment,
            writer,
            from,
            to,
        } => {
            out.append(&[2])?;
            put_long(out, moment.0)?;
            out.append(&writer.0)?;
            put_long(out, from.get())?;
            put_long(out, to.get())
        }
        Entry::Lost { moment, writer } => {
            out.append(&[3])?;
            put_long(out, moment.0)?;
            out.append(&writer.0)
        }
    }
}

/// Appends the text of entries. Those that follow a history read back in it. After want of memory the buffer may hold a
/// part of the text.
pub fn write_entries(out: &mut Octets, entries: &List<Entry>) -> Result<(), OutOfMemory>
    requires { AllByRecursion IsGoodEntry entries.now }
    ensures text { OnOk result (out.new ≡ out.old ++ entries_text entries.now) }
    ensures back { OnOk result (SpellsEntries Version.Two None (entries_text entries.now) entries.now) }
    ensures following { (h : History) → AllFollow h entries.now → OnOk result (SpellsEntries Version.Two (Some h) (entries_text entries.now) entries.now) }
{
    let mut rest = entries.as_slice();
    while let [entry, later @ ..] = rest {
        put_entry(out, entry)?;
        rest = later;
    }
    Ok(())
}

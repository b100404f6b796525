//! The text of a view, written in version 2.

ghost use Rattle.std.specs.Prelude.{◌≡◌, ◌<◌, ◌≤◌, ◌^◌, ◌++◌, [], length, OnOk, IfOk};
ghost use Rattle.std.specs.List.{flat_map, AllByRecursion};
ghost use Rattle.dur_view.specs.IsSound.{IsSound};
ghost use Rattle.dur_base.specs.declared.kinds.Durability.TheVariants.{Persistent};
ghost use Rattle.dur_record.specs.Typed.{IsTypedHeld, IsTypedWriter, IsTypedInstance, IsTypedKept};
ghost use Rattle.dur_record.specs.Views.{SpellsView};
ghost use Rattle.dur_record.specs.WholeTexts.{word, shape_code, limit_code, flag_code, head_text, limits_text, topic_text, held_text, writer_text, instance_text, kept_text, front_text, back_text, view_text, IsWritable};

use crate::version::Version;
use crate::writing::{put_lifespan, put_long, put_sample};
use dur_base::{Octets, OutOfMemory, Shape, u32_octets};
use dur_qos::Topic;
use dur_view::{Held, Instance, Kept, KeptWriter, View};
use std::alloc::Global;

fn shape_code(shape: Shape) -> u8
    ensures { result ≡ shape_code shape }
{
    match shape {
        Shape::None => 0,
        Shape::Hash => 1,
        Shape::U32 => 2,
        Shape::Text => 3,
    }
}

fn limit_code(limit: Option<u32>) -> u32
    ensures { result ≡ limit_code limit }
{
    match limit {
        None => 0,
        Some(limit) => limit,
    }
}

fn flag_code(flag: bool) -> u8
    ensures { result ≡ flag_code flag }
{
    if flag { 1 } else { 0 }
}

fn put_word(out: &mut Octets, number: u32) -> Result<(), OutOfMemory>
    ensures { OnOk result (out.new ≡ out.old ++ word number) }
{
    out.append(&u32_octets(number, true))?;
    Ok(())
}

#[tactic(auto, using(crate::proofs::Lengths::name_fits))]
fn name_len(topic: &Topic) -> u8
    ensures { result ≡ length topic.now.name }
{
    topic.name.as_slice().len() as u8
}

#[tactic(auto, unfolding(crate::specs::WholeTexts::head_text))]
fn put_head(out: &mut Octets, topic: &Topic) -> Result<(), OutOfMemory>
    ensures { OnOk result (out.new ≡ out.old ++ head_text topic.now) }
{
    out.append(&[name_len(topic)])?;
    out.append(topic.name.as_slice())?;
    out.append(&[shape_code(topic.shape)])?;
    put_word(out, limit_code(topic.depth))?;
    Ok(())
}

#[tactic(auto, unfolding(crate::specs::WholeTexts::limits_text))]
fn put_limits(out: &mut Octets, topic: &Topic) -> Result<(), OutOfMemory>
    ensures { OnOk result (out.new ≡ out.old ++ limits_text topic.now) }
{
    put_word(out, limit_code(topic.max_samples))?;
    put_word(out, limit_code(topic.max_instances))?;
    put_word(out, limit_code(topic.max_per_instance))?;
    put_word(out, limit_code(topic.max_held))?;
    put_word(out, topic.delay)?;
    Ok(())
}

#[tactic(auto, unfolding(crate::specs::WholeTexts::topic_text))]
fn put_topic(out: &mut Octets, topic: &Topic) -> Result<(), OutOfMemory>
    ensures { OnOk result (out.new ≡ out.old ++ topic_text topic.now) }
{
    put_head(out, topic)?;
    put_limits(out, topic)?;
    Ok(())
}

#[tactic(auto, unfolding(crate::specs::WholeTexts::held_text))]
fn put_held(out: &mut Octets, held: &Held) -> Result<(), OutOfMemory>
    ensures text { OnOk result (out.new ≡ out.old ++ held_text held.now) }
    ensures typed { OnOk result (IsTypedHeld held.now) }
{
    put_long(out, held.number.get())?;
    put_long(out, held.moment.0)?;
    put_sample(out, &held.sample)?;
    Ok(())
}

fn put_members(out: &mut Octets, held: &[Held]) -> Result<(), OutOfMemory>
    ensures text { OnOk result (out.new ≡ out.old ++ flat_map held_text held.now) }
    ensures typed { OnOk result (AllByRecursion IsTypedHeld held.now) }
{
    let mut rest = held;
    while let [member, later @ ..] = rest {
        put_held(out, member)?;
        rest = later;
    }
    Ok(())
}

#[tactic(auto, unfolding(crate::specs::WholeTexts::writer_text))]
fn put_writer(out: &mut Octets, writer: &KeptWriter) -> Result<(), OutOfMemory>
    ensures text { OnOk result (out.new ≡ out.old ++ writer_text writer.now) }
    ensures typed { OnOk result (IsTypedWriter writer.now) }
{
    out.append(&writer.guid.0)?;
    put_word(out, writer.topic)?;
    put_long(out, writer.next.get())?;
    put_long(out, writer.held.len() as u64)?;
    put_members(out, writer.held.as_slice())?;
    Ok(())
}

fn put_places(out: &mut Octets, places: &[u32]) -> Result<(), OutOfMemory>
    ensures { OnOk result (out.new ≡ out.old ++ flat_map word places.now) }
{
    let mut rest = places;
    while let [place, later @ ..] = rest {
        put_word(out, *place)?;
        rest = later;
    }
    Ok(())
}

#[tactic(auto, unfolding(crate::specs::WholeTexts::instance_text))]
fn put_instance(out: &mut Octets, instance: &Instance) -> Result<(), OutOfMemory>
    requires { length instance.now.registered < 2 ^ 32 }
    ensures text { OnOk result (out.new ≡ out.old ++ instance_text instance.now) }
    ensures typed { OnOk result (IsTypedInstance instance.now) }
{
    put_word(out, instance.topic)?;
    out.append(&instance.key.0)?;
    out.append(&[flag_code(instance.disposed)])?;
    put_lifespan(out, instance.quiet)?;
    put_long(out, instance.changes)?;
    put_word(out, instance.registered.len() as u32)?;
    put_places(out, instance.registered.as_slice())?;
    Ok(())
}

#[tactic(auto, unfolding(crate::specs::WholeTexts::kept_text))]
fn put_kept(out: &mut Octets, change: &Kept) -> Result<(), OutOfMemory>
    ensures text { OnOk result (out.new ≡ out.old ++ kept_text change.now) }
    ensures typed { OnOk result (IsTypedKept change.now) }
{
    put_long(out, change.instance)?;
    put_long(out, change.ordinal)?;
    out.append(&change.writer.0)?;
    put_long(out, change.number.get())?;
    put_lifespan(out, change.arrived)?;
    put_sample(out, &change.sample)?;
    Ok(())
}

fn put_topics(out: &mut Octets, topics: &[Topic]) -> Result<(), OutOfMemory>
    ensures { OnOk result (out.new ≡ out.old ++ flat_map topic_text topics.now) }
{
    let mut rest = topics;
    while let [topic, later @ ..] = rest {
        put_topic(out, topic)?;
        rest = later;
    }
    Ok(())
}

fn put_writers(out: &mut Octets, writers: &[KeptWriter]) -> Result<(), OutOfMemory>
    ensures text { OnOk result (out.new ≡ out.old ++ flat_map writer_text writers.now) }
    ensures typed { OnOk result (AllByRecursion IsTypedWriter writers.now) }
{
    let mut rest = writers;
    while let [writer, later @ ..] = rest {
        put_writer(out, writer)?;
        rest = later;
    }
    Ok(())
}

fn put_instances(out: &mut Octets, instances: &[Instance]) -> Result<(), OutOfMemory>
    requires { AllByRecursion (λ i. length i.registered < 2 ^ 32) instances.now }
    ensures text { OnOk result (out.new ≡ out.old ++ flat_map instance_text instances.now) }
    ensures typed { OnOk result (AllByRecursion IsTypedInstance instances.now) }
{
    let mut rest = instances;
    while let [instance, later @ ..] = rest {
        put_instance(out, instance)?;
        rest = later;
    }
    Ok(())
}

fn put_changes(out: &mut Octets, kept: &[Kept]) -> Result<(), OutOfMemory>
    ensures text { OnOk result (out.new ≡ out.old ++ flat_map kept_text kept.now) }
    ensures typed { OnOk result (AllByRecursion IsTypedKept kept.now) }
{
    let mut rest = kept;
    while let [change, later @ ..] = rest {
        put_kept(out, change)?;
        rest = later;
    }
    Ok(())
}

#[tactic(auto, unfolding(crate::specs::WholeTexts::front_text))]
fn put_front(out: &mut Octets, view: &View) -> Result<(), OutOfMemory>
    requires { IsWritable view.now }
    ensures text { OnOk result (out.new ≡ out.old ++ front_text view.now) }
    ensures typed { OnOk result ((view.now.last < 2 ^ 64) × AllByRecursion IsTypedWriter view.now.writers) }
{
    put_long(out, view.last.0)?;
    put_word(out, view.topics.len() as u32)?;
    put_topics(out, view.topics.as_slice())?;
    put_word(out, view.writers.len() as u32)?;
    put_writers(out, view.writers.as_slice())?;
    Ok(())
}

#[tactic(auto, unfolding(crate::specs::WholeTexts::back_text))]
fn put_back(out: &mut Octets, view: &View) -> Result<(), OutOfMemory>
    requires { IsWritable view.now }
    ensures text { OnOk result (out.new ≡ out.old ++ back_text view.now) }
    ensures typed { OnOk result ((length view.now.instances < 2 ^ 64) × AllByRecursion IsTypedInstance view.now.instances × (length view.now.kept < 2 ^ 64) × AllByRecursion IsTypedKept view.now.kept) }
{
    put_long(out, view.instances.len() as u64)?;
    put_instances(out, view.instances.as_slice())?;
    put_long(out, view.kept.len() as u64)?;
    put_changes(out, view.kept.as_slice())?;
    Ok(())
}

/// Appends the text of a sound view. That of one with persistent topics alone reads back as it. After want of memory
/// the buffer may hold a part of the text.
#[tactic(auto, unfolding(crate::specs::WholeTexts::view_text), using(crate::proofs::Writable::sound_writable))]
pub fn write_view(out: &mut Octets, view: &View) -> Result<(), OutOfMemory>
    requires { IsSound view.now }
    ensures text { OnOk result (out.new ≡ out.old ++ view_text view.now) }
    ensures back { AllByRecursion (λ t. t.kind ≡ Persistent) view.now.topics → OnOk result (SpellsView Version.Two (view_text view.now) view.now) }
{
    put_front(out, view)?;
    put_back(out, view)?;
    Ok(())
}

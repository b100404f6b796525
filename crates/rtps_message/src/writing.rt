//! The messages that the service writes: a header, and little-endian submessages (DDSI-RTPS 8.3.3, 9.4).

ghost use Rattle.std.specs.Prelude.{◌≡◌, ◌≤◌, ◌+◌, ◌-◌, ◌^◌, ◌++◌, length, take, drop, IsSome, IsFalse, true, false};
ghost use Rattle.std.specs.List.{AllByRecursion};
ghost use Rattle.dur_base.specs.Goodness.{IsGood, zero_key};
ghost use Rattle.rtps_params.specs.Writing.{IsWholeKey, IsWholeOriginal};
ghost use Rattle.rtps_submsg.specs.Writing.{HasText, IsInRange, sub_text};
ghost use Rattle.rtps_submsg.specs.declared.sub.DataSub.{DataSub};
ghost use Rattle.rtps_message.specs.Written.{opening, message, acknack_subs, heartbeat_subs, status_of, sent_set, sample_list, IsSampleData, IsMarkerData, IsChange, WritesSample, WritesMarker, IsWritten, ReadsBack, Tells, TellsOne, sample_raw, marker_raw};
ghost use Rattle.dur_base.specs.declared.fact.Fact.TheVariants.{Data, Beat, Nack};

use dur_base::{Act, Bits, EntityId, Form, Guid, Key, Number, Prefix, Sample, SetMark};
use rtps_params::Inline;
use rtps_submsg::{DataSub, Sub, write_sub};

/// A header of version 2.5 and vendor 0000.
fn header(from: Prefix) -> [u8; 20]
    ensures text { result ≡ opening from }
    ensures len { length result ≡ 20 }
{
    let mut out = [0; 20];
    let (front, back) = out.split_at_mut(8);
    front.copy_from_slice(b"RTPS\x02\x05\0\0");
    back.copy_from_slice(&from.0);
    out
}

/// Writes a submessage at that place, and says where it ends.
fn put(sub: &Sub<'_>, at: usize, out: &mut [u8]) -> usize
    requires text { HasText true sub.now }
    requires room { at + length (sub_text true sub.now) ≤ length out.old }
    ensures end { result ≡ at + length (sub_text true sub.now) }
    ensures text { out.new ≡ (take at out.old ++ sub_text true sub.now) ++ drop result out.old }
    ensures back { ReadsBack sub.now }
{
    let (_, rest) = out.split_at_mut(at);
    match write_sub(sub, true, rest) {
        Ok(len) => at + len,
        Err(_) => at,
    }
}

/// Writes a message, and says how many octets it takes: a header of version 2.5 and vendor 0000, and these
/// submessages, little-endian. It takes no memory. Conditions: each submessage has a text, so that it is none
/// that is passed over and its length can be said, and `out` has room for all of them (DDSI-RTPS 8.3.3, 9.4).
pub fn write_message(from: Prefix, subs: &[Sub<'_>], out: &mut [u8]) -> usize
    requires texts { AllByRecursion (HasText true) subs.now }
    requires room { length (message from subs.now) ≤ length out.old }
    ensures written { IsWritten out.old out.new from subs.now result }
    // Each participant hears what they tell it, and that the message is whole, where their fields lie in the
    // ranges of the table.
    ensures back { AllByRecursion IsInRange subs.now → Tells from subs.now (take result out.new) }
{
    prefix_size(from);
    let header = header(from);
    let (front, _) = out.split_at_mut(20);
    front.copy_from_slice(&header);
    let mut at = 20;
    for sub in subs {
        at = put(sub, at, out);
    }
    at
}

/// What the types know: a prefix has 12 octets.
fn prefix_size(prefix: Prefix)
    ensures { length prefix ≡ 12 }
{
    let _ = prefix.0;
}

/// An entity's id has 4 octets.
fn entity_size(entity: EntityId)
    ensures { length entity ≡ 4 }
{
    let _ = entity.0;
}

/// A GUID has 16 octets.
fn guid_size(guid: Guid)
    ensures { length guid ≡ 16 }
{
    let _ = guid.0;
}

/// A key has 16 octets.
fn key_size(key: Key)
    ensures { length key ≡ 16 }
{
    let _ = key.0;
}

/// So has the GUID of an original, whose number is 1 at least.
fn original_size(original: Option<(Guid, Number)>)
    ensures { IsWholeOriginal original }
{
    if let Some((guid, number)) = original {
        let _ = guid.0;
        let _ = number.get();
    }
}

/// A set has eight words.
fn set_size(set: Bits)
    ensures { length set.words ≡ 8 }
{
    let _ = set.to_words();
}

/// Writes a HEARTBEAT of a session, which is not final, from number 1 to `last`, and says how many octets it
/// takes. It takes no memory. Condition: `out` has 65,507 octets (DDSI-RTPS 9.4.5.7).
pub fn write_heartbeat(
    from: Prefix,
    to: Guid,
    writer: EntityId,
    last: Number,
    count: u32,
    out: &mut [u8],
) -> usize
    requires { 65507 ≤ length out.old }
    ensures written { IsWritten out.old out.new from (heartbeat_subs to writer last count) result }
    // Whom it is for hears this alone, and others nothing.
    ensures back { TellsOne to (take result out.new) (Beat (from ++ writer) (drop 12 to) 1 last false) }
{
    prefix_size(from);
    guid_size(to);
    entity_size(writer);
    let subs = [
        Sub::InfoDst(to.prefix()),
        Sub::Heartbeat {
            reader: to.entity(),
            writer,
            first: Number::one(),
            last: last.get(),
            count,
            is_final: false,
            liveliness: false,
        },
    ];
    write_message(from, &subs, out)
}

/// Writes an ACKNACK of a reader, and says how many octets it takes. It takes no memory. Condition: `out` has
/// 65,507 octets (DDSI-RTPS 9.4.5.2).
pub fn write_acknack(
    from: Guid,
    to: Guid,
    set: &Bits,
    is_final: bool,
    count: u32,
    out: &mut [u8],
) -> usize
    requires { 65507 ≤ length out.old }
    ensures written { IsWritten out.old out.new (take 12 from) (acknack_subs from to set.now is_final count) result }
    // Whom it is for hears this alone, and others nothing.
    ensures back { TellsOne to (take result out.new) (Nack from (drop 12 to) set.now is_final) }
{
    guid_size(from);
    guid_size(to);
    set_size(*set);
    let subs = [
        Sub::InfoDst(to.prefix()),
        Sub::AckNack {
            reader: from.entity(),
            writer: to.entity(),
            set: *set,
            count,
            is_final,
        },
    ];
    write_message(from.prefix(), &subs, out)
}

/// The status of a dispose, alone or with an unregister.
fn status_of(act: Act) -> u8
    ensures { result ≡ status_of act }
{
    match act {
        Act::Dispose | Act::DisposeUnregister => 1,
        _ => 0,
    }
}

/// The mark that is sent: that of a set, or none.
fn sent_set(set: SetMark) -> SetMark
    ensures { result ≡ sent_set set }
{
    match set {
        SetMark::Of(number) => SetMark::Of(number),
        SetMark::NoSet | SetMark::End => SetMark::NoSet,
    }
}

/// The inline QoS of a change.
fn sample_list(sample: &Sample, keyed: bool) -> Inline
    ensures { result ≡ sample_list sample.now keyed }
{
    Inline {
        hash: if keyed { Some(sample.key) } else { None },
        status: status_of(sample.act),
        lifespan: sample.lifespan,
        set: sent_set(sample.set),
        original: sample.original,
        strange: None,
    }
}

/// The DATA of a change, with its payload as it came.
fn sample_data<'a>(
    to: Guid,
    writer: EntityId,
    number: Number,
    sample: &'a Sample,
    keyed: bool,
) -> DataSub<'a>
    ensures { IsSampleData to writer number sample.now keyed result }
{
    DataSub {
        reader: to.entity(),
        writer,
        number,
        inline: sample_list(sample, keyed),
        form: sample.form,
        payload: sample.payload.as_slice(),
    }
}

/// The DATA of a marker: the end of a set, and no payload.
fn marker_data<'a>(to: Guid, writer: EntityId, number: Number) -> DataSub<'a>
    ensures { IsMarkerData to writer number result }
{
    DataSub {
        reader: to.entity(),
        writer,
        number,
        inline: Inline {
            hash: None,
            status: 0,
            lifespan: None,
            set: SetMark::End,
            original: None,
            strange: None,
        },
        form: Form::Nothing,
        payload: &[],
    }
}

/// Writes the DATA of a change, as number `number` of a session, and says how many octets it takes. It takes
/// no memory. Conditions: `out` has 65,507 octets; the sample is good, its act is that of a change, its
/// original is present, and its key is zero where `keyed` is false (DDSI-RTPS 9.4.5.3).
pub fn write_data(
    from: Prefix,
    to: Guid,
    writer: EntityId,
    number: Number,
    sample: &Sample,
    keyed: bool,
    out: &mut [u8],
) -> usize
    requires room { 65507 ≤ length out.old }
    requires good { IsGood sample.now }
    requires act { IsChange sample.now.act }
    requires original { IsSome sample.now.original }
    requires key { IsFalse keyed → sample.now.key ≡ zero_key }
    ensures written { WritesSample out.old out.new from to writer number sample.now keyed result }
    // Whom it is for hears this alone, and others nothing, where the number is one of a sample.
    ensures back { number ≤ 2 ^ 63 - 2 → TellsOne to (take result out.new) (Data (from ++ writer) (drop 12 to) number (sample_raw sample.now keyed)) }
{
    prefix_size(from);
    guid_size(to);
    entity_size(writer);
    key_size(sample.key);
    original_size(sample.original);
    let subs = [
        Sub::InfoDst(to.prefix()),
        Sub::InfoTs(Some(sample.stamp)),
        Sub::Data(sample_data(to, writer, number, sample, keyed)),
    ];
    write_message(from, &subs, out)
}

/// Writes the marker that ends a replay, as number `number` of a session, and says how many octets it takes.
/// It takes no memory. Condition: `out` has 65,507 octets (DDSI-RTPS 9.4.5.3).
pub fn write_marker(
    from: Prefix,
    to: Guid,
    writer: EntityId,
    number: Number,
    out: &mut [u8],
) -> usize
    requires { 65507 ≤ length out.old }
    ensures written { WritesMarker out.old out.new from to writer number result }
    // Whom it is for hears this alone, and others nothing, where the number is one of a sample.
    ensures back { number ≤ 2 ^ 63 - 2 → TellsOne to (take result out.new) (Data (from ++ writer) (drop 12 to) number marker_raw) }
{
    prefix_size(from);
    guid_size(to);
    entity_size(writer);
    let subs = [
        Sub::InfoDst(to.prefix()),
        Sub::Data(marker_data(to, writer, number)),
    ];
    write_message(from, &subs, out)
}

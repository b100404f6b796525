//! Which fragments are asked for, and the message that asks for them (DDSI-RTPS 9.4.5).

ghost use Rattle.std.specs.Prelude.{◌≡◌, ◌≤◌, ◌<◌, ◌+◌, ◌*◌, ◌/◌, ◌^◌, ◌++◌, [], ◌∷◌, not, length, get_or, take, drop, IfSome};
ghost use Rattle.rtps_message.specs.Written.{message};
ghost use Rattle.rtps_submsg.specs.declared.sub.Sub.TheVariants.{InfoDst};
ghost use Rattle.rtps_frag.specs.Asking.{first_from, word_where, words_where, is_asked, asked, words_text, nack_sub, nack_message};

use crate::arrived::Arrived;
use crate::sample::write_at;
use arrayvec::ArrayVec;
use dur_base::{Bits, EntityId, Guid, Number, Prefix, octets_of_sequence, u16_octets, u32_octets};
use rtps_message::write_message;
use rtps_submsg::Sub;

/// The fragments that a HEARTBEAT_FRAG shows to be missing.
#[derive(Clone, Copy, Debug, PartialEq, Eq, Drop)]
pub struct FragAsk {
    /// Who wrote the sample.
    pub writer: Guid,
    /// The sample's number.
    pub number: Number,
    /// The number of the first missing fragment.
    pub base: u32,
    /// The place behind the last bit that is set; at most 256.
    pub count: u32,
    /// Bit d, which is `1 << (31 - d % 32)` of word `d / 32`, asks for fragment `base + d`.
    pub words: [u32; 8],
}

/// Whether the fragment at that place is asked for.
fn is_asked(came: &Arrived, last: u32, k: usize) -> bool
    ensures { result ≡ is_asked came.now last k }
{
    k < last as usize && k < came.len() && !came.is_set(k)
}

/// The word whose first bit is for that place.
#[tactic(auto, using(crate::proofs::Words::digits_fit))]
fn word(came: &Arrived, last: u32, k: usize) -> u32
    requires { k < 2 ^ 33 }
    ensures { result ≡ word_where (is_asked came.now last) k }
{
    let mut word = 0;
    let mut n = 0;
    while n < 32 {
        word = word * 2 + u32::from(is_asked(came, last, k + n));
        n += 1;
    }
    word
}

/// The words whose first bit is for that place.
fn words(came: &Arrived, last: u32, k: usize) -> [u32; 8]
    requires { k < 2 ^ 32 }
    ensures { result ≡ words_where (is_asked came.now last) k }
{
    [
        word(came, last, k),
        word(came, last, k + 32),
        word(came, last, k + 64),
        word(came, last, k + 96),
        word(came, last, k + 128),
        word(came, last, k + 160),
        word(came, last, k + 192),
        word(came, last, k + 224),
    ]
}

/// The fragments that did not come, from the least one to the lesser of `last` and that one + 255, where
/// there is one.
#[tactic(auto, unfolding(crate::specs::Asking::asked))]
pub fn asked(writer: Guid, number: Number, came: &Arrived, last: u32) -> Option<FragAsk>
    ensures { result ≡ asked writer number came.now last }
{
    match came.first_missing() {
        None => None,
        Some(first) => {
            if first >= last as usize {
                return None;
            }
            let words = words(came, last, first);
            Some(FragAsk {
                writer,
                number,
                base: first as u32 + 1,
                count: Bits::of(Number::one(), words).count(),
                words,
            })
        }
    }
}

fn put(text: &mut ArrayVec<u8, 128>, bytes: &[u8])
    requires { length text.old.items + length bytes.now ≤ 128 }
    ensures { text.new.items ≡ text.old.items ++ bytes.now }
{
    match text.try_extend_from_slice(bytes) {
        Ok(()) => {}
        Err(_) => {}
    }
}

fn put_words(text: &mut ArrayVec<u8, 128>, words: &[u32; 8], bits: u32)
    requires room { length text.old.items + 32 ≤ 128 }
    requires bits { bits ≤ 256 }
    ensures text { text.new.items ≡ text.old.items ++ words_text ((bits + 31) / 32) words.now }
    ensures len { length text.new.items ≤ length text.old.items + 32 }
{
    let (used, _) = words.as_slice().split_at(bits.div_ceil(32) as usize);
    for word in used {
        put(text, &u32_octets(*word, true));
    }
}

/// A NACK_FRAG.
#[tactic(auto, unfolding(crate::specs::Asking::nack_sub))]
fn nack_octets(reader: EntityId, writer: EntityId, ask: &FragAsk, count: u32) -> ArrayVec<u8, 128>
    requires bits { ask.now.count ≤ 256 }
    ensures text { result.items ≡ nack_sub reader writer ask.now count }
    ensures len { length result.items ≤ 68 }
{
    let mut text = ArrayVec::new();
    put(&mut text, &[0x12, 0x01]);
    let len = 28 + 4 * ask.count.div_ceil(32);
    put(&mut text, &u16_octets(len as u16, true));
    put(&mut text, &reader.0);
    put(&mut text, &writer.0);
    put(&mut text, &octets_of_sequence(ask.number.get(), true));
    put(&mut text, &u32_octets(ask.base, true));
    put(&mut text, &u32_octets(ask.count, true));
    put_words(&mut text, &ask.words, ask.count);
    put(&mut text, &u32_octets(count, true));
    text
}

/// A prefix has 12 octets.
fn prefix_size(prefix: Prefix)
    ensures { length prefix ≡ 12 }
{
    let _ = prefix.0;
}

/// Writes a header and an INFO_DST.
fn write_start(from: Guid, to: Guid, out: &mut [u8]) -> usize
    requires { 36 ≤ length out.old }
    ensures len { result ≡ length (message (take 12 from) (InfoDst (take 12 to) ∷ [])) }
    ensures short { result ≡ 36 }
    ensures text { out.new ≡ message (take 12 from) (InfoDst (take 12 to) ∷ []) ++ drop result out.old }
{
    let from = from.prefix();
    let to = to.prefix();
    prefix_size(from);
    prefix_size(to);
    let subs = [Sub::InfoDst(to)];
    write_message(from, &subs, out)
}

/// Writes a NACK_FRAG of a reader, and says how many octets it takes: header, INFO_DST of the writer's
/// participant, and the NACK_FRAG, all little-endian. It takes no memory. Conditions: `out` has 65,507 octets,
/// and the ask's `count` is at most 256 (DDSI-RTPS 9.4.5).
pub fn write_nack_frag(from: Guid, to: Guid, ask: &FragAsk, count: u32, out: &mut [u8]) -> usize
    requires room { 65507 ≤ length out.old }
    requires bits { ask.now.count ≤ 256 }
    ensures len { result ≡ length (nack_message from to ask.now count) }
    ensures text { out.new ≡ nack_message from to ask.now count ++ drop result out.old }
{
    let at = write_start(from, to, out);
    let text = nack_octets(from.entity(), to.entity(), ask, count);
    write_at(out, at, text.as_slice());
    at + text.len()
}

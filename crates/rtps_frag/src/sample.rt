//! One open sample: which of its fragments came, and their octets.

ghost use Rattle.std.specs.Prelude.{◌≡◌, ◌+◌, ◌-◌, ◌*◌, ◌^◌, ◌<◌, ◌≤◌, ◌&&◌, ◌==◌, [], true, not, take, drop, slice_set, length, get_or, replicate, Some, None, OnOk, OnErr, IfOk};
ghost use Rattle.std.specs.Str.{bytes_eq};
ghost use Rattle.rtps_message.specs.Facts.{IsGoodFact};
ghost use Rattle.rtps_frag.specs.Bodies.{brings, Fits};
ghost use Rattle.rtps_frag.specs.Samples.{Opened, opening, is_sample, is_alike, with_one, with_some, with_list, with_fragments, is_whole, form_of, joined, fragments_in, missing_in};
ghost use lib.Seq.{paste};

use crate::arrived::Arrived;
use crate::body::FragSub;
use bytes::Bytes;
use dur_base::{
    EntityId, Fact, Form, Guid, LONGEST_PAYLOAD, Number, OutOfMemory, Payload, Raw, Ticks,
};
use rtps_params::Inline;
use std::alloc::Global;
use std::marker::Model;

/// The place of an open sample, whose memory outlives it.
#[derive(Drop)]
pub struct Slot {
    writer: Guid,
    number: Number,
    reader: EntityId,
    size: usize,
    width: usize,
    is_key: bool,
    inline: Inline,
    time: Option<Ticks>,
    /// Whether each fragment came.
    came: Arrived,
    /// How many did not.
    missing: usize,
    /// The octets of those that came, each at its place; zeros elsewhere.
    octets: Vec<u8>,
}

impl Model for Slot {
    ghost use Rattle.rtps_frag.specs.Samples.{Opened, IsOpened, missing_in};
    ghost use Rattle.std.specs.Prelude.{◌≡◌};

    ghost Value = { Opened };

    ghost view = { λ s. record { writer = s.writer; number = s.number; reader = s.reader; size = s.size; width = s.width; is_key = s.is_key; inline = s.inline; time = s.time; came = s.came; octets = s.octets.items } };

    ghost invariant = { λ s. IsOpened s.size s.missing s.inline s.came s.octets.items };
}

/// As many zeros.
fn fill_octets(octets: &mut Vec<u8>, size: usize) -> Result<(), OutOfMemory>
    requires { octets.old.items ≡ [] }
    ensures ok { OnOk result (octets.new.items ≡ replicate size 0) }
    ensures err { OnErr result (octets.new.items ≡ []) }
{
    octets.resize(size, 0)?;
    Ok(())
}

/// Whether the fragment at that place did not come.
fn is_missing(came: &Arrived, k: usize) -> bool
    ensures value { result ≡ not (get_or came.now k true) }
    ensures within { result ≡ true → k < length came.now }
    ensures counted { result ≡ true → missing_in (slice_set came.now k true) + 1 ≡ missing_in came.now }
{
    k < came.len() && !came.is_set(k)
}

/// Writes octets at a place.
pub fn write_at(octets: &mut [u8], at: usize, text: &[u8])
    requires { at + length text.now ≤ length octets.old }
    ensures written { octets.new ≡ paste octets.old at text.now (length text.now) }
    ensures len { length octets.new ≡ length octets.old }
{
    let (_, rest) = octets.split_at_mut(at);
    let (place, _) = rest.split_at_mut(text.len());
    place.copy_from_slice(text);
}

/// The octets of the first fragment, and those of the others.
fn first_of<'a>(rest: &'a [u8], width: usize) -> (&'a [u8], &'a [u8])
    ensures first { result.0.now ≡ take width rest.now }
    ensures later { result.1.now ≡ drop width rest.now }
{
    if rest.len() <= width {
        return (rest, &[]);
    }
    rest.split_at(width)
}

impl Slot {
    /// A place with the memory of the longest sample, in which none is open yet.
    pub fn new(alloc: Global) -> Result<Slot, OutOfMemory> {
        Ok(Slot {
            writer: Guid([0; 16]),
            number: Number::one(),
            reader: EntityId([0; 4]),
            size: 0,
            width: 0,
            is_key: false,
            inline: Inline::nothing(),
            time: None,
            came: Arrived::new(alloc)?,
            missing: 0,
            octets: Vec::with_capacity(alloc, LONGEST_PAYLOAD)?,
        })
    }

    /// Whether it is that sample.
    pub fn is(&self, writer: Guid, number: Number) -> bool
        ensures { result ≡ is_sample writer number self.now }
    {
        self.number == number && self.writer == writer
    }

    /// Whether a DATA_FRAG is of this sample's sampleSize, fragmentSize, readerId and K.
    pub fn is_alike(&self, sub: &FragSub<'_>) -> bool
        ensures { result ≡ is_alike self.now (brings sub.now) }
    {
        (self.size == sub.head.size as usize && self.width == usize::from(sub.head.width))
            && (self.reader == sub.head.reader && self.is_key == sub.is_key)
    }

    /// Opens a sample here, of which nothing came.
    #[tactic(auto, using(crate::proofs::Pieces::missing_none), unfolding(crate::specs::Samples::opening))]
    pub fn open(&mut self, writer: Guid, sub: &FragSub<'_>) -> Result<(), OutOfMemory>
        requires fits { Fits (brings sub.now) }
        requires small { sub.now.head.size ≤ 65344 }
        ensures { OnOk result (self.new ≡ opening writer (brings sub.now)) }
    {
        self.octets.clear();
        self.size = 0;
        let size = sub.head.size as usize;
        let width = usize::from(sub.head.width);
        let count = (size - 1) / width + 1;
        self.came.clear(count);
        self.missing = count;
        fill_octets(&mut self.octets, size)?;
        self.writer = writer;
        self.number = sub.head.number;
        self.reader = sub.head.reader;
        self.size = size;
        self.width = width;
        self.is_key = sub.is_key;
        self.inline = Inline::nothing();
        self.time = None;
        Ok(())
    }

    /// Takes the fragment at place k, unless it came.
    fn put_one(&mut self, k: usize, text: &[u8])
        requires begins { k * self.old.width ≤ self.old.size }
        requires ends { length text.now ≤ self.old.size - k * self.old.width }
        ensures new { self.new ≡ with_one k text.now self.old }
        ensures size { self.new.size ≡ self.old.size }
        ensures width { self.new.width ≡ self.old.width }
    {
        if !is_missing(&self.came, k) {
            return;
        }
        self.came.set(k);
        self.missing -= 1;
        write_at(self.octets.as_mut_slice(), k * self.width, text);
    }

    /// Takes fragments from place k on, whose octets follow one another.
    fn put_some(&mut self, first: usize, count: usize, octets: &[u8])
        requires last { 0 < count → (first + count - 1) * self.old.width ≤ self.old.size }
        requires ends { length octets.now ≤ self.old.size - first * self.old.width }
        requires small { first + count < 2 ^ 33 }
        ensures { self.new ≡ with_some first count octets.now self.old }
    {
        let mut k = first;
        let mut left = count;
        let mut rest = octets;
        while left > 0 {
            let (text, later) = first_of(rest, self.width);
            self.put_one(k, text);
            k += 1;
            left -= 1;
            rest = later;
        }
    }

    /// Takes the inline QoS and the time of a DATA_FRAG that brings fragment 1, unless it came.
    fn put_list(&mut self, time: Option<Ticks>, sub: &FragSub<'_>)
        requires { Fits (brings sub.now) }
        ensures { self.new ≡ with_list time (brings sub.now) self.old }
    {
        if sub.head.first == 1 && is_missing(&self.came, 0) {
            self.inline = sub.inline;
            self.time = time;
        }
    }

    /// Takes what a DATA_FRAG brings. Of each fragment the first arrival counts.
    #[tactic(auto, unfolding(crate::specs::Samples::with_fragments))]
    pub fn put(&mut self, time: Option<Ticks>, sub: &FragSub<'_>)
        requires fits { Fits (brings sub.now) }
        requires size { self.old.size ≡ sub.now.head.size }
        requires width { self.old.width ≡ sub.now.head.width }
        ensures { self.new ≡ with_fragments time (brings sub.now) self.old }
    {
        self.put_list(time, sub);
        let first = sub.head.first as usize - 1;
        self.put_some(first, usize::from(sub.head.count), sub.octets);
    }

    /// Whether all its fragments came.
    #[tactic(auto, using(crate::proofs::Pieces::whole_none))]
    pub fn is_whole(&self) -> bool
        ensures value { result ≡ is_whole self.now }
        // What it would tell is good.
        ensures good { IsGoodFact (joined self.now) }
    {
        self.missing == 0
    }

    /// What it tells where it is whole.
    #[tactic(auto, unfolding(crate::specs::Samples::joined))]
    pub fn joined(&self, alloc: Global) -> Result<Fact, OutOfMemory>
        ensures { IfOk result (λ f. f ≡ joined self.now) }
    {
        if self.inline.strange.is_some() {
            return Ok(Fact::Unreadable {
                writer: self.writer,
                reader: self.reader,
                number: self.number,
            });
        }
        let payload = Payload::of(Bytes::copy_from_slice(alloc, self.octets.as_slice())?);
        let form = if self.is_key {
            Form::KeyOnly
        } else {
            Form::Data
        };
        Ok(Fact::Data {
            writer: self.writer,
            reader: self.reader,
            number: self.number,
            raw: Raw {
                hash: self.inline.hash,
                status: self.inline.status,
                stamp: self.time,
                lifespan: self.inline.lifespan,
                set: self.inline.set,
                original: self.inline.original,
                form,
                payload,
            },
        })
    }

    /// Who wrote it.
    pub fn writer(&self) -> Guid
        ensures { result ≡ self.now.writer }
    {
        self.writer
    }

    /// Its number.
    pub fn number(&self) -> Number
        ensures { result ≡ self.now.number }
    {
        self.number
    }

    /// Whether each of its fragments came.
    pub fn came(&self) -> &Arrived
        ensures { result.now ≡ self.now.came }
    {
        &self.came
    }
}

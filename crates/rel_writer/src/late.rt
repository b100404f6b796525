//! A reader that joins late, and takes one replay.

ghost use Rattle.std.specs.Prelude.{◌≡◌, ℕ, ◌+◌, ◌<◌, Bool, List, if◌then◌else◌, ◌≤◌, length, take, map, OnOk, OnErr, IfOk, vec_len, vec_capacity, true};
ghost use Rattle.std.specs.List.{sum_by};
ghost use Rattle.dur_base.specs.NumberSets.{IsNumberSet};
ghost use Rattle.dur_base.specs.declared.fact.Fact.TheVariants.{Beat};
ghost use Rattle.rel_reader.specs.Windows.{HasSample};
ghost use Rattle.rel_reader.specs.Stories as story;
ghost use Rattle.rtps_message.specs.Facts.{AreGood, IsGoodFact};
ghost use Rattle.rel_reader.specs.Knowledge.{is_with};
ghost use Rattle.rel_reader.specs.Stories.{next};
ghost use Rattle.rel_reader.specs.KnownNumbers.{known};
ghost use Rattle.rel_writer.specs.Sets.{any_marker, handed};
ghost use Rattle.rel_writer.specs.LateReaders.{IsNack, Late, asked, asks_by, fresh, handle, heard_from, told};
ghost use Rattle.rel_writer.specs.Room.{Grows, HasRoom, brings};
ghost use Rattle.rel_writer.specs.Sessions.{Writes};
ghost use Rattle.rel_writer.specs.Standing.{HearsAll, HearsBytes, Stands, replayed};
ghost use Rattle.rel_writer.specs.Handling.{HearsOne, Passes, Settles, TakesOne};

use crate::choices::either;
use crate::hearing::{beat_of, brought, is_from, keeps, read_of};
use crate::taken::{Replayed, Taken};
use dur_base::{Bits, EntityId, Fact, Guid, List, Number, OutOfMemory, Prefix, Sample};
use rel_reader::{Proxy, Ready};
use rtps_message::{facts, write_acknack};
use std::alloc::Global;

/// How many numbers the window of a proxy has.
const WINDOW: usize = 256;

/// A reader that joins late: it takes the replay of one service, as a stateful reader (DDSI-RTPS
/// 8.4.12).
///
/// It keeps to the first source prefix that begins with the service's octets and sends it a
/// HEARTBEAT from the replay's writer. Before that it takes no DATA, and afterwards none of another
/// prefix.
#[derive(Drop)]
pub struct LateReader {
    reader: Guid,
    // The first octets of the service's prefixes.
    service: [u8; 8],
    // The id of the replay's writer.
    writer: EntityId,
    // The prefix that it keeps to.
    kept: Option<Prefix>,
    proxy: Proxy,
    taken: Taken,
    // The greatest last number of the HEARTBEATs.
    last: u64,
    // How many ACKNACKs it sent, modulo 2^32.
    nacks: u32,
}

/// A set has its one form.
fn form_of(set: &Bits)
    ensures { IsNumberSet set.now }
{
    let _ = set.to_words();
}

impl LateReader {
    /// A late reader that has heard nothing, of the service whose prefixes begin with these octets
    /// and whose replay has this writer. It takes the memory of its window, and answers
    /// `OutOfMemory` only where there is none.
    pub fn new(
        alloc: Global,
        reader: Guid,
        service: [u8; 8],
        writer: EntityId,
    ) -> Result<LateReader, OutOfMemory>
        ensures { IfOk result (λ r. Stands r (fresh reader service writer)) }
    {
        let proxy = Proxy::new(alloc, Number::one())?;
        Ok(LateReader {
            reader,
            service,
            writer,
            kept: None,
            proxy,
            taken: Taken::new(alloc),
            last: 0,
            nacks: 0,
        })
    }

    /// What it took: the samples below its next number but markers, and of each set all or nothing.
    pub fn taken(&self) -> &[Replayed]
        ensures { (l : Late) → Stands self.now l → result.now ≡ map replayed (handed l.handled) }
    {
        self.taken.handed()
    }

    /// Whether a marker was handled.
    pub fn done(&self) -> bool
        ensures { (l : Late) → Stands self.now l → result ≡ any_marker l.handled }
    {
        self.taken.done()
    }

    /// A HEARTBEAT.
    fn tell_beat(&mut self, writer: Guid, first: Number, last: u64)
        ensures told { (l : Late) (reader : List ℕ) (is_final : Bool) → Stands self.old l
            → Stands self.new (told l (Beat writer reader first last is_final)) }
        ensures taken { self.new.taken ≡ self.old.taken }
    {
        self.kept = keeps(self.service, self.writer, self.kept, writer);
        if is_from(self.kept, self.writer, writer) {
            self.proxy.on_beat(first);
            self.last = self.last.max(last);
        }
    }

    /// A DATA, readable or not.
    fn tell_data(&mut self, writer: Guid, number: Number, read: Option<Sample>)
        ensures told { (l : Late) → Stands self.old l
            → Stands self.new (heard_from l writer (story.Data number read)) }
        ensures taken { self.new.taken ≡ self.old.taken }
    {
        if is_from(self.kept, self.writer, writer) {
            self.proxy.on_data(number, read);
        }
    }

    /// A GAP.
    fn tell_gap(&mut self, writer: Guid, start: Number, set: &Bits)
        ensures told { (l : Late) → Stands self.old l
            → Stands self.new (heard_from l writer (story.Gap start set.now)) }
        ensures taken { self.new.taken ≡ self.old.taken }
    {
        if is_from(self.kept, self.writer, writer) {
            self.proxy.on_gap(start, set);
        }
    }

    /// A fact came.
    fn tell(&mut self, fact: Fact)
        requires { IsGoodFact fact }
        ensures told { (l : Late) → Stands self.old l → Stands self.new (told l fact) }
        ensures taken { self.new.taken ≡ self.old.taken }
    {
        match fact {
            Fact::Data {
                writer,
                number,
                raw,
                ..
            } => {
                let read = read_of(self.writer, raw);
                self.tell_data(writer, number, read);
            }
            Fact::Unreadable { writer, number, .. } => self.tell_data(writer, number, None),
            Fact::Gap {
                writer,
                start,
                set,
                ..
            } => self.tell_gap(writer, start, &set),
            Fact::Beat {
                writer,
                first,
                last,
                ..
            } => self.tell_beat(writer, first, last),
            Fact::Nack { .. } => {}
        }
    }

    /// Passes the irrelevant numbers that are next.
    fn pass(&mut self)
        ensures handled { (l : Late) → Stands self.old l → Passes self.new l }
        ensures taken { self.new.taken ≡ self.old.taken }
    {
        if let Ready::Skip(_, _) = self.proxy.ready() {
            let _none = self.proxy.handled();
        }
    }

    /// Takes the sample that is ready.
    fn take(&mut self)
        requires has { HasSample self.old.proxy }
        requires room { vec_len self.old.taken.samples < vec_capacity self.old.taken.samples }
        ensures handled { (l : Late) → Stands self.old l
            → Stands self.new (handle l (known l.story (next l.story))) }
        ensures ready { (l : Late) → Stands self.old l
            → is_with (known l.story (next l.story)) ≡ true }
        ensures grows { Grows 1 self.old.taken.samples self.new.taken.samples }
    {
        match self.proxy.handled() {
            Some(sample) => self.taken.add(sample),
            None => {}
        }
    }

    /// Takes the next sample, if it is ready, and says whether it was. Irrelevant numbers before it
    /// are passed.
    fn take_one(&mut self) -> bool
        requires { vec_len self.old.taken.samples < vec_capacity self.old.taken.samples }
        ensures handled { (l : Late) → Stands self.old l → TakesOne self.new result l }
        ensures grows { Grows (if result then 1 else 0) self.old.taken.samples
            self.new.taken.samples }
    {
        self.pass();
        match self.proxy.ready() {
            Ready::Sample => {
                self.take();
                true
            }
            _ => false,
        }
    }

    /// Handles all that is ready. There is room for it.
    fn take_ready(&mut self)
        ensures { (l : Late) (more : ℕ) → Stands self.old l → HasRoom more self.old l
            → Settles more self.new l }
    {
        let room = self.taken.room();
        for i in 0..room {
            if !self.take_one() {
                return;
            }
        }
        self.pass();
    }

    /// Whether a HEARTBEAT asks for an ACKNACK: it is not final, or shows a missing number.
    fn asks(&self, beat: Option<(Guid, u64, bool)>) -> bool
        ensures { (l : Late) → Stands self.now l → result ≡ asks_by l beat }
    {
        match beat {
            Some((writer, last, is_final)) => {
                is_from(self.kept, self.writer, writer)
                    && (!is_final || self.proxy.next().get() <= last)
            }
            None => false,
        }
    }

    /// A fact came, and all is handled that is ready. It says whether it asks for an ACKNACK.
    fn hear(&mut self, fact: Fact) -> bool
        requires { IsGoodFact fact }
        ensures { (l : Late) (more : ℕ) → Stands self.old l
            → HasRoom (brings fact + more) self.old l → HearsOne more self.new result fact l }
    {
        let beat = beat_of(&fact);
        self.tell(fact);
        self.take_ready();
        self.asks(beat)
    }

    /// Facts came, one after the other. It says whether one of them asks for an ACKNACK.
    fn hear_all(&mut self, facts: List<Fact>) -> bool
        requires { AreGood facts }
        ensures { (l : Late) → Stands self.old l → HasRoom (sum_by brings facts) self.old l
            → HearsAll self.new result facts l }
    {
        let mut asked = false;
        for fact in facts.into_vec() {
            asked = either(self.hear(fact), asked);
        }
        asked
    }

    /// Makes room for all that wait in the window, and for the samples that these facts bring.
    fn reserve(&mut self, facts: &[Fact]) -> Result<(), OutOfMemory>
        ensures held { (l : Late) → Stands self.old l → Stands self.new l }
        ensures room { OnOk result
            ((l : Late) → Stands self.new l → HasRoom (sum_by brings facts.now) self.new l) }
    {
        match brought(facts).checked_add(WINDOW) {
            Some(room) => self.taken.reserve(room),
            None => Err(OutOfMemory),
        }
    }

    /// A datagram came. All that it makes ready is handled, and the answer is whether an ACKNACK is
    /// to be sent: one of its HEARTBEATs is not final, or shows a number that is missing. It
    /// answers `OutOfMemory` only where there is none, and then nothing has changed. It makes room
    /// for the window's samples and for one a DATA.
    pub fn on_datagram(&mut self, bytes: &[u8]) -> Result<bool, OutOfMemory>
        ensures ok { IfOk result (λ asked. (l : Late) → Stands self.old l
            → HearsBytes self.new asked bytes.now l) }
        ensures err { OnErr result ((l : Late) → Stands self.old l → Stands self.new l) }
    {
        let heard = facts(self.taken.alloc(), bytes, self.reader.prefix())?;
        self.reserve(heard.facts.as_slice())?;
        Ok(self.hear_all(heard.facts))
    }

    /// Writes the next ACKNACK, and says how many octets it takes. It is to everybody until the
    /// service's prefix is known, it has all numbers below the next one, and asks for those that
    /// are missing; it is final exactly where the late reader is done. It takes no memory.
    /// Condition: `out` has 65,507 octets (DDSI-RTPS 9.4.5.2).
    pub fn nack(&mut self, out: &mut [u8]) -> usize
        requires { 65507 ≤ length out.old }
        ensures after { (l : Late) → Stands self.old l → Stands self.new (asked l) }
        ensures nack { (l : Late) → Stands self.old l → IsNack l (take result out.new) }
        ensures writes { Writes out.old out.new result }
    {
        self.nacks = self.nacks.wrapping_add(1);
        let base = self.proxy.next();
        let set = self.proxy.acknack(base, self.last);
        form_of(&set);
        let to = Guid::of(self.kept.unwrap_or(Prefix([0; 12])), self.writer);
        write_acknack(self.reader, to, &set, self.taken.done(), self.nacks, out)
    }
}

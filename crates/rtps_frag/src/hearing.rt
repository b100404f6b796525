//! What is heard in a datagram.

ghost use Rattle.std.specs.Prelude.{◌≡◌, ◌≤◌, ◌<◌, ◌++◌, ◌-◌, ◌+◌, ◌^◌, true, [], length, drop, IfOk, IfErr, IfSome, OnOk, OnErr};
ghost use Rattle.std.specs.Option.{option_to_list};
ghost use Rattle.dur_base.proofs.OctetLists.{IsBytes};
ghost use Rattle.rtps_message.specs.Facts.{IsGoodFact, AreGood};
ghost use Rattle.rtps_submsg.specs.Subs.{SubSpells};
ghost use Rattle.rtps_submsg.specs.declared.sub.Sub.TheVariants.{Other};
ghost use Rattle.rtps_frag.specs.Bodies.{brings, Fits, FragmentsSpell, FragmentsBreak};
ghost use Rattle.rtps_frag.specs.Joining.{is_other, flags_of, body_of, ItemBreaks, Goes, Says, Joins, IsAll, IsAsEver};

use crate::asks::FragAsk;
use crate::body::{has, read_beat, read_fragments};
use crate::joiner::{Joined, Joiner};
use bytes::Bytes;
use dur_base::{Fact, Guid, List, OutOfMemory, Payload, Prefix};
use rtps_message::{Context, End, begin};
use rtps_submsg::{Sub, SubFault, read_sub};
use std::alloc::Global;

/// What one submessage tells and asks for, and how many octets it takes.
#[derive(Drop)]
struct Told {
    len: usize,
    fact: Option<Fact>,
    ask: Option<FragAsk>,
}

/// Octets are below 256.
fn octets_below(bytes: &[u8])
    ensures { IsBytes bytes.now }
{
    let _ = bytes;
}

/// The flags and the body of a submessage with that many octets.
fn parts<'a>(bytes: &'a [u8], len: usize) -> (u8, &'a [u8])
    requires long { 4 ≤ len }
    requires within { len ≤ length bytes.now }
    ensures flags { result.0 ≡ flags_of bytes.now }
    ensures body { result.1.now ≡ body_of bytes.now len }
    ensures short { length result.1.now ≤ length bytes.now }
{
    (bytes[1], bytes.split_at(len).0.split_at(4).1)
}

/// Whether it is of an id that is passed over.
fn is_other(sub: &Sub<'_>, id: u8) -> bool
    ensures value { result ≡ is_other id sub.now }
    ensures is { result ≡ true → sub.now ≡ Other id }
{
    match sub {
        Sub::Other(other) => *other == id,
        _ => false,
    }
}

/// Adds a fact, where one is told.
fn keep_fact(facts: &mut List<Fact>, told: Option<Fact>) -> Result<(), OutOfMemory>
    ensures { OnOk result (facts.new ≡ facts.old ++ option_to_list told) }
{
    match told {
        Some(fact) => facts.push(fact),
        None => Ok(()),
    }
}

/// Adds what is asked for, where something is.
fn keep_ask(asks: &mut List<FragAsk>, told: Option<FragAsk>) -> Result<(), OutOfMemory>
    ensures { OnOk result (asks.new ≡ asks.old ++ option_to_list told) }
{
    match told {
        Some(ask) => asks.push(ask),
        None => Ok(()),
    }
}

impl Joiner {
    /// What the fragments of a DATA_FRAG do and tell.
    fn hear_fragments(
        &mut self,
        alloc: Global,
        own: Prefix,
        context: &Context,
        bytes: &[u8],
        len: usize,
    ) -> Result<Result<Told, SubFault>, OutOfMemory>
        requires spells { SubSpells bytes.now (Other 0x16) len }
        requires within { len ≤ length bytes.now }
        ensures ok { IfOk result (λ r. IfOk r (λ t. Goes own bytes.now (record { context = context.now; samples = self.old }) (record { context = context.now; samples = self.new }) t.len t.fact t.ask)) }
        ensures err { IfOk result (λ r. IfErr r (λ f. ItemBreaks bytes.now f.at f.kind × (self.new ≡ self.old))) }
        ensures good { IfOk result (λ r. IfOk r (λ t. IfSome t.fact IsGoodFact)) }
        ensures place { IfOk result (λ r. IfErr r (λ f. f.at ≤ 32 + length bytes.now)) }
    {
        let (flags, body) = parts(bytes, len);
        match &read_fragments(body, flags) {
            Err(fault) => Ok(Err(*fault)),
            Ok(sub) => {
                let is_ours = context.is_for(own);
                if !is_ours {
                    return Ok(Ok(Told {
                        len,
                        fact: None,
                        ask: None,
                    }));
                }
                let writer = Guid::of(context.source, sub.head.writer);
                let fact = self.take(alloc, writer, context.time, sub)?;
                Ok(Ok(Told {
                    len,
                    fact,
                    ask: None,
                }))
            }
        }
    }

    /// What a HEARTBEAT_FRAG asks for.
    fn hear_beat(
        &self,
        own: Prefix,
        context: &Context,
        bytes: &[u8],
        len: usize,
    ) -> Result<Told, SubFault>
        requires spells { SubSpells bytes.now (Other 0x13) len }
        requires within { len ≤ length bytes.now }
        ensures ok { IfOk result (λ t. Goes own bytes.now (record { context = context.now; samples = self.now }) (record { context = context.now; samples = self.now }) t.len t.fact t.ask) }
        ensures err { IfErr result (λ f. ItemBreaks bytes.now f.at f.kind) }
        ensures good { IfOk result (λ t. IfSome t.fact IsGoodFact) }
        ensures place { IfErr result (λ f. f.at ≤ 32 + length bytes.now) }
    {
        let (flags, body) = parts(bytes, len);
        match read_beat(body, has(flags, 0x01)) {
            Err(fault) => Err(fault),
            Ok(beat) => {
                if !context.is_for(own) {
                    return Ok(Told {
                        len,
                        fact: None,
                        ask: None,
                    });
                }
                let ask = self.asked(Guid::of(context.source, beat.writer), &beat);
                Ok(Told {
                    len,
                    fact: None,
                    ask,
                })
            }
        }
    }

    /// What the submessage at a place does and tells.
    fn hear_sub(
        &mut self,
        alloc: Global,
        own: Prefix,
        context: &mut Context,
        datagram: &Payload,
        at: usize,
    ) -> Result<Result<Told, SubFault>, OutOfMemory>
        requires { at ≤ length datagram.now }
        ensures ok { IfOk result (λ r. IfOk r (λ t. Goes own (drop at datagram.now) (record { context = context.old; samples = self.old }) (record { context = context.new; samples = self.new }) t.len t.fact t.ask)) }
        ensures err { IfOk result (λ r. IfErr r (λ f. ItemBreaks (drop at datagram.now) f.at f.kind × (self.new ≡ self.old))) }
        ensures good { IfOk result (λ r. IfOk r (λ t. IfSome t.fact IsGoodFact)) }
        ensures place { IfOk result (λ r. IfErr r (λ f. f.at ≤ 32 + (length datagram.now - at))) }
        ensures small { length datagram.now < 2 ^ 63 }
    {
        let bytes = datagram.as_slice().split_at(at).1;
        match &read_sub(bytes) {
            Err(fault) => Ok(Err(*fault)),
            Ok((sub, len)) => {
                if is_other(sub, 0x16) {
                    return self.hear_fragments(alloc, own, context, bytes, *len);
                }
                if is_other(sub, 0x13) {
                    return Ok(self.hear_beat(own, context, bytes, *len));
                }
                octets_below(bytes);
                let fact = context.hear(own, sub, datagram, at + *len)?;
                Ok(Ok(Told {
                    len: *len,
                    fact,
                    ask: None,
                }))
            }
        }
    }

    /// What the submessages behind a good header do and tell.
    fn hear_from(
        &mut self,
        alloc: Global,
        own: Prefix,
        datagram: &Payload,
        start: Context,
    ) -> Result<Joined, OutOfMemory>
        requires { 20 ≤ length datagram.now }
        ensures says { IfOk result (λ h. Says own datagram.now (record { context = start; samples = self.old }) h self.new) }
        ensures good { IfOk result (λ h. AreGood h.facts) }
    {
        let mut context = start;
        let mut facts = List::new(alloc);
        let mut asks = List::new(alloc);
        let mut at = 20;
        while at < datagram.len() {
            match self.hear_sub(alloc, own, &mut context, datagram, at)? {
                Ok(told) => {
                    at += told.len;
                    keep_fact(&mut facts, told.fact)?;
                    keep_ask(&mut asks, told.ask)?;
                }
                Err(fault) => {
                    let end = End::Stopped {
                        at: at + fault.at,
                        kind: fault.kind,
                    };
                    return Ok(Joined { facts, end, asks });
                }
            }
        }
        Ok(Joined {
            facts,
            end: End::Whole,
            asks,
        })
    }

    /// What a datagram does and tells.
    fn hear_all(
        &mut self,
        alloc: Global,
        own: Prefix,
        datagram: &Payload,
    ) -> Result<Joined, OutOfMemory>
        ensures joins { IfOk result (λ h. Joins own datagram.now self.old h self.new) }
        ensures good { IfOk result (λ h. AreGood h.facts) }
    {
        match begin(datagram.as_slice()) {
            Some(start) => self.hear_from(alloc, own, datagram, start),
            None => Ok(Joined {
                facts: List::new(alloc),
                end: End::BadHeader,
                asks: List::new(alloc),
            }),
        }
    }

    /// What a datagram tells that is shared already: the payloads of its DATA are parts of it, and no octet of
    /// them is copied. It answers as `hear` does.
    pub fn hear_of(
        &mut self,
        alloc: Global,
        datagram: &Payload,
        own: Prefix,
    ) -> Result<Joined, OutOfMemory>
        ensures joins { IfOk result (λ h. Joins own datagram.now self.old h self.new) }
        ensures only { IfOk result (λ h. IsAll own datagram.now self.old h self.new) }
        ensures plain { IfOk result (λ h. IsAsEver own datagram.now self.old h self.new) }
        // What is told may be handed on as what `rtps_message::facts` tells.
        ensures good { IfOk result (λ h. AreGood h.facts) }
        ensures given_up { OnErr result (self.new ≡ []) }
    {
        match self.hear_all(alloc, own, datagram) {
            Ok(joined) => Ok(joined),
            Err(refusal) => {
                self.give_up();
                Err(refusal)
            }
        }
    }

    /// What a datagram tells, with the samples that its fragments complete, how it ends, and the fragments to be
    /// asked for. `own` is the prefix of this participant. After `OutOfMemory`, which is want of memory alone,
    /// every open sample is given up (DDSI-RTPS 8.3.8.3, 8.4.14.1).
    pub fn hear(&mut self, alloc: Global, bytes: &[u8], own: Prefix) -> Result<Joined, OutOfMemory>
        ensures joins { IfOk result (λ h. Joins own bytes.now self.old h self.new) }
        ensures only { IfOk result (λ h. IsAll own bytes.now self.old h self.new) }
        ensures plain { IfOk result (λ h. IsAsEver own bytes.now self.old h self.new) }
        // What is told may be handed on as what `rtps_message::facts` tells.
        ensures good { IfOk result (λ h. AreGood h.facts) }
        ensures given_up { OnErr result (self.new ≡ []) }
    {
        match Bytes::copy_from_slice(alloc, bytes) {
            Ok(copy) => self.hear_of(alloc, &Payload::of(copy), own),
            Err(_) => {
                self.give_up();
                Err(OutOfMemory)
            }
        }
    }
}

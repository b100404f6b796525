//! Whom a submessage is from and for, and when, as it changes along a message.

ghost use Rattle.std.specs.Prelude.{◌≡◌, ◌↔◌, ◌≤◌, ◌-◌, length, Some, IsTrue, IfOk, IfSome, IsSome, slice_range};
ghost use Rattle.std.specs.Str.{bytes_eq};
ghost use Rattle.rtps_submsg.specs.Writing.{payload_text};
ghost use Rattle.rtps_message.specs.Facts.{is_for, start, after, told, data_fact, IsPartBefore};
ghost use Rattle.rtps_message.specs.Messages.{HasHeader};

use dur_base::{Fact, Guid, LONGEST_PAYLOAD, OutOfMemory, Payload, Prefix, Raw, Ticks};
use rtps_submsg::{DataSub, Sub};

/// What stands for the submessages that follow (DDSI-RTPS 8.3.4).
#[derive(Drop)]
pub struct Context {
    /// Whom they are from.
    pub source: Prefix,
    /// Whom they are for; twelve zeros are everybody.
    pub destination: Prefix,
    /// When they were sent.
    pub time: Option<Ticks>,
}

fn has_header(bytes: &[u8]) -> bool
    ensures { IsTrue result ↔ HasHeader bytes.now }
{
    bytes.len() >= 20 && bytes[0..4] == b"RTPS"[..] && bytes[4] == 2
}

/// What stands behind a good header, or None exactly where there is none.
pub fn begin(bytes: &[u8]) -> Option<Context>
    ensures some { IsSome result ↔ HasHeader bytes.now }
    ensures start { IfSome result (λ c. c ≡ start bytes.now) }
{
    if !has_header(bytes) {
        return None;
    }
    let mut source = [0; 12];
    source.copy_from_slice(bytes.split_at(8).1.split_at(12).0);
    Some(Context {
        source: Prefix(source),
        destination: Prefix([0; 12]),
        time: None,
    })
}

fn is_same(a: &[u8; 12], b: &[u8; 12]) -> bool
    ensures { result ≡ bytes_eq a.now b.now }
{
    *a == *b
}

impl Context {
    /// Whether they are for everybody or for this participant.
    pub fn is_for(&self, own: Prefix) -> bool
        ensures { result ≡ is_for own self.now }
    {
        is_same(&self.destination.0, &[0; 12]) || is_same(&self.destination.0, &own.0)
    }

    /// What a DATA tells whose payload ends at that place of the datagram.
    pub fn data_fact(
        &self,
        sub: &DataSub<'_>,
        datagram: &Payload,
        end: usize,
    ) -> Result<Fact, OutOfMemory>
        requires { IsPartBefore datagram.now end sub.now.payload.now }
        ensures { IfOk result (λ f. f ≡ data_fact self.now sub.now) }
    {
        let writer = Guid::of(self.source, sub.writer);
        let reader = sub.reader;
        let number = sub.number;
        if sub.inline.strange.is_some() || sub.payload.len() > LONGEST_PAYLOAD {
            return Ok(Fact::Unreadable {
                writer,
                reader,
                number,
            });
        }
        let payload = datagram.part(end - sub.payload.len(), end)?;
        let raw = Raw {
            hash: sub.inline.hash,
            status: sub.inline.status,
            stamp: self.time,
            lifespan: sub.inline.lifespan,
            set: sub.inline.set,
            original: sub.inline.original,
            form: sub.form,
            payload,
        };
        Ok(Fact::Data {
            writer,
            reader,
            number,
            raw,
        })
    }

    /// What the next submessage tells, which ends at that place of the datagram, and what stands behind it.
    pub fn hear(
        &mut self,
        own: Prefix,
        sub: &Sub<'_>,
        datagram: &Payload,
        end: usize,
    ) -> Result<Option<Fact>, OutOfMemory>
        requires { IsPartBefore datagram.now end (payload_text sub.now) }
        ensures after { self.new ≡ after self.old sub.now }
        ensures told { IfOk result (λ f. f ≡ told own self.old sub.now) }
    {
        let is_ours = self.is_for(own);
        match sub {
            Sub::Pad | Sub::Other(_) => {}
            Sub::InfoTs(time) => self.time = *time,
            Sub::InfoDst(prefix) => self.destination = *prefix,
            Sub::InfoSrc(prefix) => {
                self.source = *prefix;
                self.time = None;
            }
            _ if !is_ours => {}
            Sub::Data(data) => return Ok(Some(self.data_fact(data, datagram, end)?)),
            Sub::Heartbeat {
                reader,
                writer,
                first,
                last,
                is_final,
                ..
            } => {
                return Ok(Some(Fact::Beat {
                    writer: Guid::of(self.source, *writer),
                    reader: *reader,
                    first: *first,
                    last: *last,
                    is_final: *is_final,
                }));
            }
            Sub::Gap {
                reader,
                writer,
                start,
                set,
            } => {
                return Ok(Some(Fact::Gap {
                    writer: Guid::of(self.source, *writer),
                    reader: *reader,
                    start: *start,
                    set: *set,
                }));
            }
            Sub::AckNack {
                reader,
                writer,
                set,
                is_final,
                ..
            } => {
                return Ok(Some(Fact::Nack {
                    reader: Guid::of(self.source, *reader),
                    writer: *writer,
                    set: *set,
                    is_final: *is_final,
                }));
            }
        }
        Ok(None)
    }
}

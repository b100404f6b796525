//! A capture whose octets come in pieces.

ghost use Rattle.std.specs.Prelude.{◌≡◌, ◌++◌, ◌+◌, ◌≤◌, ◌^◌, [], None, Err, IfOk, IfErr, IfSome, IfNone, OnOk, OnErr};
ghost use Rattle.dur_capture.specs.Feeding.{Feeding, Takes, Waits, Stops};

use crate::look::{Seen, look_at};
use crate::{CapFault, Record};
use bytes::BytesMut;
use dur_base::{OutOfMemory, Payload};
use std::alloc::Global;
use std::marker::Model;

/// A capture whose octets come in pieces, however it is cut. A record's octets are not copied when it is handed out.
#[derive(Drop)]
pub struct Feed {
    before: u64,
    taken: u64,
    // What is not handed out.
    left: BytesMut,
    fault: Option<CapFault>,
}

impl Model for Feed {
    ghost use Rattle.std.specs.Prelude.{◌+◌, ◌≤◌, ◌^◌};
    ghost use Rattle.dur_capture.specs.Feeding.{Feeding};

    ghost Value = { Feeding };

    ghost view = { λ f. record { before = f.before; taken = f.taken; left = f.left.items; fault = f.fault } };

    ghost invariant = { λ f. f.before + f.taken ≤ 2 ^ 40 };
}

impl Feed {
    /// A capture that begins after so many octets of input, which are at most 2^40. It takes memory at its first `push`.
    pub fn new(alloc: Global, before: u64) -> Feed
        requires { before ≤ 2 ^ 40 }
        ensures { result ≡ record { before = before; taken = 0; left = []; fault = None } }
    {
        Feed {
            before,
            taken: 0,
            left: BytesMut::new(alloc),
            fault: None,
        }
    }

    /// Takes the next octets. Where there is not enough memory for them, nothing changes.
    pub fn push(&mut self, piece: &[u8]) -> Result<(), OutOfMemory>
        ensures ok { OnOk result (self.new ≡ record self.old { left = self.old.left ++ piece.now }) }
        ensures err { OnErr result (self.new ≡ self.old) }
    {
        self.left.extend_from_slice(piece)?;
        Ok(())
    }

    /// The next record. None comes where what is left is part of a record and more may come, or where nothing is left.
    /// `ended` says that no more octets come.
    ///
    /// After a fault of the capture that fault is the answer from then on. After want of memory nothing has changed.
    pub fn next(&mut self, ended: bool) -> Result<Option<Record>, CapFault>
        ensures taken { IfOk result (λ o. IfSome o (λ r. Takes self.old r self.new)) }
        ensures none { IfOk result (λ o. IfNone o (Waits self.old ended × (self.new ≡ self.old))) }
        ensures sound { OnOk result (self.old.fault ≡ None) }
        ensures fault { IfErr result (λ e. Stops self.old ended e self.new) }
        ensures latched { IfSome self.old.fault (λ e. (result ≡ Err e) × (self.new ≡ self.old)) }
    {
        match self.fault {
            Some(fault) => return Err(fault),
            None => {}
        }
        match look_at(self.before, self.taken, self.left.as_slice(), ended) {
            Seen::Record(head) => {
                let count = 14 + head.count;
                let mut bytes = match self.left.freeze_to(count) {
                    Ok(bytes) => bytes,
                    Err(_) => return Err(CapFault::OutOfMemory),
                };
                bytes.advance(14);
                self.taken += count as u64;
                Ok(Some(Record {
                    moment: head.moment,
                    port: head.port,
                    bytes: Payload::of(bytes),
                }))
            }
            Seen::Waits => Ok(None),
            Seen::Fault(fault) => {
                self.fault = Some(fault);
                Err(fault)
            }
        }
    }
}

//! A plan whose text comes in pieces.

ghost use Rattle.std.specs.Prelude.{◌≡◌, ◌⊎◌, Some, None, true, false, IfOk, IfErr, IfSome, OnOk, Err};
ghost use Rattle.dur_qos.specs.Good.{GoodPlan};
ghost use Rattle.dur_qos.specs.Reading.{start, octet, after, taken, stops, RunsOut, ends_line, whole_line};

use crate::draft::{Draft, take_line};
use crate::{Plan, PlanFault, PlanKind};
use std::alloc::Global;
use std::marker::Model;

/// The most octets of a line.
const LONGEST: usize = 512;

/// A plan whose text comes in pieces, however it is cut.
#[derive(Drop)]
pub struct PlanReader {
    alloc: Global,
    // None before the first line.
    draft: Option<Draft>,
    // The line that has begun.
    part: Vec<u8>,
    line: u32,
    ended: bool,
    fault: Option<PlanFault>,
}

impl Model for PlanReader {
    ghost use Rattle.std.specs.Prelude.{option_map};
    ghost use Rattle.dur_qos.specs.Reading.{Reading};
    ghost use Rattle.dur_qos.specs.Index.{Keeps};

    ghost Value = { Reading };

    ghost view = { λ r. record { plan = option_map (λ d. d.plan) r.draft; part = r.part.items; line = r.line; ended = r.ended; fault = r.fault } };

    ghost invariant = { λ r. Keeps r.draft r.line r.ended r.fault };
}

impl PlanReader {
    /// A plan of which nothing has come. It takes memory with the first octet.
    pub fn new(alloc: Global) -> PlanReader
        ensures { result ≡ start }
    {
        PlanReader {
            alloc,
            draft: None,
            part: Vec::new(alloc),
            line: 1,
            ended: false,
            fault: None,
        }
    }

    // The line that has begun is whole.
    fn end_line(&mut self) -> Result<(), PlanFault>
        requires sound { self.old.fault ≡ None }
        requires open { self.old.ended ≡ false }
        ensures ok { OnOk result (self.new ≡ ends_line self.old (whole_line self.old.plan self.old.part)) }
        ensures sound { OnOk result (self.new.fault ≡ None) }
        ensures err { IfErr result (λ e. (self.new.fault ≡ Some e) × ((self.new ≡ stops self.old PlanKind.OutOfMemory) ⊎ (self.new ≡ ends_line self.old (whole_line self.old.plan self.old.part)))) }
    {
        match take_line(self.alloc, &mut self.draft, self.part.as_slice()) {
            Ok(ended) => {
                self.part.clear();
                self.line += 1;
                self.ended = ended;
                Ok(())
            }
            Err(kind) => {
                let fault = PlanFault {
                    line: self.line,
                    kind,
                };
                self.fault = Some(fault);
                Err(fault)
            }
        }
    }

    // The next octet comes.
    #[tactic(auto, unfolding(crate::specs::Reading::octet))]
    fn take_octet(&mut self, b: u8) -> Result<(), PlanFault>
        requires sound { self.old.fault ≡ None }
        requires open { self.old.ended ≡ false }
        ensures ok { OnOk result (self.new ≡ octet self.old b) }
        ensures sound { OnOk result (self.new.fault ≡ None) }
        ensures err { IfErr result (λ e. (self.new.fault ≡ Some e) × ((self.new ≡ stops self.old PlanKind.OutOfMemory) ⊎ (self.new ≡ octet self.old b))) }
    {
        if b == b'\n' {
            return self.end_line();
        }
        if self.part.len() >= LONGEST {
            let fault = PlanFault {
                line: self.line,
                kind: PlanKind::Word,
            };
            self.fault = Some(fault);
            return Err(fault);
        }
        match self.part.push(b) {
            Ok(()) => Ok(()),
            Err(_) => {
                let fault = PlanFault {
                    line: self.line,
                    kind: PlanKind::OutOfMemory,
                };
                self.fault = Some(fault);
                Err(fault)
            }
        }
    }

    /// The plan, where its line `end` has come; else the fault that was told, or `Word` at the line in which the input
    /// ends.
    pub fn finish(self) -> Result<Plan, PlanFault>
        ensures ok { IfOk result (λ p. (self.fault ≡ None) × (self.ended ≡ true) × (self.plan ≡ Some p)) }
        ensures good { IfOk result (λ p. GoodPlan p) }
        ensures err { IfErr result (λ e. (self.fault ≡ Some e) ⊎ ((self.fault ≡ None) × (self.ended ≡ false) × (e ≡ record { line = self.line; kind = PlanKind.Word }))) }
    {
        let PlanReader {
            draft,
            line,
            ended,
            fault,
            ..
        } = self;
        if let Some(fault) = fault {
            return Err(fault);
        }
        let unfinished = PlanFault {
            line,
            kind: PlanKind::Word,
        };
        if !ended {
            return Err(unfinished);
        }
        match draft {
            Some(draft) => Ok(draft.plan),
            None => Err(unfinished),
        }
    }

    fn is_ended(&self) -> bool
        ensures { result ≡ self.now.ended }
    {
        self.ended
    }

    fn fault(&self) -> Option<PlanFault>
        ensures { result ≡ self.now.fault }
    {
        self.fault
    }

    // Octets come to a reader without a fault.
    fn take_piece(&mut self, piece: &[u8]) -> Result<usize, PlanFault>
        requires { self.old.fault ≡ None }
        ensures ok { OnOk result (self.new ≡ after self.old piece.now) }
        ensures taken { IfOk result (λ n. n ≡ taken self.old piece.now) }
        ensures sound { OnOk result (self.new.fault ≡ None) }
        ensures err { IfErr result (λ e. (self.new.fault ≡ Some e) × (RunsOut self.old piece.now self.new ⊎ (self.new ≡ after self.old piece.now))) }
    {
        let mut count = 0;
        let mut rest = piece;
        while let [b, later @ ..] = rest {
            if self.is_ended() {
                return Ok(count);
            }
            match self.take_octet(*b) {
                Ok(()) => {}
                Err(fault) => return Err(fault),
            }
            count += 1;
            rest = later;
        }
        Ok(count)
    }

    /// Takes octets up to the end of the line `end`, and tells how many it took: none after that line.
    ///
    /// The fault is that of the first line with a fault. After any fault, want of memory too, that fault is the answer
    /// from then on.
    pub fn push(&mut self, piece: &[u8]) -> Result<usize, PlanFault>
        ensures ok { OnOk result (self.new ≡ after self.old piece.now) }
        ensures taken { IfOk result (λ n. n ≡ taken self.old piece.now) }
        ensures sound { OnOk result (self.new.fault ≡ None) }
        ensures err { IfErr result (λ e. (self.new.fault ≡ Some e) × (RunsOut self.old piece.now self.new ⊎ (self.new ≡ after self.old piece.now))) }
        ensures latched { IfSome self.old.fault (λ e. (result ≡ Err e) × (self.new ≡ self.old)) }
    {
        match self.fault() {
            Some(fault) => Err(fault),
            None => self.take_piece(piece),
        }
    }
}

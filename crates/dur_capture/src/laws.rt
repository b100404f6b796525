//! What the words of the contracts come to.

ghost use Rattle.std.specs.Prelude.{◌≡◌, ◌≤◌, ◌^◌, Bool};
ghost use Rattle.dur_capture.specs.declared.record.Record.{Record};
ghost use Rattle.dur_capture.specs.declared.fault.CapFault.{CapFault};
ghost use Rattle.dur_capture.specs.Feeding.{Feeding, Takes, Waits, Breaks};
ghost use Rattle.dur_capture.specs.OneReading.{HasOneReading};

use crate::look::{Seen, look_at};

/// What a feed has left settles what `Feed::next` answers: it waits, or one record stands at its front, or it breaks
/// off in one way. So None, a record and a fault each come exactly where their clause says, unless memory runs out.
pub fn one_answer()
    ensures waits_alone { (f : Feeding) (ended : Bool) → Waits f ended → ((r : Record) (g : Feeding) → Takes f r g → ⊥) × ((e : CapFault) → Breaks f ended e → ⊥) }
    ensures record_alone { (f : Feeding) (ended : Bool) (r : Record) (g : Feeding) → Takes f r g → (e : CapFault) → Breaks f ended e → ⊥ }
    ensures one_record { (f : Feeding) (r s : Record) (g h : Feeding) → Takes f r g → Takes f s h → (r ≡ s) × (g ≡ h) }
    ensures one_break { (f : Feeding) (ended : Bool) (d e : CapFault) → Breaks f ended d → Breaks f ended e → d ≡ e }
{}

/// Any octets behind so many of input are a capture or break off at one place, and never both: the records, or the
/// place and the kind of the first break, are determined. It takes no memory.
pub fn one_reading(before: u64, octets: &[u8])
    requires { before ≤ 2 ^ 40 }
    ensures { HasOneReading before octets.now }
{
    let mut taken = 0;
    let mut left = octets;
    while let Seen::Record(head) = look_at(before, taken, left, true) {
        taken += 14 + head.count as u64;
        left = left.split_at(14 + head.count).1;
    }
}

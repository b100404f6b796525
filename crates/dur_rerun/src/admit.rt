//! What a record of a capture brings to a hub.

ghost use Rattle.std.specs.Prelude.{IfOk};
ghost use Rattle.dur_rerun.specs.Admission.{Admitted};

use crate::rerun::nacks::{Nack, nacks_of};
use dur_base::{OutOfMemory, Prefix};
use dur_capture::Record;
use dur_hub::{Hub, Received};
use rtps_message::facts_of;
use std::alloc::Global;

/// What a record brought.
#[derive(Drop)]
pub struct Brought {
    /// What the hub answered.
    pub reply: Received,
    /// The ACKNACKs that the record tells, in their order.
    pub nacks: Vec<Nack>,
}

/// Hands the facts of a record's datagram to the hub, in one `receive` at the record's moment. Of a datagram that is not
/// whole they are those before its fault (DDSI-RTPS 8.3.4.1). For want of memory the hub may have taken a first part of
/// them.
pub fn admit(
    alloc: Global,
    hub: &mut Hub,
    own: Prefix,
    datagram: &Record,
) -> Result<Brought, OutOfMemory>
    ensures { IfOk result (λ b. Admitted own datagram.now b.reply b.nacks.items hub.old hub.new) }
{
    let heard = facts_of(alloc, &datagram.bytes, own)?;
    let nacks = nacks_of(alloc, &heard.facts)?;
    let reply = hub.receive(alloc, datagram.moment, heard.facts);
    if reply.stopped {
        return Err(OutOfMemory);
    }
    Ok(Brought { reply, nacks })
}

//! What holds of all datagrams, and of all samples.

ghost use Rattle.std.specs.Prelude.{◌≤◌, length};
ghost use Rattle.rtps_message.specs.Messages.{HasEnd, HasOneHearing};
ghost use Rattle.rtps_message.specs.Sent.{ChangesReadAgain, MarkersReadAgain};

use crate::context::begin;
use crate::heard::End;
use rtps_submsg::read_sub;

/// How the submessages behind a header end.
fn end_of(bytes: &[u8]) -> End
    requires { 20 ≤ length bytes.now }
    ensures { HasEnd bytes.now result }
{
    let mut at = 20;
    while at < bytes.len() {
        match &read_sub(bytes.split_at(at).1) {
            Ok((_, len)) => at += *len,
            Err(fault) => {
                return End::Stopped {
                    at: at + fault.at,
                    kind: fault.kind,
                };
            }
        }
    }
    End::Whole
}

/// Each datagram is heard in exactly one way by each participant, whatever its octets: what it tells and how it
/// ends are determined (DDSI-RTPS 8.3.4). It takes no memory.
pub fn one_hearing(bytes: &[u8])
    ensures { HasOneHearing bytes.now }
{
    if begin(bytes).is_some() {
        let _ = end_of(bytes);
    }
}

/// What a written change is heard as is read, under its topic's shape, as the change that was sent: its act is
/// a dispose for a dispose with an unregister, its mark is that of its set or none, and all else is as it was.
pub fn changes_read_again()
    ensures { ChangesReadAgain }
{}

/// What a marker is heard as is read, under every shape, as a marker with a zero key.
pub fn markers_read_again()
    ensures { MarkersReadAgain }
{}

//! Writing records.

ghost use Rattle.std.specs.Prelude.{◌≡◌, ◌+◌, ◌≤◌, ◌++◌, length, drop};
ghost use Rattle.std.specs.Int.{w16, w32, w64, to_le_bytes};
ghost use Rattle.dur_capture.specs.Capture.{record_text};

use dur_base::Ticks;

fn write_head(moment: u64, port: u16, count: u32, head: &mut [u8])
    requires { length head.old ≡ 14 }
    ensures { head.new ≡ to_le_bytes w64 moment ++ to_le_bytes w16 port ++ to_le_bytes w32 count }
{
    let (first, rest) = head.split_at_mut(8);
    let (second, third) = rest.split_at_mut(2);
    first.copy_from_slice(&moment.to_le_bytes());
    second.copy_from_slice(&port.to_le_bytes());
    third.copy_from_slice(&count.to_le_bytes());
}

/// Writes a record at the front of `out`, and answers how many octets it has: those of the datagram, of which there
/// are at most 65,507, and 14 more. It takes no memory.
pub fn write_record(moment: Ticks, port: u16, bytes: &[u8], out: &mut [u8]) -> usize
    requires short { length bytes.now ≤ 65507 }
    requires room { length bytes.now + 14 ≤ length out.old }
    ensures count { result ≡ 14 + length bytes.now }
    ensures text { out.new ≡ record_text (record { moment = moment; port = port; bytes = bytes.now }) ++ drop result out.old }
{
    let count = 14 + bytes.len();
    let (text, _) = out.split_at_mut(count);
    let (head, body) = text.split_at_mut(14);
    write_head(moment.0, port, bytes.len() as u32, head);
    body.copy_from_slice(bytes);
    count
}

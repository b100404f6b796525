//! The prefix of the service in a run.

ghost use Rattle.std.specs.Prelude.{◌≡◌, ◌++◌};
ghost use Rattle.std.specs.Int.{w32, to_be_bytes};

use dur_base::Prefix;

/// The prefix of the service: the plan's eight octets and the epoch.
pub fn own_prefix(prefix: [u8; 8], epoch: u32) -> Prefix
    ensures { result ≡ prefix ++ to_be_bytes w32 epoch }
{
    let mut own = [0; 12];
    let (front, back) = own.split_at_mut(8);
    front.copy_from_slice(&prefix);
    back.copy_from_slice(&epoch.to_be_bytes());
    Prefix(own)
}

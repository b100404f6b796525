//! What the two files of a journal are, each by itself.

ghost use Rattle.std.specs.Prelude.{◌≡◌, ◌⊎◌, IfOk, IfErr, option_copied};
ghost use Rattle.dur_outside.specs.Causes.{Rose};
ghost use Rattle.dur_rerun.specs.Check.Looks.{AreLooks, break_of, first_broken, live_file, live_view, look_status, open_generation, open_view};

use crate::Status;
use dur_journal::{Look, LookFault, look};
use dur_outside::{Disk, FileId};
use dur_view::View;
use std::alloc::Global;

/// What each of the two files is.
#[derive(Drop)]
pub struct Looks {
    pub zero: Look,
    pub one: Look,
}

impl From<LookFault> for Status {
    ghost from_gives = { λ fault s. s ≡ look_status fault };

    fn from(fault: LookFault) -> Status {
        match fault {
            LookFault::Disk => Status::DiskFault,
            LookFault::OutOfMemory => Status::OutOfMemory,
        }
    }
}

/// Looks at both files, one after the other.
pub fn look_at_both<D: Disk>(alloc: Global, disk: &mut D) -> Result<Looks, Status>
    ensures ok { D.tells → IfOk result (AreLooks (D.world disk.old).now) }
    ensures err { IfErr result (λ s. (s ≡ Status.DiskFault) ⊎ (s ≡ Status.OutOfMemory)) }
    ensures cause { IfErr result (λ s. s ≡ Status.DiskFault → Rose (D.disk_faults disk.old) (D.disk_faults disk.new)) }
    ensures same { D.tells → (D.world disk.new).now ≡ (D.world disk.old).now }
    ensures keeps { D.sink_faults disk.new ≡ D.sink_faults disk.old }
{
    let zero = look(alloc, disk, FileId::Zero)?;
    let one = look(alloc, disk, FileId::One)?;
    Ok(Looks { zero, one })
}

/// The place at which a file is broken.
fn break_of(look: &Look) -> Option<u64>
    ensures { result ≡ break_of look.now }
{
    match look {
        Look::Broken(at) => Some(*at),
        _ => None,
    }
}

/// The first broken file, and its place.
pub fn first_broken(looks: &Looks) -> Option<(FileId, u64)>
    ensures { result ≡ first_broken looks.now }
{
    match (break_of(&looks.zero), break_of(&looks.one)) {
        (Some(at), _) => Some((FileId::Zero, at)),
        (None, Some(at)) => Some((FileId::One, at)),
        (None, None) => None,
    }
}

/// The generation of an open file.
fn open_generation(look: &Look) -> Option<u32>
    ensures { result ≡ open_generation look.now }
{
    match look {
        Look::Open { generation, .. } => Some(*generation),
        _ => None,
    }
}

/// The open file with the greatest generation, and none where two have equal ones.
fn live_file(zero: Option<u32>, one: Option<u32>) -> Option<FileId>
    ensures { result ≡ live_file zero one }
{
    match (zero, one) {
        (None, None) => None,
        (None, Some(_)) => Some(FileId::One),
        (Some(_), None) => Some(FileId::Zero),
        (Some(zero), Some(one)) => if zero == one {
            None
        } else if zero < one {
            Some(FileId::One)
        } else {
            Some(FileId::Zero)
        },
    }
}

/// The view at the end of an open file.
fn open_view(look: &Look) -> Option<&View>
    ensures { option_copied result ≡ open_view look.now }
{
    match look {
        Look::Open { view, .. } => Some(view),
        _ => None,
    }
}

/// The view whose changes are printed.
pub fn live_view(looks: &Looks) -> Option<&View>
    ensures { option_copied result ≡ live_view looks.now }
{
    if first_broken(looks).is_some() {
        return None;
    }
    match live_file(open_generation(&looks.zero), open_generation(&looks.one)) {
        None => None,
        Some(FileId::Zero) => open_view(&looks.zero),
        Some(FileId::One) => open_view(&looks.one),
    }
}

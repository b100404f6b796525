//! Where a writer stands, by its GUID.

ghost use Rattle.std.specs.Prelude.{◌≡◌, ◌≤◌, Some, length, IfOk, OnOk, if◌then◌else◌};
ghost use Rattle.dur_view.specs.Identities.{Guid as Octets};
ghost use Rattle.dur_view.specs.Words.{is_same};
ghost use Rattle.dur_store.specs.Places.{guids, found, IsIndex};

use dur_base::{Guid, OutOfMemory};
use dur_view::KeptWriter;
use std::alloc::Global;
use std::collections::HashMap;

// Notes the place of a writer.
fn note_place(
    index: &mut HashMap<[u8; 16], u32>,
    writer: Guid,
    place: u32,
) -> Result<(), OutOfMemory>
    ensures { OnOk result ((g : Octets) → found index.new g ≡ (if is_same g writer then Some place else found index.old g)) }
{
    match index.insert(writer.0, place) {
        Ok(_) => Ok(()),
        Err(_) => Err(OutOfMemory),
    }
}

/// The index of the writers by their GUIDs.
pub fn index_of(alloc: Global, lines: &[KeptWriter]) -> Result<HashMap<[u8; 16], u32>, OutOfMemory>
    requires { length lines.now ≤ 67108864 }
    ensures { IfOk result (λ index. IsIndex (found index) (guids lines.now)) }
{
    let mut index = HashMap::new(alloc);
    for (place, line) in lines.iter().enumerate() {
        note_place(&mut index, line.guid, place as u32)?;
    }
    Ok(index)
}

/// The place that the index has for a writer.
pub fn place_of(index: &HashMap<[u8; 16], u32>, writer: Guid) -> Option<u32>
    ensures { result ≡ found index.now writer }
{
    index.get(&writer.0).copied()
}

//! The maps by which names and GUIDs are looked up.

ghost use Rattle.std.specs.Prelude.{◌≡◌, ℕ, List, Some, OnOk, if◌then◌else◌, true};
ghost use Rattle.std.specs.Str.{bytes_eq};
ghost use Rattle.dur_qos.specs.Index.{found, holds};

use dur_base::OutOfMemory;
use std::alloc::Global;
use std::collections::{HashMap, HashSet};

/// The place of a name.
pub fn place(names: &HashMap<Vec<u8>, u32>, name: &[u8]) -> Option<u32>
    ensures { result ≡ found names.now name.now }
{
    names.get(name).copied()
}

/// Notes the place of a name.
pub fn note_name(
    alloc: Global,
    names: &mut HashMap<Vec<u8>, u32>,
    name: &[u8],
    place: u32,
) -> Result<(), OutOfMemory>
    ensures { OnOk result ((q : List ℕ) → found names.new q ≡ (if bytes_eq q name.now then Some place else found names.old q)) }
{
    let key = match Vec::from_slice(alloc, name) {
        Ok(key) => key,
        Err(_) => return Err(OutOfMemory),
    };
    match names.insert(key, place) {
        Ok(_) => Ok(()),
        Err(_) => Err(OutOfMemory),
    }
}

/// Whether a GUID is noted.
pub fn is_noted(guids: &HashSet<[u8; 16]>, guid: [u8; 16]) -> bool
    ensures { result ≡ holds guids.now guid }
{
    guids.contains(&guid)
}

/// Notes a GUID.
pub fn note_guid(guids: &mut HashSet<[u8; 16]>, guid: [u8; 16]) -> Result<(), OutOfMemory>
    ensures { OnOk result ((q : List ℕ) → holds guids.new q ≡ (if bytes_eq q guid then true else holds guids.old q)) }
{
    match guids.insert(guid) {
        Ok(_) => Ok(()),
        Err(_) => Err(OutOfMemory),
    }
}

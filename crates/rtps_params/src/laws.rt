//! What holds of all lists.

ghost use Rattle.std.specs.Prelude.{ℕ, Bool, List};
ghost use Rattle.rtps_params.specs.OneReading.{AreOctets, HasOneReading};

/// Any octets, in either byte order, either spell a list at their front or break at a first place, and
/// never both: the list, its length, the place and the kind of the fault are determined.
pub fn one_reading()
    ensures { (bytes : List ℕ) (little : Bool) → AreOctets bytes → HasOneReading bytes little }
{}

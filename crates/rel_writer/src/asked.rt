//! What an ACKNACK asks a session for.

ghost use Rattle.std.specs.Prelude.{◌≡◌, ℕ, ◌+◌, ◌<◌, ◌≤◌, ◌==◌, ◌&&◌, ◌||◌, nat_le};
ghost use Rattle.dur_base.specs.NumberSets.{names};

use crate::choices::both;
use dur_base::Bits;

/// What an ACKNACK asks a session for.
#[derive(Clone, Copy, Debug, PartialEq, Eq, Drop)]
pub struct Asked {
    /// The DATA of these numbers.
    pub numbers: Bits,
    /// A HEARTBEAT behind them.
    pub beat: bool,
}

/// The numbers of a set up to a last one. It looks at the set's bits alone, of which there are 256
/// at most.
pub(crate) fn up_to(set: &Bits, last: u64) -> Bits
    ensures base { result.base ≡ set.now.base }
    ensures names { (k : ℕ) → names result k ≡ (names set.now k && nat_le k last) }
{
    let base = set.base();
    let mut some = Bits::empty(base);
    for i in 0..set.count() {
        let asked = both(set.has(i), base.get() + i as u64 <= last);
        push_if(&mut some, i, asked);
    }
    some
}

/// Puts the number `base + i` into a set, above all others, if it is asked for.
fn push_if(set: &mut Bits, i: u32, asked: bool)
    requires above { set.old.count ≤ i }
    requires within { i < 256 }
    ensures base { set.new.base ≡ set.old.base }
    ensures count { set.new.count ≤ i + 1 }
    ensures names { (k : ℕ) → names set.new k
        ≡ (names set.old k || (asked && (k == set.old.base + i))) }
{
    if asked {
        set.push(i);
    }
}

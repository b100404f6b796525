//! Which fragments of an open sample came, a bit each.

ghost use Rattle.std.specs.Prelude.{◌≡◌, ℕ, ◌*◌, ◌<◌, ◌≤◌, ◌++◌, Bool, [], false, true, drop, get_or, length, replicate, set, IfOk, IfSome, IfNone};
ghost use Rattle.rtps_frag.specs.Asking.{first_from};
ghost use Rattle.rtps_frag.specs.Marks.{mark_at, IsFirstUnset};

use dur_base::{LONGEST_PAYLOAD, OutOfMemory};
use std::alloc::Global;
use std::marker::Model;

/// How many words the longest sample takes, whose fragments have an octet each.
const WORDS: usize = LONGEST_PAYLOAD / 64;

/// Whether each fragment of a sample came. Its memory outlives the sample.
#[derive(Drop)]
pub struct Arrived {
    /// Bit `1 << (k % 64)` of word `k / 64` is for the fragment at place k.
    words: Vec<u64>,
    /// How many fragments the sample has.
    count: usize,
}

impl Model for Arrived {
    ghost use Rattle.std.specs.Prelude.{Bool, List};
    ghost use Rattle.rtps_frag.specs.Marks.{marks_in, HasRoom};

    ghost Value = { List Bool };

    ghost view = { λ a. marks_in a.words.items a.count };

    ghost invariant = { λ a. HasRoom a.words.items a.count };
}

/// The memory of all words.
fn zeros(alloc: Global) -> Result<Vec<u64>, OutOfMemory>
    ensures { IfOk result (λ v. length v.items ≡ 1021) }
{
    let mut words = Vec::with_capacity(alloc, WORDS)?;
    words.resize(WORDS, 0)?;
    Ok(words)
}

/// Makes the first words zero.
fn clear_first(words: &mut [u64], n: usize)
    requires { n ≤ length words.old }
    ensures after { words.new ≡ replicate n 0 ++ drop n words.old }
    ensures len { length words.new ≡ length words.old }
{
    let (front, _) = words.split_at_mut(n);
    front.fill(0);
}

/// Makes the first words zero.
fn clear_words(words: &mut Vec<u64>, n: usize)
    requires { n ≤ length words.old.items }
    ensures after { words.new.items ≡ replicate n 0 ++ drop n words.old.items }
    ensures len { length words.new.items ≡ length words.old.items }
{
    clear_first(words.as_mut_slice(), n);
}

/// The place of the first bit that is not set.
fn first_unset(words: &[u64]) -> Option<usize>
    requires { length words.now ≤ 1021 }
    ensures some { IfSome result (λ at. IsFirstUnset words.now at) }
    ensures none { IfNone result ((k : ℕ) → k < 64 * length words.now → mark_at words.now k ≡ true) }
{
    let mut q = 0;
    while q < words.len() {
        let word = words[q];
        if word != u64::MAX {
            return Some(64 * q + word.trailing_ones() as usize);
        }
        q += 1;
    }
    None
}

impl Arrived {
    /// Room for each fragment of the longest sample. The sample has none yet.
    pub fn new(alloc: Global) -> Result<Arrived, OutOfMemory>
        ensures { IfOk result (λ a. a ≡ []) }
    {
        let words = zeros(alloc)?;
        Ok(Arrived { words, count: 0 })
    }

    /// Begins a sample of that many fragments, of which none came. It takes no memory.
    pub fn clear(&mut self, count: usize)
        requires { count ≤ 65344 }
        ensures { self.new ≡ replicate count false }
    {
        clear_words(&mut self.words, count.div_ceil(64));
        self.count = count;
    }

    /// How many fragments the sample has.
    pub fn len(&self) -> usize
        ensures { result ≡ length self.now }
    {
        self.count
    }

    /// Whether the fragment at that place came.
    pub fn is_set(&self, at: usize) -> bool
        requires { at < length self.now }
        ensures { (d : Bool) → result ≡ get_or self.now at d }
    {
        (self.words[at / 64] >> (at % 64)) & 1 == 1
    }

    /// The place of the first fragment that did not come. It looks at 64 of those that came at once.
    pub fn first_missing(&self) -> Option<usize>
        ensures value { result ≡ first_from 0 self.now }
        ensures within { IfSome result (λ at. at < length self.now) }
    {
        match first_unset(self.words.as_slice()) {
            Some(at) if at < self.count => Some(at),
            _ => None,
        }
    }

    /// Notes that the fragment at that place came. It takes no memory.
    pub fn set(&mut self, at: usize)
        requires { at < length self.old }
        ensures { self.new ≡ set self.old at true }
    {
        self.words[at / 64] |= 1 << (at % 64);
    }
}

//! The values of options: numbers, octets and texts.

ghost use Rattle.std.specs.Prelude.{◌≡◌, ◌↔◌, ◌≢◌, ◌≤◌, ◌<◌, ◌^◌, ℕ, List, [], Err, length, option_map, IsTrue, IfOk, IfErr, IfSome, IfNone};
ghost use Rattle.std.specs.Fmt.{decimal};
ghost use Rattle.hex.specs.Hex.{IsBytes, encode_lower};
ghost use Rattle.durability.specs.Options.{IsNumber, IsCount, IsHex, IsText, IsPlain};

use crate::argument::Argument;
use crate::words::WordsFault;
use itoa::Buffer;
use std::alloc::Global;

/// The number that a text spells, decimal and without leading zeros; or None exactly where it spells
/// none below 2^64.
fn number(text: &str) -> Option<u64>
    ensures some { IfSome result (λ n. (text.now ≡ decimal n) × (n < 2 ^ 64)) }
    ensures none { IfNone result ((n : ℕ) → n < 2 ^ 64 → text.now ≡ decimal n → ⊥) }
{
    match text.parse::<u64>() {
        Ok(number) => {
            let mut digits = Buffer::new();
            if digits.format(number) == text {
                Some(number)
            } else {
                None
            }
        }
        Err(_) => None,
    }
}

/// The number of an option, or 0 where it is left out.
pub fn number_of(text: Option<&str>, most: u64) -> Result<u64, WordsFault>
    ensures ok { IfOk result (λ n. IsNumber (option_map (λ t. t.now) text.entry) n × (n ≤ most)) }
    ensures usage { IfErr result (λ e. (n : ℕ)
        → IsNumber (option_map (λ t. t.now) text.entry) n → n ≤ most → ⊥) }
{
    match text {
        None => Ok(0),
        Some(text) => match number(text) {
            Some(number) => if number <= most {
                Ok(number)
            } else {
                Err(WordsFault::Usage)
            },
            None => Err(WordsFault::Usage),
        },
    }
}

/// The number of an option that must be given, from 1.
pub fn count_of(text: Option<&str>, most: u64) -> Result<u64, WordsFault>
    ensures ok { IfOk result (λ n. IsCount (option_map (λ t. t.now) text.entry) n × (n ≤ most)) }
    ensures usage { IfErr result (λ e. (n : ℕ)
        → IsCount (option_map (λ t. t.now) text.entry) n → n ≤ most → ⊥) }
{
    match number_of(text, most) {
        Ok(0) => Err(WordsFault::Usage),
        Ok(count) => Ok(count),
        Err(fault) => Err(fault),
    }
}

/// Whether a text is these octets, each as two hex digits in lower case.
fn is_hex(octets: &[u8], text: &str) -> bool
    requires { length octets.now ≤ 16 }
    ensures { IsTrue result ↔ (text.now ≡ encode_lower octets.now) }
{
    let mut room = [0; 32];
    let digits = room.split_at_mut(2 * octets.len()).0;
    let _ = hex::encode_to_slice(octets, digits);
    text.as_bytes() == digits
}

/// The octets that a text is, each as two hex digits in lower case; or None exactly where it is
/// none.
fn octets<const N: usize>(text: &str) -> Option<[u8; N]>
    requires { N ≤ 16 }
    ensures some { IfSome result (λ octets. text.now ≡ encode_lower octets) }
    ensures none { IfNone result ((octets : List ℕ)
        → length octets ≡ N → IsBytes octets → text.now ≡ encode_lower octets → ⊥) }
{
    let mut octets = [0; N];
    match hex::decode_to_slice(text, &mut octets) {
        Ok(()) => if is_hex(&octets, text) {
            Some(octets)
        } else {
            None
        },
        Err(_) => None,
    }
}

/// The octets of an option that must be given.
pub fn octets_of<const N: usize>(text: Option<&str>) -> Result<[u8; N], WordsFault>
    requires { N ≤ 16 }
    ensures ok { IfOk result (λ octets. IsHex N (option_map (λ t. t.now) text.entry) octets) }
    ensures usage { IfErr result (λ e. (octets : List ℕ)
        → IsHex N (option_map (λ t. t.now) text.entry) octets → ⊥) }
{
    match text {
        None => Err(WordsFault::Usage),
        Some(text) => match octets(text) {
            Some(octets) => Ok(octets),
            None => Err(WordsFault::Usage),
        },
    }
}

/// Whether a text is not empty and begins with no dash.
fn is_argument(text: &str) -> bool
    ensures { IsTrue result ↔ ((text.now ≢ []) × IsPlain text.now) }
{
    match text.as_bytes() {
        [] => false,
        [first, ..] => *first != b'-',
    }
}

/// The text of an option that must be given.
pub fn argument_of(alloc: Global, text: Option<&str>) -> Result<Argument, WordsFault>
    ensures ok { IfOk result (λ a. IsText (option_map (λ t. t.now) text.entry) a) }
    ensures usage { result ≡ Err WordsFault.Usage
        → (a : List ℕ) → IsText (option_map (λ t. t.now) text.entry) a → ⊥ }
{
    match text {
        Some(text) => if is_argument(text) {
            Ok(Argument::new(alloc, text)?)
        } else {
            Err(WordsFault::Usage)
        },
        None => Err(WordsFault::Usage),
    }
}

//! The names of topics.

ghost use Rattle.std.specs.Prelude.{◌≡◌, IsTrue};
ghost use Rattle.std.specs.List.{list_all};
ghost use Rattle.dur_base.specs.Names.{is_name, is_name_octet};

use std::marker::Model;

/// A topic's name: 1 to 64 of the octets A-Z, a-z, 0-9, `_` and `/`. It takes no memory.
#[derive(Debug, Drop)]
pub struct Name {
    octets: [u8; 64],
    len: usize,
}

impl Model for Name {
    ghost use Rattle.std.specs.Prelude.{ℕ, ◌≤◌, List, take, IsTrue};
    ghost use Rattle.dur_base.specs.Names.{is_name};

    ghost Value = { List ℕ };

    ghost view = { λ n. take n.len n.octets };

    ghost invariant = { λ n. (n.len ≤ 64) × IsTrue (is_name (take n.len n.octets)) };
}

impl Name {
    /// The name of these octets, under the condition that they are a name.
    pub fn of(bytes: &[u8]) -> Name
        requires { IsTrue (is_name bytes.now) }
        ensures { result ≡ bytes.now }
    {
        let mut octets = [0; 64];
        let (front, _) = octets.split_at_mut(bytes.len());
        front.copy_from_slice(bytes);
        Name {
            octets,
            len: bytes.len(),
        }
    }

    /// Its octets, which are ASCII.
    pub fn as_slice(&self) -> &[u8]
        ensures value { result.now ≡ self.now }
        ensures name { IsTrue (is_name self.now) }
    {
        self.octets.as_slice().split_at(self.len).0
    }

    /// An equal name.
    pub fn copy(&self) -> Name
        ensures { result ≡ self.now }
    {
        Name {
            octets: self.octets,
            len: self.len,
        }
    }
}

fn in_name(octet: u8) -> bool
    ensures { result ≡ is_name_octet octet }
{
    octet.is_ascii_alphanumeric() || octet == b'_' || octet == b'/'
}

fn all_in_name(bytes: &[u8]) -> bool
    ensures { result ≡ list_all is_name_octet bytes.now }
{
    bytes.iter().all(|octet| in_name(*octet))
}

/// Whether the octets are a name: what `Name::of` asks of them.
pub fn is_a_name(bytes: &[u8]) -> bool
    ensures { result ≡ is_name bytes.now }
{
    if bytes.is_empty() || bytes.len() > 64 {
        return false;
    }
    all_in_name(bytes)
}

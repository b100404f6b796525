//! Octets that one owner holds, and payloads that copies share.

ghost use Rattle.std.specs.Prelude.{◌≡◌, ◌≤◌, [], ◌++◌, length, slice_range, OnOk, OnErr, IfOk};

use crate::OutOfMemory;
use bytes::Bytes;
use std::alloc::Global;
use std::marker::Model;

/// Octets, which contracts see as a list of numbers below 256.
#[derive(Debug, Drop)]
pub struct Octets {
    bytes: Vec<u8>,
}

impl Model for Octets {
    ghost use Rattle.std.specs.Prelude.{ℕ, List};

    ghost Value = { List ℕ };

    ghost view = { λ o. o.bytes.items };
}

impl Octets {
    /// These octets. It takes no memory.
    pub fn of(bytes: Vec<u8>) -> Octets
        ensures { result ≡ bytes.items }
    {
        Octets { bytes }
    }

    /// No octets, without memory until the first `append`.
    pub fn new(alloc: Global) -> Octets
        ensures { result ≡ [] }
    {
        Octets {
            bytes: Vec::new(alloc),
        }
    }

    /// How many they are.
    pub fn len(&self) -> usize
        ensures { result ≡ length self.now }
    {
        self.bytes.len()
    }

    /// The octets.
    pub fn as_slice(&self) -> &[u8]
        ensures { result.now ≡ self.now }
    {
        self.bytes.as_slice()
    }

    /// The octets, handed back. It takes no memory.
    pub fn into_vec(self) -> Vec<u8>
        ensures { result.items ≡ self }
    {
        let Octets { bytes } = self;
        bytes
    }

    /// Adds octets at the end. On want of memory they are as they were.
    pub fn append(&mut self, more: &[u8]) -> Result<(), OutOfMemory>
        ensures ok { OnOk result (self.new ≡ self.old ++ more.now) }
        ensures err { OnErr result (self.new ≡ self.old) }
    {
        self.bytes.extend_from_slice(more)?;
        Ok(())
    }
}

// So many octets a payload may hold in memory beside twice its own.
const SPARE: usize = 512;

/// The payload of a sample, whose octets the copies of a sample share.
#[derive(Drop)]
pub struct Payload {
    bytes: Bytes<Global>,
    // How many octets it holds in memory: those of the payload that it is a part of.
    whole: usize,
}

impl Model for Payload {
    ghost use Rattle.std.specs.Prelude.{ℕ, List};

    ghost Value = { List ℕ };

    ghost view = { λ p. p.bytes };
}

impl Payload {
    /// The payload of these octets. It takes no memory.
    pub fn of(bytes: Bytes<Global>) -> Payload
        ensures { result ≡ bytes }
    {
        let whole = bytes.len();
        Payload { bytes, whole }
    }

    /// How many octets it has.
    pub fn len(&self) -> usize
        ensures { result ≡ length self.now }
    {
        self.bytes.len()
    }

    /// Its octets.
    pub fn as_slice(&self) -> &[u8]
        ensures { result.now ≡ self.now }
    {
        self.bytes.as_slice()
    }

    /// An equal payload over the same octets, which are not copied.
    pub fn share(&self) -> Result<Payload, OutOfMemory>
        ensures { IfOk result (λ p. p ≡ self.now) }
    {
        let bytes = self.bytes.clone()?;
        Ok(Payload {
            bytes,
            whole: self.whole,
        })
    }

    /// An equal payload that may be kept for long: over the same octets, and a copy of its own where it holds more than
    /// twice as many in memory and some. A small sample of a large datagram then does not keep the datagram.
    pub fn to_keep(&self, alloc: Global) -> Result<Payload, OutOfMemory>
        ensures { IfOk result (λ p. p ≡ self.now) }
    {
        if self.whole / 2 <= self.bytes.len().saturating_add(SPARE) {
            return self.share();
        }
        let bytes = Bytes::copy_from_slice(alloc, self.bytes.as_slice())?;
        Ok(Payload::of(bytes))
    }

    /// The payload of its octets from `from` to below `to`, which are not copied.
    pub fn part(&self, from: usize, to: usize) -> Result<Payload, OutOfMemory>
        requires order { from ≤ to }
        requires within { to ≤ length self.now }
        ensures { IfOk result (λ p. p ≡ slice_range self.now from to) }
    {
        let bytes = self.bytes.slice(from..to)?;
        Ok(Payload {
            bytes,
            whole: self.whole,
        })
    }
}

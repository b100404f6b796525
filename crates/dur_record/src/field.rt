//! The fields of a text, one after the other. A fault says how many octets are left where the field
//! begins: so no place is carried along, and no sum can be too large.

ghost use Rattle.std.specs.Prelude.{◌≡◌, length};
ghost use Rattle.dur_record.specs.Run.{run, Reads};
ghost use Rattle.dur_record.specs.declared.field.Kind.TheVariants.{BadField};
ghost use Rattle.dur_record.specs.declared.field.Stop.TheVariants.{Broken};
ghost use Rattle.dur_record.specs.Fields.{octets, u8, u32, u64};

use bytes::Bytes;
use dur_base::{Guid, Key, OutOfMemory, u32_of, u64_of};
use std::alloc::Global;

/// What is wrong with a field.
#[derive(Clone, Copy, Debug, PartialEq, Eq, Drop)]
pub enum Kind {
    /// The text ends inside it.
    Cut,
    /// It is the tag of no entry.
    BadTag,
    /// It fails its test.
    BadField,
}

/// Why a text is not read.
#[derive(Clone, Copy, Debug, PartialEq, Eq, Drop)]
pub enum Stop {
    /// A field breaks.
    Broken {
        /// The octets from the field's first one on.
        left: usize,
        /// What is wrong with it.
        kind: Kind,
    },
    /// There is not enough memory.
    OutOfMemory,
}

impl From<OutOfMemory> for Stop {
    ghost use Rattle.dur_record.specs.declared.field.Stop.TheVariants.{OutOfMemory};

    ghost from_gives = { λ _ e. e ≡ OutOfMemory };

    fn from(_: OutOfMemory) -> Stop {
        Stop::OutOfMemory
    }
}

/// What is left of a text: a cursor, whose payloads share the text's octets.
#[derive(Drop)]
pub struct Text {
    /// The octets that no field has taken.
    pub rest: Bytes<Global>,
}

impl Text {
    /// That the field which begins here breaks.
    pub fn breaks(&self, kind: Kind) -> Stop
        ensures { result ≡ Broken (length self.now.rest) kind }
    {
        Stop::Broken {
            left: self.rest.len(),
            kind,
        }
    }

    /// That the field which begins here fails its test.
    pub fn bad(&self) -> Stop
        ensures { result ≡ Broken (length self.now.rest) BadField }
    {
        self.breaks(Kind::BadField)
    }

    /// The octets of a field, which are shared with the text.
    #[tactic(auto, unfolding(crate::specs::Fields::octets))]
    pub fn octets(&mut self, width: usize) -> Result<Bytes<Global>, Stop>
        ensures { Reads result self.new.rest (run (octets width) self.old.rest) }
    {
        if self.rest.len() < width {
            return Err(self.breaks(Kind::Cut));
        }
        match self.rest.split_to(width) {
            Ok(octets) => Ok(octets),
            Err(_) => Err(Stop::OutOfMemory),
        }
    }

    /// The 16 octets of a GUID or a key.
    #[tactic(auto, unfolding(crate::specs::Fields::octets))]
    fn sixteen(&mut self) -> Result<[u8; 16], Stop>
        ensures { Reads result self.new.rest (run (octets 16) self.old.rest) }
    {
        if self.rest.len() < 16 {
            return Err(self.breaks(Kind::Cut));
        }
        let mut octets = [0; 16];
        octets.copy_from_slice(&self.rest.as_slice()[..16]);
        self.rest.advance(16);
        Ok(octets)
    }

    /// A GUID.
    pub fn guid(&mut self) -> Result<Guid, Stop>
        ensures { Reads result self.new.rest (run (octets 16) self.old.rest) }
    {
        Ok(Guid(self.sixteen()?))
    }

    /// A key.
    pub fn key(&mut self) -> Result<Key, Stop>
        ensures { Reads result self.new.rest (run (octets 16) self.old.rest) }
    {
        Ok(Key(self.sixteen()?))
    }

    /// A number of 32 bits.
    #[tactic(auto, unfolding(crate::specs::Fields::u32))]
    pub fn u32(&mut self) -> Result<u32, Stop>
        ensures { Reads result self.new.rest (run (u32) self.old.rest) }
    {
        if self.rest.len() < 4 {
            return Err(self.breaks(Kind::Cut));
        }
        let number = u32_of(&self.rest.as_slice()[..4], true);
        self.rest.advance(4);
        Ok(number)
    }

    /// A number of 64 bits.
    #[tactic(auto, unfolding(crate::specs::Fields::u64))]
    pub fn u64(&mut self) -> Result<u64, Stop>
        ensures { Reads result self.new.rest (run (u64) self.old.rest) }
    {
        if self.rest.len() < 8 {
            return Err(self.breaks(Kind::Cut));
        }
        let number = u64_of(&self.rest.as_slice()[..8], true);
        self.rest.advance(8);
        Ok(number)
    }

    /// A number of 8 bits.
    #[tactic(auto, unfolding(crate::specs::Fields::u8))]
    pub fn u8(&mut self) -> Result<u8, Stop>
        ensures { Reads result self.new.rest (run (u8) self.old.rest) }
    {
        if self.rest.len() < 1 {
            return Err(self.breaks(Kind::Cut));
        }
        let octet = self.rest.as_slice()[0];
        self.rest.advance(1);
        Ok(octet)
    }
}

//! The text of an option.

ghost use Rattle.std.specs.Prelude.{◌≡◌, IfOk};

use std::alloc::{AllocError, Global};
use std::marker::Model;

/// The text of an option, as `--peer` has one. Contracts see it as the list of its octets.
#[derive(Debug, Drop)]
pub struct Argument(String);

impl Model for Argument {
    ghost use Rattle.std.specs.Prelude.{ℕ, List, string_bytes};

    ghost Value = { List ℕ };

    ghost view = { λ a. string_bytes a.0 };
}

impl Argument {
    /// The argument that this text is. It fails only for want of memory.
    pub fn new(alloc: Global, text: &str) -> Result<Argument, AllocError>
        ensures { IfOk result (λ a. a ≡ text.now) }
    {
        Ok(Argument(String::from_str(alloc, text)?))
    }

    /// Its text.
    pub fn text(&self) -> &str
        ensures { result.now ≡ self.now }
    {
        self.0.as_str()
    }
}

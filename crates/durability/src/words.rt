//! The command line.

ghost use Rattle.std.specs.Prelude.{◌≡◌, ◌↔◌, ◌∷◌, ℕ, List, Err, map, string_bytes, codes, IsTrue, IfOk};
ghost use Rattle.clap.specs.Values.{kind_of};
ghost use Rattle.durability.specs.CommandLine.{HasDir, IsLine};
ghost use Rattle.durability.specs.Commands.{words_fault};
ghost use Rattle.durability.specs.declared.words.Line.{Line as Asked};
ghost use Rattle.durability.specs.declared.words.WordsFault.TheVariants as fault;

mod commands;
mod values;

use crate::argument::Argument;
use clap::error::ErrorKind;
use commands::{dir_command, late_command, learn_command, list_command, options, show_command};
use dur_base::{EntityId, Guid, Ticks};
use std::alloc::{AllocError, Global};
use values::{argument_of, count_of, number_of, octets_of};

/// A command line: what the words after the program's name ask for.
#[derive(Debug, Drop)]
pub enum Line {
    /// The listing of what a late reader is entitled to.
    List {
        /// The moment of the listing, in ticks of 2^-32 s. The greatest moment of the records counts
        /// where it is later.
        at: Ticks,
        /// The epoch of the service.
        epoch: u32,
    },
    /// The plan that the discovery traffic of a capture teaches.
    Learn {
        /// The moment of the plan, in ticks of 2^-32 s. The greatest moment of the records counts where
        /// it is later.
        at: Ticks,
        /// The epoch of the service.
        epoch: u32,
    },
    /// A line for each record.
    Show {
        /// The epoch of the service.
        epoch: u32,
    },
    /// What the records of a capture call for over a journal, which stores what they admit.
    Rerun {
        /// The folder that the journal's files stand in, which main alone reads.
        dir: Argument,
    },
    /// A look at the two files of a journal.
    Check {
        /// The folder that the files stand in, which main alone reads.
        dir: Argument,
    },
    /// A late reader over a link (DDSI-RTPS 8.4.12), which is a line of the call `late` alone.
    Late {
        /// The reader's GUID.
        reader: Guid,
        /// The octets with which the service's own prefixes begin.
        prefix: [u8; 8],
        /// The entity of the service's writer.
        writer: EntityId,
        /// Where the service is heard, which main alone reads.
        peer: Argument,
        /// How often it receives at most, from 1.
        turns: u32,
    },
}

/// Why there is no command line.
#[derive(Clone, Copy, Debug, PartialEq, Eq, Drop)]
pub enum WordsFault {
    /// The words are none.
    Usage,
    /// There was not enough memory.
    OutOfMemory,
}

impl From<AllocError> for WordsFault {
    ghost from_gives = { λ _ f. f ≡ fault.OutOfMemory };

    fn from(_: AllocError) -> WordsFault {
        WordsFault::OutOfMemory
    }
}

impl From<clap::Error> for WordsFault {
    ghost from_gives = { λ e f. f ≡ words_fault (kind_of e) };

    fn from(error: clap::Error) -> WordsFault {
        match error.kind() {
            ErrorKind::OutOfMemory => WordsFault::OutOfMemory,
            _ => WordsFault::Usage,
        }
    }
}

/// The line of `list` with these words behind it.
fn list_line(alloc: Global, words: &[String]) -> Result<Line, WordsFault>
    ensures line { IfOk result (λ line. IsLine (codes "list" ∷ map string_bytes words.now) line) }
    ensures usage { result ≡ Err WordsFault.Usage
        → (line : Asked) → IsLine (codes "list" ∷ map string_bytes words.now) line → ⊥ }
{
    let command = list_command(alloc)?;
    let given = options(command, words)?;
    let at = number_of(given.get_str("at"), u64::MAX)?;
    let epoch = number_of(given.get_str("epoch"), u32::MAX as u64)?;
    Ok(Line::List {
        at: Ticks(at),
        epoch: epoch as u32,
    })
}

/// The line of `learn` with these words behind it.
fn learn_line(alloc: Global, words: &[String]) -> Result<Line, WordsFault>
    ensures line { IfOk result (λ line. IsLine (codes "learn" ∷ map string_bytes words.now) line) }
    ensures usage { result ≡ Err WordsFault.Usage
        → (line : Asked) → IsLine (codes "learn" ∷ map string_bytes words.now) line → ⊥ }
{
    let command = learn_command(alloc)?;
    let given = options(command, words)?;
    let at = number_of(given.get_str("at"), u64::MAX)?;
    let epoch = number_of(given.get_str("epoch"), u32::MAX as u64)?;
    Ok(Line::Learn {
        at: Ticks(at),
        epoch: epoch as u32,
    })
}

/// The line of `show` with these words behind it.
fn show_line(alloc: Global, words: &[String]) -> Result<Line, WordsFault>
    ensures line { IfOk result (λ line. IsLine (codes "show" ∷ map string_bytes words.now) line) }
    ensures usage { result ≡ Err WordsFault.Usage
        → (line : Asked) → IsLine (codes "show" ∷ map string_bytes words.now) line → ⊥ }
{
    let command = show_command(alloc)?;
    let given = options(command, words)?;
    let epoch = number_of(given.get_str("epoch"), u32::MAX as u64)?;
    Ok(Line::Show {
        epoch: epoch as u32,
    })
}

/// The folder that the words behind a subcommand name, as their only option.
fn dir_of(alloc: Global, words: &[String]) -> Result<Argument, WordsFault>
    ensures dir { IfOk result (λ dir. HasDir (map string_bytes words.now) dir) }
    ensures usage { result ≡ Err WordsFault.Usage → (dir : List ℕ) → HasDir (map string_bytes words.now) dir → ⊥ }
{
    let command = dir_command(alloc)?;
    let given = options(command, words)?;
    argument_of(alloc, given.get_str("dir"))
}

/// The line of `rerun` with these words behind it.
fn rerun_line(alloc: Global, words: &[String]) -> Result<Line, WordsFault>
    ensures line { IfOk result (λ line. IsLine (codes "rerun" ∷ map string_bytes words.now) line) }
    ensures usage { result ≡ Err WordsFault.Usage → (line : Asked) → IsLine (codes "rerun" ∷ map string_bytes words.now) line → ⊥ }
{
    let dir = dir_of(alloc, words)?;
    Ok(Line::Rerun { dir })
}

/// The line of `check` with these words behind it.
fn check_line(alloc: Global, words: &[String]) -> Result<Line, WordsFault>
    ensures line { IfOk result (λ line. IsLine (codes "check" ∷ map string_bytes words.now) line) }
    ensures usage { result ≡ Err WordsFault.Usage → (line : Asked) → IsLine (codes "check" ∷ map string_bytes words.now) line → ⊥ }
{
    let dir = dir_of(alloc, words)?;
    Ok(Line::Check { dir })
}

/// The line of `late` with these words behind it.
fn late_line(alloc: Global, words: &[String]) -> Result<Line, WordsFault>
    ensures line { IfOk result (λ line. IsLine (codes "late" ∷ map string_bytes words.now) line) }
    ensures usage { result ≡ Err WordsFault.Usage
        → (line : Asked) → IsLine (codes "late" ∷ map string_bytes words.now) line → ⊥ }
{
    let command = late_command(alloc)?;
    let given = options(command, words)?;
    let reader = octets_of::<16>(given.get_str("reader"))?;
    let prefix = octets_of::<8>(given.get_str("prefix"))?;
    let writer = octets_of::<4>(given.get_str("writer"))?;
    let peer = argument_of(alloc, given.get_str("peer"))?;
    let turns = count_of(given.get_str("turns"), u32::MAX as u64)?;
    Ok(Line::Late {
        reader: Guid(reader),
        prefix,
        writer: EntityId(writer),
        peer,
        turns: turns as u32,
    })
}

fn is_list_word(word: &String) -> bool
    ensures { IsTrue result ↔ (string_bytes word.now ≡ codes "list") }
{
    word.as_str() == "list"
}

fn is_learn_word(word: &String) -> bool
    ensures { IsTrue result ↔ (string_bytes word.now ≡ codes "learn") }
{
    word.as_str() == "learn"
}

fn is_show_word(word: &String) -> bool
    ensures { IsTrue result ↔ (string_bytes word.now ≡ codes "show") }
{
    word.as_str() == "show"
}

fn is_rerun_word(word: &String) -> bool
    ensures { IsTrue result ↔ (string_bytes word.now ≡ codes "rerun") }
{
    word.as_str() == "rerun"
}

fn is_check_word(word: &String) -> bool
    ensures { IsTrue result ↔ (string_bytes word.now ≡ codes "check") }
{
    word.as_str() == "check"
}

fn is_late_word(word: &String) -> bool
    ensures { IsTrue result ↔ (string_bytes word.now ≡ codes "late") }
{
    word.as_str() == "late"
}

/// The command line that the words after the program's name are; or `Usage` exactly where they are
/// none, or want of memory.
pub fn read_words(alloc: Global, words: &[String]) -> Result<Line, WordsFault>
    ensures line { IfOk result (λ line. IsLine (map string_bytes words.now) line) }
    ensures usage { result ≡ Err WordsFault.Usage
        → (line : Asked) → IsLine (map string_bytes words.now) line → ⊥ }
{
    match words {
        [word, rest @ ..] => if is_list_word(word) {
            list_line(alloc, rest)
        } else if is_learn_word(word) {
            learn_line(alloc, rest)
        } else if is_show_word(word) {
            show_line(alloc, rest)
        } else if is_rerun_word(word) {
            rerun_line(alloc, rest)
        } else if is_check_word(word) {
            check_line(alloc, rest)
        } else if is_late_word(word) {
            late_line(alloc, rest)
        } else {
            Err(WordsFault::Usage)
        },
        [] => Err(WordsFault::Usage),
    }
}

//! The commands, as `clap` reads their options.

ghost use Rattle.std.specs.Prelude.{◌≡◌, ℕ, List, [], true, Err, map, string_bytes, codes, IfOk};
ghost use Rattle.std.specs.List.{list_any};
ghost use Rattle.std.specs.Str.{bytes_eq};
ghost use Rattle.clap.specs.Simple.{app_of, with_rule};
ghost use Rattle.clap.specs.Faults.{is_simple_and_free};
ghost use Rattle.durability.specs.Commands.{new_option, command_of, list_names, show_names, dir_names, late_names, HasOptions, AreNames};
ghost use Rattle.durability.specs.Options.{Given, IsOptions};

use crate::words::WordsFault;
use clap::{Arg, ArgAction, ArgMatches, Command};
use std::alloc::{AllocError, Global};

/// A command without options and without help.
fn command<'a>(alloc: Global, name: &'a str) -> Command<'a>
    ensures { app_of result ≡ command_of name.entry.now [] }
{
    Command::new(alloc, name)
        .no_binary_name(true)
        .disable_help_flag(true)
}

/// The command with one option more, which has one value.
fn with_option<'a>(
    alloc: Global,
    command: Command<'a>,
    name: &'a str,
) -> Result<Command<'a>, AllocError>
    ensures { IfOk result (λ c.
        app_of c ≡ with_rule (app_of command.entry) (new_option name.entry.now)) }
{
    let option = Arg::new(alloc, name).long(name).action(ArgAction::Set);
    command.arg(option)
}

/// The command `list`.
pub fn list_command<'a>(alloc: Global) -> Result<Command<'a>, AllocError>
    ensures { IfOk result (λ c. app_of c ≡ command_of (codes "list") list_names) }
{
    let command = command(alloc, "list");
    let command = with_option(alloc, command, "at")?;
    with_option(alloc, command, "epoch")
}

/// The command `learn`.
pub fn learn_command<'a>(alloc: Global) -> Result<Command<'a>, AllocError>
    ensures { IfOk result (λ c. app_of c ≡ command_of (codes "learn") list_names) }
{
    let command = command(alloc, "learn");
    let command = with_option(alloc, command, "at")?;
    with_option(alloc, command, "epoch")
}

/// The command `show`.
pub fn show_command<'a>(alloc: Global) -> Result<Command<'a>, AllocError>
    ensures { IfOk result (λ c. app_of c ≡ command_of (codes "show") show_names) }
{
    let command = command(alloc, "show");
    with_option(alloc, command, "epoch")
}

/// A command that asks for a folder alone. Its own name, which clap would say in a help, is never printed.
pub fn dir_command<'a>(alloc: Global) -> Result<Command<'a>, AllocError>
    ensures { IfOk result (λ c. app_of c ≡ command_of (codes "dir") dir_names) }
{
    let command = command(alloc, "dir");
    with_option(alloc, command, "dir")
}

/// The command `late`.
pub fn late_command<'a>(alloc: Global) -> Result<Command<'a>, AllocError>
    ensures { IfOk result (λ c. app_of c ≡ command_of (codes "late") late_names) }
{
    let command = command(alloc, "late");
    let command = with_option(alloc, command, "reader")?;
    let command = with_option(alloc, command, "prefix")?;
    let command = with_option(alloc, command, "writer")?;
    let command = with_option(alloc, command, "peer")?;
    with_option(alloc, command, "turns")
}

fn is_dashes(word: &String) -> bool
    ensures { result ≡ bytes_eq (string_bytes word.now) (codes "--") }
{
    word.as_str() == "--"
}

/// Whether a word ends the options, which no command line has.
fn has_dashes(words: &[String]) -> bool
    ensures { result ≡ list_any (λ w. bytes_eq (string_bytes w) (codes "--")) words.now }
{
    words.iter().any(|word| is_dashes(word))
}

/// The options that the words of a command are, each as `--name value` or `--name=value`.
pub fn options<'a>(command: Command<'a>, words: &'a [String]) -> Result<ArgMatches<'a>, WordsFault>
    ensures ok { (name : List ℕ) (names : List (List ℕ))
        → app_of command.entry ≡ command_of name names
        → is_simple_and_free (command_of name names) ≡ true → AreNames names
        → IfOk result (HasOptions names (map string_bytes words.entry.now)) }
    ensures usage { (name : List ℕ) (names : List (List ℕ))
        → app_of command.entry ≡ command_of name names
        → is_simple_and_free (command_of name names) ≡ true → AreNames names
        → result ≡ Err WordsFault.Usage
        → (given : List Given) → IsOptions names (map string_bytes words.entry.now) given → ⊥ }
{
    if has_dashes(words) {
        return Err(WordsFault::Usage);
    }
    let matches = command.try_get_matches_from(words)?;
    Ok(matches)
}

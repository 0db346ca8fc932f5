//! Commands.

ghost use Rattle.std.specs.Prelude.{◌≡◌, IfOk};
ghost use Rattle.std.specs.Option.{option_and_then, option_map};
ghost use Rattle.clap.specs.Words.{found_of, rows_of, subcommand_rows_of};
ghost use Rattle.command_words.specs.Matches.{command_found};
ghost use Rattle.command_words.specs.Words.{check_words, command, is_true, make_words};
ghost use Rattle.command_words.specs.Words.{normal_words, prompt_words, replay_words, texts};
ghost use Rattle.command_words.specs.Words.{turns_of};
ghost use Rattle.command_words.specs.Read.{command_read, value};

use crate::grammar::ctt;
use crate::names::is_name;
use crate::numbers::number_within;
use clap::ArgMatches;
use clap::error::ErrorKind;
use std::alloc::{AllocError, Global};

/// The budget of a question where no other one is named, in moves.
const DEFAULT_TURNS: u64 = 1_000_000;

/// The greatest budget of a question, in moves.
const MOST_TURNS: u64 = 1_000_000_000;

/// The most definitions that a module is made of.
const MOST_DEFINITIONS: u64 = 2_000;

/// What the words ask for. Budgets are those of each question, in moves.
#[derive(Clone, Copy, Debug, PartialEq, Eq)]
pub enum Command<'a> {
    /// `check MODULE [--turns N] [--json]`: to check the module of this name, and whether to answer
    /// in JSON.
    Check {
        module: &'a str,
        turns: u64,
        json: bool,
    },
    /// `replay FILE [--of MODULE]`: to judge the derivation file at the path, and whether its roots
    /// are the judgements of the module.
    Replay {
        file: &'a str,
        of: Option<&'a str>,
    },
    /// `normal MODULE NAME [--turns N]`: to check the module, and to normalise the body of the
    /// definition of this name.
    Normal {
        module: &'a str,
        name: &'a str,
        turns: u64,
    },
    /// `prompt MODULE [--turns N]`: to check the module, and to answer questions about it.
    Prompt {
        module: &'a str,
        turns: u64,
    },
    /// `make N`: to write a module of so many definitions.
    Make {
        count: u64,
    },
}

/// The budget of a question.
fn turns_of(given: Option<&str>) -> Option<u64>
    ensures { result ≡ turns_of (value given.entry) }
{
    match given {
        None => Some(DEFAULT_TURNS),
        Some(word) => number_within(1, MOST_TURNS, word),
    }
}

/// Whether a flag stands: clap gives it the text `true` then, and else `false`.
fn is_true(text: Option<&str>) -> bool
    ensures { result ≡ is_true (value text.entry) }
{
    matches!(text, Some("true"))
}

/// `check` with what is given after it.
fn check_of<'a>(
    alloc: Global,
    module: Option<&'a str>,
    turns: Option<&str>,
    json: bool,
) -> Result<Option<Command<'a>>, AllocError>
    ensures { IfOk result (λ found. option_map command_read found
        ≡ check_words (value «module».entry) (turns_of (value turns.entry)) json) }
{
    match (module, turns_of(turns)) {
        (Some(module), Some(turns)) if is_name(alloc, module)? => Ok(Some(Command::Check {
            module,
            turns,
            json,
        })),
        _ => Ok(None),
    }
}

/// `replay` with what is given after it.
fn replay_of<'a>(
    alloc: Global,
    file: Option<&'a str>,
    of: Option<&'a str>,
) -> Result<Option<Command<'a>>, AllocError>
    ensures { IfOk result (λ found. option_map command_read found
        ≡ replay_words (value file.entry) (value of.entry)) }
{
    let Some(file) = file else {
        return Ok(None);
    };
    if file.is_empty() {
        return Ok(None);
    }
    if let Some(module) = of {
        if !is_name(alloc, module)? {
            return Ok(None);
        }
    }
    Ok(Some(Command::Replay { file, of }))
}

/// `normal` with what is given after it.
fn normal_of<'a>(
    alloc: Global,
    module: Option<&'a str>,
    name: Option<&'a str>,
    turns: Option<&str>,
) -> Result<Option<Command<'a>>, AllocError>
    ensures { IfOk result (λ found. option_map command_read found
        ≡ normal_words (value «module».entry) (value name.entry) (turns_of (value turns.entry))) }
{
    let (Some(module), Some(name), Some(turns)) = (module, name, turns_of(turns)) else {
        return Ok(None);
    };
    if !is_name(alloc, module)? || !is_name(alloc, name)? {
        return Ok(None);
    }
    Ok(Some(Command::Normal {
        module,
        name,
        turns,
    }))
}

/// `prompt` with what is given after it.
fn prompt_of<'a>(
    alloc: Global,
    module: Option<&'a str>,
    turns: Option<&str>,
) -> Result<Option<Command<'a>>, AllocError>
    ensures { IfOk result (λ found. option_map command_read found
        ≡ prompt_words (value «module».entry) (turns_of (value turns.entry))) }
{
    match (module, turns_of(turns)) {
        (Some(module), Some(turns)) if is_name(alloc, module)? => Ok(Some(Command::Prompt {
            module,
            turns,
        })),
        _ => Ok(None),
    }
}

/// `make` with what is given after it.
fn make_of<'a>(count: Option<&str>) -> Option<Command<'a>>
    ensures { option_map command_read result ≡ make_words (value count.entry) }
{
    match number_within(1, MOST_DEFINITIONS, count?) {
        Some(count) => Some(Command::Make { count }),
        None => None,
    }
}

/// The command of this name, with what clap found after it.
#[tactic(auto, using(crate::proofs::MatchLaws::first_text))]
fn command_named<'a>(
    alloc: Global,
    name: &str,
    found: &ArgMatches<'a>,
) -> Result<Option<Command<'a>>, AllocError>
    ensures { IfOk result (λ command. option_map command_read command
        ≡ command_found name.now (rows_of (found_of found.now))) }
{
    match name {
        "check" => {
            let json = is_true(found.get_str("json"));
            check_of(alloc, found.get_str("module"), found.get_str("turns"), json)
        }
        "replay" => replay_of(alloc, found.get_str("file"), found.get_str("of")),
        "normal" => normal_of(
            alloc,
            found.get_str("module"),
            found.get_str("name"),
            found.get_str("turns"),
        ),
        "prompt" => prompt_of(alloc, found.get_str("module"), found.get_str("turns")),
        "make" => Ok(make_of(found.get_str("count"))),
        _ => Ok(None),
    }
}

/// The command that clap found.
fn command_in<'a>(
    alloc: Global,
    matches: &ArgMatches<'a>,
) -> Result<Option<Command<'a>>, AllocError>
    ensures { IfOk result (λ command. option_map command_read command
        ≡ option_and_then (λ p. command_found p.0 p.1) (subcommand_rows_of matches.now)) }
{
    match matches.subcommand() {
        Some((name, found)) => command_named(alloc, name, found),
        None => Ok(None),
    }
}

/// The command that the words are, if any. They are those after the program's name.
///
/// # Errors
/// Only where memory runs out.
pub fn command_of(alloc: Global, words: &[String]) -> Result<Option<Command<'_>>, AllocError>
    ensures { IfOk result (λ found. option_map command_read found ≡ command (texts words.now)) }
{
    match ctt(alloc)?.try_get_matches_from(words) {
        Ok(matches) => command_in(alloc, &matches),
        Err(error) if error.kind() == ErrorKind::OutOfMemory => Err(AllocError),
        Err(_) => Ok(None),
    }
}

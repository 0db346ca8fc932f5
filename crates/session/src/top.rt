//! The top call: it does what the words ask for, and prints how that ended.

ghost use Rattle.std.specs.Prelude.{◌≡◌, IfOk, IsErr, false};
ghost use Rattle.host_io.specs.Seen.{seen_files, seen_source, seen_sink};
ghost use Rattle.std.specs.Option.{option_map};
ghost use Rattle.session.specs.Answers.{MayAnswer, MayStore, Ran, asks_lines, wants_json, world};
ghost use Rattle.command_words.specs.Read.{command_read};
ghost use Rattle.command_words.specs.Words.{command, texts};

use crate::check_command::check;
use crate::make_command::make;
use crate::normal_command::{Asked, normal};
use crate::printing::print;
use crate::prompt_command::prompt;
use crate::replay_command::replay;
use command_words::{Command, command_of};
use host_io::{Files, Sink, Source};
use outcomes::{Outcome, Status};
use std::alloc::{AllocError, Global};

/// Whether a command is answered in JSON.
fn is_json(command: Option<Command<'_>>) -> bool
    ensures { result ≡ wants_json (option_map command_read command.entry) }
{
    match command {
        Some(
            Command::Check {
                module: _,
                turns: _,
                json,
            },
        ) => json,
        _ => false,
    }
}

/// Does what a command asks for that answers once, but for printing. The only error is out of
/// memory.
fn outcome_of<F: Files>(
    alloc: Global,
    command: Option<Command<'_>>,
    files: &mut F,
) -> Result<Outcome, AllocError>
    requires { asks_lines (option_map command_read command) ≡ false }
    ensures answer { let see = seen_files F.held F.counts in
        IfOk result
        (MayAnswer (option_map command_read command.entry) (see files.old) (see files.new)) }
    ensures stored { MayStore (seen_files F.held F.counts) (option_map command_read command.entry)
        (IsErr result) files.old files.new }
{
    let Some(command) = command else {
        return Ok(Outcome::Usage);
    };
    match command {
        Command::Check {
            module,
            turns,
            json: _,
        } => check(alloc, module, turns, files),
        Command::Replay { file, of } => replay(alloc, file, of, files),
        Command::Normal {
            module,
            name,
            turns,
        } => {
            let asked = Asked {
                module_name: module,
                name,
                turns,
            };
            normal(alloc, asked, files)
        }
        Command::Make { count } => make(alloc, count),
        Command::Prompt {
            module: _,
            turns: _,
        } => unreachable!("a prompt answers more than once"),
    }
}

/// Does what the words ask for, where they are those after the program's name, and gives the status
/// to end with. It may be out of memory at any time.
pub fn run<F: Files, I: Source, O: Sink>(
    alloc: Global,
    words: &[String],
    files: &mut F,
    input: &mut I,
    out: &mut O,
) -> Status
    ensures { Ran (seen_files F.held F.counts) (seen_source I.left I.faults)
        (seen_sink O.taken O.faults) (command (texts words.now))
        (world files.old input.old out.old) (world files.new input.new out.new) result }
{
    let command = match command_of(alloc, words) {
        Ok(command) => command,
        Err(_) => return Status::Memory,
    };
    if let Some(Command::Prompt { module, turns }) = command {
        return prompt(alloc, module, turns, files, input, out);
    }
    match outcome_of(alloc, command, files) {
        Ok(outcome) => print(alloc, &outcome, is_json(command), out),
        Err(_) => Status::Memory,
    }
}

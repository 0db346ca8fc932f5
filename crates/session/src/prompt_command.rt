//! The command `prompt`: it checks a module, and answers lines behind its definitions.

ghost use Rattle.std.specs.Prelude.{IfOk, Some};
ghost use Rattle.command_words.specs.Words.{Prompt as PromptWords};
ghost use Rattle.host_io.specs.Seen.{seen_files, seen_sink, seen_source};
ghost use Rattle.linking.specs.Linked.{IsLinked};
ghost use Rattle.session.specs.Answers.{Ran, world};
ghost use Rattle.session.specs.Loaded.{texts_of};
ghost use Rattle.session.specs.Prompts.{Closed, IsBegun};

use crate::found::{Found, found_of};
use crate::others::{other_job, other_of};
use crate::places::scope_behind;
use crate::printing::print;
use crate::program::{Program, read_program};
use crate::prompted::{Prompt, TypedBook};
use book::Book;
use dialogue::{Ending, talk};
use host_io::{Files, Sink, Source};
use outcomes::{Cause, Outcome, Status, refused};
use resolver::Scope;
use std::alloc::{AllocError, Global};

/// What becomes of a prompt.
#[derive(Drop)]
enum Begun<'a> {
    /// All definitions are typed, so that lines are answered.
    Typed(Prompt<'a>),
    /// Not all are.
    Told(Outcome),
}

/// Checks the definitions of a program, each question of evaluation within so many moves.
fn begin<'a>(
    alloc: Global,
    program: &'a Program,
    name: &str,
    turns: u64,
) -> Result<Begun<'a>, AllocError>
    requires { IsLinked (texts_of program.now) program.now.codes }
    ensures { IfOk result (IsBegun name.now turns program.now) }
{
    let defs = program.codes.as_slice();
    let mut book = Book::new(alloc)?;
    let nodes = match found_of(alloc, &mut book, defs, turns)? {
        Found::Stated(nodes) => nodes,
        Found::Other(first, reason) => {
            let other = other_of(alloc, &mut book, defs.len(), first, reason)?;
            let job = other_job(alloc, program, name, turns, other)?;
            return Ok(Begun::Told(job.told()));
        }
    };
    book.laws_of_nodes();
    let scope = scope_behind(alloc, program)?;
    let typed = TypedBook::new(book, nodes);
    Ok(Begun::Typed(Prompt {
        program,
        scope,
        typed,
        turns,
    }))
}

/// Prints what is told behind all lines, and gives the status to end with.
fn close<O: Sink>(alloc: Global, ending: Ending, out: &mut O) -> Status
    ensures { let see = seen_sink O.taken O.faults in
        Closed ending (see out.old) (see out.new) result }
{
    match ending {
        Ending::Closed => Status::Yes,
        Ending::TooLong => print(alloc, &refused(Cause::TooLong, None, None), false, out),
        Ending::ReadFault => print(alloc, &Outcome::ReadFault, false, out),
        Ending::WriteFault => Status::Fault,
        Ending::Memory => Status::Memory,
    }
}

/// Checks a module and those that its imports reach, and answers the lines of the input behind
/// their definitions, each question of evaluation within so many moves. Nothing is stored.
pub(crate) fn prompt<F: Files, I: Source, O: Sink>(
    alloc: Global,
    name: &str,
    turns: u64,
    files: &mut F,
    input: &mut I,
    out: &mut O,
) -> Status
    ensures { Ran (seen_files F.held F.counts) (seen_source I.left I.faults)
        (seen_sink O.taken O.faults) (Some (PromptWords name.now turns))
        (world files.old input.old out.old) (world files.new input.new out.new) result }
{
    let Ok(read) = read_program(alloc, name, files) else {
        return Status::Memory;
    };
    let program = match read {
        Ok(program) => program,
        Err(told) => return print(alloc, &told, false, out),
    };
    let Ok(begun) = begin(alloc, &program, name, turns) else {
        return Status::Memory;
    };
    match begun {
        Begun::Typed(mut prompt) => {
            let ending = talk(alloc, &mut prompt, input, out);
            close(alloc, ending, out)
        }
        Begun::Told(told) => print(alloc, &told, false, out),
    }
}

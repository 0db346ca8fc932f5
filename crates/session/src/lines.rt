//! The lines of a prompt, each read as an expression, and what answers them.

ghost use Rattle.std.specs.Prelude.{◌≡◌, IfOk, List, ℕ};
ghost use Rattle.std.specs.Option.{option_map};
ghost use Rattle.trees.specs.Trees.{Tree};
ghost use Rattle.resolver.specs.Resolved.{defs_in};
ghost use Rattle.session.specs.Lines.{CodeOrTold, IsTerm, Tells, TellsTerm, expression_in};
ghost use Rattle.session.specs.Loaded.{texts_of};
ghost use Rattle.session.specs.Places.{span_of};
ghost use Rattle.session.specs.Prompts.{answers_of};

use crate::found::{Found, found_of};
use crate::marks::give_back;
use crate::prompted::{Prompt, TypedBook};
use crate::terms::Asked;
use book::Book;
use dialogue::Answering;
use grammar::read_exp;
use layout_lexer::tokens;
use outcomes::{Cause, Outcome, of_lex, of_read, of_scope, refused};
use resolver::{Code, resolve_exp};
use std::alloc::{AllocError, Global};

/// The expression of a line, in which blanks stand for the command before it, so that each byte
/// keeps its place. None where the line begins with another command.
fn expression_in(alloc: Global, line: &[u8]) -> Result<Option<Vec<u8>>, AllocError>
    ensures { IfOk result (λ found.
        option_map (λ bytes. bytes.items) found ≡ expression_in line.now) }
{
    let mut bytes = Vec::new(alloc);
    if line.starts_with(b":n ") {
        bytes.extend_from_slice(b"   ")?;
        bytes.extend_from_slice(line.split_at(3).1)?;
        return Ok(Some(bytes));
    }
    if line.starts_with(b":") {
        return Ok(None);
    }
    bytes.extend_from_slice(line)?;
    Ok(Some(bytes))
}

impl Prompt<'_> {
    /// The code of a text that stands behind all definitions, or how it is told that it has none.
    fn code_of(&self, alloc: Global, bytes: &[u8]) -> Result<Result<Code, Outcome>, AllocError>
        ensures { let program = self.now.program.now in
            IfOk result (CodeOrTold (texts_of program) (defs_in program.codes) bytes.now) }
    {
        let tokens = match tokens(alloc, bytes) {
            Ok(tokens) => tokens,
            Err(fault) => return Ok(Err(of_lex(fault, None)?)),
        };
        let expression = match read_exp(alloc, bytes, &tokens) {
            Ok(expression) => expression,
            Err(fault) => return Ok(Err(of_read(fault, None)?)),
        };
        match resolve_exp(alloc, bytes, &expression, &self.scope) {
            Ok(code) => Ok(Ok(code)),
            Err(fault) => Ok(Err(of_scope(fault, None)?)),
        }
    }

    /// Types the definitions anew, if lines have left many rows, so that lines cost no memory.
    fn renew(&mut self, alloc: Global) -> Result<(), AllocError>
        ensures program { self.new.program ≡ self.old.program }
        ensures turns { self.new.turns ≡ self.old.turns }
    {
        if !self.typed.is_full() {
            return Ok(());
        }
        let mut book = Book::new(alloc)?;
        let defs = self.program.codes.as_slice();
        if let Found::Stated(nodes) = found_of(alloc, &mut book, defs, self.turns)? {
            self.typed = TypedBook::new(book, nodes);
        }
        Ok(())
    }

    /// What is told of a term. What the book learnt of it is given back.
    fn told_of(&mut self, alloc: Global, code: &Code) -> Result<Outcome, AllocError>
        ensures told { let program = self.old.program.now in (bytes : List ℕ) (t : Tree) →
            IsTerm (texts_of program) (defs_in program.codes) bytes t code.now →
            IfOk result (TellsTerm self.old.turns (span_of code.now).start t) }
        ensures program { self.new.program ≡ self.old.program }
        ensures turns { self.new.turns ≡ self.old.turns }
    {
        self.renew(alloc)?;
        let held = self.typed.book.mark().nodes;
        let asked = Asked {
            defs: self.program.codes.as_slice(),
            nodes: &self.typed.nodes,
            code,
            turns: self.turns,
        };
        let told = asked.told(alloc, &mut self.typed.book);
        give_back(&mut self.typed.book, held);
        told
    }

    /// What is told of a line.
    fn told(&mut self, alloc: Global, line: &[u8]) -> Result<Outcome, AllocError>
        ensures told { let program = self.old.program.now in
            IfOk result (Tells (texts_of program) (defs_in program.codes) self.old.turns line.now) }
        ensures program { self.new.program ≡ self.old.program }
        ensures turns { self.new.turns ≡ self.old.turns }
    {
        let Some(bytes) = expression_in(alloc, line)? else {
            return Ok(refused(Cause::Unexpected, Some(0), None));
        };
        match self.code_of(alloc, &bytes)? {
            Ok(code) => self.told_of(alloc, &code),
            Err(told) => Ok(told),
        }
    }
}

impl Answering for Prompt<'_> {
    ghost answers = { answers_of };

    fn answer(&mut self, alloc: Global, line: &[u8]) -> Result<String, AllocError> {
        let told = self.told(alloc, line)?;
        let text = told.text(alloc)?;
        let shown = String::from_str(alloc, &text)?;
        Ok(shown)
    }
}

//! Reading whole texts.

ghost use Rattle.std.specs.Prelude.{◌≡◌, IfErr, IfOk, None, Ok, Some, [], length};
ghost use Rattle.layout_lexer.specs.Texts.{tokens_of};
ghost use Rattle.syntax.specs.View.{module_of, tree_of};
ghost use Rattle.productions.specs.Words.{piece_of, pieces, word_of};
ghost use Rattle.productions.specs.Grammar.{IsModule, IsWholeExp, nothing};
ghost use Rattle.productions.specs.Machine.{and_step, finish as machine_finish, step, to};
ghost use Rattle.parser_states.specs.View.{on, stack_of, top_of, view, Gives};
ghost use Rattle.grammar.specs.Faults.{
  first_refused as refused_place,
  refuses,
  text_of,
  Ends,
  IsFault,
  IsRead,
  Outcome,
  Steps,
};

use layout_lexer::{Kind, Token, Tokens};
use parser_blocks::{
    LIMIT, after_neg, block, finish_formula, finish_given, heading, items, names, neg, system,
};
use parser_expressions::{exp, exp1, given, maybe, opened, placed, projected};
use parser_states::{Heading, Parser, Stop, Top};
use productions::Past;
use std::alloc::Global;
use syntax::{Exp, Module};
use thiserror::Error;

/// Why a text is not read. Places are counted in bytes.
#[derive(Clone, Copy, Debug, PartialEq, Eq, Error)]
pub enum ReadFault {
    /// At the place stands the first word or sign that no text has.
    #[error("no text has the word at byte {0}")]
    RefusedForm(u32),
    /// No text begins with the tokens up to the one at the place, and some text does with those
    /// before it. The end of the text counts as one more token.
    #[error("the token at byte {0} is not expected")]
    Unexpected(u32),
    /// The text is read, and at the place begins the first thing at depth 513.
    #[error("the token at byte {0} stands too deep")]
    TooDeep(u32),
    /// Out of memory.
    #[error("out of memory")]
    Memory,
}

/// A whole text.
#[derive(Drop)]
pub enum Text {
    Module(Module),
    Exp(Exp),
}

/// The next state.
#[inline(always)]
fn next(alloc: Global, parser: Parser, token: Token) -> Result<Parser, Stop>
    ensures { Gives view result
        (on token (step (top_of parser.top) parser.past (stack_of parser.stack.items))) }
{
    let Parser { top, past, stack } = parser;
    match top {
        Top::Heading(top) => heading(alloc, top, past, stack, token),
        Top::Items(top) => items(alloc, top, past, stack, token),
        Top::Block(top) => block(alloc, top, past, stack, token),
        Top::Done(_module) => Err(Stop::Unexpected),
        Top::Exp { room } => exp(alloc, room, past, stack, token),
        Top::Exp1 { room } => exp1(alloc, room, past, stack, token),
        Top::Names(top) => names(alloc, top, past, stack, token),
        Top::Opened { room, start } => opened(alloc, room, start, past, stack, token),
        Top::Maybe(top) => maybe(alloc, top, past, stack, token),
        Top::Projected(top) => projected(alloc, top, past, stack, token),
        Top::Given(top) => given(alloc, top, past, stack, token),
        Top::Neg {
            spine,
            at,
            frames,
            room,
        } => neg(spine, at, frames, room, past, stack, token),
        Top::HaveNeg {
            spine,
            at,
            frames,
            operand,
        } => after_neg(alloc, spine, at, frames, operand, past, stack, token),
        Top::System(top) => system(alloc, top, past, stack, token),
    }
}

/// The text that ends in this state.
#[tactic(auto, using(crate::proofs::NoEnds::given_ends))]
fn finished(alloc: Global, parser: Parser) -> Result<Text, Stop>
    ensures { Gives text_of result
        (machine_finish (top_of parser.top) parser.past (stack_of parser.stack.items)) }
{
    let Parser { top, past, stack } = parser;
    match top {
        Top::Done(module) => Ok(Text::Module(module)),
        Top::Projected(part) => {
            let parts = placed(alloc, part, past)?;
            Ok(Text::Exp(finish_given(alloc, parts, past, stack)?))
        }
        Top::Given(parts) => Ok(Text::Exp(finish_given(alloc, parts, past, stack)?)),
        Top::HaveNeg {
            spine,
            at,
            frames,
            operand,
        } => {
            let formula = operand.formula;
            Ok(Text::Exp(finish_formula(alloc, spine, at, frames, formula, past, stack)?))
        }
        _ => Err(Stop::Unexpected),
    }
}

/// The next state, or the fault at this token.
#[inline(always)]
fn step_at(alloc: Global, parser: Parser, token: Token) -> Result<Parser, ReadFault>
    ensures { Steps token.start result (and_step (Some (view parser)) (piece_of token)) }
{
    match next(alloc, parser, token) {
        Ok(parser) => Ok(parser),
        Err(Stop::Unexpected) => Err(ReadFault::Unexpected(token.start)),
        Err(Stop::Memory) => Err(ReadFault::Memory),
    }
}

/// The text that ends here, or the fault.
fn end_at(alloc: Global, parser: Parser, at: u32) -> Result<Text, ReadFault>
    ensures { Ends (view parser) at result }
{
    let deep = parser.past.deep;
    match finished(alloc, parser) {
        Ok(text) => match deep {
            None => Ok(text),
            Some(place) => Err(ReadFault::TooDeep(place)),
        },
        Err(Stop::Unexpected) => Err(ReadFault::Unexpected(at)),
        Err(Stop::Memory) => Err(ReadFault::Memory),
    }
}

#[inline(always)]
fn is_refused(kind: Kind) -> bool
    ensures { result ≡ refuses (word_of kind) }
{
    matches!(
        kind,
        Kind::Question
            | Kind::Bar
            | Kind::Data
            | Kind::Hdata
            | Kind::Split
            | Kind::Mutual
            | Kind::Undefined
            | Kind::Opaque
            | Kind::Transparent
            | Kind::TransparentAll
    )
}

/// The first refused word or sign.
fn first_refused(tokens: &[Token]) -> Option<u32>
    ensures { result ≡ refused_place (pieces tokens.now) }
{
    for token in tokens {
        if is_refused(token.kind) {
            return Some(token.start);
        }
    }
    None
}

/// The text that the tokens spell, none of which is refused, begun in this state.
fn run(alloc: Global, top: Top, size: u32, tokens: &[Token]) -> Result<Text, ReadFault>
    requires { refused_place (pieces tokens.now) ≡ None }
    ensures { Outcome (to (top_of top) nothing []) size (pieces tokens.now) result }
{
    let mut parser = Parser {
        top,
        past: Past { end: 0, deep: None },
        stack: Vec::new(alloc),
    };
    for token in tokens {
        match step_at(alloc, parser, *token) {
            Ok(next) => parser = next,
            Err(fault) => return Err(fault),
        }
    }
    end_at(alloc, parser, size)
}

/// The text that the tokens spell, begun in this state.
fn whole_text(alloc: Global, top: Top, size: u32, tokens: &[Token]) -> Result<Text, ReadFault>
    ensures { Outcome (to (top_of top) nothing []) size (pieces tokens.now) result }
{
    match first_refused(tokens) {
        Some(place) => Err(ReadFault::RefusedForm(place)),
        None => run(alloc, top, size, tokens),
    }
}

/// The module that a text spells, which has these tokens.
///
/// `RefusedForm` is judged before `Unexpected`, and `Unexpected` before `TooDeep`.
pub fn read(alloc: Global, bytes: &[u8], tokens: &Tokens) -> Result<Module, ReadFault>
    requires { tokens_of bytes.now ≡ Ok tokens.now }
    ensures ok { IfOk result (λ m. IsRead IsModule (pieces tokens.now) (module_of m)) }
    ensures err { IfErr result (IsFault IsModule (length bytes.now) (pieces tokens.now)) }
{
    let size = bytes.len() as u32;
    let top = Top::Heading(Heading::Nothing);
    match whole_text(alloc, top, size, tokens.as_slice()) {
        Ok(Text::Module(module)) => Ok(module),
        Ok(Text::Exp(_exp)) => unreachable!("no module is read as an expression"),
        Err(fault) => Err(fault),
    }
}

/// The expression that a text spells, which has these tokens.
///
/// The faults are judged as those of `read`.
pub fn read_exp(alloc: Global, bytes: &[u8], tokens: &Tokens) -> Result<Exp, ReadFault>
    requires { tokens_of bytes.now ≡ Ok tokens.now }
    ensures ok { IfOk result (λ e. IsRead IsWholeExp (pieces tokens.now) (tree_of e)) }
    ensures err { IfErr result (IsFault IsWholeExp (length bytes.now) (pieces tokens.now)) }
{
    let size = bytes.len() as u32;
    let top = Top::Exp { room: LIMIT };
    match whole_text(alloc, top, size, tokens.as_slice()) {
        Ok(Text::Exp(exp)) => Ok(exp),
        Ok(Text::Module(_module)) => unreachable!("no expression is read as a module"),
        Err(fault) => Err(fault),
    }
}

//! The steps among definitions and imports.

ghost use Rattle.std.specs.Prelude.{◌≡◌, [], None};
ghost use Rattle.syntax.specs.View.{defs_of};
ghost use Rattle.productions.specs.Grammar.{skip as skip_to};
ghost use Rattle.productions.specs.Machine.{
  step as machine_step,
  step_def,
  step_item,
  AfterDef as AtDef,
  AfterImport as AtImport,
  BlockStart as AtBlock,
  FirstItem as AtFirstItem,
  WantBlock,
  WantImport,
  WantIn,
};
ghost use Rattle.parser_states.specs.View.{
  block_of,
  heading_of,
  items_of,
  on,
  stack_of,
  view,
  Gives,
};

use layout_lexer::{Kind, Span, Spans, Token};
use parser_expressions::close_block;
use parser_states::{
    Block, Frame, Heading, Items, Named, Names, Parser, Prefix, Stop, TelesSoFar, Top, Use, span,
    under, with_name,
};
use productions::Past;
use std::alloc::Global;
use syntax::{Defs, Module, Teles};

/// The room of depth 1, where the definitions of a module stand: 512 is the deepest.
pub const LIMIT: u32 = 512;

/// At the beginning of a module.
#[inline(never)]
pub fn heading(
    alloc: Global,
    heading: Heading,
    past: Past,
    stack: Vec<Frame>,
    token: Token,
) -> Result<Parser, Stop>
    ensures { Gives view result
        (on token (machine_step (heading_of heading) past (stack_of stack.items))) }
{
    match heading {
        Heading::Nothing => match token.kind {
            Kind::Module => Ok(headed(Heading::Word, past, stack, token)),
            _ => Err(Stop::Unexpected),
        },
        Heading::Word => match token.kind {
            Kind::Identifier => Ok(headed(Heading::Name(span(token)), past, stack, token)),
            _ => Err(Stop::Unexpected),
        },
        Heading::Name(name) => match token.kind {
            Kind::Where => Ok(headed(Heading::Where(name), past, stack, token)),
            _ => Err(Stop::Unexpected),
        },
        Heading::Where(name) => match token.kind {
            Kind::Open => Ok(headed(Heading::Open(name), past, stack, token)),
            _ => Err(Stop::Unexpected),
        },
        Heading::Open(name) => first_item(alloc, name, past, stack, token),
    }
}

/// A heading with one token more.
fn headed(heading: Heading, past: Past, stack: Vec<Frame>, token: Token) -> Parser
    ensures { view result
        ≡ record {
          top = heading_of heading;
          past = skip_to token.end past;
          stack = stack_of stack.items;
        } }
{
    Parser {
        top: Top::Heading(heading),
        past: past.skip(token),
        stack,
    }
}

/// Among the items of a module.
#[inline(never)]
pub fn items(
    alloc: Global,
    items: Items,
    past: Past,
    stack: Vec<Frame>,
    token: Token,
) -> Result<Parser, Stop>
    ensures { Gives view result
        (on token (machine_step (items_of items) past (stack_of stack.items))) }
{
    match items {
        Items::Import(name, imports) => import(name, imports, past, stack, token),
        Items::AfterImport(name, imports) => after_import(alloc, name, imports, past, stack, token),
        Items::Next(name, imports) => item(alloc, name, imports, past, stack, token),
    }
}

/// In a block.
#[inline(never)]
pub fn block(
    alloc: Global,
    block: Block,
    past: Past,
    stack: Vec<Frame>,
    token: Token,
) -> Result<Parser, Stop>
    ensures { Gives view result
        (on token (machine_step (block_of block) past (stack_of stack.items))) }
{
    match block {
        Block::Word { room } => open_block(room, past, stack, token),
        Block::Open { room } => first_def(alloc, room, past, stack, token),
        Block::Next { fall, room, defs } => def(alloc, fall, room, defs, past, stack, token),
        Block::AfterDef { fall, room, defs } => {
            after_def(alloc, fall, room, defs, past, stack, token)
        }
        Block::LetClose { room, start, defs } => let_body(room, start, defs, past, stack, token),
    }
}

/// The mark before a block.
fn open_block(room: u32, past: Past, stack: Vec<Frame>, token: Token) -> Result<Parser, Stop>
    ensures { Gives view result
        (on token (machine_step (WantBlock room) past (stack_of stack.items))) }
{
    match token.kind {
        Kind::Open => Ok(Parser {
            top: Top::Block(Block::Open { room }),
            past: past.skip(token),
            stack,
        }),
        _ => Err(Stop::Unexpected),
    }
}

/// `in`, after a block.
fn let_body(
    room: u32,
    start: u32,
    defs: Defs,
    past: Past,
    stack: Vec<Frame>,
    token: Token,
) -> Result<Parser, Stop>
    ensures { Gives view result
        (on token (machine_step (WantIn room start (defs_of defs)) past
        (stack_of stack.items))) }
{
    match token.kind {
        Kind::In => {
            let stack = under(stack, Frame::Prefix(Prefix::LetBody { room, start, defs }))?;
            Ok(Parser {
                top: Top::Exp {
                    room: room.saturating_sub(1),
                },
                past: past.skip(token),
                stack,
            })
        }
        _ => Err(Stop::Unexpected),
    }
}

/// The name of an import.
fn import(
    name: Span,
    imports: Spans,
    past: Past,
    stack: Vec<Frame>,
    token: Token,
) -> Result<Parser, Stop>
    ensures { Gives view result
        (on token (machine_step (WantImport name imports) past (stack_of stack.items))) }
{
    match token.kind {
        Kind::Identifier => {
            let imports = with_name(imports, token)?;
            Ok(Parser {
                top: Top::Items(Items::AfterImport(name, imports)),
                past: past.skip(token),
                stack,
            })
        }
        _ => Err(Stop::Unexpected),
    }
}

/// The name of a definition.
fn def(
    alloc: Global,
    fall: u32,
    room: u32,
    defs: Defs,
    past: Past,
    stack: Vec<Frame>,
    token: Token,
) -> Result<Parser, Stop>
    ensures { Gives view result
        (on token (step_def fall room (defs_of defs) past (stack_of stack.items))) }
{
    match token.kind {
        Kind::Identifier => {
            let named = Named {
                fall,
                defs,
                name: span(token),
            };
            let teles = TelesSoFar {
                purpose: Use::Def(Box::new(alloc, named)?),
                whole: room,
                room,
                teles: Teles::new(alloc),
            };
            Ok(Parser {
                top: Top::Names(Names::AfterTele(teles)),
                past: past.begin(room, token),
                stack,
            })
        }
        _ => Err(Stop::Unexpected),
    }
}

/// An import, or the first definition.
fn item(
    alloc: Global,
    name: Span,
    imports: Spans,
    past: Past,
    stack: Vec<Frame>,
    token: Token,
) -> Result<Parser, Stop>
    ensures { Gives view result
        (on token (step_item name imports past (stack_of stack.items))) }
{
    match token.kind {
        Kind::Import => Ok(Parser {
            top: Top::Items(Items::Import(name, imports)),
            past: past.skip(token),
            stack,
        }),
        _ => def(
            alloc,
            0,
            LIMIT,
            Defs::new(alloc),
            past,
            under(stack, Frame::Module(name, imports))?,
            token,
        ),
    }
}

/// The first item of a module, or its end.
fn first_item(
    alloc: Global,
    name: Span,
    past: Past,
    stack: Vec<Frame>,
    token: Token,
) -> Result<Parser, Stop>
    ensures { Gives view result
        (on token (machine_step (AtFirstItem name) past (stack_of stack.items))) }
{
    match token.kind {
        Kind::Close => {
            let module = Module {
                name,
                imports: Spans::new(alloc),
                defs: Defs::new(alloc),
            };
            Ok(Parser {
                top: Top::Done(module),
                past: past.skip(token),
                stack,
            })
        }
        _ => item(alloc, name, Spans::new(alloc), past, stack, token),
    }
}

/// After an import.
fn after_import(
    alloc: Global,
    name: Span,
    imports: Spans,
    past: Past,
    stack: Vec<Frame>,
    token: Token,
) -> Result<Parser, Stop>
    ensures { Gives view result
        (on token (machine_step (AtImport name imports) past (stack_of stack.items))) }
{
    match token.kind {
        Kind::Next => Ok(Parser {
            top: Top::Items(Items::Next(name, imports)),
            past: past.skip(token),
            stack,
        }),
        Kind::Close => {
            let module = Module {
                name,
                imports,
                defs: Defs::new(alloc),
            };
            Ok(Parser {
                top: Top::Done(module),
                past: past.skip(token),
                stack,
            })
        }
        _ => Err(Stop::Unexpected),
    }
}

/// After a definition with local ones.
fn after_def(
    alloc: Global,
    fall: u32,
    room: u32,
    defs: Defs,
    past: Past,
    stack: Vec<Frame>,
    token: Token,
) -> Result<Parser, Stop>
    ensures { Gives view result
        (on token (machine_step (AtDef fall room (defs_of defs)) past (stack_of stack.items))) }
{
    match token.kind {
        Kind::Next => {
            let room = room.saturating_sub(fall);
            Ok(Parser {
                top: Top::Block(Block::Next { fall, room, defs }),
                past: past.skip(token),
                stack,
            })
        }
        Kind::Close => close_block(alloc, defs, past, stack, token),
        _ => Err(Stop::Unexpected),
    }
}

/// The first definition of a block, or its end.
fn first_def(
    alloc: Global,
    room: u32,
    past: Past,
    stack: Vec<Frame>,
    token: Token,
) -> Result<Parser, Stop>
    ensures { Gives view result
        (on token (machine_step (AtBlock room) past (stack_of stack.items))) }
{
    match token.kind {
        Kind::Close => close_block(alloc, Defs::new(alloc), past, stack, token),
        _ => def(alloc, 1, room, Defs::new(alloc), past, stack, token),
    }
}

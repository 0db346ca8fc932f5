//! The blocks that are open at a place of a text.

ghost use Rattle.std.specs.Prelude.{◌≡◌, ◌∷◌, [], ◌<◌, length, OnOk};
ghost use Rattle.std.specs.List.{list_any};
ghost use Rattle.layout_lexer.specs.Layouts.{top, BlockEnded};

use std::alloc::{AllocError, Global};
use std::marker::Model;

/// A block: the column of its items, and whether `let` opened it.
#[derive(Clone, Copy, Debug, PartialEq, Eq)]
pub(crate) struct Block {
    pub(crate) column: u32,
    pub(crate) by_let: bool,
}

/// The open blocks. Contracts see the list of them, the innermost first.
#[derive(Drop)]
pub(crate) struct Blocks {
    items: Vec<Block>,
    /// How many of them `let` opened.
    lets: usize,
}

impl Model for Blocks {
    ghost use Rattle.std.specs.Prelude.{◌≡◌, List, reverse, count_by};
    ghost use Rattle.layout_lexer.specs.declared.blocks.Block.{Block};

    ghost Value = { List Block };

    ghost view = { λ s. reverse s.items.items };

    ghost invariant = { λ s. s.lets ≡ count_by (λ b. b.by_let) (reverse s.items.items) };
}

impl Blocks {
    /// No blocks.
    pub(crate) fn new(alloc: Global) -> Blocks
        ensures { result ≡ [] }
    {
        Blocks {
            items: Vec::new(alloc),
            lets: 0,
        }
    }

    /// The column of the innermost block, 0 where there is none.
    pub(crate) fn top(&self) -> u32
        ensures { result ≡ top self.now }
    {
        match self.items.last() {
            Some(block) => block.column,
            None => 0,
        }
    }

    /// Whether `let` opened one of them.
    pub(crate) fn has_let(&self) -> bool
        ensures { result ≡ list_any (λ b. b.by_let) self.now }
    {
        self.lets > 0
    }

    /// Opens a block within the others.
    pub(crate) fn push(&mut self, block: Block) -> Result<(), AllocError>
        ensures { OnOk result (self.new ≡ block ∷ self.old) }
    {
        self.items.push(block)?;
        if block.by_let {
            self.lets += 1;
        }
        Ok(())
    }

    /// Ends the innermost block, if any.
    pub(crate) fn pop(&mut self) -> Option<Block>
        ensures { BlockEnded self.old self.new result }
    {
        let block = self.items.pop()?;
        if block.by_let {
            self.lets -= 1;
        }
        Some(block)
    }
}

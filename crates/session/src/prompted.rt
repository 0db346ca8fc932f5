//! Definitions that lines are asked of.

ghost use Rattle.std.specs.Prelude.{◌≡◌};
ghost use Rattle.resolver.specs.Resolved.{AreEarlier, defs_in};
ghost use Rattle.session.specs.Loaded.{texts_of};
ghost use Rattle.session.specs.Places.{names};
ghost use Rattle.session.specs.Scopes.{numbered_names};

use crate::program::Program;
use book::{Book, NodeId};
use resolver::Scope;

/// Rows that lines may leave in a book, besides as many as its definitions have.
const SPARE_ROWS: u64 = 65_536;

/// A book in which definitions are typed.
#[derive(Drop)]
pub(crate) struct TypedBook {
    pub(crate) book: Book,
    /// Of each definition its type and its body, in the order of their numbers.
    pub(crate) nodes: Vec<NodeId>,
    /// The rows at which lines have left enough that the definitions are typed anew.
    pub(crate) most_rows: u64,
}

impl TypedBook {
    /// Puts together a book with the nodes of definitions, before any line.
    pub(crate) fn new(book: Book, nodes: Vec<NodeId>) -> TypedBook {
        let rows = book.mark().rows;
        let most_rows = rows.saturating_mul(2).saturating_add(SPARE_ROWS);
        TypedBook {
            book,
            nodes,
            most_rows,
        }
    }

    /// Whether lines have left so many rows that the definitions are typed anew.
    pub(crate) fn is_full(&self) -> bool {
        self.book.mark().rows > self.most_rows
    }
}

/// What answers lines: the definitions of a program, which are typed.
#[derive(Drop)]
pub(crate) struct Prompt<'a> {
    pub(crate) program: &'a Program,
    /// The names of all definitions.
    pub(crate) scope: Scope,
    pub(crate) typed: TypedBook,
    /// The budget of each question, in moves.
    pub(crate) turns: u64,
    ghost names: { scope.names
        ≡ numbered_names (names (texts_of program.now)) (defs_in program.now.codes) },
    ghost earlier: { AreEarlier scope.next scope.names },
}

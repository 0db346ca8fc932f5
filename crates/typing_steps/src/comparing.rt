//! Terms that were inferred, against types.

ghost use Rattle.std.specs.Prelude.{IfOk};
ghost use Rattle.book.specs.Shown.{Extends};
ghost use Rattle.typing_steps.specs.Steps.{Finishes, MayStep};
ghost use Rattle.typing_tasks.specs.declared.tasks.Task.TheVariants.{Comparing as ComparingOf};
ghost use Rattle.typing_tasks.specs.declared.tasks.Comparing.TheVariants.{At, IsSmall, Small};

use crate::state::CheckState;
use book::Book;
use rows::Maker;
use std::alloc::AllocError;
use trees::Op;
use typed_nodes::{TypeAt, Typed, small_type};
use typing_tasks::Next;

impl CheckState {
    /// The term that was inferred last has this type.
    pub fn at_type(&mut self, book: &mut Book, ty: TypeAt) -> Result<Next, AllocError>
        requires { MayStep book.old self.old (ComparingOf (At ty)) }
        ensures extends { Extends book.old book.new }
        ensures done { IfOk result (Finishes book.old book.new self.old self.new
            (ComparingOf (At ty))) }
    {
        let head = self.take_head();
        if !head.ty.is_same(book, ty)? {
            return Ok(Next::NotDirect);
        }
        self.found(head.term)?;
        Ok(Next::Moved)
    }

    /// The term that was inferred last is of the universe: a type.
    pub fn as_small_type(&mut self, book: &mut Book) -> Result<Next, AllocError>
        requires { MayStep book.old self.old (ComparingOf IsSmall) }
        ensures extends { Extends book.old book.new }
        ensures done { IfOk result (Finishes book.old book.new self.old self.new
            (ComparingOf IsSmall)) }
    {
        let head = self.take_head();
        let universe = book.make(Op::U, &[])?;
        if !head.ty.is_row(book, universe)? {
            return Ok(Next::NotDirect);
        }
        let node = small_type(book, head.term)?;
        self.found(node)?;
        Ok(Next::Moved)
    }

    /// A term of the universe that was found last, as one that was inferred.
    pub fn small(&mut self, book: &mut Book) -> Result<Next, AllocError>
        requires { MayStep book.old self.old (ComparingOf Small) }
        ensures extends { Extends book.old book.new }
        ensures done { IfOk result (Finishes book.old book.new self.old self.new
            (ComparingOf Small)) }
    {
        let term = self.take_node();
        let ty = self.universe(book)?;
        self.inferred(Typed { term, ty })?;
        Ok(Next::Moved)
    }
}

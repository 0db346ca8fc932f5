//! What is inferred at once: variables, defined names, the type of numbers, and zero.

ghost use Rattle.std.specs.Prelude.{IfOk, Some};
ghost use Rattle.std.specs.Option.{option_map};
ghost use Rattle.trees.specs.Trees.{Var};
ghost use Rattle.translation.specs.Terms.{nat, universe, zero as zero_tree};
ghost use Rattle.codes.specs.Codes.{body_of};
ghost use Rattle.direct.specs.Known.{declared_type, scope_of, type_of_variable};
ghost use Rattle.book.specs.Shown.{Extends};
ghost use Rattle.typing_tasks.specs.States.{State, inferring};
ghost use Rattle.typing_steps.specs.Steps.{IsState, Settles};

use crate::state::CheckState;
use book::Book;
use std::alloc::AllocError;
use typed_nodes::{TypeAt, Typed, numbers_type, zero};
use typing_tasks::Next;

impl CheckState {
    /// A variable, with its type.
    pub fn bound(&mut self, book: &mut Book, index: u32) -> Result<Next, AllocError>
        requires { (S : State) × IsState book.old self.old S }
        ensures extends { Extends book.old book.new }
        ensures infers { IfOk result (λ next. (S : State) → IsState book.old self.old S →
            Settles book.new self.new next
            (option_map (λ A. inferring (Var index) A S) (type_of_variable S.known index))) }
    {
        match self.places.variable(book, index)? {
            Some(head) => {
                self.inferred(head)?;
                Ok(Next::Moved)
            }
            None => Ok(Next::NotDirect),
        }
    }

    /// A defined name, which is its body weakened.
    pub fn defined(&mut self, book: &mut Book, number: u32) -> Result<Next, AllocError>
        requires { (S : State) × IsState book.old self.old S }
        ensures extends { Extends book.old book.new }
        ensures infers { IfOk result (λ next. (S : State) → IsState book.old self.old S →
            Settles book.new self.new next
            (option_map (λ A. inferring (body_of (scope_of S.known) number) A S)
            (declared_type S.known number))) }
    {
        let Some(def) = self.scope.find(number) else {
            return Ok(Next::NotDirect);
        };
        let term = self.places.term_from(book, def.root.body, def.depth)?;
        let sub = self.places.weakening(book, def.depth)?;
        let ty = TypeAt {
            ty: def.root.ty,
            sub,
        };
        self.inferred(Typed { term, ty })?;
        Ok(Next::Moved)
    }

    /// The type of numbers, as a term of the universe.
    pub fn numbers_inferred(&mut self, book: &mut Book) -> Result<Next, AllocError>
        requires { (S : State) × IsState book.old self.old S }
        ensures extends { Extends book.old book.new }
        ensures infers { IfOk result (λ next. (S : State) → IsState book.old self.old S →
            Settles book.new self.new next (Some (inferring nat universe S))) }
    {
        let (term, _) = numbers_type(book, self.ctx())?;
        let ty = self.universe(book)?;
        self.inferred(Typed { term, ty })?;
        Ok(Next::Moved)
    }

    /// Zero, as a number.
    pub fn zero_inferred(&mut self, book: &mut Book) -> Result<Next, AllocError>
        requires { (S : State) × IsState book.old self.old S }
        ensures extends { Extends book.old book.new }
        ensures infers { IfOk result (λ next. (S : State) → IsState book.old self.old S →
            Settles book.new self.new next (Some (inferring zero_tree nat S))) }
    {
        let term = zero(book, self.ctx())?;
        let ty = self.numbers(book)?;
        self.inferred(Typed { term, ty })?;
        Ok(Next::Moved)
    }
}

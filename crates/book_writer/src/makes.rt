//! Rows of trees, substitutions and contexts in a file. `first then second` is written out: a file
//! has shifts and pushed trees alone.

ghost use Rattle.std.specs.Prelude.{◌≡◌, ◌+◌, IfOk, IsSome, Some, length};
ghost use Rattle.trees.specs.Trees.{Subst, without, shift_by};
ghost use Rattle.trees.specs.Things.{Kept, ASubst};
ghost use Rattle.rows.specs.Views.{IsSubst};
ghost use Rattle.trees.specs.Judgements.{Judgement};
ghost use Rattle.derivation.specs.Right.{RightNode, thing_made};
ghost use Rattle.book_writer.specs.Chains.{IsPlain};
ghost use Rattle.book_writer.specs.Held.{names_of, row_of};
ghost use Rattle.book_writer.specs.Means.{meanings_in, lines_mean, lines_conclude};
ghost use Rattle.book_writer.specs.Means.{ConclusionsKept};
ghost use Rattle.book_writer.specs.Pushed.{ArePushed, IsSubLine};

use crate::lines::{Lines, MOST_NAMES, RowHead};
use interned::Words;
use rows::{Maker, Rows};
use std::alloc::AllocError;
use theory::{Op, RuleName};

/// The greatest shift of a row.
const GREATEST_SHIFT: u64 = 1 << 62;

/// The trees that a substitution pushes, the last one first, and its shift.
#[derive(Drop)]
struct Pushed {
    trees: Vec<u64>,
    shift: u64,
}

/// A row of a substitution.
#[derive(Clone, Copy, Debug)]
enum SubLine {
    Shift(u64),
    /// A substitution and the tree that is pushed on it.
    Push(u64, u64),
}

impl Lines {
    /// Adds a row of a tree, a substitution or a context.
    fn add_thing(&mut self, head: RowHead, names: &[u64]) -> Result<u64, AllocError>
        requires count { length names.now ≡ names_of head }
        requires plain { IsPlain (row_of head names.now) }
        requires means { IsSome (thing_made (lines_mean self.old) (row_of head names.now)) }
        ensures kept { Kept (lines_mean self.old) (lines_mean self.new) }
        ensures meaning { IfOk result (λ at. lines_mean self.new at ≡
            thing_made (lines_mean self.old) (row_of head names.now)) }
    {
        let _ = &self.alloc;
        Ok(self.add(head, names)?)
    }

    /// Adds a node, an instance of its rule.
    pub(crate) fn add_node(
        &mut self,
        rule: RuleName,
        parts: &[u64],
        premises: &[u64],
    ) -> Result<u64, AllocError>
        requires { (J : Judgement) ×
            RightNode (meanings_in self.old) rule parts.now premises.now J }
        ensures kept { Kept (lines_mean self.old) (lines_mean self.new) }
        ensures conclusions { ConclusionsKept (lines_conclude self.old) (lines_conclude self.new) }
        ensures concludes { (J : Judgement) →
            RightNode (meanings_in self.old) rule parts.now premises.now J →
            IfOk result (λ at. lines_conclude self.new at ≡ Some J) }
    {
        let _ = &self.alloc;
        let mut names: Words<MOST_NAMES> = Words::new();
        names.append(parts);
        names.append(premises);
        Ok(self.add(RowHead::Node(rule), names.as_slice())?)
    }

    /// The row of a substitution.
    fn sub_line(&self, at: u64) -> SubLine
        requires { IsSubst (lines_mean self.now at) }
        ensures { (d : Subst) → lines_mean self.now at ≡ Some (ASubst d) →
            IsSubLine self.now at d result }
    {
        let _ = &self.alloc;
        let (head, names) = self.line(at);
        match head {
            RowHead::Shift(by) => SubLine::Shift(by),
            RowHead::Push => SubLine::Push(names[0], names[1]),
            _ => unreachable!(),
        }
    }

    /// The trees that a substitution pushes, and its shift.
    fn pushed(&self, sub: u64) -> Result<Pushed, AllocError>
        requires { IsSubst (lines_mean self.now sub) }
        ensures { (d : Subst) → lines_mean self.now sub ≡ Some (ASubst d) →
            IfOk result (λ p. ArePushed (lines_mean self.now) p.trees.items p.shift d) }
    {
        let mut trees = Vec::new(self.alloc);
        let mut at = sub;
        loop {
            match self.sub_line(at) {
                SubLine::Shift(shift) => return Ok(Pushed { trees, shift }),
                SubLine::Push(sub, tree) => {
                    trees.push(tree)?;
                    at = sub;
                }
            }
        }
    }

    /// A substitution after so many others: without the first trees, and past them the shift grows.
    fn without(&mut self, sub: u64, count: u64) -> Result<u64, AllocError>
        requires { IsSubst (lines_mean self.old sub) }
        ensures kept { Kept (lines_mean self.old) (lines_mean self.new) }
        ensures meaning { (d : Subst) → lines_mean self.old sub ≡ Some (ASubst d) →
            IfOk result (λ at. lines_mean self.new at
            ≡ Some (ASubst (without count d.pushed d.shift))) }
    {
        let mut at = sub;
        let mut left = count;
        while 0 < left {
            match self.sub_line(at) {
                SubLine::Push(sub, _) => {
                    at = sub;
                    left -= 1;
                }
                SubLine::Shift(shift) => return Ok(self.longer_shift(shift, left)?),
            }
        }
        Ok(at)
    }

    /// The sum of two shifts.
    pub(crate) fn longer_shift(&mut self, shift: u64, more: u64) -> Result<u64, AllocError>
        ensures kept { Kept (lines_mean self.old) (lines_mean self.new) }
        ensures meaning { IfOk result (λ at. lines_mean self.new at
            ≡ Some (ASubst (shift_by (shift + more)))) }
    {
        match shift.checked_add(more) {
            Some(by) if by <= GREATEST_SHIFT => Ok(self.shift(by)?),
            _ => Err(AllocError),
        }
    }
}

impl Rows for Lines {
    ghost means = { lines_mean };
}

impl Maker for Lines {
    ghost spare = { λ s. 0 };

    fn var(&mut self, index: u32) -> Result<u64, AllocError> {
        Ok(self.add_thing(RowHead::Var(index), &[])?)
    }

    fn make(&mut self, op: Op, kids: &[u64]) -> Result<u64, AllocError> {
        Ok(self.add_thing(RowHead::Make(op), kids)?)
    }

    fn instance(&mut self, term: u64, sub: u64) -> Result<u64, AllocError> {
        Ok(self.add_thing(RowHead::Instance, &[term, sub])?)
    }

    fn shift(&mut self, by: u64) -> Result<u64, AllocError> {
        Ok(self.add_thing(RowHead::Shift(by), &[])?)
    }

    fn push(&mut self, sub: u64, term: u64) -> Result<u64, AllocError> {
        Ok(self.add_thing(RowHead::Push, &[sub, term])?)
    }

    fn then(&mut self, first: u64, second: u64) -> Result<u64, AllocError> {
        let Pushed { trees, shift } = self.pushed(first)?;
        let mut sub = self.without(second, shift)?;
        let mut left = trees.len();
        while 0 < left {
            left -= 1;
            let under = self.instance(trees[left], second)?;
            sub = self.push(sub, under)?;
        }
        Ok(sub)
    }

    fn ctx_nil(&mut self) -> Result<u64, AllocError> {
        Ok(self.add_thing(RowHead::CtxNil, &[])?)
    }

    fn ctx_var(&mut self, ctx: u64, ty: u64) -> Result<u64, AllocError> {
        Ok(self.add_thing(RowHead::CtxVar, &[ctx, ty])?)
    }

    fn ctx_name(&mut self, ctx: u64) -> Result<u64, AllocError> {
        Ok(self.add_thing(RowHead::CtxName, &[ctx])?)
    }

    fn ctx_face(&mut self, ctx: u64, face: u64) -> Result<u64, AllocError> {
        Ok(self.add_thing(RowHead::CtxFace, &[ctx, face])?)
    }
}

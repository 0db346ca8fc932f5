//! Side conditions of rules, answered one after another.

ghost use Rattle.std.specs.Prelude.{◌≡◌};
ghost use Rattle.side_conditions.specs.Asked.{ctx_in};

use crate::asked::Asked;
use conditions::SideTest;
use rows::{CtxId, Reader};
use std::alloc::{AllocError, Global};

/// How many contexts are remembered at most.
const MOST_CONTEXTS: usize = 16;

/// Answers side conditions, and keeps what it read of the last contexts that were asked about, and
/// of trees over them.
#[derive(Drop)]
pub struct SideConditions {
    asked: Vec<Asked>,
}

impl SideConditions {
    ghost use Rattle.std.specs.Prelude.{◌≡◌, ◌↔◌, ◌<◌, ℕ, length, slice_get, Some};
    ghost use Rattle.std.specs.Prelude.{IfOk, IfSome, IsSome, IsTrue};
    ghost use Rattle.trees.specs.Things.{Meanings};
    ghost use Rattle.conditions.specs.SideTests.{asked};
    ghost use Rattle.conditions.specs.Sides.{SideHolds};
    ghost use Rattle.side_conditions.specs.declared.asked.Asked.{Asked};
    ghost use Rattle.side_conditions.specs.Asked.{ctx_in};
    ghost use Rattle.side_conditions.specs.Kept.{KeepsBelow, IsAsked, StaysBelow};

    /// Nothing was asked.
    pub fn new(alloc: Global) -> SideConditions
        ensures { (mark : ℕ) (f : Meanings) → KeepsBelow mark f result }
    {
        SideConditions {
            asked: Vec::new(alloc),
        }
    }

    /// Whether the side condition holds that a test asks for. What is read of the context of the
    /// test, and of trees over it, is kept for the next ones, as far as rows are not to be cut off:
    /// those before `mark` are not.
    pub fn decide<R: Reader>(
        &mut self,
        alloc: Global,
        rows: &R,
        test: SideTest,
        mark: u64,
    ) -> Result<bool, AllocError>
        requires test { IsSome (asked (R.means rows.now) test) }
        requires keeps { KeepsBelow mark (R.means rows.now) self.old }
        ensures keeps { KeepsBelow mark (R.means rows.now) self.new }
        ensures holds { let condition = asked (R.means rows.now) test in
            IfOk result (λ holds. IfSome condition (λ c. IsTrue holds ↔ SideHolds c)) }
    {
        let ctx = context_of(test);
        if let Some(at) = self.place_of(ctx) {
            return self.decide_at(rows, at, test, mark);
        }
        let mut asked = Asked::read(alloc, rows, ctx)?;
        let holds = asked.decide(rows, test, mark)?;
        if ctx.0 < mark {
            self.remember(asked)?;
        }
        Ok(holds)
    }

    /// Where what was read of a context is kept, if it is.
    fn place_of(&self, ctx: CtxId) -> Option<usize>
        ensures { IfSome result (λ at. (a : Asked) × (slice_get self.now.asked.items at ≡ Some a)
            × (a.faces.ctx ≡ ctx)) }
    {
        for at in 0..self.asked.len() {
            if self.asked[at].ctx() == ctx {
                return Some(at);
            }
        }
        None
    }

    /// Answers a test by what is kept at a place. Where memory fails, nothing is kept any more.
    fn decide_at<R: Reader>(
        &mut self,
        rows: &R,
        at: usize,
        test: SideTest,
        mark: u64,
    ) -> Result<bool, AllocError>
        requires place { (a : Asked) × (slice_get self.old.asked.items at ≡ Some a)
            × (a.faces.ctx.0 ≡ ctx_in test) }
        requires test { IsSome (asked (R.means rows.now) test) }
        requires keeps { KeepsBelow mark (R.means rows.now) self.old }
        ensures keeps { KeepsBelow mark (R.means rows.now) self.new }
        ensures holds { let condition = asked (R.means rows.now) test in
            IfOk result (λ holds. IfSome condition (λ c. IsTrue holds ↔ SideHolds c)) }
    {
        match self.asked[at].decide(rows, test, mark) {
            Ok(holds) => Ok(holds),
            Err(error) => {
                self.asked.truncate(0);
                Err(error)
            }
        }
    }

    /// Keeps what was read of a context.
    fn remember(&mut self, asked: Asked) -> Result<(), AllocError>
        ensures { (mark : ℕ) (f : Meanings) → KeepsBelow mark f self.old → IsAsked f asked
            → StaysBelow mark asked → KeepsBelow mark f self.new }
    {
        self.make_room();
        self.asked.push(asked)?;
        Ok(())
    }

    /// Forgets all contexts where many are kept.
    fn make_room(&mut self)
        ensures { (mark : ℕ) (f : Meanings) → KeepsBelow mark f self.old
            → KeepsBelow mark f self.new }
    {
        if self.asked.len() >= MOST_CONTEXTS {
            self.asked.truncate(0);
        }
    }
}

/// The row of the context that a test is about.
fn context_of(test: SideTest) -> CtxId
    ensures { result.0 ≡ ctx_in test }
{
    match test {
        SideTest::IsFormula(ctx, _) | SideTest::IsFace(ctx, _) => CtxId(ctx),
        SideTest::Holds(ctx, _) | SideTest::Alike(ctx, _, _) => CtxId(ctx),
    }
}

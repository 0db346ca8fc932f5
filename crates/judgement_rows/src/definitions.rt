//! Definitions, and the judgements that they state.

ghost use Rattle.std.specs.Prelude.{◌≡◌, ℕ, [], map, take, Some, IfOk, OnOk};
ghost use Rattle.trees.specs.Things.{ATree, Kept};
ghost use Rattle.trees.specs.Claimed.{claimed};
ghost use Rattle.translation.specs.Scopes.{Scope};
ghost use Rattle.translation.specs.Translated.{judgements_of};
ghost use Rattle.codes.specs.Codes.{body_of, definitions};
ghost use Rattle.rows.specs.Views.{IsTree};
ghost use Rattle.form_rows.specs.Meant.{AreTrees, Is};
ghost use Rattle.judgement_rows.specs.After.{After, term_after};
ghost use Rattle.judgement_rows.specs.Steps.{Closed, Fits, FitsSome, state};
ghost use Rattle.judgement_rows.specs.Words.{Defines, block_scope, def_scope};

use crate::bodies::{Bodies, Body};
use crate::places::Place;
use crate::terms::Spelling;
use codes::{Code, CodeDef};
use form_rows::{lifted, nested};
use numbered_scope::Numbered;
use rows::Maker;
use std::alloc::{AllocError, Global};
use trees::{Claim, Op};

impl Spelling {
    /// The body of a definition, weakened to the place. One that is not in scope is the universe.
    pub(crate) fn defined<M: Maker>(
        &self,
        maker: &mut M,
        place: Place,
        number: u32,
    ) -> Result<u64, AllocError>
        requires { FitsSome (state (M.means maker.old) self.now) place }
        ensures kept { Kept (M.means maker.old) (M.means maker.new) }
        ensures body { IfOk result (λ r. (H : Scope ℕ) →
            Fits (state (M.means maker.old) self.now) place H
            → Is (M.means maker.new) r (body_of H number)) }
    {
        match self.bodies.find(number) {
            Some(body) => {
                let by = place.depth.saturating_sub(body.depth);
                Ok(lifted(maker, body.row, by)?)
            }
            None => Ok(maker.make(Op::U, &[])?),
        }
    }

    /// What came into scope after the mark goes out of it.
    pub(crate) fn leave(&mut self, mark: usize)
        ensures bodies { self.new.bodies.items.items ≡ take mark self.old.bodies.items.items }
        ensures claims { self.new.claims.items ≡ self.old.claims.items }
    {
        self.bodies.cut(mark);
    }

    /// Definitions, which stay in scope.
    #[cycle(spell)]
    pub(crate) fn block<M: Maker>(
        &mut self,
        maker: &mut M,
        place: Place,
        defs: &[CodeDef],
    ) -> Result<(), AllocError>
        requires { FitsSome (state (M.means maker.old) self.old) place }
        ensures kept { Kept (M.means maker.old) (M.means maker.new) }
        ensures defines { OnOk result (Defines (state (M.means maker.old) self.old)
            (state (M.means maker.new) self.new) place (block_scope defs.now)) }
    {
        for def in defs {
            self.definition(maker, place, def)?;
        }
        Ok(())
    }

    /// A definition, whose judgements are claimed after those of the ones that it holds.
    #[cycle(spell)]
    fn definition<M: Maker>(
        &mut self,
        maker: &mut M,
        place: Place,
        def: &CodeDef,
    ) -> Result<(), AllocError>
        requires { FitsSome (state (M.means maker.old) self.old) place }
        ensures kept { Kept (M.means maker.old) (M.means maker.new) }
        ensures defines { OnOk result (Defines (state (M.means maker.old) self.old)
            (state (M.means maker.new) self.new) place (def_scope def.now)) }
    {
        let under = self.under(maker, place, &def.binders)?;
        let ty = self.code(maker, under.place, &def.ty)?;
        let body = self.code(maker, under.place, &def.body)?;
        self.define(maker, place, def.number, &under.types, ty, body)
    }

    /// Closes a type and a body over variables of these types, claims both, and keeps the body.
    fn define<M: Maker>(
        &mut self,
        maker: &mut M,
        place: Place,
        number: u32,
        types: &[u64],
        ty: u64,
        body: u64,
    ) -> Result<(), AllocError>
        requires types { AreTrees (M.means maker.old) types.now }
        requires ty { IsTree (M.means maker.old ty) }
        requires body { IsTree (M.means maker.old body) }
        ensures kept { Kept (M.means maker.old) (M.means maker.new) }
        ensures defines { OnOk result (Closed (state (M.means maker.old) self.old)
            (state (M.means maker.new) self.new) place number types.now ty body) }
    {
        let ty = nested(maker, Op::Pi, types, ty)?;
        let row = nested(maker, Op::Lam, types, body)?;
        self.claims.push(Claim::Ty(place.context, ty))?;
        self.claims.push(Claim::Tm(place.context, row, ty))?;
        self.bodies.push(Numbered {
            number,
            value: Body {
                row,
                depth: place.depth,
            },
        })?;
        Ok(())
    }
}

/// Definitions from the start: what is known after them, and the place there.
fn spelt<M: Maker>(
    alloc: Global,
    maker: &mut M,
    defs: &[CodeDef],
) -> Result<(Spelling, Place), AllocError>
    ensures kept { Kept (M.means maker.old) (M.means maker.new) }
    ensures after { IfOk result (λ r. After (state (M.means maker.new) r.0) r.1 defs.now) }
{
    let context = maker.ctx_nil()?;
    let place = Place { context, depth: 0 };
    let mut spelling = Spelling {
        alloc,
        bodies: Bodies::new(alloc),
        claims: Vec::new(alloc),
    };
    spelling.block(maker, place, defs)?;
    Ok((spelling, place))
}

/// The claims of the judgements of definitions, in order: for each its type and then its body,
/// those of local ones before those of what holds them.
pub fn claims_of<M: Maker>(
    alloc: Global,
    maker: &mut M,
    defs: &[CodeDef],
) -> Result<Vec<Claim>, AllocError>
    ensures kept { Kept (M.means maker.old) (M.means maker.new) }
    ensures claims { IfOk result (λ cs. map (claimed (M.means maker.new)) cs.items
        ≡ map Some (judgements_of (definitions defs.now []).stated)) }
{
    let (spelling, _place) = spelt(alloc, maker, defs)?;
    Ok(spelling.claims)
}

/// The row of the tree of a code in the scope of definitions, where each definition is replaced by
/// its body.
pub fn term_of<M: Maker>(
    alloc: Global,
    maker: &mut M,
    defs: &[CodeDef],
    code: &Code,
) -> Result<u64, AllocError>
    ensures kept { Kept (M.means maker.old) (M.means maker.new) }
    ensures term { IfOk result (λ row.
        M.means maker.new row ≡ Some (ATree (term_after defs.now code.now))) }
{
    let (mut spelling, place) = spelt(alloc, maker, defs)?;
    spelling.code(maker, place, code)
}

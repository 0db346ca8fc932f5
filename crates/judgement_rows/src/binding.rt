//! Codes that bind before a body: definitions, binders, and names of the interval.

ghost use Rattle.std.specs.Prelude.{IfOk};
ghost use Rattle.trees.specs.Things.{Kept};
ghost use Rattle.judgement_rows.specs.Forms.{IsLambda, IsLet, IsPathLambda, IsPi, IsSigma};
ghost use Rattle.judgement_rows.specs.Steps.{FitsSome, Row, Spells, state};
ghost use Rattle.judgement_rows.specs.Words.{IsUnder, code_tree, under_trees};

use crate::places::{Place, Under};
use crate::terms::Spelling;
use codes::{Binder, Code};
use form_rows::{nested, under_names};
use rows::Maker;
use std::alloc::AllocError;
use trees::Op;

impl Spelling {
    /// `let locals in body`
    #[cycle(spell)]
    pub(crate) fn let_in<M: Maker>(
        &mut self,
        maker: &mut M,
        place: Place,
        code: &Code,
    ) -> Result<u64, AllocError>
        requires form { IsLet code.now }
        requires fits { FitsSome (state (M.means maker.old) self.old) place }
        ensures kept { Kept (M.means maker.old) (M.means maker.new) }
        ensures spells { IfOk result (λ r. Spells (state (M.means maker.old) self.old)
            (state (M.means maker.new) self.new) place (Row r) (code_tree code.now)) }
    {
        let Code::Let { locals, body, .. } = code else {
            unreachable!();
        };
        let mark = self.bodies.mark();
        self.block(maker, place, locals)?;
        let row = self.code(maker, place, body)?;
        self.leave(mark);
        Ok(row)
    }

    /// `binders -> body`
    #[cycle(spell)]
    pub(crate) fn pi<M: Maker>(
        &mut self,
        maker: &mut M,
        place: Place,
        code: &Code,
    ) -> Result<u64, AllocError>
        requires form { IsPi code.now }
        requires fits { FitsSome (state (M.means maker.old) self.old) place }
        ensures kept { Kept (M.means maker.old) (M.means maker.new) }
        ensures spells { IfOk result (λ r. Spells (state (M.means maker.old) self.old)
            (state (M.means maker.new) self.new) place (Row r) (code_tree code.now)) }
    {
        let Code::Pi { binders, body, .. } = code else {
            unreachable!();
        };
        let under = self.under(maker, place, binders)?;
        let body = self.code(maker, under.place, body)?;
        Ok(nested(maker, Op::Pi, &under.types, body)?)
    }

    /// `binders * body`
    #[cycle(spell)]
    pub(crate) fn sigma<M: Maker>(
        &mut self,
        maker: &mut M,
        place: Place,
        code: &Code,
    ) -> Result<u64, AllocError>
        requires form { IsSigma code.now }
        requires fits { FitsSome (state (M.means maker.old) self.old) place }
        ensures kept { Kept (M.means maker.old) (M.means maker.new) }
        ensures spells { IfOk result (λ r. Spells (state (M.means maker.old) self.old)
            (state (M.means maker.new) self.new) place (Row r) (code_tree code.now)) }
    {
        let Code::Sigma { binders, body, .. } = code else {
            unreachable!();
        };
        let under = self.under(maker, place, binders)?;
        let body = self.code(maker, under.place, body)?;
        Ok(nested(maker, Op::Sig, &under.types, body)?)
    }

    /// `\ binders -> body`
    #[cycle(spell)]
    pub(crate) fn lambda<M: Maker>(
        &mut self,
        maker: &mut M,
        place: Place,
        code: &Code,
    ) -> Result<u64, AllocError>
        requires form { IsLambda code.now }
        requires fits { FitsSome (state (M.means maker.old) self.old) place }
        ensures kept { Kept (M.means maker.old) (M.means maker.new) }
        ensures spells { IfOk result (λ r. Spells (state (M.means maker.old) self.old)
            (state (M.means maker.new) self.new) place (Row r) (code_tree code.now)) }
    {
        let Code::Lambda { binders, body, .. } = code else {
            unreachable!();
        };
        let under = self.under(maker, place, binders)?;
        let body = self.code(maker, under.place, body)?;
        Ok(nested(maker, Op::Lam, &under.types, body)?)
    }

    /// The place under the variables of binders.
    #[cycle(spell)]
    pub(crate) fn under<M: Maker>(
        &mut self,
        maker: &mut M,
        place: Place,
        binders: &[Binder],
    ) -> Result<Under, AllocError>
        requires { FitsSome (state (M.means maker.old) self.old) place }
        ensures kept { Kept (M.means maker.old) (M.means maker.new) }
        ensures spells { IfOk result (λ r. Spells (state (M.means maker.old) self.old)
            (state (M.means maker.new) self.new) place (IsUnder r) (under_trees binders.now)) }
    {
        let mut under = Under {
            place,
            types: Vec::new(self.alloc),
        };
        for binder in binders {
            let ty = self.code(maker, under.place, &binder.ty)?;
            under.bind(maker, binder.names, ty)?;
        }
        Ok(under)
    }

    /// `< names > body`
    #[cycle(spell)]
    pub(crate) fn path_lambda<M: Maker>(
        &mut self,
        maker: &mut M,
        place: Place,
        code: &Code,
    ) -> Result<u64, AllocError>
        requires form { IsPathLambda code.now }
        requires fits { FitsSome (state (M.means maker.old) self.old) place }
        ensures kept { Kept (M.means maker.old) (M.means maker.new) }
        ensures spells { IfOk result (λ r. Spells (state (M.means maker.old) self.old)
            (state (M.means maker.new) self.new) place (Row r) (code_tree code.now)) }
    {
        let Code::PathLambda { names, body, .. } = code else {
            unreachable!();
        };
        let inner = place.under_all(maker, *names)?;
        let body = self.code(maker, inner, body)?;
        Ok(under_names(maker, *names, body)?)
    }
}

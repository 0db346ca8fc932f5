//! Numbers, and recursion over them.

ghost use Rattle.std.specs.Prelude.{IfOk};
ghost use Rattle.trees.specs.Things.{Kept};
ghost use Rattle.judgement_rows.specs.Forms.{IsNatRec, IsSuc};
ghost use Rattle.judgement_rows.specs.Steps.{FitsSome, Row, Spells, state};
ghost use Rattle.judgement_rows.specs.Words.{code_tree, motive_tree};

use crate::places::Place;
use crate::terms::Spelling;
use codes::{Code, Opened};
use form_rows::applied_inside;
use rows::Maker;
use std::alloc::AllocError;
use trees::Op;

impl Spelling {
    /// `suc argument`
    #[cycle(spell)]
    pub(crate) fn suc<M: Maker>(
        &mut self,
        maker: &mut M,
        place: Place,
        code: &Code,
    ) -> Result<u64, AllocError>
        requires form { IsSuc code.now }
        requires fits { FitsSome (state (M.means maker.old) self.old) place }
        ensures kept { Kept (M.means maker.old) (M.means maker.new) }
        ensures spells { IfOk result (λ r. Spells (state (M.means maker.old) self.old)
            (state (M.means maker.new) self.new) place (Row r) (code_tree code.now)) }
    {
        let Code::Suc { argument, .. } = code else {
            unreachable!();
        };
        let argument = self.code(maker, place, argument)?;
        Ok(maker.make(Op::Suc, &[argument])?)
    }

    /// `natrec motive base step argument`
    #[cycle(spell)]
    pub(crate) fn natrec<M: Maker>(
        &mut self,
        maker: &mut M,
        place: Place,
        code: &Code,
    ) -> Result<u64, AllocError>
        requires form { IsNatRec code.now }
        requires fits { FitsSome (state (M.means maker.old) self.old) place }
        ensures kept { Kept (M.means maker.old) (M.means maker.new) }
        ensures spells { IfOk result (λ r. Spells (state (M.means maker.old) self.old)
            (state (M.means maker.new) self.new) place (Row r) (code_tree code.now)) }
    {
        let Code::NatRec {
            motive,
            base,
            step,
            argument,
            ..
        } = code
        else {
            unreachable!();
        };
        let motive = self.motive(maker, place, motive)?;
        let base = self.code(maker, place, base)?;
        let step = self.code(maker, place, step)?;
        let argument = self.code(maker, place, argument)?;
        Ok(maker.make(Op::NatRec, &[motive, base, step, argument])?)
    }

    /// A motive, as a tree over its variable, a number.
    #[cycle(spell)]
    pub(crate) fn motive<M: Maker>(
        &mut self,
        maker: &mut M,
        place: Place,
        motive: &Opened,
    ) -> Result<u64, AllocError>
        requires { FitsSome (state (M.means maker.old) self.old) place }
        ensures kept { Kept (M.means maker.old) (M.means maker.new) }
        ensures spells { IfOk result (λ r. Spells (state (M.means maker.old) self.old)
            (state (M.means maker.new) self.new) place (Row r) (motive_tree motive.now)) }
    {
        match motive {
            Opened::Under(_, code) => {
                let nat = maker.make(Op::Nat, &[])?;
                let inner = place.under_variable(maker, nat)?;
                Ok(self.code(maker, inner, code)?)
            }
            Opened::Applied(_, code) => {
                let row = self.code(maker, place, code)?;
                Ok(applied_inside(maker, Op::App, row)?)
            }
        }
    }
}

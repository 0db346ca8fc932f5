//! What is applied and projected.

ghost use Rattle.std.specs.Prelude.{[], ◌∷◌, IfOk};
ghost use Rattle.trees.specs.Things.{Kept};
ghost use Rattle.trees.specs.Trees.{Tree};
ghost use Rattle.rows.specs.Views.{IsTree};
ghost use Rattle.form_rows.specs.Meant.{Is};
ghost use Rattle.judgement_rows.specs.Forms.{IsApply, IsProject};
ghost use Rattle.judgement_rows.specs.Steps.{FitsSome, Row, Spells, state};
ghost use Rattle.judgement_rows.specs.Words.{applied_tree, code_tree};

use crate::places::Place;
use crate::terms::Spelling;
use codes::{Code, Element};
use form_rows::{formula, projected};
use rows::Maker;
use std::alloc::AllocError;
use trees::Op;

impl Spelling {
    /// `head elements`
    #[cycle(spell)]
    pub(crate) fn application<M: Maker>(
        &mut self,
        maker: &mut M,
        place: Place,
        code: &Code,
    ) -> Result<u64, AllocError>
        requires form { IsApply code.now }
        requires fits { FitsSome (state (M.means maker.old) self.old) place }
        ensures kept { Kept (M.means maker.old) (M.means maker.new) }
        ensures spells { IfOk result (λ r. Spells (state (M.means maker.old) self.old)
            (state (M.means maker.new) self.new) place (Row r) (code_tree code.now)) }
    {
        let Code::Apply { head, elements, .. } = code else {
            unreachable!();
        };
        let head = self.code(maker, place, head)?;
        Ok(self.applied(maker, place, head, elements)?)
    }

    /// `pair.1`, `pair.2`
    #[cycle(spell)]
    pub(crate) fn projection<M: Maker>(
        &mut self,
        maker: &mut M,
        place: Place,
        code: &Code,
    ) -> Result<u64, AllocError>
        requires form { IsProject code.now }
        requires fits { FitsSome (state (M.means maker.old) self.old) place }
        ensures kept { Kept (M.means maker.old) (M.means maker.new) }
        ensures spells { IfOk result (λ r. Spells (state (M.means maker.old) self.old)
            (state (M.means maker.new) self.new) place (Row r) (code_tree code.now)) }
    {
        let Code::Project {
            pair,
            projections,
            ..
        } = code
        else {
            unreachable!();
        };
        let pair = self.code(maker, place, pair)?;
        Ok(projected(maker, pair, projections.as_slice())?)
    }

    /// A head, applied to elements.
    #[cycle(spell)]
    pub(crate) fn applied<M: Maker>(
        &mut self,
        maker: &mut M,
        place: Place,
        head: u64,
        elements: &[Element],
    ) -> Result<u64, AllocError>
        requires fits { FitsSome (state (M.means maker.old) self.old) place }
        requires head { IsTree (M.means maker.old head) }
        ensures kept { Kept (M.means maker.old) (M.means maker.new) }
        ensures spells { IfOk result (λ r. (t : Tree) → Is (M.means maker.old) head t
            → Spells (state (M.means maker.old) self.old) (state (M.means maker.new) self.new)
            place (Row r) (applied_tree t elements.now)) }
    {
        let mut row = head;
        for element in elements {
            row = self.applied_to(maker, place, row, element)?;
        }
        Ok(row)
    }

    #[cycle(spell)]
    fn applied_to<M: Maker>(
        &mut self,
        maker: &mut M,
        place: Place,
        head: u64,
        element: &Element,
    ) -> Result<u64, AllocError>
        requires fits { FitsSome (state (M.means maker.old) self.old) place }
        requires head { IsTree (M.means maker.old head) }
        ensures kept { Kept (M.means maker.old) (M.means maker.new) }
        ensures spells { IfOk result (λ r. (t : Tree) → Is (M.means maker.old) head t
            → Spells (state (M.means maker.old) self.old) (state (M.means maker.new) self.new)
            place (Row r) (applied_tree t (element.now ∷ []))) }
    {
        match element {
            Element::Argument(code) => {
                let argument = self.code(maker, place, code)?;
                Ok(maker.make(Op::App, &[head, argument])?)
            }
            Element::At(_, at) => {
                let at = formula(maker, at)?;
                Ok(maker.make(Op::PApp, &[head, at])?)
            }
        }
    }
}

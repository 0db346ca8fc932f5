//! Lines, types of paths, and compositions.

ghost use Rattle.std.specs.Prelude.{IfOk};
ghost use Rattle.trees.specs.Things.{Kept};
ghost use Rattle.judgement_rows.specs.Forms.{IsComp, IsFill, IsPathType, IsTransport};
ghost use Rattle.judgement_rows.specs.Steps.{FitsSome, Row, Spells, state};
ghost use Rattle.judgement_rows.specs.Words.{code_tree, line_tree};

use crate::places::Place;
use crate::terms::Spelling;
use codes::{Code, Opened};
use form_rows::{applied_inside, filling};
use rows::Maker;
use std::alloc::AllocError;
use trees::Op;

impl Spelling {
    /// `PathP line left right`
    #[cycle(spell)]
    pub(crate) fn path_type<M: Maker>(
        &mut self,
        maker: &mut M,
        place: Place,
        code: &Code,
    ) -> Result<u64, AllocError>
        requires form { IsPathType code.now }
        requires fits { FitsSome (state (M.means maker.old) self.old) place }
        ensures kept { Kept (M.means maker.old) (M.means maker.new) }
        ensures spells { IfOk result (λ r. Spells (state (M.means maker.old) self.old)
            (state (M.means maker.new) self.new) place (Row r) (code_tree code.now)) }
    {
        let Code::PathP {
            line,
            left,
            right,
            ..
        } = code
        else {
            unreachable!();
        };
        let line = self.line(maker, place, line)?;
        let left = self.code(maker, place, left)?;
        let right = self.code(maker, place, right)?;
        Ok(maker.make(Op::PathP, &[line, left, right])?)
    }

    /// `comp line base sides`
    #[cycle(spell)]
    pub(crate) fn comp<M: Maker>(
        &mut self,
        maker: &mut M,
        place: Place,
        code: &Code,
    ) -> Result<u64, AllocError>
        requires form { IsComp code.now }
        requires fits { FitsSome (state (M.means maker.old) self.old) place }
        ensures kept { Kept (M.means maker.old) (M.means maker.new) }
        ensures spells { IfOk result (λ r. Spells (state (M.means maker.old) self.old)
            (state (M.means maker.new) self.new) place (Row r) (code_tree code.now)) }
    {
        let Code::Comp {
            line,
            base,
            sides,
            ..
        } = code
        else {
            unreachable!();
        };
        let line = self.line(maker, place, line)?;
        let base = self.code(maker, place, base)?;
        let system = self.line_sides(maker, place, sides)?;
        Ok(maker.make(Op::Comp, &[line, system.cover, system.body, base])?)
    }

    /// `fill line base sides`
    #[cycle(spell)]
    pub(crate) fn fill<M: Maker>(
        &mut self,
        maker: &mut M,
        place: Place,
        code: &Code,
    ) -> Result<u64, AllocError>
        requires form { IsFill code.now }
        requires fits { FitsSome (state (M.means maker.old) self.old) place }
        ensures kept { Kept (M.means maker.old) (M.means maker.new) }
        ensures spells { IfOk result (λ r. Spells (state (M.means maker.old) self.old)
            (state (M.means maker.new) self.new) place (Row r) (code_tree code.now)) }
    {
        let Code::Fill {
            line,
            base,
            sides,
            ..
        } = code
        else {
            unreachable!();
        };
        let line = self.line(maker, place, line)?;
        let base = self.code(maker, place, base)?;
        let system = self.line_sides(maker, place, sides)?;
        Ok(filling(maker, line, system.cover, system.body, base)?)
    }

    /// `transport line base`, a composition without sides
    #[cycle(spell)]
    pub(crate) fn transport<M: Maker>(
        &mut self,
        maker: &mut M,
        place: Place,
        code: &Code,
    ) -> Result<u64, AllocError>
        requires form { IsTransport code.now }
        requires fits { FitsSome (state (M.means maker.old) self.old) place }
        ensures kept { Kept (M.means maker.old) (M.means maker.new) }
        ensures spells { IfOk result (λ r. Spells (state (M.means maker.old) self.old)
            (state (M.means maker.new) self.new) place (Row r) (code_tree code.now)) }
    {
        let Code::Transport { line, base, .. } = code else {
            unreachable!();
        };
        let line = self.line(maker, place, line)?;
        let base = self.code(maker, place, base)?;
        let cover = maker.make(Op::F0, &[])?;
        let body = maker.make(Op::Empty, &[])?;
        Ok(maker.make(Op::Comp, &[line, cover, body, base])?)
    }

    /// A line, as a tree over its name.
    #[cycle(spell)]
    pub(crate) fn line<M: Maker>(
        &mut self,
        maker: &mut M,
        place: Place,
        line: &Opened,
    ) -> Result<u64, AllocError>
        requires { FitsSome (state (M.means maker.old) self.old) place }
        ensures kept { Kept (M.means maker.old) (M.means maker.new) }
        ensures spells { IfOk result (λ r. Spells (state (M.means maker.old) self.old)
            (state (M.means maker.new) self.new) place (Row r) (line_tree line.now)) }
    {
        match line {
            Opened::Under(_, code) => {
                let inner = place.under_name(maker)?;
                Ok(self.code(maker, inner, code)?)
            }
            Opened::Applied(_, code) => {
                let row = self.code(maker, place, code)?;
                Ok(applied_inside(maker, Op::PApp, row)?)
            }
        }
    }
}

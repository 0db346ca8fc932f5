//! Glueing.

ghost use Rattle.std.specs.Prelude.{IfOk};
ghost use Rattle.trees.specs.Things.{Kept};
ghost use Rattle.judgement_rows.specs.Forms.{IsGlueTerm, IsGlueType, IsUnglue};
ghost use Rattle.judgement_rows.specs.Steps.{FitsSome, Row, Spells, state};
ghost use Rattle.judgement_rows.specs.Words.{code_tree};

use crate::places::Place;
use crate::terms::Spelling;
use codes::Code;
use rows::Maker;
use std::alloc::AllocError;
use trees::Op;

impl Spelling {
    /// `Glue base sides`
    #[cycle(spell)]
    pub(crate) fn glue_type<M: Maker>(
        &mut self,
        maker: &mut M,
        place: Place,
        code: &Code,
    ) -> Result<u64, AllocError>
        requires form { IsGlueType code.now }
        requires fits { FitsSome (state (M.means maker.old) self.old) place }
        ensures kept { Kept (M.means maker.old) (M.means maker.new) }
        ensures spells { IfOk result (λ r. Spells (state (M.means maker.old) self.old)
            (state (M.means maker.new) self.new) place (Row r) (code_tree code.now)) }
    {
        let Code::GlueType { base, sides, .. } = code else {
            unreachable!();
        };
        let base = self.code(maker, place, base)?;
        let pairs = self.pair_sides(maker, place, sides)?;
        let kids = [base, pairs.cover, pairs.types, pairs.equivalences];
        Ok(maker.make(Op::GlueType, &kids)?)
    }

    /// `glue base sides`
    #[cycle(spell)]
    pub(crate) fn glue_term<M: Maker>(
        &mut self,
        maker: &mut M,
        place: Place,
        code: &Code,
    ) -> Result<u64, AllocError>
        requires form { IsGlueTerm code.now }
        requires fits { FitsSome (state (M.means maker.old) self.old) place }
        ensures kept { Kept (M.means maker.old) (M.means maker.new) }
        ensures spells { IfOk result (λ r. Spells (state (M.means maker.old) self.old)
            (state (M.means maker.new) self.new) place (Row r) (code_tree code.now)) }
    {
        let Code::GlueTerm { base, sides, .. } = code else {
            unreachable!();
        };
        let base = self.code(maker, place, base)?;
        let system = self.sides(maker, place, sides)?;
        Ok(maker.make(Op::Glue, &[system.cover, system.body, base])?)
    }

    /// `unglue base sides`
    #[cycle(spell)]
    pub(crate) fn unglue<M: Maker>(
        &mut self,
        maker: &mut M,
        place: Place,
        code: &Code,
    ) -> Result<u64, AllocError>
        requires form { IsUnglue code.now }
        requires fits { FitsSome (state (M.means maker.old) self.old) place }
        ensures kept { Kept (M.means maker.old) (M.means maker.new) }
        ensures spells { IfOk result (λ r. Spells (state (M.means maker.old) self.old)
            (state (M.means maker.new) self.new) place (Row r) (code_tree code.now)) }
    {
        let Code::Unglue { base, sides, .. } = code else {
            unreachable!();
        };
        let base = self.code(maker, place, base)?;
        let pairs = self.pair_sides(maker, place, sides)?;
        let kids = [pairs.cover, pairs.types, pairs.equivalences, base];
        Ok(maker.make(Op::Unglue, &kids)?)
    }
}

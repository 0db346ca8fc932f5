//! The sides of systems.

ghost use Rattle.std.specs.Prelude.{IfOk};
ghost use Rattle.trees.specs.Things.{Kept};
ghost use Rattle.judgement_rows.specs.Steps.{FitsSome, Spells, state};
ghost use Rattle.judgement_rows.specs.Words.{IsLineSystem, IsPairSystem, IsSystem};
ghost use Rattle.judgement_rows.specs.Words.{line_side_trees, pair_side_trees, side_trees};

use crate::places::Place;
use crate::systems::{PairRows, PairSystem, SideRows, System};
use crate::terms::Spelling;
use codes::{LineSide, PairSide, Side};
use rows::Maker;
use std::alloc::AllocError;

impl Spelling {
    /// Sides that are terms.
    #[cycle(spell)]
    pub(crate) fn sides<M: Maker>(
        &mut self,
        maker: &mut M,
        place: Place,
        sides: &[Side],
    ) -> Result<System, AllocError>
        requires { FitsSome (state (M.means maker.old) self.old) place }
        ensures kept { Kept (M.means maker.old) (M.means maker.new) }
        ensures spells { IfOk result (λ r. Spells (state (M.means maker.old) self.old)
            (state (M.means maker.new) self.new) place (IsSystem r) (side_trees sides.now)) }
    {
        let mut rows = SideRows::new(self.alloc);
        for side in sides {
            let faced = place.under_equations(self.alloc, maker, &side.equations)?;
            let value = self.code(maker, faced.place, &side.body)?;
            rows.push(faced.face, value)?;
        }
        rows.system(maker)
    }

    /// Sides that are lines, whose faces stand outside their name.
    #[cycle(spell)]
    pub(crate) fn line_sides<M: Maker>(
        &mut self,
        maker: &mut M,
        place: Place,
        sides: &[LineSide],
    ) -> Result<System, AllocError>
        requires { FitsSome (state (M.means maker.old) self.old) place }
        ensures kept { Kept (M.means maker.old) (M.means maker.new) }
        ensures spells { IfOk result (λ r. Spells (state (M.means maker.old) self.old)
            (state (M.means maker.new) self.new) place (IsLineSystem r)
            (line_side_trees sides.now)) }
    {
        let mut rows = SideRows::new(self.alloc);
        for side in sides {
            let faced = place.under_equations(self.alloc, maker, &side.equations)?;
            let value = self.line(maker, faced.place, &side.body)?;
            rows.push(faced.face, value)?;
        }
        rows.line_system(self.alloc, maker)
    }

    /// Sides that are pairs.
    #[cycle(spell)]
    pub(crate) fn pair_sides<M: Maker>(
        &mut self,
        maker: &mut M,
        place: Place,
        sides: &[PairSide],
    ) -> Result<PairSystem, AllocError>
        requires { FitsSome (state (M.means maker.old) self.old) place }
        ensures kept { Kept (M.means maker.old) (M.means maker.new) }
        ensures spells { IfOk result (λ r. Spells (state (M.means maker.old) self.old)
            (state (M.means maker.new) self.new) place (IsPairSystem r)
            (pair_side_trees sides.now)) }
    {
        let mut rows = PairRows::new(self.alloc);
        for side in sides {
            let faced = place.under_equations(self.alloc, maker, &side.equations)?;
            let ty = self.code(maker, faced.place, &side.ty)?;
            let equivalence = self.code(maker, faced.place, &side.equivalence)?;
            rows.push(faced.face, ty, equivalence)?;
        }
        rows.system(maker)
    }
}

//! Places of a code.

ghost use Rattle.std.specs.Prelude.{◌≡◌, ◌+◌, IfOk, OnOk};
ghost use Rattle.trees.specs.Things.{Kept};
ghost use Rattle.rows.specs.Views.{IsContext, IsTree};
ghost use Rattle.judgement_rows.specs.Places.{AllNamedIn, BoundIn, FacedIn, HoldIn, NamedIn};
ghost use Rattle.judgement_rows.specs.Places.{OpenedIn};

use codes::Equation;
use form_rows::{face, lifted};
use rows::Maker;
use std::alloc::{AllocError, Global};

/// A place of a code: the row of its context, and the number of variables and names in it. There
/// are less than 2^32.
#[derive(Clone, Copy, Debug)]
pub(crate) struct Place {
    pub(crate) context: u64,
    pub(crate) depth: u32,
}

/// A face, and the place where it holds.
#[derive(Clone, Copy, Debug)]
pub(crate) struct Faced {
    pub(crate) face: u64,
    pub(crate) place: Place,
}

/// A place under variables, and the rows of their types, the outermost first.
#[derive(Drop)]
pub(crate) struct Under {
    pub(crate) place: Place,
    pub(crate) types: Vec<u64>,
}

impl Under {
    /// Goes under so many variables of a type, which stands before them all.
    pub(crate) fn bind<M: Maker>(
        &mut self,
        maker: &mut M,
        names: usize,
        ty: u64,
    ) -> Result<(), AllocError>
        requires context { IsContext (M.means maker.old self.old.place.context) }
        requires ty { IsTree (M.means maker.old ty) }
        ensures kept { Kept (M.means maker.old) (M.means maker.new) }
        ensures bound { OnOk result
            (BoundIn (M.means maker.old) (M.means maker.new) self.old self.new ty names) }
    {
        // each is weakened from the one before, as a checker does it, so that their rows are alike
        let mut here = ty;
        for name in 0..names {
            here = lifted(maker, here, name.min(1) as u32)?;
            self.place = self.place.under_variable(maker, here)?;
            self.types.push(here)?;
        }
        Ok(())
    }
}

impl Place {
    fn deeper(self, context: u64) -> Result<Place, AllocError>
        ensures { IfOk result (λ q. (q.context ≡ context) × (q.depth ≡ self.depth + 1)) }
    {
        let depth = self.depth.checked_add(1).ok_or(AllocError)?;
        Ok(Place { context, depth })
    }

    /// The place under one more variable of a type.
    pub(crate) fn under_variable<M: Maker>(
        self,
        maker: &mut M,
        ty: u64,
    ) -> Result<Place, AllocError>
        requires context { IsContext (M.means maker.old self.context) }
        requires ty { IsTree (M.means maker.old ty) }
        ensures kept { Kept (M.means maker.old) (M.means maker.new) }
        ensures opened { IfOk result
            (OpenedIn (M.means maker.old) (M.means maker.new) self ty) }
    {
        let context = maker.ctx_var(self.context, ty)?;
        self.deeper(context)
    }

    /// The place under one more name of the interval.
    pub(crate) fn under_name<M: Maker>(self, maker: &mut M) -> Result<Place, AllocError>
        requires { IsContext (M.means maker.old self.context) }
        ensures kept { Kept (M.means maker.old) (M.means maker.new) }
        ensures named { IfOk result (NamedIn (M.means maker.old) (M.means maker.new) self) }
    {
        let context = maker.ctx_name(self.context)?;
        self.deeper(context)
    }

    /// The place under so many names of the interval.
    pub(crate) fn under_all<M: Maker>(
        self,
        maker: &mut M,
        names: usize,
    ) -> Result<Place, AllocError>
        requires { IsContext (M.means maker.old self.context) }
        ensures kept { Kept (M.means maker.old) (M.means maker.new) }
        ensures named { IfOk result
            (AllNamedIn (M.means maker.old) (M.means maker.new) self names) }
    {
        let mut place = self;
        for _name in 0..names {
            place = place.under_name(maker)?;
        }
        Ok(place)
    }

    /// The face of equations, and the place where they hold.
    pub(crate) fn under_equations<M: Maker>(
        self,
        alloc: Global,
        maker: &mut M,
        equations: &[Equation],
    ) -> Result<Faced, AllocError>
        requires { IsContext (M.means maker.old self.context) }
        ensures kept { Kept (M.means maker.old) (M.means maker.new) }
        ensures hold { IfOk result
            (HoldIn (M.means maker.old) (M.means maker.new) self equations.now) }
    {
        let face = face(alloc, maker, equations)?;
        let place = self.under_face(maker, face)?;
        Ok(Faced { face, place })
    }

    /// The place where a face holds.
    fn under_face<M: Maker>(self, maker: &mut M, face: u64) -> Result<Place, AllocError>
        requires context { IsContext (M.means maker.old self.context) }
        requires face { IsTree (M.means maker.old face) }
        ensures kept { Kept (M.means maker.old) (M.means maker.new) }
        ensures faced { IfOk result (FacedIn (M.means maker.old) (M.means maker.new) self face) }
    {
        let context = maker.ctx_face(self.context, face)?;
        Ok(Place {
            context,
            depth: self.depth,
        })
    }
}

//! The rows of sides, and the systems that are made of them.

ghost use Rattle.std.specs.Prelude.{◌≡◌, List, [], ◌∷◌, ◌++◌, IfOk, OnOk};
ghost use Rattle.trees.specs.Trees.{Tree};
ghost use Rattle.trees.specs.Things.{Kept};
ghost use Rattle.translation.specs.Systems.{On};
ghost use Rattle.judgement_rows.specs.Systems.{AreSides, ArePairs, LineSystemOf};
ghost use Rattle.judgement_rows.specs.Systems.{PairSystemOf, SystemOf};

use form_rows::{all_lifted, cover, system};
use rows::Maker;
use std::alloc::{AllocError, Global};

/// Where the sides stand, and what is each of them on its face.
#[derive(Clone, Copy, Debug)]
pub(crate) struct System {
    pub(crate) cover: u64,
    pub(crate) body: u64,
}

/// The same of sides that are pairs of a type and an equivalence.
#[derive(Clone, Copy, Debug)]
pub(crate) struct PairSystem {
    pub(crate) cover: u64,
    pub(crate) types: u64,
    pub(crate) equivalences: u64,
}

/// The faces of sides, and what each is on its face.
#[derive(Drop)]
pub(crate) struct SideRows {
    pub(crate) faces: Vec<u64>,
    pub(crate) values: Vec<u64>,
}

impl SideRows {
    /// No sides.
    pub(crate) fn new(alloc: Global) -> SideRows
        ensures faces { result.faces.items ≡ [] }
        ensures values { result.values.items ≡ [] }
    {
        SideRows {
            faces: Vec::new(alloc),
            values: Vec::new(alloc),
        }
    }

    /// One more side.
    pub(crate) fn push(&mut self, face: u64, value: u64) -> Result<(), AllocError>
        ensures faces { OnOk result (self.new.faces.items ≡ self.old.faces.items ++ face ∷ []) }
        ensures values { OnOk result
            (self.new.values.items ≡ self.old.values.items ++ value ∷ []) }
    {
        self.faces.push(face)?;
        self.values.push(value)?;
        Ok(())
    }

    /// The system of sides that are terms.
    pub(crate) fn system<M: Maker>(&self, maker: &mut M) -> Result<System, AllocError>
        requires { (ss : List (On Tree)) × AreSides (M.means maker.old) self.now ss }
        ensures kept { Kept (M.means maker.old) (M.means maker.new) }
        ensures system { IfOk result (λ y. (ss : List (On Tree))
            → AreSides (M.means maker.old) self.now ss → SystemOf (M.means maker.new) y ss) }
    {
        let body = system(maker, &self.faces, &self.values)?;
        let cover = cover(maker, &self.faces)?;
        Ok(System { cover, body })
    }

    /// The system of sides that are lines, whose faces stand outside their name.
    pub(crate) fn line_system<M: Maker>(
        &self,
        alloc: Global,
        maker: &mut M,
    ) -> Result<System, AllocError>
        requires { (ss : List (On Tree)) × AreSides (M.means maker.old) self.now ss }
        ensures kept { Kept (M.means maker.old) (M.means maker.new) }
        ensures system { IfOk result (λ y. (ss : List (On Tree))
            → AreSides (M.means maker.old) self.now ss → LineSystemOf (M.means maker.new) y ss) }
    {
        let inside = all_lifted(alloc, maker, &self.faces)?;
        let body = system(maker, &inside, &self.values)?;
        let cover = cover(maker, &self.faces)?;
        Ok(System { cover, body })
    }
}

/// The faces of sides that are pairs, and the type and the equivalence of each.
#[derive(Drop)]
pub(crate) struct PairRows {
    pub(crate) faces: Vec<u64>,
    pub(crate) types: Vec<u64>,
    pub(crate) equivalences: Vec<u64>,
}

impl PairRows {
    /// No sides.
    pub(crate) fn new(alloc: Global) -> PairRows
        ensures faces { result.faces.items ≡ [] }
        ensures types { result.types.items ≡ [] }
        ensures equivalences { result.equivalences.items ≡ [] }
    {
        PairRows {
            faces: Vec::new(alloc),
            types: Vec::new(alloc),
            equivalences: Vec::new(alloc),
        }
    }

    /// One more side.
    pub(crate) fn push(&mut self, face: u64, ty: u64, equivalence: u64) -> Result<(), AllocError>
        ensures faces { OnOk result (self.new.faces.items ≡ self.old.faces.items ++ face ∷ []) }
        ensures types { OnOk result (self.new.types.items ≡ self.old.types.items ++ ty ∷ []) }
        ensures equivalences { OnOk result
            (self.new.equivalences.items ≡ self.old.equivalences.items ++ equivalence ∷ []) }
    {
        self.faces.push(face)?;
        self.types.push(ty)?;
        self.equivalences.push(equivalence)?;
        Ok(())
    }

    /// The systems of the types and of the equivalences.
    pub(crate) fn system<M: Maker>(&self, maker: &mut M) -> Result<PairSystem, AllocError>
        requires { (ss : List (On (Tree × Tree))) × ArePairs (M.means maker.old) self.now ss }
        ensures kept { Kept (M.means maker.old) (M.means maker.new) }
        ensures system { IfOk result (λ y. (ss : List (On (Tree × Tree)))
            → ArePairs (M.means maker.old) self.now ss → PairSystemOf (M.means maker.new) y ss) }
    {
        let types = system(maker, &self.faces, &self.types)?;
        let equivalences = system(maker, &self.faces, &self.equivalences)?;
        let cover = cover(maker, &self.faces)?;
        Ok(PairSystem {
            cover,
            types,
            equivalences,
        })
    }
}

//! The rows of a file that are right, in order.

ghost use Rattle.std.specs.Prelude.{◌≡◌, ◌==◌, ◌<◌, ◌++◌, ◌∷◌, [], length};
ghost use Rattle.std.specs.Prelude.{slice_get, IfOk, OnOk, OnErr, Some};
ghost use Rattle.replay.specs.Held.{Longer, filed_as};

use crate::filed::Filed;
use rows::kept;
use std::alloc::{AllocError, Global};
use std::marker::Model;
use theory::Claim;

/// A row as it is held. Claims stand apart, so that the other rows need not have their size.
#[derive(Clone, Copy, Debug)]
pub enum Held {
    /// A tree, a substitution or a context: the number of its row in the store.
    Thing(u32),
    /// A node: the number of its conclusion among the claims.
    Node(u32),
    /// The header or a root.
    Nothing,
}

/// The rows of a file. Contracts see the list of them.
#[derive(Drop)]
pub struct FiledRows {
    held: Vec<Held>,
    claims: Vec<Claim>,
}

impl Model for FiledRows {
    ghost use Rattle.std.specs.Prelude.{List};
    ghost use Rattle.replay.specs.declared.filed.Filed.{Filed};

    ghost Value = { List Filed };

    ghost use Rattle.replay.specs.Held.{filed_list, AllHeld};

    ghost view = { λ s. filed_list s.claims.items s.held.items };

    ghost invariant = { λ s. AllHeld s.claims.items s.held.items };
}

/// How a row is held, whose claim is put after the others.
fn held_as(claims: &mut Vec<Claim>, row: Filed) -> Result<Held, AllocError>
    ensures longer { Longer claims.old.items claims.new.items }
    ensures held { IfOk result (λ held. filed_as claims.new.items held ≡ Some row) }
{
    match row {
        Filed::Thing(row) => Ok(Held::Thing(kept(row)?)),
        Filed::Node(claim) => {
            let at = kept(claims.len() as u64)?;
            claims.push(claim)?;
            Ok(Held::Node(at))
        }
        Filed::Nothing => Ok(Held::Nothing),
    }
}

impl FiledRows {
    /// No rows.
    pub fn new(alloc: Global) -> FiledRows
        ensures { result ≡ [] }
    {
        FiledRows {
            held: Vec::new(alloc),
            claims: Vec::new(alloc),
        }
    }

    /// The number of rows.
    pub fn len(&self) -> usize
        ensures { result ≡ length self.now }
    {
        self.held.len()
    }

    /// Whether there is no row.
    pub fn is_empty(&self) -> bool
        ensures { result ≡ (length self.now == 0) }
    {
        self.held.is_empty()
    }

    /// The row of that number.
    pub fn row(&self, number: u64) -> Filed
        requires { number < length self.now }
        ensures { slice_get self.now number ≡ Some result }
    {
        match self.held[number as usize] {
            Held::Thing(row) => Filed::Thing(u64::from(row)),
            Held::Node(at) => Filed::Node(self.claims[at as usize]),
            Held::Nothing => Filed::Nothing,
        }
    }

    /// Appends a row. Out of memory, they are as before.
    pub fn push(&mut self, row: Filed) -> Result<(), AllocError>
        ensures ok { OnOk result (self.new ≡ self.old ++ row ∷ []) }
        ensures err { OnErr result (self.new ≡ self.old) }
    {
        let held = held_as(&mut self.claims, row)?;
        self.held.push(held)?;
        Ok(())
    }
}

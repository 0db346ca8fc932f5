//! Whether a sum of products is in order.

ghost use Rattle.std.specs.Prelude.{◌≡◌, ◌↔◌, Bool, IfOk, IsTrue, map};
ghost use Rattle.std.specs.List.{list_all};
ghost use Rattle.antichains.specs.Antichains.{IsNormal};
ghost use Rattle.normal_formulas.specs.declared.atoms.Atom.{Atom as TheAtom};
ghost use Rattle.normal_formulas.specs.Atoms.{atom_cmp, lists_of};

use crate::atoms::Atom;
use antichains::{Antichain, Product};
use std::alloc::{AllocError, Global};

/// The product of these atoms, in whatever order they are.
fn product_of(alloc: Global, atoms: &[Atom]) -> Result<Product<Atom>, AllocError>
    ensures { IfOk result (λ product. (test : TheAtom → Bool) →
        list_all test product ≡ list_all test atoms.now) }
{
    let mut product = Product::new(alloc);
    for atom in atoms {
        product = product.merged(&Product::single(alloc, *atom)?)?;
    }
    Ok(product)
}

/// Whether the products are these lists.
fn are(products: &[Product<Atom>], lists: &[Vec<Atom>]) -> bool
    ensures { IsTrue result ↔ (products.now ≡ lists_of lists.now) }
{
    if products.len() != lists.len() {
        return false;
    }
    for i in 0..lists.len() {
        if products[i].elements() != lists[i].as_slice() {
            return false;
        }
    }
    true
}

/// Whether the products are in order, each of atoms in order, and none contains another. It takes
/// the normal form of their sum, which is the only one with its truth.
pub fn is_normal_sum(alloc: Global, sum: &[Vec<Atom>]) -> Result<bool, AllocError>
    ensures { IfOk result (λ yes. IsTrue yes ↔ IsNormal atom_cmp (lists_of sum.now)) }
{
    let mut products = Vec::with_capacity(alloc, sum.len())?;
    for atoms in sum {
        products.push(product_of(alloc, atoms)?)?;
    }
    let normal = Antichain::from_products(products)?;
    Ok(are(normal.products(), sum))
}

//! Sums of products in normal form.

ghost use Rattle.std.specs.Prelude.{◌≡◌, ◌↔◌, ◌⊎◌, ◌&&◌, ◌||◌, [], List, Any};
ghost use Rattle.std.specs.Prelude.{Contains, Bool, IsTrue, IfOk, length};
ghost use Rattle.std.specs.List.Sorted.{IsNonDecreasingBy};
ghost use Rattle.antichains.specs.Antichains.{HaveSameTruth, IsNormal, IsWithin, some_all};
ghost use Rattle.antichains.specs.Reductions.{IsReduced};

use crate::elements::Element;
use crate::products::Product;
use std::alloc::{AllocError, Global};
use std::marker::Model;
use std::vec::VecCloneMethods;

/// A sum of products in normal form: the products in order, none containing another.
#[derive(Drop)]
pub struct Antichain<T: Element> {
    products: Vec<Product<T>>,
}

impl<T: Element> Model for Antichain<T> {
    ghost Value = { List (List T) };

    ghost view = { λ sum. sum.products.items };

    ghost invariant = { λ sum. IsNormal T.Ord.cmp sum.products.items };
}

impl<T: Element> Antichain<T> {
    /// The sum of nothing.
    pub fn new(alloc: Global) -> Antichain<T>
        ensures { result ≡ [] }
    {
        Antichain {
            products: Vec::new(alloc),
        }
    }

    /// The normal form of the sum of these products. It takes two sorts, and a test of containment
    /// for each product with each that stays and is no longer.
    pub fn from_products(mut products: Vec<Product<T>>) -> Result<Antichain<T>, AllocError>
        ensures truth { IfOk result (λ sum. HaveSameTruth sum products.items) }
        ensures among { IfOk result (λ sum. IsWithin sum products.items) }
    {
        products.sort_unstable_by_key(|product| product.len());
        let mut kept = irredundant(products)?;
        kept.sort_unstable();
        Ok(Antichain { products: kept })
    }

    /// The products, in order.
    pub fn products(&self) -> &[Product<T>]
        ensures value { result.now ≡ self.now }
        ensures normal { IsNormal T.Ord.cmp self.now }
    {
        self.products.as_slice()
    }

    /// The allocator that the sum keeps.
    pub fn alloc(&self) -> Global {
        *self.products.allocator()
    }

    /// Whether two sums are one. They are exactly where they have the same truth.
    pub fn same(&self, other: &Antichain<T>) -> bool
        ensures lists { IsTrue result ↔ (self.now ≡ other.now) }
        ensures truth { IsTrue result ↔ HaveSameTruth self.now other.now }
    {
        self.products == other.products
    }

    /// The sum of the products of both.
    pub fn join(&self, other: &Antichain<T>) -> Result<Antichain<T>, AllocError>
        ensures among { IfOk result (λ sum. (product : List T) → Contains sum product →
            Contains self.now product ⊎ Contains other.now product) }
        ensures truth { IfOk result (λ sum. (test : T → Bool) →
            some_all test sum ≡ (some_all test self.now || some_all test other.now)) }
    {
        let mut products = self.products.clone()?;
        products.extend_from_slice(other.products())?;
        Antichain::from_products(products)
    }

    /// The sum of the products of one of each: at m and n products m * n merges, and one normal
    /// form.
    pub fn meet(&self, other: &Antichain<T>) -> Result<Antichain<T>, AllocError>
        ensures { IfOk result (λ sum. (test : T → Bool) →
            some_all test sum ≡ (some_all test self.now && some_all test other.now)) }
    {
        let mut products = Vec::new(self.alloc());
        for left in &self.products {
            for right in &other.products {
                products.push(left.merged(right)?)?;
            }
        }
        Antichain::from_products(products)
    }
}

/// The products that have no other one within them.
fn irredundant<T: Element>(products: Vec<Product<T>>) -> Result<Vec<Product<T>>, AllocError>
    requires { IsNonDecreasingBy length products.items }
    ensures { IfOk result (λ kept. IsReduced T.Ord.cmp kept.items products.items) }
{
    let mut kept = Vec::new(*products.allocator());
    for product in products {
        if !has_one_within(&product, &kept) {
            kept.push(product)?;
        }
    }
    Ok(kept)
}

/// Whether one of the products is within this one.
fn has_one_within<T: Element>(product: &Product<T>, others: &[Product<T>]) -> bool
    ensures { IsTrue result ↔ Any (λ other. IsWithin other product.now) others.now }
{
    others.iter().any(|other| product.contains_all(other))
}

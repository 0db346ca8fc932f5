//! Products of elements.

ghost use Rattle.std.specs.Prelude.{◌≡◌, ◌↔◌, ◌∷◌, [], List, Contains, IsTrue, IfOk, length};
ghost use Rattle.std.specs.Cmp.Lexicographic.{pointwise, slice_cmp, slice_partial_cmp};
ghost use Rattle.std.specs.Cmp.Lexicographic.{lists_agrees, lists_equiv, lists_per, lists_po};
ghost use Rattle.std.specs.Cmp.Lexicographic.{lists_ties, lists_total};
ghost use Rattle.std.specs.List.Sorted.{IsStrictlySortedBy};
ghost use Rattle.antichains.specs.Antichains.{IsWithin, IsUnion, IsWithout};

use crate::elements::Element;
use crate::sorted;
use std::alloc::{AllocError, Global};
use std::cmp::Ordering;
use std::marker::Model;

/// A product of elements, as the strictly sorted list of them.
#[derive(Drop)]
pub struct Product<T: Element> {
    elements: Vec<T>,
}

impl<T: Element> Model for Product<T> {
    ghost Value = { List T };

    ghost view = { λ p. p.elements.items };

    ghost invariant = { λ p. IsStrictlySortedBy T.cmp p.elements.items };
}

impl<T: Element> Product<T> {
    /// The product of nothing.
    pub fn new(alloc: Global) -> Product<T>
        ensures { result ≡ [] }
    {
        Product {
            elements: Vec::new(alloc),
        }
    }

    /// The product of one element.
    pub fn single(alloc: Global, element: T) -> Result<Product<T>, AllocError>
        ensures { IfOk result (λ product. product ≡ element ∷ []) }
    {
        let mut elements = Vec::with_capacity(alloc, 1)?;
        elements.push(element)?;
        Ok(Product { elements })
    }

    /// The number of elements.
    pub fn len(&self) -> usize
        ensures { result ≡ length self.now }
    {
        self.elements.len()
    }

    /// Whether it is the product of nothing.
    pub fn is_empty(&self) -> bool
        ensures { IsTrue result ↔ (self.now ≡ []) }
    {
        self.elements.is_empty()
    }

    /// The elements, in order.
    pub fn elements(&self) -> &[T]
        ensures value { result.now ≡ self.now }
        ensures sorted { IsStrictlySortedBy T.cmp self.now }
    {
        self.elements.as_slice()
    }

    /// Whether the element is one of this product.
    pub fn contains(&self, element: T) -> bool
        ensures { IsTrue result ↔ Contains self.now element }
    {
        sorted::contains(self.elements(), element)
    }

    /// Whether each element of the other product is one of this.
    pub fn contains_all(&self, other: &Product<T>) -> bool
        ensures { IsTrue result ↔ IsWithin other.now self.now }
    {
        sorted::contains_all(self.elements(), other.elements())
    }

    /// The product of the elements of both.
    pub fn merged(&self, other: &Product<T>) -> Result<Product<T>, AllocError>
        ensures { IfOk result (IsUnion self.now other.now) }
    {
        let alloc = *self.elements.allocator();
        let elements = sorted::merge(alloc, self.elements(), other.elements())?;
        Ok(Product { elements })
    }

    /// The product of all elements but this one.
    pub fn without(&self, element: T) -> Result<Product<T>, AllocError>
        ensures { IfOk result (IsWithout self.now element) }
    {
        let alloc = *self.elements.allocator();
        let elements = sorted::without(alloc, self.elements(), element)?;
        Ok(Product { elements })
    }
}

impl<T: Element> Clone for Product<T> {
    ghost is_clone = { λ product copy. copy ≡ product };

    fn clone(&self) -> Result<Product<T>, AllocError> {
        let alloc = *self.elements.allocator();
        let elements = Vec::from_slice(alloc, self.elements())?;
        Ok(Product { elements })
    }
}

impl<T: Element> PartialEq for Product<T> {
    ghost eq = { pointwise T.PartialEq.eq };

    ghost laws = { lists_per T.PartialEq.laws };

    fn eq(&self, other: &Product<T>) -> bool {
        self.elements == other.elements
    }
}

impl<T: Element> Eq for Product<T> {
    ghost laws = { lists_equiv T.Eq.laws };
}

/// Products go by their lists of elements, a prefix first.
impl<T: Element> PartialOrd for Product<T> {
    ghost partial_cmp = { slice_partial_cmp T.PartialOrd.partial_cmp };

    ghost laws = { lists_po T.PartialOrd.laws };

    fn partial_cmp(&self, other: &Product<T>) -> Option<Ordering> {
        self.elements.partial_cmp(&other.elements)
    }
}

impl<T: Element> Ord for Product<T> {
    ghost cmp = { slice_cmp T.Ord.cmp };

    ghost total = { lists_total T.Ord.total };

    ghost matches_partial_cmp = { lists_agrees T.Ord.matches_partial_cmp };

    ghost matches_eq = { lists_ties T.Ord.cmp T.Ord.matches_eq };

    fn cmp(&self, other: &Product<T>) -> Ordering {
        self.elements.cmp(&other.elements)
    }
}

//! Strictly sorted slices, read as finite sets.

ghost use Rattle.std.specs.Prelude.{◌≡◌, ◌↔◌, Contains, IsTrue, IfOk};
ghost use Rattle.std.specs.List.Sorted.{IsStrictlySortedBy};
ghost use Rattle.antichains.specs.Antichains.{IsWithin, IsUnion, IsWithout};

use crate::elements::Element;
use std::alloc::{AllocError, Global};
use std::cmp::Ordering;

/// Whether the element is in the list.
pub fn contains<T: Element>(list: &[T], element: T) -> bool
    requires { IsStrictlySortedBy T.cmp list.now }
    ensures { IsTrue result ↔ Contains list.now element }
{
    list.binary_search(&element).is_ok()
}

/// Whether each of the wanted elements is in the list.
pub fn contains_all<T: Element>(list: &[T], wanted: &[T]) -> bool
    requires list_sorted { IsStrictlySortedBy T.cmp list.now }
    requires wanted_sorted { IsStrictlySortedBy T.cmp wanted.now }
    ensures { IsTrue result ↔ IsWithin wanted.now list.now }
{
    let mut found = 0;
    for element in list {
        if found == wanted.len() {
            return true;
        }
        match element.cmp(&wanted[found]) {
            Ordering::Less => {}
            Ordering::Equal => found += 1,
            Ordering::Greater => return false,
        }
    }
    found == wanted.len()
}

/// Merges two lists, with one of each two equal elements.
pub fn merge<T: Element>(alloc: Global, left: &[T], right: &[T]) -> Result<Vec<T>, AllocError>
    requires left_sorted { IsStrictlySortedBy T.cmp left.now }
    requires right_sorted { IsStrictlySortedBy T.cmp right.now }
    ensures sorted { IfOk result (λ union. IsStrictlySortedBy T.cmp union.items) }
    ensures union { IfOk result (λ union. IsUnion left.now right.now union.items) }
{
    let mut union = Vec::with_capacity(alloc, left.len().saturating_add(right.len()))?;
    let mut i = 0;
    let mut j = 0;
    while i < left.len() && j < right.len() {
        let (first, second) = (left[i], right[j]);
        match first.cmp(&second) {
            Ordering::Less => {
                union.push(first)?;
                i += 1;
            }
            Ordering::Equal => {
                union.push(first)?;
                i += 1;
                j += 1;
            }
            Ordering::Greater => {
                union.push(second)?;
                j += 1;
            }
        }
    }
    union.extend_from_slice(left.split_at(i).1)?;
    union.extend_from_slice(right.split_at(j).1)?;
    Ok(union)
}

/// The list without one element.
pub fn without<T: Element>(alloc: Global, list: &[T], element: T) -> Result<Vec<T>, AllocError>
    requires { IsStrictlySortedBy T.cmp list.now }
    ensures sorted { IfOk result (λ rest. IsStrictlySortedBy T.cmp rest.items) }
    ensures rest { IfOk result (λ rest. IsWithout list.now element rest.items) }
{
    let mut rest = Vec::from_slice(alloc, list)?;
    if let Ok(place) = list.binary_search(&element) {
        rest.remove(place);
    }
    Ok(rest)
}

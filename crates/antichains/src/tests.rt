//! Sums written as text: each product as a `+` and its letters.

use super::*;
use std::alloc::{AllocError, Global};
use std::process::Abort;

#[derive(Clone, Copy, PartialEq, Eq, PartialOrd, Ord)]
struct Letter(u8);

impl Element for Letter {
    ghost use Rattle.std.proofs.Common.{rules};

    ghost exact = { Prim.search (rules) };
}

/// The products of a text, with each letter once.
fn products(alloc: Global, text: &str) -> Result<Vec<Product<Letter>>, AllocError> {
    let mut products = Vec::new(alloc);
    for symbol in text.as_bytes() {
        if *symbol == b'+' {
            products.push(Product::new(alloc))?;
        } else if let Some(product) = products.pop() {
            let letter = Product::single(alloc, Letter(*symbol))?;
            products.push(product.merged(&letter)?)?;
        }
    }
    Ok(products)
}

/// The normal form of a text.
fn sum(alloc: Global, text: &str) -> Result<Antichain<Letter>, AllocError> {
    Antichain::from_products(products(alloc, text)?)
}

/// Asserts that the products are those of the text, in its order.
fn assert_are(
    rt: &impl Abort,
    alloc: Global,
    found: &[Product<Letter>],
    text: &str,
) -> Result<(), AllocError> {
    let wanted = products(alloc, text)?;
    assert!(rt; found == wanted.as_slice(), "at {text}");
    Ok(())
}

#[test]
fn sums_are_normal(rt: HostRuntime) -> Result<(), AllocError> {
    for (text, normal) in [
        ("", ""),
        ("+", "+"),
        ("+ba", "+ab"),
        ("+b+a", "+a+b"),
        ("+aa+a", "+a"),
        ("+ab+a+", "+"),
        ("+ab+b+ca+bc", "+ac+b"),
        ("+abc+ab+b+a+ac", "+a+b"),
    ] {
        assert_are(&rt, rt.alloc(), sum(rt.alloc(), text)?.products(), normal)?;
    }
    Ok(())
}

/// Asserts what two sums join to, and what they meet in.
fn assert_combined(
    rt: &impl Abort,
    alloc: Global,
    (left, right): (&str, &str),
    (joined, met): (&str, &str),
) -> Result<(), AllocError> {
    let (left, right) = (sum(alloc, left)?, sum(alloc, right)?);
    assert_are(rt, alloc, left.join(&right)?.products(), joined)?;
    assert_are(rt, alloc, left.meet(&right)?.products(), met)
}

#[test]
fn sums_join_and_meet(rt: HostRuntime) -> Result<(), AllocError> {
    for (sums, combined) in [
        (("", "+a"), ("+a", "")),
        (("+", "+a"), ("+", "+a")),
        (("+a", "+b"), ("+a+b", "+ab")),
        (("+ab", "+a"), ("+a", "+ab")),
        (("+a+b", "+b+c"), ("+a+b+c", "+ac+b")),
        (("+ab+cd", "+bc"), ("+ab+bc+cd", "+abc+bcd")),
    ] {
        assert_combined(&rt, rt.alloc(), sums, combined)?;
    }
    Ok(())
}

/// The sum of so many letters from this one on.
fn letters(alloc: Global, first: u8, count: u8) -> Result<Antichain<Letter>, AllocError> {
    let mut products = Vec::new(alloc);
    for place in 0..count {
        products.push(Product::single(alloc, Letter(first.wrapping_add(place)))?)?;
    }
    Antichain::from_products(products)
}

#[test]
fn many_products_meet(rt: HostRuntime) -> Result<(), AllocError> {
    let (low, high) = (letters(rt.alloc(), 0, 65)?, letters(rt.alloc(), 100, 65)?);
    let met = low.meet(&high)?;
    assert_eq!(rt; met.products().len(), 65 * 65);
    assert!(rt; met.same(&high.meet(&low)?));
    assert!(rt; !met.same(&low));
    Ok(())
}

/// Asserts which letters a product has, and what it is without one.
fn assert_without(
    rt: &impl Abort,
    alloc: Global,
    text: &str,
    letter: u8,
    rest: &str,
) -> Result<(), AllocError> {
    for product in sum(alloc, text)?.products() {
        let left = [product.without(Letter(letter))?];
        assert_are(rt, alloc, &left, rest)?;
        let there = product.contains(Letter(letter));
        assert_eq!(rt; there, left[0].len() < product.len(), "at {text}");
        assert!(rt; product.contains_all(&left[0]), "at {text}");
        assert_eq!(rt; left[0].contains_all(product), !there, "at {text}");
    }
    Ok(())
}

#[test]
fn products_lose_a_letter(rt: HostRuntime) -> Result<(), AllocError> {
    for (text, letter, rest) in [
        ("+", b'a', "+"),
        ("+a", b'a', "+"),
        ("+abc", b'b', "+ac"),
        ("+abc", b'd', "+abc"),
    ] {
        assert_without(&rt, rt.alloc(), text, letter, rest)?;
    }
    Ok(())
}

//! Derivations that grow by one rule, again and again, over terms that have variables.

ghost use Rattle.std.specs.Prelude.{◌≡◌, IfOk, Some};
ghost use Rattle.trees.specs.Trees.{Tree};
ghost use Rattle.book.specs.Shown.{book_concludes, Extends};
ghost use Rattle.book_tests.specs.Stated.{function_said, number_said};

use crate::runs::given;
use crate::{VARIABLES, VARIABLES_GIVES, variables_are_derived};
use book::{Book, Few, NodeId, RuleUse};
use book_writer::write;
use rows::Maker;
use std::alloc::{AllocError, Global};
use theory::{NatRule, Op, PiRule, RuleName};

/// A function of numbers and a number, which are variables.
fn variables(book: &mut Book) -> Result<(NodeId, NodeId), AllocError>
    ensures function { IfOk result (λ nodes.
        book_concludes book.new nodes.0.0 ≡ Some function_said) }
    ensures number { IfOk result (λ nodes. (t : Tree) ×
        (book_concludes book.new nodes.1.0 ≡ Some (number_said t))) }
{
    variables_are_derived();
    let nodes = given(book, VARIABLES, VARIABLES_GIVES)?;
    let nodes = nodes.as_slice();
    Ok((NodeId(nodes[0]), NodeId(nodes[1])))
}

/// The successor of a number.
fn next(book: &mut Book, number: NodeId) -> Result<NodeId, AllocError>
    requires { (t : Tree) × (book_concludes book.old number.0 ≡ Some (number_said t)) }
    ensures { IfOk result (λ node. (t : Tree) ×
        (book_concludes book.new node.0 ≡ Some (number_said t))) }
{
    let rows = book.conclusion(number).rows();
    Ok(book.conclude(&RuleUse {
        rule: RuleName::Naturals(NatRule::Suc),
        parts: Few::of(rows.as_slice().split_at(2).0),
        premises: Few::of(&[number.0]),
    })?)
}

/// A function of numbers at a number.
fn applied(book: &mut Book, function: NodeId, number: NodeId) -> Result<NodeId, AllocError>
    requires function { book_concludes book.old function.0 ≡ Some function_said }
    requires number { (t : Tree) × (book_concludes book.old number.0 ≡ Some (number_said t)) }
    ensures extends { Extends book.old book.new }
    ensures concludes { IfOk result (λ node. (t : Tree) ×
        (book_concludes book.new node.0 ≡ Some (number_said t))) }
{
    let of_function = book.conclusion(function).rows();
    let of_number = book.conclusion(number).rows();
    let (of_function, of_number) = (of_function.as_slice(), of_number.as_slice());
    let ty = book.make(Op::Nat, &[])?;
    Ok(book.conclude(&RuleUse {
        rule: RuleName::Pi(PiRule::App),
        parts: Few::of(&[of_function[0], of_function[1], of_number[1], ty, ty]),
        premises: Few::of(&[function.0, number.0]),
    })?)
}

/// A variable, and its successors up to the one of this number.
///
/// # Errors
/// Only to be out of memory.
pub fn successors(book: &mut Book, count: u64) -> Result<NodeId, AllocError>
    ensures { IfOk result (λ node. (t : Tree) ×
        (book_concludes book.new node.0 ≡ Some (number_said t))) }
{
    let (_, mut number) = variables(book)?;
    for _ in 0..count {
        number = next(book, number)?;
    }
    Ok(number)
}

/// A variable, and what a function that is one gives of it when it is applied so many times.
///
/// # Errors
/// Only to be out of memory.
pub fn applications(book: &mut Book, count: u64) -> Result<NodeId, AllocError>
    ensures { IfOk result (λ node. (t : Tree) ×
        (book_concludes book.new node.0 ≡ Some (number_said t))) }
{
    let (function, mut number) = variables(book)?;
    for _ in 0..count {
        number = applied(book, function, number)?;
    }
    Ok(number)
}

/// Appends the file of a number; it has so many rows.
///
/// # Errors
/// Only to be out of memory.
pub fn write_number(
    alloc: Global,
    book: &Book,
    number: NodeId,
    into: &mut Vec<u8>,
) -> Result<u64, AllocError>
    requires { (t : Tree) × (book_concludes book.now number.0 ≡ Some (number_said t)) }
{
    Ok(write(book, alloc, &[number], into)?)
}

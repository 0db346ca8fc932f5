//! Forms written in postfix, with what they are; and laws that hold of all forms.

ghost use Rattle.std.specs.Prelude.{◌≡◌, true, false, IfOk};
ghost use Rattle.points.specs.Values.{join, meet, negation};
ghost use Rattle.interval.specs.Forms.{form_value, HasValue};

use crate::{Form, Lattice, Literal};
use std::alloc::{AllocError, Global};
use std::process::Abort;

/// Takes the form on top.
fn popped(rt: &impl Abort, forms: &mut Vec<Form>) -> Form {
    assert!(rt; !forms.is_empty());
    forms.pop().unwrap()
}

/// The meet of the two forms on top, or their join.
fn combined(rt: &impl Abort, forms: &mut Vec<Form>, meets: bool) -> Result<Form, AllocError> {
    let right = popped(rt, forms);
    let left = popped(rt, forms);
    if meets {
        left.meet(&right)
    } else {
        left.join(&right)
    }
}

/// What a symbol of a postfix text makes of the forms before it: `a` to `z` are names, `0` and `1`
/// the ends, `-` negates, `&` meets and `|` joins.
fn form_from(
    rt: &impl Abort,
    alloc: Global,
    forms: &mut Vec<Form>,
    symbol: u8,
) -> Result<Form, AllocError> {
    match symbol {
        b'0' => Form::zero(alloc),
        b'1' => Form::one(alloc),
        b'-' => popped(rt, forms).neg(),
        b'&' | b'|' => combined(rt, forms, symbol == b'&'),
        name => Form::name(alloc, u64::from(name)),
    }
}

/// The form of a postfix text.
fn form_of(rt: &impl Abort, alloc: Global, text: &str) -> Result<Form, AllocError> {
    let mut forms = Vec::new(alloc);
    for symbol in text.as_bytes() {
        let form = form_from(rt, alloc, &mut forms, *symbol)?;
        forms.push(form)?;
    }
    Ok(popped(rt, &mut forms))
}

/// Asserts whether the forms of two postfix texts are the same.
fn assert_same(
    rt: &impl Abort,
    alloc: Global,
    left: &str,
    right: &str,
    same: bool,
) -> Result<(), AllocError> {
    let found = form_of(rt, alloc, left)?.same(&form_of(rt, alloc, right)?);
    assert_eq!(rt; found, same, "at {left} and {right}");
    Ok(())
}

#[test]
fn same_compares_values(rt: HostRuntime) -> Result<(), AllocError> {
    for (left, right, same) in [
        ("aa-&", "0", false),
        ("aa-|", "1", false),
        ("a--", "a", true),
        ("a0|", "a", true),
        ("a1&", "a", true),
        ("1-", "0", true),
        ("ab&", "ba&", true),
        ("aab&|", "a", true),
        ("ab|c&", "ac&bc&|", true),
        ("ab&-", "a-b-|", true),
        ("ab-|a-b|&", "aa-&ab&|a-b-&|bb-&|", true),
        ("ab&", "ac&", false),
        ("ab&", "ab|", false),
    ] {
        assert_same(&rt, rt.alloc(), left, right, same)?;
    }
    Ok(())
}

/// Asserts what the form of a postfix text is with `a` at an end.
fn assert_replaced(
    rt: &impl Abort,
    alloc: Global,
    text: &str,
    end: bool,
    replaced: &str,
) -> Result<(), AllocError> {
    let form = form_of(rt, alloc, text)?.at(u64::from(b'a'), end)?;
    assert!(rt; form.same(&form_of(rt, alloc, replaced)?), "at {text}");
    Ok(())
}

#[test]
fn names_are_replaced(rt: HostRuntime) -> Result<(), AllocError> {
    for (text, zero, one) in [
        ("ab&", "0", "b"),
        ("aa-&", "0", "0"),
        ("a-b&ac&|", "b", "c"),
        ("b", "b", "b"),
    ] {
        assert_replaced(&rt, rt.alloc(), text, false, zero)?;
        assert_replaced(&rt, rt.alloc(), text, true, one)?;
    }
    Ok(())
}

fn joined(left: Form, right: Form) -> Result<Form, AllocError> {
    left.join(&right)
}

/// The join of so many names from this one on.
fn some_of(alloc: Global, first: u64, count: u64) -> Result<Form, AllocError> {
    let mut form = Form::zero(alloc)?;
    for place in 0..count {
        let name = Form::name(alloc, first.wrapping_add(place))?;
        form = joined(form, name)?;
    }
    Ok(form)
}

#[test]
fn many_products(rt: HostRuntime) -> Result<(), AllocError> {
    let nine = some_of(rt.alloc(), 0, 9)?;
    assert_eq!(rt; nine.neg()?.products().len(), 1);
    assert!(rt; nine.neg()?.neg()?.same(&nine));
    let met = some_of(rt.alloc(), 0, 65)?.meet(&some_of(rt.alloc(), 65, 65)?)?;
    assert_eq!(rt; met.products().len(), 65 * 65);
    Ok(())
}

/// The join of a name and its negation.
fn either(alloc: Global, name: u64) -> Result<Form, AllocError> {
    let form = Form::name(alloc, name)?;
    form.join(&form.neg()?)
}

/// All products of twelve names, each name or its negation in each.
#[test]
fn all_products_of_twelve_names(rt: HostRuntime) -> Result<(), AllocError> {
    let mut all = Form::one(rt.alloc())?;
    for name in 0..12 {
        all = all.meet(&either(rt.alloc(), name)?)?;
    }
    assert_eq!(rt; all.products().len(), 4096);
    let literal = Literal {
        name: 11,
        negated: true,
    };
    assert!(rt;
        all.products()
            .iter()
            .any(|product| product.contains(literal.negation()))
    );
    Ok(())
}

fn negated_meet(left: &Form, right: &Form) -> Result<Form, AllocError>
    ensures { IfOk result (HasValue (λ valuation.
        negation (meet (form_value left.now valuation) (form_value right.now valuation)))) }
{
    Ok(left.meet(right)?.neg()?)
}

fn joined_negations(left: &Form, right: &Form) -> Result<Form, AllocError>
    ensures { IfOk result (HasValue (λ valuation. join
        (negation (form_value left.now valuation)) (negation (form_value right.now valuation)))) }
{
    Ok(left.neg()?.join(&right.neg()?)?)
}

/// The negation of a meet is the join of the negations.
fn negates_meet(left: &Form, right: &Form) -> Result<bool, AllocError>
    ensures { IfOk result (λ same. same ≡ true) }
{
    let negated = negated_meet(left, right)?;
    let joined = joined_negations(left, right)?;
    Ok(negated.same(&joined))
}

fn negated_join(left: &Form, right: &Form) -> Result<Form, AllocError>
    ensures { IfOk result (HasValue (λ valuation.
        negation (join (form_value left.now valuation) (form_value right.now valuation)))) }
{
    Ok(left.join(right)?.neg()?)
}

fn met_negations(left: &Form, right: &Form) -> Result<Form, AllocError>
    ensures { IfOk result (HasValue (λ valuation. meet
        (negation (form_value left.now valuation)) (negation (form_value right.now valuation)))) }
{
    Ok(left.neg()?.meet(&right.neg()?)?)
}

/// The negation of a join is the meet of the negations.
fn negates_join(left: &Form, right: &Form) -> Result<bool, AllocError>
    ensures { IfOk result (λ same. same ≡ true) }
{
    let negated = negated_join(left, right)?;
    let met = met_negations(left, right)?;
    Ok(negated.same(&met))
}

/// The negation of a negation is the form.
fn negates_twice(form: &Form) -> Result<bool, AllocError>
    ensures { IfOk result (λ same. same ≡ true) }
{
    Ok(form.neg()?.neg()?.same(form))
}

/// The meet of a name and its negation is not 0.
fn contradicts(alloc: Global, name: u64) -> Result<bool, AllocError>
    ensures { IfOk result (λ same. same ≡ false) }
{
    let form = Form::name(alloc, name)?;
    let both = form.meet(&form.neg()?)?;
    Ok(both.same(&Form::zero(alloc)?))
}

#[test]
fn laws_hold(rt: HostRuntime) -> Result<(), AllocError> {
    let left = form_of(&rt, rt.alloc(), "ab&c-|")?;
    let right = form_of(&rt, rt.alloc(), "ca-&b|")?;
    assert!(rt; negates_meet(&left, &right)?);
    assert!(rt; negates_join(&left, &right)?);
    assert!(rt; negates_twice(&left)?);
    assert!(rt; !contradicts(rt.alloc(), 0)?);
    Ok(())
}

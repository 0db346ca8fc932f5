//! Faces written in postfix, with what they are and what they follow from.

ghost use Rattle.std.specs.Prelude.{◌≡◌, false, IfOk};

use crate::{Equation, Face, Lattice};
use interval::Form;
use std::alloc::{AllocError, Global};
use std::process::Abort;

/// Takes the item on top.
fn popped<T: Lattice>(rt: &impl Abort, items: &mut Vec<T>) -> T {
    assert!(rt; !items.is_empty());
    items.pop().unwrap()
}

/// The meet of the two items on top, or their join.
fn combined<T: Lattice>(rt: &impl Abort, items: &mut Vec<T>, meets: bool) -> Result<T, AllocError> {
    let right = popped(rt, items);
    let left = popped(rt, items);
    if meets {
        left.meet(&right)
    } else {
        left.join(&right)
    }
}

/// What a symbol makes of the forms before it: `a` to `z` are names, `-` negates, `&` meets and `|`
/// joins.
fn form_from(
    rt: &impl Abort,
    alloc: Global,
    forms: &mut Vec<Form>,
    symbol: u8,
) -> Result<Form, AllocError> {
    match symbol {
        b'&' | b'|' => combined(rt, forms, symbol == b'&'),
        b'-' => popped(rt, forms).neg(),
        name => Form::name(alloc, u64::from(name)),
    }
}

/// What a symbol makes of the forms and faces before it: `_` is false, `^` is true, `0` and `1`
/// take the form that is to be at that end, `A` to `Z` make the names `a` to `z` of the face on top
/// free, `*` meets and `+` joins.
fn face_from(
    rt: &impl Abort,
    alloc: Global,
    forms: &mut Vec<Form>,
    faces: &mut Vec<Face>,
    symbol: u8,
) -> Result<Face, AllocError> {
    match symbol {
        b'_' => Face::bottom(alloc),
        b'^' => Face::top(alloc),
        b'0' | b'1' => Face::eq(alloc, &popped(rt, forms), symbol == b'1'),
        b'*' | b'+' => combined(rt, faces, symbol == b'*'),
        name => popped(rt, faces).forall(u64::from(name.to_ascii_lowercase())),
    }
}

/// The faces that a postfix text leaves.
fn faces_of(rt: &impl Abort, alloc: Global, text: &str) -> Result<Vec<Face>, AllocError> {
    let mut forms = Vec::new(alloc);
    let mut faces = Vec::new(alloc);
    for symbol in text.as_bytes() {
        match *symbol {
            b'a'..=b'z' | b'-' | b'&' | b'|' => {
                let form = form_from(rt, alloc, &mut forms, *symbol)?;
                forms.push(form)?;
            }
            _ => {
                let face = face_from(rt, alloc, &mut forms, &mut faces, *symbol)?;
                faces.push(face)?;
            }
        }
    }
    Ok(faces)
}

/// The face of a postfix text.
fn face_of(rt: &impl Abort, alloc: Global, text: &str) -> Result<Face, AllocError> {
    Ok(popped(rt, &mut faces_of(rt, alloc, text)?))
}

/// Asserts that a face made from one text has the conjunctions of another text's.
fn assert_is(
    rt: &impl Abort,
    alloc: Global,
    face: &Face,
    text: &str,
    normal: &str,
) -> Result<(), AllocError> {
    let wanted = face_of(rt, alloc, normal)?;
    assert!(rt; face.parts() == wanted.parts(), "{text} is not {normal}");
    Ok(())
}

#[test]
fn faces_have_a_normal_form(rt: HostRuntime) -> Result<(), AllocError> {
    for (text, normal) in [
        ("a0a1*", "_"),
        ("a0_*", "_"),
        ("a0^*", "a0"),
        ("a0_+", "a0"),
        ("b1a0*", "a0b1*"),
        ("a0a0b1*+", "a0"),
        ("a0b1+c0*", "a0c0*b1c0*+"),
        ("a0b1+a1b0+*", "a0b0*a1b1*+"),
        ("a0b1+A", "b1"),
        ("a0b1*A", "_"),
        ("a0b1+^+A", "^"),
        ("a-0", "a1"),
        ("ab&0", "a0b0+"),
        ("ab|0", "a0b0*"),
        ("aa-&1", "_"),
        ("aa-|1", "a0a1+"),
        ("ab-|a-b|&0", "a0b1*a1b0*+"),
        ("ab&c-d&|1", "a1b1*c0d1*+"),
    ] {
        let face = face_of(&rt, rt.alloc(), text)?;
        assert_is(&rt, rt.alloc(), &face, text, normal)?;
    }
    Ok(())
}

#[test]
fn names_are_put_at_ends(rt: HostRuntime) -> Result<(), AllocError> {
    for (text, end, restricted) in [
        ("a0b1*", false, "b1"),
        ("a0b1*", true, "_"),
        ("a0b1+", false, "^"),
        ("a0b1+", true, "b1"),
        ("a0b0*a1c1*+", false, "b0"),
        ("a0b0*a1c1*+", true, "c1"),
        ("b0", true, "b0"),
    ] {
        let face = face_of(&rt, rt.alloc(), text)?.restrict(u64::from(b'a'), end)?;
        assert_is(&rt, rt.alloc(), &face, text, restricted)?;
    }
    Ok(())
}

#[test]
fn faces_hold(rt: HostRuntime) -> Result<(), AllocError> {
    for (text, given, holds) in [
        ("a0a1+", "", false),
        ("^", "", true),
        ("_", "", false),
        ("a0", "a0b1*", true),
        ("a0b1*", "a0", false),
        ("a0b1+", "a0", true),
        ("a0", "a0b1+", false),
        ("_", "a0a1*", true),
        ("a0c0+", "a0b0*a1c0*+", true),
        ("a0b0*", "a0b0", true),
        ("_", "a0a1", true),
        ("a1", "a0b0", false),
        ("a0b1+", "a0c1+b1c0+", true),
        ("a0b1+", "a0c1+b1c1+", false),
        ("d1b1c0*+", "a0b0+a1c0+b1d1+", true),
        ("d1", "a0b0+a1c0+b1d1+", false),
        ("d1", "a0b0+a1c0+b1c1+c0d1+", false),
        ("d1b1c0*+", "a0b0+a1c0+b1d1+e0", true),
        ("a0", "a0b0+a0b1+c0d0", true),
    ] {
        let given = faces_of(&rt, rt.alloc(), given)?;
        let found = face_of(&rt, rt.alloc(), text)?.holds_under(&given)?;
        assert_eq!(rt; found, holds, "at {text}");
    }
    Ok(())
}

/// The face of a name at an end.
fn at_end(alloc: Global, name: u64, end: bool) -> Result<Face, AllocError> {
    let form = Form::name(alloc, name)?;
    Face::eq(alloc, &form, end)
}

/// The one name is at 0 and the other one at 1.
fn turn(alloc: Global, low: u64, high: u64) -> Result<Face, AllocError> {
    let high = at_end(alloc, high, true)?;
    at_end(alloc, low, false)?.meet(&high)
}

fn joined(left: Face, right: Face) -> Result<Face, AllocError> {
    left.join(&right)
}

/// The names 0 to 11 in a circle: one of them is at 0 and the next one at 1.
fn circle(alloc: Global) -> Result<Face, AllocError> {
    let mut face = Face::bottom(alloc)?;
    for name in 0..12u64 {
        let next = turn(alloc, name, (name + 1) % 12)?;
        face = joined(face, next)?;
    }
    Ok(face)
}

/// One of the names 0 to 11 is at 0.
fn some_zero(alloc: Global) -> Result<Face, AllocError> {
    let mut face = Face::bottom(alloc)?;
    for name in 0..12u64 {
        let next = at_end(alloc, name, false)?;
        face = joined(face, next)?;
    }
    Ok(face)
}

#[test]
fn a_dozen_conjunctions_of_a_dozen_names(rt: HostRuntime) -> Result<(), AllocError> {
    let given = [circle(rt.alloc())?];
    assert_eq!(rt; given[0].parts().len(), 12);
    assert_eq!(rt; given[0].forall(3)?.parts().len(), 10);
    assert_eq!(rt; given[0].restrict(3, true)?.parts().len(), 11);
    let face = some_zero(rt.alloc())?;
    assert!(rt; face.holds_under(&given)?);
    assert!(rt; !face.forall(5)?.holds_under(&given)?);
    Ok(())
}

/// The two ends of a name do not make up its line.
fn ends_hold(alloc: Global, name: u64) -> Result<bool, AllocError>
    ensures { IfOk result (λ holds. holds ≡ false) }
{
    let form = Form::name(alloc, name)?;
    let ends = Face::eq(alloc, &form, false)?.join(&Face::eq(alloc, &form, true)?)?;
    ends.holds_under(&[])
}

#[test]
fn ends_do_not_hold(rt: HostRuntime) -> Result<(), AllocError> {
    assert!(rt; !ends_hold(rt.alloc(), 0)?);
    let (zero, one) = (
        Equation {
            name: 0,
            end: false,
        },
        Equation { name: 0, end: true },
    );
    assert!(rt; one.opposite() == zero);
    Ok(())
}

//! Names as they are bound, found and taken away.

use scopes::{Binding, Found, Name, Place, Scope, ScopeName, ScopeNames};
use std::test::Fail;
use translation::{BuiltIn, Cause, Refusal};

#[test]
fn the_newest_name_is_found(rt: HostRuntime) -> Result<(), Fail> {
    let mut names = ScopeNames::new(rt.alloc());
    let name = Name::new(rt.alloc(), b"zero")?;
    names.push(ScopeName { name, def: 3 })?;
    let scope = Scope { names, next: 7 };
    let mut place = Place::new(rt.alloc(), &scope)?;
    place.bind(b"x", Binding::Variable)?;
    let mark = place.mark();
    place.bind(b"i", Binding::Interval)?;
    place.bind(b"x", Binding::Definition(7))?;
    assert_eq!(rt; place.find(b"x"), Found::Definition(7));
    assert_eq!(rt; place.find(b"i"), Found::Interval(0));
    assert_eq!(rt; place.find(b"zero"), Found::Definition(3));
    place.cut(mark);
    assert_eq!(rt; place.find(b"x"), Found::Variable(0));
    assert_eq!(rt; place.find(b"i"), Found::Nothing);
    assert_eq!(rt; place.find(b"nat"), Found::BuiltIn(BuiltIn::Nat));
    assert_eq!(rt; place.find(b"_"), Found::Nothing);
    Ok(())
}

#[test]
fn the_first_refusal_stays(rt: HostRuntime) -> Result<(), Fail> {
    let scope = Scope {
        names: ScopeNames::new(rt.alloc()),
        next: 7,
    };
    let mut place = Place::new(rt.alloc(), &scope)?;
    assert_eq!(rt; place.take_number()?, 7);
    assert_eq!(rt; place.next(), 8);
    place.refuse(5, Cause::Twice);
    place.refuse(9, Cause::Unbound);
    let cause = Cause::Twice;
    assert_eq!(rt; place.refusal(), Some(Refusal { at: 5, cause }));
    assert!(rt; scope.names.as_slice().is_empty());
    Ok(())
}

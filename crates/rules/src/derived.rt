//! The trees that rules make of their parts by programs of their own.

ghost use Rattle.std.specs.Prelude.{◌≡◌};
ghost use Rattle.rules.specs.DerivedTrees.{arity_of};

// Written by tools/write_rules.py from here on.

/// A tree that is made of others, and that a program of its own makes. What each is stands in
/// `specs/Table.antt`.
#[derive(Clone, Copy, Debug, PartialEq, Eq)]
pub enum Derived {
    Fill,
    Back,
    IsContr,
    Fiber,
    IsEquiv,
    Equiv,
    Contr,
    Ext,
    Pres,
    CompPi,
    CompSig,
    CompPath,
    GlueBase,
    GlueFiber,
    GlueEnd,
    GlueFrom,
    CompGlue,
    EqvU,
    EqvM,
    EqvN,
    EqvO,
    EqvCentre,
    EqvSquare,
    EqvContraction,
    EqvPath,
    EqvFiber,
    EqvFrom,
    Eqv,
    CompU,
}

/// The number of trees that a derived tree is made of.
pub fn arity(derived: Derived) -> usize
    ensures { result ≡ arity_of derived }
{
    match derived {
        Derived::Fill => 5,
        Derived::Back => 3,
        Derived::IsContr => 1,
        Derived::Fiber => 4,
        Derived::IsEquiv => 3,
        Derived::Equiv => 2,
        Derived::Contr => 4,
        Derived::Ext => 6,
        Derived::Pres => 6,
        Derived::CompPi => 5,
        Derived::CompSig => 5,
        Derived::CompPath => 6,
        Derived::GlueBase => 7,
        Derived::GlueFiber => 8,
        Derived::GlueEnd => 8,
        Derived::GlueFrom => 8,
        Derived::CompGlue => 7,
        Derived::EqvU => 3,
        Derived::EqvM => 5,
        Derived::EqvN => 6,
        Derived::EqvO => 4,
        Derived::EqvCentre => 3,
        Derived::EqvSquare => 7,
        Derived::EqvContraction => 6,
        Derived::EqvPath => 4,
        Derived::EqvFiber => 4,
        Derived::EqvFrom => 2,
        Derived::Eqv => 1,
        Derived::CompU => 3,
    }
}

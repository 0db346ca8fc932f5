//! What products are made of.

ghost use Rattle.std.specs.Prelude.{◌≡◌};
ghost use Rattle.std.specs.declared.cmp.Ordering.TheVariants.{Equal};

/// An element of products. Elements that compare as equal are the same.
pub trait Element: Ord + Copy {
    ghost exact: { (x y : Self) → Self.Ord.cmp x y ≡ Equal → x ≡ y };
}

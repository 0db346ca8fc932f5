//! Names as they are bound.

ghost use Rattle.std.specs.Prelude.{◌≡◌, IfOk, map};
ghost use Rattle.translation.specs.Texts.{word};
ghost use Rattle.scopes.specs.declared.names.Binding.TheVariants.{Definition as a_definition};
ghost use Rattle.scopes.specs.Finding.{find};
ghost use Rattle.scopes.specs.Steps.{all_bound_to, bound_to, checked, is_newer};

use crate::names::References;
use layout_lexer::Span;
use scopes::{Binding, Found, Place};
use std::alloc::AllocError;
use translation::Cause;

impl<'a> References<'a> {
    /// Binds names, as variables or as names of the interval.
    pub fn bind_all(
        &self,
        place: &mut Place<'a>,
        names: &[Span],
        binding: Binding,
    ) -> Result<(), AllocError>
        ensures { IfOk result (λ _.
            place.new ≡ all_bound_to place.old (map (word self.now.bytes.now) names.now) binding) }
    {
        for name in names {
            place.bind(self.spelling(*name), binding)?;
        }
        Ok(())
    }

    /// Binds the name of a definition, in a block whose first number is this.
    pub fn define(
        &self,
        place: &mut Place<'a>,
        first: u32,
        name: Span,
        number: u32,
    ) -> Result<(), AllocError>
        ensures { IfOk result (λ _. let w = word self.now.bytes.now name in
            let is_twice = is_newer first (find place.old.names w) in
            place.new ≡ record (bound_to place.old w (a_definition number)) {
              so_far = checked place.old.so_far is_twice name.start;
            }) }
    {
        let spelling = self.spelling(name);
        let is_again = match place.find(spelling) {
            Found::Definition(older) => older >= first,
            _ => false,
        };
        place.bind(spelling, Binding::Definition(number))?;
        if is_again {
            place.refuse(name.start, Cause::Twice);
        }
        Ok(())
    }
}

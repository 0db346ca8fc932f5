//! The binder that a tele writes.

ghost use Rattle.std.specs.Prelude.{◌≡◌, IfOk, length};
ghost use Rattle.scopes.specs.declared.names.Binding.TheVariants.{Variable as a_variable};
ghost use Rattle.scopes.specs.Steps.{all_bound_to};
ghost use Rattle.resolved_forms.specs.Spelt.{words_of};

use codes::{Binder, Code};
use name_resolution::References;
use scopes::{Binding, Place};
use std::alloc::AllocError;
use syntax::Tele;

/// The binder of a tele whose type has this code. Its names stay bound.
pub fn binder<'a>(
    names: &References<'a>,
    place: &mut Place<'a>,
    tele: &Tele,
    ty: Code,
) -> Result<Binder, AllocError>
    ensures binds { let words = words_of names.now.bytes.now tele.now.names in
        IfOk result (λ _. place.new ≡ all_bound_to place.old words a_variable) }
    ensures made { IfOk result (λ b. b ≡ record { names = length tele.now.names; ty = ty }) }
{
    let variables = tele.names.as_slice();
    names.bind_all(place, variables, Binding::Variable)?;
    Ok(Binder {
        names: variables.len(),
        ty,
    })
}

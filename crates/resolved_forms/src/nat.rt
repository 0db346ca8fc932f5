//! The built-in `nat` in a text.

ghost use Rattle.std.specs.Prelude.{◌≡◌, ℕ, is_some};
ghost use Rattle.syntax.specs.View.{tree_of};
ghost use Rattle.translation.specs.Names.{Word};
ghost use Rattle.translation.specs.Scopes.{Scope};
ghost use Rattle.scopes.specs.Steps.{Agree};
ghost use Rattle.resolved_forms.specs.Shaped.{nat_in};
ghost use Rattle.resolved_forms.specs.Spelt.{is_nat_of};

use crate::bare::bare;
use layout_lexer::Span;
use name_resolution::References;
use scopes::{Found, Place};
use syntax::Exp;
use translation::BuiltIn;

/// Where the text is the built-in `nat`, in any brackets, and nowhere else: its name.
pub(crate) fn built_in_nat<'a>(names: &References<'a>, place: &Place<'a>, exp: &Exp) -> Option<Span>
    ensures told { (G : Scope Word) (H : Scope ℕ) → Agree place.now G H
        → is_nat_of names.now.bytes.now exp.now G ≡ is_some result }
    ensures named { result ≡ nat_in names.now.bytes.now place.now.names (tree_of exp.now) }
{
    let Exp::Name { span } = bare(exp) else {
        return None;
    };
    let Found::BuiltIn(built_in) = place.find(names.spelling(*span)) else {
        return None;
    };
    match built_in {
        BuiltIn::Nat => Some(*span),
        _ => None,
    }
}

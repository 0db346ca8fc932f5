//! The argument that stands first among what a head is applied to.

ghost use Rattle.resolved_forms.specs.Arguments.{Leads};

use syntax::{Element, Exp};

/// The first element, if it is an argument, and what stands behind it.
pub fn first_argument(elements: &[Element]) -> Option<(&Exp, &[Element])>
    ensures { Leads elements.now result }
{
    match elements {
        [] => None,
        [first, rest @ ..] => match first {
            Element::Argument(argument) => Some((argument, rest)),
            Element::At(..) => None,
        },
    }
}

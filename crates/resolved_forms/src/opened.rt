//! Texts where a line, a motive of `natrec` or a pair is wanted.

ghost use Rattle.resolved_forms.specs.Opened.{IsLineAbove, IsMotiveAbove, IsPairAbove};
ghost use Rattle.resolved_forms.specs.Opened.{ReadsLine, ReadsMotive, ReadsPair};

use crate::bare::bare;
use crate::nat::built_in_nat;
use layout_lexer::Span;
use name_resolution::References;
use scopes::Place;
use syntax::{Exp, Tele};

/// A text where a line is wanted.
#[derive(Clone, Copy)]
pub enum LineText<'e> {
    /// `< name others > body`, which stands opened under the first name.
    Under {
        name: Span,
        others: &'e [Span],
        body: &'e Exp,
    },
    /// A term that is applied to the name.
    Applied,
}

/// A text where the motive of `natrec` is wanted.
#[derive(Clone, Copy)]
pub enum MotiveText<'e> {
    /// `\ (name others : nat) teles -> body`, which stands opened under the first variable.
    Under {
        name: Span,
        others: &'e [Span],
        nat: Span,
        teles: &'e [Tele],
        body: &'e Exp,
    },
    /// A term that is applied to the variable.
    Applied,
}

/// A text where a pair of a type and an equivalence is wanted.
#[derive(Clone, Copy)]
pub enum PairText<'e> {
    /// `(ty, equivalence)`, of which the second may be several in turn.
    Pair {
        span: Span,
        ty: &'e Exp,
        equivalence: &'e [Exp],
    },
    /// No written pair, but a term.
    Term,
}

/// How a text stands where a line is wanted.
pub fn line_text(exp: &Exp) -> LineText<'_>
    ensures reads { ReadsLine exp.now result }
    ensures smaller { IsLineAbove exp.now result }
{
    let Exp::PathLambda {
        span: _,
        names,
        body,
    } = bare(exp)
    else {
        return LineText::Applied;
    };
    match names.as_slice() {
        [] => LineText::Applied,
        [name, others @ ..] => LineText::Under {
            name: *name,
            others,
            body,
        },
    }
}

/// How a text stands where the motive of `natrec` is wanted.
pub fn motive_text<'a, 'e>(
    names: &References<'a>,
    place: &Place<'a>,
    exp: &'e Exp,
) -> MotiveText<'e>
    ensures reads { ReadsMotive names.now.bytes.now place.now exp.now result }
    ensures smaller { IsMotiveAbove exp.now result }
{
    let Exp::Lambda {
        span: _,
        teles,
        body,
    } = bare(exp)
    else {
        return MotiveText::Applied;
    };
    match teles.as_slice() {
        [] => motive_text(names, place, body),
        [first, teles @ ..] => {
            let Some(nat) = built_in_nat(names, place, &first.ty) else {
                return MotiveText::Applied;
            };
            match first.names.as_slice() {
                [] => MotiveText::Applied,
                [name, others @ ..] => MotiveText::Under {
                    name: *name,
                    others,
                    nat,
                    teles,
                    body,
                },
            }
        }
    }
}

/// How a text stands where a pair is wanted.
pub fn pair_text(exp: &Exp) -> PairText<'_>
    ensures reads { ReadsPair exp.now result }
    ensures smaller { IsPairAbove exp.now result }
{
    let Exp::Brackets { span, components } = bare(exp) else {
        return PairText::Term;
    };
    match components.as_slice() {
        [] => PairText::Term,
        [ty, equivalence @ ..] => PairText::Pair {
            span: *span,
            ty,
            equivalence,
        },
    }
}

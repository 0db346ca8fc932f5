//! The words that begin a form.

ghost use Rattle.productions.specs.Words.{word_of};
ghost use Rattle.parser_states.specs.View.{IsFormWord};

use layout_lexer::Kind;

/// `comp` and `fill`
#[derive(Clone, Copy)]
pub enum Composing {
    Composed,
    Filled,
}

/// `Glue`, `glue` and `unglue`
#[derive(Clone, Copy)]
pub enum Gluing {
    Type,
    Term,
    Unglued,
}

/// The words that two expressions or more follow.
#[derive(Clone, Copy)]
pub enum Pairing {
    Path,
    Composing(Composing),
    Transport,
}

/// The words that begin a form.
#[derive(Clone, Copy)]
pub enum FormWord {
    Pairing(Pairing),
    Gluing(Gluing),
}

/// The form that begins with a token.
#[inline(always)]
pub fn form_word(kind: Kind) -> Option<FormWord>
    ensures { IsFormWord (word_of kind) result }
{
    match kind {
        Kind::PathP => Some(FormWord::Pairing(Pairing::Path)),
        Kind::Comp => Some(FormWord::Pairing(Pairing::Composing(Composing::Composed))),
        Kind::Fill => Some(FormWord::Pairing(Pairing::Composing(Composing::Filled))),
        Kind::Transport => Some(FormWord::Pairing(Pairing::Transport)),
        Kind::GlueType => Some(FormWord::Gluing(Gluing::Type)),
        Kind::GlueTerm => Some(FormWord::Gluing(Gluing::Term)),
        Kind::Unglue => Some(FormWord::Gluing(Gluing::Unglued)),
        _ => None,
    }
}

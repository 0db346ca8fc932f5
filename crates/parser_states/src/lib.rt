//! The states of the parser of modules: what was read last, and what is open round it.
//!
//! `specs/View` says which state of `productions` each one stands for, and so what a step has to
//! give.
//!
//! ```text
//! form_word(Kind::PathP)               // Some(FormWord::Pairing(Pairing::Path))
//! form_word(Kind::U)                   // None
//! keep_exp(exps, 0, exp)?              // exps: what is too deep is not kept
//! ```
#![tactic(auto)]

mod lists;
mod places;
mod state;
mod words;

pub use lists::{
    inside, keep_def, keep_element, keep_exp, keep_side, keep_tele, shallow, shallow_formula, span,
    spanned, under, with_name,
};
pub use state::{
    Binder, Block, Bracket, BracketNames, Frame, Given, Heading, HeldSlot, Inner, Items, Named,
    Names, Operand, Owner, Parser, Place, Prefix, Projected, SidesSoFar, Slot, Spine, Stop, System,
    TelesSoFar, Top, Typing, Use,
};
pub use words::{Composing, FormWord, Gluing, Pairing, form_word};

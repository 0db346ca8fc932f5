//! The tokens of a module's text, with the marks that its layout stands for.
//!
//! Two parts, each with a definition of its own: a scanner cuts the text in pieces, each the
//! longest that the rest begins with, and layout sets marks between the tokens as they come.
//!
//! ```text
//! tokens(alloc, b"let\nx")?            // `let`, the mark Open, a name at the bytes 4..5, Close
//! tokens(alloc, b"x.1")?               // a name at 0..1, and `.1` at 1..3
//! tokens(alloc, b"x.")                 // Err(LexFault::BadByte(1))
//! ```
#![tactic(auto)]

mod blocks;
mod cursor;
mod fault;
mod layout;
mod lexer;
mod pieces;
mod scanner;
mod text;
mod token;
mod words;

pub use fault::LexFault;
pub use lexer::{MAX_LEN, tokens};
pub use text::Text;
pub use token::{Kind, Span, Spans, Token, Tokens};
pub use words::spelling;

//! Why a text has no tokens.

use thiserror::Error;

/// Why a text has no tokens. Places are counted in bytes.
#[derive(Clone, Copy, Debug, PartialEq, Eq, Error)]
pub enum LexFault {
    /// At the place no character of UTF-8 begins.
    #[error("no character begins at byte {0}")]
    NotUtf8(u32),
    /// The character at the place begins no token, no comment and no space.
    #[error("no token begins at byte {0}")]
    BadByte(u32),
    /// A comment begins at the place that doesn't end.
    #[error("the comment that begins at byte {0} has no end")]
    OpenComment(u32),
    /// The text has more than 16,777,216 bytes.
    #[error("the text has more than 16,777,216 bytes")]
    TooLong,
    /// Out of memory.
    #[error("out of memory")]
    Memory,
}

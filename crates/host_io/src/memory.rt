//! Files, a source and a sink in memory, for tests. Each fails at the calls that it was told.

mod files;
mod script;
mod sink;
mod source;

pub use files::MemFiles;
pub use sink::MemSink;
pub use source::MemSource;

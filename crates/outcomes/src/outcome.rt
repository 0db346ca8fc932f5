//! How commands end, the texts of that and the statuses.

ghost use Rattle.std.specs.Prelude.{◌≡◌, IfOk, IsOk, string_bytes};
ghost use Rattle.std.specs.Cow.{cow_str_bytes};
ghost use Rattle.outcomes.specs.Outcomes.{made_text, plain_text, status_of};

use crate::refusal::{Refusal, in_path};
use evidence::Shown;
use replay::Verdict;
use std::alloc::{AllocError, Global};
use std::borrow::CowStr;

/// The status that the program ends with.
#[derive(Clone, Copy, Debug, PartialEq, Eq)]
pub enum Status {
    /// The job was done.
    Yes,
    /// The file was refused.
    No,
    /// The words are no command.
    Usage,
    /// A read or a write failed.
    Fault,
    /// A question reached its budget.
    Spent,
    /// It was out of memory.
    Memory,
}

/// How a command ended. Out of memory is none of these.
#[derive(Drop)]
pub enum Outcome {
    /// What was found of the rows of a derivation file.
    Judged(Verdict),
    /// All rows are right, and this root is the first that is not the module's.
    RootDiffers(u64),
    /// A module is refused.
    Refused(Refusal),
    /// A definition is refused, with the texts that show why.
    Refuted(Refusal, Shown),
    /// The file at the path is not there.
    MissingFile(String),
    /// A file could not be read.
    ReadFault,
    /// All of a module's definitions are right, and those of its imports: so many.
    Checked(u64),
    /// The text of a normal form, with its newline.
    Shown(String),
    /// The text of a module that was made, how many definitions it has, and how many roots of their
    /// derivation were judged right.
    Made {
        text: String,
        definitions: u64,
        roots: u64,
    },
    /// A question reached its budget, in moves, which was asked of the form at this byte of the
    /// file at the path, or of the line of the prompt.
    Spent {
        turns: u64,
        at: u32,
        path: Option<String>,
    },
    /// A file could not be stored.
    WriteFault,
    /// The words are no command.
    Usage,
}

/// It names the commands of the whole program, also those that are not built yet.
const USAGE: &str = "usage: ctt check MODULE [--turns N] [--json] | replay FILE [--of MODULE] | \
     normal MODULE NAME [--turns N] | prompt MODULE [--turns N] | make N\n";

/// The text of a module that was made, and how it was judged.
fn made_text(alloc: Global, text: &str, definitions: u64, roots: u64) -> Result<String, AllocError>
    ensures { IfOk result (λ shown. string_bytes shown ≡ made_text text.now definitions roots) }
{
    format!(in alloc; "{text}yes: {definitions} definitions\nreplayed: {roots} roots\n")
}

impl Outcome {
    /// The status once the text is printed.
    pub fn status(&self) -> Status
        ensures { result ≡ status_of self.now }
    {
        match self {
            Outcome::Judged(Verdict::Yes { rows: _, roots: _ }) => Status::Yes,
            Outcome::Judged(Verdict::No { row: _ }) => Status::No,
            Outcome::RootDiffers(_) => Status::No,
            Outcome::Refused(_) => Status::No,
            Outcome::Refuted(_, _) => Status::No,
            Outcome::MissingFile(_) => Status::No,
            Outcome::ReadFault => Status::Fault,
            Outcome::Checked(_) => Status::Yes,
            Outcome::Shown(_) => Status::Yes,
            Outcome::Made {
                text: _,
                definitions: _,
                roots: _,
            } => Status::Yes,
            Outcome::Spent {
                turns: _,
                at: _,
                path: _,
            } => Status::Spent,
            Outcome::WriteFault => Status::Fault,
            Outcome::Usage => Status::Usage,
        }
    }

    /// The text in plain words, with its newline. The only error is out of memory. A text that is
    /// always the same takes none, so that a fault of writing is told for certain.
    pub fn text(&self, alloc: Global) -> Result<CowStr<'static, Global>, AllocError>
        ensures text { IfOk result (λ shown. cow_str_bytes shown ≡ plain_text self.now) }
        ensures fault { self.now ≡ Outcome.WriteFault → IsOk result }
    {
        let made = match self {
            Outcome::ReadFault => return Ok(CowStr::Borrowed("fault: ReadFault\n")),
            Outcome::WriteFault => return Ok(CowStr::Borrowed("fault: WriteFault\n")),
            Outcome::Usage => return Ok(CowStr::Borrowed(USAGE)),
            Outcome::Judged(Verdict::Yes { rows, roots }) => {
                format!(in alloc; "yes: {rows} rows, {roots} roots\n")?
            }
            Outcome::Judged(Verdict::No { row }) => format!(in alloc; "no: row {row}\n")?,
            Outcome::RootDiffers(root) => format!(in alloc; "no: root {root}\n")?,
            Outcome::Refused(refusal) => refusal.text(alloc)?,
            Outcome::Refuted(refusal, shown) => {
                let mut text = refusal.text(alloc)?;
                let lines = shown.text(alloc)?;
                text.push_str(lines.as_str())?;
                text
            }
            Outcome::MissingFile(path) => format!(in alloc; "no: MissingFile in {path}\n")?,
            Outcome::Checked(count) => format!(in alloc; "yes: {count} definitions\n")?,
            Outcome::Shown(text) => String::from_str(alloc, text.as_str())?,
            Outcome::Made {
                text,
                definitions,
                roots,
            } => made_text(alloc, text.as_str(), *definitions, *roots)?,
            Outcome::Spent { turns, at, path } => {
                let place = in_path(alloc, path)?;
                format!(in alloc; "spent: {turns} at {at}{place}\n")?
            }
        };
        Ok(CowStr::Owned(made))
    }
}

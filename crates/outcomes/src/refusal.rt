//! Why a module is refused.

ghost use Rattle.std.specs.Prelude.{◌≡◌, IfOk, Some, string_bytes};
ghost use Rattle.outcomes.specs.Refusals.{cause_name, in_path, refusal, refusal_text};
ghost use Rattle.outcomes.specs.Refusals.{told_lex, told_load, told_read, told_scope};

use crate::outcome::Outcome;
use grammar::ReadFault;
use layout_lexer::LexFault;
use loading::LoadFault;
use std::alloc::{AllocError, Global};
use translation::ScopeFault;

/// Why a module is refused.
#[derive(Clone, Copy, Debug, PartialEq, Eq)]
pub enum Cause {
    /// No character of UTF-8 begins at the place.
    NotUtf8,
    /// No token begins at the place.
    BadByte,
    /// The comment that begins at the place has no end.
    OpenComment,
    /// The text has more than 16,777,216 bytes.
    TooLong,
    /// No module begins with the tokens up to the one at the place.
    Unexpected,
    /// At the place stands a word that no module has, or the name of a definition of which a step
    /// was not taken.
    RefusedForm,
    /// At the place begins the first thing at depth 513.
    TooDeep,
    /// The name at the place is not in scope.
    Unbound,
    /// The name at the place is defined a second time.
    Twice,
    /// The name at the place is not of the kind that is wanted.
    NameKind,
    /// The side at the place is no written pair.
    GlueSide,
    /// An import names a module whose loading has not ended.
    ImportCycle,
    /// An import names one module more than are loaded.
    TooMany,
    /// No definition at the top level of the module, or of those that it reaches, has the name.
    NoSuchName,
    /// At the place stands a pair, a path, an element of a glued type or the universe, where a type
    /// is to be inferred.
    CannotInfer,
    /// The type of what stands at the place is none of functions,
    WantedFunction,
    /// of pairs,
    WantedPair,
    /// of paths,
    WantedPath,
    /// a glued type over the wanted face,
    WantedGlue,
    /// or the universe.
    WantedType,
    /// The universe is wanted to be of the universe.
    UInU,
    /// What was found at the place is not what is wanted.
    Mismatch,
    /// Two sides are not the same where both are, or a side and the base where it starts.
    SidesDiffer,
    /// Two types that are equal have normal forms that differ, and a term of the one is taken apart
    /// as one of the other.
    Unaligned,
}

impl Cause {
    /// What it is called in print.
    pub fn name(self) -> &'static str
        ensures { result.now ≡ cause_name self }
    {
        match self {
            Cause::NotUtf8 => "NotUtf8",
            Cause::BadByte => "BadByte",
            Cause::OpenComment => "OpenComment",
            Cause::TooLong => "TooLong",
            Cause::Unexpected => "Unexpected",
            Cause::RefusedForm => "RefusedForm",
            Cause::TooDeep => "TooDeep",
            Cause::Unbound => "Unbound",
            Cause::Twice => "Twice",
            Cause::NameKind => "NameKind",
            Cause::GlueSide => "GlueSide",
            Cause::ImportCycle => "ImportCycle",
            Cause::TooMany => "TooMany",
            Cause::NoSuchName => "NoSuchName",
            Cause::CannotInfer => "CannotInfer",
            Cause::WantedFunction => "WantedFunction",
            Cause::WantedPair => "WantedPair",
            Cause::WantedPath => "WantedPath",
            Cause::WantedGlue => "WantedGlue",
            Cause::WantedType => "WantedType",
            Cause::UInU => "UInU",
            Cause::Mismatch => "Mismatch",
            Cause::SidesDiffer => "SidesDiffer",
            Cause::Unaligned => "Unaligned",
        }
    }
}

/// Where a file is meant, as a text says it; of a line of the prompt nothing is said.
pub(crate) fn in_path(alloc: Global, path: &Option<String>) -> Result<String, AllocError>
    ensures { IfOk result (λ shown. string_bytes shown ≡ in_path path.now) }
{
    match path {
        Some(path) => format!(in alloc; " in {path}"),
        None => Ok(String::new(alloc)),
    }
}

/// A text that is refused: the cause, and where it stands.
#[derive(Drop)]
pub struct Refusal {
    pub cause: Cause,
    /// In bytes; none for what concerns the whole text.
    pub at: Option<u32>,
    /// The file; none for a line of the prompt.
    pub path: Option<String>,
}

impl Refusal {
    /// The text in plain words, with its newline. The only error is out of memory.
    pub fn text(&self, alloc: Global) -> Result<String, AllocError>
        ensures { IfOk result (λ shown. string_bytes shown ≡ refusal_text self.now) }
    {
        let cause = self.cause.name();
        let place = in_path(alloc, &self.path)?;
        match self.at {
            Some(at) => format!(in alloc; "no: {cause} at {at}{place}\n"),
            None => format!(in alloc; "no: {cause}{place}\n"),
        }
    }
}

/// The text at the path is refused, or the line of the prompt.
pub fn refused(cause: Cause, at: Option<u32>, path: Option<String>) -> Outcome
    ensures { result ≡ refusal cause at path }
{
    Outcome::Refused(Refusal { cause, at, path })
}

/// The text at the path has no tokens. The only error is out of memory.
pub fn of_lex(fault: LexFault, path: Option<String>) -> Result<Outcome, AllocError>
    ensures { IfOk result (λ o. told_lex fault path ≡ Some o) }
{
    match fault {
        LexFault::NotUtf8(at) => Ok(refused(Cause::NotUtf8, Some(at), path)),
        LexFault::BadByte(at) => Ok(refused(Cause::BadByte, Some(at), path)),
        LexFault::OpenComment(at) => Ok(refused(Cause::OpenComment, Some(at), path)),
        LexFault::TooLong => Ok(refused(Cause::TooLong, None, path)),
        LexFault::Memory => Err(AllocError),
    }
}

/// The text at the path is not read. The only error is out of memory.
pub fn of_read(fault: ReadFault, path: Option<String>) -> Result<Outcome, AllocError>
    ensures { IfOk result (λ o. told_read fault path ≡ Some o) }
{
    match fault {
        ReadFault::RefusedForm(at) => Ok(refused(Cause::RefusedForm, Some(at), path)),
        ReadFault::Unexpected(at) => Ok(refused(Cause::Unexpected, Some(at), path)),
        ReadFault::TooDeep(at) => Ok(refused(Cause::TooDeep, Some(at), path)),
        ReadFault::Memory => Err(AllocError),
    }
}

/// A module is not loaded. The only error is out of memory.
pub fn of_load(fault: LoadFault) -> Result<Outcome, AllocError>
    ensures { IfOk result (λ o. told_load fault ≡ Some o) }
{
    match fault {
        LoadFault::Missing(path) => Ok(Outcome::MissingFile(path)),
        LoadFault::Unreadable => Ok(Outcome::ReadFault),
        LoadFault::NoTokens(fault, path) => of_lex(fault, Some(path)),
        LoadFault::NoModule(fault, path) => of_read(fault, Some(path)),
        LoadFault::Cycle(path) => Ok(refused(Cause::ImportCycle, None, Some(path))),
        LoadFault::TooMany(path) => Ok(refused(Cause::TooMany, None, Some(path))),
        LoadFault::Memory => Err(AllocError),
    }
}

/// The text at the path is not resolved. The only error is out of memory.
pub fn of_scope(fault: ScopeFault, path: Option<String>) -> Result<Outcome, AllocError>
    ensures { IfOk result (λ o. told_scope fault path ≡ Some o) }
{
    match fault {
        ScopeFault::Unbound(at) => Ok(refused(Cause::Unbound, Some(at), path)),
        ScopeFault::Twice(at) => Ok(refused(Cause::Twice, Some(at), path)),
        ScopeFault::NameKind(at) => Ok(refused(Cause::NameKind, Some(at), path)),
        ScopeFault::GlueSide(at) => Ok(refused(Cause::GlueSide, Some(at), path)),
        ScopeFault::Memory => Err(AllocError),
    }
}

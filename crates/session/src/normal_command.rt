//! The command `normal`: it checks a module, normalises the body of one of its definitions, and
//! stores the derivation of that.

ghost use Rattle.std.specs.Prelude.{◌≡◌, ◌<◌, ℕ, IfOk, IsErr, List, Some, String, length};
ghost use Rattle.std.specs.Prelude.{string_bytes};
ghost use Rattle.std.specs.declared.alloc.Global.{Global};
ghost use Rattle.resolver.specs.Resolved.{defs_in};
ghost use Rattle.host_io.specs.Seen.{seen_files};
ghost use Rattle.codes.specs.declared.code.CodeDef.{CodeDef};
ghost use Rattle.linking.specs.Linked.{IsLinked};
ghost use Rattle.linking.specs.Modules.{judgements};
ghost use Rattle.evidence.specs.Told.{IsUnaligned};
ghost use Rattle.session.specs.Jobs.{MayDo, MayLeave};
ghost use Rattle.session.specs.Loaded.{texts_of};
ghost use Rattle.session.specs.Normals.{AreProved, Comes, ComesOf, IsNormalText, IsShown};
ghost use Rattle.session.specs.Normals.{NormalJob, asked_job, normal_path};
ghost use Rattle.session.specs.Places.{IsLastNamed};
ghost use Rattle.session.specs.Counted.{IsCounted};
ghost use Rattle.session.specs.declared.normal_command.Shown.{Shown};

use crate::found::{Found, derivation_of, found_of};
use crate::job::{Job, carry_out};
use crate::others::{Other, evidence_path, other_job, other_of};
use crate::places::{body_start, last_named, refusal_at, refused_at, spent_at};
use crate::program::{Program, read_program};
use crate::refutals::evidence_of;
use answering::{Reached, normalise};
use book::{Book, NodeId};
use evidence::Evidence;
use examining::Place;
use host_io::Files;
use module_texts::path_of;
use normality::is_normal_where;
use outcomes::{Cause, Outcome, refused};
use resolver::CodeDef;
use stated_roots::{are_stated, other_side};
use std::alloc::{AllocError, Global};
use tree_texts::show;
use values::Unaligned;

/// What was asked.
#[derive(Clone, Copy, Debug)]
pub(crate) struct Asked<'a> {
    pub(crate) module_name: &'a str,
    pub(crate) name: &'a str,
    /// The budget of each question, in moves.
    pub(crate) turns: u64,
}

/// A normal form in print, with the bytes of the derivation that has it.
#[derive(Drop)]
struct Shown {
    text: String,
    bytes: Vec<u8>,
}

/// What comes of a definition, of which the place is known, or that there is none.
#[derive(Drop)]
enum Normalised {
    Shown(Shown),
    /// Definitions are not all typed.
    NotTyped(Other),
    /// All are typed, and none has the name.
    Nameless,
    /// The budget was spent on the definition at this place.
    Spent(usize),
    /// Two types could not be aligned, of the definition at this place.
    Unaligned(usize, Evidence),
    /// A step was not taken, of the definition at this place.
    NotTaken(usize),
}

/// The text of a normal form with its newline, of an equation of a closed term with it. None where
/// a test fails.
pub(crate) fn normal_text(
    alloc: Global,
    book: &Book,
    equation: NodeId,
    body: NodeId,
) -> Result<Option<String>, AllocError>
    ensures { IfOk result (λ found. (text : String Global) → found ≡ Some text →
        IsNormalText book.now equation.0 body.0 (string_bytes text)) }
{
    let Some(right) = other_side(alloc, book, equation, body)? else {
        return Ok(None);
    };
    if !is_normal_where(alloc, book, &[], right)? {
        return Ok(None);
    }
    let mut text = Vec::new(alloc);
    show(alloc, book, 0, right, &mut text)?;
    text.push(b'\n')?;
    let Ok(text) = String::from_utf8(text) else {
        return Ok(None);
    };
    Ok(Some(text))
}

/// A normal form in print, of an equation of a closed term with it. None where a test fails.
fn shown_of(
    alloc: Global,
    book: &Book,
    equation: NodeId,
    body: NodeId,
) -> Result<Option<Shown>, AllocError>
    ensures { IfOk result (λ found. (s : Shown) → found ≡ Some s → IsShown book.now body.0 s) }
{
    let Some(text) = normal_text(alloc, book, equation, body)? else {
        return Ok(None);
    };
    let bytes = derivation_of(alloc, book, &[equation])?;
    Ok(Some(Shown { text, bytes }))
}

/// What comes of the definition at a place, of which two types could not be aligned.
fn unaligned_at(
    alloc: Global,
    book: &mut Book,
    types: &Unaligned,
    place: usize,
) -> Result<Normalised, AllocError>
    ensures { (defs : List CodeDef) → IfOk result (ComesOf defs place) }
{
    match evidence_of(alloc, book, types)? {
        Some(evidence) => Ok(Normalised::Unaligned(place, evidence)),
        None => Ok(Normalised::NotTaken(place)),
    }
}

/// Normalises the body of the definition of this number, where these nodes conclude what all
/// definitions state. None where a test fails.
fn normal_of(
    alloc: Global,
    book: &mut Book,
    defs: &[CodeDef],
    nodes: &[NodeId],
    place: usize,
    turns: u64,
) -> Result<Normalised, AllocError>
    requires { place < length defs.now }
    ensures { IfOk result (ComesOf defs.now place) }
{
    let number = defs[place].number as usize;
    let Some(body) = nodes.get(2 * number + 1) else {
        return Ok(Normalised::NotTaken(place));
    };
    let equation = match normalise(alloc, book, *body, turns)? {
        Reached::Normal(part) => part.equal,
        Reached::Unaligned(types) => return Ok(unaligned_at(alloc, book, &types, place)?),
        Reached::Spent => return Ok(Normalised::Spent(place)),
        Reached::NotTaken => return Ok(Normalised::NotTaken(place)),
    };
    if !are_stated(alloc, book, nodes, defs)? {
        return Ok(Normalised::NotTaken(place));
    }
    match shown_of(alloc, book, equation, *body)? {
        Some(shown) => Ok(Normalised::Shown(shown)),
        None => Ok(Normalised::NotTaken(place)),
    }
}

/// Checks definitions in order over a book, and normalises the body of the one at a place.
fn normal_over(
    alloc: Global,
    book: &mut Book,
    defs: &[CodeDef],
    named: Option<usize>,
    turns: u64,
) -> Result<Normalised, AllocError>
    requires { (k : ℕ) → named ≡ Some k → k < length defs.now }
    ensures { IfOk result (Comes defs.now named) }
{
    let nodes = match found_of(alloc, book, defs, turns)? {
        Found::Stated(nodes) => nodes,
        Found::Other(first, reason) => {
            let other = other_of(alloc, book, defs.len(), first, reason)?;
            return Ok(Normalised::NotTyped(other));
        }
    };
    book.laws_of_nodes();
    match named {
        Some(place) => Ok(normal_of(alloc, book, defs, &nodes, place, turns)?),
        None => Ok(Normalised::Nameless),
    }
}

/// Checks definitions in order, and normalises the body of the one at a place.
fn normal_in(
    alloc: Global,
    defs: &[CodeDef],
    named: Option<usize>,
    turns: u64,
) -> Result<Normalised, AllocError>
    requires { (k : ℕ) → named ≡ Some k → k < length defs.now }
    ensures { IfOk result (Comes defs.now named) }
{
    let mut book = Book::new(alloc)?;
    normal_over(alloc, &mut book, defs, named, turns)
}

/// The path of the derivation of a normal form.
fn normal_path(alloc: Global, module_name: &str, name: &str) -> Result<String, AllocError>
    ensures { IfOk result (λ path. string_bytes path ≡ normal_path module_name.now name.now) }
{
    let mut path = String::from_str(alloc, module_name)?;
    path.push_str(".")?;
    path.push_str(name)?;
    path.push_str(".drv")?;
    Ok(path)
}

/// To tell that two types could not be aligned, with the evidence stored.
fn unaligned_job(
    alloc: Global,
    program: &Program,
    module_name: &str,
    place: usize,
    evidence: Evidence,
) -> Result<Job, AllocError>
    requires linked { IsLinked (texts_of program.now) program.now.codes }
    requires within { place < length (defs_in program.now.codes) }
    requires unaligned { IsUnaligned evidence }
    ensures { (part : List ℕ) (turns : ℕ) → IsLastNamed (texts_of program.now) part (Some place) →
        AreProved (judgements (texts_of program.now)) → IfOk result
        (NormalJob module_name.now part turns (texts_of program.now) (defs_in program.now.codes)) }
{
    let at = Place {
        definition: place,
        at: body_start(program, place),
    };
    let refusal = refusal_at(alloc, program, at, Cause::Unaligned)?;
    let path = evidence_path(alloc, module_name)?;
    let Evidence { shown, bytes } = evidence;
    let told = Outcome::Refuted(refusal, shown);
    Ok(Job::Store { path, bytes, told })
}

/// What it comes to, of a module that was read, to normalise a definition.
fn normal_job(alloc: Global, program: &Program, asked: Asked<'_>) -> Result<Job, AllocError>
    requires { IsLinked (texts_of program.now) program.now.codes }
    ensures { IfOk result
        (asked_job asked.entry (texts_of program.now) (defs_in program.now.codes)) }
{
    let named = last_named(alloc, program, asked.name)?;
    match normal_in(alloc, program.codes.as_slice(), named, asked.turns)? {
        Normalised::NotTyped(other) => {
            Ok(other_job(alloc, program, asked.module_name, asked.turns, other)?)
        }
        Normalised::Nameless => {
            let path = path_of(alloc, asked.module_name)?;
            Ok(Job::Tell(refused(Cause::NoSuchName, None, Some(path))))
        }
        Normalised::Spent(place) => { Ok(Job::Tell(spent_at(alloc, program, place, asked.turns)?)) }
        Normalised::Unaligned(place, evidence) => {
            Ok(unaligned_job(alloc, program, asked.module_name, place, evidence)?)
        }
        Normalised::NotTaken(place) => Ok(Job::Tell(refused_at(alloc, program, place)?)),
        Normalised::Shown(Shown { text, bytes }) => {
            let path = normal_path(alloc, asked.module_name, asked.name)?;
            let told = Outcome::Shown(text);
            Ok(Job::Store { path, bytes, told })
        }
    }
}

/// Checks a module and those that its imports reach, normalises the body of the definition that has
/// a name after them, and stores the derivation of its equation with that at its path. The only
/// error is out of memory.
pub(crate) fn normal<F: Files>(
    alloc: Global,
    asked: Asked<'_>,
    files: &mut F,
) -> Result<Outcome, AllocError>
    ensures answer { let see = seen_files F.held F.counts in
        IfOk result (λ told. MayDo (asked_job asked.entry) asked.entry.module_name.now
        (see files.old) (see files.new) told × IsCounted (see files.old) (see files.new) told) }
    ensures left { let see = seen_files F.held F.counts in
        IsErr result → MayLeave (asked_job asked.entry) asked.entry.module_name.now
        (see files.old) (see files.new) }
{
    let program = match read_program(alloc, asked.module_name, files)? {
        Ok(program) => program,
        Err(outcome) => return Ok(outcome),
    };
    let job = normal_job(alloc, &program, asked)?;
    Ok(carry_out(job, files)?)
}

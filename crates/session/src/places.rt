//! Definitions of several modules, by their places among all.

ghost use Rattle.std.specs.Prelude.{◌≡◌, ◌<◌, ◌↔◌, IfOk, IsTrue, Some, length, map};
ghost use Rattle.std.specs.Prelude.{slice_get, string_bytes};
ghost use Rattle.codes.specs.declared.code.CodeDef.{CodeDef, out-CodeDef};
ghost use Rattle.resolver.specs.Resolved.{defs_in};
ghost use Rattle.module_texts.specs.Texts.{text_of};
ghost use Rattle.linking.specs.Linked.{IsLinked};
ghost use Rattle.session.specs.Loaded.{texts_of};
ghost use Rattle.session.specs.Places.{IsLastNamed, IsRefusalIn, IsRefusedAt, IsSpentAt};
ghost use Rattle.session.specs.Places.{IsSpentIn, Named, names, places, span_of};
ghost use Rattle.session.specs.Scopes.{IsNumberedAt, IsScopeBehind};

use crate::program::Program;
use codes::Code;
use examining::Place;
use layout_lexer::Span;
use module_texts::{ModuleText, name_at, path_of};
use outcomes::{Cause, Outcome, Refusal, refused};
use resolver::{Name, Scope, ScopeName, ScopeNames};
use std::alloc::{AllocError, Global};

/// The module that holds the definition at this place among those of all modules.
fn holder(texts: &[ModuleText], place: usize) -> &ModuleText
    requires { place < length (places (map text_of texts.now)) }
    ensures { (at : Named) × (slice_get (places (map text_of texts.now)) place ≡ Some at)
        × (at.holder ≡ text_of result.now) }
{
    let mut number = 0;
    let mut left = place;
    loop {
        let count = texts[number].module.defs.as_slice().len();
        if left < count {
            return &texts[number];
        }
        left -= count;
        number += 1;
    }
}

/// Refuses the definition at this place among those of all modules, at its name.
pub(crate) fn refused_at(
    alloc: Global,
    program: &Program,
    place: usize,
) -> Result<Outcome, AllocError>
    requires linked { IsLinked (texts_of program.now) program.now.codes }
    requires within { place < length (defs_in program.now.codes) }
    ensures { IfOk result (IsRefusedAt (texts_of program.now) place) }
{
    let name = program.codes.as_slice()[place].name;
    let path = path_of(alloc, holder(&program.texts, place).name.as_str())?;
    Ok(refused(Cause::RefusedForm, Some(name.start), Some(path)))
}

/// The piece of the text that a code spells.
pub(crate) fn span_of(code: &Code) -> Span
    ensures { result ≡ span_of code.now }
{
    match code {
        Code::Bound { span, index: _ } => *span,
        Code::Defined { span, number: _ } => *span,
        Code::Let {
            span,
            locals: _,
            body: _,
        } => *span,
        Code::Universe { span } => *span,
        Code::Nat { span } => *span,
        Code::Zero { span } => *span,
        Code::Suc { span, argument: _ } => *span,
        Code::NatRec { span, .. } => *span,
        Code::Pi { span, .. } => *span,
        Code::Sigma { span, .. } => *span,
        Code::Lambda { span, .. } => *span,
        Code::PathLambda { span, .. } => *span,
        Code::Apply { span, .. } => *span,
        Code::Project { span, .. } => *span,
        Code::Tuple { span, .. } => *span,
        Code::PathP { span, .. } => *span,
        Code::Comp { span, .. } => *span,
        Code::Fill { span, .. } => *span,
        Code::Transport { span, .. } => *span,
        Code::GlueType { span, .. } => *span,
        Code::GlueTerm { span, .. } => *span,
        Code::Unglue { span, .. } => *span,
    }
}

/// Refuses what stands at a byte of the definition at this place among those of all modules.
pub(crate) fn refusal_at(
    alloc: Global,
    program: &Program,
    place: Place,
    cause: Cause,
) -> Result<Refusal, AllocError>
    requires linked { IsLinked (texts_of program.now) program.now.codes }
    requires within { place.definition < length (defs_in program.now.codes) }
    ensures { IfOk result (IsRefusalIn (texts_of program.now) place cause) }
{
    let path = path_of(
        alloc,
        holder(&program.texts, place.definition).name.as_str(),
    )?;
    Ok(Refusal {
        cause,
        at: Some(place.at),
        path: Some(path),
    })
}

/// Tells that the budget was spent on what stands at a byte of the definition at this place among
/// those of all modules.
pub(crate) fn spent_in(
    alloc: Global,
    program: &Program,
    place: Place,
    turns: u64,
) -> Result<Outcome, AllocError>
    requires linked { IsLinked (texts_of program.now) program.now.codes }
    requires within { place.definition < length (defs_in program.now.codes) }
    ensures { IfOk result (IsSpentIn (texts_of program.now) place turns) }
{
    let path = path_of(
        alloc,
        holder(&program.texts, place.definition).name.as_str(),
    )?;
    Ok(Outcome::Spent {
        turns,
        at: place.at,
        path: Some(path),
    })
}

/// The first byte of the body of the definition at this place among those of all modules.
pub(crate) fn body_start(program: &Program, place: usize) -> u32
    requires { place < length (defs_in program.now.codes) }
    ensures { (code : CodeDef) × (slice_get (defs_in program.now.codes) place ≡ Some code)
        × (result ≡ (span_of (out-CodeDef code).body).start) }
{
    span_of(&program.codes.as_slice()[place].body).start
}

/// Tells that the budget was spent on the body of the definition at this place among those of all
/// modules.
pub(crate) fn spent_at(
    alloc: Global,
    program: &Program,
    place: usize,
    turns: u64,
) -> Result<Outcome, AllocError>
    requires linked { IsLinked (texts_of program.now) program.now.codes }
    requires within { place < length (defs_in program.now.codes) }
    ensures { IfOk result
        (IsSpentAt (texts_of program.now) (defs_in program.now.codes) place turns) }
{
    let at = body_start(program, place);
    let path = path_of(alloc, holder(&program.texts, place).name.as_str())?;
    Ok(Outcome::Spent {
        turns,
        at,
        path: Some(path),
    })
}

/// The name of the definition at this place among those of all modules.
fn name_of(alloc: Global, program: &Program, place: usize) -> Result<String, AllocError>
    requires linked { IsLinked (texts_of program.now) program.now.codes }
    requires within { place < length (defs_in program.now.codes) }
    ensures { IfOk result (λ name.
        slice_get (names (texts_of program.now)) place ≡ Some (string_bytes name)) }
{
    let span = program.codes.as_slice()[place].name;
    let spelt = name_at(alloc, &holder(&program.texts, place).bytes, span)?;
    Ok(spelt)
}

/// Whether the definition at this place among those of all modules has the name.
fn is_named(alloc: Global, program: &Program, place: usize, name: &str) -> Result<bool, AllocError>
    requires linked { IsLinked (texts_of program.now) program.now.codes }
    requires within { place < length (defs_in program.now.codes) }
    ensures { IfOk result (λ is.
        IsTrue is ↔ (slice_get (names (texts_of program.now)) place ≡ Some name.now)) }
{
    let spelt = name_of(alloc, program, place)?;
    Ok(spelt.as_str() == name)
}

/// The name of the definition at this place among those of all modules, with its number.
fn numbered_name(alloc: Global, program: &Program, place: usize) -> Result<ScopeName, AllocError>
    requires linked { IsLinked (texts_of program.now) program.now.codes }
    requires within { place < length (defs_in program.now.codes) }
    ensures { IfOk result (IsNumberedAt (texts_of program.now) (defs_in program.now.codes) place) }
{
    let spelt = name_of(alloc, program, place)?;
    let name = Name::new(alloc, spelt.as_bytes())?;
    let def = program.codes.as_slice()[place].number;
    Ok(ScopeName { name, def })
}

/// The scope behind all definitions.
pub(crate) fn scope_behind(alloc: Global, program: &Program) -> Result<Scope, AllocError>
    requires { IsLinked (texts_of program.now) program.now.codes }
    ensures { IfOk result (IsScopeBehind (texts_of program.now) (defs_in program.now.codes)) }
{
    let mut names = ScopeNames::new(alloc);
    for place in 0..program.codes.as_slice().len() {
        names.push(numbered_name(alloc, program, place)?)?;
    }
    let next = program.codes.next();
    Ok(Scope { names, next })
}

/// The place of the last definition that has the name, among those at the top level of all modules,
/// if any has it. It is the one that the name stands for after them.
pub(crate) fn last_named(
    alloc: Global,
    program: &Program,
    name: &str,
) -> Result<Option<usize>, AllocError>
    requires linked { IsLinked (texts_of program.now) program.now.codes }
    ensures { IfOk result (IsLastNamed (texts_of program.now) name.now) }
{
    let mut place = program.codes.as_slice().len();
    while place > 0 {
        place -= 1;
        if is_named(alloc, program, place, name)? {
            return Ok(Some(place));
        }
    }
    Ok(None)
}

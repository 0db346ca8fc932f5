//! A word for each form, by which the tests tell codes and formulas.
//!
//! A test holds no code itself: whoever holds one drops it wherever a later step may fail, and each
//! of these ways out is proved.

use codes::{Code, Formula};
use std::alloc::AllocError;
use std::process::Abort;
use std::test::Fail;

/// The word of a code: `#1` is a variable by its index, `@4` a definition by its number, and `<2>`
/// a path lambda by how many names it binds.
fn code_word(code: &Code) -> &'static str {
    match code {
        Code::Bound { index: 1, .. } => "#1",
        Code::Defined { number: 4, .. } => "@4",
        Code::Let { .. } => "let",
        Code::Universe { .. } => "U",
        Code::Zero { .. } => "zero",
        Code::Suc { .. } => "suc",
        Code::NatRec { .. } => "natrec",
        Code::Pi { .. } => "pi",
        Code::Sigma { .. } => "sigma",
        Code::Lambda { .. } => "lambda",
        Code::PathLambda { names: 2, .. } => "<2>",
        Code::Apply { .. } => "apply",
        Code::Project { .. } => "project",
        Code::PathP { .. } => "PathP",
        Code::Comp { .. } => "comp",
        Code::Fill { .. } => "fill",
        Code::Transport { .. } => "transport",
        Code::GlueType { .. } => "Glue",
        Code::GlueTerm { .. } => "glue",
        Code::Unglue { .. } => "unglue",
        _ => "another form",
    }
}

/// The code that was made has this word.
pub fn code_is(rt: &impl Abort, code: Result<Code, AllocError>, wanted: &str) -> Result<(), Fail> {
    let code = code?;
    assert_eq!(rt; code_word(&code), wanted);
    Ok(())
}

/// The word of a formula.
fn formula_word(formula: &Formula) -> &'static str {
    match formula {
        Formula::Negate(..) => "-",
        Formula::Join(..) => "\\/",
        _ => "another form",
    }
}

/// The formula that was made has this word.
pub fn formula_is(
    rt: &impl Abort,
    formula: Result<Formula, AllocError>,
    wanted: &str,
) -> Result<(), Fail> {
    let formula = formula?;
    assert_eq!(rt; formula_word(&formula), wanted);
    Ok(())
}

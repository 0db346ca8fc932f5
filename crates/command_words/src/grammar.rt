//! The grammar of the commands, as it is told to clap.

ghost use Rattle.std.specs.Prelude.{◌≡◌, IfOk, codes, false};
ghost use Rattle.clap.specs.Words.{app_of, rule_of};
ghost use Rattle.command_words.specs.Grammar.{IsOfForm, check_form, ctt_app, flag_rule, make_form};
ghost use Rattle.command_words.specs.Grammar.{normal_form, option_rule, positional_rule};
ghost use Rattle.command_words.specs.Grammar.{prompt_form, replay_form};

use clap::{Arg, ArgAction, Command};
use std::alloc::{AllocError, Global};

/// A positional word, which has to stand.
fn positional<'a>(alloc: Global, name: &'a str) -> Arg<'a>
    ensures rule { rule_of result ≡ positional_rule name.entry.now }
    ensures local { result.global ≡ false }
{
    Arg::new(alloc, name).required(true)
}

/// `--NAME VALUE`
fn option<'a>(alloc: Global, name: &'a str) -> Arg<'a>
    ensures rule { rule_of result ≡ option_rule name.entry.now }
    ensures local { result.global ≡ false }
{
    Arg::new(alloc, name).long(name)
}

/// `--NAME`
fn flag<'a>(alloc: Global, name: &'a str) -> Arg<'a>
    ensures rule { rule_of result ≡ flag_rule name.entry.now }
    ensures local { result.global ≡ false }
{
    Arg::new(alloc, name).long(name).action(ArgAction::SetTrue)
}

/// `check MODULE [--turns N] [--json]`
fn check<'a>(alloc: Global) -> Result<Command<'a>, AllocError>
    ensures { IfOk result (IsOfForm (codes "check") check_form) }
{
    let command = Command::new(alloc, "check")
        .arg(positional(alloc, "module"))?
        .arg(option(alloc, "turns"))?
        .arg(flag(alloc, "json"))?;
    Ok(command)
}

/// `replay FILE [--of MODULE]`
fn replay<'a>(alloc: Global) -> Result<Command<'a>, AllocError>
    ensures { IfOk result (IsOfForm (codes "replay") replay_form) }
{
    let command = Command::new(alloc, "replay")
        .arg(positional(alloc, "file"))?
        .arg(option(alloc, "of"))?;
    Ok(command)
}

/// `normal MODULE NAME [--turns N]`
fn normal<'a>(alloc: Global) -> Result<Command<'a>, AllocError>
    ensures { IfOk result (IsOfForm (codes "normal") normal_form) }
{
    let command = Command::new(alloc, "normal")
        .arg(positional(alloc, "module"))?
        .arg(positional(alloc, "name"))?
        .arg(option(alloc, "turns"))?;
    Ok(command)
}

/// `prompt MODULE [--turns N]`
fn prompt<'a>(alloc: Global) -> Result<Command<'a>, AllocError>
    ensures { IfOk result (IsOfForm (codes "prompt") prompt_form) }
{
    let command = Command::new(alloc, "prompt")
        .arg(positional(alloc, "module"))?
        .arg(option(alloc, "turns"))?;
    Ok(command)
}

/// `make N`
fn make<'a>(alloc: Global) -> Result<Command<'a>, AllocError>
    ensures { IfOk result (IsOfForm (codes "make") make_form) }
{
    let command = Command::new(alloc, "make").arg(positional(alloc, "count"))?;
    Ok(command)
}

/// All commands, each a subcommand, with neither help nor a version.
pub(crate) fn ctt<'a>(alloc: Global) -> Result<Command<'a>, AllocError>
    ensures { IfOk result (λ c. app_of c ≡ ctt_app) }
{
    let command = Command::new(alloc, "ctt")
        .no_binary_name(true)
        .disable_help_flag(true)
        .disable_help_subcommand(true)
        .disable_version_flag(true)
        .subcommand_required(true);
    let command = command.subcommand(check(alloc)?)?;
    let command = command.subcommand(replay(alloc)?)?;
    let command = command.subcommand(normal(alloc)?)?;
    let command = command.subcommand(prompt(alloc)?)?;
    Ok(command.subcommand(make(alloc)?)?)
}

//! The command that reads the words: three modes, without help and version.
ghost use Rattle.std.specs.Prelude.{◌≡◌, false, IfOk};
ghost use Rattle.clap.specs.Words.{app_of, rule_of};
ghost use Rattle.tx_app.specs.CommandLine.{option_rule, words_rule, command_app};

use clap::{Arg, ArgAction, Command};
use std::alloc::{AllocError, Global};

/// An option with one value.
fn option<'a>(alloc: Global, name: &'a str) -> Arg<'a>
    ensures rule { rule_of result ≡ option_rule name.entry.now }
    ensures local { result.global ≡ false }
{
    Arg::new(alloc, name).long(name)
}

/// The words that are no options.
fn others<'a>(alloc: Global) -> Arg<'a>
    ensures rule { rule_of result ≡ words_rule }
    ensures local { result.global ≡ false }
{
    Arg::new(alloc, "words").action(ArgAction::Append)
}

/// The command of the words.
pub fn command<'a>(alloc: Global) -> Result<Command<'a>, AllocError>
    ensures { IfOk result (λ made. app_of made ≡ command_app) }
{
    let check = Command::new(alloc, "check").arg(others(alloc))?;
    let query = Command::new(alloc, "query").arg(others(alloc))?;
    let show = Command::new(alloc, "show")
        .arg(option(alloc, "width"))?
        .arg(option(alloc, "height"))?
        .arg(others(alloc))?;
    Command::new(alloc, "tx")
        .disable_help_flag(true)
        .disable_help_subcommand(true)
        .disable_version_flag(true)
        .subcommand_required(true)
        .subcommand(check)?
        .subcommand(query)?
        .subcommand(show)
}

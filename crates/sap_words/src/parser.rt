//! The command line that `clap` reads.

ghost use Rattle.std.specs.Prelude.{◌≡◌, IfErr, IfOk, false, is_some, map, string_bytes, true};
ghost use Rattle.clap.specs.Words.{app_of, kind_of, subcommand_of, subcommand_rows_of, with_subcommand};
ghost use Rattle.clap.specs.declared.builder.command.Command.TheViews.{out-Command};
ghost use Rattle.sap_words.specs.Parser.{alone, bare, command, parser};
ghost use Rattle.sap_words.specs.Headings.{heading, written};
ghost use Rattle.sap_words.specs.Words.{command_of as words_for, commands};

use crate::table::COMMANDS;
use clap::error::ErrorKind;
use clap::{Arg, ArgMatches, Command, Error};
use std::alloc::{AllocError, Global};

// A command with its operands.
fn command<'a>(
    alloc: Global,
    name: &'a str,
    operands: &'a [&'a str],
) -> Result<Command<'a>, AllocError>
    ensures shape { IfOk result (λ r. app_of r ≡ alone (command name.entry.now (map (λ o. o.now) operands.now))) }
    ensures local { IfOk result (λ r. (out-Command r).has_globals ≡ false) }
{
    let mut command = Command::new(alloc, name);
    for operand in operands {
        command = command.arg(Arg::new(alloc, operand).required(true))?;
    }
    Ok(command)
}

// The command line with one command more.
fn with_row<'a>(
    alloc: Global,
    line: Command<'a>,
    name: &'a str,
    operands: &'a [&'a str],
) -> Result<Command<'a>, AllocError>
    ensures { IfOk result (λ r. app_of r ≡ with_subcommand (app_of line.entry) (command name.entry.now (map (λ o. o.now) operands.now))) }
{
    line.subcommand(command(alloc, name, operands)?)
}

// The command line with the commands of these rows.
fn with_rows<'a>(
    alloc: Global,
    mut line: Command<'a>,
    rows: &'a [(&'a str, &'a [&'a str])],
) -> Result<Command<'a>, AllocError>
    requires bare { app_of line ≡ bare }
    requires table { map written rows.now ≡ map heading commands }
    ensures { IfOk result (λ r. app_of r ≡ parser) }
{
    for (name, operands) in rows {
        line = with_row(alloc, line, name, operands)?;
    }
    Ok(line)
}

fn parser<'a>(alloc: Global) -> Result<Command<'a>, AllocError>
    ensures { IfOk result (λ r. app_of r ≡ parser) }
{
    let line = Command::new(alloc, "sapper")
        .no_binary_name(true)
        .disable_help_flag(true)
        .disable_help_subcommand(true);
    with_rows(alloc, line, &COMMANDS)
}

/// What `clap` reads in the words of a command. It refuses none, and fails only for want of memory.
pub(crate) fn parse<'a>(alloc: Global, words: &'a [String]) -> Result<ArgMatches<'a>, Error>
    requires { is_some (words_for (map string_bytes words.now)) ≡ true }
    ensures read { IfOk result (λ m. subcommand_rows_of m ≡ subcommand_of parser (map string_bytes words.now)) }
    ensures refuses_none { IfErr result (λ e. kind_of e ≡ ErrorKind.OutOfMemory) }
{
    parser(alloc)?.try_get_matches_from(words)
}

//! The text of `--help`.

use clap::{Arg, ArgAction, Command};
use sap_words::{COMMANDS, DOES};
use std::alloc::{AllocError, Global};

pub(crate) const VERSION: &str = "sapper 0.1.0\n";

const ABOUT: &str =
    "Compiles Sapper designs to modules of a small subset of Verilog, and simulates them.";

const USAGE: &str = "sapper COMMAND OPERANDS";

const STATUSES: &str = "Statuses:
  0  done
  1  the design is refused: `design: CODE LINE:COL`; or that of a part: `part NAME: CODE LINE:COL`
  2  the words are no command: `words`; or LEVEL is no level: `level WORD`
  3  the lattice is refused: `lattice: CODE` and, behind L3 to L7, a number or two names
  4  a stimulus is refused: `stimulus F: CODE line N`
  5  the module is refused: `module: CODE LINE:COL`; or it has no name left for a tag: `module: X1 NAME`
  6  a call on a file or on the output failed: `desk: NAME`
  7  there was no memory: `memory`
  8  the streams of twin don't agree: `streams: ..`
  9  the system is refused: `system: CODE` and, behind K3 to K9, a number
  10 the dump is refused: `wave: CODE line N`
  11 a program is refused: `asm F: CODE line L`

What a status is told by stands on standard error, in one line.

Docs: README.md, and in docs/ COMMANDS.md, LANGUAGE.md, MODULES.md and FAULTS.md (the codes).";

fn option<'a>(alloc: Global, name: &'a str, help: &'a str) -> Arg<'a> {
    Arg::new(alloc, name).long(name).help(help)
}

// The program, with no command and no option yet.
fn program<'a>(alloc: Global) -> Command<'a> {
    Command::new(alloc, "sapper")
        .about(ABOUT)
        .override_usage(USAGE)
        .after_help(STATUSES)
        .disable_help_flag(true)
        .disable_version_flag(true)
        .disable_help_subcommand(true)
}

// The operands of a command, and what it does.
fn about(alloc: Global, operands: &[&str], does: &str) -> Result<String, AllocError> {
    let mut text = String::new(alloc);
    for (place, operand) in operands.iter().enumerate() {
        if place > 0 {
            text.push_str(" ")?;
        }
        text.push_str(operand)?;
    }
    if !operands.is_empty() {
        text.push_str(": ")?;
    }
    text.push_str(does)?;
    Ok(text)
}

fn abouts(alloc: Global) -> Result<Vec<String>, AllocError> {
    let mut texts = Vec::new(alloc);
    for ((_, operands), does) in COMMANDS.iter().zip(&DOES) {
        texts.push(about(alloc, operands, does)?)?;
    }
    Ok(texts)
}

fn with_commands<'a>(
    alloc: Global,
    mut command: Command<'a>,
    abouts: &'a [String],
) -> Result<Command<'a>, AllocError> {
    for ((name, _), about) in COMMANDS.iter().zip(abouts) {
        command = command.subcommand(Command::new(alloc, name).about(about.as_str()))?;
    }
    Ok(command)
}

fn with_options<'a>(alloc: Global, command: Command<'a>) -> Result<Command<'a>, AllocError> {
    command
        .arg(
            option(alloc, "help", "Prints this text, as the word help does")
                .short('h')
                .action(ArgAction::SetTrue),
        )?
        .arg(option(alloc, "version", "Prints the version").action(ArgAction::SetTrue))?
        .arg(option(
            alloc,
            "explain",
            "Says what a code means, with an example and its cure",
        )
        .value_name("CODE"))
}

/// The text of `--help`.
pub(crate) fn help(alloc: Global) -> Result<String, AllocError> {
    let abouts = abouts(alloc)?;
    let command = with_commands(alloc, program(alloc), &abouts)?;
    with_options(alloc, command)?.render_help()
}

//! Words as a command.

ghost use Rattle.std.specs.Prelude.{◌≡◌, IfErr, IfOk, List, Some, ℕ, map, option_map, string_bytes};
ghost use Rattle.clap.specs.Words.{Row, first_of, first_value, found_of, subcommand_rows_of};
ghost use Rattle.sap_words.specs.Found.{found, value_at};
ghost use Rattle.sap_words.specs.Table.{IsCommand, ReadsTable};
ghost use Rattle.sap_words.specs.Words.{Words, command_of as words_for, row_named, words_of};

use crate::fits::is_command;
use crate::parser::parse;
use crate::table::{Command, made, operands_of};
use clap::ArgMatches;
use std::alloc::{AllocError, Global};

// What was found for the operand at a place.
fn value<'a>(matches: &ArgMatches<'a>, operands: &[&str], place: usize) -> &'a str
    ensures { result.now ≡ value_at (first_value (found_of matches.now)) (map (λ o. o.now) operands.now) place }
{
    match operands.get(place) {
        Some(operand) => matches.get_str(operand).unwrap_or(""),
        None => "",
    }
}

fn with_operands<'a>(name: &str, matches: &ArgMatches<'a>, operands: &[&str]) -> Option<Command<'a>>
    requires { Some (map (λ o. o.now) operands.now) ≡ option_map (λ r. r.operands) (row_named name.now) }
    ensures { option_map words_of result ≡ found name.now (first_value (found_of matches.now)) }
{
    let first = value(matches, operands, 0);
    let second = value(matches, operands, 1);
    let third = value(matches, operands, 2);
    let fourth = value(matches, operands, 3);
    let fifth = value(matches, operands, 4);
    made(name, first, second, third, fourth, fifth)
}

// The command of this name with the operands that were found.
fn row<'a>(name: &str, matches: &ArgMatches<'a>) -> Option<Command<'a>>
    ensures { option_map words_of result ≡ found name.now (first_value (found_of matches.now)) }
{
    match operands_of(name) {
        Some(operands) => with_operands(name, matches, operands),
        None => None,
    }
}

fn command_in<'a>(matches: &ArgMatches<'a>) -> Option<Command<'a>>
    ensures { (name : List ℕ) (rows : List Row) → subcommand_rows_of matches.now ≡ Some (name, rows) → option_map words_of result ≡ found name (λ id. first_of id rows) }
{
    match matches.subcommand() {
        Some(found) => row(found.0, found.1),
        None => None,
    }
}

/// The command that the words are, if they are one. Only words that are one take memory.
pub fn command_of<'a>(alloc: Global, words: &'a [String]) -> Result<Option<Command<'a>>, AllocError>
    ensures named { IfOk result (λ command. option_map words_of command ≡ words_for (map string_bytes words.now)) }
    ensures table { ReadsTable (map string_bytes words.now) }
    ensures no_memory { IfErr result (λ _. (c : Words) × IsCommand (map string_bytes words.now) c) }
{
    if !is_command(words) {
        return Ok(None);
    }
    match parse(alloc, words) {
        Ok(matches) => Ok(command_in(&matches)),
        Err(_) => Err(AllocError),
    }
}

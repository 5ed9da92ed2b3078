//! The parse of a command's words by its table.

ghost use Rattle.std.specs.Prelude.{◌≡◌, ◌≤◌, true, false, None, map, drop, codes, string_bytes, IfOk, IfSome, MatchResult, unwrap_or, option_map};
ghost use Rattle.std.specs.List.{list_any};
ghost use Rattle.std.specs.Str.Parse.{digits_value};
ghost use Rattle.clap.specs.Words.{app_of, found_of, kind_of, one_text, rule_of};
ghost use Rattle.clap.specs.declared.error.kind.ErrorKind.TheVariants.{OutOfMemory};
ghost use Rattle.words.specs.declared.job.WordFault.TheVariants as word_fault;
ghost use Rattle.words.specs.Barred.{is_barred_word};
ghost use Rattle.words.specs.Rows.{IsRead, field_of, is_sound, table_of};
ghost use Rattle.words.specs.Rules.{app_by, number_rule, option_rule, rules_of};
ghost use Rattle.words.specs.Words.{lies_in_range, taken};

use crate::job::WordFault;
use crate::table::{Range, Row, Rows};
use clap::builder::ValueParser;
use clap::error::ErrorKind;
use clap::{Arg, ArgAction, ArgMatches, Command, Error};
use std::alloc::{AllocError, Global};

/// The option of a row.
fn option_arg<'a>(alloc: Global, row: Row<'a>) -> Arg<'a>
    ensures rule { rule_of result ≡ option_rule (field_of row.entry) }
    ensures local { result.global ≡ false }
{
    let arg = Arg::new(alloc, row.name).long(row.name);
    match row.range {
        Some(range) => arg
            .action(ArgAction::Set)
            .value_parser(ValueParser::Unsigned(range.least, range.most)),
        None => arg.action(ArgAction::SetTrue),
    }
}

/// The number of a command.
fn number_arg<'a>(alloc: Global, range: Range) -> Arg<'a>
    ensures rule { rule_of result ≡ number_rule range }
    ensures local { result.global ≡ false }
{
    Arg::new(alloc, "number")
        .required(true)
        .action(ArgAction::Set)
        .value_parser(ValueParser::Unsigned(range.least, range.most))
}

/// A command with these options.
fn options_of<'a>(alloc: Global, options: &'a [Row<'a>]) -> Result<Command<'a>, AllocError>
    ensures { IfOk result (λ command.
        app_of command ≡ app_by (map option_rule (map field_of options.now))) }
{
    let mut command = Command::new(alloc, "recon").disable_help_flag(true);
    for row in options {
        command = command.arg(option_arg(alloc, *row))?;
    }
    Ok(command)
}

/// A command by its table.
fn command_of<'a>(alloc: Global, table: &Rows<'a>) -> Result<Command<'a>, AllocError>
    ensures { IfOk result (λ command. app_of command ≡ app_by (rules_of (table_of table.now))) }
{
    let command = options_of(alloc, table.options)?;
    match table.number {
        Some(range) => command.arg(number_arg(alloc, range)),
        None => Ok(command),
    }
}

/// Why a parse failed.
fn fault_by(error: &Error) -> WordFault
    ensures { result ≡ word_fault.Usage → kind_of error.now ≡ OutOfMemory → ⊥ }
{
    if error.kind() == ErrorKind::OutOfMemory {
        WordFault::Memory
    } else {
        WordFault::Usage
    }
}

/// What a command's words give its options and its number, where they are taken. The first word is
/// the command's own.
pub fn parse<'a>(
    alloc: Global,
    table: &Rows<'a>,
    words: &'a [String],
) -> Result<ArgMatches<'a>, WordFault>
    requires sound { is_sound (table_of table.now) ≡ true }
    requires clear { list_any is_barred_word (map string_bytes words.now) ≡ false }
    ensures { MatchResult result (IsRead (table_of table.now) (drop 1 (map string_bytes words.now)))
        (λ e. e ≡ word_fault.Usage
        → taken (table_of table.now) (drop 1 (map string_bytes words.now)) ≡ None) }
{
    let Ok(command) = command_of(alloc, table) else {
        return Err(WordFault::Memory);
    };
    match command.try_get_matches_from(words) {
        Ok(matches) => Ok(matches),
        Err(error) => Err(fault_by(&error)),
    }
}

/// The number that a name is given, or where it isn't used this one.
pub fn number_or(matches: &ArgMatches<'_>, name: &str, least: u64, most: u64, otherwise: u64) -> u64
    requires given { IfSome (one_text (found_of matches.now) name.now)
        (λ text. lies_in_range (record { least = least; most = most }) text ≡ true) }
    requires least { least ≤ otherwise }
    requires most { otherwise ≤ most }
    ensures value { result ≡ unwrap_or (option_map (digits_value 10)
        (one_text (found_of matches.now) name.now)) otherwise }
    ensures least { least ≤ result }
    ensures most { result ≤ most }
{
    matches.get_one::<u64>(name).unwrap_or(otherwise)
}

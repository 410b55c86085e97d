//! The program's arguments, as clap parses them.

ghost use Rattle.std.specs.Prelude.{◌≡◌, IfOk, OnOk, IsErrOf, false, true};
ghost use Rattle.clap.specs.Words.{app_of, rule_of, found_of, rows_of, matches_of};
ghost use Rattle.conf_read.specs.Command.{option_rule, with_options};
ghost use Rattle.conf_read.specs.Options.{names_of, program, as_texts, are_faulty};

use crate::fault::ConfFault;
use crate::options::{OPTIONS, Row};
use clap::error::ErrorKind;
use clap::{Arg, ArgMatches, Command};
use std::alloc::{AllocError, Global};

// An option of one value.
fn option<'a>(alloc: Global, name: &'a str) -> Arg<'a>
    ensures rule { rule_of result ≡ option_rule name.now }
    ensures local { result.global ≡ false }
{
    Arg::new(alloc, name).long(name)
}

// A command with these further options.
fn with_options<'a>(
    alloc: Global,
    command: Command<'a>,
    rows: &[Row],
) -> Result<Command<'a>, AllocError>
    ensures { IfOk result (λ made.
        app_of made ≡ with_options (app_of command.entry) (names_of rows.now)) }
{
    let mut command = command;
    for row in rows {
        command = command.arg(option(alloc, row.name))?;
    }
    Ok(command)
}

fn command<'a>(alloc: Global) -> Result<Command<'a>, AllocError>
    ensures { IfOk result (λ command. app_of command ≡ program) }
{
    with_options(alloc, Command::new(alloc, "apcu_run"), &OPTIONS)
}

// What clap finds in the arguments, unless it finds a fault.
pub(crate) fn matches_of<'a>(
    alloc: Global,
    words: &'a [String],
) -> Result<ArgMatches<'a>, ConfFault>
    ensures fault { IsErrOf result ConfFault.Usage → are_faulty (as_texts words.now) ≡ true }
    ensures free { OnOk result (are_faulty (as_texts words.now) ≡ false) }
    ensures found { IfOk result (λ matches.
        rows_of (found_of matches) ≡ matches_of program (as_texts words.now)) }
{
    if words.is_empty() {
        return Err(ConfFault::Usage);
    }
    let command = command(alloc)?;
    match command.try_get_matches_from(words) {
        Ok(matches) => Ok(matches),
        Err(error) => Err(match error.kind() {
            ErrorKind::OutOfMemory => ConfFault::Memory,
            _ => ConfFault::Usage,
        }),
    }
}

// Splits the words of a command line.
ghost use Rattle.std.specs.Prelude.{◌≡◌, IfOk, IfErr, IfSome, OnErr, is_some, true, map, option_map};
ghost use Rattle.clap.specs.Words.{kind_of, subcommand_of, subcommand_rows_of};
ghost use Rattle.command_words.specs.Apps.{the_app};
ghost use Rattle.command_words.specs.Words.{IsInLimits, asked_by, shown};

use crate::Command;
use crate::accepted::is_accepted;
use crate::building::parser;
use crate::reading::command_of;
use clap::error::ErrorKind;
use clap::{ArgMatches, Error};
use std::alloc::{AllocError, Global};

// The words as `clap` splits them. It refuses accepted words for want of memory alone.
fn matches_of<'w>(alloc: Global, words: &'w [&'w str]) -> Result<ArgMatches<'w>, Error>
    requires { is_some (asked_by (map (λ w. w.now) words.now)) ≡ true }
    ensures ok { IfOk result (λ m. subcommand_rows_of m ≡ subcommand_of the_app (map (λ w. w.now) words.entry.now)) }
    ensures err { IfErr result (λ e. kind_of e ≡ ErrorKind.OutOfMemory) }
{
    match parser(alloc) {
        Ok(parser) => parser.try_get_matches_from(words),
        Err(error) => Err(Error::from(error)),
    }
}

/// What the words after the program's name ask for; `None` exactly where they are not accepted. `Err` only for want of
/// memory, and only where they are accepted.
pub fn read_words<'w>(
    alloc: Global,
    words: &'w [&'w str],
) -> Result<Option<Command<'w>>, AllocError>
    ensures asked { IfOk result (λ command. option_map shown command ≡ asked_by (map (λ w. w.now) words.entry.now)) }
    ensures accepted { OnErr result (is_some (asked_by (map (λ w. w.now) words.entry.now)) ≡ true) }
    ensures limits { IfOk result (λ command. IfSome command (λ c. IsInLimits (shown c))) }
{
    if !is_accepted(words) {
        return Ok(None);
    }
    match matches_of(alloc, words) {
        Ok(matches) => Ok(command_of(&matches)),
        Err(_) => Err(AllocError),
    }
}

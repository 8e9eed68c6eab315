// Reads a command from the words of a command line.
ghost use Rattle.std.specs.Prelude.{◌≡◌, map, true, string_bytes, IfOk};
ghost use Rattle.std.specs.List.{list_all};
ghost use Rattle.clap.specs.Simple.{subcommand_rows_of};
ghost use Rattle.command_line.specs.Words.{is_plain, command_of, parsed};
ghost use Rattle.command_line.specs.inner.Found.{found_in};

use crate::found::command_in;
use crate::grammar::whole_command;
use crate::names::NamedCommand;
use clap::ArgMatches;
use clap::error::ErrorKind;
use std::alloc::{AllocError, Global};

/// Returns the command that the words form, or `None` if they form no command. The only error is lack of memory.
pub fn command_of<'a>(
    alloc: Global,
    words: &'a [String],
) -> Result<Option<NamedCommand<'a>>, AllocError>
    ensures { IfOk result (λ c. c ≡ command_of (map string_bytes words.entry.now)) }
{
    if !are_plain(words) {
        return Ok(None);
    }
    match matches_of(alloc, words) {
        Ok(Some(matches)) => command_in(alloc, &matches),
        Ok(None) => Ok(None),
        Err(error) => Err(error),
    }
}

// Returns whether no word is empty and no word begins with `-`.
fn are_plain(words: &[String]) -> bool
    ensures { result ≡ list_all is_plain (map string_bytes words.now) }
{
    all_plain(words)
}

fn all_plain(words: &[String]) -> bool
    ensures { result ≡ list_all (λ word. is_plain (string_bytes word)) words.now }
{
    words.iter().all(|word| is_plain(word))
}

fn is_plain(word: &str) -> bool
    ensures { result ≡ is_plain word.now }
{
    !word.is_empty() && !word.starts_with('-')
}

// Returns the values that `clap` finds in the words, or `None` if `clap` refuses the words. No word may be empty or
// begin with `-`.
fn matches_of<'a>(alloc: Global, words: &'a [String]) -> Result<Option<ArgMatches<'a>>, AllocError>
    requires { list_all is_plain (map string_bytes words.now) ≡ true }
    ensures { IfOk result
        (λ matches. found_in matches ≡ parsed (map string_bytes words.entry.now)) }
{
    match whole_command(alloc)?.try_get_matches_from(words) {
        Ok(matches) => Ok(Some(matches)),
        Err(error) => {
            let kind = error.kind();
            drop(error);
            match kind {
                ErrorKind::OutOfMemory => Err(AllocError),
                _ => Ok(None),
            }
        }
    }
}

// Reads the program's command from the values that `clap` found for the arguments.
ghost use Rattle.std.specs.Prelude.{◌≡◌, map, IfOk, option_map};
ghost use Rattle.clap.specs.Matches.{found_of};
ghost use Rattle.clap.specs.Simple.{subcommand_rows_of};
ghost use Rattle.clap.specs.Walk.{first_of, rows_of};
ghost use Rattle.command_line.specs.declared.command.Command.TheVariants.{Chain, Ident, Cover, Svf, Walk, Diagnose, Groups, Batch};
ghost use Rattle.command_line.specs.Words.{with_names};
ghost use Rattle.command_line.specs.inner.Found.{command_in, called_found, board_found, log_found, few_in, chain_in, board_in, log_in, device_in, make_in, workers_in, worked_in};

use crate::command::{BoardFiles, ChainFiles, Command, LogFiles};
use crate::names::{
    BoardNames, BsdlNames, ChainNames, FileName, LogNames, MOST_NAMES, NamedCommand,
};
use crate::number::{PartCount, workers_of};
use clap::ArgMatches;
use side_by_side::Workers;
use std::alloc::{AllocError, Global};

/// Returns the command that `clap` found. Returns `None` if there is no such command, an argument is
/// missing, a number has a wrong form or is out of range, or there are more than 255 BSDL names. The
/// only error is lack of memory.
pub fn command_in<'a>(
    alloc: Global,
    matches: &ArgMatches<'a>,
) -> Result<Option<NamedCommand<'a>>, AllocError>
    ensures { IfOk result (λ c. c ≡ command_in (subcommand_rows_of matches.now)) }
{
    match matches.subcommand() {
        Some((name, found)) => command_called(alloc, name, found),
        None => Ok(None),
    }
}

// Returns the command of the subcommand with this name, or `None` if its values form no command.
fn command_called<'a>(
    alloc: Global,
    name: &str,
    found: &ArgMatches<'a>,
) -> Result<Option<NamedCommand<'a>>, AllocError>
    ensures { IfOk result (λ c. c ≡ called_found name.now (rows_of (found_of found.now))) }
{
    if name == "chain" {
        chain_command(alloc, found)
    } else if name == "ident" {
        ident_command(alloc, found)
    } else if name == "device" {
        Ok(device_command(found))
    } else {
        board_called(alloc, name, found)
    }
}

// Returns the command of the subcommand with this name, or `None` if its values form no command.
// Handles all names except `chain`, `ident` and `device`.
#[tactic(auto, unfolding(crate::specs::inner::Found::board_found))]
fn board_called<'a>(
    alloc: Global,
    name: &str,
    found: &ArgMatches<'a>,
) -> Result<Option<NamedCommand<'a>>, AllocError>
    ensures { IfOk result (λ c. c ≡ board_found name.now (rows_of (found_of found.now))) }
{
    if name == "cover" {
        cover_command(alloc, found)
    } else if name == "svf" {
        svf_command(alloc, found)
    } else if name == "walk" {
        walk_command(alloc, found)
    } else if name == "make" {
        Ok(make_command(found))
    } else {
        log_called(alloc, name, found)
    }
}

// Returns the command of the subcommand with this name, if the name is `diagnose`, `groups` or
// `batch`, whose commands read response logs. Returns `None` for any other name, or if the values
// form no command.
#[tactic(auto, unfolding(crate::specs::inner::Found::log_found))]
fn log_called<'a>(
    alloc: Global,
    name: &str,
    found: &ArgMatches<'a>,
) -> Result<Option<NamedCommand<'a>>, AllocError>
    ensures { IfOk result (λ c. c ≡ log_found name.now (rows_of (found_of found.now))) }
{
    if name == "diagnose" {
        diagnose_command(alloc, found)
    } else if name == "groups" {
        groups_command(alloc, found)
    } else if name == "batch" {
        batch_command(alloc, found)
    } else {
        Ok(None)
    }
}

// Returns the word of the argument with this id, if there is one.
#[tactic(auto, using(crate::proofs::RowLemmas::first_row))]
fn word_in<'a>(found: &ArgMatches<'a>, id: &str) -> Option<&'a str>
    ensures { option_map (λ word. word.now) result
        ≡ first_of id.now (rows_of (found_of found.now)) }
{
    found.get_str(id)
}

// Returns the names of the BSDL files, or `None` if there are more than 255.
#[tactic(auto, using(crate::proofs::RowLemmas::all_rows))]
fn few_in<'a>(alloc: Global, found: &ArgMatches<'a>) -> Result<Option<BsdlNames<'a>>, AllocError>
    ensures { IfOk result (λ bsdl. bsdl ≡ few_in (rows_of (found_of found.now))) }
{
    match found.get_strs("BSDL") {
        Some(names) => few_names(alloc, names),
        None => few_names(alloc, &[]),
    }
}

// Returns these names as names of BSDL files, or `None` if there are more than 255.
fn few_names<'a>(alloc: Global, names: &[&'a str]) -> Result<Option<BsdlNames<'a>>, AllocError>
    ensures { IfOk result
        (λ bsdl. bsdl
        ≡ with_names (map (λ name. name.now) names.now) (map (λ name. name.now) names.now)) }
{
    if names.len() > MOST_NAMES {
        return Ok(None);
    }
    let names = names.to_vec(alloc)?;
    Ok(Some(BsdlNames::of(names)))
}

// Returns the file names of a chain, or `None` if the name of the chain file is missing or there are
// more than 255 BSDL names.
fn chain_in<'a>(alloc: Global, found: &ArgMatches<'a>) -> Result<Option<ChainNames<'a>>, AllocError>
    ensures { IfOk result (λ names. names ≡ chain_in (rows_of (found_of found.now))) }
{
    let Some(chain) = word_in(found, "CHAIN") else {
        return Ok(None);
    };
    match few_in(alloc, found) {
        Ok(Some(bsdl)) => Ok(Some(ChainFiles {
            chain: FileName::of(chain),
            bsdl,
        })),
        Ok(None) => Ok(None),
        Err(error) => Err(error),
    }
}

// Returns the file names of a board, or `None` if the name of the chain file or of the net file is
// missing or there are more than 255 BSDL names.
fn board_in<'a>(alloc: Global, found: &ArgMatches<'a>) -> Result<Option<BoardNames<'a>>, AllocError>
    ensures { IfOk result (λ names. names ≡ board_in (rows_of (found_of found.now))) }
{
    let Some(chain) = word_in(found, "CHAIN") else {
        return Ok(None);
    };
    let Some(nets) = word_in(found, "NETS") else {
        return Ok(None);
    };
    match few_in(alloc, found) {
        Ok(Some(bsdl)) => Ok(Some(BoardFiles {
            chain: FileName::of(chain),
            nets: FileName::of(nets),
            bsdl,
        })),
        Ok(None) => Ok(None),
        Err(error) => Err(error),
    }
}

// Returns the names of a file of response logs and of the files of its board. Returns `None` if the
// name of the log file, the chain file or the net file is missing, or if there are more than 255
// BSDL names.
fn log_in<'a>(alloc: Global, found: &ArgMatches<'a>) -> Result<Option<LogNames<'a>>, AllocError>
    ensures { IfOk result (λ names. names ≡ log_in (rows_of (found_of found.now))) }
{
    let Some(log) = word_in(found, "LOG") else {
        return Ok(None);
    };
    match board_in(alloc, found) {
        Ok(Some(board)) => Ok(Some(LogFiles {
            log: FileName::of(log),
            board,
        })),
        Ok(None) => Ok(None),
        Err(error) => Err(error),
    }
}

// Returns the command `chain`, or `None` if an argument is missing or there are more than 255 BSDL names.
fn chain_command<'a>(
    alloc: Global,
    found: &ArgMatches<'a>,
) -> Result<Option<NamedCommand<'a>>, AllocError>
    ensures { IfOk result (λ c. c ≡ option_map Chain (chain_in (rows_of (found_of found.now)))) }
{
    match chain_in(alloc, found)? {
        Some(names) => Ok(Some(Command::Chain(names))),
        None => Ok(None),
    }
}

// Returns the command `ident`, or `None` if an argument is missing or there are more than 255 BSDL names.
fn ident_command<'a>(
    alloc: Global,
    found: &ArgMatches<'a>,
) -> Result<Option<NamedCommand<'a>>, AllocError>
    ensures { IfOk result (λ c. c ≡ option_map Ident (chain_in (rows_of (found_of found.now)))) }
{
    match chain_in(alloc, found)? {
        Some(names) => Ok(Some(Command::Ident(names))),
        None => Ok(None),
    }
}

// Returns the command `device`, or `None` if there is no file name.
fn device_command<'a>(found: &ArgMatches<'a>) -> Option<NamedCommand<'a>>
    ensures { result ≡ device_in (rows_of (found_of found.now)) }
{
    let bsdl = word_in(found, "BSDL")?;
    Some(Command::Device(FileName::of(bsdl)))
}

// Returns the command `cover`, or `None` if an argument is missing or there are more than 255 BSDL names.
fn cover_command<'a>(
    alloc: Global,
    found: &ArgMatches<'a>,
) -> Result<Option<NamedCommand<'a>>, AllocError>
    ensures { IfOk result (λ c. c ≡ option_map Cover (board_in (rows_of (found_of found.now)))) }
{
    match board_in(alloc, found)? {
        Some(names) => Ok(Some(Command::Cover(names))),
        None => Ok(None),
    }
}

// Returns the command `svf`, or `None` if an argument is missing or there are more than 255 BSDL names.
fn svf_command<'a>(
    alloc: Global,
    found: &ArgMatches<'a>,
) -> Result<Option<NamedCommand<'a>>, AllocError>
    ensures { IfOk result (λ c. c ≡ option_map Svf (board_in (rows_of (found_of found.now)))) }
{
    match board_in(alloc, found)? {
        Some(names) => Ok(Some(Command::Svf(names))),
        None => Ok(None),
    }
}

// Returns the command `walk`, or `None` if an argument is missing or there are more than 255 BSDL names.
fn walk_command<'a>(
    alloc: Global,
    found: &ArgMatches<'a>,
) -> Result<Option<NamedCommand<'a>>, AllocError>
    ensures { IfOk result (λ c. c ≡ option_map Walk (board_in (rows_of (found_of found.now)))) }
{
    match board_in(alloc, found)? {
        Some(names) => Ok(Some(Command::Walk(names))),
        None => Ok(None),
    }
}

// Returns the command `make`, or `None` if the number of parts is missing, has a wrong form or is out of
// range.
fn make_command<'a>(found: &ArgMatches<'a>) -> Option<NamedCommand<'a>>
    ensures { result ≡ make_in (rows_of (found_of found.now)) }
{
    let parts = PartCount::of_word(word_in(found, "NUMBER")?)?;
    Some(Command::Make(parts))
}

// Returns the number of workers (the threads that work on a diagnosis), or `None` if the number is
// missing, has a wrong form or is out of range.
fn workers_in(found: &ArgMatches) -> Option<Workers>
    ensures { result ≡ workers_in (rows_of (found_of found.now)) }
{
    workers_of(word_in(found, "WORKERS")?)
}

// Returns the command `diagnose`, or `None` if an argument is missing, the number of workers has a wrong
// form or is out of range, or there are more than 255 BSDL names.
fn diagnose_command<'a>(
    alloc: Global,
    found: &ArgMatches<'a>,
) -> Result<Option<NamedCommand<'a>>, AllocError>
    ensures { IfOk result (λ c. c ≡ worked_in Diagnose (rows_of (found_of found.now))) }
{
    match (log_in(alloc, found)?, workers_in(found)) {
        (Some(files), Some(workers)) => Ok(Some(Command::Diagnose { workers, files })),
        _ => Ok(None),
    }
}

// Returns the command `groups`, or `None` if an argument is missing or there are more than 255 BSDL names.
fn groups_command<'a>(
    alloc: Global,
    found: &ArgMatches<'a>,
) -> Result<Option<NamedCommand<'a>>, AllocError>
    ensures { IfOk result (λ c. c ≡ option_map Groups (log_in (rows_of (found_of found.now)))) }
{
    match log_in(alloc, found)? {
        Some(names) => Ok(Some(Command::Groups(names))),
        None => Ok(None),
    }
}

// Returns the command `batch`, or `None` if an argument is missing, the number of workers has a wrong
// form or is out of range, or there are more than 255 BSDL names.
fn batch_command<'a>(
    alloc: Global,
    found: &ArgMatches<'a>,
) -> Result<Option<NamedCommand<'a>>, AllocError>
    ensures { IfOk result (λ c. c ≡ worked_in Batch (rows_of (found_of found.now))) }
{
    match (log_in(alloc, found)?, workers_in(found)) {
        (Some(files), Some(workers)) => Ok(Some(Command::Batch { workers, files })),
        _ => Ok(None),
    }
}

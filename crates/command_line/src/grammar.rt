// Builds the program's command for `clap`. Each command of the grammar is a subcommand, and its
// words are the arguments.
ghost use Rattle.std.specs.Prelude.{◌≡◌, false, map, take, IfOk};
ghost use Rattle.clap.specs.Simple.{App, app_of, with_rule, with_subcommand};
ghost use Rattle.clap.specs.Walk.{rule_of};
ghost use Rattle.clap.specs.declared.builder.command.Command.TheViews.{out-Command as fields_of};
ghost use Rattle.command_line.specs.Grammar.{grammar};
ghost use Rattle.command_line.specs.inner.App.{name_rule, names_rule, with_word, worded_app, top_app, app_with, btest_app};

use clap::{Arg, ArgAction};
use std::alloc::{AllocError, Global};

// Returns an argument that takes exactly one word.
fn name_arg<'a>(alloc: Global, id: &'a str) -> Arg<'a>
    ensures rule { rule_of result ≡ name_rule id.entry.now }
    ensures local { result.global ≡ false }
{
    Arg::new(alloc, id).required(true).action(ArgAction::Set)
}

// Returns the argument that takes any number of BSDL file names.
fn names_arg<'a>(alloc: Global) -> Arg<'a>
    ensures rule { rule_of result ≡ names_rule }
    ensures local { result.global ≡ false }
{
    Arg::new(alloc, "BSDL").action(ArgAction::Append)
}

// Adds an argument that takes exactly one word to a command. The command must have no global
// argument. Takes the command as a result and passes on an error, so that a caller needs no `?`:
// each `?` costs the caller's proof several seconds.
fn with_word<'a>(
    alloc: Global,
    command: Result<clap::Command<'a>, AllocError>,
    id: &'a str,
) -> Result<clap::Command<'a>, AllocError>
    requires { IfOk command (λ c. (fields_of c).has_globals ≡ false) }
    ensures app { (app : App) → IfOk command.entry (λ c. app_of c ≡ app)
        → IfOk result (λ c. app_of c ≡ with_word app id.entry.now) }
    ensures local { IfOk result (λ c. (fields_of c).has_globals ≡ false) }
{
    command?.arg(name_arg(alloc, id))
}

// Adds the argument for any number of BSDL file names, after the other arguments of the command.
// The command must have no global argument.
fn with_names<'a>(
    alloc: Global,
    command: Result<clap::Command<'a>, AllocError>,
) -> Result<clap::Command<'a>, AllocError>
    requires { IfOk command (λ c. (fields_of c).has_globals ≡ false) }
    ensures app { (app : App) → IfOk command.entry (λ c. app_of c ≡ app)
        → IfOk result (λ c. app_of c ≡ with_rule app names_rule) }
    ensures local { IfOk result (λ c. (fields_of c).has_globals ≡ false) }
{
    command?.arg(names_arg(alloc))
}

// Returns the command with this name, and with an argument for each of these words.
fn words_command<'a>(
    alloc: Global,
    name: &'a str,
    words: &[&'a str],
) -> Result<clap::Command<'a>, AllocError>
    ensures app { IfOk result
        (λ c. app_of c ≡ worded_app name.entry.now (map (λ word. word.now) words.entry.now)) }
    ensures local { IfOk result (λ c. (fields_of c).has_globals ≡ false) }
{
    let mut command = Ok(clap::Command::new(alloc, name));
    for word in words {
        command = with_word(alloc, command, *word);
    }
    command
}

// Returns the command with this name, with an argument for each of these words and, after them, the argument for any
// number of BSDL file names.
fn names_command<'a>(
    alloc: Global,
    name: &'a str,
    words: &[&'a str],
) -> Result<clap::Command<'a>, AllocError>
    ensures app { IfOk result
        (λ c. app_of c
        ≡ with_rule (worded_app name.entry.now (map (λ word. word.now) words.entry.now))
        names_rule) }
    ensures local { IfOk result (λ c. (fields_of c).has_globals ≡ false) }
{
    with_names(alloc, words_command(alloc, name, words))
}

// Returns the top command, which stands for the program, without its subcommands.
fn top_command<'a>(alloc: Global) -> clap::Command<'a>
    ensures app { app_of result ≡ top_app }
    ensures local { (fields_of result).has_globals ≡ false }
{
    clap::Command::new(alloc, "btest")
        .no_binary_name(true)
        .subcommand_required(true)
        .disable_help_flag(true)
        .disable_help_subcommand(true)
}

// Adds a subcommand to a command. Takes both commands as results, and passes on an error of either.
// Neither may have a global argument.
fn with_made<'a>(
    command: Result<clap::Command<'a>, AllocError>,
    made: Result<clap::Command<'a>, AllocError>,
) -> Result<clap::Command<'a>, AllocError>
    requires top { IfOk command (λ c. (fields_of c).has_globals ≡ false) }
    requires made { IfOk made (λ s. (fields_of s).has_globals ≡ false) }
    ensures app { (top app : App) → IfOk command.entry (λ c. app_of c ≡ top)
        → IfOk made.entry (λ s. app_of s ≡ app)
        → IfOk result (λ c. app_of c ≡ with_subcommand top app.top) }
    ensures local { IfOk result (λ c. (fields_of c).has_globals ≡ false) }
{
    let command = command?;
    let subcommand = made?;
    command.subcommand(subcommand)
}

// Returns the top command with the first three commands of the grammar as its subcommands.
fn three_commands<'a>(alloc: Global) -> Result<clap::Command<'a>, AllocError>
    ensures app { IfOk result (λ c. app_of c ≡ app_with (take 3 grammar)) }
    ensures local { IfOk result (λ c. (fields_of c).has_globals ≡ false) }
{
    let command = Ok(top_command(alloc));
    let command = with_made(command, names_command(alloc, "chain", &["CHAIN"]));
    let command = with_made(command, words_command(alloc, "device", &["BSDL"]));
    with_made(command, names_command(alloc, "cover", &["CHAIN", "NETS"]))
}

// Returns the top command with the first six commands of the grammar.
fn six_commands<'a>(alloc: Global) -> Result<clap::Command<'a>, AllocError>
    ensures app { IfOk result (λ c. app_of c ≡ app_with (take 6 grammar)) }
    ensures local { IfOk result (λ c. (fields_of c).has_globals ≡ false) }
{
    let command = three_commands(alloc);
    let command = with_made(command, names_command(alloc, "svf", &["CHAIN", "NETS"]));
    let command = with_made(
        command,
        names_command(alloc, "diagnose", &["WORKERS", "LOG", "CHAIN", "NETS"]),
    );
    with_made(command, words_command(alloc, "make", &["NUMBER"]))
}

// Returns the top command with the first nine commands of the grammar.
fn nine_commands<'a>(alloc: Global) -> Result<clap::Command<'a>, AllocError>
    ensures app { IfOk result (λ c. app_of c ≡ app_with (take 9 grammar)) }
    ensures local { IfOk result (λ c. (fields_of c).has_globals ≡ false) }
{
    let command = six_commands(alloc);
    let command = with_made(command, names_command(alloc, "ident", &["CHAIN"]));
    let command = with_made(command, names_command(alloc, "walk", &["CHAIN", "NETS"]));
    with_made(
        command,
        names_command(alloc, "groups", &["LOG", "CHAIN", "NETS"]),
    )
}

// Returns the top command with all commands of the grammar.
pub fn whole_command<'a>(alloc: Global) -> Result<clap::Command<'a>, AllocError>
    ensures { IfOk result (λ c. app_of c ≡ btest_app) }
{
    let command = nine_commands(alloc);
    with_made(
        command,
        names_command(alloc, "batch", &["WORKERS", "LOG", "CHAIN", "NETS"]),
    )
}

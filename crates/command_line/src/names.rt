// The names of the files of a command.
ghost use Rattle.std.specs.Prelude.{◌≡◌, ◌≤◌, length, map};
ghost use Rattle.command_line.specs.Limits.{most_names};

use crate::command::{BoardFiles, ChainFiles, Command, LogFiles};
use std::marker::Model;

/// The largest number of BSDL files that a command takes.
pub const MOST_NAMES: usize = 255;

/// The name of a file.
#[derive(Drop)]
pub struct FileName<'a> {
    name: &'a str,
}

impl<'a> Model for FileName<'a> {
    ghost use Rattle.std.specs.Prelude.{ℕ, List};

    ghost Value = { List ℕ };

    ghost view = { λ file. file.name.now };
}

impl<'a> FileName<'a> {
    /// Returns this word as the name of a file.
    pub fn of(name: &'a str) -> FileName<'a>
        ensures { result ≡ name.entry.now }
    {
        FileName { name }
    }

    /// Returns the name.
    pub fn as_str(&self) -> &'a str
        ensures { result.now ≡ self.now }
    {
        self.name
    }
}

/// The names of the BSDL files of a command, at most 255.
#[derive(Drop)]
pub struct BsdlNames<'a> {
    names: Vec<&'a str>,
}

impl<'a> Model for BsdlNames<'a> {
    ghost use Rattle.std.specs.Prelude.{ℕ, ◌≤◌, List, length, map};
    ghost use Rattle.command_line.specs.Limits.{most_names};

    ghost Value = { List (List ℕ) };

    ghost view = { λ bsdl. map (λ name. name.now) bsdl.names.items };

    ghost invariant = { λ bsdl. length bsdl.names.items ≤ most_names };
}

impl<'a> BsdlNames<'a> {
    /// Returns these words as the names of BSDL files. There must be at most 255.
    pub fn of(names: Vec<&'a str>) -> BsdlNames<'a>
        requires { length names.items ≤ most_names }
        ensures { result ≡ map (λ name. name.now) names.entry.items }
    {
        BsdlNames { names }
    }

    /// Returns the list of the names.
    pub fn as_slice(&self) -> &[&'a str]
        ensures names { map (λ name. name.now) result.now ≡ self.now }
        ensures few { length result.now ≤ most_names }
    {
        &self.names
    }
}

/// The names of the files of a chain.
pub type ChainNames<'a> = ChainFiles<FileName<'a>, BsdlNames<'a>>;

/// The names of the files of a board.
pub type BoardNames<'a> = BoardFiles<FileName<'a>, BsdlNames<'a>>;

/// The names of a file of response logs and of the files of its board.
pub type LogNames<'a> = LogFiles<FileName<'a>, BsdlNames<'a>>;

/// A command with the names of its files.
pub type NamedCommand<'a> = Command<FileName<'a>, BsdlNames<'a>>;

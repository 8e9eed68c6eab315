// The numbers that words of a command denote: a number of parts, and a number of workers.
ghost use Rattle.std.specs.Prelude.{◌≡◌, ◌≤◌, IfSome};
ghost use Rattle.std.specs.Char.{is_ascii_digit};
ghost use Rattle.std.specs.List.{list_all};
ghost use Rattle.side_by_side.specs.Workers.{most_workers};
ghost use Rattle.command_line.specs.Limits.{most_made};
ghost use Rattle.command_line.specs.Words.{number_of};

use side_by_side::{MOST_WORKERS, Workers};
use std::marker::Model;

/// The largest number of digits in a word that denotes a number.
const MOST_DIGITS: usize = 20;

// The largest number of parts of a generated board.
const MOST_MADE: u32 = 255;

/// The number of parts of a generated board, from 1 to 255.
#[derive(Clone, Copy)]
pub struct PartCount {
    number: u32,
}

impl Model for PartCount {
    ghost use Rattle.std.specs.Prelude.{ℕ, ◌≤◌};
    ghost use Rattle.command_line.specs.Limits.{most_made};

    ghost Value = { ℕ };

    ghost view = { λ count. count.number };

    ghost invariant = { λ count. (1 ≤ count.number) × (count.number ≤ most_made) };

    ghost inverse = { λ count. record { number = count } };
}

impl PartCount {
    /// Returns the number of parts that a word of 1 to 20 decimal digits denotes. Returns `None` if
    /// the number is not from 1 to 255, or if the word has another form.
    pub fn of_word(word: &str) -> Option<PartCount>
        ensures { result ≡ number_of most_made word.now }
    {
        let number = number_of(MOST_MADE, word)?;
        Some(PartCount { number })
    }

    /// Returns the number of parts, from 1 to 255.
    pub fn number(self) -> u32
        ensures value { result ≡ self }
        ensures some { 1 ≤ result }
        ensures few { result ≤ most_made }
    {
        self.number
    }
}

/// Returns the number of workers that a word of 1 to 20 decimal digits denotes. Returns `None` if
/// the number is not from 1 to 64, or if the word has another form.
pub fn workers_of(word: &str) -> Option<Workers>
    ensures { result ≡ number_of most_workers word.now }
{
    let number = number_of(MOST_WORKERS, word)?;
    Some(Workers::of(number))
}

// Returns the value of a word of 1 to 20 decimal digits. Returns `None` if the value is not from 1 to `most`, or if
// the word has another form.
fn number_of(most: u32, word: &str) -> Option<u32>
    ensures value { result ≡ number_of most word.now }
    ensures range { IfSome result (λ n. (1 ≤ n) × (n ≤ most)) }
{
    if word.len() > MOST_DIGITS || !are_digits(word) {
        return None;
    }
    let Ok(number) = word.parse::<u32>() else {
        return None;
    };
    if 1 <= number && number <= most {
        Some(number)
    } else {
        None
    }
}

// Returns whether the word has only decimal digits. The test is needed because `parse` of std also accepts a sign.
fn are_digits(word: &str) -> bool
    ensures { result ≡ list_all is_ascii_digit word.now }
{
    word.bytes().all(|byte| byte.is_ascii_digit())
}

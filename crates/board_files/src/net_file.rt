// Reads a net file.
ghost use Rattle.std.specs.Prelude.{◌≡◌, ◌+◌, ◌<◌, ◌≤◌, ◌^◌, ◌∷◌, List, map, length, vec_len, IfOk, Option, Some, None};
ghost use Rattle.std.specs.List.{AllByRecursion, before_first, after_first};
ghost use Rattle.board_files.specs.Words.{is_dot};
ghost use Rattle.board_files.specs.Reading.{ReadsLines};
ghost use Rattle.board_files.specs.Files.{IsNetFile};
ghost use Rattle.board_files.specs.Names.{line_names};
ghost use Rattle.board_files.specs.NetLines.{read_pin_word, read_pins, read_net, read_net_line, net_lines};

use crate::fault::LineFault;
use crate::lines::{FileLine, read_lines};
use board_defs::{Items, Name};
use short_lists::ShortSlice;
use std::alloc::{AllocError, Global};
use std::marker::Model;
use text_lines::{cut_at, is_filled, is_word};

/// A pin of a net: the name of the pin's part, and the pin's own name in upper case.
#[derive(Drop)]
pub struct PinWord {
    pub part: Name,
    pub pin: Name,
}

/// A line of a net file, with its number, counted from 1. The first pin is word 3 of the line.
#[derive(Drop)]
pub struct NetLine {
    pub line: u32,
    pub name: Name,
    pub pins: Items<PinWord>,
}

/// A net file. In contracts, the value is the list of its lines. There are fewer than 2^32 lines,
/// and each line has fewer than 2^32 words.
#[derive(Drop)]
pub struct NetFile {
    lines: Vec<NetLine>,
}

impl Model for NetFile {
    ghost use Rattle.std.specs.Prelude.{List};
    ghost use Rattle.board_files.specs.declared.net_file.NetLine.{NetLine};
    ghost use Rattle.board_files.specs.Files.{IsNetFile};

    ghost Value = { List NetLine };

    ghost view = { λ a. a.lines.items };

    ghost invariant = { λ a. IsNetFile a.lines.items };
}

impl NetFile {
    /// Returns the file with these lines. There must be fewer than 2^32 lines, and each line must
    /// have fewer than 2^32 words.
    pub fn of(lines: Vec<NetLine>) -> NetFile
        requires { IsNetFile lines.items }
        ensures { result ≡ lines.items }
    {
        NetFile { lines }
    }

    /// Returns the list of the lines.
    pub fn lines(&self) -> &[NetLine]
        ensures lines { result.now ≡ self.now }
        ensures file { IsNetFile result.now }
    {
        &self.lines
    }
}

/// Returns the name of each line's net, in the order of the lines. A name that is on several lines
/// occurs several times.
pub fn line_names<'a>(alloc: Global, lines: &'a [NetLine]) -> Result<Vec<&'a [u8]>, AllocError>
    ensures names { IfOk result (λ names. map (λ n. n.now) names.items ≡ line_names lines.now) }
    ensures count { IfOk result (λ names. vec_len names ≡ length lines.now) }
{
    let mut names = Vec::with_capacity(alloc, lines.len())?;
    for line in lines {
        names.push(line.name.bytes())?;
    }
    Ok(names)
}

/// Reads a net file from fewer than 2^32 bytes, which may have any values. Returns its lines, or
/// the fault of the first faulty line. The number of lines is at most the number of bytes, and so
/// is the number of words on each line.
pub fn nets(alloc: Global, bytes: &[u8]) -> Result<NetFile, LineFault>
    requires { length bytes.now < 2 ^ 32 }
    ensures read { ReadsLines (λ file. file) result (net_lines bytes.now) }
    ensures count { IfOk result (λ file. length file ≤ length bytes.now) }
    ensures pins { IfOk result (AllByRecursion (λ line. length line.pins + 2 ≤ length bytes.now)) }
{
    let lines = read_lines(alloc, ShortSlice { items: bytes })?;
    Ok(NetFile::of(lines))
}

impl FileLine for NetLine {
    ghost read = { read_net_line };

    fn from_words(alloc: Global, line: u32, words: &[&[u8]]) -> Result<NetLine, LineFault> {
        match words {
            [keyword, rest @ ..] if *keyword == b"NET".as_slice() => net(alloc, line, rest),
            _ => Err(LineFault::Statement(line)),
        }
    }
}

#[tactic(auto, unfolding(crate::specs::NetLines::read_net))]
fn net(alloc: Global, line: u32, words: &[&[u8]]) -> Result<NetLine, LineFault>
    ensures { ReadsLines (λ line. line) result (read_net line (map (λ w. w.now) words.now)) }
{
    match words {
        [name, rest @ ..] => {
            if is_word(name) {
                let pins = pins(alloc, line, rest)?;
                Ok(NetLine {
                    line,
                    name: Name::of(alloc, name)?,
                    pins: Items::of(pins),
                })
            } else {
                Err(LineFault::Word(line))
            }
        }
        [] => Err(LineFault::Statement(line)),
    }
}

fn pins(alloc: Global, line: u32, words: &[&[u8]]) -> Result<Vec<PinWord>, LineFault>
    ensures { ReadsLines (λ pins. pins.items) result (read_pins line (map (λ w. w.now) words.now)) }
{
    let mut pins = Vec::with_capacity(alloc, words.len())?;
    for word in words {
        pins.push(pin(alloc, line, word)?)?;
    }
    Ok(pins)
}

fn pin(alloc: Global, line: u32, word: &[u8]) -> Result<PinWord, LineFault>
    ensures { ReadsLines (λ pin. pin) result (read_pin_word line word.now) }
{
    if !is_word(word) {
        return Err(LineFault::Word(line));
    }
    let (part, pin) = cut(word);
    if is_filled(part) && is_filled(pin) {
        Ok(PinWord {
            part: Name::of(alloc, part)?,
            pin: Name::in_upper_case(alloc, pin)?,
        })
    } else {
        Err(LineFault::Word(line))
    }
}

/// Returns the bytes before and after the first `.`. If there is no `.`, returns the whole word and
/// an empty slice.
fn cut(word: &[u8]) -> (&[u8], &[u8])
    ensures before { result.0.now ≡ before_first is_dot word.now }
    ensures after { result.1.now ≡ after_first is_dot word.now }
{
    match cut_at(word, b'.') {
        Some((part, pin)) => (part, pin),
        None => (word, &word[word.len()..]),
    }
}

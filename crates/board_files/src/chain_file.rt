// Reads a chain file.
ghost use Rattle.std.specs.Prelude.{◌≡◌, ◌<◌, ◌≤◌, ◌^◌, List, map, length, IfOk, IsTrue, Some, None, option_map, option_copied, codes, if◌then◌else◌};
ghost use Rattle.std.specs.Str.{bytes_eq};
ghost use Rattle.std.specs.List.{AllByRecursion};
ghost use Rattle.board_files.specs.Reading.{ReadsLines};
ghost use Rattle.board_files.specs.Files.{IsChainFile};
ghost use Rattle.board_files.specs.ChainLines.{package_of, decimal_from, length_in_bypass, is_bit_word, device_statement, bypass_of, inert_statement, supply_statement, pull_statement, link_of, chain_statement, chain_line, chain_lines, HasBypassLength};

use crate::fault::LineFault;
use crate::lines::{FileLine, read_lines};
use crate::words::{is_part, is_symbol, one_of, three_of, two_of};
use board_defs::{MOST_INSTRUCTION_BITS, Name};
use short_lists::ShortSlice;
use std::alloc::{AllocError, Global};
use std::marker::Model;
use text_lines::is_word;

/// A statement of a chain file. Entity, package and pin names are in upper case.
#[derive(Drop)]
pub enum ChainStatement {
    /// A part that a BSDL entity describes. If the package is None, the part is in the default
    /// package of the entity.
    Device {
        part: Name,
        entity: Name,
        package: Option<Name>,
    },
    /// A part without a BSDL description. Its instruction register has `length` bits, from 2 to 255.
    Bypass {
        part: Name,
        length: u32,
    },
    /// A part whose pins drive no net and connect no two nets.
    Inert {
        part: Name,
    },
    /// A net that carries a supply.
    Supply {
        net: Name,
    },
    /// A net that a resistor pulls to this value.
    Pull {
        net: Name,
        value: bool,
    },
    /// A series part, which joins the nets of its two pins.
    Link {
        part: Name,
        first: Name,
        second: Name,
    },
}

/// A statement, with the number of its line, counted from 1.
#[derive(Drop)]
pub struct ChainLine {
    pub line: u32,
    pub statement: ChainStatement,
}

/// A chain file. In contracts, the value is the list of its lines. There are fewer than 2^32 lines,
/// and the length on each BYPASS line is from 2 to 255 bits.
#[derive(Drop)]
pub struct ChainFile {
    lines: Vec<ChainLine>,
}

impl Model for ChainFile {
    ghost use Rattle.std.specs.Prelude.{List};
    ghost use Rattle.board_files.specs.declared.chain_file.ChainLine.{ChainLine};
    ghost use Rattle.board_files.specs.Files.{IsChainFile};

    ghost Value = { List ChainLine };

    ghost view = { λ a. a.lines.items };

    ghost invariant = { λ a. IsChainFile a.lines.items };
}

impl ChainFile {
    /// Returns the file with these lines. There must be fewer than 2^32 lines, and the length on
    /// each BYPASS line must be from 2 to 255 bits.
    pub fn of(lines: Vec<ChainLine>) -> ChainFile
        requires { IsChainFile lines.items }
        ensures { result ≡ lines.items }
    {
        ChainFile { lines }
    }

    /// Returns the list of the lines.
    pub fn lines(&self) -> &[ChainLine]
        ensures lines { result.now ≡ self.now }
        ensures file { IsChainFile result.now }
    {
        &self.lines
    }
}

/// Reads a chain file from fewer than 2^32 bytes, which may have any values. Returns its lines, or
/// the fault of the first faulty line. If several faults apply to this line, returns the first of
/// `Statement`, `Word` and `Number` that applies. There are at most as many lines as bytes.
pub fn chain(alloc: Global, bytes: &[u8]) -> Result<ChainFile, LineFault>
    requires { length bytes.now < 2 ^ 32 }
    ensures read { ReadsLines (λ file. file) result (chain_lines bytes.now) }
    ensures lengths { IfOk result (AllByRecursion (λ line. HasBypassLength line.statement)) }
    ensures count { IfOk result (λ file. length file ≤ length bytes.now) }
{
    let lines = read_lines(alloc, ShortSlice { items: bytes })?;
    Ok(ChainFile::of(lines))
}

impl FileLine for ChainLine {
    ghost read = { chain_line };

    fn from_words(alloc: Global, line: u32, words: &[&[u8]]) -> Result<ChainLine, LineFault> {
        match words {
            [] => Err(LineFault::Statement(line)),
            [name, rest @ ..] => {
                let statement = statement(alloc, line, name, rest)?;
                Ok(ChainLine { line, statement })
            }
        }
    }
}

#[tactic(auto, unfolding(crate::specs::ChainLines::chain_statement))]
fn statement(
    alloc: Global,
    line: u32,
    name: &[u8],
    words: &[&[u8]],
) -> Result<ChainStatement, LineFault>
    ensures { ReadsLines (λ statement. statement) result
        (chain_statement line name.now (map (λ w. w.now) words.now)) }
{
    if name == b"DEVICE".as_slice() {
        device(alloc, line, three_of(words))
    } else if name == b"BYPASS".as_slice() {
        bypass(alloc, line, two_of(words))
    } else if name == b"INERT".as_slice() {
        inert(alloc, line, one_of(words))
    } else if name == b"SUPPLY".as_slice() {
        supply(alloc, line, one_of(words))
    } else if name == b"PULL".as_slice() {
        pull(alloc, line, two_of(words))
    } else if name == b"LINK".as_slice() {
        link(alloc, line, three_of(words))
    } else {
        Err(LineFault::Statement(line))
    }
}

fn package_of(alloc: Global, word: &[u8]) -> Result<Option<Name>, AllocError>
    ensures { IfOk result (λ name. name ≡ package_of word.now) }
{
    if word == b"-".as_slice() {
        Ok(None)
    } else {
        Ok(Some(Name::in_upper_case(alloc, word)?))
    }
}

fn device(
    alloc: Global,
    line: u32,
    words: Option<(&[u8], &[u8], &[u8])>,
) -> Result<ChainStatement, LineFault>
    ensures { ReadsLines (λ statement. statement) result
        (device_statement line (option_map (λ w. (w.0.now, w.1.now, w.2.now)) words.entry)) }
{
    match words {
        None => Err(LineFault::Statement(line)),
        Some((part, entity, package)) => {
            if is_part(part) && is_word(entity) && is_word(package) {
                Ok(ChainStatement::Device {
                    part: Name::of(alloc, part)?,
                    entity: Name::in_upper_case(alloc, entity)?,
                    package: package_of(alloc, package)?,
                })
            } else {
                Err(LineFault::Word(line))
            }
        }
    }
}

/// Returns the number that the decimal digits of `word` spell, or None if a byte is not a digit.
/// The word must have at most three bytes. An empty word gives 0.
fn decimal(word: &[u8]) -> Option<u32>
    requires { length word.now ≤ 3 }
    ensures { result ≡ decimal_from 0 word.now }
{
    let mut n = 0u32;
    for digit in word {
        if !digit.is_ascii_digit() {
            return None;
        }
        n = 10 * n + u32::from(*digit - b'0');
    }
    Some(n)
}

fn length_of(word: &[u8]) -> Option<u32>
    ensures { result ≡ length_in_bypass word.now }
{
    if word.len() <= 3 {
        match decimal(word) {
            Some(n) => {
                if 2 <= n && n <= MOST_INSTRUCTION_BITS {
                    Some(n)
                } else {
                    None
                }
            }
            None => None,
        }
    } else {
        None
    }
}

fn bypass(
    alloc: Global,
    line: u32,
    words: Option<(&[u8], &[u8])>,
) -> Result<ChainStatement, LineFault>
    ensures { ReadsLines (λ statement. statement) result
        (bypass_of line (option_map (λ w. (w.0.now, w.1.now)) words.entry)) }
{
    match words {
        None => Err(LineFault::Statement(line)),
        Some((part, digits)) => {
            if is_part(part) && is_word(digits) {
                match length_of(digits) {
                    Some(length) => Ok(ChainStatement::Bypass {
                        part: Name::of(alloc, part)?,
                        length,
                    }),
                    None => Err(LineFault::Number(line)),
                }
            } else {
                Err(LineFault::Word(line))
            }
        }
    }
}

fn inert(alloc: Global, line: u32, word: Option<&[u8]>) -> Result<ChainStatement, LineFault>
    ensures { ReadsLines (λ statement. statement) result
        (inert_statement line (option_copied word.entry)) }
{
    match word {
        None => Err(LineFault::Statement(line)),
        Some(part) => {
            if is_part(part) {
                Ok(ChainStatement::Inert {
                    part: Name::of(alloc, part)?,
                })
            } else {
                Err(LineFault::Word(line))
            }
        }
    }
}

fn supply(alloc: Global, line: u32, word: Option<&[u8]>) -> Result<ChainStatement, LineFault>
    ensures { ReadsLines (λ statement. statement) result
        (supply_statement line (option_copied word.entry)) }
{
    match word {
        None => Err(LineFault::Statement(line)),
        Some(net) => {
            if is_word(net) {
                Ok(ChainStatement::Supply {
                    net: Name::of(alloc, net)?,
                })
            } else {
                Err(LineFault::Word(line))
            }
        }
    }
}

fn pull(
    alloc: Global,
    line: u32,
    words: Option<(&[u8], &[u8])>,
) -> Result<ChainStatement, LineFault>
    ensures { ReadsLines (λ statement. statement) result
        (pull_statement line (option_map (λ w. (w.0.now, w.1.now)) words.entry)) }
{
    match words {
        None => Err(LineFault::Statement(line)),
        Some((net, value)) => {
            if is_word(net) && is_word(value) {
                match pulled_to(value) {
                    Some(value) => Ok(ChainStatement::Pull {
                        net: Name::of(alloc, net)?,
                        value,
                    }),
                    None => Err(LineFault::Number(line)),
                }
            } else {
                Err(LineFault::Word(line))
            }
        }
    }
}

fn pulled_to(word: &[u8]) -> Option<bool>
    ensures { result
        ≡ (if is_bit_word word.now then Some (bytes_eq word.now (codes "1")) else None) }
{
    if word == b"0".as_slice() {
        Some(false)
    } else if word == b"1".as_slice() {
        Some(true)
    } else {
        None
    }
}

fn link(
    alloc: Global,
    line: u32,
    words: Option<(&[u8], &[u8], &[u8])>,
) -> Result<ChainStatement, LineFault>
    ensures { ReadsLines (λ statement. statement) result
        (link_of line (option_map (λ w. (w.0.now, w.1.now, w.2.now)) words.entry)) }
{
    match words {
        None => Err(LineFault::Statement(line)),
        Some((part, first, second)) => {
            if is_part(part) && is_symbol(first) && is_symbol(second) {
                Ok(ChainStatement::Link {
                    part: Name::of(alloc, part)?,
                    first: Name::in_upper_case(alloc, first)?,
                    second: Name::in_upper_case(alloc, second)?,
                })
            } else {
                Err(LineFault::Word(line))
            }
        }
    }
}

// Writes the lines for the first fault of a chain file, a net file and BSDL texts.
ghost use Rattle.std.specs.Prelude.{◌≡◌};
ghost use Rattle.bt_base.specs.Puts.{Puts};
ghost use Rattle.refusal_lines.specs.Refusals.{board_fault_line, device_fault_line, input_fault_line, lex_fault_line, limit_line, line_fault_line, link_fault_line, parse_fault_line, rule_line, string_line};
ghost use Rattle.refusal_lines.specs.NamesView.{names_view};

use crate::ends::put_memory;
use crate::names::{Names, text_name};
use crate::pieces::{put_about, put_all, put_at_line, put_at_spot};
use board_build::BoardFault;
use board_files::LineFault;
use board_lines::limit_name;
use bsdl_lexer::LexFault;
use bsdl_parser::ParseFault;
use bt_base::{PutFault, Sink};
use btest_core::InputFault;
use device_check::{DeviceFault, string_name};
use itoa::Buffer;
use series_parts::LinkFault;

// Writes the line for a faulty line of a chain or net file.
fn put_line_fault<N: Sink>(name: &str, fault: &LineFault, notes: &mut N) -> Result<(), PutFault>
    ensures { Puts (N.shown notes.old) (N.shown notes.new) (line_fault_line name.now fault.now)
        result }
{
    match fault {
        LineFault::Statement(line) => put_at_line(name, *line, b": no statement\n", notes),
        LineFault::Word(line) => put_at_line(name, *line, b": word not allowed\n", notes),
        LineFault::Number(line) => put_at_line(name, *line, b": number not allowed\n", notes),
        LineFault::Memory(_) => put_memory(notes),
    }
}

// Writes the line for a board that exceeds the limit with number `which`.
fn put_limit<N: Sink>(which: u32, notes: &mut N) -> Result<(), PutFault>
    ensures { Puts (N.shown notes.old) (N.shown notes.new) (limit_line which) result }
{
    put_all(
        b"limit: ",
        &[limit_name(which).as_bytes(), b"\n".as_slice()],
        notes,
    )
}

// Writes the line for a board rule that fails.
fn put_board_fault<N: Sink>(names: Names, fault: &BoardFault, notes: &mut N) -> Result<(), PutFault>
    ensures { Puts (N.shown notes.old) (N.shown notes.new)
        (board_fault_line (names_view names.entry) fault.now) result }
{
    let Names { chain, nets, .. } = names;
    match fault {
        BoardFault::NoChain => put_about(chain, b": no part in the chain\n", notes),
        BoardFault::PartTwice(at) => put_at_line(chain, at.line, b": part twice\n", notes),
        BoardFault::NoEntity(at) => put_at_line(chain, at.line, b": entity not given\n", notes),
        BoardFault::EntityTwice(text) => {
            put_about(
                text_name(names.bsdl, *text),
                b": entity given twice\n",
                notes,
            )
        }
        BoardFault::NoPin(at) => put_at_spot(nets, *at, b": no such pin\n", notes),
        BoardFault::PinTwice(at) => put_at_spot(nets, *at, b": pin in two nets\n", notes),
        BoardFault::InertInChain(at) => {
            put_at_line(chain, at.line, b": inert part in the chain\n", notes)
        }
        BoardFault::NoSupplyNet(at) => {
            put_at_line(chain, at.line, b": supply net not there\n", notes)
        }
        BoardFault::GuardedDriver(at) => {
            put_at_spot(nets, *at, b": driver on a guarded net\n", notes)
        }
        BoardFault::TwoAlwaysOn(at) => {
            put_at_spot(nets, *at, b": two drivers always on\n", notes)
        }
        BoardFault::Limit(which) => put_limit(*which, notes),
        BoardFault::NoPullNet(at) => {
            put_at_line(chain, at.line, b": pulled net not there\n", notes)
        }
        BoardFault::PullTwice(at) => put_at_line(chain, at.line, b": net pulled twice\n", notes),
        BoardFault::Memory(_) => put_memory(notes),
    }
}

// Writes the line for the point of a BSDL text at which the lexer stops.
fn put_lex_fault<N: Sink>(name: &str, fault: &LexFault, notes: &mut N) -> Result<(), PutFault>
    ensures { Puts (N.shown notes.old) (N.shown notes.new) (lex_fault_line name.now fault.now)
        result }
{
    match fault {
        LexFault::Byte(line) => put_at_line(name, *line, b": byte not allowed\n", notes),
        LexFault::OpenString(line) => put_at_line(name, *line, b": string not closed\n", notes),
        LexFault::TooMany(line) => put_at_line(name, *line, b": too many tokens\n", notes),
        LexFault::Memory(_) => put_memory(notes),
    }
}

// Writes the line for the first point at which a BSDL text does not fit the grammar, or at which it
// has a package instead of an entity.
fn put_parse_fault<N: Sink>(name: &str, fault: &ParseFault, notes: &mut N) -> Result<(), PutFault>
    ensures { Puts (N.shown notes.old) (N.shown notes.new) (parse_fault_line name.now fault.now)
        result }
{
    match fault {
        ParseFault::Expected(line) => put_at_line(name, *line, b": not in the grammar\n", notes),
        ParseFault::Package(line) => put_at_line(name, *line, b": package text\n", notes),
        ParseFault::Memory(_) => put_memory(notes),
    }
}

// Writes the line for device rule number `rule`. `item` is the first item that breaks the rule.
fn put_rule<N: Sink>(name: &str, rule: u32, item: u32, notes: &mut N) -> Result<(), PutFault>
    ensures { Puts (N.shown notes.old) (N.shown notes.new) (rule_line name.now rule item) result }
{
    let mut first = Buffer::new();
    let rule = first.format(rule).as_bytes();
    let mut second = Buffer::new();
    let item = second.format(item).as_bytes();
    put_all(
        name.as_bytes(),
        &[
            b": rule V".as_slice(),
            rule,
            b" item ".as_slice(),
            item,
            b"\n".as_slice(),
        ],
        notes,
    )
}

// Writes the line for a string that does not fit its grammar. `attribute` is the number of the
// string, and `entry` is its first entry that does not fit.
fn put_string_fault<N: Sink>(
    name: &str,
    attribute: u32,
    entry: u32,
    notes: &mut N,
) -> Result<(), PutFault>
    ensures { Puts (N.shown notes.old) (N.shown notes.new) (string_line name.now attribute entry)
        result }
{
    let mut number = Buffer::new();
    let entry = number.format(entry).as_bytes();
    put_all(
        name.as_bytes(),
        &[
            b": ".as_slice(),
            string_name(attribute).as_bytes(),
            b" entry ".as_slice(),
            entry,
            b"\n".as_slice(),
        ],
        notes,
    )
}

// Writes the line for the first rule that a device breaks, or for the first of the device's strings
// that does not fit the string's grammar.
fn put_device_fault<N: Sink>(name: &str, fault: &DeviceFault, notes: &mut N) -> Result<(), PutFault>
    ensures { Puts (N.shown notes.old) (N.shown notes.new) (device_fault_line name.now fault.now)
        result }
{
    match fault {
        DeviceFault::Rule { number, item } => put_rule(name, *number, *item, notes),
        DeviceFault::Text { attribute, entry } => put_string_fault(name, *attribute, *entry, notes),
        DeviceFault::Memory(_) => put_memory(notes),
    }
}

// Writes the line for a LINK pin that is in no net.
fn put_link_fault<N: Sink>(name: &str, fault: &LinkFault, notes: &mut N) -> Result<(), PutFault>
    ensures { Puts (N.shown notes.old) (N.shown notes.new) (link_fault_line name.now fault.now)
        result }
{
    match fault {
        LinkFault::NoLinkPin(at) => put_at_spot(name, *at, b": link pin not in a net\n", notes),
        LinkFault::Memory(_) => put_memory(notes),
    }
}

/// Writes the line for the first fault of the texts.
pub fn put_input_fault<N: Sink>(
    names: Names,
    fault: &InputFault,
    notes: &mut N,
) -> Result<(), PutFault>
    ensures { Puts (N.shown notes.old) (N.shown notes.new)
        (input_fault_line (names_view names.entry) fault.now) result }
{
    match fault {
        InputFault::Chain(fault) => put_line_fault(names.chain, fault, notes),
        InputFault::Nets(fault) => put_line_fault(names.nets, fault, notes),
        InputFault::Lex { text, fault } => {
            put_lex_fault(text_name(names.bsdl, *text), fault, notes)
        }
        InputFault::Parse { text, fault } => {
            put_parse_fault(text_name(names.bsdl, *text), fault, notes)
        }
        InputFault::Board(fault) => put_board_fault(names, fault, notes),
        InputFault::Device { text, fault } => {
            put_device_fault(text_name(names.bsdl, *text), fault, notes)
        }
        InputFault::Link(fault) => put_link_fault(names.chain, fault, notes),
        InputFault::NoIdent(line) => {
            put_at_line(names.chain, *line, b": part without a description\n", notes)
        }
        InputFault::Memory(_) => put_memory(notes),
    }
}

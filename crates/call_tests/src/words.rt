// Tests of the words of a line, of the codes that nets carry in a test, and of settings (sets of enabled
// controls), names and bit patterns.
use crate::missed::{Missed, expect};
use board_defs::{Code, Ctl, Name, Setting, Symbol};
use counting_codes::{bit, width};
use std::alloc::{AllocError, Global};
use text_lines::next_word;

// A line, and the words in the line before its comment.
static LINES: [(&[u8], &[&[u8]]); 2] = [(b"\t 0A 3#F\r # C", &[b"0A", b"3#F"]), (b" \r", &[])];

fn has_words(line: &[u8], words: &[&[u8]]) -> bool {
    let mut rest = line;
    for word in words {
        match next_word(rest) {
            Some((first, behind)) if first == *word => rest = behind,
            _ => return false,
        }
    }
    next_word(rest).is_none()
}

#[test]
fn words_of_a_line(_rt: HostRuntime) -> Result<(), Missed> {
    for (row, (line, words)) in LINES.iter().enumerate() {
        expect(row, has_words(line, words))?;
    }
    Ok(())
}

// A number of nets, and the number of bits in their codes. At least two code words of this width are unused.
static WIDTHS: [(u32, u32); 8] = [
    (1, 2),
    (2, 2),
    (3, 3),
    (6, 3),
    (7, 4),
    (14, 4),
    (15, 5),
    (16382, 14),
];

// A code, the number of a bit, and the value of this bit. Bit 0 is the least significant.
static CODE_BITS: [(u32, u32, bool); 5] = [
    (6, 0, false),
    (6, 1, true),
    (6, 2, true),
    (6, 3, false),
    (0x8000_0000, 31, true),
];

#[test]
fn counting_codes_leave_two_words_unused(_rt: HostRuntime) -> Result<(), Missed> {
    for (row, (count, wanted)) in WIDTHS.iter().enumerate() {
        expect(row, *count <= 16382 && width(*count) == *wanted)?;
    }
    for (row, (code, place, wanted)) in CODE_BITS.iter().enumerate() {
        expect(row, *place < 32 && bit(*code, *place) == *wanted)?;
    }
    Ok(())
}

static ADDED: [Ctl; 5] = [
    Ctl { part: 1, cell: 5 },
    Ctl { part: 0, cell: 9 },
    Ctl { part: 1, cell: 2 },
    Ctl { part: 0, cell: 9 },
    Ctl { part: 1, cell: 5 },
];

static OTHERS: [Ctl; 4] = [
    Ctl { part: 0, cell: 5 },
    Ctl { part: 0, cell: 10 },
    Ctl { part: 1, cell: 3 },
    Ctl { part: 2, cell: 2 },
];

static IN_ORDER: [Ctl; 3] = [
    Ctl { part: 0, cell: 9 },
    Ctl { part: 1, cell: 2 },
    Ctl { part: 1, cell: 5 },
];

// Adds the controls of `ADDED` to the setting in turn. Checks after each that the setting has this control.
fn add_all(setting: &mut Setting) -> Result<(), Missed> {
    for (row, control) in ADDED.iter().enumerate() {
        setting.add(*control)?;
        expect(row, setting.has(*control))?;
    }
    Ok(())
}

fn has_no_other(setting: &Setting) -> Result<(), Missed> {
    for (row, control) in OTHERS.iter().enumerate() {
        expect(row, !setting.has(*control))?;
    }
    Ok(())
}

fn is_in_order(controls: &[Ctl]) -> bool {
    if controls.len() != IN_ORDER.len() {
        return false;
    }
    for (control, wanted) in controls.iter().zip(&IN_ORDER) {
        if !control.is_same(*wanted) {
            return false;
        }
    }
    true
}

#[test]
fn settings_keep_control_order(rt: HostRuntime) -> Result<(), Missed> {
    let mut setting = Setting::new(rt.alloc());
    add_all(&mut setting)?;
    has_no_other(&setting)?;
    expect(0, is_in_order(setting.controls()))
}

fn keeps_name(alloc: Global) -> Result<bool, AllocError> {
    Ok(Name::of(alloc, b"U1")?.bytes() == b"U1".as_slice())
}

fn keeps_code(alloc: Global) -> Result<bool, AllocError> {
    let code = Code::of(alloc, &[Symbol::Zero, Symbol::One])?;
    Ok(code.len() == 2 && code.at(1) == Symbol::One)
}

#[test]
fn names_and_codes_keep_what_they_are_given(rt: HostRuntime) -> Result<(), Missed> {
    expect(0, keeps_name(rt.alloc())?)?;
    expect(1, keeps_code(rt.alloc())?)
}

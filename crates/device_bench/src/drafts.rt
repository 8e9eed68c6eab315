// Checks of which rule the contents of a BSDL text break first, and of the device that they describe if they break no rule.
ghost use Rattle.std.specs.Prelude.{◌≡◌, true, OnOk};
ghost use Rattle.device_rules.specs.Rules.{HasShortLists};

use crate::case::{CaseFault, compare};
use crate::source::bytes_of;
use board_defs::{Code, Edition, Items, Mode, Name, PortBit, RawDevice, Symbol};
use bsdl_parser::{Port, Range};
use bsdl_strings::{
    Compliance, Entry, MapEntry, Opcode, boundary, compliance, opcodes, pattern, pin_map,
};
use device_rules::{Draft, DraftFault, TapPorts, raw_device};
use std::alloc::{AllocError, Global};

/// The contents of a BSDL text: the values of its attributes and strings.
#[derive(Drop)]
struct Texts {
    edition: Edition,
    range: Range,
    scan_out: &'static str,
    clock: &'static str,
    reset: Option<&'static str>,
    compliance: Option<&'static str>,
    map: &'static str,
    opcodes: &'static str,
    capture: &'static str,
    idcode: &'static str,
    boundary: u32,
    entries: &'static str,
}

/// A change to the contents of a BSDL text without faults. A variant names the part that it replaces.
#[derive(Clone, Copy)]
pub enum Change {
    /// Changes nothing.
    None,
    /// The range of port Q: its two bounds, and true for `to` or false for `downto`.
    Range(u32, u32, bool),
    /// TAP_SCAN_OUT.
    ScanOut(&'static str),
    /// TAP_SCAN_CLOCK.
    Clock(&'static str),
    /// TAP_SCAN_RESET.
    Reset(&'static str),
    /// COMPLIANCE_PATTERNS.
    Compliance(&'static str),
    /// The pin map.
    Map(&'static str),
    /// INSTRUCTION_OPCODE.
    Opcodes(&'static str),
    /// INSTRUCTION_OPCODE, and the edition, which becomes 2001.
    Of2001(&'static str),
    /// INSTRUCTION_CAPTURE.
    Capture(&'static str),
    /// IDCODE_REGISTER.
    Idcode(&'static str),
    /// BOUNDARY_LENGTH and BOUNDARY_REGISTER.
    Entries(u32, &'static str),
}

/// Checks the first rule that each change breaks, and the item at which the change breaks it. Rule 0 and item 0 mean that the change breaks
/// no rule.
pub fn rules_hold(alloc: Global, cases: &[(Change, (u32, u32))]) -> Result<(), CaseFault> {
    for (case, (change, (rule, item))) in cases.iter().enumerate() {
        expect_rule(alloc, case, &changed(&[*change]), *rule, *item)?;
    }
    Ok(())
}

/// Like `rules_hold`, but makes several changes together in each case.
pub fn orders_hold(
    alloc: Global,
    cases: &[(&'static [Change], (u32, u32))],
) -> Result<(), CaseFault> {
    for (case, (changes, (rule, item))) in cases.iter().enumerate() {
        expect_rule(alloc, case, &changed(changes), *rule, *item)?;
    }
    Ok(())
}

// Checks the first rule that the contents break, and its item. Zeros mean that they break no rule.
fn expect_rule(
    alloc: Global,
    case: usize,
    texts: &Texts,
    rule: u32,
    item: u32,
) -> Result<(), CaseFault> {
    let found = broken(alloc, texts)?;
    if found.0 != rule || found.1 != item {
        let found = format!(in alloc; "V{} item {}", found.0, found.1)?;
        return Err(CaseFault::Ended { case, found });
    }
    Ok(())
}

/// Makes these changes together, and compares the device with `wanted`, the expected device as text. For each port bit, the text has the
/// number of the port, the index, the pin, whether the bit belongs to the TAP, and whether compliance patterns name it. For each cell, it
/// has the numbers of the cell and of its port bit. Last comes the number of ones in the preload code. A missing index is written as 0, a
/// missing pin as `-`, and a missing port bit as 99.
pub fn draft_holds(alloc: Global, changes: &[Change], wanted: &str) -> Result<(), CaseFault> {
    let shown = shown_device(alloc, &changed(changes))?;
    compare(0, shown, wanted)
}

/// Returns the contents of a text without faults, after these changes. The text describes a device with two outputs.
fn changed(changes: &[Change]) -> Texts {
    let mut texts = sound();
    for change in changes {
        apply(*change, &mut texts);
    }
    texts
}

fn sound() -> Texts {
    Texts {
        edition: Edition::Old,
        range: Range {
            left: 1,
            right: 2,
            up: true,
        },
        scan_out: "TDO",
        clock: "TCK",
        reset: None,
        compliance: None,
        map: "TDI:T1, TDO:T2, TMS:T3, TCK:T4, Q:(1,2)",
        opcodes: "BYPASS (11), EXTEST (00), SAMPLE (10)",
        capture: "01",
        idcode: "XXXX0001001000110100000000000111",
        boundary: 2,
        entries: "0 (BC_1, Q(1), output2, X), 1 (BC_1, Q(2), output2, X)",
    }
}

fn apply(change: Change, texts: &mut Texts) {
    match change {
        Change::None => {}
        Change::Range(left, right, up) => texts.range = Range { left, right, up },
        Change::ScanOut(name) => texts.scan_out = name,
        Change::Clock(name) => texts.clock = name,
        Change::Reset(name) => texts.reset = Some(name),
        Change::Compliance(text) => texts.compliance = Some(text),
        Change::Map(text) => texts.map = text,
        Change::Opcodes(text) => texts.opcodes = text,
        Change::Of2001(text) => {
            texts.edition = Edition::Of2001;
            texts.opcodes = text;
        }
        Change::Capture(text) => texts.capture = text,
        Change::Idcode(text) => texts.idcode = text,
        Change::Entries(length, text) => {
            texts.boundary = length;
            texts.entries = text;
        }
    }
}

fn name(alloc: Global, text: &str) -> Result<Name, AllocError> {
    Name::of(alloc, text.as_bytes())
}

fn ports(alloc: Global, range: Range) -> Result<Vec<Port>, AllocError> {
    let plain = [
        ("TDI", Mode::Inward),
        ("TMS", Mode::Inward),
        ("TCK", Mode::Inward),
        ("TDO", Mode::Outward),
    ];
    let mut ports = Vec::new(alloc);
    for (text, mode) in plain {
        ports.push(Port {
            name: name(alloc, text)?,
            mode,
            range: None,
        })?;
    }
    ports.push(Port {
        name: name(alloc, "Q")?,
        mode: Mode::Outward,
        range: Some(range),
    })?;
    Ok(ports)
}

fn fill_taps(alloc: Global, texts: &Texts, taps: &mut TapPorts) -> Result<(), AllocError> {
    taps.scan_in = name(alloc, "TDI")?;
    taps.scan_out = name(alloc, texts.scan_out)?;
    taps.mode = name(alloc, "TMS")?;
    taps.clock = name(alloc, texts.clock)?;
    if let Some(text) = texts.reset {
        taps.reset = Some(name(alloc, text)?);
    }
    Ok(())
}

fn opcodes_of(alloc: Global, text: &str) -> Result<Items<Opcode>, CaseFault> {
    Ok(Items::of(opcodes(alloc, bytes_of(text)?)?))
}

fn map_of(alloc: Global, text: &str) -> Result<Items<MapEntry>, CaseFault> {
    Ok(Items::of(pin_map(alloc, bytes_of(text)?)?))
}

fn entries_of(alloc: Global, text: &str) -> Result<Items<Entry>, CaseFault> {
    Ok(Items::of(boundary(alloc, bytes_of(text)?)?))
}

fn code_of(alloc: Global, text: &str) -> Result<Code, CaseFault> {
    Ok(pattern(alloc, bytes_of(text)?)?)
}

fn compliance_of(alloc: Global, text: Option<&str>) -> Result<Option<Compliance>, CaseFault> {
    match text {
        Some(text) => Ok(Some(compliance(alloc, bytes_of(text)?)?)),
        None => Ok(None),
    }
}

fn no_name(alloc: Global) -> Name {
    Name::from_vec(Vec::new(alloc))
}

fn no_taps(alloc: Global) -> TapPorts {
    TapPorts {
        scan_in: no_name(alloc),
        scan_out: no_name(alloc),
        mode: no_name(alloc),
        clock: no_name(alloc),
        reset: None,
    }
}

/// Returns a draft of the old edition with an instruction register of 2 bits and no other contents. A draft
/// is a device as a BSDL text states it, before its rules are checked.
fn empty_draft(alloc: Global) -> Draft {
    Draft {
        entity: no_name(alloc),
        package: no_name(alloc),
        edition: Edition::Old,
        ports: Items::of(Vec::new(alloc)),
        taps: no_taps(alloc),
        ir: 2,
        opcodes: Items::of(Vec::new(alloc)),
        capture: Code::from_vec(Vec::new(alloc)),
        idcode: None,
        compliance: None,
        boundary: 0,
        map: Items::of(Vec::new(alloc)),
        entries: Items::of(Vec::new(alloc)),
    }
}

/// Sets the parts of a draft that are read from strings.
fn fill_strings(alloc: Global, texts: &Texts, draft: &mut Draft) -> Result<(), CaseFault> {
    draft.opcodes = opcodes_of(alloc, texts.opcodes)?;
    draft.capture = code_of(alloc, texts.capture)?;
    draft.idcode = Some(code_of(alloc, texts.idcode)?);
    draft.compliance = compliance_of(alloc, texts.compliance)?;
    draft.map = map_of(alloc, texts.map)?;
    draft.entries = entries_of(alloc, texts.entries)?;
    Ok(())
}

/// Sets the parts of an empty draft to these contents.
fn fill(alloc: Global, texts: &Texts, draft: &mut Draft) -> Result<(), CaseFault> {
    draft.entity = name(alloc, "DRV")?;
    draft.package = name(alloc, "P")?;
    draft.edition = texts.edition;
    draft.boundary = texts.boundary;
    draft.ports = Items::of(ports(alloc, texts.range)?);
    fill_taps(alloc, texts, &mut draft.taps)?;
    fill_strings(alloc, texts, draft)
}

fn is_short(draft: &Draft) -> bool
    ensures { result ≡ true → HasShortLists draft.now }
{
    draft.ports.len() < 1000
        && draft.map.len() < 1000
        && draft.opcodes.len() < 1000
        && draft.entries.len() < 1000
}

/// Like `fill`, but returns the error `TooLong` if the draft has 1,000 or more ports, pin map entries, instructions or register entries.
fn fill_short(alloc: Global, texts: &Texts, draft: &mut Draft) -> Result<(), CaseFault>
    ensures { OnOk result (HasShortLists draft.new) }
{
    fill(alloc, texts, draft)?;
    if is_short(draft) {
        Ok(())
    } else {
        Err(CaseFault::TooLong)
    }
}

/// Returns the first rule that the contents break and the item at which they break it, or zeros if they break no rule.
fn broken(alloc: Global, texts: &Texts) -> Result<(u32, u32), CaseFault> {
    let mut draft = empty_draft(alloc);
    fill_short(alloc, texts, &mut draft)?;
    match raw_device(alloc, draft) {
        Ok(_) => Ok((0, 0)),
        Err(DraftFault::Rule(broken)) => Ok((broken.rule, broken.item)),
        Err(DraftFault::Memory(error)) => Err(CaseFault::Memory(error)),
    }
}

/// Returns the device of these contents in the form that `draft_holds` describes, or `no device` if they break a rule.
fn shown_device(alloc: Global, texts: &Texts) -> Result<String, CaseFault> {
    let mut draft = empty_draft(alloc);
    fill_short(alloc, texts, &mut draft)?;
    match raw_device(alloc, draft) {
        Ok(raw) => shown_raw(alloc, &raw),
        Err(DraftFault::Rule(_)) => Ok(String::from_str(alloc, "no device")?),
        Err(DraftFault::Memory(error)) => Err(CaseFault::Memory(error)),
    }
}

fn shown_raw(alloc: Global, raw: &RawDevice) -> Result<String, CaseFault> {
    let mut shown = String::new(alloc);
    for bit in raw.bits.as_slice() {
        add_bit(bit, alloc, &mut shown)?;
    }
    for cell in raw.cells.as_slice() {
        let bit = cell.bit.unwrap_or(99);
        let line = format!(in alloc; "{} {bit}; ", cell.num)?;
        shown.push_str(line.as_str())?;
    }
    let preload = raw.sample.symbols();
    let ones = preload.iter().filter(|s| **s == Symbol::One).count();
    let line = format!(in alloc; "{ones}")?;
    shown.push_str(line.as_str())?;
    Ok(shown)
}

fn add_bit(bit: &PortBit, alloc: Global, shown: &mut String) -> Result<(), AllocError> {
    let port = bit.port;
    let index = bit.index.unwrap_or(0);
    let pin = match &bit.pin {
        Some(pin) => std::str::from_utf8(pin.bytes()).unwrap_or("?"),
        None => "-",
    };
    let tap = bit.tap;
    let compliance = bit.compliance;
    let line = format!(in alloc; "{port} {index} {pin} {tap} {compliance}; ")?;
    shown.push_str(line.as_str())
}

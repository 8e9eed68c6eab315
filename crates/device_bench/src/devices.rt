// Checks of the devices that BSDL texts describe.
ghost use Rattle.std.specs.Prelude.{◌<◌, ◌^◌, length};

use crate::case::{CaseFault, compare};
use crate::shown::{add_bytes, add_code};
use crate::source::Source;
use board_defs::Device;
use bsdl_lexer::{LexFault, lex};
use bsdl_parser::{ParseFault, parse};
use device_check::{DeviceFault, device};
use std::alloc::{AllocError, Global};

/// The reason why a text does not describe a device.
#[derive(Debug, Drop)]
pub enum TextFault {
    /// The lexer refuses the text.
    Lex(LexFault),
    /// The parser refuses the tokens of the text.
    Parse(ParseFault),
    /// The entity of the text does not describe a device.
    Device(DeviceFault),
}

/// Checks the device of each text in its default package. A case has a text and the expected device or fault, written as text.
pub fn devices_hold(alloc: Global, cases: &[(Source, &'static str)]) -> Result<(), CaseFault> {
    for (case, (source, wanted)) in cases.iter().enumerate() {
        let text = source.bytes(alloc)?;
        compare(case, shown(alloc, &text, None)?, wanted)?;
    }
    Ok(())
}

/// Checks the device of one text in several packages. A case has a package, or `None` for the default package, and the expected device or
/// fault, written as text.
pub fn packages_hold(
    alloc: Global,
    source: Source,
    cases: &[(Option<&'static [u8]>, &'static str)],
) -> Result<(), CaseFault> {
    let text = source.bytes(alloc)?;
    for (case, (package, wanted)) in cases.iter().enumerate() {
        compare(case, shown(alloc, &text, *package)?, wanted)?;
    }
    Ok(())
}

/// Returns the device that a text describes in this package, or in its default package if `package` is `None`. The text must be shorter
/// than 2^32 bytes.
pub fn device_of(alloc: Global, text: &[u8], package: Option<&[u8]>) -> Result<Device, TextFault>
    requires { length text.now < 2 ^ 32 }
{
    let mut tokens = Vec::new(alloc);
    match lex(text, &mut tokens) {
        Err(fault) => Err(TextFault::Lex(fault)),
        Ok(()) => match parse(alloc, text, &tokens) {
            Err(fault) => Err(TextFault::Parse(fault)),
            Ok(entity) => match device(alloc, &entity, package) {
                Ok(device) => Ok(device),
                Err(fault) => Err(TextFault::Device(fault)),
            },
        },
    }
}

/// Returns the message of a fault.
pub fn shown_fault(alloc: Global, fault: &TextFault) -> Result<String, AllocError> {
    match fault {
        TextFault::Lex(fault) => format!(in alloc; "{fault}"),
        TextFault::Parse(fault) => format!(in alloc; "{fault}"),
        TextFault::Device(fault) => format!(in alloc; "{fault}"),
    }
}

fn shown(alloc: Global, text: &[u8], package: Option<&[u8]>) -> Result<String, AllocError>
    requires { length text.now < 2 ^ 32 }
{
    match device_of(alloc, text, package) {
        Ok(device) => shown_device(alloc, &device),
        Err(fault) => shown_fault(alloc, &fault),
    }
}

/// Returns a device as text: its entity, package and edition, the length of its instruction register, its preload code and its EXTEST code,
/// and the pin of each port bit. A port bit without a pin has `-`.
fn shown_device(alloc: Global, device: &Device) -> Result<String, AllocError> {
    let raw = device.raw();
    let mut shown = String::new(alloc);
    add_bytes(raw.entity.bytes(), &mut shown)?;
    shown.push_str(" ")?;
    add_bytes(raw.package.bytes(), &mut shown)?;
    let edition = format!(in alloc; " {:?} {} ", raw.edition, raw.ir)?;
    shown.push_str(edition.as_str())?;
    add_code(&raw.sample, &mut shown)?;
    shown.push_str(" ")?;
    add_code(&raw.extest, &mut shown)?;
    for bit in raw.bits.as_slice() {
        shown.push_str(" ")?;
        match &bit.pin {
            Some(pin) => add_bytes(pin.bytes(), &mut shown)?,
            None => shown.push_str("-")?,
        }
    }
    Ok(shown)
}

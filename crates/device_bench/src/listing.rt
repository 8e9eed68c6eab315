// Checks of the listings that btest writes of the devices of BSDL texts.
use crate::case::CaseFault;
use crate::devices::{device_of, shown_fault};
use crate::shown::add_bytes;
use crate::source::Source;
use board_defs::Device;
use bt_base::MemSink;
use bt_bits::Line;
use device_check::write_device;
use std::alloc::{AllocError, Global};

/// The listing that a case expects.
#[derive(Clone, Copy)]
enum Wanted<'a> {
    /// The whole listing is this text.
    Whole(&'a str),
    /// The listing ends with this text.
    End(&'a str),
    /// The call of `put` with this number, counted from 1, fails. The sink then has this many bytes, which end with this text.
    Cut(u32, usize, &'a str),
}

impl Wanted<'_> {
    fn is_met(&self, has_failed: bool, bytes: &[u8]) -> bool {
        match *self {
            Wanted::Whole(text) => !has_failed && bytes == text.as_bytes(),
            Wanted::End(end) => !has_failed && bytes.ends_with(end.as_bytes()),
            Wanted::Cut(_, taken, end) => {
                has_failed && bytes.len() == taken && bytes.ends_with(end.as_bytes())
            }
        }
    }
}

/// Checks the listing of the device that each text describes. A case has a text and the expected listing.
pub fn listings_hold(alloc: Global, cases: &[(Source, &'static str)]) -> Result<(), CaseFault> {
    let mut line = Line::new(alloc)?;
    for (case, (source, wanted)) in cases.iter().enumerate() {
        try_source(alloc, case, source, Wanted::Whole(wanted), &mut line)?;
    }
    Ok(())
}

/// Checks that the listing of a text's device ends with `end`.
pub fn listing_ends(alloc: Global, source: Source, end: &str) -> Result<(), CaseFault> {
    let mut line = Line::new(alloc)?;
    try_source(alloc, 0, &source, Wanted::End(end), &mut line)
}

/// Checks what a sink has after a failed write of the listing. A case has the number of the call of `put` that fails, counted from 1, the
/// number of bytes that the sink then has, and the text with which they end.
pub fn cuts_hold(
    alloc: Global,
    source: Source,
    cases: &[(u32, usize, &'static str)],
) -> Result<(), CaseFault> {
    match described(alloc, 0, &source) {
        Ok(device) => try_cuts(alloc, &device, cases),
        Err(fault) => Err(fault),
    }
}

fn try_cuts(
    alloc: Global,
    device: &Device,
    cases: &[(u32, usize, &'static str)],
) -> Result<(), CaseFault> {
    let mut line = Line::new(alloc)?;
    for (case, (call, taken, end)) in cases.iter().enumerate() {
        let wanted = Wanted::Cut(*call, *taken, end);
        try_device(alloc, case, device, wanted, &mut line)?;
    }
    Ok(())
}

fn try_source(
    alloc: Global,
    case: usize,
    source: &Source,
    wanted: Wanted<'_>,
    line: &mut Line,
) -> Result<(), CaseFault> {
    match described(alloc, case, source) {
        Ok(device) => try_device(alloc, case, &device, wanted, line),
        Err(fault) => Err(fault),
    }
}

/// Checks that the listing of a device is as `wanted` says. `line` is scratch space and may have any content.
fn try_device(
    alloc: Global,
    case: usize,
    device: &Device,
    wanted: Wanted<'_>,
    line: &mut Line,
) -> Result<(), CaseFault> {
    let mut out = MemSink::with_room(alloc, 4000)?;
    if let Wanted::Cut(call, _, _) = wanted {
        out.fail_at(call, 0)?;
    }
    let has_failed = write_device(device, line, &mut out).is_err();
    if wanted.is_met(has_failed, out.bytes()) {
        Ok(())
    } else {
        Err(ended(case, shown_bytes(alloc, out.bytes())))
    }
}

fn described(alloc: Global, case: usize, source: &Source) -> Result<Device, CaseFault> {
    let text = source.bytes(alloc)?;
    match device_of(alloc, &text, None) {
        Ok(device) => Ok(device),
        Err(fault) => Err(ended(case, shown_fault(alloc, &fault))),
    }
}

/// Returns the error for a case with the wrong result `found`, written as text. If memory ran out for this text, returns that error.
fn ended(case: usize, found: Result<String, AllocError>) -> CaseFault {
    match found {
        Ok(found) => CaseFault::Ended { case, found },
        Err(error) => CaseFault::Memory(error),
    }
}

fn shown_bytes(alloc: Global, bytes: &[u8]) -> Result<String, AllocError> {
    let mut shown = String::new(alloc);
    add_bytes(bytes, &mut shown)?;
    Ok(shown)
}

// Copies of devices. If several parts have the same entity and package, the entity is checked only
// once, and its device is copied for the other parts.
ghost use Rattle.std.specs.Prelude.{◌≡◌, IfOk};

use board_defs::{Code, Device, Items, Name, PortBit, RawDevice};
use std::alloc::{AllocError, Global};

fn names_copy(alloc: Global, names: &[Name]) -> Result<Vec<Name>, AllocError>
    ensures { IfOk result (λ copy. copy.items ≡ names.now) }
{
    let mut copy = Vec::with_capacity(alloc, names.len())?;
    for name in names {
        copy.push(name.copy(alloc)?)?;
    }
    Ok(copy)
}

fn pin_copy(alloc: Global, pin: &Option<Name>) -> Result<Option<Name>, AllocError>
    ensures { IfOk result (λ copy. copy ≡ pin.now) }
{
    match pin {
        None => Ok(None),
        Some(name) => Ok(Some(name.copy(alloc)?)),
    }
}

fn bit_copy(alloc: Global, bit: &PortBit) -> Result<PortBit, AllocError>
    ensures { IfOk result (λ copy. copy ≡ bit.now) }
{
    Ok(PortBit {
        port: bit.port,
        index: bit.index,
        mode: bit.mode,
        pin: pin_copy(alloc, &bit.pin)?,
        tap: bit.tap,
        compliance: bit.compliance,
    })
}

fn bits_copy(alloc: Global, bits: &[PortBit]) -> Result<Vec<PortBit>, AllocError>
    ensures { IfOk result (λ copy. copy.items ≡ bits.now) }
{
    let mut copy = Vec::with_capacity(alloc, bits.len())?;
    for bit in bits {
        copy.push(bit_copy(alloc, bit)?)?;
    }
    Ok(copy)
}

fn idcode_copy(alloc: Global, code: &Option<Code>) -> Result<Option<Code>, AllocError>
    ensures { IfOk result (λ copy. copy ≡ code.now) }
{
    match code {
        None => Ok(None),
        Some(code) => Ok(Some(code.copy(alloc)?)),
    }
}

fn raw_copy(alloc: Global, raw: &RawDevice) -> Result<RawDevice, AllocError>
    ensures { IfOk result (λ copy. copy ≡ raw.now) }
{
    Ok(RawDevice {
        entity: raw.entity.copy(alloc)?,
        package: raw.package.copy(alloc)?,
        edition: raw.edition,
        ports: Items::of(names_copy(alloc, raw.ports.as_slice())?),
        ir: raw.ir,
        sample: raw.sample.copy(alloc)?,
        extest: raw.extest.copy(alloc)?,
        idcode: idcode_copy(alloc, &raw.idcode)?,
        boundary: raw.boundary,
        bits: Items::of(bits_copy(alloc, raw.bits.as_slice())?),
        cells: Items::of(raw.cells.as_slice().to_vec(alloc)?),
    })
}

/// Returns a copy of a device.
pub fn device_copy(alloc: Global, device: &Device) -> Result<Device, AllocError>
    ensures { IfOk result (λ copy. copy ≡ device.now) }
{
    let raw = raw_copy(alloc, device.raw())?;
    Ok(Device::new(raw))
}

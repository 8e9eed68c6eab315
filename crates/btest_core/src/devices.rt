// The devices of a chain.
ghost use Rattle.std.specs.Prelude.{◌≡◌, ◌↔◌, ℕ, ◌<◌, All, IfOk, IfSome, IsTrue, Some, length, map, vec_len, zip, option_copied, option_map, slice_get};
ghost use Rattle.std.specs.List.{AllByRecursion, filter_map};
ghost use Rattle.board_lines.specs.ChainParts.{IsChain};
ghost use Rattle.board_lines.specs.Names.{named};
ghost use Rattle.board_lines.specs.declared.names.Naming.TheVariants.{Entity as EntityName};
ghost use Rattle.board_lines.specs.Selection.{selection};
ghost use Rattle.bsdl_parser.specs.Entity.{IsSmall};
ghost use Rattle.answers.specs.Gives.{Gives};
ghost use Rattle.btest_core.specs.Answers.{EachOf, Is, input_told};
ghost use Rattle.btest_core.specs.InputFaults.{in_board};
ghost use Rattle.btest_core.specs.inner.Choices.{AreOfChoices, choices_of};
ghost use Rattle.btest_core.specs.DevicesRead.{Chosen, package_in, chosen_texts, IsDeviceIn, IsDeviceOf, AreSelected, AreDevices, IsDeviceText};

use crate::copies::device_copy;
use crate::fault::InputFault;
use crate::texts::{entities, read_entity};
use board_build::{BoardFault, select};
use board_defs::Device;
use board_files::{ChainFile, ChainLine, ChainStatement};
use bsdl_parser::Entity;
use device_check::{DeviceFault, device};
use lists::push_some;
use short_lists::{ShortSlice, TextList, TextSlice};
use std::alloc::{AllocError, Global};

/// Returns the device that a BSDL text describes in its default package, or the text's first fault.
/// The fault reports the text as number 0.
pub fn read_device(alloc: Global, text: TextSlice<'_>) -> Result<Device, InputFault>
    ensures { Gives input_told (λ device. device) (IsDeviceText text.entry.items.now) result }
{
    match read_entity(alloc, text.items, 0) {
        Ok(entity) => device_in(alloc, &entity, 0, None),
        Err(fault) => Err(fault),
    }
}

// Returns the device of the entity in this package, or the fault of the first rule or string that
// fails, or lack of memory. If `package` is None, the package is the entity's default package.
// `text` is the number of the entity's text, which the fault reports. The entity must be small
// (`IsSmall`).
fn device_in(
    alloc: Global,
    entity: &Entity,
    text: u32,
    package: Option<&[u8]>,
) -> Result<Device, InputFault>
    requires { IsSmall entity.now }
    ensures { Gives input_told (λ device. device)
        (IsDeviceIn entity.now (text, option_copied «package».entry)) result }
{
    match device(alloc, entity, package) {
        Ok(device) => Ok(device),
        Err(DeviceFault::Memory(e)) => Err(InputFault::Memory(e)),
        Err(fault) => Err(InputFault::Device { text, fault }),
    }
}

// Returns the device of entity number `text` in this package, or the fault of the first rule or
// string that fails, or lack of memory. If `package` is None, the package is the entity's default
// package. There must be an entity with this number. Each entity must be small
// (`IsSmall`).
fn device_of(
    alloc: Global,
    entities: &[Entity],
    text: u32,
    package: Option<&[u8]>,
) -> Result<Device, InputFault>
    requires there { text < length entities.now }
    requires small { All IsSmall entities.now }
    ensures { Gives input_told (λ device. device)
        (IsDeviceOf entities.now (text, option_copied «package».entry)) result }
{
    device_in(alloc, &entities[text as usize], text, package)
}

fn is_same_package(a: Option<&[u8]>, b: Option<&[u8]>) -> bool
    ensures { IsTrue result ↔ (option_copied a.entry ≡ option_copied b.entry) }
{
    match (a, b) {
        (None, None) => true,
        (Some(first), Some(second)) => first == second,
        _ => false,
    }
}

// Returns the index of the first choice before choice `i` that equals choice `i`, or None if there
// is no such choice. A choice has the number of a text, and a package if the DEVICE line gives one.
// `i` must be the index of a choice.
fn earlier(chosen: &[(u32, Option<&[u8]>)], i: usize) -> Option<usize>
    requires { i < length chosen.now }
    ensures before { IfSome result (λ j. j < i) }
    ensures same { IfSome result
        (λ j. slice_get (choices_of chosen.now) j
        ≡ slice_get (choices_of chosen.now) i) }
{
    for j in 0..i {
        if chosen[j].0 == chosen[i].0 && is_same_package(chosen[j].1, chosen[i].1) {
            return Some(j);
        }
    }
    None
}

// Returns the device of choice `i`, or the choice's first fault. If an earlier choice equals choice
// `i`, copies the device of the earlier choice from `devices`, which must have the devices of the
// choices before choice `i`. `i` must be the index of a choice, and the number in each choice must
// be the index of an entity. Each entity must be small (`IsSmall`).
fn next_device(
    alloc: Global,
    entities: &[Entity],
    chosen: &[(u32, Option<&[u8]>)],
    devices: &[Device],
    i: usize,
) -> Result<Device, InputFault>
    requires there { AllByRecursion (λ choice. choice.0 < length entities.now) chosen.now }
    requires small { All IsSmall entities.now }
    requires next { i < length chosen.now }
    requires before { length devices.now ≡ i }
    requires devices { AreOfChoices entities.now (choices_of chosen.now) devices.now }
    ensures { (choice : Chosen) → slice_get (choices_of chosen.now) i ≡ Some choice
        → Gives input_told (λ device. device) (IsDeviceOf entities.now choice) result }
{
    match earlier(chosen, i) {
        Some(j) => Ok(device_copy(alloc, &devices[j])?),
        None => device_of(alloc, entities, chosen[i].0, chosen[i].1),
    }
}

// Returns the device of each choice, in the order of the choices, or the first fault. The number in
// each choice must be the index of an entity. Each entity must be small (`IsSmall`).
fn chosen_devices(
    alloc: Global,
    entities: &[Entity],
    chosen: &[(u32, Option<&[u8]>)],
) -> Result<Vec<Device>, InputFault>
    requires there { AllByRecursion (λ choice. choice.0 < length entities.now) chosen.now }
    requires small { All IsSmall entities.now }
    ensures devices { Gives input_told (λ devices. devices.items)
        (EachOf (IsDeviceOf entities.now) (choices_of chosen.now)) result }
    ensures count { IfOk result (λ devices. vec_len devices ≡ length chosen.now) }
{
    let mut devices = Vec::new(alloc);
    for i in 0..chosen.len() {
        let device = match next_device(alloc, entities, chosen, &devices, i) {
            Ok(device) => device,
            Err(fault) => return Err(fault),
        };
        devices.push(device)?;
    }
    Ok(devices)
}

// Returns the package on a DEVICE line, or `Some(None)` if the line has no package. Returns `None`
// for any other line.
fn package_in(statement: &ChainStatement) -> Option<Option<&[u8]>>
    ensures { option_map option_copied result ≡ package_in statement.now }
{
    match statement {
        ChainStatement::Device { package, .. } => Some(package.as_ref().map(|name| name.bytes())),
        _ => None,
    }
}

// Returns the packages on the DEVICE lines, in the order of the lines. The item of a line without a
// package is `None`.
fn packages<'a>(alloc: Global, lines: &'a [ChainLine]) -> Result<Vec<Option<&'a [u8]>>, AllocError>
    ensures { IfOk result
        (λ list. map option_copied list.items
        ≡ filter_map (λ line. package_in line.statement) lines.now) }
{
    let mut list = Vec::new(alloc);
    for line in lines {
        push_some(&mut list, package_in(&line.statement))?;
    }
    Ok(list)
}

// Returns the choices of the DEVICE lines, in the order of the lines. A choice has the number of a
// text, from `numbers`, and a package if the line gives one. If the numbers are fewer or more than
// these lines, the surplus lines or numbers give no choice.
fn chosen<'a>(
    alloc: Global,
    lines: &'a [ChainLine],
    numbers: &[u32],
) -> Result<Vec<(u32, Option<&'a [u8]>)>, AllocError>
    ensures chosen { IfOk result
        (λ list. map (λ choice. (choice.0, option_copied choice.1)) list.items
        ≡ chosen_texts lines.now numbers.now) }
    ensures within { (count : ℕ) → AllByRecursion (λ number. number < count) numbers.now
        → IfOk result (λ list. AllByRecursion (λ choice. choice.0 < count) list.items) }
{
    let packages = packages(alloc, lines)?;
    let choices = zipped(alloc, numbers, &packages)?;
    Ok(choices)
}

fn zipped<'a>(
    alloc: Global,
    numbers: &[u32],
    packages: &[Option<&'a [u8]>],
) -> Result<Vec<(u32, Option<&'a [u8]>)>, AllocError>
    ensures { IfOk result (λ list. list.items ≡ zip numbers.now packages.now) }
{
    let mut list = Vec::new(alloc);
    for (number, package) in numbers.iter().zip(packages) {
        list.push((*number, *package))?;
    }
    Ok(list)
}

// Returns the number of the text that each DEVICE line selects, in the order of the lines, or the
// first fault of the chain.
fn numbers(
    alloc: Global,
    file: &ChainFile,
    entities: ShortSlice<'_, Entity>,
) -> Result<Vec<u32>, InputFault>
    ensures numbers { Gives input_told (λ numbers. numbers.items)
        (Is (in_board (selection file.now entities.entry.items.now))) result }
    ensures chain { IfOk result (λ numbers. IsChain file.now) }
    ensures count { IfOk result (λ numbers. vec_len numbers ≡ length (named EntityName file.now)) }
    ensures within { IfOk result
        (λ numbers. All (λ number. number < length entities.entry.items.now) numbers.items) }
{
    match select(alloc, file, entities.items) {
        Ok(numbers) => Ok(numbers),
        Err(BoardFault::Memory(e)) => Err(InputFault::Memory(e)),
        Err(fault) => Err(InputFault::Board(fault)),
    }
}

// Returns the devices of the DEVICE lines, in the order of the lines, or the first fault. `numbers`
// has the number of the text for each of these lines, and there must be an entity with each of these
// numbers. Each entity must be small (`IsSmall`).
fn devices_by(
    alloc: Global,
    lines: &[ChainLine],
    entities: &[Entity],
    numbers: &[u32],
) -> Result<Vec<Device>, InputFault>
    requires within { All (λ number. number < length entities.now) numbers.now }
    requires small { All IsSmall entities.now }
    ensures devices { Gives input_told (λ devices. devices.items)
        (EachOf (IsDeviceOf entities.now) (chosen_texts lines.now numbers.now)) result }
    ensures number { IfOk result
        (λ devices. vec_len devices ≡ length (chosen_texts lines.now numbers.now)) }
{
    let chosen = chosen(alloc, lines, numbers)?;
    chosen_devices(alloc, entities, &chosen)
}

// Returns the devices that the DEVICE lines select among the entities, in the order of the lines,
// or the first fault. Each entity must be small (`IsSmall`).
fn selected_devices(
    alloc: Global,
    file: &ChainFile,
    entities: ShortSlice<'_, Entity>,
) -> Result<Vec<Device>, InputFault>
    requires { All IsSmall entities.items.now }
    ensures devices { Gives input_told (λ devices. devices.items)
        (AreSelected file.now entities.entry.items.now) result }
    ensures chain { IfOk result (λ devices. IsChain file.now) }
    ensures number { IfOk result (λ devices. vec_len devices ≡ length (named EntityName file.now)) }
{
    match numbers(alloc, file, entities) {
        Ok(numbers) => devices_by(alloc, file.lines(), entities.items, &numbers),
        Err(fault) => Err(fault),
    }
}

/// Returns the devices of the DEVICE lines of a chain, in the order of the lines, or the first
/// fault. Looks for faults in this order: the texts, the board rules on the chain, and the devices.
pub(crate) fn devices(
    alloc: Global,
    file: &ChainFile,
    texts: TextList<'_>,
) -> Result<Vec<Device>, InputFault>
    ensures devices { Gives input_told (λ devices. devices.items)
        (AreDevices file.now (map (λ text. text.items) texts.entry.items.now)) result }
    ensures chain { IfOk result (λ devices. IsChain file.now) }
    ensures number { IfOk result (λ devices. vec_len devices ≡ length (named EntityName file.now)) }
{
    match entities(alloc, texts) {
        Ok(entities) => selected_devices(alloc, file, ShortSlice { items: &entities }),
        Err(fault) => Err(fault),
    }
}

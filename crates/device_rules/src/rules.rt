//! Checks the rules V2 to V14, in the order of their numbers, on a draft. A draft is a device as its BSDL text states it.
ghost use Rattle.std.specs.Prelude.{◌≡◌, ◌<◌, All, IfOk};
ghost use Rattle.device_rules.specs.Rules.{HasShortLists, from_3, from_5, from_8, from_9, from_11, IfSound};

use crate::broken::{Broken, Rule};
use crate::cells::{crowded_cell, two_valued_control, wrong_cell};
use crate::controls::wrong_control;
use crate::draft::Draft;
use crate::fault::DraftFault;
use crate::indexed::IndexedDraft;
use crate::pin_map::wrong_map_entry;
use crate::places::{misfit, second_driver, wrong_place};
use crate::ports::wrong_port;
use crate::taps::wrong_attribute;
use instruction_rules::{wrong_instruction, wrong_opcode, wrong_pattern};
use std::alloc::{AllocError, Global};

/// Returns the first of the rules V11 to V14 that the draft breaks, with the first item that breaks
/// it.
#[tactic(auto, unfolding(crate::specs::Rules::from_11))]
fn first_from_11(alloc: Global, draft: &IndexedDraft) -> Result<Option<Broken>, AllocError>
    ensures { IfOk result (λ broken. broken ≡ from_11 draft.now) }
{
    let text = draft.text();
    let entries = text.entries.as_slice();
    if let Some(item) = two_valued_control(alloc, text.boundary, entries)? {
        return Ok(Some(Rule::DisableValues.broken_at(item)));
    }
    if let Some(item) = crowded_cell(alloc, text.boundary, entries)? {
        return Ok(Some(Rule::Stages.broken_at(item)));
    }
    if let Some(item) = second_driver(alloc, draft.ports(), entries)? {
        return Ok(Some(Rule::Drivers.broken_at(item)));
    }
    match misfit(draft.ports(), &text.taps, entries) {
        Some(item) => Ok(Some(Rule::Modes.broken_at(item))),
        None => Ok(None),
    }
}

/// Returns the first of the rules V9 to V14 that the draft breaks, with the first item that breaks
/// it. The cell number of each entry must be below the length of the boundary register.
#[tactic(auto, unfolding(crate::specs::Rules::from_9))]
fn first_from_9(alloc: Global, draft: &IndexedDraft) -> Result<Option<Broken>, AllocError>
    requires { All (λ entry. entry.num < draft.now.boundary) draft.now.entries }
    ensures { IfOk result (λ broken. broken ≡ from_9 draft.now) }
{
    let text = draft.text();
    let entries = text.entries.as_slice();
    if let Some(item) = wrong_place(draft.ports(), entries) {
        return Ok(Some(Rule::Places.broken_at(item)));
    }
    if let Some(item) = wrong_control(alloc, text.boundary, entries)? {
        return Ok(Some(Rule::Controls.broken_at(item)));
    }
    first_from_11(alloc, draft)
}

/// Returns the first of the rules V8 to V14 that the draft breaks, with the first item that breaks
/// it.
#[tactic(auto, unfolding(crate::specs::Rules::from_8))]
fn first_from_8(alloc: Global, draft: &IndexedDraft) -> Result<Option<Broken>, AllocError>
    ensures { IfOk result (λ broken. broken ≡ from_8 draft.now) }
{
    let text = draft.text();
    match wrong_cell(alloc, text.boundary, text.entries.as_slice())? {
        Some(item) => Ok(Some(Rule::Cells.broken_at(item))),
        None => first_from_9(alloc, draft),
    }
}

/// Returns the first of the rules V5 to V14 that the draft breaks, with the first item that breaks
/// it.
#[tactic(auto, unfolding(crate::specs::Rules::from_5))]
fn first_from_5(alloc: Global, draft: &IndexedDraft) -> Result<Option<Broken>, AllocError>
    ensures { IfOk result (λ broken. broken ≡ from_5 draft.now) }
{
    let text = draft.text();
    let opcodes = text.opcodes.as_slice();
    if let Some(item) = wrong_opcode(alloc, text.ir, opcodes)? {
        return Ok(Some(Rule::Opcodes.broken_at(item)));
    }
    if let Some(item) = wrong_instruction(text.edition, opcodes) {
        return Ok(Some(Rule::Instructions.broken_at(item)));
    }
    if let Some(item) = wrong_pattern(text.ir, &text.capture, &text.idcode) {
        return Ok(Some(Rule::Patterns.broken_at(item)));
    }
    first_from_8(alloc, draft)
}

/// Returns the first of the rules V3 to V14 that the draft breaks, with the first item that breaks
/// it.
#[tactic(auto, unfolding(crate::specs::Rules::from_3))]
fn first_from_3(alloc: Global, draft: &IndexedDraft) -> Result<Option<Broken>, AllocError>
    ensures { IfOk result (λ broken. broken ≡ from_3 draft.now) }
{
    let text = draft.text();
    if let Some(item) = wrong_attribute(draft.ports(), &text.taps, &text.compliance) {
        return Ok(Some(Rule::TestPort.broken_at(item)));
    }
    if let Some(item) = wrong_map_entry(alloc, draft.ports(), text.map.as_slice())? {
        return Ok(Some(Rule::PinMap.broken_at(item)));
    }
    first_from_5(alloc, draft)
}

/// Returns the draft with an index of its ports, if the draft breaks none of the rules V2 to V14.
/// Otherwise returns the first of these rules that the draft breaks, with the first item that
/// breaks it. If memory runs out, returns `DraftFault::Memory`. The draft's lists must be shorter than
/// 2^32.
#[tactic(auto, unfolding(crate::specs::Rules::first_rule))]
pub(crate) fn checked<'a>(alloc: Global, draft: &'a Draft) -> Result<IndexedDraft<'a>, DraftFault>
    requires { HasShortLists draft.now }
    ensures { IfSound draft.now (λ checked. checked ≡ draft.now) result }
{
    if let Some(item) = wrong_port(alloc, draft.ports.as_slice())? {
        return Err(DraftFault::Rule(Rule::Ports.broken_at(item)));
    }
    let indexed = IndexedDraft::of(alloc, draft)?;
    match first_from_3(alloc, &indexed)? {
        Some(broken) => Err(DraftFault::Rule(broken)),
        None => Ok(indexed),
    }
}

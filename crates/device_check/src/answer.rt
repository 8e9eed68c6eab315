//! Makes the device that an entity describes, or finds the first fault of the entity.
ghost use Rattle.std.specs.Prelude.{◌≡◌, None, Result, option_copied};
ghost use Rattle.answers.specs.Gives.{Gives};
ghost use Rattle.board_defs.specs.declared.device.RawDevice.{RawDevice};
ghost use Rattle.bsdl_parser.specs.Entity.{IsSmall};
ghost use Rattle.device_rules.specs.Rules.{HasShortLists};
ghost use Rattle.device_rules.specs.Raw.{HasLengths};
ghost use Rattle.device_check.specs.declared.fault.DeviceFault.{DeviceFault};
ghost use Rattle.device_check.specs.inner.Reading.{IsJudgedDraft};
ghost use Rattle.device_check.specs.SoundDevice.{draft_of, IsDeviceAnswer, device_told};

use crate::draft::draft_of;
use crate::fault::DeviceFault;
use crate::needed::find_needed;
use crate::strings::read_strings;
use board_defs::Device;
use bsdl_parser::Entity;
use device_rules::{Draft, DraftFault, Rule, raw_device};
use std::alloc::Global;

/// Returns the device of a draft, or a fault. A draft is a device as its BSDL text states it. The
/// fault is the first of the rules V2 to V14 that the draft breaks, or lack of memory. The draft's
/// lists must be shorter than 2^32. The instruction register must have 2 to 255 bits, and the
/// boundary register 1 to 65,535 cells.
fn judge(alloc: Global, draft: Draft) -> Result<Device, DeviceFault>
    requires short { HasShortLists draft }
    requires lengths { HasLengths draft }
    ensures { IsJudgedDraft draft result }
{
    match raw_device(alloc, draft) {
        Ok(raw) => Ok(Device::new(raw)),
        Err(DraftFault::Rule(broken)) => Err(DeviceFault::Rule {
            number: broken.rule,
            item: broken.item,
        }),
        Err(DraftFault::Memory(e)) => Err(DeviceFault::Memory(e)),
    }
}

#[tactic(auto, using(crate::proofs::AnswerLemmas::needs_answer, crate::proofs::AnswerLemmas::text_answer))]
fn answer(alloc: Global, entity: &Entity, package: Option<&[u8]>) -> Result<Device, DeviceFault>
    requires small { IsSmall entity.now }
    ensures { Gives device_told (λ device. device)
        (IsDeviceAnswer entity.now (option_copied «package».entry)) result }
{
    let needed = match find_needed(entity, package) {
        Ok(needed) => needed,
        Err(source) => {
            return Err(DeviceFault::Rule {
                number: Rule::Mandatory.number(),
                item: source.number(),
            });
        }
    };
    let strings = match read_strings(alloc, entity, &needed) {
        Ok(strings) => strings,
        Err(fault) => return Err(fault),
    };
    let draft = draft_of(alloc, entity, &needed, strings)?;
    judge(alloc, draft)
}

/// Returns the device that the entity describes in this package. If `package` is None, uses the default package of the
/// entity's generic item. The entity must have fewer than 2^32 ports and texts of
/// fewer than 2^32 bytes.
///
/// The rules are checked in this order: V1; the strings of the pin map and of INSTRUCTION_OPCODE,
/// INSTRUCTION_CAPTURE, IDCODE_REGISTER, COMPLIANCE_PATTERNS and BOUNDARY_REGISTER; V2 to V14. The
/// fault is the first rule or string that fails, or lack of memory.
#[tactic(auto, using(crate::proofs::OneAnswer::only_answer))]
pub fn device(alloc: Global, entity: &Entity, package: Option<&[u8]>) -> Result<Device, DeviceFault>
    requires small { IsSmall entity.now }
    // On Ok, all rules hold, and the device is made from the values in the entity. Otherwise the
    // fault is the first rule or string that fails. If memory runs out, nothing is claimed.
    ensures answer { Gives device_told (λ device. device)
        (IsDeviceAnswer entity.now (option_copied «package».entry)) result }
    // No other result satisfies the definition.
    ensures only { Gives device_told (λ device. device)
        (λ answer. (other : Result RawDevice DeviceFault)
        → IsDeviceAnswer entity.now (option_copied «package».entry) other → other ≡ answer) result }
{
    answer(alloc, entity, package)
}

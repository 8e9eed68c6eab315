//! Laws of the definitions. Each law is the contract of a function that does nothing.
ghost use Rattle.std.specs.Prelude.{◌≡◌, ℕ, List, Option, Result};
ghost use Rattle.board_defs.specs.declared.device.RawDevice.{RawDevice};
ghost use Rattle.bsdl_parser.specs.declared.entity.Entity.{Entity};
ghost use Rattle.device_check.specs.declared.fault.DeviceFault.{DeviceFault};
ghost use Rattle.board_defs.specs.DeviceRules.{IsDevice};
ghost use Rattle.first_places.specs.Items.{IsLeast};
ghost use Rattle.device_check.specs.Needed.{v1};
ghost use Rattle.device_check.specs.NumberedSources.{breaks_source, reported};
ghost use Rattle.device_check.specs.SoundDevice.{IsDeviceAnswer, IsSound};

use device_rules::law::devices_keep_rules;

/// An entity has exactly one answer for each package: the device that it describes, or its first
/// fault.
pub fn entities_have_one_answer()
    ensures some { (entity : Entity) (given : Option (List ℕ))
        → (answer : Result RawDevice DeviceFault) × IsDeviceAnswer entity given answer }
    ensures one { (entity : Entity) (given : Option (List ℕ))
        (answer other : Result RawDevice DeviceFault) → IsDeviceAnswer entity given answer
        → IsDeviceAnswer entity given other → answer ≡ other }
{}

/// If rule V1 holds, no attribute breaks it, and the pin map of the package does not break it. If V1
/// fails, it reports the lowest number of an attribute or pin map that breaks it.
pub fn least_source_is_reported()
    ensures { (entity : Entity) (given : Option (List ℕ))
        → IsLeast (breaks_source entity given) 16 (reported (v1 entity given)) }
{}

/// If no rule and no string of an entity fails, the entity's device keeps the rules of devices.
pub fn sound_devices_keep_rules()
    ensures { (entity : Entity) (given : Option (List ℕ)) (device : RawDevice)
        → IsSound entity given device → IsDevice device }
{
    devices_keep_rules();
}

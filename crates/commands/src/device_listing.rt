// The command `device`, which lists a device.
ghost use Rattle.device_check.specs.DeviceText.{device_text};
ghost use Rattle.btest_core.specs.DevicesRead.{IsDeviceText};
ghost use Rattle.commands.specs.Answers.{Answers};
ghost use Rattle.commands.specs.Worth.{IsDeviceListing};
ghost use Rattle.commands.specs.inner.Unput.{PutsText};

use crate::unput::{Unput, answer_by, unput_by};
use board_defs::Device;
use bt_base::Sink;
use bt_bits::Line;
use btest_core::law::inputs_keep_rules;
use btest_core::read_device;
use device_check::write_device;
use short_lists::ShortText;
use std::alloc::Global;

/// Writes the listing of the device that a BSDL text describes. The listing is for the device's default
/// package. Allocates all memory before the first write.
pub fn device<K: Sink>(alloc: Global, text: &ShortText, out: &mut K) -> Result<(), Unput>
    ensures { Answers (IsDeviceText text.now) device_text (IsDeviceListing text.now)
        (K.shown out.old) (K.shown out.new) result }
{
    inputs_keep_rules();
    match read_device(alloc, text.as_slice()) {
        Ok(device) => {
            let put = put_listing(alloc, &device, out);
            drop(device);
            put
        }
        Err(fault) => Err(unput_by(fault)),
    }
}

// Writes the listing of the device.
fn put_listing<K: Sink>(alloc: Global, device: &Device, out: &mut K) -> Result<(), Unput>
    ensures { PutsText (device_text device.now) (K.shown out.old) (K.shown out.new) result }
{
    let mut line = Line::new(alloc)?;
    answer_by(write_device(device, &mut line, out))
}

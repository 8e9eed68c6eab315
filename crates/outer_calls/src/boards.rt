//! Calls of `board_defs` and `board_lines` that answer questions about the pins, nets and parts of a board, read the symbols of a code, and
//! add a control to a setting.
ghost use Rattle.std.specs.Prelude.{◌≡◌, ◌==◌, ◌<◌, ◌≤◌, length, slice_get, Some, OnOk, OnErr};
ghost use Rattle.board_defs.specs.Limits.{most_bits};
ghost use Rattle.board_defs.specs.Pins.{IsOnBoard, drive_at, guarded_at, receives_at, switches_at};
ghost use Rattle.board_defs.specs.Settings.{inserted};
ghost use Rattle.board_lines.specs.PinRows.{pins_of_bits, pins_of_part};

use board_defs::{Board, Code, Ctl, Drive, PartKind, PinRef, PortBit, Setting, Symbol};
use short_lists::ShortSlice;
use std::alloc::AllocError;

/// Returns whether the net is guarded. A safe setting enables no driver of a guarded net, except drivers that are always on. The board must
/// have the net.
pub fn is_guarded(board: &Board, net: u32) -> bool
    requires { net < length board.now.nets }
    ensures { result ≡ guarded_at board.now net }
{
    board.is_guarded(net)
}

/// Returns how the pin's driver is enabled, or None if the pin is not a driver. The board must have the pin.
pub fn drive(board: &Board, pin: PinRef) -> Option<Drive>
    requires { IsOnBoard board.now pin }
    ensures { result ≡ drive_at board.now pin }
{
    board.drive(pin)
}

/// Returns whether the pin is a switching driver: its own cell enables it, and its net is unguarded and is pulled to the cell's disable
/// value. The board must have the pin.
pub fn switches(board: &Board, pin: PinRef) -> bool
    requires { IsOnBoard board.now pin }
    ensures { result ≡ switches_at board.now pin }
{
    board.switches(pin)
}

/// Returns whether the pin is a receiver. The board must have the pin.
pub fn receives(board: &Board, pin: PinRef) -> bool
    requires { IsOnBoard board.now pin }
    ensures { result ≡ receives_at board.now pin }
{
    board.receives(pin)
}

/// Returns the port bits of a part. A part in BYPASS has no port bits.
pub fn bits_of(kind: &PartKind) -> ShortSlice<'_, PortBit>
    ensures pins { pins_of_bits result.items.now ≡ pins_of_part kind.now }
    ensures few { length result.items.now ≤ most_bits }
{
    board_lines::bits_of(kind)
}

/// Returns the number of symbols of the code.
pub fn code_length(code: &Code) -> u32
    ensures { result ≡ length code.now }
{
    code.len()
}

/// Returns whether the code has no symbols.
pub fn is_code_empty(code: &Code) -> bool
    ensures { result ≡ (length code.now == 0) }
{
    code.is_empty()
}

/// Returns symbol `i` of the code, which must exist. Symbol 0 is nearest TDO.
pub fn symbol_at(code: &Code, i: u32) -> Symbol
    requires { i < length code.now }
    ensures { slice_get code.now i ≡ Some result }
{
    code.at(i)
}

/// Adds the control to the setting, at its place in control order. Changes nothing if the setting has the control already, or if memory
/// runs out.
pub fn add_control(setting: &mut Setting, c: Ctl) -> Result<(), AllocError>
    ensures added { OnOk result (setting.new ≡ inserted c setting.old) }
    ensures same { OnErr result (setting.new ≡ setting.old) }
{
    setting.add(c)
}

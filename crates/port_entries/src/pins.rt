// Finds driving entries, receivers, dark pins and guarded nets in the board's table of entries. The table has
// the entries of each port bit. A dark pin may drive its net although no setting controls it.
ghost use Rattle.std.specs.Prelude.{◌≡◌, ◌&&◌, ◌||◌, find, Some};
ghost use Rattle.std.specs.List.{list_any};
ghost use Rattle.board_defs.specs.DeviceRules.{is_driving, is_receiving, may_receive};
ghost use Rattle.board_defs.specs.Pins.{bit_at, entry_at, guarded, is_dark, is_test_bit, receives_where};
ghost use Rattle.port_entries.specs.Entries.{AreEntries, entries_at};
ghost use Rattle.port_entries.specs.inner.Rows.{dark_by, dark_in, guards_in, receives_with};

use crate::bit_entries::BitEntries;
use crate::table::entries_at;
use board_defs::{Cell, Items, Net, NetPin, PinAt, PortBit, RawBoard};

pub(crate) fn find_driving(entries: &[Cell]) -> Option<Cell>
    ensures { result ≡ find (λ cell. is_driving cell.role) entries.now }
{
    entries.iter().copied().find(|cell| cell.role.is_driving())
}

/// Returns the driving entry of the port bit at `at`, if there is one. `rows` must be the board's table of entries.
pub fn driving_entry(rows: &[Items<BitEntries>], board: &RawBoard, at: PinAt) -> Option<Cell>
    requires { AreEntries board.now rows.now }
    ensures { result ≡ entry_at board.now at }
{
    find_driving(entries_at(rows, at))
}

fn has_receiving(entries: &[Cell]) -> bool
    ensures { result ≡ list_any (λ cell. is_receiving cell.role) entries.now }
{
    entries.iter().any(|cell| cell.role.is_receiving())
}

pub(crate) fn receives_bit(bit: &PortBit, entries: &[Cell]) -> bool
    ensures { result ≡ receives_with (Some bit.now) entries.now }
{
    bit.mode.may_receive() && has_receiving(entries)
}

fn receives_there(rows: &[Items<BitEntries>], board: &RawBoard, at: PinAt) -> bool
    ensures { result ≡ receives_with (bit_at board.now at) (entries_at rows.now at) }
{
    match board.port_bit(at) {
        None => false,
        Some(bit) => receives_bit(bit, entries_at(rows, at)),
    }
}

/// Returns whether the pin at port bit `at` is a receiver. Returns false if `at` is None, as for a pin of a
/// part without a description. `rows` must be the board's table of entries.
pub fn receives(rows: &[Items<BitEntries>], board: &RawBoard, at: Option<PinAt>) -> bool
    requires { AreEntries board.now rows.now }
    ensures { result ≡ receives_where board.now at }
{
    match at {
        None => false,
        Some(at) => receives_there(rows, board, at),
    }
}

fn has_driving(entries: &[Cell]) -> bool
    ensures { result ≡ list_any (λ cell. is_driving cell.role) entries.now }
{
    entries.iter().any(|cell| cell.role.is_driving())
}

pub(crate) fn is_dark_bit(bit: &PortBit, entries: &[Cell]) -> bool
    ensures { result ≡ dark_by (Some bit.now) entries.now }
{
    if bit.tap {
        false
    } else if bit.mode.is_linkage() || entries.is_empty() {
        true
    } else {
        bit.mode.may_drive() && !has_driving(entries)
    }
}

fn is_dark(rows: &[Items<BitEntries>], board: &RawBoard, pin: &NetPin) -> bool
    ensures { result ≡ dark_in rows.now board.now pin.now }
{
    match pin.at {
        None => !pin.inert,
        Some(at) => match board.port_bit(at) {
            None => true,
            Some(bit) => is_dark_bit(bit, entries_at(rows, at)),
        },
    }
}

fn any_dark(rows: &[Items<BitEntries>], board: &RawBoard, pins: &[NetPin]) -> bool
    ensures { result ≡ list_any (dark_in rows.now board.now) pins.now }
{
    pins.iter().any(|pin| is_dark(rows, board, pin))
}

/// Returns whether one of the pins is dark. If a pin of a net is dark, something that no setting controls may drive the
/// net. `rows` must be the board's table of entries.
pub fn has_dark_pin(rows: &[Items<BitEntries>], board: &RawBoard, pins: &[NetPin]) -> bool
    requires { AreEntries board.now rows.now }
    ensures { result ≡ list_any (is_dark board.now) pins.now }
{
    any_dark(rows, board, pins)
}

fn is_test_bit(bit: &PortBit) -> bool
    ensures { result ≡ is_test_bit (Some bit.now) }
{
    bit.tap || bit.compliance
}

fn guards_bit(bit: &PortBit, entries: &[Cell]) -> bool
    ensures { result ≡ (is_test_bit (Some bit.now) || dark_by (Some bit.now) entries.now) }
{
    is_test_bit(bit) || is_dark_bit(bit, entries)
}

// Returns whether a pin guards its net: it is a pin of a test access port, a pin that compliance patterns
// name, or a dark pin. Looks up the port bit once for both conditions, since `any_guards` calls this function
// for each pin of each net.
fn guards(rows: &[Items<BitEntries>], board: &RawBoard, pin: &NetPin) -> bool
    ensures { result ≡ guards_in rows.now board.now pin.now }
{
    match pin.at {
        None => !pin.inert,
        Some(at) => match board.port_bit(at) {
            None => true,
            Some(bit) => guards_bit(bit, entries_at(rows, at)),
        },
    }
}

fn any_guards(rows: &[Items<BitEntries>], board: &RawBoard, pins: &[NetPin]) -> bool
    ensures { result ≡ list_any (guards_in rows.now board.now) pins.now }
{
    pins.iter().any(|pin| guards(rows, board, pin))
}

/// Returns whether the net is guarded: it carries a supply, or has a pin of a test access port, a pin that compliance
/// patterns name, or a dark pin. On a guarded net, only drivers that are always on may be enabled. `rows` must be the
/// board's table of entries.
pub fn is_guarded(rows: &[Items<BitEntries>], board: &RawBoard, net: &Net) -> bool
    requires { AreEntries board.now rows.now }
    ensures { result ≡ guarded board.now net.now }
{
    if net.supply {
        true
    } else {
        any_guards(rows, board, net.pins.as_slice())
    }
}

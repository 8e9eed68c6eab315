// Writes the text of a diagnosis.
ghost use Rattle.std.specs.Prelude.{◌≡◌, ◌++◌, [], length, All, Some};
ghost use Rattle.std.specs.List.{flat_map};
ghost use Rattle.bt_base.specs.Puts.{Puts};
ghost use Rattle.line_printer.specs.Prints.{Prints};
ghost use Rattle.board_defs.specs.Pins.{IsOnBoard, pin_at};
ghost use Rattle.diagnoser.specs.Diagnosis.{IsFaultOnBoard};
ghost use Rattle.diagnoser.specs.DiagText.{fault_line, fail_line, diag_text};

use crate::lines::{put_fail, put_open, put_pass, put_short, put_stuck};
use board_defs::{Board, NetPin, PinRef, Single};
use bt_base::{PutFault, Sink};
use bt_bits::Line;

// Returns the pin that `pin` refers to. The board must have the pin.
fn pin_at(board: &Board, pin: PinRef) -> &NetPin
    requires { IsOnBoard board.now pin }
    ensures { pin_at board.now pin ≡ Some result.now }
{
    let net = &board.raw().nets.as_slice()[pin.net as usize];
    &net.pins.as_slice()[pin.place as usize]
}

fn put_fault<K: Sink>(
    board: &Board,
    fault: Single,
    line: &mut Line,
    out: &mut K,
) -> Result<(), PutFault>
    requires { IsFaultOnBoard board.now fault }
    ensures { Prints (K.shown out.old) (K.shown out.new) [] [] (fault_line board.now fault) result }
{
    match fault {
        Single::StuckNet { net, value } => put_stuck(board.net_name(net), value, line, out),
        Single::OpenPin { pin, value } => put_open(pin_at(board, pin), value, line, out),
        Single::Short { a, b, kind } => {
            put_short(kind, board.net_name(a), board.net_name(b), line, out)
        }
    }
}

fn put_faults<K: Sink>(
    board: &Board,
    faults: &[Single],
    line: &mut Line,
    out: &mut K,
) -> Result<(), PutFault>
    requires { All (IsFaultOnBoard board.now) faults.now }
    ensures { Prints (K.shown out.old) (K.shown out.new) [] []
        (flat_map (fault_line board.now) faults.now) result }
{
    for fault in faults {
        put_fault(board, *fault, line, out)?;
    }
    Ok(())
}

// Writes the line `FAIL` with the number of faults, and then a line for each fault. The nets and pins of the faults must be on the board.
fn put_list<K: Sink>(
    board: &Board,
    faults: &[Single],
    line: &mut Line,
    out: &mut K,
) -> Result<(), PutFault>
    requires { All (IsFaultOnBoard board.now) faults.now }
    ensures { Prints (K.shown out.old) (K.shown out.new) [] []
        (fail_line (length faults.now) ++ flat_map (fault_line board.now) faults.now) result }
{
    put_fail(faults.len() as u64, line, out)?;
    put_faults(board, faults, line, out)
}

/// Writes a diagnosis. If `pass` is true, this is the line `PASS`. Otherwise it is the line `FAIL` with the number of faults, followed by a
/// line for each fault. The nets and pins of the faults must be on the board. A line of at most `MAX_LINE` bytes goes to the sink as one
/// piece. A longer line goes out in pieces of `MAX_LINE` bytes, and the last piece has the rest. Allocates nothing. `line` is used as a
/// buffer, and its content afterwards is unspecified. Fails only if the sink fails. The sink then took a prefix of the text.
pub fn write_diagnosis<K: Sink>(
    board: &Board,
    pass: bool,
    faults: &[Single],
    line: &mut Line,
    out: &mut K,
) -> Result<(), PutFault>
    requires { All (IsFaultOnBoard board.now) faults.now }
    ensures { Puts (K.shown out.old) (K.shown out.new) (diag_text board.now pass faults.now)
        result }
{
    if pass {
        put_pass(line, out)
    } else {
        put_list(board, faults, line, out)
    }
}

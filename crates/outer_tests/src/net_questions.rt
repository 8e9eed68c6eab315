// Tests of the questions about nets, pins and controls that `Board` and `Classes` answer. The answers are worked out by hand from the
// definitions.
ghost use Rattle.net_classes.specs.Kept.{AreClasses};

use crate::boards::{BIDIR, Files, GROUPS, PAIR, PULLED, board_of, is_cell, is_net, is_pin};
use board_defs::{Board, Cell, Ctl, Drive, PinRef, Reason, Role, Symbol};
use net_classes::{Classes, classify};
use run_bench::{RowFault, expect};
use std::alloc::Global;

// A pin or a control, with all numbers counted from 0. A pin has the number of its net and its place among the net's pins. A control has
// the number of its part in the chain and the number of its cell.
type Place = (u32, u32);

// The way in which a pin drives its net. The cell of a one-sided driver both carries its data and enables it, and no safe setting enables
// the driver.
#[derive(Clone, Copy)]
enum Driven {
    Not,
    AlwaysOn,
    OneSided,
    // This control enables the driver.
    By(Place),
}

// A question with its correct answer. A setting is a set of enabled controls. A safe setting enables at most one driver of each net, among
// other rules.
#[derive(Clone, Copy)]
enum Question {
    // The first reason why no safe setting observes this net, or `None` if some safe setting does.
    Reason(u32, Option<Reason>),
    // True if the setting with this control alone is safe, and the control enables a driver that some safe setting tests.
    Usable(Place, bool),
    // True if the setting with these two controls alone is safe.
    Together(Place, Place, bool),
    // True if some safe setting enables this driver and observes its net by it.
    DriverTested(Place, bool),
    // True if some safe setting observes the net of this receiver by a driver on another pin.
    ReceiverTested(Place, bool),
    // True if the two nets differ and one safe setting observes both.
    Paired(u32, u32, bool),
    // The way in which this pin drives its net.
    Drive(Place, Driven),
    // True if this pin is a switching driver: its own cell enables it, and its net is unguarded and is pulled to the cell's disable value.
    Switches(Place, bool),
    // True if this pin is a receiver.
    Receives(Place, bool),
    // True if this pin is dark: something that no setting controls may drive the pin's net.
    Dark(Place, bool),
    // True if this net is guarded. A safe setting enables no driver of a guarded net, except drivers that are always on.
    Guarded(u32, bool),
}

// The answers for the board `PAIR`. Each of its two nets has a driver that is always on, and a receiver.
const PAIR_ANSWERS: [Question; 16] = [
    Question::Reason(0, None),
    Question::Reason(1, None),
    Question::Drive((0, 0), Driven::AlwaysOn),
    Question::Drive((0, 1), Driven::Not),
    Question::Receives((1, 0), false),
    Question::Receives((1, 1), true),
    Question::Switches((0, 0), false),
    Question::DriverTested((1, 0), true),
    Question::DriverTested((1, 1), false),
    Question::ReceiverTested((0, 0), false),
    Question::ReceiverTested((0, 1), true),
    Question::Paired(0, 1, true),
    Question::Paired(1, 0, true),
    Question::Paired(1, 1, false),
    // The cells of drivers that are always on enable no driver.
    Question::Usable((0, 1), false),
    Question::Together((0, 0), (0, 1), true),
];

// The answers for the board `GROUPS`. Cell 4 enables a driver of net 0 and a driver of net 1. Cell 5 enables a driver of net 1 and a driver
// of net 2.
const GROUPS_ANSWERS: [Question; 22] = [
    Question::Reason(0, None),
    Question::Reason(1, None),
    Question::Reason(2, None),
    Question::Drive((0, 0), Driven::By((0, 4))),
    Question::Drive((1, 0), Driven::By((0, 4))),
    Question::Drive((1, 1), Driven::By((0, 5))),
    Question::Drive((1, 2), Driven::Not),
    Question::Usable((0, 4), true),
    Question::Usable((0, 5), true),
    Question::Usable((0, 3), false),
    Question::Usable((1, 1), false),
    Question::Together((0, 4), (0, 5), false),
    Question::Together((0, 5), (0, 4), false),
    Question::Together((0, 4), (0, 4), true),
    Question::Together((0, 5), (2, 0), true),
    Question::Paired(0, 1, true),
    Question::Paired(2, 1, true),
    Question::Paired(0, 2, false),
    Question::Paired(2, 0, false),
    Question::DriverTested((1, 1), true),
    Question::ReceiverTested((1, 2), true),
    Question::ReceiverTested((2, 0), false),
];

// The answers for the board `BIDIR`. Only the bidirectional pin is a receiver, so no other pin can test its driver.
const BIDIR_ANSWERS: [Question; 12] = [
    Question::Reason(0, None),
    Question::Drive((0, 0), Driven::By((0, 1))),
    Question::Drive((0, 1), Driven::By((1, 1))),
    Question::Receives((0, 0), true),
    Question::Receives((0, 1), false),
    Question::Usable((0, 1), false),
    Question::Usable((1, 1), true),
    Question::Together((0, 1), (1, 1), false),
    Question::DriverTested((0, 0), false),
    Question::DriverTested((0, 1), true),
    Question::ReceiverTested((0, 0), true),
    Question::ReceiverTested((0, 1), false),
];

const PULLED_ANSWERS: [Question; 7] = [
    Question::Reason(0, None),
    Question::Drive((0, 0), Driven::By((0, 0))),
    Question::Switches((0, 0), true),
    Question::Switches((0, 1), false),
    Question::Usable((0, 0), true),
    Question::DriverTested((0, 0), true),
    Question::ReceiverTested((0, 1), true),
];

// A board on which the net of an open-drain driver is pulled to 0, the only value that the driver drives. No test can show whether the
// driver works.
const PULLED_DOWN: Files = Files {
    chain: "DEVICE U1 OD -\nDEVICE U2 RCV1 -\nPULL N 0\n",
    nets: "NET N U1.1 U2.1\n",
};

const PULLED_DOWN_ANSWERS: [Question; 6] = [
    Question::Reason(0, Some(Reason::Blocked)),
    Question::Drive((0, 0), Driven::OneSided),
    Question::Switches((0, 0), false),
    Question::Usable((0, 0), false),
    Question::DriverTested((0, 0), false),
    Question::ReceiverTested((0, 1), false),
];

// A board of two buffers. The first buffer drives the second. The board also has a supply net and a net of the test access port.
const BUFFERS: Files = Files {
    chain: "DEVICE U1 BUF2 -\nDEVICE U2 BUF2 -\nSUPPLY VCC\n",
    nets: "NET N0 U1.5 U2.3\nNET N1 U1.4 U2.2\nNET OE U1.1 U2.1\nNET VCC U1.7 U2.7 C1.1\n\
           NET TCK U1.10 U2.10 J1.1\n",
};

const BUFFERS_ANSWERS: [Question; 17] = [
    Question::Reason(0, None),
    Question::Reason(1, None),
    Question::Reason(2, Some(Reason::NoDriver)),
    Question::Reason(3, Some(Reason::Supply)),
    Question::Reason(4, Some(Reason::TestPort)),
    Question::Guarded(0, false),
    Question::Guarded(2, false),
    Question::Guarded(3, true),
    Question::Guarded(4, true),
    // These pins are a linkage pin, a pin of a part without a description, a pin of the test access port, and an input pin.
    Question::Dark((3, 0), true),
    Question::Dark((3, 2), true),
    Question::Dark((4, 0), false),
    Question::Dark((2, 0), false),
    Question::Usable((0, 4), true),
    Question::Usable((1, 4), false),
    Question::Paired(0, 1, true),
    Question::Paired(0, 2, false),
];

// A board on which the first net has a pin of a part without a description, and the second net has no receiver.
const UNSEEN: Files = Files {
    chain: "DEVICE U1 DRV -\nDEVICE U2 RCV -\n",
    nets: "NET N1 U1.1 U2.1 RAM.7\nNET N2 U1.2\n",
};

const UNSEEN_ANSWERS: [Question; 11] = [
    Question::Reason(0, Some(Reason::Dark)),
    Question::Reason(1, Some(Reason::NoReceiver)),
    Question::Guarded(0, true),
    Question::Guarded(1, false),
    Question::Dark((0, 1), false),
    Question::Dark((0, 2), true),
    Question::Drive((0, 2), Driven::Not),
    Question::DriverTested((0, 0), false),
    Question::DriverTested((1, 0), false),
    Question::ReceiverTested((0, 1), false),
    Question::Paired(0, 1, false),
];

// A board with an INERT line for a part without a description. The line says that the part neither drives its pins nor connects them.
const INERT: Files = Files {
    chain: "DEVICE U1 DRV -\nDEVICE U2 RCV -\nINERT RAM\n",
    nets: "NET N1 U1.1 U2.1 RAM.7\nNET N2 U1.2 U2.2\n",
};

const INERT_ANSWERS: [Question; 5] = [
    Question::Reason(0, None),
    Question::Guarded(0, false),
    Question::Dark((0, 2), false),
    Question::DriverTested((0, 0), true),
    Question::Paired(0, 1, true),
];

// A name, a board, and questions about it.
type Asked = (&'static str, Files, &'static [Question]);

static BOARDS: [Asked; 8] = [
    ("a driver and a receiver", PAIR, &PAIR_ANSWERS),
    ("two groups of drivers", GROUPS, &GROUPS_ANSWERS),
    ("a bidirectional pin", BIDIR, &BIDIR_ANSWERS),
    ("a net that is pulled up", PULLED, &PULLED_ANSWERS),
    (
        "a net that is pulled down",
        PULLED_DOWN,
        &PULLED_DOWN_ANSWERS,
    ),
    ("two buffers", BUFFERS, &BUFFERS_ANSWERS),
    ("a part without a description", UNSEEN, &UNSEEN_ANSWERS),
    ("an inert part", INERT, &INERT_ANSWERS),
];

fn control((part, cell): Place) -> Ctl {
    Ctl { part, cell }
}

fn pin((net, place): Place) -> PinRef {
    PinRef { net, place }
}

// Returns 0 for no reason, and a different number for each reason.
fn number(reason: Option<Reason>) -> u32 {
    match reason {
        None => 0,
        Some(Reason::Supply) => 1,
        Some(Reason::TestPort) => 2,
        Some(Reason::Dark) => 3,
        Some(Reason::NoDriver) => 4,
        Some(Reason::Blocked) => 5,
        Some(Reason::NoReceiver) => 6,
    }
}

// Returns whether the board answers a question about nets correctly. Returns true for any other question. `classes` must be the classes of
// the board, which say what its nets, pins and controls can do in safe settings.
fn net_answers(board: &Board, classes: &Classes, question: Question) -> bool
    requires { AreClasses board.now classes.now }
{
    match question {
        Question::Reason(net, wanted) => {
            is_net(board, net) && number(classes.reason(board, net)) == number(wanted)
        }
        Question::Paired(a, b, wanted) => {
            is_net(board, a) && is_net(board, b) && classes.paired(board, a, b) == wanted
        }
        Question::Guarded(net, wanted) => is_net(board, net) && board.is_guarded(net) == wanted,
        _ => true,
    }
}

// Returns whether the board answers a question about controls correctly. Returns true for any other question. `classes` must be the classes
// of the board.
fn control_answers(board: &Board, classes: &Classes, question: Question) -> bool
    requires { AreClasses board.now classes.now }
{
    match question {
        Question::Usable(at, wanted) => {
            let c = control(at);
            is_cell(board, c) && classes.usable(board, c) == wanted
        }
        Question::Together(one, other, wanted) => {
            let (a, b) = (control(one), control(other));
            is_cell(board, a) && is_cell(board, b) && classes.together(board, a, b) == wanted
        }
        _ => true,
    }
}

// Returns whether `classes` answers a question about tested drivers and receivers correctly. Returns true for any other question. `classes`
// must be the classes of the board.
fn tested_answers(board: &Board, classes: &Classes, question: Question) -> bool
    requires { AreClasses board.now classes.now }
{
    match question {
        Question::DriverTested(at, wanted) => {
            let pin = pin(at);
            is_pin(board, pin) && classes.driver_tested(board, pin) == wanted
        }
        Question::ReceiverTested(at, wanted) => {
            let pin = pin(at);
            is_pin(board, pin) && classes.receiver_tested(board, pin) == wanted
        }
        _ => true,
    }
}

// Returns whether the board has this pin and `wanted` says correctly whether the pin is dark.
fn is_dark(board: &Board, at: PinRef, wanted: bool) -> bool {
    let raw = board.raw();
    match raw.nets.as_slice().get(at.net as usize) {
        None => false,
        Some(net) => match net.pins.as_slice().get(at.place as usize) {
            None => false,
            Some(pin) => raw.is_dark(pin) == wanted,
        },
    }
}

fn is_driven(found: Option<Drive>, wanted: Driven) -> bool {
    match (found, wanted) {
        (None, Driven::Not) => true,
        (Some(Drive::AlwaysOn), Driven::AlwaysOn) => true,
        (Some(Drive::OneSided), Driven::OneSided) => true,
        (Some(Drive::By(c)), Driven::By(at)) => c.is_same(control(at)),
        _ => false,
    }
}

// Returns whether the board answers a question about its pins correctly. Returns true for any other question.
fn pin_answers(board: &Board, question: Question) -> bool {
    match question {
        Question::Drive(at, wanted) => {
            let pin = pin(at);
            is_pin(board, pin) && is_driven(board.drive(pin), wanted)
        }
        Question::Dark(at, wanted) => is_dark(board, pin(at), wanted),
        Question::Switches(at, wanted) => {
            let pin = pin(at);
            is_pin(board, pin) && board.switches(pin) == wanted
        }
        Question::Receives(at, wanted) => {
            let pin = pin(at);
            is_pin(board, pin) && board.receives(pin) == wanted
        }
        _ => true,
    }
}

fn all_answer(
    board: &Board,
    classes: &Classes,
    name: &'static str,
    questions: &[Question],
) -> Result<(), RowFault>
    requires { AreClasses board.now classes.now }
{
    for (row, question) in questions.iter().enumerate() {
        expect(name, row, net_answers(board, classes, *question))?;
        expect(name, row, control_answers(board, classes, *question))?;
        expect(name, row, tested_answers(board, classes, *question))?;
        expect(name, row, pin_answers(board, *question))?;
    }
    Ok(())
}

fn classified_answers(alloc: Global, board: &Board, asked: Asked) -> Result<(), RowFault> {
    let classes = classify(alloc, board)?;
    let answer = all_answer(board, &classes, asked.0, asked.2);
    drop(classes);
    answer
}

fn board_answers(alloc: Global, asked: Asked) -> Result<(), RowFault> {
    let board = board_of(alloc, asked.1)?;
    let answer = classified_answers(alloc, &board, asked);
    drop(board);
    answer
}

#[test]
fn boards_and_their_classes_answer(rt: HostRuntime) -> Result<(), RowFault> {
    for asked in &BOARDS {
        board_answers(rt.alloc(), *asked)?;
    }
    Ok(())
}

// The port bit of an entry, another port bit, and whether the entry is on that port bit.
static ENTRIES: [(Option<u32>, u32, bool); 3] = [
    (Some(3), 3, true),
    (Some(3), 2, false),
    (None, 0, false),
];

fn entry_on(bit: Option<u32>) -> Cell {
    Cell {
        num: 0,
        role: Role::Input,
        bit,
        safe: Symbol::Any,
        ctl: None,
    }
}

#[test]
fn entries_are_on_their_port_bits(_rt: HostRuntime) -> Result<(), RowFault> {
    for (row, (bit, other, wanted)) in ENTRIES.iter().enumerate() {
        expect("entries", row, entry_on(*bit).is_on(*other) == *wanted)?;
    }
    Ok(())
}

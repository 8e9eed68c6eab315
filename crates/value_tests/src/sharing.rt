//! Tests that public types are `Send` and `Sync`.
use batch_diag::{BatchFault, Block, Verdict};
use board_build::BoardFault;
use board_defs::{
    Board, Cell, Code, Control, Ctl, Device, Drive, Edition, Items, Kind, Mode, Name, Net, NetPin,
    Part, PartKind, PinAt, PinRef, PortBit, RawBoard, RawDevice, Reason, Role, Setting, Single,
    Spot, Symbol,
};
use board_files::{ChainFile, ChainLine, LineFault, NetFile, NetLine};
use board_gen::Made;
use bt_base::{CountSink, FailingPut, FetchFault, MemSink, MemStore, OpenGate, PutFault};
use bt_bits::{HexFault, Line, Row, RowStack};
use btest_cli::Status;
use btest_core::InputFault;
use command_line::NamedCommand;
use diagnoser::Entered;
use fault_sim::{Suspects, Universe};
use net_classes::{Classes, ControlClass, NetClass, PinClass};
use port_entries::BitEntries;
use response_log::{Log, LogFault};
use scan_planner::Plan;
use series_parts::{Joined, LinkFault};
use short_lists::{ShortSlice, ShortText, ShortTexts, TextList, TextSlice};
use side_by_side::Workers;
use walk_test::{Group, Walk};

fn is_shared<T: Send + Sync>() {}

#[test]
fn a_command_and_how_it_ends_may_be_shared() {
    is_shared::<NamedCommand<'static>>();
    is_shared::<Status>();
    is_shared::<InputFault>();
}

#[test]
fn stores_sinks_rows_and_lines_may_be_shared() {
    is_shared::<MemStore>();
    is_shared::<MemSink>();
    is_shared::<CountSink>();
    is_shared::<OpenGate>();
    is_shared::<FailingPut>();
    is_shared::<FetchFault>();
    is_shared::<PutFault>();
    is_shared::<Row>();
    is_shared::<RowStack>();
    is_shared::<Line>();
    is_shared::<HexFault>();
}

#[test]
fn short_lists_and_texts_may_be_shared() {
    is_shared::<ShortSlice<'static, u32>>();
    is_shared::<TextSlice<'static>>();
    is_shared::<TextList<'static>>();
    is_shared::<ShortText>();
    is_shared::<ShortTexts>();
}

#[test]
fn devices_may_be_shared() {
    is_shared::<Name>();
    is_shared::<Items<Name>>();
    is_shared::<Symbol>();
    is_shared::<Code>();
    is_shared::<Mode>();
    is_shared::<Role>();
    is_shared::<Edition>();
    is_shared::<Control>();
    is_shared::<Cell>();
    is_shared::<PortBit>();
    is_shared::<BitEntries>();
    is_shared::<RawDevice>();
    is_shared::<Device>();
}

#[test]
fn boards_may_be_shared() {
    is_shared::<PartKind>();
    is_shared::<Part>();
    is_shared::<PinAt>();
    is_shared::<NetPin>();
    is_shared::<Net>();
    is_shared::<RawBoard>();
    is_shared::<Board>();
    is_shared::<PinRef>();
}

#[test]
fn settings_and_faults_may_be_shared() {
    is_shared::<Ctl>();
    is_shared::<Drive>();
    is_shared::<Setting>();
    is_shared::<Reason>();
    is_shared::<Kind>();
    is_shared::<Single>();
    is_shared::<Spot>();
}

#[test]
fn files_of_boards_may_be_shared() {
    is_shared::<ChainFile>();
    is_shared::<ChainLine>();
    is_shared::<NetFile>();
    is_shared::<NetLine>();
    is_shared::<LineFault>();
    is_shared::<Made>();
}

#[test]
fn what_is_known_of_a_board_may_be_shared() {
    is_shared::<BoardFault>();
    is_shared::<Joined>();
    is_shared::<LinkFault>();
    is_shared::<Classes>();
    is_shared::<NetClass>();
    is_shared::<ControlClass>();
    is_shared::<PinClass>();
}

#[test]
fn tests_and_what_explains_their_logs_may_be_shared() {
    is_shared::<Plan>();
    is_shared::<Walk>();
    is_shared::<Group>();
    is_shared::<Universe>();
    is_shared::<Suspects>();
    is_shared::<Log>();
    is_shared::<LogFault>();
    is_shared::<Block>();
    is_shared::<BatchFault>();
    is_shared::<Verdict>();
    is_shared::<Workers>();
    is_shared::<Entered>();
}

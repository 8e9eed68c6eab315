// Tests of the state changes of a TAP controller (IEEE 1149.1-1990, section 5).
use run_bench::{RowFault, expect};
use tap_defs::TapState;
use tap_defs::TapState::{
    CaptureDR, CaptureIR, Exit1DR, Exit1IR, Exit2DR, Exit2IR, PauseDR, PauseIR, RunTestIdle,
    SelectDR, SelectIR, ShiftDR, ShiftIR, TestLogicReset, UpdateDR, UpdateIR,
};

// Each state, its next state for TMS 0, and its next state for TMS 1.
static MOVES: [(TapState, TapState, TapState); 16] = [
    (TestLogicReset, RunTestIdle, TestLogicReset),
    (RunTestIdle, RunTestIdle, SelectDR),
    (SelectDR, CaptureDR, SelectIR),
    (CaptureDR, ShiftDR, Exit1DR),
    (ShiftDR, ShiftDR, Exit1DR),
    (Exit1DR, PauseDR, UpdateDR),
    (PauseDR, PauseDR, Exit2DR),
    (Exit2DR, ShiftDR, UpdateDR),
    (UpdateDR, RunTestIdle, SelectDR),
    (SelectIR, CaptureIR, TestLogicReset),
    (CaptureIR, ShiftIR, Exit1IR),
    (ShiftIR, ShiftIR, Exit1IR),
    (Exit1IR, PauseIR, UpdateIR),
    (PauseIR, PauseIR, Exit2IR),
    (Exit2IR, ShiftIR, UpdateIR),
    (UpdateIR, RunTestIdle, SelectDR),
];

// Returns a number that differs from the numbers of all other states.
fn number(state: TapState) -> u32 {
    match state {
        TestLogicReset => 0,
        RunTestIdle => 1,
        SelectDR => 2,
        CaptureDR => 3,
        ShiftDR => 4,
        Exit1DR => 5,
        PauseDR => 6,
        Exit2DR => 7,
        UpdateDR => 8,
        SelectIR => 9,
        CaptureIR => 10,
        ShiftIR => 11,
        Exit1IR => 12,
        PauseIR => 13,
        Exit2IR => 14,
        UpdateIR => 15,
    }
}

fn moves_to(state: TapState, tms: bool, wanted: TapState) -> bool {
    number(state.next(tms)) == number(wanted)
}

#[test]
fn a_controller_makes_the_moves_of_the_standard(_rt: HostRuntime) -> Result<(), RowFault> {
    for (row, (state, at_0, at_1)) in MOVES.iter().enumerate() {
        let holds = moves_to(*state, false, *at_0) && moves_to(*state, true, *at_1);
        expect("moves of a TAP controller", row, holds)?;
    }
    Ok(())
}

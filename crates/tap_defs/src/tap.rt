// The states of a TAP controller.
ghost use Rattle.std.specs.Prelude.{◌≡◌};
ghost use Rattle.tap_defs.specs.chain.Tap.{next_state};

/// A state of a TAP controller (IEEE 1149.1-1990, section 5).
#[derive(Clone, Copy)]
pub enum TapState {
    TestLogicReset,
    RunTestIdle,
    SelectDR,
    CaptureDR,
    ShiftDR,
    Exit1DR,
    PauseDR,
    Exit2DR,
    UpdateDR,
    SelectIR,
    CaptureIR,
    ShiftIR,
    Exit1IR,
    PauseIR,
    Exit2IR,
    UpdateIR,
}

impl TapState {
    /// Returns the state after one TCK cycle with this TMS.
    pub fn next(self, tms: bool) -> TapState
        ensures { result ≡ next_state self tms }
    {
        match (self, tms) {
            (TapState::TestLogicReset, false) => TapState::RunTestIdle,
            (TapState::TestLogicReset, true) => TapState::TestLogicReset,
            (TapState::RunTestIdle, false) => TapState::RunTestIdle,
            (TapState::RunTestIdle, true) => TapState::SelectDR,
            (TapState::SelectDR, false) => TapState::CaptureDR,
            (TapState::SelectDR, true) => TapState::SelectIR,
            (TapState::CaptureDR, false) => TapState::ShiftDR,
            (TapState::CaptureDR, true) => TapState::Exit1DR,
            (TapState::ShiftDR, false) => TapState::ShiftDR,
            (TapState::ShiftDR, true) => TapState::Exit1DR,
            (TapState::Exit1DR, false) => TapState::PauseDR,
            (TapState::Exit1DR, true) => TapState::UpdateDR,
            (TapState::PauseDR, false) => TapState::PauseDR,
            (TapState::PauseDR, true) => TapState::Exit2DR,
            (TapState::Exit2DR, false) => TapState::ShiftDR,
            (TapState::Exit2DR, true) => TapState::UpdateDR,
            (TapState::UpdateDR, false) => TapState::RunTestIdle,
            (TapState::UpdateDR, true) => TapState::SelectDR,
            (TapState::SelectIR, false) => TapState::CaptureIR,
            (TapState::SelectIR, true) => TapState::TestLogicReset,
            (TapState::CaptureIR, false) => TapState::ShiftIR,
            (TapState::CaptureIR, true) => TapState::Exit1IR,
            (TapState::ShiftIR, false) => TapState::ShiftIR,
            (TapState::ShiftIR, true) => TapState::Exit1IR,
            (TapState::Exit1IR, false) => TapState::PauseIR,
            (TapState::Exit1IR, true) => TapState::UpdateIR,
            (TapState::PauseIR, false) => TapState::PauseIR,
            (TapState::PauseIR, true) => TapState::Exit2IR,
            (TapState::Exit2IR, false) => TapState::ShiftIR,
            (TapState::Exit2IR, true) => TapState::UpdateIR,
            (TapState::UpdateIR, false) => TapState::RunTestIdle,
            (TapState::UpdateIR, true) => TapState::SelectDR,
        }
    }
}

//! A call of `tap_defs` that returns the next state of a TAP controller.
ghost use Rattle.std.specs.Prelude.{◌≡◌};
ghost use Rattle.tap_defs.specs.chain.Tap.{next_state};

use tap_defs::TapState;

/// Returns the state after one TCK cycle with this value of TMS (IEEE 1149.1-1990, section 5).
pub fn next(state: TapState, tms: bool) -> TapState
    ensures { result ≡ next_state state tms }
{
    state.next(tms)
}

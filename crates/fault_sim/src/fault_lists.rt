// The lists of covered nets and tested pins of a board. The possible single faults are computed from them. A
// net is covered if some safe setting observes it. A pin is tested if some safe setting tests it as a driver
// or as a receiver. A safe setting is a set of controls that the test may enable together.
ghost use Rattle.std.specs.Prelude.{◌≤◌, length};
ghost use Rattle.board_defs.specs.Limits.{most_nets, most_pins};
ghost use Rattle.fault_sim.specs.Starts.{ArePairStarts};

use board_defs::{Items, PinRef};

/// The covered nets and the tested pins of a board. Covered net `a` is item `a` of `nets`. Item `a` of
/// `starts` is the index of covered net `a`'s first pair with a later covered net, in the list of all pairs.
/// The last item of `starts` is the count of all pairs.
#[derive(Drop)]
pub struct FaultLists {
    pub nets: Items<u32>,
    pub pins: Items<PinRef>,
    pub starts: Items<u64>,
    ghost few: { length nets ≤ most_nets },
    ghost few_pins: { length pins ≤ most_pins },
    ghost starts_are: { ArePairStarts (length nets) starts },
}

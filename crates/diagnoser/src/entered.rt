// A value that shows that a gate was entered.
use bt_base::Gate;

/// Shows that a gate was entered. Only `Entered::by` makes this value, so a function that takes it cannot run before the gate is
/// entered.
#[derive(Drop)]
pub struct Entered {
    _entry: (),
}

impl Entered {
    /// Enters the gate with the number of a piece and the number of an item in it. Returns the value that shows this.
    pub fn by<G: Gate>(gate: &G, piece: u32, item: u64) -> Entered {
        gate.enter(piece, item);
        Entered { _entry: () }
    }
}

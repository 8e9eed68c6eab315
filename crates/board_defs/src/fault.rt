// Single faults of a board.
use crate::board::PinRef;

/// The kind of a short, which decides the bit that the receivers of both nets read: the And or the Or of the nets'
/// bits, or the bit of the net that dominates.
#[derive(Clone, Copy)]
pub enum Kind {
    And,
    Or,
    /// The first net dominates.
    First,
    /// The second net dominates.
    Second,
}

/// A single fault. The fields `net`, `a` and `b` are numbers of nets. A stuck net has the bit `value`. If a receiver's
/// pin is open, the receiver reads `value`. If an enabled driver's pin is open, the net has the value to which it is
/// pulled, or `value` if the net has no pull.
#[derive(Clone, Copy)]
pub enum Single {
    StuckNet { net: u32, value: bool },
    OpenPin { pin: PinRef, value: bool },
    Short { a: u32, b: u32, kind: Kind },
}

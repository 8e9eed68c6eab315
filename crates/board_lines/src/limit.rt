//! The limits of a board. A fault names a limit by its number.
ghost use Rattle.std.specs.Prelude.{◌≡◌};
ghost use Rattle.board_lines.specs.BoardLimits.{limit_number, limit_name};

/// A limit that the files of a board can exceed.
#[derive(Clone, Copy)]
pub enum Limit {
    /// The number of parts in the chain.
    ChainParts,
    /// The number of bits of a data scan of the whole chain.
    BoundaryBits,
    /// The number of nets.
    Nets,
    /// The number of different pins in the nets.
    Pins,
}

impl Limit {
    /// Returns the number, from 1 to 4, by which a fault names the limit.
    pub fn number(self) -> u32
        ensures { result ≡ limit_number self }
    {
        match self {
            Limit::ChainParts => 1,
            Limit::BoundaryBits => 2,
            Limit::Nets => 3,
            Limit::Pins => 4,
        }
    }
}

/// Returns what the limit with this number counts. For a number other than 1 to 4, returns `pins`.
pub fn limit_name(number: u32) -> &'static str
    ensures { result.now ≡ limit_name number }
{
    if number == Limit::ChainParts.number() {
        "chain parts"
    } else if number == Limit::BoundaryBits.number() {
        "boundary bits"
    } else if number == Limit::Nets.number() {
        "nets"
    } else {
        "pins"
    }
}

// The limits of devices and boards. `specs/Limits.antt` defines the same values.

/// The largest number of bits of an instruction register.
pub const MOST_INSTRUCTION_BITS: u32 = 255;

/// The largest number of parts of a chain.
pub const MOST_PARTS: usize = 255;

/// The largest number of bits of a data scan. A device also has at most this number of boundary cells and of port bits.
pub const MOST_BITS: u32 = 65_535;

/// The largest number of nets of a board.
pub const MOST_NETS: usize = 16_382;

/// The largest number of pins of all nets of a board together.
pub const MOST_PINS: usize = 65_535;

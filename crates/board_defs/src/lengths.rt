// The lengths of the chain's registers.
ghost use Rattle.std.specs.Prelude.{◌≡◌, ◌<◌, ◌^◌, sum_by};
ghost use Rattle.board_defs.specs.Pins.{instruction_length, data_length};

use crate::board::{Part, PartKind};

impl PartKind {
    /// Returns the length of the part's instruction register, in bits.
    pub fn instruction_length(&self) -> u32
        ensures { result ≡ instruction_length self.now }
    {
        match self {
            PartKind::Described(device) => device.raw().ir,
            PartKind::Bypass(length) => *length,
        }
    }

    /// Returns the length of the part's boundary register. For a part without a description, returns 1, the length of
    /// the bypass register.
    pub fn data_length(&self) -> u32
        ensures { result ≡ data_length self.now }
    {
        match self {
            PartKind::Described(device) => device.raw().boundary,
            PartKind::Bypass(_) => 1,
        }
    }
}

pub(crate) fn instruction_bits(chain: &[Part]) -> u32
    requires { sum_by (λ part. instruction_length part.kind) chain.now < 2 ^ 32 }
    ensures { result ≡ sum_by (λ part. instruction_length part.kind) chain.now }
{
    let mut bits = 0;
    for part in chain {
        bits += part.kind.instruction_length();
    }
    bits
}

pub(crate) fn data_bits(chain: &[Part]) -> u32
    requires { sum_by (λ part. data_length part.kind) chain.now < 2 ^ 32 }
    ensures { result ≡ sum_by (λ part. data_length part.kind) chain.now }
{
    let mut bits = 0;
    for part in chain {
        bits += part.kind.data_length();
    }
    bits
}

// The effect of a single fault on the compared cells of a net in the rows of a pass.
ghost use Rattle.std.specs.Prelude.{◌≡◌, ◌==◌, ◌||◌, unwrap_or};
ghost use Rattle.tap_defs.specs.board.NetBits.{bit_or_else};
ghost use Rattle.tap_defs.specs.board.SingleBits.{shorted};
ghost use Rattle.fault_sim.specs.Effects.{open_effect, shorted_effect, effect_of_short, effect_of, effect_in, effect_bit, first_net, second_net};
ghost use Rattle.fault_sim.specs.Planned.{controls_of};

use crate::feed::{FedNet, Feed, feed_bit};
use crate::passes::TestPass;
use board_defs::{Kind, Single};

/// The bits that the compared cells of a net have in the rows of a pass.
#[derive(Clone, Copy)]
pub enum Effect {
    /// The expected bits.
    Plain,
    /// One bit, which all cells have in all rows.
    Constant(bool),
    /// The expected bits, except at the cells of one pin, which have `bit` in all rows. `place` is the index
    /// of this pin in the net's list of pins.
    AtPin {
        place: u32,
        bit: bool,
    },
    /// The common bit of two shorted nets in each row. If at least one of the nets is driven, the common bit
    /// follows from `kind` and the driven bits. If neither net is driven, it is `pull`, or the expected bit
    /// if `pull` is `None`.
    Shorted {
        kind: Kind,
        first: Option<Feed>,
        second: Option<Feed>,
        pull: Option<bool>,
    },
}

/// Returns the first net of a short, or the only net of any other fault.
pub fn first_net(fault: Single) -> u32
    ensures { result ≡ first_net fault }
{
    match fault {
        Single::StuckNet { net, .. } => net,
        Single::OpenPin { pin, .. } => pin.net,
        Single::Short { a, .. } => a,
    }
}

/// Returns the second net of a short, or the only net of any other fault.
pub fn second_net(fault: Single) -> u32
    ensures { result ≡ second_net fault }
{
    match fault {
        Single::StuckNet { net, .. } => net,
        Single::OpenPin { pin, .. } => pin.net,
        Single::Short { b, .. } => b,
    }
}

fn combined(kind: Kind, first: bool, second: bool) -> bool
    ensures { Some result ≡ shorted kind (Some first) (Some second) }
{
    match kind {
        Kind::And => first && second,
        Kind::Or => first || second,
        Kind::First => first,
        Kind::Second => second,
    }
}

/// Returns the common bit of two shorted nets, given the bit of each net alone. If only one net has a bit, returns this bit. If neither net
/// has a bit, returns `None`.
pub fn shorted(kind: Kind, first: Option<bool>, second: Option<bool>) -> Option<bool>
    ensures { result ≡ shorted kind first second }
{
    match first {
        None => second,
        Some(a) => match second {
            None => first,
            Some(b) => Some(combined(kind, a, b)),
        },
    }
}

fn open_effect(driver: Option<u32>, place: u32, value: bool, pull: Option<bool>) -> Effect
    ensures { result ≡ open_effect driver place value pull }
{
    match driver {
        None => Effect::AtPin { place, bit: value },
        Some(driver) => {
            if driver == place {
                Effect::Constant(pull.unwrap_or(value))
            } else {
                Effect::AtPin { place, bit: value }
            }
        }
    }
}

// Returns the effect of a short on its two nets.
fn shorted_effect(kind: Kind, first: FedNet, second: FedNet) -> Effect
    ensures { result ≡ shorted_effect kind first second }
{
    Effect::Shorted {
        kind,
        first: first.feed,
        second: second.feed,
        pull: shorted(kind, first.pull, second.pull),
    }
}

impl<'a> TestPass<'a> {
    fn effect_of_short(&self, a: u32, b: u32, kind: Kind) -> Effect
        ensures { result
            ≡ effect_of_short self.now.test.board self.now.test.plan (controls_of self.now) a b
            kind }
    {
        shorted_effect(kind, self.fed(a), self.fed(b))
    }

    fn effect_of(&self, fault: Single, n: u32) -> Effect
        ensures { result
            ≡ effect_of self.now.test.board self.now.test.plan (controls_of self.now) fault n }
    {
        match fault {
            Single::StuckNet { net, value } => {
                if n == net {
                    Effect::Constant(value)
                } else {
                    Effect::Plain
                }
            }
            Single::OpenPin { pin, value } => {
                if n == pin.net {
                    let driver = self.driver_place(n);
                    open_effect(driver, pin.place, value, self.pull(n))
                } else {
                    Effect::Plain
                }
            }
            Single::Short { a, b, kind } => {
                if n == a || n == b {
                    self.effect_of_short(a, b, kind)
                } else {
                    Effect::Plain
                }
            }
        }
    }

    /// Returns the effect of a fault on net `n` in the rows of the pass. Without a fault, the cells have the expected bits.
    pub fn effect(&self, fault: Option<Single>, n: u32) -> Effect
        ensures { result
            ≡ effect_in self.now.test.board self.now.test.plan (controls_of self.now) fault n }
    {
        match fault {
            None => Effect::Plain,
            Some(fault) => self.effect_of(fault, n),
        }
    }
}

// Returns the common bit of two shorted nets in a row. `first` and `second` are the bits to which the nets
// are driven in this row. If neither net is driven, returns `pull`, or `expected` if `pull` is `None`.
fn short_bit(
    kind: Kind,
    first: Option<bool>,
    second: Option<bool>,
    pull: Option<bool>,
    expected: bool,
) -> bool
    ensures { result ≡ unwrap_or (bit_or_else (shorted kind first second) pull) expected }
{
    match shorted(kind, first, second) {
        None => pull.unwrap_or(expected),
        Some(bit) => bit,
    }
}

/// Returns the bit that an effect gives the compared cells of one of the net's pins in row `j` of a pass.
/// `place` is the index of the pin in the net's list of pins. `expected` is the bit that the test expects.
#[inline]
pub fn effect_bit(effect: Effect, j: u32, place: u32, expected: bool) -> bool
    ensures { result ≡ effect_bit effect j place expected }
{
    match effect {
        Effect::Plain => expected,
        Effect::Constant(bit) => bit,
        Effect::AtPin { place: other, bit } => { if place == other { bit } else { expected } }
        Effect::Shorted {
            kind,
            first,
            second,
            pull,
        } => short_bit(
            kind,
            feed_bit(first, j),
            feed_bit(second, j),
            pull,
            expected,
        ),
    }
}

//! Integers of 1 to 9 digits.
ghost use Rattle.std.specs.Prelude.{◌≡◌};
ghost use Rattle.grammars.specs.Values.{some_if, upper, is_integer, digits_value};

use grammars::{decimal_of, is_short_number};

/// Returns the number that the bytes spell, or None if they are not 1 to 9 digits.
#[tactic(auto, using(crate::proofs::Integers::integer_upper, crate::proofs::Integers::decimal_upper))]
pub(crate) fn integer_in(bytes: &[u8]) -> Option<u32>
    ensures { result ≡ some_if (is_integer (upper bytes.now)) (digits_value (upper bytes.now)) }
{
    if is_short_number(bytes) {
        Some(decimal_of(bytes))
    } else {
        None
    }
}

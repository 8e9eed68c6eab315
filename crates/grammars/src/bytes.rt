//! The meaning of a token's bytes. The case of letters does not matter.
ghost use Rattle.std.specs.Prelude.{◌≡◌, IsTrue, nat_eq, zip};
ghost use Rattle.std.specs.List.{list_all};
ghost use Rattle.std.specs.Str.{bytes_eq};
ghost use Rattle.std.specs.Char.{is_ascii_digit, to_ascii_uppercase};
ghost use Rattle.grammars.specs.Values.{upper, is_integer, digits_value};

fn are_digits(bytes: &[u8]) -> bool
    ensures { result ≡ list_all is_ascii_digit bytes.now }
{
    bytes.iter().all(|byte| byte.is_ascii_digit())
}

/// Returns whether the bytes are 1 to 9 decimal digits.
pub fn is_short_number(bytes: &[u8]) -> bool
    ensures { result ≡ is_integer bytes.now }
{
    !bytes.is_empty() && bytes.len() <= 9 && are_digits(bytes)
}

/// Returns the number that decimal digits spell. There must be 1 to 9 digits.
pub fn decimal_of(digits: &[u8]) -> u32
    requires { IsTrue (is_integer digits.now) }
    ensures { result ≡ digits_value digits.now }
{
    let mut number = 0u32;
    for digit in digits {
        number = 10 * number + (digit - b'0') as u32;
    }
    number
}

fn each_agrees(bytes: &[u8], name: &[u8]) -> bool
    ensures { result
        ≡ list_all (λ pair. nat_eq (to_ascii_uppercase pair.0) pair.1) (zip bytes.now name.now) }
{
    bytes
        .iter()
        .zip(name)
        .all(|(byte, letter)| byte.to_ascii_uppercase() == *letter)
}

/// Returns whether the bytes are `name` if their lower-case letters are changed to upper case.
#[tactic(auto, using(crate::proofs::Spelled::differs))]
pub fn spells(bytes: &[u8], name: &[u8]) -> bool
    ensures { result ≡ bytes_eq (upper bytes.now) name.now }
{
    if bytes.len() == name.len() {
        each_agrees(bytes, name)
    } else {
        false
    }
}

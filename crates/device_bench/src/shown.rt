// Functions that append names and codes to a text, in the form in which the cases write them.
use board_defs::{Code, Symbol};
use std::alloc::AllocError;

/// Appends the bytes of a name or a token, or `?` if they are not valid UTF-8.
pub fn add_bytes(bytes: &[u8], shown: &mut String) -> Result<(), AllocError> {
    match std::str::from_utf8(bytes) {
        Ok(text) => shown.push_str(text),
        Err(_) => shown.push_str("?"),
    }
}

/// Appends the symbols in the order of a BSDL string: the symbol nearest TDO is last.
pub fn add_code(code: &Code, shown: &mut String) -> Result<(), AllocError> {
    for symbol in code.symbols().iter().rev() {
        match symbol {
            Symbol::Zero => shown.push_str("0")?,
            Symbol::One => shown.push_str("1")?,
            Symbol::Any => shown.push_str("X")?,
        }
    }
    Ok(())
}

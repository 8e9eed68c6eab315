// Names, whose values in contracts are lists of bytes.
ghost use Rattle.std.specs.Prelude.{◌≡◌, ℕ, List, IfOk, map};
ghost use Rattle.std.specs.Char.{to_ascii_uppercase};
ghost use Rattle.board_defs.specs.NameBytes.{kept_bytes};

use std::alloc::{AllocError, Global};
use std::marker::Model;

/// The largest number of bytes that a name holds without memory of its own. A board has many names, and most
/// of them are no longer than this.
const SHORT: usize = 24;

// The bytes of a name. `Short` holds at most 24 bytes in the value itself: they are the first `length` bytes
// of `bytes`. `Long` holds any number of bytes in memory of its own.
#[derive(Debug, Drop)]
enum Kept {
    Short { bytes: [u8; SHORT], length: u8 },
    Long(Vec<u8>),
}

/// A name. Its value in contracts is the list of its bytes.
#[derive(Debug, Drop)]
pub struct Name {
    kept: Kept,
}

impl Model for Name {
    ghost use Rattle.std.specs.Prelude.{List, ℕ};
    ghost use Rattle.board_defs.specs.NameBytes.{kept_bytes, FitsInPlace};

    ghost Value = { List ℕ };

    ghost view = { λ a. kept_bytes a.kept };

    ghost invariant = { λ a. FitsInPlace a.kept };
}

impl Name {
    /// Returns a name with a copy of these bytes.
    pub fn of(alloc: Global, bytes: &[u8]) -> Result<Name, AllocError>
        ensures { IfOk result (λ name. name ≡ bytes.now) }
    {
        if bytes.len() > SHORT {
            return Ok(Name::from_vec(Vec::from_slice(alloc, bytes)?));
        }
        let mut short = [0; SHORT];
        short[..bytes.len()].copy_from_slice(bytes);
        Ok(Name {
            kept: Kept::Short {
                bytes: short,
                length: bytes.len() as u8,
            },
        })
    }

    /// Returns a copy of the name. Fails only if memory runs out.
    pub fn copy(&self, alloc: Global) -> Result<Name, AllocError>
        ensures { IfOk result (λ name. name ≡ self.now) }
    {
        Name::of(alloc, self.bytes())
    }

    /// Returns a name with a copy of these bytes, in which lower-case ASCII letters are changed to upper case.
    pub fn in_upper_case(alloc: Global, bytes: &[u8]) -> Result<Name, AllocError>
        ensures { IfOk result (λ name. name ≡ map to_ascii_uppercase bytes.now) }
    {
        if bytes.len() > SHORT {
            let mut long = Vec::from_slice(alloc, bytes)?;
            long.as_mut_slice().make_ascii_uppercase();
            return Ok(Name::from_vec(long));
        }
        let mut short = [0; SHORT];
        short[..bytes.len()].copy_from_slice(bytes);
        short[..bytes.len()].make_ascii_uppercase();
        Ok(Name {
            kept: Kept::Short {
                bytes: short,
                length: bytes.len() as u8,
            },
        })
    }

    /// Returns the name with these bytes. Takes ownership of the vector.
    pub fn from_vec(bytes: Vec<u8>) -> Name
        ensures { result ≡ bytes.items }
    {
        Name {
            kept: Kept::Long(bytes),
        }
    }

    /// Returns the bytes of the name.
    pub fn bytes(&self) -> &[u8]
        ensures { result.now ≡ self.now }
    {
        match &self.kept {
            Kept::Short { bytes, length } => &bytes[..usize::from(*length)],
            Kept::Long(bytes) => bytes.as_slice(),
        }
    }
}

// Borrowed lists and texts. Each has fewer than 2^32 items or bytes.
ghost use Rattle.std.specs.Prelude.{◌<◌, ◌^◌, All, length};

use std::alloc::AllocError;

/// A borrowed list of fewer than 2^32 items.
pub struct ShortSlice<'a, T> {
    pub items: &'a [T],
    ghost short: { length items.now < 2 ^ 32 },
}

impl<'a, T> Clone for ShortSlice<'a, T> {
    fn clone(&self) -> Result<Self, AllocError> {
        Ok(*self)
    }
}

impl<'a, T> Copy for ShortSlice<'a, T> {}

/// A borrowed text of fewer than 2^32 bytes.
pub type TextSlice<'a> = ShortSlice<'a, u8>;

/// A borrowed list of fewer than 2^32 texts of fewer than 2^32 bytes each.
#[derive(Clone, Copy)]
pub struct TextList<'a> {
    pub items: &'a [Vec<u8>],
    ghost each: { All (λ text. length text.items < 2 ^ 32) items.now },
    ghost few: { length items.now < 2 ^ 32 },
}

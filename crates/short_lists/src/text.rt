// Texts of fewer than 2^32 bytes.
ghost use Rattle.std.specs.Prelude.{◌≡◌, ◌<◌, ◌^◌, All, length, map};

use crate::slice::{ShortSlice, TextSlice};
use std::marker::Model;

/// A text of fewer than 2^32 bytes.
#[derive(Drop)]
pub struct ShortText {
    bytes: Vec<u8>,
}

impl Model for ShortText {
    ghost use Rattle.std.specs.Prelude.{ℕ, ◌<◌, ◌^◌, List, length};

    ghost Value = { List ℕ };

    ghost view = { λ t. t.bytes.items };

    ghost invariant = { λ t. length t.bytes.items < 2 ^ 32 };
}

impl ShortText {
    /// Creates a text with these bytes. There must be fewer than 2^32 bytes.
    pub fn of(bytes: Vec<u8>) -> ShortText
        requires { length bytes.items < 2 ^ 32 }
        ensures { result ≡ bytes.items }
    {
        ShortText { bytes }
    }

    /// Returns the bytes of the text.
    pub fn as_bytes(&self) -> &[u8]
        ensures bytes { result.now ≡ self.now }
        ensures short { length result.now < 2 ^ 32 }
    {
        &self.bytes
    }

    /// Borrows the text.
    pub fn as_slice(&self) -> TextSlice<'_>
        ensures { result.items.now ≡ self.now }
    {
        ShortSlice { items: &self.bytes }
    }

    /// Consumes the text and returns its bytes.
    pub fn into_bytes(self) -> Vec<u8>
        ensures bytes { result.items ≡ self }
        ensures short { length result.items < 2 ^ 32 }
    {
        self.bytes
    }
}

/// Fewer than 2^32 texts of fewer than 2^32 bytes each.
#[derive(Drop)]
pub struct ShortTexts {
    texts: Vec<Vec<u8>>,
}

impl Model for ShortTexts {
    ghost use Rattle.std.specs.Prelude.{ℕ, ◌<◌, ◌^◌, All, List, length, map};

    ghost Value = { List (List ℕ) };

    ghost view = { λ t. map (λ text. text.items) t.texts.items };

    ghost invariant = { λ t. All (λ text. length text.items < 2 ^ 32) t.texts.items
        × (length t.texts.items < 2 ^ 32) };
}

impl ShortTexts {
    /// Takes ownership of these texts. There must be fewer than 2^32 texts, and each must have
    /// fewer than 2^32 bytes.
    pub fn of(texts: Vec<Vec<u8>>) -> ShortTexts
        requires each { All (λ text. length text.items < 2 ^ 32) texts.items }
        requires few { length texts.items < 2 ^ 32 }
        ensures { result ≡ map (λ text. text.items) texts.items }
    {
        ShortTexts { texts }
    }

    /// Returns the texts in order.
    pub fn as_slice(&self) -> &[Vec<u8>]
        ensures texts { map (λ text. text.items) result.now ≡ self.now }
        ensures each { All (λ text. length text.items < 2 ^ 32) result.now }
        ensures few { length result.now < 2 ^ 32 }
    {
        &self.texts
    }
}

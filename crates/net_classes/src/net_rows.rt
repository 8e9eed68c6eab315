// Rows of bits with one bit for each net.
ghost use Rattle.std.specs.Prelude.{◌≡◌, ◌≢◌, ◌<◌, ◌+◌, ◌/◌, ℕ, Bool, length, replicate, slice_index, IfOk};
ghost use Rattle.net_classes.specs.NetRows.{AreRowBits};

use crate::words::put_bit;
use std::alloc::{AllocError, Global};
use std::marker::Model;

/// A bit for each net, 64 to a word. Its value in contracts is the list of its words.
#[derive(Drop)]
pub struct NetRow {
    words: Vec<u64>,
}

impl Model for NetRow {
    ghost use Rattle.std.specs.Prelude.{List, ℕ};

    ghost Value = { List ℕ };

    ghost view = { λ a. a.words.items };
}

impl NetRow {
    /// Returns a row for `nets` nets with all bits 0.
    pub(crate) fn blank(alloc: Global, nets: usize) -> Result<NetRow, AllocError>
        ensures { IfOk result (λ row. row ≡ replicate (nets / 64 + 1) 0) }
    {
        let words = vec![in alloc; 0; nets / 64 + 1]?;
        Ok(NetRow { words })
    }

    pub(crate) fn copy(&self) -> Result<NetRow, AllocError>
        ensures { IfOk result (λ row. row ≡ self.now) }
    {
        let words = self.words.clone()?;
        Ok(NetRow { words })
    }

    /// Returns the word with this number, or 0 past the last word.
    pub(crate) fn word(&self, number: usize) -> u64
        ensures { result ≡ slice_index self.now number }
    {
        match self.words.get(number) {
            None => 0,
            Some(word) => *word,
        }
    }

    /// Sets the bit of the net if `on` is true, and clears it if not. The row must have a bit for the net.
    pub(crate) fn put(&mut self, net: u32, on: bool)
        requires { net / 64 < length self.old }
        ensures bits { (before after : ℕ → Bool) → AreRowBits before self.old → after net ≡ on
            → ((n : ℕ) → n ≢ net → after n ≡ before n) → AreRowBits after self.new }
        ensures size { length self.new ≡ length self.old }
    {
        let number = (net / 64) as usize;
        self.words[number] = put_bit(self.words[number], net, on);
    }
}

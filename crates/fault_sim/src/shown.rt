// The bits that the compared cells of a net show in the rows of a pass of a log, as words of 32 bits. A cell
// shows the bit that the log has at its position. Bit `j` of a word belongs to row `j` of the pass. No pass
// observes a guarded net, for example a net that carries a supply.
ghost use Rattle.std.specs.Prelude.{◌≡◌, ◌↔◌, ℕ, ◌+◌, ◌<◌, ◌==◌, ◌&&◌, ◌||◌, nat_lt, Some, [], ◌∷◌, length, All, IsTrue};
ghost use Rattle.response_log.specs.LogRows.{bit_in};
ghost use Rattle.fault_sim.specs.Planned.{net_in_pass};
ghost use Rattle.fault_sim.specs.inner.NetRows.{rows_of_net};
ghost use Rattle.fault_sim.specs.inner.Telling.{IsShownIn};
ghost use Rattle.fault_sim.specs.inner.Words.{AgreesWith, AreShown, word_bit};

use crate::net_rows::NetRows;
use crate::passes::LoggedPass;
use scan_planner::ReaderCell;

/// The rows of a pass in which some compared cell of a net shows 1, and the rows in which some compared cell
/// shows 0. A row can be in both words. Cells that read the enabled driver's pin are not counted.
#[derive(Clone, Copy)]
pub struct ShownWords {
    pub ones: u32,
    pub zeros: u32,
}

impl ShownWords {
    /// Returns whether, in every row, each bit that a counted cell shows is the bit of `word` for this row.
    #[inline]
    pub fn agree_with(&self, word: u32) -> bool
        ensures { IsTrue result ↔ AgreesWith self.now word }
    {
        (self.ones & !word) | (self.zeros & word) == 0
    }
}

// Returns the word in which bits `0..width` are set, one for each row of a pass. `width` must be below 32.
fn first_rows(width: u32) -> u32
    requires { width < 32 }
    ensures { (j : ℕ) → word_bit result j ≡ nat_lt j width }
{
    (1 << width) - 1
}

// Returns `word`, with bit `j` set if `bit` is true, and unchanged if `bit` is false. `j` must be below 32.
#[inline]
fn with_row(word: u32, j: u32, bit: bool) -> u32
    requires { j < 32 }
    ensures { (i : ℕ) → i < 32 → word_bit result i ≡ (word_bit word i || ((i == j) && bit)) }
{
    if bit { word | 1 << j } else { word }
}

// Returns the rows in which a cell of `one` or a cell of `other` shows 1, and the rows in which such a cell shows 0.
fn joined(one: ShownWords, other: ShownWords) -> ShownWords
    ensures ones { (j : ℕ)
        → word_bit result.ones j ≡ (word_bit one.ones j || word_bit other.ones j) }
    ensures zeros { (j : ℕ)
        → word_bit result.zeros j ≡ (word_bit one.zeros j || word_bit other.zeros j) }
{
    ShownWords {
        ones: one.ones | other.ones,
        zeros: one.zeros | other.zeros,
    }
}

impl<'a> NetRows<'a> {
    // Returns the bits of the cell at position `at` in the rows of the pass, as a word. Each row of the log must have a bit at `at`.
    fn cell_word(&self, at: u32) -> u32
        requires { All (λ row. at < length row) self.now.log }
        ensures { (j : ℕ) → j < 32
            → word_bit result j
            ≡ (nat_lt j self.now.width && bit_in self.now.log (self.now.first + j) at) }
    {
        let mut word = 0;
        for j in 0..self.width {
            word = with_row(word, j, self.log.bit(self.first + u64::from(j), at));
        }
        word
    }

    // Returns the rows in which one cell shows 1, and the rows in which it shows 0. Both words are 0 if the cell reads the driver's pin.
    // Each row of the log must have a bit at the cell's position.
    fn cell_words(&self, reader: ReaderCell, driver: u32) -> ShownWords
        requires { All (λ row. reader.position < length row) self.now.log }
        ensures { AreShown (rows_of_net self.now.log self.now.first self.now.width (reader ∷ []))
            (Some driver) result }
    {
        if reader.place == driver {
            return ShownWords { ones: 0, zeros: 0 };
        }
        let word = self.cell_word(reader.position);
        ShownWords {
            ones: word,
            zeros: first_rows(self.width) & !word,
        }
    }

    // Returns the rows in which some cell shows 1, and the rows in which some cell shows 0. Cells that read the driver's pin are not
    // counted.
    fn shown_beside(&self, driver: u32) -> ShownWords
        ensures { AreShown self.now (Some driver) result }
    {
        let mut shown = ShownWords { ones: 0, zeros: 0 };
        for reader in self.readers {
            shown = joined(shown, self.cell_words(*reader, driver));
        }
        shown
    }

    // Like `shown_beside`, but `driver` is `None` if the pass enables no driver on the net or the net is
    // guarded. In this case both words are 0.
    fn shown(&self, driver: Option<u32>) -> ShownWords
        ensures { AreShown self.now driver result }
    {
        match driver {
            None => ShownWords { ones: 0, zeros: 0 },
            Some(place) => self.shown_beside(place),
        }
    }
}

impl<'a> LoggedPass<'a> {
    /// Returns the rows of the pass in which some compared cell of a net shows 1, and the rows in which some
    /// compared cell shows 0. Both words are 0 if the pass enables no driver on the net or the net is
    /// guarded. Cells that read the enabled driver's pin are not counted.
    pub fn shown(&self, net: u32) -> ShownWords
        ensures { IsShownIn (net_in_pass self.now net) result }
    {
        self.net_rows(net).shown(self.pass.driver_place(net))
    }
}

// Rows into which a plan writes the codes of nets: all rows of a pass side by side, a single row, or no rows.
ghost use Rattle.std.specs.Prelude.{◌≡◌, ◌<◌, ℕ, Bool, false, List, [], length, slice_set};
ghost use Rattle.std.specs.Borrow.{GName};
ghost use Rattle.bt_bits.specs.Stacks.{column_bit, stacked};
ghost use Rattle.tap_defs.specs.board.TestRows.{code_bit};

use bt_bits::{Column, Row, RowStack};
use counting_codes::bit;

/// Rows of equal length into which the codes of nets are written. Row `j` gets bit `j` of each code. One call writes one position of
/// all rows.
pub trait CodeRows {
    /// The bits of the rows at one position.
    type Column: Copy;

    // The property of the rows that no write changes, such as their room.
    ghost Kind: { Type 0 };

    ghost kind: { Self → Kind };

    // True if there is a row with this number.
    ghost shows: { Kind → ℕ → Type 0 };

    // The bits of the row with this number.
    ghost bits: { Self → ℕ → List Bool };

    // The bit of a column in the row with this number.
    ghost bit_in: { Self.Column → ℕ → Bool };

    /// Returns the column that has bit `j` of `number` in row `j`. Bit 0 is the lowest bit.
    fn code(&self, number: u32) -> Self::Column
        ensures { (j : ℕ) → shows (kind self.now) j → bit_in result j ≡ code_bit number j };

    /// Returns the column that has this bit in every row.
    fn same(&self, bit: bool) -> Self::Column
        ensures { (j : ℕ) → shows (kind self.now) j → bit_in result j ≡ bit };

    /// Writes a column at a position. Ignores a position past the end.
    fn put(&mut self, position: u32, column: Self::Column)
        ensures kind { kind self.new ≡ kind self.old }
        ensures bits { (j : ℕ) → shows (kind self.old) j
            → bits self.new j ≡ slice_set (bits self.old j) position (bit_in column j) };
}

impl CodeRows for RowStack {
    type Column = Column;

    ghost Kind = { ℕ };

    ghost kind = { λ rows. rows.room };

    ghost shows = { λ _ j. j < 16 };

    ghost bits = { stacked };

    ghost bit_in = { column_bit };

    #[inline]
    fn code(&self, number: u32) -> Column {
        Column::of(number)
    }

    #[inline]
    fn same(&self, bit: bool) -> Column {
        Column::of_bit(bit)
    }

    #[inline]
    fn put(&mut self, position: u32, column: Column) {
        self.set(position, column);
    }
}

/// Sets one bit of a row. Ignores a position past the end.
#[inline]
pub fn set_within(row: &mut Row, position: u32, bit: bool)
    ensures bits { row.new.bits ≡ slice_set row.old.bits position bit }
    ensures room { row.new.room ≡ row.old.room }
{
    if position < row.len() {
        row.set(position, bit);
    }
}

/// A single row: row `number` of a pass, which gets bit `number` of each code.
#[derive(Drop)]
pub struct RowAt<'a> {
    pub row: &'a mut Row,
    pub number: u32,
    ghost few: { number < 32 },
}

impl CodeRows for RowAt<'_> {
    type Column = bool;

    ghost Kind = { GName × (ℕ × ℕ) };

    ghost kind = { λ at. (at.row.ghost_name, (at.number, at.row.now.room)) };

    ghost shows = { λ kind j. j ≡ kind.1.0 };

    ghost bits = { λ at _. at.row.now.bits };

    ghost bit_in = { λ bit _. bit };

    #[inline]
    fn code(&self, number: u32) -> bool {
        bit(number, self.number)
    }

    #[inline]
    fn same(&self, bit: bool) -> bool {
        bit
    }

    #[inline]
    fn put(&mut self, position: u32, column: bool) {
        set_within(self.row, position, column);
    }
}

/// No rows. Ignores every write.
#[derive(Drop)]
pub struct NoRows;

impl CodeRows for NoRows {
    type Column = ();

    ghost Kind = { Unit {0} };

    ghost kind = { λ _. tt };

    ghost shows = { λ _ _. ⊥ };

    ghost bits = { λ _ _. [] };

    ghost bit_in = { λ _ _. false };

    #[inline]
    fn code(&self, _number: u32) {}

    #[inline]
    fn same(&self, _bit: bool) {}

    #[inline]
    fn put(&mut self, _position: u32, _column: ()) {}
}

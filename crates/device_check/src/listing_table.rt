//! A table of the entries of consecutive cells, with one place for each cell.
ghost use Rattle.std.specs.Prelude.{◌≡◌, ◌==◌, ◌<◌, ◌≤◌, ◌+◌, ℕ, [], ◌∷◌, ◌++◌, length, map, slice_index_or, if◌then◌else◌};
ghost use Rattle.std.specs.List.{range_with_len};
ghost use Rattle.device_check.specs.DeviceText.{entries_of_cell};
ghost use Rattle.device_check.specs.inner.ListingForms.{entries_in};

use board_defs::Cell;

/// The entries of a cell: none, one or two.
#[derive(Clone, Copy)]
pub enum Entries {
    Nothing,
    One(Cell),
    Two(Cell, Cell),
}

impl Entries {
    /// Returns these entries followed by another entry. There must be fewer than two entries.
    fn and(self, cell: Cell) -> Entries
        requires { length (entries_in self) < 2 }
        ensures { entries_in result ≡ entries_in self ++ cell ∷ [] }
    {
        match self {
            Entries::Nothing => Entries::One(cell),
            Entries::One(first) => Entries::Two(first, cell),
            Entries::Two(..) => unreachable!(),
        }
    }
}

/// Adds an entry to the place of its cell, if the table has one. Place `k` of the table belongs to
/// cell `from + k`. The cell's place must have fewer than two entries.
fn add_entry(cell: Cell, from: u32, table: &mut [Entries])
    requires { (k : ℕ) → k < length table.old → cell.num ≡ from + k
        → length (entries_in (slice_index_or table.old k Entries.Nothing)) < 2 }
    ensures length { length table.new ≡ length table.old }
    ensures entries { (k : ℕ) → k < length table.old
        → entries_in (slice_index_or table.new k Entries.Nothing)
        ≡ entries_in (slice_index_or table.old k Entries.Nothing) ++ (if cell.num == from + k then cell ∷ [] else []) }
{
    if cell.num < from {
        return;
    }
    let at = (cell.num - from) as usize;
    if at < table.len() {
        table[at] = table[at].and(cell);
    }
}

/// Empties each place of a table.
fn clear(table: &mut [Entries])
    ensures length { length table.new ≡ length table.old }
    ensures nothing { (k : ℕ) → k < length table.new
        → slice_index_or table.new k Entries.Nothing ≡ Entries.Nothing }
{
    for at in 0..table.len() {
        table[at] = Entries::Nothing;
    }
}

/// Fills a table with the entries of cells `from`, `from + 1` and so on, one cell for each place.
/// No cell may have more than two entries.
pub fn fill_entries(cells: &[Cell], from: u32, table: &mut [Entries])
    requires { (num : ℕ) → length (entries_of_cell num cells.now) ≤ 2 }
    ensures { map entries_in table.new
        ≡ map (λ num. entries_of_cell num cells.now) (range_with_len from (length table.old)) }
{
    clear(table);
    for cell in cells {
        add_entry(*cell, from, table);
    }
}

// Marks of the hexadecimal digits of a log's rows. A digit is marked if, in some row, a compared bit of this digit is not the expected bit.
ghost use Rattle.std.specs.Prelude.{◌≡◌, ℕ, ◌<◌, length, slice_index_or, IfOk};
ghost use Rattle.std.specs.Int.Bits.{bit_and, bit_xor};
ghost use Rattle.board_defs.specs.Pins.{data_bits};
ghost use Rattle.bt_bits.specs.Hex.{digit_count};
ghost use Rattle.fault_sim.specs.Kept.{IsComparedRow};
ghost use Rattle.fault_sim.specs.inner.Marks.{HasScanRoom, MarkRow, MarkRows, AreMarks, are_marked};

use crate::board_test::LoggedTest;
use crate::kept::{ComparedRow, empty_row};
use crate::passes::LoggedPass;
use bt_bits::digit_count;
use scan_planner::ReaderCell;
use std::alloc::{AllocError, Global};

// Marks each digit in which `log` and `expected` differ at a bit that is 1 in `compared`. Clears no mark. All slices must have the same
// length.
fn mark_digits(marks: &mut [u8], log: &[u8], expected: &[u8], compared: &[u8])
    requires log { length log.now ≡ length marks.old }
    requires expected { length expected.now ≡ length marks.old }
    requires compared { length compared.now ≡ length marks.old }
    ensures { (k : ℕ) → k < length marks.old → slice_index_or marks.new k 0 ≡ 0
        → (slice_index_or marks.old k 0 ≡ 0)
        × (bit_and (bit_xor (slice_index_or log.now k 0) (slice_index_or expected.now k 0))
        (slice_index_or compared.now k 0) ≡ 0) }
{
    for k in 0..marks.len() {
        marks[k] |= (log[k] ^ expected[k]) & compared[k];
    }
}

impl<'a> LoggedPass<'a> {
    // Marks each digit in which a compared bit of row `j` of the pass is not the expected bit. `row` must have the expected bits of this
    // row and the positions at which they are compared. `j` must be below the number of rows of a pass. `marks` must have one item for each
    // digit of a row.
    fn mark_by(&self, marks: &mut [u8], j: u32, row: &ComparedRow)
        requires row { j < self.now.logged.test.plan.width }
        requires count { length marks.old ≡ digit_count (data_bits self.now.logged.test.board) }
        requires compared { IsComparedRow self.now.logged.test.board self.now.logged.test.plan
            self.now.number j row.now }
        ensures { MarkRow self.now.logged.test.board self.now.logged.test.plan self.now.logged.log
            self.now.number j marks.old marks.new }
    {
        let number = self.pass.first_row() + u64::from(j);
        mark_digits(
            marks,
            self.log.digits(number),
            row.tdo.digits(),
            row.mask.digits(),
        );
    }

    // Like `mark_by`, but takes the expected bits of row `j` from the stored rows of the pass. If row `j` is not
    // stored, fills `spare` with these bits. `spare` must have room for a data scan.
    fn mark_row(&self, marks: &mut [u8], spare: &mut ComparedRow, j: u32)
        requires row { j < self.now.logged.test.plan.width }
        requires count { length marks.old ≡ digit_count (data_bits self.now.logged.test.board) }
        requires room { HasScanRoom self.now.logged.test.board spare.old }
        ensures marks { MarkRow self.now.logged.test.board self.now.logged.test.plan
            self.now.logged.log self.now.number j marks.old marks.new }
        ensures room { HasScanRoom self.now.logged.test.board spare.new }
    {
        match self.pass.kept_rows().get(j as usize) {
            Some(row) => self.mark_by(marks, j, row),
            None => {
                self.pass.fill_row(j, spare);
                self.mark_by(marks, j, spare);
            }
        }
    }

    // Marks each digit in which a compared bit of some row of the pass is not the expected bit. `spare` is a buffer for
    // rows that are not stored, and must have room for a data scan. `marks` must have one item for each digit of a row.
    fn mark(&self, marks: &mut [u8], spare: &mut ComparedRow)
        requires count { length marks.old ≡ digit_count (data_bits self.now.logged.test.board) }
        requires room { HasScanRoom self.now.logged.test.board spare.old }
        ensures marks { MarkRows self.now.logged.test.board self.now.logged.test.plan
            self.now.logged.log self.now.number self.now.logged.test.plan.width marks.old
            marks.new }
        ensures room { HasScanRoom self.now.logged.test.board spare.new }
    {
        for j in 0..self.width() {
            self.mark_row(marks, spare, j);
        }
    }

    fn width(&self) -> u32
        ensures { result ≡ self.now.logged.test.plan.width }
    {
        self.pass.plan().width()
    }
}

impl<'a> LoggedTest<'a> {
    /// Returns a mark for each hexadecimal digit of a row. If the mark of a digit is 0, every compared bit of this digit is the expected
    /// bit in all rows of the log. Reads each row once.
    pub(crate) fn marks(&self, alloc: Global) -> Result<Vec<u8>, AllocError>
        ensures { IfOk result
            (λ marks. AreMarks self.now.test.board self.now.test.plan self.now.log
            (length self.now.test.plan.passes) marks.items) }
    {
        let board = self.board();
        let mut spare = empty_row(alloc, board)?;
        let count = digit_count(board.dr_bits() as usize);
        let mut marks = vec![in alloc; 0u8; count]?;
        for x in 0..self.pass_count() {
            let pass = self.pass(x);
            pass.mark(&mut marks, &mut spare);
        }
        Ok(marks)
    }
}

fn mark_at(marks: &[u8], place: u32) -> u8
    ensures { result ≡ slice_index_or marks.now place 0 }
{
    match marks.get(place as usize) {
        None => 0,
        Some(mark) => *mark,
    }
}

/// Returns whether at least one of these cells is at a position whose digit is marked.
pub fn are_marked(marks: &[u8], readers: &[ReaderCell]) -> bool
    ensures { result ≡ are_marked marks.now readers.now }
{
    readers.iter().any(|r| mark_at(marks, r.position / 4) != 0)
}

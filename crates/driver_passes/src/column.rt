// A column: one word of the row of each pass. The row of a pass is the set of the nets that the pass shows, that is,
// the nets of which it enables a tested driver.
ghost use Rattle.std.specs.Prelude.{◌≡◌, ◌∷◌, ◌++◌, List, ℕ, [], IfOk, OnOk};
ghost use Rattle.driver_passes.specs.inner.Shown.{IsColumn, words_at};

use crate::number_set::NumberSet;
use std::alloc::{AllocError, Global};

/// Word `number` of each pass's row. These words are next to each other in memory, so looking up one net in all of them
/// is fast. The rows themselves are far apart. A column belongs to a list of rows if it has word `number` of each row.
#[derive(Drop)]
pub struct Column {
    pub number: usize,
    pub words: Vec<u64>,
}

/// Returns word `number` of each row, or 0 for a row that has no such word.
fn words_of(alloc: Global, rows: &[NumberSet], number: usize) -> Result<Vec<u64>, AllocError>
    ensures { IfOk result (λ words. words.items ≡ words_at number rows.now) }
{
    let mut words = Vec::new(alloc);
    for row in rows {
        words.push(row.word(number))?;
    }
    Ok(words)
}

impl Column {
    /// Returns the column that has word 0 of each row.
    pub fn new(alloc: Global, rows: &[NumberSet]) -> Result<Column, AllocError>
        ensures { IfOk result (IsColumn rows.now) }
    {
        let words = words_of(alloc, rows, 0)?;
        Ok(Column { number: 0, words })
    }

    /// Replaces the words with word `number` of each row, unless the column already has these words. The column must
    /// belong to these rows.
    pub fn look_at(
        &mut self,
        alloc: Global,
        rows: &[NumberSet],
        number: usize,
    ) -> Result<(), AllocError>
        requires { IsColumn rows.now self.old }
        ensures column { OnOk result (IsColumn rows.now self.new) }
        ensures number { OnOk result (self.new.number ≡ number) }
    {
        if self.number != number {
            self.words = words_of(alloc, rows, number)?;
            self.number = number;
        }
        Ok(())
    }

    /// Appends word `number` of `row`. If the column belonged to a list of rows, it now belongs to this list with `row`
    /// appended.
    pub fn add(&mut self, row: &NumberSet) -> Result<(), AllocError>
        ensures { OnOk result ((rows : List (List ℕ)) → IsColumn rows self.old →
            IsColumn (rows ++ row.now ∷ []) self.new) }
    {
        self.words.push(row.word(self.number))?;
        Ok(())
    }
}

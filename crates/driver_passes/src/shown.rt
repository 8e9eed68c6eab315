// Computes the nets that every pass shows, and the nets that no pass shows together with a given net. A pass shows a
// net if it enables a tested driver of the net. The row of a pass is the set of the nets that the pass shows.
ghost use Rattle.std.specs.Prelude.{◌≡◌, ◌<◌, ◌≤◌, ◌/◌, ◌&&◌, ℕ, not, length, slice_index_or};
ghost use Rattle.std.specs.List.{list_all, list_any};
ghost use Rattle.driver_passes.specs.inner.NumberSets.{is_in};
ghost use Rattle.driver_passes.specs.inner.Shown.{shows_both, words_at};

use crate::number_set::{NumberSet, has_bit};

/// Makes `always` the set of the nets that are in every row, as far as `always` has room.
pub fn keep_shown(always: &mut NumberSet, rows: &[NumberSet])
    ensures room { length always.new ≡ length always.old }
    ensures nets { (n : ℕ) → n / 64 < length always.old →
        is_in always.new n ≡ list_all (λ row. is_in row n) rows.now }
{
    always.fill();
    for row in rows {
        always.keep_only(row);
    }
}

/// Removes the nets of the row from `left`, from word `a / 64` on, if the row has net `a`. `word` must be word `a / 64`
/// of the row, so that a row without net `a` need not be read.
pub fn take_shown(left: &mut NumberSet, row: &NumberSet, word: u64, a: usize)
    requires { word ≡ slice_index_or row.now (a / 64) 0 }
    ensures room { length left.new ≡ length left.old }
    ensures nets { (n : ℕ) → a / 64 ≤ n / 64 →
        is_in left.new n ≡ (is_in left.old n && not (shows_both a n row.now)) }
{
    if has_bit(word, a % 64) {
        left.take_out(row, a / 64);
    }
}

/// Makes `left`, from word `a / 64` on and as far as it has room, the set of the nets that no pass shows together with
/// net `a`. `words` must have word `a / 64` of each row.
pub fn leave_unshown(left: &mut NumberSet, rows: &[NumberSet], words: &[u64], a: usize)
    requires { words.now ≡ words_at (a / 64) rows.now }
    ensures room { length left.new ≡ length left.old }
    ensures nets { (n : ℕ) → a / 64 ≤ n / 64 → n / 64 < length left.old →
        is_in left.new n ≡ not (list_any (shows_both a n) rows.now) }
{
    left.fill();
    for (i, row) in rows.iter().enumerate() {
        take_shown(left, row, words[i], a);
    }
}

// Rows of bits with one bit for each net, 64 to a word. The rows of a net's tested drivers say which nets are paired
// with the net. Two nets are paired if one safe setting observes both. A net is covered if some safe setting observes
// it.
ghost use Rattle.std.specs.Prelude.{◌≡◌, ◌<◌, ◌+◌, ◌/◌, ◌++◌, ℕ, Bool, true, false, not, ◌&&◌, filter, length, slice_index, is_some, All, IfOk, OnOk};
ghost use Rattle.std.specs.Option.{option_to_list};
ghost use Rattle.board_defs.specs.declared.board.Drive.TheVariants.{AlwaysOn};
ghost use Rattle.board_defs.specs.declared.board.Ctl.{Ctl};
ghost use Rattle.board_defs.specs.Pins.{IsCell};
ghost use Rattle.board_defs.specs.Decided.{is_useful};
ghost use Rattle.net_classes.specs.inner.Closed.{AreClosed, AreClosedNets};
ghost use Rattle.net_facts.specs.Cells.{item_of_cell, table};
ghost use Rattle.net_facts.specs.Kept.{shared_nets};
ghost use Rattle.net_classes.specs.NetRows.{AreRowBits, stands_in};
ghost use Rattle.net_classes.specs.inner.PairRows.{AddsRow, HasCovered, IsRowFor, drive_word, number_for, owns_at};
ghost use Rattle.net_classes.specs.Kept.{ArePairRows, row_number, row_in};
ghost use Rattle.net_classes.specs.Pairs.{fits_at};

use crate::closed_nets::ClosedNets;
use crate::known::{Known, is_by};
use crate::net_rows::NetRow;
use board_defs::{Ctl, Drive, law};
use lists::Items;
use net_facts::{NetNumbers, filled_table, item_at, push_if, put_at};
use std::alloc::{AllocError, Global};

/// The row of the covered nets, and for each useful control the row of the nets that some safe setting with
/// this control observes. A control is useful if it is safe alone and enables a tested driver.
#[derive(Drop)]
pub struct PairRows {
    /// The rows. Row 0 is the row of the covered nets.
    pub(crate) rows: Vec<NetRow>,
    /// For each cell of each part, the number of the row of the control that is this cell. The number is 0 if the control's row is the row
    /// of the covered nets, or if the cell is not a useful control.
    pub(crate) numbers: Vec<Vec<usize>>,
}

impl PairRows {
    fn number(&self, c: Ctl) -> usize
        ensures { result ≡ row_number self.now c }
    {
        match item_at(&self.numbers, c) {
            None => 0,
            Some(number) => number,
        }
    }

    fn row_word(&self, number: usize, word: usize) -> u64
        ensures { result ≡ slice_index (row_in self.now number) word }
    {
        match self.rows.get(number) {
            None => 0,
            Some(row) => row.word(word),
        }
    }

    /// Returns word number `word` of the row of driver `d`. The row has the nets with a tested driver that some safe
    /// setting enables together with `d`.
    pub(crate) fn word(&self, d: Drive, word: usize) -> u64
        ensures { result ≡ drive_word self.now d word }
    {
        match d {
            Drive::AlwaysOn => self.row_word(0, word),
            Drive::OneSided => 0,
            Drive::By(c) => self.row_word(self.number(c), word),
        }
    }

    /// Returns true only if the driver's row is the row of the covered nets.
    pub(crate) fn fits_all(&self, d: Drive) -> bool
        ensures { result ≡ true → (w : ℕ)
            → drive_word self.now d w ≡ drive_word self.now AlwaysOn w }
    {
        match d {
            Drive::AlwaysOn => true,
            Drive::OneSided => false,
            Drive::By(c) => self.number(c) == 0,
        }
    }
}

fn owns(known: &Known<'_>, c: Ctl, net: u32) -> bool
    ensures { result ≡ owns_at known.now.board c net }
{
    known.drivers(net).iter().any(|d| is_by(c, Some(*d)))
}

/// Returns the nets in `closed` on which the control has no tested driver.
fn failing_nets(
    alloc: Global,
    known: &Known<'_>,
    closed: &[u32],
    c: Ctl,
) -> Result<NetNumbers, AllocError>
    ensures { IfOk result
        (λ failing. failing ≡ filter (λ n. not (owns_at known.now.board c n)) closed.now) }
{
    let mut failing = Items::none(alloc);
    for net in closed {
        push_if(&mut failing, *net, !owns(known, c, *net))?;
    }
    Ok(failing)
}

/// Returns a copy of the row with the bits of these nets cleared. The row must have a bit for each of them.
fn row_without(row: &NetRow, nets: &[u32]) -> Result<NetRow, AllocError>
    requires { All (λ n. n / 64 < length row.now) nets.now }
    ensures { IfOk result
        (λ less. (passes : ℕ → Bool) → AreRowBits passes row.now
        → AreRowBits (λ n. passes n && not (stands_in nets.now n)) less) }
{
    let mut less = row.copy()?;
    for net in nets {
        less.put(*net, false);
    }
    Ok(less)
}

/// Returns the row of the covered nets.
fn covered_row(alloc: Global, known: &Known<'_>) -> Result<NetRow, AllocError>
    ensures bits { IfOk result (λ row. AreRowBits (fits_at known.now.board AlwaysOn) row) }
    ensures room { IfOk result (λ row. length row ≡ length known.now.board.nets / 64 + 1) }
{
    let mut row = NetRow::blank(alloc, known.net_count() as usize)?;
    for net in 0..known.net_count() {
        row.put(net, known.drivers(net).len() > 0);
    }
    Ok(row)
}

/// Returns the row of a useful control, or None if that row is the row of the covered nets. `closed` must have the nets
/// that the control's shared nets close, that is, the covered nets on which each tested driver has a control with a
/// driver on a shared net. A shared net has a driver of this control and a driver of another control.
fn row_for(
    alloc: Global,
    known: &Known<'_>,
    pairs: &PairRows,
    closed: &[u32],
    c: Ctl,
) -> Result<Option<NetRow>, AllocError>
    requires pairs { HasCovered known.now.board pairs.now }
    requires useful { is_useful known.now.board c ≡ true }
    requires closed { AreClosed known.now.board (shared_nets known.now.board c) closed.now }
    ensures { IfOk result (λ row. IsRowFor known.now.board c (row_in pairs.now 0) row) }
{
    let failing = failing_nets(alloc, known, closed, c)?;
    if failing.as_slice().len() == 0 {
        return Ok(None);
    }
    let row = row_without(&pairs.rows[0], failing.as_slice())?;
    Ok(Some(row))
}

fn add_row(rows: &mut Vec<NetRow>, row: Option<NetRow>) -> Result<usize, AllocError>
    ensures rows { OnOk result (rows.new.items ≡ rows.old.items ++ option_to_list row) }
    ensures number { IfOk result (λ number. number ≡ number_for (length rows.old.items) row) }
{
    match row {
        None => Ok(0),
        Some(row) => {
            let number = rows.len();
            rows.push(row)?;
            Ok(number)
        }
    }
}

fn put_row(
    pairs: &mut PairRows,
    known: &Known<'_>,
    c: Ctl,
    row: Option<NetRow>,
) -> Result<(), AllocError>
    requires pairs { HasCovered known.now.board pairs.old }
    requires cell { IsCell known.now.board c }
    requires row { IsRowFor known.now.board c (row_in pairs.old 0) row }
    ensures { OnOk result (AddsRow known.now.board pairs.old pairs.new c) }
{
    let number = add_row(&mut pairs.rows, row)?;
    put_at(&mut pairs.numbers, c, number);
    Ok(())
}

fn add_control(
    alloc: Global,
    known: &Known<'_>,
    closed: &mut ClosedNets,
    pairs: &mut PairRows,
    c: Ctl,
) -> Result<(), AllocError>
    requires cell { IsCell known.now.board c }
    requires useful { is_useful known.now.board c ≡ true }
    requires closed { AreClosedNets known.now.board closed.old }
    requires pairs { HasCovered known.now.board pairs.old }
    ensures closed { OnOk result (AreClosedNets known.now.board closed.new) }
    ensures pairs { OnOk result (AddsRow known.now.board pairs.old pairs.new c) }
{
    let shared = known.shared(c);
    if shared.len() == 0 {
        return put_row(pairs, known, c, None);
    }
    let nets = closed.closed_by(alloc, known, shared)?;
    let row = row_for(alloc, known, pairs, nets.as_slice(), c)?;
    put_row(pairs, known, c, row)
}

/// Returns a table with a row number for each cell of the board. Each number is 0, the number of the first row.
fn first_numbers(alloc: Global, known: &Known<'_>) -> Result<Vec<Vec<usize>>, AllocError>
    ensures { IfOk result (λ numbers. (c : Ctl) → IsCell known.now.board c →
        is_some (item_of_cell (table numbers.items) c) ≡ true) }
{
    let numbers = filled_table(alloc, known.cells(), 0)?;
    Ok(numbers)
}

fn covered_rows(alloc: Global, known: &Known<'_>) -> Result<PairRows, AllocError>
    ensures { IfOk result (λ pairs. HasCovered known.now.board pairs) }
{
    let mut rows = Vec::new(alloc);
    rows.push(covered_row(alloc, known)?)?;
    let numbers = first_numbers(alloc, known)?;
    Ok(PairRows { rows, numbers })
}

/// Returns the rows of a board: first the row of the covered nets, and then, for each useful control whose row lacks a covered net, the row
/// of this control.
pub fn pair_rows(alloc: Global, known: &Known<'_>) -> Result<PairRows, AllocError>
    ensures { IfOk result (λ pairs. ArePairRows known.now.board pairs) }
{
    law::terms_decided();
    law::passes_kept();
    known.laws();
    let mut pairs = covered_rows(alloc, known)?;
    let mut closed = ClosedNets::nothing(alloc, known)?;
    for c in known.useful() {
        add_control(alloc, known, &mut closed, &mut pairs, *c)?;
    }
    Ok(pairs)
}

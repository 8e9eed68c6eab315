// The walk over the cells of a pass. It turns the rows that all passes share into the rows of the pass.
ghost use Rattle.std.specs.Prelude.{◌≡◌, ◌<◌, ℕ, [], suc, true, length, map, slice_index_or};
ghost use Rattle.board_defs.specs.declared.board.Ctl.{Ctl as ControlRecord};
ghost use Rattle.board_defs.specs.Pins.{device_at, cell_count, data_bits};
ghost use Rattle.board_defs.specs.Settings.{holds};
ghost use Rattle.tap_defs.specs.chain.Scan.{tdi_bits, tdo_bits, mask_bits};
ghost use Rattle.plan_tables.specs.Assigned.{assigned, code_bit_of_driver, set_compared, set_readers};
ghost use Rattle.plan_tables.specs.Tables.{AreFirsts, held_cell};
ghost use Rattle.scan_planner.specs.PassRows.{steady_compared, steady_shifted};
ghost use Rattle.scan_planner.specs.Planned.{scan_bits_of};
ghost use Rattle.scan_planner.specs.inner.Passes.{with_compared_bits, driven};

use crate::board_plan::PassOfPlan;
use crate::code_rows::CodeRows;
use crate::questions::code_at;
use board_defs::{Board, Setting};
use plan_tables::{DriverCell, NetTables, PlanTables, ReaderCell, controlled, held_cell};

/// Returns pass `x`, counted from 0, which must be below the number of passes.
pub fn pass_at(passes: &[Setting], x: usize) -> &Setting
    requires { x < length passes.now }
    ensures { result.now ≡ slice_index_or passes.now x [] }
{
    &passes[x]
}

// The setting of a pass, with the board and the tables that locate the cells of the pass. The cell of each control in the setting is a cell
// of the control's part.
#[derive(Drop)]
struct PassControls<'a> {
    board: &'a Board,
    tables: &'a PlanTables,
    setting: &'a Setting,
    ghost firsts: { AreFirsts board.now.chain tables.now.firsts },
    ghost quiet: { length tables.now.quiet.bits ≡ data_bits board.now },
    ghost cells: { (c : ControlRecord) → holds setting.now c ≡ true → c.cell < cell_count (device_at board.now c.part) },
}

// Writes a net's code, as expected bits, at the net's compared cells, and marks these cells in the mask. Skips the
// cells on the pin at `place`, which is the driver's pin.
fn expect_net<E: CodeRows, M: CodeRows>(
    readers: &[ReaderCell],
    place: u32,
    code: E::Column,
    expected: &mut E,
    mask: &mut M,
)
    ensures expected_kind { E.kind expected.new ≡ E.kind expected.old }
    ensures mask_kind { M.kind mask.new ≡ M.kind mask.old }
    ensures expected { (j : ℕ) → E.shows (E.kind expected.old) j
        → E.bits expected.new j
        ≡ set_readers place (E.bit_in code j) (E.bits expected.old j) readers.now }
    ensures mask { (j : ℕ) → M.shows (M.kind mask.old) j
        → M.bits mask.new j ≡ set_readers place true (M.bits mask.old j) readers.now }
{
    for cell in readers {
        if cell.place != place {
            let mark = mask.same(true);
            expected.put(cell.position, code);
            mask.put(cell.position, mark);
        }
    }
}

/// For each driver, writes the code of the driver's net at the driver's cell, and as expected bits at the net's
/// compared cells on other pins. Marks these compared cells in the mask.
pub fn drive_nets<S: CodeRows, E: CodeRows, M: CodeRows>(
    drivers: &[DriverCell],
    nets: &NetTables,
    codes: &[u32],
    shifted: &mut S,
    expected: &mut E,
    mask: &mut M,
)
    ensures shifted_kind { S.kind shifted.new ≡ S.kind shifted.old }
    ensures expected_kind { E.kind expected.new ≡ E.kind expected.old }
    ensures mask_kind { M.kind mask.new ≡ M.kind mask.old }
    ensures shifted { (j : ℕ) → S.shows (S.kind shifted.old) j
        → S.bits shifted.new j
        ≡ assigned (λ d. d.position) (code_bit_of_driver codes.now j) (S.bits shifted.old j)
        drivers.now }
    ensures expected { (j : ℕ) → E.shows (E.kind expected.old) j
        → E.bits expected.new j
        ≡ set_compared (code_bit_of_driver codes.now j) nets.now.readers (E.bits expected.old j)
        drivers.now }
    ensures mask { (j : ℕ) → M.shows (M.kind mask.old) j
        → M.bits mask.new j
        ≡ set_compared (λ d. true) nets.now.readers (M.bits mask.old j) drivers.now }
{
    for driver in drivers {
        let number = code_at(codes, driver.net);
        let code = shifted.code(number);
        shifted.put(driver.position, code);
        let code = expected.code(number);
        expect_net(nets.readers(driver.net), driver.place, code, expected, mask);
    }
}

impl PassControls<'_> {
    // Writes, at the cell of each of the pass's controls, the bit that enables the control's drivers.
    fn hold<S: CodeRows>(&self, rows: &mut S)
        ensures kind { S.kind rows.new ≡ S.kind rows.old }
        ensures bits { (j : ℕ) → S.shows (S.kind rows.old) j
            → S.bits rows.new j
            ≡ assigned (λ h. h.position) (λ h. h.bit) (S.bits rows.old j)
            (map (held_cell self.now.board.now self.now.tables.now.quiet.bits)
            self.now.setting.now) }
    {
        let firsts = self.tables.firsts.as_slice();
        for c in self.setting.controls() {
            let cell = held_cell(self.board, firsts, &self.tables.quiet, *c);
            let bit = rows.same(cell.bit);
            rows.put(cell.position, bit);
        }
    }

    // Writes the codes of the nets that the pass observes by its own drivers, and marks the cells that are
    // compared. The pass's own drivers are the drivers by which it observes nets, except the steady drivers.
    // Every pass observes nets by the steady drivers, so the codes of these nets are already in the rows that
    // all passes share.
    fn drive<S: CodeRows, E: CodeRows, M: CodeRows>(
        &self,
        shifted: &mut S,
        expected: &mut E,
        mask: &mut M,
    )
        ensures shifted_kind { S.kind shifted.new ≡ S.kind shifted.old }
        ensures expected_kind { E.kind expected.new ≡ E.kind expected.old }
        ensures mask_kind { M.kind mask.new ≡ M.kind mask.old }
        ensures shifted { (j : ℕ) → S.shows (S.kind shifted.old) j
            → S.bits shifted.new j
            ≡ driven self.now.board.now self.now.tables.now
            (code_bit_of_driver self.now.tables.now.codes j) (S.bits shifted.old j)
            self.now.setting.now }
        ensures expected { (j : ℕ) → E.shows (E.kind expected.old) j
            → E.bits expected.new j
            ≡ with_compared_bits self.now.board.now self.now.tables.now
            (code_bit_of_driver self.now.tables.now.codes j) (E.bits expected.old j)
            self.now.setting.now }
        ensures mask { (j : ℕ) → M.shows (M.kind mask.old) j
            → M.bits mask.new j
            ≡ with_compared_bits self.now.board.now self.now.tables.now (λ d. true)
            (M.bits mask.old j) self.now.setting.now }
    {
        let nets = &self.tables.nets;
        let codes = self.tables.codes.as_slice();
        let always = self.tables.by_control.always.as_slice();
        drive_nets(always, nets, codes, shifted, expected, mask);
        for c in self.setting.controls() {
            let drivers = controlled(
                self.board,
                self.tables.firsts.as_slice(),
                self.tables.by_control.rows.as_slice(),
                *c,
            );
            drive_nets(drivers, nets, codes, shifted, expected, mask);
        }
    }
}

impl<'a> PassOfPlan<'a> {
    // Returns the setting of the pass, with the board and the tables that locate its cells.
    fn controls(&self) -> PassControls<'a>
        ensures board { result.board.now ≡ self.now.test.board }
        ensures tables { result.tables.now ≡ self.now.test.plan }
        ensures setting { result.setting.now
            ≡ slice_index_or self.now.test.plan.passes self.now.number [] }
    {
        self.laws();
        let test = self.test();
        let tables = test.tables();
        PassControls {
            board: test.board(),
            tables,
            setting: pass_at(tables.passes.as_slice(), self.number() as usize),
        }
    }

    /// Turns the rows that all passes share into the rows of this pass: the bits that are shifted in, the
    /// expected bits, and the mask.
    pub fn walk<S: CodeRows, E: CodeRows, M: CodeRows>(
        &self,
        shifted: &mut S,
        expected: &mut E,
        mask: &mut M,
    )
        ensures shifted_kind { S.kind shifted.new ≡ S.kind shifted.old }
        ensures expected_kind { E.kind expected.new ≡ E.kind expected.old }
        ensures mask_kind { M.kind mask.new ≡ M.kind mask.old }
        ensures shifted { (j : ℕ) → S.shows (S.kind shifted.old) j → j < self.now.test.plan.width
            → S.bits shifted.old j ≡ steady_shifted self.now.test.plan j
            → S.bits shifted.new j ≡ tdi_bits (scan_bits_of self.now j) }
        ensures expected { (j : ℕ) → E.shows (E.kind expected.old) j
            → E.bits expected.old j
            ≡ steady_compared self.now.test.plan (code_bit_of_driver self.now.test.plan.codes j)
            → E.bits expected.new j ≡ tdo_bits (scan_bits_of self.now (suc j)) }
        ensures mask { (i j : ℕ) → M.shows (M.kind mask.old) i
            → M.bits mask.old i ≡ steady_compared self.now.test.plan (λ d. true)
            → M.bits mask.new i ≡ mask_bits (scan_bits_of self.now (suc j)) }
    {
        self.laws();
        let pass = self.controls();
        pass.hold(shifted);
        pass.drive(shifted, expected, mask);
    }
}

//! Laws of a board's test and of its logs. Each law is the contract of a function that does
//! nothing. A caller knows the law after calling the function.
ghost use Rattle.std.specs.Prelude.{◌≡◌, ◌↔◌, ℕ, ◌+◌, ◌^◌, ◌≤◌, Bool, false, List, map, Some, slice_get, ◌*◌, [], ◌∷◌, All, length, filter, count_by};
ghost use Rattle.board_defs.specs.declared.board.Ctl.{Ctl};
ghost use Rattle.board_defs.specs.declared.board.Net.{Net};
ghost use Rattle.board_defs.specs.declared.board.RawBoard.{RawBoard};
ghost use Rattle.board_defs.specs.declared.fault.Single.{Single};
ghost use Rattle.board_defs.specs.BoardRules.{IsBoard};
ghost use Rattle.board_defs.specs.Faults.{IsSingle};
ghost use Rattle.board_defs.specs.Decided.{is_covered};
ghost use Rattle.board_defs.specs.Passes.{ArePasses};
ghost use Rattle.board_defs.specs.Pins.{guarded, data_bits};
ghost use Rattle.board_defs.specs.Settings.{IsSafe, holds};
ghost use Rattle.tap_defs.specs.board.BoardScans.{RowScan, row_bits, board_scans, scan_of_row, AreTestScans, test_scans, pass_text, board_text, walk_text, row_scans, svf_row_scans, is_walked, observes_some, walk_row, walk_row_scans};
ghost use Rattle.tap_defs.specs.board.BoardTest.{IsBoardTest, IsHarmless};
ghost use Rattle.tap_defs.specs.chain.Clocks.{test_clocks};
ghost use Rattle.tap_defs.specs.board.NetBits.{feeding, Place};
ghost use Rattle.tap_defs.specs.board.OnBoard.{PassOnBoard};
ghost use Rattle.tap_defs.specs.board.RowCaptures.{AgreeWhereCompared, CapturesPass, NoOpenShorted, row_captured, row_states};
ghost use Rattle.tap_defs.specs.board.RowDriving.{row_feeding};
ghost use Rattle.tap_defs.specs.chain.Run.{Choice};
ghost use Rattle.tap_defs.specs.chain.Scan.{joined};
ghost use Rattle.tap_defs.specs.board.Explaining.{set_of, scans_by_log, is_compared, compared_scans, CompareRows, HasShape, ExplainedBy, Explains, IsExpected, AreInTurn, IsCapturedBy, AgreeOn, ShowsBits, read_place};
ghost use Rattle.tap_defs.specs.board.FaultSet.{FaultSet, IsFaultSet, IsObservable, IsNonempty};
ghost use Rattle.tap_defs.specs.board.TestRows.{TestRow, quiet_row, CodesTell, IsCodeWidth, code_width, observed_count, is_observed, code_row, expect_bit};
ghost use Rattle.board_defs.specs.declared.device.RawDevice.{RawDevice};
ghost use Rattle.tap_defs.specs.board.SingleBits.{single_bit};

/// Codes of `width` bits are enough for `n` nets if `2 ^ width` is at least `n + 2`. Then each code
/// from 1 to `n` has a 0 bit and a 1 bit, and every two of these codes differ in some bit.
pub fn codes_tell()
    ensures { (n width : ℕ) → n + 2 ≤ 2 ^ width → CodesTell n width }
{}

/// The code width of `n` codes is the smallest `w` for which `2 ^ w` is at least `n + 2`.
pub fn code_widths()
    ensures { (n : ℕ) → IsCodeWidth n (code_width n) }
{}

/// Passes that meet the requirements on passes (`ArePasses`) observe exactly the covered nets. So
/// these are the nets that have codes.
pub fn codes_number_covered()
    ensures { (board : RawBoard) → IsBoard board → (passes : List (List Ctl))
        → ArePasses board passes → (n : ℕ) (net : Net) → slice_get board.nets n ≡ Some net
        → is_observed board passes net ≡ is_covered board net }
{}

/// A test begins with three scans: the preload codes, the quiet row and the EXTEST codes. Each pass
/// then has one scan for each row, and a last scan that shifts in the quiet row. The quiet row
/// enables no controlled driver and has no expected bits.
pub fn scans_placed()
    ensures { (board : RawBoard) (passes : List (List Ctl)) (width : ℕ)
        → AreTestScans board passes width (test_scans board passes width) }
{}

/// If every pass is safe, the SVF text of the passes passes on the board without faults, and is quiet under
/// every fault set. A quiet text (`IsQuiet`) is safe to apply: from the fifth clock on, no two drivers ever
/// drive a net together, and unused cells keep their safe values.
pub fn passes_harmless()
    ensures { (board : RawBoard) (passes : List (List Ctl)) (width : ℕ) → IsBoard board
        → ((x : ℕ) (pass : List Ctl) → slice_get passes x ≡ Some pass → IsSafe board (holds pass))
        → IsHarmless board (pass_text board passes width) }
{}

/// The SVF text of passes is a test of the board if the passes meet the requirements on passes
/// (`ArePasses`) and the codes have enough bits for the observed nets.
pub fn boards_tested()
    ensures { (board : RawBoard) (passes : List (List Ctl)) (width : ℕ) → IsBoard board
        → ArePasses board passes → observed_count board passes + 2 ≤ 2 ^ width
        → IsBoardTest board (pass_text board passes width) }
{}

/// The SVF text of the passes that `passes_of` gives for a board is a test of the board.
pub fn board_texts_test()
    ensures { (board : RawBoard) → IsBoard board → IsBoardTest board (board_text board) }
{}

/// The SVF text of a walking test with a safe setting passes on the board without faults, and is
/// quiet under every fault set.
pub fn walks_harmless()
    ensures { (board : RawBoard) (walk : List Ctl) → IsBoard board → IsSafe board (holds walk)
        → IsHarmless board (walk_text board walk) }
{}

/// The fault set of a single fault of a board is observable and nonempty. Its open pin, if it has one, is not on a shorted net.
pub fn singles_observable()
    ensures observable { (board : RawBoard) (single : Single) → IsSingle board single
        → IsObservable board (set_of single) }
    ensures nonempty { (single : Single) → IsNonempty (set_of single) }
    ensures no_open_shorted { (single : Single) → NoOpenShorted (set_of single) }
{}

/// Let the expected bits of a test be the bits of a log. The test passes on the board with these
/// faults if and only if each of `scans`, the data scans after the EXTEST codes, passes with the
/// bits that the cells capture, whatever the free bits are. The cells capture while the row of the
/// previous scan is in the latches. For the first of `scans`, this is the quiet row.
pub fn logs_captured()
    ensures { (board : RawBoard) (faults : FaultSet) (scans : List RowScan) (log : List (List Bool))
        → IsBoard board
        → PassOnBoard board faults (test_clocks (scans_by_log (board_scans board scans) log))
        ↔ CapturesPass board faults quiet_row scans
        (scans_by_log (map (scan_of_row board) scans) log) }
{}

/// While the row `scan.before` is in the latches, each compared cell captures the same bit whatever
/// the free bits are. The faults must be a fault set of the board in which no open pin is on a
/// shorted net, and the setting of that row must be safe. Free bits are those that the standard and
/// the device descriptions leave open, and the bit of a short if nothing decides it.
pub fn one_response()
    ensures { (board : RawBoard) (faults : FaultSet) (scan : RowScan) → IsBoard board
        → IsFaultSet board faults → NoOpenShorted faults → IsSafe board scan.before.setting
        → (choice other : Choice)
        → AgreeWhereCompared (joined (row_bits board scan))
        (row_captured board faults scan.before choice)
        (row_captured board faults scan.before other) }
{}

/// While a row with a safe setting is in the latches, the row alone decides what drives a net that is not
/// guarded. The net's enabled driver drives it to the bit of the driver's cell, unless the driver's own cell
/// controls it and has the disable value. In this case, and without an enabled driver, the net is undriven. A
/// net is guarded if it carries a supply, or has a pin of a test access port, a pin that compliance patterns
/// name, or a dark pin. A dark pin may drive its net although no setting controls it.
pub fn rows_drive()
    ensures { (board : RawBoard) (row : TestRow) (n : ℕ) (net : Net) → IsBoard board
        → IsSafe board row.setting → slice_get board.nets n ≡ Some net → guarded board net ≡ false
        → feeding board (row_states board row) net ≡ row_feeding board row net }
{}

/// The SDR statements of a test that compare some bit are the statements of its compared data
/// scans, in the same order. So the test has as many of these statements as compared data scans.
pub fn statements_compared()
    ensures statements { (board : RawBoard) (scans : List RowScan)
        → filter is_compared (board_scans board scans)
        ≡ map (scan_of_row board) (compared_scans board scans) }
    ensures counted { (board : RawBoard) (scans : List RowScan)
        → count_by is_compared (board_scans board scans) ≡ length (compared_scans board scans) }
{}

/// The compared scans of a test compare the rows of its passes, pass by pass and row by row, each
/// row once. A pass that observes no net has no compared scans. If the passes meet the requirements
/// on passes (`ArePasses`), each pass observes some net. Then a log has the shape of the test
/// (`HasShape`) if and only if it has `width` rows for each pass and each row has a bit for each
/// position of a data scan. The compared scans of a walking test compare its rows in turn, each row
/// once.
pub fn rows_compared()
    ensures passes { (board : RawBoard) (passes : List (List Ctl)) (width : ℕ) → IsBoard board
        → ArePasses board passes
        → CompareRows (code_row board passes) width passes
        (compared_scans board (row_scans (code_row board passes) width passes)) }
    ensures any_passes { (board : RawBoard) (passes : List (List Ctl)) (width : ℕ) → IsBoard board
        → CompareRows (code_row board passes) width (filter (observes_some board) passes)
        (compared_scans board (row_scans (code_row board passes) width passes)) }
    ensures shape { (board : RawBoard) (passes : List (List Ctl)) (width : ℕ)
        (log : List (List Bool)) → IsBoard board → ArePasses board passes
        → HasShape board (row_scans (code_row board passes) width passes) log
        ↔ ((length log ≡ length passes * width) × All (λ row. length row ≡ data_bits board) log) }
    ensures walk { (board : RawBoard) (walk : List Ctl) → IsBoard board
        → CompareRows (walk_row board) (count_by (is_walked board walk) board.nets) (walk ∷ [])
        (compared_scans board (walk_row_scans board walk)) }
{}

/// Let a log have the shape of the test, and let every compared bit be the expected one
/// (`IsExpected`). Then the faults that explain the log are those under which the test passes. The
/// log has no bits of the SIR statements, but these pass under any faults, because their bits
/// depend only on the chain. If the passes meet the requirements on passes (`ArePasses`) and the
/// codes have enough bits for the observed nets, no nonempty observable fault set explains the log.
/// The test that is generated for a board meets both conditions.
pub fn expected_logs()
    ensures passing { (board : RawBoard) (faults : FaultSet) (scans : List RowScan)
        (log : List (List Bool)) → IsBoard board → IsExpected board scans log
        → ExplainedBy board faults scans log
        ↔ PassOnBoard board faults (test_clocks (board_scans board scans)) }
    ensures unexplained { (board : RawBoard) (passes : List (List Ctl)) (width : ℕ) → IsBoard board
        → ArePasses board passes → observed_count board passes + 2 ≤ 2 ^ width
        → (log : List (List Bool))
        → IsExpected board (row_scans (code_row board passes) width passes) log
        → (faults : FaultSet) → IsObservable board faults → IsNonempty faults
        → ExplainedBy board faults (row_scans (code_row board passes) width passes) log → ⊥ }
    ensures own_unexplained { (board : RawBoard) → IsBoard board → (log : List (List Bool))
        → IsExpected board (svf_row_scans board) log → (faults : FaultSet)
        → IsObservable board faults → IsNonempty faults
        → ExplainedBy board faults (svf_row_scans board) log → ⊥ }
{}

/// Each scan compares the row that is in the latches, and the setting of every compared row is
/// safe. This is so in a test of safe passes, in the test that is generated for a board, and in a
/// walking test with a safe setting.
pub fn scans_in_turn()
    ensures passes { (board : RawBoard) (passes : List (List Ctl)) (width : ℕ)
        → ((x : ℕ) (pass : List Ctl) → slice_get passes x ≡ Some pass → IsSafe board (holds pass))
        → AreInTurn board (row_scans (code_row board passes) width passes) }
    ensures own { (board : RawBoard) → IsBoard board → AreInTurn board (svf_row_scans board) }
    ensures walk { (board : RawBoard) (walk : List Ctl) → IsSafe board (holds walk)
        → AreInTurn board (walk_row_scans board walk) }
{}

/// Let each scan compare the row that is in the latches, and let every compared row have a safe
/// setting (`AreInTurn`). Faults explain a log if and only if two conditions are met. The log has
/// the shape of the test. Each compared bit in it is the bit that the cell captures under these
/// faults, whatever the free bits are, while the row of the previous scan is in the latches.
pub fn logs_by_rows()
    ensures { (board : RawBoard) (faults : FaultSet) (scans : List RowScan) (log : List (List Bool))
        → IsBoard board → AreInTurn board scans
        → ExplainedBy board faults scans log
        ↔ (HasShape board scans log × IsCapturedBy board faults scans log) }
{}

/// Let each scan of the test compare the row that is in the latches, and let every compared row
/// have a safe setting (`AreInTurn`). A fault set of the board in which no open pin is on a shorted
/// net explains some log of the test. Any two logs that the same faults explain have the same
/// compared bits. Every single fault of a board explains some log, so it determines every compared
/// bit of its logs.
pub fn one_log()
    ensures some { (board : RawBoard) (faults : FaultSet) (scans : List RowScan) → IsBoard board
        → IsFaultSet board faults → NoOpenShorted faults → AreInTurn board scans
        → (log : List (List Bool)) × ExplainedBy board faults scans log }
    ensures one { (board : RawBoard) (faults : FaultSet) (scans : List RowScan)
        (log other : List (List Bool)) → IsBoard board → AreInTurn board scans
        → ExplainedBy board faults scans log → ExplainedBy board faults scans other
        → AgreeOn board scans log other }
    ensures single { (board : RawBoard) (single : Single) (scans : List RowScan) → IsBoard board
        → IsSingle board single → AreInTurn board scans
        → (log : List (List Bool)) × ExplainedBy board (set_of single) scans log }
{}

/// Let each scan of the test compare the row that is in the latches, and let every compared row
/// have a safe setting (`AreInTurn`), as in the test that is generated for a board. A single fault
/// of a board explains a log if and only if the log has the shape of the test and each compared
/// cell has the bit that `single_bit` gives for the fault.
pub fn singles_respond()
    ensures bits { (board : RawBoard) (single : Single) (scans : List RowScan)
        (log : List (List Bool)) → IsBoard board → IsSingle board single → AreInTurn board scans
        → ExplainedBy board (set_of single) scans log
        ↔ (HasShape board scans log × ShowsBits board scans (single_bit board single) log) }
    ensures own { (board : RawBoard) (single : Single) (log : List (List Bool)) → IsBoard board
        → IsSingle board single
        → Explains board single log
        ↔ (HasShape board (svf_row_scans board) log
        × ShowsBits board (svf_row_scans board) (single_bit board single) log) }
{}

/// A log is the expected one if and only if it has the shape of the test and each compared cell has
/// its expected bit. Each compared cell reads a pin of a net.
pub fn expected_bits()
    ensures bits { (board : RawBoard) (scans : List RowScan) (log : List (List Bool))
        → IsExpected board scans log
        ↔ (HasShape board scans log × ShowsBits board scans (λ row place expected. expected) log) }
    ensures places { (board : RawBoard) (row : TestRow) (part : ℕ) (device : RawDevice) (cell : ℕ)
        (expected : Bool) → expect_bit board row part device cell ≡ Some expected
        → (place : Place) × (read_place board part device cell ≡ Some place) }
{}

//! Calls of laws of `tap_defs` and `walk_test`, about the tests of a board.
ghost use Rattle.std.specs.Prelude.{◌+◌, ◌^◌, ◌≤◌, ◌↔◌, ◌≡◌, ◌*◌, ◌∷◌, ℕ, List, Bool, map, false, Some, slice_get, [], All, length, filter, count_by};
ghost use Rattle.board_defs.specs.declared.board.Ctl.{Ctl};
ghost use Rattle.board_defs.specs.declared.board.RawBoard.{RawBoard};
ghost use Rattle.board_defs.specs.declared.board.Net.{Net};
ghost use Rattle.board_defs.specs.BoardRules.{IsBoard};
ghost use Rattle.board_defs.specs.Passes.{ArePasses};
ghost use Rattle.board_defs.specs.Settings.{IsSafe, holds};
ghost use Rattle.board_defs.specs.Pins.{guarded, data_bits};
ghost use Rattle.tap_defs.specs.board.TestRows.{CodesTell, IsCodeWidth, code_width, observed_count, quiet_row, TestRow, code_row};
ghost use Rattle.tap_defs.specs.board.BoardScans.{pass_text, RowScan, board_scans, scan_of_row, row_bits, board_text, row_scans, svf_row_scans, is_walked, observes_some, walk_row, walk_row_scans};
ghost use Rattle.tap_defs.specs.board.BoardTest.{IsBoardTest};
ghost use Rattle.tap_defs.specs.chain.Clocks.{test_clocks};
ghost use Rattle.tap_defs.specs.board.OnBoard.{PassOnBoard};
ghost use Rattle.tap_defs.specs.board.RowCaptures.{CapturesPass, AgreeWhereCompared, NoOpenShorted, row_captured, row_states};
ghost use Rattle.tap_defs.specs.board.Explaining.{scans_by_log, is_compared, compared_scans, CompareRows, HasShape, AreInTurn};
ghost use Rattle.tap_defs.specs.board.FaultSet.{FaultSet, IsFaultSet};
ghost use Rattle.tap_defs.specs.chain.Run.{Choice};
ghost use Rattle.tap_defs.specs.chain.Scan.{joined};
ghost use Rattle.tap_defs.specs.board.NetBits.{feeding};
ghost use Rattle.tap_defs.specs.board.RowDriving.{row_feeding};
ghost use Rattle.walk_test.specs.Laws.{WalkKept, ShortsAreFaults, GroupsRespond, OneResponse};

/// States that codes of `width` bits are enough for `n` nets if `2 ^ width` is at least `n + 2`. Each code from 1 to `n` has a 0 bit and a
/// 1 bit, and any two of these codes differ in some bit.
pub fn codes_tell()
    ensures { (n width : ℕ) → n + 2 ≤ 2 ^ width → CodesTell n width }
{
    tap_defs::board_law::codes_tell();
}

/// States that the code width of `n` codes is the smallest `w` for which `2 ^ w` is at least `n + 2`.
pub fn code_widths()
    ensures { (n : ℕ) → IsCodeWidth n (code_width n) }
{
    tap_defs::board_law::code_widths();
}

/// States that the SVF text of passes is a test of the board. The passes must meet the requirements on passes (`ArePasses`), and the codes
/// must have enough bits for the observed nets.
pub fn boards_tested()
    ensures { (board : RawBoard) (passes : List (List Ctl)) (width : ℕ) → IsBoard board
        → ArePasses board passes → observed_count board passes + 2 ≤ 2 ^ width
        → IsBoardTest board (pass_text board passes width) }
{
    tap_defs::board_law::boards_tested();
}

/// States that a test with the expected bits of a log passes on a board with faults if and only if each data scan after the EXTEST codes
/// passes with the bits that the cells capture. The cells capture while the row of the previous scan is in the latches.
pub fn logs_captured()
    ensures { (board : RawBoard) (faults : FaultSet) (scans : List RowScan) (log : List (List Bool))
        → IsBoard board
        → PassOnBoard board faults (test_clocks (scans_by_log (board_scans board scans) log))
        ↔ CapturesPass board faults quiet_row scans
        (scans_by_log (map (scan_of_row board) scans) log) }
{
    tap_defs::board_law::logs_captured();
}

/// States that each compared cell captures the same bit whatever the free bits are, while a row with a safe setting is in the latches. The
/// faults must be a fault set of the board in which no open pin is on a shorted net.
pub fn one_response()
    ensures { (board : RawBoard) (faults : FaultSet) (scan : RowScan) → IsBoard board
        → IsFaultSet board faults → NoOpenShorted faults → IsSafe board scan.before.setting
        → (choice other : Choice)
        → AgreeWhereCompared (joined (row_bits board scan))
        (row_captured board faults scan.before choice)
        (row_captured board faults scan.before other) }
{
    tap_defs::board_law::one_response();
}

/// States that the row in the latches alone decides what drives a net that is not guarded. The row's setting must be safe.
pub fn rows_drive()
    ensures { (board : RawBoard) (row : TestRow) (n : ℕ) (net : Net) → IsBoard board
        → IsSafe board row.setting → slice_get board.nets n ≡ Some net → guarded board net ≡ false
        → feeding board (row_states board row) net ≡ row_feeding board row net }
{
    tap_defs::board_law::rows_drive();
}

/// States that the SVF text of the passes that `passes_of` gives for a board is a test of the board.
pub fn board_texts_test()
    ensures { (board : RawBoard) → IsBoard board → IsBoardTest board (board_text board) }
{
    tap_defs::board_law::board_texts_test();
}

/// States that the SDR statements of a test that compare some bit are the statements of its compared data scans, in the same order. So the
/// test has as many of these statements as compared data scans.
pub fn statements_compared()
    ensures statements { (board : RawBoard) (scans : List RowScan)
        → filter is_compared (board_scans board scans)
        ≡ map (scan_of_row board) (compared_scans board scans) }
    ensures counted { (board : RawBoard) (scans : List RowScan)
        → count_by is_compared (board_scans board scans) ≡ length (compared_scans board scans) }
{
    tap_defs::board_law::statements_compared();
}

/// States that the compared scans of a test compare the rows of its passes, pass by pass and row by row, each row once. A pass that
/// observes no net has no compared scans. If the passes meet the requirements on passes (`ArePasses`), each pass observes some net. Then a
/// log has the shape of the test (`HasShape`) if and only if it has `width` rows for each pass and each row has a bit for each position of
/// a data scan. The compared scans of a walking test compare its rows in turn, each row once.
pub fn rows_compared()
    ensures passes { (board : RawBoard) (passes : List (List Ctl)) (width : ℕ) → IsBoard board
        → ArePasses board passes
        → CompareRows (code_row board passes) width passes
        (compared_scans board (row_scans (code_row board passes) width passes)) }
    ensures any_passes { (board : RawBoard) (passes : List (List Ctl)) (width : ℕ) → IsBoard board
        → CompareRows (code_row board passes) width (filter (observes_some board) passes)
        (compared_scans board (row_scans (code_row board passes) width passes)) }
    ensures shape { (board : RawBoard) (passes : List (List Ctl)) (width : ℕ)
        (log : List (List Bool)) → IsBoard board → ArePasses board passes
        → HasShape board (row_scans (code_row board passes) width passes) log
        ↔ ((length log ≡ length passes * width) × All (λ row. length row ≡ data_bits board) log) }
    ensures walk { (board : RawBoard) (walk : List Ctl) → IsBoard board
        → CompareRows (walk_row board) (count_by (is_walked board walk) board.nets) (walk ∷ [])
        (compared_scans board (walk_row_scans board walk)) }
{
    tap_defs::board_law::rows_compared();
}

/// States that each scan compares the row that is in the latches, and that the setting of every compared row is safe. This is so in a test
/// of safe passes, in the test that is generated for a board, and in a walking test with a safe setting.
pub fn scans_in_turn()
    ensures passes { (board : RawBoard) (passes : List (List Ctl)) (width : ℕ)
        → ((x : ℕ) (pass : List Ctl) → slice_get passes x ≡ Some pass → IsSafe board (holds pass))
        → AreInTurn board (row_scans (code_row board passes) width passes) }
    ensures own { (board : RawBoard) → IsBoard board → AreInTurn board (svf_row_scans board) }
    ensures walk { (board : RawBoard) (walk : List Ctl) → IsSafe board (holds walk)
        → AreInTurn board (walk_row_scans board walk) }
{
    tap_defs::board_law::scans_in_turn();
}

/// States that the Or shorts of each set of groups are a fault set of the board. Each set of groups explains some log, and any two logs
/// that one set explains agree at every compared bit.
pub fn groups_respond()
    ensures faults { ShortsAreFaults }
    ensures some { GroupsRespond }
    ensures one { OneResponse }
{
    walk_test::law::groups_respond();
}

/// States that the walk setting holds a control if and only if the first pass holds the control and no switching driver has this control.
pub fn walk_kept()
    ensures { WalkKept }
{
    walk_test::law::walk_kept();
}

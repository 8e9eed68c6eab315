//! Calls of laws of `tap_defs`, `response_log`, `fault_sim`, `diagnoser` and `batch_diag`, about logs, their diagnoses and batches of logs.
//! A place is the number of a possible single fault. The suspects of a log are the places whose faults may explain it.
ghost use Rattle.std.specs.Prelude.{◌↔◌, ◌≡◌, ◌+◌, ◌^◌, ◌≤◌, Bool, List, IsTrue, filter, ℕ, Some};
ghost use Rattle.board_defs.specs.declared.board.RawBoard.{RawBoard};
ghost use Rattle.board_defs.specs.declared.fault.Single.{Single};
ghost use Rattle.board_defs.specs.BoardRules.{IsBoard};
ghost use Rattle.board_defs.specs.Faults.{singles, IsSingle};
ghost use Rattle.board_defs.specs.declared.board.Ctl.{Ctl};
ghost use Rattle.board_defs.specs.Passes.{ArePasses};
ghost use Rattle.board_defs.specs.declared.device.RawDevice.{RawDevice};
ghost use Rattle.tap_defs.specs.board.Explaining.{Explains, set_of, HasShape, ExplainedBy, IsExpected, AreInTurn, IsCapturedBy, ShowsBits, read_place};
ghost use Rattle.tap_defs.specs.board.BoardScans.{RowScan, board_scans, row_scans, svf_row_scans};
ghost use Rattle.tap_defs.specs.chain.Clocks.{test_clocks};
ghost use Rattle.tap_defs.specs.board.NetBits.{Place};
ghost use Rattle.tap_defs.specs.board.OnBoard.{PassOnBoard};
ghost use Rattle.tap_defs.specs.board.RowCaptures.{NoOpenShorted};
ghost use Rattle.tap_defs.specs.board.FaultSet.{FaultSet, IsObservable, IsNonempty};
ghost use Rattle.tap_defs.specs.board.TestRows.{TestRow, observed_count, code_row, expect_bit};
ghost use Rattle.tap_defs.specs.board.SingleBits.{single_bit};
ghost use Rattle.response_log.specs.FirstOffense.{FirstOffenseIsTold, OneOffenseOrLog};
ghost use Rattle.response_log.specs.LogRows.{log_rows, IsLogOf};
ghost use Rattle.fault_sim.specs.Laws.{PlacesAre, PlacesCounted, SuspectsArePlaces, OneOrder};
ghost use Rattle.fault_sim.specs.Diagnosis.{Picks};
ghost use Rattle.diagnoser.specs.Laws.{OneList};
ghost use Rattle.batch_diag.specs.Laws.{BlocksAreTheLines, FaultIsTheFirst, VerdictsMakeText};
ghost use Rattle.batch_diag.specs.OwnTexts.{BlocksByThemselves, DiagnosesByThemselves, FaultByItself};

/// States that the fault that is reported for a text is the text's first offense. A text has exactly one first offense if and only if it is
/// not a log.
pub fn fault_is_the_first_offense()
    ensures told { FirstOffenseIsTold }
    ensures one { OneOffenseOrLog }
{
    response_log::law::fault_is_the_first_offense();
}

/// States that the faults at the places of a board, in the order of the places, are the list of the board's single faults.
pub fn places_are_the_singles()
    ensures { PlacesAre }
{
    fault_sim::law::places_are_the_singles();
}

/// States that `place_count` gives the number of the board's places. The lists that it counts must have the board's covered nets and tested
/// pins.
pub fn places_counted()
    ensures { PlacesCounted }
{
    fault_sim::law::places_counted();
}

/// States that each suspect is a place of the board.
pub fn suspects_are_places()
    ensures { SuspectsArePlaces }
{
    fault_sim::law::suspects_are_places();
}

/// States that if single fault A comes before single fault B, then B does not come before A.
pub fn singles_have_one_order()
    ensures { OneOrder }
{
    fault_sim::law::singles_have_one_order();
}

/// States that filtering the list of a board's single faults by a test gives the faults of a log's diagnosis. The test must decide for each
/// single fault of the board whether it explains the log.
pub fn filters_pick()
    ensures { (board : RawBoard) (log : List (List Bool)) (test : Single → Bool) → IsBoard board
        → ((single : Single) → IsSingle board single
        → (IsTrue (test single) ↔ Explains board single log))
        → Picks (λ single. Explains board single log) (singles board)
        (filter test (singles board)) }
{
    fault_sim::law::filters_pick();
}

/// States that a log has at most one list of the single faults that explain it, in the order of the board's list of single faults.
pub fn one_list()
    ensures { OneList }
{
    diagnoser::law::one_list();
}

/// States that a text is a batch if and only if its lines with words are correct titles, each followed by the lines of a log.
pub fn blocks_are_the_lines()
    ensures { BlocksAreTheLines }
{
    batch_diag::law::blocks_are_the_lines();
}

/// States that a fault is reported for a text if and only if it is the first fault of the text (`IsFirstFault`).
pub fn fault_is_the_first()
    ensures { FaultIsTheFirst }
{
    batch_diag::law::fault_is_the_first();
}

/// States that the text that `batch_text` makes of the verdicts on a batch's blocks consists of each block's title and the diagnosis of the
/// block's log, in the order of the blocks.
pub fn verdicts_make_text()
    ensures { VerdictsMakeText }
{
    batch_diag::law::verdicts_make_text();
}

/// States that the fault set of a single fault of a board is observable and nonempty. Its open pin, if it has one, is not on a shorted net.
pub fn singles_observable()
    ensures observable { (board : RawBoard) (single : Single) → IsSingle board single
        → IsObservable board (set_of single) }
    ensures nonempty { (single : Single) → IsNonempty (set_of single) }
    ensures no_open_shorted { (single : Single) → NoOpenShorted (set_of single) }
{
    tap_defs::board_law::singles_observable();
}

/// States that the faults that explain a log are those under which the test passes. The log must have the shape of the test, and every
/// compared bit must be the expected one (`IsExpected`). If the passes meet the requirements on passes (`ArePasses`) and the codes have
/// enough bits for the observed nets, no nonempty observable fault set explains the log. The test that is generated for a board meets both
/// conditions.
pub fn expected_logs()
    ensures passing { (board : RawBoard) (faults : FaultSet) (scans : List RowScan)
        (log : List (List Bool)) → IsBoard board → IsExpected board scans log
        → ExplainedBy board faults scans log
        ↔ PassOnBoard board faults (test_clocks (board_scans board scans)) }
    ensures unexplained { (board : RawBoard) (passes : List (List Ctl)) (width : ℕ) → IsBoard board
        → ArePasses board passes → observed_count board passes + 2 ≤ 2 ^ width
        → (log : List (List Bool))
        → IsExpected board (row_scans (code_row board passes) width passes) log
        → (faults : FaultSet) → IsObservable board faults → IsNonempty faults
        → ExplainedBy board faults (row_scans (code_row board passes) width passes) log → ⊥ }
    ensures own_unexplained { (board : RawBoard) → IsBoard board → (log : List (List Bool))
        → IsExpected board (svf_row_scans board) log → (faults : FaultSet)
        → IsObservable board faults → IsNonempty faults
        → ExplainedBy board faults (svf_row_scans board) log → ⊥ }
{
    tap_defs::board_law::expected_logs();
}

/// States that faults explain a log if and only if two conditions are met. The log has the shape of the test. Each compared bit in it is
/// the bit that the cell captures under these faults, whatever the free bits are, while the row of the previous scan is in the latches.
/// Each scan must compare the row that is in the latches, and every compared row must have a safe setting (`AreInTurn`).
pub fn logs_by_rows()
    ensures { (board : RawBoard) (faults : FaultSet) (scans : List RowScan) (log : List (List Bool))
        → IsBoard board → AreInTurn board scans
        → ExplainedBy board faults scans log
        ↔ (HasShape board scans log × IsCapturedBy board faults scans log) }
{
    tap_defs::board_law::logs_by_rows();
}

/// States that a single fault of a board explains a log if and only if the log has the shape of the test and each compared cell has the bit
/// that `single_bit` gives for the fault. The scans must be in turn (`AreInTurn`), as they are in the test that is generated for a board.
pub fn singles_respond()
    ensures bits { (board : RawBoard) (single : Single) (scans : List RowScan)
        (log : List (List Bool)) → IsBoard board → IsSingle board single → AreInTurn board scans
        → ExplainedBy board (set_of single) scans log
        ↔ (HasShape board scans log × ShowsBits board scans (single_bit board single) log) }
    ensures own { (board : RawBoard) (single : Single) (log : List (List Bool)) → IsBoard board
        → IsSingle board single
        → Explains board single log
        ↔ (HasShape board (svf_row_scans board) log
        × ShowsBits board (svf_row_scans board) (single_bit board single) log) }
{
    tap_defs::board_law::singles_respond();
}

/// States that a log is the expected one if and only if it has the shape of the test and each compared cell has its expected bit. Each
/// compared cell reads a pin of a net.
pub fn expected_bits()
    ensures bits { (board : RawBoard) (scans : List RowScan) (log : List (List Bool))
        → IsExpected board scans log
        ↔ (HasShape board scans log × ShowsBits board scans (λ row place expected. expected) log) }
    ensures places { (board : RawBoard) (row : TestRow) (part : ℕ) (device : RawDevice) (cell : ℕ)
        (expected : Bool) → expect_bit board row part device cell ≡ Some expected
        → (place : Place) × (read_place board part device cell ≡ Some place) }
{
    tap_defs::board_law::expected_bits();
}

/// States that a text gives a log if and only if each line with words is a row and there are as many rows as expected. The log has the bits
/// of these rows. Any other text gives a fault.
pub fn rows_are_the_lines()
    ensures { (text : List ℕ) (rows len : ℕ) (log : List (List Bool))
        → (log_rows text rows len ≡ Ok log) ↔ IsLogOf text rows len log }
{
    response_log::law::rows_are_the_lines();
}

/// States that each block of a batch is read and diagnosed as if its lines were the whole text. If the reported fault is the fault of a
/// block, it is the fault of this text, with the line number in the batch.
pub fn blocks_stand_by_themselves()
    ensures logs { BlocksByThemselves }
    ensures fault { FaultByItself }
    ensures diagnoses { DiagnosesByThemselves }
{
    batch_diag::law::blocks_stand_by_themselves();
}

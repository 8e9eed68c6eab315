//! Laws of a board's places and of diagnoses. A place is the number of a possible single fault. A net is
//! covered if the test observes the net. A pin is tested if the test uses it as the driver or as a receiver
//! of an observed net. Each law is the contract of a function that does nothing.
ghost use Rattle.std.specs.Prelude.{◌≡◌, ◌↔◌, Bool, List, filter, IsTrue};
ghost use Rattle.board_defs.specs.declared.board.RawBoard.{RawBoard};
ghost use Rattle.board_defs.specs.declared.fault.Single.{Single};
ghost use Rattle.board_defs.specs.BoardRules.{IsBoard};
ghost use Rattle.board_defs.specs.Faults.{singles, IsSingle};
ghost use Rattle.tap_defs.specs.board.Explaining.{Explains};
ghost use Rattle.fault_sim.specs.Diagnosis.{Picks, IsDiagnosis};
ghost use Rattle.fault_sim.specs.Laws.{OneOrder, PlacesAre, PlacesCounted, SuspectsArePlaces, SuspectsSuffice};

/// The faults at the places of a board, in the order of the places, are the list of the board's single faults.
pub fn places_are_the_singles()
    ensures { PlacesAre }
{}

/// If `lists` has the covered nets and the tested pins of a board, `place_count` of these lists is the number of the
/// board's places. A place is the number of a possible single fault.
pub fn places_counted()
    ensures { PlacesCounted }
{}

/// If a test is true only of faults that explain a log, filtering the faults at the suspects' places by the test gives the same list as
/// filtering all single faults of the board. The suspects of a log are the places whose faults may explain it.
pub fn suspects_suffice()
    ensures { SuspectsSuffice }
{}

/// Each suspect is a place of the board.
pub fn suspects_are_places()
    ensures { SuspectsArePlaces }
{}

/// If single fault A comes before single fault B, then B does not come before A.
pub fn singles_have_one_order()
    ensures { OneOrder }
{}

/// Each log of a board has exactly one diagnosis. The diagnosis says whether every compared bit of the log is the
/// expected bit, and lists the single faults that explain the log.
pub fn logs_have_one_diagnosis()
    ensures some { (board : RawBoard) (log : List (List Bool)) → IsBoard board
        → (pass : Bool) × (faults : List Single) × IsDiagnosis board log pass faults }
    ensures one { (board : RawBoard) (log : List (List Bool)) (pass other_pass : Bool)
        (faults others : List Single) → IsDiagnosis board log pass faults
        → IsDiagnosis board log other_pass others → (pass ≡ other_pass) × (faults ≡ others) }
{}

/// If a test decides for each single fault of a board whether the fault explains a log, filtering the list of the board's single faults by
/// the test gives the faults of the log's diagnosis.
pub fn filters_pick()
    ensures { (board : RawBoard) (log : List (List Bool)) (test : Single → Bool) → IsBoard board
        → ((single : Single) → IsSingle board single
        → (IsTrue (test single) ↔ Explains board single log))
        → Picks (λ single. Explains board single log) (singles board)
        (filter test (singles board)) }
{}

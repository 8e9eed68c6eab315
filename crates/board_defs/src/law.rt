//! Laws of boards. Each law is the contract of a function that does nothing. A function whose proof needs a law calls
//! the function of the law.
ghost use Rattle.std.specs.Prelude.{◌≡◌, ℕ, ◌<◌, List, Some, slice_get};
ghost use Rattle.board_defs.specs.declared.board.Ctl.{Ctl};
ghost use Rattle.board_defs.specs.declared.board.RawBoard.{RawBoard};
ghost use Rattle.board_defs.specs.Laws.{SafeByPairs, TermsDecided, PassesKept, SinglesListed};
ghost use Rattle.board_defs.specs.Passes.{ArePasses};

/// On a board that keeps the rules of boards, a setting is safe if and only if each of its controls is safe alone and
/// any two of its controls are safe together.
pub fn safe_by_pairs()
    ensures { SafeByPairs }
{}

/// On a board that keeps the rules of boards, Boolean tests agree with the definitions of these terms:
/// controls that are safe alone or together, useful controls, covered and paired nets, tested pins, and the
/// reasons why a net is not covered. The tests look only at single controls and at pairs of controls.
pub fn terms_decided()
    ensures { TermsDecided }
{}

/// On a board that keeps the rules of boards, the passes meet the requirements on passes (`ArePasses`). Every
/// pass is safe. For each covered net, some pass observes it. For any two paired nets, some pass observes
/// both. For each tested driver and each tested receiver, some pass tests it. Each pass observes a net by
/// some tested driver for the first time, or observes two paired nets together for the first time. The
/// functions that choose the passes agree with the definitions of their terms (`SaysPasses`).
pub fn passes_kept()
    ensures { PassesKept }
{}

/// On a board that keeps the rules of boards, the list of single faults has exactly the stuck faults of
/// covered nets, the open faults of tested pins and the shorts of paired nets. The first net of a short has
/// the lower number. The list has each fault once, in the order `SinglePrecedes`.
pub fn singles_listed()
    ensures { SinglesListed }
{}

/// In a list of passes that meets the requirements on passes (`ArePasses`), no two passes are equal. The reason is that
/// each pass is the first to observe some net by some tested driver, or the first to observe some two paired nets
/// together.
pub fn passes_differ()
    ensures { (board : RawBoard) (passes : List (List Ctl)) (x y : ℕ) (pass : List Ctl)
        → ArePasses board passes → x < y → slice_get passes x ≡ Some pass
        → slice_get passes y ≡ Some pass → ⊥ }
{}

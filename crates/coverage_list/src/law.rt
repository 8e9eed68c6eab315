//! The law that the coverage list is true. It is the contract of a function that does nothing.
ghost use Rattle.board_defs.specs.declared.board.RawBoard.{RawBoard};
ghost use Rattle.board_defs.specs.BoardRules.{IsBoard};
ghost use Rattle.coverage_list.specs.CoverText.{cover_text};
ghost use Rattle.coverage_list.specs.CoverList.{IsCoverList};

use board_defs::law::terms_decided;

/// On a board that keeps the rules of boards, the coverage list is true. It gives the number of nets and the
/// number of covered nets. It lists each net that is not covered, with its reason. It lists each driver and
/// each receiver of a covered net that no safe setting tests, and each pair of covered nets that no safe
/// setting observes together. It lists no other net, pin or pair.
pub fn lists_are_true()
    ensures { (board : RawBoard) → IsBoard board → IsCoverList board (cover_text board) }
{
    terms_decided();
}

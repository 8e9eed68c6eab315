//! Calls of laws of `board_defs` and `series_parts`, about settings, passes and joined files. In joined files, all nets that LINK lines
//! connect have the same name.
ghost use Rattle.std.specs.Prelude.{◌≡◌, ◌<◌, ℕ, List, Some, slice_get, false, length, map};
ghost use Rattle.std.specs.List.{AllByRecursion};
ghost use Rattle.board_defs.specs.declared.board.Ctl.{Ctl};
ghost use Rattle.board_defs.specs.declared.board.RawBoard.{RawBoard};
ghost use Rattle.board_defs.specs.Laws.{SafeByPairs};
ghost use Rattle.board_defs.specs.Passes.{ArePasses};
ghost use Rattle.board_files.specs.declared.chain_file.ChainLine.{ChainLine};
ghost use Rattle.board_files.specs.declared.net_file.NetLine.{NetLine};
ghost use Rattle.board_files.specs.ChainLines.{HasBypassLength};
ghost use Rattle.series_parts.specs.JoinedFiles.{AreJoinedFiles};
ghost use Rattle.series_parts.specs.Joining.{joined_chain, joined_nets};
ghost use Rattle.series_parts.specs.Lines.{chain_part_lines, has_link};

/// States that a setting is safe if and only if each of its controls is safe alone and any two of its controls are safe together. The
/// board must keep the rules of boards.
pub fn safe_by_pairs()
    ensures { SafeByPairs }
{
    board_defs::law::safe_by_pairs();
}

/// States that no two passes are equal in a list of passes that meets the requirements on passes (`ArePasses`).
pub fn passes_differ()
    ensures { (board : RawBoard) (passes : List (List Ctl)) (x y : ℕ) (pass : List Ctl)
        → ArePasses board passes → x < y → slice_get passes x ≡ Some pass
        → slice_get passes y ≡ Some pass → ⊥ }
{
    board_defs::law::passes_differ();
}

/// States that `joined_chain` and `joined_nets` return joined files, and that there are no other joined files.
pub fn joined_once()
    ensures joined { (chain : List ChainLine) (nets : List NetLine)
        → AreJoinedFiles chain nets (joined_chain chain nets) (joined_nets chain nets) }
    ensures once { (chain : List ChainLine) (nets : List NetLine) (new_chain : List ChainLine)
        (new_nets : List NetLine) → AreJoinedFiles chain nets new_chain new_nets
        → (new_chain ≡ joined_chain chain nets) × (new_nets ≡ joined_nets chain nets) }
{
    series_parts::law::joined_once();
}

/// States that a joined chain file has no LINK line, and that joining keeps the DEVICE and BYPASS lines, the pins of the nets, the line
/// numbers and the numbers of lines. If the lengths on BYPASS lines are within their limits, they stay within them.
pub fn kept_lines()
    ensures links { (chain : List ChainLine) (nets : List NetLine)
        → has_link (joined_chain chain nets) ≡ false }
    ensures parts { (chain : List ChainLine) (nets : List NetLine)
        → chain_part_lines (joined_chain chain nets) ≡ chain_part_lines chain }
    ensures lengths { (chain : List ChainLine) (nets : List NetLine)
        → AllByRecursion (λ line. HasBypassLength line.statement) chain
        → AllByRecursion (λ line. HasBypassLength line.statement) (joined_chain chain nets) }
    ensures chain_lines { (chain : List ChainLine) (nets : List NetLine)
        → map (λ line. line.line) (joined_chain chain nets) ≡ map (λ line. line.line) chain }
    ensures net_lines { (chain : List ChainLine) (nets : List NetLine)
        → map (λ line. line.line) (joined_nets chain nets) ≡ map (λ line. line.line) nets }
    ensures pins { (chain : List ChainLine) (nets : List NetLine)
        → map (λ line. line.pins) (joined_nets chain nets) ≡ map (λ line. line.pins) nets }
    ensures chain_count { (chain : List ChainLine) (nets : List NetLine)
        → length (joined_chain chain nets) ≡ length chain }
    ensures net_count { (chain : List ChainLine) (nets : List NetLine)
        → length (joined_nets chain nets) ≡ length nets }
{
    series_parts::law::kept_lines();
}

//! Laws of joined files, in which all nets that LINK lines connected have the same name. A law is a
//! property that holds for all files, stated as the contract of a function that does nothing. A
//! function whose proof needs a law calls the law's function.
ghost use Rattle.std.specs.Prelude.{◌≡◌, false, List, length, map, Ok};
ghost use Rattle.std.specs.List.{AllByRecursion};
ghost use Rattle.board_files.specs.ChainLines.{HasBypassLength};
ghost use Rattle.board_files.specs.declared.chain_file.ChainLine.{ChainLine};
ghost use Rattle.board_files.specs.declared.net_file.NetLine.{NetLine};
ghost use Rattle.series_parts.specs.JoinedFiles.{AreJoinedFiles};
ghost use Rattle.series_parts.specs.Joining.{joined_chain, joined_files, joined_nets};
ghost use Rattle.series_parts.specs.Lines.{chain_part_lines, has_link};

/// `joined_chain` and `joined_nets` return joined files, and there are no other joined files.
pub fn joined_once()
    ensures joined { (chain : List ChainLine) (nets : List NetLine)
        → AreJoinedFiles chain nets (joined_chain chain nets) (joined_nets chain nets) }
    ensures once { (chain : List ChainLine) (nets : List NetLine) (new_chain : List ChainLine)
        (new_nets : List NetLine) → AreJoinedFiles chain nets new_chain new_nets
        → (new_chain ≡ joined_chain chain nets) × (new_nets ≡ joined_nets chain nets) }
{}

/// Files without LINK lines are their own joined files.
pub fn unlinked_files()
    ensures { (chain : List ChainLine) (nets : List NetLine) → has_link chain ≡ false
        → joined_files chain nets ≡ Ok (record { chain = chain; nets = nets }) }
{}

/// A joined chain file has no LINK line. Its DEVICE and BYPASS lines, and the line numbers of all
/// its lines, are those of the chain file. If the lengths on the chain file's BYPASS lines are from
/// 2 to 255 bits, so are those of the joined chain file. A joined net file has the line numbers and
/// the pins of the net file, line by line. Each joined file has as many lines as the file from
/// which it is made.
pub fn kept_lines()
    ensures links { (chain : List ChainLine) (nets : List NetLine)
        → has_link (joined_chain chain nets) ≡ false }
    ensures parts { (chain : List ChainLine) (nets : List NetLine)
        → chain_part_lines (joined_chain chain nets) ≡ chain_part_lines chain }
    ensures lengths { (chain : List ChainLine) (nets : List NetLine)
        → AllByRecursion (λ line. HasBypassLength line.statement) chain
        → AllByRecursion (λ line. HasBypassLength line.statement) (joined_chain chain nets) }
    ensures chain_lines { (chain : List ChainLine) (nets : List NetLine)
        → map (λ line. line.line) (joined_chain chain nets) ≡ map (λ line. line.line) chain }
    ensures net_lines { (chain : List ChainLine) (nets : List NetLine)
        → map (λ line. line.line) (joined_nets chain nets) ≡ map (λ line. line.line) nets }
    ensures pins { (chain : List ChainLine) (nets : List NetLine)
        → map (λ line. line.pins) (joined_nets chain nets) ≡ map (λ line. line.pins) nets }
    ensures chain_count { (chain : List ChainLine) (nets : List NetLine)
        → length (joined_chain chain nets) ≡ length chain }
    ensures net_count { (chain : List ChainLine) (nets : List NetLine)
        → length (joined_nets chain nets) ≡ length nets }
{}

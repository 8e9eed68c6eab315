//! A property of every chain file: the lengths on its BYPASS lines are in range. The property is
//! stated as the contract of a function that does nothing.
ghost use Rattle.std.specs.Prelude.{◌≡◌, ℕ, List};
ghost use Rattle.std.specs.List.{AllByRecursion};
ghost use Rattle.board_files.specs.declared.chain_file.ChainLine.{ChainLine};
ghost use Rattle.board_files.specs.ChainLines.{HasBypassLength, chain_lines};

/// The length on each BYPASS line of a chain file is from 2 to 255 bits.
pub fn lengths_are_in_bounds()
    ensures { (text : List ℕ) (lines : List ChainLine) → chain_lines text ≡ Ok lines
        → AllByRecursion (λ line. HasBypassLength line.statement) lines }
{}

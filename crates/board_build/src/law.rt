//! Laws of the definitions. A law is a property that holds for all files, stated as the contract of
//! a function that does nothing.
ghost use Rattle.std.specs.Prelude.{◌≡◌, ◌<◌, ℕ, List, length, All};
ghost use Rattle.std.specs.List.{AllByRecursion};
ghost use Rattle.board_defs.specs.declared.board.RawBoard.{RawBoard};
ghost use Rattle.board_defs.specs.declared.device.RawDevice.{RawDevice};
ghost use Rattle.board_defs.specs.BoardRules.{IsBoard};
ghost use Rattle.board_defs.specs.DeviceRules.{IsDevice};
ghost use Rattle.board_files.specs.ChainLines.{HasBypassLength};
ghost use Rattle.board_files.specs.declared.net_file.NetLine.{NetLine};
ghost use Rattle.board_files.specs.declared.chain_file.ChainLine.{ChainLine};
ghost use Rattle.bsdl_parser.specs.declared.entity.Entity.{Entity};
ghost use Rattle.board_lines.specs.declared.names.Naming.TheVariants.{Entity as EntityName};
ghost use Rattle.board_build.specs.BoardRules.{board_of};
ghost use Rattle.board_lines.specs.ChainParts.{IsChain};
ghost use Rattle.board_lines.specs.Names.{named};
ghost use Rattle.board_lines.specs.Selection.{selection};

/// The selection finds the entity of each DEVICE line. Each number that it returns is the index of an
/// entity.
pub fn selected_are_entities()
    ensures { (lines : List ChainLine) (entities : List Entity) (numbers : List ℕ)
        → selection lines entities ≡ Ok numbers → All (λ number. number < length entities) numbers }
{}

/// If the selection succeeds, the chain has 1 to 255 parts with different names, and an entity is
/// selected for each DEVICE line.
pub fn selected_are_chains()
    ensures chain { (lines : List ChainLine) (entities : List Entity) (numbers : List ℕ)
        → selection lines entities ≡ Ok numbers → IsChain lines }
    ensures count { (lines : List ChainLine) (entities : List Entity) (numbers : List ℕ)
        → selection lines entities ≡ Ok numbers → length numbers ≡ length (named EntityName lines) }
{}

/// If the files and the devices denote a board, the board keeps the rules of a board. The chain
/// must have 1 to 255 parts with different names, and the lengths on its BYPASS lines must be from
/// 2 to 255 bits. There must be a device for each DEVICE line, and each device must keep the rules
/// of a device.
pub fn boards_keep_rules()
    ensures { (chain : List ChainLine) (nets : List NetLine) (devices : List RawDevice) (board : RawBoard)
        → IsChain chain → AllByRecursion (λ line. HasBypassLength line.statement) chain → AllByRecursion IsDevice devices → length devices ≡ length (named EntityName chain)
        → board_of chain nets devices ≡ Ok board → IsBoard board }
{}

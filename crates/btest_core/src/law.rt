//! Laws of the definitions. A law is a property that holds for all texts, stated as the contract of
//! a function that does nothing.
ghost use Rattle.std.specs.Prelude.{◌≡◌, ◌<◌, ◌≤◌, ℕ, List, Result, Ok, All, IfSome, length};
ghost use Rattle.board_defs.specs.Limits.{most_parts};
ghost use Rattle.board_defs.specs.declared.board.RawBoard.{RawBoard};
ghost use Rattle.board_defs.specs.declared.device.RawDevice.{RawDevice};
ghost use Rattle.board_defs.specs.BoardRules.{IsBoard};
ghost use Rattle.board_defs.specs.DeviceRules.{IsDevice};
ghost use Rattle.btest_core.specs.declared.fault.InputFault.{InputFault};
ghost use Rattle.btest_core.specs.DevicesRead.{IsDeviceText};
ghost use Rattle.btest_core.specs.BoardRead.{AreChainLengths, Denotes, IsBoardRead};
ghost use Rattle.btest_core.specs.IdentsRead.{Ident, AreIdents};

use board_build::law::{boards_keep_rules, selected_are_chains, selected_are_entities};
use board_files::law::lengths_are_in_bounds;
use bsdl_lexer::law::texts_have_one_answer;
use bsdl_parser::law::token_lists_have_one_answer;
use device_check::law::{entities_have_one_answer, sound_devices_keep_rules};

/// For all texts there is exactly one answer for the device, for the instruction lengths of the
/// chain, for its identification codes, and for the board. An answer is a value or the first fault.
pub fn inputs_have_one_answer()
    ensures some_device { (text : List ℕ)
        → (answer : Result RawDevice InputFault) × IsDeviceText text answer }
    ensures some_chain { (chain : List ℕ) (texts : List (List ℕ))
        → (answer : Result (List ℕ) InputFault) × AreChainLengths chain texts answer }
    ensures some_idents { (chain : List ℕ) (texts : List (List ℕ))
        → (answer : Result (List Ident) InputFault) × AreIdents chain texts answer }
    ensures some_board { (chain nets : List ℕ) (texts : List (List ℕ))
        → (answer : Result RawBoard InputFault) × IsBoardRead chain nets texts answer }
    ensures device { (text : List ℕ) (a b : Result RawDevice InputFault) → IsDeviceText text a
        → IsDeviceText text b → a ≡ b }
    ensures chain { (chain : List ℕ) (texts : List (List ℕ)) (a b : Result (List ℕ) InputFault)
        → AreChainLengths chain texts a → AreChainLengths chain texts b → a ≡ b }
    ensures idents { (chain : List ℕ) (texts : List (List ℕ)) (a b : Result (List Ident) InputFault)
        → AreIdents chain texts a → AreIdents chain texts b → a ≡ b }
    ensures board { (chain nets : List ℕ) (texts : List (List ℕ)) (a b : Result RawBoard InputFault)
        → IsBoardRead chain nets texts a → IsBoardRead chain nets texts b → a ≡ b }
{
    texts_have_one_answer();
    token_lists_have_one_answer();
    entities_have_one_answer();
    selected_are_entities();
}

/// A device that a text denotes keeps the rules of a device, and a board that texts denote keeps
/// the rules of a board. If the answer for the identification codes of a chain is a list, the list
/// has 1 to 255 items, and each pattern among them has 32 symbols.
pub fn inputs_keep_rules()
    ensures device { (text : List ℕ) (device : RawDevice) → IsDeviceText text (Ok device)
        → IsDevice device }
    ensures idents { (chain : List ℕ) (texts : List (List ℕ)) (idents : List Ident) → AreIdents chain texts (Ok idents)
        → (0 < length idents) × (length idents ≤ most_parts) × All (λ ident. IfSome ident (λ code. length code ≡ 32)) idents }
    ensures board { (chain nets : List ℕ) (texts : List (List ℕ)) (board : RawBoard)
        → Denotes chain nets texts board → IsBoard board }
{
    sound_devices_keep_rules();
    selected_are_chains();
    lengths_are_in_bounds();
    boards_keep_rules();
}

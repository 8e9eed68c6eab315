//! The law that a string has at most one value of each kind. The law is the contract of a function that does nothing.
ghost use Rattle.std.specs.Prelude.{◌≡◌, ℕ, List};
ghost use Rattle.board_defs.specs.declared.device.Symbol.{Symbol};
ghost use Rattle.bsdl_strings.specs.declared.values.MapEntry.{MapEntry};
ghost use Rattle.bsdl_strings.specs.declared.values.Opcode.{Opcode};
ghost use Rattle.bsdl_strings.specs.declared.values.Entry.{Entry};
ghost use Rattle.bsdl_strings.specs.declared.values.Compliance.{Compliance};
ghost use Rattle.bsdl_strings.specs.Strings.{IsPinMap, AreOpcodes, IsBoundary, IsPattern, IsCompliance};

/// A string has at most one value of each kind.
pub fn strings_have_one_value()
    ensures pin_map { (text : List ℕ) (a b : List MapEntry) → IsPinMap text a → IsPinMap text b
        → a ≡ b }
    ensures opcodes { (text : List ℕ) (a b : List Opcode) → AreOpcodes text a → AreOpcodes text b
        → a ≡ b }
    ensures pattern { (text : List ℕ) (a b : List Symbol) → IsPattern text a → IsPattern text b
        → a ≡ b }
    ensures compliance { (text : List ℕ) (a b : Compliance) → IsCompliance text a
        → IsCompliance text b → a ≡ b }
    ensures boundary { (text : List ℕ) (a b : List Entry) → IsBoundary text a → IsBoundary text b
        → a ≡ b }
{}

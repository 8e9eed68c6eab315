//! Calls of laws of `tap_defs` and `ident_test`, about scans of a chain and about the identity test.
ghost use Rattle.std.specs.Prelude.{◌≡◌, ℕ, Bool, List, Option, length, map, Some, slice_get};
ghost use Rattle.board_defs.specs.declared.device.RawDevice.{RawDevice};
ghost use Rattle.board_defs.specs.declared.device.Symbol.{Symbol};
ghost use Rattle.board_defs.specs.declared.board.PartKind.TheVariants.{Described};
ghost use Rattle.tap_defs.specs.chain.Transport.{DataTransport, LongDataTransport, CodeTransport, LongCodeTransport};
ghost use Rattle.tap_defs.specs.chain.TestLogic.{TestLogic, instruction_of};
ghost use Rattle.tap_defs.specs.board.OnBoard.{test_logic};
ghost use Rattle.ident_test.specs.CodedParts.{AreCoded, coded_parts, HasCode};
ghost use Rattle.ident_test.specs.IdentTest.{EachRunTells, IsIdentTest, ArePatterns};
ghost use Rattle.ident_test.specs.Patterns.{ident_text};

/// States which bits a data scan outputs, and which bits the chain then holds (IEEE 1149.1-1990, section 8). One clause is about scans that
/// are as long as the selected registers together, and the other about scans of any length.
pub fn data_scans()
    ensures transport { DataTransport }
    ensures any_length { LongDataTransport }
{
    tap_defs::chain_law::data_scans();
}

/// States which bits an instruction scan outputs, and what the instruction registers then hold (IEEE 1149.1-1990, section 6). One clause is
/// about scans that are as long as these registers together, and the other about scans of any length.
pub fn code_scans()
    ensures transport { CodeTransport }
    ensures any_length { LongCodeTransport }
{
    tap_defs::chain_law::code_scans();
}

/// States that `coded_parts` makes parts that are coded for the patterns of the devices (`AreCoded`). Each code must have 32 bits.
pub fn parts_coded()
    ensures { (devices : List RawDevice) (codes : ℕ → List Bool) → ((k : ℕ) → length (codes k) ≡ 32)
        → AreCoded (map (λ device. device.idcode) devices) (coded_parts devices codes) }
{
    ident_test::law::parts_coded();
}

/// States that each run of an identity test passes if and only if all codes fit their patterns. The parts of the chain must be coded for
/// the patterns.
pub fn each_run_tells()
    ensures { (patterns : List (Option (List Symbol))) (text : List ℕ) → IsIdentTest patterns text
        → EachRunTells patterns text }
{
    ident_test::law::each_run_tells();
}

/// States that `coded_parts` makes part `k` from device `k` and code `k`.
pub fn codes_assigned()
    ensures { (devices : List RawDevice) (codes : ℕ → List Bool) (k : ℕ) (device : RawDevice)
        → slice_get devices k ≡ Some device
        → (part : TestLogic) × (slice_get (coded_parts devices codes) k ≡ Some part)
        × HasCode device (codes k) part }
{
    ident_test::law::codes_assigned();
}

/// States that a part with a code interprets each instruction code like the part of its device without the code.
pub fn codes_keep_instructions()
    ensures { (device : RawDevice) (code : List Bool) (part : TestLogic) → HasCode device code part
        → (bits : List Bool)
        → instruction_of part bits ≡ instruction_of (test_logic (Described device)) bits }
{
    ident_test::law::codes_keep_instructions();
}

/// States that a part with a code has registers of the same lengths as the part of its device. If the device has a pattern, the part has
/// the code.
pub fn codes_keep_lengths()
    ensures instruction { (device : RawDevice) (code : List Bool) (part : TestLogic)
        → HasCode device code part → part.ir_length ≡ (test_logic (Described device)).ir_length }
    ensures boundary { (device : RawDevice) (code : List Bool) (part : TestLogic)
        → HasCode device code part
        → part.boundary_length ≡ (test_logic (Described device)).boundary_length }
    ensures code { (device : RawDevice) (code : List Bool) (part : TestLogic)
        (pattern : List Symbol) → HasCode device code part → device.idcode ≡ Some pattern
        → part.idcode ≡ code }
{
    ident_test::law::codes_keep_lengths();
}

/// States that the SVF text of the identity test is an identity test for the patterns of a chain (`IsIdentTest`): it passes on each chain
/// whose codes all fit their patterns, and fails on each chain with a code that does not fit. There must be 1 to 255 parts, and each
/// pattern must have 32 symbols.
pub fn ident_tests()
    ensures { (patterns : List (Option (List Symbol))) → ArePatterns patterns
        → IsIdentTest patterns (ident_text patterns) }
{
    ident_test::law::ident_tests();
}

//! Laws of the identity test. Each law is the contract of a function that does nothing. A caller
//! knows the law after calling the function.
ghost use Rattle.std.specs.Prelude.{◌≡◌, ℕ, Bool, List, Option, Some, length, map, slice_get};
ghost use Rattle.board_defs.specs.declared.device.RawDevice.{RawDevice};
ghost use Rattle.board_defs.specs.declared.device.Symbol.{Symbol};
ghost use Rattle.board_defs.specs.declared.board.PartKind.TheVariants.{Described};
ghost use Rattle.tap_defs.specs.board.OnBoard.{test_logic};
ghost use Rattle.tap_defs.specs.chain.TestLogic.{TestLogic, instruction_of};
ghost use Rattle.ident_test.specs.CodedParts.{AreCoded, HasCode, coded_parts};
ghost use Rattle.ident_test.specs.IdentTest.{ArePatterns, EachRunTells, IsIdentTest};
ghost use Rattle.ident_test.specs.Patterns.{ident_text};

/// The SVF text of the identity test passes on each chain whose identification codes all fit their
/// patterns, and fails on each chain with a code that does not fit. The chain may be in any state,
/// and the pins may capture anything. There must be 1 to 255 parts, each pattern must have 32
/// symbols, and the parts of the chain must be coded for the patterns (`AreCoded`).
pub fn ident_tests()
    ensures { (patterns : List (Option (List Symbol))) → ArePatterns patterns
        → IsIdentTest patterns (ident_text patterns) }
{}

/// If each code has 32 bits, the parts that `coded_parts` makes from devices and codes are coded
/// (`AreCoded`) for the patterns of the devices.
pub fn parts_coded()
    ensures { (devices : List RawDevice) (codes : ℕ → List Bool) → ((k : ℕ) → length (codes k) ≡ 32)
        → AreCoded (map (λ device. device.idcode) devices) (coded_parts devices codes) }
{}

/// If a text is an identity test for these patterns, each of its runs on a chain of parts that are
/// coded for the patterns passes if and only if all codes fit.
pub fn each_run_tells()
    ensures { (patterns : List (Option (List Symbol))) (text : List ℕ) → IsIdentTest patterns text
        → EachRunTells patterns text }
{}

/// `coded_parts` makes part `k` from device `k` and code `k`. The part has the register lengths and
/// the instruction codes of the device. If the device has a pattern, the part has the code.
pub fn codes_assigned()
    ensures { (devices : List RawDevice) (codes : ℕ → List Bool) (k : ℕ) (device : RawDevice)
        → slice_get devices k ≡ Some device
        → (part : TestLogic) × (slice_get (coded_parts devices codes) k ≡ Some part)
        × HasCode device (codes k) part }
{}

/// An identification code does not change the meaning of instruction codes: a part with a code
/// interprets each instruction code like the part of its device without the code.
pub fn codes_keep_instructions()
    ensures { (device : RawDevice) (code : List Bool) (part : TestLogic) → HasCode device code part
        → (bits : List Bool)
        → instruction_of part bits ≡ instruction_of (test_logic (Described device)) bits }
{}

/// A part with a code has registers of the same lengths as the part of its device. If the device
/// has a pattern, the part has the code.
pub fn codes_keep_lengths()
    ensures instruction { (device : RawDevice) (code : List Bool) (part : TestLogic)
        → HasCode device code part → part.ir_length ≡ (test_logic (Described device)).ir_length }
    ensures boundary { (device : RawDevice) (code : List Bool) (part : TestLogic)
        → HasCode device code part
        → part.boundary_length ≡ (test_logic (Described device)).boundary_length }
    ensures code { (device : RawDevice) (code : List Bool) (part : TestLogic)
        (pattern : List Symbol) → HasCode device code part → device.idcode ≡ Some pattern
        → part.idcode ≡ code }
{}

//! Laws of the scan chain and of SVF text. Each law is the contract of a function that does
//! nothing. A caller knows the law after calling the function.
ghost use Rattle.std.specs.Prelude.{◌≡◌, ℕ, ◌≤◌, List, sum, Some};
ghost use Rattle.board_defs.specs.Limits.{most_bits};
ghost use Rattle.tap_defs.specs.chain.ChainScans.{chain_text};
ghost use Rattle.tap_defs.specs.chain.ChainTest.{AreIrLengths, IsChainTest};
ghost use Rattle.tap_defs.specs.chain.Clocks.{test_clocks};
ghost use Rattle.tap_defs.specs.chain.Scan.{Scan};
ghost use Rattle.tap_defs.specs.chain.Svf.{meaning};
ghost use Rattle.tap_defs.specs.chain.Text.{svf_text, AllSized};
ghost use Rattle.tap_defs.specs.chain.Transport.{DataTransport, LongDataTransport, CodeTransport, LongCodeTransport};

/// A data scan that is as long as the selected registers together outputs the captured bits in
/// order, and the chain then holds the bits that were shifted in (IEEE 1149.1-1990, section 8). For
/// a data scan of any length `n`, take the captured bits followed by the bits that are shifted in:
/// the first `n` of them come out, and the chain then holds the others. This is so whatever the
/// pins capture. The scan must have at least one bit and begin in Run-Test/Idle, and the
/// instruction of each part must select a register of the model.
pub fn data_scans()
    ensures transport { DataTransport }
    ensures any_length { LongDataTransport }
{}

/// An instruction scan that is as long as the instruction registers together outputs the captured
/// bits in order, and each part then has the instruction of the code that was shifted into it (IEEE
/// 1149.1-1990, section 6). For an instruction scan of any length `n`, take the captured bits
/// followed by the bits that are shifted in: the first `n` of them come out, and the instruction
/// registers then hold the others. This is so whatever the current instructions are. The scan must
/// have at least one bit and begin in Run-Test/Idle.
pub fn code_scans()
    ensures transport { CodeTransport }
    ensures any_length { LongCodeTransport }
{}

/// The SVF text of scans means the clocks of the head (up to STATE IDLE), of the scans and of the
/// tail (STATE RESET). These clocks compare exactly the bits that the scans compare (SVF Revision
/// E). Each scan must have at least one and fewer than `2 ^ 64` bits.
pub fn texts_mean()
    ensures { (scans : List Scan) → AllSized scans
        → meaning (svf_text scans) ≡ Some (test_clocks scans) }
{}

/// The chain test for some instruction lengths passes on every chain of parts with these lengths. It
/// fails on every chain with these four properties: it has at least one part; each part has two or
/// more instruction bits; the number of parts is different; and the total number of instruction bits
/// is no larger. There must be at least one length, each length must be at least 2, and their sum
/// must be at most `most_bits`.
pub fn chain_tests()
    ensures { (lengths : List ℕ) → AreIrLengths lengths → sum lengths ≤ most_bits
        → IsChainTest lengths (chain_text lengths) }
{}

// The command `ident`, which writes the test of a chain's identification codes.
ghost use Rattle.std.specs.Prelude.{◌*◌, ◌≤◌, length};
ghost use Rattle.board_defs.specs.Limits.{most_parts};
ghost use Rattle.bt_base.specs.Puts.{Puts};
ghost use Rattle.ident_test.specs.IdentTest.{ArePatterns, IsIdentTest};
ghost use Rattle.ident_test.specs.Patterns.{ident_bits, ident_text};
ghost use Rattle.btest_core.specs.IdentsRead.{AreIdents};
ghost use Rattle.commands.specs.Worth.{IsIdentTestText};
ghost use Rattle.commands.specs.Answers.{ChainAnswers};
ghost use Rattle.commands.specs.inner.Rows.{EachStoredHasRoom};
ghost use Rattle.commands.specs.inner.Unput.{PutsText};

use crate::rows::Rows;
use crate::texts::ChainTexts;
use crate::unput::{Unput, answer_by, unput_by};
use board_defs::Code;
use bt_base::{PutFault, Sink};
use btest_core::read_idents;
use ident_test::law::ident_tests;
use ident_test::write_ident;
use std::alloc::Global;

// The largest number of bits of the scan that reads the codes: 32 for each of at most 255 parts. Section 11 of IEEE
// 1149.1-1990 gives the length of a code.
const MOST_CODE_BITS: u32 = 8160;

/// Writes the test of the identification codes of the parts that the texts describe. Allocates all memory before the first write.
pub fn ident<K: Sink>(alloc: Global, texts: &ChainTexts, out: &mut K) -> Result<(), Unput>
    ensures { ChainAnswers AreIdents ident_text IsIdentTestText texts.now (K.shown out.old)
        (K.shown out.new) result }
{
    match read_idents(alloc, texts.chain.as_bytes(), texts.bsdl.as_slice()) {
        Ok(patterns) => {
            tests_codes(&patterns);
            put_test(alloc, &patterns, out)
        }
        Err(fault) => Err(unput_by(fault)),
    }
}

// Writes the test of the identification codes with these patterns. `patterns` has an item for each part, which is `None` if the part has no
// pattern. There must be 1 to 255 items, and each pattern must have 32 symbols. The scan of the codes must have at most 255 times 32 bits.
fn put_test<K: Sink>(alloc: Global, patterns: &[Option<Code>], out: &mut K) -> Result<(), Unput>
    requires patterns { ArePatterns patterns.now }
    requires room { length (ident_bits patterns.now) ≤ most_parts * 32 }
    ensures { PutsText (ident_text patterns.now) (K.shown out.old) (K.shown out.new) result }
{
    let mut rows = Rows::with_room(alloc, MOST_CODE_BITS)?;
    answer_by(write_test(patterns, &mut rows, out))
}

// Like `put_test`, but also takes `rows`, the buffers for the bits of the scan. The rows must have room for the scan.
fn write_test<K: Sink>(
    patterns: &[Option<Code>],
    rows: &mut Rows,
    out: &mut K,
) -> Result<(), PutFault>
    requires patterns { ArePatterns patterns.now }
    requires room { EachStoredHasRoom (λ room. length (ident_bits patterns.now) ≤ room)
        rows.old.scan }
    ensures { Puts (K.shown out.old) (K.shown out.new) (ident_text patterns.now) result }
{
    let Rows { scan, line } = rows;
    write_ident(
        patterns,
        &mut scan.tdi,
        &mut scan.tdo,
        &mut scan.mask,
        line,
        out,
    )
}

// States that the text of the identity test tests whether codes fit these patterns (`IsIdentTest`), and that
// the scan of the codes has at most 255 times 32 bits. `patterns` must have 1 to 255 items, and each pattern
// must have 32 symbols. Does nothing.
fn tests_codes(patterns: &[Option<Code>])
    requires { ArePatterns patterns.now }
    ensures tests { IsIdentTest patterns.now (ident_text patterns.now) }
    ensures room { length (ident_bits patterns.now) ≤ most_parts * 32 }
{
    let _ = patterns;
    ident_tests();
}

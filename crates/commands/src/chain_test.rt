// The command `chain`, which writes the test of a chain's length.
ghost use Rattle.std.specs.Prelude.{◌≡◌, ◌<◌, ◌^◌, sum};
ghost use Rattle.bt_base.specs.Puts.{Puts};
ghost use Rattle.tap_defs.specs.chain.ChainScans.{chain_text};
ghost use Rattle.tap_defs.specs.chain.ChainTest.{IsChainTest};
ghost use Rattle.svf_writer.specs.Rows.{IsChainRoom};
ghost use Rattle.btest_core.specs.BoardRead.{AreChainLengths, AreLengths};
ghost use Rattle.commands.specs.Worth.{IsChainTestText};
ghost use Rattle.commands.specs.Answers.{ChainAnswers};
ghost use Rattle.commands.specs.inner.Rows.{EachStoredHasRoom};
ghost use Rattle.commands.specs.inner.Unput.{PutsText};

use crate::rows::Rows;
use crate::texts::ChainTexts;
use crate::unput::{Unput, answer_by, unput_by};
use bt_base::{PutFault, Sink};
use btest_core::read_chain;
use std::alloc::Global;
use svf_writer::{write_chain, write_head, write_tail};
use tap_defs::chain_law::chain_tests;

/// Writes the test of the length of the chain that the texts describe. Allocates all memory before the first write.
pub fn chain<K: Sink>(alloc: Global, texts: &ChainTexts, out: &mut K) -> Result<(), Unput>
    ensures { ChainAnswers AreChainLengths chain_text IsChainTestText texts.now (K.shown out.old)
        (K.shown out.new) result }
{
    match read_chain(alloc, texts.chain.as_bytes(), texts.bsdl.as_slice()) {
        Ok(lengths) => {
            tests_length(&lengths);
            put_test(alloc, &lengths, out)
        }
        Err(fault) => Err(unput_by(fault)),
    }
}

// Writes the test of a chain whose instruction registers have these lengths. There must be 1 to 255 lengths, each from 2 to 255.
fn put_test<K: Sink>(alloc: Global, lengths: &[u32], out: &mut K) -> Result<(), Unput>
    requires { AreLengths lengths.now }
    ensures { PutsText (chain_text lengths.now) (K.shown out.old) (K.shown out.new) result }
{
    let mut rows = Rows::with_room(alloc, longest_scan(lengths))?;
    answer_by(write_test(lengths, &mut rows, out))
}

// States that the text of the chain test tests the number of parts in a chain with these
// instruction lengths (`IsChainTest`). There must be 1 to 255 lengths, each from 2 to 255. Does
// nothing.
fn tests_length(lengths: &[u32])
    requires { AreLengths lengths.now }
    ensures { IsChainTest lengths.now (chain_text lengths.now) }
{
    let _ = lengths;
    chain_tests();
}

// Returns the number of bits of the longer scan of the chain test. There must be 1 to 255 lengths,
// each from 2 to 255.
fn longest_scan(lengths: &[u32]) -> u32
    requires { AreLengths lengths.now }
    ensures { IsChainRoom lengths.now result }
{
    instruction_bits(lengths).max(lengths.len() as u32 + 8)
}

fn instruction_bits(lengths: &[u32]) -> u32
    requires { sum lengths.now < 2 ^ 32 }
    ensures { result ≡ sum lengths.now }
{
    lengths.iter().sum()
}

// Like `put_test`, but also takes `rows`, the buffers for the bits of each scan. The rows must have room for every scan.
#[tactic(auto, unfolding(tap_defs::specs::chain::Text::svf_text))]
fn write_test<K: Sink>(lengths: &[u32], rows: &mut Rows, out: &mut K) -> Result<(), PutFault>
    requires lengths { AreLengths lengths.now }
    requires room { EachStoredHasRoom (IsChainRoom lengths.now) rows.old.scan }
    ensures { Puts (K.shown out.old) (K.shown out.new) (chain_text lengths.now) result }
{
    write_head(out)?;
    let Rows { scan, line } = rows;
    write_chain(
        lengths,
        &mut scan.tdi,
        &mut scan.tdo,
        &mut scan.mask,
        line,
        out,
    )?;
    write_tail(out)
}

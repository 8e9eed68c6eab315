//! Calls of `series_parts`, `svf_writer` and `ident_test` that join the files of a board, and write the chain test and the identity test.
ghost use Rattle.std.specs.Prelude.{◌≡◌, ◌<◌, ◌≤◌, length, All, IfOk, IfSome};
ghost use Rattle.answers.specs.Gives.{Gives};
ghost use Rattle.board_defs.specs.Limits.{most_parts, IsInstructionLength};
ghost use Rattle.bt_base.specs.Puts.{Puts};
ghost use Rattle.tap_defs.specs.chain.Text.{scan_texts};
ghost use Rattle.tap_defs.specs.chain.ChainScans.{chain_scans};
ghost use Rattle.svf_writer.specs.Rows.{IsChainRoom};
ghost use Rattle.ident_test.specs.Patterns.{ident_bits, ident_text};
ghost use Rattle.series_parts.specs.JoinedFiles.{AreJoinedFiles};
ghost use Rattle.series_parts.specs.Joining.{link_told, joined_files};

use board_defs::Code;
use board_files::{ChainFile, NetFile};
use bt_base::{PutFault, Sink};
use bt_bits::{Line, Row};
use series_parts::{Joined, LinkFault};
use std::alloc::Global;

/// Returns the joined files of a chain file and a net file. In joined files, all nets that LINK lines connect have the same name. If some
/// LINK pin is in no net, returns the line and word of the first such pin as the fault.
pub fn join(alloc: Global, chain: &ChainFile, nets: &NetFile) -> Result<Joined, LinkFault>
    ensures answer { Gives link_told (λ joined. joined)
        (λ answer. joined_files chain.now nets.now ≡ answer) result }
    ensures joined { IfOk result
        (λ joined. AreJoinedFiles chain.now nets.now joined.chain joined.nets) }
{
    series_parts::join(alloc, chain, nets)
}

/// Writes the SVF text of the two scans of the chain test. There must be 1 to 255 parts with lengths from 2 to 255 bits, and the rows must
/// have room for both scans. The call fails only if the sink fails.
pub fn write_chain<K: Sink>(
    lengths: &[u32],
    tdi: &mut Row,
    tdo: &mut Row,
    mask: &mut Row,
    line: &mut Line,
    out: &mut K,
) -> Result<(), PutFault>
    requires some { 0 < length lengths.now }
    requires parts { length lengths.now ≤ most_parts }
    requires each { All IsInstructionLength lengths.now }
    requires tdi_room { IsChainRoom lengths.now tdi.old.room }
    requires tdo_room { IsChainRoom lengths.now tdo.old.room }
    requires mask_room { IsChainRoom lengths.now mask.old.room }
    ensures text { Puts (K.shown out.old) (K.shown out.new) (scan_texts (chain_scans lengths.now))
        result }
    ensures tdi { tdi.new.room ≡ tdi.old.room }
    ensures tdo { tdo.new.room ≡ tdo.old.room }
    ensures mask { mask.new.room ≡ mask.old.room }
{
    svf_writer::write_chain(lengths, tdi, tdo, mask, line, out)
}

/// Writes the SVF text of the identity test of described parts with these IDCODE patterns, in the order from TDI to TDO. There must be 1 to
/// 255 parts, each pattern must have 32 symbols, and the rows must have room for the scan. The call fails only if the sink fails.
pub fn write_ident<K: Sink>(
    parts: &[Option<Code>],
    tdi: &mut Row,
    tdo: &mut Row,
    mask: &mut Row,
    line: &mut Line,
    out: &mut K,
) -> Result<(), PutFault>
    requires some { 0 < length parts.now }
    requires few { length parts.now ≤ most_parts }
    requires whole { All (λ part. IfSome part (λ code. length code ≡ 32)) parts.now }
    requires tdi_room { length (ident_bits parts.now) ≤ tdi.old.room }
    requires tdo_room { length (ident_bits parts.now) ≤ tdo.old.room }
    requires mask_room { length (ident_bits parts.now) ≤ mask.old.room }
    ensures text { Puts (K.shown out.old) (K.shown out.new) (ident_text parts.now) result }
    ensures tdi { tdi.new.room ≡ tdi.old.room }
    ensures tdo { tdo.new.room ≡ tdo.old.room }
    ensures mask { mask.new.room ≡ mask.old.room }
{
    ident_test::write_ident(parts, tdi, tdo, mask, line, out)
}

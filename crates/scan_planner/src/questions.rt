// Answers questions about each net of a plan, and about each position of its quiet row.
ghost use Rattle.std.specs.Prelude.{◌≡◌, ◌<◌, ◌≤◌, [], false, length, slice_index_or};
ghost use Rattle.board_defs.specs.declared.board.RawBoard.{RawBoard};
ghost use Rattle.board_defs.specs.Settings.{holds};
ghost use Rattle.net_pins.specs.Enabled.{enabled_on, readers_on};
ghost use Rattle.tap_defs.specs.board.BoardScans.{first_row_scan, row_bits};
ghost use Rattle.tap_defs.specs.chain.Scan.{joined, tdi_bits};
ghost use Rattle.plan_tables.specs.Plans.{IsPlanOf, most_rows};

use crate::pass_cells::pass_at;
use crate::plan::Plan;
use board_defs::Setting;
use bt_bits::Row;
use plan_tables::{NetDriver, ReaderCell};

/// Returns the code of a net, or 0 if `codes` has no code for this net.
#[inline]
pub fn code_at(codes: &[u32], net: u32) -> u32
    ensures { result ≡ slice_index_or codes.now net 0 }
{
    match codes.get(net as usize) {
        None => 0,
        Some(code) => *code,
    }
}

impl Plan {
    /// Returns the passes of the test.
    pub fn passes(&self) -> &[Setting]
        ensures { result.now ≡ self.now.passes }
    {
        self.tables.passes.as_slice()
    }

    /// Returns the number of passes.
    pub fn pass_count(&self) -> u32
        ensures { result ≡ length self.now.passes }
    {
        self.tables.passes.len() as u32
    }

    /// Returns pass `x`, counted from 0, which must be below the number of passes.
    pub fn pass(&self, x: u32) -> &Setting
        requires { x < length self.now.passes }
        ensures { result.now ≡ slice_index_or self.now.passes x [] }
    {
        pass_at(self.tables.passes.as_slice(), x as usize)
    }

    /// Returns the number of rows of each pass, which is the number of bits of the codes.
    pub fn width(&self) -> u32
        ensures width { result ≡ self.now.width }
        ensures few { result ≤ most_rows }
    {
        self.tables.width
    }

    /// Returns the code of a net: its number, from 1, among the nets that some pass observes. Returns 0 if no
    /// pass observes the net, or if no net has this number.
    pub fn code(&self, net: u32) -> u32
        ensures { result ≡ slice_index_or self.now.codes net 0 }
    {
        code_at(self.tables.codes.as_slice(), net)
    }

    /// Returns the first driver of an unguarded net, in pin order, that the setting `pass` enables, if there is
    /// one. A pass of the plan enables at most one driver of a net. Returns None for a guarded net, or if no net
    /// has this number.
    #[inline]
    pub fn driver(&self, pass: &Setting, net: u32) -> Option<NetDriver>
        ensures { result ≡ enabled_on self.now.nets (holds pass.now) net }
    {
        self.tables.nets.enabled(pass, net)
    }

    /// Returns the compared cells of a net, which are the INPUT, CLOCK and BIDIR cells of its receivers, in pin order.
    /// Returns no cells if no net has this number. A pass that observes the net compares only those of these cells that
    /// are on pins other than the driver's pin.
    pub fn readers(&self, net: u32) -> &[ReaderCell]
        ensures { result.now ≡ readers_on self.now.nets net }
    {
        self.tables.nets.readers(net)
    }

    /// Returns the bit at a position of the quiet row, or false past its end. The quiet row disables every driver that
    /// has a control.
    pub fn quiet(&self, position: u32) -> bool
        ensures { result ≡ slice_index_or self.now.quiet.bits position false }
    {
        position < self.tables.quiet.len() && self.tables.quiet.get(position)
    }

    /// Returns the quiet row, which the second scan and the last scan of each pass shift in.
    pub fn quiet_row(&self) -> &Row
        ensures row { result.now ≡ self.now.quiet }
        ensures shifted { (board : RawBoard) → IsPlanOf board self.now
            → result.now.bits ≡ tdi_bits (joined (row_bits board first_row_scan)) }
    {
        &self.tables.quiet
    }
}

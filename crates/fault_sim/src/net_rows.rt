// The rows of a pass of a log, with the compared cells of a net.
ghost use Rattle.std.specs.Prelude.{◌≡◌};
ghost use Rattle.fault_sim.specs.inner.NetRows.{net_rows_in};

use crate::passes::LoggedPass;
use response_log::Log;
use scan_planner::ReaderCell;
use std::marker::Model;

/// The `width` rows of a pass of a log, from row `first` on, and the compared cells of a net. Each row of the log has a bit for each of
/// these cells.
#[derive(Drop)]
pub struct NetRows<'a> {
    pub(crate) log: &'a Log,
    pub(crate) first: u64,
    pub(crate) width: u32,
    pub(crate) readers: &'a [ReaderCell],
}

impl<'a> Model for NetRows<'a> {
    ghost use Rattle.fault_sim.specs.inner.NetRows.{AreNetRows, RowsOfNet, rows_of_net};

    ghost Value = { RowsOfNet };

    ghost view = { λ a. rows_of_net a.log.now a.first a.width a.readers.now };

    ghost invariant = { λ a. AreNetRows (rows_of_net a.log.now a.first a.width a.readers.now) };
}

impl<'a> LoggedPass<'a> {
    /// Returns the rows of this pass of the log, with the compared cells of a net.
    pub fn net_rows(&self, net: u32) -> NetRows<'a>
        ensures { result ≡ net_rows_in self.now net }
    {
        let plan = self.pass.plan();
        let _rules = self.pass.board().raw();
        NetRows {
            log: self.log,
            first: self.pass.first_row(),
            width: plan.width(),
            readers: plan.readers(net),
        }
    }
}

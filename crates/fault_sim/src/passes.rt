// The passes of a board's test, and the passes of a log of the test. A kept pass stores rows and drivers of a
// pass, so that many logs can share them. No pass observes a guarded net, for example a net that carries a
// supply.
ghost use Rattle.std.specs.Prelude.{◌≡◌, ◌*◌, ◌<◌, ◌^◌, ◌&&◌, [], length, slice_index_or};
ghost use Rattle.board_defs.specs.Passes.{passes_of};
ghost use Rattle.scan_planner.specs.Plans.{IsPlanOf};
ghost use Rattle.fault_sim.specs.Effects.{code_in, driver_in, fed_net, place_of_driver, pull_in};
ghost use Rattle.fault_sim.specs.Kept.{AreComparedRows, IsLogOfTest, IsComparedRow, KeepDrivers, enabled_driver};
ghost use Rattle.fault_sim.specs.Planned.{controls_of, plan_pass};
ghost use Rattle.fault_sim.specs.inner.Marks.{HasScanRoom};
ghost use Rattle.fault_sim.specs.inner.Telling.{AreWordsIn};
ghost use Rattle.fault_sim.specs.inner.Tested.{observes_in};

use crate::feed::{EnabledDriver, FedNet, enabled_driver, net_fed_by, observes, pull_in};
use crate::kept::{ComparedRow, KeptPass, kept_driver, kept_drivers};
use crate::words::{FedWords, fed_words};
use board_defs::{Board, Setting};
use response_log::Log;
use scan_planner::{PassOfPlan, Plan};
use std::marker::Model;

/// A pass of a plan, with the drivers that a kept pass stores for it, if there is one. The model is the plan and the controls that the pass
/// holds.
#[derive(Drop)]
pub struct PassDrivers<'a> {
    plan: &'a Plan,
    pass: &'a Setting,
    kept: &'a [Option<EnabledDriver>],
}

impl<'a> Model for PassDrivers<'a> {
    ghost use Rattle.fault_sim.specs.Kept.{AreDrivers};
    ghost use Rattle.fault_sim.specs.Planned.{PlanPass, plan_pass};

    ghost Value = { PlanPass };

    ghost view = { λ a. plan_pass a.plan.now a.pass.now };

    ghost invariant = { λ a. AreDrivers a.plan.now a.pass.now a.kept.now };
}

impl<'a> PassDrivers<'a> {
    /// Returns pass `x` of a plan, counted from 0. `x` must be below the number of passes, and `kept` must be kept
    /// passes of this plan.
    pub fn of(plan: &'a Plan, kept: &'a [KeptPass], x: u32) -> PassDrivers<'a>
        requires kept { KeepDrivers plan.now kept.now }
        requires pass { x < length plan.now.passes }
        ensures { result ≡ plan_pass plan.now (slice_index_or plan.now.passes x []) }
    {
        PassDrivers {
            plan,
            pass: plan.pass(x),
            kept: kept_drivers(kept, x),
        }
    }

    /// Returns the driver that the pass enables on a net, or `None` if it enables none or the net is guarded.
    fn on(&self, net: u32) -> Option<EnabledDriver>
        ensures { result ≡ enabled_driver self.now.plan self.now.pass net }
    {
        match kept_driver(self.kept, net) {
            Some(driver) => driver,
            None => enabled_driver(self.plan, self.pass, net),
        }
    }

    // Returns whether the pass observes a net.
    fn observes(&self, net: u32) -> bool
        ensures { result ≡ observes_in self.now.plan self.now.pass net }
    {
        observes(self.on(net))
    }

    /// Returns whether the pass observes both nets.
    pub fn observes_both(&self, a: u32, b: u32) -> bool
        ensures { result
            ≡ (observes_in self.now.plan self.now.pass a
            && observes_in self.now.plan self.now.pass b) }
    {
        self.observes(a) && self.observes(b)
    }
}

/// A pass of a board's test, with the drivers and rows that a kept pass stores for it, if there is one. The model is the test and the
/// number of the pass.
#[derive(Drop)]
pub struct TestPass<'a> {
    pub(crate) pass: PassOfPlan<'a>,
    pub(crate) drivers: PassDrivers<'a>,
    pub(crate) rows: &'a [ComparedRow],
}

impl<'a> Model for TestPass<'a> {
    ghost use Rattle.fault_sim.specs.Kept.{IsTestPass};
    ghost use Rattle.fault_sim.specs.Planned.{PlannedPass};

    ghost Value = { PlannedPass };

    ghost view = { λ a. a.pass };

    ghost invariant = { λ a. IsTestPass a.pass a.drivers a.rows.now };
}

impl<'a> TestPass<'a> {
    /// Returns the board.
    pub fn board(&self) -> &'a Board
        ensures { result.now ≡ self.now.test.board }
    {
        self.pass.test().board()
    }

    /// Returns the plan.
    pub fn plan(&self) -> &'a Plan
        ensures value { result.now ≡ self.now.test.plan }
        ensures plan { IsPlanOf self.now.test.board self.now.test.plan }
        ensures passes { self.now.test.plan.passes ≡ passes_of self.now.test.board }
    {
        self.pass.test().plan()
    }

    /// Returns the number of the first row of the pass in a log of the test.
    pub fn first_row(&self) -> u64
        ensures value { result ≡ self.now.number * self.now.test.plan.width }
        ensures pass { self.now.number < length self.now.test.plan.passes }
        ensures few { result < 2 ^ 40 }
    {
        u64::from(self.pass.number()) * u64::from(self.plan().width())
    }

    /// Returns the driver that the pass enables on a net, or `None` if it enables none or the net is guarded.
    pub fn driver(&self, net: u32) -> Option<EnabledDriver>
        ensures { result ≡ enabled_driver self.now.test.plan (controls_of self.now) net }
    {
        self.drivers.on(net)
    }

    /// Returns the place of the enabled driver's pin, that is, the pin's index in the net's list of pins.
    /// Returns `None` if the pass enables no driver on the net or the net is guarded.
    pub fn driver_place(&self, net: u32) -> Option<u32>
        ensures { result
            ≡ place_of_driver (driver_in self.now.test.plan (controls_of self.now) net) }
    {
        match self.driver(net) {
            None => None,
            Some(driver) => Some(driver.place),
        }
    }

    /// Returns the value to which a net is pulled, or `None` if the net has no pull.
    pub fn pull(&self, net: u32) -> Option<bool>
        ensures { result ≡ pull_in self.now.test.board net }
    {
        pull_in(self.board(), net)
    }

    /// Returns a net in this pass: its feed, which has the bits that the net gets from its enabled driver, and its
    /// pull.
    pub fn fed(&self, net: u32) -> FedNet
        ensures { result
            ≡ fed_net self.now.test.board self.now.test.plan (controls_of self.now) net }
    {
        net_fed_by(self.driver(net), self.pull(net))
    }

    /// Returns the stored rows of the pass, which many logs share. Item `j` is row `j` of the pass. The list may be
    /// empty.
    pub fn kept_rows(&self) -> &'a [ComparedRow]
        ensures { AreComparedRows self.now.test.board self.now.test.plan self.now.number
            result.now }
    {
        self.rows
    }

    /// Fills `row` with the bits that the test expects in row `j` of the pass, and with the mask of the compared bits. `j` must be below
    /// the number of rows of a pass, and `row` must have room for a data scan.
    pub fn fill_row(&self, j: u32, row: &mut ComparedRow)
        requires row { j < self.now.test.plan.width }
        requires room { HasScanRoom self.now.test.board row.old }
        ensures row { IsComparedRow self.now.test.board self.now.test.plan self.now.number j
            row.new }
        ensures room { HasScanRoom self.now.test.board row.new }
    {
        self.pass.fill_compared(j, &mut row.tdo, &mut row.mask);
    }
}

/// A pass of a log, with its test. The model is the test, the log and the number of the pass. A pass does not borrow the `LoggedTest` that
/// makes it, so it has an invariant about the log, like that type.
#[derive(Drop)]
pub struct LoggedPass<'a> {
    pub(crate) pass: TestPass<'a>,
    pub(crate) log: &'a Log,
}

impl<'a> Model for LoggedPass<'a> {
    ghost use Rattle.fault_sim.specs.Kept.{IsLogOfTest};
    ghost use Rattle.fault_sim.specs.Planned.{PassOfLog, logged_board, pass_of_log};

    ghost Value = { PassOfLog };

    ghost view = { λ a. pass_of_log (logged_board a.pass.test a.log.now) a.pass.number };

    ghost invariant = { λ a. IsLogOfTest a.pass.test a.log.now };
}

impl<'a> LoggedPass<'a> {
    /// Does nothing. Its contract states four facts: the pass is one of the plan's passes, the plan is a plan
    /// of the board, the plan's passes are the board's passes, and the log has the rows of the test, each as
    /// long as a data scan.
    pub fn laws(&self)
        ensures pass { self.now.number < length self.now.logged.test.plan.passes }
        ensures plan { IsPlanOf self.now.logged.test.board self.now.logged.test.plan }
        ensures passes { self.now.logged.test.plan.passes ≡ passes_of self.now.logged.test.board }
        ensures log { IsLogOfTest self.now.logged.test self.now.logged.log }
    {
        let _plan = self.pass.plan();
        let _row = self.pass.first_row();
    }

    /// Returns the board.
    pub fn board(&self) -> &'a Board
        ensures { result.now ≡ self.now.logged.test.board }
    {
        self.pass.board()
    }

    /// Returns the code of a net, or 0 if no pass observes the net.
    pub fn code(&self, net: u32) -> u32
        ensures { result ≡ code_in self.now.logged.test.plan net }
    {
        self.pass.plan().code(net)
    }

    /// Returns the bits to which a net is driven in the rows of this pass, as words, and the net's pull. Bit `j` of a
    /// word belongs to row `j`.
    pub fn fed_words(&self, net: u32) -> FedWords
        ensures { AreWordsIn self.now net result }
    {
        fed_words(self.pass.fed(net))
    }
}

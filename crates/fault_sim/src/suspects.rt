// Finds the suspects of a log: the places whose faults may explain it. A net is covered if some safe setting
// observes it. A safe setting is a set of controls that the test may enable together.
ghost use Rattle.std.specs.Prelude.{◌≡◌, ◌+◌, ◌-◌, ◌*◌, ◌<◌, ◌^◌, ◌++◌, suc, length, All, IfOk, OnOk, slice_get, Some};
ghost use Rattle.std.specs.List.{flat_map, range_with_len};
ghost use Rattle.board_defs.specs.Passes.{passes_of};
ghost use Rattle.board_defs.specs.Pins.{data_bits};
ghost use Rattle.scan_planner.specs.Plans.{IsPlanOf};
ghost use Rattle.fault_sim.specs.Places.{IsUniverse};
ghost use Rattle.fault_sim.specs.Suspects.{AreSuspects};
ghost use Rattle.fault_sim.specs.inner.Suspects.{two_from, four_from, pair_number, pair_suspects, pin_net, is_net, pin_suspects, net_suspects, covered_place, suspects_of};

use crate::board_test::LoggedTest;
use crate::differing::ComparedLog;
use crate::fault_lists::FaultLists;
use crate::universe::{Universe, start_at};
use board_defs::{Board, PinRef, law};
use response_log::Log;
use scan_planner::Plan;
use std::alloc::{AllocError, Global};
use std::marker::Model;
use tap_defs::board_law;
use tap_defs::board_law::{codes_number_covered, singles_observable};

/// The suspects of a log: the places of a board whose faults may explain the log. A place is the number of a
/// possible single fault. The model is the list of these places. A single fault changes only compared cells
/// of its own nets, so every suspect belongs to all nets that differ in the log. The places of two nets that
/// no pass observes together have no fault, but they can be suspects.
#[derive(Drop)]
pub struct Suspects {
    places: Vec<u64>,
}

impl Model for Suspects {
    ghost use Rattle.std.specs.Prelude.{List, ℕ};

    ghost Value = { List ℕ };

    ghost view = { λ a. a.places.items };
}

fn push_two(places: &mut Vec<u64>, place: u64) -> Result<(), AllocError>
    requires { place < 2 ^ 40 }
    ensures { OnOk result (places.new.items ≡ places.old.items ++ two_from place) }
{
    places.push(place)?;
    places.push(place + 1)?;
    Ok(())
}

fn push_four(places: &mut Vec<u64>, place: u64) -> Result<(), AllocError>
    requires { place < 2 ^ 40 }
    ensures { OnOk result (places.new.items ≡ places.old.items ++ four_from place) }
{
    places.push(place)?;
    places.push(place + 1)?;
    places.push(place + 2)?;
    places.push(place + 3)?;
    Ok(())
}

// Returns the index of the pair of covered nets `a` and `b` in the list of all pairs, if `a` is below `b`. The covered nets are numbered by
// their index in `lists.nets`.
fn pair_number(lists: &FaultLists, a: u32, b: u32) -> u64
    ensures number { result ≡ pair_number lists.now a b }
    ensures few { result < 2 ^ 34 }
{
    start_at(lists.starts.as_slice(), a as usize) + u64::from(b.saturating_sub(a).saturating_sub(1))
}

fn push_pair(places: &mut Vec<u64>, lists: &FaultLists, a: u32, b: u32) -> Result<(), AllocError>
    ensures { OnOk result (places.new.items ≡ places.old.items ++ pair_suspects lists.now a b) }
{
    let first = 2 * lists.nets.len() as u64 + 2 * lists.pins.len() as u64;
    push_four(places, first + 4 * pair_number(lists, a, b))
}

fn is_pin_of(pins: &[PinRef], i: usize, n: u32) -> bool
    ensures { result ≡ is_net n (pin_net (slice_get pins.now i)) }
{
    match pins.get(i) {
        None => false,
        Some(pin) => pin.net == n,
    }
}

fn push_pin(places: &mut Vec<u64>, lists: &FaultLists, n: u32, i: usize) -> Result<(), AllocError>
    requires { i < length lists.now.pins }
    ensures { OnOk result (places.new.items ≡ places.old.items ++ pin_suspects lists.now n i) }
{
    if is_pin_of(lists.pins.as_slice(), i, n) {
        let first = 2 * lists.nets.len() as u64;
        push_two(places, first + 2 * i as u64)?;
    }
    Ok(())
}

fn push_pins(places: &mut Vec<u64>, lists: &FaultLists, n: u32) -> Result<(), AllocError>
    ensures { OnOk result
        (places.new.items
        ≡ places.old.items
        ++ flat_map (pin_suspects lists.now n) (range_with_len 0 (length lists.now.pins))) }
{
    for i in 0..lists.pins.len() {
        push_pin(places, lists, n, i)?;
    }
    Ok(())
}

// Adds the places of all shorts of item `k` of the covered nets with an earlier covered net.
fn push_earlier(places: &mut Vec<u64>, lists: &FaultLists, k: u32) -> Result<(), AllocError>
    ensures { OnOk result
        (places.new.items
        ≡ places.old.items ++ flat_map (λ a. pair_suspects lists.now a k) (range_with_len 0 k)) }
{
    for a in 0..k {
        push_pair(places, lists, a, k)?;
    }
    Ok(())
}

// Adds the places of all shorts of item `k` of the covered nets with a later covered net.
fn push_later(places: &mut Vec<u64>, lists: &FaultLists, k: u32) -> Result<(), AllocError>
    ensures { OnOk result
        (places.new.items
        ≡ places.old.items
        ++ flat_map (λ b. pair_suspects lists.now k b)
        (range_with_len (suc k) (length lists.now.nets - suc k))) }
{
    for b in k.saturating_add(1)..lists.nets.len() as u32 {
        push_pair(places, lists, k, b)?;
    }
    Ok(())
}

// Returns the index of net `n` in the list of covered nets, or 0 if the net has no code. The codes number the covered nets from 1.
fn covered_place(plan: &Plan, n: u32) -> u32
    ensures { result ≡ covered_place plan.now n }
{
    plan.code(n).saturating_sub(1)
}

// Returns the places of all faults of covered net `n`.
fn net_suspects(
    alloc: Global,
    plan: &Plan,
    lists: &FaultLists,
    n: u32,
) -> Result<Vec<u64>, AllocError>
    ensures { IfOk result
        (λ places. places.items ≡ net_suspects lists.now n (covered_place plan.now n)) }
{
    let k = covered_place(plan, n);
    let mut places = Vec::new(alloc);
    push_two(&mut places, 2 * u64::from(k))?;
    push_pins(&mut places, lists, n)?;
    push_earlier(&mut places, lists, k)?;
    push_later(&mut places, lists, k)?;
    Ok(places)
}

// Returns the places of the shorts of covered nets `m` and `n`.
fn pair_suspects(
    alloc: Global,
    plan: &Plan,
    lists: &FaultLists,
    m: u32,
    n: u32,
) -> Result<Vec<u64>, AllocError>
    ensures { IfOk result
        (λ places. places.items
        ≡ pair_suspects lists.now (covered_place plan.now m) (covered_place plan.now n)) }
{
    let mut places = Vec::new(alloc);
    push_pair(
        &mut places,
        lists,
        covered_place(plan, m),
        covered_place(plan, n),
    )?;
    Ok(places)
}

// Returns the suspects of a log. `nets` are the nets that differ in the log.
fn suspects_of(
    alloc: Global,
    plan: &Plan,
    lists: &FaultLists,
    nets: &[u32],
) -> Result<Vec<u64>, AllocError>
    ensures { IfOk result (λ places. places.items ≡ suspects_of plan.now lists.now nets.now) }
{
    match nets {
        [n] => net_suspects(alloc, plan, lists, *n),
        [m, n] => pair_suspects(alloc, plan, lists, *m, *n),
        _ => Ok(Vec::new(alloc)),
    }
}

impl Suspects {
    /// Returns the places of a universe whose faults may explain a log. If one net differs in the log, these
    /// are the places of all faults of this net. If two nets differ, these are the four places of the two
    /// nets, which have no fault if no pass observes both nets. Otherwise there are none. The plan must be
    /// built from the board's passes. The universe, which has all places of a board, must be built for this
    /// board. The log must have the plan's rows, each as long as a data scan.
    pub fn new(
        alloc: Global,
        board: &Board,
        plan: &Plan,
        universe: &Universe,
        log: &Log,
    ) -> Result<Suspects, AllocError>
        requires plan { IsPlanOf board.now plan.now }
        requires passes { plan.now.passes ≡ passes_of board.now }
        requires universe { IsUniverse board.now universe.now }
        requires rows { length log.now ≡ length plan.now.passes * plan.now.width }
        requires bits { All (λ row. length row ≡ data_bits board.now) log.now }
        ensures { IfOk result
            (λ suspects. AreSuspects board.now plan.now universe.now log.now suspects) }
    {
        let compared = LoggedTest::of(board, plan, log).compared(alloc)?;
        compared.suspects(alloc, universe)
    }

    /// Returns the number of suspects.
    pub fn count(&self) -> u64
        ensures { result ≡ length self.now }
    {
        self.places.len() as u64
    }

    /// Returns the place of suspect `i`, counted from 0, in the universe. `i` must be below the number of suspects. The
    /// places are in ascending order.
    pub fn place(&self, i: u64) -> u64
        requires { i < length self.now }
        ensures { slice_get self.now i ≡ Some result }
    {
        place_at(&self.places, i as usize)
    }
}

fn place_at(places: &[u64], i: usize) -> u64
    requires { i < length places.now }
    ensures { slice_get places.now i ≡ Some result }
{
    places[i]
}

impl<'a> ComparedLog<'a> {
    /// Like `Suspects::new`, for this test and log. The universe must be built for the board of the test.
    pub fn suspects(&self, alloc: Global, universe: &Universe) -> Result<Suspects, AllocError>
        requires { IsUniverse self.now.test.board universe.now }
        ensures { IfOk result
            (λ suspects. AreSuspects self.now.test.board self.now.test.plan universe.now
            self.now.log suspects) }
    {
        let logged = self.logged();
        let plan = logged.plan();
        let _log = logged.log();
        let _rules = logged.board().raw();
        law::passes_kept();
        codes_number_covered();
        singles_observable();
        board_law::rows_compared();
        board_law::singles_respond();
        board_law::expected_bits();
        board_law::expected_logs();
        let places = suspects_of(alloc, plan, universe.lists(), self.nets())?;
        Ok(Suspects { places })
    }
}

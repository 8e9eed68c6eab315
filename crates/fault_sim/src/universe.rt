// The universe of a board: the places of its single faults. A place is the number of a possible single fault.
// A net is covered if some safe setting observes it. A safe setting is a set of controls that the test may
// enable together.
ghost use Rattle.std.specs.Prelude.{◌≡◌, ◌+◌, ◌-◌, ◌<◌, ◌≤◌, true, length, slice_get, slice_index_or, IfOk, Some};
ghost use Rattle.std.specs.List.{flat_map};
ghost use Rattle.board_defs.specs.declared.board.RawBoard.{RawBoard};
ghost use Rattle.board_defs.specs.BoardRules.{IsBoard};
ghost use Rattle.board_defs.specs.Limits.{most_nets};
ghost use Rattle.board_defs.specs.Faults.{stuck_faults, open_faults, kind_rank};
ghost use Rattle.board_defs.specs.Passes.{passes_of, pairs_within};
ghost use Rattle.scan_planner.specs.Plans.{IsPlanOf};
ghost use Rattle.plan_tables.specs.declared.tables.PlanTables.{PlanTables};
ghost use Rattle.fault_sim.specs.Places.{IsUniverse, place_count, number_places, listed_at, listed_places, observes_fault, places_of, where_observed};
ghost use Rattle.fault_sim.specs.Starts.{ArePairStarts, pairs_before};

use crate::board_test::BoardTest;
use crate::fault_lists::FaultLists;
use crate::fits::net_count;
use crate::tested::{coded_nets, observes_fault, tested_pins};
use board_defs::{Board, Items, Kind, PinRef, Single, law};
use scan_planner::Plan;
use std::alloc::{AllocError, Global};
use std::marker::Model;
use tap_defs::board_law::codes_number_covered;

/// The numbered places of a board's single faults, in the order of these faults. Each covered net has two places, each tested pin has two,
/// and each pair of covered nets has four. If no pass observes both nets of a pair, the places of the pair have no fault.
#[derive(Drop)]
pub struct Universe {
    lists: FaultLists,
}

impl Model for Universe {
    ghost use Rattle.fault_sim.specs.declared.fault_lists.FaultLists.{FaultLists};

    ghost Value = { FaultLists };

    ghost view = { λ a. a.lists };
}

// Returns the items of `FaultLists::starts` for `nets` covered nets. Item `a` is the index of covered net
// `a`'s first pair with a later covered net, in the list of all pairs. The last item is the count of all
// pairs. `nets` must be at most `most_nets`.
fn pair_starts(alloc: Global, nets: u32) -> Result<Vec<u64>, AllocError>
    requires { nets ≤ most_nets }
    ensures { IfOk result (λ starts. ArePairStarts nets starts.items) }
{
    let mut starts = Vec::new(alloc);
    let mut start = 0u64;
    starts.push(start)?;
    for a in 0..nets {
        start += u64::from(nets - a - 1);
        starts.push(start)?;
    }
    Ok(starts)
}

// Returns true only if pair `k` is a pair of covered net `row` with a later covered net. The covered nets are
// numbered by their index in the list of covered nets.
fn holds_pair(starts: &[u64], row: usize, k: u64) -> bool
    ensures within { result ≡ true → row + 1 < length starts.now }
    ensures low { result ≡ true → slice_index_or starts.now row 0 ≤ k }
    ensures high { result ≡ true → k < slice_index_or starts.now (row + 1) 0 }
{
    if k < start_at(starts, row) {
        return false;
    }
    k < start_at(starts, row.saturating_add(1))
}

// Returns the index of the first net of pair `k` in the list of covered nets, by binary search. `starts` must
// not be empty. `k` must be at least the first item of `starts` and below the last item.
fn halved_row(starts: &[u64], k: u64) -> usize
    requires some { 0 < length starts.now }
    requires first { slice_index_or starts.now 0 0 ≤ k }
    requires last { k < slice_index_or starts.now (length starts.now - 1) 0 }
    ensures within { result + 1 < length starts.now }
    ensures low { slice_index_or starts.now result 0 ≤ k }
    ensures high { k < slice_index_or starts.now (result + 1) 0 }
{
    let mut low = 0;
    let mut high = starts.len() - 1;
    while low + 1 < high {
        let middle = low + (high - low) / 2;
        if starts[middle] <= k {
            low = middle;
        } else {
            high = middle;
        }
    }
    low
}

// Like `halved_row`, but first tries the indexes `near` and `near + 1`. `near` is the result of the last
// look-up. Most callers ask for pairs in ascending order, so one of these two indexes is usually the right
// one.
fn row_of(starts: &[u64], k: u64, near: usize) -> usize
    requires some { 0 < length starts.now }
    requires first { slice_index_or starts.now 0 0 ≤ k }
    requires last { k < slice_index_or starts.now (length starts.now - 1) 0 }
    ensures within { result + 1 < length starts.now }
    ensures low { slice_index_or starts.now result 0 ≤ k }
    ensures high { k < slice_index_or starts.now (result + 1) 0 }
{
    let next = near.saturating_add(1);
    if holds_pair(starts, near, k) {
        near
    } else if holds_pair(starts, next, k) {
        next
    } else {
        halved_row(starts, k)
    }
}

// Returns the number of pairs of covered nets.
fn pair_count(lists: &FaultLists) -> u64
    ensures { result ≡ pairs_before (length lists.now.nets) (length lists.now.nets) }
{
    start_at(lists.starts.as_slice(), lists.nets.len())
}

/// Returns item `a` of `starts`: the index of covered net `a`'s first pair with a later covered net, in the
/// list of all pairs. The last item is the count of all pairs. Returns 0 past the last item.
pub fn start_at(starts: &[u64], a: usize) -> u64
    ensures { result ≡ slice_index_or starts.now a 0 }
{
    match starts.get(a) {
        None => 0,
        Some(start) => *start,
    }
}

fn net_at(nets: &[u32], k: usize) -> Option<u32>
    ensures { result ≡ slice_get nets.now k }
{
    match nets.get(k) {
        None => None,
        Some(net) => Some(*net),
    }
}

fn pin_at(pins: &[PinRef], k: usize) -> Option<PinRef>
    ensures { result ≡ slice_get pins.now k }
{
    match pins.get(k) {
        None => None,
        Some(pin) => Some(*pin),
    }
}

// Returns fault `i` in the list of these nets' stuck faults. Each net has two such faults, stuck at 0 first.
// Returns `None` if the list has no fault `i`.
fn stuck_at(nets: &[u32], i: u64) -> Option<Single>
    ensures { result ≡ slice_get (flat_map stuck_faults nets.now) i }
{
    match net_at(nets, (i / 2) as usize) {
        None => None,
        Some(net) => Some(Single::StuckNet {
            net,
            value: i % 2 == 1,
        }),
    }
}

// Returns fault `i` in the list of these pins' open faults. Each pin has two such faults, with value 0 first.
// Returns `None` if the list has no fault `i`.
fn open_at(pins: &[PinRef], i: u64) -> Option<Single>
    ensures { result ≡ slice_get (flat_map open_faults pins.now) i }
{
    match pin_at(pins, (i / 2) as usize) {
        None => None,
        Some(pin) => Some(Single::OpenPin {
            pin,
            value: i % 2 == 1,
        }),
    }
}

// Returns pair `k` of the covered nets, or `None` if there is no pair `k`. The net that comes first in the
// list of covered nets is the first net of the pair. On entry, `near` is the index, in the list of covered
// nets, of the first net of the pair that the last look-up found. If there is a pair `k`, sets `near` to the
// index of the first net of this pair.
fn pair_at(lists: &FaultLists, k: u64, near: &mut usize) -> Option<(u32, u32)>
    ensures { result ≡ slice_get (pairs_within lists.now.nets) k }
{
    let count = pair_count(lists);
    if k >= count {
        return None;
    }
    let starts = lists.starts.as_slice();
    let low = row_of(starts, k, *near);
    *near = low;
    let high = low + 1 + (k - start_at(starts, low)) as usize;
    let nets = lists.nets.as_slice();
    let a = net_at(nets, low)?;
    let b = net_at(nets, high)?;
    Some((a, b))
}

fn kind_at(k: u64) -> Kind
    requires { k < 4 }
    ensures { kind_rank result ≡ k }
{
    match k {
        0 => Kind::And,
        1 => Kind::Or,
        2 => Kind::First,
        _ => Kind::Second,
    }
}

// Returns short `k` in the list of the shorts of all pairs of covered nets. Each pair has four shorts. The
// short is returned even if no pass observes both nets. Returns `None` if there is no short `k`. `near` only
// speeds up the look-up, as in `pair_at`.
fn short_at(lists: &FaultLists, k: u64, near: &mut usize) -> Option<Single>
    ensures { (plan : PlanTables)
        → listed_at (flat_map (number_places plan) (pairs_within lists.now.nets)) k
        ≡ where_observed plan result }
{
    let pair = pair_at(lists, k / 4, near)?;
    let (a, b) = pair;
    let kind = kind_at(k % 4);
    Some(Single::Short { a, b, kind })
}

// Returns the fault at place `i`. A short is returned even if no pass observes both of its nets. Returns
// `None` if there is no place `i`. `near` only speeds up the look-up of a short, as in `pair_at`.
fn place_at(lists: &FaultLists, i: u64, near: &mut usize) -> Option<Single>
    ensures { (plan : PlanTables)
        → listed_at (listed_places plan lists.now) i ≡ where_observed plan result }
{
    let stuck = 2 * lists.nets.len() as u64;
    let open = 2 * lists.pins.len() as u64;
    if i < stuck {
        stuck_at(lists.nets.as_slice(), i)
    } else if i - stuck < open {
        open_at(lists.pins.as_slice(), i - stuck)
    } else {
        short_at(lists, i - stuck - open, near)
    }
}

// Returns `fault`, or `None` if `fault` is a short and no pass observes both of its nets.
fn where_observed(plan: &Plan, fault: Option<Single>) -> Option<Single>
    ensures { result ≡ where_observed plan.now fault }
{
    match fault {
        None => None,
        Some(fault) => {
            if observes_fault(plan, &[], fault) {
                Some(fault)
            } else {
                None
            }
        }
    }
}

impl Universe {
    /// Returns the places of a board. The plan must be built from the board's passes.
    pub fn new(alloc: Global, board: &Board, plan: &Plan) -> Result<Universe, AllocError>
        requires plan { IsPlanOf board.now plan.now }
        requires passes { plan.now.passes ≡ passes_of board.now }
        ensures { IfOk result (λ universe. IsUniverse board.now universe) }
    {
        Universe::of(alloc, &BoardTest::of(board, plan))
    }

    /// Like `new`, but takes the board and the plan as the board's test.
    pub(crate) fn of(alloc: Global, test: &BoardTest<'_>) -> Result<Universe, AllocError>
        ensures { IfOk result (λ universe. IsUniverse test.now.board universe) }
    {
        let (board, plan) = (test.board(), test.plan());
        let _rules = board.raw();
        law::passes_kept();
        codes_number_covered();
        let found = coded_nets(alloc, plan, net_count(board))?;
        let tested = tested_pins(alloc, board, plan)?;
        let nets = Items::of(found);
        let pins = Items::of(tested);
        let starts = Items::of(pair_starts(alloc, nets.len() as u32)?);
        Ok(Universe {
            lists: FaultLists { nets, pins, starts },
        })
    }

    /// Returns the covered nets and the tested pins.
    pub(crate) fn lists(&self) -> &FaultLists
        ensures { result.now ≡ self.now }
    {
        &self.lists
    }

    /// Returns the number of places: two for each covered net, two for each tested pin and four for each pair of covered nets.
    pub fn places(&self) -> u64
        ensures { result ≡ place_count self.now }
    {
        let nets = self.lists.nets.len() as u64;
        let pins = self.lists.pins.len() as u64;
        2 * nets + (2 * pins + 4 * pair_count(&self.lists))
    }

    /// Returns the single fault at place `i`, counted from 0. `i` must be below the number of places. Returns `None` if
    /// and only if the place belongs to a pair of covered nets and no pass observes both. The universe must be built
    /// with this plan. Allocates nothing.
    pub fn at(&self, plan: &Plan, i: u64) -> Option<Single>
        requires { i < place_count self.now }
        ensures { (board : RawBoard) → IsBoard board → IsPlanOf board plan.now
            → plan.now.passes ≡ passes_of board → IsUniverse board self.now
            → slice_get (places_of board) i ≡ Some result }
    {
        law::passes_kept();
        let mut near = 0;
        where_observed(plan, self.candidate(i, &mut near))
    }

    /// Returns the fault at place `i`. For a place of a pair of covered nets, returns a short even if no pass
    /// observes both nets. Returns `None` if there is no place `i`. `near` only speeds up the look-up of a
    /// pair. Pass a variable that is 0 at first, and pass it again to later look-ups. Each look-up of a pair
    /// sets this variable to the index of the pair's first net in the list of covered nets. If the places are
    /// looked up in ascending order, nearly every look-up then needs no search. Allocates nothing.
    pub fn candidate(&self, i: u64, near: &mut usize) -> Option<Single>
        ensures { (plan : PlanTables)
            → listed_at (listed_places plan self.now) i ≡ where_observed plan result }
    {
        place_at(self.lists(), i, near)
    }
}

impl<'a> BoardTest<'a> {
    /// Returns whether some pass observes all nets of a fault at a place. For a short, one pass must observe both nets. Returns true for
    /// any other fault at a place: it is on one covered net, and some pass observes each covered net.
    pub fn observes(&self, fault: Single) -> bool
        ensures { result ≡ observes_fault self.now.plan fault }
    {
        observes_fault(self.plan(), self.kept(), fault)
    }
}

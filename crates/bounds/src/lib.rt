// The bounds that a timetable goes by, written to two arrays: the events that each goes from and to, and its [lo, hi]. They are those of the plan that a slice
// holds, and those that its log adds. The definitions of events and bounds are those of network.
#![tactic(auto)]

mod numbers;
mod roads;
mod travel;

ghost use Rattle.std.specs.Prelude.{◌≡◌, true, ℕ, ◌+◌, ◌≤◌, ◌<◌, length, take, get_or};
ghost use mathlib.Core.List.{map};
ghost use Rattle.network.specs.Bounds.{bounds};
ghost use Rattle.network.specs.BoundArrays.{bound_ends, bound_range, Puts};
ghost use Rattle.limits.specs.OfPaths.{plan_of, keep_events};
ghost use Rattle.limits.specs.Orders.{first_events};
ghost use Rattle.book.specs.Log.{book_of, added_of, added_answer};
ghost use Rattle.slice.specs.PlanSlice.{held};
ghost use Rattle.slice.specs.HeldPlan.{Lays};
ghost use Rattle.bounds.specs.Writing.{start_to, finish_before};
ghost use Rattle.bounds.specs.Network.{plan_in, plan_fitting, network_answer, network_bounds, numbers_of, holding_of};
ghost use Rattle.bounds.specs.Counted.{counted_all, rest_of};
ghost use Rattle.bounds.specs.Bounding.{bounding_fits, bounding, bounding_held, bounding_answer, bounding_left, Leaves, LeavesIn};

use book::Log;
use collisions::Paths;
use network::{Bound, BoundArrays};
use numbers::Numbers;
use slice::{HoldError, PlanSlice};
use tables::{PlanArrays, RoadIndex};

// How many events and bounds a plan has.
#[derive(Clone, Copy)]
struct Network {
    events: usize,
    bounds: usize,
}

// How many events there are, how many bounds of the plan's own, and how many in all.
#[derive(Clone, Copy)]
pub struct Bounding {
    pub events: usize,
    pub own: usize,
    pub all: usize,
}

// Puts the start bounds, to the carts' first events.
fn write_starts(firsts: &[u16], out: &mut BoundArrays)
    ensures { Puts out.old out.new (map start_to firsts.now) }
{
    for first in firsts {
        out.put(Bound {
            from: 0,
            to: *first,
            lo: 0,
            hi: Some(0),
        });
    }
}

// Puts the finish bounds. A cart's last event stands before the next cart's first, or the finish.
fn write_finishes(nexts: &[u16], finish: u16, out: &mut BoundArrays)
    requires { (i : ℕ) → i < length nexts.now → 0 < get_or nexts.now i 0 }
    ensures { Puts out.old out.new (map (finish_before finish) nexts.now) }
{
    for next in nexts {
        out.put(Bound {
            from: *next - 1,
            to: finish,
            lo: 0,
            hi: None,
        });
    }
}

// Puts all bounds of a plan, by the numbers of the carts' first events and of the finish; returns how many there are. Each event but the start and the finish
// ends one start or travel bound, and each cart has a finish bound.
fn write_all(plan: &Numbers, firsts: &[u16], out: &mut BoundArrays) -> usize
    requires kept { keep_events plan.now.paths ≡ true }
    requires firsts_value { take (plan.now.paths.carts + 1) firsts.now ≡ first_events (plan_of plan.now.paths) }
    ensures value { result ≡ length (bounds (plan_in plan.now)) }
    ensures left { Puts out.old out.new (bounds (plan_in plan.now)) }
{
    let carts = plan.paths.carts;
    let finish = firsts[carts];
    write_starts(&firsts[..carts], out);
    travel::travel_of_all(plan, out);
    let orders = limits::order_bounds(plan.paths, out);
    write_finishes(&firsts[1..carts + 1], finish, out);
    usize::from(finish - 1) + orders + carts
}

// Writes the bounds of a plan to the front of two arrays, as many as there is room for: start, travel, order and finish bounds. Where there are too many
// events it writes none.
fn write_bounds(plan: &Numbers, out: &mut BoundArrays) -> Option<Network>
    ensures answer { result ≡ network_answer (plan_fitting plan.now) }
    ensures left { Puts out.old out.new (network_bounds (plan_fitting plan.now)) }
{
    let mut firsts = [0u16; 65];
    let carts = plan.paths.carts;
    if !limits::first_events(plan.paths, &mut firsts) {
        return None;
    }
    let n = write_all(plan, &firsts, out);
    Some(Network {
        events: usize::from(firsts[carts]) + 1,
        bounds: n,
    })
}

// Writes the bounds that a log adds behind a plan's own, and counts them all. There is no plan where its own are too many or the log gives no book.
fn write_rest(paths: Paths, log: Log, own: Network, out: &mut BoundArrays) -> Option<Bounding>
    requires { own.bounds ≤ 8192 → own.bounds + length (added_of (plan_of paths) (book_of paths log)) ≤ 12288 }
    ensures answer { result ≡ counted_all own (added_answer (plan_of paths.entry) (book_of paths.entry log.entry)) }
    ensures left { Puts out.old out.new (rest_of own (added_of (plan_of paths.entry) (book_of paths.entry log.entry))) }
{
    if 8192 < own.bounds {
        return None;
    }
    let more = book::write_added(paths, log, out)?;
    Some(Bounding {
        events: own.events,
        own: own.bounds,
        all: own.bounds + more,
    })
}

// Writes the bounds of a plan in arrays and of a log in a slice, the second behind the first. How many bounds there are is known when they are written, so
// that the last limits are judged then.
fn write_both(
    plan: &[u8],
    reports: usize,
    numbers: &Numbers,
    out: &mut BoundArrays,
) -> Option<Bounding>
    requires { Lays plan.now (numbers_of numbers.now) (holding_of numbers.now reports) }
    ensures answer { result ≡ bounding_held (held plan.now) }
    ensures left { Leaves (held plan.now) out.old out.new }
{
    let own = write_bounds(numbers, out)?;
    write_rest(numbers.paths, slice::log(plan, reports), own, out)
}

// The same for the plan that the tables of a slice give; the index of its roads is handed on where arrays with room for it are lent.
fn write_read(
    plan: PlanSlice,
    index: &mut RoadIndex,
    ends: &mut [u16],
    ranges: &mut [u64],
) -> Result<Bounding, HoldError>
    requires { length index.old.heads.now ≡ 1024 → length index.old.nexts.now ≡ 1024 }
    ensures answer { result ≡ bounding (held plan.entry.bytes.now) }
    ensures left { LeavesIn (held plan.entry.bytes.now) ends.old ranges.old ends.new ranges.new }
{
    // Fixed memory: there is no heap.
    let mut edges = [0u32; 4096];
    let mut speeds = [0u32; 128];
    let mut cells = [0u32; 8192];
    let mut arrays = PlanArrays {
        edges: &mut edges,
        speeds: &mut speeds,
        cells: &mut cells,
    };
    let h = slice::read_laid(plan.bytes, &mut arrays, index)?;
    let numbers = Numbers::laid(h.size, &arrays, index);
    // Made here, and not by who calls: so the compiler sees that what is stored changes no place and no slice, and keeps them in registers.
    let mut out = BoundArrays {
        ends,
        ranges,
        place: 0,
    };
    write_both(plan.bytes, h.reports, &numbers, &mut out).ok_or(HoldError::NoPlan)
}

// The same with an index of so many places: one of 1,024, or of 1, which is none. Few moves on few roads need none, and its memory takes longer to clear than
// it saves.
fn write_with<const N: usize>(
    plan: PlanSlice,
    ends: &mut [u16],
    ranges: &mut [u64],
) -> Result<Bounding, HoldError>
    requires { N ≤ 1024 }
    ensures answer { result ≡ bounding (held plan.entry.bytes.now) }
    ensures left { LeavesIn (held plan.entry.bytes.now) ends.old ranges.old ends.new ranges.new }
{
    let mut heads = [0u16; N];
    let mut nexts = [0u16; N];
    let mut index = RoadIndex {
        heads: &mut heads,
        nexts: &mut nexts,
    };
    write_read(plan, &mut index, ends, ranges)
}

// One of the two, since a const parameter is a constant: without an index where there is room for 128 bounds at most and the table of roads has at most 192 bytes.
fn write_laid(plan: PlanSlice, ends: &mut [u16], ranges: &mut [u64]) -> Result<Bounding, HoldError>
    ensures answer { result ≡ bounding (held plan.entry.bytes.now) }
    ensures left { LeavesIn (held plan.entry.bytes.now) ends.old ranges.old ends.new ranges.new }
{
    if ranges.len() <= 256 && plan.bytes[192] == 0 {
        return write_with::<1>(plan, ends, ranges);
    }
    write_with::<1024>(plan, ends, ranges)
}

// Writes the bounds of the plan that a slice holds, and those that its log adds, to the front of two arrays, as many as there is room for. Where none is
// held the arrays are cleared, since bounds may have been written before that was known.
pub fn write_held(plan: &[u8], ends: &mut [u16], ranges: &mut [u64]) -> Result<Bounding, HoldError>
    ensures answer { result ≡ bounding_answer (bounding_fits plan.now) (held plan.now) }
    ensures left { ends.new ≡ bounding_left bound_ends (bounding_fits plan.now) (held plan.now) ends.old }
    ensures left_ranges { ranges.new ≡ bounding_left bound_range (bounding_fits plan.now) (held plan.now) ranges.old }
{
    let plan = PlanSlice::new(plan).ok_or(HoldError::TooShort)?;
    let x = write_laid(plan, ends, ranges);
    if x.is_err() {
        ends.fill(0);
        ranges.fill(0);
    }
    x
}

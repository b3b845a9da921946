// The plan slice: the tables as handed in, and the log of accepted reports. The plan that it holds is read into arrays.
#![tactic(auto)]

mod parts;

ghost use Rattle.std.specs.Prelude.{◌≡◌, true, None, Some, ◌≤◌, ◌<◌, length, take, drop};
ghost use Rattle.tables.specs.Index.{IndexLeft};
ghost use Rattle.tables.specs.Lending.{tables_of, arrays_of, SameArrays};
ghost use Rattle.tables.specs.Reading.{room, numbers_of};
ghost use Rattle.floor.specs.Plan.{Plan};
ghost use Rattle.slice.specs.declared.TheConstants.{PLAN_BYTES};
ghost use Rattle.slice.specs.PlanSlice.{log_in};
ghost use Rattle.slice.specs.Holding.{layout as layout_of, laid, laying, laid_into, read_slice, roads_held, IndexHeld};
ghost use Rattle.slice.specs.Texts.{texts_in};
ghost use Rattle.slice.specs.HeldPlan.{log_kept};
ghost use Rattle.slice.specs.Entry.{with_entry};
ghost use Rattle.schedule.specs.Book.{◌at◌};

use book::Log;
use tables::{PlanArrays, RoadIndex, Size, Tables};

// How many bytes a table may have, and how many reports a log.
pub const TABLE_BYTES: usize = 65_536;

pub const MOST_REPORTS: usize = 4096;

// Where the parts of a slice stand, behind the table of roads: the other two.
pub const CARTS_AT: usize = TABLE_BYTES;

pub const PATHS_AT: usize = 2 * TABLE_BYTES;

// The log's carts, a byte each, and its times, eight bytes each.
pub const LOG_AT: usize = 3 * TABLE_BYTES;

pub const TIMES_AT: usize = LOG_AT + MOST_REPORTS;

// How long they are in all.
pub const PLAN_BYTES: usize = TIMES_AT + 8 * MOST_REPORTS;

// A slice that is long enough for a plan and its log.
#[derive(Clone, Copy)]
pub struct PlanSlice<'a> {
    pub bytes: &'a [u8],
    ghost long: { PLAN_BYTES ≤ length bytes.now },
}

impl<'a> PlanSlice<'a> {
    // These bytes, where there are enough of them.
    pub fn new(bytes: &'a [u8]) -> Option<PlanSlice<'a>>
        ensures there { (plan : PlanSlice) → result ≡ Some plan → plan.bytes.now ≡ bytes.now }
        ensures short { result ≡ None → length bytes.now < PLAN_BYTES }
    {
        if bytes.len() < PLAN_BYTES {
            return None;
        }
        Some(PlanSlice { bytes })
    }
}

// The size of the plan that a slice holds, and how many reports its log has.
#[derive(Clone, Copy)]
pub struct Holding {
    pub size: Size,
    pub reports: usize,
}

// Why no plan is read: the slice or an array is too short, or the slice holds none.
#[derive(Clone, Copy, Debug, PartialEq, Eq)]
pub enum HoldError {
    TooShort,
    NoPlan,
}

// How a slice is laid out: the lengths of its tables, and how many reports its log has.
#[derive(Clone, Copy)]
struct Layout {
    roads: usize,
    carts: usize,
    paths: usize,
    reports: usize,
}

// The part of a slice of this size from this place on, or as much of it as there is.
pub fn part(s: &[u8], from: usize, size: usize) -> &[u8]
    ensures { result.now ≡ take size (drop from s.now) }
{
    if s.len() < from {
        return &s[..0];
    }
    if s.len() - from < size {
        return &s[from..];
    }
    &s[from..from + size]
}

// Writes a report as the n-th entry of a slice's log, where there is room for one: its cart, one byte, and its time, eight bytes.
pub fn put_entry(plan: &mut [u8], n: usize, cart: u8, time: u64)
    ensures { plan.new ≡ with_entry plan.old n (cart at time) }
{
    if plan.len() < PLAN_BYTES {
        return;
    }
    if MOST_REPORTS <= n {
        return;
    }
    plan[LOG_AT + n] = cart;
    words::put::<8>(plan, TIMES_AT / 8 + n, time);
}

// The log of n reports in a slice, or as much of it as there is.
pub fn log(plan: &[u8], n: usize) -> Log<'_>
    ensures carts { result.carts.now ≡ take n (drop LOG_AT plan.now) }
    ensures times { result.times.now ≡ drop TIMES_AT plan.now }
{
    Log {
        carts: part(plan, LOG_AT, n),
        times: part(plan, TIMES_AT, plan.len()),
    }
}

// Whether the paths in arrays keep the limits and the reports of a slice's log are accepted in their turn.
fn accepts_log(plan: &[u8], read: Holding, arrays: &PlanArrays) -> bool
    ensures { result ≡ log_kept plan.now read (arrays_of arrays.now) }
{
    let paths = read.size.paths(arrays.cells);
    limits::within_limits(paths) && book::accepts(paths, log(plan, read.reports))
}

// The tables of a slice that is laid out so.
fn texts(plan: &[u8], layout: Layout) -> Tables<'_>
    requires { layout.roads ≤ length plan.now }
    ensures { tables_of result ≡ texts_in layout plan.now }
{
    Tables {
        roads: &plan[..layout.roads],
        carts: part(plan, CARTS_AT, layout.carts),
        paths: part(plan, PATHS_AT, layout.paths),
    }
}

// Reads the plan of a slice that is laid out so: what its tables say, with the numbers in the arrays.
fn read_parts(
    plan: PlanSlice,
    layout: Layout,
    arrays: &mut PlanArrays,
    index: &mut RoadIndex,
) -> Result<Holding, HoldError>
    requires layout_is { Some layout ≡ layout_of plan.bytes.now }
    requires room { room (arrays_of arrays.old) ≡ true }
    ensures answer { result ≡ laying (length (log_in plan.entry.bytes.now)) (laid plan.entry.bytes.now) }
    ensures left { (q : Plan) → laid plan.entry.bytes.now ≡ Some q → arrays_of arrays.new ≡ numbers_of (arrays_of arrays.old) q }
    ensures same { SameArrays arrays.old arrays.new }
    ensures index { IndexHeld result arrays.new.edges.now index.old index.new }
{
    match tables::read_indexed(texts(plan.bytes, layout), arrays, index) {
        Ok(size) => Ok(Holding {
            size,
            reports: layout.reports,
        }),
        Err(_) => Err(HoldError::NoPlan),
    }
}

// Reads the plan of a slice, if its tables give one and there is nothing else, into arrays that have room.
fn read_found(
    plan: PlanSlice,
    arrays: &mut PlanArrays,
    index: &mut RoadIndex,
) -> Result<Holding, HoldError>
    requires room { room (arrays_of arrays.old) ≡ true }
    ensures answer { result ≡ laying (length (log_in plan.entry.bytes.now)) (laid plan.entry.bytes.now) }
    ensures left { (q : Plan) → laid plan.entry.bytes.now ≡ Some q → arrays_of arrays.new ≡ numbers_of (arrays_of arrays.old) q }
    ensures same { SameArrays arrays.old arrays.new }
    ensures index { IndexHeld result arrays.new.edges.now index.old index.new }
{
    let layout = parts::find_parts(plan.bytes).ok_or(HoldError::NoPlan)?;
    read_parts(plan, layout, arrays, index)
}

// Reads the plan of a slice: its tables are judged again, and there may be nothing else beside a log.
fn read_room(
    plan: &[u8],
    arrays: &mut PlanArrays,
    index: &mut RoadIndex,
) -> Result<Holding, HoldError>
    ensures answer { result ≡ (laid_into plan.now (arrays_of arrays.old)).answer }
    ensures left { arrays_of arrays.new ≡ (laid_into plan.now (arrays_of arrays.old)).arrays }
    ensures same { SameArrays arrays.old arrays.new }
    ensures index { IndexHeld result arrays.new.edges.now index.old index.new }
{
    let plan = PlanSlice::new(plan).ok_or(HoldError::TooShort)?;
    if !arrays.has_room() {
        return Err(HoldError::TooShort);
    }
    let found = read_found(plan, arrays, index);
    if found.is_err() {
        arrays.clear();
    }
    found
}

// Reads the plan of a slice and hands on the index of its roads, where that has room; without a plan it is that of no road. Its last limits, of events and
// bounds, and the log are left to the caller, who may count by writing.
pub fn read_laid(
    plan: &[u8],
    arrays: &mut PlanArrays,
    index: &mut RoadIndex,
) -> Result<Holding, HoldError>
    ensures answer { result ≡ (laid_into plan.now (arrays_of arrays.old)).answer }
    ensures left { arrays_of arrays.new ≡ (laid_into plan.now (arrays_of arrays.old)).arrays }
    ensures same { SameArrays arrays.old arrays.new }
    ensures index { IndexLeft (roads_held result) arrays.new.edges.now index.old index.new }
{
    let x = read_room(plan, arrays, index);
    if x.is_err() && index.has_room() {
        index.clear();
    }
    x
}

// Reads the plan that a slice holds: its last limits are judged, too, and its log is replayed.
pub fn read_plan(plan: &[u8], arrays: &mut PlanArrays) -> Result<Holding, HoldError>
    ensures answer { result ≡ (read_slice plan.now (arrays_of arrays.old)).answer }
    ensures left { arrays_of arrays.new ≡ (read_slice plan.now (arrays_of arrays.old)).arrays }
    ensures same { SameArrays arrays.old arrays.new }
{
    let mut heads = [0u16; 1];
    let mut nexts = [0u16; 1];
    let mut none = RoadIndex {
        heads: &mut heads,
        nexts: &mut nexts,
    };
    let h = read_room(plan, arrays, &mut none)?;
    if accepts_log(plan, h, arrays) {
        return Ok(h);
    }
    arrays.clear();
    Err(HoldError::NoPlan)
}

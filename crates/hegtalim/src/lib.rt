// The calls on a plan. The definitions of what they answer and leave are in specs/.
// A number is narrowed by `as` where it fits: a `try_from` would have an error that cannot come.
#![tactic(auto)]

mod answer;

ghost use Rattle.std.specs.Prelude.{◌≡◌, Ok, true, [], ◌+◌, ◌≤◌, ◌<◌, length, replicate};
ghost use Rattle.words.specs.Words.{written, padded};
ghost use Rattle.floor.specs.Plan.{Plan};
ghost use Rattle.floor.specs.Tables.{read_tables};
ghost use Rattle.tables.specs.Arrays.{path_cells, paths_in};
ghost use Rattle.tables.specs.Lending.{tables_of};
ghost use Rattle.tables.specs.Reading.{read_answer};
ghost use Rattle.network.specs.Judge.{judge};
ghost use Rattle.hegtalim.specs.Errors.{not_held, not_taken, not_timed};
ghost use Rattle.hegtalim.specs.Answers.{loaded_answer, reported_answer, timed_answer, c_number};
ghost use Rattle.slice.specs.declared.TheConstants.{PLAN_BYTES, TABLE_BYTES};
ghost use Rattle.slice.specs.PlanSlice.{plan_slice};
ghost use Rattle.slice.specs.HeldPlan.{log_of};
ghost use Rattle.schedule.specs.Book.{◌at◌};
ghost use Rattle.limits.specs.Limits.{of_paths};
ghost use Rattle.book.specs.Log.{checked};
ghost use Rattle.hegtalim.specs.Outcomes.{load_judged, load, report, Timetabled, TimetabledNumber};
ghost use Rattle.hegtalim.specs.Working.{Worked};
ghost use Rattle.schedule.specs.Lent.{long_enough};
ghost use Rattle.passes.specs.Lending.{lent_of, SameSlices};

pub use answer::Answer;
use book::ReportError as BookError;
use floor::{Reason, Table};
use passes::{BoundSlices, Lent, Solved};
use slice::{CARTS_AT, HoldError, PATHS_AT, PLAN_BYTES, PlanSlice};
use tables::{PlanArrays, Size, Tables};

// Why a load is turned down: as the reader of the tables says it. specs/Answers.antt gives each answer its number and values.
pub use tables::ReadError as LoadError;

// Why a report is turned down.
#[derive(Clone, Copy, Debug, PartialEq, Eq)]
pub enum ReportError {
    TooShort,
    NoPlan,
    NoPoint,
    BadTime,
}

// Why there are no times; where none exist, the length of the chain that shows it.
#[derive(Clone, Copy, Debug, PartialEq, Eq)]
pub enum TimeError {
    TooShort,
    NoPlan,
    NoTimes(usize),
}

impl From<HoldError> for ReportError {
    ghost from_gives = { λ why error. error ≡ not_held why };

    #[tactic(auto, unfolding(crate::specs::Errors::not_held))]
    fn from(why: HoldError) -> ReportError {
        match why {
            HoldError::TooShort => ReportError::TooShort,
            HoldError::NoPlan => ReportError::NoPlan,
        }
    }
}

impl From<BookError> for ReportError {
    ghost from_gives = { λ why error. error ≡ not_taken why };

    #[tactic(auto, unfolding(crate::specs::Errors::not_taken))]
    fn from(why: BookError) -> ReportError {
        match why {
            BookError::NoPoint { .. } => ReportError::NoPoint,
            BookError::BadTime => ReportError::BadTime,
        }
    }
}

impl From<HoldError> for TimeError {
    ghost from_gives = { λ why error. error ≡ not_timed why };

    #[tactic(auto, unfolding(crate::specs::Errors::not_timed))]
    fn from(why: HoldError) -> TimeError {
        match why {
            HoldError::TooShort => TimeError::TooShort,
            HoldError::NoPlan => TimeError::NoPlan,
        }
    }
}

// Copies bytes to a slice that is as long. Not by `copy_from_slice`: for that a C program would have to bring a `memmove`.
fn copy(from: &[u8], to: &mut [u8])
    requires { length to.old ≡ length from.now }
    ensures { to.new ≡ from.now }
{
    for (i, byte) in from.iter().enumerate() {
        to[i] = *byte;
    }
}

// Writes the tables into a slice of zeros, each to its place.
fn store_tables(tables: Tables, plan: &mut [u8])
    requires roads_len_bound { (length tables.roads.now ≤ TABLE_BYTES) × (length tables.carts.now ≤ TABLE_BYTES) × (length tables.paths.now ≤ TABLE_BYTES) }
    requires in_bounds { (PLAN_BYTES ≤ length plan.old) × (plan.old ≡ replicate (length plan.old) 0) }
    ensures { plan.new ≡ plan_slice (length plan.old) (tables_of tables.entry) [] }
{
    let Tables {
        roads,
        carts,
        paths,
    } = tables;
    copy(roads, &mut plan[..roads.len()]);
    copy(carts, &mut plan[CARTS_AT..CARTS_AT + carts.len()]);
    copy(paths, &mut plan[PATHS_AT..PATHS_AT + paths.len()]);
}

// Reads the tables and leaves the cells of the paths. The other arrays go with this call, so that no more memory is held than is needed.
fn read_cells(tables: Tables, cells: &mut [u32]) -> Result<Size, LoadError>
    requires { 8192 ≤ length cells.old }
    ensures answer { result ≡ read_answer (read_tables (tables_of tables.entry)) }
    ensures left { (p : Plan) → read_tables (tables_of tables.entry) ≡ Ok p → cells.new ≡ padded (length cells.old) (path_cells p.paths) }
{
    let mut edges = [0u32; 4096];
    let mut speeds = [0u32; 128];
    let mut arrays = PlanArrays {
        edges: &mut edges,
        speeds: &mut speeds,
        cells,
    };
    tables::read_tables(tables, &mut arrays)
}

// What is said of three tables.
fn judge_tables(tables: Tables) -> Result<(), LoadError>
    ensures { result ≡ (load_judged (tables_of tables.entry) 0 (judge (tables_of tables.entry))).answer }
{
    let mut cells = [0u32; 8192];
    let size = read_cells(tables, &mut cells)?;
    if limits::within_limits(size.paths(&cells)) {
        return Ok(());
    }
    Err(LoadError::Refused(Table::Paths.refuses(Reason::Limit, 0)))
}

// Loads a plan: three tables in, a plan held or the refusal.
pub fn load(tables: Tables, plan: &mut [u8]) -> Result<(), LoadError>
    ensures answer { result ≡ (load (record { roads = tables.entry.roads.now; carts = tables.entry.carts.now; paths = tables.entry.paths.now }) plan.old).answer }
    ensures left { plan.new ≡ (load (record { roads = tables.entry.roads.now; carts = tables.entry.carts.now; paths = tables.entry.paths.now }) plan.old).plan }
{
    if plan.len() < PLAN_BYTES {
        return Err(LoadError::TooShort);
    }
    plan.fill(0);
    judge_tables(tables)?;
    store_tables(tables, plan);
    Ok(())
}

// Takes a report of a cart's next point, passed at this time: one entry more in the log of the plan that is held, or the refusal.
pub fn report(plan: &mut [u8], cart: u64, time: u64) -> Result<(), ReportError>
    ensures answer { result ≡ (report plan.old (cart at time)).answer }
    ensures left { plan.new ≡ (report plan.old (cart at time)).plan }
{
    let mut edges = [0u32; 4096];
    let mut speeds = [0u32; 128];
    let mut cells = [0u32; 8192];
    let mut arrays = PlanArrays {
        edges: &mut edges,
        speeds: &mut speeds,
        cells: &mut cells,
    };
    let held = slice::read_plan(plan, &mut arrays)?;
    let paths = held.size.paths(&cells);
    book::check_report(paths, slice::log(plan, held.reports), cart, time)?;
    slice::put_entry(plan, held.reports, (cart % 256) as u8, time);
    Ok(())
}

// The times of the plan that a slice holds, or a chain, worked out in two arrays: `TooShort` where they have no room for its bounds, or the slices lent are short.
fn time_in(
    plan: PlanSlice,
    ends: &mut [u16],
    ranges: &mut [u64],
    lent: &mut Lent,
) -> Result<usize, TimeError>
    ensures worked { Worked (length ends.old) (length ranges.old) plan.entry.bytes.now (lent_of lent.old) result (lent_of lent.new) }
    ensures same { SameSlices lent.old lent.new }
{
    if !lent.is_long_enough() {
        return Err(TimeError::TooShort);
    }
    let n = bounds::write_held(plan.bytes, ends, ranges)?;
    let given = BoundSlices {
        ends,
        ranges,
        own: n.own,
        bounds: n.all,
        events: n.events,
    };
    match passes::solve(given, lent) {
        None => Err(TimeError::TooShort),
        Some(Solved::Times { passes }) => Ok(passes),
        Some(Solved::Cycle(chain)) => Err(TimeError::NoTimes(chain.length)),
    }
}

// The same in arrays of N numbers each: the shorter they are, the less time they take to clear.
fn time_with<const N: usize>(plan: PlanSlice, lent: &mut Lent) -> Result<usize, TimeError>
    requires { N ≤ 24576 }
    ensures worked { Worked N N plan.entry.bytes.now (lent_of lent.old) result (lent_of lent.new) }
    ensures same { SameSlices lent.old lent.new }
{
    let mut ends = [0u16; N];
    let mut ranges = [0u64; N];
    time_in(plan, &mut ends, &mut ranges, lent)
}

// How many commas there are among 64 bytes of a slice, from a place on. They are counted in a byte and to the end, so that the compiler looks at many at once.
fn commas_from(plan: PlanSlice, from: usize) -> u8
    requires { from + 64 ≤ PLAN_BYTES }
{
    let mut n: u8 = 0;
    for b in &plan.bytes[from..from + 64] {
        if *b == b',' {
            n += 1;
        }
    }
    n
}

// How many there are in the first blocks, of 64 bytes each, of the table of paths in a slice.
fn commas(plan: PlanSlice, blocks: usize) -> u32
    requires { blocks ≤ 64 }
{
    let mut n: u32 = 0;
    for i in 0..blocks {
        n += u32::from(commas_from(plan, PATHS_AT + 64 * i));
    }
    n
}

// How many there are in a table of paths of at most 4,096 bytes, behind which stand zeros: few blocks are looked at where the table is short. No plan has
// more moves than that.
fn most_moves(plan: PlanSlice) -> u32 {
    let mut blocks: usize = 1;
    // a `while`: an edit can hold it to one place for ever, and is refused
    while blocks < 64 {
        if plan.bytes[PATHS_AT + 64 * blocks] == 0 {
            return commas(plan, blocks);
        }
        blocks = 2 * blocks;
    }
    commas(plan, 64)
}

// By how many moves the arrays are chosen in which a plan is tried first: at least as many as it can have. From 701 on, as for a longer table, it is tried in
// those for any plan alone.
fn first_moves(plan: PlanSlice) -> u32 {
    if plan.bytes[PATHS_AT + 4096] != 0 {
        return 701;
    }
    most_moves(plan)
}

// The times of the plan that a slice holds, or a chain, in arrays for a plan of so many moves: those with 24,576 numbers are for any. A move takes six bounds,
// three of them added, and more than two order bounds besides have room in the shorter ones; up to 14 all bounds have. What has no room there is done again in
// those for any plan. The function calls itself, by a number that the compiler does not know: otherwise it would put the arrays of all sizes into one frame,
// and each call would touch all of its pages.
fn time_from(plan: PlanSlice, moves: u32, lent: &mut Lent) -> Result<usize, TimeError>
    ensures timed { Timetabled plan.entry.bytes.now (lent_of lent.old) result (lent_of lent.new) }
    ensures same { SameSlices lent.old lent.new }
{
    if 700 < moves {
        return time_with::<24576>(plan, lent);
    }
    let x = match moves {
        0..=14 => time_with::<256>(plan, lent),
        15..=80 => time_with::<1536>(plan, lent),
        81..=300 => time_with::<5120>(plan, lent),
        _ => time_with::<12288>(plan, lent),
    };
    match x {
        Err(TimeError::TooShort) => time_from(plan, moves + 701, lent),
        _ => x,
    }
}

// Times a plan: earliest times and the number of passes, or a chain. Shorter arrays are tried first where the table of paths is short.
pub fn timetable(plan: &[u8], lent: &mut Lent) -> Result<usize, TimeError>
    ensures timed { Timetabled plan.now
        (record { times = lent.old.times.now; chain_bounds = lent.old.chain_bounds.now; chain_directions = lent.old.chain_directions.now })
        result
        (record { times = lent.new.times.now; chain_bounds = lent.new.chain_bounds.now; chain_directions = lent.new.chain_directions.now }) }
    ensures same { (lent.new.times.ghost_name ≡ lent.old.times.ghost_name) × (lent.new.chain_bounds.ghost_name ≡ lent.old.chain_bounds.ghost_name)
        × (lent.new.chain_directions.ghost_name ≡ lent.old.chain_directions.ghost_name) }
{
    let plan = PlanSlice::new(plan).ok_or(TimeError::TooShort)?;
    // before any array is cleared
    if !lent.is_long_enough() {
        return Err(TimeError::TooShort);
    }
    time_from(plan, first_moves(plan), lent)
}

// `load` for a program in C.
pub fn hegtalim_load(roads: &[u8], carts: &[u8], paths: &[u8], plan: &mut [u8]) -> u64
    ensures answer { result ≡ c_number (loaded_answer (load (record { roads = roads.entry.now; carts = carts.now; paths = paths.now }) plan.old).answer) }
    ensures left { plan.new ≡ (load (record { roads = roads.entry.now; carts = carts.now; paths = paths.now }) plan.old).plan }
{
    let tables = Tables {
        roads,
        carts,
        paths,
    };
    Answer::from(load(tables, plan)).number()
}

// `report` for a program in C.
pub fn hegtalim_report(plan: &mut [u8], cart: u64, time: u64) -> u64
    ensures answer { result ≡ c_number (reported_answer (report plan.old (cart at time)).answer) }
    ensures left { plan.new ≡ (report plan.old (cart at time)).plan }
{
    Answer::from(report(plan, cart, time)).number()
}

// `timetable` for a program in C.
pub fn hegtalim_timetable(
    plan: &[u8],
    times: &mut [u8],
    numbers: &mut [u8],
    directions: &mut [u8],
) -> u64
    ensures { TimetabledNumber plan.now
        (record { times = times.entry.now; chain_bounds = numbers.old; chain_directions = directions.old })
        result
        (record { times = times.exit.now; chain_bounds = numbers.new; chain_directions = directions.new }) }
{
    let mut lent = Lent {
        times,
        chain_bounds: numbers,
        chain_directions: directions,
    };
    Answer::from(timetable(plan, &mut lent)).number()
}

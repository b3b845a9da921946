// The three tables read and judged into arrays. The definitions of the tables are those of floor; those of the arrays are in specs/.
// A number is narrowed by `as` where it fits: a `try_from` would have an error that cannot come.
#![tactic(auto)]

mod carts;
mod lent;
mod on_roads;
mod paths;
mod roads;

ghost use Rattle.std.specs.Prelude.{◌≡◌, true, ℕ, ◌*◌, ◌≤◌, ◌<◌, length, replicate};
ghost use Rattle.rfc4180.specs.Records.{records};
ghost use Rattle.floor.specs.Plan.{Plan};
ghost use Rattle.floor.specs.Tables.{read_tables};
ghost use Rattle.tables.specs.Arrays.{roads_in, paths_in};
ghost use Rattle.tables.specs.Index.{bucket, Linked, Unlinked, IndexLeft};
ghost use Rattle.tables.specs.Lending.{tables_of, arrays_of, SameArrays};
ghost use Rattle.tables.specs.Reading.{apart, accepted, size_read, room, zeros, numbers_of, reading, roads_read, BeginsWith};

use collisions::Paths;
use floor::{Reason, Refusal, Table};
pub use lent::{PlanArrays, RoadIndex, Tables};
use rfc4180::Reader;
use roads::Roads;

// How many roads, carts and steps a plan has.
#[derive(Clone, Copy, Debug, PartialEq, Eq)]
pub struct Size {
    pub roads: usize,
    pub carts: usize,
    pub steps: usize,
}

impl Size {
    // The paths of a plan of this size in an array.
    pub fn paths<'a>(self, cells: &'a [u32]) -> Paths<'a>
        ensures cells { result.cells.now ≡ cells.now }
        ensures carts { result.carts ≡ self.carts }
        ensures steps { result.steps ≡ self.steps }
    {
        Paths {
            cells,
            carts: self.carts,
            steps: self.steps,
        }
    }
}

// Why the reader of the tables gives no plan: an array has no room, or the tables are turned down.
#[derive(Clone, Copy, Debug, PartialEq, Eq)]
pub enum ReadError {
    TooShort,
    Refused(Refusal),
}

// The remainder that a road between two cells is linked by.
pub fn bucket_of(a: u32, b: u32) -> usize
    ensures { (result ≡ bucket a b) × (result < 1024) }
{
    ((u64::from(a) + u64::from(b)) % 1024) as usize
}

// Whether the first record of a table is this line; it is passed over.
fn begins_with(rows: &mut Reader, line: &[u8]) -> bool
    ensures { BeginsWith line.now (records rows.old.rest.now) result (records rows.new.rest.now) }
{
    rows.next()
        .is_some_and(|row| rfc4180::same_bytes(line, row))
}

// What is said of the paths of a plan of this size in arrays: refusals 7, 8 and 9.
fn judge_paths(size: Size, arrays: &PlanArrays, index: &RoadIndex) -> Result<(), Refusal>
    requires roads { (size.roads ≤ 1024) × (4 * size.roads ≤ length arrays.now.edges.now) × Linked size.roads arrays.now.edges.now index.now }
    requires paths { (1 ≤ size.carts) × (size.carts * size.steps ≤ length arrays.now.cells.now) }
    ensures { result ≡ accepted (apart (roads_in size.roads arrays.now.edges.now) (paths_in size.carts size.steps arrays.now.cells.now)) }
{
    let roads = Roads {
        numbers: arrays.edges,
        index,
        count: size.roads,
    };
    let paths = size.paths(arrays.cells);
    if let Some(row) = on_roads::off_roads(roads, paths) {
        return Err(Table::Paths.refuses(Reason::OffRoad, row));
    }
    match collisions::first_meeting(paths) {
        Some(meeting) => Err(meeting.into()),
        None => Ok(()),
    }
}

// The three tables, and the index of the roads, in arrays of zeros.
// That the index is of no road is asked for, and is no fact of a type: it ends with the first road that is linked, and the caller's arrays stay the same.
fn read_each(
    tables: Tables,
    arrays: &mut PlanArrays,
    index: &mut RoadIndex,
) -> Result<Size, Refusal>
    requires room { room (arrays_of arrays.old) ≡ true }
    requires cleared { arrays_of arrays.old ≡ zeros (arrays_of arrays.old) }
    requires unlinked { Unlinked index.old }
    ensures answer { result ≡ size_read (read_tables (tables_of tables.entry)) }
    ensures left { (p : Plan) → read_tables (tables_of tables.entry) ≡ Ok p → arrays_of arrays.new ≡ numbers_of (arrays_of arrays.old) p }
    ensures same { SameArrays arrays.old arrays.new }
    ensures index { (p : Plan) → read_tables (tables_of tables.entry) ≡ Ok p → Linked (length p.roads) arrays.new.edges.now index.new }
{
    let n = roads::read_table(tables.roads, arrays.edges, index)?;
    let m = carts::read_table(tables.carts, arrays.speeds)?;
    let (count, steps) = paths::read_table(tables.paths, m, arrays.cells)?;
    let size = Size {
        roads: n,
        carts: count,
        steps,
    };
    judge_paths(size, arrays, index)?;
    Ok(size)
}

// Reads and judges the three tables, up to refusal 9. The numbers of an accepted plan are left in the arrays; and the index of its roads in two of zeros.
fn read_arrays(
    tables: Tables,
    arrays: &mut PlanArrays,
    index: &mut RoadIndex,
) -> Result<Size, ReadError>
    requires { Unlinked index.old }
    ensures answer { result ≡ (reading (tables_of tables.entry) (arrays_of arrays.old)).answer }
    ensures left { arrays_of arrays.new ≡ (reading (tables_of tables.entry) (arrays_of arrays.old)).arrays }
    ensures same { SameArrays arrays.old arrays.new }
    ensures index { (n : Size) → result ≡ Ok n → Linked n.roads arrays.new.edges.now index.new }
{
    if !arrays.has_room() {
        return Err(ReadError::TooShort);
    }
    arrays.clear();
    match read_each(tables, arrays, index) {
        Ok(size) => Ok(size),
        Err(why) => {
            arrays.clear();
            Err(ReadError::Refused(why))
        }
    }
}

// The same with the index of the roads handed on, so that who goes along them need not make it again: in two arrays of 1,024 places, as that of no road
// where no plan is read. It is made in memory of its own, which is free again when the limits are counted.
pub fn read_indexed(
    tables: Tables,
    arrays: &mut PlanArrays,
    index: &mut RoadIndex,
) -> Result<Size, ReadError>
    ensures answer { result ≡ (reading (tables_of tables.entry) (arrays_of arrays.old)).answer }
    ensures left { arrays_of arrays.new ≡ (reading (tables_of tables.entry) (arrays_of arrays.old)).arrays }
    ensures same { SameArrays arrays.old arrays.new }
    ensures index { IndexLeft (roads_read result) arrays.new.edges.now index.old index.new }
{
    let mut lasts: [u16; 1024] = [0; 1024];
    let mut befores: [u16; 1024] = [0; 1024];
    let mut made = RoadIndex {
        heads: &mut lasts,
        nexts: &mut befores,
    };
    let x = read_arrays(tables, arrays, &mut made);
    if !index.has_room() {
        return x;
    }
    if x.is_ok() {
        index.heads.copy_from_slice(made.heads);
        index.nexts.copy_from_slice(made.nexts);
    } else {
        index.clear();
    }
    x
}

// The same without an index: it is not handed on to arrays of one place.
pub fn read_tables(tables: Tables, arrays: &mut PlanArrays) -> Result<Size, ReadError>
    ensures answer { result ≡ (reading (tables_of tables.entry) (arrays_of arrays.old)).answer }
    ensures left { arrays_of arrays.new ≡ (reading (tables_of tables.entry) (arrays_of arrays.old)).arrays }
    ensures same { SameArrays arrays.old arrays.new }
{
    let mut heads = [0u16; 1];
    let mut nexts = [0u16; 1];
    let mut none = RoadIndex {
        heads: &mut heads,
        nexts: &mut nexts,
    };
    read_indexed(tables, arrays, &mut none)
}

// The table of roads.
// A number is narrowed by `as` where it fits: a `try_from` would have an error that cannot come.
ghost use Rattle.std.specs.Prelude.{◌≡◌, ◌+◌, ◌*◌, ◌≤◌, ◌<◌, length, replicate};
ghost use mathlib.Core.List.{List, [], flat_map};
ghost use Rattle.std.proofs.lemmas.List.Edits.{sets};
ghost use Rattle.words.specs.Words.{padded};
ghost use Rattle.rfc4180.specs.Records.{records, fields};
ghost use Rattle.rfc4180.specs.Number.{numbers};
ghost use Rattle.floor.specs.Refusal.{records_in_order};
ghost use Rattle.floor.specs.Plan.{joined};
ghost use Rattle.floor.specs.declared.Road.{Road};
ghost use Rattle.floor.specs.Roads.{road_ranges, road, read_roads};
ghost use Rattle.tables.specs.Arrays.{road_numbers, roads_in};
ghost use Rattle.tables.specs.Index.{Linked, Unlinked};
ghost use Rattle.tables.specs.Reading.{said, counted, road_read};

use crate::{RoadIndex, begins_with, bucket_of};
use floor::{Reason, Refusal, Road, Table};
use rfc4180::Reader;

// The roads in the front of an array, and their index. Those of `bounds` are another type, since its fact is another: their index may be missing.
#[derive(Clone, Copy)]
pub(crate) struct Roads<'a> {
    pub numbers: &'a [u32],
    pub index: &'a RoadIndex<'a>,
    pub count: usize,
    ghost few: { count ≤ 1024 },
    ghost there: { 4 * count ≤ length numbers.now },
    ghost linked: { Linked count numbers.now index.now },
}

impl<'a> Roads<'a> {
    // Whether one of the roads joins the cells a and b. The roads of their remainder are gone through, the last first.
    pub(crate) fn join(self, a: u32, b: u32) -> bool
        ensures { result ≡ joined (roads_in self.entry.count self.entry.numbers.now) a b }
    {
        let mut p = usize::from(self.index.heads[bucket_of(a, b)]);
        // a `while`: which road comes next is said by the one at hand
        while 0 < p {
            let j = p - 1;
            let x = self.numbers[4 * j];
            let y = self.numbers[4 * j + 1];
            if x == a && y == b {
                return true;
            }
            if x == b && y == a {
                return true;
            }
            p = usize::from(self.index.nexts[j]);
        }
        false
    }

    // The road of a record that comes after these.
    fn read(self, row: &[u8]) -> Result<Road, Reason>
        ensures { result ≡ said (road (roads_in self.entry.count self.entry.numbers.now) row.now) }
    {
        let road = read_road(row)?;
        if road.from == road.to {
            return Err(Reason::RoadPair);
        }
        if self.join(road.from, road.to) {
            return Err(Reason::RoadPair);
        }
        if 1024 <= self.count {
            return Err(Reason::Limit);
        }
        Ok(road)
    }
}

// Puts a road after n roads, and links it.
fn put_road(road: Road, n: usize, roads: &mut [u32], index: &mut RoadIndex)
    requires n_bound { (n < 1024) × (4 * n + 4 ≤ length roads.old) }
    requires linked { Linked n roads.old index.old }
    ensures left { roads.new ≡ sets roads.old (4 * n) (road_numbers road) }
    ensures index { Linked (n + 1) roads.new index.new }
{
    roads[4 * n] = road.from;
    roads[4 * n + 1] = road.to;
    roads[4 * n + 2] = road.length;
    roads[4 * n + 3] = road.margin;
    let b = bucket_of(road.from, road.to);
    index.nexts[n] = index.heads[b];
    index.heads[b] = (n + 1) as u16;
}

// Whether a road's numbers are in their ranges.
#[tactic(auto, unfolding(floor::specs::Roads::cell_range, floor::specs::Roads::road_ranges))]
fn in_ranges(road: Road) -> bool
    ensures { result ≡ road_ranges road }
{
    road.from <= 65_534
        && road.to <= 65_534
        && (3..=100_000_000).contains(&road.length)
        && 1 <= road.margin
        && 2 * u64::from(road.margin) < u64::from(road.length)
}

// The road of a record, where there are four numbers and they are in their ranges.
fn read_road(row: &[u8]) -> Result<Road, Reason>
    ensures { result ≡ road_read (numbers (fields row.now)) }
{
    let mut v = [0u32; 4];
    let numbers = rfc4180::read_numbers(row, &mut v).ok_or(Reason::Layout)?;
    if numbers.count != 4 {
        return Err(Reason::Layout);
    }
    let road = Road {
        from: v[0],
        to: v[1],
        length: v[2],
        margin: v[3],
    };
    if !in_ranges(road) {
        return Err(Reason::Range);
    }
    Ok(road)
}

// The records, one after the other: each is put behind those before and linked. That the index is of no road is no fact of a type, as it ends here (read_each).
fn roads_from(rows: Reader, roads: &mut [u32], index: &mut RoadIndex) -> Result<usize, Refusal>
    requires in_bounds { (4096 ≤ length roads.old) × (roads.old ≡ replicate (length roads.old) 0) }
    requires unlinked { Unlinked index.old }
    ensures answer { result ≡ counted (records_in_order road [] (records rows.entry.rest.now)) }
    ensures left { (ds : List Road) → records_in_order road [] (records rows.entry.rest.now) ≡ Ok ds → roads.new ≡ padded (length roads.old) (flat_map road_numbers ds) }
    ensures index { (ds : List Road) → records_in_order road [] (records rows.entry.rest.now) ≡ Ok ds → Linked (length ds) roads.new index.new }
{
    let mut n = 0;
    for row in rows {
        let before = Roads {
            numbers: roads,
            index,
            count: n,
        };
        let road = before
            .read(row)
            .map_err(|reason| Table::Roads.refuses(reason, n + 1))?;
        put_road(road, n, roads, index);
        n += 1;
    }
    Ok(n)
}

// The table of roads, its numbers and their index in arrays of zeros.
pub(crate) fn read_table(
    table: &[u8],
    roads: &mut [u32],
    index: &mut RoadIndex,
) -> Result<usize, Refusal>
    requires in_bounds { (4096 ≤ length roads.old) × (roads.old ≡ replicate (length roads.old) 0) }
    requires unlinked { Unlinked index.old }
    ensures answer { result ≡ counted (read_roads table.now) }
    ensures left { (ds : List Road) → read_roads table.now ≡ Ok ds → roads.new ≡ padded (length roads.old) (flat_map road_numbers ds) }
    ensures index { (ds : List Road) → read_roads table.now ≡ Ok ds → Linked (length ds) roads.new index.new }
{
    if 65_536 < table.len() {
        return Err(Table::Roads.refuses(Reason::Limit, 0));
    }
    let mut rows = Reader { rest: table };
    if !begins_with(&mut rows, b"from,to,length,margin") {
        return Err(Table::Roads.refuses(Reason::Layout, 0));
    }
    roads_from(rows, roads, index)
}

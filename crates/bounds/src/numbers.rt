// A plan in arrays.
ghost use Rattle.std.specs.Prelude.{◌≡◌, ◌≢◌, ◌*◌, ◌≤◌, Some, length};
ghost use Rattle.bounds.specs.Links.{RoadsLinked};

use collisions::Paths;
use tables::{PlanArrays, RoadIndex, Size};

// Roads, four numbers each: the other arrays' places stand beside a place worked out as `4 * i`, so that `chunks` would be no plainer. Where as many heads are
// lent as there are remainders of their cells, they are linked by these.
#[derive(Clone, Copy)]
pub(crate) struct Roads<'a> {
    pub(crate) edges: &'a [u32],
    pub(crate) count: usize,
    pub(crate) heads: &'a [u16],
    pub(crate) nexts: &'a [u16],
    ghost there: { (count ≤ 1024) × (4 * count ≤ length edges.now) },
    ghost linked: { RoadsLinked count edges.now heads.now nexts.now },
}

// A cart's speeds, of which the slowest may be none. floor's `Cart` is another type, since it is of a table, before anything is known of its numbers.
#[derive(Clone, Copy)]
pub(crate) struct Speeds {
    pub(crate) fastest: u32,
    pub(crate) slowest: Option<u32>,
    ghost moving: { slowest ≢ Some 0 },
}

// The roads of a plan, the speeds of its carts, two numbers each, and its paths.
#[derive(Clone, Copy)]
pub(crate) struct Numbers<'a> {
    pub(crate) roads: Roads<'a>,
    pub(crate) speeds: &'a [u32],
    pub(crate) paths: Paths<'a>,
    ghost enough: { 2 * paths.carts ≤ length speeds.now },
}

impl<'a> Numbers<'a> {
    ghost use Rattle.tables.specs.Lending.{arrays_of};
    ghost use Rattle.bounds.specs.Network.{numbers_of, size_of};

    // The plan of this size in arrays.
    pub(crate) fn laid(size: Size, arrays: &'a PlanArrays, index: &'a RoadIndex) -> Numbers<'a>
        requires there { (size.roads ≤ 1024) × (4 * size.roads ≤ length arrays.now.edges.now) × (2 * size.carts ≤ length arrays.now.speeds.now) }
        requires linked { RoadsLinked size.roads arrays.now.edges.now index.now.heads.now index.now.nexts.now }
        ensures arrays { numbers_of result ≡ arrays_of arrays.now }
        ensures size { size_of result ≡ size }
    {
        let roads = Roads {
            edges: arrays.edges,
            count: size.roads,
            heads: index.heads,
            nexts: index.nexts,
        };
        Numbers {
            roads,
            speeds: arrays.speeds,
            paths: size.paths(arrays.cells),
        }
    }
}

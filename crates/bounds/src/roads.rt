// The roads of a plan in an array, and the road of a move among them.
ghost use Rattle.std.specs.Prelude.{◌≡◌};
ghost use Rattle.floor.specs.Plan.{joins, road_between};
ghost use Rattle.bounds.specs.Writing.{roads_of};

use crate::numbers::Roads;
use floor::Road;

// Whether a road between two cells joins a and b, in either direction. Most roads fail at the first test; as one expression the compiler makes all four.
#[tactic(auto, unfolding(floor::specs::Plan::joins))]
fn is_between(from: u32, to: u32, a: u32, b: u32) -> bool
    ensures { result ≡ joins a b (record { from = from; to = to; length = 0; margin = 0 }) }
{
    if from == a {
        if to == b {
            return true;
        }
    }
    if from == b {
        return to == a;
    }
    false
}

impl<'a> Roads<'a> {
    // The road between two cells. Those of the cells' remainder are gone through from the last to the first, or without links all, and of those that join the
    // cells the one met last is taken, since the first of the table counts.
    pub(crate) fn between(&self, a: u32, b: u32) -> Option<Road>
        ensures { result ≡ road_between (roads_of self.now) a b }
    {
        let linked = self.heads.len() == 1024;
        let mut left = self.count;
        if linked {
            left = usize::from(self.heads[tables::bucket_of(a, b)]);
        }
        let mut found = None;
        // a `while`: which road comes next is said by the one at hand
        while 0 < left {
            let i = left - 1;
            let from = self.edges[4 * i];
            let to = self.edges[4 * i + 1];
            if is_between(from, to, a, b) {
                found = Some(Road {
                    from,
                    to,
                    length: self.edges[4 * i + 2],
                    margin: self.edges[4 * i + 3],
                });
            }
            left = if linked {
                usize::from(self.nexts[i])
            } else {
                i
            };
        }
        found
    }
}

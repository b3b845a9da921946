// Paths held against the roads: refusal 7.
ghost use Rattle.std.specs.Prelude.{◌≡◌, ◌*◌, ◌≤◌, length};
ghost use Rattle.floor.specs.Paths.{on_roads, off_road};
ghost use Rattle.tables.specs.Arrays.{roads_in};
ghost use Rattle.collisions.specs.Meetings.{paths_of};

use crate::roads::Roads;
use collisions::Paths;

// Whether a path keeps to the roads.
fn keeps_to_roads(roads: Roads, path: &[u32]) -> bool
    ensures { result ≡ on_roads (roads_in roads.entry.count roads.entry.numbers.now) path.now }
{
    for step in path.windows(2) {
        if step[0] != step[1] && !roads.join(step[0], step[1]) {
            return false;
        }
    }
    true
}

// The first of the paths that leaves the roads.
pub(crate) fn off_roads(roads: Roads, paths: Paths) -> Option<usize>
    requires { paths.carts * paths.steps ≤ length paths.cells.now }
    ensures { result ≡ off_road (roads_in roads.entry.count roads.entry.numbers.now) 1 (paths_of paths.entry) }
{
    let Paths {
        cells,
        carts,
        steps,
    } = paths;
    for i in 0..carts {
        let at = i * steps;
        if !keeps_to_roads(roads, &cells[at..at + steps]) {
            return Some(i + 1);
        }
    }
    None
}

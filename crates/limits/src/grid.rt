// Paths that are few and short enough to be counted, and those of them that keep the limit of events.
// A u32 has no `From` to a usize, and a number is narrowed by `as` where it fits: a `try_from` would have an error that cannot come.
ghost use Rattle.std.specs.Prelude.{◌≡◌, true, false, ◌+◌, ◌*◌, ◌≤◌, ◌<◌, length, take, drop, MatchOption};
ghost use Rattle.limits.specs.Counts.{moves};
ghost use Rattle.limits.specs.OfPaths.{moves_of, keep_events};

use collisions::Paths;

// Paths of no more carts and steps than may be, a step at least, whose cells are all there.
#[derive(Clone, Copy)]
pub(crate) struct Grid<'a> {
    pub paths: Paths<'a>,
    ghost few: { (paths.carts ≤ 64) × (1 ≤ paths.steps) × (paths.steps ≤ 1024) × (paths.carts * paths.steps ≤ length paths.cells.now) },
}

// Such paths that keep the limit of events, and their moves.
#[derive(Clone, Copy)]
pub(crate) struct Kept<'a> {
    pub grid: Grid<'a>,
    pub moves: usize,
    ghost counted: { moves ≡ moves_of grid.paths },
    ghost within: { 2 + grid.paths.carts + 3 * moves ≤ 4096 },
}

// The moves of a path, counted in as many bytes as a cell has, so that many cells can be compared at once.
fn moves_of(path: &[u32]) -> usize
    requires { (1 ≤ length path.now) × (length path.now ≤ 1024) }
    ensures { result ≡ moves path.now }
{
    let mut c = path[0];
    let mut n: u32 = 0;
    for s in 1..path.len() {
        let d = path[s];
        if c != d {
            n += 1;
        }
        c = d;
    }
    n as usize
}

impl<'a> Grid<'a> {
    // The grid of paths, where they are one.
    fn of(paths: Paths<'a>) -> Option<Self>
        ensures { MatchOption result (keep_events paths.entry ≡ false) (λ g. g.paths ≡ paths.entry) }
    {
        if 64 < paths.carts || paths.steps < 1 || 1024 < paths.steps {
            return None;
        }
        if paths.cells.len() < paths.carts * paths.steps {
            return None;
        }
        Some(Grid { paths })
    }

    // The path of the i-th cart.
    pub(crate) fn path(&self, i: usize) -> &'a [u32]
        requires { i < self.now.paths.carts }
        ensures { result.now ≡ take self.now.paths.steps (drop (i * self.now.paths.steps) self.now.paths.cells.now) }
    {
        let at = i * self.paths.steps;
        &self.paths.cells[at..at + self.paths.steps]
    }

    // The moves of the i-th cart.
    pub(crate) fn moves_of(&self, i: usize) -> usize
        requires { i < self.now.paths.carts }
        ensures { result ≡ moves (take self.now.paths.steps (drop (i * self.now.paths.steps) self.now.paths.cells.now)) }
    {
        moves_of(self.path(i))
    }

    // The moves of all carts.
    fn moves(&self) -> usize
        ensures value { result ≡ moves_of self.now.paths }
        ensures upper_bound { result ≤ 65536 }
    {
        let mut n = 0;
        for i in 0..self.paths.carts {
            n += self.moves_of(i);
        }
        n
    }
}

impl<'a> Kept<'a> {
    // The paths with their moves, where there are such, with a step, and they keep the limit of events.
    pub(crate) fn of(paths: Paths<'a>) -> Option<Self>
        ensures { MatchOption result (keep_events paths.entry ≡ false)
            (λ k. (k.grid.paths ≡ paths.entry) × (keep_events paths.entry ≡ true)) }
    {
        let grid = Grid::of(paths)?;
        let moves = grid.moves();
        // not by `then_some`, which would make one before its limits are known to hold
        if 2 + grid.paths.carts + 3 * moves <= 4096 {
            return Some(Kept { grid, moves });
        }
        None
    }
}

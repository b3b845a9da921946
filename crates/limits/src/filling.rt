// The visits of paths put in a row, and linked.
// A number is narrowed by `as` where it fits: a `try_from` would have an error that cannot come.
ghost use Rattle.std.specs.Prelude.{◌≡◌, ℕ, Bool, get_or, ◌++◌, [], ◌∷◌, map, ◌+◌, ◌*◌, ◌≤◌, ◌<◌, length};
ghost use Rattle.collisions.specs.Meetings.{paths_of};
ghost use Rattle.network.specs.Events.{visits_of};
ghost use Rattle.limits.specs.Counts.{moves, stop, stops, stop_at, LinkedBy};
ghost use Rattle.limits.specs.Row.{visits_put, visits_in};

use crate::grid::Kept;
use crate::row::{Row, RowArrays, Stop};

impl Row<'_> {
    // The u-th visit.
    #[tactic(auto, unfolding(crate::specs::Counts::stop_at))]
    pub(crate) fn at(&self, u: usize) -> Stop
        requires { u < self.now.n }
        ensures { result ≡ stop_at self.now.numbers.now self.now.times.now self.now.places.now u }
    {
        Stop {
            cart: self.numbers[u],
            step: self.times[u],
            cell: self.places[u],
        }
    }
}

impl RowArrays<'_> {
    // Puts a visit behind the others.
    fn push(&mut self, visit: Stop)
        requires { self.old.n < length self.old.numbers.now }
        ensures visits { visits_put self.new ≡ visits_put self.old ++ (visit ∷ []) }
        ensures count { self.new.n ≡ self.old.n + 1 }
        ensures long { length self.new.numbers.now ≡ length self.old.numbers.now }
    {
        self.numbers[self.n] = visit.cart;
        self.times[self.n] = visit.step;
        self.places[self.n] = visit.cell;
        self.n += 1;
    }
}

// Puts the visits of a path of cart number j behind those of a row.
fn put_visits(path: &[u32], j: u8, row: &mut RowArrays)
    requires path_bound { (1 ≤ length path.now) × (length path.now ≤ 1024) }
    requires visits_bound { row.old.n + moves path.now < length row.old.numbers.now }
    ensures visits { visits_put row.new ≡ visits_put row.old ++ map (stop j) (visits_of path.now) }
    ensures count { row.new.n ≡ row.old.n + moves path.now + 1 }
    ensures long { length row.new.numbers.now ≡ length row.old.numbers.now }
{
    let mut c = path[0];
    row.push(Stop {
        cart: j,
        step: 0,
        cell: c,
    });
    for s in 1..path.len() {
        let d = path[s];
        if c != d {
            row.push(Stop {
                cart: j,
                step: s as u16,
                cell: d,
            });
        }
        c = d;
    }
}

impl<'r> RowArrays<'r> {
    // Puts the visits of all paths, and hands on their row.
    pub(crate) fn fill(mut self, kept: &Kept) -> Row<'r>
        requires { (self.n ≡ 0) × (kept.now.grid.paths.carts + kept.now.moves ≤ length self.numbers.now) }
        ensures visits { visits_in result ≡ stops 1 (paths_of kept.now.grid.paths) }
        ensures count { result.n ≡ kept.now.grid.paths.carts + kept.now.moves }
        ensures long { length result.numbers.now ≡ length self.entry.numbers.now }
    {
        for i in 0..kept.grid.paths.carts {
            put_visits(kept.grid.path(i), (i + 1) as u8, &mut self);
        }
        let (numbers, times, places) = (self.numbers, self.times, self.places);
        Row {
            numbers,
            times,
            places,
            n: self.n,
        }
    }
}

// Links the visits of a row: to each the next whose cell has the same remainder, of those that are not left out: by the visit and by how many visits are left
// from the next on.
pub(crate) fn link<F: Fn(usize, usize) -> bool>(
    row: &Row,
    heads: &mut [u16],
    nexts: &mut [u16],
    leaves_out: F,
)
    requires heads_len { (length heads.old ≡ 1024) × (row.now.n ≤ length nexts.old) }
    requires by_index { (b : ℕ) → b < 1024 → get_or heads.old b 0 ≡ 0 }
    requires calls { (u left : ℕ) → u < row.now.n → left ≤ row.now.n → F.pre leaves_out u left }
    ensures { (out : ℕ → ℕ → Bool) → ((u left : ℕ) (r : Bool) → u < row.now.n → left ≤ row.now.n → F.post leaves_out u left r → r ≡ out u left)
        → LinkedBy out row.now.places.now heads.new nexts.new row.now.n row.now.n }
{
    for left in 0..row.n {
        let u = row.n - (left + 1);
        let b = (row.places[u] % 1024) as usize;
        let next = heads[b];
        nexts[u] = next;
        if !leaves_out(u, usize::from(next)) {
            heads[b] = (left + 1) as u16;
        }
    }
}

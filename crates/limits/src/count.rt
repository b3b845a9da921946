// The order bounds counted along the row of all visits.
// A u32 has no `From` to a usize, and a number is narrowed by `as` where it fits: a `try_from` would have an error that cannot come.
ghost use Rattle.std.specs.Prelude.{◌≡◌, ℕ, ◌+◌, ◌*◌, ◌≤◌, ◌<◌, leb, length, get_or};
ghost use Rattle.limits.specs.OfPaths.{orders_of};
ghost use Rattle.limits.specs.Counts.{counts, later_carts, orders_among, stop_at, left_out, Chained};
ghost use Rattle.limits.specs.Row.{visits_in};

use crate::filling;
use crate::grid::Kept;
use crate::row::{Chain, Row, Stop, Visits};

// Whether u is a visit later than v, to the same cell and by a cart that is neither v's nor number k, where 0 is no cart's as in the definition. All
// is tested at once, since a branch for each test would often be foretold wrong.
#[tactic(auto, unfolding(crate::specs::Counts::counts))]
pub(crate) fn is_counted(v: Stop, k: u8, u: Stop) -> bool
    ensures { result ≡ counts v k u }
{
    (v.cart != u.cart) & (k != u.cart) & ((v.step < u.step) & (v.cell == u.cell))
}

// Whether visit u need not be linked for counting: the next of its remainder, from which on `left` visits are left, counts wherever it does.
#[tactic(auto, unfolding(crate::specs::Counts::left_out, crate::specs::Counts::stands_for, crate::specs::Counts::stop_at))]
fn is_left_out(row: &Row, u: usize, left: usize) -> bool
    requires { (u < row.now.n) × (left ≤ row.now.n) }
    ensures { result ≡ left_out row.now.numbers.now row.now.times.now row.now.places.now row.now.n u left }
{
    if left == 0 {
        return false;
    }
    let (x, h) = (row.at(u), row.at(row.n - left));
    (x.cart == h.cart) && (x.cell == h.cell) && (x.step <= h.step)
}

// How many other carts visit the cell of visit v later. The visits linked for its remainder are gone through. `put_later` (orders.rt) goes another way, with links
// of its own: one function told all of that by closures would be no plainer than both.
fn others_later(chain: &Chain, v: usize) -> usize
    requires { v < chain.now.row.n }
    ensures { result ≡ later_carts (stop_at chain.now.row.numbers.now chain.now.row.times.now chain.now.row.places.now v) 0
        (visits_in chain.now.row) }
{
    let x = chain.row.at(v);
    let mut k: u8 = 0;
    let mut count: usize = 0;
    let mut left = usize::from(chain.heads[(x.cell % 1024) as usize]);
    // a `while`: which visit comes next is said by the one at hand
    while 0 < left {
        let u = chain.row.n - left;
        let y = chain.row.at(u);
        if is_counted(x, k, y) {
            count += 1;
            k = y.cart;
        }
        left = usize::from(chain.nexts[u]);
    }
    count
}

// How many order bounds there are among the visits.
fn orders_among(chain: &Chain) -> usize
    ensures { result ≡ orders_among (visits_in chain.now.row) }
{
    let mut sum: usize = 0;
    for v in 0..chain.row.n.saturating_sub(1) {
        if chain.row.numbers[v] == chain.row.numbers[v + 1] {
            sum += others_later(chain, v);
        }
    }
    sum
}

// The order bounds of all paths.
fn all_orders(kept: &Kept) -> usize
    ensures { result ≡ orders_of kept.now.grid.paths }
{
    let mut visits = Visits::<1408>::new();
    let row = visits.arrays().fill(kept);
    let mut heads = [0u16; 1024];
    let mut nexts = [0u16; 1408];
    filling::link(&row, &mut heads, &mut nexts, |u, left| {
        is_left_out(&row, u, left)
    });
    orders_among(&Chain {
        row,
        heads: &heads,
        nexts: &nexts,
    })
}

// Whether there are no more order bounds than `most`, by the number of moves: each gives at most one to each other cart, so that few need not be counted.
pub(crate) fn few_orders(kept: &Kept, most: usize) -> bool
    requires { most ≤ 65536 }
    ensures { result ≡ leb (orders_of kept.now.grid.paths) most }
{
    kept.grid.paths.carts * kept.moves <= most + kept.moves || all_orders(kept) <= most
}

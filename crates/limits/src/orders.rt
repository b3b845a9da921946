// The order bounds of paths, put in arrays. The visits of all carts stand in a row and are linked, as they are counted.
// A number is narrowed by `as` where it fits: a `try_from` would have an error that cannot come.
ghost use Rattle.std.specs.Prelude.{◌≡◌, ℕ, suc, ◌+◌, ◌*◌, ◌-◌, ◌^◌, ◌≤◌, ◌<◌, length, get_or};
ghost use Rattle.limits.specs.OfPaths.{bounds_of};
ghost use Rattle.network.specs.BoundArrays.{Puts};
ghost use Rattle.limits.specs.Counts.{same_cart, Linked, Skipped, next_after};
ghost use Rattle.limits.specs.Row.{visit_bounds, bounds_among};

use crate::grid::Kept;
use crate::row::{Links, Row, Visits};
use crate::{count, filling};
use network::{Bound, BoundArrays};

// The entry event of visit u, one of cart j. From a cart's visit to its next are three events, from its last to the next cart's first one.
fn entry_event(u: usize, j: u8) -> u16
    requires { (u < 1408) × (j ≤ u + 1) }
    ensures { result ≡ 3 * u + 3 - 2 * j }
{
    (3 * u + 3 - 2 * usize::from(j)) as u16
}

// Whether the next visit after u, from which on `left` are left, is of u's cart.
#[tactic(auto, unfolding(crate::specs::Counts::same_cart))]
fn is_same_cart(row: &Row, u: usize, left: usize) -> bool
    requires { (u < row.now.n) × (left ≤ row.now.n) }
    ensures { result ≡ same_cart row.now.numbers.now row.now.n u left }
{
    0 < left && row.numbers[u] == row.numbers[row.n - left]
}

// Puts to each of the linked visits the next of its remainder that is of another cart.
fn put_skips(row: &Row, nexts: &[u16], skips: &mut [u16])
    requires n_in_bounds { (row.now.n ≤ length nexts.now) × (row.now.n ≤ length skips.old) }
    requires by_index { (l : ℕ) → l < row.now.n → get_or nexts.now (row.now.n - suc l) 0 ≤ l }
    ensures { Skipped row.now.numbers.now nexts.now skips.new row.now.n row.now.n }
{
    for u in (0..row.n).rev() {
        let next = usize::from(nexts[u]);
        skips[u] = if is_same_cart(row, u, next) {
            skips[row.n - next]
        } else {
            nexts[u]
        };
    }
}

impl<'r> Links<'r> {
    // The next visit to look at after u: none of its cart where that is j or k, which are not counted.
    #[tactic(auto, unfolding(crate::specs::Counts::next_after))]
    fn next_after(&self, u: usize, j: u8, k: u8) -> usize
        requires { u < self.now.row.n }
        ensures { result ≡ next_after self.now.nexts.now self.now.skips.now u (get_or self.now.row.numbers.now u 0) j k }
    {
        let i = self.row.numbers[u];
        let next = if (j == i) | (k == i) {
            self.skips[u]
        } else {
            self.nexts[u]
        };
        usize::from(next)
    }
}

// Puts the bounds from visit v; returns how many there are. The visits of its remainder are gone through, without those of a cart that is not counted.
fn put_later(links: &Links, v: usize, out: &mut BoundArrays) -> usize
    requires v_bound { v < links.now.row.n }
    requires few { length (visit_bounds links.now.row v) < 2 ^ 63 }
    ensures value { result ≡ length (visit_bounds links.now.row v) }
    ensures put { Puts out.old out.new (visit_bounds links.now.row v) }
{
    // a copy stays in registers: behind a reference, where the links are would be read again at each visit
    let links = *links;
    let row = links.row;
    let x = row.at(v);
    let from = entry_event(v, x.cart) + 1;
    let mut last: u8 = 0;
    let mut n: usize = 0;
    let mut left = usize::from(links.heads[(x.cell % 1024) as usize]);
    // a `while`: which visit comes next is said by the one at hand
    while 0 < left {
        let u = row.n - left;
        let y = row.at(u);
        let to = entry_event(u, y.cart) - 1;
        if count::is_counted(x, last, y) {
            out.put(Bound {
                from,
                to,
                lo: 0,
                hi: None,
            });
            n += 1;
            last = y.cart;
        }
        left = links.next_after(u, x.cart, last);
    }
    n
}

// Puts the order bounds among the visits; returns how many there are: not more than one from each of 1,408 visits to each of 64 carts.
fn put_orders(links: &Links, out: &mut BoundArrays) -> usize
    requires { length (bounds_among links.now.row) < 2 ^ 63 }
    ensures value { result ≡ length (bounds_among links.now.row) }
    ensures put { Puts out.old out.new (bounds_among links.now.row) }
{
    let mut n: usize = 0;
    for v in 0..links.row.n.saturating_sub(1) {
        if links.row.numbers[v] == links.row.numbers[v + 1] {
            n += put_later(links, v, out);
        }
    }
    n
}

// Puts the order bounds of all paths, by arrays of N places: few of them take little time to clear. Returns how many there are.
pub(crate) fn put_all<const N: usize>(kept: &Kept, out: &mut BoundArrays) -> usize
    requires { (kept.now.grid.paths.carts + kept.now.moves ≤ N) × (N ≤ 1408) }
    ensures value { result ≡ length (bounds_of kept.now.grid.paths) }
    ensures put { Puts out.old out.new (bounds_of kept.now.grid.paths) }
{
    let mut visits = Visits::<N>::new();
    let row = visits.arrays().fill(kept);
    let mut heads = [0u16; 1024];
    let mut nexts = [0u16; N];
    let mut skips = [0u16; N];
    filling::link(&row, &mut heads, &mut nexts, |_, _| false);
    put_skips(&row, &nexts, &mut skips);
    let links = Links {
        row,
        heads: &heads,
        nexts: &nexts,
        skips: &skips,
    };
    put_orders(&links, out)
}

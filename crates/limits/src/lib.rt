// The limits of events and bounds, counted from paths in an array. The definitions of events and bounds are those of network.
// A number is narrowed by `as` where it fits: a `try_from` would have an error that cannot come.
#![tactic(auto)]

mod count;
mod filling;
mod grid;
mod orders;
mod row;

ghost use Rattle.std.specs.Prelude.{◌≡◌, ◌<◌, length};
ghost use Rattle.words.specs.Words.{written};
ghost use Rattle.network.specs.BoundArrays.{Puts};
ghost use Rattle.limits.specs.Orders.{first_events, events_fit, firsts_fitting};
ghost use Rattle.limits.specs.OfPaths.{plan_of, keep_limits, bounds_kept};

use crate::grid::Kept;
use collisions::Paths;
use network::BoundArrays;

// Whether paths keep the limits of events and bounds.
pub fn within_limits(paths: Paths) -> bool
    ensures { result ≡ keep_limits paths.entry }
{
    if paths.steps == 0 {
        return paths.carts <= 64;
    }
    Kept::of(paths).is_some_and(|kept| count::few_orders(
        &kept,
        8192 - 2 * paths.carts - 3 * kept.moves,
    ))
}

// Writes the numbers of the carts' first events, and the finish's behind them.
fn put_firsts(kept: &Kept, firsts: &mut [u16])
    requires { kept.now.grid.paths.carts < length firsts.old }
    ensures { firsts.new ≡ written (first_events (plan_of kept.now.grid.paths)) firsts.old }
{
    let carts = kept.grid.paths.carts;
    let mut e: usize = 1;
    for i in 0..carts {
        firsts[i] = e as u16;
        e += 3 * kept.grid.moves_of(i) + 1;
    }
    firsts[carts] = e as u16;
}

// Writes the numbers of the carts' first events to the front of an array, and the finish's behind them; whether there are such. This is a bool: they are in the
// caller's array, so that an Option would hold nothing.
pub fn first_events(paths: Paths, firsts: &mut [u16]) -> bool
    ensures answer { result ≡ events_fit paths.entry.carts paths.entry.steps paths.entry.cells.now (length firsts.old) }
    ensures left { firsts.new ≡ written (firsts_fitting paths.entry.carts paths.entry.steps paths.entry.cells.now (length firsts.old)) firsts.old }
{
    if firsts.len() <= paths.carts {
        return false;
    }
    // not by `map`, as a proof does not learn what a closure writes
    match Kept::of(paths) {
        Some(kept) => {
            put_firsts(&kept, firsts);
            true
        }
        None => false,
    }
}

// Puts the order bounds of paths; returns how many there are, 0 where the limit of events is not kept. A cart alone has none, and few visits need only short
// arrays: a const parameter is a constant, so that each size is an arm.
pub fn order_bounds(paths: Paths, out: &mut BoundArrays) -> usize
    ensures answer { result ≡ length (bounds_kept paths.entry) }
    ensures left { Puts out.old out.new (bounds_kept paths.entry) }
{
    if paths.carts < 2 {
        return 0;
    }
    match Kept::of(paths) {
        Some(kept) if paths.carts + kept.moves <= 128 => orders::put_all::<128>(&kept, out),
        Some(kept) => orders::put_all::<1408>(&kept, out),
        None => 0,
    }
}

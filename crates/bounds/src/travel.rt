// The travel bounds of a plan: three for each move, by the length and the margin of its road and the speeds of its cart.
ghost use Rattle.std.specs.Prelude.{◌≡◌, ◌+◌, ◌*◌, ◌≤◌, ◌<◌, length};
ghost use Rattle.collisions.specs.Meetings.{paths_of};
ghost use Rattle.tables.specs.Arrays.{carts_in};
ghost use Rattle.network.specs.Events.{routes};
ghost use Rattle.network.specs.Bounds.{least_time, most_time, travel_bounds};
ghost use Rattle.network.specs.BoundArrays.{hi_kept, Puts};
ghost use Rattle.limits.specs.Counts.{total, moves};
ghost use Rattle.bounds.specs.Writing.{roads_of, cart_of, cart_at, move_bounds, path_bounds};

use crate::numbers::{Numbers, Roads, Speeds};
use floor::Road;
use network::{Bound, BoundArrays};

// The way of a cart: its speeds, its path, and the number of its first event.
#[derive(Clone, Copy)]
struct Route<'a> {
    speeds: Speeds,
    path: &'a [u32],
    event: u16,
}

// The speeds of the cart in the i-th place of an array, two numbers each, where 0 stands for no slowest: memory is fixed, and an `Option` takes twice as much.
fn speeds_at(speeds: &[u32], i: usize) -> Speeds
    requires { (2 * i + 1 < length speeds.now) × (i < 64) }
    ensures { cart_of result ≡ cart_at speeds.now i }
{
    let slowest = speeds[2 * i + 1];
    Speeds {
        fastest: speeds[2 * i],
        slowest: (slowest != 0).then_some(slowest),
    }
}

// The least time of a part of a move, in milliseconds, rounded up; 0 where no speed is given.
fn least(part: u32, speeds: Speeds) -> u64
    ensures { result ≡ least_time (cart_of speeds) (record { length = part; slowest = speeds.slowest }) }
{
    if speeds.fastest == 0 {
        return 0;
    }
    (1000 * u64::from(part)).div_ceil(u64::from(speeds.fastest))
}

// The most time of a part of a move, rounded down, if there is a slowest speed.
fn most(part: u32, speeds: Speeds) -> Option<u64>
    ensures value { result ≡ most_time (record { length = part; slowest = speeds.slowest }) }
    ensures kept { hi_kept result ≡ result }
{
    let slowest = speeds.slowest?;
    Some(1000 * u64::from(part) / u64::from(slowest))
}

// Puts the three travel bounds of a move along a road, the first from event e. The first and the last part are as long as each other, so that their times are
// computed once.
fn put_parts(road: Road, speeds: Speeds, e: u16, out: &mut BoundArrays)
    requires { e + 3 ≤ 4096 }
    ensures { Puts out.old out.new (move_bounds (cart_of speeds) e road) }
{
    let rest = road
        .length
        .saturating_sub(road.margin)
        .saturating_sub(road.margin);
    let lo = least(road.margin, speeds);
    let hi = most(road.margin, speeds);
    out.put(Bound {
        from: e,
        to: e + 1,
        lo,
        hi,
    });
    out.put(Bound {
        from: e + 1,
        to: e + 2,
        lo: least(rest, speeds),
        hi: most(rest, speeds),
    });
    out.put(Bound {
        from: e + 2,
        to: e + 3,
        lo,
        hi,
    });
}

// Puts the travel bounds of a route; returns the event behind it. A move without a road is one along a road without length.
fn travel_of(roads: &Roads, route: Route, out: &mut BoundArrays) -> u16
    requires { route.event + 3 * moves route.path.now < 4096 }
    ensures event { result ≡ route.entry.event + 3 * moves route.entry.path.now + 1 }
    ensures left { Puts out.old out.new (path_bounds (roads_of roads.now) (cart_of route.entry.speeds) route.entry.event route.entry.path.now) }
{
    let none = Road {
        from: 0,
        to: 0,
        length: 0,
        margin: 0,
    };
    // a copy stays in registers: behind a reference, where the roads are would be read again at each move
    let roads = *roads;
    let mut event = route.event;
    for step in route.path.windows(2) {
        if step[0] != step[1] {
            let road = roads.between(step[0], step[1]).unwrap_or(none);
            put_parts(road, route.speeds, event, out);
            event += 3;
        }
    }
    event + 1
}

// Puts the travel bounds of all carts.
pub(crate) fn travel_of_all(plan: &Numbers, out: &mut BoundArrays)
    requires sizes { (plan.now.paths.carts ≤ 64) × (1 ≤ plan.now.paths.steps) × (plan.now.paths.steps ≤ 1024) × (plan.now.paths.carts * plan.now.paths.steps ≤ length plan.now.paths.cells.now) }
    requires room { 1 + plan.now.paths.carts + 3 * total moves (paths_of plan.now.paths) ≤ 4096 }
    ensures { Puts out.old out.new (travel_bounds (roads_of plan.now.roads) (routes 1 1 (carts_in plan.now.paths.carts plan.now.speeds.now) (paths_of plan.now.paths))) }
{
    let mut event = 1;
    for i in 0..plan.paths.carts {
        let at = i * plan.paths.steps;
        let route = Route {
            speeds: speeds_at(plan.speeds, i),
            path: &plan.paths.cells[at..at + plan.paths.steps],
            event,
        };
        event = travel_of(&plan.roads, route, out);
    }
}

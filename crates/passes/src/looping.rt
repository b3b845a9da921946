// A cycle of parents, looked for where the sweeps found no times. Nothing is known of the parents but that they are codes of these bounds, so
// that whatever makes a cycle one that gains is checked.
ghost use Rattle.std.specs.Prelude.{◌≡◌, ◌⊎◌, true, ℕ, IfSome, ◌<◌, length};
ghost use mathlib.Core.List.{flat_map};
ghost use Rattle.walks.specs.Parents.{steps_back};
ghost use Rattle.schedule.specs.Timetable.{ways};
ghost use Rattle.passes.specs.Marks.{parents_in, Led, LedBack, Gaining, CycleFound};
ghost use Rattle.passes.specs.Networks.{bounds_of, bound_of};

use crate::arrays::{Network, Place};
use crate::parents::Event;

// The event as many steps back from one as there are events; none where an event on the way has no parent, or one that ends elsewhere.
fn led_back(event: Event) -> Option<usize>
    ensures { let p = event.entry.parents.now in IfSome result (LedBack (bounds_of p.net.now) p.codes.now event.entry.v) }
{
    let parents = event.parents;
    let mut x = event.v;
    for _j in 0..parents.net.events {
        let c = Event { parents, v: x }.parent()?;
        if parents.net.end_of(c) != x {
            return None;
        }
        x = parents.net.start_of(c);
    }
    Some(x)
}

// Whether a bound goes from the start to x, or x is the start: a cycle that the start doesn't reach keeps no sum from settling.
fn from_start(net: &Network, x: usize) -> bool
    ensures { result ≡ true → (x ≡ 0) ⊎ ((i : ℕ) × (i < net.now.bounds) × ((bound_of net.now i).from ≡ 0) × ((bound_of net.now i).to ≡ x)) }
{
    x == 0
        || (0..net.bounds).any(
            |i|
                requires { i < net.now.bounds }
            {
                let bound = Place { net, i };
                bound.from() == 0 && bound.to() == x
            },
        )
}

// Whether the parents lead from an event back to it and gain: they do where they cost less than 0.
fn cycle_gains(start: Event) -> bool
    requires { let bs = bounds_of start.parents.now.net.now in let codes = start.parents.now.codes.now in
        (j : ℕ) → Led (flat_map ways bs) (parents_in bs codes) (steps_back (flat_map ways bs) (parents_in bs codes) j start.v) }
    ensures { let bs = bounds_of start.entry.parents.now.net.now in let codes = start.entry.parents.now.codes.now in
        result ≡ true → Gaining (flat_map ways bs) (length codes) (parents_in bs codes) start.entry.v }
{
    let parents = start.parents;
    let mut x = start.v;
    let mut cost: i64 = 0;
    for _j in 0..parents.net.events {
        let event = Event { parents, v: x };
        let c = event.parent().unwrap();
        cost = parents.net.with_arc(c, cost);
        x = parents.net.start_of(c);
        if x == start.v {
            return cost < 0;
        }
    }
    false
}

// An event on a cycle of parents that gains and that the start reaches, looked for back from an event.
pub(crate) fn find_cycle(event: Event) -> Option<usize>
    ensures { let p = event.entry.parents.now in IfSome result (CycleFound (bounds_of p.net.now) p.codes.now) }
{
    let parents = event.parents;
    let x = led_back(event)?;
    if from_start(parents.net, x) && cycle_gains(Event { parents, v: x }) {
        return Some(x);
    }
    None
}

// The chain: back along the parents of an event that is raised for ever, and once round the cycle that is met there. Where nothing is known of the parents
// but that they are codes, the cycle is looked for and checked first.
// A number is narrowed by `as` where it fits: a `try_from` would have an error that cannot come.
ghost use Rattle.std.specs.Prelude.{◌≡◌, cond, ◌+◌, ltb, length};
ghost use mathlib.Core.List.{flat_map};
ghost use Rattle.laws.proofs.Signed.{Within};
ghost use Rattle.walks.specs.Parents.{steps_back, Trapped};
ghost use Rattle.schedule.specs.Timetable.{ways};
ghost use Rattle.passes.specs.Marks.{parents_in, CycleFound, ChainFound};
ghost use Rattle.passes.specs.Networks.{bounds_of, its_bound};
ghost use Rattle.passes.specs.Lending.{SameRoom};

use crate::Chain;
use crate::arrays::Place;
use crate::parents::{Event, Parents};
use crate::room::Room;

// The event as many steps back from one as there are events.
pub(crate) fn back(event: Event) -> usize
    requires { let net = event.parents.now.net.now in let bs = bounds_of net in
        Trapped (flat_map ways bs) net.events (parents_in bs event.parents.now.codes.now) event.v }
    ensures { let net = event.entry.parents.now.net.now in let bs = bounds_of net in
        result ≡ steps_back (flat_map ways bs) (parents_in bs event.entry.parents.now.codes.now) net.events event.entry.v }
{
    let parents = event.parents;
    let mut x = event.v;
    for _j in 0..parents.net.events {
        let here = Event { parents, v: x };
        let c = here.parent().unwrap();
        x = parents.net.start_of(c);
    }
    x
}

// The number of a bound, as document 01 has it: the plan's own are numbered from 0, those of a log from 10,000.
fn number_of(bound: Place) -> u16
    ensures { result ≡ cond (ltb bound.entry.i bound.entry.net.now.own) bound.entry.i (10000 + (its_bound bound.entry).to) }
{
    if bound.i < bound.net.own {
        return bound.i as u16;
    }
    (10_000 + bound.to()) as u16
}

// Writes the arcs of the parents from `start` back to `start`, and adds their costs: each is a bound followed the other way.
pub(crate) fn write_chain(parents: &Parents, start: usize, room: &mut Room) -> Chain
    requires cycle { CycleFound (bounds_of parents.now.net.now) parents.now.codes.now start }
    ensures chain { ChainFound parents.now.net.now.own (bounds_of parents.now.net.now) result.length result.cost
        room.old.chain_bounds.now room.old.chain_directions.now room.new.chain_bounds.now room.new.chain_directions.now }
    ensures times { room.new.times.now ≡ room.old.times.now }
    ensures same { SameRoom room.old room.new }
    ensures small { Within 4096000000000000 result.cost }
{
    let net = parents.net;
    let mut x = start;
    let mut length = 0;
    let mut cost: i64 = 0;
    // it ends where it comes back: a `for` would need an answer behind a last turn that never comes
    loop {
        let event = Event {
            parents: &*parents,
            v: x,
        };
        let c = event.parent().unwrap();
        let number = number_of(Place { net, i: c / 2 });
        words::put::<2>(room.chain_bounds, length, u64::from(number));
        // 1 for a bound that the arc followed forward
        room.chain_directions[length] = (1 - c % 2) as u8;
        cost = net.with_arc(c, cost);
        x = net.start_of(c);
        length += 1;
        if x == start {
            return Chain { length, cost };
        }
    }
}

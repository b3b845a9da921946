// Times of a network of bounds, by passes over its arcs, or a chain. The bounds are in two arrays: the events that each goes from and
// to, and its lo and one more than its hi, 0 where hi is none. What is answered and written is defined in specs/.
#![tactic(auto)]

mod arc;
mod arrays;
mod certificate;
mod fits;
mod left;
mod lent;
mod links;
mod looping;
mod parents;
mod passing;
mod room;
mod sums;
mod sweeping;
mod values;

ghost use Rattle.std.specs.Prelude.{◌≡◌, None, IfSome, ◌*◌, ◌≤◌, length, map};
ghost use mathlib.Core.List.{flat_map};
ghost use Rattle.words.specs.Words.{words, written};
ghost use Rattle.walks.specs.Passes.{settled};
ghost use Rattle.schedule.specs.Timetable.{time, ways};
ghost use Rattle.passes.specs.Solving.{Solves, Searched, Solving};
ghost use Rattle.passes.specs.Marks.{sum_at, sums_in, CycleFound, Finds};
ghost use Rattle.passes.specs.Networks.{bounds_of};
ghost use Rattle.passes.specs.Sweeps.{FindsIn};
ghost use Rattle.passes.specs.Lending.{lent_of, room_of, SameSlices, SameRoom};

use arrays::{First, Network, Place};
pub use fits::BoundSlices;
use left::Left;
pub use lent::Lent;
use parents::{Event, Parents};
use room::Room;
use sweeping::Sweeping;
use values::Values;

// A closed chain of bounds found: its length and its cost.
#[derive(Clone, Copy, Debug, PartialEq, Eq)]
pub struct Chain {
    pub length: usize,
    pub cost: i64,
}

// What is found: times after so many passes, or a closed chain.
#[derive(Clone, Copy, Debug, PartialEq, Eq)]
pub enum Solved {
    Times { passes: usize },
    Cycle(Chain),
}

// What passes or sweeps come to: times after so many passes, or an event on a cycle that gains.
#[derive(Clone, Copy, Debug, PartialEq, Eq)]
enum Found {
    Settled(usize),
    Looped(usize),
}

// The time of a sum: 0 for one that is none or below 0.
fn time_of(sum: i64) -> u64
    ensures { result ≡ time (sum_at sum) }
{
    sum.max(0) as u64
}

// Writes the times of sums to the front of a slice.
fn write_times(sums: &[i64], times: &mut [u8])
    requires { 8 * length sums.now ≤ length times.old }
    ensures { times.new ≡ written (words 8 (map time (sums_in sums.now))) times.old }
{
    for (i, sum) in sums.iter().enumerate() {
        words::put::<8>(times, i, time_of(*sum));
    }
}

// Writes what is found.
fn write_found(left: Left, found: Found, room: &mut Room) -> Solved
    requires { Finds (bounds_of left.net.now) left.net.now.events left.sums.now left.parents.now found }
    ensures solves { let net = left.entry.net.now in Solves net.own net.events (bounds_of net) (room_of room.old) result (room_of room.new) }
    ensures same { SameRoom room.old room.new }
{
    match found {
        Found::Settled(passes) => {
            write_times(left.sums, room.times);
            Solved::Times { passes }
        }
        Found::Looped(at) => Solved::Cycle(links::write_chain(
            &Parents {
                net: left.net,
                codes: left.parents,
            },
            at,
            room,
        )),
    }
}

// The passes, whatever `sums` has, with working memory of their own for all else.
fn by_passes(net: &Network, sums: &mut [i64], room: &mut Room) -> Solved
    requires { length sums.old ≡ net.now.events }
    ensures solves { Solves net.now.own net.now.events (bounds_of net.now) (room_of room.old) result (room_of room.new) }
    ensures same { SameRoom room.old room.new }
{
    let mut first = [passing::LOW; 4096];
    let mut parents = [0u16; 4096];
    first[0] = 0;
    let first = &mut first[..net.events];
    let parents = &mut parents[..net.events];
    sums.copy_from_slice(first);
    let found = passing::run(net, sums, first, parents);
    let left = Left {
        net: &*net,
        sums,
        parents,
    };
    write_found(left, found, room)
}

// Over how many bounds the first sweep goes: over the plan's own where what a log adds begins with [0, none], as before any report, since such bounds
// raise nothing that travel does not; else over all.
fn first_count(net: &Network) -> usize
    ensures { result ≤ net.now.bounds }
{
    if net.own < net.bounds {
        let added = Place {
            net: &*net,
            i: net.own,
        };
        if added.lo() == 0 && added.hi().is_none() {
            return net.own;
        }
    }
    net.bounds
}

// Sweeps over the first `count` bounds until one finds each of them allowed, 1,024 at most. After every sixteen a cycle is looked for behind an event that the
// last may have raised; an event on one, if one was found.
fn sweep_until(sweeping: &mut Sweeping, count: usize) -> Option<usize>
    ensures cycle { IfSome result (CycleFound (bounds_of sweeping.new.net.now) sweeping.new.parents.now) }
    ensures same { sweeping.new.net.now ≡ sweeping.old.net.now }
{
    for _k in 0..64 {
        let event = sweeping::sweeps(sweeping, count, 16)?;
        let codes = sweeping.read_parents();
        let at = looping::find_cycle(Event {
            parents: &codes,
            v: event,
        });
        if at.is_some() {
            return at;
        }
    }
    None
}

// How many passes are believed of values, which become times: where they are a certificate, whatever the parents are; else they stay. The parents stay.
fn believe(sweeping: &mut Sweeping) -> Option<usize>
    ensures settled { let net = sweeping.new.net.now in
        IfSome result (λ k. settled (flat_map ways (bounds_of net)) net.events ≡ Some (record { passes = k; sums = sums_in sweeping.new.values.now })) }
    ensures stay { result ≡ None → sweeping.new.values.now ≡ sweeping.old.values.now }
    ensures parents { sweeping.new.parents.now ≡ sweeping.old.parents.now }
    ensures same { sweeping.new.net.now ≡ sweeping.old.net.now }
{
    if !certificate::is_certificate(sweeping.read_values()) {
        return None;
    }
    Some(certificate::round(sweeping.values))
}

// Sweeps over the first `count` bounds, and what comes of them: a cycle, or what is believed of the values that they leave.
fn sweep_first(sweeping: &mut Sweeping, count: usize) -> Option<Found>
    ensures found { IfSome result (FindsIn sweeping.new) }
    ensures same { sweeping.new.net.now ≡ sweeping.old.net.now }
{
    if let Some(at) = sweep_until(sweeping, count) {
        return Some(Found::Looped(at));
    }
    let passes = believe(sweeping)?;
    Some(Found::Settled(passes))
}

// Sweeps over the plan's own bounds, since what a log adds leads from the start alone, and what comes of them; else over all.
fn sweep_on(sweeping: &mut Sweeping) -> Option<Found>
    ensures found { IfSome result (FindsIn sweeping.new) }
    ensures same { sweeping.new.net.now ≡ sweeping.old.net.now }
{
    let net = sweeping.net;
    if let Some(found) = sweep_first(sweeping, net.own) {
        return Some(found);
    }
    sweep_first(sweeping, net.bounds)
}

// The first sweeps: one, and where there are more of the plan's own bounds than events, as where carts meet, another over these.
fn first_sweeps(sweeping: &mut Sweeping)
    ensures { sweeping.new.net.now ≡ sweeping.old.net.now }
{
    let net = sweeping.net;
    let first = First {
        net,
        count: first_count(net),
    };
    sweeping::first_sweep(first, sweeping.values, sweeping.parents);
    if net.events < net.own {
        sweeping::sweeps(sweeping, net.own, 1);
    }
}

// The fast way: values found by sweeps, and believed where they are a certificate; or a cycle, believed where it is one. What comes of the first sweeps is
// checked at once where there are at most 256 events, or hardly more of the plan's own bounds than events, as for a cart alone: they should be enough, and
// a check that fails there costs little. Else sweeps go on.
fn quick(sweeping: &mut Sweeping) -> Option<Found>
    ensures found { IfSome result (FindsIn sweeping.new) }
    ensures same { sweeping.new.net.now ≡ sweeping.old.net.now }
{
    first_sweeps(sweeping);
    let net = sweeping.net;
    if net.events <= 256 || net.own <= net.events {
        if let Some(passes) = believe(sweeping) {
            return Some(Found::Settled(passes));
        }
    }
    sweep_on(sweeping)
}

// The fast way, and what comes of it is written: where nothing does, nothing is.
fn search(sweeping: &mut Sweeping, room: &mut Room) -> Option<Solved>
    ensures searched { let net = sweeping.old.net.now in Searched net.own net.events (bounds_of net) (room_of room.old) result (room_of room.new) }
    ensures same_net { sweeping.new.net.now ≡ sweeping.old.net.now }
    ensures same { SameRoom room.old room.new }
{
    let found = quick(sweeping)?;
    Some(write_found(sweeping.left(), found, room))
}

// The fast way, and where nothing comes of it the passes, with working memory for at most N events: the less, the less time it takes to fill. The passes'
// own memory is not part of that: hardly a plan comes to them.
fn find_among<const N: usize>(net: &Network, room: &mut Room) -> Solved
    requires { (net.now.events ≤ N) × (N ≤ 4096) }
    ensures solves { Solves net.now.own net.now.events (bounds_of net.now) (room_of room.old) result (room_of room.new) }
    ensures same { SameRoom room.old room.new }
{
    let mut values = [sweeping::LEAST; N];
    let mut parents = [0u16; N];
    values[0] = 0;
    let values = &mut values[..net.events];
    let parents = &mut parents[..net.events];
    let mut sweeping = Sweeping {
        net: &*net,
        values,
        parents,
    };
    if let Some(solved) = search(&mut sweeping, room) {
        return solved;
    }
    let Sweeping { values, .. } = sweeping;
    by_passes(net, values, room)
}

// The same, with as much memory as the number of events asks for.
fn find(net: &Network, room: &mut Room) -> Solved
    ensures solves { Solves net.now.own net.now.events (bounds_of net.now) (room_of room.old) result (room_of room.new) }
    ensures same { SameRoom room.old room.new }
{
    match net.events {
        0..=64 => find_among::<64>(net, room),
        65..=256 => find_among::<256>(net, room),
        257..=1024 => find_among::<1024>(net, room),
        _ => find_among::<4096>(net, room),
    }
}

// Finds the times of the bounds handed in, the first `own` of them numbered from 0, and writes them; or a chain. Nothing is found where they are no
// network, or a slice is short.
pub fn solve(given: BoundSlices, lent: &mut Lent) -> Option<Solved>
    ensures solving { let g = given.entry in Solving g.own g.bounds g.events g.ends.now g.ranges.now (lent_of lent.old) result (lent_of lent.new) }
    ensures same { SameSlices lent.old lent.new }
{
    let net = Network::new(given)?;
    if !lent.is_long_enough() {
        return None;
    }
    let mut room = Room {
        times: &mut *lent.times,
        chain_bounds: &mut *lent.chain_bounds,
        chain_directions: &mut *lent.chain_directions,
    };
    Some(find(&net, &mut room))
}

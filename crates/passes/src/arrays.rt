// A network: bounds in the front of two arrays, the events that each goes from and to, and its lo and one more than its hi, 0 where hi is none. The arc
// with the code c + 1 begins at the event in place c of the one, and its lo or hi is in place c of the other.
// A number is narrowed by `as` where it fits: a `try_from` would have an error that cannot come.
ghost use Rattle.std.specs.Prelude.{◌≡◌, true, ◌*◌, ◌≤◌, ◌<◌, length};
ghost use Rattle.network.specs.BoundArrays.{bounds_in};
ghost use Rattle.passes.specs.Solving.{bounds_fit};

use crate::arc::Arc;
use crate::fits::{BoundSlices, LongSlices};

// As many bounds as may be, each between two of the events, and none too large. The first `own` of them are the plan's own.
#[derive(Clone, Copy)]
pub(crate) struct Network<'a> {
    ends: &'a [u16],
    ranges: &'a [u64],
    pub(crate) own: usize,
    pub(crate) bounds: usize,
    pub(crate) events: usize,
    ghost few_bounds: { bounds ≤ 12288 },
    ghost ends_long: { 2 * bounds ≤ length ends.now },
    ghost ranges_long: { 2 * bounds ≤ length ranges.now },
    ghost some_event: { 1 ≤ events },
    ghost few_events: { events ≤ 4096 },
    ghost all_fit: { bounds_fit events (bounds_in bounds ends.now ranges.now) ≡ true },
}

impl<'a> Network<'a> {
    ghost use Rattle.std.specs.Prelude.{◌≡◌, false, MatchOption, ◌+◌, ◌-◌, ◌*◌, ◌/◌, ◌%◌, ◌<◌, get_or, ℤ, pos, ◌+ℤ◌, ◌-ℤ◌};
    ghost use Rattle.laws.proofs.Signed.{Within};
    ghost use Rattle.passes.specs.Solving.{network_fits};
    ghost use Rattle.passes.specs.Networks.{IsArc, Reads};

    // The network that is handed in, if it is one.
    #[tactic(auto, unfolding(crate::specs::Solving::network_fits))]
    pub(crate) fn new(given: BoundSlices<'a>) -> Option<Network<'a>>
        ensures { let g = given.entry in
            MatchOption result (network_fits g.bounds g.events g.ends.now g.ranges.now ≡ false) (Reads g.own g.bounds g.events g.ends.now g.ranges.now) }
    {
        let long = LongSlices::new(given)?;
        let BoundSlices {
            ends,
            ranges,
            own,
            bounds,
            events,
        } = given;
        if events == 0 || 4096 < events || !long.all_fit() {
            return None;
        }
        Some(Network {
            ends,
            ranges,
            own,
            bounds,
            events,
        })
    }

    // The event where the arc with the code c + 1 begins.
    pub(crate) fn start_of(&self, c: usize) -> usize
        requires { c < 2 * self.now.bounds }
        ensures { result ≡ get_or self.now.ends.now c 0 }
    {
        usize::from(self.ends[c])
    }

    // The event where it ends.
    pub(crate) fn end_of(&self, c: usize) -> usize
        requires { c < 2 * self.now.bounds }
        ensures { result ≡ get_or self.now.ends.now (2 * (c / 2) + (1 - c % 2)) 0 }
    {
        usize::from(self.ends[2 * (c / 2) + (1 - c % 2)])
    }

    // The cost and one arc more, which a chain follows the other way: an arc that added lo costs -lo, and one that subtracted hi costs hi.
    #[tactic(auto, using(crate::proofs::Networks::range_small))]
    pub(crate) fn with_arc(&self, c: usize, cost: i64) -> i64
        requires arc { IsArc self.now c }
        requires within { Within 4096000000000000 cost }
        ensures lower { c % 2 ≡ 0 → result ≡ cost -ℤ pos (get_or self.now.ranges.now c 0) }
        ensures upper { c % 2 ≡ 1 → result ≡ cost +ℤ pos (get_or self.now.ranges.now c 0 - 1) }
    {
        if c % 2 == 0 {
            return cost - self.ranges[c] as i64;
        }
        cost + (self.ranges[c] - 1) as i64
    }
}

// The first bounds of a network, over which a sweep goes.
#[derive(Clone, Copy)]
pub(crate) struct First<'n> {
    pub(crate) net: &'n Network<'n>,
    pub(crate) count: usize,
    ghost there: { count ≤ net.now.bounds },
}

// A bound of a network, by its place. Each of its four numbers is read by one method, which works out where it stands: an iterator over pairs would not go by place.
#[derive(Clone, Copy)]
pub(crate) struct Place<'n> {
    pub(crate) net: &'n Network<'n>,
    pub(crate) i: usize,
    ghost there: { i < net.now.bounds },
}

impl<'n> Place<'n> {
    ghost use Rattle.std.specs.Prelude.{◌≡◌, [], ◌∷◌, MatchOption, ◌+◌, ◌*◌, ◌≤◌, ◌<◌};
    ghost use Rattle.schedule.specs.Timetable.{forward, ways};
    ghost use Rattle.passes.specs.Networks.{its_bound, HiOf};
    ghost use Rattle.passes.specs.Arcs.{arc_of, IsOf};

    // The event that the bound goes from.
    pub(crate) fn from(self) -> usize
        ensures is { result ≡ (its_bound self.entry).from }
        ensures below { result < self.entry.net.now.events }
    {
        usize::from(self.net.ends[2 * self.i])
    }

    // The event that it goes to.
    pub(crate) fn to(self) -> usize
        ensures is { result ≡ (its_bound self.entry).to }
        ensures below { result < self.entry.net.now.events }
    {
        usize::from(self.net.ends[2 * self.i + 1])
    }

    // Its lo.
    pub(crate) fn lo(self) -> u64
        ensures is { result ≡ (its_bound self.entry).lo }
        ensures small { result ≤ 1000000000000 }
    {
        self.net.ranges[2 * self.i]
    }

    // Its hi, if it has one.
    pub(crate) fn hi(self) -> Option<u64>
        ensures { HiOf (its_bound self.entry) result }
    {
        self.net.ranges[2 * self.i + 1].checked_sub(1)
    }

    // The arc of the bound followed forward: it adds lo.
    #[tactic(auto, unfolding(schedule::specs::Timetable::forward))]
    pub(crate) fn forward(self) -> Arc
        ensures is { arc_of result ≡ forward (its_bound self.entry) }
        ensures of { IsOf self.entry.net.now (2 * self.entry.i + 1) result }
    {
        Arc {
            from: self.from(),
            to: self.to(),
            adds: self.lo() as i64,
            code: (2 * self.i + 1) as u16,
        }
    }

    // The same bound followed backward, where it has a hi: that is subtracted. Where it goes is not read again.
    #[tactic(auto, unfolding(schedule::specs::Timetable::ways, schedule::specs::Timetable::backward))]
    pub(crate) fn backward(self, onward: Arc) -> Option<Arc>
        requires is { arc_of onward ≡ forward (its_bound self) }
        requires of { IsOf self.net.now (2 * self.i + 1) onward }
        ensures { MatchOption result (ways (its_bound self.entry) ≡ forward (its_bound self.entry) ∷ [])
            (λ a. (ways (its_bound self.entry) ≡ forward (its_bound self.entry) ∷ (arc_of a ∷ [])) × IsOf self.entry.net.now (2 * self.entry.i + 2) a) }
    {
        let hi = self.hi()?;
        Some(Arc {
            from: onward.to,
            to: onward.from,
            adds: 0 - hi as i64,
            code: onward.code + 1,
        })
    }
}

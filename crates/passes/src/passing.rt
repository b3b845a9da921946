// The passes. A sum is an i64; LOW stands for none: memory is fixed, and an `Option` takes twice as much.
ghost use Rattle.std.specs.Prelude.{◌≡◌, ℕ, MatchOption, ◌<◌, length, get_or, replicate};
ghost use mathlib.Core.List.{List, flat_map};
ghost use Rattle.walks.specs.Passes.{raise, at_start};
ghost use Rattle.walks.specs.Passes.{pass as walk-pass};
ghost use Rattle.walks.specs.Parents.{adopt, adopt_all};
ghost use Rattle.schedule.specs.Timetable.{ways};
ghost use Rattle.network.specs.Bounds.{Bound};
ghost use Rattle.passes.specs.Marks.{low, sums_in, ways_before, arc_place, parents_in, Code, Coded, Followed, Finds};
ghost use Rattle.passes.specs.Networks.{bounds_of, its_bound};
ghost use Rattle.passes.specs.Arcs.{arc_of};

use crate::arc::Arc;
use crate::arrays::{Network, Place};
use crate::parents::{Event, Parents};
use crate::sums::Sums;
use crate::{Found, links};

pub(crate) const LOW: i64 = -4_611_686_018_427_387_904;

// Follows one arc: where it raises the sum at the event where it ends, it becomes the parent of that.
fn follow(old: Sums, new: &mut [i64], parents: &mut [u16], arc: Arc)
    requires { (arc.from < old.net.now.events) × (arc.to < length new.old) × (arc.to < length parents.old) }
    ensures sums { sums_in new.new ≡ raise (sums_in old.entry.all.now) (sums_in new.old) (arc_of arc) }
    ensures adopted { (bs : List Bound) (place : ℕ) → arc_place bs arc.code ≡ Some place
        → parents_in bs parents.new ≡ adopt (sums_in old.entry.all.now) (sums_in new.old) (parents_in bs parents.old) place (arc_of arc) }
    ensures coded { (bs : List Bound) → Code bs arc.code → Coded bs parents.old → Coded bs parents.new }
{
    let from = old.all[arc.from];
    if from != LOW {
        let sum = from + arc.adds;
        let at = new[arc.to];
        if at < sum {
            new[arc.to] = sum;
            parents[arc.to] = arc.code;
        }
    }
}

// Follows a bound both ways, each from what `old` has, into `new`.
fn follow_bound(bound: Place, old: Sums, new: &mut [i64], parents: &mut [u16])
    requires { (old.net.now ≡ bound.net.now) × (length new.old ≡ bound.net.now.events) × (length parents.old ≡ bound.net.now.events) }
    ensures { Followed (bounds_of bound.entry.net.now) (ways (its_bound bound.entry)) (ways_before (bounds_of bound.entry.net.now) bound.entry.i)
        old.entry.all.now new.old new.new parents.old parents.new }
{
    let arc = bound.forward();
    follow(old, new, parents, arc);
    if let Some(back) = bound.backward(arc) {
        follow(old, new, parents, back);
    }
}

// One pass: follows every bound into `new`, which holds the same as `old` at first.
fn pass(old: Sums, new: &mut [i64], parents: &mut [u16])
    requires { (new.old ≡ old.all.now) × (length parents.old ≡ old.net.now.events) }
    ensures sums { sums_in new.new ≡ walk-pass (flat_map ways (bounds_of old.entry.net.now)) (sums_in old.entry.all.now) }
    ensures adopted { let bs = bounds_of old.entry.net.now in let sums = sums_in old.entry.all.now in
        parents_in bs parents.new ≡ adopt_all (flat_map ways bs) 0 sums sums (parents_in bs parents.old) }
    ensures coded { let bs = bounds_of old.entry.net.now in Coded bs parents.old → Coded bs parents.new }
{
    // a copy stays in registers
    let net = *old.net;
    for i in 0..net.bounds {
        follow_bound(Place { net: &net, i }, old, new, parents);
    }
}

// Copies `new` to `old`; a place where that changed something, if there was one.
fn settle(old: &mut [i64], new: &[i64]) -> Option<usize>
    requires { length old.old ≡ length new.now }
    ensures copied { old.new ≡ new.now }
    ensures changed { MatchOption result (old.old ≡ new.now) (λ v. (v < length new.now) × (get_or old.old v low ≡ get_or new.now v low → ⊥)) }
{
    let mut changed = None;
    for i in 0..new.len() {
        if old[i] != new[i] {
            old[i] = new[i];
            changed = Some(i);
        }
    }
    changed
}

// Passes over the bounds until one changes nothing, as many as there are events at most. An event that the last of them still raised is raised for ever.
pub(crate) fn run(net: &Network, old: &mut [i64], new: &mut [i64], parents: &mut [u16]) -> Found
    requires in_bounds { length old.old ≡ net.now.events }
    requires value { (sums_in old.old ≡ at_start net.now.events) × (new.old ≡ old.old) × (parents.old ≡ replicate net.now.events 0) }
    ensures { Finds (bounds_of net.now) net.now.events old.new parents.new result }
{
    let mut raised = 0;
    for k in 0..old.len() {
        let before = Sums {
            net: &*net,
            all: old,
        };
        pass(before, new, parents);
        match settle(old, new) {
            None => return Found::Settled(k),
            Some(v) => raised = v,
        }
    }
    let parents = Parents {
        net: &*net,
        codes: parents,
    };
    Found::Looped(links::back(Event {
        parents: &parents,
        v: raised,
    }))
}

// The certificate: values are checked against every arc, and then believed, however they were found. They say the times and the number of passes.
// A number is narrowed by `as` where it fits: a `try_from` would have an error that cannot come.
ghost use Rattle.std.specs.Prelude.{◌≡◌, false, true, ℕ, [], ◌∷◌, ◌≤◌, ◌<◌, length, get_or, pos, negsuc, nat_abs, ◌+ℤ◌, ◌≤ℤ◌, ◌<ℤ◌};
ghost use mathlib.Core.List.{flat_map};
ghost use Rattle.laws.proofs.Signed.{Within};
ghost use Rattle.schedule.specs.Timetable.{ways};
ghost use Rattle.passes.specs.Values.{value, InRange, Allowed, Marks, Certified, Rounded};
ghost use Rattle.walks.specs.Certificate.{weighted};
ghost use Rattle.passes.specs.Networks.{bounds_of, its_bound};
ghost use Rattle.passes.specs.Arcs.{arc_of};

use crate::arc::Arc;
use crate::arrays::Place;
use crate::values::Values;

// Whether the values allow an arc; where it gives the event where it ends its value exactly, that is marked.
fn check_arc(values: Values, marks: &mut [bool], arc: Arc) -> bool
    requires { (arc.from < values.net.now.events) × (arc.to < values.net.now.events) × (arc.to < length marks.old) }
    ensures allowed { let v = values.entry.all.now in result ≡ true → (value v arc.from +ℤ (weighted (arc_of arc)).adds) ≤ℤ value v arc.to }
    ensures marked { Marks (arc_of arc ∷ []) values.entry.all.now marks.old marks.new }
{
    let sum = values.along(arc);
    let at = values.all[arc.to];
    if at < sum {
        return false;
    }
    if sum < at {
        return true;
    }
    marks[arc.to] = true;
    true
}

// The same for a bound, both ways.
fn check_bound(bound: Place, values: Values, marks: &mut [bool]) -> bool
    requires { (values.net.now ≡ bound.net.now) × (length marks.old ≡ bound.net.now.events) }
    ensures allowed { result ≡ true → Allowed (ways (its_bound bound.entry)) values.entry.all.now }
    ensures marked { Marks (ways (its_bound bound.entry)) values.entry.all.now marks.old marks.new }
{
    let arc = bound.forward();
    if !check_arc(values, marks, arc) {
        return false;
    }
    match bound.backward(arc) {
        None => true,
        Some(back) => check_arc(values, marks, back),
    }
}

// Whether the values allow every bound; the events to which one is exact are marked.
fn check_bounds(values: Values, marks: &mut [bool]) -> bool
    requires { length marks.old ≡ values.net.now.events }
    ensures allowed { result ≡ true → Allowed (flat_map ways (bounds_of values.entry.net.now)) values.entry.all.now }
    ensures marked { Marks (flat_map ways (bounds_of values.entry.net.now)) values.entry.all.now marks.old marks.new }
{
    // a `for`: of a closure that changes the marks an `all` says nothing
    let net = values.net;
    for i in 0..net.bounds {
        if !check_bound(Place { net, i }, values, marks) {
            return false;
        }
    }
    true
}

// Whether the start has the value 0, and every other event is marked and has a value whose time is not below 0.
fn check_events(values: &[i64], marks: &[bool]) -> bool
    requires { (1 ≤ length values.now) × (length marks.now ≡ length values.now) }
    ensures { result ≡ true → (value values.now 0 ≡ pos 0)
        × ((v : ℕ) → 0 < v → v < length values.now → (negsuc 8191 <ℤ value values.now v) × (get_or marks.now v false ≡ true)) }
{
    if values[0] != 0 {
        return false;
    }
    // a `for`: as `all` the proof didn't close
    for v in 1..values.len() {
        if values[v] < -8191 || !marks[v] {
            return false;
        }
    }
    true
}

// Whether the values of at most N events are a certificate. No event is marked yet.
fn check<const N: usize>(values: Values) -> bool
    requires { (values.net.now.events ≤ N) × (N ≤ 4096) }
    ensures { result ≡ true → Certified (flat_map ways (bounds_of values.entry.net.now)) values.entry.all.now }
{
    let mut marks = [false; N];
    let marks = &mut marks[..values.net.events];
    check_bounds(values, marks) && check_events(values.all, marks)
}

// Whether values are a certificate. Few marks take less time to clear; a const parameter is a constant, so that each size is an arm.
pub(crate) fn is_certificate(values: Values) -> bool
    ensures { result ≡ true → Certified (flat_map ways (bounds_of values.entry.net.now)) values.entry.all.now }
{
    if values.net.events <= 256 {
        return check::<256>(values);
    }
    check::<4096>(values)
}

// A value, and as much more as the next number that 8,192 divides may be away.
fn lift(x: i64) -> u64
    requires { Within 1152921504606846976 x × (negsuc 8191 <ℤ x) }
    ensures { result ≡ nat_abs (x +ℤ pos 8191) }
{
    (x + 8191) as u64
}

// Rounds the values up to times; returns the greatest number of arcs that one of them counts.
pub(crate) fn round(values: &mut [i64]) -> usize
    requires in_range { InRange values.old × ((v : ℕ) → v < length values.old → negsuc 8191 <ℤ value values.old v) }
    requires in_bounds { 1 ≤ length values.old }
    ensures { Rounded values.old values.new result }
{
    let mut most = 0;
    for i in 0..values.len() {
        let x = lift(values[i]);
        values[i] = (x / 8192) as i64;
        most = most.max(8191 - (x % 8192) as usize);
    }
    most
}

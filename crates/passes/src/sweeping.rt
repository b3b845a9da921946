// Sweeps, the fast way to values: every bound in its turn, raised in place. Nothing is believed of what they come to (certificate.rt checks it),
// but that it stays in a range in which sums fit, and that parents are codes of these bounds. In the loops over bounds values and parents are two slices: out
// of a struct of slices they would read where these are again at each bound.
ghost use Rattle.std.specs.Prelude.{◌≡◌, IfSome, ◌<◌};
ghost use Rattle.passes.specs.Arcs.{IsOf};
ghost use Rattle.passes.specs.Networks.{Kept};
ghost use Rattle.passes.specs.Codes.{Kept-prop};

use crate::arc::Arc;
use crate::arrays::{First, Network, Place};
use crate::left::Left;
use crate::parents::Parents;
use crate::values::Values;

// No value is as great as this: 2^60.
const MOST: i64 = 1_152_921_504_606_846_976;

// What each event but the start has at first: none is less.
pub(crate) const LEAST: i64 = -1_152_921_504_606_846_976;

// Follows an arc of a network: where the value that comes along it is greater than that where it ends, it becomes the one there.
fn raise(net: &Network, arc: Arc, values: &mut [i64], parents: &mut [u16])
    requires arc { IsOf net.now arc.code arc }
    requires kept { Kept net.now values.old parents.old }
    ensures { Kept net.now values.new parents.new }
{
    let before = Values {
        net: &*net,
        all: values,
    };
    let sum = before.along(arc);
    if values[arc.to] < sum && sum < MOST {
        values[arc.to] = sum;
        parents[arc.to] = arc.code;
    }
}

// Follows a bound both ways.
fn raise_bound(bound: Place, values: &mut [i64], parents: &mut [u16])
    requires { Kept bound.net.now values.old parents.old }
    ensures { Kept bound.entry.net.now values.new parents.new }
{
    let arc = bound.forward();
    raise(bound.net, arc, values, parents);
    if let Some(back) = bound.backward(arc) {
        raise(bound.net, back, values, parents);
    }
}

// Whether the values allow a bound both ways. Most bounds of most sweeps are: it is asked first, for nothing is stored then.
fn allows(bound: Place, values: Values) -> bool
    requires { values.net.now ≡ bound.net.now }
{
    let arc = bound.forward();
    if values.all[arc.to] < values.along(arc) {
        return false;
    }
    match bound.backward(arc) {
        None => true,
        Some(back) => values.along(back) <= values.all[back.to],
    }
}

// Raises a bound if it is not allowed; whether it was not.
fn raise_unless_allowed(bound: Place, values: &mut [i64], parents: &mut [u16]) -> bool
    requires { Kept bound.net.now values.old parents.old }
    ensures { Kept bound.entry.net.now values.new parents.new }
{
    let before = Values {
        net: bound.net,
        all: values,
    };
    if allows(bound, before) {
        return false;
    }
    raise_bound(bound, values, parents);
    true
}

// The first sweep over bounds. It raises most of them, so that it does not ask first.
pub(crate) fn first_sweep(first: First, values: &mut [i64], parents: &mut [u16])
    requires { Kept first.net.now values.old parents.old }
    ensures { Kept first.entry.net.now values.new parents.new }
{
    // a copy stays in registers: behind a reference, where the arrays are would be read again at each bound
    let net = *first.net;
    for i in 0..first.count {
        raise_bound(Place { net: &net, i }, values, parents);
    }
}

// One sweep over bounds; the place of the last that was not allowed, if there was one.
fn sweep(first: First, values: &mut [i64], parents: &mut [u16]) -> Option<usize>
    requires { Kept first.net.now values.old parents.old }
    ensures place { IfSome result (λ i. i < first.entry.count) }
    ensures kept { Kept first.entry.net.now values.new parents.new }
{
    let net = *first.net;
    let mut last = None;
    for i in 0..first.count {
        if raise_unless_allowed(Place { net: &net, i }, values, parents) {
            last = Some(i);
        }
    }
    last
}

// A network, and what sweeps over it work on.
#[derive(Drop)]
pub(crate) struct Sweeping<'a> {
    pub(crate) net: &'a Network<'a>,
    pub(crate) values: &'a mut [i64],
    pub(crate) parents: &'a mut [u16],
    ghost kept: { Kept net.now values.now parents.now } by { Kept-prop net.now values.now parents.now },
}

// A slice that is lent out of a `&mut` struct in a struct of its own comes back as any of its length: so these lend out of a `&`.
impl<'a> Sweeping<'a> {
    // The values, as they are read.
    pub(crate) fn read_values(&self) -> Values
        ensures { (result.net.now ≡ self.now.net.now) × (result.all.now ≡ self.now.values.now) }
    {
        Values {
            net: self.net,
            all: self.values,
        }
    }

    // The parents, as they are read.
    pub(crate) fn read_parents(&self) -> Parents
        ensures { (result.net.now ≡ self.now.net.now) × (result.codes.now ≡ self.now.parents.now) }
    {
        Parents {
            net: self.net,
            codes: self.parents,
        }
    }

    // Both, as they are left.
    pub(crate) fn left(&self) -> Left
        ensures { (result.net.now ≡ self.now.net.now) × (result.sums.now ≡ self.now.values.now) × (result.parents.now ≡ self.now.parents.now) }
    {
        Left {
            net: self.net,
            sums: self.values,
            parents: self.parents,
        }
    }
}

// Sweeps over the first `count` bounds, or all where there are fewer, `most` times at most, until one finds each of them allowed; else an event that the
// last of them may have raised.
pub(crate) fn sweeps(sweeping: &mut Sweeping, count: usize, most: usize) -> Option<usize>
    ensures event { IfSome result (λ v. v < sweeping.new.net.now.events) }
    ensures same { sweeping.new.net.now ≡ sweeping.old.net.now }
{
    let net = sweeping.net;
    let first = First {
        net,
        count: count.min(net.bounds),
    };
    let mut event = 0;
    for _k in 0..most {
        let last = sweep(first, sweeping.values, sweeping.parents)?;
        event = Place { net, i: last }.to();
    }
    Some(event)
}

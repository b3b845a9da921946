// The parents of a network's events, as they are read: each is the code of the arc that last raised an event, 0 for none, 2 i + 1 for the bound at place i
// followed forward, 2 i + 2 for the same followed backward. An `Option` would take twice as much, and memory is fixed.
ghost use Rattle.std.specs.Prelude.{◌≡◌, ◌<◌, length};
ghost use Rattle.passes.specs.Networks.{bounds_of};
ghost use Rattle.passes.specs.Marks.{Coded};
ghost use Rattle.passes.specs.Codes.{Coded-prop};

use crate::arrays::Network;

#[derive(Clone, Copy)]
pub(crate) struct Parents<'a> {
    pub(crate) net: &'a Network<'a>,
    pub(crate) codes: &'a [u16],
    ghost long: { length codes.now ≡ net.now.events },
    ghost coded: { Coded (bounds_of net.now) codes.now } by { Coded-prop (bounds_of net.now) codes.now },
}

// An event of the network, from which its parents lead back.
#[derive(Clone, Copy)]
pub(crate) struct Event<'p> {
    pub(crate) parents: &'p Parents<'p>,
    pub(crate) v: usize,
    ghost there: { v < parents.now.net.now.events },
}

impl<'p> Event<'p> {
    ghost use Rattle.std.specs.Prelude.{◌≡◌, MatchOption, ◌+◌, get_or};
    ghost use Rattle.passes.specs.Networks.{IsArc};

    // The place in the network's arrays of the arc that is its parent, if it has one.
    pub(crate) fn parent(self) -> Option<usize>
        ensures { let p = self.entry.parents.now in let code = get_or p.codes.now self.entry.v 0 in
            MatchOption result (code ≡ 0) (λ c. (code ≡ c + 1) × IsArc p.net.now c) }
    {
        usize::from(self.parents.codes[self.v]).checked_sub(1)
    }
}

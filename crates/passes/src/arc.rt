// Arcs as the loops follow them, each by value: one way along a bound.
ghost use Rattle.laws.proofs.Signed.{Within};

// From an event to an event; what it adds is never large, and its code says of which bound it is (parents.rt).
#[derive(Clone, Copy)]
pub(crate) struct Arc {
    pub(crate) from: usize,
    pub(crate) to: usize,
    pub(crate) adds: i64,
    pub(crate) code: u16,
    ghost small: { Within 1000000000000 adds },
}

impl Arc {
    ghost use Rattle.std.specs.Prelude.{◌≡◌};
    ghost use Rattle.walks.specs.Certificate.{weighted};
    ghost use Rattle.passes.specs.Arcs.{arc_of};

    // Its weight: 8,192 times what it adds, less 1. A sum of weights along a walk is 8,192 times its sum, less the number of its arcs.
    #[tactic(auto, unfolding(walks::specs::Certificate::weighted))]
    pub(crate) fn weight(self) -> i64
        ensures weight { result ≡ (weighted (arc_of self)).adds }
        ensures small { Within 8192000000000001 result }
    {
        8192 * self.adds - 1
    }
}

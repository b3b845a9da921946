// Bounds as they are handed in, and whether they fit: each between events that are there, and none too large. For most networks it is enough to go over
// all numbers twice, many at once; where that leaves it open, bound after bound is looked at.
ghost use Rattle.std.specs.Prelude.{◌≡◌, ℕ, ◌*◌, ◌/◌, ◌≤◌, ◌<◌, length, get_or, sum_by};

// In the front of two arrays: the events that each bound goes from and to, and its lo and one more than its hi, 0 where hi is none. The first `own` of
// them are the plan's own. Nothing is known of any of it yet, since callers make it. Two arrays, as memory is fixed: a `Bound` with its `Option` takes 32 bytes, and not 20.
#[derive(Clone, Copy)]
pub struct BoundSlices<'a> {
    pub ends: &'a [u16],
    pub ranges: &'a [u64],
    pub own: usize,
    pub bounds: usize,
    pub events: usize,
}

// The greatest of events, 0 of none. It never stops early, so that many can be compared at once.
fn greatest(ends: &[u16]) -> u16
    ensures { (i : ℕ) → i < length ends.now → get_or ends.now i 0 ≤ result }
{
    ends.iter().copied().max().unwrap_or(0)
}

// How often 2^39, which is below 10^12, goes into numbers, added up: 0 where it goes into none. This never stops early either.
fn high_parts(ranges: &[u64]) -> u64
    requires { length ranges.now ≤ 24576 }
    ensures { result ≡ sum_by (λ n. n / 549755813888) ranges.now }
{
    ranges.iter().map(|n| *n / 549_755_813_888).sum()
}

// The same, where the arrays have a place for each number of each bound, of as many as may be.
#[derive(Clone, Copy)]
pub(crate) struct LongSlices<'a> {
    given: BoundSlices<'a>,
    ghost few: { given.bounds ≤ 12288 },
    ghost ends_long: { 2 * given.bounds ≤ length given.ends.now },
    ghost ranges_long: { 2 * given.bounds ≤ length given.ranges.now },
}

impl<'a> LongSlices<'a> {
    ghost use Rattle.std.specs.Prelude.{◌≡◌, true, false, MatchOption, ◌*◌, ◌+◌, ◌<◌};
    ghost use Rattle.network.specs.BoundArrays.{bounds_in};
    ghost use Rattle.passes.specs.Solving.{bound_fits, bounds_fit, network_fits};
    ghost use Rattle.passes.specs.Places.{bound_at};

    // What is handed in, if it is long enough.
    #[tactic(auto, unfolding(crate::specs::Solving::network_fits))]
    pub(crate) fn new(given: BoundSlices<'a>) -> Option<LongSlices<'a>>
        ensures { let g = given.entry in MatchOption result (network_fits g.bounds g.events g.ends.now g.ranges.now ≡ false) (λ long. long.given ≡ g) }
    {
        if 12_288 < given.bounds
            || given.ends.len() < 2 * given.bounds
            || given.ranges.len() < 2 * given.bounds
        {
            return None;
        }
        Some(LongSlices { given })
    }

    // Whether all numbers are small, by which the bounds fit.
    fn are_small(&self) -> bool
        ensures { let g = self.now.given in result ≡ true → bounds_fit g.events (bounds_in g.bounds g.ends.now g.ranges.now) ≡ true }
    {
        let ends = &self.given.ends[..2 * self.given.bounds];
        let ranges = &self.given.ranges[..2 * self.given.bounds];
        usize::from(greatest(ends)) < self.given.events && high_parts(ranges) == 0
    }

    // Whether the bound at place i fits.
    #[tactic(auto, using(crate::proofs::Fitting::hi_number_of), unfolding(crate::specs::Solving::bound_fits))]
    fn fits_at(&self, i: usize) -> bool
        requires { i < self.now.given.bounds }
        ensures { let g = self.now.given in result ≡ bound_fits g.events (bound_at i g.ends.now g.ranges.now) }
    {
        let BoundSlices {
            ends,
            ranges,
            events,
            ..
        } = self.given;
        usize::from(ends[2 * i]) < events
            && usize::from(ends[2 * i + 1]) < events
            && ranges[2 * i] <= 1_000_000_000_000
            && ranges[2 * i + 1] <= 1_000_000_000_001
    }

    // Whether each bound fits.
    fn each_fits(&self) -> bool
        ensures { let g = self.now.given in result ≡ bounds_fit g.events (bounds_in g.bounds g.ends.now g.ranges.now) }
    {
        // a `for`: as `all` the proof didn't close
        for i in 0..self.given.bounds {
            if !self.fits_at(i) {
                return false;
            }
        }
        true
    }

    // The same, by either way.
    pub(crate) fn all_fit(&self) -> bool
        ensures { let g = self.now.given in result ≡ bounds_fit g.events (bounds_in g.bounds g.ends.now g.ranges.now) }
    {
        self.are_small() || self.each_fits()
    }
}

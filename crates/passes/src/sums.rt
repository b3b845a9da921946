// The sums of a network's events before a pass, as they are read.
ghost use Rattle.std.specs.Prelude.{◌≡◌, None, Some, ℕ, ℤ, length, get_or};
ghost use Rattle.laws.proofs.Signed.{Within};
ghost use Rattle.passes.specs.Marks.{sums_in};

use crate::arrays::Network;

// None is so large that one more arc would not fit.
#[derive(Clone, Copy)]
pub(crate) struct Sums<'a> {
    pub(crate) net: &'a Network<'a>,
    pub(crate) all: &'a [i64],
    ghost long: { length all.now ≡ net.now.events },
    ghost in_reach: { (v : ℕ) (x : ℤ) → get_or (sums_in all.now) v None ≡ Some x → Within 4096000000000000 x },
}

// The visits of all carts in a row, cart by cart.
ghost use Rattle.std.specs.Prelude.{◌≡◌, ℕ, ◌+◌, ◌≤◌, ◌<◌, length, get_or};
ghost use Rattle.limits.specs.Counts.{Chained, Grouped};

// A visit among those of all carts: with the number of its cart.
#[derive(Clone, Copy)]
pub(crate) struct Stop {
    pub cart: u8,
    pub step: u16,
    pub cell: u32,
}

// Room for N visits, none of them put yet: few places take little time to clear.
// Three arrays, since `Stop`s take a byte more each, for which a load's frame has no room.
#[derive(Drop)]
pub(crate) struct Visits<const N: usize> {
    pub numbers: [u8; N],
    pub times: [u16; N],
    pub places: [u32; N],
}

impl<const N: usize> Visits<N> {
    pub(crate) fn new() -> Self {
        Visits {
            numbers: [0; N],
            times: [0; N],
            places: [0; N],
        }
    }

    // The arrays to put visits in.
    pub(crate) fn arrays(&mut self) -> RowArrays<'_>
        requires { N ≤ 1408 }
        ensures { (result.n ≡ 0) × (length result.numbers.now ≡ N) }
    {
        RowArrays {
            numbers: &mut self.numbers,
            times: &mut self.times,
            places: &mut self.places,
            n: 0,
        }
    }
}

// Arrays of one length that visits are put in, n of them yet: the carts' numbers, the steps and the cells.
#[derive(Drop)]
pub(crate) struct RowArrays<'a> {
    pub numbers: &'a mut [u8],
    pub times: &'a mut [u16],
    pub places: &'a mut [u32],
    pub n: usize,
    ghost even: { (length times.now ≡ length numbers.now) × (length places.now ≡ length numbers.now) },
    ghost room: { (n ≤ length numbers.now) × (length numbers.now ≤ 1408) },
}

// The row of n visits in them, to be read: by value, so that the loops along it keep the slices in registers.
#[derive(Clone, Copy)]
pub(crate) struct Row<'a> {
    pub numbers: &'a [u8],
    pub times: &'a [u16],
    pub places: &'a [u32],
    pub n: usize,
    ghost even: { (length times.now ≡ length numbers.now) × (length places.now ≡ length numbers.now) },
    ghost room: { (n ≤ length numbers.now) × (length numbers.now ≤ 1408) },
}

// A row linked for counting. A link is how many visits are left from there on.
// 0 is no visit, as an Option would take two bytes more each, and there is no heap for other links.
#[derive(Clone, Copy)]
pub(crate) struct Chain<'r> {
    pub row: Row<'r>,
    pub heads: &'r [u16],
    pub nexts: &'r [u16],
    ghost sized: { (length heads.now ≡ 1024) × (row.n ≤ length nexts.now) },
    ghost chained: { Chained row.numbers.now row.times.now row.places.now heads.now nexts.now row.n row.n },
}

// A row whose visits are linked by their cells' remainders, with the next of another cart to each; a cart's number is at most one more than a visit's place.
#[derive(Clone, Copy)]
pub(crate) struct Links<'r> {
    pub row: Row<'r>,
    pub heads: &'r [u16],
    pub nexts: &'r [u16],
    pub skips: &'r [u16],
    ghost sized: { (length heads.now ≡ 1024) × (row.n ≤ length nexts.now) × (row.n ≤ length skips.now) },
    ghost grouped: { Grouped row.numbers.now row.places.now heads.now nexts.now skips.now row.n },
    ghost low: { (u : ℕ) → u < row.n → get_or row.numbers.now u 0 ≤ u + 1 },
}

// Bounds in arrays. The events and bounds of a plan are defined in specs/.
#![tactic(auto)]

ghost use Rattle.std.specs.Prelude.{◌≡◌, [], ◌∷◌, ◌+◌, ◌*◌, ◌^◌, ◌≤◌, ◌<◌, length, min};
ghost use Rattle.std.proofs.lemmas.List.Edits.{sets};

// A bound in numbers: the events that it goes from and to, and its range.
#[derive(Clone, Copy)]
pub struct Bound {
    pub from: u16,
    pub to: u16,
    pub lo: u64,
    pub hi: Option<u64>,
}

// The arrays that bounds are written to, two numbers of each in either: the events that it goes from and to, and its range; and in which place the next is put.
// Two arrays, as memory is fixed: a `Bound` with its `Option` takes 32 bytes, and not 20. `Drop` alone is derived, as `&mut` slices can't be copied or compared.
#[derive(Drop)]
pub struct BoundArrays<'a> {
    pub ends: &'a mut [u16],
    pub ranges: &'a mut [u64],
    pub place: usize,
    // as all slices and numbers are: nobody who makes one has to show it
    ghost in_memory: { (length ends.now ≤ 2 ^ 62) × (length ranges.now ≤ 2 ^ 62) × (place < 2 ^ 64) },
}

// Puts two numbers in the k-th place of an array that has room for both.
fn put_both<T: Copy>(s: &mut [T], k: usize, a: T, b: T)
    requires { 2 * k + 1 < length s.old }
    ensures { s.new ≡ sets s.old (2 * k) (a ∷ b ∷ []) }
{
    s[2 * k] = a;
    s[2 * k + 1] = b;
}

// The same as far as an array goes: the last place may have room for one alone, so that pairs would say less.
fn put_two<T: Copy>(s: &mut [T], k: usize, a: T, b: T)
    ensures { s.new ≡ sets s.old (2 * k) (a ∷ b ∷ []) }
{
    if k < s.len() / 2 {
        put_both(s, k, a, b);
        return;
    }
    if k < s.len() - s.len() / 2 {
        s[2 * k] = a;
    }
}

impl<'a> BoundArrays<'a> {
    ghost use Rattle.network.specs.BoundArrays.{Puts, bound_of};

    // Puts a bound in its place, as far as the arrays go; the next is put behind it.
    pub fn put(&mut self, bound: Bound)
        ensures { Puts self.old self.new (bound_of bound ∷ []) }
    {
        // one more than hi, and 0 for none, as for the largest: memory is fixed, and an `Option` takes twice as much
        let after = bound.hi.map_or(0, |h| h.wrapping_add(1));
        // nearly every bound has room in both: one test for four numbers, and the place is not the last that there is
        if self.place < self.ends.len().min(self.ranges.len()) / 2 {
            put_both(self.ends, self.place, bound.from, bound.to);
            put_both(self.ranges, self.place, bound.lo, after);
            self.place += 1;
            return;
        }
        put_two(self.ends, self.place, bound.from, bound.to);
        put_two(self.ranges, self.place, bound.lo, after);
        self.place = self.place.saturating_add(1);
    }
}

// Where the part of an array begins that is behind k bounds: at its end, if they would fill it.
pub fn behind(k: usize, length: usize) -> usize
    ensures { result ≡ min (2 * k) length }
{
    if k <= length / 2 {
        return 2 * k;
    }
    length
}

// Little-endian numbers in byte slices. The definitions are in specs/.
// A number is narrowed by `as` where it fits: a `try_from` would have an error that cannot come.
#![tactic(auto)]

ghost use Rattle.std.specs.Prelude.{◌≡◌, ◌+◌, ◌≤◌, ◌<◌, length, take, drop};
ghost use Rattle.std.proofs.lemmas.List.Edits.{sets};
ghost use Rattle.words.specs.Words.{little, word, word_at, with_word};

// Stores the k low bytes of a number from place `at` on.
fn store(s: &mut [u8], at: usize, k: usize, v: u64)
    requires { at + k ≤ length s.old }
    ensures { s.new ≡ sets s.old at (word k v) }
{
    let mut x = v;
    for i in 0..k {
        s[at + i] = (x % 256) as u8;
        x /= 256;
    }
}

// Writes a number of K bytes at place i, where there is one.
pub fn put<const K: usize>(s: &mut [u8], i: usize, v: u64)
    ensures { s.new ≡ with_word K s.old i v }
{
    let Some(count) = s.len().checked_div(K) else {
        return;
    };
    if i < count {
        let at = K * i;
        store(s, at, K, v);
    }
}

// The number that k bytes from place `at` on say.
fn load(s: &[u8], at: usize, k: usize) -> u64
    requires { (at + k ≤ length s.now) × (k ≤ 8) }
    ensures { result ≡ little (take k (drop at s.now)) }
{
    let mut x: u64 = 0;
    for i in (0..k).rev() {
        x = 256 * x + u64::from(s[at + i]);
    }
    x
}

// The number of eight bytes at place i: bytes past the end are not there.
pub fn get64(s: &[u8], i: usize) -> u64
    ensures { result ≡ word_at 8 s.now i }
{
    if s.len() / 8 < i {
        return 0;
    }
    let at = 8 * i;
    let rest = s.len() - at;
    if rest < 8 {
        return load(s, at, rest);
    }
    // of a length that is written here eight bytes are read at once: a report after 4,091 others takes a third less than with the lesser of the two
    load(s, at, 8)
}

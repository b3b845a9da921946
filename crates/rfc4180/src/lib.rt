// Records, fields and numbers of the tables, read from left to right. The definitions are in specs/.
// A number is narrowed by `as` where it fits: a `try_from` would have an error that cannot come.
#![tactic(auto)]

ghost use Rattle.std.specs.Prelude.{◌≡◌, map, length, take, option_map, position, ◌==◌};
ghost use Rattle.words.specs.Words.{written};
ghost use Rattle.rfc4180.specs.Text.{same};
ghost use Rattle.rfc4180.specs.Records.{records, first_record, fields, field_at};
ghost use Rattle.std.specs.Iterator.{YieldsFirstBy, item_count};
ghost use Rattle.rfc4180.specs.Number.{number, numbers, leading, capped};
ghost use Rattle.rfc4180.specs.Answers.{counted};

// How many numbers a record has, and the greatest of them.
#[derive(Clone, Copy, Debug, PartialEq, Eq)]
pub struct Numbers {
    pub count: usize,
    pub greatest: u64,
}

// How many bytes stand before the first CR LF. Tried: `windows(2)` and its `position`, with which a load of 64 carts takes a tenth longer.
fn record_length(rest: &[u8]) -> usize
    ensures { result ≡ length (first_record rest.now) }
{
    for i in 1..rest.len() {
        if rest[i - 1] == b'\r' && rest[i] == b'\n' {
            return i - 1;
        }
    }
    rest.len()
}

// The first record of the rest of a table, as the part that holds it.
pub fn first_record(rest: &[u8]) -> &[u8]
    ensures { result.now ≡ first_record rest.now }
{
    let k = record_length(rest);
    &rest[..k]
}

// A reader of the records of a table, each as the part that holds it: what is left of the table.
#[derive(Drop)]
pub struct Reader<'a> {
    pub rest: &'a [u8],
}

impl<'a> Iterator for Reader<'a> {
    type Item = &'a [u8];

    ghost next_gives = { YieldsFirstBy (λ row. row.now) (λ s. records s.rest.now) };

    ghost remaining = { item_count (λ s. records s.rest.now) };

    fn next(&mut self) -> Option<&'a [u8]> {
        if self.rest.is_empty() {
            return None;
        }
        let row = first_record(self.rest);
        let behind = (row.len() + 2).min(self.rest.len());
        self.rest = &self.rest[behind..];
        Some(row)
    }
}

// The place of the first comma.
fn comma(rest: &[u8]) -> Option<usize>
    ensures { result ≡ position (λ b. b == 44) rest.now }
{
    rest.iter().position(|&b| b == b',')
}

// The field that begins at `at`, as the part of the record that holds it.
pub fn field(row: &[u8], at: usize) -> &[u8]
    ensures { result.now ≡ field_at row.now at }
{
    if row.len() < at {
        return &row[..0];
    }
    let part = &row[at..];
    let k = comma(part).unwrap_or(part.len());
    &part[..k]
}

// The number that a field holds.
pub fn parse_number(digits: &[u8]) -> Option<u64>
    ensures { result ≡ number digits.now }
{
    let n = digits.len();
    if n == 0 || 10 < n {
        return None;
    }
    if digits[0] == b'0' {
        return if n == 1 { Some(0) } else { None };
    }
    let mut v: u64 = 0;
    for &d in digits {
        if d < b'0' || b'9' < d {
            return None;
        }
        v = v * 10 + u64::from(d - b'0');
    }
    Some(v)
}

// Whether two byte strings are the same.
pub fn same_bytes(a: &[u8], b: &[u8]) -> bool
    ensures { result ≡ same a.now b.now }
{
    a == b
}

// A number as a place of four bytes holds it.
fn cap(v: u64) -> u32
    ensures { result ≡ capped v }
{
    v.min(0xffff_ffff) as u32
}

// Reads the fields of a record as numbers into `out`, up to the first that is none and as far as there is room.
pub fn read_numbers(row: &[u8], out: &mut [u32]) -> Option<Numbers>
    ensures answer { result ≡ option_map counted (numbers (fields row.now)) }
    ensures left { out.new ≡ written (take (length out.old) (map capped (leading (fields row.now)))) out.old }
{
    let mut at = 0;
    let mut count = 0;
    let mut greatest: u64 = 0;
    // a `loop`: the next field begins where this one ends, and the last needs no comma
    loop {
        let f = field(row, at);
        let v = parse_number(f)?;
        if count < out.len() {
            out[count] = cap(v);
        }
        greatest = greatest.max(v);
        count += 1;
        let e = at + f.len();
        if row.len() <= e {
            return Some(Numbers { count, greatest });
        }
        at = e + 1;
    }
}

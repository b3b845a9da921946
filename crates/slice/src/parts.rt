// How a plan slice is laid out: each of its parts is bytes other than zero, and zeros after them.
ghost use Rattle.std.specs.Prelude.{◌≡◌, ◌==◌, ◌≤◌, length, position, fold, min};
ghost use Rattle.slice.specs.PlanSlice.{until_zero};
ghost use Rattle.slice.specs.Holding.{only_zeros, layout};
ghost use Rattle.slice.specs.Texts.{text_laid, texts_laid};

use crate::{CARTS_AT, Layout, MOST_REPORTS, PATHS_AT, PLAN_BYTES, TABLE_BYTES, log, part};
use book::Log;
use tables::Tables;

// Whether one of 64 bytes is zero. It never stops early, so that many bytes can be compared at once.
fn has_zero(block: &[u8; 64]) -> bool
    ensures { result ≡ (fold min 255 block.now == 0) }
{
    block.iter().fold(255, |least: u8, b| least.min(*b)) == 0
}

// The place of the first zero.
fn first_zero(s: &[u8]) -> Option<usize>
    ensures { result ≡ position (λ b. b == 0) s.now }
{
    s.iter().position(|b| *b == 0)
}

// How many bytes stand before the first zero: block after block, and then byte after byte.
fn text_length(s: &[u8]) -> usize
    ensures value { result ≡ length (until_zero s.now) }
    ensures within { result ≤ length s.now }
{
    let (blocks, _) = s.as_chunks::<64>();
    let passed = 64 * blocks.iter().position(has_zero).unwrap_or(blocks.len());
    let rest = &s[passed..];
    passed + first_zero(rest).unwrap_or(rest.len())
}

// Whether there is nothing but zeros: the greatest byte is zero. It never stops early, so that many bytes can be compared at once.
fn all_zero(s: &[u8]) -> bool
    ensures { result ≡ only_zeros s.now }
{
    s.iter().fold(0, |most: u8, b| most.max(*b)) == 0
}

// The length of a part's text, if zeros follow it.
fn find_text(s: &[u8]) -> Option<usize>
    ensures { result ≡ text_laid s.now }
{
    let n = text_length(s);
    all_zero(&s[n..]).then_some(n)
}

// The lengths of four texts, the last of which has a time for each byte, if zeros follow each and the times.
fn find_texts(tables: Tables, log: Log) -> Option<Layout>
    requires { length log.carts.now ≤ MOST_REPORTS }
    ensures { result ≡ texts_laid tables.entry.roads.now tables.entry.carts.now tables.entry.paths.now log.entry.carts.now log.entry.times.now }
{
    let r = find_text(tables.roads)?;
    let c = find_text(tables.carts)?;
    let p = find_text(tables.paths)?;
    let n = find_text(log.carts)?;
    let behind = part(log.times, 8 * n, log.times.len());
    let layout = Layout {
        roads: r,
        carts: c,
        paths: p,
        reports: n,
    };
    all_zero(behind).then_some(layout)
}

// Where the parts of a plan slice end, if there is nothing else in it. It takes the bytes, and not a `PlanSlice`: that each is one byte is known of a slice that is handed in.
pub(crate) fn find_parts(plan: &[u8]) -> Option<Layout>
    requires { PLAN_BYTES ≤ length plan.now }
    ensures { result ≡ layout plan.now }
{
    let tables = Tables {
        roads: &plan[..TABLE_BYTES],
        carts: part(plan, CARTS_AT, TABLE_BYTES),
        paths: part(plan, PATHS_AT, TABLE_BYTES),
    };
    find_texts(tables, log(plan, MOST_REPORTS))
}

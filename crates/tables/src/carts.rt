// The table of carts.
// A number is narrowed by `as` where it fits: a `try_from` would have an error that cannot come.
ghost use Rattle.std.specs.Prelude.{◌≡◌, ◌&&◌, ◌*◌, ◌≤◌, length, replicate};
ghost use mathlib.Core.List.{List, [], flat_map};
ghost use Rattle.words.specs.Words.{padded};
ghost use Rattle.rfc4180.specs.Records.{records, fields};
ghost use Rattle.floor.specs.Refusal.{records_in_order};
ghost use Rattle.floor.specs.declared.Cart.{Cart};
ghost use Rattle.floor.specs.Carts.{fastest_range, slowest_range, cart, read_carts};
ghost use Rattle.tables.specs.Arrays.{cart_numbers};
ghost use Rattle.tables.specs.Reading.{said, counted, speeds_of};

use crate::begins_with;
use floor::{Cart, Reason, Refusal, Table};
use rfc4180::Reader;

// Whether a fastest speed is in its range.
#[tactic(auto, unfolding(floor::specs::Carts::fastest_range))]
fn fastest_in_range(fastest: u64) -> bool
    ensures { result ≡ fastest_range fastest }
{
    (1_000..=20_000_000).contains(&fastest)
}

// Whether a slowest speed, if there is one, is in its range.
#[tactic(auto, unfolding(floor::specs::Carts::slowest_range))]
fn slowest_in_range(cart: Cart) -> bool
    ensures { result ≡ slowest_range cart.fastest cart.slowest }
{
    match cart.slowest {
        Some(slowest) => (1_000..=cart.fastest).contains(&slowest),
        None => true,
    }
}

// Whether both are.
fn in_ranges(cart: Cart) -> bool
    ensures { result ≡ (fastest_range cart.fastest && slowest_range cart.fastest cart.slowest) }
{
    fastest_in_range(cart.fastest) && slowest_in_range(cart)
}

// The speeds of a record, as far as its layout goes.
fn read_speeds(row: &[u8]) -> Option<Cart>
    ensures { result ≡ speeds_of (fields row.now) }
{
    let first = rfc4180::field(row, 0);
    let a = first.len();
    if row.len() <= a {
        return None;
    }
    let second = rfc4180::field(row, a + 1);
    if a + 1 + second.len() < row.len() {
        return None;
    }
    let fastest = rfc4180::parse_number(first)?;
    if second.is_empty() {
        return Some(Cart {
            fastest,
            slowest: None,
        });
    }
    let slowest = rfc4180::parse_number(second)?;
    Some(Cart {
        fastest,
        slowest: Some(slowest),
    })
}

// The cart of a record that comes after n carts.
fn read_cart(row: &[u8], n: usize) -> Result<Cart, Reason>
    ensures { (before : List Cart) → length before ≡ n → result ≡ said (cart before row.now) }
{
    let cart = read_speeds(row).ok_or(Reason::Layout)?;
    if !in_ranges(cart) {
        return Err(Reason::Range);
    }
    if 64 <= n {
        return Err(Reason::Limit);
    }
    Ok(cart)
}

// The records, one after the other: the numbers of each follow those before.
fn carts_from(rows: Reader, carts: &mut [u32]) -> Result<usize, Refusal>
    requires { (128 ≤ length carts.old) × (carts.old ≡ replicate (length carts.old) 0) }
    ensures answer { result ≡ counted (records_in_order cart [] (records rows.entry.rest.now)) }
    ensures left { (cs : List Cart) → records_in_order cart [] (records rows.entry.rest.now) ≡ Ok cs → carts.new ≡ padded (length carts.old) (flat_map cart_numbers cs) }
{
    let mut n = 0;
    for row in rows {
        let cart = read_cart(row, n).map_err(|reason| Table::Carts.refuses(reason, n + 1))?;
        carts[2 * n] = cart.fastest as u32;
        carts[2 * n + 1] = cart.slowest.unwrap_or(0) as u32;
        n += 1;
    }
    Ok(n)
}

// The table of carts, its numbers in an array of zeros.
pub(crate) fn read_table(table: &[u8], carts: &mut [u32]) -> Result<usize, Refusal>
    requires { (128 ≤ length carts.old) × (carts.old ≡ replicate (length carts.old) 0) }
    ensures answer { result ≡ counted (read_carts table.now) }
    ensures left { (cs : List Cart) → read_carts table.now ≡ Ok cs → carts.new ≡ padded (length carts.old) (flat_map cart_numbers cs) }
{
    if 65_536 < table.len() {
        return Err(Table::Carts.refuses(Reason::Limit, 0));
    }
    let mut rows = Reader { rest: table };
    if !begins_with(&mut rows, b"fastest,slowest") {
        return Err(Table::Carts.refuses(Reason::Layout, 0));
    }
    let n = carts_from(rows, carts)?;
    if n == 0 {
        return Err(Table::Carts.refuses(Reason::NoCarts, 0));
    }
    Ok(n)
}

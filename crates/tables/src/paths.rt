// The table of paths.
ghost use Rattle.std.specs.Prelude.{◌≡◌, List, [], ℕ, ◌+◌, ◌*◌, ◌≤◌, length, replicate};
ghost use Rattle.std.proofs.lemmas.List.Edits.{sets};
ghost use Rattle.words.specs.Words.{padded};
ghost use Rattle.rfc4180.specs.Records.{records};
ghost use Rattle.floor.specs.Refusal.{records_in_order};
ghost use Rattle.floor.specs.Paths.{path, read_paths};
ghost use Rattle.tables.specs.Arrays.{path_cells, paths_in};
ghost use Rattle.tables.specs.Reading.{path_taken, paths_read};

use floor::{Reason, Refusal, Table};
use rfc4180::Reader;

// One record, after n paths of w cells each: where it is taken and there is room, its cells follow theirs; how many there are.
fn take_path(row: &[u8], n: usize, w: usize, cells: &mut [u32]) -> Result<usize, Reason>
    requires { (n * w ≤ 8192) × (n * w ≤ length cells.old) }
    ensures answer { result ≡ path_taken (path (paths_in n w cells.old) row.now) }
    ensures left { (cs : List ℕ) → path (paths_in n w cells.old) row.now ≡ Ok cs → n * w + length cs ≤ length cells.old → cells.new ≡ sets cells.old (n * w) cs }
{
    let base = n * w;
    let numbers = rfc4180::read_numbers(row, &mut cells[base..]).ok_or(Reason::Layout)?;
    let m = numbers.count;
    if n != 0 && m != w {
        return Err(Reason::Layout);
    }
    if 65_534 < numbers.greatest {
        return Err(Reason::Range);
    }
    if 1_024 < m {
        return Err(Reason::Limit);
    }
    if 8_192 < base + m {
        return Err(Reason::Limit);
    }
    Ok(m)
}

// The records, one after the other: how many, and of how many cells.
fn paths_from(rows: Reader, cells: &mut [u32]) -> Result<(usize, usize), Refusal>
    requires { (8192 ≤ length cells.old) × (cells.old ≡ replicate (length cells.old) 0) }
    ensures answer { result ≡ paths_read (records_in_order path [] (records rows.entry.rest.now)) }
    ensures left { (ps : List (List ℕ)) → records_in_order path [] (records rows.entry.rest.now) ≡ Ok ps → cells.new ≡ padded (length cells.old) (path_cells ps) }
{
    let mut n = 0;
    let mut w = 0;
    for row in rows {
        w = take_path(row, n, w, cells).map_err(|reason| Table::Paths.refuses(reason, n + 1))?;
        n += 1;
    }
    Ok((n, w))
}

// The table of paths, its cells in an array of zeros.
pub(crate) fn read_table(
    table: &[u8],
    carts: usize,
    cells: &mut [u32],
) -> Result<(usize, usize), Refusal>
    requires { (8192 ≤ length cells.old) × (cells.old ≡ replicate (length cells.old) 0) }
    ensures answer { result ≡ paths_read (read_paths carts table.now) }
    ensures left { (ps : List (List ℕ)) → read_paths carts table.now ≡ Ok ps → cells.new ≡ padded (length cells.old) (path_cells ps) }
{
    if 65_536 < table.len() {
        return Err(Table::Paths.refuses(Reason::Limit, 0));
    }
    let (n, w) = paths_from(Reader { rest: table }, cells)?;
    if n != carts {
        return Err(Table::Paths.refuses(Reason::PathCount, 0));
    }
    Ok((n, w))
}

// Reads roads.csv, carts.csv and paths.csv from the folder that it is run in, and prints the times of their plan, or the refusal.
#![tactic(auto)]

ghost use Rattle.std.specs.Prelude.{◌≤◌, length};

use std::io::{Read, Write};
use std::rt::Files;
use std::{fs, io};
use tables::Tables;

// Reads until the table is full, the file ends or a read fails. Returns how many bytes were read.
fn read_full(file: &mut impl Read, table: &mut [u8]) -> usize
    ensures { result ≤ length table.new }
{
    let mut done = 0;
    // a `while`: the library has no method that keeps what was read where a read fails
    while done < table.len() {
        let n = file.read(&mut table[done..]).unwrap_or(0);
        if n == 0 {
            break;
        }
        done += n;
    }
    done
}

// Reads a file into a table, and returns what was read; a file that can't be opened counts as zero bytes.
fn read_table<'t>(files: &impl Files, path: &str, table: &'t mut [u8]) -> &'t [u8]
    ensures { length result.now ≤ length table.old }
{
    let Ok(mut file) = fs::open(files, path) else {
        return &[];
    };
    let n = read_full(&mut file, table);
    &table[..n]
}

// Prints what three tables come to.
fn print_tables(rt: &impl Print, tables: Tables) -> io::Result<()> {
    let mut out = [0u8; 348245];
    if let Some(n) = printing::print(tables, &mut out) {
        io::writer(rt).write_all(&out[..n])?;
    }
    Ok(())
}

// A buffer has one place more than a table may have bytes, so that a longer file is refused and not cut short.
fn main(rt: HostRuntime) -> io::Result<()> {
    let mut roads = [0u8; 65537];
    let mut carts = [0u8; 65537];
    let mut paths = [0u8; 65537];
    let tables = Tables {
        roads: read_table(&rt, "roads.csv", &mut roads),
        carts: read_table(&rt, "carts.csv", &mut carts),
        paths: read_table(&rt, "paths.csv", &mut paths),
    };
    print_tables(&rt, tables)
}

// Carts that are in one cell at one step, and carts that exchange cells: refusals 8 and 9, of paths in an array.
#![tactic(auto)]

ghost use Rattle.std.specs.Prelude.{◌≡◌, ◌*◌, ◌≤◌, leb, length};
ghost use Rattle.floor.specs.Paths.{first_same_cell, first_exchange};
ghost use Rattle.collisions.specs.Meetings.{paths_of, met, meeting, refusal_of};

use floor::{Reason, Refusal, Table};

// Paths in an array, one after the other: so many carts, so many steps each. Nothing is promised of the numbers.
#[derive(Clone, Copy)]
pub struct Paths<'a> {
    pub cells: &'a [u32],
    pub carts: usize,
    pub steps: usize,
}

// Why carts do not keep apart: the higher record of the first two that do not.
#[derive(Clone, Copy, Debug, PartialEq, Eq)]
pub enum Meeting {
    SameCell(usize),
    Exchange(usize),
}

// The refusal of paths whose carts meet so.
impl From<Meeting> for Refusal {
    ghost from_gives = { λ meeting refusal. refusal ≡ refusal_of meeting };

    #[tactic(auto, unfolding(crate::specs::Meetings::refusal_of))]
    fn from(meeting: Meeting) -> Refusal {
        match meeting {
            Meeting::SameCell(row) => Table::Paths.refuses(Reason::SameCell, row),
            Meeting::Exchange(row) => Table::Paths.refuses(Reason::Exchange, row),
        }
    }
}

// Whether all cells of the paths are there.
fn are_there(paths: Paths) -> bool
    ensures { result ≡ leb (paths.entry.carts * paths.entry.steps) (length paths.entry.cells.now) }
{
    match paths.carts.checked_mul(paths.steps) {
        Some(all) => all <= paths.cells.len(),
        None => false,
    }
}

// The higher record of the first two carts in one cell at one step.
fn same_cells(paths: Paths) -> Option<usize>
    requires { paths.carts * paths.steps ≤ length paths.cells.now }
    ensures { result ≡ first_same_cell (paths_of paths.entry) }
{
    let Paths {
        cells,
        carts,
        steps: w,
    } = paths;
    let mut found = None;
    'steps: for s in 0..w {
        for i in 0..carts {
            let c = cells[i * w + s];
            for k in 0..i {
                if cells[k * w + s] == c {
                    found = Some(i + 1);
                    break 'steps;
                }
            }
        }
    }
    found
}

// The higher record of the first two carts that exchange cells. No two are in one cell, so a cart that stays exchanges with none.
fn exchanges(paths: Paths) -> Option<usize>
    requires { (paths.carts * paths.steps ≤ length paths.cells.now) × (first_same_cell (paths_of paths) ≡ None) }
    ensures { result ≡ first_exchange (paths_of paths.entry) }
{
    let Paths {
        cells,
        carts,
        steps: w,
    } = paths;
    let mut found = None;
    'steps: for s in 1..w {
        for i in 0..carts {
            let a = cells[i * w + s - 1];
            let b = cells[i * w + s];
            let first = if a == b { i } else { 0 };
            for k in first..i {
                if cells[k * w + s] == a && cells[k * w + s - 1] == b {
                    found = Some(i + 1);
                    break 'steps;
                }
            }
        }
    }
    found
}

// The first two carts that do not keep apart: those in one cell, and if there are none, those that exchange cells. No carts meet in an array that is shorter than
// their paths.
pub fn first_meeting(paths: Paths) -> Option<Meeting>
    ensures { result ≡ meeting paths.entry }
{
    if !are_there(paths) {
        return None;
    }
    if let Some(i) = same_cells(paths) {
        return Some(Meeting::SameCell(i));
    }
    exchanges(paths).map(|i| Meeting::Exchange(i))
}

// The lines of all events, from paths in an array: cart by cart, step by step.
// A usize has no `From` to a u64, so that it is widened by `as`.
ghost use Rattle.std.specs.Prelude.{◌≡◌, ◌+◌, ◌*◌, ◌≤◌, ◌<◌, length};
ghost use Rattle.words.specs.Words.{word_at};
ghost use Rattle.collisions.specs.Meetings.{paths_of};
ghost use Rattle.limits.specs.Counts.{moves};
ghost use Rattle.limits.specs.OfPaths.{moves_of};
ghost use Rattle.printing.specs.Lines.{Puts, Prints, point_line, outer_line, move_lines, path_lines, paths_lines, lines_text};

use crate::lines::Out;
use collisions::Paths;

// Where lines are put, the times of all events, and the number of the next. What holds a `&mut` can't be copied or compared, so that `Drop` alone is derived.
#[derive(Drop)]
struct Lines<'a, 'b> {
    out: &'a mut Out<'b>,
    times: &'a [u8],
    event: u16,
}

impl<'a, 'b> Lines<'a, 'b> {
    // Puts the line of a point of a cart, at a cell.
    fn point(&mut self, cart: usize, cell: u32)
        requires { self.old.event < 4096 }
        ensures { Prints self.old (point_line cart cell) 1 self.new }
    {
        self.out.field(u64::from(self.event));
        // `as`, since a usize has no `From` to a u64.
        self.out.field(cart as u64);
        self.out.field(u64::from(cell));
        self.out
            .ending(words::get64(self.times, usize::from(self.event)));
        self.event += 1;
    }

    // Puts the line of the start or the finish: cart 0 and no cell.
    fn outer(&mut self)
        requires { self.old.event < 4096 }
        ensures { Prints self.old outer_line 1 self.new }
    {
        let time = words::get64(self.times, usize::from(self.event));
        self.out.field(u64::from(self.event));
        self.out.field(0);
        self.out.text(b",");
        self.out.ending(time);
        self.event += 1;
    }

    // Puts the lines of a move of a cart: the leave point of the one cell, the approach point and the entry of the other.
    fn moves(&mut self, cart: usize, from: u32, to: u32)
        requires { self.old.event + 3 ≤ 4096 }
        ensures { Prints self.old (move_lines cart from to) 3 self.new }
    {
        self.point(cart, from);
        self.point(cart, to);
        self.point(cart, to);
    }

    // Puts the lines of a cart's path. Waits leave no event.
    fn path(&mut self, cart: usize, path: &[u32])
        requires some { 1 ≤ length path.now }
        requires few { self.old.event + 3 * moves path.now < 4096 }
        ensures { Prints self.old (path_lines cart path.now) (3 * moves path.now + 1) self.new }
    {
        self.point(cart, path[0]);
        for step in path.windows(2) {
            if step[0] != step[1] {
                self.moves(cart, step[0], step[1]);
            }
        }
    }

    // Puts the lines of all paths, cart by cart.
    fn paths(&mut self, paths: Paths)
        requires carts_bound { (1 ≤ paths.steps) × (paths.carts * paths.steps ≤ length paths.cells.now) }
        requires few { self.old.event + paths.carts + 3 * moves_of paths < 4096 }
        ensures { Prints self.old (paths_lines 1 (paths_of paths.entry)) (paths.entry.carts + 3 * moves_of paths.entry) self.new }
    {
        // By places, since chunks would have to be cut off behind the last path.
        for i in 0..paths.carts {
            let at = i * paths.steps;
            self.path(i + 1, &paths.cells[at..at + paths.steps]);
        }
    }
}

// Puts the times of paths, whole: a first line, the start, the paths, the finish.
pub(crate) fn put_times(out: &mut Out, times: &[u8], paths: Paths)
    requires carts_bound { (1 ≤ paths.steps) × (paths.carts * paths.steps ≤ length paths.cells.now) }
    requires few { 2 + paths.carts + 3 * moves_of paths ≤ 4096 }
    ensures { Puts out.old (lines_text (word_at 8 times.now) (1 + (paths.entry.carts + 3 * moves_of paths.entry)) (paths_of paths.entry)) out.new }
{
    out.text(b"event,cart,cell,time\r\n");
    let mut lines = Lines {
        out,
        times,
        event: 0,
    };
    lines.outer();
    lines.paths(paths);
    lines.outer();
}

// What is printed for three tables, as bytes in a lent slice. The definitions are in specs/.
// A usize has no `From` to a u64, so that it is widened by `as`.
#![tactic(auto)]

mod events;
mod lines;

ghost use Rattle.std.specs.Prelude.{◌≡◌, ◌≤◌, length};
ghost use Rattle.words.specs.Words.{word_at};
ghost use Rattle.floor.specs.Refusal.{reason_number, table_number};
ghost use Rattle.tables.specs.Lending.{tables_of};
ghost use Rattle.schedule.specs.Timetable.{timetable};
ghost use Rattle.slice.specs.declared.TheConstants.{PLAN_BYTES};
ghost use Rattle.slice.specs.PlanSlice.{Held, held};
ghost use Rattle.printing.specs.Text.{times_text, refusal_text};
ghost use Rattle.printing.specs.Lines.{Puts};
ghost use Rattle.printing.specs.Output.{timed_output, output, print};

use crate::lines::Out;
use floor::Refusal;
use hegtalim::{LoadError, TimeError};
use passes::Lent;
use slice::{PLAN_BYTES, PlanSlice};
use tables::{PlanArrays, Tables};

// Puts a refusal of tables: its number, the table and the record.
fn put_refusal(out: &mut Out, why: Refusal)
    ensures { Puts out.old (refusal_text (reason_number why.reason) (table_number why.table) why.row) out.new }
{
    out.text(b"refusal,table,record\r\n");
    out.field(u64::from(why.reason));
    out.field(u64::from(why.table));
    // `as`, since a usize has no `From` to a u64.
    out.ending(why.row as u64);
}

// Puts the times of the plan that a slice holds; the times themselves are in another.
fn put_plan(out: &mut Out, plan: PlanSlice, times: &[u8])
    ensures { (h : Held) → held plan.entry.bytes.now ≡ Some h → Puts out.old (times_text h.plan (word_at 8 times.now)) out.new }
{
    let mut edges = [0u32; 4096];
    let mut speeds = [0u32; 128];
    let mut cells = [0u32; 8192];
    let mut arrays = PlanArrays {
        edges: &mut edges,
        speeds: &mut speeds,
        cells: &mut cells,
    };
    if let Ok(held) = slice::read_plan(plan.bytes, &mut arrays) {
        events::put_times(out, times, held.size.paths(&cells));
    }
}

// Puts what a timetable finds of the plan that a slice holds: its times, or refusal 13.
fn put_timed(out: &mut Out, plan: PlanSlice)
    ensures { (h : Held) → held plan.entry.bytes.now ≡ Some h → Puts out.old (timed_output h.plan (timetable h.plan h.book)) out.new }
{
    let mut times = [0u8; 32768];
    let mut numbers = [0u8; 8192];
    let mut directions = [0u8; 4096];
    let mut lent = Lent {
        times: &mut times,
        chain_bounds: &mut numbers,
        chain_directions: &mut directions,
    };
    match hegtalim::timetable(plan.bytes, &mut lent) {
        Ok(_) => put_plan(out, plan, lent.times),
        Err(TimeError::NoTimes(_)) => out.text(b"refusal,table,record\r\n13,,\r\n"),
        Err(TimeError::TooShort) => {}
        Err(TimeError::NoPlan) => {}
    }
}

// Puts what three tables come to: the refusal, or what a timetable finds of their plan, which is held in a slice lent for that.
fn put_output(out: &mut Out, tables: Tables, plan: &mut [u8])
    requires { PLAN_BYTES ≤ length plan.old }
    ensures { Puts out.old (output (tables_of tables.entry)) out.new }
{
    match hegtalim::load(tables, plan) {
        Ok(()) => put_timed(out, PlanSlice { bytes: plan }),
        Err(LoadError::Refused(why)) => put_refusal(out, why),
        Err(LoadError::TooShort) => {}
    }
}

// Prints the times of the plan that three tables come to, or the refusal; how many bytes are printed, where there is room for any.
pub fn print(tables: Tables, out: &mut [u8]) -> Option<usize>
    ensures answer { result ≡ (print (record { roads = tables.entry.roads.now; carts = tables.entry.carts.now; paths = tables.entry.paths.now }) out.old).answer }
    ensures left { out.new ≡ (print (record { roads = tables.entry.roads.now; carts = tables.entry.carts.now; paths = tables.entry.paths.now }) out.old).out }
{
    if out.len() < 348_245 {
        return None;
    }
    let mut plan = [0u8; PLAN_BYTES];
    let mut lines = Out { bytes: out, at: 0 };
    put_output(&mut lines, tables, &mut plan);
    Some(lines.at)
}

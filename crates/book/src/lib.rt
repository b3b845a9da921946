// The marker's book, from the log of accepted reports: whether there is one, what it says of a further report, and the bounds that it
// adds. Its definition is that of schedule.
// A u64 has no `From` to a usize, and a number is narrowed by `as` where it fits: a `try_from` would have an error that cannot come.
#![tactic(auto)]

mod marker;
mod writing;

ghost use Rattle.std.specs.Prelude.{◌≡◌};
ghost use Rattle.network.specs.BoundArrays.{Puts};
ghost use Rattle.limits.specs.OfPaths.{plan_of};
ghost use Rattle.book.specs.Log.{book_of, is_book, checked, added_of, added_answer};
ghost use Rattle.schedule.specs.Book.{◌at◌};

use crate::marker::Marker;
use crate::writing::Reports;
use collisions::Paths;
use network::BoundArrays;

// A log as bytes, as a plan slice has it: of each report the cart's number in a byte, and the time in eight.
#[derive(Clone, Copy)]
pub struct Log<'a> {
    pub carts: &'a [u8],
    pub times: &'a [u8],
}

// Why a report is not accepted: its cart has no point still to be passed, and whether its time is in order all the same; or its time is out of order.
#[derive(Clone, Copy, Debug, PartialEq, Eq)]
pub enum ReportError {
    NoPoint { timely: bool },
    BadTime,
}

// Whether each report of a log is accepted in its turn.
#[tactic(auto, unfolding(crate::specs::Log::is_book))]
pub fn accepts(paths: Paths, log: Log) -> bool
    ensures { result ≡ is_book (book_of paths.entry log.entry) }
{
    Marker::read(paths, log).is_some()
}

// What the book of a log says of a further report; where there is none, no cart has a point to pass, and no time is in order.
pub fn check_report(paths: Paths, log: Log, cart: u64, time: u64) -> Result<(), ReportError>
    ensures { result ≡ checked (plan_of paths.entry) (book_of paths.entry log.entry) (cart at time) }
{
    let Some(marker) = Marker::read(paths, log) else {
        return Err(ReportError::NoPoint { timely: false });
    };
    marker.check(cart as usize, time)
}

// Puts the bounds that the book of a log adds; returns how many there are, where there is a book.
pub fn write_added(paths: Paths, log: Log, out: &mut BoundArrays) -> Option<usize>
    ensures answer { result ≡ added_answer (plan_of paths.entry) (book_of paths.entry log.entry) }
    ensures left { Puts out.old out.new (added_of (plan_of paths.entry) (book_of paths.entry log.entry)) }
{
    let marker = Marker::read(paths, log)?;
    let reports = Reports {
        log,
        clock: marker.clock,
    };
    Some(writing::put_all(&marker, reports, out))
}

// The bounds that a book adds, cart by cart: [time, time] for each event reported, and [clock, none] for each that is still to be passed.
ghost use Rattle.std.specs.Prelude.{◌≡◌, ℕ, ◌+◌, ◌-◌, ◌≤◌, ◌<◌, length, get_or, take, drop};
ghost use mathlib.Core.List.{Memᴰ};
ghost use Rattle.network.specs.BoundArrays.{Puts};
ghost use Rattle.book.specs.Log.{log_of};
ghost use Rattle.book.specs.Replaying.{times_of};
ghost use Rattle.book.specs.Writing.{reported_from, waiting_from, cart_added, added_along};

use crate::Log;
use crate::marker::Marker;
use network::{Bound, BoundArrays};

// The reports of a book, whose times are in range, and its clock.
#[derive(Clone, Copy)]
pub(crate) struct Reports<'a> {
    pub(crate) log: Log<'a>,
    pub(crate) clock: u64,
    ghost timely: { (c t : ℕ) → Memᴰ t (times_of c (log_of log)) → t ≤ 1000000000000 },
}

// Points of a cart: the events from `first` on and before `next`.
#[derive(Clone, Copy)]
struct Points {
    cart: usize,
    first: u16,
    next: u16,
}

// Puts the bounds of the points that are reported; returns the event behind them.
fn put_reported(reports: Reports, points: Points, out: &mut BoundArrays) -> u16
    ensures answer { result ≡ points.first + length (reported_from points.first (points.next - points.first) (times_of points.cart (log_of reports.entry.log))) }
    ensures left { Puts out.old out.new (reported_from points.first (points.next - points.first) (times_of points.cart (log_of reports.entry.log))) }
{
    let mut event = points.first;
    for (i, cart) in reports.log.carts.iter().enumerate() {
        if usize::from(*cart) == points.cart && event < points.next {
            let time = words::get64(reports.log.times, i);
            out.put(Bound {
                from: 0,
                to: event,
                lo: time,
                hi: Some(time),
            });
            event += 1;
        }
    }
    event
}

// Puts the bounds of the events from `first` on and before `next`, none of them passed.
fn put_waiting(clock: u64, first: u16, next: u16, out: &mut BoundArrays)
    ensures { Puts out.old out.new (waiting_from clock first (next - first)) }
{
    for event in first..next {
        out.put(Bound {
            from: 0,
            to: event,
            lo: clock,
            hi: None,
        });
    }
}

// Puts the bounds that the book adds for a cart, by all its points but the first.
fn put_cart(reports: Reports, points: Points, out: &mut BoundArrays)
    ensures { Puts out.old out.new (cart_added reports.entry.clock (log_of reports.entry.log) points.cart points.first (points.next - points.first)) }
{
    let waiting = put_reported(reports, points, out);
    put_waiting(reports.clock, waiting, points.next, out);
}

// Puts the bounds that the book adds for all carts; returns how many there are.
pub(crate) fn put_all(marker: &Marker, reports: Reports, out: &mut BoundArrays) -> usize
    requires { (i : ℕ) → i < marker.now.carts → get_or marker.now.firsts i 0 < get_or marker.now.firsts (i + 1) 0 }
    ensures answer { result ≡ length (added_along reports.entry.clock (log_of reports.entry.log) 1 (get_or marker.now.firsts 0 0) (take marker.now.carts (drop 1 marker.now.firsts))) }
    ensures left { Puts out.old out.new (added_along reports.entry.clock (log_of reports.entry.log) 1 (get_or marker.now.firsts 0 0) (take marker.now.carts (drop 1 marker.now.firsts))) }
{
    let mut n = 0;
    for i in 0..marker.carts {
        let points = Points {
            cart: i + 1,
            first: marker.firsts[i] + 1,
            next: marker.firsts[i + 1],
        };
        put_cart(reports, points, out);
        n += usize::from(points.next - points.first);
    }
    n
}

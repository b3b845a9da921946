// The log replayed, one report after the other. Of the book it keeps the clock and how many points each cart has passed.
ghost use Rattle.std.specs.Prelude.{◌≡◌, true, ◌+◌, ◌-◌, ◌≤◌, ◌<◌, get_or, set, replicate, None, is_ok, OnOk, MatchOption, MatchResult};
ghost use Rattle.floor.specs.Plan.{Plan};
ghost use Rattle.schedule.specs.Book.{first_book, replay};
ghost use Rattle.book.specs.Log.{log_of, book_of, answered};
ghost use Rattle.book.specs.Replaying.{next_fits, time_fits, report_fits, Firsts, Replayed, Holds};

use crate::{Log, ReportError};
use collisions::Paths;

// What is kept of a book: the numbers of the carts' first events and the finish's behind them, how many points each cart has passed, and the clock.
// `Drop` alone is derived: nobody copies or compares one.
#[derive(Drop)]
pub(crate) struct Marker {
    pub carts: usize,
    pub firsts: [u16; 65],
    pub counts: [u16; 64],
    pub clock: u64,
    ghost few: { carts ≤ 64 },
}

impl Marker {
    // Whether cart c is there and has a point still to be passed.
    #[tactic(auto, unfolding(crate::specs::Replaying::next_fits))]
    fn has_next(&self, c: usize) -> bool
        ensures answer { result ≡ next_fits self.now.firsts self.now.carts self.now.counts c }
        ensures room { result ≡ true → get_or self.now.counts (c - 1) 0 < 65535 }
    {
        if c == 0 {
            return false;
        }
        if self.carts < c {
            return false;
        }
        let passed = usize::from(self.firsts[c - 1]) + usize::from(self.counts[c - 1]);
        passed < usize::from(self.firsts[c])
    }

    // Whether a time is neither below the clock nor over 10^12.
    #[tactic(auto, unfolding(crate::specs::Replaying::time_fits))]
    fn in_time(&self, t: u64) -> bool
        ensures { result ≡ time_fits self.now.clock t }
    {
        self.clock <= t && t <= 1_000_000_000_000
    }

    // Whether the report of cart c at time t is accepted, or why not.
    #[tactic(auto, unfolding(crate::specs::Log::answered))]
    pub(crate) fn check(&self, c: usize, t: u64) -> Result<(), ReportError>
        ensures { result ≡ answered (next_fits self.now.firsts self.now.carts self.now.counts c) (time_fits self.now.clock t) }
    {
        let timely = self.in_time(t);
        if !self.has_next(c) {
            return Err(ReportError::NoPoint { timely });
        }
        if !timely {
            return Err(ReportError::BadTime);
        }
        Ok(())
    }

    // Takes the report of cart c at time t, if it is accepted: one point more is passed, and the time is the clock.
    #[tactic(auto, unfolding(crate::specs::Replaying::report_fits, crate::specs::Replaying::next_fits, crate::specs::Log::answered))]
    fn take_report(&mut self, c: usize, t: u64) -> Result<(), ReportError>
        ensures answer { is_ok result ≡ report_fits self.old.firsts self.old.carts self.old.counts self.old.clock c t }
        ensures left { OnOk result (self.new.counts ≡ set self.old.counts (c - 1) (get_or self.old.counts (c - 1) 0 + 1)) }
        ensures clock { OnOk result (self.new.clock ≡ t) }
        ensures same { (self.new.firsts ≡ self.old.firsts) × (self.new.carts ≡ self.old.carts) }
    {
        self.check(c, t)?;
        self.counts[c - 1] += 1;
        self.clock = t;
        Ok(())
    }

    // Replays a log from the first book on: whether each report is accepted in its turn.
    fn replay(&mut self, log: Log) -> Result<(), ReportError>
        requires { (self.old.counts ≡ replicate 64 1) × (self.old.clock ≡ 0) }
        ensures answer { (p : Plan) → Firsts p self.old.carts self.old.firsts → MatchResult result
            (λ _. Replayed p (log_of log.entry) self.old.carts self.new.counts self.new.clock) (λ _. replay p (first_book p) (log_of log.entry) ≡ None) }
        ensures same { (self.new.firsts ≡ self.old.firsts) × (self.new.carts ≡ self.old.carts) }
    {
        for i in 0..log.carts.len() {
            let t = words::get64(log.times, i);
            self.take_report(usize::from(log.carts[i]), t)?;
        }
        Ok(())
    }

    // The book of a log, where there is one. At first each cart has passed its first entry.
    pub(crate) fn read(paths: Paths, log: Log) -> Option<Self>
        ensures { MatchOption result (book_of paths.entry log.entry ≡ None) (λ m. Holds paths.entry log.entry m.carts m.firsts m.counts m.clock) }
    {
        let mut firsts = [0; 65];
        if !limits::first_events(paths, &mut firsts) {
            return None;
        }
        let mut marker = Marker {
            carts: paths.carts,
            firsts,
            counts: [1; 64],
            clock: 0,
        };
        marker.replay(log).ok()?;
        Some(marker)
    }
}

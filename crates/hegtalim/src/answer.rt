// The answers of the calls in numbers, as document 01 has them and as a C function returns them.
// A usize has no `From` to a u64, so that it is widened by `as`.
ghost use Rattle.std.specs.Prelude.{◌≡◌, ◌<◌};
ghost use Rattle.hegtalim.specs.Answers.{loaded_answer, reported_answer, timed_answer, c_number, plain};

use crate::{LoadError, ReportError, TimeError};

// "A refusal gives its number, the table … and the record"; refusal 0 is none. The value is a load's record, the passes of times, or a chain's length.
#[derive(Clone, Copy)]
pub struct Answer {
    pub refusal: u64,
    pub table: u64,
    pub value: u64,
}

impl Answer {
    // One without table and value.
    #[tactic(auto, unfolding(crate::specs::Answers::plain))]
    fn plain(refusal: u64) -> Self
        ensures { result ≡ plain refusal }
    {
        Answer {
            refusal,
            table: 0,
            value: 0,
        }
    }

    // The one number that a C function returns.
    #[tactic(auto, unfolding(crate::specs::Answers::c_number))]
    pub(crate) fn number(self) -> u64
        requires { (self.refusal < 256) × (self.table < 256) × (self.value < 4294967296) }
        ensures { result ≡ c_number self }
    {
        self.refusal + 256 * self.table + 4_294_967_296 * self.value
    }
}

impl From<Result<(), LoadError>> for Answer {
    ghost from_gives = { λ x answer. answer ≡ loaded_answer x };

    #[tactic(auto, unfolding(crate::specs::Answers::loaded_answer))]
    fn from(x: Result<(), LoadError>) -> Answer {
        match x {
            Ok(()) => Answer::plain(0),
            Err(LoadError::TooShort) => Answer::plain(14),
            Err(LoadError::Refused(why)) => Answer {
                refusal: u64::from(why.reason),
                table: u64::from(why.table),
                value: why.row as u64,
            },
        }
    }
}

impl From<Result<(), ReportError>> for Answer {
    ghost from_gives = { λ x answer. answer ≡ reported_answer x };

    #[tactic(auto, unfolding(crate::specs::Answers::reported_answer))]
    fn from(x: Result<(), ReportError>) -> Answer {
        match x {
            Ok(()) => Answer::plain(0),
            Err(ReportError::TooShort) => Answer::plain(14),
            Err(ReportError::NoPlan) => Answer::plain(10),
            Err(ReportError::NoPoint) => Answer::plain(11),
            Err(ReportError::BadTime) => Answer::plain(12),
        }
    }
}

impl From<Result<usize, TimeError>> for Answer {
    ghost from_gives = { λ x answer. answer ≡ timed_answer x };

    #[tactic(auto, unfolding(crate::specs::Answers::timed_answer))]
    fn from(x: Result<usize, TimeError>) -> Answer {
        match x {
            Ok(passes) => Answer {
                refusal: 0,
                table: 0,
                value: passes as u64,
            },
            Err(TimeError::TooShort) => Answer::plain(14),
            Err(TimeError::NoPlan) => Answer::plain(10),
            Err(TimeError::NoTimes(length)) => Answer {
                refusal: 13,
                table: 0,
                value: length as u64,
            },
        }
    }
}

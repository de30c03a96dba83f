// Answers by their numbers.
ghost use Rattle.std.specs.Prelude.{◌≡◌};
ghost use Rattle.guest.specs.Answers.{reason_number, narrow_refusal_number, narrowing_number};

use crate::answers::{NarrowRefusal, Reason};

impl Reason {
    // The number by which bench staff know the reason.
    pub fn number(self) -> u8
        ensures { result ≡ reason_number self }
    {
        match self {
            Reason::BadShape => 1,
            Reason::DivisorZero => 2,
            Reason::OutsideWord => 3,
        }
    }
}

impl NarrowRefusal {
    // The refusal that a sheet with such a guard meets.
    pub fn number(self) -> u8
        ensures { result ≡ narrow_refusal_number self }
    {
        match self {
            NarrowRefusal::NoGuard => 7,
            NarrowRefusal::Never => 9,
        }
    }
}

// The refusal that a sheet meets by this answer of the narrowing call, or 0. The promise at 0 is why there is a function
// for the whole answer.
pub fn narrowing_number(answer: Result<(), NarrowRefusal>) -> u8
    ensures { result ≡ narrowing_number answer }
{
    match answer {
        Ok(()) => 0,
        Err(refusal) => refusal.number(),
    }
}

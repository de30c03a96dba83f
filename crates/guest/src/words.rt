// Reasons and refusals in words.
use crate::answers::{NarrowRefusal, Reason};
use std::error::Error;
use std::fmt;

impl fmt::Display for Reason {
    fn fmt<W: fmt::Write>(&self, f: &mut fmt::Formatter<W>) -> fmt::Result {
        let words = match self {
            Reason::BadShape => "bad shape",
            Reason::DivisorZero => "divisor 0",
            Reason::OutsideWord => "part outside the word range",
        };
        f.write_str(words)
    }
}

impl Error for Reason {}

impl fmt::Display for NarrowRefusal {
    fn fmt<W: fmt::Write>(&self, f: &mut fmt::Formatter<W>) -> fmt::Result {
        let words = match self {
            NarrowRefusal::NoGuard => "no guard",
            NarrowRefusal::Never => "never yes",
        };
        f.write_str(words)
    }
}

impl Error for NarrowRefusal {}

// What a guard's yes leaves of a range.
ghost use Rattle.std.specs.Prelude.{◌≡◌, ◌+ℤ◌, if◌then◌else◌};
ghost use Rattle.intervals.specs.Narrow.{trimmed as trimmed_by};
ghost use Rattle.intervals.specs.Value.{same};

use crate::wide::{minus, plus};
use intervals::Range;
use prefix::{Order, Trim};

// An end, moved by a step where it is the number.
fn past(end: i32, number: i32, step: i32) -> i64
    ensures { result ≡ (if same end number then end +ℤ step else end) }
{
    if end == number {
        plus(end, step)
    } else {
        i64::from(end)
    }
}

pub(crate) struct Trimming;

impl Trim for Trimming {
    type Type = Range;

    ghost trimmed = { trimmed_by };

    // The order was read from a node, so it is a value to match on.
    fn trim(order: Order, constant: i32, of: Range) -> Option<Range> {
        let lo = i64::from(of.lo);
        let hi = i64::from(of.hi);
        let number = i64::from(constant);
        match order {
            Order::Equal => Range::spanning(lo.max(number), hi.min(number)),
            Order::NotEqual => Range::spanning(past(of.lo, constant, 1), past(of.hi, constant, -1)),
            Order::Less => Range::spanning(lo, hi.min(minus(constant, 1))),
            Order::LessOrEqual => Range::spanning(lo, hi.min(number)),
            Order::Greater => Range::spanning(lo.max(plus(constant, 1)), hi),
            Order::GreaterOrEqual => Range::spanning(lo.max(number), hi),
        }
    }
}

// The pass by types: the range of each number, if it has one, and whether all parts of a truth have one.
ghost use Rattle.std.specs.Prelude.{◌≡◌, ℤ};
ghost use Rattle.intervals.specs.Grammar.{head as head_of};
ghost use Rattle.intervals.specs.Range.{range as range_of};
ghost use Rattle.intervals.specs.Typing.{least_of, greatest_of, spread as spread_of, hull as hull_of, by_type};

use crate::answers::Ranges;
use crate::wide::{minus, over, plus, times};
use intervals::{Arithmetic, Byte, Range};
use prefix::{Head, Link, Order, Pass};
use tables::Node;

// From the least to the greatest of what an operation gives at the ends.
fn corners<F: Fn(i32, i32) -> i64>(at: F, r: Range, s: Range) -> Option<Range>
    requires low_low { F.pre at r.lo s.lo }
    requires low_high { F.pre at r.lo s.hi }
    requires high_low { F.pre at r.hi s.lo }
    requires high_high { F.pre at r.hi s.hi }
    ensures { (a b c d : ℤ)
        × F.post at r.lo s.lo a × F.post at r.lo s.hi b
        × F.post at r.hi s.lo c × F.post at r.hi s.hi d
        × (result ≡ range_of (least_of a b c d) (greatest_of a b c d)) }
{
    let a = at(r.lo, s.lo);
    let b = at(r.lo, s.hi);
    let c = at(r.hi, s.lo);
    let d = at(r.hi, s.hi);
    Range::spanning(a.min(b).min(c.min(d)), a.max(b).max(c.max(d)))
}

// Like the pass by values, it matches on an operation that was read from a node.
fn spread(operation: Arithmetic, r: Range, s: Range) -> Option<Range>
    ensures { result ≡ spread_of operation r s }
{
    match operation {
        Arithmetic::Add => Range::spanning(plus(r.lo, s.lo), plus(r.hi, s.hi)),
        Arithmetic::Subtract => Range::spanning(minus(r.lo, s.hi), minus(r.hi, s.lo)),
        Arithmetic::Multiply => corners(times, r, s),
        Arithmetic::Divide if s.holds(0) => None,
        Arithmetic::Divide => corners(over, r, s),
    }
}

// From the lesser lo to the greater hi.
fn hull(r: Range, s: Range) -> Option<Range>
    ensures { result ≡ hull_of r s }
{
    Range::spanning(i64::from(r.lo.min(s.lo)), i64::from(r.hi.max(s.hi)))
}

pub(crate) struct Typing;

impl Pass for Typing {
    type Unary = Byte;

    type Binary = Arithmetic;

    type Element = Range;

    type Number = Option<Range>;

    type Truth = bool;

    ghost grammar = { head_of };

    ghost algebra = { by_type };

    fn head(node: Node) -> Option<Head<Byte, Arithmetic>> {
        Ranges::head(node)
    }

    fn leaf(element: Range) -> Option<Range> {
        Some(element)
    }

    fn constant(argument: i32) -> Option<Range> {
        Range::spanning(i64::from(argument), i64::from(argument))
    }

    fn unary(_operation: Byte, a: Option<Range>) -> Option<Range> {
        a.and_then(|_| Range::spanning(0, 255))
    }

    fn binary(operation: Arithmetic, a: Option<Range>, b: Option<Range>) -> Option<Range> {
        spread(operation, a?, b?)
    }

    fn choose(condition: bool, a: Option<Range>, b: Option<Range>) -> Option<Range> {
        if condition { hull(a?, b?) } else { None }
    }

    fn compare(_order: Order, a: Option<Range>, b: Option<Range>) -> bool {
        a.is_some() && b.is_some()
    }

    fn not(a: bool) -> bool {
        a
    }

    fn join(_link: Link, a: bool, b: bool) -> bool {
        a && b
    }
}

// The range guest's answers to the bench.
ghost use Rattle.std.specs.Prelude.{◌≡◌};
ghost use Rattle.intervals.specs.Meaning.{ranges as range_meaning};
ghost use Rattle.intervals.proofs.Laws.{range_laws};

use crate::evaluation::Evaluation;
use crate::trimming::Trimming;
use crate::typing::Typing;
use guest::{Guest, NarrowRefusal, Reason};
use intervals::Range;
use prefix::{narrow_by, number_pass, simple_comparison, truth_pass};
use tables::Node;

// The guest whose values are whole numbers and whose types are ranges of them.
pub struct Ranges;

impl Guest for Ranges {
    type Type = Range;

    type Value = i32;

    ghost meaning = { range_meaning };

    ghost laws = { range_laws };

    fn make(a: i32, b: i32) -> Option<Range> {
        if -32_768 <= a && b <= 32_767 {
            Range::spanning(i64::from(a), i64::from(b))
        } else {
            None
        }
    }

    fn decode(of: Range, code: i32) -> Option<i32> {
        of.holds(code).then_some(code)
    }

    fn encode(value: i32) -> i32 {
        value
    }

    fn rest(of: Range) -> i32 {
        0.clamp(of.lo, of.hi)
    }

    fn holds(of: Range, value: i32) -> bool {
        of.holds(value)
    }

    fn within(inner: Range, outer: Range) -> bool {
        inner.is_within(outer)
    }

    fn typed(nodes: &[Node], types: &[Range]) -> Option<Range> {
        number_pass::<Typing>(nodes, types).flatten()
    }

    // The trait asks for a value and for a verdict, so there are two functions; each is one call.
    fn value(nodes: &[Node], row: &[i32]) -> Result<i32, Reason> {
        number_pass::<Evaluation>(nodes, row).unwrap_or(Err(Reason::BadShape))
    }

    fn verdict(nodes: &[Node], row: &[i32]) -> Result<bool, Reason> {
        truth_pass::<Evaluation>(nodes, row).unwrap_or(Err(Reason::BadShape))
    }

    fn narrow(nodes: &[Node], types: &mut [Range]) -> Result<(), NarrowRefusal> {
        let Some(true) = truth_pass::<Typing>(nodes, types) else {
            return Err(NarrowRefusal::NoGuard);
        };
        narrow_by::<Trimming>(simple_comparison::<Typing>(nodes), types)
    }
}

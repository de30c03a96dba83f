// The pass by values: what each kind of node gives, or the reason why it gives nothing.
ghost use Rattle.std.specs.Prelude.{◌≡◌};
ghost use Rattle.intervals.specs.Grammar.{head as head_of};
ghost use Rattle.intervals.specs.Value.{applied, compared as compared_by, by_value};

use crate::answers::Ranges;
use guest::Reason;
use intervals::{Arithmetic, Byte};
use prefix::{Head, Link, Order, Pass, chosen, joined, negated};
use tables::Node;

// The operation is read from a node, so it is a value to match on; a closure in its place would come from the same match.
fn apply(operation: Arithmetic, a: i32, b: i32) -> Result<i32, Reason>
    ensures { result ≡ applied operation a b }
{
    let made = match operation {
        Arithmetic::Add => a.checked_add(b),
        Arithmetic::Subtract => a.checked_sub(b),
        Arithmetic::Multiply => a.checked_mul(b),
        Arithmetic::Divide if b == 0 => return Err(Reason::DivisorZero),
        Arithmetic::Divide => a.checked_div(b),
    };
    made.ok_or(Reason::OutsideWord)
}

// An order is read from a node as well.
fn compared(order: Order, a: i32, b: i32) -> bool
    ensures { result ≡ compared_by order a b }
{
    match order {
        Order::Equal => a == b,
        Order::NotEqual => a != b,
        Order::Less => a < b,
        Order::LessOrEqual => a <= b,
        Order::Greater => a > b,
        Order::GreaterOrEqual => a >= b,
    }
}

pub(crate) struct Evaluation;

impl Pass for Evaluation {
    type Unary = Byte;

    type Binary = Arithmetic;

    type Element = i32;

    type Number = Result<i32, Reason>;

    type Truth = Result<bool, Reason>;

    ghost grammar = { head_of };

    ghost algebra = { by_value };

    fn head(node: Node) -> Option<Head<Byte, Arithmetic>> {
        Ranges::head(node)
    }

    fn leaf(element: i32) -> Result<i32, Reason> {
        Ok(element)
    }

    fn constant(argument: i32) -> Result<i32, Reason> {
        Ok(argument)
    }

    fn unary(_operation: Byte, a: Result<i32, Reason>) -> Result<i32, Reason> {
        Ok(a?.rem_euclid(256))
    }

    fn binary(
        operation: Arithmetic,
        a: Result<i32, Reason>,
        b: Result<i32, Reason>,
    ) -> Result<i32, Reason> {
        apply(operation, a?, b?)
    }

    fn choose(
        condition: Result<bool, Reason>,
        a: Result<i32, Reason>,
        b: Result<i32, Reason>,
    ) -> Result<i32, Reason> {
        chosen(condition, a, b)
    }

    fn compare(
        order: Order,
        a: Result<i32, Reason>,
        b: Result<i32, Reason>,
    ) -> Result<bool, Reason> {
        Ok(compared(order, a?, b?))
    }

    fn not(a: Result<bool, Reason>) -> Result<bool, Reason> {
        negated(a)
    }

    fn join(link: Link, a: Result<bool, Reason>, b: Result<bool, Reason>) -> Result<bool, Reason> {
        joined(link, a, b)
    }
}

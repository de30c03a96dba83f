// What nodes stand for in words.
use crate::grammar::{Head, Link, Order};
use std::fmt;

impl fmt::Display for Order {
    fn fmt<W: fmt::Write>(&self, f: &mut fmt::Formatter<W>) -> fmt::Result {
        let words = match self {
            Order::Equal => "equal",
            Order::NotEqual => "not-equal",
            Order::Less => "less",
            Order::LessOrEqual => "less-or-equal",
            Order::Greater => "greater",
            Order::GreaterOrEqual => "greater-or-equal",
        };
        f.write_str(words)
    }
}

impl fmt::Display for Link {
    fn fmt<W: fmt::Write>(&self, f: &mut fmt::Formatter<W>) -> fmt::Result {
        let words = match self {
            Link::And => "and",
            Link::Or => "or",
        };
        f.write_str(words)
    }
}

// A read is shown by its place, so it looks like a constant; who has names shows it by its name.
impl<U: fmt::Display, B: fmt::Display> fmt::Display for Head<U, B> {
    fn fmt<W: fmt::Write>(&self, f: &mut fmt::Formatter<W>) -> fmt::Result {
        match self {
            Head::Read(place) => write!(f, "{place}"),
            Head::Constant(argument) => write!(f, "{argument}"),
            Head::Unary(operation) => write!(f, "{operation}"),
            Head::Binary(operation) => write!(f, "{operation}"),
            Head::Choose => f.write_str("choose"),
            Head::Compare(order) => write!(f, "{order}"),
            Head::Not => f.write_str("not"),
            Head::Join(link) => write!(f, "{link}"),
        }
    }
}

// What the nodes of a range expression stand for.
ghost use Rattle.std.specs.Prelude.{◌≡◌};
ghost use Rattle.prefix.specs.Codes.{looked_up};
ghost use Rattle.intervals.specs.Grammar.{head as head_of, codes};

use crate::answers::Ranges;
use intervals::{Arithmetic, Byte};
use prefix::{Head, Link, Order};
use tables::Node;

// The codes other than 0 and 1. Neither this nor `head` is a `TryFrom`: all types in it are of other crates, which bars
// the impl. Beyond `head` the guest has no number for an operation.
fn operation(code: u8) -> Option<Head<Byte, Arithmetic>>
    ensures { result ≡ looked_up code codes }
{
    match code {
        2 => Some(Head::Binary(Arithmetic::Add)),
        3 => Some(Head::Binary(Arithmetic::Subtract)),
        4 => Some(Head::Binary(Arithmetic::Multiply)),
        5 => Some(Head::Binary(Arithmetic::Divide)),
        8 => Some(Head::Choose),
        9 => Some(Head::Unary(Byte)),
        16 => Some(Head::Compare(Order::Equal)),
        17 => Some(Head::Compare(Order::NotEqual)),
        18 => Some(Head::Compare(Order::Less)),
        19 => Some(Head::Compare(Order::LessOrEqual)),
        20 => Some(Head::Compare(Order::Greater)),
        21 => Some(Head::Compare(Order::GreaterOrEqual)),
        22 => Some(Head::Not),
        23 => Some(Head::Join(Link::And)),
        24 => Some(Head::Join(Link::Or)),
        _ => None,
    }
}

impl Ranges {
    // What a node stands for, or none.
    pub fn head(node: Node) -> Option<Head<Byte, Arithmetic>>
        ensures { result ≡ head_of node }
    {
        match node.code {
            0 => usize::try_from(node.argument).ok().map(Head::Read),
            1 => Some(Head::Constant(node.argument)),
            code if node.argument == 0 => operation(code),
            _ => None,
        }
    }
}

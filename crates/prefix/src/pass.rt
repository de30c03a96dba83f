// One way of going through an expression, from its leaves up: what each kind of node gives from what its parts gave.
ghost use Rattle.std.specs.Prelude.{◌≡◌, Some as Found, Option as Maybe};
ghost use Rattle.tables.specs.declared.Node.{Node as NodeOf};
ghost use Rattle.prefix.specs.declared.grammar.Head.{Head as HeadOf};
ghost use Rattle.prefix.specs.Pass.{Algebra};

use crate::grammar::{Head, Link, Order};
use tables::Node;

pub trait Pass {
    type Unary: Copy;

    type Binary: Copy;
    // what the row has
    type Element: Copy;
    // what a number gives, and a truth
    type Number: Copy;

    type Truth: Copy;

    ghost grammar: { NodeOf → Maybe (HeadOf Self.Unary Self.Binary) };

    ghost algebra: { Algebra Self.Unary Self.Binary Self.Element Self.Number Self.Truth };

    // What a node stands for in the language, or none.
    fn head(node: Node) -> Option<Head<Self::Unary, Self::Binary>>
        ensures { result ≡ grammar node };

    fn leaf(element: Self::Element) -> Self::Number
        ensures { result ≡ algebra.leaf (Found element) };

    fn constant(argument: i32) -> Self::Number
        ensures { result ≡ algebra.constant argument };

    fn unary(operation: Self::Unary, a: Self::Number) -> Self::Number
        ensures { result ≡ algebra.unary operation a };

    fn binary(operation: Self::Binary, a: Self::Number, b: Self::Number) -> Self::Number
        ensures { result ≡ algebra.binary operation a b };

    fn choose(condition: Self::Truth, a: Self::Number, b: Self::Number) -> Self::Number
        ensures { result ≡ algebra.choose condition a b };

    fn compare(order: Order, a: Self::Number, b: Self::Number) -> Self::Truth
        ensures { result ≡ algebra.compare order a b };

    fn not(a: Self::Truth) -> Self::Truth
        ensures { result ≡ algebra.not a };

    fn join(link: Link, a: Self::Truth, b: Self::Truth) -> Self::Truth
        ensures { result ≡ algebra.join link a b };
}

// One pass over the nodes of an expression: numbers and truths call each other, and the nodes that are left get fewer.
ghost use Rattle.std.specs.Prelude.{◌≡◌, Some as Found};
ghost use Rattle.prefix.specs.Parse.{placed, whole};
ghost use Rattle.prefix.specs.Pass.{number_pass, truth_pass};
ghost use Rattle.prefix.specs.Shape.{GivesNumber, GivesTruth};
ghost use Rattle.prefix.specs.Walk.{Placed, Reads, ReadsHead, numbers, truths};

use crate::grammar::Head;
use crate::pass::Pass;
use tables::Node;

// A head over a row of `width` elements: a read beyond it stands for nothing.
fn within_row<U: Copy, B: Copy>(head: Option<Head<U, B>>, width: usize) -> Option<Head<U, B>>
    ensures same { result ≡ placed width head }
    ensures read { Placed width result }
{
    match head {
        Some(Head::Read(place)) if place >= width => None,
        other => other,
    }
}

// The nodes of an expression that are still to be read, over a row.
#[derive(Drop)]
struct Walk<'a, P: Pass> {
    nodes: &'a [Node],
    row: &'a [P::Element],
}

impl<P: Pass> Walk<'_, P> {
    // What the next node stands for.
    fn head(&mut self) -> Option<Head<P::Unary, P::Binary>>
        ensures { ReadsHead P.Pass.grammar self.old self.new result }
    {
        let (node, rest) = self.nodes.split_first()?;
        self.nodes = rest;
        within_row(P::head(*node), self.row.len())
    }

    // `number` and `truth` match on different heads, so they are two.
    #[cycle(number_truth)]
    #[tactic(auto, using(crate::proofs::Steps::number_steps))]
    fn number(&mut self) -> Option<P::Number>
        ensures { Reads P.Pass.grammar (numbers P.Pass.algebra) self.old self.new result }
    {
        match self.head()? {
            Head::Read(place) => Some(P::leaf(self.row[place])),
            Head::Constant(argument) => Some(P::constant(argument)),
            Head::Unary(operation) => {
                let a = self.number()?;
                Some(P::unary(operation, a))
            }
            Head::Binary(operation) => {
                let a = self.number()?;
                let b = self.number()?;
                Some(P::binary(operation, a, b))
            }
            Head::Choose => {
                let condition = self.truth()?;
                let a = self.number()?;
                let b = self.number()?;
                Some(P::choose(condition, a, b))
            }
            _ => None,
        }
    }

    #[cycle(number_truth)]
    fn truth(&mut self) -> Option<P::Truth>
        ensures { Reads P.Pass.grammar (truths P.Pass.algebra) self.old self.new result }
    {
        match self.head()? {
            Head::Compare(order) => {
                let a = self.number()?;
                let b = self.number()?;
                Some(P::compare(order, a, b))
            }
            Head::Not => {
                let a = self.truth()?;
                Some(P::not(a))
            }
            Head::Join(link) => {
                let a = self.truth()?;
                let b = self.truth()?;
                Some(P::join(link, a, b))
            }
            _ => None,
        }
    }

    // What was found, if no node is left.
    fn whole<X: Copy>(&self, found: X) -> Option<X>
        ensures { result ≡ whole (Found (found, self.now.nodes.now)) }
    {
        self.nodes.is_empty().then_some(found)
    }
}

// What a number gives over a row, or none for a bad shape. It and `truth_pass` differ in the method that they call; one
// function for both would be handed that method, with a longer contract than the two bodies have lines.
pub fn number_pass<P: Pass>(nodes: &[Node], row: &[P::Element]) -> Option<P::Number>
    ensures answer { result ≡ number_pass P.Pass.grammar P.Pass.algebra nodes.now row.now }
    ensures shape { GivesNumber P.Pass.grammar P.Pass.algebra nodes.now row.now result }
{
    let mut walk = Walk::<P> { nodes, row };
    let found = walk.number()?;
    walk.whole(found)
}

// What a truth gives over a row, or none for a bad shape.
pub fn truth_pass<P: Pass>(nodes: &[Node], row: &[P::Element]) -> Option<P::Truth>
    ensures answer { result ≡ truth_pass P.Pass.grammar P.Pass.algebra nodes.now row.now }
    ensures shape { GivesTruth P.Pass.grammar P.Pass.algebra nodes.now row.now result }
{
    let mut walk = Walk::<P> { nodes, row };
    let found = walk.truth()?;
    walk.whole(found)
}

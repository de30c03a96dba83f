// Guards of exactly three nodes, comparison, read, constant: the ones that can narrow.
ghost use Rattle.std.specs.Prelude.{◌≡◌};
ghost use Rattle.prefix.specs.Simple.{simple};

use crate::comparison::Comparison;
use crate::grammar::Head;
use crate::pass::Pass;
use tables::Node;

// The comparison that such a guard makes, or none for any other list of nodes. The place may lie beyond the row.
pub fn simple_comparison<P: Pass>(nodes: &[Node]) -> Option<Comparison>
    ensures { result ≡ simple P.Pass.grammar nodes.now }
{
    let &[comparison, read, constant] = nodes else {
        return None;
    };
    match (P::head(comparison), P::head(read), P::head(constant)) {
        (Some(Head::Compare(order)), Some(Head::Read(place)), Some(Head::Constant(constant))) => {
            Some(Comparison {
                order,
                place,
                constant,
            })
        }
        _ => None,
    }
}

// How the outcomes of parts are put together: all parts are evaluated, left to right, and the first reason decides.
ghost use Rattle.std.specs.Prelude.{◌≡◌};
ghost use Rattle.prefix.specs.Outcome.{choice_value, not_value, join_value};

use crate::grammar::Link;
use guest::Reason;

// One of two outcomes, by a condition.
pub fn chosen<V: Copy>(
    condition: Result<bool, Reason>,
    a: Result<V, Reason>,
    b: Result<V, Reason>,
) -> Result<V, Reason>
    ensures { result ≡ choice_value condition a b }
{
    let condition = condition?;
    let a = a?;
    let b = b?;
    if condition { Ok(a) } else { Ok(b) }
}

pub fn negated(a: Result<bool, Reason>) -> Result<bool, Reason>
    ensures { result ≡ not_value a }
{
    Ok(!a?)
}

pub fn joined(link: Link, a: Result<bool, Reason>, b: Result<bool, Reason>) -> Result<bool, Reason>
    ensures { result ≡ join_value link a b }
{
    let a = a?;
    let b = b?;
    match link {
        Link::And => Ok(a && b),
        Link::Or => Ok(a || b),
    }
}

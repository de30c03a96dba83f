// Expressions in prefix order, as all guests write them: their shape, and one pass over the nodes that judges the shape
// and gives what the expression comes to, by values, by types or otherwise.
#![tactic(auto)]

mod comparison;
mod grammar;
mod outcome;
mod pass;
mod simple;
mod trim;
mod walk;
mod words;

pub use comparison::Comparison;
pub use grammar::{Head, Link, Order};
pub use outcome::{chosen, joined, negated};
pub use pass::Pass;
pub use simple::simple_comparison;
pub use trim::{Trim, narrow_by};
pub use walk::{number_pass, truth_pass};

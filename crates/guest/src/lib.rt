// What the bench asks of a guest. A guest is the small expression language of a sheet's guards and right sides,
// with types and values of its own. The bench never looks inside an expression,
// except that a node of code 0 reads the value that its argument names.
#![tactic(auto)]

mod answers;
mod interface;
mod number;
mod words;

pub use answers::{NarrowRefusal, Reason};
pub use interface::Guest;
pub use number::narrowing_number;

// Ranges of whole numbers as types of an expression language: ranges and their methods, what the language means, and
// that it keeps the laws of guests. The code that answers by this meaning stands in `ranges`.
#![tactic(auto)]

mod operations;
mod range;
mod spans;
mod words;

pub use operations::{Arithmetic, Byte};
pub use range::Range;

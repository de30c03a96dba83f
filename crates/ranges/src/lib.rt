// The range guest: whole numbers, with ranges as types.
#![tactic(auto)]

mod answers;
mod evaluation;
mod grammar;
mod trimming;
mod typing;
mod wide;

pub use answers::Ranges;
pub use intervals::{Arithmetic, Byte, Range};

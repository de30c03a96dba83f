// What a guard of exactly three nodes, comparison, read, constant, compares.
use crate::grammar::Order;

// The value at a place of the row, compared with a constant.
#[derive(Clone, Copy, PartialEq, Eq, Debug)]
pub struct Comparison {
    pub order: Order,
    pub place: usize,
    pub constant: i32,
}

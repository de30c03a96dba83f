// What the nodes of an expression in prefix order can stand for.

#[derive(Clone, Copy, PartialEq, Eq, Debug)]
pub enum Order {
    Equal,
    NotEqual,
    Less,
    LessOrEqual,
    Greater,
    GreaterOrEqual,
}

#[derive(Clone, Copy, PartialEq, Eq, Debug)]
pub enum Link {
    And,
    Or,
}

// What stands at the head of a number (the first five) or of a truth (the last three). U and B are the operations
// on one number and on two that the language has.
#[derive(Clone, Copy, PartialEq, Eq, Debug)]
pub enum Head<U, B> {
    // the value at a place of the row
    Read(usize),
    Constant(i32),
    Unary(U),
    Binary(B),
    // one of two numbers, by a truth
    Choose,
    Compare(Order),
    Not,
    Join(Link),
}

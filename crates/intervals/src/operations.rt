// The operations of the range guest on one number and on two.

// The byte of a number: 0..255, equal to it modulo 256.
#[derive(Clone, Copy, PartialEq, Eq, Debug)]
pub struct Byte;

#[derive(Clone, Copy, PartialEq, Eq, Debug)]
pub enum Arithmetic {
    Add,
    Subtract,
    Multiply,
    // drops the fraction, toward 0
    Divide,
}

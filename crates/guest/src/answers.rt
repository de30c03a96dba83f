// What a guest answers besides types and values.

// Why an expression gives no value on a row.
#[derive(Clone, Copy, PartialEq, Eq, Debug)]
pub enum Reason {
    // The nodes are no expression of the wanted sort, or one reads beyond the row. It is judged first.
    BadShape,
    // A divisor is 0.
    DivisorZero,
    // A part is outside -2,147,483,648..2,147,483,647.
    OutsideWord,
}

// Why a guard does not narrow a row of types. The row is then as it was.
#[derive(Clone, Copy, PartialEq, Eq, Debug)]
pub enum NarrowRefusal {
    // The nodes are no guard under these types.
    NoGuard,
    // The guard is never yes under these types.
    Never,
}

// What range expressions give by value, at the ends of the word range and where they give nothing.
use crate::nodes::*;
use guest::{Guest, Reason};
use ranges::Ranges;
use std::test::Fail;
use tables::Node;

const BY_ZERO: Reason = Reason::DivisorZero;

const OUTSIDE: Reason = Reason::OutsideWord;

// An operation, two numbers, and what it gives on them.
static ARITHMETIC: [(Node, i32, i32, Result<i32, Reason>); 41] = [
    (ADD, 1, 2, Ok(3)),
    (ADD, MOST, 0, Ok(MOST)),
    (ADD, MOST, 1, Err(OUTSIDE)),
    (ADD, 1, MOST, Err(OUTSIDE)),
    (ADD, LEAST, -1, Err(OUTSIDE)),
    (ADD, LEAST, LEAST, Err(OUTSIDE)),
    (ADD, LEAST, MOST, Ok(-1)),
    (SUB, 1, 2, Ok(-1)),
    (SUB, LEAST, 0, Ok(LEAST)),
    (SUB, LEAST, 1, Err(OUTSIDE)),
    (SUB, MOST, -1, Err(OUTSIDE)),
    (SUB, 0, LEAST, Err(OUTSIDE)),
    (SUB, -1, LEAST, Ok(MOST)),
    (MUL, 65_536, 32_768, Err(OUTSIDE)),
    (MUL, -65_536, 32_768, Ok(LEAST)),
    (MUL, -65_536, -32_768, Err(OUTSIDE)),
    (MUL, LEAST, -1, Err(OUTSIDE)),
    (MUL, -1, LEAST, Err(OUTSIDE)),
    (MUL, LEAST, 1, Ok(LEAST)),
    (MUL, LEAST, 0, Ok(0)),
    (MUL, MOST, -1, Ok(-2_147_483_647)),
    (MUL, 46_340, 46_340, Ok(2_147_395_600)),
    (MUL, 46_341, 46_341, Err(OUTSIDE)),
    (MUL, -46_341, 46_341, Err(OUTSIDE)),
    (MUL, LEAST, LEAST, Err(OUTSIDE)),
    (MUL, LEAST, MOST, Err(OUTSIDE)),
    (DIV, LEAST, -1, Err(OUTSIDE)),
    (DIV, LEAST, 1, Ok(LEAST)),
    (DIV, LEAST, -2, Ok(1_073_741_824)),
    (DIV, MOST, -1, Ok(-2_147_483_647)),
    (DIV, LEAST, MOST, Ok(-1)),
    (DIV, MOST, LEAST, Ok(0)),
    (DIV, LEAST, LEAST, Ok(1)),
    (DIV, 7, 2, Ok(3)),
    (DIV, -7, 2, Ok(-3)),
    (DIV, 7, -2, Ok(-3)),
    (DIV, -7, -2, Ok(3)),
    (DIV, -1, 2, Ok(0)),
    (DIV, 7, 0, Err(BY_ZERO)),
    (DIV, 0, 0, Err(BY_ZERO)),
    (DIV, LEAST, 0, Err(BY_ZERO)),
];

#[test]
fn arithmetic(rt: HostRuntime) {
    for &(operation, a, b, expected) in &ARITHMETIC {
        let written = [operation, num(a), num(b)];
        assert_eq!(rt;
            Ranges::value(&written, &[]),
            expected,
            "{}",
            Expression(&written)
        );
        let from_row = [operation, read(2), read(1)];
        assert_eq!(rt;
            Ranges::value(&from_row, &[0, b, a]),
            expected,
            "{}",
            Expression(&written)
        );
    }
}

// A number and its byte.
static BYTES: [(i32, i32); 10] = [
    (LEAST, 0),
    (MOST, 255),
    (-1, 255),
    (0, 0),
    (255, 255),
    (256, 0),
    (257, 1),
    (-255, 1),
    (-256, 0),
    (-257, 255),
];

#[test]
fn bytes(rt: HostRuntime) {
    for &(number, expected) in &BYTES {
        assert_eq!(rt;
            Ranges::value(&[BYTE, num(number)], &[]),
            Ok(expected),
            "{}",
            number
        );
        // the byte of a byte is the same
        assert_eq!(rt;
            Ranges::value(&[BYTE, BYTE, read(0)], &[number]),
            Ok(expected),
            "{}",
            number
        );
    }
}

// Expressions with a part that gives nothing, and the first such part's reason.
// `DIV, ONE, ZERO` has a divisor 0, and `ADD, MAX, ONE` leaves the word range.
static REASONS: [(&[Node], Reason); 31] = [
    (&[BYTE, ADD, MAX, ONE], OUTSIDE),
    (&[BYTE, DIV, ONE, ZERO], BY_ZERO),
    // a part leaves the word range, though the whole would not
    (&[SUB, ADD, MAX, ONE, ONE], OUTSIDE),
    (&[MUL, ZERO, DIV, ONE, ZERO], BY_ZERO),
    (&[MUL, ZERO, ADD, MAX, ONE], OUTSIDE),
    // operands come before the test of the divisor
    (&[DIV, ADD, MAX, ONE, ZERO], OUTSIDE),
    (&[DIV, ONE, ADD, MAX, ONE], OUTSIDE),
    (&[DIV, ONE, SUB, ONE, ONE], BY_ZERO),
    // two parts with different reasons
    (&[ADD, DIV, ONE, ZERO, ADD, MAX, ONE], BY_ZERO),
    (&[ADD, ADD, MAX, ONE, DIV, ONE, ZERO], OUTSIDE),
    (&[SUB, DIV, ONE, ZERO, ADD, MAX, ONE], BY_ZERO),
    (&[SUB, ADD, MAX, ONE, DIV, ONE, ZERO], OUTSIDE),
    (&[MUL, DIV, ONE, ZERO, ADD, MAX, ONE], BY_ZERO),
    (&[MUL, ADD, MAX, ONE, DIV, ONE, ZERO], OUTSIDE),
    (&[DIV, DIV, ONE, ZERO, ADD, MAX, ONE], BY_ZERO),
    (&[DIV, ADD, MAX, ONE, DIV, ONE, ZERO], OUTSIDE),
    // deep on the left before shallow on the right, and both operands before their sum
    (&[ADD, SUB, ONE, DIV, ONE, ZERO, ADD, MAX, ONE], BY_ZERO),
    (&[ADD, MAX, ADD, ONE, DIV, ONE, ZERO], BY_ZERO),
    // the branch that is not chosen, and the one that is
    (&[IF, LT, ONE, TWO, THREE, DIV, ONE, ZERO], BY_ZERO),
    (&[IF, LT, TWO, ONE, DIV, ONE, ZERO, FOUR], BY_ZERO),
    (&[IF, LT, ONE, TWO, THREE, ADD, MAX, ONE], OUTSIDE),
    (&[IF, LT, TWO, ONE, ADD, MAX, ONE, FOUR], OUTSIDE),
    (&[IF, LT, ONE, TWO, DIV, ONE, ZERO, FOUR], BY_ZERO),
    (&[IF, LT, TWO, ONE, THREE, DIV, ONE, ZERO], BY_ZERO),
    // the condition before the branches, and the first branch before the second
    (&[IF, EQ, DIV, ONE, ZERO, ONE, THREE, FOUR], BY_ZERO),
    (&[IF, EQ, DIV, ONE, ZERO, ONE, ADD, MAX, ONE, FOUR], BY_ZERO),
    (&[IF, EQ, ONE, ADD, MAX, ONE, DIV, ONE, ZERO, FOUR], OUTSIDE),
    (&[IF, LT, TWO, ONE, ADD, MAX, ONE, DIV, ONE, ZERO], OUTSIDE),
    (&[IF, LT, ONE, TWO, ADD, MAX, ONE, DIV, ONE, ZERO], OUTSIDE),
    (&[IF, LT, TWO, ONE, DIV, ONE, ZERO, ADD, MAX, ONE], BY_ZERO),
    (&[IF, LT, ONE, TWO, DIV, ONE, ZERO, ADD, MAX, ONE], BY_ZERO),
];

#[test]
fn first_reason_from_the_left(rt: HostRuntime) {
    for &(nodes, expected) in &REASONS {
        assert_eq!(rt;
            Ranges::value(nodes, &[]),
            Err(expected),
            "{}",
            Expression(nodes)
        );
    }
}

// A comparison, and its answers on numbers that rise, are equal and fall.
static COMPARISONS: [(Node, bool, bool, bool); 6] = [
    (EQ, false, true, false),
    (NE, true, false, true),
    (LT, true, false, false),
    (LE, true, true, false),
    (GT, false, false, true),
    (GE, false, true, true),
];

// By a guard, by its opposite, and by a choice.
fn compares(order: Node, a: i32, b: i32, expected: bool) -> Result<(), Fail> {
    let nodes = [order, num(a), num(b)];
    let guard = Expression(&nodes);
    check_eq(&Ranges::verdict(&nodes, &[]), &Ok(expected), &guard)?;
    check_eq(
        &Ranges::verdict(&[NOT, order, read(0), read(1)], &[a, b]),
        &Ok(!expected),
        &guard,
    )?;
    check_eq(
        &Ranges::value(&[IF, order, read(0), read(1), THREE, FOUR], &[a, b]),
        &Ok(if expected { 3 } else { 4 }),
        &guard,
    )
}

#[test]
fn comparisons() -> Result<(), Fail> {
    for &(order, rising, equal, falling) in &COMPARISONS {
        compares(order, -1, 0, rising)?;
        compares(order, MOST - 1, MOST, rising)?;
        compares(order, LEAST, MOST, rising)?;
        compares(order, 0, 0, equal)?;
        compares(order, LEAST, LEAST, equal)?;
        compares(order, MOST, MOST, equal)?;
        compares(order, 0, -1, falling)?;
        compares(order, MOST, LEAST, falling)?;
    }
    Ok(())
}

// Guards and their verdicts on the row 7, -7. `EQ, ONE, ONE` is yes, and `EQ, ONE, TWO` is no.
static VERDICTS: [(&[Node], Result<bool, Reason>); 30] = [
    (&[EQ, ADD, FIRST, SECOND, ZERO], Ok(true)),
    (&[LT, SECOND, FIRST], Ok(true)),
    (&[LT, MINUS_ONE, ZERO], Ok(true)),
    (&[LT, BYTE, MINUS_ONE, ZERO], Ok(false)),
    (&[AND, EQ, ONE, ONE, EQ, ONE, ONE], Ok(true)),
    (&[AND, EQ, ONE, ONE, EQ, ONE, TWO], Ok(false)),
    (&[AND, EQ, ONE, TWO, EQ, ONE, ONE], Ok(false)),
    (&[AND, EQ, ONE, TWO, EQ, ONE, TWO], Ok(false)),
    (&[OR, EQ, ONE, ONE, EQ, ONE, ONE], Ok(true)),
    (&[OR, EQ, ONE, ONE, EQ, ONE, TWO], Ok(true)),
    (&[OR, EQ, ONE, TWO, EQ, ONE, ONE], Ok(true)),
    (&[OR, EQ, ONE, TWO, EQ, ONE, TWO], Ok(false)),
    (&[NOT, EQ, ONE, ONE], Ok(false)),
    (&[NOT, NOT, EQ, ONE, ONE], Ok(true)),
    // a reason in the second part, where the first would decide and where it would not
    (&[AND, EQ, ONE, TWO, EQ, DIV, ONE, ZERO, ONE], Err(BY_ZERO)),
    (&[AND, EQ, ONE, ONE, EQ, DIV, ONE, ZERO, ONE], Err(BY_ZERO)),
    (&[OR, EQ, ONE, ONE, EQ, DIV, ONE, ZERO, ONE], Err(BY_ZERO)),
    (&[OR, EQ, ONE, TWO, EQ, DIV, ONE, ZERO, ONE], Err(BY_ZERO)),
    (&[AND, EQ, ONE, TWO, LT, ONE, ADD, MAX, ONE], Err(OUTSIDE)),
    (&[OR, EQ, ONE, ONE, LT, ONE, ADD, MAX, ONE], Err(OUTSIDE)),
    // a reason in the first part
    (&[AND, EQ, DIV, ONE, ZERO, ONE, EQ, ONE, TWO], Err(BY_ZERO)),
    (&[OR, EQ, DIV, ONE, ZERO, ONE, EQ, ONE, ONE], Err(BY_ZERO)),
    (&[NOT, EQ, DIV, ONE, ZERO, ONE], Err(BY_ZERO)),
    // two different reasons
    (&[EQ, DIV, ONE, ZERO, ADD, MAX, ONE], Err(BY_ZERO)),
    (&[NE, ADD, MAX, ONE, DIV, ONE, ZERO], Err(OUTSIDE)),
    (
        &[AND, EQ, DIV, ONE, ZERO, ONE, EQ, ADD, MAX, ONE, ONE],
        Err(BY_ZERO),
    ),
    (
        &[AND, EQ, ADD, MAX, ONE, ONE, EQ, DIV, ONE, ZERO, ONE],
        Err(OUTSIDE),
    ),
    (
        &[OR, EQ, DIV, ONE, ZERO, ONE, EQ, ADD, MAX, ONE, ONE],
        Err(BY_ZERO),
    ),
    (
        &[OR, EQ, ADD, MAX, ONE, ONE, EQ, DIV, ONE, ZERO, ONE],
        Err(OUTSIDE),
    ),
    (
        &[EQ, ONE, IF, LT, ONE, TWO, ONE, DIV, ONE, ZERO],
        Err(BY_ZERO),
    ),
];

#[test]
fn verdicts_have_no_short_cut(rt: HostRuntime) {
    for &(nodes, expected) in &VERDICTS {
        assert_eq!(rt;
            Ranges::verdict(nodes, &[7, -7]),
            expected,
            "{}",
            Expression(nodes)
        );
    }
}

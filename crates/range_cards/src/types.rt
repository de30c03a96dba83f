// The ranges of range expressions, at the ends of the word range and where there is none.
use crate::nodes::*;
use guest::Guest;
use ranges::Ranges;
use std::test::Fail;
use tables::Node;

const WORDS: Ends = (LEAST, MOST);

// An operation, the ranges of its operands, and its range, if it has one.
static ARITHMETIC: [(Node, Ends, Ends, Option<Ends>); 66] = [
    (ADD, (1, 3), (1, 1), Some((2, 4))),
    (ADD, (1, 3), (-1, 8), Some((0, 11))),
    (
        ADD,
        (1, 3),
        (2_147_483_644, 2_147_483_644),
        Some((2_147_483_645, MOST)),
    ),
    (ADD, (1, 3), (2_147_483_645, 2_147_483_645), None),
    (
        ADD,
        (-2_147_483_646, -2_147_483_646),
        (-2, 0),
        Some((LEAST, -2_147_483_646)),
    ),
    (ADD, (-2_147_483_647, -2_147_483_647), (-2, 0), None),
    (ADD, WORDS, (0, 0), Some(WORDS)),
    (ADD, WORDS, (1, 1), None),
    (ADD, WORDS, (-1, -1), None),
    (ADD, (MOST, MOST), (1, 1), None),
    (ADD, (LEAST, LEAST), (MOST, MOST), Some((-1, -1))),
    (SUB, (1, 3), (-1, 8), Some((-7, 4))),
    (SUB, (1, 3), (1, 3), Some((-2, 2))),
    (SUB, (LEAST, LEAST), (-2, 0), Some((LEAST, -2_147_483_646))),
    (SUB, (LEAST, LEAST), (0, 2), None),
    (
        SUB,
        (-2_147_483_646, -2_147_483_646),
        (0, 2),
        Some((LEAST, -2_147_483_646)),
    ),
    (SUB, (-2_147_483_647, -2_147_483_647), (0, 2), None),
    (
        SUB,
        (2_147_483_645, 2_147_483_645),
        (-2, 0),
        Some((2_147_483_645, MOST)),
    ),
    (SUB, (2_147_483_646, 2_147_483_646), (-2, 0), None),
    (SUB, WORDS, (0, 0), Some(WORDS)),
    (SUB, WORDS, (1, 1), None),
    (SUB, (-1, -1), WORDS, Some(WORDS)),
    (SUB, (0, 0), WORDS, None),
    (SUB, (LEAST, LEAST), (1, 1), None),
    (MUL, (1, 3), (-1, 8), Some((-3, 24))),
    (MUL, (-1, 8), (-1, 8), Some((-8, 64))),
    (MUL, (-2, 0), (-2, 0), Some((0, 4))),
    (MUL, (-2, 0), (0, 2), Some((-4, 0))),
    (MUL, (65_536, 65_536), (32_768, 32_768), None),
    (
        MUL,
        (-65_536, -65_536),
        (32_768, 32_768),
        Some((LEAST, LEAST)),
    ),
    (MUL, (LEAST, LEAST), (-1, -1), None),
    (MUL, (46_341, 46_341), (46_341, 46_341), None),
    (
        MUL,
        (46_340, 46_340),
        (46_340, 46_340),
        Some((2_147_395_600, 2_147_395_600)),
    ),
    (
        MUL,
        (1_073_741_824, 1_073_741_824),
        (-2, 0),
        Some((LEAST, 0)),
    ),
    (MUL, (1_073_741_824, 1_073_741_824), (0, 2), None),
    (
        MUL,
        (1_073_741_823, 1_073_741_823),
        (0, 2),
        Some((0, 2_147_483_646)),
    ),
    (
        MUL,
        (-1_073_741_824, -1_073_741_824),
        (0, 2),
        Some((LEAST, 0)),
    ),
    (MUL, (-1_073_741_824, -1_073_741_824), (-2, 0), None),
    (MUL, (-1_073_741_825, -1_073_741_825), (0, 2), None),
    (MUL, WORDS, (1, 1), Some(WORDS)),
    (MUL, WORDS, (-1, -1), None),
    (MUL, WORDS, (0, 0), Some((0, 0))),
    (MUL, WORDS, WORDS, None),
    (DIV, (-7, -7), (2, 2), Some((-3, -3))),
    (DIV, (7, 7), (-2, -2), Some((-3, -3))),
    (DIV, (-1, 8), (2, 2), Some((0, 4))),
    (DIV, (-1, 8), (-2, -2), Some((-4, 0))),
    (DIV, (-1, 8), (1, 3), Some((-1, 8))),
    (DIV, (12, 12), (1, 3), Some((4, 12))),
    (DIV, (LEAST, LEAST), (-1, -1), None),
    (DIV, WORDS, (-1, -1), None),
    (
        DIV,
        (-2_147_483_647, MOST),
        (-1, -1),
        Some((-2_147_483_647, MOST)),
    ),
    (DIV, WORDS, (1, 1), Some(WORDS)),
    (DIV, WORDS, (-2, -2), Some((-1_073_741_823, 1_073_741_824))),
    (DIV, (LEAST, LEAST), (-2, -1), None),
    (
        DIV,
        (-2_147_483_647, -2_147_483_647),
        (-2, -1),
        Some((1_073_741_823, MOST)),
    ),
    // divisors that may be 0, and that just may not
    (DIV, (7, 7), (0, 0), None),
    (DIV, (0, 0), (0, 0), None),
    (DIV, (7, 7), (0, 2), None),
    (DIV, (7, 7), (-2, 0), None),
    (DIV, (7, 7), (-1, 8), None),
    (DIV, (7, 7), WORDS, None),
    (DIV, (7, 7), (1, 3), Some((2, 7))),
    (DIV, (7, 7), (-2, -1), Some((-7, -3))),
    (DIV, WORDS, (1, MOST), Some(WORDS)),
    (DIV, WORDS, (0, MOST), None),
];

// An operand of a range: a constant where the range has one number.
fn operand(place: i32, of: Ends) -> Node {
    if of.0 == of.1 { num(of.0) } else { read(place) }
}

#[test]
fn arithmetic(rt: HostRuntime) -> Result<(), Fail> {
    for &(operation, a, b, expected) in &ARITHMETIC {
        let types = [span(a.0, a.1)?, span(b.0, b.1)?];
        let from_row = [operation, read(0), read(1)];
        let with_constants = [operation, operand(0, a), operand(1, b)];
        let code = operation.code;
        assert_eq!(rt;
            ends(Ranges::typed(&from_row, &types)),
            expected,
            "code {code} on {a:?} and {b:?}"
        );
        assert_eq!(rt;
            ends(Ranges::typed(&with_constants, &types)),
            expected,
            "code {code} on {a:?} and {b:?}"
        );
    }
    Ok(())
}

// Expressions, and their ranges under the row 1..3, 0..2, word range. `LT, ONE, ZERO` is never yes.
static EXPRESSIONS: [(&[Node], Option<Ends>); 37] = [
    (&[THREE], Some((3, 3))),
    (&[MIN], Some((LEAST, LEAST))),
    (&[MAX], Some((MOST, MOST))),
    (&[FIRST], Some((1, 3))),
    (&[SECOND], Some((0, 2))),
    (&[THIRD], Some(WORDS)),
    // a part leaves the word range, though the whole would not
    (&[SUB, ADD, MAX, ONE, ONE], None),
    (&[BYTE, THREE], Some((0, 255))),
    (&[BYTE, THIRD], Some((0, 255))),
    (&[BYTE, BYTE, FIRST], Some((0, 255))),
    (&[ADD, BYTE, FIRST, ONE], Some((1, 256))),
    (&[BYTE, ADD, MAX, ONE], None),
    (&[BYTE, DIV, ONE, SECOND], None),
    (&[DIV, ONE, BYTE, ONE], None),
    (&[DIV, THREE, ADD, BYTE, ONE, ONE], Some((0, 3))),
    // from the lesser lo to the greater hi
    (&[IF, EQ, FIRST, ONE, FOUR, MINUS_ONE], Some((-1, 4))),
    (&[IF, LT, ONE, ZERO, ONE, FOUR], Some((1, 4))),
    (&[IF, LT, ONE, ZERO, FIRST, SECOND], Some((0, 3))),
    (&[IF, LT, ONE, ZERO, SECOND, FIRST], Some((0, 3))),
    (&[IF, LT, ONE, ZERO, FIRST, TWO], Some((1, 3))),
    (&[IF, LT, ONE, ZERO, TWO, FIRST], Some((1, 3))),
    (&[IF, LT, ONE, ZERO, FIRST, THIRD], Some(WORDS)),
    (&[IF, LT, ONE, ZERO, MAX, MIN], Some(WORDS)),
    (&[IF, NOT, LT, THIRD, ZERO, THREE, THREE], Some((3, 3))),
    (
        &[IF, AND, LT, ONE, TWO, LT, ONE, TWO, ONE, TWO],
        Some((1, 2)),
    ),
    (
        &[IF, OR, LT, ONE, TWO, LT, ONE, TWO, ONE, TWO],
        Some((1, 2)),
    ),
    // a branch without a type
    (&[IF, LT, ZERO, ONE, ONE, DIV, ONE, ZERO], None),
    (&[IF, LT, ONE, ZERO, ADD, MAX, ONE, ONE], None),
    // a condition with a part without a type
    (&[IF, EQ, DIV, ONE, ZERO, ONE, ONE, TWO], None),
    (&[IF, EQ, ONE, DIV, ONE, ZERO, ONE, TWO], None),
    (&[IF, LT, ADD, THIRD, ONE, ZERO, ONE, TWO], None),
    (&[IF, NOT, LT, ADD, MAX, ONE, ZERO, ONE, TWO], None),
    (
        &[IF, AND, LT, ONE, ZERO, LT, ONE, DIV, ONE, ZERO, ONE, TWO],
        None,
    ),
    (
        &[IF, AND, LT, ONE, DIV, ONE, ZERO, LT, ONE, ZERO, ONE, TWO],
        None,
    ),
    (
        &[IF, OR, LT, ZERO, ONE, LT, ONE, DIV, ONE, ZERO, ONE, TWO],
        None,
    ),
    (
        &[IF, OR, LT, ONE, DIV, ONE, ZERO, LT, ZERO, ONE, ONE, TWO],
        None,
    ),
    (
        &[IF, LT, ONE, IF, LT, ONE, DIV, ONE, ZERO, ONE, TWO, ONE, TWO],
        None,
    ),
];

#[test]
fn choices_and_bytes(rt: HostRuntime) -> Result<(), Fail> {
    let types = [span(1, 3)?, span(0, 2)?, span(LEAST, MOST)?];
    for &(nodes, expected) in &EXPRESSIONS {
        assert_eq!(rt;
            ends(Ranges::typed(nodes, &types)),
            expected,
            "{}",
            Expression(nodes)
        );
    }
    Ok(())
}

#[test]
fn next_gear(rt: HostRuntime) -> Result<(), Fail> {
    let mut types = [span(1, 3)?];
    let next = [ADD, FIRST, ONE];
    assert_eq!(rt; ends(Ranges::typed(&next, &types)), Some((2, 4)));
    assert_eq!(rt; Ranges::narrow(&[LT, FIRST, THREE], &mut types), Ok(()));
    assert_eq!(rt; ends(Ranges::typed(&next, &types)), Some((2, 3)));
    Ok(())
}

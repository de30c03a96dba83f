// What a guard's yes leaves of a row of ranges.
use crate::nodes::*;
use guest::{Guest, NarrowRefusal};
use ranges::Ranges;
use std::test::Fail;
use tables::Node;

// Narrows three values of one range by a guard. The second then has the range that is left, or is as it was where the
// guard is refused, and the others are as they were.
fn leaves(nodes: &[Node], before: Ends, left: Result<Ends, NarrowRefusal>) -> Result<(), Fail> {
    let guard = Expression(nodes);
    let mut types = [span(before.0, before.1)?; 3];
    let (lo, hi) = before;
    check_eq(
        &Ranges::narrow(nodes, &mut types),
        &left.map(|_| ()),
        &format_args!("{guard} on {lo} to {hi}"),
    )?;
    check_eq(&ends(Some(types[0])), &Some(before), &guard)?;
    check_eq(&ends(Some(types[1])), &Some(left.unwrap_or(before)), &guard)?;
    check_eq(&ends(Some(types[2])), &Some(before), &guard)
}

const WORDS: Ends = (LEAST, MOST);

// A comparison with a constant, a range, and what is left of it. None is never.
static CUTS: [(Node, i32, Ends, Option<Ends>); 92] = [
    (EQ, 0, (1, 8), None),
    (EQ, 1, (1, 8), Some((1, 1))),
    (EQ, 5, (1, 8), Some((5, 5))),
    (EQ, 8, (1, 8), Some((8, 8))),
    (EQ, 9, (1, 8), None),
    (EQ, LEAST, (1, 8), None),
    (EQ, MOST, (1, 8), None),
    (EQ, LEAST, WORDS, Some((LEAST, LEAST))),
    (EQ, MOST, WORDS, Some((MOST, MOST))),
    (EQ, 3, (4, 4), None),
    (EQ, 4, (4, 4), Some((4, 4))),
    (EQ, 5, (4, 4), None),
    (NE, 0, (1, 8), Some((1, 8))),
    (NE, 1, (1, 8), Some((2, 8))),
    (NE, 2, (1, 8), Some((1, 8))),
    (NE, 5, (1, 8), Some((1, 8))),
    (NE, 7, (1, 8), Some((1, 8))),
    (NE, 8, (1, 8), Some((1, 7))),
    (NE, 9, (1, 8), Some((1, 8))),
    (NE, 4, (4, 5), Some((5, 5))),
    (NE, 5, (4, 5), Some((4, 4))),
    (NE, LEAST, WORDS, Some((-2_147_483_647, MOST))),
    (NE, MOST, WORDS, Some((LEAST, 2_147_483_646))),
    (NE, 3, (4, 4), Some((4, 4))),
    (NE, 4, (4, 4), None),
    (NE, 5, (4, 4), Some((4, 4))),
    (NE, LEAST, (LEAST, LEAST), None),
    (NE, MOST, (MOST, MOST), None),
    (LT, 0, (1, 8), None),
    (LT, 1, (1, 8), None),
    (LT, 2, (1, 8), Some((1, 1))),
    (LT, 5, (1, 8), Some((1, 4))),
    (LT, 8, (1, 8), Some((1, 7))),
    (LT, 9, (1, 8), Some((1, 8))),
    (LT, 10, (1, 8), Some((1, 8))),
    (LT, LEAST, (1, 8), None),
    (LT, MOST, (1, 8), Some((1, 8))),
    (LT, LEAST, WORDS, None),
    (LT, -2_147_483_647, WORDS, Some((LEAST, LEAST))),
    (LT, MOST, WORDS, Some((LEAST, 2_147_483_646))),
    (LT, LEAST, (LEAST, LEAST), None),
    (LT, MOST, (MOST, MOST), None),
    (LT, 3, (4, 4), None),
    (LT, 4, (4, 4), None),
    (LT, 5, (4, 4), Some((4, 4))),
    (LE, 0, (1, 8), None),
    (LE, 1, (1, 8), Some((1, 1))),
    (LE, 5, (1, 8), Some((1, 5))),
    (LE, 7, (1, 8), Some((1, 7))),
    (LE, 8, (1, 8), Some((1, 8))),
    (LE, 9, (1, 8), Some((1, 8))),
    (LE, LEAST, (1, 8), None),
    (LE, MOST, (1, 8), Some((1, 8))),
    (LE, LEAST, WORDS, Some((LEAST, LEAST))),
    (LE, 2_147_483_646, WORDS, Some((LEAST, 2_147_483_646))),
    (LE, MOST, WORDS, Some(WORDS)),
    (LE, 3, (4, 4), None),
    (LE, 4, (4, 4), Some((4, 4))),
    (LE, 5, (4, 4), Some((4, 4))),
    (GT, -1, (1, 8), Some((1, 8))),
    (GT, 0, (1, 8), Some((1, 8))),
    (GT, 1, (1, 8), Some((2, 8))),
    (GT, 5, (1, 8), Some((6, 8))),
    (GT, 7, (1, 8), Some((8, 8))),
    (GT, 8, (1, 8), None),
    (GT, 9, (1, 8), None),
    (GT, LEAST, (1, 8), Some((1, 8))),
    (GT, MOST, (1, 8), None),
    (GT, MOST, WORDS, None),
    (GT, 2_147_483_646, WORDS, Some((MOST, MOST))),
    (GT, LEAST, WORDS, Some((-2_147_483_647, MOST))),
    (GT, LEAST, (LEAST, LEAST), None),
    (GT, MOST, (MOST, MOST), None),
    (GT, 3, (4, 4), Some((4, 4))),
    (GT, 4, (4, 4), None),
    (GT, 5, (4, 4), None),
    (GE, 0, (1, 8), Some((1, 8))),
    (GE, 1, (1, 8), Some((1, 8))),
    (GE, 2, (1, 8), Some((2, 8))),
    (GE, 5, (1, 8), Some((5, 8))),
    (GE, 8, (1, 8), Some((8, 8))),
    (GE, 9, (1, 8), None),
    (GE, LEAST, (1, 8), Some((1, 8))),
    (GE, MOST, (1, 8), None),
    (GE, MOST, WORDS, Some((MOST, MOST))),
    (GE, -2_147_483_647, WORDS, Some((-2_147_483_647, MOST))),
    (GE, LEAST, WORDS, Some(WORDS)),
    (GE, 3, (4, 4), Some((4, 4))),
    (GE, 4, (4, 4), Some((4, 4))),
    (GE, 5, (4, 4), None),
    (GE, 1, (-8, -1), None),
    (LE, -1, (-8, 8), Some((-8, -1))),
];

#[test]
fn comparisons_with_a_constant() -> Result<(), Fail> {
    for &(order, constant, before, after) in &CUTS {
        let nodes = [order, SECOND, num(constant)];
        leaves(&nodes, before, after.ok_or(NarrowRefusal::Never))?;
        // a constant on the left does not narrow
        let turned = [order, num(constant), SECOND];
        leaves(&turned, before, Ok(before))?;
    }
    Ok(())
}

// Typed guards that are not comparison, read, constant. Some of them are never yes.
static OTHER_GUARDS: [&[Node]; 22] = [
    &[LT, ONE, TWO],
    &[LT, TWO, ONE],
    &[EQ, ONE, TWO],
    &[LT, SECOND, FIRST],
    &[LT, FIRST, SECOND],
    &[LT, SECOND, SECOND],
    &[EQ, SECOND, SECOND],
    &[NE, SECOND, THIRD],
    &[NOT, LT, SECOND, THREE],
    &[NOT, GE, SECOND, THREE],
    &[NOT, NOT, LT, SECOND, THREE],
    &[NOT, GT, SECOND, ZERO],
    &[AND, LT, SECOND, THREE, LT, SECOND, THREE],
    &[AND, LT, SECOND, THREE, GT, SECOND, THREE],
    &[OR, LT, SECOND, THREE, LT, SECOND, THREE],
    &[LT, ADD, SECOND, ZERO, THREE],
    &[LT, SECOND, ADD, THREE, ZERO],
    &[LT, BYTE, SECOND, THREE],
    &[LT, SECOND, BYTE, THREE],
    &[EQ, MUL, SECOND, ONE, THREE],
    &[LT, IF, LT, ONE, TWO, SECOND, SECOND, THREE],
    &[EQ, BYTE, SECOND, MINUS_ONE],
];

// Nodes of a bad shape, or with a part without a type.
static NO_GUARDS: [&[Node]; 24] = [
    &[],
    &[SECOND],
    &[LT, SECOND],
    &[LT, SECOND, THREE, THREE],
    &[LT, SECOND, LT],
    &[ADD, SECOND, THREE],
    &[BYTE, BYTE, SECOND],
    &[NOT, SECOND, THREE],
    &[AND, SECOND, THREE],
    &[IF, SECOND, THREE],
    &[
        LT,
        Node {
            code: 0,
            argument: 3,
        },
        THREE,
    ],
    &[
        LT,
        Node {
            code: 0,
            argument: -1,
        },
        THREE,
    ],
    &[
        Node {
            code: 18,
            argument: 1,
        },
        SECOND,
        THREE,
    ],
    &[
        Node {
            code: 15,
            argument: 0,
        },
        SECOND,
        THREE,
    ],
    &[
        Node {
            code: 25,
            argument: 0,
        },
        SECOND,
        THREE,
    ],
    &[LT, DIV, SECOND, ZERO, THREE],
    &[LT, SECOND, DIV, ONE, ZERO],
    &[LT, SECOND, ADD, MAX, SECOND],
    &[NOT, LT, SECOND, DIV, ONE, BYTE, ONE],
    &[AND, LT, SECOND, THREE, EQ, ADD, MAX, ONE, ONE],
    &[AND, EQ, DIV, ONE, ZERO, ONE, LT, SECOND, THREE],
    &[OR, LT, SECOND, THREE, EQ, ADD, MAX, ONE, ONE],
    &[OR, EQ, DIV, ONE, ZERO, ONE, LT, SECOND, THREE],
    &[EQ, ONE, IF, LT, ONE, DIV, ONE, ZERO, ONE, TWO],
];

#[test]
fn other_guards_and_no_guards() -> Result<(), Fail> {
    for &nodes in &OTHER_GUARDS {
        leaves(nodes, (1, 8), Ok((1, 8)))?;
    }
    for &nodes in &NO_GUARDS {
        leaves(nodes, (1, 8), Err(NarrowRefusal::NoGuard))?;
    }
    Ok(())
}

// The first and the last value of a row, and a row without values.
#[test]
fn only_the_value_that_is_read(rt: HostRuntime) -> Result<(), Fail> {
    let mut types = [span(5, 6)?, span(1, 8)?, span(-1, 1)?];
    assert_eq!(rt; Ranges::narrow(&[LT, FIRST, num(6)], &mut types), Ok(()));
    assert_eq!(rt; Ranges::narrow(&[GT, THIRD, ZERO], &mut types), Ok(()));
    assert_eq!(rt; ends(Some(types[0])), Some((5, 5)));
    assert_eq!(rt; ends(Some(types[1])), Some((1, 8)));
    assert_eq!(rt; ends(Some(types[2])), Some((1, 1)));
    assert_eq!(rt; Ranges::narrow(&[LT, ONE, TWO], &mut []), Ok(()));
    assert_eq!(rt;
        Ranges::narrow(&[LT, FIRST, TWO], &mut []),
        Err(NarrowRefusal::NoGuard)
    );
    Ok(())
}

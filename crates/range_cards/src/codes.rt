// Ranges and their numbers: what a value's codes name, what a code stands for, and which numbers and ranges a range holds.
use crate::nodes::*;
use guest::Guest;
use ranges::Ranges;
use std::test::Fail;

// Two codes, and whether they name a range.
static MADE: [(i32, i32, bool); 16] = [
    (-32_768, 32_767, true),
    (-32_768, -32_768, true),
    (32_767, 32_767, true),
    (0, 0, true),
    (1, 3, true),
    (-32_769, 0, false),
    (-32_769, -32_769, false),
    (0, 32_768, false),
    (32_768, 32_768, false),
    (0, -1, false),
    (3, 2, false),
    (32_767, -32_768, false),
    (LEAST, MOST, false),
    (LEAST, 0, false),
    (0, MOST, false),
    (MOST, LEAST, false),
];

#[test]
fn made_ranges(rt: HostRuntime) {
    for &(a, b, named) in &MADE {
        let expected = named.then_some((a, b));
        assert_eq!(rt; ends(Ranges::make(a, b)), expected, "make {a} {b}");
    }
}

// A range's ends, a number, and whether the range holds it.
static HELD: [(i32, i32, i32, bool); 18] = [
    (1, 3, 0, false),
    (1, 3, 1, true),
    (1, 3, 2, true),
    (1, 3, 3, true),
    (1, 3, 4, false),
    (1, 3, -1, false),
    (1, 3, LEAST, false),
    (1, 3, MOST, false),
    (4, 4, 3, false),
    (4, 4, 4, true),
    (4, 4, 5, false),
    (LEAST, MOST, LEAST, true),
    (LEAST, MOST, MOST, true),
    (-2_147_483_647, 2_147_483_646, LEAST, false),
    (-2_147_483_647, 2_147_483_646, MOST, false),
    (-8, -2, -8, true),
    (-8, -2, -1, false),
    (0, 255, 256, false),
];

// A number is its own code.
#[test]
fn held_numbers(rt: HostRuntime) -> Result<(), Fail> {
    for &(lo, hi, number, holds) in &HELD {
        let range = span(lo, hi)?;
        assert_eq!(rt; Ranges::holds(range, number), holds, "{}", number);
        let expected = holds.then_some(number);
        assert_eq!(rt; Ranges::decode(range, number), expected, "{}", number);
        assert_eq!(rt; Ranges::encode(number), number);
    }
    Ok(())
}

// A range's ends, and its number nearest 0.
static RESTS: [(i32, i32, i32); 12] = [
    (1, 3, 1),
    (-1, 8, 0),
    (0, 5, 0),
    (-5, 0, 0),
    (0, 0, 0),
    (-8, -2, -2),
    (-1, -1, -1),
    (LEAST, MOST, 0),
    (LEAST, -1, -1),
    (1, MOST, 1),
    (LEAST, LEAST, LEAST),
    (MOST, MOST, MOST),
];

// Two ranges, and whether the first is within the second.
static WITHIN: [(Ends, Ends, bool); 17] = [
    ((1, 3), (1, 3), true),
    ((1, 3), (0, 4), true),
    ((1, 3), (1, 4), true),
    ((1, 3), (0, 3), true),
    ((1, 3), (2, 3), false),
    ((1, 3), (1, 2), false),
    ((1, 3), (2, 4), false),
    ((1, 3), (0, 2), false),
    ((1, 3), (2, 2), false),
    ((1, 3), (4, 6), false),
    ((1, 3), (-3, 0), false),
    ((LEAST, MOST), (LEAST, MOST), true),
    ((LEAST, MOST), (-2_147_483_647, MOST), false),
    ((LEAST, MOST), (LEAST, 2_147_483_646), false),
    ((LEAST, LEAST), (LEAST, MOST), true),
    ((MOST, MOST), (LEAST, MOST), true),
    ((LEAST, LEAST), (MOST, MOST), false),
];

#[test]
fn rests_and_ranges_within(rt: HostRuntime) -> Result<(), Fail> {
    for &(lo, hi, expected) in &RESTS {
        assert_eq!(rt; Ranges::rest(span(lo, hi)?), expected, "{lo} to {hi}");
    }
    for &(inner, outer, expected) in &WITHIN {
        assert_eq!(rt;
            Ranges::within(span(inner.0, inner.1)?, span(outer.0, outer.1)?),
            expected,
            "{inner:?} in {outer:?}"
        );
    }
    Ok(())
}

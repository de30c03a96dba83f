// Nodes that are no range expression of the wanted sort, and expressions of many nodes.
use crate::nodes::*;
use guest::{Guest, NarrowRefusal, Reason};
use ranges::Ranges;
use std::test::Fail;
use tables::Node;

// As a right side the nodes have neither a value nor a type.
fn no_number(nodes: &[Node]) -> Result<(), Fail> {
    let asked = Expression(nodes);
    check_eq(
        &Ranges::value(nodes, &[7, -7]),
        &Err(Reason::BadShape),
        &asked,
    )?;
    let types = [span(1, 9)?, span(-9, -1)?];
    check_eq(&ends(Ranges::typed(nodes, &types)), &None, &asked)
}

// As a guard the nodes have no verdict and narrow nothing.
fn no_truth(nodes: &[Node]) -> Result<(), Fail> {
    let asked = Expression(nodes);
    check_eq(
        &Ranges::verdict(nodes, &[7, -7]),
        &Err(Reason::BadShape),
        &asked,
    )?;
    let mut types = [span(1, 9)?, span(-9, -1)?];
    check_eq(
        &Ranges::narrow(nodes, &mut types),
        &Err(NarrowRefusal::NoGuard),
        &asked,
    )?;
    check_eq(&ends(Some(types[0])), &Some((1, 9)), &asked)?;
    check_eq(&ends(Some(types[1])), &Some((-9, -1)), &asked)
}

fn no_expressions(all: &[&[Node]]) -> Result<(), Fail> {
    for nodes in all {
        no_number(nodes)?;
        no_truth(nodes)?;
    }
    Ok(())
}

static MISSING: [&[Node]; 16] = [
    &[],
    &[ADD],
    &[ADD, ONE],
    &[DIV, FIRST],
    &[MUL, SUB, ONE, TWO],
    &[BYTE],
    &[BYTE, BYTE],
    &[IF],
    &[IF, EQ, ONE, ONE],
    &[IF, EQ, ONE, ONE, ONE],
    &[EQ],
    &[LT, FIRST],
    &[NOT],
    &[NOT, GT, ONE],
    &[AND],
    &[OR, EQ, ONE, ONE],
];

static LEFT_OVER: [&[Node]; 11] = [
    &[ONE, TWO],
    &[FIRST, SECOND],
    &[ONE, ADD],
    &[ADD, ONE, TWO, THREE],
    &[BYTE, ONE, TWO],
    &[IF, EQ, ONE, ONE, ONE, TWO, THREE],
    &[EQ, ONE, ONE, ONE],
    &[NOT, EQ, ONE, ONE, EQ],
    &[EQ, ONE, ONE, EQ, ONE, ONE],
    &[AND, EQ, ONE, ONE, EQ, ONE, ONE, ONE],
    &[OR, EQ, ONE, ONE, EQ, ONE, ONE, EQ, ONE, ONE],
];

// A truth where a number must stand, or the reverse.
static WRONG_SORT: [&[Node]; 32] = [
    &[ADD, EQ, ONE, ONE, ONE],
    &[ADD, ONE, EQ, ONE, ONE],
    &[SUB, EQ, ONE, ONE, ONE],
    &[SUB, ONE, EQ, ONE, ONE],
    &[MUL, EQ, ONE, ONE, ONE],
    &[MUL, ONE, EQ, ONE, ONE],
    &[DIV, EQ, ONE, ONE, ONE],
    &[DIV, ONE, EQ, ONE, ONE],
    &[BYTE, EQ, ONE, ONE],
    &[IF, ONE, ONE, TWO],
    &[IF, EQ, ONE, ONE, EQ, ONE, ONE, TWO],
    &[IF, EQ, ONE, ONE, ONE, EQ, ONE, ONE],
    &[EQ, EQ, ONE, ONE, ONE],
    &[EQ, ONE, EQ, ONE, ONE],
    &[NE, EQ, ONE, ONE, ONE],
    &[NE, ONE, EQ, ONE, ONE],
    &[LT, EQ, ONE, ONE, ONE],
    &[LT, ONE, EQ, ONE, ONE],
    &[LE, EQ, ONE, ONE, ONE],
    &[LE, ONE, EQ, ONE, ONE],
    &[GT, EQ, ONE, ONE, ONE],
    &[GT, ONE, EQ, ONE, ONE],
    &[GE, EQ, ONE, ONE, ONE],
    &[GE, ONE, EQ, ONE, ONE],
    &[NOT, ONE],
    &[NOT, ADD, ONE, TWO],
    &[AND, ONE, EQ, ONE, ONE],
    &[AND, EQ, ONE, ONE, ONE],
    &[AND, ONE, ONE],
    &[OR, ONE, EQ, ONE, ONE],
    &[OR, EQ, ONE, ONE, ONE],
    &[OR, ONE, ONE],
];

// The row has two values, so there is no third. A part to the left has another reason.
static AFTER_A_REASON: [&[Node]; 12] = [
    &[ADD, DIV, ONE, ZERO],
    &[DIV, ONE, ZERO, ZERO],
    &[ADD, DIV, ONE, ZERO, THIRD],
    &[ADD, DIV, ONE, ZERO, NOT],
    &[ADD, ADD, MAX, ONE, THIRD],
    &[ADD, ADD, MAX, ONE],
    &[IF, EQ, DIV, ONE, ZERO, ONE, ONE, THIRD],
    &[EQ, DIV, ONE, ZERO, THIRD],
    &[AND, EQ, DIV, ONE, ZERO, ONE, ONE],
    &[AND, EQ, DIV, ONE, ZERO, ONE, EQ, ONE, THIRD],
    &[OR, EQ, ADD, MAX, ONE, ONE],
    &[NOT, EQ, DIV, ONE, ZERO, ONE, ONE],
];

#[test]
fn bad_shapes() -> Result<(), Fail> {
    no_expressions(&MISSING)?;
    no_expressions(&LEFT_OVER)?;
    no_expressions(&WRONG_SORT)?;
    no_expressions(&AFTER_A_REASON)
}

// Right sides that are no guard, and their values on the row 7, -7.
static NUMBERS: [(&[Node], i32); 9] = [
    (&[ONE], 1),
    (&[FIRST], 7),
    (&[SECOND], -7),
    (&[ADD, ONE, TWO], 3),
    (&[SUB, ONE, TWO], -1),
    (&[MUL, TWO, TWO], 4),
    (&[DIV, FOUR, TWO], 2),
    (&[IF, EQ, ONE, ONE, ONE, TWO], 1),
    (&[BYTE, MINUS_ONE], 255),
];

// Guards that are no right side, and their verdicts.
static TRUTHS: [(&[Node], bool); 9] = [
    (&[EQ, ONE, TWO], false),
    (&[NE, ONE, TWO], true),
    (&[LT, ONE, TWO], true),
    (&[LE, ONE, TWO], true),
    (&[GT, ONE, TWO], false),
    (&[GE, ONE, TWO], false),
    (&[NOT, EQ, ONE, TWO], true),
    (&[AND, LT, ONE, TWO, EQ, ONE, TWO], false),
    (&[OR, LT, ONE, TWO, EQ, ONE, TWO], true),
];

fn number(nodes: &[Node], expected: i32) -> Result<(), Fail> {
    check_eq(
        &Ranges::value(nodes, &[7, -7]),
        &Ok(expected),
        &Expression(nodes),
    )?;
    no_truth(nodes)
}

fn truth(nodes: &[Node], expected: bool) -> Result<(), Fail> {
    check_eq(
        &Ranges::verdict(nodes, &[7, -7]),
        &Ok(expected),
        &Expression(nodes),
    )?;
    no_number(nodes)
}

#[test]
fn one_sort_is_not_the_other() -> Result<(), Fail> {
    for &(nodes, expected) in &NUMBERS {
        number(nodes, expected)?;
    }
    for &(nodes, expected) in &TRUTHS {
        truth(nodes, expected)?;
    }
    Ok(())
}

// A node that stands for nothing, with operands of every sort that an operation may have, and as an operand.
fn stands_for_nothing(node: Node) -> Result<(), Fail> {
    let all: [&[Node]; 11] = [
        &[node],
        &[node, ONE],
        &[node, ONE, ONE],
        &[node, EQ, ONE, ONE],
        &[node, EQ, ONE, ONE, EQ, ONE, ONE],
        &[node, EQ, ONE, ONE, ONE, ONE],
        &[ADD, ONE, node],
        &[LT, node, ONE],
        &[IF, LT, ONE, TWO, ONE, node],
        &[OR, LT, ONE, TWO, LT, node, ONE],
        &[NOT, node, ONE, ONE],
    ];
    no_expressions(&all)
}

static OPERATIONS: [u8; 15] = [2, 3, 4, 5, 8, 9, 16, 17, 18, 19, 20, 21, 22, 23, 24];

static UNKNOWN: [u8; 17] = [
    6, 7, 10, 11, 12, 13, 14, 15, 25, 26, 31, 32, 127, 128, 129, 254, 255,
];

#[test]
fn nodes_that_stand_for_nothing() -> Result<(), Fail> {
    for &code in &OPERATIONS {
        for argument in [1, -1, 256, LEAST, MOST] {
            stands_for_nothing(Node { code, argument })?;
        }
    }
    for &code in &UNKNOWN {
        for argument in [0, 1] {
            stands_for_nothing(Node { code, argument })?;
        }
    }
    // reads beyond the row
    for argument in [2, 3, 128, MOST, -1, -2, LEAST] {
        stands_for_nothing(Node { code: 0, argument })?;
    }
    Ok(())
}

#[test]
fn empty_row(rt: HostRuntime) {
    assert_eq!(rt; Ranges::value(&[read(0)], &[]), Err(Reason::BadShape));
    assert_eq!(rt; ends(Ranges::typed(&[read(0)], &[])), None);
    assert_eq!(rt; Ranges::value(&[num(5)], &[]), Ok(5));
    assert_eq!(rt;
        Ranges::verdict(&[EQ, read(0), num(0)], &[]),
        Err(Reason::BadShape)
    );
    assert_eq!(rt; Ranges::verdict(&[EQ, num(0), num(0)], &[]), Ok(true));
}

#[test]
fn many_nots(rt: HostRuntime) -> Result<(), Fail> {
    let mut even = [NOT; 43];
    even[40] = LT;
    even[41] = SECOND;
    even[42] = ZERO;
    truth(&even, true)?;
    let mut odd = [NOT; 44];
    odd[41] = LT;
    odd[42] = SECOND;
    odd[43] = ZERO;
    truth(&odd, false)?;
    let mut types = [span(1, 9)?, span(-9, 9)?];
    assert_eq!(rt; Ranges::narrow(&odd, &mut types), Ok(()));
    assert_eq!(rt; ends(Some(types[1])), Some((-9, 9)));
    no_expressions(&[&[NOT; 33]])
}

// 16 sums, each the first term of the one before.
static SUMS_ON_THE_LEFT: [Node; 33] = [
    ADD, ADD, ADD, ADD, ADD, ADD, ADD, ADD, ADD, ADD, ADD, ADD, ADD, ADD, ADD, ADD, ONE, ONE, ONE,
    ONE, ONE, ONE, ONE, ONE, ONE, ONE, ONE, ONE, ONE, ONE, ONE, ONE, ONE,
];

// 17 sums, each the second term of the one before.
static SUMS_ON_THE_RIGHT: [Node; 35] = [
    ADD, TWO, ADD, TWO, ADD, TWO, ADD, TWO, ADD, TWO, ADD, TWO, ADD, TWO, ADD, TWO, ADD, TWO, ADD,
    TWO, ADD, TWO, ADD, TWO, ADD, TWO, ADD, TWO, ADD, TWO, ADD, TWO, ADD, TWO, SECOND,
];

#[test]
fn many_terms(rt: HostRuntime) -> Result<(), Fail> {
    number(&SUMS_ON_THE_LEFT, 17)?;
    assert_eq!(rt; ends(Ranges::typed(&SUMS_ON_THE_LEFT, &[])), Some((17, 17)));
    number(&SUMS_ON_THE_RIGHT, 27)?;
    let mut last_leaves_the_word = SUMS_ON_THE_LEFT;
    last_leaves_the_word[32] = MAX;
    assert_eq!(rt;
        Ranges::value(&last_leaves_the_word, &[]),
        Err(Reason::OutsideWord)
    );
    assert_eq!(rt; ends(Ranges::typed(&last_leaves_the_word, &[])), None);
    let mut bytes = [BYTE; 100];
    bytes[99] = MINUS_ONE;
    number(&bytes, 255)
}

// Nodes and ranges in words.
use crate::nodes::*;
use ranges::Ranges;
use std::test::Fail;
use tables::Node;

// A node, and the word for what it stands for; a read has its place.
static WORDS: [(Node, &str); 18] = [
    (ADD, "add"),
    (SUB, "subtract"),
    (MUL, "multiply"),
    (DIV, "divide"),
    (IF, "choose"),
    (BYTE, "byte"),
    (EQ, "equal"),
    (NE, "not-equal"),
    (LT, "less"),
    (LE, "less-or-equal"),
    (GT, "greater"),
    (GE, "greater-or-equal"),
    (NOT, "not"),
    (AND, "and"),
    (OR, "or"),
    (MINUS_ONE, "-1"),
    (FOUR, "4"),
    (SECOND, "1"),
];

#[test]
fn words_of_nodes(rt: HostRuntime) -> Result<(), Fail> {
    for &(node, word) in &WORDS {
        let Some(head) = Ranges::head(node) else {
            return Err(Fail::new("the node stands for nothing"));
        };
        let shown = format!(in rt.alloc(); "{head}")?;
        assert_eq!(rt; shown.as_str(), word);
    }
    Ok(())
}

#[test]
fn words_of_ranges(rt: HostRuntime) -> Result<(), Fail> {
    let lever = span(-1, 8)?;
    let words = span(LEAST, MOST)?;
    let shown = format!(in rt.alloc(); "{lever}, {words}")?;
    assert_eq!(rt; shown.as_str(), "-1..8, -2147483648..2147483647");
    Ok(())
}

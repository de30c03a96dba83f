// The nodes of range expressions, ranges by their ends, and how the range tests show an expression that fails them.
use guest::Guest;
use intervals::Range;
use ranges::Ranges;
use std::fmt;
use std::test::Fail;
use tables::Node;

// The ends of the word range.
pub(crate) const LEAST: i32 = -2_147_483_648;

pub(crate) const MOST: i32 = 2_147_483_647;

// The operations, by the short names of assembly languages; IF is choose.
pub(crate) const ADD: Node = Node {
    code: 2,
    argument: 0,
};

pub(crate) const SUB: Node = Node {
    code: 3,
    argument: 0,
};

pub(crate) const MUL: Node = Node {
    code: 4,
    argument: 0,
};

pub(crate) const DIV: Node = Node {
    code: 5,
    argument: 0,
};

pub(crate) const IF: Node = Node {
    code: 8,
    argument: 0,
};

pub(crate) const BYTE: Node = Node {
    code: 9,
    argument: 0,
};

pub(crate) const EQ: Node = Node {
    code: 16,
    argument: 0,
};

pub(crate) const NE: Node = Node {
    code: 17,
    argument: 0,
};

pub(crate) const LT: Node = Node {
    code: 18,
    argument: 0,
};

pub(crate) const LE: Node = Node {
    code: 19,
    argument: 0,
};

pub(crate) const GT: Node = Node {
    code: 20,
    argument: 0,
};

pub(crate) const GE: Node = Node {
    code: 21,
    argument: 0,
};

pub(crate) const NOT: Node = Node {
    code: 22,
    argument: 0,
};

pub(crate) const AND: Node = Node {
    code: 23,
    argument: 0,
};

pub(crate) const OR: Node = Node {
    code: 24,
    argument: 0,
};

// Constants, for tables.
pub(crate) const MINUS_ONE: Node = Node {
    code: 1,
    argument: -1,
};

pub(crate) const ZERO: Node = Node {
    code: 1,
    argument: 0,
};

pub(crate) const ONE: Node = Node {
    code: 1,
    argument: 1,
};

pub(crate) const TWO: Node = Node {
    code: 1,
    argument: 2,
};

pub(crate) const THREE: Node = Node {
    code: 1,
    argument: 3,
};

pub(crate) const FOUR: Node = Node {
    code: 1,
    argument: 4,
};

pub(crate) const MIN: Node = Node {
    code: 1,
    argument: LEAST,
};

pub(crate) const MAX: Node = Node {
    code: 1,
    argument: MOST,
};

// Reads, for tables.
pub(crate) const FIRST: Node = Node {
    code: 0,
    argument: 0,
};

pub(crate) const SECOND: Node = Node {
    code: 0,
    argument: 1,
};

pub(crate) const THIRD: Node = Node {
    code: 0,
    argument: 2,
};

pub(crate) fn num(constant: i32) -> Node {
    Node {
        code: 1,
        argument: constant,
    }
}

pub(crate) fn read(place: i32) -> Node {
    Node {
        code: 0,
        argument: place,
    }
}

// The first and the last number of a range.
pub(crate) type Ends = (i32, i32);

// The range from `lo` to `hi`, which may be as wide as the word range.
pub(crate) fn span(lo: i32, hi: i32) -> Result<Range, Fail> {
    let either = [IF, EQ, ZERO, ZERO, num(lo), num(hi)];
    let Some(range) = Ranges::typed(&either, &[]) else {
        return Err(Fail::new("no range"));
    };
    check_eq(&(range.lo, range.hi), &(lo, hi), &Expression(&either))?;
    Ok(range)
}

pub(crate) fn ends(of: Option<Range>) -> Option<Ends> {
    of.map(|range| (range.lo, range.hi))
}

// An expression, shown as the code and the argument of each node.
#[derive(Clone, Copy)]
pub(crate) struct Expression<'a>(pub(crate) &'a [Node]);

impl fmt::Display for Expression<'_> {
    fn fmt<W: fmt::Write>(&self, f: &mut fmt::Formatter<W>) -> fmt::Result {
        f.write_str("nodes")?;
        for node in self.0 {
            let code = node.code;
            let argument = node.argument;
            write!(f, " {code}:{argument}")?;
        }
        Ok(())
    }
}

// Fails unless an answer is the expected one, and then shows both and what was asked.
pub(crate) fn check_eq<T: PartialEq + fmt::Debug, W: fmt::Display>(
    answer: &T,
    expected: &T,
    asked: &W,
) -> Result<(), Fail> {
    if answer == expected {
        return Ok(());
    }
    Err(Fail::new(format_args!("{asked}: {answer:?} in place of {expected:?}")))
}

// Stretches and the tables that they lie in.
ghost use Rattle.std.specs.Prelude.{◌≡◌};
ghost use Rattle.tables.specs.Load.{ends_in, expression, part};

use crate::rows::Stretch;

// The most nodes of an expression.
const MOST_EXPRESSION: u16 = 32;

impl Stretch {
    // The stretch of no records that stands where there is none to name.
    pub const NONE: Stretch = Stretch { first: 0, count: 0 };

    // The records of the stretch, as far as the table has them.
    pub fn part<'a, T>(&self, table: &'a [T]) -> &'a [T]
        ensures { result.now ≡ part self.now table.now }
    {
        let first = usize::from(self.first).min(table.len());
        let rest = &table[first..];
        &rest[..usize::from(self.count).min(rest.len())]
    }

    pub(crate) fn ends_in(&self, len: usize) -> bool
        ensures { result ≡ ends_in self.now len }
    {
        usize::from(self.first) + usize::from(self.count) <= len
    }

    // Whether an expression can have as many nodes.
    pub(crate) fn is_expression(&self) -> bool
        ensures { result ≡ expression self.now }
    {
        (1..=MOST_EXPRESSION).contains(&self.count)
    }
}

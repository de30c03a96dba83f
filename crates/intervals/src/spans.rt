// Ranges by their ends: the range between two of them, and what a range holds.
ghost use Rattle.std.specs.Prelude.{◌≡◌};
ghost use Rattle.intervals.specs.Range.{range as range_of, held, inside};

use crate::range::Range;

impl Range {
    // The range from `lo` to `hi`, or none where that is empty or leaves the word range.
    pub fn spanning(lo: i64, hi: i64) -> Option<Range>
        ensures { result ≡ range_of lo hi }
    {
        let lo = i32::try_from(lo).ok()?;
        let hi = i32::try_from(hi).ok()?;
        if lo <= hi {
            Some(Range { lo, hi })
        } else {
            None
        }
    }

    pub fn holds(self, number: i32) -> bool
        ensures { result ≡ held self number }
    {
        (self.lo..=self.hi).contains(&number)
    }

    // Whether the other range holds every number of this one.
    pub fn is_within(self, outer: Range) -> bool
        ensures { result ≡ inside self outer }
    {
        outer.lo <= self.lo && self.hi <= outer.hi
    }
}

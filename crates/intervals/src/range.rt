// The types of the range guest.
ghost use Rattle.std.specs.Prelude.{◌≡◌, true};
ghost use Rattle.intervals.specs.Word.{proper};

// The numbers from `lo` to `hi`. It is never empty and never leaves the word range.
#[derive(Clone, Copy, PartialEq, Eq, Debug)]
pub struct Range {
    pub lo: i32,
    pub hi: i32,
    ghost ends: { proper lo hi ≡ true },
}

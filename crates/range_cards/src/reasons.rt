// Reasons and narrowings by their numbers, and reasons in words.
use guest::{NarrowRefusal, Reason, narrowing_number};
use std::test::Fail;

#[test]
fn numbers_and_words(rt: HostRuntime) -> Result<(), Fail> {
    let shape = Reason::BadShape;
    let divisor = Reason::DivisorZero;
    let outside = Reason::OutsideWord;
    assert_eq!(rt;
        (shape.number(), divisor.number(), outside.number()),
        (1, 2, 3)
    );
    let words = format!(in rt.alloc(); "{shape}, {divisor}, {outside}")?;
    assert_eq!(rt;
        words.as_str(),
        "bad shape, divisor 0, part outside the word range"
    );
    let none = NarrowRefusal::NoGuard;
    let never = NarrowRefusal::Never;
    let words = format!(in rt.alloc(); "{none}, {never}")?;
    assert_eq!(rt; words.as_str(), "no guard, never yes");
    assert_eq!(rt;
        (
            narrowing_number(Ok(())),
            NarrowRefusal::NoGuard.number(),
            NarrowRefusal::Never.number(),
        ),
        (0, 7, 9)
    );
    Ok(())
}

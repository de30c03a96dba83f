// Kinds of records in words, and what is said of a record that stands for nothing.
use std::test::Fail;
use tables::{EventKind, EventRow, Value, ValueKind, ValueRow};

#[test]
fn words_of_kinds(rt: HostRuntime) -> Result<(), Fail> {
    let input = ValueKind::Input;
    let output = ValueKind::Output;
    let shared = ValueKind::Shared;
    let local = ValueKind::Local { owner: 1 };
    let values = format!(in rt.alloc(); "{input}, {output}, {shared}, {local}")?;
    assert_eq!(rt;
        values.as_str(),
        "input, output, shared, local of automaton 1"
    );
    let input = EventKind::Input;
    let output = EventKind::Output;
    let shared = EventKind::Shared;
    let events = format!(in rt.alloc(); "{input}, {output}, {shared}")?;
    assert_eq!(rt; events.as_str(), "input, output, shared");
    Ok(())
}

// A local keeps its owner, also one that is no automaton; another kind has none.
#[test]
fn records_from_rows(rt: HostRuntime) -> Result<(), Fail> {
    let row = ValueRow {
        kind: 3,
        owner: 65535,
        a: -1,
        b: 8,
    };
    let local = Value {
        kind: ValueKind::Local { owner: 65535 },
        a: -1,
        b: 8,
    };
    assert_eq!(rt; Value::try_from(row), Ok(local));
    let owned = ValueRow { kind: 2, ..row };
    let Err(why) = Value::try_from(owned) else {
        return Err(Fail::new("a shared value has an owner"));
    };
    let words = format!(in rt.alloc(); "{why}")?;
    assert_eq!(rt; words.as_str(), "a field leaves its limits");
    assert_eq!(rt;
        EventKind::try_from(EventRow { kind: 2 }),
        Ok(EventKind::Shared)
    );
    assert_eq!(rt; EventKind::try_from(EventRow { kind: 3 }), Err(why));
    Ok(())
}

// What a sheet holds after a load, and after a refused one.
use crate::base::*;
use sheet::{Action, Sheet, Transition, Value, ValueKind};
use tables::{LoadRefusal, Stretch, TransitionRow};

#[test]
fn begins_empty(rt: HostRuntime) {
    let sheet = Sheet::empty(rt.alloc());
    assert!(rt;
        sheet.values().is_empty()
            && sheet.events().is_empty()
            && sheet.automata().is_empty()
            && sheet.turns().is_empty()
    );
    assert!(rt;
        sheet.transitions().is_empty()
            && sheet.guards().is_empty()
            && sheet.actions().is_empty()
            && sheet.nodes().is_empty()
    );
}

// That a sheet holds the base tables, as far as these questions go.
fn holds_base(sheet: &Sheet) -> bool {
    let local = Value {
        kind: ValueKind::Local { owner: 0 },
        a: 0,
        b: 9,
    };
    let listed = Transition {
        source: 0,
        destination: 1,
        trigger: 0,
        urgent: false,
        guards: Stretch { first: 0, count: 1 },
        actions: Stretch { first: 0, count: 2 },
    };
    let assign = Action::Assign {
        value: 1,
        nodes: Stretch { first: 3, count: 1 },
    };
    sheet.values().first().map(|value| value.kind) == Some(ValueKind::Input)
        && sheet.values().get(1) == Some(&local)
        && sheet.actions().first() == Some(&assign)
        && sheet.actions().get(1) == Some(&Action::Emit { event: 1 })
        && sheet.transitions().first() == Some(&listed)
        && sheet.events().len() == 2
        && sheet.automata().len() == 1
        && sheet.turns().len() == 1
        && sheet.guards().len() == 1
        && sheet.nodes().len() == 4
}

#[test]
fn holds_what_was_lent(rt: HostRuntime) {
    let mut sheet = Sheet::empty(rt.alloc());
    assert_eq!(rt; sheet.load(rt.alloc(), &base()), Ok(()));
    assert!(rt; holds_base(&sheet));
}

#[test]
fn refused_load_changes_nothing(rt: HostRuntime) {
    let mut sheet = Sheet::empty(rt.alloc());
    assert_eq!(rt; sheet.load(rt.alloc(), &base()), Ok(()));
    assert_eq!(rt; sheet.load(rt.alloc(), &nothing().with_turns(&[])), Ok(()));
    assert!(rt; sheet.nodes().is_empty());
    assert_eq!(rt; sheet.load(rt.alloc(), &base()), Ok(()));
    assert_eq!(rt;
        sheet.load(rt.alloc(), &base().with_turns(&[1])),
        Err(LoadRefusal::Turns)
    );
    assert!(rt; holds_base(&sheet));
}

#[test]
fn later_load_replaces(rt: HostRuntime) {
    let mut sheet = Sheet::empty(rt.alloc());
    assert_eq!(rt; sheet.load(rt.alloc(), &base()), Ok(()));
    let transitions = [TransitionRow {
        urgent: 1,
        ..TRANSITIONS[0]
    }];
    assert_eq!(rt; sheet.load(rt.alloc(), &base().with(&transitions)), Ok(()));
    let urgent = sheet.transitions().first().map(|listed| listed.urgent);
    assert_eq!(rt; urgent, Some(true));
}

// Where two faults coincide, the one that is judged first decides. Each answer names the record.
use crate::base::*;
use tables::{
    Automaton, EventRow, Guard, LoadRefusal, Node, Stretch, Table, TransitionRow, ValueRow, judge,
};

#[test]
fn counts_before_records(rt: HostRuntime) {
    let values = [ValueRow {
        kind: 9,
        ..VALUES[0]
    }; 2];
    let events = [EVENTS[0]; 65];
    assert_eq!(rt;
        judge(&base().with(&values).with(&events)),
        Err(LoadRefusal::TooMany {
            table: Table::Events,
        })
    );
}

#[test]
fn counts_in_table_order(rt: HostRuntime) {
    let guards = [GUARDS[0]; 1025];
    let automata = [AUTOMATA[0]; 33];
    assert_eq!(rt;
        judge(&base().with(&automata).with(&guards)),
        Err(LoadRefusal::TooMany {
            table: Table::Automata,
        })
    );
}

#[test]
fn limits_before_indices(rt: HostRuntime) {
    let transitions = [TransitionRow {
        trigger: 9,
        urgent: 9,
        ..TRANSITIONS[0]
    }];
    assert_eq!(rt;
        judge(&base().with(&transitions)),
        Err(LoadRefusal::Limit {
            table: Table::Transitions,
            row: 0,
        })
    );
}

#[test]
fn records_in_their_order(rt: HostRuntime) {
    let transitions = [
        TRANSITIONS[0],
        TransitionRow {
            trigger: 9,
            ..TRANSITIONS[0]
        },
        TransitionRow {
            urgent: 9,
            ..TRANSITIONS[0]
        },
    ];
    assert_eq!(rt;
        judge(&base().with(&transitions)),
        Err(LoadRefusal::Outside {
            table: Table::Transitions,
            row: 1,
        })
    );
}

#[test]
fn tables_in_their_order(rt: HostRuntime) {
    let values = [ValueRow {
        owner: 5,
        ..VALUES[1]
    }];
    let events = [EventRow { kind: 3 }];
    assert_eq!(rt;
        judge(&base().with(&values).with(&events)),
        Err(LoadRefusal::Outside {
            table: Table::Values,
            row: 0,
        })
    );
}

#[test]
fn records_before_states(rt: HostRuntime) {
    let automata = [Automaton {
        initial: 2,
        ..AUTOMATA[0]
    }];
    let nodes = [
        NODES[0],
        NODES[1],
        NODES[2],
        Node {
            code: 0,
            argument: 2,
        },
    ];
    assert_eq!(rt;
        judge(&base().with(&automata).with(&nodes)),
        Err(LoadRefusal::Outside {
            table: Table::Nodes,
            row: 3,
        })
    );
}

#[test]
fn states_before_turns(rt: HostRuntime) {
    let one = Automaton {
        states: 1,
        initial: 0,
        ..AUTOMATA[0]
    };
    let automata = [AUTOMATA[0], one];
    let transitions = [TransitionRow {
        source: 1,
        destination: 0,
        ..TRANSITIONS[0]
    }];
    let tables = base().with(&automata).with(&transitions).with_turns(&[]);
    assert_eq!(rt;
        judge(&tables),
        Err(LoadRefusal::NoListedState {
            automaton: 1,
            transition: 0,
        })
    );
}

#[test]
fn automata_in_their_order(rt: HostRuntime) {
    // The listed transition of automaton 0 comes before the initial state of automaton 1.
    let automata = [
        Automaton {
            states: 1,
            initial: 0,
            ..AUTOMATA[0]
        },
        Automaton {
            initial: 2,
            ..AUTOMATA[0]
        },
    ];
    assert_eq!(rt;
        judge(&base().with(&automata)),
        Err(LoadRefusal::NoListedState {
            automaton: 0,
            transition: 0,
        })
    );
    let automata = [
        AUTOMATA[0],
        Automaton {
            initial: 2,
            ..AUTOMATA[0]
        },
    ];
    assert_eq!(rt;
        judge(&base().with(&automata)),
        Err(LoadRefusal::NoInitialState { automaton: 1 })
    );
}

#[test]
fn unlisted_records(rt: HostRuntime) {
    // States are asked of listed transitions alone, limits of every record.
    let transitions = [
        TRANSITIONS[0],
        TransitionRow {
            source: 31,
            destination: 31,
            ..TRANSITIONS[0]
        },
    ];
    assert_eq!(rt; judge(&base().with(&transitions)), Ok(()));
    let guards = [
        GUARDS[0],
        Guard {
            nodes: Stretch { first: 0, count: 0 },
        },
    ];
    assert_eq!(rt;
        judge(&base().with(&guards)),
        Err(LoadRefusal::Limit {
            table: Table::Guards,
            row: 1,
        })
    );
}

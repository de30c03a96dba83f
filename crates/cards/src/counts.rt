// Each table at the most records that it may have, and at one more.
use crate::base::*;
use std::alloc::{AllocError, Global};
use std::test::Fail;
use tables::{Automaton, LoadRefusal, Stretch, Table, TableRow, judge};

// What is answered on a table of so many copies of a record, and on one of one copy more. Each table has a test of its own
// that calls it, since the runner lists them by name.
fn at_most<R: TableRow>(
    heap: Global,
    one: R,
    most: usize,
) -> Result<[Result<(), LoadRefusal>; 2], AllocError> {
    let mut rows = vec![in heap; one; most]?;
    let full = judge(&base().with(&rows));
    rows.push(one)?;
    Ok([full, judge(&base().with(&rows))])
}

fn too_many(table: Table) -> [Result<(), LoadRefusal>; 2] {
    [Ok(()), Err(LoadRefusal::TooMany { table })]
}

#[test]
fn most_values(rt: HostRuntime) -> Result<(), Fail> {
    let answers = at_most(rt.alloc(), VALUES[1], 128)?;
    assert_eq!(rt; answers, too_many(Table::Values));
    Ok(())
}

#[test]
fn most_events(rt: HostRuntime) -> Result<(), Fail> {
    let answers = at_most(rt.alloc(), EVENTS[1], 64)?;
    assert_eq!(rt; answers, too_many(Table::Events));
    Ok(())
}

// Each automaton has a turn here too.
#[test]
fn most_automata(rt: HostRuntime) -> Result<(), Fail> {
    let one = Automaton {
        states: 1,
        initial: 0,
        actions: Stretch::NONE,
        transitions: Stretch::NONE,
    };
    let turns: Vec<u16> = (0..32).collect(rt.alloc())?;
    let full = judge(&base().with(&[one; 32]).with_turns(&turns));
    let turns: Vec<u16> = (0..33).collect(rt.alloc())?;
    let answers = [full, judge(&base().with(&[one; 33]).with_turns(&turns))];
    assert_eq!(rt; answers, too_many(Table::Automata));
    Ok(())
}

#[test]
fn most_transitions(rt: HostRuntime) -> Result<(), Fail> {
    let answers = at_most(rt.alloc(), TRANSITIONS[0], 512)?;
    assert_eq!(rt; answers, too_many(Table::Transitions));
    Ok(())
}

#[test]
fn most_guards(rt: HostRuntime) -> Result<(), Fail> {
    let answers = at_most(rt.alloc(), GUARDS[0], 1024)?;
    assert_eq!(rt; answers, too_many(Table::Guards));
    Ok(())
}

#[test]
fn most_actions(rt: HostRuntime) -> Result<(), Fail> {
    let answers = at_most(rt.alloc(), ACTIONS[0], 1024)?;
    assert_eq!(rt; answers, too_many(Table::Actions));
    Ok(())
}

#[test]
fn most_nodes(rt: HostRuntime) -> Result<(), Fail> {
    let answers = at_most(rt.alloc(), NODES[1], 8192)?;
    assert_eq!(rt; answers, too_many(Table::Nodes));
    Ok(())
}

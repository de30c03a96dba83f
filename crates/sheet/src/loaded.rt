// A loaded sheet.
ghost use Rattle.std.specs.Prelude.{◌≡◌, true};
ghost use Rattle.sheet.specs.Contents.{contents_of, written};
ghost use Rattle.tables.specs.Load.{accepts};

mod access;
mod load;

use tables::{Action, Automaton, EventKind, Guard, Node, Transition, Value};

// A sheet is the tables of one shift logic. It holds only tables that have passed the judgement of `load`,
// so every number in it lies inside its table, every listed transition goes between states of its automaton,
// and the turn list has each automaton once.
#[derive(Drop)]
pub struct Sheet {
    values: Vec<Value>,
    events: Vec<EventKind>,
    automata: Vec<Automaton>,
    turns: Vec<u16>,
    transitions: Vec<Transition>,
    guards: Vec<Guard>,
    actions: Vec<Action>,
    nodes: Vec<Node>,
    ghost allowed: { accepts (written (contents_of values.items events.items automata.items turns.items transitions.items guards.items actions.items nodes.items)) ≡ true },
}

// What a loaded sheet holds, table by table, with the facts by which a user indexes one table by another.
ghost use Rattle.std.specs.Prelude.{length};
ghost use Rattle.tables.specs.Allowed.{GuardAllowed, NodeAllowed};
ghost use Rattle.sheet.specs.Contents.{sizes};
ghost use Rattle.sheet.specs.Sheet.{contents};
ghost use Rattle.sheet.specs.Whole.{Handed, HandedTurns, ValueWhole, AutomatonWhole, TransitionWhole, ActionWhole};

use crate::loaded::Sheet;
use tables::{Action, Automaton, EventKind, Guard, Node, Transition, Value};

impl Sheet {
    pub fn values(&self) -> &[Value]
        ensures { Handed (ValueWhole (sizes (contents self.now))) 128 (contents self.now).values result.now }
    {
        self.values.as_slice()
    }

    pub fn events(&self) -> &[EventKind]
        ensures { Handed (λ _. Unit {0}) 64 (contents self.now).events result.now }
    {
        self.events.as_slice()
    }

    pub fn automata(&self) -> &[Automaton]
        ensures { Handed (AutomatonWhole (contents self.now)) 32 (contents self.now).automata result.now }
    {
        self.automata.as_slice()
    }

    // The turn list: the automata in the order in which they react.
    pub fn turns(&self) -> &[u16]
        ensures { HandedTurns (length (contents self.now).automata) (contents self.now).turns result.now }
    {
        self.turns.as_slice()
    }

    pub fn transitions(&self) -> &[Transition]
        ensures { Handed (TransitionWhole (sizes (contents self.now))) 512 (contents self.now).transitions result.now }
    {
        self.transitions.as_slice()
    }

    pub fn guards(&self) -> &[Guard]
        ensures { Handed (GuardAllowed (sizes (contents self.now))) 1024 (contents self.now).guards result.now }
    {
        self.guards.as_slice()
    }

    pub fn actions(&self) -> &[Action]
        ensures { Handed (ActionWhole (sizes (contents self.now))) 1024 (contents self.now).actions result.now }
    {
        self.actions.as_slice()
    }

    pub fn nodes(&self) -> &[Node]
        ensures { Handed (NodeAllowed (sizes (contents self.now))) 8192 (contents self.now).nodes result.now }
    {
        self.nodes.as_slice()
    }
}

// Why a sheet was not loaded.
ghost use Rattle.std.specs.Prelude.{◌≡◌};
ghost use Rattle.tables.specs.declared.refusal.LoadRefusal.TheVariants.{Memory};
ghost use Rattle.tables.specs.Answers.{refusal};

use std::alloc::AllocError;
use std::error::Error;
use std::fmt;

// The tables that have limits, in the order in which they are judged.
#[derive(Clone, Copy, PartialEq, Eq, Debug)]
pub enum Table {
    Values,
    Events,
    Automata,
    Transitions,
    Guards,
    Actions,
    Nodes,
}

#[derive(Clone, Copy, PartialEq, Eq, Debug)]
pub enum LoadRefusal {
    // There was no memory for the records.
    Memory,
    // A table has more records than it may.
    TooMany { table: Table },
    // A field of a record leaves its limits.
    Limit { table: Table, row: usize },
    // An index or a stretch of a record leaves the table that it names.
    Outside { table: Table, row: usize },
    // An automaton does not have its initial state.
    NoInitialState { automaton: usize },
    // An automaton does not have the source or the destination of a transition that it lists.
    NoListedState { automaton: usize, transition: usize },
    // The turn list does not have each automaton once.
    Turns,
}

impl From<AllocError> for LoadRefusal {
    ghost from_gives = { λ _ r. r ≡ Memory };

    fn from(_e: AllocError) -> LoadRefusal {
        LoadRefusal::Memory
    }
}

impl LoadRefusal {
    // The number by which bench staff know the refusal.
    pub fn number(&self) -> u8
        ensures { result ≡ (refusal self.now).number }
    {
        match self {
            LoadRefusal::Memory => 1,
            LoadRefusal::TooMany { .. } | LoadRefusal::Limit { .. } => 2,
            LoadRefusal::Outside { .. }
            | LoadRefusal::NoInitialState { .. }
            | LoadRefusal::NoListedState { .. } => 3,
            LoadRefusal::Turns => 4,
        }
    }
}

impl fmt::Display for Table {
    fn fmt<W: fmt::Write>(&self, f: &mut fmt::Formatter<W>) -> fmt::Result {
        let name = match self {
            Table::Values => "values",
            Table::Events => "events",
            Table::Automata => "automata",
            Table::Transitions => "transitions",
            Table::Guards => "guards",
            Table::Actions => "actions",
            Table::Nodes => "nodes",
        };
        f.write_str(name)
    }
}

impl fmt::Display for LoadRefusal {
    fn fmt<W: fmt::Write>(&self, f: &mut fmt::Formatter<W>) -> fmt::Result {
        match *self {
            LoadRefusal::Memory => f.write_str("there is no memory for the sheet"),
            LoadRefusal::TooMany { table } => write!(
                f,
                "a count leaves its limits: too many {table}"
            ),
            LoadRefusal::Limit { table, row } => write!(
                f,
                "a field leaves its limits: record {row} of the {table}"
            ),
            LoadRefusal::Outside { table, row } => write!(
                f,
                "an index or a stretch leaves its table: record {row} of the {table}"
            ),
            LoadRefusal::NoInitialState { automaton } => write!(
                f,
                "a state does not exist: the initial state of automaton {automaton}"
            ),
            LoadRefusal::NoListedState {
                automaton,
                transition,
            } => {
                write!(
                    f,
                    "a state does not exist: transition {transition}, listed by automaton {automaton}"
                )
            }
            LoadRefusal::Turns => f.write_str("the turns are not each automaton once"),
        }
    }
}

impl Error for LoadRefusal {}

// The judgement on lent tables, in its order: the first fault decides.
ghost use Rattle.std.specs.Prelude.{◌≡◌, ℕ, ◌+◌, ◌^◌, ◌<◌, ◌≤◌, ◌↔◌, false, length, replicate, IsTrue, MatchBool, nat_le};
ghost use Rattle.tables.specs.declared.refusal.LoadRefusal.TheVariants.{TooMany};
ghost use Rattle.tables.specs.Tables.{lent};
ghost use Rattle.tables.specs.Allowed.{Allowed, EachOnce};
ghost use Rattle.tables.specs.Each.{Follows};
ghost use Rattle.tables.specs.Noted.{Noted};
ghost use Rattle.tables.specs.Exact.{Exactly};
ghost use Rattle.tables.specs.Load.{Verdict, unless, records, record_verdict, counts, listed_verdict, states_verdict, each, turns_verdict, judged};

use crate::limits::{
    MOST_ACTIONS, MOST_AUTOMATA, MOST_EVENTS, MOST_GUARDS, MOST_NODES, MOST_TRANSITIONS,
    MOST_VALUES, Row,
};
use crate::refusal::{LoadRefusal, Table};
use crate::rows::{Automaton, Sizes, Tables, TransitionRow};

// Refuses unless the test is met.
fn require(met: bool, refusal: LoadRefusal) -> Result<(), LoadRefusal>
    ensures { result ≡ unless met refusal }
{
    if met { Ok(()) } else { Err(refusal) }
}

fn judge_count(table: Table, count: usize, most: usize) -> Result<(), LoadRefusal>
    ensures { result ≡ unless (nat_le count most) (TooMany table) }
{
    require(count <= most, LoadRefusal::TooMany { table })
}

fn judge_counts(sizes: &Sizes) -> Result<(), LoadRefusal>
    ensures { result ≡ counts sizes.now }
{
    judge_count(Table::Values, sizes.values, MOST_VALUES)?;
    judge_count(Table::Events, sizes.events, MOST_EVENTS)?;
    judge_count(Table::Automata, sizes.automata, MOST_AUTOMATA)?;
    judge_count(Table::Transitions, sizes.transitions, MOST_TRANSITIONS)?;
    judge_count(Table::Guards, sizes.guards, MOST_GUARDS)?;
    judge_count(Table::Actions, sizes.actions, MOST_ACTIONS)?;
    judge_count(Table::Nodes, sizes.nodes, MOST_NODES)
}

fn judge_record<R: Row>(
    table: Table,
    row: usize,
    record: R,
    sizes: &Sizes,
) -> Result<(), LoadRefusal>
    ensures { result ≡ record_verdict table (R.Row.limited «record») (R.Row.inside sizes.now «record») row }
{
    let typed = record
        .typed()
        .map_err(|_| LoadRefusal::Limit { table, row })?;
    require(
        R::lies_inside(typed, sizes),
        LoadRefusal::Outside { table, row },
    )
}

// Judges each item with its number, counted from `first`; the first refusal decides.
fn judge_each<T: Copy, F: Fn(usize, T) -> Result<(), LoadRefusal>>(
    first: usize,
    items: &[T],
    judge: F,
) -> Result<(), LoadRefusal>
    requires callable { F.IsAlwaysCallable judge }
    requires numbers { first + length items.now < 2 ^ 64 }
    ensures { (f : ℕ → T → Verdict) → Follows F.Fn judge f → result ≡ each f first items.now }
{
    for (k, item) in items.iter().enumerate() {
        judge(first + k, *item)?;
    }
    Ok(())
}

fn judge_records<R: Row>(table: Table, rows: &[R], sizes: &Sizes) -> Result<(), LoadRefusal>
    ensures { result ≡ records table R.Row.limited (R.Row.inside sizes.now) rows.now }
{
    judge_each(
        0,
        rows,
        |row, record| judge_record(table, row, record, sizes),
    )
}

fn judge_transition(
    automaton: usize,
    states: u16,
    transition: usize,
    row: TransitionRow,
) -> Result<(), LoadRefusal>
    ensures { result ≡ listed_verdict automaton states transition row }
{
    let exist = row.source < states && row.destination < states;
    require(
        exist,
        LoadRefusal::NoListedState {
            automaton,
            transition,
        },
    )
}

// The initial state of an automaton, then the states of the transitions that it lists.
fn judge_states(
    number: usize,
    automaton: Automaton,
    transitions: &[TransitionRow],
) -> Result<(), LoadRefusal>
    ensures { result ≡ states_verdict transitions.now number automaton }
{
    let states = automaton.states;
    require(
        automaton.initial < states,
        LoadRefusal::NoInitialState { automaton: number },
    )?;
    let stretch = automaton.transitions;
    judge_each(
        usize::from(stretch.first),
        stretch.part(transitions),
        |transition, row| judge_transition(number, states, transition, row),
    )
}

fn judge_automata(automata: &[Automaton], transitions: &[TransitionRow]) -> Result<(), LoadRefusal>
    ensures { result ≡ each (states_verdict transitions.now) 0 automata.now }
{
    judge_each(0, automata, |number, automaton| {
        judge_states(number, automaton, transitions)
    })
}

// Notes which automata have had a turn, a flag for each; false at a turn of no automaton or of one that has had it.
fn note_turns(turns: &[u16], seen: &mut [bool]) -> bool
    requires none_seen { seen.old ≡ replicate (length seen.old) false }
    ensures { MatchBool result (Noted (length seen.old) turns.now seen.new) (EachOnce (length seen.old) turns.now → ⊥) }
{
    for turn in turns {
        let a = usize::from(*turn);
        if a >= seen.len() || seen[a] {
            return false;
        }
        seen[a] = true;
    }
    true
}

fn each_once(turns: &[u16], automata: usize) -> bool
    requires { automata ≤ 32 }
    ensures { IsTrue result ↔ EachOnce automata turns.now }
{
    let mut flags = [false; MOST_AUTOMATA];
    let seen = &mut flags[..automata];
    note_turns(turns, seen) && seen.iter().all(|had| *had)
}

fn judge_turns(turns: &[u16], automata: usize) -> Result<(), LoadRefusal>
    requires { automata ≤ 32 }
    ensures { result ≡ turns_verdict automata turns.now }
{
    require(each_once(turns, automata), LoadRefusal::Turns)
}

fn judge_in_order(tables: &Tables) -> Result<(), LoadRefusal>
    ensures { result ≡ judged (lent tables.now) }
{
    let sizes = tables.sizes();
    judge_counts(&sizes)?;
    judge_records(Table::Values, tables.values, &sizes)?;
    judge_records(Table::Events, tables.events, &sizes)?;
    judge_records(Table::Automata, tables.automata, &sizes)?;
    judge_records(Table::Transitions, tables.transitions, &sizes)?;
    judge_records(Table::Guards, tables.guards, &sizes)?;
    judge_records(Table::Actions, tables.actions, &sizes)?;
    judge_records(Table::Nodes, tables.nodes, &sizes)?;
    judge_automata(tables.automata, tables.transitions)?;
    judge_turns(tables.turns, tables.automata.len())
}

// Judges lent tables: the counts, each record in table order, the states, the turn list. The first fault decides.
pub fn judge(tables: &Tables) -> Result<(), LoadRefusal>
    ensures verdict { result ≡ judged (lent tables.now) }
    ensures exact { Exactly result (Allowed (lent tables.now)) }
{
    judge_in_order(tables)
}

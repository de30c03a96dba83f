// Loading: the lent tables are judged first, then copied, and the sheet changes last. The allocator is a parameter of its
// own, beside the tables, as in every call of the library that allocates.
ghost use Rattle.std.specs.Prelude.{◌≡◌, IfOk};
ghost use Rattle.tables.specs.Tables.{lent};
ghost use Rattle.tables.specs.Allowed.{Allowed};
ghost use Rattle.sheet.specs.Contents.{written};
ghost use Rattle.sheet.specs.Sheet.{contents, nothing, Loads, Holds, Read};

use crate::loaded::Sheet;
use crate::records::typed_records;
use std::alloc::{AllocError, Global};
use tables::{LoadRefusal, Tables, judge};

impl Sheet {
    // A sheet with no records.
    pub fn empty(heap: Global) -> Sheet
        ensures { contents result ≡ nothing }
    {
        Sheet {
            values: Vec::new(heap),
            events: Vec::new(heap),
            automata: Vec::new(heap),
            turns: Vec::new(heap),
            transitions: Vec::new(heap),
            guards: Vec::new(heap),
            actions: Vec::new(heap),
            nodes: Vec::new(heap),
        }
    }

    // A new sheet with the records of allowed tables.
    fn copied(heap: Global, tables: &Tables) -> Result<Sheet, AllocError>
        requires { Allowed (lent tables.now) }
        ensures { IfOk result (λ s. written (contents s) ≡ lent tables.now) }
    {
        let values = typed_records(heap, tables.values)?;
        let events = typed_records(heap, tables.events)?;
        let automata = Vec::from_slice(heap, tables.automata)?;
        let turns = Vec::from_slice(heap, tables.turns)?;
        let transitions = typed_records(heap, tables.transitions)?;
        let guards = Vec::from_slice(heap, tables.guards)?;
        let actions = typed_records(heap, tables.actions)?;
        let nodes = Vec::from_slice(heap, tables.nodes)?;
        Ok(Sheet {
            values,
            events,
            automata,
            turns,
            transitions,
            guards,
            actions,
            nodes,
        })
    }

    // A new sheet with the records of the lent tables, if they are allowed.
    fn read(heap: Global, tables: &Tables) -> Result<Sheet, LoadRefusal>
        ensures { Read (lent tables.now) result }
    {
        judge(tables)?;
        Ok(Sheet::copied(heap, tables)?)
    }

    // Takes in the lent tables if they are allowed. A refusal leaves the sheet as it was.
    pub fn load(&mut self, heap: Global, tables: &Tables) -> Result<(), LoadRefusal>
        ensures answer { Loads (lent tables.now) result }
        ensures holds { Holds (lent tables.now) self.old self.new result }
    {
        let sheet = Sheet::read(heap, tables)?;
        *self = sheet;
        Ok(())
    }
}

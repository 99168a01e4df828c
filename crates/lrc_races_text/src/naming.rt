// Events by numbers: names in the order in which they are first named.
ghost use Rattle.std.specs.Prelude.{◌≡◌, [], IfErr, IfOk, OnOk};
ghost use Rattle.lrc_races_lines.specs.Line.{saying_of};
ghost use Rattle.lrc_races_lines.specs.Table.{names_of, IsNumbered};
ghost use Rattle.lrc_races_text.specs.declared.fault.Fault.TheVariants.{NoMemory};
ghost use Rattle.lrc_races_text.specs.Naming.{IsEvent, IsLocated, IsOperation, located};
ghost use Rattle.lrc_races_text.specs.Tables.{naming_of, Mentions, MentionsAll, MentionsTarget};

use crate::fault::Fault;
use lrc_races_lines::line::{Kind, Named};
use lrc_races_lines::table::Table;
use lrc_races_trace::event::{Event, Operation};
use std::alloc::Global;

/// The names of a trace, in one table for each kind.
#[derive(Drop)]
pub struct Names {
    /// The names of threads.
    pub threads: Table,
    /// The names of variables.
    pub variables: Table,
    /// The names of locks.
    pub locks: Table,
    /// The names of barriers.
    pub barriers: Table,
    /// The names of locations.
    pub locations: Table,
}

// The number of a name in its table.
fn number(table: &mut Table, name: &[u8]) -> Result<u32, Fault>
    ensures numbered { IfOk result (λ number. IsNumbered (names_of table.old) name.now
        (names_of table.new) number) }
    ensures memory { IfErr result (λ fault. fault ≡ NoMemory) }
{
    let number = table.number(name)?;
    match u32::try_from(number) {
        Ok(number) => Ok(number),
        Err(_) => Err(Fault::NoMemory),
    }
}

// The number of a location, where there is one.
fn place(table: &mut Table, location: &[u8]) -> Result<Option<u32>, Fault>
    ensures mentioned { OnOk result (Mentions (located location.now) (names_of table.old)
        (names_of table.new)) }
    ensures located { IfOk result (IsLocated (names_of table.new) location.now) }
    ensures memory { IfErr result (λ fault. fault ≡ NoMemory) }
{
    if location.is_empty() {
        return Ok(None);
    }
    Ok(Some(number(table, location)?))
}

impl Names {
    /// Creates empty tables.
    pub fn new(alloc: Global) -> Names
        ensures { naming_of result ≡ record
            { threads = []; variables = []; locks = []; barriers = []; locations = [] } }
    {
        Names {
            threads: Table::new(alloc),
            variables: Table::new(alloc),
            locks: Table::new(alloc),
            barriers: Table::new(alloc),
            locations: Table::new(alloc),
        }
    }

    // What the thread does, by the number of its target.
    fn operation(&mut self, kind: Kind, target: &[u8]) -> Result<Operation, Fault>
        ensures mentioned { OnOk result (MentionsTarget kind target.now (naming_of self.old)
            (naming_of self.new)) }
        ensures operation { IfOk result (λ operation.
            IsOperation (naming_of self.new) target.now kind operation) }
        ensures memory { IfErr result (λ fault. fault ≡ NoMemory) }
    {
        match kind {
            Kind::Read => Ok(Operation::Read(number(&mut self.variables, target)?)),
            Kind::Write => Ok(Operation::Write(number(&mut self.variables, target)?)),
            Kind::Acquire => Ok(Operation::Acquire(number(&mut self.locks, target)?)),
            Kind::Release => Ok(Operation::Release(number(&mut self.locks, target)?)),
            Kind::Post => Ok(Operation::Post(number(&mut self.locks, target)?)),
            Kind::Wait => Ok(Operation::Wait(number(&mut self.locks, target)?)),
            Kind::Fork => Ok(Operation::Fork(number(&mut self.threads, target)?)),
            Kind::Join => Ok(Operation::Join(number(&mut self.threads, target)?)),
            Kind::Arrive => Ok(Operation::Arrive(number(&mut self.barriers, target)?)),
            Kind::Depart => Ok(Operation::Depart(number(&mut self.barriers, target)?)),
            Kind::Idle => Ok(Operation::Idle),
        }
    }

    /// Returns the event that a line names. New names get the next numbers.
    pub fn event(&mut self, named: Named<'_>, line: u64) -> Result<Event, Fault>
        ensures mentioned { OnOk result (MentionsAll (saying_of named.entry) (naming_of self.old)
            (naming_of self.new)) }
        ensures event { IfOk result (IsEvent (naming_of self.new)
            (record { line = line; saying = saying_of named.entry })) }
        ensures memory { IfErr result (λ fault. fault ≡ NoMemory) }
    {
        let thread = number(&mut self.threads, named.thread)?;
        let operation = self.operation(named.kind, named.target)?;
        let location = place(&mut self.locations, named.location)?;
        Ok(Event {
            thread,
            operation,
            line,
            location,
        })
    }
}

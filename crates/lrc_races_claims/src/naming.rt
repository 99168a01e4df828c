// Finding names that a trace has.
ghost use Rattle.std.specs.Prelude.{◌≡◌, IfOk, OnOk, MatchOption};
ghost use Rattle.lrc_races_lines.specs.Table.{names_of};
ghost use Rattle.lrc_races_text.specs.Spelled.{name_at};
ghost use Rattle.lrc_races_claims.specs.Known.{IsUnknown, IsOnlyNumber, known_names};

use crate::known::KnownNames;
use lrc_races_lines::table::Table;
use std::alloc::AllocError;

impl KnownNames {
    /// Returns the names that are in a table.
    pub fn new(table: Table) -> KnownNames
        ensures { known_names result ≡ names_of table }
    {
        let known = table.count();
        KnownNames { table, known }
    }

    /// Returns the number of a name, if the trace has it. It fails if memory runs out.
    pub fn find(&mut self, name: &[u8]) -> Result<Option<usize>, AllocError>
        ensures found { IfOk result (λ found. MatchOption found
            (IsUnknown (known_names self.old) name.now)
            (IsOnlyNumber (known_names self.old) name.now)) }
        ensures kept { OnOk result (known_names self.new ≡ known_names self.old) }
    {
        let number = self.table.number(name)?;
        if number < self.known {
            return Ok(Some(number));
        }
        Ok(None)
    }

    /// Returns the name with this number, and no bytes if the trace has none.
    pub fn name(&self, number: usize) -> &[u8]
        ensures { result.now ≡ name_at (known_names self.now) number }
    {
        if number >= self.known {
            return &[];
        }
        match self.table.name(number) {
            Some(name) => name,
            None => &[],
        }
    }
}

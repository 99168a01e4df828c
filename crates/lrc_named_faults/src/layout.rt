// What is declared.

ghost use Rattle.std.specs.Prelude.{◌≡◌, None, OnOk, []};
ghost use Rattle.lrc_named_tree.specs.View.{named_of};
ghost use Rattle.lrc_named_names.specs.View.{declared_of, meaning_seen};
ghost use Rattle.lrc_named_constants.specs.Layout.{as_meaning};
ghost use Rattle.lrc_named_faults.specs.Layout.{IsLaidOut, IsOneMore};

use lrc_named_expression_faults::extent::Extent;
use lrc_named_names::names::{Declared, Meaning, Names};
use lrc_named_tree::tree::Name;
use std::alloc::{AllocError, Global};

/// What is declared so far.
#[derive(Drop)]
pub struct Layout<'n, 'p> {
    pub names: Names<'n, 'p>,
    /// What stands in the bodies of functions: at the place of each function among the names.
    pub extents: Vec<Extent>,
    /// How many words the shared items have.
    pub words: u32,
    /// How many locks there are.
    pub locks: u32,
    /// The number of nodes, where the text says it.
    pub nodes: Option<u64>,
}

impl<'n, 'p> Layout<'n, 'p> {
    // The layout in which nothing is declared.
    pub(crate) fn new(alloc: Global) -> Layout<'n, 'p>
        ensures laid_out { IsLaidOut result }
        ensures nothing { declared_of result.names ≡ [] }
        ensures uncounted { result.nodes ≡ None }
    {
        Layout {
            names: Names::new(alloc),
            extents: Vec::new(alloc),
            words: 0,
            locks: 0,
            nodes: None,
        }
    }

    // Declares a name, behind those that are declared.
    pub(crate) fn declare(
        &mut self,
        name: Name<'p>,
        meaning: Meaning<'n, 'p>,
        extent: Extent,
    ) -> Result<(), AllocError>
        ensures { OnOk result (IsOneMore self.old self.new
            (as_meaning (named_of name.entry) (meaning_seen meaning.entry)) extent) }
    {
        let declared = Declared {
            name: name.bytes,
            meaning,
        };
        self.extents.push(extent)?;
        self.names.declare(declared)?;
        Ok(())
    }
}

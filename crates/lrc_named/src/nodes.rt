// How many nodes a named program asks for.

ghost use Rattle.std.specs.Prelude.{◌≡◌, option_map};
ghost use Rattle.lrc_named_check.specs.Program.{IsClean};
ghost use Rattle.lrc_named_tree.specs.View.{program_of};

use lrc_named_faults::layout::Layout;
use lrc_named_tree::tree::NamedProgram;
use lrc_setting::setting::Nodes;

/// Returns how many nodes a program without a fault asks for, if it does, as its layout says.
pub fn nodes_asked(program: &NamedProgram<'_>, layout: &Layout<'_, '_>) -> Option<Nodes>
    requires { IsClean (program_of program.now) layout.now }
    ensures { option_map (λ nodes. nodes.count) result ≡ layout.now.nodes }
{
    // For the proof: of this program the layout is.
    let _declarations = &program.declarations;
    match layout.nodes {
        Some(count) => Some(Nodes {
            count: count as u32,
        }),
        None => None,
    }
}

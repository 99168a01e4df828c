// Where the number of indices or arguments goes wrong.

ghost use Rattle.std.specs.Prelude.{◌≡◌};
ghost use Rattle.lrc_named_tree.specs.View.{expressions_of};
ghost use Rattle.lrc_named_expression_faults.specs.Counts.{miscalled, miscounted};

use lrc_named_tree::tree::Expression;

/// Returns which token is the first that is wrong in the number of the indices behind a token, if that number is wrong.
pub fn miscounted(before: u32, indices: &[Expression<'_>], sizes: &[u32]) -> Option<u64>
    ensures { result ≡ miscounted before (expressions_of indices.now) sizes.now }
{
    let fitting = indices.len().min(sizes.len());
    if indices.len() == sizes.len() {
        None
    } else if fitting == 0 {
        Some(u64::from(before) + 1)
    } else {
        Some(u64::from(indices[fitting - 1].last()) + 2)
    }
}

/// Returns which token is the first that is wrong in the number of the arguments in front of a `)`, if that number is
/// wrong.
pub fn miscalled(close: u32, arguments: &[Expression<'_>], wanted: usize) -> Option<u64>
    ensures { result ≡ miscalled close (expressions_of arguments.now) wanted }
{
    let fitting = wanted.max(1);
    if arguments.len() == wanted {
        None
    } else if arguments.len() > fitting {
        Some(u64::from(arguments[fitting - 1].last()) + 1)
    } else {
        Some(u64::from(close))
    }
}

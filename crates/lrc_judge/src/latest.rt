// The later of positions, and what is written there.
ghost use Rattle.std.specs.Prelude.{◌≡◌, ℕ, ◌<◌, length};
ghost use Rattle.lrc_trace.specs.declared.act.Deed.TheVariants.{Write};
ghost use Rattle.lrc_trace.specs.Run.{Does};
ghost use Rattle.lrc_judge.specs.Latest.{later_of};

use lrc_trace::act::{Act, Deed};

/// Returns the greater of two positions, or the only one given, or none.
pub fn later_of(first: Option<usize>, second: Option<usize>) -> Option<usize>
    ensures { result ≡ later_of first second }
{
    match first {
        Some(i) => match second {
            Some(j) => Some(i.max(j)),
            None => Some(i),
        },
        None => second,
    }
}

/// Returns the value written at the position.
pub fn value_at(acts: &[Act], position: usize) -> u64
    requires { position < length acts.now }
    ensures { (node word value : ℕ) → Does acts.now position node (Write word value)
        → result ≡ value }
{
    match acts[position].deed {
        Deed::Write(_, value) => value,
        _ => 0,
    }
}

// Where chains go on.
ghost use Rattle.std.specs.Prelude.{◌≡◌, ◌+◌, ◌<◌, ◌^◌};
ghost use Rattle.std.specs.Option.{ForSome};
ghost use Rattle.lrc_chains.specs.Starts.{better, from_here};

/// A chain to some position: the number of its positions, and the one at which it begins.
#[derive(Clone, Copy)]
pub struct Start {
    /// The number of positions of the chain.
    pub size: usize,
    /// The first of them.
    pub position: usize,
}

/// Returns the start of the shorter chain; of two that are equally long, the earlier one.
pub fn better(first: Option<Start>, second: Option<Start>) -> Option<Start>
    ensures { result ≡ better first second }
{
    let Some(a) = first else {
        return second;
    };
    let Some(b) = second else {
        return first;
    };
    if b.size < a.size || (b.size == a.size && b.position < a.position) {
        second
    } else {
        first
    }
}

/// Returns the start of the chain that is longer by this position, or none if there is no chain.
pub fn from_here(next: Option<Start>, position: usize) -> Option<Start>
    requires { ForSome next (λ start. start.size + 1 < 2 ^ 64) }
    ensures { result ≡ from_here next position }
{
    match next {
        Some(start) => Some(Start {
            size: start.size + 1,
            position,
        }),
        None => None,
    }
}

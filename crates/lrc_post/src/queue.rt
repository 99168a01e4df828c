// The queue of what is in flight, and the steps on it and on the history.

ghost use Rattle.std.specs.Prelude.{◌≡◌, ◌+◌, ◌-◌, ◌≤◌, [], ◌∷◌, ◌++◌, IfOk, OnOk, IsSome, Some, length, replicate, slice_get, take, drop};
ghost use Rattle.std.specs.Vec.{vec_len, vec_capacity};
ghost use Rattle.std.specs.VecDeque.{deque_len, deque_capacity};
ghost use Rattle.lrc_post.specs.Wires.{IsPutFor, IsPutOf, given_next, times, without_next};

use crate::parcel::{Parcel, Wire};
use lrc_envelope::Picker;
use std::alloc::AllocError;
use std::collections::VecDeque;

/// Makes room for one more entry in the history, and for two more places in the queue.
pub(crate) fn make_room(
    history: &mut Vec<Wire>,
    flight: &mut VecDeque<usize>,
) -> Result<(), AllocError>
    ensures history { history.new.items ≡ history.old.items }
    ensures flight { flight.new.items ≡ flight.old.items }
    ensures entry { OnOk result (vec_len history.new + 1 ≤ vec_capacity history.new) }
    ensures places { OnOk result (deque_len flight.new + 2 ≤ deque_capacity flight.new) }
{
    history.reserve(1)?;
    flight.reserve(2)
}

/// Appends a place to the queue, as often as its parcel is to be given.
pub(crate) fn line_up(flight: &mut VecDeque<usize>, picker: Picker, place: usize)
    requires room { deque_len flight.old + 2 ≤ deque_capacity flight.old }
    ensures { flight.new.items ≡ flight.old.items ++ replicate (times picker) place }
{
    flight.push_back_reserved(place);
    if picker == Picker::Twice {
        flight.push_back_reserved(place);
    }
}

/// Returns the place of the parcel to give next, or none if no parcel is in flight.
pub(crate) fn next_place(flight: &VecDeque<usize>, picker: Picker) -> Option<usize>
    ensures { result ≡ given_next picker flight.now.items }
{
    match picker {
        Picker::Newest => flight.back().copied(),
        Picker::Oldest | Picker::Twice => flight.front().copied(),
    }
}

/// Removes the place of the parcel to give next from the queue.
pub(crate) fn drop_next(flight: &mut VecDeque<usize>, picker: Picker)
    ensures { flight.new.items ≡ without_next picker flight.old.items }
{
    let _ = match picker {
        Picker::Newest => flight.pop_back(),
        Picker::Oldest | Picker::Twice => flight.pop_front(),
    };
}

/// Returns the parcel that was put at a place of the history.
pub(crate) fn parcel_at(history: &[Wire], place: usize) -> Result<Parcel, AllocError>
    requires { (owner : _) × IsPutFor owner (slice_get history.now place) }
    ensures { IfOk result (λ parcel. IsPutOf (slice_get history.now place) parcel) }
{
    let Some(
        Wire::Put {
            to,
            stamp,
            bytes,
            ..
        },
    ) = history.get(place)
    else {
        unreachable!()
    };
    Ok(Parcel {
        to: *to,
        stamp: *stamp,
        bytes: bytes.clone()?,
    })
}

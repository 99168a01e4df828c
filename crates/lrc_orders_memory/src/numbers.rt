// Numbers of 32 bits.

ghost use Rattle.std.specs.Prelude.{◌≡◌, IfOk};

use std::alloc::AllocError;

/// A place as a number of 32 bits. For a place that does not fit there is no memory.
pub fn short(place: usize) -> Result<u32, AllocError>
    ensures { IfOk result (λ number. number ≡ place) }
{
    match u32::try_from(place) {
        Ok(number) => Ok(number),
        Err(_) => Err(AllocError),
    }
}

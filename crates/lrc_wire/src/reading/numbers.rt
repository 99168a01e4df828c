//! Reading numbers from the front of the remaining bytes.

ghost use Rattle.std.specs.Prelude.{◌≡◌};
ghost use Rattle.std.specs.Int.{w16, w32, w64};
ghost use Rattle.lrc_wire.specs.Reading.{Gives, byte_at, number_at};

use crate::fault::WireFault;
use bytes::Buf;

#[tactic(auto, unfolding(crate::specs::Reading::byte_at))]
pub(super) fn read_u8(bytes: &mut &[u8]) -> Result<u8, WireFault>
    ensures { Gives (λ n. (n, bytes.new.now)) result (byte_at bytes.old.now) }
{
    bytes.try_get_u8().map_err(|_| WireFault::Short)
}

#[tactic(auto, unfolding(crate::specs::Reading::number_at))]
pub(super) fn read_u16(bytes: &mut &[u8]) -> Result<u16, WireFault>
    ensures { Gives (λ n. (n, bytes.new.now)) result (number_at w16 bytes.old.now) }
{
    bytes.try_get_u16().map_err(|_| WireFault::Short)
}

#[tactic(auto, unfolding(crate::specs::Reading::number_at))]
pub(super) fn read_u32(bytes: &mut &[u8]) -> Result<u32, WireFault>
    ensures { Gives (λ n. (n, bytes.new.now)) result (number_at w32 bytes.old.now) }
{
    bytes.try_get_u32().map_err(|_| WireFault::Short)
}

#[tactic(auto, unfolding(crate::specs::Reading::number_at))]
pub(super) fn read_u64(bytes: &mut &[u8]) -> Result<u64, WireFault>
    ensures { Gives (λ n. (n, bytes.new.now)) result (number_at w64 bytes.old.now) }
{
    bytes.try_get_u64().map_err(|_| WireFault::Short)
}

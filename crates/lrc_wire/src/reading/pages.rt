//! Reading the values of a page.

ghost use Rattle.std.specs.Prelude.{◌≡◌, length};
ghost use Rattle.lrc_page.specs.Page.{words_of};
ghost use Rattle.lrc_wire.specs.Reading.{Gives, size_at, values_at, page_values_at};

use super::numbers::{read_u16, read_u64};
use crate::fault::WireFault;
use crate::version::Version;
use lrc_page::{Page, Size};
use std::alloc::Global;

// How many words a page has.
#[tactic(auto, unfolding(crate::specs::Reading::size_at, crate::specs::Reading::tested))]
fn read_size(version: Version, bytes: &mut &[u8]) -> Result<Size, WireFault>
    ensures { Gives (λ size. (words_of size, bytes.new.now)) result
        (size_at version bytes.old.now) }
{
    match version {
        Version::One => Ok(Size::Words64),
        Version::Two => match read_u16(bytes)? {
            64 => Ok(Size::Words64),
            256 => Ok(Size::Words256),
            _ => Err(WireFault::BadCount),
        },
    }
}

// A value for each word of a page of this size, into a page of zeros.
fn read_values(page: &mut Page, bytes: &mut &[u8]) -> Result<(), WireFault>
    ensures { Gives (λ _. (page.new, bytes.new.now)) result
        (values_at (length page.old) bytes.old.now) }
{
    let words = page.size().words();
    for offset in 0..words {
        let value = read_u64(bytes)?;
        page.set(offset as u8, value);
    }
    Ok(())
}

/// Reads the values of a page.
#[tactic(auto, unfolding(crate::specs::Reading::page_values_at))]
pub(super) fn read_page_values(
    alloc: Global,
    version: Version,
    bytes: &mut &[u8],
) -> Result<Box<Page>, WireFault>
    ensures { Gives (λ page. (page.value, bytes.new.now)) result
        (page_values_at version bytes.old.now) }
{
    let size = read_size(version, bytes)?;
    let mut page = Box::new(alloc, Page::zero(size))?;
    read_values(&mut page, bytes)?;
    Ok(page)
}

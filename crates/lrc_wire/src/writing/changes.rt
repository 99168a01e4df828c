//! Writing indices, the changes of intervals, and page values.

ghost use Rattle.std.specs.Prelude.{◌≡◌, ◌++◌, ◌<◌, ◌^◌, length, All, OnOk};
ghost use Rattle.std.specs.Int.{w32, w64};
ghost use Rattle.std.specs.List.{flat_map};
ghost use Rattle.lrc_wire.specs.declared.version.Version.TheVariants.{Two};
ghost use Rattle.lrc_envelope.specs.Records.{AreIndices, AreParts};
ghost use Rattle.lrc_wire.specs.Ranges.{HasBits, FitPart, FitValues};
ghost use Rattle.lrc_wire.specs.Runs.{runs_of};
ghost use Rattle.lrc_wire.specs.Spelling.{numbers, indices, part, parts, page_values};

use super::runs::put_runs;
use bytes::BufMut;
use lrc_envelope::{IndexedChanges, Indices, Parts};
use lrc_page::Page;
use std::alloc::AllocError;

#[tactic(auto, unfolding(crate::specs::Spelling::numbers, crate::specs::Spelling::number))]
fn put_numbers_32(out: &mut Vec<u8>, list: &[u32]) -> Result<(), AllocError>
    ensures written { OnOk result (out.new.items ≡ out.old.items ++ numbers w32 list.now) }
    ensures bits { All (HasBits 32) list.now }
{
    for number in list {
        out.put_u32(*number)?;
    }
    Ok(())
}

#[tactic(auto, unfolding(crate::specs::Spelling::indices, crate::specs::Spelling::number))]
pub(super) fn put_indices(out: &mut Vec<u8>, list: &Indices) -> Result<(), AllocError>
    requires { length list.now < 2 ^ 32 }
    ensures written { OnOk result (out.new.items ≡ out.old.items ++ indices list.now) }
    ensures bits { OnOk result (All (HasBits 32) list.now) }
    ensures are { OnOk result (AreIndices list.now) }
{
    out.put_u32(list.len() as u32)?;
    put_numbers_32(out, list.as_slice())
}

#[tactic(auto, unfolding(crate::specs::Spelling::part, crate::specs::Spelling::number))]
fn put_part(out: &mut Vec<u8>, item: &IndexedChanges) -> Result<(), AllocError>
    ensures written { OnOk result (out.new.items ≡ out.old.items ++ part Two runs_of item.now) }
    ensures fits { OnOk result (FitPart Two item.now) }
{
    out.put_u32(item.index)?;
    put_runs(out, &item.changes)
}

fn put_each_part(out: &mut Vec<u8>, list: &[IndexedChanges]) -> Result<(), AllocError>
    ensures written { OnOk result (out.new.items
        ≡ out.old.items ++ flat_map (part Two runs_of) list.now) }
    ensures each { OnOk result (All (FitPart Two) list.now) }
{
    for item in list {
        put_part(out, item)?;
    }
    Ok(())
}

#[tactic(auto, unfolding(crate::specs::Spelling::parts, crate::specs::Spelling::number))]
pub(super) fn put_parts(out: &mut Vec<u8>, list: &Parts) -> Result<(), AllocError>
    requires { length list.now < 2 ^ 32 }
    ensures written { OnOk result (out.new.items ≡ out.old.items ++ parts Two runs_of list.now) }
    ensures each { OnOk result (All (FitPart Two) list.now) }
    ensures are { OnOk result (AreParts list.now) }
{
    out.put_u32(list.len() as u32)?;
    put_each_part(out, list.as_slice())
}

#[tactic(auto, unfolding(crate::specs::Spelling::numbers, crate::specs::Spelling::number))]
fn put_values(out: &mut Vec<u8>, values: &[u64]) -> Result<(), AllocError>
    ensures written { OnOk result (out.new.items ≡ out.old.items ++ numbers w64 values.now) }
    ensures bits { All (HasBits 64) values.now }
{
    for value in values {
        out.put_u64(*value)?;
    }
    Ok(())
}

/// Appends the number of a page's values, and then the values.
#[tactic(auto, unfolding(crate::specs::Spelling::number))]
pub(super) fn put_page_values(out: &mut Vec<u8>, page: &Page) -> Result<(), AllocError>
    ensures written { OnOk result (out.new.items ≡ out.old.items ++ page_values Two page.now) }
    ensures fits { OnOk result (FitValues Two page.now) }
{
    out.put_u16(page.size().words())?;
    put_values(out, page.words())
}

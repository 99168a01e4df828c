// The sizes of an array, without the first, and the places of its elements by rows.

ghost use Rattle.std.specs.Prelude.{◌≡◌, IfOk, map, true};
ghost use Rattle.std.specs.List.{list_all};
ghost use Rattle.std.specs.Str.Parse.{digits_value};
ghost use Rattle.lrc_labels.specs.Name.{is_numeral};
ghost use Rattle.lrc_labels.specs.Sizes.{fills, indices, is_size, sizes_of};

use crate::name::{is_numeral, number_below};
use std::alloc::{AllocError, Global};

/// Returns whether each of these fields is a size: a number of 1 to 65,536.
pub fn are_sizes(fields: &[&[u8]]) -> bool
    ensures { result ≡ list_all is_size (map (λ field. field.now) fields.now) }
{
    fields.iter().all(|field| is_size(field))
}

fn is_size(field: &[u8]) -> bool
    ensures { result ≡ is_size field.now }
{
    is_numeral(field) && is_within(field)
}

// Whether digits write a number of 1 to 65,536.
fn is_within(digits: &[u8]) -> bool
    requires { is_numeral digits.now ≡ true }
    ensures { result ≡ is_size digits.now }
{
    match number_below(digits, 65537) {
        Some(number) => number >= 1,
        None => false,
    }
}

// The number that a size writes.
fn size_of(field: &[u8]) -> u32
    requires { is_size field.now ≡ true }
    ensures { result ≡ digits_value 10 field.now }
{
    match number_below(field, 65537) {
        Some(number) => number,
        None => 0,
    }
}

/// Returns whether so many elements fill whole rows of these sizes.
pub fn fills(count: u32, sizes: &[&[u8]]) -> bool
    requires { list_all is_size (map (λ size. size.now) sizes.now) ≡ true }
    ensures { result ≡ fills count (sizes_of (map (λ size. size.now) sizes.now)) }
{
    let mut rows = count;
    for field in sizes {
        let size = size_of(field);
        if rows % size != 0 {
            return false;
        }
        rows /= size;
    }
    true
}

/// Returns the numbers that these sizes write. It fails only if memory runs out.
pub fn numbers_of(alloc: Global, sizes: &[&[u8]]) -> Result<Vec<u32>, AllocError>
    requires { list_all is_size (map (λ size. size.now) sizes.now) ≡ true }
    ensures { IfOk result (λ numbers.
        numbers.items ≡ sizes_of (map (λ size. size.now) sizes.now)) }
{
    let mut numbers = Vec::new(alloc);
    for field in sizes {
        numbers.push(size_of(field))?;
    }
    Ok(numbers)
}

/// Returns the indices of the element at this place of an array, whose rows have these sizes. It fails only if memory
/// runs out.
pub fn indices_of(alloc: Global, place: u32, sizes: &[u32]) -> Result<Vec<u32>, AllocError>
    ensures { IfOk result (λ found. found.items ≡ indices place sizes.now) }
{
    let mut found = Vec::new(alloc);
    let mut rows = place;
    for i in (0..sizes.len()).rev() {
        let size = sizes[i].max(1);
        found.push(rows % size)?;
        rows /= size;
    }
    found.push(rows)?;
    found.reverse();
    Ok(found)
}

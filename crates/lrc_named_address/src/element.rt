// The addresses of elements.

ghost use Rattle.std.specs.Prelude.{◌≡◌, ◌≤◌, IfOk, filter, map};
ghost use Rattle.lrc_named_core.specs.View.{expression_of};
ghost use Rattle.lrc_named_names.specs.Elements.{elements};
ghost use Rattle.lrc_named_names.specs.View.{item_of};
ghost use Rattle.lrc_named_address.specs.Address.{address, address_of, base_of, indices_of, is_open, number_within, offset_of, plus_summands, summand_of, test_of, times_tests};
ghost use Rattle.lrc_named_address.specs.View.{index_of};

use lrc_named_core::binary;
use lrc_named_core::tree::{Expression, Tree};
use lrc_named_names::item::Item;
use lrc_program::Operator;
use std::alloc::{AllocError, Global};

// An index of an item: its expression, the size that it has to be below, and how many words or locks one more of it is.
#[derive(Clone, Copy)]
struct Index<'c, 'p> {
    core: &'c Expression<'p>,
    size: u32,
    stride: u32,
}

// The number that an index is, where it is one below its size.
fn number_within(core: &Expression<'_>, size: u32) -> Option<u64>
    ensures { result ≡ number_within (expression_of core.now) size }
{
    match &core.tree {
        Tree::Number(n) => { if *n < u64::from(size) { Some(*n) } else { None } }
        Tree::Private(_) | Tree::Me | Tree::Nodes | Tree::Binary(_, _, _) => None,
    }
}

// That an index is below its size.
fn test<'p>(alloc: Global, index: Index<'_, 'p>) -> Result<Expression<'p>, AllocError>
    ensures { IfOk result (λ e. expression_of e ≡ test_of (index_of index.entry)) }
{
    let core = index.core.copy()?;
    binary(
        alloc,
        core,
        Operator::Less,
        Expression::number(u64::from(index.size)),
    )
}

// How far an index leads from the first element.
fn summand<'p>(alloc: Global, index: Index<'_, 'p>) -> Result<Expression<'p>, AllocError>
    ensures { IfOk result (λ e. expression_of e ≡ summand_of (index_of index.entry)) }
{
    let core = index.core.copy()?;
    if index.stride == 1 {
        Ok(core)
    } else {
        let stride = Expression::number(u64::from(index.stride));
        let product = binary(alloc, core, Operator::Multiply, stride)?;
        Ok(product)
    }
}

// A product that goes on with the tests of these.
fn times_tests<'p>(
    alloc: Global,
    left: Expression<'p>,
    indices: &[Index<'_, 'p>],
) -> Result<Expression<'p>, AllocError>
    ensures { IfOk result (λ e. expression_of e
        ≡ times_tests (expression_of left.entry) (map index_of indices.now)) }
{
    let mut product = left;
    for index in indices {
        let factor = test(alloc, *index)?;
        product = binary(alloc, product, Operator::Multiply, factor)?;
    }
    Ok(product)
}

// A sum that goes on with the summands of these.
fn plus_summands<'p>(
    alloc: Global,
    left: Expression<'p>,
    indices: &[Index<'_, 'p>],
) -> Result<Expression<'p>, AllocError>
    ensures { IfOk result (λ e. expression_of e
        ≡ plus_summands (expression_of left.entry) (map index_of indices.now)) }
{
    let mut sum = left;
    for index in indices {
        let term = summand(alloc, *index)?;
        sum = binary(alloc, sum, Operator::Add, term)?;
    }
    Ok(sum)
}

// The address that a number makes with the indices that may be out of range.
fn address_of<'p>(
    alloc: Global,
    base: u32,
    outside: &[Index<'_, 'p>],
) -> Result<Expression<'p>, AllocError>
    ensures { IfOk result (λ e. expression_of e ≡ address_of base (map index_of outside.now)) }
{
    match outside {
        [] => Ok(Expression::number(u64::from(base))),
        [first, others @ ..] => {
            let sum = plus_summands(alloc, Expression::number(u64::from(base) + 1), outside)?;
            let begun = test(alloc, *first)?;
            let tests = times_tests(alloc, begun, others)?;
            let product = binary(alloc, tests, Operator::Multiply, sum)?;
            let whole = binary(alloc, product, Operator::Subtract, Expression::number(1))?;
            Ok(whole)
        }
    }
}

// The indices with their sizes, of an item that has so many elements, and how far each leads.
#[tactic(auto, using(crate::proofs::Indices::size_some))]
fn indices<'c, 'p>(
    alloc: Global,
    count: u32,
    sizes: &[u32],
    cores: &'c [Expression<'p>],
) -> Result<Vec<Index<'c, 'p>>, AllocError>
    requires counted { count ≡ elements sizes.now }
    requires some { 1 ≤ count }
    ensures { IfOk result (λ all. map index_of all.items
        ≡ indices_of (map expression_of cores.now) sizes.now) }
{
    let mut stride = count;
    let mut all = Vec::new(alloc);
    for i in 0..cores.len().min(sizes.len()) {
        let size = sizes[i];
        stride /= size;
        all.push(Index {
            core: &cores[i],
            size,
            stride,
        })?;
    }
    Ok(all)
}

// How far an index leads, as far as it is known.
#[tactic(auto, using(crate::proofs::Indices::within_size, crate::proofs::Indices::offset_some))]
fn known_offset(index: Index<'_, '_>) -> u32
    requires { offset_of (index_of index) ≤ 65536 }
    ensures { result ≡ offset_of (index_of index.entry) }
{
    match number_within(index.core, index.size) {
        Some(n) => n as u32 * index.stride,
        None => 0,
    }
}

// How far these lead from a first element, as far as it is known.
fn known_base(first: u32, indices: &[Index<'_, '_>]) -> u32
    requires { base_of first (map index_of indices.now) ≤ 65536 }
    ensures { result ≡ base_of first (map index_of indices.now) }
{
    let mut base = first;
    for index in indices {
        let offset = known_offset(*index);
        base += offset;
    }
    base
}

// Whether an index may be out of range.
fn is_open(index: Index<'_, '_>) -> bool
    ensures { result ≡ is_open (index_of index.entry) }
{
    number_within(index.core, index.size).is_none()
}

// Those of the indices that may be out of range.
fn open_ones<'c, 'p>(
    alloc: Global,
    indices: &[Index<'c, 'p>],
) -> Result<Vec<Index<'c, 'p>>, AllocError>
    ensures { IfOk result (λ all. map index_of all.items ≡ filter is_open (map index_of indices.now)) }
{
    let mut all = Vec::new(alloc);
    for index in indices {
        let may = is_open(*index);
        if may {
            all.push(*index)?;
        }
    }
    Ok(all)
}

/// Returns the address of an element of an item, with these indices. It fails only if memory runs out.
pub fn address<'p>(
    alloc: Global,
    item: &Item,
    cores: &[Expression<'p>],
) -> Result<Expression<'p>, AllocError>
    ensures { IfOk result (λ e. expression_of e
        ≡ address (item_of item.now) (map expression_of cores.now)) }
{
    let all = indices(alloc, item.count, &item.sizes, cores)?;
    let base = known_base(item.first, &all);
    let outside = open_ones(alloc, &all)?;
    address_of(alloc, base, &outside)
}

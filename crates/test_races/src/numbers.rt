// Numbers of names.

use lrc_races_lines::table::Table;
use std::alloc::{AllocError, Global};

// Whether the names, in turn, are given these numbers.
fn are_numbered(table: &mut Table, names: &[(&'static [u8], usize)]) -> Result<bool, AllocError> {
    for (name, number) in names {
        if table.number(name)? != *number {
            return Ok(false);
        }
    }
    Ok(true)
}

fn is_named(table: &Table, number: usize, name: &[u8]) -> bool {
    match table.name(number) {
        Some(found) => found == name,
        None => false,
    }
}

fn numbers_hold(alloc: Global) -> Result<bool, AllocError> {
    let mut table = Table::new(alloc);
    let numbered = are_numbered(
        &mut table,
        &[
            (b"A1", 0),
            (b"A2", 1),
            (b"A1", 0),
            (b"A", 2),
            (b"A10", 3),
            (b"a1", 4),
            (b"A2", 1),
        ],
    )?;
    Ok(
        numbered
            && table.count() == 5
            && is_named(&table, 2, b"A")
            && is_named(&table, 4, b"a1")
            && table.name(5).is_none(),
    )
}

fn is_so(answer: Result<bool, AllocError>) -> bool {
    match answer {
        Ok(so) => so,
        Err(_) => false,
    }
}

#[test]
fn names_are_numbered_in_order_of_first_mention(rt: HostRuntime) {
    assert!(rt; is_so(numbers_hold(rt.alloc())));
}

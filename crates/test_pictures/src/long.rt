// A row with a long list of pages: its column is as wide as that, and the other one is not. What is wanted was calculated by hand: of a letter
// 7.3 pixels, of the list's 300 letters 2190, and of a name's six 43.

use crate::drawing::{blank, is_drawn, push_columns, push_row};
use lrc_chart_model::{Kind, Row};
use std::alloc::{AllocError, Global};

// A column of 2202 pixels and one of 55, each with a gap of 120 behind it.
const FIRST: &[u8] =
    b"<svg xmlns=\"http://www.w3.org/2000/svg\" viewBox=\"0 0 2581 175\" width=\"2581\" height=\"175\" ";

// What stands behind the list, on a line below it, ends where its column does.
const LAST: &[u8] = b"</text><text x=\"2280\" y=\"150\" text-anchor=\"end\" fill=\"#5a5a5a\" \
      font-weight=\"normal\">line 3</text></g></svg>\n";

fn put_pages(pages: &mut Vec<u8>) -> Result<(), AllocError> {
    for _ in 0..150usize {
        pages.extend_from_slice(b"7,")?;
    }
    Ok(())
}

fn push_long(alloc: Global, rows: &mut Vec<Row>) -> Result<(), AllocError> {
    push_row(alloc, rows, 0, Kind::Message, b"takes", b"turn 0")?;
    match rows.last_mut() {
        Some(long) => put_pages(&mut long.invalid),
        None => Ok(()),
    }
}

// Whether its drawing begins and ends so.
fn is_wide(alloc: Global) -> bool {
    let mut picture = blank(alloc);
    push_columns(alloc, &mut picture.columns).is_ok()
        && push_long(alloc, &mut picture.rows).is_ok()
        && is_drawn(alloc, &picture, FIRST, LAST)
}

#[test]
fn a_long_list_widens_its_column(rt: HostRuntime) {
    assert!(rt; is_wide(rt.alloc()));
}

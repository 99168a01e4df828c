// A picture as text. What is wanted was laid out by hand.

use crate::drawing::{blank, bytes, push_columns};
use lrc_chart_model::{Arrow, Band, Kind, Lost, Picture, Race, Row};
use lrc_chart_text::sketch;
use std::alloc::{AllocError, Global};

const WANTED: &[u8] = b"sample

*  act   .  begins to wait   o  messages alone   !  trap   =  at a barrier   -*-  an interval ends
>N  message N is sent   <N  it is taken   +--->  from sender to taker   again  taken a second time
>x  a message that is never taken   race N  an act of that group of races; the groups stand below

       node 0
       |       node 1
   0   |       .       waits             line 3  >1 lock-request to node 0
   1   o<------+       <1 lock-request  >2 lock-grant again to node 1
      ================ barrier 1 from here
   2   +------>*-      acquire 0         line 3, interval 1  0,1  invalid 4  <2 lock-grant again
       |       |       race 7
   5   !       |       trap 4            line 5, interval 1  >x arrive to node 1, never taken
       |       |       race 7  deadlock
      ================ barrier 1 to here

race 7: row 2 and row 5  acquire 0  trap 4  race line 3 write, line 5 read  word 0, act 0, act 1

deadlock: node 0 waits for node 1, node 1 for node 0
";

fn row(
    alloc: Global,
    number: usize,
    column: u8,
    kind: Kind,
    words: &[u8],
    place: &[u8],
) -> Result<Row, AllocError> {
    Ok(Row {
        number,
        column,
        kind,
        words: bytes(alloc, words)?,
        time: Vec::new(alloc),
        invalid: Vec::new(alloc),
        place: bytes(alloc, place)?,
        hint: Vec::new(alloc),
        closes: false,
        circled: false,
    })
}

fn push_row(
    alloc: Global,
    rows: &mut Vec<Row>,
    column: u8,
    kind: Kind,
    words: &[u8],
    place: &[u8],
) -> Result<(), AllocError> {
    let number = rows.len();
    rows.push(row(alloc, number, column, kind, words, place)?)?;
    Ok(())
}

fn push_rows(alloc: Global, rows: &mut Vec<Row>) -> Result<(), AllocError> {
    push_row(alloc, rows, 1, Kind::Wait, b"waits", b"line 3")?;
    push_row(alloc, rows, 0, Kind::Message, b"", b"")?;
    push_row(
        alloc,
        rows,
        1,
        Kind::Act,
        b"acquire 0",
        b"line 3, interval 1",
    )?;
    if let Some(act) = rows.last_mut() {
        put_interval(act)?;
    }
    push_row(alloc, rows, 0, Kind::Trap, b"trap 4", b"line 5, interval 1")?;
    if let Some(last) = rows.last_mut() {
        put_circle(last);
    }
    Ok(())
}

// Two rows before it are hidden.
fn put_circle(last: &mut Row) {
    last.number = 5;
    last.circled = true;
}

fn put_interval(act: &mut Row) -> Result<(), AllocError> {
    act.time.extend_from_slice(b"0,1")?;
    act.invalid.extend_from_slice(b"invalid 4")?;
    act.closes = true;
    Ok(())
}

fn push_request(alloc: Global, arrows: &mut Vec<Arrow>) -> Result<(), AllocError> {
    arrows.push(Arrow {
        from: 0,
        sender: 1,
        to: 1,
        receiver: 0,
        again: false,
        label: bytes(alloc, b"lock-request")?,
        hint: Vec::new(alloc),
    })?;
    Ok(())
}

fn push_grant(alloc: Global, arrows: &mut Vec<Arrow>) -> Result<(), AllocError> {
    arrows.push(Arrow {
        from: 1,
        sender: 0,
        to: 2,
        receiver: 1,
        again: true,
        label: bytes(alloc, b"lock-grant")?,
        hint: Vec::new(alloc),
    })?;
    Ok(())
}

fn push_lost(alloc: Global, lost: &mut Vec<Lost>) -> Result<(), AllocError> {
    lost.push(Lost {
        from: 3,
        sender: 0,
        receiver: 1,
        label: bytes(alloc, b"arrive")?,
        hint: Vec::new(alloc),
    })?;
    Ok(())
}

fn push_band(alloc: Global, bands: &mut Vec<Band>) -> Result<(), AllocError> {
    bands.push(Band {
        from: 2,
        to: 3,
        label: bytes(alloc, b"barrier 1")?,
    })?;
    Ok(())
}

fn push_race(alloc: Global, races: &mut Vec<Race>) -> Result<(), AllocError> {
    races.push(Race {
        number: 7,
        from: 2,
        first: 1,
        to: 3,
        second: 0,
        label: bytes(alloc, b"race line 3 write, line 5 read")?,
        hint: bytes(alloc, b"word 0, act 0, act 1")?,
    })?;
    Ok(())
}

fn fill(alloc: Global, picture: &mut Picture) -> Result<(), AllocError> {
    picture.title.extend_from_slice(b"sample")?;
    push_columns(alloc, &mut picture.columns)?;
    push_rows(alloc, &mut picture.rows)?;
    push_request(alloc, &mut picture.arrows)?;
    push_grant(alloc, &mut picture.arrows)?;
    push_lost(alloc, &mut picture.lost)?;
    push_band(alloc, &mut picture.bands)?;
    push_race(alloc, &mut picture.races)?;
    let circle = bytes(
        alloc,
        b"deadlock: node 0 waits for node 1, node 1 for node 0",
    )?;
    picture.deadlocks.push(circle)?;
    Ok(())
}

fn is_laid_out(alloc: Global, picture: &Picture, text: &[u8]) -> bool {
    match sketch(alloc, picture) {
        Ok(sketched) => sketched.as_slice() == text,
        Err(_) => false,
    }
}

fn is_sketched(alloc: Global) -> bool {
    let mut picture = blank(alloc);
    fill(alloc, &mut picture).is_ok() && is_laid_out(alloc, &picture, WANTED)
}

#[test]
fn a_picture_is_laid_out_by_hand(rt: HostRuntime) {
    assert!(rt; is_sketched(rt.alloc()));
}

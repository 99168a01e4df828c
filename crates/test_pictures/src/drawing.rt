// Where things stand in a drawing, and how they look. What is wanted is of a drawing made by another program.

use lrc_chart_model::{Arrow, Band, Kind, Lost, Picture, Race, Row, SourceLine};
use lrc_chart_svg::document_of;
use lrc_svg::{Document, document_part};
use std::alloc::{AllocError, Global};

// The root, its size, the ground and the title.
const FIRST: &[u8] =
    b"<svg xmlns=\"http://www.w3.org/2000/svg\" viewBox=\"0 0 1222 273\" width=\"1222\" height=\"273\" \
      font-family=\"DejaVu Sans Mono, Menlo, Consolas, monospace\" font-size=\"12\"><rect x=\"0\" \
      y=\"0\" width=\"1222\" height=\"273\" fill=\"#ffffff\" stroke=\"none\" stroke-width=\"0\" \
      stroke-dasharray=\"none\"></rect><text x=\"8\" y=\"24\" text-anchor=\"start\" fill=\"#1a1a1a\" \
      font-weight=\"bold\">sample</text>";

// The barrier, columns, arrows, the race, rows, the kind of the message that was never taken, the circle of waiting and the program's text.
const REST: &[u8] =
    b"<rect x=\"0\" y=\"172\" width=\"1222\" height=\"25\" fill=\"#ebe4f8\" stroke=\"#b9a8e0\" \
      stroke-width=\"1\" stroke-dasharray=\"none\"></rect><text x=\"8\" y=\"188\" text-anchor=\"start\" \
      fill=\"#1a1a1a\" font-weight=\"normal\">barrier 1</text><rect x=\"84\" y=\"84\" width=\"194\" \
      height=\"139\" fill=\"none\" stroke=\"#b4b4b4\" stroke-width=\"1\" \
      stroke-dasharray=\"none\"></rect><rect x=\"84\" y=\"84\" width=\"194\" height=\"20\" \
      fill=\"#e4e4e4\" stroke=\"#b4b4b4\" stroke-width=\"1\" stroke-dasharray=\"none\"></rect><text \
      x=\"90\" y=\"98\" text-anchor=\"start\" fill=\"#1a1a1a\" font-weight=\"bold\">node 0</text><rect \
      x=\"398\" y=\"84\" width=\"238\" height=\"139\" fill=\"none\" stroke=\"#b4b4b4\" \
      stroke-width=\"1\" stroke-dasharray=\"none\"></rect><rect x=\"398\" y=\"84\" width=\"238\" \
      height=\"20\" fill=\"#e4e4e4\" stroke=\"#b4b4b4\" stroke-width=\"1\" \
      stroke-dasharray=\"none\"></rect><text x=\"404\" y=\"98\" text-anchor=\"start\" fill=\"#1a1a1a\" \
      font-weight=\"bold\">node 1</text><g><title>lock 0</title><line x1=\"390\" y1=\"120\" x2=\"290\" \
      y2=\"132\" stroke=\"#1f5f9f\" stroke-width=\"1.5\" stroke-dasharray=\"none\"></line><path \
      d=\"M390 120h8\" fill=\"none\" stroke=\"#1f5f9f\" stroke-width=\"1.5\" \
      stroke-dasharray=\"none\"></path><path d=\"M290 132h-12 l9 -4 v8 l-9 -4\" fill=\"#1f5f9f\" \
      stroke=\"#1f5f9f\" stroke-width=\"1.5\" \
      stroke-dasharray=\"none\"></path></g><g><title>granted</title><line x1=\"286\" y1=\"132\" \
      x2=\"386\" y2=\"144\" stroke=\"#1f5f9f\" stroke-width=\"1.5\" stroke-dasharray=\"6 \
      4\"></line><path d=\"M286 132h-8\" fill=\"none\" stroke=\"#1f5f9f\" stroke-width=\"1.5\" \
      stroke-dasharray=\"none\"></path><path d=\"M386 144h12 l-9 -4 v8 l9 -4\" fill=\"#1f5f9f\" \
      stroke=\"#1f5f9f\" stroke-width=\"1.5\" \
      stroke-dasharray=\"none\"></path></g><g><title>never</title><line x1=\"286\" y1=\"184\" \
      x2=\"286\" y2=\"213\" stroke=\"#1f5f9f\" stroke-width=\"1.5\" \
      stroke-dasharray=\"none\"></line><path d=\"M286 184h-8\" fill=\"none\" stroke=\"#1f5f9f\" \
      stroke-width=\"1.5\" stroke-dasharray=\"none\"></path><path d=\"M286 213m-5 -5 l10 10 m-10 0 l10 \
      -10\" fill=\"none\" stroke=\"#1f5f9f\" stroke-width=\"2\" \
      stroke-dasharray=\"none\"></path></g><g><title>a &lt; b</title><line x1=\"398\" y1=\"144\" \
      x2=\"278\" y2=\"184\" stroke=\"#c80000\" stroke-width=\"3\" \
      stroke-dasharray=\"none\"></line><path d=\"M398 144m-5 -5 h10 v10 h-10 z\" fill=\"#c80000\" \
      stroke=\"none\" stroke-width=\"0\" stroke-dasharray=\"none\"></path><path d=\"M278 184m-5 -5 h10 \
      v10 h-10 z\" fill=\"#c80000\" stroke=\"none\" stroke-width=\"0\" \
      stroke-dasharray=\"none\"></path><rect x=\"344\" y=\"128\" width=\"47\" height=\"13\" \
      fill=\"#ffffff\" stroke=\"none\" stroke-width=\"0\" stroke-dasharray=\"none\"></rect><text \
      x=\"389\" y=\"138\" text-anchor=\"end\" fill=\"#c80000\" font-weight=\"normal\">race \
      7</text><rect x=\"285\" y=\"189\" width=\"47\" height=\"13\" fill=\"#ffffff\" stroke=\"none\" \
      stroke-width=\"0\" stroke-dasharray=\"none\"></rect><text x=\"287\" y=\"199\" \
      text-anchor=\"start\" fill=\"#c80000\" font-weight=\"normal\">race 7</text><text x=\"78\" \
      y=\"237\" text-anchor=\"end\" fill=\"#c80000\" font-weight=\"normal\">race 7</text><text x=\"84\" \
      y=\"237\" text-anchor=\"start\" fill=\"#c80000\" font-weight=\"normal\">line 3 \
      write</text></g><g><title>turn 0</title><rect x=\"398\" y=\"112\" width=\"238\" height=\"17\" \
      fill=\"#dedede\" stroke=\"#1a1a1a\" stroke-width=\"1.5\" stroke-dasharray=\"3 3\"></rect><text \
      x=\"404\" y=\"124\" text-anchor=\"start\" fill=\"#1a1a1a\" \
      font-weight=\"normal\">waits</text><text x=\"630\" y=\"124\" text-anchor=\"end\" fill=\"#5a5a5a\" \
      font-weight=\"normal\">line 3</text></g><g><title>turn 1</title><rect x=\"84\" y=\"124\" \
      width=\"194\" height=\"17\" fill=\"#eef4fa\" stroke=\"#a8bccf\" stroke-width=\"1\" \
      stroke-dasharray=\"none\"></rect><text x=\"90\" y=\"136\" text-anchor=\"start\" fill=\"#1a1a1a\" \
      font-weight=\"normal\">takes</text><text x=\"133\" y=\"136\" text-anchor=\"start\" \
      fill=\"#1f5f9f\" font-weight=\"normal\">lock-request</text><text x=\"272\" y=\"136\" \
      text-anchor=\"end\" fill=\"#5a5a5a\" font-weight=\"normal\">line 3</text></g><g><title>act \
      0</title><rect x=\"398\" y=\"136\" width=\"238\" height=\"30\" fill=\"#ffffff\" \
      stroke=\"#1a1a1a\" stroke-width=\"1\" stroke-dasharray=\"none\"></rect><rect x=\"398\" y=\"166\" \
      width=\"238\" height=\"3\" fill=\"#1a1a1a\" stroke=\"none\" stroke-width=\"0\" \
      stroke-dasharray=\"none\"></rect><text x=\"404\" y=\"148\" text-anchor=\"start\" fill=\"#1a1a1a\" \
      font-weight=\"normal\">acquire 0</text><text x=\"477\" y=\"148\" text-anchor=\"start\" \
      fill=\"#1d6b35\" font-weight=\"normal\">0,1</text><text x=\"506\" y=\"148\" text-anchor=\"start\" \
      fill=\"#a04800\" font-weight=\"normal\">page 0</text><text x=\"557\" y=\"148\" \
      text-anchor=\"start\" fill=\"#1f5f9f\" font-weight=\"normal\">lock-grant</text><text x=\"630\" \
      y=\"161\" text-anchor=\"end\" fill=\"#5a5a5a\" font-weight=\"normal\">line \
      3</text></g><g><title>act 1</title><rect x=\"84\" y=\"176\" width=\"194\" height=\"17\" \
      fill=\"#d9cdf2\" stroke=\"#4b2f90\" stroke-width=\"2\" stroke-dasharray=\"none\"></rect><rect \
      x=\"80\" y=\"172\" width=\"202\" height=\"25\" fill=\"none\" stroke=\"#c80000\" \
      stroke-width=\"3\" stroke-dasharray=\"none\"></rect><text x=\"90\" y=\"188\" \
      text-anchor=\"start\" fill=\"#1a1a1a\" font-weight=\"normal\">arrive</text><text x=\"272\" \
      y=\"188\" text-anchor=\"end\" fill=\"#5a5a5a\" font-weight=\"normal\">line 3</text></g><text \
      x=\"274\" y=\"217\" text-anchor=\"end\" fill=\"#1f5f9f\" \
      font-weight=\"normal\">arrive</text><text x=\"8\" y=\"257\" text-anchor=\"start\" \
      fill=\"#c80000\" font-weight=\"normal\">deadlock: node 0</text><text x=\"1136\" y=\"98\" \
      text-anchor=\"end\" fill=\"#5a5a5a\" font-weight=\"normal\">1</text><text x=\"1146\" y=\"98\" \
      text-anchor=\"start\" fill=\"#1a1a1a\" font-weight=\"normal\">words 1;</text><rect x=\"1096\" \
      y=\"102\" width=\"122\" height=\"16\" fill=\"#e4e4e4\" stroke=\"#b9a8e0\" stroke-width=\"1\" \
      stroke-dasharray=\"none\"></rect><text x=\"1136\" y=\"114\" text-anchor=\"end\" fill=\"#5a5a5a\" \
      font-weight=\"normal\">2</text><text x=\"1160\" y=\"114\" text-anchor=\"start\" fill=\"#1a1a1a\" \
      font-weight=\"normal\">  x = 2;</text></svg>\n";

pub(crate) fn bytes(alloc: Global, words: &[u8]) -> Result<Vec<u8>, AllocError> {
    Vec::from_slice(alloc, words)
}

// A row that has words and a hint alone.
fn row(
    alloc: Global,
    column: u8,
    kind: Kind,
    words: &[u8],
    hint: &[u8],
) -> Result<Row, AllocError> {
    Ok(Row {
        number: 0,
        column,
        kind,
        words: bytes(alloc, words)?,
        time: Vec::new(alloc),
        invalid: Vec::new(alloc),
        place: bytes(alloc, b"line 3")?,
        hint: bytes(alloc, hint)?,
        closes: false,
        circled: false,
    })
}

pub(crate) fn push_row(
    alloc: Global,
    rows: &mut Vec<Row>,
    column: u8,
    kind: Kind,
    words: &[u8],
    hint: &[u8],
) -> Result<(), AllocError> {
    rows.push(row(alloc, column, kind, words, hint)?)?;
    Ok(())
}

fn push_act(alloc: Global, rows: &mut Vec<Row>) -> Result<(), AllocError> {
    push_row(alloc, rows, 1, Kind::Act, b"acquire 0", b"act 0")?;
    match rows.last_mut() {
        Some(act) => put_interval(act),
        None => Ok(()),
    }
}

fn put_interval(act: &mut Row) -> Result<(), AllocError> {
    act.time.extend_from_slice(b"0,1")?;
    act.invalid.extend_from_slice(b"page 0")?;
    act.closes = true;
    Ok(())
}

fn push_rows(alloc: Global, rows: &mut Vec<Row>) -> Result<(), AllocError> {
    push_row(alloc, rows, 1, Kind::Wait, b"waits", b"turn 0")?;
    push_row(alloc, rows, 0, Kind::Message, b"takes", b"turn 1")?;
    push_act(alloc, rows)?;
    push_row(alloc, rows, 0, Kind::Barrier, b"arrive", b"act 1")?;
    if let Some(last) = rows.last_mut() {
        last.circled = true;
    }
    Ok(())
}

fn push_request(alloc: Global, arrows: &mut Vec<Arrow>) -> Result<(), AllocError> {
    arrows.push(Arrow {
        from: 0,
        sender: 1,
        to: 1,
        receiver: 0,
        again: false,
        label: bytes(alloc, b"lock-request")?,
        hint: bytes(alloc, b"lock 0")?,
    })?;
    Ok(())
}

fn push_grant(alloc: Global, arrows: &mut Vec<Arrow>) -> Result<(), AllocError> {
    arrows.push(Arrow {
        from: 1,
        sender: 0,
        to: 2,
        receiver: 1,
        again: true,
        label: bytes(alloc, b"lock-grant")?,
        hint: bytes(alloc, b"granted")?,
    })?;
    Ok(())
}

fn push_lost(alloc: Global, lost: &mut Vec<Lost>) -> Result<(), AllocError> {
    lost.push(Lost {
        from: 3,
        sender: 0,
        receiver: 0,
        label: bytes(alloc, b"arrive")?,
        hint: bytes(alloc, b"never")?,
    })?;
    Ok(())
}

fn push_race(alloc: Global, races: &mut Vec<Race>) -> Result<(), AllocError> {
    races.push(Race {
        number: 7,
        from: 2,
        first: 1,
        to: 3,
        second: 0,
        label: bytes(alloc, b"line 3 write")?,
        hint: bytes(alloc, b"a < b")?,
    })?;
    Ok(())
}

fn push_band(alloc: Global, bands: &mut Vec<Band>) -> Result<(), AllocError> {
    bands.push(Band {
        from: 3,
        to: 3,
        label: bytes(alloc, b"barrier 1")?,
    })?;
    Ok(())
}

pub(crate) fn push_columns(alloc: Global, columns: &mut Vec<Vec<u8>>) -> Result<(), AllocError> {
    columns.push(bytes(alloc, b"node 0")?)?;
    columns.push(bytes(alloc, b"node 1")?)?;
    Ok(())
}

fn push_source(alloc: Global, lines: &mut Vec<SourceLine>) -> Result<(), AllocError> {
    push_line(alloc, lines, b"words 1;", false)?;
    push_line(alloc, lines, b"  x = 2;", true)
}

fn push_line(
    alloc: Global,
    lines: &mut Vec<SourceLine>,
    words: &[u8],
    marked: bool,
) -> Result<(), AllocError> {
    lines.push(SourceLine {
        words: bytes(alloc, words)?,
        marked,
    })?;
    Ok(())
}

// Fills a picture with one of each.
fn fill(alloc: Global, picture: &mut Picture) -> Result<(), AllocError> {
    picture.title.extend_from_slice(b"sample")?;
    push_columns(alloc, &mut picture.columns)?;
    push_rows(alloc, &mut picture.rows)?;
    push_request(alloc, &mut picture.arrows)?;
    push_grant(alloc, &mut picture.arrows)?;
    push_lost(alloc, &mut picture.lost)?;
    push_band(alloc, &mut picture.bands)?;
    push_race(alloc, &mut picture.races)?;
    picture.deadlocks.push(bytes(alloc, b"deadlock: node 0")?)?;
    push_source(alloc, &mut picture.source)
}

pub(crate) fn blank(alloc: Global) -> Picture {
    Picture {
        title: Vec::new(alloc),
        columns: Vec::new(alloc),
        rows: Vec::new(alloc),
        arrows: Vec::new(alloc),
        lost: Vec::new(alloc),
        bands: Vec::new(alloc),
        races: Vec::new(alloc),
        deadlocks: Vec::new(alloc),
        source: Vec::new(alloc),
    }
}

// Whether the text of a document begins and ends so.
fn is_written(alloc: Global, document: &Document, first: &[u8], last: &[u8]) -> bool {
    match document_part(alloc, document) {
        Ok(text) => text.starts_with(first) && text.ends_with(last),
        Err(_) => false,
    }
}

// Whether the drawing of a picture begins and ends so.
pub(crate) fn is_drawn(alloc: Global, picture: &Picture, first: &[u8], last: &[u8]) -> bool {
    match document_of(alloc, picture) {
        Ok(document) => is_written(alloc, &document, first, last),
        Err(_) => false,
    }
}

// Whether a picture of one of each is drawn so.
fn is_sample_drawn(alloc: Global) -> bool {
    let mut picture = blank(alloc);
    fill(alloc, &mut picture).is_ok() && is_drawn(alloc, &picture, FIRST, REST)
}

#[test]
fn things_stand_where_they_should(rt: HostRuntime) {
    assert!(rt; is_sample_drawn(rt.alloc()));
}

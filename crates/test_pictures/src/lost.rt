// Two messages that were never taken, one in each direction. What is wanted was calculated by hand: of a letter 7.3 pixels, of a column
// with the six letters of its name 55, and of the gap between two 120.

use crate::drawing::{blank, bytes, is_drawn, push_columns};
use lrc_chart_model::Lost;
use std::alloc::{AllocError, Global};

// Their lines, each from the sender's side to the receiver's and to a height of its own, and each kind in the receiver's column.
const LAST: &[u8] =
    b"<g><title>first</title><line x1=\"147\" y1=\"120\" x2=\"247\" y2=\"132\" stroke=\"#1f5f9f\" \
      stroke-width=\"1.5\" stroke-dasharray=\"none\"></line><path d=\"M147 120h-8\" fill=\"none\" \
      stroke=\"#1f5f9f\" stroke-width=\"1.5\" stroke-dasharray=\"none\"></path><path d=\"M247 132m-5 -5 \
      l10 10 m-10 0 l10 -10\" fill=\"none\" stroke=\"#1f5f9f\" stroke-width=\"2\" \
      stroke-dasharray=\"none\"></path></g><g><title>second</title><line x1=\"251\" y1=\"120\" \
      x2=\"151\" y2=\"152\" stroke=\"#1f5f9f\" stroke-width=\"1.5\" \
      stroke-dasharray=\"none\"></line><path d=\"M251 120h8\" fill=\"none\" stroke=\"#1f5f9f\" \
      stroke-width=\"1.5\" stroke-dasharray=\"none\"></path><path d=\"M151 152m-5 -5 l10 10 m-10 0 l10 \
      -10\" fill=\"none\" stroke=\"#1f5f9f\" stroke-width=\"2\" \
      stroke-dasharray=\"none\"></path></g><text x=\"263\" y=\"136\" text-anchor=\"start\" \
      fill=\"#1f5f9f\" font-weight=\"normal\">there</text><text x=\"135\" y=\"156\" text-anchor=\"end\" \
      fill=\"#1f5f9f\" font-weight=\"normal\">back</text></svg>\n";

fn lost(alloc: Global, sender: u8, label: &[u8], hint: &[u8]) -> Result<Lost, AllocError> {
    Ok(Lost {
        from: 0,
        sender,
        receiver: if sender == 0 { 1 } else { 0 },
        label: bytes(alloc, label)?,
        hint: bytes(alloc, hint)?,
    })
}

fn push_lost(alloc: Global, all: &mut Vec<Lost>) -> Result<(), AllocError> {
    all.push(lost(alloc, 0, b"there", b"first")?)?;
    all.push(lost(alloc, 1, b"back", b"second")?)?;
    Ok(())
}

// Whether their drawing ends so.
fn are_drawn(alloc: Global) -> bool {
    let mut picture = blank(alloc);
    push_columns(alloc, &mut picture.columns).is_ok()
        && push_lost(alloc, &mut picture.lost).is_ok()
        && is_drawn(alloc, &picture, b"", LAST)
}

#[test]
fn messages_never_taken_go_to_their_receivers(rt: HostRuntime) {
    assert!(rt; are_drawn(rt.alloc()));
}

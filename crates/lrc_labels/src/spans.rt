// Words, or locks, as spans in ascending order.

ghost use Rattle.std.specs.Prelude.{◌≡◌, ◌<◌, ◌≤◌, ◌||◌, Bool, OnOk, false, length};
ghost use Rattle.std.specs.List.{AllWithin, list_any};
ghost use Rattle.lrc_labels.specs.declared.spans.Span.{Span};
ghost use Rattle.lrc_labels.specs.Spans.{AreSpansFrom, reaches};

use std::alloc::AllocError;

/// The numbers from the first to the last.
#[derive(Clone, Copy)]
pub struct Span {
    pub first: u32,
    pub last: u32,
}

/// Returns whether one of the spans has a number from `first` to `last`.
pub fn is_reached(spans: &[Span], first: u32, last: u32) -> bool
    requires { AreSpansFrom 0 spans.now }
    ensures { result ≡ list_any (reaches first last) spans.now }
{
    match spans.get(place_of(spans, first)) {
        Some(span) => span.first <= last,
        None => false,
    }
}

/// Puts a span among others, of which none has one of its numbers. It fails only if memory runs out.
pub fn put(spans: &mut Vec<Span>, span: Span) -> Result<(), AllocError>
    requires are { AreSpansFrom 0 spans.old.items }
    requires ends { span.first ≤ span.last }
    requires free { list_any (reaches span.first span.last) spans.old.items ≡ false }
    ensures are { OnOk result (AreSpansFrom 0 spans.new.items) }
    ensures more { OnOk result ((test : Span → Bool) → list_any test spans.new.items
        ≡ (test span || list_any test spans.old.items)) }
{
    let place = place_of(spans, span.first);
    spans.insert(place, span)?;
    Ok(())
}

// The place of the first span that does not end below this number.
fn place_of(spans: &[Span], number: u32) -> usize
    requires { AreSpansFrom 0 spans.now }
    ensures bound { result ≤ length spans.now }
    ensures before { AllWithin (λ span. span.last < number) spans.now 0 result }
    ensures from { AllWithin (λ span. number ≤ span.last) spans.now result (length spans.now) }
{
    spans.partition_point(|span| span.last < number)
}

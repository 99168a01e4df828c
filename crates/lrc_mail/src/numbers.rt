// The numbers of messages taken from one node.

ghost use Rattle.std.specs.Prelude.{◌≡◌, suc, ◌+◌, ◌-◌, ◌<◌, ◌≤◌, ◌==◌, true, false, OnOk, [], length, nat_lt, slice_index_or};
ghost use Rattle.std.specs.List.{AllWithin, list_any};
ghost use Rattle.lrc_store.specs.Order.{placed};
ghost use Rattle.lrc_mail.specs.declared.numbers.Span.{Span};
ghost use Rattle.lrc_mail.specs.Spans.{spanned, AreSpans, IsClear, Puts};

use std::alloc::{AllocError, Global};
use std::marker::Model;

/// The numbers from `first` to `last`, both included.
#[derive(Clone, Copy)]
pub struct Span {
    pub first: u32,
    pub last: u32,
}

/// A set of numbers, kept as ascending spans with a gap between each two. So numbers that are added in order cost
/// constant memory.
#[derive(Drop)]
pub struct Numbers {
    spans: Vec<Span>,
}

impl Model for Numbers {
    ghost use Rattle.std.specs.Prelude.{ℕ, List};

    ghost Value = { List ℕ };

    ghost use Rattle.lrc_mail.specs.Spans.{spanned, AreSpans};

    ghost view = { λ n. spanned n.spans.items };

    ghost invariant = { λ n. AreSpans n.spans.items };
}

impl Numbers {
    /// Returns an empty set.
    pub fn empty(alloc: Global) -> Self
        ensures { result ≡ [] }
    {
        Numbers {
            spans: Vec::new(alloc),
        }
    }

    /// Returns how many numbers the set has.
    pub fn count(&self) -> u64
        ensures { result ≡ length self.now }
    {
        let mut count = 0;
        for span in &self.spans {
            let last = span.last;
            count += u64::from(last - span.first) + 1;
        }
        count
    }

    /// Returns whether the set contains this number.
    pub fn contains(&self, number: u32) -> bool
        ensures { result ≡ list_any (λ n. n == number) self.now }
    {
        let spans = self.spans.as_slice();
        match spans.get(place_of(spans, number)) {
            Some(span) => span.first <= number,
            None => false,
        }
    }

    /// Adds a number that is not in the set, at its place.
    pub fn add(&mut self, number: u32) -> Result<(), AllocError>
        requires { list_any (λ n. n == number) self.old ≡ false }
        ensures { OnOk result (self.new ≡ placed nat_lt number self.old) }
    {
        let place = place_of(&self.spans, number);
        put(&mut self.spans, place, number)
    }
}

// Puts a number among spans at a place: those before it end below the number, the others begin above it.
fn put(spans: &mut Vec<Span>, place: usize, number: u32) -> Result<(), AllocError>
    requires are { AreSpans spans.old.items }
    requires bound { place ≤ length spans.old.items }
    requires before { AllWithin (λ span. span.last < number) spans.old.items 0 place }
    requires from { AllWithin (λ span. number < span.first) spans.old.items place
        (length spans.old.items) }
    ensures are { AreSpans spans.new.items }
    ensures numbers { OnOk result (spanned spans.new.items
        ≡ placed nat_lt number (spanned spans.old.items)) }
{
    let joins = begins_next(spans, place, number);
    if ended_before(spans, place, number) {
        lengthen(spans, place - 1, number, joins);
    } else if joins {
        let last = spans[place].last;
        spans[place] = Span {
            first: number,
            last,
        };
    } else {
        spans.insert(
            place,
            Span {
                first: number,
                last: number,
            },
        )?;
    }
    Ok(())
}

// Whether the span at a place begins just above a number. It doesn't begin below.
fn begins_next(spans: &[Span], place: usize, number: u32) -> bool
    requires { (d : Span) → place < length spans.now
        → number < (slice_index_or spans.now place d).first }
    ensures yes { result ≡ true → (place < length spans.now)
        × ((d : Span) → (slice_index_or spans.now place d).first ≡ number + 1) }
    ensures no { result ≡ false → IsClear number spans.now place }
{
    place < spans.len() && spans[place].first - number == 1
}

// Whether the span before a place ends just below a number. It doesn't end above.
fn ended_before(spans: &[Span], place: usize, number: u32) -> bool
    requires are { AreSpans spans.now }
    requires bound { place ≤ length spans.now }
    requires before { AllWithin (λ span. span.last < number) spans.now 0 place }
    ensures yes { result ≡ true → (1 ≤ place)
        × ((d : Span) → (slice_index_or spans.now (place - 1) d).last + 1 ≡ number) }
    ensures no { result ≡ false → AllWithin (λ span. span.last + 1 < number) spans.now 0 place }
{
    place > 0 && number - spans[place - 1].last == 1
}

// Lets the span at a place, which ends just below a number, end with that number, or, where the next span begins just
// above it, with that span.
fn lengthen(spans: &mut Vec<Span>, place: usize, number: u32, joins: bool)
    requires are { AreSpans spans.old.items }
    requires before { AllWithin (λ span. span.last < number) spans.old.items 0 place }
    requires place { place < length spans.old.items }
    requires ends { (d : Span) → (slice_index_or spans.old.items place d).last + 1 ≡ number }
    requires joins { joins ≡ true → (suc place < length spans.old.items)
        × ((d : Span) → (slice_index_or spans.old.items (suc place) d).first ≡ number + 1) }
    requires apart { joins ≡ false → IsClear number spans.old.items (suc place) }
    ensures { Puts number 0 spans.old.items spans.new.items }
{
    let first = spans[place].first;
    if joins {
        let next = spans.remove(place + 1);
        spans[place] = Span {
            first,
            last: next.last,
        };
    } else {
        spans[place] = Span {
            first,
            last: number,
        };
    }
}

// The place of the first span that does not end below this number.
fn place_of(spans: &[Span], number: u32) -> usize
    requires { AreSpans spans.now }
    ensures bound { result ≤ length spans.now }
    ensures before { AllWithin (λ span. span.last < number) spans.now 0 result }
    ensures from { AllWithin (λ span. number ≤ span.last) spans.now result (length spans.now) }
{
    spans.partition_point(|span| span.last < number)
}

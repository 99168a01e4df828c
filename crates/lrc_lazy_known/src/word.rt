// What is kept of the writes of one word that are known, and how an act changes it.

ghost use Rattle.std.specs.Prelude.{◌≡◌, ◌≢◌, ◌≤◌, ◌<◌, ◌⊎◌, ◌↔◌, ◌^◌, ◌+◌, ◌-◌, ℕ, IfOk, OnOk, Contains, Some, [], length, max, slice_get, slice_index_or, false, true};
ghost use Rattle.std.specs.Bool.{OnTrue};
ghost use Rattle.lrc_lazy_known.specs.Word.{above_by, above_learned, above_then, above_written, is_above, is_ordered, last_by, last_of, last_then, number_before, row_of, source_by, source_of, values_of, IsLearned, IsSame, IsWithout, IsWritten};
ghost use Rattle.lrc_lazy_known.specs.Made.{last_learned, last_written, values_taught, IsCopyOf, IsKnownWithout, IsLearnedBy, IsNothing, IsWrittenBy, KnowsNothing};
ghost use Rattle.lrc_lazy_known.specs.declared.known.Known.{Known as KnownType};
ghost use Rattle.lrc_lazy_known.specs.declared.word.Effect.TheVariants.{Writes};
ghost use Rattle.lrc_lazy_known.specs.Effect.{IsAfter, IsSmall};
ghost use Rattle.lrc_lazy_known.specs.Tidy.{EndsIn, IsCut, IsRising, IsSomething, IsTidyKnown, IsTidyWord, IsWrittenAs};

use crate::known::{Known, Last};
use std::alloc::{AllocError, Global};
use std::rc::Rc;

/// Whose last write becomes the learner's when it learns what a teacher knows: its own, the teacher's, or neither's.
#[derive(Clone, Copy)]
pub enum Source {
    Own,
    Taught,
    Neither,
}

/// How an act changes what is known.
#[derive(Clone, Copy)]
pub enum Effect {
    /// The act changes nothing.
    Passes,
    /// A knower writes a value: the knower, the word and the value.
    Writes(usize, usize, u64),
    /// The first knower learns what the second knows.
    Learns(usize, usize),
}

/// Returns what a knower knows of the last write.
pub fn last_of(word: &[Known], knower: usize) -> Last
    ensures { result ≡ last_of word.now knower }
{
    match word.get(knower) {
        Some(known) => known.last,
        None => Last::Nothing,
    }
}

/// Returns the values of the writes that a knower knows.
pub fn values_of(word: &[Known], knower: usize) -> &[u64]
    ensures { result.now ≡ values_of word.now knower }
{
    match word.get(knower) {
        Some(known) => known.values.as_ref().as_slice(),
        None => &[],
    }
}

// The same, in a list that is shared where something is known. It fails if memory runs out.
fn values_shared(alloc: Global, word: &[Known], knower: usize) -> Result<Rc<Vec<u64>>, AllocError>
    ensures { IfOk result (λ all. all.value.items ≡ values_of word.now knower) }
{
    match word.get(knower) {
        Some(known) => known.values.clone(),
        None => Ok(Rc::new(alloc, Vec::new(alloc))?),
    }
}

// Whose last writes one knows.
fn row_of(word: &[Known], knower: usize) -> &[bool]
    ensures { result.now ≡ row_of word.now knower }
{
    match word.get(knower) {
        Some(known) => &known.above,
        None => &[],
    }
}

// Whether one knows the last write of another.
fn is_above(word: &[Known], knower: usize, other: usize) -> bool
    ensures { result ≡ is_above word.now knower other }
{
    match row_of(word, knower).get(other) {
        Some(above) => *above,
        None => false,
    }
}

// Whose last write is the last.
fn source_by(own: Last, taught: Last, has_it: bool, is_had: bool) -> Source
    ensures { result ≡ source_by own taught has_it is_had }
{
    match (own, taught) {
        (_, Last::Nothing) => Source::Own,
        (Last::Nothing, _) => Source::Taught,
        (Last::Value(_), Last::Value(_)) => {
            if has_it {
                Source::Own
            } else if is_had {
                Source::Taught
            } else {
                Source::Neither
            }
        }
        _ => Source::Neither,
    }
}

// The same of two of those who know.
fn source_of(word: &[Known], learner: usize, teacher: usize) -> Source
    ensures { result ≡ source_of word.now learner teacher }
{
    source_by(
        last_of(word, learner),
        last_of(word, teacher),
        is_above(word, learner, teacher),
        is_above(word, teacher, learner),
    )
}

// The last write of what the learner knows then.
fn last_by(source: Source, own: Last, taught: Last) -> Last
    ensures { result ≡ last_by source own taught }
{
    match source {
        Source::Own => own,
        Source::Taught => taught,
        Source::Neither => Last::Unordered,
    }
}

// What one knows of the last write then.
fn last_learned(word: &[Known], learner: usize, teacher: usize, knower: usize) -> Last
    ensures { result ≡ last_learned word.now learner teacher knower }
{
    if knower == learner {
        let source = source_of(word, learner, teacher);
        last_by(source, last_of(word, learner), last_of(word, teacher))
    } else {
        last_of(word, knower)
    }
}

// Whether all values stand in the list, in this order. Where both rise, that is so if the list has them all.
fn has_all(list: &[u64], values: &[u64]) -> bool
    ensures { OnTrue result ((v : ℕ) → Contains values.now v → Contains list.now v) }
{
    let mut found = 0;
    for value in list {
        if found < values.len() && values[found] == *value {
            found += 1;
        }
    }
    found == values.len()
}

// The values of the writes that one or the other knows. The list is shared with one who knows them all, if there is one.
fn values_of_both(
    alloc: Global,
    word: &[Known],
    one: usize,
    other: usize,
) -> Result<Rc<Vec<u64>>, AllocError>
    ensures values { IfOk result (λ all. (v : ℕ) → (Contains all.value.items v
        ↔ (Contains (values_of word.now one) v ⊎ Contains (values_of word.now other) v))) }
    ensures rising { IfOk result (λ all. IsTidyWord word.now → IsRising all.value.items) }
{
    let own = values_of(word, one);
    let more = values_of(word, other);
    if has_all(own, more) {
        return values_shared(alloc, word, one);
    }
    if has_all(more, own) {
        return values_shared(alloc, word, other);
    }
    let both = joined(alloc, own, more)?;
    Ok(Rc::new(alloc, both)?)
}

// The values of the writes that one then knows.
fn values_learned(
    alloc: Global,
    word: &[Known],
    learner: usize,
    teacher: usize,
    knower: usize,
) -> Result<Rc<Vec<u64>>, AllocError>
    ensures values { IfOk result (λ all. (v : ℕ)
        → (Contains all.value.items v ↔ (Contains (values_of word.now knower) v
        ⊎ Contains (values_taught word.now learner teacher knower) v))) }
    ensures rising { IfOk result (λ all. IsTidyWord word.now → IsRising all.value.items) }
{
    if knower == learner {
        values_of_both(alloc, word, knower, teacher)
    } else {
        values_shared(alloc, word, knower)
    }
}

// Whether one then knows the last write that another had.
fn is_above_then(
    word: &[Known],
    learner: usize,
    teacher: usize,
    knower: usize,
    other: usize,
) -> bool
    ensures { result ≡ above_then word.now learner teacher knower other }
{
    is_above(word, knower, other) || (knower == learner && is_above(word, teacher, other))
}

// Whether one then knows the last write that another has.
fn is_above_learned(
    word: &[Known],
    learner: usize,
    teacher: usize,
    knower: usize,
    other: usize,
) -> bool
    ensures { result ≡ above_learned word.now learner teacher knower other }
{
    if other == learner {
        match source_of(word, learner, teacher) {
            Source::Own => is_above_then(word, learner, teacher, knower, learner),
            Source::Taught => is_above_then(word, learner, teacher, knower, teacher),
            Source::Neither => false,
        }
    } else {
        is_above_then(word, learner, teacher, knower, other)
    }
}

// Whose last writes one then knows.
fn row_learned(
    alloc: Global,
    word: &[Known],
    learner: usize,
    teacher: usize,
    knower: usize,
) -> Result<Vec<bool>, AllocError>
    requires { learner < 2 ^ 64 - 1 }
    ensures above { IfOk result (λ row. (z : ℕ)
        → slice_index_or row.items z false ≡ above_learned word.now learner teacher knower z) }
    ensures ends { IfOk result (λ row. EndsIn (λ b. b ≡ true) row.items) }
{
    let own = row_of(word, knower);
    let taught = row_of(word, teacher);
    let width = past(wider(own.len(), taught.len()), learner);
    let mut row = Vec::new(alloc);
    for other in 0..width {
        row.push(is_above_learned(word, learner, teacher, knower, other))?;
    }
    cut_row(&mut row);
    Ok(row)
}

// What one then knows.
fn learned_by(
    alloc: Global,
    word: &[Known],
    learner: usize,
    teacher: usize,
    knower: usize,
) -> Result<Known, AllocError>
    requires { learner < 2 ^ 64 - 1 }
    ensures learned { IfOk result (IsLearnedBy word.now learner teacher knower) }
    ensures tidy { IfOk result (λ known. IsTidyWord word.now → IsTidyKnown known) }
{
    let last = last_learned(word, learner, teacher, knower);
    let values = values_learned(alloc, word, learner, teacher, knower)?;
    let above = row_learned(alloc, word, learner, teacher, knower)?;
    Ok(Known {
        last,
        values,
        above,
    })
}

// What is known after one learns what another knows.
fn learned(
    alloc: Global,
    word: &[Known],
    learner: usize,
    teacher: usize,
) -> Result<Vec<Known>, AllocError>
    requires { learner < 2 ^ 64 - 1 }
    ensures learned { IfOk result (λ after. IsLearned word.now learner teacher after.items) }
    ensures tidy { IfOk result (λ after. IsTidyWord word.now → IsTidyWord after.items) }
{
    let count = past(word.len(), learner);
    let mut after = Vec::new(alloc);
    for knower in 0..count {
        after.push(learned_by(alloc, word, learner, teacher, knower)?)?;
    }
    cut_word(&mut after);
    Ok(after)
}

// The last write of what its writer knows.
fn last_then(last: Last, value: u64) -> Last
    ensures { result ≡ last_then last value }
{
    match last {
        Last::Unordered => Last::Unordered,
        _ => Last::Value(value),
    }
}

// What one knows of the last write then.
fn last_written(word: &[Known], writer: usize, value: u64, knower: usize) -> Last
    ensures { result ≡ last_written word.now writer value knower }
{
    if knower == writer {
        last_then(last_of(word, writer), value)
    } else {
        last_of(word, knower)
    }
}

// The values of the writes that one then knows.
fn values_written(
    alloc: Global,
    word: &[Known],
    writer: usize,
    value: u64,
    knower: usize,
) -> Result<Rc<Vec<u64>>, AllocError>
    ensures values { IfOk result (λ all. (v : ℕ)
        → (Contains all.value.items v ↔
        (Contains (values_of word.now knower) v ⊎ ((knower ≡ writer) × (v ≡ value))))) }
    ensures rising { IfOk result (λ all. IsRising (values_of word.now knower)
        → IsRising all.value.items) }
{
    if knower == writer {
        let all = values_with(alloc, values_of(word, knower), value)?;
        Ok(Rc::new(alloc, all)?)
    } else {
        values_shared(alloc, word, knower)
    }
}

// Whether the writes are ordered.
fn is_ordered(last: Last) -> bool
    ensures { result ≡ is_ordered last }
{
    match last {
        Last::Unordered => false,
        _ => true,
    }
}

// Whether one then knows the last write of another.
fn is_above_written(word: &[Known], writer: usize, knower: usize, other: usize) -> bool
    ensures { result ≡ above_written word.now writer knower other }
{
    if other == writer {
        knower == writer && is_ordered(last_of(word, writer))
    } else {
        is_above(word, knower, other)
    }
}

// Whose last writes one then knows.
fn row_written(
    alloc: Global,
    word: &[Known],
    writer: usize,
    knower: usize,
) -> Result<Vec<bool>, AllocError>
    requires { writer < 2 ^ 64 - 1 }
    ensures above { IfOk result (λ row. (z : ℕ)
        → slice_index_or row.items z false ≡ above_written word.now writer knower z) }
    ensures ends { IfOk result (λ row. EndsIn (λ b. b ≡ true) row.items) }
{
    let own = row_of(word, knower);
    let width = past(own.len(), writer);
    let mut row = Vec::new(alloc);
    for other in 0..width {
        row.push(is_above_written(word, writer, knower, other))?;
    }
    cut_row(&mut row);
    Ok(row)
}

// What one then knows.
fn written_by(
    alloc: Global,
    word: &[Known],
    writer: usize,
    value: u64,
    knower: usize,
) -> Result<Known, AllocError>
    requires { writer < 2 ^ 64 - 1 }
    ensures written { IfOk result (IsWrittenBy word.now writer value knower) }
    ensures tidy { IfOk result (λ known. IsTidyWord word.now → IsTidyKnown known) }
{
    let last = last_written(word, writer, value, knower);
    let values = values_written(alloc, word, writer, value, knower)?;
    let above = row_written(alloc, word, writer, knower)?;
    Ok(Known {
        last,
        values,
        above,
    })
}

// What is known after one writes a value.
fn written(
    alloc: Global,
    word: &[Known],
    writer: usize,
    value: u64,
) -> Result<Vec<Known>, AllocError>
    requires { writer < 2 ^ 64 - 1 }
    ensures written { IfOk result (λ after. IsWritten word.now writer value after.items) }
    ensures tidy { IfOk result (λ after. IsTidyWord word.now → IsTidyWord after.items) }
{
    let count = past(word.len(), writer);
    let mut after = Vec::new(alloc);
    for knower in 0..count {
        after.push(written_by(alloc, word, writer, value, knower)?)?;
    }
    cut_word(&mut after);
    Ok(after)
}

// The same as one knows.
fn copy_of(alloc: Global, word: &[Known], knower: usize) -> Result<Known, AllocError>
    ensures same { IfOk result (IsCopyOf word.now knower) }
    ensures written { IfOk result (IsWrittenAs word.now knower) }
{
    Ok(Known {
        last: last_of(word, knower),
        values: values_shared(alloc, word, knower)?,
        above: copied(alloc, row_of(word, knower))?,
    })
}

// The same.
fn same(alloc: Global, word: &[Known]) -> Result<Vec<Known>, AllocError>
    ensures same { IfOk result (λ after. IsSame word.now after.items) }
    ensures tidy { IfOk result (λ after. IsTidyWord word.now → IsTidyWord after.items) }
{
    let mut after = Vec::new(alloc);
    for knower in 0..word.len() {
        after.push(copy_of(alloc, word, knower)?)?;
    }
    Ok(after)
}

/// Returns what is known of a word after an act with this effect; `number` is the word's number. It fails if memory
/// runs out.
pub fn word_after(
    alloc: Global,
    word: &[Known],
    effect: Effect,
    number: usize,
) -> Result<Vec<Known>, AllocError>
    requires { IsSmall effect }
    ensures after { IfOk result (λ after. IsAfter effect number word.now after.items) }
    ensures tidy { IfOk result (λ after. IsTidyWord word.now → IsTidyWord after.items) }
    ensures written { (writer value : ℕ) → effect ≡ Writes writer number value
        → IfOk result (λ after. after.items ≢ []) }
{
    match effect {
        Effect::Passes => same(alloc, word),
        Effect::Writes(writer, of, value) => {
            if of == number {
                written(alloc, word, writer, value)
            } else {
                same(alloc, word)
            }
        }
        Effect::Learns(learner, teacher) => match last_of(word, teacher) {
            Last::Nothing => same(alloc, word),
            _ => learned(alloc, word, learner, teacher),
        },
    }
}

// How many of a list's items are left, where those of so many numbers from the first on are dropped.
fn count_without(count: usize, first: usize, dropped: usize) -> usize
    ensures within { (k : ℕ) → k < result → number_before first dropped k < count }
    ensures past { (k : ℕ) → result ≤ k → count ≤ number_before first dropped k }
{
    if count <= first {
        count
    } else if count - first <= dropped {
        first
    } else {
        count - dropped
    }
}

// The number that one of those who are left had before.
fn number_before(first: usize, dropped: usize, knower: usize) -> usize
    requires { number_before first dropped knower < 2 ^ 64 }
    ensures { result ≡ number_before first dropped knower }
{
    if knower < first {
        knower
    } else {
        knower + dropped
    }
}

// How long a row is up to the last one whose last write is known.
fn width_of(row: &[bool]) -> usize
    ensures blank { (z : ℕ) → result ≤ z → slice_index_or row.now z false ≡ false }
    ensures within { result ≤ length row.now }
    ensures known { (k : ℕ) → result ≡ k + 1 → slice_index_or row.now k false ≡ true }
{
    let mut width = row.len();
    while width > 0 {
        if row[width - 1] {
            return width;
        }
        width -= 1;
    }
    0
}

// Cuts off the end of a row, behind the last one whose last write is known.
fn cut_row(row: &mut Vec<bool>)
    ensures same { (z : ℕ)
        → slice_index_or row.new.items z false ≡ slice_index_or row.old.items z false }
    ensures ends { EndsIn (λ b. b ≡ true) row.new.items }
{
    let width = width_of(row.as_slice());
    row.truncate(width);
}

// Whether one knows nothing.
fn knows_nothing(known: &Known) -> bool
    ensures nothing { result ≡ true → IsNothing known.now }
    ensures something { IsNothing known.now → result ≡ true }
{
    match known.last {
        Last::Nothing => known.values.as_ref().is_empty() && known.above.is_empty(),
        _ => false,
    }
}

// How many there are up to the last one who knows something.
fn count_who_know(word: &[Known]) -> usize
    ensures blank { (k : ℕ) → result ≤ k → KnowsNothing word.now k }
    ensures within { result ≤ length word.now }
    ensures known { (k : ℕ) (known : KnownType) → result ≡ k + 1
        → slice_get word.now k ≡ Some known → IsSomething known }
{
    let mut count = word.len();
    while count > 0 {
        if !knows_nothing(&word[count - 1]) {
            return count;
        }
        count -= 1;
    }
    0
}

// Cuts off the end of those who know, behind the last one who knows something.
fn cut_word(word: &mut Vec<Known>)
    ensures { IsCut word.old.items word.new.items }
{
    let count = count_who_know(word.as_slice());
    word.truncate(count);
}

// Whose last writes one knows, of those who are left.
fn row_without(
    alloc: Global,
    row: &[bool],
    first: usize,
    dropped: usize,
) -> Result<Vec<bool>, AllocError>
    ensures above { IfOk result (λ left. (z : ℕ) → slice_index_or left.items z false
        ≡ slice_index_or row.now (number_before first dropped z) false) }
    ensures ends { IfOk result (λ left. EndsIn (λ b. b ≡ true) left.items) }
{
    let width = count_without(row.len(), first, dropped);
    let mut left = Vec::new(alloc);
    for other in 0..width {
        left.push(row[number_before(first, dropped, other)])?;
    }
    cut_row(&mut left);
    Ok(left)
}

// What one of those who are left knows.
fn known_without(
    alloc: Global,
    word: &[Known],
    first: usize,
    dropped: usize,
    knower: usize,
) -> Result<Known, AllocError>
    requires { number_before first dropped knower < 2 ^ 64 }
    ensures left { IfOk result (IsKnownWithout word.now first dropped knower) }
    ensures tidy { IfOk result (λ known. IsTidyWord word.now → IsTidyKnown known) }
{
    let before = number_before(first, dropped, knower);
    Ok(Known {
        last: last_of(word, before),
        values: values_shared(alloc, word, before)?,
        above: row_without(alloc, row_of(word, before), first, dropped)?,
    })
}

/// Returns what is known of a word by those who are left, where those of so many numbers from the first on are dropped.
/// It fails if memory runs out.
pub fn word_without(
    alloc: Global,
    word: &[Known],
    first: usize,
    dropped: usize,
) -> Result<Vec<Known>, AllocError>
    ensures left { IfOk result (λ left. IsWithout first dropped word.now left.items) }
    ensures tidy { IfOk result (λ after. IsTidyWord word.now → IsTidyWord after.items) }
{
    let count = count_without(word.len(), first, dropped);
    let mut left = Vec::new(alloc);
    for knower in 0..count {
        left.push(known_without(alloc, word, first, dropped, knower)?)?;
    }
    cut_word(&mut left);
    Ok(left)
}

// The values of both.
fn joined(alloc: Global, own: &[u64], more: &[u64]) -> Result<Vec<u64>, AllocError>
    ensures values { IfOk result (λ all. (v : ℕ)
        → (Contains all.items v ↔ (Contains own.now v ⊎ Contains more.now v))) }
    ensures rising { IfOk result (λ all. IsRising own.now → IsRising all.items) }
{
    let mut all = copied(alloc, own)?;
    for place in 0..more.len() {
        with_value(&mut all, more[place])?;
    }
    Ok(all)
}

/// Returns a list of exactly these values and this one. Where the values rise, so does the list: no value is there twice.
/// It fails if memory runs out.
pub fn values_with(alloc: Global, values: &[u64], value: u64) -> Result<Vec<u64>, AllocError>
    ensures values { IfOk result (λ all. (v : ℕ)
        → (Contains all.items v ↔ (Contains values.now v ⊎ (v ≡ value)))) }
    ensures rising { IfOk result (λ all. IsRising values.now → IsRising all.items) }
{
    let mut all = Vec::with_capacity(alloc, values.len().saturating_add(1))?;
    all.extend_from_slice(values)?;
    with_value(&mut all, value)?;
    Ok(all)
}

// Puts a value before the first that is greater, if it is not there.
fn with_value(values: &mut Vec<u64>, value: u64) -> Result<(), AllocError>
    ensures values { OnOk result ((v : ℕ) → (Contains values.new.items v
        ↔ (Contains values.old.items v ⊎ (v ≡ value)))) }
    ensures rising { OnOk result (IsRising values.old.items → IsRising values.new.items) }
{
    for place in 0..values.len() {
        if values[place] == value {
            return Ok(());
        }
        if values[place] > value {
            values.insert(place, value)?;
            return Ok(());
        }
    }
    values.push(value)?;
    Ok(())
}

/// Returns a copy of a list. It fails if memory runs out.
pub fn copied<T: Copy>(alloc: Global, items: &[T]) -> Result<Vec<T>, AllocError>
    ensures { IfOk result (λ copy. copy.items ≡ items.now) }
{
    let mut copy = Vec::new(alloc);
    copy.extend_from_slice(items)?;
    Ok(copy)
}

// The greater of two.
fn wider(one: usize, other: usize) -> usize
    ensures one { one ≤ result }
    ensures other { other ≤ result }
{
    if one < other { other } else { one }
}

/// Returns the least count that is at least `count` and greater than `number`.
pub fn past(count: usize, number: usize) -> usize
    requires { number < 2 ^ 64 - 1 }
    ensures count { count ≤ result }
    ensures number { number < result }
    ensures least { result ≡ max count (number + 1) }
{
    if number < count { count } else { number + 1 }
}

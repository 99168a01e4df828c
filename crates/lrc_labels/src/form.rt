// What a label line says by itself.

ghost use Rattle.std.specs.Prelude.{◌≡◌, ◌<◌, ◌≤◌, ◌&&◌, ◌∷◌, [], Err, IfOk, IfSome, MatchResult, None, Ok, Some, if◌then◌else◌, map, nat_le, nat_lt, true};
ghost use Rattle.std.specs.List.{list_all};
ghost use Rattle.std.specs.Str.Parse.{digits_value};
ghost use Rattle.lrc_labels.specs.Name.{is_numeral};
ghost use Rattle.lrc_labels.specs.Reading.{first_of, form_seen, if_filled, last_of, locks_label, reading_of, several_label, single_label, size_fields, words_label};
ghost use Rattle.lrc_labels.specs.Sizes.{is_size, sizes_of};

use crate::label::{Reason, Target};
use crate::name::{is_name, is_numeral, number_below};
use crate::sizes::{are_sizes, fills};

/// A label without its sizes.
#[derive(Clone, Copy)]
pub struct Form<'t> {
    pub target: Target,
    pub name: &'t [u8],
}

/// Reads a label from the fields of a label line, in a program with this many words and locks. It fails, with the first
/// reason that applies, if they form no valid label. It does not look at other labels.
pub fn reading_of<'t>(fields: &[&'t [u8]], words: u32, locks: u8) -> Result<Form<'t>, Reason>
    ensures is { let fields_are = map (λ field. field.now) fields.now in
        MatchResult result (λ form. reading_of words locks fields_are
        ≡ Ok (form_seen form (sizes_of (size_fields fields_are))))
        (λ reason. reading_of words locks fields_are ≡ Err reason) }
    ensures sizes { IfOk result (λ form.
        list_all is_size (size_fields (map (λ field. field.now) fields.now)) ≡ true) }
    ensures ends { IfOk result (λ form. first_of form.target ≤ last_of form.target) }
{
    match fields {
        [kind, number, name] => reading_of_three(kind, number, name, words, locks),
        [kind, first, last, name, sizes @ ..] => {
            reading_of_several(kind, first, last, name, sizes, words, locks)
        }
        [] | [_] | [_, _] => Err(Reason::AnotherForm),
    }
}

fn reading_of_three<'t>(
    kind: &[u8],
    number: &[u8],
    name: &'t [u8],
    words: u32,
    locks: u8,
) -> Result<Form<'t>, Reason>
    ensures is { MatchResult result (λ form.
        reading_of words locks (kind.now ∷ number.now ∷ name.entry.now ∷ [])
        ≡ Ok (form_seen form []))
        (λ reason. reading_of words locks (kind.now ∷ number.now ∷ name.entry.now ∷ [])
        ≡ Err reason) }
    ensures ends { IfOk result (λ form. first_of form.target ≤ last_of form.target) }
{
    if is_numeral(number) && is_name(name) {
        single_label(kind, number, name, words, locks)
    } else {
        Err(Reason::AnotherForm)
    }
}

fn reading_of_several<'t>(
    kind: &[u8],
    first: &[u8],
    last: &[u8],
    name: &'t [u8],
    sizes: &[&[u8]],
    words: u32,
    locks: u8,
) -> Result<Form<'t>, Reason>
    ensures is { let sizes_are = map (λ size. size.now) sizes.now in
        let label_is = reading_of words locks
        (kind.now ∷ first.now ∷ last.now ∷ name.entry.now ∷ sizes_are) in
        MatchResult result (λ form. label_is ≡ Ok (form_seen form (sizes_of sizes_are)))
        (λ reason. label_is ≡ Err reason) }
    ensures sizes { IfOk result (λ form.
        list_all is_size (map (λ size. size.now) sizes.now) ≡ true) }
    ensures ends { IfOk result (λ form. first_of form.target ≤ last_of form.target) }
{
    if is_numeral(first) && is_numeral(last) && is_name(name) && are_sizes(sizes) {
        several_label(kind, first, last, name, sizes, words, locks)
    } else {
        Err(Reason::AnotherForm)
    }
}

// The label of one word or of one lock.
fn single_label<'t>(
    kind: &[u8],
    number: &[u8],
    name: &'t [u8],
    words: u32,
    locks: u8,
) -> Result<Form<'t>, Reason>
    requires { is_numeral number.now ≡ true }
    ensures is { MatchResult result (λ form.
        single_label words locks kind.now (digits_value 10 number.now) name.entry.now
        ≡ Ok (form_seen form []))
        (λ reason. single_label words locks kind.now (digits_value 10 number.now) name.entry.now
        ≡ Err reason) }
    ensures ends { IfOk result (λ form. first_of form.target ≤ last_of form.target) }
{
    if kind == b"word".as_slice() {
        match number_below(number, words) {
            Some(word) => Ok(Form {
                target: Target::Word(word),
                name,
            }),
            None => Err(Reason::NoSuchWord),
        }
    } else if kind == b"lock".as_slice() {
        match number_below(number, u32::from(locks)) {
            Some(lock) => Ok(Form {
                target: Target::Lock(lock as u8),
                name,
            }),
            None => Err(Reason::NoSuchLock),
        }
    } else {
        Err(Reason::AnotherForm)
    }
}

// The label of the words or of the locks from a first to a last.
fn several_label<'t>(
    kind: &[u8],
    first: &[u8],
    last: &[u8],
    name: &'t [u8],
    sizes: &[&[u8]],
    words: u32,
    locks: u8,
) -> Result<Form<'t>, Reason>
    requires first { is_numeral first.now ≡ true }
    requires last { is_numeral last.now ≡ true }
    requires sizes { list_all is_size (map (λ size. size.now) sizes.now) ≡ true }
    ensures is { let label_is = several_label words locks kind.now (digits_value 10 first.now)
        (digits_value 10 last.now) name.entry.now
        (sizes_of (map (λ size. size.now) sizes.now)) in
        MatchResult result (λ form. label_is
        ≡ Ok (form_seen form (sizes_of (map (λ size. size.now) sizes.now))))
        (λ reason. label_is ≡ Err reason) }
    ensures ends { IfOk result (λ form. first_of form.target ≤ last_of form.target) }
{
    if kind == b"words".as_slice() {
        words_label(first, last, name, sizes, words)
    } else if kind == b"locks".as_slice() {
        locks_label(first, last, name, sizes, locks)
    } else {
        Err(Reason::AnotherForm)
    }
}

fn words_label<'t>(
    first: &[u8],
    last: &[u8],
    name: &'t [u8],
    sizes: &[&[u8]],
    words: u32,
) -> Result<Form<'t>, Reason>
    requires first { is_numeral first.now ≡ true }
    requires last { is_numeral last.now ≡ true }
    requires sizes { list_all is_size (map (λ size. size.now) sizes.now) ≡ true }
    ensures is { let label_is = words_label words (digits_value 10 first.now)
        (digits_value 10 last.now) name.entry.now
        (sizes_of (map (λ size. size.now) sizes.now)) in
        MatchResult result (λ form. label_is
        ≡ Ok (form_seen form (sizes_of (map (λ size. size.now) sizes.now))))
        (λ reason. label_is ≡ Err reason) }
    ensures ends { IfOk result (λ form. first_of form.target ≤ last_of form.target) }
{
    let Some((first_word, last_word)) = range_of(first, last, words) else {
        return Err(Reason::NoSuchWord);
    };
    let target = Target::Words(first_word, last_word);
    if_filled(last_word + 1 - first_word, Form { target, name }, sizes)
}

fn locks_label<'t>(
    first: &[u8],
    last: &[u8],
    name: &'t [u8],
    sizes: &[&[u8]],
    locks: u8,
) -> Result<Form<'t>, Reason>
    requires first { is_numeral first.now ≡ true }
    requires last { is_numeral last.now ≡ true }
    requires sizes { list_all is_size (map (λ size. size.now) sizes.now) ≡ true }
    ensures is { let label_is = locks_label locks (digits_value 10 first.now)
        (digits_value 10 last.now) name.entry.now
        (sizes_of (map (λ size. size.now) sizes.now)) in
        MatchResult result (λ form. label_is
        ≡ Ok (form_seen form (sizes_of (map (λ size. size.now) sizes.now))))
        (λ reason. label_is ≡ Err reason) }
    ensures ends { IfOk result (λ form. first_of form.target ≤ last_of form.target) }
{
    let Some((first_lock, last_lock)) = range_of(first, last, u32::from(locks)) else {
        return Err(Reason::NoSuchLock);
    };
    let target = Target::Locks(first_lock as u8, last_lock as u8);
    if_filled(last_lock + 1 - first_lock, Form { target, name }, sizes)
}

// The first and the last number that these digits write, if they are in order and below a limit.
fn range_of(first: &[u8], last: &[u8], limit: u32) -> Option<(u32, u32)>
    requires first { is_numeral first.now ≡ true }
    requires last { is_numeral last.now ≡ true }
    ensures is { result ≡ (if nat_lt (digits_value 10 last.now) limit
        && nat_le (digits_value 10 first.now) (digits_value 10 last.now) then Some
        (digits_value 10 first.now, digits_value 10 last.now) else None) }
    ensures within { IfSome result (λ ends. (ends.0 ≤ ends.1) × (ends.1 < limit)) }
{
    let last_number = number_below(last, limit)?;
    let first_number = number_below(first, last_number + 1)?;
    Some((first_number, last_number))
}

// The label of so many words or locks, unless they are no whole rows of its sizes.
fn if_filled<'t>(count: u32, form: Form<'t>, sizes: &[&[u8]]) -> Result<Form<'t>, Reason>
    requires { list_all is_size (map (λ size. size.now) sizes.now) ≡ true }
    ensures is { let sizes_are = sizes_of (map (λ size. size.now) sizes.now) in
        MatchResult result (λ same.
        if_filled count (form_seen form.entry sizes_are) ≡ Ok (form_seen same sizes_are))
        (λ reason. if_filled count (form_seen form.entry sizes_are) ≡ Err reason) }
    ensures same { IfOk result (λ same. same.target ≡ form.entry.target) }
{
    if fills(count, sizes) {
        Ok(form)
    } else {
        Err(Reason::AnotherForm)
    }
}

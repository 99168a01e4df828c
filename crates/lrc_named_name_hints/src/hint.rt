// Hints, and their words.

ghost use Rattle.std.specs.Prelude.{◌≡◌, ◌++◌, OnOk};
ghost use Rattle.lrc_named_name_hints.specs.declared.hint.Hint.TheVariants.{Arguments, DeclaredOn, Indices, Is, Near};
ghost use Rattle.lrc_named_name_hints.specs.Hint.{TellsWords, count_words, hint_line, hint_words, limit_words, sense_words};

use lrc_named_expression_faults::fault::Limit;
use lrc_text::push_number;
use std::alloc::AllocError;

/// What a name is.
#[derive(Clone, Copy)]
pub enum Sense {
    Lock,
    Constant,
    Function,
    Parameter,
    Shared,
    Private,
}

/// A hint on how to mend a fault of a name. Its bytes are names of the text.
#[derive(Clone, Copy)]
pub enum Hint<'t> {
    /// The line on which the name is declared.
    DeclaredOn(u32),
    /// What names that begin with `_` are.
    Reserved,
    /// How true and false are written.
    Truth,
    /// A name that is near.
    Near(&'t [u8]),
    /// What the name is.
    Is(&'t [u8], Sense),
    /// How many indices an item has.
    Indices(&'t [u8], usize),
    /// How many arguments a function takes.
    Arguments(&'t [u8], usize),
    /// What has no value before a run.
    NotConstant,
    /// What is over a limit.
    Over(Limit),
    TooManyNames,
}

/// Adds the line of a hint.
pub fn push_hint(out: &mut Vec<u8>, hint: Hint<'_>) -> Result<(), AllocError>
    ensures { OnOk result (out.new.items ≡ out.old.items ++ hint_line hint.entry) }
{
    out.extend_from_slice(b"  ")?;
    push_words(out, hint)?;
    out.extend_from_slice(b"\n")
}

fn push_words(out: &mut Vec<u8>, hint: Hint<'_>) -> Result<(), AllocError>
    ensures { OnOk result (out.new.items ≡ out.old.items ++ hint_words hint.entry) }
{
    match hint {
        Hint::DeclaredOn(line) => push_declared(out, line),
        Hint::Near(name) => push_near(out, name),
        Hint::Is(name, sense) => push_sense(out, name, sense),
        Hint::Indices(name, count) => push_indices(out, name, count),
        Hint::Arguments(name, count) => push_arguments(out, name, count),
        other => out.extend_from_slice(words_of(other)),
    }
}

fn push_declared(out: &mut Vec<u8>, line: u32) -> Result<(), AllocError>
    ensures { OnOk result (out.new.items ≡ out.old.items ++ hint_words (DeclaredOn line)) }
{
    push_number(out, b"declared on line ", u64::from(line))
}

fn push_near(out: &mut Vec<u8>, name: &[u8]) -> Result<(), AllocError>
    ensures { OnOk result (out.new.items ≡ out.old.items ++ hint_words (Near name.entry)) }
{
    out.extend_from_slice(b"did you mean `")?;
    out.extend_from_slice(name)?;
    out.extend_from_slice(b"`?")
}

fn push_sense(out: &mut Vec<u8>, name: &[u8], sense: Sense) -> Result<(), AllocError>
    ensures { OnOk result (out.new.items ≡ out.old.items ++ hint_words (Is name.entry sense)) }
{
    out.extend_from_slice(b"`")?;
    out.extend_from_slice(name)?;
    out.extend_from_slice(b"` is ")?;
    out.extend_from_slice(sense_words(sense))
}

fn sense_words(sense: Sense) -> &'static [u8]
    ensures { result.now ≡ sense_words sense }
{
    match sense {
        Sense::Lock => b"a lock",
        Sense::Constant => b"a constant",
        Sense::Function => b"a function",
        Sense::Parameter => b"a parameter",
        Sense::Shared => b"a shared item",
        Sense::Private => b"a private name",
    }
}

fn push_indices(out: &mut Vec<u8>, name: &[u8], count: usize) -> Result<(), AllocError>
    ensures { OnOk result (out.new.items ≡ out.old.items ++ hint_words (Indices name.entry count)) }
{
    out.extend_from_slice(b"`")?;
    out.extend_from_slice(name)?;
    out.extend_from_slice(b"` has ")?;
    push_count(out, count, b" index", b" indices")
}

fn push_arguments(out: &mut Vec<u8>, name: &[u8], count: usize) -> Result<(), AllocError>
    ensures { OnOk result (out.new.items
        ≡ out.old.items ++ hint_words (Arguments name.entry count)) }
{
    out.extend_from_slice(b"`")?;
    out.extend_from_slice(name)?;
    out.extend_from_slice(b"` takes ")?;
    push_count(out, count, b" argument", b" arguments")
}

// How many there are of something, which is called so where it is one, and so where there are several.
fn push_count(out: &mut Vec<u8>, count: usize, one: &[u8], several: &[u8]) -> Result<(), AllocError>
    ensures { OnOk result (out.new.items
        ≡ out.old.items ++ count_words count one.now several.now) }
{
    match count {
        0 => {
            out.extend_from_slice(b"no")?;
            out.extend_from_slice(one)
        }
        1 => {
            out.extend_from_slice(b"1")?;
            out.extend_from_slice(one)
        }
        _ => {
            push_number(out, b"", count as u64)?;
            out.extend_from_slice(several)
        }
    }
}

// The words of a hint that tells nothing of the text.
fn words_of(hint: Hint<'_>) -> &'static [u8]
    ensures { TellsWords hint.entry result.now }
{
    match hint {
        Hint::Reserved => b"names that begin with `_` are the translation's",
        Hint::Truth => b"write `1` for true, `0` for false",
        Hint::NotConstant => b"`me`, `nodes` and shared items have no value before a run",
        Hint::Over(limit) => limit_words(limit),
        Hint::TooManyNames => b"a text has at most 32 private names",
        Hint::DeclaredOn(_)
        | Hint::Near(_)
        | Hint::Is(_, _)
        | Hint::Indices(_, _)
        | Hint::Arguments(_, _) => b"",
    }
}

fn limit_words(limit: Limit) -> &'static [u8]
    ensures { result.now ≡ limit_words limit }
{
    match limit {
        Limit::NodeCount => b"nodes is 1 to 16",
        Limit::Body =>
            b"a function's body, with those that it calls, has at most 256 operators and calls",
        Limit::Division => b"this divides by zero",
        Limit::Size => b"a size is 1 to 65536",
        Limit::Words => b"the shared items have at most 65536 words",
        Limit::Locks => b"there are at most 64 locks",
    }
}

// How many words and locks a core has.

ghost use Rattle.std.specs.Prelude.{◌≡◌, ◌≤◌, map};
ghost use Rattle.lrc_named_names.specs.View.{declared_of, entry_of, meaning_seen};
ghost use Rattle.lrc_named_constants.specs.Layout.{core_words, locks_in, locks_of, words_in, words_of};

use lrc_named_names::names::{Declared, Meaning, Names};

// How many words of the core a declared name has.
fn words_of(meaning: &Meaning<'_, '_>) -> u32
    ensures { result ≡ words_of (meaning_seen meaning.now) }
{
    match meaning {
        Meaning::Shared(item) => item.count,
        Meaning::Constant(_) | Meaning::Lock(_) | Meaning::Function(_, _) => 0,
    }
}

// How many locks of the core it has.
fn locks_of(meaning: &Meaning<'_, '_>) -> u32
    ensures { result ≡ locks_of (meaning_seen meaning.now) }
{
    match meaning {
        Meaning::Lock(item) => item.count,
        Meaning::Constant(_) | Meaning::Shared(_) | Meaning::Function(_, _) => 0,
    }
}

// How many words these have.
fn words_among(declared: &[Declared<'_, '_>]) -> u32
    requires { words_in (map entry_of declared.now) ≤ 65536 }
    ensures { result ≡ words_in (map entry_of declared.now) }
{
    let mut all = 0;
    for entry in declared {
        let more = words_of(&entry.meaning);
        all += more;
    }
    all
}

// How many locks these have.
fn locks_among(declared: &[Declared<'_, '_>]) -> u32
    requires { locks_in (map entry_of declared.now) ≤ 64 }
    ensures { result ≡ locks_in (map entry_of declared.now) }
{
    let mut all = 0;
    for entry in declared {
        let more = locks_of(&entry.meaning);
        all += more;
    }
    all
}

/// Returns how many words the core of a program has that declares this: those of the shared items, and at least 1.
pub fn words(names: &Names<'_, '_>) -> u32
    requires { words_in (declared_of names.now) ≤ 65536 }
    ensures { result ≡ core_words (declared_of names.now) }
{
    words_among(&names.declared).max(1)
}

/// Returns how many locks it has.
pub fn locks(names: &Names<'_, '_>) -> u32
    requires { locks_in (declared_of names.now) ≤ 64 }
    ensures { result ≡ locks_in (declared_of names.now) }
{
    locks_among(&names.declared)
}

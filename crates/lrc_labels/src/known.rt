// What the label lines so far say, and what their labels name.

ghost use Rattle.std.specs.Prelude.{◌≡◌, ◌≤◌, ◌++◌, ◌∷◌, [], OnOk, false, map};
ghost use Rattle.std.specs.List.{list_any};
ghost use Rattle.std.specs.Str.{bytes_eq};
ghost use Rattle.lrc_labels.specs.Known.{IsKnown, Tells};
ghost use Rattle.lrc_labels.specs.Reading.{Label as AnyLabel, first_of, is_lock, label_seen, last_of, meets, taken};

use crate::label::{Label, Reason, Target};
use crate::spans::{Span, is_reached, put};
use std::alloc::{AllocError, Global};
use std::collections::HashSet;

/// The labels so far, in the order of the text. Their words and their locks are kept as spans in ascending order too, and
/// their names as a set, so that what a label line names is looked up without a look at all labels.
#[derive(Drop)]
pub struct Known<'t> {
    pub said: Vec<Label<'t>>,
    words: Vec<Span>,
    locks: Vec<Span>,
    names: HashSet<&'t [u8]>,
}

impl<'t> Known<'t> {
    /// Returns what is known before the first line.
    pub fn new(alloc: Global) -> Known<'t>
        ensures said { result.said.items ≡ [] }
        ensures known { IsKnown result }
    {
        Known {
            said: Vec::new(alloc),
            words: Vec::new(alloc),
            locks: Vec::new(alloc),
            names: HashSet::new(alloc),
        }
    }

    /// Returns whether one of the labels has a word or a lock of this target.
    pub fn has_target(&self, target: Target) -> bool
        requires { IsKnown self.now }
        ensures { result ≡ list_any (λ label. meets label.target target)
            (map label_seen self.now.said.items) }
    {
        if is_lock(target) {
            is_reached(&self.locks, first_of(target), last_of(target))
        } else {
            is_reached(&self.words, first_of(target), last_of(target))
        }
    }

    /// Returns whether one of the labels has this name.
    pub fn has_name(&self, name: &[u8]) -> bool
        requires { IsKnown self.now }
        ensures { result ≡ list_any (λ label. bytes_eq label.name name.now)
            (map label_seen self.now.said.items) }
    {
        self.names.contains(name)
    }

    /// Adds a label whose words, locks and name no other label has. It fails only if memory runs out; then nothing is
    /// promised about what is known.
    pub fn push(&mut self, label: Label<'t>) -> Result<(), AllocError>
        requires known { IsKnown self.old }
        requires ends { first_of label.target ≤ last_of label.target }
        requires free { list_any (λ other. meets other.target label.target)
            (map label_seen self.old.said.items) ≡ false }
        ensures said { OnOk result (map label_seen self.new.said.items
            ≡ map label_seen self.old.said.items ++ label_seen label.entry ∷ []) }
        ensures known { OnOk result (IsKnown self.new) }
    {
        self.take(label.target, label.name)?;
        self.said.push(label)?;
        Ok(())
    }

    // Notes what a label names.
    fn take(&mut self, target: Target, name: &'t [u8]) -> Result<(), AllocError>
        requires known { IsKnown self.old }
        requires ends { first_of target ≤ last_of target }
        requires free { list_any (λ other. meets other.target target)
            (map label_seen self.old.said.items) ≡ false }
        ensures said { self.new.said.items ≡ self.old.said.items }
        ensures known { OnOk result ((label : AnyLabel) → label.target ≡ target
            → label.name ≡ name.entry.now
            → Tells (map label_seen self.old.said.items ++ label ∷ []) self.new) }
    {
        let span = Span {
            first: first_of(target),
            last: last_of(target),
        };
        if is_lock(target) {
            put(&mut self.locks, span)?;
        } else {
            put(&mut self.words, span)?;
        }
        self.names.insert(name)?;
        Ok(())
    }
}

fn is_lock(target: Target) -> bool
    ensures { result ≡ is_lock target }
{
    match target {
        Target::Lock(_) | Target::Locks(..) => true,
        Target::Word(_) | Target::Words(..) => false,
    }
}

fn first_of(target: Target) -> u32
    ensures { result ≡ first_of target }
{
    match target {
        Target::Word(word) => word,
        Target::Words(first, _) => first,
        Target::Lock(lock) => u32::from(lock),
        Target::Locks(first, _) => u32::from(first),
    }
}

fn last_of(target: Target) -> u32
    ensures { result ≡ last_of target }
{
    match target {
        Target::Word(word) => word,
        Target::Words(_, last) => last,
        Target::Lock(lock) => u32::from(lock),
        Target::Locks(_, last) => u32::from(last),
    }
}

/// Returns why a label says nothing whose target an earlier one has.
pub fn taken(target: Target) -> Reason
    ensures { result ≡ taken target }
{
    if is_lock(target) {
        Reason::LockTaken
    } else {
        Reason::WordTaken
    }
}

// Laws of named programs as texts. Each function is a theorem: its body is empty, and its clauses are the law.

ghost use Rattle.std.specs.Prelude.{◌≡◌, ℕ, List, Option};
ghost use Rattle.lrc_named.specs.declared.fault.NamedFault.{NamedFault as Seen};
ghost use Rattle.lrc_named.specs.declared.fault.NamedFault.TheVariants.{NoMemory};
ghost use Rattle.lrc_named.specs.Faults.{AreToldAlike};
ghost use Rattle.lrc_named_core.specs.Tree.{Trap};
ghost use Rattle.lrc_named_held.specs.Held.{Held};
ghost use Rattle.lrc_named.specs.Named.{IsCoreText, IsCoreTextOn, IsNamedFault};

/// A text has at most one core, of whose statements it tells one list of lines, of traps and of what names hold, asks for at most one number
/// of nodes, has no fault where it has a core, and at most one line and words of a fault; memory may run out of each text.
pub fn a_text_has_one_core()
    ensures core { (text : List ℕ) (nodes other : Option ℕ) (core own : List ℕ) →
        IsCoreText text nodes core → IsCoreText text other own → core ≡ own }
    ensures lines { (text : List ℕ) (nodes other : Option ℕ) (core own told said : List ℕ) (traps more : List Trap) (held others : List (List Held)) →
        IsCoreTextOn text nodes core told traps held → IsCoreTextOn text other own said more others → told ≡ said }
    ensures traps { (text : List ℕ) (nodes other : Option ℕ) (core own told said : List ℕ) (traps more : List Trap) (held others : List (List Held)) →
        IsCoreTextOn text nodes core told traps held → IsCoreTextOn text other own said more others → traps ≡ more }
    ensures held { (text : List ℕ) (nodes other : Option ℕ) (core own told said : List ℕ) (traps more : List Trap) (held others : List (List Held)) →
        IsCoreTextOn text nodes core told traps held → IsCoreTextOn text other own said more others → held ≡ others }
    ensures nodes { (text : List ℕ) (nodes other : Option ℕ) (core own : List ℕ) →
        IsCoreText text nodes core → IsCoreText text other own → nodes ≡ other }
    ensures either { (text : List ℕ) (nodes : Option ℕ) (core : List ℕ) (fault : Seen) →
        IsCoreText text nodes core → IsNamedFault text fault → fault ≡ NoMemory }
    ensures fault { (text : List ℕ) (fault other : Seen) →
        IsNamedFault text fault → IsNamedFault text other → AreToldAlike fault other }
{}

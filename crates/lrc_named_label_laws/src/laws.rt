// Laws of the labels of a core. The functions do nothing: their contracts state the laws.

ghost use Rattle.std.specs.Prelude.{◌≡◌, ◌≢◌, ◌+◌, ◌++◌, ℕ, List, [], None, Option, Some, option_map};
ghost use Rattle.std.specs.List.{flat_map};
ghost use Rattle.lrc_labels.specs.Show.{index_text, label_of_lock, label_of_word, name_of};
ghost use Rattle.lrc_named_names.specs.Names.{Item, lock, meaning_of, shared};
ghost use Rattle.lrc_named_address_laws.specs.Elements.{AreWithin, element_at};
ghost use Rattle.lrc_named.specs.Named.{IsCoreText};
ghost use Rattle.lrc_named_label_laws.specs.Labels.{idle_read, labels_declared, labels_read};

/// From the text that `core` prints of a named program without a fault just the labels of its items are read, each item's with its name,
/// its words or locks and its sizes, in the order in which they are declared. No label line is without effect.
pub fn the_labels_that_core_prints_are_read_back()
    ensures labels { (text core : List ℕ) (nodes : Option ℕ) (printed : IsCoreText text nodes core)
        → labels_read printed ≡ labels_declared printed.declared }
    ensures none_idle { (text core : List ℕ) (nodes : Option ℕ) (printed : IsCoreText text nodes core) → idle_read printed ≡ [] }
{}

/// By these labels each element of a shared item is called by the item's name and the element's indices, and so is each element of a lock;
/// where an item has no indices, by its name alone.
pub fn each_element_has_its_name()
    ensures words { (text core : List ℕ) (nodes : Option ℕ) (printed : IsCoreText text nodes core) (name : List ℕ) (item : Item) (vs : List ℕ)
        → meaning_of printed.declared name ≡ Some (shared item) → AreWithin item.sizes vs
        → option_map (name_of (item.first + element_at item.sizes vs))
        (label_of_word (labels_read printed) (item.first + element_at item.sizes vs)) ≡ Some (name ++ flat_map index_text vs) }
    ensures locks { (text core : List ℕ) (nodes : Option ℕ) (printed : IsCoreText text nodes core) (name : List ℕ) (item : Item) (vs : List ℕ)
        → meaning_of printed.declared name ≡ Some (lock item) → AreWithin item.sizes vs
        → option_map (name_of (item.first + element_at item.sizes vs))
        (label_of_lock (labels_read printed) (item.first + element_at item.sizes vs)) ≡ Some (name ++ flat_map index_text vs) }
{}

/// A word that is no element of a shared item has no label, and a lock that is no element of a declared lock has none.
pub fn nothing_else_has_a_name()
    ensures words { (text core : List ℕ) (nodes : Option ℕ) (printed : IsCoreText text nodes core) (word : ℕ)
        → ((name : List ℕ) (item : Item) (vs : List ℕ) → meaning_of printed.declared name ≡ Some (shared item) → AreWithin item.sizes vs
        → word ≢ item.first + element_at item.sizes vs)
        → label_of_word (labels_read printed) word ≡ None }
    ensures locks { (text core : List ℕ) (nodes : Option ℕ) (printed : IsCoreText text nodes core) (key : ℕ)
        → ((name : List ℕ) (item : Item) (vs : List ℕ) → meaning_of printed.declared name ≡ Some (lock item) → AreWithin item.sizes vs
        → key ≢ item.first + element_at item.sizes vs)
        → label_of_lock (labels_read printed) key ≡ None }
{}

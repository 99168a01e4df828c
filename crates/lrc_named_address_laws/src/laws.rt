// Laws of the addresses of elements.

ghost use Rattle.std.specs.Prelude.{◌≡◌, ◌+◌, ◌-◌, ◌^◌, ◌<◌, ◌≤◌, ℕ, List, Some, length};
ghost use Rattle.lrc_named_core.specs.Tree.{Expression, Private};
ghost use Rattle.lrc_named_names.specs.Elements.{elements};
ghost use Rattle.lrc_named_names.specs.Names.{Item};
ghost use Rattle.lrc_named_address.specs.Address.{address};
ghost use Rattle.lrc_named_address_laws.specs.Elements.{element_at, AreWithin, IsBeyond};
ghost use Rattle.lrc_named_address_laws.specs.Values.{value_of, HaveValues};

/// With an index below each size, the address of an element is that of the first, and how far the element lies behind it.
pub fn an_address_is_the_place_of_its_element()
    ensures { (names : Private → ℕ) (here count : ℕ) (item : Item) (es : List Expression) (vs : List ℕ)
        → HaveValues names here count es vs → AreWithin item.sizes vs
        → item.first + elements item.sizes ≤ 65536
        → value_of names here count (address item es) ≡ Some (item.first + element_at item.sizes vs) }
{}

/// With an index that is not below its size, an address is the greatest number of 64 bits.
pub fn an_index_out_of_range_has_no_place()
    ensures { (names : Private → ℕ) (here count : ℕ) (item : Item) (es : List Expression) (vs : List ℕ)
        → HaveValues names here count es vs → length item.sizes ≡ length vs → IsBeyond item.sizes vs
        → value_of names here count (address item es) ≡ Some (2 ^ 64 - 1) }
{}

/// An element lies within its array.
pub fn elements_lie_within_their_array()
    ensures { (sizes vs : List ℕ) → AreWithin sizes vs → element_at sizes vs < elements sizes }
{}

/// Different elements of an array lie at different places.
pub fn different_elements_have_different_places()
    ensures { (sizes vs ws : List ℕ) → AreWithin sizes vs → AreWithin sizes ws
        → element_at sizes vs ≡ element_at sizes ws → vs ≡ ws }
{}

//! The entry points of the grammar agree, each law the contract of an empty function without parameters.
//! Their statements are in specs/EntryPoints.antt. They hold of every token stream.

ghost use Rattle.syn_grammar.specs.EntryPoints.{KindsAgree, KindsDerive, SomeKind, KeptAsRead, InputsAreItems, InputsDeriveItems};
ghost use Rattle.syn_grammar.specs.Joined.{JoinedItems, JoinedIsVisible};
ghost use Rattle.syn_grammar.specs.Listed.{NamesAhead, ListingBegins, ListingContinues, ListingEnds, ListingRefused};
ghost use Rattle.syn_grammar.specs.Rules.{item, trait_item, impl_item, foreign_item, derive_input};

/// An item of some kind is read, and derived, exactly where the rule of that kind reads and derives it, as the same value and with
/// the same rest; each item is of one of these kinds; and a verbatim one holds exactly the tokens that were read, which are its
/// print.
pub fn item_kinds()
    ensures read { KindsAgree item }
    ensures derived { KindsDerive item }
    ensures some_kind { SomeKind item }
    ensures kept { KeptAsRead item }
{}

/// The same of the members of a trait.
pub fn trait_item_kinds()
    ensures read { KindsAgree trait_item }
    ensures derived { KindsDerive trait_item }
    ensures some_kind { SomeKind trait_item }
    ensures kept { KeptAsRead trait_item }
{}

/// The same of the members of an impl.
pub fn impl_item_kinds()
    ensures read { KindsAgree impl_item }
    ensures derived { KindsDerive impl_item }
    ensures some_kind { SomeKind impl_item }
    ensures kept { KeptAsRead impl_item }
{}

/// The same of foreign members.
pub fn foreign_item_kinds()
    ensures read { KindsAgree foreign_item }
    ensures derived { KindsDerive foreign_item }
    ensures some_kind { SomeKind foreign_item }
    ensures kept { KeptAsRead foreign_item }
{}

/// The input of a derive is a struct, an enum or a union, as the rule of each reads it; and it is read and derived exactly where an
/// item of this kind is, as the same value and the same tree, so both print alike.
pub fn derive_inputs_are_items()
    ensures read { KindsAgree derive_input }
    ensures derived { KindsDerive derive_input }
    ensures some_kind { SomeKind derive_input }
    ensures read_as_items { InputsAreItems }
    ensures derived_as_items { InputsDeriveItems }
{}

/// The name of an item (specs/Listed) follows the first word of its kind outside of groups; of a macro it follows the first `!`.
pub fn names_ahead()
    ensures after_the_word { NamesAhead }
{}

/// A file is listed item by item: after its inner attributes each item by the rule of its kind and by its name, up to the end;
/// and where none of these rules reads, no file is derived.
pub fn files_are_listed()
    ensures begins { ListingBegins }
    ensures proceeds { ListingContinues }
    ensures ends { ListingEnds }
    ensures refused { ListingRefused }
{}

/// The prints of items, one after the other, are derived as a file without attributes, whose items have the normal forms of these;
/// and they are visible where the items were derived of visible streams.
pub fn items_are_joined()
    ensures as_a_file { JoinedItems }
    ensures stays_visible { JoinedIsVisible }
{}

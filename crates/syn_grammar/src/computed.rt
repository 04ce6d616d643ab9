//! The laws of the computed reading, each the contract of an empty function without parameters.
//! Their statements are in specs/Computed.antt.

ghost use Rattle.syn_grammar.specs.Computed.{ParseMeans, ParseForms, ParseRows, ParseOnward, ValuePrints, ValuePrintIsRead, ValuesSameForm, OneValue, CapturedIsSome};
ghost use Rattle.syn_grammar.specs.ItemStatements.{ItemStatements};
ghost use Rattle.syn_grammar.specs.UseGroups.{UseGroups};
ghost use Rattle.syn_grammar.specs.ItemPlan.{ItemPlan};
ghost use Rattle.syn_grammar.specs.MemberPlans.{TraitItemPlan, ImplItemPlan, ForeignItemPlan, PlansMarked, PlansShow};
ghost use Rattle.syn_grammar.specs.SmallPlans.{DeriveInputPlan, LocalValuePlan};
ghost use Rattle.syn_grammar.specs.AlonePlans.{UseAlone, TypeAlone, ImplAlone};
ghost use Rattle.syn_grammar.specs.DecidedByTokens.{OneWhereKnown, RootMarkKnown};
ghost use Rattle.syn_grammar.specs.Leads.{TypeLeads, ImplLed};
ghost use Rattle.syn_grammar.specs.StatementPlans.{StatementPlan, StatementsPlan, CrateMacroPlan};
ghost use Rattle.syn_grammar.specs.Alone.{ReadAlone, ValuesForgetSpans, ShowIsRead, ShowIsAlone, ShowIsBefore, SameShow};

/// The computed reading returns exactly what the grammar derives: the value of the tree and the rest
/// where a tree is derived, and `None` where none is. Holds of every visible token stream (one without
/// invisible groups at any depth).
pub fn parse_means()
    ensures as_derived { ParseMeans }
{}

/// The computed reading of a rule is that of its form. Holds of every token stream.
pub fn parse_forms()
    ensures by_form { ParseForms }
{}

/// The computed reading of a comma list is one member, and then a list. Holds of every token stream.
pub fn parse_rows()
    ensures one_step { ParseRows }
{}

/// The computed reading leaves no more tokens, counted at every depth, than there were. Holds of every
/// token stream.
pub fn parse_onward()
    ensures no_more_left { ParseOnward }
{}

/// What a value holds of a syntax tree prints as the tree does. Holds of every tree.
pub fn value_prints()
    ensures same_print { ValuePrints }
{}

/// The same rule derives the print of a derived value again, as a value with the same normal form. Holds of
/// every token stream.
pub fn value_print_is_read()
    ensures derived_again { ValuePrintIsRead }
{}

/// Of two values that one rule derives, the normal forms are equal exactly where the prints are equal, spans
/// aside. Holds of every pair of token streams.
pub fn values_same_form()
    ensures by_print { ValuesSameForm }
{}

/// From one token stream each rule reads trees of at most one value, and leaves one rest. Holds of
/// every token stream.
pub fn one_value()
    ensures unambiguous { OneValue }
{}

/// A captured part is stored verbatim: it is any tokens that its form derives. Holds of every form and
/// every token stream.
pub fn captured_is_some()
    ensures some_derivation { CapturedIsSome }
{}

/// A rule that passes the test `reads_alone` reads the same tokens with and without the rest after
/// them, as the same value. Every rule that ends by itself passes. Holds of every token stream.
pub fn read_alone()
    ensures read_alone { ReadAlone }
{}

/// From token streams that differ only in spans (in bytes), a rule reads values that differ only in
/// spans. Holds of every token stream.
pub fn values_forget_spans()
    ensures like_values { ValuesForgetSpans }
{}

/// A rule of `reads_shown` that reads a whole stream also reads the shown tokens of the value (in their
/// order, with every empty list), as the same value with the same spans. Holds of every token stream.
pub fn show_is_read()
    ensures as_the_same { ShowIsRead }
{}

/// A rule of `is_alone` (it reads the same where the tokens after it are cut off) reads a value
/// before a rest; it also reads the shown tokens of that value as a whole stream, as the same value
/// with the same spans. Holds of every token stream.
pub fn show_is_alone()
    ensures as_the_same { ShowIsAlone }
{}

/// A rule reads a value before a mark of `is_before` (it reads the same there as before the end);
/// it also reads the shown tokens of that value as a whole stream, as the same value with the same
/// spans. Holds of every token stream.
pub fn show_is_before()
    ensures as_the_same { ShowIsBefore }
{}

/// If a rule of `reads_shown` reads two whole token streams, the two values are equal, spans (in bytes)
/// aside, exactly where their shown tokens are. Holds of every token stream.
pub fn same_show()
    ensures exactly { SameShow }
{}

/// Where an item follows the attributes, a statement is what the rule `item` reads from the same
/// tokens, attributes included; a list of statements is that statement and the ones after it. Holds of
/// every token stream.
pub fn item_statements()
    ensures as_items { ItemStatements }
{}

/// The two rules for the trees of a use in braces agree where no tree begins with `::`: what `use_trees`
/// reads, `rooted_trees` reads as such trees, and the other way round. Holds of every token stream.
pub fn use_groups()
    ensures alike { UseGroups }
{}

/// The plan of an item (specs/ItemPlan), which has no union and reads no piece twice, reads what the
/// rule `item` reads, as the same value. Holds of every token stream.
pub fn item_plan()
    ensures as_the_rule { ItemPlan }
{}

/// The plan of a member of a trait reads what the rule `trait_item` reads, as the same value. Holds of
/// every token stream.
pub fn trait_item_plan()
    ensures as_the_rule { TraitItemPlan }
{}

/// The plan of a member of an impl reads what the rule `impl_item` reads, as the same value. Holds of
/// every token stream.
pub fn impl_item_plan()
    ensures as_the_rule { ImplItemPlan }
{}

/// The plan of a foreign member reads what the rule `foreign_item` reads, as the same value. Holds of
/// every token stream.
pub fn foreign_item_plan()
    ensures as_the_rule { ForeignItemPlan }
{}

/// In these four plans, what is read after a mark (`keeps`) is verbatim or refused, and all else is of
/// a kind or refused.
pub fn plans_marked()
    ensures as_said { PlansMarked }
{}

/// A statement is its attributes, and then what the plan of an item reads where an item is next, or else
/// another statement. Holds of every token stream.
pub fn statement_plan()
    ensures as_the_rule { StatementPlan }
{}

/// A list of statements that isn't empty and doesn't begin with `;` is the attributes of the first one,
/// then what the plan of an item reads or else another statement, and then more statements. Holds of
/// every token stream.
pub fn statements_plan()
    ensures as_the_rule { StatementsPlan }
{}

/// The plan of a macro of `crate` that is a statement alone reads what the rule `crate_macro` reads, as
/// the same value. Holds of every token stream.
pub fn crate_macro_plan()
    ensures as_the_rule { CrateMacroPlan }
{}

/// These four plans write what is shown of the values that their rules read: of each piece its shown
/// tokens, of a verbatim part its own tokens. Holds of every token stream.
pub fn plans_show()
    ensures as_shown { PlansShow }
{}

/// The plan of the input of a derive reads what the rule `derive_input` reads, as the same value.
/// Holds of every token stream.
pub fn derive_input_plan()
    ensures as_the_form { DeriveInputPlan }
{}

/// The plan of the value of a local reads what its form reads, as the same value: the expression is
/// read once, and then its last token decides. Holds of every token stream.
pub fn local_value_plan()
    ensures as_the_form { LocalValuePlan }
{}

/// The plan of a use after its attributes reads what the rule `use_item_rest` reads, as the same value.
/// Holds of every token stream.
pub fn use_item_rest_plan()
    ensures as_the_rule { UseAlone }
{}

/// The plan of a type alias after its attributes reads what the rule `type_item_rest` reads, as the
/// same value. Holds of every token stream.
pub fn type_item_rest_plan()
    ensures as_the_rule { TypeAlone }
{}

/// The plan of an impl after its attributes reads what the rule `impl_definition_rest` reads, as the
/// same value. Holds of every token stream.
pub fn impl_definition_rest_plan()
    ensures as_the_rule { ImplAlone }
{}

/// Whether a type alias has at most one `where` clause is decided by the tokens outside of groups and
/// lifetimes, where the forms before it read no `where` outside of groups. Holds of every stream.
pub fn one_where_known()
    ensures by_tokens { OneWhereKnown }
{}

/// Whether a tree in the braces after `use`, after attributes and a visibility, begins with `::` is
/// decided by the tokens. Holds of every stream.
pub fn root_mark_known()
    ensures by_tokens { RootMarkKnown }
{}

/// A type, printed before anything, would be read as generics exactly where its tokens would be. Holds
/// of every stream.
pub fn type_leads()
    ensures by_tokens { TypeLeads }
{}

/// Whether empty generics of an impl are printed (`led`) is decided by the tokens after its generics,
/// and by those of its self type after `for`. Holds of every stream.
pub fn impl_led()
    ensures by_tokens { ImplLed }
{}

//! Written by tools/recognizers.py; edits are lost.
//!
//! The rules of the grammar as data.
ghost use Rattle.std.specs.Prelude.{◌≡◌};
ghost use Rattle.syn_grammar.specs.Run.{parse_form};
ghost use Rattle.syn_grammar.specs.Table.{table};
ghost use Rattle.syn_recognize.specs.Forms.{grammar_of};
ghost use Rattle.syn_recognize.specs.Names.{rule_of};
ghost use Rattle.syn_recognize.specs.Parts.{part_form};

use crate::form::Form;

mod attributes;
mod blocks;
mod fields;
mod files;
mod foreign;
mod foreign_members;
mod generics;
mod heads;
mod impl_members;
mod impls;
mod inputs;
mod items;
mod kept_items;
mod lists;
mod operators;
mod patterns;
mod postfixes;
mod signatures;
mod statements;
mod trait_members;
mod traits;
mod types;
mod visibilities;

/// A file of rules, or a part of one.
#[derive(Clone, Copy, PartialEq, Eq)]
enum Topic {
    Attributes,
    Visibilities,
    Types,
    Generics,
    Fields,
    Inputs,
    Patterns,
    Lists,
    Blocks,
    Postfixes,
    Operators,
    Heads,
    Statements,
    Signatures,
    Items1,
    Items2,
    KeptItems,
    Traits,
    Impls,
    Foreign,
    TraitMembers,
    ImplMembers,
    ForeignMembers,
    Files,
}

/// A rule of the grammar, by its group and its place there.
#[derive(Clone, Copy, PartialEq, Eq)]
pub struct Rule {
    topic: Topic,
    place: u8,
}

impl Rule {
    pub const ATTRIBUTES: Rule = Rule {
        topic: Topic::Attributes,
        place: 0,
    };

    pub const INNER_ATTRIBUTES: Rule = Rule {
        topic: Topic::Attributes,
        place: 1,
    };

    pub const META: Rule = Rule {
        topic: Topic::Attributes,
        place: 2,
    };

    pub const UNSAFE_PATH: Rule = Rule {
        topic: Topic::Attributes,
        place: 3,
    };

    pub const UNSAFE_WORD: Rule = Rule {
        topic: Topic::Attributes,
        place: 4,
    };

    pub const META_VALUE: Rule = Rule {
        topic: Topic::Attributes,
        place: 5,
    };

    pub const MODULE_PATH: Rule = Rule {
        topic: Topic::Attributes,
        place: 6,
    };

    pub const MODULE_WORDS: Rule = Rule {
        topic: Topic::Attributes,
        place: 7,
    };

    pub const VISIBILITY: Rule = Rule {
        topic: Topic::Visibilities,
        place: 0,
    };

    pub const RESTRICTION: Rule = Rule {
        topic: Topic::Visibilities,
        place: 1,
    };

    pub const TYPE_PATH: Rule = Rule {
        topic: Topic::Types,
        place: 0,
    };

    pub const TYPE_WORDS: Rule = Rule {
        topic: Topic::Types,
        place: 1,
    };

    pub const MORE_TYPE_WORDS: Rule = Rule {
        topic: Topic::Types,
        place: 2,
    };

    pub const TYPE_ARGUMENTS: Rule = Rule {
        topic: Topic::Types,
        place: 3,
    };

    pub const RETURN_TYPE: Rule = Rule {
        topic: Topic::Types,
        place: 4,
    };

    pub const GENERIC_ARGUMENTS: Rule = Rule {
        topic: Topic::Types,
        place: 5,
    };

    pub const GENERIC_ARGUMENT: Rule = Rule {
        topic: Topic::Types,
        place: 6,
    };

    pub const QUALIFIED_PATH: Rule = Rule {
        topic: Topic::Types,
        place: 7,
    };

    pub const PATH_AS_TYPE: Rule = Rule {
        topic: Topic::Types,
        place: 8,
    };

    pub const TYPE: Rule = Rule {
        topic: Topic::Types,
        place: 9,
    };

    pub const TYPES: Rule = Rule {
        topic: Topic::Types,
        place: 10,
    };

    pub const CONSTANT: Rule = Rule {
        topic: Topic::Types,
        place: 11,
    };

    pub const GENERICS: Rule = Rule {
        topic: Topic::Generics,
        place: 0,
    };

    pub const LIFETIME_PARAMETER: Rule = Rule {
        topic: Topic::Generics,
        place: 1,
    };

    pub const LIFETIMES: Rule = Rule {
        topic: Topic::Generics,
        place: 2,
    };

    pub const PARAMETER_BOUNDS: Rule = Rule {
        topic: Topic::Generics,
        place: 3,
    };

    pub const BOUND: Rule = Rule {
        topic: Topic::Generics,
        place: 4,
    };

    pub const TRAIT_BOUND: Rule = Rule {
        topic: Topic::Generics,
        place: 5,
    };

    pub const BOUND_LIFETIMES: Rule = Rule {
        topic: Topic::Generics,
        place: 6,
    };

    pub const LIFETIME_PARAMETERS: Rule = Rule {
        topic: Topic::Generics,
        place: 7,
    };

    pub const WHERE_CLAUSE: Rule = Rule {
        topic: Topic::Generics,
        place: 8,
    };

    pub const PREDICATES: Rule = Rule {
        topic: Topic::Generics,
        place: 9,
    };

    pub const PREDICATE: Rule = Rule {
        topic: Topic::Generics,
        place: 10,
    };

    pub const PREDICATE_BOUNDS: Rule = Rule {
        topic: Topic::Generics,
        place: 11,
    };

    pub const FIELDS_NAMED: Rule = Rule {
        topic: Topic::Fields,
        place: 0,
    };

    pub const NAMED_FIELDS: Rule = Rule {
        topic: Topic::Fields,
        place: 1,
    };

    pub const NAMED_FIELD: Rule = Rule {
        topic: Topic::Fields,
        place: 2,
    };

    pub const NAMELESS_FIELDS: Rule = Rule {
        topic: Topic::Fields,
        place: 3,
    };

    pub const UNNAMED_FIELD: Rule = Rule {
        topic: Topic::Fields,
        place: 4,
    };

    pub const UNNAMED_FIELDS: Rule = Rule {
        topic: Topic::Fields,
        place: 5,
    };

    pub const FIELDS_UNNAMED: Rule = Rule {
        topic: Topic::Fields,
        place: 6,
    };

    pub const VARIANT: Rule = Rule {
        topic: Topic::Fields,
        place: 7,
    };

    pub const VARIANTS: Rule = Rule {
        topic: Topic::Fields,
        place: 8,
    };

    pub const STRUCTURE: Rule = Rule {
        topic: Topic::Inputs,
        place: 0,
    };

    pub const STRUCTURE_REST: Rule = Rule {
        topic: Topic::Inputs,
        place: 1,
    };

    pub const STRUCTURE_BODY: Rule = Rule {
        topic: Topic::Inputs,
        place: 2,
    };

    pub const ENUMERATION: Rule = Rule {
        topic: Topic::Inputs,
        place: 3,
    };

    pub const ENUMERATION_REST: Rule = Rule {
        topic: Topic::Inputs,
        place: 4,
    };

    pub const UNION_ITEM: Rule = Rule {
        topic: Topic::Inputs,
        place: 5,
    };

    pub const UNION_ITEM_REST: Rule = Rule {
        topic: Topic::Inputs,
        place: 6,
    };

    pub const DERIVE_INPUT: Rule = Rule {
        topic: Topic::Inputs,
        place: 7,
    };

    pub const EXPRESSION_PATH: Rule = Rule {
        topic: Topic::Patterns,
        place: 0,
    };

    pub const EXPRESSION_WORDS: Rule = Rule {
        topic: Topic::Patterns,
        place: 1,
    };

    pub const QUALIFIED_EXPRESSION_PATH: Rule = Rule {
        topic: Topic::Patterns,
        place: 2,
    };

    pub const PATH_AS_EXPRESSION: Rule = Rule {
        topic: Topic::Patterns,
        place: 3,
    };

    pub const MACRO_INVOCATION: Rule = Rule {
        topic: Topic::Patterns,
        place: 4,
    };

    pub const PATTERN: Rule = Rule {
        topic: Topic::Patterns,
        place: 5,
    };

    pub const PATTERNS: Rule = Rule {
        topic: Topic::Patterns,
        place: 6,
    };

    pub const EXPRESSIONS: Rule = Rule {
        topic: Topic::Lists,
        place: 0,
    };

    pub const ARRAY_CONTENT: Rule = Rule {
        topic: Topic::Lists,
        place: 1,
    };

    pub const BLOCK: Rule = Rule {
        topic: Topic::Blocks,
        place: 0,
    };

    pub const BODY: Rule = Rule {
        topic: Topic::Blocks,
        place: 1,
    };

    pub const PLAIN_BODY: Rule = Rule {
        topic: Topic::Blocks,
        place: 2,
    };

    pub const NO_INNER_ATTRIBUTES: Rule = Rule {
        topic: Topic::Blocks,
        place: 3,
    };

    pub const PRIMARY: Rule = Rule {
        topic: Topic::Blocks,
        place: 4,
    };

    pub const LITERAL_FIELDS: Rule = Rule {
        topic: Topic::Blocks,
        place: 5,
    };

    pub const LITERAL_FIELD: Rule = Rule {
        topic: Topic::Blocks,
        place: 6,
    };

    pub const BLOCK_LIKE: Rule = Rule {
        topic: Topic::Blocks,
        place: 7,
    };

    pub const IF_EXPRESSION: Rule = Rule {
        topic: Topic::Blocks,
        place: 8,
    };

    pub const LOOP_EXPRESSION: Rule = Rule {
        topic: Topic::Blocks,
        place: 9,
    };

    pub const POSTFIXES: Rule = Rule {
        topic: Topic::Postfixes,
        place: 0,
    };

    pub const MEMBER: Rule = Rule {
        topic: Topic::Postfixes,
        place: 1,
    };

    pub const UNARY: Rule = Rule {
        topic: Topic::Postfixes,
        place: 2,
    };

    pub const CASTS: Rule = Rule {
        topic: Topic::Operators,
        place: 0,
    };

    pub const CAST: Rule = Rule {
        topic: Topic::Operators,
        place: 1,
    };

    pub const PRODUCTS: Rule = Rule {
        topic: Topic::Operators,
        place: 2,
    };

    pub const PRODUCT: Rule = Rule {
        topic: Topic::Operators,
        place: 3,
    };

    pub const SUMS: Rule = Rule {
        topic: Topic::Operators,
        place: 4,
    };

    pub const SUM: Rule = Rule {
        topic: Topic::Operators,
        place: 5,
    };

    pub const SHIFTS: Rule = Rule {
        topic: Topic::Operators,
        place: 6,
    };

    pub const SHIFT: Rule = Rule {
        topic: Topic::Operators,
        place: 7,
    };

    pub const BIT_ANDS: Rule = Rule {
        topic: Topic::Operators,
        place: 8,
    };

    pub const BIT_AND: Rule = Rule {
        topic: Topic::Operators,
        place: 9,
    };

    pub const BIT_XORS: Rule = Rule {
        topic: Topic::Operators,
        place: 10,
    };

    pub const BIT_XOR: Rule = Rule {
        topic: Topic::Operators,
        place: 11,
    };

    pub const BIT_ORS: Rule = Rule {
        topic: Topic::Operators,
        place: 12,
    };

    pub const BIT_OR: Rule = Rule {
        topic: Topic::Operators,
        place: 13,
    };

    pub const COMPARED: Rule = Rule {
        topic: Topic::Operators,
        place: 14,
    };

    pub const COMPARISON: Rule = Rule {
        topic: Topic::Operators,
        place: 15,
    };

    pub const CONJUNCTIONS: Rule = Rule {
        topic: Topic::Operators,
        place: 16,
    };

    pub const CONJUNCTION: Rule = Rule {
        topic: Topic::Operators,
        place: 17,
    };

    pub const DISJUNCTIONS: Rule = Rule {
        topic: Topic::Operators,
        place: 18,
    };

    pub const DISJUNCTION: Rule = Rule {
        topic: Topic::Operators,
        place: 19,
    };

    pub const ASSIGNED: Rule = Rule {
        topic: Topic::Operators,
        place: 20,
    };

    pub const WHOLE_EXPRESSION: Rule = Rule {
        topic: Topic::Operators,
        place: 21,
    };

    pub const PRIMARY_HEAD: Rule = Rule {
        topic: Topic::Heads,
        place: 0,
    };

    pub const UNARY_HEAD: Rule = Rule {
        topic: Topic::Heads,
        place: 1,
    };

    pub const CAST_HEAD: Rule = Rule {
        topic: Topic::Heads,
        place: 2,
    };

    pub const PRODUCTS_HEAD: Rule = Rule {
        topic: Topic::Heads,
        place: 3,
    };

    pub const PRODUCT_HEAD: Rule = Rule {
        topic: Topic::Heads,
        place: 4,
    };

    pub const SUMS_HEAD: Rule = Rule {
        topic: Topic::Heads,
        place: 5,
    };

    pub const SUM_HEAD: Rule = Rule {
        topic: Topic::Heads,
        place: 6,
    };

    pub const SHIFTS_HEAD: Rule = Rule {
        topic: Topic::Heads,
        place: 7,
    };

    pub const SHIFT_HEAD: Rule = Rule {
        topic: Topic::Heads,
        place: 8,
    };

    pub const BIT_ANDS_HEAD: Rule = Rule {
        topic: Topic::Heads,
        place: 9,
    };

    pub const BIT_AND_HEAD: Rule = Rule {
        topic: Topic::Heads,
        place: 10,
    };

    pub const BIT_XORS_HEAD: Rule = Rule {
        topic: Topic::Heads,
        place: 11,
    };

    pub const BIT_XOR_HEAD: Rule = Rule {
        topic: Topic::Heads,
        place: 12,
    };

    pub const BIT_ORS_HEAD: Rule = Rule {
        topic: Topic::Heads,
        place: 13,
    };

    pub const BIT_OR_HEAD: Rule = Rule {
        topic: Topic::Heads,
        place: 14,
    };

    pub const COMPARED_HEAD: Rule = Rule {
        topic: Topic::Heads,
        place: 15,
    };

    pub const COMPARISON_HEAD: Rule = Rule {
        topic: Topic::Heads,
        place: 16,
    };

    pub const CONJUNCTIONS_HEAD: Rule = Rule {
        topic: Topic::Heads,
        place: 17,
    };

    pub const CONJUNCTION_HEAD: Rule = Rule {
        topic: Topic::Heads,
        place: 18,
    };

    pub const DISJUNCTIONS_HEAD: Rule = Rule {
        topic: Topic::Heads,
        place: 19,
    };

    pub const DISJUNCTION_HEAD: Rule = Rule {
        topic: Topic::Heads,
        place: 20,
    };

    pub const ASSIGNED_HEAD: Rule = Rule {
        topic: Topic::Heads,
        place: 21,
    };

    pub const WHOLE_EXPRESSION_HEAD: Rule = Rule {
        topic: Topic::Heads,
        place: 22,
    };

    pub const OPERAND_REST: Rule = Rule {
        topic: Topic::Statements,
        place: 0,
    };

    pub const STATEMENTS: Rule = Rule {
        topic: Topic::Statements,
        place: 1,
    };

    pub const STATEMENT_REST: Rule = Rule {
        topic: Topic::Statements,
        place: 2,
    };

    pub const AFTER_BLOCK: Rule = Rule {
        topic: Topic::Statements,
        place: 3,
    };

    pub const AFTER_EXPRESSION: Rule = Rule {
        topic: Topic::Statements,
        place: 4,
    };

    pub const STATEMENT: Rule = Rule {
        topic: Topic::Statements,
        place: 5,
    };

    pub const CRATE_MACRO: Rule = Rule {
        topic: Topic::Statements,
        place: 6,
    };

    pub const BRACE_MACRO: Rule = Rule {
        topic: Topic::Statements,
        place: 7,
    };

    pub const STATEMENT_END: Rule = Rule {
        topic: Topic::Statements,
        place: 8,
    };

    pub const LOCAL: Rule = Rule {
        topic: Topic::Statements,
        place: 9,
    };

    pub const NO_ATTRIBUTES: Rule = Rule {
        topic: Topic::Signatures,
        place: 0,
    };

    pub const RECEIVER: Rule = Rule {
        topic: Topic::Signatures,
        place: 1,
    };

    pub const RECEIVER_REST: Rule = Rule {
        topic: Topic::Signatures,
        place: 2,
    };

    pub const ARGUMENT: Rule = Rule {
        topic: Topic::Signatures,
        place: 3,
    };

    pub const INPUTS: Rule = Rule {
        topic: Topic::Signatures,
        place: 4,
    };

    pub const LATER_INPUTS: Rule = Rule {
        topic: Topic::Signatures,
        place: 5,
    };

    pub const INPUT_REST: Rule = Rule {
        topic: Topic::Signatures,
        place: 6,
    };

    pub const VARIADIC: Rule = Rule {
        topic: Topic::Signatures,
        place: 7,
    };

    pub const ABI: Rule = Rule {
        topic: Topic::Signatures,
        place: 8,
    };

    pub const UNSAFE_ONLY: Rule = Rule {
        topic: Topic::Signatures,
        place: 9,
    };

    pub const SAFE_OR_UNSAFE: Rule = Rule {
        topic: Topic::Signatures,
        place: 10,
    };

    pub const SIGNATURE: Rule = Rule {
        topic: Topic::Signatures,
        place: 11,
    };

    pub const SIGNATURE_REST: Rule = Rule {
        topic: Topic::Signatures,
        place: 12,
    };

    pub const FUNCTION: Rule = Rule {
        topic: Topic::Items1,
        place: 0,
    };

    pub const FUNCTION_REST: Rule = Rule {
        topic: Topic::Items1,
        place: 1,
    };

    pub const CONST_ITEM: Rule = Rule {
        topic: Topic::Items1,
        place: 2,
    };

    pub const CONST_ITEM_REST: Rule = Rule {
        topic: Topic::Items1,
        place: 3,
    };

    pub const STATIC_MUTABILITY: Rule = Rule {
        topic: Topic::Items1,
        place: 4,
    };

    pub const STATIC_ITEM: Rule = Rule {
        topic: Topic::Items1,
        place: 5,
    };

    pub const STATIC_ITEM_REST: Rule = Rule {
        topic: Topic::Items1,
        place: 6,
    };

    pub const EXTERN_CRATE: Rule = Rule {
        topic: Topic::Items1,
        place: 7,
    };

    pub const EXTERN_CRATE_REST: Rule = Rule {
        topic: Topic::Items1,
        place: 8,
    };

    pub const USE_TREE: Rule = Rule {
        topic: Topic::Items1,
        place: 9,
    };

    pub const USE_TREES: Rule = Rule {
        topic: Topic::Items1,
        place: 10,
    };

    pub const ROOT_MARK: Rule = Rule {
        topic: Topic::Items1,
        place: 11,
    };

    pub const ROOTED_TREE: Rule = Rule {
        topic: Topic::Items1,
        place: 12,
    };

    pub const ROOTED_TREES: Rule = Rule {
        topic: Topic::Items1,
        place: 13,
    };

    pub const USE_ITEM: Rule = Rule {
        topic: Topic::Items1,
        place: 14,
    };

    pub const USE_ITEM_REST: Rule = Rule {
        topic: Topic::Items2,
        place: 0,
    };

    pub const MODULE_ITEM: Rule = Rule {
        topic: Topic::Items2,
        place: 1,
    };

    pub const MODULE_ITEM_REST: Rule = Rule {
        topic: Topic::Items2,
        place: 2,
    };

    pub const ALIAS_BOUNDS: Rule = Rule {
        topic: Topic::Items2,
        place: 3,
    };

    pub const TYPE_BOUNDS: Rule = Rule {
        topic: Topic::Items2,
        place: 4,
    };

    pub const ALIAS: Rule = Rule {
        topic: Topic::Items2,
        place: 5,
    };

    pub const TRAIT_ALIAS: Rule = Rule {
        topic: Topic::Items2,
        place: 6,
    };

    pub const TRAIT_ALIAS_REST: Rule = Rule {
        topic: Topic::Items2,
        place: 7,
    };

    pub const TYPE_ITEM: Rule = Rule {
        topic: Topic::Items2,
        place: 8,
    };

    pub const TYPE_ITEM_REST: Rule = Rule {
        topic: Topic::Items2,
        place: 9,
    };

    pub const MACRO_END: Rule = Rule {
        topic: Topic::Items2,
        place: 10,
    };

    pub const MACRO_ITEM: Rule = Rule {
        topic: Topic::Items2,
        place: 11,
    };

    pub const MACRO_ITEM_REST: Rule = Rule {
        topic: Topic::Items2,
        place: 12,
    };

    pub const MACRO_AS_ITEM: Rule = Rule {
        topic: Topic::Items2,
        place: 13,
    };

    pub const MACRO_AS_ITEM_REST: Rule = Rule {
        topic: Topic::Items2,
        place: 14,
    };

    pub const BODILESS_FUNCTION: Rule = Rule {
        topic: Topic::KeptItems,
        place: 0,
    };

    pub const UNTYPED_STATIC: Rule = Rule {
        topic: Topic::KeptItems,
        place: 1,
    };

    pub const VALUELESS_STATIC: Rule = Rule {
        topic: Topic::KeptItems,
        place: 2,
    };

    pub const ODD_CONST: Rule = Rule {
        topic: Topic::KeptItems,
        place: 3,
    };

    pub const MACRO_DEFINITION: Rule = Rule {
        topic: Topic::KeptItems,
        place: 4,
    };

    pub const ODD_TYPE: Rule = Rule {
        topic: Topic::KeptItems,
        place: 5,
    };

    pub const SUPERTRAITS: Rule = Rule {
        topic: Topic::Traits,
        place: 0,
    };

    pub const BARE_TRAIT: Rule = Rule {
        topic: Topic::Traits,
        place: 1,
    };

    pub const TRAIT_DEFINITION: Rule = Rule {
        topic: Topic::Traits,
        place: 2,
    };

    pub const TRAIT_DEFINITION_REST: Rule = Rule {
        topic: Topic::Traits,
        place: 3,
    };

    pub const CONST_ALIAS: Rule = Rule {
        topic: Topic::Traits,
        place: 4,
    };

    pub const RESTRICTED_TRAIT: Rule = Rule {
        topic: Topic::Traits,
        place: 5,
    };

    pub const SELF_TYPE: Rule = Rule {
        topic: Topic::Impls,
        place: 0,
    };

    pub const FOR_SELF_TYPE: Rule = Rule {
        topic: Topic::Impls,
        place: 1,
    };

    pub const IMPL_BODY: Rule = Rule {
        topic: Topic::Impls,
        place: 2,
    };

    pub const IMPL_DEFINITION: Rule = Rule {
        topic: Topic::Impls,
        place: 3,
    };

    pub const IMPL_DEFINITION_REST: Rule = Rule {
        topic: Topic::Impls,
        place: 4,
    };

    pub const ODD_IMPL: Rule = Rule {
        topic: Topic::Impls,
        place: 5,
    };

    pub const VISIBLE_CONST_IMPL: Rule = Rule {
        topic: Topic::Impls,
        place: 6,
    };

    pub const FOREIGN_MODULE: Rule = Rule {
        topic: Topic::Foreign,
        place: 0,
    };

    pub const FOREIGN_MODULE_REST: Rule = Rule {
        topic: Topic::Foreign,
        place: 1,
    };

    pub const MEMBER_MACRO: Rule = Rule {
        topic: Topic::Foreign,
        place: 2,
    };

    pub const BARE_TRAIT_FUNCTION: Rule = Rule {
        topic: Topic::TraitMembers,
        place: 0,
    };

    pub const BARE_TRAIT_TYPE: Rule = Rule {
        topic: Topic::TraitMembers,
        place: 1,
    };

    pub const TRAIT_CONST: Rule = Rule {
        topic: Topic::TraitMembers,
        place: 2,
    };

    pub const TRAIT_FUNCTION: Rule = Rule {
        topic: Topic::TraitMembers,
        place: 3,
    };

    pub const TRAIT_TYPE: Rule = Rule {
        topic: Topic::TraitMembers,
        place: 4,
    };

    pub const TRAIT_MACRO: Rule = Rule {
        topic: Topic::TraitMembers,
        place: 5,
    };

    pub const TRAIT_MACRO_AS_ITEM: Rule = Rule {
        topic: Topic::TraitMembers,
        place: 6,
    };

    pub const ANY_CONST: Rule = Rule {
        topic: Topic::TraitMembers,
        place: 7,
    };

    pub const ODD_TRAIT_CONST: Rule = Rule {
        topic: Topic::TraitMembers,
        place: 8,
    };

    pub const TRAIT_ITEM: Rule = Rule {
        topic: Topic::TraitMembers,
        place: 9,
    };

    pub const TRAIT_ITEMS: Rule = Rule {
        topic: Topic::TraitMembers,
        place: 10,
    };

    pub const IMPL_CONST: Rule = Rule {
        topic: Topic::ImplMembers,
        place: 0,
    };

    pub const IMPL_FUNCTION: Rule = Rule {
        topic: Topic::ImplMembers,
        place: 1,
    };

    pub const IMPL_TYPE: Rule = Rule {
        topic: Topic::ImplMembers,
        place: 2,
    };

    pub const IMPL_MACRO: Rule = Rule {
        topic: Topic::ImplMembers,
        place: 3,
    };

    pub const IMPL_MACRO_AS_ITEM: Rule = Rule {
        topic: Topic::ImplMembers,
        place: 4,
    };

    pub const BODILESS_IMPL_FUNCTION: Rule = Rule {
        topic: Topic::ImplMembers,
        place: 5,
    };

    pub const ODD_IMPL_CONST: Rule = Rule {
        topic: Topic::ImplMembers,
        place: 6,
    };

    pub const ODD_IMPL_TYPE: Rule = Rule {
        topic: Topic::ImplMembers,
        place: 7,
    };

    pub const IMPL_ITEM: Rule = Rule {
        topic: Topic::ImplMembers,
        place: 8,
    };

    pub const IMPL_ITEMS: Rule = Rule {
        topic: Topic::ImplMembers,
        place: 9,
    };

    pub const FOREIGN_SIGNATURE: Rule = Rule {
        topic: Topic::ForeignMembers,
        place: 0,
    };

    pub const BARE_FOREIGN_STATIC: Rule = Rule {
        topic: Topic::ForeignMembers,
        place: 1,
    };

    pub const FOREIGN_FUNCTION: Rule = Rule {
        topic: Topic::ForeignMembers,
        place: 2,
    };

    pub const FOREIGN_STATIC: Rule = Rule {
        topic: Topic::ForeignMembers,
        place: 3,
    };

    pub const FOREIGN_TYPE: Rule = Rule {
        topic: Topic::ForeignMembers,
        place: 4,
    };

    pub const FOREIGN_MACRO: Rule = Rule {
        topic: Topic::ForeignMembers,
        place: 5,
    };

    pub const FOREIGN_MACRO_AS_ITEM: Rule = Rule {
        topic: Topic::ForeignMembers,
        place: 6,
    };

    pub const FOREIGN_BODY: Rule = Rule {
        topic: Topic::ForeignMembers,
        place: 7,
    };

    pub const FOREIGN_VALUE: Rule = Rule {
        topic: Topic::ForeignMembers,
        place: 8,
    };

    pub const ODD_FOREIGN_TYPE: Rule = Rule {
        topic: Topic::ForeignMembers,
        place: 9,
    };

    pub const FOREIGN_ITEM: Rule = Rule {
        topic: Topic::ForeignMembers,
        place: 10,
    };

    pub const FOREIGN_ITEMS: Rule = Rule {
        topic: Topic::ForeignMembers,
        place: 11,
    };

    pub const ITEM: Rule = Rule {
        topic: Topic::Files,
        place: 0,
    };

    pub const ITEMS: Rule = Rule {
        topic: Topic::Files,
        place: 1,
    };

    pub const FILE: Rule = Rule {
        topic: Topic::Files,
        place: 2,
    };
}

/// The form of the rule.
#[tactic(auto, unfolding(crate::specs::Names::rule_of))]
pub(crate) fn form_of(rule: Rule) -> &'static Form
    ensures { parse_form (grammar_of result.now) ≡ parse_form (table (rule_of rule)) }
{
    match rule.topic {
        Topic::Attributes => attributes::form_at(rule.place),
        Topic::Visibilities => visibilities::form_at(rule.place),
        Topic::Types => types::form_at(rule.place),
        Topic::Generics => generics::form_at(rule.place),
        Topic::Fields => fields::form_at(rule.place),
        Topic::Inputs => inputs::form_at(rule.place),
        Topic::Patterns => patterns::form_at(rule.place),
        Topic::Lists => lists::form_at(rule.place),
        Topic::Blocks => blocks::form_at(rule.place),
        Topic::Postfixes => postfixes::form_at(rule.place),
        Topic::Operators => operators::form_at(rule.place),
        Topic::Heads => heads::form_at(rule.place),
        Topic::Statements => statements::form_at(rule.place),
        Topic::Signatures => signatures::form_at(rule.place),
        Topic::Items1 => items::form_at_1(rule.place),
        Topic::Items2 => items::form_at_2(rule.place),
        Topic::KeptItems => kept_items::form_at(rule.place),
        Topic::Traits => traits::form_at(rule.place),
        Topic::Impls => impls::form_at(rule.place),
        Topic::Foreign => foreign::form_at(rule.place),
        Topic::TraitMembers => trait_members::form_at(rule.place),
        Topic::ImplMembers => impl_members::form_at(rule.place),
        Topic::ForeignMembers => foreign_members::form_at(rule.place),
        Topic::Files => files::form_at(rule.place),
    }
}

/// A group of parts.
#[derive(Clone, Copy)]
enum Group {
    Types,
    Generics,
    Fields,
    Inputs,
    Patterns,
    Lists,
    Blocks,
    Postfixes,
    Operators,
    Heads,
    Statements,
    Signatures,
    Items,
    KeptItems,
    Traits,
    Impls,
    TraitMembers,
    ImplMembers,
    ForeignMembers,
    Planned1,
    Planned2,
    Planned3,
    Planned4,
    Planned5,
}

/// A part of a rule's form with a static of its own: Rattle's own compiler accepts no larger ones.
#[derive(Clone, Copy)]
pub(crate) struct Part {
    group: Group,
    place: u8,
}

impl Part {
    pub(crate) const TYPE_WORDS_1: Part = Part {
        group: Group::Types,
        place: 0,
    };

    pub(crate) const TYPE_WORDS_2: Part = Part {
        group: Group::Types,
        place: 1,
    };

    pub(crate) const MORE_TYPE_WORDS_1: Part = Part {
        group: Group::Types,
        place: 2,
    };

    pub(crate) const MORE_TYPE_WORDS_2: Part = Part {
        group: Group::Types,
        place: 3,
    };

    pub(crate) const QUALIFIED_PATH_1: Part = Part {
        group: Group::Types,
        place: 4,
    };

    pub(crate) const TYPE_1: Part = Part {
        group: Group::Types,
        place: 5,
    };

    pub(crate) const TYPE_2: Part = Part {
        group: Group::Types,
        place: 6,
    };

    pub(crate) const TYPE_3: Part = Part {
        group: Group::Types,
        place: 7,
    };

    pub(crate) const CONSTANT_1: Part = Part {
        group: Group::Types,
        place: 8,
    };

    pub(crate) const GENERICS_1: Part = Part {
        group: Group::Generics,
        place: 0,
    };

    pub(crate) const GENERICS_2: Part = Part {
        group: Group::Generics,
        place: 1,
    };

    pub(crate) const GENERICS_3: Part = Part {
        group: Group::Generics,
        place: 2,
    };

    pub(crate) const PREDICATE_1: Part = Part {
        group: Group::Generics,
        place: 3,
    };

    pub(crate) const NAMED_FIELD_1: Part = Part {
        group: Group::Fields,
        place: 0,
    };

    pub(crate) const NAMED_FIELD_2: Part = Part {
        group: Group::Fields,
        place: 1,
    };

    pub(crate) const VARIANT_1: Part = Part {
        group: Group::Fields,
        place: 2,
    };

    pub(crate) const VARIANT_2: Part = Part {
        group: Group::Fields,
        place: 3,
    };

    pub(crate) const STRUCTURE_BODY_1: Part = Part {
        group: Group::Inputs,
        place: 0,
    };

    pub(crate) const ENUMERATION_REST_1: Part = Part {
        group: Group::Inputs,
        place: 1,
    };

    pub(crate) const EXPRESSION_WORDS_1: Part = Part {
        group: Group::Patterns,
        place: 0,
    };

    pub(crate) const EXPRESSION_WORDS_2: Part = Part {
        group: Group::Patterns,
        place: 1,
    };

    pub(crate) const QUALIFIED_EXPRESSION_PATH_1: Part = Part {
        group: Group::Patterns,
        place: 2,
    };

    pub(crate) const PATTERN_1: Part = Part {
        group: Group::Patterns,
        place: 3,
    };

    pub(crate) const PATTERN_2: Part = Part {
        group: Group::Patterns,
        place: 4,
    };

    pub(crate) const PATTERN_3: Part = Part {
        group: Group::Patterns,
        place: 5,
    };

    pub(crate) const ARRAY_CONTENT_1: Part = Part {
        group: Group::Lists,
        place: 0,
    };

    pub(crate) const PRIMARY_1: Part = Part {
        group: Group::Blocks,
        place: 0,
    };

    pub(crate) const PRIMARY_2: Part = Part {
        group: Group::Blocks,
        place: 1,
    };

    pub(crate) const PRIMARY_3: Part = Part {
        group: Group::Blocks,
        place: 2,
    };

    pub(crate) const PRIMARY_4: Part = Part {
        group: Group::Blocks,
        place: 3,
    };

    pub(crate) const PRIMARY_5: Part = Part {
        group: Group::Blocks,
        place: 4,
    };

    pub(crate) const PRIMARY_6: Part = Part {
        group: Group::Blocks,
        place: 5,
    };

    pub(crate) const LITERAL_FIELDS_1: Part = Part {
        group: Group::Blocks,
        place: 6,
    };

    pub(crate) const LITERAL_FIELD_1: Part = Part {
        group: Group::Blocks,
        place: 7,
    };

    pub(crate) const BLOCK_LIKE_1: Part = Part {
        group: Group::Blocks,
        place: 8,
    };

    pub(crate) const IF_EXPRESSION_1: Part = Part {
        group: Group::Blocks,
        place: 9,
    };

    pub(crate) const LOOP_EXPRESSION_1: Part = Part {
        group: Group::Blocks,
        place: 10,
    };

    pub(crate) const LOOP_EXPRESSION_2: Part = Part {
        group: Group::Blocks,
        place: 11,
    };

    pub(crate) const POSTFIXES_1: Part = Part {
        group: Group::Postfixes,
        place: 0,
    };

    pub(crate) const POSTFIXES_2: Part = Part {
        group: Group::Postfixes,
        place: 1,
    };

    pub(crate) const POSTFIXES_3: Part = Part {
        group: Group::Postfixes,
        place: 2,
    };

    pub(crate) const MEMBER_1: Part = Part {
        group: Group::Postfixes,
        place: 3,
    };

    pub(crate) const MEMBER_2: Part = Part {
        group: Group::Postfixes,
        place: 4,
    };

    pub(crate) const UNARY_1: Part = Part {
        group: Group::Postfixes,
        place: 5,
    };

    pub(crate) const UNARY_2: Part = Part {
        group: Group::Postfixes,
        place: 6,
    };

    pub(crate) const UNARY_3: Part = Part {
        group: Group::Postfixes,
        place: 7,
    };

    pub(crate) const PRODUCTS_1: Part = Part {
        group: Group::Operators,
        place: 0,
    };

    pub(crate) const PRODUCTS_2: Part = Part {
        group: Group::Operators,
        place: 1,
    };

    pub(crate) const SUMS_1: Part = Part {
        group: Group::Operators,
        place: 2,
    };

    pub(crate) const SHIFTS_1: Part = Part {
        group: Group::Operators,
        place: 3,
    };

    pub(crate) const COMPARED_1: Part = Part {
        group: Group::Operators,
        place: 4,
    };

    pub(crate) const COMPARED_2: Part = Part {
        group: Group::Operators,
        place: 5,
    };

    pub(crate) const COMPARED_3: Part = Part {
        group: Group::Operators,
        place: 6,
    };

    pub(crate) const ASSIGNED_1: Part = Part {
        group: Group::Operators,
        place: 7,
    };

    pub(crate) const ASSIGNED_2: Part = Part {
        group: Group::Operators,
        place: 8,
    };

    pub(crate) const ASSIGNED_3: Part = Part {
        group: Group::Operators,
        place: 9,
    };

    pub(crate) const ASSIGNED_4: Part = Part {
        group: Group::Operators,
        place: 10,
    };

    pub(crate) const ASSIGNED_5: Part = Part {
        group: Group::Operators,
        place: 11,
    };

    pub(crate) const PRIMARY_HEAD_1: Part = Part {
        group: Group::Heads,
        place: 0,
    };

    pub(crate) const PRIMARY_HEAD_2: Part = Part {
        group: Group::Heads,
        place: 1,
    };

    pub(crate) const PRIMARY_HEAD_3: Part = Part {
        group: Group::Heads,
        place: 2,
    };

    pub(crate) const PRIMARY_HEAD_4: Part = Part {
        group: Group::Heads,
        place: 3,
    };

    pub(crate) const PRIMARY_HEAD_5: Part = Part {
        group: Group::Heads,
        place: 4,
    };

    pub(crate) const UNARY_HEAD_1: Part = Part {
        group: Group::Heads,
        place: 5,
    };

    pub(crate) const UNARY_HEAD_2: Part = Part {
        group: Group::Heads,
        place: 6,
    };

    pub(crate) const UNARY_HEAD_3: Part = Part {
        group: Group::Heads,
        place: 7,
    };

    pub(crate) const PRODUCTS_HEAD_1: Part = Part {
        group: Group::Heads,
        place: 8,
    };

    pub(crate) const PRODUCTS_HEAD_2: Part = Part {
        group: Group::Heads,
        place: 9,
    };

    pub(crate) const SUMS_HEAD_1: Part = Part {
        group: Group::Heads,
        place: 10,
    };

    pub(crate) const SHIFTS_HEAD_1: Part = Part {
        group: Group::Heads,
        place: 11,
    };

    pub(crate) const COMPARED_HEAD_1: Part = Part {
        group: Group::Heads,
        place: 12,
    };

    pub(crate) const COMPARED_HEAD_2: Part = Part {
        group: Group::Heads,
        place: 13,
    };

    pub(crate) const COMPARED_HEAD_3: Part = Part {
        group: Group::Heads,
        place: 14,
    };

    pub(crate) const ASSIGNED_HEAD_1: Part = Part {
        group: Group::Heads,
        place: 15,
    };

    pub(crate) const ASSIGNED_HEAD_2: Part = Part {
        group: Group::Heads,
        place: 16,
    };

    pub(crate) const ASSIGNED_HEAD_3: Part = Part {
        group: Group::Heads,
        place: 17,
    };

    pub(crate) const ASSIGNED_HEAD_4: Part = Part {
        group: Group::Heads,
        place: 18,
    };

    pub(crate) const ASSIGNED_HEAD_5: Part = Part {
        group: Group::Heads,
        place: 19,
    };

    pub(crate) const OPERAND_REST_1: Part = Part {
        group: Group::Statements,
        place: 0,
    };

    pub(crate) const OPERAND_REST_2: Part = Part {
        group: Group::Statements,
        place: 1,
    };

    pub(crate) const STATEMENT_REST_1: Part = Part {
        group: Group::Statements,
        place: 2,
    };

    pub(crate) const STATEMENT_REST_2: Part = Part {
        group: Group::Statements,
        place: 3,
    };

    pub(crate) const STATEMENT_REST_3: Part = Part {
        group: Group::Statements,
        place: 4,
    };

    pub(crate) const LOCAL_1: Part = Part {
        group: Group::Statements,
        place: 5,
    };

    pub(crate) const LOCAL_2: Part = Part {
        group: Group::Statements,
        place: 6,
    };

    pub(crate) const RECEIVER_REST_1: Part = Part {
        group: Group::Signatures,
        place: 0,
    };

    pub(crate) const RECEIVER_REST_2: Part = Part {
        group: Group::Signatures,
        place: 1,
    };

    pub(crate) const RECEIVER_REST_3: Part = Part {
        group: Group::Signatures,
        place: 2,
    };

    pub(crate) const INPUTS_1: Part = Part {
        group: Group::Signatures,
        place: 3,
    };

    pub(crate) const SIGNATURE_1: Part = Part {
        group: Group::Signatures,
        place: 4,
    };

    pub(crate) const SIGNATURE_REST_1: Part = Part {
        group: Group::Signatures,
        place: 5,
    };

    pub(crate) const CONST_ITEM_REST_1: Part = Part {
        group: Group::Items,
        place: 0,
    };

    pub(crate) const STATIC_ITEM_REST_1: Part = Part {
        group: Group::Items,
        place: 1,
    };

    pub(crate) const EXTERN_CRATE_REST_1: Part = Part {
        group: Group::Items,
        place: 2,
    };

    pub(crate) const USE_TREE_1: Part = Part {
        group: Group::Items,
        place: 3,
    };

    pub(crate) const MODULE_ITEM_REST_1: Part = Part {
        group: Group::Items,
        place: 4,
    };

    pub(crate) const ALIAS_1: Part = Part {
        group: Group::Items,
        place: 5,
    };

    pub(crate) const MACRO_ITEM_REST_1: Part = Part {
        group: Group::Items,
        place: 6,
    };

    pub(crate) const UNTYPED_STATIC_1: Part = Part {
        group: Group::KeptItems,
        place: 0,
    };

    pub(crate) const VALUELESS_STATIC_1: Part = Part {
        group: Group::KeptItems,
        place: 1,
    };

    pub(crate) const ODD_CONST_1: Part = Part {
        group: Group::KeptItems,
        place: 2,
    };

    pub(crate) const ODD_CONST_2: Part = Part {
        group: Group::KeptItems,
        place: 3,
    };

    pub(crate) const ODD_CONST_3: Part = Part {
        group: Group::KeptItems,
        place: 4,
    };

    pub(crate) const ODD_CONST_4: Part = Part {
        group: Group::KeptItems,
        place: 5,
    };

    pub(crate) const ODD_CONST_5: Part = Part {
        group: Group::KeptItems,
        place: 6,
    };

    pub(crate) const ODD_TYPE_1: Part = Part {
        group: Group::KeptItems,
        place: 7,
    };

    pub(crate) const ODD_TYPE_2: Part = Part {
        group: Group::KeptItems,
        place: 8,
    };

    pub(crate) const ODD_TYPE_3: Part = Part {
        group: Group::KeptItems,
        place: 9,
    };

    pub(crate) const BARE_TRAIT_1: Part = Part {
        group: Group::Traits,
        place: 0,
    };

    pub(crate) const BARE_TRAIT_2: Part = Part {
        group: Group::Traits,
        place: 1,
    };

    pub(crate) const RESTRICTED_TRAIT_1: Part = Part {
        group: Group::Traits,
        place: 2,
    };

    pub(crate) const ODD_IMPL_1: Part = Part {
        group: Group::Impls,
        place: 0,
    };

    pub(crate) const ODD_IMPL_2: Part = Part {
        group: Group::Impls,
        place: 1,
    };

    pub(crate) const ODD_IMPL_3: Part = Part {
        group: Group::Impls,
        place: 2,
    };

    pub(crate) const ODD_IMPL_4: Part = Part {
        group: Group::Impls,
        place: 3,
    };

    pub(crate) const VISIBLE_CONST_IMPL_1: Part = Part {
        group: Group::Impls,
        place: 4,
    };

    pub(crate) const VISIBLE_CONST_IMPL_2: Part = Part {
        group: Group::Impls,
        place: 5,
    };

    pub(crate) const VISIBLE_CONST_IMPL_3: Part = Part {
        group: Group::Impls,
        place: 6,
    };

    pub(crate) const BARE_TRAIT_TYPE_1: Part = Part {
        group: Group::TraitMembers,
        place: 0,
    };

    pub(crate) const TRAIT_CONST_1: Part = Part {
        group: Group::TraitMembers,
        place: 1,
    };

    pub(crate) const ANY_CONST_1: Part = Part {
        group: Group::TraitMembers,
        place: 2,
    };

    pub(crate) const ANY_CONST_2: Part = Part {
        group: Group::TraitMembers,
        place: 3,
    };

    pub(crate) const ODD_TRAIT_CONST_1: Part = Part {
        group: Group::TraitMembers,
        place: 4,
    };

    pub(crate) const ODD_TRAIT_CONST_2: Part = Part {
        group: Group::TraitMembers,
        place: 5,
    };

    pub(crate) const ODD_TRAIT_CONST_3: Part = Part {
        group: Group::TraitMembers,
        place: 6,
    };

    pub(crate) const ODD_TRAIT_CONST_4: Part = Part {
        group: Group::TraitMembers,
        place: 7,
    };

    pub(crate) const IMPL_CONST_1: Part = Part {
        group: Group::ImplMembers,
        place: 0,
    };

    pub(crate) const IMPL_CONST_2: Part = Part {
        group: Group::ImplMembers,
        place: 1,
    };

    pub(crate) const IMPL_TYPE_1: Part = Part {
        group: Group::ImplMembers,
        place: 2,
    };

    pub(crate) const ODD_IMPL_CONST_1: Part = Part {
        group: Group::ImplMembers,
        place: 3,
    };

    pub(crate) const ODD_IMPL_CONST_2: Part = Part {
        group: Group::ImplMembers,
        place: 4,
    };

    pub(crate) const ODD_IMPL_CONST_3: Part = Part {
        group: Group::ImplMembers,
        place: 5,
    };

    pub(crate) const ODD_IMPL_CONST_4: Part = Part {
        group: Group::ImplMembers,
        place: 6,
    };

    pub(crate) const ODD_IMPL_CONST_5: Part = Part {
        group: Group::ImplMembers,
        place: 7,
    };

    pub(crate) const ODD_IMPL_TYPE_1: Part = Part {
        group: Group::ImplMembers,
        place: 8,
    };

    pub(crate) const ODD_IMPL_TYPE_2: Part = Part {
        group: Group::ImplMembers,
        place: 9,
    };

    pub(crate) const ODD_IMPL_TYPE_3: Part = Part {
        group: Group::ImplMembers,
        place: 10,
    };

    pub(crate) const FOREIGN_SIGNATURE_1: Part = Part {
        group: Group::ForeignMembers,
        place: 0,
    };

    pub(crate) const BARE_FOREIGN_STATIC_1: Part = Part {
        group: Group::ForeignMembers,
        place: 1,
    };

    pub(crate) const FOREIGN_TYPE_1: Part = Part {
        group: Group::ForeignMembers,
        place: 2,
    };

    pub(crate) const ODD_FOREIGN_TYPE_1: Part = Part {
        group: Group::ForeignMembers,
        place: 3,
    };

    pub(crate) const ODD_FOREIGN_TYPE_2: Part = Part {
        group: Group::ForeignMembers,
        place: 4,
    };

    pub(crate) const ODD_FOREIGN_TYPE_3: Part = Part {
        group: Group::ForeignMembers,
        place: 5,
    };

    pub(crate) const ODD_FOREIGN_TYPE_4: Part = Part {
        group: Group::ForeignMembers,
        place: 6,
    };

    pub(crate) const ODD_FOREIGN_TYPE_5: Part = Part {
        group: Group::ForeignMembers,
        place: 7,
    };

    pub(crate) const PLANNED_1: Part = Part {
        group: Group::Planned1,
        place: 0,
    };

    pub(crate) const PLANNED_2: Part = Part {
        group: Group::Planned1,
        place: 1,
    };

    pub(crate) const PLANNED_3: Part = Part {
        group: Group::Planned1,
        place: 2,
    };

    pub(crate) const PLANNED_4: Part = Part {
        group: Group::Planned1,
        place: 3,
    };

    pub(crate) const PLANNED_5: Part = Part {
        group: Group::Planned1,
        place: 4,
    };

    pub(crate) const PLANNED_6: Part = Part {
        group: Group::Planned1,
        place: 5,
    };

    pub(crate) const PLANNED_7: Part = Part {
        group: Group::Planned1,
        place: 6,
    };

    pub(crate) const PLANNED_8: Part = Part {
        group: Group::Planned1,
        place: 7,
    };

    pub(crate) const PLANNED_9: Part = Part {
        group: Group::Planned1,
        place: 8,
    };

    pub(crate) const PLANNED_10: Part = Part {
        group: Group::Planned1,
        place: 9,
    };

    pub(crate) const PLANNED_11: Part = Part {
        group: Group::Planned1,
        place: 10,
    };

    pub(crate) const PLANNED_12: Part = Part {
        group: Group::Planned1,
        place: 11,
    };

    pub(crate) const PLANNED_13: Part = Part {
        group: Group::Planned1,
        place: 12,
    };

    pub(crate) const PLANNED_14: Part = Part {
        group: Group::Planned1,
        place: 13,
    };

    pub(crate) const PLANNED_15: Part = Part {
        group: Group::Planned1,
        place: 14,
    };

    pub(crate) const PLANNED_16: Part = Part {
        group: Group::Planned1,
        place: 15,
    };

    pub(crate) const PLANNED_17: Part = Part {
        group: Group::Planned1,
        place: 16,
    };

    pub(crate) const PLANNED_18: Part = Part {
        group: Group::Planned2,
        place: 0,
    };

    pub(crate) const PLANNED_19: Part = Part {
        group: Group::Planned2,
        place: 1,
    };

    pub(crate) const PLANNED_20: Part = Part {
        group: Group::Planned2,
        place: 2,
    };

    pub(crate) const PLANNED_21: Part = Part {
        group: Group::Planned2,
        place: 3,
    };

    pub(crate) const PLANNED_22: Part = Part {
        group: Group::Planned2,
        place: 4,
    };

    pub(crate) const PLANNED_23: Part = Part {
        group: Group::Planned2,
        place: 5,
    };

    pub(crate) const PLANNED_24: Part = Part {
        group: Group::Planned2,
        place: 6,
    };

    pub(crate) const PLANNED_25: Part = Part {
        group: Group::Planned2,
        place: 7,
    };

    pub(crate) const PLANNED_26: Part = Part {
        group: Group::Planned2,
        place: 8,
    };

    pub(crate) const PLANNED_27: Part = Part {
        group: Group::Planned2,
        place: 9,
    };

    pub(crate) const PLANNED_28: Part = Part {
        group: Group::Planned2,
        place: 10,
    };

    pub(crate) const PLANNED_29: Part = Part {
        group: Group::Planned2,
        place: 11,
    };

    pub(crate) const PLANNED_30: Part = Part {
        group: Group::Planned2,
        place: 12,
    };

    pub(crate) const PLANNED_31: Part = Part {
        group: Group::Planned2,
        place: 13,
    };

    pub(crate) const PLANNED_32: Part = Part {
        group: Group::Planned2,
        place: 14,
    };

    pub(crate) const PLANNED_33: Part = Part {
        group: Group::Planned2,
        place: 15,
    };

    pub(crate) const PLANNED_34: Part = Part {
        group: Group::Planned2,
        place: 16,
    };

    pub(crate) const PLANNED_35: Part = Part {
        group: Group::Planned3,
        place: 0,
    };

    pub(crate) const PLANNED_36: Part = Part {
        group: Group::Planned3,
        place: 1,
    };

    pub(crate) const PLANNED_37: Part = Part {
        group: Group::Planned3,
        place: 2,
    };

    pub(crate) const PLANNED_38: Part = Part {
        group: Group::Planned3,
        place: 3,
    };

    pub(crate) const PLANNED_39: Part = Part {
        group: Group::Planned3,
        place: 4,
    };

    pub(crate) const PLANNED_40: Part = Part {
        group: Group::Planned3,
        place: 5,
    };

    pub(crate) const PLANNED_41: Part = Part {
        group: Group::Planned3,
        place: 6,
    };

    pub(crate) const PLANNED_42: Part = Part {
        group: Group::Planned3,
        place: 7,
    };

    pub(crate) const PLANNED_43: Part = Part {
        group: Group::Planned3,
        place: 8,
    };

    pub(crate) const PLANNED_44: Part = Part {
        group: Group::Planned3,
        place: 9,
    };

    pub(crate) const PLANNED_45: Part = Part {
        group: Group::Planned3,
        place: 10,
    };

    pub(crate) const PLANNED_46: Part = Part {
        group: Group::Planned3,
        place: 11,
    };

    pub(crate) const PLANNED_47: Part = Part {
        group: Group::Planned3,
        place: 12,
    };

    pub(crate) const PLANNED_48: Part = Part {
        group: Group::Planned3,
        place: 13,
    };

    pub(crate) const PLANNED_49: Part = Part {
        group: Group::Planned3,
        place: 14,
    };

    pub(crate) const PLANNED_50: Part = Part {
        group: Group::Planned3,
        place: 15,
    };

    pub(crate) const PLANNED_51: Part = Part {
        group: Group::Planned3,
        place: 16,
    };

    pub(crate) const PLANNED_52: Part = Part {
        group: Group::Planned4,
        place: 0,
    };

    pub(crate) const PLANNED_53: Part = Part {
        group: Group::Planned4,
        place: 1,
    };

    pub(crate) const PLANNED_54: Part = Part {
        group: Group::Planned4,
        place: 2,
    };

    pub(crate) const PLANNED_55: Part = Part {
        group: Group::Planned4,
        place: 3,
    };

    pub(crate) const PLANNED_56: Part = Part {
        group: Group::Planned4,
        place: 4,
    };

    pub(crate) const PLANNED_57: Part = Part {
        group: Group::Planned4,
        place: 5,
    };

    pub(crate) const PLANNED_58: Part = Part {
        group: Group::Planned4,
        place: 6,
    };

    pub(crate) const PLANNED_59: Part = Part {
        group: Group::Planned4,
        place: 7,
    };

    pub(crate) const PLANNED_60: Part = Part {
        group: Group::Planned4,
        place: 8,
    };

    pub(crate) const PLANNED_61: Part = Part {
        group: Group::Planned4,
        place: 9,
    };

    pub(crate) const PLANNED_62: Part = Part {
        group: Group::Planned4,
        place: 10,
    };

    pub(crate) const PLANNED_63: Part = Part {
        group: Group::Planned4,
        place: 11,
    };

    pub(crate) const PLANNED_64: Part = Part {
        group: Group::Planned4,
        place: 12,
    };

    pub(crate) const PLANNED_65: Part = Part {
        group: Group::Planned4,
        place: 13,
    };

    pub(crate) const PLANNED_66: Part = Part {
        group: Group::Planned4,
        place: 14,
    };

    pub(crate) const PLANNED_67: Part = Part {
        group: Group::Planned4,
        place: 15,
    };

    pub(crate) const PLANNED_68: Part = Part {
        group: Group::Planned4,
        place: 16,
    };

    pub(crate) const PLANNED_69: Part = Part {
        group: Group::Planned5,
        place: 0,
    };

    pub(crate) const PLANNED_70: Part = Part {
        group: Group::Planned5,
        place: 1,
    };

    pub(crate) const PLANNED_71: Part = Part {
        group: Group::Planned5,
        place: 2,
    };

    pub(crate) const PLANNED_72: Part = Part {
        group: Group::Planned5,
        place: 3,
    };

    pub(crate) const PLANNED_73: Part = Part {
        group: Group::Planned5,
        place: 4,
    };

    pub(crate) const PLANNED_74: Part = Part {
        group: Group::Planned5,
        place: 5,
    };

    pub(crate) const PLANNED_75: Part = Part {
        group: Group::Planned5,
        place: 6,
    };

    pub(crate) const PLANNED_76: Part = Part {
        group: Group::Planned5,
        place: 7,
    };

    pub(crate) const PLANNED_77: Part = Part {
        group: Group::Planned5,
        place: 8,
    };

    pub(crate) const PLANNED_78: Part = Part {
        group: Group::Planned5,
        place: 9,
    };

    pub(crate) const PLANNED_79: Part = Part {
        group: Group::Planned5,
        place: 10,
    };

    pub(crate) const PLANNED_80: Part = Part {
        group: Group::Planned5,
        place: 11,
    };

    pub(crate) const PLANNED_81: Part = Part {
        group: Group::Planned5,
        place: 12,
    };

    pub(crate) const PLANNED_82: Part = Part {
        group: Group::Planned5,
        place: 13,
    };

    pub(crate) const PLANNED_83: Part = Part {
        group: Group::Planned5,
        place: 14,
    };

    pub(crate) const PLANNED_84: Part = Part {
        group: Group::Planned5,
        place: 15,
    };
}

/// The form of the part.
#[tactic(auto, unfolding(crate::specs::Parts::part_form))]
pub(crate) fn form_of_part(part: Part) -> &'static Form
    ensures { parse_form (grammar_of result.now) ≡ parse_form (part_form part) }
{
    match part.group {
        Group::Types => types::part_at(part.place),
        Group::Generics => generics::part_at(part.place),
        Group::Fields => fields::part_at(part.place),
        Group::Inputs => inputs::part_at(part.place),
        Group::Patterns => patterns::part_at(part.place),
        Group::Lists => lists::part_at(part.place),
        Group::Blocks => blocks::part_at(part.place),
        Group::Postfixes => postfixes::part_at(part.place),
        Group::Operators => operators::part_at(part.place),
        Group::Heads => heads::part_at(part.place),
        Group::Statements => statements::part_at(part.place),
        Group::Signatures => signatures::part_at(part.place),
        Group::Items => items::part_at(part.place),
        Group::KeptItems => kept_items::part_at(part.place),
        Group::Traits => traits::part_at(part.place),
        Group::Impls => impls::part_at(part.place),
        Group::TraitMembers => trait_members::part_at(part.place),
        Group::ImplMembers => impl_members::part_at(part.place),
        Group::ForeignMembers => foreign_members::part_at(part.place),
        Group::Planned1 => crate::plan::planned_1(part.place),
        Group::Planned2 => crate::plan::planned_2(part.place),
        Group::Planned3 => crate::plan::planned_3(part.place),
        Group::Planned4 => crate::plan::planned_4(part.place),
        Group::Planned5 => crate::plan::planned_5(part.place),
    }
}

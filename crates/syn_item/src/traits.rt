//! Traits and their members.
ghost use Rattle.std.specs.Prelude.{◌≡◌, OnOk};
ghost use Rattle.syn_grammar.specs.Grammar.{print};
ghost use Rattle.syn_grammar.specs.Promises.{itself};
ghost use Rattle.syn_tokens.specs.Building.{added};
ghost use Rattle.syn_tokens.specs.Kinds.{semi_syntax};
ghost use Rattle.syn_tokens.specs.Leaves.{maybe};
ghost use Rattle.syn_lower.specs.Attributes.{attributes_syntax};
ghost use Rattle.syn_lower.specs.Bodies.{attributes_before_body, attributes_in_body};
ghost use Rattle.syn_item.specs.Simple.{attributes_by_content};
ghost use Rattle.syn_item.specs.Traits.{after_auto, after_name, function_end};

mod parsing;

use crate::parts::{print_body, print_braced};
use crate::sig::Signature;
pub(crate) use parsing::{TraitHead, TraitMarks, named_trait, trait_end, unmarked_trait};
use std::alloc::AllocError;
use syn_lower::attr::{print_before_body, print_outer};
use syn_lower::generics::print_bounds;
use syn_lower::{Attribute, Generics, Type, TypeParamBound};
use syn_pat::Macro;
use syn_recognize::deferred::{DeferredBlock, DeferredExpr};
use syn_tokens::ident::Ident;
use syn_tokens::print::Print;
use syn_tokens::punctuated::Punctuated;
use syn_tokens::span::Span;
use syn_tokens::stream::TokenStream;
use syn_tokens::stream::builder::StreamBuilder;
use syn_tokens::syntactic::compare::Compared;
use syn_tokens::token;
use syn_tokens::token::{Brace, Colon, Const, Eq, Plus, Semi, Trait, Unsafe};
use syn_tree::item::{ConstModifiers, FnModifiers, TraitModifiers, TypeModifiers};
use syn_tree::restriction::Visibility;

/// A trait, such as `trait A<T>: B { fn f(); }`.
#[derive(Drop)]
pub struct ItemTrait {
    pub attrs: Vec<Attribute>,
    pub vis: Visibility,
    pub modifiers: TraitModifiers,
    pub unsafety: Option<Unsafe>,
    pub trait_token: Trait,
    pub ident: Ident,
    pub generics: Generics,
    pub colon_token: Option<Colon>,
    pub supertraits: Punctuated<TypeParamBound, Plus>,
    pub brace_token: Brace,
    pub items: Vec<TraitItem>,
}

/// A member of a trait.
#[derive(Drop)]
pub enum TraitItem {
    /// `const A: u8 = 1;`
    Const(TraitItemConst),
    /// `fn f(&self);`
    Fn(TraitItemFn),
    /// `type A: B;`
    Ty(TraitItemType),
    /// `m!(a);`
    Macro(TraitItemMacro),
    /// What has no kind of its own, such as `pub fn f();`.
    Verbatim(TokenStream),
}

/// A constant of a trait, such as `const A: u8;` or `const A: u8 = 1;`.
#[derive(Drop)]
pub struct TraitItemConst {
    pub attrs: Vec<Attribute>,
    pub modifiers: ConstModifiers,
    pub const_token: Const,
    pub ident: Ident,
    pub generics: Generics,
    pub colon_token: Colon,
    pub ty: Type,
    pub default: Option<(Eq, DeferredExpr)>,
    pub semi_token: Semi,
}

/// A function of a trait, such as `fn f(&self);` or `fn f(&self) {}`. Its body is kept verbatim.
#[derive(Drop)]
pub struct TraitItemFn {
    pub attrs: Vec<Attribute>,
    pub modifiers: FnModifiers,
    pub sig: Signature,
    pub default: Option<DeferredBlock>,
    pub semi_token: Option<Semi>,
}

/// A type of a trait, such as `type A: B = C;`.
#[derive(Drop)]
pub struct TraitItemType {
    pub attrs: Vec<Attribute>,
    pub modifiers: TypeModifiers,
    pub type_token: token::Type,
    pub ident: Ident,
    pub generics: Generics,
    pub colon_token: Option<Colon>,
    pub bounds: Punctuated<TypeParamBound, Plus>,
    pub default: Option<(Eq, Type)>,
    pub semi_token: Semi,
}

/// A macro among the members of a trait, such as `m!(a);`.
#[derive(Drop)]
pub struct TraitItemMacro {
    pub attrs: Vec<Attribute>,
    pub mac: Macro,
    pub semi_token: Option<Semi>,
}

/// What follows a trait's name. Without bounds the colon isn't printed.
#[tactic(auto, using(syn_tokens::proofs::Prints::prints, syn_lower::proofs::GenericPrints::print_bounds))]
fn print_after_name(item: &ItemTrait, out: &mut StreamBuilder) -> Result<(), AllocError>
    ensures prints { OnOk result (out.new ≡ added out.old (print (after_name item.now))) }
    ensures begins { out.new.before ≡ out.old.before }
{
    item.generics.print_params(out)?;
    print_bounds(&item.colon_token, &item.supertraits, out)?;
    item.generics.print_where(out)?;
    print_braced(&item.brace_token, &item.attrs, &item.items, out)
}

/// The word of a trait, its name and what follows it.
#[tactic(auto, using(syn_tokens::proofs::Prints::prints))]
fn print_named(item: &ItemTrait, out: &mut StreamBuilder) -> Result<(), AllocError>
    ensures prints { OnOk result (out.new ≡ added out.old (print (after_auto item.now))) }
    ensures begins { out.new.before ≡ out.old.before }
{
    item.trait_token.print_in(out)?;
    item.ident.print_in(out)?;
    print_after_name(item, out)
}

/// `unsafe` is printed before `auto`.
impl Print for ItemTrait {
    #[tactic(auto, using(syn_tokens::proofs::Prints::prints))]
    fn print_in(&self, out: &mut StreamBuilder) -> Result<(), AllocError> {
        print_before_body(&self.attrs, out)?;
        self.vis.print_in(out)?;
        self.modifiers.constness.print_in(out)?;
        self.unsafety.print_in(out)?;
        self.modifiers.auto_token.print_in(out)?;
        print_named(self, out)
    }
}

/// The where clause is before the braces.
impl Compared for ItemTrait {
    #[tactic(auto, using(crate::proofs::SameTraits::same_trait))]
    fn is_same(&self, other: &ItemTrait) -> bool {
        self.attrs.is_same(&other.attrs)
            && self.vis.is_same(&other.vis)
            && self.modifiers.constness.is_same(&other.modifiers.constness)
            && self.unsafety.is_same(&other.unsafety)
            && self
                .modifiers
                .auto_token
                .is_same(&other.modifiers.auto_token)
            && self.trait_token.is_same(&other.trait_token)
            && self.ident.is_same(&other.ident)
            && self.generics.has_same_params(&other.generics)
            && self.colon_token.is_same(&other.colon_token)
            && self.supertraits.is_same(&other.supertraits)
            && self.generics.has_same_where(&other.generics)
            && self.items.is_same(&other.items)
    }
}

/// The attributes before a function: inner ones are printed in its body, and without a body never.
#[tactic(auto, using(syn_tokens::proofs::Prints::prints))]
fn print_function_attributes(
    attrs: &Vec<Attribute>,
    default: &Option<DeferredBlock>,
    out: &mut StreamBuilder,
) -> Result<(), AllocError>
    ensures prints { OnOk result (out.new ≡ added out.old (print (attributes_by_content (maybe itself default.now) (attributes_before_body attrs.now.items) (attributes_syntax attrs.now.items)))) }
    ensures begins { out.new.before ≡ out.old.before }
{
    match default {
        Some(_block) => print_before_body(attrs, out),
        None => print_outer(attrs, out),
    }
}

/// A body, or a `;`, which is printed though there is none.
#[tactic(auto, using(syn_tokens::proofs::Prints::prints))]
fn print_function_end(
    attrs: &Vec<Attribute>,
    default: &Option<DeferredBlock>,
    semi_token: &Option<Semi>,
    out: &mut StreamBuilder,
) -> Result<(), AllocError>
    ensures prints { OnOk result (out.new ≡ added out.old (print (function_end (attributes_in_body attrs.now.items) (maybe itself default.now) (maybe semi_syntax semi_token.now)))) }
    ensures begins { out.new.before ≡ out.old.before }
{
    match default {
        Some(block) => print_body(attrs, block, out),
        None => {
            let semi_token = semi_token.unwrap_or(Semi::new([Span::call_site()]));
            semi_token.print_in(out)
        }
    }
}

/// A `;` is printed where there is no body, though there is none, and never after a body. Modifiers are not printed.
impl Print for TraitItemFn {
    #[tactic(auto, using(syn_tokens::proofs::Prints::prints))]
    fn print_in(&self, out: &mut StreamBuilder) -> Result<(), AllocError> {
        print_function_attributes(&self.attrs, &self.default, out)?;
        self.sig.print_in(out)?;
        print_function_end(&self.attrs, &self.default, &self.semi_token, out)
    }
}

// Written by tools/kinds.py from here to the end; edits are lost.

impl std::marker::Model for ItemTrait {
    ghost use Rattle.syn_grammar.specs.Grammar.{Syntax};
    ghost use Rattle.syn_grammar.specs.TreeCodes.{syntax_code};

    ghost Value = { Syntax };

    ghost coded = { syntax_code };

    ghost use Rattle.syn_item.specs.Traits.{view_ItemTrait};

    ghost view = { view_ItemTrait };
}

impl std::marker::Model for TraitItemConst {
    ghost use Rattle.syn_grammar.specs.Grammar.{Syntax};
    ghost use Rattle.syn_grammar.specs.TreeCodes.{syntax_code};

    ghost Value = { Syntax };

    ghost coded = { syntax_code };

    ghost use Rattle.syn_item.specs.Traits.{view_TraitItemConst};

    ghost view = { view_TraitItemConst };
}

impl std::marker::Model for TraitItemFn {
    ghost use Rattle.syn_grammar.specs.Grammar.{Syntax};
    ghost use Rattle.syn_grammar.specs.TreeCodes.{syntax_code};

    ghost Value = { Syntax };

    ghost coded = { syntax_code };

    ghost use Rattle.syn_item.specs.Traits.{view_TraitItemFn};

    ghost view = { view_TraitItemFn };
}

impl std::marker::Model for TraitItemType {
    ghost use Rattle.syn_grammar.specs.Grammar.{Syntax};
    ghost use Rattle.syn_grammar.specs.TreeCodes.{syntax_code};

    ghost Value = { Syntax };

    ghost coded = { syntax_code };

    ghost use Rattle.syn_item.specs.Traits.{view_TraitItemType};

    ghost view = { view_TraitItemType };
}

impl std::marker::Model for TraitItemMacro {
    ghost use Rattle.syn_grammar.specs.Grammar.{Syntax};
    ghost use Rattle.syn_grammar.specs.TreeCodes.{syntax_code};

    ghost Value = { Syntax };

    ghost coded = { syntax_code };

    ghost use Rattle.syn_item.specs.Macros.{view_TraitItemMacro};

    ghost view = { view_TraitItemMacro };
}

impl syn_tokens::syntactic::Syntactic for ItemTrait {
    ghost use Rattle.syn_item.specs.Traits.{syntax_of_ItemTrait};

    ghost syntax = { syntax_of_ItemTrait };
}

impl syn_tokens::syntactic::Syntactic for TraitItem {
    ghost use Rattle.syn_item.specs.Traits.{syntax_of_TraitItem};

    ghost syntax = { syntax_of_TraitItem };
}

impl syn_tokens::syntactic::Syntactic for TraitItemConst {
    ghost use Rattle.syn_item.specs.Traits.{syntax_of_TraitItemConst};

    ghost syntax = { syntax_of_TraitItemConst };
}

impl syn_tokens::syntactic::Syntactic for TraitItemFn {
    ghost use Rattle.syn_item.specs.Traits.{syntax_of_TraitItemFn};

    ghost syntax = { syntax_of_TraitItemFn };
}

impl syn_tokens::syntactic::Syntactic for TraitItemType {
    ghost use Rattle.syn_item.specs.Traits.{syntax_of_TraitItemType};

    ghost syntax = { syntax_of_TraitItemType };
}

impl syn_tokens::syntactic::Syntactic for TraitItemMacro {
    ghost use Rattle.syn_item.specs.Macros.{syntax_of_TraitItemMacro};

    ghost syntax = { syntax_of_TraitItemMacro };
}

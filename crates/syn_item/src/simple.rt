//! Items without members: constants, statics, type and trait aliases, uses, extern crates, modules and macros.
ghost use Rattle.std.specs.Prelude.{◌≡◌, IfOk, IfErr, OnOk, []};
ghost use Rattle.syn_grammar.specs.Grammar.{print};
ghost use Rattle.syn_grammar.specs.Same.{same_syntax};
ghost use Rattle.syn_tokens.specs.Building.{added};
ghost use Rattle.syn_tokens.specs.Kinds.{eq_syntax, semi_syntax};
ghost use Rattle.syn_tokens.specs.Leaves.{maybe};
ghost use Rattle.syn_lower.specs.Attributes.{attributes_syntax};
ghost use Rattle.syn_lower.specs.Bodies.{attributes_before_body, attributes_in_body};
ghost use Rattle.syn_lower.specs.Generics.{clause_of};
ghost use Rattle.syn_lower.specs.Types.{syntax_of_Type};
ghost use Rattle.syn_item.specs.Simple.{aliased, attributes_by_content, content_syntax, module_content, placed_alias, syntax_of_WhereClausePlacement};
ghost use Rattle.syn_tokens.specs.Faults.{out_of_memory};

mod aliases;
mod macro_items;
mod modules;
mod values;

use crate::parts::{print_bounds_end, print_typed_value};
use crate::use_tree::UseTree;
pub(crate) use aliases::{
    aliased_bounds, trait_alias, trait_alias_rest, type_after_head, type_alias, type_rest,
};
pub(crate) use macro_items::{ended_group, macro_as_item_rest, macro_rest};
pub(crate) use modules::{extern_crate, extern_crate_rest, module, module_rest};
use std::alloc::{AllocError, Global};
use syn_lower::attr::{print_before_body, print_inner, print_outer};
use syn_lower::{Attribute, Generics, Type, TypeParamBound};
use syn_pat::Macro;
use syn_pat::mac::print_group;
use syn_recognize::deferred::{DeferredExpr, DeferredItems};
use syn_tokens::ident::Ident;
use syn_tokens::print::Print;
use syn_tokens::punctuated::Punctuated;
use syn_tokens::span::Span;
use syn_tokens::stream::builder::StreamBuilder;
use syn_tokens::syntactic::compare::Compared;
use syn_tokens::syntactic::try_clone::TryClone;
use syn_tokens::token::{
    As, Brace, Colon, Const, Crate, Eq, Extern, Mod, Mut, PathSep, Plus, Semi, Static, Trait,
    Unsafe, Use,
};
use syn_tokens::{error, token};
use syn_tree::item::{ConstModifiers, TypeModifiers};
use syn_tree::restriction::Visibility;
pub(crate) use values::{const_rest, constant, static_item, static_mutability, static_rest};

/// A constant, such as `const A: u8 = 1;`.
#[derive(Drop)]
pub struct ItemConst {
    pub attrs: Vec<Attribute>,
    pub vis: Visibility,
    pub modifiers: ConstModifiers,
    pub const_token: Const,
    pub ident: Ident,
    pub generics: Generics,
    pub colon_token: Colon,
    pub ty: Box<Type>,
    pub eq_token: Eq,
    pub expr: DeferredExpr,
    pub semi_token: Semi,
}

/// A static, such as `static mut A: u8 = 1;`.
#[derive(Drop)]
pub struct ItemStatic {
    pub attrs: Vec<Attribute>,
    pub vis: Visibility,
    pub static_token: Static,
    pub mutability: StaticMutability,
    pub ident: Ident,
    pub colon_token: Colon,
    pub ty: Box<Type>,
    pub eq_token: Eq,
    pub expr: DeferredExpr,
    pub semi_token: Semi,
}

/// Whether a static may be written to.
#[derive(Clone, Copy, Debug)]
pub enum StaticMutability {
    /// `mut`
    Mut(Mut),
    /// It may not.
    None,
}

/// A type alias, such as `type A<T> = Vec<T>;`.
#[derive(Drop)]
pub struct ItemType {
    pub attrs: Vec<Attribute>,
    pub vis: Visibility,
    pub modifiers: TypeModifiers,
    pub type_token: token::Type,
    pub ident: Ident,
    pub generics: Generics,
    pub eq_token: Eq,
    pub ty: Box<Type>,
    pub semi_token: Semi,
    pub where_clause_placement: WhereClausePlacement,
}

/// Where the where clause of a type alias is.
#[derive(Clone, Copy, Debug)]
pub enum WhereClausePlacement {
    /// Before `=`.
    Early,
    /// After the type.
    Late,
}

/// A use, such as `use ::std::vec::{self, Vec};`.
#[derive(Drop)]
pub struct ItemUse {
    pub attrs: Vec<Attribute>,
    pub vis: Visibility,
    pub use_token: Use,
    pub leading_colon: Option<PathSep>,
    pub tree: UseTree,
    pub semi_token: Semi,
}

/// An extern crate, such as `extern crate std as core;`.
#[derive(Drop)]
pub struct ItemExternCrate {
    pub attrs: Vec<Attribute>,
    pub vis: Visibility,
    pub extern_token: Extern,
    pub crate_token: Crate,
    pub ident: Ident,
    pub rename: Option<(As, Ident)>,
    pub semi_token: Semi,
}

/// A module, such as `mod a;` or `mod a { struct B; }`. Its items are kept verbatim.
#[derive(Drop)]
pub struct ItemMod {
    pub attrs: Vec<Attribute>,
    pub vis: Visibility,
    pub unsafety: Option<Unsafe>,
    pub mod_token: Mod,
    pub ident: Ident,
    pub content: Option<(Brace, DeferredItems)>,
    pub semi: Option<Semi>,
}

/// A macro as an item, such as `macro_rules! a { () => {} }`.
#[derive(Drop)]
pub struct ItemMacro {
    pub attrs: Vec<Attribute>,
    pub ident: Option<Ident>,
    pub mac: Macro,
    pub semi_token: Option<Semi>,
}

/// A trait alias, such as `trait A = B + C;`.
#[derive(Drop)]
pub struct ItemTraitAlias {
    pub attrs: Vec<Attribute>,
    pub vis: Visibility,
    pub trait_token: Trait,
    pub ident: Ident,
    pub generics: Generics,
    pub eq_token: Eq,
    pub bounds: Punctuated<TypeParamBound, Plus>,
    pub semi_token: Semi,
}

/// `=` and a type, with the where clause before it or after it.
#[tactic(auto, using(syn_tokens::proofs::Prints::prints))]
fn print_aliased(
    placement: WhereClausePlacement,
    generics: &Generics,
    eq_token: &Eq,
    ty: &Type,
    out: &mut StreamBuilder,
) -> Result<(), AllocError>
    ensures prints { OnOk result (out.new ≡ added out.old (print (aliased (syntax_of_WhereClausePlacement placement) (clause_of generics.now) (eq_syntax eq_token.now) (syntax_of_Type ty.now)))) }
    ensures begins { out.new.before ≡ out.old.before }
{
    match placement {
        WhereClausePlacement::Early => {
            generics.print_where(out)?;
            eq_token.print_in(out)?;
            ty.print_in(out)
        }
        WhereClausePlacement::Late => {
            eq_token.print_in(out)?;
            ty.print_in(out)?;
            generics.print_where(out)
        }
    }
}

/// Modifiers and generics are not printed.
impl Print for ItemConst {
    #[tactic(auto, using(syn_tokens::proofs::Prints::prints, crate::proofs::Unprinted::print_generics_aside))]
    fn print_in(&self, out: &mut StreamBuilder) -> Result<(), AllocError> {
        print_outer(&self.attrs, out)?;
        self.vis.print_in(out)?;
        self.const_token.print_in(out)?;
        self.ident.print_in(out)?;
        print_typed_value(
            &self.colon_token,
            &self.ty,
            &self.eq_token,
            &self.expr,
            &self.semi_token,
            out,
        )
    }
}

impl Print for ItemStatic {
    #[tactic(auto, using(syn_tokens::proofs::Prints::prints))]
    fn print_in(&self, out: &mut StreamBuilder) -> Result<(), AllocError> {
        print_outer(&self.attrs, out)?;
        self.vis.print_in(out)?;
        self.static_token.print_in(out)?;
        self.mutability.print_in(out)?;
        self.ident.print_in(out)?;
        print_typed_value(
            &self.colon_token,
            &self.ty,
            &self.eq_token,
            &self.expr,
            &self.semi_token,
            out,
        )
    }
}

impl Print for ItemTraitAlias {
    #[tactic(auto, using(syn_tokens::proofs::Prints::prints))]
    fn print_in(&self, out: &mut StreamBuilder) -> Result<(), AllocError> {
        print_outer(&self.attrs, out)?;
        self.vis.print_in(out)?;
        self.trait_token.print_in(out)?;
        self.ident.print_in(out)?;
        self.generics.print_params(out)?;
        print_bounds_end(
            &self.eq_token,
            &self.bounds,
            &self.generics,
            &self.semi_token,
            out,
        )
    }
}

/// Modifiers are not printed. The where clause is printed where its placement says.
impl Print for ItemType {
    #[tactic(auto, using(crate::proofs::LongPrints::in_order, crate::proofs::Unprinted::print_place_aside))]
    fn print_in(&self, out: &mut StreamBuilder) -> Result<(), AllocError> {
        print_outer(&self.attrs, out)?;
        self.vis.print_in(out)?;
        self.type_token.print_in(out)?;
        self.ident.print_in(out)?;
        self.generics.print_params(out)?;
        print_aliased(
            self.where_clause_placement,
            &self.generics,
            &self.eq_token,
            &self.ty,
            out,
        )?;
        self.semi_token.print_in(out)
    }
}

/// The place of the where clause is compared also where there is none.
impl Compared for ItemType {
    #[tactic(auto, using(crate::proofs::SameParts::same_alias))]
    fn is_same(&self, other: &ItemType) -> bool {
        self.attrs.is_same(&other.attrs)
            && self.vis.is_same(&other.vis)
            && self.modifiers.is_same(&other.modifiers)
            && self.type_token.is_same(&other.type_token)
            && self.ident.is_same(&other.ident)
            && self.generics.has_same_params(&other.generics)
            && self.has_same_alias(other)
            && self.semi_token.is_same(&other.semi_token)
    }
}

impl ItemType {
    /// Whether both represent the same type, with the same where clause at the same place.
    #[tactic(auto, using(crate::proofs::SameParts::same_placed))]
    fn has_same_alias(&self, other: &ItemType) -> bool
        ensures { result ≡ same_syntax (placed_alias self.now) (placed_alias other.now) }
    {
        self.where_clause_placement
            .is_same(&other.where_clause_placement)
            && self.generics.has_same_where(&other.generics)
            && self.eq_token.is_same(&other.eq_token)
            && self.ty.is_same(&other.ty)
    }
}

/// The attributes before a module: inner ones are printed in its braces, and without braces never.
#[tactic(auto, using(syn_tokens::proofs::Prints::prints))]
fn print_module_attributes(
    attrs: &Vec<Attribute>,
    content: &Option<(Brace, DeferredItems)>,
    out: &mut StreamBuilder,
) -> Result<(), AllocError>
    ensures prints { OnOk result (out.new ≡ added out.old (print (attributes_by_content (content_syntax content.now) (attributes_before_body attrs.now.items) (attributes_syntax attrs.now.items)))) }
    ensures begins { out.new.before ≡ out.old.before }
{
    match content {
        Some((_brace_token, _items)) => print_before_body(attrs, out),
        None => print_outer(attrs, out),
    }
}

/// Items in braces, after inner attributes; or a `;`, which is printed though there is none.
#[tactic(auto, using(syn_tokens::proofs::Prints::groups))]
fn print_content(
    attrs: &Vec<Attribute>,
    content: &Option<(Brace, DeferredItems)>,
    semi: &Option<Semi>,
    out: &mut StreamBuilder,
) -> Result<(), AllocError>
    ensures prints { OnOk result (out.new ≡ added out.old (print (module_content (attributes_in_body attrs.now.items) (content_syntax content.now) (maybe semi_syntax semi.now)))) }
    ensures begins { out.new.before ≡ out.old.before }
{
    match content {
        Some((brace_token, items)) => {
            brace_token.open(out)?;
            print_inner(attrs, out)?;
            items.print_in(out)?;
            brace_token.close(out)
        }
        None => {
            let semi = semi.unwrap_or(Semi::new([Span::call_site()]));
            semi.print_in(out)
        }
    }
}

/// A `;` is printed where there are no braces, though there is none, and never after braces.
impl Print for ItemMod {
    #[tactic(auto, using(syn_tokens::proofs::Prints::prints))]
    fn print_in(&self, out: &mut StreamBuilder) -> Result<(), AllocError> {
        print_module_attributes(&self.attrs, &self.content, out)?;
        self.vis.print_in(out)?;
        self.unsafety.print_in(out)?;
        self.mod_token.print_in(out)?;
        self.ident.print_in(out)?;
        print_content(&self.attrs, &self.content, &self.semi, out)
    }
}

/// A copy of the items and their braces.
fn copy_content(
    content: &Option<(Brace, DeferredItems)>,
    alloc: Global,
) -> error::Result<Option<(Brace, DeferredItems)>>
    ensures copy { IfOk result (λ copy. content_syntax copy ≡ content_syntax content.now) }
    ensures memory { IfErr result (λ e. e ≡ out_of_memory) }
{
    match content {
        Some((brace_token, items)) => Ok(Some((*brace_token, items.try_clone(alloc)?))),
        None => Ok(None),
    }
}

impl TryClone for ItemMod {
    fn try_clone(&self, alloc: Global) -> error::Result<ItemMod> {
        Ok(ItemMod {
            attrs: self.attrs.try_clone(alloc)?,
            vis: self.vis.try_clone(alloc)?,
            unsafety: self.unsafety,
            mod_token: self.mod_token,
            ident: self.ident.try_clone(alloc)?,
            content: copy_content(&self.content, alloc)?,
            semi: self.semi,
        })
    }
}

/// Whether both have the same items in braces, or neither has any.
fn same_content(
    content: &Option<(Brace, DeferredItems)>,
    other: &Option<(Brace, DeferredItems)>,
) -> bool
    ensures { result ≡ same_syntax (content_syntax content.now) (content_syntax other.now) }
{
    match (content, other) {
        (Some((_, items)), Some((_, others))) => items.is_same(others),
        (None, None) => true,
        (Some((_, _items)), None) => false,
        (None, Some((_, _others))) => false,
    }
}

impl Compared for ItemMod {
    #[tactic(auto, using(crate::proofs::SameParts::same_module))]
    fn is_same(&self, other: &ItemMod) -> bool {
        self.attrs.is_same(&other.attrs)
            && self.vis.is_same(&other.vis)
            && self.unsafety.is_same(&other.unsafety)
            && self.mod_token.is_same(&other.mod_token)
            && self.ident.is_same(&other.ident)
            && same_content(&self.content, &other.content)
            && self.semi.is_same(&other.semi)
    }
}

/// A name is between `!` and the group.
impl Print for ItemMacro {
    #[tactic(auto, using(syn_tokens::proofs::Prints::prints, crate::proofs::Macros::print_ended_group))]
    fn print_in(&self, out: &mut StreamBuilder) -> Result<(), AllocError> {
        print_outer(&self.attrs, out)?;
        self.mac.path.print_in(out)?;
        self.mac.bang_token.print_in(out)?;
        self.ident.print_in(out)?;
        print_group(self.mac.delimiter, &self.mac.tokens, out)?;
        self.semi_token.print_in(out)
    }
}

// Written by tools/kinds.py from here to the end; edits are lost.

impl std::marker::Model for ItemConst {
    ghost use Rattle.syn_grammar.specs.Grammar.{Syntax};
    ghost use Rattle.syn_grammar.specs.TreeCodes.{syntax_code};

    ghost Value = { Syntax };

    ghost coded = { syntax_code };

    ghost use Rattle.syn_item.specs.Simple.{view_ItemConst};

    ghost view = { view_ItemConst };
}

impl std::marker::Model for ItemStatic {
    ghost use Rattle.syn_grammar.specs.Grammar.{Syntax};
    ghost use Rattle.syn_grammar.specs.TreeCodes.{syntax_code};

    ghost Value = { Syntax };

    ghost coded = { syntax_code };

    ghost use Rattle.syn_item.specs.Simple.{view_ItemStatic};

    ghost view = { view_ItemStatic };
}

impl std::marker::Model for ItemType {
    ghost use Rattle.syn_grammar.specs.Grammar.{Syntax};
    ghost use Rattle.syn_grammar.specs.TreeCodes.{syntax_code};

    ghost Value = { Syntax };

    ghost coded = { syntax_code };

    ghost use Rattle.syn_item.specs.Simple.{view_ItemType};

    ghost view = { view_ItemType };
}

impl std::marker::Model for ItemUse {
    ghost use Rattle.syn_grammar.specs.Grammar.{Syntax};
    ghost use Rattle.syn_grammar.specs.TreeCodes.{syntax_code};

    ghost Value = { Syntax };

    ghost coded = { syntax_code };

    ghost use Rattle.syn_item.specs.Uses.{view_ItemUse};

    ghost view = { view_ItemUse };
}

impl std::marker::Model for ItemExternCrate {
    ghost use Rattle.syn_grammar.specs.Grammar.{Syntax};
    ghost use Rattle.syn_grammar.specs.TreeCodes.{syntax_code};

    ghost Value = { Syntax };

    ghost coded = { syntax_code };

    ghost use Rattle.syn_item.specs.Simple.{view_ItemExternCrate};

    ghost view = { view_ItemExternCrate };
}

impl std::marker::Model for ItemMod {
    ghost use Rattle.syn_grammar.specs.Grammar.{Syntax};
    ghost use Rattle.syn_grammar.specs.TreeCodes.{syntax_code};

    ghost Value = { Syntax };

    ghost coded = { syntax_code };

    ghost use Rattle.syn_item.specs.Simple.{view_ItemMod};

    ghost view = { view_ItemMod };
}

impl std::marker::Model for ItemMacro {
    ghost use Rattle.syn_grammar.specs.Grammar.{Syntax};
    ghost use Rattle.syn_grammar.specs.TreeCodes.{syntax_code};

    ghost Value = { Syntax };

    ghost coded = { syntax_code };

    ghost use Rattle.syn_item.specs.Macros.{view_ItemMacro};

    ghost view = { view_ItemMacro };
}

impl std::marker::Model for ItemTraitAlias {
    ghost use Rattle.syn_grammar.specs.Grammar.{Syntax};
    ghost use Rattle.syn_grammar.specs.TreeCodes.{syntax_code};

    ghost Value = { Syntax };

    ghost coded = { syntax_code };

    ghost use Rattle.syn_item.specs.Simple.{view_ItemTraitAlias};

    ghost view = { view_ItemTraitAlias };
}

impl syn_tokens::syntactic::Syntactic for ItemConst {
    ghost use Rattle.syn_item.specs.Simple.{syntax_of_ItemConst};

    ghost syntax = { syntax_of_ItemConst };
}

impl syn_tokens::syntactic::Syntactic for ItemStatic {
    ghost use Rattle.syn_item.specs.Simple.{syntax_of_ItemStatic};

    ghost syntax = { syntax_of_ItemStatic };
}

impl syn_tokens::syntactic::Syntactic for StaticMutability {
    ghost use Rattle.syn_item.specs.Simple.{syntax_of_StaticMutability};

    ghost syntax = { syntax_of_StaticMutability };
}

impl syn_tokens::syntactic::Syntactic for ItemType {
    ghost use Rattle.syn_item.specs.Simple.{syntax_of_ItemType};

    ghost syntax = { syntax_of_ItemType };
}

impl syn_tokens::syntactic::Syntactic for WhereClausePlacement {
    ghost use Rattle.syn_item.specs.Simple.{syntax_of_WhereClausePlacement};

    ghost syntax = { syntax_of_WhereClausePlacement };
}

impl syn_tokens::syntactic::Syntactic for ItemUse {
    ghost use Rattle.syn_item.specs.Uses.{syntax_of_ItemUse};

    ghost syntax = { syntax_of_ItemUse };
}

impl syn_tokens::syntactic::Syntactic for ItemExternCrate {
    ghost use Rattle.syn_item.specs.Simple.{syntax_of_ItemExternCrate};

    ghost syntax = { syntax_of_ItemExternCrate };
}

impl syn_tokens::syntactic::Syntactic for ItemMod {
    ghost use Rattle.syn_item.specs.Simple.{syntax_of_ItemMod};

    ghost syntax = { syntax_of_ItemMod };
}

impl syn_tokens::syntactic::Syntactic for ItemMacro {
    ghost use Rattle.syn_item.specs.Macros.{syntax_of_ItemMacro};

    ghost syntax = { syntax_of_ItemMacro };
}

impl syn_tokens::syntactic::Syntactic for ItemTraitAlias {
    ghost use Rattle.syn_item.specs.Simple.{syntax_of_ItemTraitAlias};

    ghost syntax = { syntax_of_ItemTraitAlias };
}

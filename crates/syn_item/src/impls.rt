//! Impls and their members.
ghost use Rattle.std.specs.Prelude.{◌≡◌, IfOk, OnOk, []};
ghost use Rattle.syn_grammar.specs.Grammar.{Both, led, print, renew};
ghost use Rattle.syn_grammar.specs.Same.{same_syntax};
ghost use Rattle.syn_tokens.specs.Building.{added};
ghost use Rattle.syn_tokens.specs.Kinds.{eq_syntax, semi_syntax};
ghost use Rattle.syn_lower.specs.Generics.{clause_of};
ghost use Rattle.syn_lower.specs.Parts.{first};
ghost use Rattle.syn_lower.specs.Types.{syntax_of_Type};
ghost use Rattle.syn_item.specs.Impls.{after_generics, after_impl, kept_list};

mod members;
mod parsing;

use crate::parts::{print_braced, print_clause_end, print_pair, print_typed_value};
use crate::sig::Signature;
pub(crate) use parsing::{ImplMarks, ImplTypes, impl_end, impl_generics, impl_or_kept};
use std::alloc::{AllocError, Global};
use syn_lower::attr::{print_before_body, print_outer};
use syn_lower::{Attribute, Generics, Path, Type};
use syn_parse::buffer::ParseBuffer;
use syn_pat::Macro;
use syn_recognize::deferred::{DeferredBlock, DeferredExpr};
use syn_recognize::item_looks::at_generics;
use syn_tokens::ident::Ident;
use syn_tokens::print::Print;
use syn_tokens::span::Span;
use syn_tokens::stream::TokenStream;
use syn_tokens::stream::builder::StreamBuilder;
use syn_tokens::syntactic::compare::Compared;
use syn_tokens::token;
use syn_tokens::token::{Brace, Colon, Const, Eq, For, Gt, Impl, Lt, Semi, Unsafe};
use syn_tree::item::{ConstModifiers, FnModifiers, ImplModifiers, TypeModifiers};
use syn_tree::restriction::Visibility;

/// An impl, such as `impl A { fn f() {} }` or `impl<T> A for B<T> {}`.
#[derive(Drop)]
pub struct ItemImpl {
    pub attrs: Vec<Attribute>,
    pub modifiers: ImplModifiers,
    pub unsafety: Option<Unsafe>,
    pub impl_token: Impl,
    pub generics: Generics,
    pub trait_: Option<(Path, For)>,
    pub self_ty: Box<Type>,
    pub brace_token: Brace,
    pub items: Vec<ImplItem>,
}

/// A member of an impl.
#[derive(Drop)]
pub enum ImplItem {
    /// `const A: u8 = 1;`
    Const(ImplItemConst),
    /// `fn f(&self) {}`
    Fn(ImplItemFn),
    /// `type A = B;`
    Ty(ImplItemType),
    /// `m!(a);`
    Macro(ImplItemMacro),
    /// What has no kind of its own, such as `fn f();`.
    Verbatim(TokenStream),
}

/// A constant of an impl, such as `pub const A: u8 = 1;`.
#[derive(Drop)]
pub struct ImplItemConst {
    pub attrs: Vec<Attribute>,
    pub vis: Visibility,
    pub modifiers: ConstModifiers,
    pub const_token: Const,
    pub ident: Ident,
    pub generics: Generics,
    pub colon_token: Colon,
    pub ty: Type,
    pub eq_token: Eq,
    pub expr: DeferredExpr,
    pub semi_token: Semi,
}

/// A function of an impl, such as `pub fn f(&self) {}`. Its body is kept verbatim.
#[derive(Drop)]
pub struct ImplItemFn {
    pub attrs: Vec<Attribute>,
    pub vis: Visibility,
    pub modifiers: FnModifiers,
    pub sig: Signature,
    pub block: DeferredBlock,
}

/// A type of an impl, such as `type A = B;`.
#[derive(Drop)]
pub struct ImplItemType {
    pub attrs: Vec<Attribute>,
    pub vis: Visibility,
    pub modifiers: TypeModifiers,
    pub type_token: token::Type,
    pub ident: Ident,
    pub generics: Generics,
    pub eq_token: Eq,
    pub ty: Type,
    pub semi_token: Semi,
}

/// A macro among the members of an impl, such as `m!(a);`.
#[derive(Drop)]
pub struct ImplItemMacro {
    pub attrs: Vec<Attribute>,
    pub mac: Macro,
    pub semi_token: Option<Semi>,
}

/// Generics are not printed.
impl Print for ImplItemConst {
    #[tactic(auto, using(syn_tokens::proofs::Prints::prints, crate::proofs::Unprinted::print_generics_aside))]
    fn print_in(&self, out: &mut StreamBuilder) -> Result<(), AllocError> {
        print_outer(&self.attrs, out)?;
        self.vis.print_in(out)?;
        self.modifiers.defaultness.print_in(out)?;
        self.const_token.print_in(out)?;
        self.ident.print_in(out)?;
        print_typed_value(
            &self.colon_token,
            &self.ty,
            &self.eq_token,
            &self.expr,
            &self.semi_token,
            out,
        )
    }
}

/// Generics, `=`, a type, a where clause and `;`.
#[tactic(auto, using(syn_tokens::proofs::Prints::prints))]
fn print_type_end(
    generics: &Generics,
    eq_token: &Eq,
    ty: &Type,
    semi_token: &Semi,
    out: &mut StreamBuilder,
) -> Result<(), AllocError>
    ensures prints { OnOk result (out.new ≡ added out.old (print (Both (first generics.now) (Both (eq_syntax eq_token.now) (Both (syntax_of_Type ty.now) (Both (clause_of generics.now) (semi_syntax semi_token.now))))))) }
    ensures begins { out.new.before ≡ out.old.before }
{
    generics.print_params(out)?;
    eq_token.print_in(out)?;
    ty.print_in(out)?;
    print_clause_end(generics, semi_token, out)
}

impl Print for ImplItemType {
    #[tactic(auto, using(syn_tokens::proofs::Prints::prints))]
    fn print_in(&self, out: &mut StreamBuilder) -> Result<(), AllocError> {
        print_outer(&self.attrs, out)?;
        self.vis.print_in(out)?;
        self.modifiers.defaultness.print_in(out)?;
        self.type_token.print_in(out)?;
        self.ident.print_in(out)?;
        print_type_end(
            &self.generics,
            &self.eq_token,
            &self.ty,
            &self.semi_token,
            out,
        )
    }
}

/// What follows an impl's generics: `!`, a trait's path and `for`, the self type, the where clause and the members.
#[tactic(auto, using(syn_tokens::proofs::Prints::prints, crate::proofs::ImplForms::print_implemented))]
fn print_after_generics(item: &ItemImpl, out: &mut StreamBuilder) -> Result<(), AllocError>
    ensures prints { OnOk result (out.new ≡ added out.old (print (after_generics item.now))) }
    ensures begins { out.new.before ≡ out.old.before }
{
    item.modifiers.polarity.print_in(out)?;
    print_pair(&item.trait_, out)?;
    item.self_ty.print_in(out)?;
    item.generics.print_where(out)?;
    print_braced(&item.brace_token, &item.attrs, &item.items, out)
}

/// The stream of a builder in which no group is open.
fn finished(out: StreamBuilder) -> Result<TokenStream, AllocError>
    requires { out.open_groups ≡ [] }
    ensures { IfOk result (λ stream. stream ≡ out.stream) }
{
    Ok(out.into_stream())
}

/// The tokens of what follows an impl's generics.
#[tactic(auto, unfolding(syn_tokens::specs::Building::added))]
fn tokens_after_generics(item: &ItemImpl, alloc: Global) -> Result<TokenStream, AllocError>
    ensures { IfOk result (λ stream. stream ≡ print (after_generics item.now)) }
{
    let mut out = StreamBuilder::new(alloc);
    print_after_generics(item, &mut out)?;
    let tokens = finished(out)?;
    Ok(tokens)
}

/// The tokens of a type.
#[tactic(auto, unfolding(syn_tokens::specs::Building::added))]
fn tokens_of_type(ty: &Type, alloc: Global) -> Result<TokenStream, AllocError>
    ensures { IfOk result (λ stream. stream ≡ print (syntax_of_Type ty.now)) }
{
    let mut out = StreamBuilder::new(alloc);
    ty.print_in(&mut out)?;
    let tokens = finished(out)?;
    Ok(tokens)
}

/// Whether what follows an impl's generics, of which these are the tokens, would be read as generics where there are none; or
/// its self type after `for` would.
fn is_led(item: &ItemImpl, following: &TokenStream, alloc: Global) -> Result<bool, AllocError>
    requires { following.now ≡ print (after_generics item.now) }
    ensures { IfOk result (λ answer. answer ≡ led (renew (after_generics item.now))) }
{
    let trait_ = &item.trait_;
    if at_generics(&ParseBuffer::new(following)) {
        return Ok(true);
    }
    match trait_ {
        Some((_path, _for_token)) => {
            let self_ty = tokens_of_type(&item.self_ty, alloc)?;
            Ok(at_generics(&ParseBuffer::new(&self_ty)))
        }
        None => Ok(false),
    }
}

/// Generics and what follows them. Empty generics are printed as `< >` where it would be read as generics else.
#[tactic(auto, using(syn_tokens::proofs::Prints::prints, crate::proofs::ImplForms::some_printed, crate::proofs::ImplForms::none_printed))]
fn print_after_impl(item: &ItemImpl, out: &mut StreamBuilder) -> Result<(), AllocError>
    ensures prints { OnOk result (out.new ≡ added out.old (print (after_impl item.now))) }
    ensures begins { out.new.before ≡ out.old.before }
{
    if !item.generics.params.is_empty() {
        item.generics.print_params(out)?;
        return print_after_generics(item, out);
    }
    let following = tokens_after_generics(item, out.alloc())?;
    if is_led(item, &following, out.alloc())? {
        Lt::new([Span::call_site()]).print_in(out)?;
        Gt::new([Span::call_site()]).print_in(out)?;
    }
    out.append(&following)
}

/// `default`, `const` and `unsafe` are before `impl`, and the where clause before the braces.
impl Print for ItemImpl {
    #[tactic(auto, using(syn_tokens::proofs::Prints::prints))]
    fn print_in(&self, out: &mut StreamBuilder) -> Result<(), AllocError> {
        print_before_body(&self.attrs, out)?;
        self.modifiers.defaultness.print_in(out)?;
        self.modifiers.constness.print_in(out)?;
        self.unsafety.print_in(out)?;
        self.impl_token.print_in(out)?;
        print_after_impl(self, out)
    }
}

/// Whether both have the same parameters, and `<` and `>` where the other has them.
fn has_same_list(generics: &Generics, other: &Generics) -> bool
    ensures { result ≡ same_syntax (kept_list (first generics.now)) (kept_list (first other.now)) }
{
    let (_params, _others) = (&generics.params, &other.params);
    generics.has_same_params(other)
}

/// What follows the generics is compared by what it is together.
impl Compared for ItemImpl {
    #[tactic(auto, using(crate::proofs::SameImpls::same_impl))]
    fn is_same(&self, other: &ItemImpl) -> bool {
        self.attrs.is_same(&other.attrs)
            && self.modifiers.is_same(&other.modifiers)
            && self.unsafety.is_same(&other.unsafety)
            && self.impl_token.is_same(&other.impl_token)
            && has_same_list(&self.generics, &other.generics)
            && self.trait_.is_same(&other.trait_)
            && self.self_ty.is_same(&other.self_ty)
            && self.generics.has_same_where(&other.generics)
            && self.items.is_same(&other.items)
    }
}

// Written by tools/kinds.py from here to the end; edits are lost.

impl std::marker::Model for ItemImpl {
    ghost use Rattle.syn_grammar.specs.Grammar.{Syntax};
    ghost use Rattle.syn_grammar.specs.TreeCodes.{syntax_code};

    ghost Value = { Syntax };

    ghost coded = { syntax_code };

    ghost use Rattle.syn_item.specs.Impls.{view_ItemImpl};

    ghost view = { view_ItemImpl };
}

impl std::marker::Model for ImplItemConst {
    ghost use Rattle.syn_grammar.specs.Grammar.{Syntax};
    ghost use Rattle.syn_grammar.specs.TreeCodes.{syntax_code};

    ghost Value = { Syntax };

    ghost coded = { syntax_code };

    ghost use Rattle.syn_item.specs.Impls.{view_ImplItemConst};

    ghost view = { view_ImplItemConst };
}

impl std::marker::Model for ImplItemFn {
    ghost use Rattle.syn_grammar.specs.Grammar.{Syntax};
    ghost use Rattle.syn_grammar.specs.TreeCodes.{syntax_code};

    ghost Value = { Syntax };

    ghost coded = { syntax_code };

    ghost use Rattle.syn_item.specs.Impls.{view_ImplItemFn};

    ghost view = { view_ImplItemFn };
}

impl std::marker::Model for ImplItemType {
    ghost use Rattle.syn_grammar.specs.Grammar.{Syntax};
    ghost use Rattle.syn_grammar.specs.TreeCodes.{syntax_code};

    ghost Value = { Syntax };

    ghost coded = { syntax_code };

    ghost use Rattle.syn_item.specs.Impls.{view_ImplItemType};

    ghost view = { view_ImplItemType };
}

impl std::marker::Model for ImplItemMacro {
    ghost use Rattle.syn_grammar.specs.Grammar.{Syntax};
    ghost use Rattle.syn_grammar.specs.TreeCodes.{syntax_code};

    ghost Value = { Syntax };

    ghost coded = { syntax_code };

    ghost use Rattle.syn_item.specs.Macros.{view_ImplItemMacro};

    ghost view = { view_ImplItemMacro };
}

impl syn_tokens::syntactic::Syntactic for ItemImpl {
    ghost use Rattle.syn_item.specs.Impls.{syntax_of_ItemImpl};

    ghost syntax = { syntax_of_ItemImpl };
}

impl syn_tokens::syntactic::Syntactic for ImplItem {
    ghost use Rattle.syn_item.specs.Impls.{syntax_of_ImplItem};

    ghost syntax = { syntax_of_ImplItem };
}

impl syn_tokens::syntactic::Syntactic for ImplItemConst {
    ghost use Rattle.syn_item.specs.Impls.{syntax_of_ImplItemConst};

    ghost syntax = { syntax_of_ImplItemConst };
}

impl syn_tokens::syntactic::Syntactic for ImplItemFn {
    ghost use Rattle.syn_item.specs.Impls.{syntax_of_ImplItemFn};

    ghost syntax = { syntax_of_ImplItemFn };
}

impl syn_tokens::syntactic::Syntactic for ImplItemType {
    ghost use Rattle.syn_item.specs.Impls.{syntax_of_ImplItemType};

    ghost syntax = { syntax_of_ImplItemType };
}

impl syn_tokens::syntactic::Syntactic for ImplItemMacro {
    ghost use Rattle.syn_item.specs.Macros.{syntax_of_ImplItemMacro};

    ghost syntax = { syntax_of_ImplItemMacro };
}

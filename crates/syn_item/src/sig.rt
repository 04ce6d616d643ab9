//! Signatures of functions, and what is in them.
ghost use Rattle.std.specs.Prelude.{◌≡◌, MatchOption, None, OnOk, Some};
ghost use Rattle.syn_grammar.specs.Grammar.{Both, print};
ghost use Rattle.syn_grammar.specs.Promises.{itself};
ghost use Rattle.syn_grammar.specs.Tokens as grammar;
ghost use Rattle.syn_tokens.specs.Building.{added};
ghost use Rattle.syn_tokens.specs.Kinds.{comma_syntax, mut_syntax, self_value_syntax};
ghost use Rattle.syn_tokens.specs.Leaves.{maybe};
ghost use Rattle.syn_tokens.specs.Listing.{list_of};
ghost use Rattle.syn_lower.specs.Generics.{clause_of};
ghost use Rattle.syn_lower.specs.Parts.{group_syntax};
ghost use Rattle.syn_lower.specs.Paths.{syntax_of_ReturnType};
ghost use Rattle.syn_item.specs.declared.sig.Safety.TheVariants as variants;
ghost use Rattle.syn_item.specs.Signatures.{comma_after, last_comma, parameters_of, received, receiver_as, receiver_in, syntax_of_FnArg, syntax_of_ReceiverKind};

mod parameters;
mod parsing;
mod wrappers;

pub use parsing::foreign_signature;
pub(crate) use parsing::{Qualifiers, safe_or_unsafe, signature_rest, standing, unsafe_only};
use std::alloc::{AllocError, Global};
use syn_lower::attr::print_outer;
use syn_lower::{Attribute, Generics, ReturnType, Type};
use syn_pat::{Pat, PatType};
use syn_tokens::ident::Ident;
use syn_tokens::lifetime::Lifetime;
use syn_tokens::literal::Literal;
use syn_tokens::print::{Print, print_list};
use syn_tokens::punctuated::Punctuated;
use syn_tokens::span::Span;
use syn_tokens::stream::builder::StreamBuilder;
use syn_tokens::syntactic::compare::Compared;
use syn_tokens::syntactic::try_clone::TryClone;
use syn_tokens::token::{
    And, Async, Colon, Comma, Const, DotDotDot, Extern, Mut, Paren, Safe, SelfValue, Unsafe,
};
use syn_tokens::{error, token};
pub use wrappers::{SafeOrUnsafe, UnsafeOnly};

/// A signature, such as `const unsafe extern "C" fn f<T>(self, a: T) -> T where T: Copy`.
#[derive(Drop)]
pub struct Signature {
    pub constness: Option<Const>,
    pub asyncness: Option<Async>,
    pub safety: Safety,
    pub abi: Option<Abi>,
    pub fn_token: token::Fn,
    pub ident: Ident,
    pub generics: Generics,
    pub paren_token: Paren,
    pub inputs: Punctuated<FnArg, Comma>,
    pub variadic: Option<Variadic>,
    pub output: ReturnType,
}

/// What is said of a function or a foreign static before its word.
#[derive(Clone, Copy, Debug)]
pub enum Safety {
    /// `safe`, in foreign modules
    Safe(Safe),
    /// `unsafe`
    Unsafe(Unsafe),
    /// Neither.
    Default,
}

/// Neither `safe` nor `unsafe`.
impl Default for Safety {
    ghost is_default = { λ safety. safety ≡ variants.Default };

    fn default() -> Safety {
        Safety::Default
    }
}

/// An ABI, such as `extern "C"` or `extern` alone.
#[derive(Drop)]
pub struct Abi {
    pub extern_token: Extern,
    pub name: Option<Literal>,
}

/// A parameter of a function.
#[derive(Drop)]
pub enum FnArg {
    /// `self`, `&'a mut self`, `self: Box<Self>`
    Receiver(Receiver),
    /// `a: T`
    Typed(PatType),
}

/// What a method is called on, such as `mut self`, `&self` or `self: Box<Self>`.
#[derive(Drop)]
pub struct Receiver {
    pub attrs: Vec<Attribute>,
    pub mutability: Option<Mut>,
    pub self_token: SelfValue,
    pub kind: ReceiverKind,
}

/// What is around the `self` of a receiver.
#[derive(Drop)]
pub enum ReceiverKind {
    /// `self`
    Value,
    /// The `&'a mut` of `&'a mut self`.
    Reference(And, Option<Lifetime>, Option<Mut>),
    /// The `: Box<Self>` of `self: Box<Self>`.
    Typed(Colon, Box<Type>),
}

/// A variadic parameter, such as `...` or `args: ...,`.
#[derive(Drop)]
pub struct Variadic {
    pub attrs: Vec<Attribute>,
    pub pat: Option<(Box<Pat>, Colon)>,
    pub dots: DotDotDot,
    pub comma: Option<Comma>,
}

impl Signature {
    /// What the method is called on: the first parameter, where it is a receiver.
    #[tactic(auto, using(crate::proofs::Receivers::receiver_found))]
    pub fn receiver(&self) -> Option<&Receiver>
        ensures { MatchOption result (receiver_in self.now ≡ None) (λ receiver. receiver_in self.now ≡ Some receiver.now) }
    {
        match self.inputs.first() {
            Some(arg) => as_receiver(arg),
            None => None,
        }
    }
}

/// The receiver that a parameter is, if it is one.
fn as_receiver(arg: &FnArg) -> Option<&Receiver>
    ensures { MatchOption result (receiver_as arg.now ≡ None) (λ receiver. receiver_as arg.now ≡ Some receiver.now) }
{
    match arg {
        FnArg::Receiver(receiver) => Some(receiver),
        FnArg::Typed(_) => None,
    }
}

/// The comma that parameters before a variadic one lack.
#[tactic(auto, using(syn_tokens::proofs::Prints::prints))]
fn print_last_comma(
    inputs: &Punctuated<FnArg, Comma>,
    out: &mut StreamBuilder,
) -> Result<(), AllocError>
    ensures prints { OnOk result (out.new ≡ added out.old (last_comma inputs.now.last)) }
    ensures begins { out.new.before ≡ out.old.before }
{
    if inputs.trailing_value().is_some() {
        return Comma::new([Span::call_site()]).print_in(out);
    }
    Ok(())
}

/// Parameters before a variadic one, with a comma after the last of them.
#[tactic(auto, using(syn_tokens::proofs::Prints::prints, crate::proofs::Parameters::print_comma_after))]
fn print_before_variadic(
    inputs: &Punctuated<FnArg, Comma>,
    out: &mut StreamBuilder,
) -> Result<(), AllocError>
    ensures prints { OnOk result (out.new ≡ added out.old (print (comma_after (list_of syntax_of_FnArg comma_syntax inputs.now.pairs inputs.now.last)))) }
    ensures begins { out.new.before ≡ out.old.before }
{
    print_list(inputs, out)?;
    print_last_comma(inputs, out)
}

/// Parameters, and a variadic one or none.
#[tactic(auto, using(syn_tokens::proofs::Prints::prints))]
fn print_parameters(
    inputs: &Punctuated<FnArg, Comma>,
    variadic: &Option<Variadic>,
    out: &mut StreamBuilder,
) -> Result<(), AllocError>
    ensures prints { OnOk result (out.new ≡ added out.old (print (parameters_of (list_of syntax_of_FnArg comma_syntax inputs.now.pairs inputs.now.last) (maybe itself variadic.now)))) }
    ensures begins { out.new.before ≡ out.old.before }
{
    match variadic {
        Some(variadic) => {
            print_before_variadic(inputs, out)?;
            variadic.print_in(out)
        }
        None => print_list(inputs, out),
    }
}

/// The same in parentheses.
#[tactic(auto, using(syn_tokens::proofs::Prints::groups))]
fn print_inputs(
    paren_token: &Paren,
    inputs: &Punctuated<FnArg, Comma>,
    variadic: &Option<Variadic>,
    out: &mut StreamBuilder,
) -> Result<(), AllocError>
    ensures prints { OnOk result (out.new ≡ added out.old (print (group_syntax grammar.Paren paren_token.now (parameters_of (list_of syntax_of_FnArg comma_syntax inputs.now.pairs inputs.now.last) (maybe itself variadic.now))))) }
    ensures begins { out.new.before ≡ out.old.before }
{
    paren_token.open(out)?;
    print_parameters(inputs, variadic, out)?;
    paren_token.close(out)
}

/// What follows the parameters: a return type and a where clause.
#[tactic(auto, using(syn_tokens::proofs::Prints::prints))]
fn print_end(
    output: &ReturnType,
    generics: &Generics,
    out: &mut StreamBuilder,
) -> Result<(), AllocError>
    ensures prints { OnOk result (out.new ≡ added out.old (print (Both (syntax_of_ReturnType output.now) (clause_of generics.now)))) }
    ensures begins { out.new.before ≡ out.old.before }
{
    output.print_in(out)?;
    generics.print_where(out)
}

/// Between parameters and a variadic one a comma is printed though there is none. The where clause follows the return type.
impl Print for Signature {
    fn print_in(&self, out: &mut StreamBuilder) -> Result<(), AllocError> {
        self.constness.print_in(out)?;
        self.asyncness.print_in(out)?;
        self.safety.print_in(out)?;
        self.abi.print_in(out)?;
        self.fn_token.print_in(out)?;
        self.ident.print_in(out)?;
        self.generics.print_params(out)?;
        print_inputs(&self.paren_token, &self.inputs, &self.variadic, out)?;
        print_end(&self.output, &self.generics, out)
    }
}

/// A receiver after its attributes.
#[tactic(auto, using(syn_tokens::proofs::Prints::prints))]
fn print_received(
    mutability: &Option<Mut>,
    self_token: &SelfValue,
    kind: &ReceiverKind,
    out: &mut StreamBuilder,
) -> Result<(), AllocError>
    ensures prints { OnOk result (out.new ≡ added out.old (print (received (maybe mut_syntax mutability.now) (self_value_syntax self_token.now) (syntax_of_ReceiverKind kind.now)))) }
    ensures begins { out.new.before ≡ out.old.before }
{
    match kind {
        ReceiverKind::Value => {
            mutability.print_in(out)?;
            self_token.print_in(out)
        }
        ReceiverKind::Reference(and_token, lifetime, mutability) => {
            and_token.print_in(out)?;
            lifetime.print_in(out)?;
            mutability.print_in(out)?;
            self_token.print_in(out)
        }
        ReceiverKind::Typed(colon_token, ty) => {
            mutability.print_in(out)?;
            self_token.print_in(out)?;
            colon_token.print_in(out)?;
            ty.print_in(out)
        }
    }
}

/// After `&` the receiver's own `mut` is not printed.
impl Print for Receiver {
    #[tactic(auto, using(syn_tokens::proofs::Prints::prints))]
    fn print_in(&self, out: &mut StreamBuilder) -> Result<(), AllocError> {
        print_outer(&self.attrs, out)?;
        print_received(&self.mutability, &self.self_token, &self.kind, out)
    }
}

impl TryClone for ReceiverKind {
    fn try_clone(&self, alloc: Global) -> error::Result<ReceiverKind> {
        match self {
            ReceiverKind::Value => Ok(ReceiverKind::Value),
            ReceiverKind::Reference(and_token, lifetime, mutability) => Ok(ReceiverKind::Reference(
                *and_token,
                lifetime.try_clone(alloc)?,
                *mutability,
            )),
            ReceiverKind::Typed(colon_token, ty) => {
                Ok(ReceiverKind::Typed(*colon_token, ty.try_clone(alloc)?))
            }
        }
    }
}

impl Compared for ReceiverKind {
    fn is_same(&self, other: &ReceiverKind) -> bool {
        match (self, other) {
            (ReceiverKind::Value, ReceiverKind::Value) => true,
            (ReceiverKind::Reference(a, x, m), ReceiverKind::Reference(b, y, n)) => {
                a.is_same(b) && x.is_same(y) && m.is_same(n)
            }
            (ReceiverKind::Typed(a, x), ReceiverKind::Typed(b, y)) => a.is_same(b) && x.is_same(y),
            _ => false,
        }
    }
}

// Written by tools/kinds.py from here to the end; edits are lost.

impl std::marker::Model for Signature {
    ghost use Rattle.syn_grammar.specs.Grammar.{Syntax};
    ghost use Rattle.syn_grammar.specs.TreeCodes.{syntax_code};

    ghost Value = { Syntax };

    ghost coded = { syntax_code };

    ghost use Rattle.syn_item.specs.Signatures.{view_Signature};

    ghost view = { view_Signature };
}

impl std::marker::Model for Abi {
    ghost use Rattle.syn_grammar.specs.Grammar.{Syntax};
    ghost use Rattle.syn_grammar.specs.TreeCodes.{syntax_code};

    ghost Value = { Syntax };

    ghost coded = { syntax_code };

    ghost use Rattle.syn_item.specs.Plain.{view_Abi};

    ghost view = { view_Abi };
}

impl std::marker::Model for Receiver {
    ghost use Rattle.syn_grammar.specs.Grammar.{Syntax};
    ghost use Rattle.syn_grammar.specs.TreeCodes.{syntax_code};

    ghost Value = { Syntax };

    ghost coded = { syntax_code };

    ghost use Rattle.syn_item.specs.Signatures.{view_Receiver};

    ghost view = { view_Receiver };
}

impl std::marker::Model for Variadic {
    ghost use Rattle.syn_grammar.specs.Grammar.{Syntax};
    ghost use Rattle.syn_grammar.specs.TreeCodes.{syntax_code};

    ghost Value = { Syntax };

    ghost coded = { syntax_code };

    ghost use Rattle.syn_item.specs.Signatures.{view_Variadic};

    ghost view = { view_Variadic };
}

impl syn_tokens::syntactic::Syntactic for Signature {
    ghost use Rattle.syn_grammar.specs.Promises.{itself};

    ghost syntax = { itself };
}

impl syn_tokens::syntactic::Syntactic for Safety {
    ghost use Rattle.syn_item.specs.Signatures.{syntax_of_Safety};

    ghost syntax = { syntax_of_Safety };
}

impl syn_tokens::syntactic::Syntactic for Abi {
    ghost use Rattle.syn_grammar.specs.Promises.{itself};

    ghost syntax = { itself };
}

impl syn_tokens::syntactic::Syntactic for FnArg {
    ghost use Rattle.syn_item.specs.Signatures.{syntax_of_FnArg};

    ghost syntax = { syntax_of_FnArg };
}

impl syn_tokens::syntactic::Syntactic for Receiver {
    ghost use Rattle.syn_grammar.specs.Promises.{itself};

    ghost syntax = { itself };
}

impl syn_tokens::syntactic::Syntactic for ReceiverKind {
    ghost use Rattle.syn_item.specs.Signatures.{syntax_of_ReceiverKind};

    ghost syntax = { syntax_of_ReceiverKind };
}

impl syn_tokens::syntactic::Syntactic for Variadic {
    ghost use Rattle.syn_grammar.specs.Promises.{itself};

    ghost syntax = { itself };
}

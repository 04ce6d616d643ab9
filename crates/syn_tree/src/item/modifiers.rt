//! Words and marks that few items have: what a caller that knows none of them refuses by `require_empty`.
ghost use Rattle.std.specs.Prelude.{◌≡◌, ◌++◌, None};
ghost use Rattle.syn_tree.specs.Modifiers.{Reports, const_faults, fn_faults, impl_faults, trait_faults, type_faults, unexpected};

use syn_tokens::error::{Error, Result};
use syn_tokens::span::Span;
use syn_tokens::token;
use syn_tokens::token::{Auto, Const, Not};

/// The modifiers of a constant.
#[derive(Clone, Copy, Debug)]
pub struct ConstModifiers {
    pub defaultness: Option<token::Default>,
}

/// The modifiers of a function.
#[derive(Clone, Copy, Debug)]
pub struct FnModifiers {
    pub defaultness: Option<token::Default>,
}

/// The modifiers of a type alias.
#[derive(Clone, Copy, Debug)]
pub struct TypeModifiers {
    pub defaultness: Option<token::Default>,
}

/// The modifiers of an `impl`: `default` and `const` before it, and the `!` of a trait that is not implemented.
#[derive(Clone, Copy, Debug)]
pub struct ImplModifiers {
    pub defaultness: Option<token::Default>,
    pub constness: Option<Const>,
    pub polarity: Option<Not>,
}

/// The modifiers of a trait: `const` before it, and `auto` directly before its word.
#[derive(Clone, Copy, Debug)]
pub struct TraitModifiers {
    pub constness: Option<Const>,
    pub auto_token: Option<Auto>,
}

/// No modifier.
impl Default for ConstModifiers {
    ghost is_default = { λ modifiers. modifiers ≡ record { defaultness = None } };

    fn default() -> ConstModifiers {
        ConstModifiers { defaultness: None }
    }
}

/// No modifier.
impl Default for FnModifiers {
    ghost is_default = { λ modifiers. modifiers ≡ record { defaultness = None } };

    fn default() -> FnModifiers {
        FnModifiers { defaultness: None }
    }
}

/// No modifier.
impl Default for TypeModifiers {
    ghost is_default = { λ modifiers. modifiers ≡ record { defaultness = None } };

    fn default() -> TypeModifiers {
        TypeModifiers { defaultness: None }
    }
}

/// No modifier.
impl Default for ImplModifiers {
    ghost is_default = { λ modifiers. modifiers ≡ record { defaultness = None; constness = None; polarity = None } };

    fn default() -> ImplModifiers {
        ImplModifiers {
            defaultness: None,
            constness: None,
            polarity: None,
        }
    }
}

/// No modifier.
impl Default for TraitModifiers {
    ghost is_default = { λ modifiers. modifiers ≡ record { constness = None; auto_token = None } };

    fn default() -> TraitModifiers {
        TraitModifiers {
            constness: None,
            auto_token: None,
        }
    }
}

impl ConstModifiers {
    /// `Ok` where there is no modifier, and else the fault `unexpected const item modifier` at the one that is there.
    pub fn require_empty(&self) -> Result<()>
        ensures { Reports (const_faults self.now) result }
    {
        require_none(
            self.defaultness.map(|word| word.span),
            None,
            "unexpected const item modifier",
        )
    }
}

impl FnModifiers {
    /// `Ok` where there is no modifier, and else the fault `unexpected function modifier` at the one that is there.
    pub fn require_empty(&self) -> Result<()>
        ensures { Reports (fn_faults self.now) result }
    {
        require_none(
            self.defaultness.map(|word| word.span),
            None,
            "unexpected function modifier",
        )
    }
}

impl TypeModifiers {
    /// `Ok` where there is no modifier, and else the fault `unexpected type alias modifier` at the one that is there.
    pub fn require_empty(&self) -> Result<()>
        ensures { Reports (type_faults self.now) result }
    {
        require_none(
            self.defaultness.map(|word| word.span),
            None,
            "unexpected type alias modifier",
        )
    }
}

impl ImplModifiers {
    /// `Ok` where there is no modifier, and else the fault `unexpected impl modifier` at each that is there: at `default`,
    /// at `!` and then at `const`, spans aside.
    pub fn require_empty(&self) -> Result<()>
        ensures { Reports (impl_faults self.now) result }
    {
        require_none_of_three(
            self.defaultness.map(|word| word.span),
            self.polarity.map(|mark| mark.spans[0]),
            self.constness.map(|word| word.span),
            "unexpected impl modifier",
        )
    }
}

impl TraitModifiers {
    /// `Ok` where there is no modifier, and else the fault `unexpected trait modifier` at each that is there: at `auto` and
    /// then at `const`.
    pub fn require_empty(&self) -> Result<()>
        ensures { Reports (trait_faults self.now) result }
    {
        require_none(
            self.auto_token.map(|word| word.span),
            self.constness.map(|word| word.span),
            "unexpected trait modifier",
        )
    }
}

/// `Ok` where neither place is given, and else a fault of this text at each place that is, in this order.
fn require_none(first: Option<Span>, second: Option<Span>, text: &'static str) -> Result<()>
    ensures { Reports (unexpected text.now first ++ unexpected text.now second) result }
{
    match (first, second) {
        (None, None) => Ok(()),
        (Some(span), None) => Err(Error::new(span, text)),
        (None, Some(span)) => Err(Error::new(span, text)),
        (Some(first), Some(second)) => {
            let mut error = Error::new(first, text);
            error.combine(Error::new(second, text));
            Err(error)
        }
    }
}

/// The same of three places.
fn require_none_of_three(
    first: Option<Span>,
    second: Option<Span>,
    third: Option<Span>,
    text: &'static str,
) -> Result<()>
    ensures { Reports (unexpected text.now first ++ unexpected text.now second ++ unexpected text.now third) result }
{
    match (first, second, third) {
        (None, second, third) => require_none(second, third, text),
        (Some(first), None, third) => require_none(Some(first), third, text),
        (Some(first), Some(second), None) => require_none(Some(first), Some(second), text),
        (Some(first), Some(second), Some(third)) => {
            let mut error = Error::new(first, text);
            error.combine(Error::new(second, text));
            error.combine(Error::new(third, text));
            Err(error)
        }
    }
}

// Written by tools/kinds.py from here to the end; edits are lost.

impl syn_tokens::syntactic::Syntactic for ConstModifiers {
    ghost use Rattle.syn_tree.specs.Modifiers.{syntax_of_ConstModifiers};

    ghost syntax = { syntax_of_ConstModifiers };
}

impl syn_tokens::syntactic::Syntactic for FnModifiers {
    ghost use Rattle.syn_tree.specs.Modifiers.{syntax_of_FnModifiers};

    ghost syntax = { syntax_of_FnModifiers };
}

impl syn_tokens::syntactic::Syntactic for TypeModifiers {
    ghost use Rattle.syn_tree.specs.Modifiers.{syntax_of_TypeModifiers};

    ghost syntax = { syntax_of_TypeModifiers };
}

impl syn_tokens::syntactic::Syntactic for ImplModifiers {
    ghost use Rattle.syn_tree.specs.Modifiers.{syntax_of_ImplModifiers};

    ghost syntax = { syntax_of_ImplModifiers };
}

impl syn_tokens::syntactic::Syntactic for TraitModifiers {
    ghost use Rattle.syn_tree.specs.Modifiers.{syntax_of_TraitModifiers};

    ghost syntax = { syntax_of_TraitModifiers };
}

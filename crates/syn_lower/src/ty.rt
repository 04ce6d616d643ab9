//! Types.
ghost use Rattle.std.specs.Prelude.{◌≡◌, OnOk};
ghost use Rattle.syn_grammar.specs.Grammar.{print};
ghost use Rattle.syn_tokens.specs.Building.{added};
ghost use Rattle.syn_lower.specs.Types.{lone_comma};

use crate::nested::compare::{CompareNested, CompareType, same_list, same_qualified};
use crate::nested::print::{PrintNested, PrintType, print_list, print_qualified};
use crate::{Path, QSelf};
use std::alloc::AllocError;
use syn_recognize::deferred::DeferredExpr;
use syn_tokens::lifetime::Lifetime;
use syn_tokens::print::Print;
use syn_tokens::punctuated::Punctuated;
use syn_tokens::span::Span;
use syn_tokens::stream::TokenStream;
use syn_tokens::stream::builder::StreamBuilder;
use syn_tokens::syntactic::compare::Compared;
use syn_tokens::token::{And, Bracket, Comma, Const, Group, Mut, Not, Paren, Semi, Star};

/// A type.
#[cycle(types)]
#[derive(Drop)]
pub enum Type {
    /// `[T; n]`
    Array(TypeArray),
    /// A type in a group without delimiters.
    Group(TypeGroup),
    /// `!`
    Never(TypeNever),
    /// `(T)`
    Paren(TypeParen),
    /// `std::vec::Vec<T>`, `<Vec<T> as IntoIterator>::Item`
    Path(TypePath),
    /// `*const T`, `*mut T`
    Ptr(TypePtr),
    /// `&'a mut T`
    Reference(TypeReference),
    /// `[T]`
    Slice(TypeSlice),
    /// `()`, `(A, B)`
    Tuple(TypeTuple),
    /// Tokens that represent the type of a field named `_`: `struct` or `union` and fields in braces.
    Verbatim(TokenStream),
}

/// An array: a type and a length, which is stored as tokens until it is opened.
#[cycle(types)]
#[derive(Drop)]
pub struct TypeArray {
    pub bracket_token: Bracket,
    pub elem: Box<Type>,
    pub semi_token: Semi,
    pub len: DeferredExpr,
}

/// A type in a group without delimiters, as macros make them.
#[cycle(types)]
#[derive(Drop)]
pub struct TypeGroup {
    pub group_token: Group,
    pub elem: Box<Type>,
}

/// The never type.
#[derive(Drop)]
pub struct TypeNever {
    pub bang_token: Not,
}

/// A type in parentheses.
#[cycle(types)]
#[derive(Drop)]
pub struct TypeParen {
    pub paren_token: Paren,
    pub elem: Box<Type>,
}

/// A path as a type, perhaps with a type in `< >` before it.
#[cycle(types)]
#[derive(Drop)]
pub struct TypePath {
    pub qself: Option<QSelf>,
    pub path: Path,
}

/// A pointer: `*`, `const` or `mut`, and a type.
#[cycle(types)]
#[derive(Drop)]
pub struct TypePtr {
    pub star_token: Star,
    pub const_token: Option<Const>,
    pub mutability: Option<Mut>,
    pub elem: Box<Type>,
}

/// A reference: `&`, perhaps a lifetime, perhaps `mut`, and a type.
#[cycle(types)]
#[derive(Drop)]
pub struct TypeReference {
    pub and_token: And,
    pub lifetime: Option<Lifetime>,
    pub mutability: Option<Mut>,
    pub elem: Box<Type>,
}

/// A slice.
#[cycle(types)]
#[derive(Drop)]
pub struct TypeSlice {
    pub bracket_token: Bracket,
    pub elem: Box<Type>,
}

/// A tuple. One value without a comma after it is printed with one, since it would be a type in parentheses else.
#[cycle(types)]
#[derive(Drop)]
pub struct TypeTuple {
    pub paren_token: Paren,
    pub elems: Punctuated<Type, Comma>,
}

/// `const` or `mut`; of a tree made by hand, both where it holds both.
impl PrintNested for TypePtr {
    #[tactic(auto, using(syn_tokens::proofs::Prints::prints, crate::proofs::Types::print_pointer_words))]
    fn print_nested<N: PrintType>(
        &self,
        nested: &N,
        out: &mut StreamBuilder,
    ) -> Result<(), AllocError> {
        self.star_token.print_in(out)?;
        self.const_token.print_in(out)?;
        self.mutability.print_in(out)?;
        nested.print_type(&self.elem, out)
    }
}

impl CompareNested for TypePtr {
    #[tactic(auto, using(crate::proofs::Types::same_pointer_words))]
    fn is_same_nested<N: CompareType>(&self, nested: &N, other: &TypePtr) -> bool {
        self.star_token.is_same(&other.star_token)
            && self.const_token.is_same(&other.const_token)
            && self.mutability.is_same(&other.mutability)
            && nested.is_same_type(&self.elem, &other.elem)
    }
}

impl CompareNested for TypeTuple {
    #[tactic(auto, using(crate::proofs::Types::same_elements, crate::proofs::Smaller::lists))]
    fn is_same_nested<N: CompareType>(&self, nested: &N, other: &TypeTuple) -> bool {
        same_list(nested, &self.elems, &other.elems)
    }
}

impl CompareNested for TypePath {
    #[tactic(auto, using(crate::proofs::SameQualified::qualified_no_path, crate::proofs::SameQualified::path_no_qualified))]
    fn is_same_nested<N: CompareType>(&self, nested: &N, other: &TypePath) -> bool {
        match (&self.qself, &other.qself) {
            (Some(a), Some(b)) => same_qualified(nested, a, &self.path, b, &other.path),
            (None, None) => self.path.is_same_nested(nested, &other.path),
            (Some(_), None) => false,
            (None, Some(_)) => false,
        }
    }
}

/// After one type alone a comma is printed in any case.
impl PrintNested for TypeTuple {
    #[tactic(auto, using(syn_tokens::proofs::Prints::groups, crate::proofs::Types::print_elements, crate::proofs::Smaller::lists))]
    fn print_nested<N: PrintType>(
        &self,
        nested: &N,
        out: &mut StreamBuilder,
    ) -> Result<(), AllocError> {
        self.paren_token.open(out)?;
        print_list(nested, &self.elems, out)?;
        print_lone_comma(&self.elems, out)?;
        self.paren_token.close(out)
    }
}

/// The comma that a tuple of one type lacks.
#[tactic(auto, using(syn_tokens::proofs::Prints::prints))]
fn print_lone_comma(
    elems: &Punctuated<Type, Comma>,
    out: &mut StreamBuilder,
) -> Result<(), AllocError>
    ensures prints { OnOk result (out.new ≡ added out.old (lone_comma elems.now.pairs elems.now.last)) }
    ensures begins { out.new.before ≡ out.old.before }
{
    if elems.pairs().is_empty() && elems.trailing_value().is_some() {
        return Comma::new([Span::call_site()]).print_in(out);
    }
    Ok(())
}

impl PrintNested for TypePath {
    fn print_nested<N: PrintType>(
        &self,
        nested: &N,
        out: &mut StreamBuilder,
    ) -> Result<(), AllocError> {
        match &self.qself {
            Some(qself) => print_qualified(nested, qself, &self.path, out),
            None => self.path.print_nested(nested, out),
        }
    }
}

// Written by tools/kinds.py from here to the end; edits are lost.

impl std::marker::Model for TypeArray {
    ghost use Rattle.syn_grammar.specs.Grammar.{Syntax};
    ghost use Rattle.syn_grammar.specs.TreeCodes.{syntax_code};

    ghost Value = { Syntax };

    ghost coded = { syntax_code };

    ghost use Rattle.syn_lower.specs.Types.{view_TypeArray};

    ghost view = { view_TypeArray };

    ghost use Rattle.syn_lower.specs.Sizes.{tree_size};

    ghost size = { tree_size };

    ghost use Rattle.syn_lower.specs.Falls.{falls_TypeArray};

    ghost size_decreases = { λ a h. falls_TypeArray a };
}

impl std::marker::Model for TypeGroup {
    ghost use Rattle.syn_grammar.specs.Grammar.{Syntax};
    ghost use Rattle.syn_grammar.specs.TreeCodes.{syntax_code};

    ghost Value = { Syntax };

    ghost coded = { syntax_code };

    ghost use Rattle.syn_lower.specs.Types.{view_TypeGroup};

    ghost view = { view_TypeGroup };

    ghost use Rattle.syn_lower.specs.Sizes.{tree_size};

    ghost size = { tree_size };

    ghost use Rattle.syn_lower.specs.Falls.{falls_TypeGroup};

    ghost size_decreases = { λ a h. falls_TypeGroup a };
}

impl std::marker::Model for TypeNever {
    ghost use Rattle.syn_grammar.specs.Grammar.{Syntax};
    ghost use Rattle.syn_grammar.specs.TreeCodes.{syntax_code};

    ghost Value = { Syntax };

    ghost coded = { syntax_code };

    ghost use Rattle.syn_lower.specs.Types.{view_TypeNever};

    ghost view = { view_TypeNever };
}

impl std::marker::Model for TypeParen {
    ghost use Rattle.syn_grammar.specs.Grammar.{Syntax};
    ghost use Rattle.syn_grammar.specs.TreeCodes.{syntax_code};

    ghost Value = { Syntax };

    ghost coded = { syntax_code };

    ghost use Rattle.syn_lower.specs.Types.{view_TypeParen};

    ghost view = { view_TypeParen };

    ghost use Rattle.syn_lower.specs.Sizes.{tree_size};

    ghost size = { tree_size };

    ghost use Rattle.syn_lower.specs.Falls.{falls_TypeParen};

    ghost size_decreases = { λ a h. falls_TypeParen a };
}

impl std::marker::Model for TypePath {
    ghost use Rattle.syn_grammar.specs.Grammar.{Syntax};
    ghost use Rattle.syn_grammar.specs.TreeCodes.{syntax_code};

    ghost Value = { Syntax };

    ghost coded = { syntax_code };

    ghost use Rattle.syn_lower.specs.Types.{view_TypePath};

    ghost view = { view_TypePath };

    ghost use Rattle.syn_lower.specs.Sizes.{tree_size};

    ghost size = { tree_size };

    ghost use Rattle.syn_lower.specs.Falls.{falls_TypePath};

    ghost size_decreases = { λ a h. falls_TypePath a };
}

impl std::marker::Model for TypePtr {
    ghost use Rattle.syn_grammar.specs.Grammar.{Syntax};
    ghost use Rattle.syn_grammar.specs.TreeCodes.{syntax_code};

    ghost Value = { Syntax };

    ghost coded = { syntax_code };

    ghost use Rattle.syn_lower.specs.Types.{view_TypePtr};

    ghost view = { view_TypePtr };

    ghost use Rattle.syn_lower.specs.Sizes.{tree_size};

    ghost size = { tree_size };

    ghost use Rattle.syn_lower.specs.Falls.{falls_TypePtr};

    ghost size_decreases = { λ a h. falls_TypePtr a };
}

impl std::marker::Model for TypeReference {
    ghost use Rattle.syn_grammar.specs.Grammar.{Syntax};
    ghost use Rattle.syn_grammar.specs.TreeCodes.{syntax_code};

    ghost Value = { Syntax };

    ghost coded = { syntax_code };

    ghost use Rattle.syn_lower.specs.Types.{view_TypeReference};

    ghost view = { view_TypeReference };

    ghost use Rattle.syn_lower.specs.Sizes.{tree_size};

    ghost size = { tree_size };

    ghost use Rattle.syn_lower.specs.Falls.{falls_TypeReference};

    ghost size_decreases = { λ a h. falls_TypeReference a };
}

impl std::marker::Model for TypeSlice {
    ghost use Rattle.syn_grammar.specs.Grammar.{Syntax};
    ghost use Rattle.syn_grammar.specs.TreeCodes.{syntax_code};

    ghost Value = { Syntax };

    ghost coded = { syntax_code };

    ghost use Rattle.syn_lower.specs.Types.{view_TypeSlice};

    ghost view = { view_TypeSlice };

    ghost use Rattle.syn_lower.specs.Sizes.{tree_size};

    ghost size = { tree_size };

    ghost use Rattle.syn_lower.specs.Falls.{falls_TypeSlice};

    ghost size_decreases = { λ a h. falls_TypeSlice a };
}

impl std::marker::Model for TypeTuple {
    ghost use Rattle.syn_grammar.specs.Grammar.{Syntax};
    ghost use Rattle.syn_grammar.specs.TreeCodes.{syntax_code};

    ghost Value = { Syntax };

    ghost coded = { syntax_code };

    ghost use Rattle.syn_lower.specs.Types.{view_TypeTuple};

    ghost view = { view_TypeTuple };

    ghost use Rattle.syn_lower.specs.Sizes.{tree_size};

    ghost size = { tree_size };

    ghost use Rattle.syn_lower.specs.Falls.{falls_TypeTuple};

    ghost size_decreases = { λ a h. falls_TypeTuple a };
}

impl syn_tokens::syntactic::Syntactic for Type {
    ghost use Rattle.syn_lower.specs.Types.{syntax_of_Type};

    ghost syntax = { syntax_of_Type };
}

impl syn_tokens::syntactic::Syntactic for TypeArray {
    ghost use Rattle.syn_grammar.specs.Promises.{itself};

    ghost syntax = { itself };
}

impl syn_tokens::syntactic::Syntactic for TypeGroup {
    ghost use Rattle.syn_grammar.specs.Promises.{itself};

    ghost syntax = { itself };
}

impl syn_tokens::syntactic::Syntactic for TypeNever {
    ghost use Rattle.syn_grammar.specs.Promises.{itself};

    ghost syntax = { itself };
}

impl syn_tokens::syntactic::Syntactic for TypeParen {
    ghost use Rattle.syn_grammar.specs.Promises.{itself};

    ghost syntax = { itself };
}

impl syn_tokens::syntactic::Syntactic for TypePath {
    ghost use Rattle.syn_lower.specs.QualifiedPaths.{syntax_of_TypePath};

    ghost syntax = { syntax_of_TypePath };
}

impl syn_tokens::syntactic::Syntactic for TypePtr {
    ghost use Rattle.syn_grammar.specs.Promises.{itself};

    ghost syntax = { itself };
}

impl syn_tokens::syntactic::Syntactic for TypeReference {
    ghost use Rattle.syn_grammar.specs.Promises.{itself};

    ghost syntax = { itself };
}

impl syn_tokens::syntactic::Syntactic for TypeSlice {
    ghost use Rattle.syn_grammar.specs.Promises.{itself};

    ghost syntax = { itself };
}

impl syn_tokens::syntactic::Syntactic for TypeTuple {
    ghost use Rattle.syn_grammar.specs.Promises.{itself};

    ghost syntax = { itself };
}

//! Patterns.

use crate::nested::compare::{CompareNested, CompareOf, same_list};
use crate::nested::print::{PrintNested, PrintOf, print_list, print_lone_comma};
use crate::paths::{print_path, same_path};
use std::alloc::AllocError;
use syn_lower::{Attribute, Path, QSelf, Type};
use syn_tokens::ident::Ident;
use syn_tokens::print::Print;
use syn_tokens::punctuated::Punctuated;
use syn_tokens::stream::builder::StreamBuilder;
use syn_tokens::syntactic::compare::Compared;
use syn_tokens::token::{Colon, Comma, Mut, Paren, Ref, Underscore};

/// A pattern.
#[cycle(patterns)]
#[derive(Drop)]
pub enum Pat {
    /// `a`, `ref mut a`
    Ident(PatIdent),
    /// `(a)`
    Paren(PatParen),
    /// `A::B`, `<T as A>::B`
    Path(PatPath),
    /// `()`, `(a, b)`
    Tuple(PatTuple),
    /// `A(b, c)`
    TupleStruct(PatTupleStruct),
    /// `a: T`
    Ty(PatType),
    /// `_`
    Wild(PatWild),
}

/// A name, perhaps with `ref` or `mut` or both before it.
#[derive(Drop)]
pub struct PatIdent {
    pub by_ref: Option<Ref>,
    pub mutability: Option<Mut>,
    pub ident: Ident,
}

/// A pattern in parentheses.
#[cycle(patterns)]
#[derive(Drop)]
pub struct PatParen {
    pub paren_token: Paren,
    pub pat: Box<Pat>,
}

/// A path, perhaps with a type in `< >` before it.
#[derive(Drop)]
pub struct PatPath {
    pub qself: Option<QSelf>,
    pub path: Path,
}

/// A tuple. One value without a comma after it is printed with one, since it would be a pattern in parentheses else.
#[cycle(patterns)]
#[derive(Drop)]
pub struct PatTuple {
    pub paren_token: Paren,
    pub elems: Punctuated<Pat, Comma>,
}

/// A path, and patterns in parentheses.
#[cycle(patterns)]
#[derive(Drop)]
pub struct PatTupleStruct {
    pub qself: Option<QSelf>,
    pub path: Path,
    pub paren_token: Paren,
    pub elems: Punctuated<Pat, Comma>,
}

/// A pattern with its type.
#[cycle(patterns)]
#[derive(Drop)]
pub struct PatType {
    pub attrs: Vec<Attribute>,
    pub pat: Box<Pat>,
    pub colon_token: Colon,
    pub ty: Box<Type>,
}

/// `_`
#[derive(Drop)]
pub struct PatWild {
    pub attrs: Vec<Attribute>,
    pub underscore_token: Underscore,
}

/// After one pattern alone a comma is printed in any case.
impl PrintNested<Pat> for PatTuple {
    #[tactic(auto, using(syn_tokens::proofs::Prints::groups, syn_lower::proofs::Types::print_elements, syn_lower::proofs::Smaller::lists))]
    fn print_nested<N: PrintOf<Pat>>(
        &self,
        nested: &N,
        out: &mut StreamBuilder,
    ) -> Result<(), AllocError> {
        self.paren_token.open(out)?;
        print_list(nested, &self.elems, out)?;
        print_lone_comma(&self.elems, out)?;
        self.paren_token.close(out)
    }
}

impl CompareNested<Pat> for PatTuple {
    #[tactic(auto, using(syn_lower::proofs::Types::same_elements, syn_lower::proofs::Smaller::lists))]
    fn is_same_nested<N: CompareOf<Pat>>(&self, nested: &N, other: &PatTuple) -> bool {
        same_list(nested, &self.elems, &other.elems)
    }
}

impl Print for PatPath {
    fn print_in(&self, out: &mut StreamBuilder) -> Result<(), AllocError> {
        print_path(&self.qself, &self.path, out)
    }
}

impl Compared for PatPath {
    fn is_same(&self, other: &PatPath) -> bool {
        same_path(&self.qself, &self.path, &other.qself, &other.path)
    }
}

impl PrintNested<Pat> for PatTupleStruct {
    #[tactic(auto, using(syn_tokens::proofs::Prints::groups, syn_lower::proofs::Smaller::lists))]
    fn print_nested<N: PrintOf<Pat>>(
        &self,
        nested: &N,
        out: &mut StreamBuilder,
    ) -> Result<(), AllocError> {
        print_path(&self.qself, &self.path, out)?;
        self.paren_token.open(out)?;
        print_list(nested, &self.elems, out)?;
        self.paren_token.close(out)
    }
}

impl CompareNested<Pat> for PatTupleStruct {
    #[tactic(auto, using(syn_lower::proofs::Smaller::lists))]
    fn is_same_nested<N: CompareOf<Pat>>(&self, nested: &N, other: &PatTupleStruct) -> bool {
        same_path(&self.qself, &self.path, &other.qself, &other.path)
            && same_list(nested, &self.elems, &other.elems)
    }
}

// Written by tools/kinds.py from here to the end; edits are lost.

impl std::marker::Model for PatIdent {
    ghost use Rattle.syn_grammar.specs.Grammar.{Syntax};
    ghost use Rattle.syn_grammar.specs.TreeCodes.{syntax_code};

    ghost Value = { Syntax };

    ghost coded = { syntax_code };

    ghost use Rattle.syn_pat.specs.Patterns.{view_PatIdent};

    ghost view = { view_PatIdent };
}

impl std::marker::Model for PatParen {
    ghost use Rattle.syn_grammar.specs.Grammar.{Syntax};
    ghost use Rattle.syn_grammar.specs.TreeCodes.{syntax_code};

    ghost Value = { Syntax };

    ghost coded = { syntax_code };

    ghost use Rattle.syn_pat.specs.Patterns.{view_PatParen};

    ghost view = { view_PatParen };

    ghost use Rattle.syn_lower.specs.Sizes.{tree_size};

    ghost size = { tree_size };

    ghost use Rattle.syn_pat.specs.Falls.{falls_PatParen};

    ghost size_decreases = { λ a h. falls_PatParen a };
}

impl std::marker::Model for PatPath {
    ghost use Rattle.syn_grammar.specs.Grammar.{Syntax};
    ghost use Rattle.syn_grammar.specs.TreeCodes.{syntax_code};

    ghost Value = { Syntax };

    ghost coded = { syntax_code };

    ghost use Rattle.syn_pat.specs.Patterns.{view_PatPath};

    ghost view = { view_PatPath };
}

impl std::marker::Model for PatTuple {
    ghost use Rattle.syn_grammar.specs.Grammar.{Syntax};
    ghost use Rattle.syn_grammar.specs.TreeCodes.{syntax_code};

    ghost Value = { Syntax };

    ghost coded = { syntax_code };

    ghost use Rattle.syn_pat.specs.Patterns.{view_PatTuple};

    ghost view = { view_PatTuple };

    ghost use Rattle.syn_lower.specs.Sizes.{tree_size};

    ghost size = { tree_size };

    ghost use Rattle.syn_pat.specs.Falls.{falls_PatTuple};

    ghost size_decreases = { λ a h. falls_PatTuple a };
}

impl std::marker::Model for PatTupleStruct {
    ghost use Rattle.syn_grammar.specs.Grammar.{Syntax};
    ghost use Rattle.syn_grammar.specs.TreeCodes.{syntax_code};

    ghost Value = { Syntax };

    ghost coded = { syntax_code };

    ghost use Rattle.syn_pat.specs.Patterns.{view_PatTupleStruct};

    ghost view = { view_PatTupleStruct };

    ghost use Rattle.syn_lower.specs.Sizes.{tree_size};

    ghost size = { tree_size };

    ghost use Rattle.syn_pat.specs.Falls.{falls_PatTupleStruct};

    ghost size_decreases = { λ a h. falls_PatTupleStruct a };
}

impl std::marker::Model for PatType {
    ghost use Rattle.syn_grammar.specs.Grammar.{Syntax};
    ghost use Rattle.syn_grammar.specs.TreeCodes.{syntax_code};

    ghost Value = { Syntax };

    ghost coded = { syntax_code };

    ghost use Rattle.syn_pat.specs.Patterns.{view_PatType};

    ghost view = { view_PatType };

    ghost use Rattle.syn_lower.specs.Sizes.{tree_size};

    ghost size = { tree_size };

    ghost use Rattle.syn_pat.specs.Falls.{falls_PatType};

    ghost size_decreases = { λ a h. falls_PatType a };
}

impl std::marker::Model for PatWild {
    ghost use Rattle.syn_grammar.specs.Grammar.{Syntax};
    ghost use Rattle.syn_grammar.specs.TreeCodes.{syntax_code};

    ghost Value = { Syntax };

    ghost coded = { syntax_code };

    ghost use Rattle.syn_pat.specs.Patterns.{view_PatWild};

    ghost view = { view_PatWild };
}

impl syn_tokens::syntactic::Syntactic for Pat {
    ghost use Rattle.syn_pat.specs.Patterns.{syntax_of_Pat};

    ghost syntax = { syntax_of_Pat };
}

impl syn_tokens::syntactic::Syntactic for PatIdent {
    ghost use Rattle.syn_grammar.specs.Promises.{itself};

    ghost syntax = { itself };
}

impl syn_tokens::syntactic::Syntactic for PatParen {
    ghost use Rattle.syn_grammar.specs.Promises.{itself};

    ghost syntax = { itself };
}

impl syn_tokens::syntactic::Syntactic for PatPath {
    ghost use Rattle.syn_grammar.specs.Promises.{itself};

    ghost syntax = { itself };
}

impl syn_tokens::syntactic::Syntactic for PatTuple {
    ghost use Rattle.syn_grammar.specs.Promises.{itself};

    ghost syntax = { itself };
}

impl syn_tokens::syntactic::Syntactic for PatTupleStruct {
    ghost use Rattle.syn_grammar.specs.Promises.{itself};

    ghost syntax = { itself };
}

impl syn_tokens::syntactic::Syntactic for PatType {
    ghost use Rattle.syn_grammar.specs.Promises.{itself};

    ghost syntax = { itself };
}

impl syn_tokens::syntactic::Syntactic for PatWild {
    ghost use Rattle.syn_grammar.specs.Promises.{itself};

    ghost syntax = { itself };
}

//! Macros.
ghost use Rattle.std.specs.Prelude.{◌≡◌, OnOk};
ghost use Rattle.syn_grammar.specs.Grammar.{print};
ghost use Rattle.syn_grammar.specs.Tokens.{end, group};
ghost use Rattle.syn_tokens.specs.Building.{added};
ghost use Rattle.syn_tokens.specs.Spans.{at};
ghost use Rattle.syn_pat.specs.Macros.{macro_group};

use std::alloc::{AllocError, Global};
use syn_lower::{MacroDelimiter, Path};
use syn_tokens::error;
use syn_tokens::print::Print;
use syn_tokens::stream::TokenStream;
use syn_tokens::stream::builder::StreamBuilder;
use syn_tokens::syntactic::compare::Compared;
use syn_tokens::syntactic::try_clone::TryClone;
use syn_tokens::token::{DelimiterKind, Delimiters, Not};

/// A macro: a path in module style, `!`, and a group with any tokens in it.
#[derive(Drop)]
pub struct Macro {
    pub path: Path,
    pub bang_token: Not,
    pub delimiter: MacroDelimiter,
    pub tokens: TokenStream,
}

/// A group of these tokens, as they are.
#[tactic(auto, using(syn_tokens::proofs::Prints::groups))]
fn print_tokens_in<K: DelimiterKind>(
    delimiters: &Delimiters<K>,
    tokens: &TokenStream,
    out: &mut StreamBuilder,
) -> Result<(), AllocError>
    ensures prints { OnOk result (out.new ≡ added out.old (group K.delimiter (at delimiters.now.opening) (at delimiters.now.closing) tokens.now end)) }
    ensures begins { out.new.before ≡ out.old.before }
{
    delimiters.open(out)?;
    tokens.print_in(out)?;
    delimiters.close(out)
}

/// A group of these tokens, as they are, whichever delimiters they have.
pub fn print_group(
    delimiter: MacroDelimiter,
    tokens: &TokenStream,
    out: &mut StreamBuilder,
) -> Result<(), AllocError>
    ensures prints { OnOk result (out.new ≡ added out.old (print (macro_group tokens.now delimiter))) }
    ensures begins { out.new.before ≡ out.old.before }
{
    match delimiter {
        MacroDelimiter::Paren(delimiters) => print_tokens_in(&delimiters, tokens, out),
        MacroDelimiter::Brace(delimiters) => print_tokens_in(&delimiters, tokens, out),
        MacroDelimiter::Bracket(delimiters) => print_tokens_in(&delimiters, tokens, out),
    }
}

impl Print for Macro {
    #[tactic(auto, using(syn_tokens::proofs::Prints::prints))]
    fn print_in(&self, out: &mut StreamBuilder) -> Result<(), AllocError> {
        self.path.print_in(out)?;
        self.bang_token.print_in(out)?;
        print_group(self.delimiter, &self.tokens, out)
    }
}

/// The tokens are compared with their spacing.
impl Compared for Macro {
    #[tactic(auto, using(crate::proofs::Macros::same_macro))]
    fn is_same(&self, other: &Macro) -> bool {
        self.path.is_same(&other.path)
            && self.bang_token.is_same(&other.bang_token)
            && self.delimiter.is_same(&other.delimiter)
            && self.tokens == other.tokens
    }
}

impl TryClone for Macro {
    fn try_clone(&self, alloc: Global) -> error::Result<Macro> {
        Ok(Macro {
            path: self.path.try_clone(alloc)?,
            bang_token: self.bang_token,
            delimiter: self.delimiter,
            tokens: self.tokens.try_clone(alloc)?,
        })
    }
}

// Written by tools/kinds.py from here to the end; edits are lost.

impl std::marker::Model for Macro {
    ghost use Rattle.syn_grammar.specs.Grammar.{Syntax};
    ghost use Rattle.syn_grammar.specs.TreeCodes.{syntax_code};

    ghost Value = { Syntax };

    ghost coded = { syntax_code };

    ghost use Rattle.syn_pat.specs.Macros.{view_Macro};

    ghost view = { view_Macro };
}

impl syn_tokens::syntactic::Syntactic for Macro {
    ghost use Rattle.syn_grammar.specs.Promises.{itself};

    ghost syntax = { itself };
}

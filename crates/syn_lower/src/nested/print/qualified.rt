//! Qualified paths.
ghost use Rattle.std.specs.Prelude.{◌≡◌, ◌≤◌, ℕ, OnOk};
ghost use Rattle.syn_grammar.specs.Grammar.{print};
ghost use Rattle.syn_tokens.specs.Building.{added};
ghost use Rattle.syn_tokens.specs.Kinds.{gt_syntax};
ghost use Rattle.syn_lower.specs.QualifiedPaths.{after_type, with_qself, syntax_of_TypePath};
ghost use Rattle.syn_lower.specs.QualifiedPrints.{word_part, words_row};
ghost use Rattle.syn_lower.specs.Sizes.{tree_size, values_size};

use crate::nested::print::{PrintNested, PrintType, print_list};
use crate::{Path, QSelf};
use std::alloc::AllocError;
use syn_tokens::print::Print;
use syn_tokens::punctuated::Punctuated;
use syn_tokens::stream::builder::StreamBuilder;
use syn_tokens::token::Gt;

/// A path with a type in `< >` before it: the words of the trait are inside, after `as`.
#[tactic(auto, using(syn_tokens::proofs::Prints::prints))]
pub fn print_qualified<N: PrintType>(
    nested: &N,
    qself: &QSelf,
    path: &Path,
    out: &mut StreamBuilder,
) -> Result<(), AllocError>
    requires { (n : ℕ) → n ≤ tree_size (syntax_of_TypePath (with_qself qself.now path.now)) → N.may nested.now n }
    ensures prints { OnOk result (out.new ≡ added out.old (print (syntax_of_TypePath (with_qself qself.now path.now)))) }
    ensures begins { out.new.before ≡ out.old.before }
{
    let _words = &path.segments;
    qself.lt_token.print_in(out)?;
    nested.print_type(&qself.ty, out)?;
    print_after_type(nested, qself, path, out)
}

/// What follows its type. A position after the last word counts as that; without a word inside no `as` is printed.
#[tactic(auto, using(syn_tokens::proofs::Prints::prints, crate::proofs::QualifiedPaths::print_no_word_inside, crate::proofs::QualifiedPaths::print_words_inside, crate::proofs::QualifiedPaths::print_part, crate::specs::Falls::qualified_size, crate::proofs::Smaller::in_joined))]
fn print_after_type<N: PrintType>(
    nested: &N,
    qself: &QSelf,
    path: &Path,
    out: &mut StreamBuilder,
) -> Result<(), AllocError>
    requires { (n : ℕ) → n ≤ tree_size (after_type qself.now path.now) → N.may nested.now n }
    ensures prints { OnOk result (out.new ≡ added out.old (print (after_type qself.now path.now))) }
    ensures begins { out.new.before ≡ out.old.before }
{
    let inside = qself.position.min(path.segments.len());
    if inside == 0 {
        qself.gt_token.print_in(out)?;
        path.leading_colon.print_in(out)?;
        print_list(nested, &path.segments, out)
    } else {
        qself.as_token.print_in(out)?;
        path.leading_colon.print_in(out)?;
        print_words(nested, inside, &path.segments, &qself.gt_token, out)
    }
}

/// The words of a path, so many of them inside: `>` follows the last of these.
#[tactic(auto, using(syn_tokens::proofs::Prints::prints, crate::proofs::QualifiedPaths::words_step, crate::proofs::QualifiedPaths::words_done, crate::proofs::Smaller::value_smaller, crate::proofs::Smaller::last_smaller))]
fn print_words<N: PrintType, T: PrintNested, P: Print>(
    nested: &N,
    inside: usize,
    words: &Punctuated<T, P>,
    gt_token: &Gt,
    out: &mut StreamBuilder,
) -> Result<(), AllocError>
    requires { (n : ℕ) → n ≤ values_size T.syntax words.now.pairs words.now.last → N.may nested.now n }
    ensures row { OnOk result (out.new ≡ added out.old (words_row T.syntax P.syntax (print (gt_syntax gt_token.now)) inside words.now.pairs words.now.last)) }
    ensures begins { out.new.before ≡ out.old.before }
{
    let mut left = inside;
    for (word, colons) in words.pairs() {
        print_word(nested, left, word, gt_token, out)?;
        colons.print_in(out)?;
        left = left.saturating_sub(1);
    }
    match words.trailing_value() {
        Some(word) => print_word(nested, left, word, gt_token, out),
        None => Ok(()),
    }
}

/// A word, and `>` where it is the last one inside.
#[tactic(auto, using(syn_tokens::proofs::Prints::prints), unfolding(crate::specs::QualifiedPrints::word_part))]
fn print_word<N: PrintType, T: PrintNested>(
    nested: &N,
    left: usize,
    word: &T,
    gt_token: &Gt,
    out: &mut StreamBuilder,
) -> Result<(), AllocError>
    requires { (n : ℕ) → n ≤ tree_size (T.syntax word.now) → N.may nested.now n }
    ensures prints { OnOk result (out.new ≡ added out.old (word_part T.syntax (print (gt_syntax gt_token.now)) left word.now)) }
    ensures begins { out.new.before ≡ out.old.before }
{
    word.print_nested(nested, out)?;
    if left == 1 {
        return gt_token.print_in(out);
    }
    Ok(())
}

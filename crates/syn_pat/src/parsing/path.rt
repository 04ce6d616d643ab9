//! Parsers of paths in expressions and patterns.
ghost use Rattle.std.specs.Prelude.{◌≡◌, IfOk, IsSome, Some, true};
ghost use Rattle.syn_grammar.specs.Rules as rules;
ghost use Rattle.syn_grammar.specs.Table as table;
ghost use Rattle.syn_grammar.specs.Shape.{untagged};
ghost use Rattle.syn_grammar.specs.Grammar.{Left, Node, Nothing, Right, Shaped, Unshown};
ghost use Rattle.syn_grammar.specs.Run.{and_then, wrap};
ghost use Rattle.syn_tokens.specs.Kinds.{lt_syntax, path_sep_syntax};
ghost use Rattle.syn_lower.specs.Parsing.{sees, parse_rule, parse_form, Computes, Parses, Moved, Kept, itself, IsSyntax, joined_of};
ghost use Rattle.syn_lower.specs.Paths.{syntax_of_PathArguments};
ghost use Rattle.syn_lower.specs.TypeForms.{of_qualified, trait_form};
ghost use Rattle.syn_lower.specs.Types.{syntax_of_Type};
ghost use Rattle.syn_pat.specs.PathForms.{after_trait_form, named_word_form, path_syntax, turbofish_form, word_form};
ghost use Rattle.syn_pat.specs.Patterns.{path_of};

use syn_lower::looks::at_named_word;
use syn_lower::parsing::path_arguments;
use syn_lower::{Path, PathArguments, PathSegment, QSelf, Type};
use syn_parse::buffer::ParseBuffer;
use syn_parse::read::lists::joined_list;
use syn_parse::read::refusal::Parsed;
use syn_recognize::looks::at_turbofish;
use syn_tokens::punctuated::Punctuated;
use syn_tokens::token::{As, Lt, PathSep};

/// A path in an expression or a pattern: `[::]` and words joined by `::`, each with its arguments where `::` and `<` follow it.
#[tactic(auto, using(syn_grammar::proofs::Each::expression_path_is))]
fn expression_path(input: &mut ParseBuffer<'_>) -> Parsed<Path>
    ensures parses { Parses IsSyntax itself rules.expression_path input.old result input.new }
{
    Ok(Path {
        leading_colon: input.read()?,
        segments: expression_words(input)?,
    })
}

/// The words of such a path.
#[tactic(auto, using(crate::proofs::PathLists::expression_words_joined))]
fn expression_words(input: &mut ParseBuffer<'_>) -> Parsed<Punctuated<PathSegment, PathSep>>
    ensures reads { Computes IsSyntax (λ l. joined_of itself path_sep_syntax l.pairs l.last) (parse_rule rules.expression_words input.old) result input.new }
    ensures moved { Moved input.old result input.new }
{
    joined_list::<PathSep, _, _>(input, |next| word(next))
}

/// A word of such a path: an identifier or `Self`, with its arguments where they are next; or `self`, `super` or `crate`.
#[tactic(auto, using(crate::proofs::PathWords::other_word))]
fn word(input: &mut ParseBuffer<'_>) -> Parsed<PathSegment>
    ensures reads { Computes IsSyntax itself (parse_form word_form input.old) result input.new }
    ensures moved { Moved input.old result input.new }
{
    if at_named_word(input) {
        return named_word(input);
    }
    Ok(PathSegment {
        ident: input.read_path_word()?,
        arguments: PathArguments::None,
    })
}

/// An identifier or `Self`, with its arguments where they are next. (It is called only where one of these is next.)
#[tactic(auto, using(crate::proofs::PathWords::named_word))]
fn named_word(input: &mut ParseBuffer<'_>) -> Parsed<PathSegment>
    requires named { sees table.at_named_word input.old ≡ true }
    ensures reads { Computes IsSyntax itself (wrap (Shaped untagged) (parse_form named_word_form input.old)) result input.new }
    ensures moved { Moved input.old result input.new }
{
    Ok(PathSegment {
        ident: input.read_path_word()?,
        arguments: turbofish(input)?,
    })
}

/// The arguments of a word, where `::` and `<` are next.
fn turbofish(input: &mut ParseBuffer<'_>) -> Parsed<PathArguments>
    ensures reads { Computes IsSyntax syntax_of_PathArguments (parse_form turbofish_form input.old) result input.new }
    ensures kept { Kept input.old result input.new }
{
    if at_turbofish(input) {
        path_arguments(input)
    } else {
        Ok(PathArguments::None)
    }
}

/// A path as an expression: a qualified path if `<` is next, or a path. A qualified one holds its type, and how many of the
/// words are those of the trait.
#[tactic(auto, using(syn_grammar::proofs::Each::path_as_expression_is))]
pub fn path_as_expression(input: &mut ParseBuffer<'_>) -> Parsed<(Option<QSelf>, Path)>
    ensures parses { Parses IsSyntax (λ p. path_of p.0 p.1) rules.path_as_expression input.old result input.new }
{
    if input.peek::<Lt>() {
        return qualified_path(input);
    }
    Ok((None, expression_path(input)?))
}

/// A type in `< >`, perhaps followed by `as` and a path; `::` and words.
#[tactic(auto, using(syn_grammar::proofs::Each::qualified_expression_path_is))]
fn qualified_path(input: &mut ParseBuffer<'_>) -> Parsed<(Option<QSelf>, Path)>
    ensures reads { Computes IsSyntax (λ p. path_of p.0 p.1) (wrap Node (wrap Left (parse_rule rules.qualified_expression_path input.old))) result input.new }
    ensures moved { Moved input.old result input.new }
{
    let lt_token = input.read()?;
    let ty = input.read()?;
    if input.peek::<As>() {
        qualified_by_trait(lt_token, ty, input)
    } else {
        qualified_alone(lt_token, ty, input)
    }
}

/// What follows the type of a qualified path without a trait: `>`, `::` and words.
fn qualified_alone(
    lt_token: Lt,
    ty: Box<Type>,
    input: &mut ParseBuffer<'_>,
) -> Parsed<(Option<QSelf>, Path)>
    ensures reads { Computes IsSyntax (λ p. path_of p.0 p.1) (of_qualified (lt_syntax lt_token) (syntax_of_Type ty.value) (and_then (Some (Right (Unshown Nothing), input.old)) (parse_form after_trait_form))) result input.new }
    ensures moved { Moved input.old result input.new }
{
    let qself = QSelf {
        lt_token,
        ty,
        position: 0,
        as_token: None,
        gt_token: input.read()?,
    };
    let path = Path {
        leading_colon: Some(input.read()?),
        segments: expression_words(input)?,
    };
    Ok((Some(qself), path))
}

/// What follows the type of a qualified path with a trait: `as`, the trait's path, `>`, `::` and words.
fn qualified_by_trait(
    lt_token: Lt,
    ty: Box<Type>,
    input: &mut ParseBuffer<'_>,
) -> Parsed<(Option<QSelf>, Path)>
    ensures reads { Computes IsSyntax (λ p. path_of p.0 p.1) (of_qualified (lt_syntax lt_token) (syntax_of_Type ty.value) (and_then (wrap Left (parse_form trait_form input.old)) (parse_form after_trait_form))) result input.new }
    ensures moved { Moved input.old result input.new }
{
    let as_token = input.read()?;
    let (leading_colon, mut segments) = trait_path(input)?;
    let qself = QSelf {
        lt_token,
        ty,
        position: segments.len(),
        as_token: Some(as_token),
        gt_token: input.read()?,
    };
    segments.push_punct(input.read()?)?;
    segments.append(expression_words(input)?)?;
    let path = Path {
        leading_colon,
        segments,
    };
    Ok((Some(qself), path))
}

/// The path of a trait: the `::` before it, and its words.
#[tactic(auto, using(crate::proofs::TraitPaths::ends_with_word))]
fn trait_path(
    input: &mut ParseBuffer<'_>,
) -> Parsed<(Option<PathSep>, Punctuated<PathSegment, PathSep>)>
    ensures reads { Computes IsSyntax (λ p. path_syntax p.0 p.1.pairs p.1.last) (parse_rule rules.type_path input.old) result input.new }
    ensures ends { IfOk result (λ p. IsSome p.1.last) }
    ensures moved { Moved input.old result input.new }
{
    let path: Path = input.read()?;
    Ok((path.leading_colon, path.segments))
}
